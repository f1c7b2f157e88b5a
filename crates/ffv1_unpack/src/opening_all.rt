//! Opens files that may be damaged, for the commands that tell the faults before their first frame.

ghost use Rattle.std.specs.Prelude.{◌≡◌, ◌⊎◌, ◌≤◌, IfErr, IfOk, [], false, true};
ghost use Rattle.std.specs.Vec.{vec_capacity};
ghost use Rattle.ffv1_wire.specs.Passage.{passage};
ghost use Rattle.ffv1_matroska.specs.Salvaged.{most_told};
ghost use Rattle.ffv1_video.specs.declared.profile.Profile.TheVariants.{Wide};
ghost use Rattle.ffv1_video.specs.Profiles.{scope_in};
ghost use Rattle.ffv1_files.specs.Ways.{tells};
ghost use Rattle.ffv1_files.specs.declared.way.Way.TheVariants as ways;
ghost use Rattle.ffv1_unpack.specs.Containers.{is_profile_fault};
ghost use Rattle.ffv1_unpack.specs.Internal.Opens.{OpensStream};
ghost use Rattle.ffv1_unpack.specs.Internal.OpensTold.{OpensTold};
ghost use Rattle.ffv1_unpack.specs.Located.{LocatedFault, Stands};
ghost use Rattle.ffv1_unpack.specs.Opens.{LacksOpening, is_opening_fault};
ghost use Rattle.ffv1_unpack.specs.ToldItems.{HasToldFault, IsReadAgainTelling, IsTried};
ghost use Rattle.ffv1_unpack.specs.ToldItems.{LacksTelling, ToldLacks, is_told};
ghost use Rattle.ffv1_video.specs.declared.fault.Fault.TheVariants as fault;

use crate::player::{Player, open_player_located, player_of, read_head};
use crate::told_first::is_told;
use ffv1_files::{FileReader, ToldFaults, Way};
use ffv1_record::Checked;
use ffv1_video::{Fault, Profile};
use ffv1_wire::AgainIn;
use std::alloc::Allocator;

/// No fault is told, and no memory is taken.
pub(crate) fn none_told<A: Allocator>(alloc: A) -> ToldFaults<A>
    ensures { result.faults.items ≡ [] }
{
    ToldFaults {
        faults: Vec::new(alloc),
        data: 0,
        begun: 0,
    }
}

/// Opens a file at `Wide` as `FileReader::open_told` does, and reads the configuration of its
/// frames.
fn open_stream_told<R: AgainIn, A: Allocator + Copy>(
    alloc: A,
    input: &mut R,
    offset: &mut u64,
    told: &mut ToldFaults<A>,
    way: &mut Way,
) -> Result<(FileReader<A>, Checked<A>), Fault>
    requires room { most_told ≤ vec_capacity told.old.faults }
    ensures ok { way.new ≡ ways.Plainly → IfOk result (λ p. OpensStream Wide p.0 p.1
        (passage R.remaining R.failures input.old input.new)) }
    ensures stands { way.new ≡ ways.Plainly → IfOk result (λ p. Stands (scope_in Wide)
        (R.remaining input.old) (R.remaining input.new) p.0) }
    ensures told { tells way.new ≡ true → IfOk result (λ p. OpensTold Wide
        (passage R.remaining R.failures input.old input.new) told.new.data told.new.faults.items
        p.0 p.1) }
    ensures plainly { tells way.new ≡ true → HasToldFault Wide
        (passage R.remaining R.failures input.old input.new) }
    ensures none { way.new ≡ ways.Plainly → told.new.faults.items ≡ [] }
    ensures err { way.new ≡ ways.Plainly → IfErr result (LacksOpening Wide
        (passage R.remaining R.failures input.old input.new)) }
    ensures stopped { way.new ≡ ways.Plainly → IfErr result (λ f.
        LocatedFault (scope_in Wide) (passage R.remaining R.failures input.old input.new)
        f offset.new) }
    ensures refused { tells way.new ≡ true → IfErr result (λ f. ToldLacks Wide
        (passage R.remaining R.failures input.old input.new) told.new.data told.new.faults.items
        f offset.new) }
    ensures own { IfErr result (λ f. (is_opening_fault f ≡ true)
        ⊎ (is_profile_fault Wide f ≡ true)) }
    ensures again { IfErr result (IsReadAgainTelling Wide (R.begins input.old)
        (passage R.remaining R.failures input.old input.new)) }
    ensures tried { IfErr result (IsTried (passage R.remaining R.failures input.old input.new)) }
{
    let reader = FileReader::open_told(alloc, input, offset, told, way)?;
    let checked = read_head(alloc, Profile::Wide, reader.head())?;
    Ok((reader, checked))
}

/// The same, with the decoder of its frames.
fn open_player_told<R: AgainIn, A: Allocator + Copy>(
    alloc: A,
    input: &mut R,
    offset: &mut u64,
    told: &mut ToldFaults<A>,
    way: &mut Way,
) -> Result<Player<A>, Fault>
    requires room { most_told ≤ vec_capacity told.old.faults }
    ensures ok { way.new ≡ ways.Plainly → IfOk result (λ p. OpensStream Wide p.reader
        p.decoder.accepted (passage R.remaining R.failures input.old input.new)) }
    ensures stands { way.new ≡ ways.Plainly → IfOk result (λ p. Stands (scope_in Wide)
        (R.remaining input.old) (R.remaining input.new) p.reader) }
    ensures uncued { IfOk result (λ p. p.cued ≡ false) }
    ensures told { tells way.new ≡ true → IfOk result (λ p. OpensTold Wide
        (passage R.remaining R.failures input.old input.new) told.new.data told.new.faults.items
        p.reader p.decoder.accepted) }
    ensures plainly { tells way.new ≡ true → HasToldFault Wide
        (passage R.remaining R.failures input.old input.new) }
    ensures none { way.new ≡ ways.Plainly → told.new.faults.items ≡ [] }
    ensures err { way.new ≡ ways.Plainly → IfErr result (LacksOpening Wide
        (passage R.remaining R.failures input.old input.new)) }
    ensures stopped { way.new ≡ ways.Plainly → IfErr result (λ f.
        LocatedFault (scope_in Wide) (passage R.remaining R.failures input.old input.new)
        f offset.new) }
    ensures refused { tells way.new ≡ true → IfErr result (λ f. ToldLacks Wide
        (passage R.remaining R.failures input.old input.new) told.new.data told.new.faults.items
        f offset.new) }
    ensures own { IfErr result (λ f. (is_opening_fault f ≡ true)
        ⊎ (is_profile_fault Wide f ≡ true)) }
    ensures again { IfErr result (IsReadAgainTelling Wide (R.begins input.old)
        (passage R.remaining R.failures input.old input.new)) }
    ensures tried { IfErr result (IsTried (passage R.remaining R.failures input.old input.new)) }
{
    let (reader, checked) = open_stream_told(alloc, input, offset, told, way)?;
    let player = player_of(alloc, reader, checked)?;
    Ok(player)
}

/// A fault that may be told is answered as `OutOfMemory` if there is no memory to tell it.
fn untold(refusal: Fault) -> Fault
    ensures { ((is_told refusal ≡ true) × (result ≡ fault.OutOfMemory))
        ⊎ ((is_told refusal ≡ false) × (result ≡ refusal)) }
{
    if is_told(refusal) {
        return Fault::OutOfMemory;
    }
    refusal
}

/// Opens a file that may be damaged, and makes the decoder of its frames. At `Wide` the faults
/// before its first frame are told as `FileReader::open_told` does, in the way that it says; at
/// `Strict` nothing is told. Opened plainly, all is as of `open_player_located`.
///
/// If the file is refused, `told` has what was told before, and the offset is how many bytes of it
/// come before the element or chunk that is. The list of what is told takes memory before anything
/// is read. If that is refused, the file is opened plainly, and a fault that may be told is then
/// answered as `OutOfMemory`.
pub(crate) fn open_telling<R: AgainIn, A: Allocator + Copy>(
    alloc: A,
    profile: Profile,
    input: &mut R,
    offset: &mut u64,
    told: &mut ToldFaults<A>,
    way: &mut Way,
) -> Result<Player<A>, Fault>
    requires none { told.old.faults.items ≡ [] }
    ensures ok { way.new ≡ ways.Plainly → IfOk result (λ p. OpensStream profile p.reader
        p.decoder.accepted (passage R.remaining R.failures input.old input.new)) }
    ensures stands { way.new ≡ ways.Plainly → IfOk result (λ p. Stands (scope_in profile)
        (R.remaining input.old) (R.remaining input.new) p.reader) }
    ensures uncued { IfOk result (λ p. p.cued ≡ false) }
    ensures told { tells way.new ≡ true → IfOk result (λ p. OpensTold profile
        (passage R.remaining R.failures input.old input.new) told.new.data told.new.faults.items
        p.reader p.decoder.accepted) }
    ensures plainly { tells way.new ≡ true → HasToldFault profile
        (passage R.remaining R.failures input.old input.new) }
    ensures wide { tells way.new ≡ true → profile ≡ Wide }
    ensures none { way.new ≡ ways.Plainly → told.new.faults.items ≡ [] }
    ensures err { way.new ≡ ways.Plainly → IfErr result (λ f.
        LacksOpening profile (passage R.remaining R.failures input.old input.new) f
        ⊎ LacksTelling profile (passage R.remaining R.failures input.old input.new) f) }
    ensures stopped { way.new ≡ ways.Plainly → IfErr result (λ f.
        LocatedFault (scope_in profile) (passage R.remaining R.failures input.old input.new)
        f offset.new) }
    ensures refused { tells way.new ≡ true → IfErr result (λ f. ToldLacks profile
        (passage R.remaining R.failures input.old input.new) told.new.data told.new.faults.items
        f offset.new) }
    ensures own { IfErr result (λ f. (is_opening_fault f ≡ true)
        ⊎ (is_profile_fault profile f ≡ true)) }
    ensures again { IfErr result (IsReadAgainTelling profile (R.begins input.old)
        (passage R.remaining R.failures input.old input.new)) }
    ensures tried { IfErr result (IsTried (passage R.remaining R.failures input.old input.new)) }
{
    *way = Way::Plainly;
    match profile {
        Profile::Strict => match open_player_located(alloc, profile, input, offset) {
            Ok(player) => Ok(player),
            Err(fault) => Err(fault),
        },
        Profile::Wide => match ToldFaults::new(alloc) {
            Ok(room) => {
                *told = room;
                match open_player_told(alloc, input, offset, told, way) {
                    Ok(player) => Ok(player),
                    Err(fault) => Err(fault),
                }
            }
            Err(_refused) => match open_player_located(alloc, profile, input, offset) {
                Ok(player) => Ok(player),
                Err(fault) => Err(untold(fault)),
            },
        },
    }
}
