//! Judges all of a file that was opened, plainly or as one that may be damaged, and writes how many
//! frames and faults there were.

ghost use Rattle.std.specs.Prelude.{◌≡◌, ◌⊎◌, ℕ, IfErr, IfOk, List, None, Option, false, true};
ghost use Rattle.ffv1_wire.specs.Passage.{between, passage};
ghost use Rattle.ffv1_record.specs.Accepted.{IsAccepted};
ghost use Rattle.ffv1_files.specs.Items.{course_of};
ghost use Rattle.ffv1_video.specs.Profiles.{byte_told, scope_in};
ghost use Rattle.ffv1_video.specs.declared.fault.Fault.TheVariants as fault;
ghost use Rattle.ffv1_video.specs.declared.profile.Profile.{Profile};
ghost use Rattle.ffv1_unpack.specs.AllItems.{ItemsDone, ItemsFault};
ghost use Rattle.ffv1_unpack.specs.CheckAll.{CheckAllDone, CheckAllStops};
ghost use Rattle.ffv1_unpack.specs.Internal.Opens.{OpensStream};
ghost use Rattle.ffv1_unpack.specs.Internal.Plainly.{is_plain};
ghost use Rattle.ffv1_unpack.specs.Internal.Told.{IsToldFault};
ghost use Rattle.ffv1_unpack.specs.Located.{Stands};
ghost use Rattle.ffv1_unpack.specs.Told.{is_telling_fault};

use crate::behind::tell_behind;
use crate::checking::write_counts;
use crate::judging::judge_frames;
use crate::judging_items::judge_items;
use crate::player::Player;
use crate::telling::Places;
use ffv1_files::{Notes, laws as files_laws};
use ffv1_video::Fault;
use ffv1_wire::{ByteIn, ByteOut};
use ffv1_words::FrameRange;
use std::alloc::Allocator;

/// Judges all frames that are left, up to the first fault of the file itself, and writes how many
/// there were, as `check_all` does. `NoFrames` if there was none.
pub(crate) fn judge_plainly<R: ByteIn, W: ByteOut, A: Allocator + Copy>(
    alloc: A,
    player: &mut Player<A>,
    input: &mut R,
    output: &mut W,
    places: Places,
) -> Result<(Option<Fault>, Notes), Fault>
    requires sound { player.old.reader.fault ≡ None }
    requires accepted { IsAccepted player.old.decoder.accepted.configuration
        player.old.decoder.accepted.table }
    ensures ok { (profile : Profile) (i0 : Option (List ℕ)) (ib : ℕ) → OpensStream profile
        player.old.reader player.old.decoder.accepted
        (between i0 (R.remaining input.old) ib (R.failures input.old)) →
        Stands (scope_in profile) i0 (R.remaining input.old) player.old.reader →
        IfOk result (λ told. CheckAllDone profile places.place
        (between i0 (R.remaining input.new) ib (R.failures input.new))
        (passage W.contents W.failures output.old output.new) told.0 told.1) }
    ensures err { (profile : Profile) (i0 : Option (List ℕ)) (ib : ℕ) → OpensStream profile
        player.old.reader player.old.decoder.accepted
        (between i0 (R.remaining input.old) ib (R.failures input.old)) →
        Stands (scope_in profile) i0 (R.remaining input.old) player.old.reader →
        places.byte ≡ byte_told profile places.place →
        IfErr result (CheckAllStops profile places.place
        (between i0 (R.remaining input.new) ib (R.failures input.new))
        (passage W.contents W.failures output.old output.new)) }
    ensures own { IfErr result (λ f. (f ≡ fault.NoFrames)
        ⊎ IsToldFault player.old.reader (R.remaining input.old) f) }
{
    files_laws::frames_come_in_turn();
    files_laws::what_is_read_is_a_file();
    let counts = judge_frames(alloc, player, input, output, places, FrameRange::ALL)?;
    if counts.frames == 0 {
        return Err(Fault::NoFrames);
    }
    write_counts(alloc, output, counts.frames, counts.faults)?;
    Ok((counts.first, player.notes))
}

/// Judges all items that are left, tells what comes after them, and writes how many there were, as
/// `check_all` does. `NoFrames` if there was neither a frame nor a fault.
pub(crate) fn judge_on<R: ByteIn, W: ByteOut, A: Allocator + Copy>(
    alloc: A,
    player: &mut Player<A>,
    input: &mut R,
    output: &mut W,
    place: bool,
) -> Result<(Option<Fault>, Notes), Fault>
    requires sound { player.old.reader.fault ≡ None }
    requires reads { is_plain (course_of player.old.reader) ≡ false }
    requires accepted { IsAccepted player.old.decoder.accepted.configuration
        player.old.decoder.accepted.table }
    ensures ok { (profile : Profile) (i0 : Option (List ℕ)) (ib : ℕ) → OpensStream profile
        player.old.reader player.old.decoder.accepted
        (between i0 (R.remaining input.old) ib (R.failures input.old)) →
        Stands (scope_in profile) i0 (R.remaining input.old) player.old.reader →
        player.old.cued ≡ false → IfOk result (λ told. ItemsDone profile place
        (between i0 (R.remaining input.new) ib (R.failures input.new))
        (passage W.contents W.failures output.old output.new) told.0 told.1) }
    ensures err { (profile : Profile) (i0 : Option (List ℕ)) (ib : ℕ) → OpensStream profile
        player.old.reader player.old.decoder.accepted
        (between i0 (R.remaining input.old) ib (R.failures input.old)) →
        Stands (scope_in profile) i0 (R.remaining input.old) player.old.reader →
        player.old.cued ≡ false → IfErr result (ItemsFault profile place
        (between i0 (R.remaining input.new) ib (R.failures input.new))
        (passage W.contents W.failures output.old output.new)) }
    ensures own { IfErr result (λ f. (is_telling_fault f ≡ true) ⊎ (f ≡ fault.NoFrames)) }
{
    let mut counts = judge_items(alloc, player, input, output, place)?;
    let notes = tell_behind(alloc, player, input, output, &mut counts)?;
    if counts.frames == 0 && counts.faults == 0 {
        return Err(Fault::NoFrames);
    }
    write_counts(alloc, output, counts.frames, counts.faults)?;
    Ok((counts.first, notes))
}
