//! Keeps the last payload before a part of a file that has bytes, and carries it over to the part,
//! of which a first frame without bytes shows it.

ghost use Rattle.std.specs.Prelude.{◌≡◌, ◌⊎◌, ◌<◌, [], IfErr, IfOk, None, OnOk, true};
ghost use Rattle.ffv1_wire.specs.Passage.{passage};
ghost use Rattle.ffv1_files.specs.Places.{amount, container_of};
ghost use Rattle.ffv1_video.specs.declared.fault.Fault.TheVariants as fault;
ghost use Rattle.ffv1_video.specs.Faults.{of_avi};
ghost use Rattle.ffv1_unpack.specs.Internal.Carried.{CarriedAnswers, CarriedRead};
ghost use Rattle.ffv1_unpack.specs.Internal.Located.{LocatedPayload, LocatedStep, StaysReached};
ghost use Rattle.ffv1_unpack.specs.Internal.Passing.{PassKeeps};
ghost use Rattle.ffv1_unpack.specs.Internal.Told.{IfMore, IsOwnStop, IsToldFault};
ghost use Rattle.ffv1_unpack.specs.Stream.{bytes_or};

use crate::player::{NextFrame, Player, Stop, read_payload};
use ffv1_codec::Info;
use ffv1_reads::FileFault;
use ffv1_video::Fault;
use ffv1_wire::{ByteIn, LineSink};
use std::alloc::Allocator;
use std::mem::swap;

/// Keeps a payload in place of the one that is kept, if it has bytes.
fn keep_bytes<A: Allocator>(payload: &mut Vec<u8, A>, kept: &mut Vec<u8, A>)
    ensures { kept.new.items ≡ bytes_or payload.old.items kept.old.items }
{
    if !payload.is_empty() {
        swap(payload, kept);
    }
}

/// Reads so many frames, as `pass_frames` does, and keeps the last payload that has bytes, which
/// takes the place of the one before; nothing is kept if none has any.
pub(crate) fn pass_keeping<R: ByteIn, A: Allocator>(
    player: &mut Player<A>,
    input: &mut R,
    first: u32,
    passed: &mut u64,
    kept: &mut Vec<u8, A>,
) -> Result<(), Fault>
    requires sound { player.old.reader.fault ≡ None }
    requires none { kept.old.items ≡ [] }
    ensures answer { PassKeeps first player.old.reader.place player.new.reader.place
        (passage R.remaining R.failures input.old input.new) passed.new kept.new.items result }
    ensures sound { OnOk result (player.new.reader.fault ≡ None) }
    ensures same { player.new.decoder ≡ player.old.decoder }
    ensures head { player.new.reader.head ≡ player.old.reader.head }
    ensures container { container_of player.new.reader.place
        ≡ container_of player.old.reader.place }
    ensures reached { OnOk result (StaysReached player.old.reader player.new.reader
        (passage R.remaining R.failures input.old input.new)) }
    ensures own { IfErr result (λ f. (f ≡ fault.NoFrames)
        ⊎ IsToldFault player.old.reader (R.remaining input.old) f) }
{
    *passed = 0;
    while *passed < u64::from(first) {
        if !read_payload(player, input)? {
            return Err(Fault::NoFrames);
        }
        keep_bytes(&mut player.payload, kept);
        *passed += 1;
    }
    Ok(())
}

/// What is carried over takes the place of a payload without bytes. Nothing is carried on.
fn carry_over<A: Allocator>(payload: &mut Vec<u8, A>, carried: &mut Vec<u8, A>)
    ensures shown { payload.new.items ≡ bytes_or payload.old.items carried.old.items }
    ensures none { carried.new.items ≡ [] }
{
    if payload.is_empty() {
        swap(payload, carried);
    }
    carried.clear();
}

/// Reads the next payload as `read_payload` does; in place of one without bytes stands then what is
/// carried over to it.
fn read_carried<R: ByteIn, A: Allocator>(
    player: &mut Player<A>,
    input: &mut R,
    carried: &mut Vec<u8, A>,
) -> Result<bool, FileFault>
    requires sound { player.old.reader.fault ≡ None }
    ensures answer { CarriedRead carried.old.items player.old.reader.place
        player.new.reader.place player.new.payload.items player.new.notes
        (passage R.remaining R.failures input.old input.new) result }
    ensures none { IfOk result (λ more. more ≡ true → carried.new.items ≡ []) }
    ensures sound { OnOk result (player.new.reader.fault ≡ None) }
    ensures less { IfOk result (λ more. more ≡ true →
        amount player.new.reader.place < amount player.old.reader.place) }
    ensures same { player.new.decoder ≡ player.old.decoder }
    ensures container { container_of player.new.reader.place
        ≡ container_of player.old.reader.place }
    ensures own { IfErr result (λ f. IsToldFault player.old.reader (R.remaining input.old)
        (of_avi f)) }
    ensures located { LocatedPayload player.old.reader
        (passage R.remaining R.failures input.old input.new) player.new.notes result
        player.new.reader player.new.offset }
{
    match read_payload(player, input) {
        Ok(true) => {
            carry_over(&mut player.payload, carried);
            Ok(true)
        }
        Ok(false) => Ok(false),
        Err(fault) => Err(fault),
    }
}

/// Reads the next frame and decodes it into a sink, as `play` does; one without bytes shows the
/// payload that is carried over to it, and repeats the one before it if there is none.
pub(crate) fn play_carried<R: ByteIn, S: LineSink, A: Allocator>(
    player: &mut Player<A>,
    input: &mut R,
    sink: &mut S,
    carried: &mut Vec<u8, A>,
) -> Result<NextFrame<Info>, Stop>
    requires sound { player.old.reader.fault ≡ None }
    ensures answer { CarriedAnswers S.takes S.refuses player.old.decoder.accepted
        carried.old.items player.old.reader.place player.new.reader.place
        player.new.payload.items player.new.decoder.tally player.new.notes
        (passage R.remaining R.failures input.old input.new) sink.old sink.new result }
    ensures none { IfOk result (λ next. IfMore next (carried.new.items ≡ [])) }
    ensures sound { OnOk result (player.new.reader.fault ≡ None) }
    ensures less { IfOk result (λ next. IfMore next
        (amount player.new.reader.place < amount player.old.reader.place)) }
    ensures same { player.new.decoder.accepted ≡ player.old.decoder.accepted }
    ensures container { container_of player.new.reader.place
        ≡ container_of player.old.reader.place }
    ensures own { IfErr result (IsOwnStop player.old.reader (R.remaining input.old)) }
    ensures located { LocatedStep player.old.reader
        (passage R.remaining R.failures input.old input.new) player.new.notes result
        player.new.reader player.new.offset }
{
    match read_carried(player, input, carried) {
        Ok(false) => Ok(NextFrame::End),
        Ok(true) => {
            if player.payload.is_empty() {
                return Ok(NextFrame::Again);
            }
            match player.decoder.decode(&player.payload, sink) {
                Ok(info) => Ok(NextFrame::Coded(info)),
                Err(fault) => Err(Stop::Payload(fault)),
            }
        }
        Err(fault) => Err(Stop::File(fault)),
    }
}
