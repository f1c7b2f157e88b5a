//! Passes frames of a file: reads them, and does not decode them.

ghost use Rattle.std.specs.Prelude.{◌≡◌, ◌⊎◌, ℕ, IfErr, None, OnOk, true};
ghost use Rattle.ffv1_wire.specs.Passage.{passage};
ghost use Rattle.ffv1_range.specs.Counts.{saturated};
ghost use Rattle.ffv1_files.specs.Places.{container_of};
ghost use Rattle.ffv1_video.specs.declared.fault.Fault.TheVariants as fault;
ghost use Rattle.ffv1_unpack.specs.Plays.{NotedAfter, has_more};
ghost use Rattle.ffv1_unpack.specs.Internal.Located.{LocatedAfter, StaysReached};
ghost use Rattle.ffv1_unpack.specs.Internal.Passing.{PassAnswers};
ghost use Rattle.ffv1_unpack.specs.Internal.Told.{IsToldFault};

use crate::player::{Player, read_payload};
use ffv1_files::Notes;
use ffv1_video::Fault;
use ffv1_wire::ByteIn;
use std::alloc::Allocator;

/// Whether one more frame may come after so many, if there are at most so many.
pub(crate) fn has_more(most: Option<u32>, count: u64) -> bool
    ensures { (n : ℕ) → count ≡ saturated n → result ≡ has_more most n }
{
    match most {
        Some(most) => count < u64::from(most),
        None => true,
    }
}

/// What is noted of a file of which at most so many frames were read, and so many were there: what
/// was noted of its end, and nothing if that was not read.
pub(crate) fn notes_after(notes: Notes, most: Option<u32>, count: u64) -> Notes
    ensures read { (n : ℕ) → count ≡ saturated n → has_more most n ≡ true → result ≡ notes }
    ensures unread { (n : ℕ) → count ≡ saturated n → NotedAfter result most n }
{
    if has_more(most, count) {
        return notes;
    }
    Notes::NONE
}

/// Reads so many frames, and decodes none. `passed` is how many were read. Refuses with `NoFrames`
/// if the file has fewer, once what comes after it was looked at.
pub(crate) fn pass_frames<R: ByteIn, A: Allocator>(
    player: &mut Player<A>,
    input: &mut R,
    first: u32,
    passed: &mut u64,
) -> Result<(), Fault>
    requires sound { player.old.reader.fault ≡ None }
    ensures answer { PassAnswers first player.old.reader.place player.new.reader.place
        (passage R.remaining R.failures input.old input.new) passed.new result }
    ensures sound { OnOk result (player.new.reader.fault ≡ None) }
    ensures same { player.new.decoder ≡ player.old.decoder }
    ensures head { player.new.reader.head ≡ player.old.reader.head }
    ensures container { container_of player.new.reader.place
        ≡ container_of player.old.reader.place }
    ensures reached { OnOk result (StaysReached player.old.reader player.new.reader
        (passage R.remaining R.failures input.old input.new)) }
    ensures located { IfErr result (λ f. LocatedAfter player.old.reader
        (passage R.remaining R.failures input.old input.new) f player.new.offset) }
    ensures own { IfErr result (λ f. (f ≡ fault.NoFrames)
        ⊎ IsToldFault player.old.reader (R.remaining input.old) f) }
{
    *passed = 0;
    while *passed < u64::from(first) {
        if !read_payload(player, input)? {
            return Err(Fault::NoFrames);
        }
        *passed += 1;
    }
    Ok(())
}
