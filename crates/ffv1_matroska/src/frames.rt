//! Frames, one after the other.

ghost use Rattle.std.specs.Prelude.{◌≡◌, ◌<◌, ◌≤◌, ℕ, List, [], Option, None, IfOk, IfSome};
ghost use Rattle.std.specs.Prelude.{OnErr, OnSome, length};
ghost use Rattle.std.specs.Vec.{vec_capacity};
ghost use Rattle.ffv1_wire.specs.Passage.{passage};
ghost use Rattle.ffv1_matroska.specs.Blocks.{IsFrameSize};
ghost use Rattle.ffv1_matroska.specs.Files.{frame_found, frame_read};
ghost use Rattle.ffv1_reads.specs.Ends.{AnswersOrNone};
ghost use Rattle.ffv1_reads.specs.Room.{HasRoom};
ghost use Rattle.ffv1_matroska.specs.Offsets.{FindsFrom, ReadsFrom};
ghost use Rattle.ffv1_matroska.specs.Places.{amount};
ghost use Rattle.ffv1_matroska.specs.Readers.{Leaves, next_with};
ghost use Rattle.ffv1_matroska.specs.Seen.{FindsSeen, ReadsSeen};
ghost use Rattle.ffv1_matroska.specs.declared.place.Place.{Place};

use crate::place::{Place, is_sound, summed_at};
use crate::segment::step;
use crate::times::{Seen, timed_by};
use crate::track::TrackNumbers;
use ffv1_ebml::fill_summed;
use ffv1_reads::FileFault;
use ffv1_wire::ByteIn;
use std::alloc::Allocator;

/// The size of the next frame, and the place after it, except its sum; None at the end. `here` is
/// then the place before its element, or before the one that was refused, or at the end; and `seen`
/// is what was seen up to the frame, or up to the end.
fn find_frame<R: ByteIn>(
    input: &mut R,
    track: TrackNumbers,
    place: Place,
    here: &mut Place,
    seen: &mut Seen,
) -> Result<Option<(u64, Place)>, FileFault>
    ensures answer { AnswersOrNone (λ (p : Option (ℕ × Place)). p) (frame_found track place)
        (passage R.remaining R.failures input.old input.new) result }
    ensures sized { IfOk result (λ o. IfSome o (λ p. IsFrameSize p.0)) }
    ensures less { IfOk result (λ o. IfSome o (λ p. amount p.1 < amount place)) }
    ensures from { FindsFrom track place (passage R.remaining R.failures input.old input.new) result
        here.new }
    ensures seen { FindsSeen track (place, seen.old)
        (passage R.remaining R.failures input.old input.new) result (here.new, seen.new) }
{
    *here = place;
    let mut came = seen.cued;
    while let Some(next) = step(input, track, *here, &mut came)? {
        *seen = Seen {
            cued: came,
            times: timed_by(track.duration, next, seen.times),
        };
        if let Some(size) = next.frame {
            return Ok(Some((size, next.place)));
        }
        *here = next.place;
    }
    Ok(None)
}

/// The next frame in place of what the vector has, and the place after it; None at the end. After a
/// fault `here` is the place before the element that was refused, and at the end where that is.
/// `seen` is what was seen up to the frame and with that, or up to the end, if there is no fault.
pub(crate) fn read_frame<R: ByteIn, A: Allocator>(
    input: &mut R,
    track: TrackNumbers,
    place: Place,
    here: &mut Place,
    seen: &mut Seen,
    frame: &mut Vec<u8, A>,
) -> Result<Option<Place>, FileFault>
    ensures answer { AnswersOrNone (λ (after : Option Place). next_with frame.new.items after)
        (frame_read track place) (passage R.remaining R.failures input.old input.new) result }
    ensures sized { IfOk result (λ o. OnSome o (IsFrameSize (length frame.new.items))) }
    ensures none { IfOk result (λ after. after ≡ None → frame.new.items ≡ []) }
    ensures less { IfOk result (λ o. IfSome o (λ after. amount after < amount place)) }
    ensures err { OnErr result (Leaves track place (R.remaining input.old) frame.new.items) }
    ensures room { HasRoom (vec_capacity frame.old) (vec_capacity frame.new)
        (length frame.new.items) result }
    ensures from { ReadsFrom track place (passage R.remaining R.failures input.old input.new) result
        here.new }
    ensures seen { ReadsSeen track (place, seen.old)
        (passage R.remaining R.failures input.old input.new) result (here.new, seen.new) }
{
    frame.clear();
    let Some((size, after)) = find_frame(input, track, place, here, seen)? else {
        return Ok(None);
    };
    let mut sum = after.sum;
    fill_summed(input, size as usize, frame, &mut sum)?;
    let last = summed_at(after, sum);
    if !is_sound(last) {
        return Err(FileFault::Checksum);
    }
    Ok(Some(last))
}
