//! Blocks, up to their frames.

ghost use Rattle.std.specs.Prelude.{◌≡◌, Option, IfOk, IfSome};
ghost use Rattle.ffv1_wire.specs.Passage.{passage};
ghost use Rattle.ffv1_reads.specs.Reads.{Answers};
ghost use Rattle.ffv1_matroska.specs.Blocks.{HasFrameSize, block_read, fields_read, passed_on};
ghost use Rattle.ffv1_matroska.specs.Places.{amount};
ghost use Rattle.ffv1_matroska.specs.declared.place.Step.{Step};

use crate::place::{Place, Step, closed, summed_at};
use crate::track::{TrackNumbers, is_unknown};
use ffv1_ebml::{next_data, number_of, pass_summed, take_summed};
use ffv1_reads::FileFault;
use ffv1_wire::ByteIn;

/// The most bytes of a frame.
const FRAME_LIMIT: u64 = ffv1_reads::FRAME_LIMIT as u64;

/// Passes so many bytes.
///
/// `Checksum` if they are the last of a Cluster and its CRC-32 differs.
#[tactic(auto, unfolding(crate::specs::Blocks::passed_on))]
pub(crate) fn pass_on<R: ByteIn>(
    input: &mut R,
    size: u64,
    place: Place,
) -> Result<Option<Step>, FileFault>
    ensures answer { Answers (λ (s : Option Step). s) (passed_on size place)
        (passage R.remaining R.failures input.old input.new) result }
    ensures sized { IfOk result HasFrameSize }
    ensures same { IfOk result (λ o. IfSome o (λ s. amount s.place ≡ amount place)) }
{
    let mut sum = place.sum;
    pass_summed(input, size, &mut sum)?;
    closed(summed_at(place, sum))
}

/// What comes after the track number of a block: two bytes of time, and flags.
///
/// `Truncated` if there is less; then `Laced` if the flags say so, `ChunkTooLong` if the frame is
/// above 1073741824 bytes, and `EmptyFrame` if it has none, of which no byte is read.
#[tactic(auto, unfolding(crate::specs::Blocks::fields_read))]
fn read_fields<R: ByteIn>(input: &mut R, left: u64, place: Place) -> Result<Option<Step>, FileFault>
    ensures answer { Answers (λ (s : Option Step). s) (fields_read left place)
        (passage R.remaining R.failures input.old input.new) result }
    ensures sized { IfOk result HasFrameSize }
    ensures same { IfOk result (λ o. IfSome o (λ s. amount s.place ≡ amount place)) }
{
    if left < 3 {
        return Err(FileFault::Truncated);
    }
    let mut sum = place.sum;
    let mut fields = [0u8; 3];
    take_summed(input, &mut fields, &mut sum)?;
    if fields[2] / 2 % 4 != 0 {
        return Err(FileFault::Laced);
    }
    let size = left - 3;
    if size > FRAME_LIMIT {
        return Err(FileFault::ChunkTooLong);
    }
    if size == 0 {
        return Err(FileFault::EmptyFrame);
    }
    Ok(Some(Step {
        frame: Some(size),
        time: Some(number_of(&fields[..2])),
        place: summed_at(place, sum),
    }))
}

/// A block of so many bytes, up to its frame; one of another track is passed.
///
/// `BadElement` and `Truncated` if its track number cannot be read, then `BadElement` if no track
/// has it, or, if it is above 127, none has one above that; then as `read_fields` and `pass_on`.
#[tactic(auto, unfolding(crate::specs::Blocks::block_read))]
pub(crate) fn read_block<R: ByteIn>(
    input: &mut R,
    track: TrackNumbers,
    size: u64,
    place: Place,
) -> Result<Option<Step>, FileFault>
    ensures answer { Answers (λ (s : Option Step). s) (block_read track size place)
        (passage R.remaining R.failures input.old input.new) result }
    ensures sized { IfOk result HasFrameSize }
    ensures same { IfOk result (λ o. IfSome o (λ s. amount s.place ≡ amount place)) }
{
    let mut sum = place.sum;
    let number = next_data(input, size, &mut sum)?;
    if number.value != track.number {
        if is_unknown(track.known, number.value) {
            return Err(FileFault::BadElement);
        }
        return pass_on(input, number.left, summed_at(place, sum));
    }
    read_fields(input, number.left, summed_at(place, sum))
}
