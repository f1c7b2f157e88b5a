//! Seeks the next Cluster in damaged bytes.

ghost use Rattle.std.specs.Prelude.{◌≡◌, ℕ, Option, IfOk};
ghost use Rattle.ffv1_wire.specs.Passage.{passage};
ghost use Rattle.ffv1_reads.specs.Ends.{AnswersOrNone};
ghost use Rattle.ffv1_reads.specs.Reads.{Answers};
ghost use Rattle.ffv1_matroska.specs.CuedItems.{CuedBy, cued_sought};
ghost use Rattle.ffv1_matroska.specs.Turns.{byte_matched, cluster_found, found_turn, scanned};
ghost use Rattle.ffv1_matroska.specs.Turns.{seek_turn};
ghost use Rattle.ffv1_matroska.specs.declared.course.Turn.{Turn};

use crate::course::{Pending, Turn};
use crate::outer_turn::turn_of;
use crate::place::{Place, cluster_entered, segment_at};
use ffv1_ebml::{size_of, try_vint};
use ffv1_reads::FileFault;
use ffv1_wire::{ByteIn, read_byte};

/// How many bytes of the ID of a Cluster the last bytes are, after one more.
fn byte_matched(matched: u8, byte: u8) -> u8
    ensures { result ≡ byte_matched matched byte }
{
    match (matched, byte) {
        (_, 0x1F) => 1,
        (1, 0x43) => 2,
        (2, 0xB6) => 3,
        (3, 0x75) => 4,
        _ => 0,
    }
}

/// Passes bytes up to the end of the next ID of a Cluster, and answers how many of so many are left
/// after it; None if they, or the input, end before.
fn scan<R: ByteIn>(input: &mut R, left: u64) -> Result<Option<u64>, FileFault>
    ensures { AnswersOrNone (λ (n : Option ℕ). n) (scanned left 0)
        (passage R.remaining R.failures input.old input.new) result }
{
    let mut matched = 0u8;
    for passed in 0..left {
        let byte = match read_byte(input) {
            Ok(byte) => byte,
            Err(_) => return Err(FileFault::Read),
        };
        let Some(byte) = byte else {
            return Ok(None);
        };
        matched = byte_matched(matched, byte);
        if matched == 4 {
            return Ok(Some(left - passed - 1));
        }
    }
    Ok(None)
}

/// A Cluster that was found, of so many bytes.
fn cluster_found(place: Place, left: u64, size: Option<u64>) -> Turn
    ensures { result ≡ cluster_found place left size }
{
    let (pending, place) = match size {
        None => (Pending::Nothing, segment_at(place, true, left)),
        Some(size) => {
            if left < size {
                (Pending::Seeking, segment_at(place, false, left))
            } else {
                let after = segment_at(place, false, left - size);
                (Pending::Nothing, cluster_entered(after, size))
            }
        }
    };
    Turn::On { pending, place }
}

/// A Cluster whose ID was found, so many bytes before the end of the Segment.
#[tactic(auto, unfolding(crate::specs::Turns::found_turn))]
fn read_found<R: ByteIn>(input: &mut R, place: Place, left: u64) -> Result<Turn, FileFault>
    ensures { Answers (λ (t : Turn). t) (found_turn place left)
        (passage R.remaining R.failures input.old input.new) result }
{
    match try_vint(input, 8, left)? {
        Err(_) => Ok(Turn::On {
            pending: Pending::Seeking,
            place: segment_at(place, false, left.saturating_sub(1)),
        }),
        Ok(size) => {
            let said = size_of(&size.bytes[..size.len]);
            Ok(cluster_found(place, left - size.len as u64, said))
        }
    }
}

/// Seeks the next Cluster. If its ID is found, no Cues have come after it: `cued` is then false.
#[tactic(auto, unfolding(crate::specs::Turns::seek_turn))]
pub(crate) fn seek_cluster<R: ByteIn>(
    input: &mut R,
    place: Place,
    cued: &mut bool,
) -> Result<Option<Turn>, FileFault>
    ensures answer { AnswersOrNone (λ (t : Option Turn). t) (seek_turn place)
        (passage R.remaining R.failures input.old input.new) result }
    ensures cued { IfOk result (λ t. CuedBy
        (λ text. cued_sought cued.old (scanned place.segment 0 text))
        (R.remaining input.old) (R.remaining input.new) cued.new) }
{
    let Some(left) = scan(input, place.segment)? else {
        return Ok(None);
    };
    *cued = false;
    turn_of(read_found(input, place, left))
}
