//! The chunks of a movi.

ghost use Rattle.std.specs.Prelude.{◌≡◌, ◌≤◌, IfOk, IfSome, List, Option, None, ℕ, codes, false};
ghost use Rattle.std.specs.Prelude.{true};
ghost use Rattle.ffv1_avi.specs.Files.{movi_found};
ghost use Rattle.ffv1_avi.specs.Internal.Offsets.{FindsInMovi};
ghost use Rattle.ffv1_avi.specs.Names.{is_barred, least_bytes, most_bytes};
ghost use Rattle.ffv1_avi.specs.Opens.{frame_judged, list_entered, visit_movi};
ghost use Rattle.ffv1_avi.specs.Readers.{frame_with};
ghost use Rattle.ffv1_avi.specs.Walk.{is_name};
ghost use Rattle.ffv1_reads.specs.Reads.{Answers};
ghost use Rattle.ffv1_wire.specs.Passage.{at_rest, passage};

use crate::chunk::{Entry, is_name, next_entry_in, padded};
use crate::names::{is_barred, is_frame, least_bytes, most_bytes};
use crate::open::own_name;
use crate::place::{Names, Place};
use ffv1_reads::{FileFault, pass};
use ffv1_wire::ByteIn;

/// The size of a frame: `ChunkTooLong` if it is too great, `EmptyFrame` if it is too small.
fn judge_frame(names: Names, size: u32) -> Result<Option<u32>, FileFault>
    ensures sized { IfOk result
        (λ o. IfSome o (λ n. (least_bytes names ≤ n) × (n ≤ most_bytes names))) }
    ensures answer { (left : ℕ) (text : Option (List ℕ)) (failures : ℕ) →
        Answers (λ (size : Option ℕ). (tt, frame_with size left))
        (frame_judged (least_bytes names) (most_bytes names) size left) (at_rest text failures)
        result }
{
    if size > most_bytes(names) {
        return Err(FileFault::ChunkTooLong);
    }
    if size < least_bytes(names) {
        return Err(FileFault::EmptyFrame);
    }
    Ok(Some(size))
}

/// The own name of a list of movi: `NotAvi` if it is not `rec `.
fn open_list<R: ByteIn>(input: &mut R) -> Result<Option<u32>, FileFault>
    ensures sized { IfOk result (λ o. o ≡ None) }
    ensures answer { (left : ℕ) → Answers (λ (size : Option ℕ). (tt, frame_with size left))
        (list_entered 4) (passage R.remaining R.failures input.old input.new) result }
{
    let own = own_name(input)?;
    if !is_name(&own, b"rec ") {
        return Err(FileFault::NotAvi);
    }
    Ok(None)
}

/// A chunk of movi: the size of a frame, or None if it was passed. If every RIFF is read, a frame
/// of no bytes repeats the one before it, and of a list `rec ` its own name is passed.
#[tactic(auto, unfolding(crate::specs::Opens::visit_movi))]
pub(crate) fn visit_movi<R: ByteIn>(
    input: &mut R,
    names: Names,
    entry: Entry,
) -> Result<Option<u32>, FileFault>
    requires { is_barred names entry.name ≡ false → is_name entry.name (codes "LIST") ≡ true →
        entry.size ≡ 4 }
    ensures sized { IfOk result
        (λ o. IfSome o (λ n. (least_bytes names ≤ n) × (n ≤ most_bytes names))) }
    ensures answer { Answers (λ (size : Option ℕ). (tt, frame_with size entry.left))
        (visit_movi names tt entry) (passage R.remaining R.failures input.old input.new) result }
{
    if is_barred(names, entry.name) {
        return Err(FileFault::NotAvi);
    }
    if is_frame(names, entry.name) {
        return judge_frame(names, entry.size);
    }
    if is_name(&entry.name, b"LIST") {
        return open_list(input);
    }
    pass(input, padded(entry.size))?;
    Ok(None)
}

/// The size of a stream's next frame, and what movi has left after it; None at its end. The chunks
/// before its own are counted.
#[tactic(auto, unfolding(crate::specs::Files::movi_found))]
pub(crate) fn find_in_movi<R: ByteIn>(
    input: &mut R,
    place: Place,
    offset: &mut u64,
) -> Result<Option<(u32, u64)>, FileFault>
    ensures sized { IfOk result (λ o. IfSome o
        (λ p. (least_bytes place.names ≤ p.0) × (p.0 ≤ most_bytes place.names))) }
    ensures answer { Answers (λ (p : Option (ℕ × ℕ)). p) (movi_found place.names place.movi)
        (passage R.remaining R.failures input.old input.new) result }
    ensures from { FindsInMovi place (passage R.remaining R.failures input.old input.new) result
        offset.old offset.new }
{
    let mut left = place.movi;
    while let Some(entry) = next_entry_in(input, place.names, left)? {
        if let Some(size) = visit_movi(input, place.names, entry)? {
            return Ok(Some((size, entry.left)));
        }
        *offset = offset.saturating_add(8 + padded(entry.size));
        left = entry.left;
    }
    Ok(None)
}
