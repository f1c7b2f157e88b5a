//! Slices that do not end where their coder does.

ghost use Rattle.std.specs.Prelude.{◌≡◌, ℕ, ◌-◌, ◌*◌, ◌≤◌, ◌<◌, IsTrue, IsFalse, Some, List, []};
ghost use Rattle.std.specs.Prelude.{length};
ghost use Rattle.ffv1_range.specs.Interval.{interval_of};
ghost use Rattle.ffv1_range.specs.Reading.{Pause, At, resumed};
ghost use Rattle.ffv1_range.specs.Symbols.{Step};
ghost use Rattle.ffv1_range.specs.History.{decisions_after};
ghost use Rattle.ffv1_record.specs.Accepted.{is_rice};
ghost use Rattle.ffv1_frame.specs.Decoding.{Slice, ending_fault};
ghost use Rattle.ffv1_frame.specs.Ending.{HasEnding, LacksEnding, SliceEnds, SliceGoesOn};
ghost use Rattle.ffv1_frame.specs.Order.{IsLastLine, lines_down};
ghost use Rattle.ffv1_decode.specs.Internal.LeftBits.{MayEnd};
ghost use Rattle.ffv1_decode.specs.Internal.Tied.{IsFrame, bytes_in};

use crate::column::Column;
use crate::left_bits::bits_left;
use crate::parts::{Frame, Segment};
use ffv1_frame::fault::CodecFault;
use ffv1_record::Profile;
use std::alloc::Allocator;

/// Whether a segment is of the last line that its slice codes.
fn is_last_line<A: Allocator>(frame: &Frame<'_, A>, segment: &Segment) -> bool
    requires frame { IsFrame frame.now }
    requires row { segment.now.row < frame.now.checked.now.configuration.rows }
    requires y { segment.now.y < lines_down frame.now.checked.now.configuration
        segment.now.plane segment.now.row }
    requires height { segment.now.height ≡ lines_down frame.now.checked.now.configuration
        segment.now.plane segment.now.row }
    ensures yes { IsTrue result → IsLastLine frame.now.checked.now.configuration segment.now.row
        segment.now.plane segment.now.y }
    ensures no { IsFalse result → IsLastLine frame.now.checked.now.configuration segment.now.row
        segment.now.plane segment.now.y → ⊥ }
{
    segment.plane as u32 + 1 == frame.grid.planes() && segment.y + 1 == segment.height
}

/// The fault of a slice that does not end after its last line.
pub(crate) fn ending_fault<A: Allocator>(frame: &Frame<'_, A>) -> CodecFault
    ensures { result ≡ ending_fault (is_rice frame.now.checked.now.configuration.coder) }
{
    if frame.is_rice() {
        return CodecFault::Padding;
    }
    CodecFault::Ending
}

/// Whether the bytes of a column's slice do not end where its decoder stands.
fn is_unended<A: Allocator>(frame: &Frame<'_, A>, column: &Column) -> bool
    requires rises { column.now.first ≤ column.now.last }
    requires inside { column.now.last ≤ length frame.now.payload.now }
    ensures no { IsFalse result → (past : List Step) (pause : Pause) →
        let a = frame.now.checked.now in
        let bytes = bytes_in frame.now.payload.now column.now in
        column.now.parked ≡ Some pause →
        At (resumed pause bytes) (interval_of (decisions_after a.table [] past)) →
        HasEnding a bytes past }
    ensures yes { IsTrue result → (past : List Step) (pause : Pause) →
        let a = frame.now.checked.now in
        let bytes = bytes_in frame.now.payload.now column.now in
        column.now.parked ≡ Some pause →
        At (resumed pause bytes) (interval_of (decisions_after a.table [] past)) →
        LacksEnding a bytes past }
{
    match frame.checked.profile() {
        Profile::Strict => false,
        Profile::Wide => match &column.parked {
            None => false,
            Some(parked) => !parked.is_ended(&frame.payload[column.first..column.last]),
        },
    }
}

/// Whether the bytes of a column's slice do not end where it was read up to: where its decoder
/// stands, or, with zeros up to a byte, where its bits do.
fn goes_on<A: Allocator>(frame: &Frame<'_, A>, column: &Column) -> bool
    requires rises { column.now.first ≤ column.now.last }
    requires inside { column.now.last ≤ length frame.now.payload.now }
    requires left { (n : ℕ) → column.now.bits ≡ Some n →
        n ≤ 8 * (column.now.last - column.now.first) }
    ensures no { IsFalse result → (q : Slice) →
        let a = frame.now.checked.now in
        let bytes = bytes_in frame.now.payload.now column.now in
        MayEnd a bytes column.now q → SliceEnds a bytes q.past q.bits }
    ensures yes { IsTrue result → (q : Slice) →
        let a = frame.now.checked.now in
        let bytes = bytes_in frame.now.payload.now column.now in
        MayEnd a bytes column.now q → SliceGoesOn a bytes q.past q.bits }
{
    if frame.is_rice() {
        let bytes = &frame.payload[column.first..column.last];
        return !bits_left(column, bytes).is_padding();
    }
    is_unended(frame, column)
}

/// Whether a segment is of the last line that its slice codes, and the slice, which was read up to
/// there, does not end there, if the profile asks for that.
pub(crate) fn lacks_ending<A: Allocator>(
    frame: &Frame<'_, A>,
    segment: &Segment,
    column: &Column,
) -> bool
    requires frame { IsFrame frame.now }
    requires row { segment.now.row < frame.now.checked.now.configuration.rows }
    requires y { segment.now.y < lines_down frame.now.checked.now.configuration
        segment.now.plane segment.now.row }
    requires height { segment.now.height ≡ lines_down frame.now.checked.now.configuration
        segment.now.plane segment.now.row }
    requires rises { column.now.first ≤ column.now.last }
    requires inside { column.now.last ≤ length frame.now.payload.now }
    requires left { (n : ℕ) → column.now.bits ≡ Some n →
        n ≤ 8 * (column.now.last - column.now.first) }
    ensures no { IsFalse result → (q : Slice) →
        let a = frame.now.checked.now in
        let bytes = bytes_in frame.now.payload.now column.now in
        MayEnd a bytes column.now q →
        IsLastLine a.configuration segment.now.row segment.now.plane segment.now.y →
        SliceEnds a bytes q.past q.bits }
    ensures yes { IsTrue result → (q : Slice) →
        let a = frame.now.checked.now in
        let bytes = bytes_in frame.now.payload.now column.now in
        MayEnd a bytes column.now q →
        IsLastLine a.configuration segment.now.row segment.now.plane segment.now.y
        × SliceGoesOn a bytes q.past q.bits }
{
    is_last_line(frame, segment) && goes_on(frame, column)
}
