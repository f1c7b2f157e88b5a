//! Reads a line of planes that are coded together.

ghost use Rattle.std.specs.Prelude.{◌≡◌, ℕ, ◌+◌, ◌*◌, ◌≤◌, ◌<◌, IfErr, length};
ghost use Rattle.ffv1_frame.specs.SliceList.{bits_of};
ghost use Rattle.ffv1_decode.specs.OwnFaults.{IsOwn};
ghost use Rattle.ffv1_decode.specs.Internal.Tied.{IsKept, row_slices, rolling_lines};
ghost use Rattle.ffv1_decode.specs.Internal.RowParts.{IsRow, IsLine, AreLong};
ghost use Rattle.ffv1_decode.specs.Internal.Steps.{ReadsLine};

use crate::column::Column;
use crate::parts::{CodedLine, Frame, LinesAbove, Segment};
use crate::places;
use crate::segment::read_at;
use ffv1_frame::fault::FrameFault;
use ffv1_frame::line_word::LineWord;
use std::alloc::Allocator;

/// Reads a line: in each column, from the left, the segment of each plane.
pub(crate) fn read_planes<W: LineWord, A: Allocator>(
    frame: &Frame<'_, A>,
    line: &CodedLine,
    columns: &mut [Column],
    states: &mut [u8],
    above: &LinesAbove<'_, W>,
    cur: &mut [W],
) -> Result<(), FrameFault>
    requires row { IsRow frame.now line.now.row (row_slices columns.old states.old) }
    requires bits { W.holds (bits_of frame.now.checked.now.configuration) }
    requires line { IsLine frame.now.checked.now.configuration line.now }
    requires long { AreLong (λ n. line.now.count * frame.now.checked.now.configuration.width ≤ n)
        (length above.now.two.now) (length above.now.one.now) (length cur.old) }
    requires kept { (i : ℕ) → i < line.now.count →
        IsKept frame.now.checked.now.configuration line.now.row (line.now.first + i) line.now.y
        (length above.now.kept.now) }
    ensures exact { ReadsLine frame.now.checked.now frame.now.payload.now line.now
        (row_slices columns.old states.old) (row_slices columns.new states.new)
        (rolling_lines (W.samples above.now.two.now) (W.samples above.now.one.now)
        (W.samples cur.old)) (W.samples above.now.kept.now) (W.samples cur.new) result }
    ensures own { IfErr result IsOwn }
    ensures row { IsRow frame.now line.now.row (row_slices columns.new states.new) }
{
    places::slices_lie_beside_one_another();
    let many = columns.len();
    'columns: for column in 0..many {
        'planes: for index in 0..line.count {
            let segment = Segment {
                row: line.row,
                column,
                plane: line.first + index,
                index,
                y: line.y,
                height: line.height,
            };
            read_at(frame, &segment, columns, states, above, cur)?;
        }
    }
    Ok(())
}
