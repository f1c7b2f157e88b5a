//! Hands lines over.

ghost use Rattle.std.specs.Prelude.{◌≡◌, ℕ, ◌+◌, ◌*◌, ◌≤◌, ◌<◌, List, [], MatchResult, OnOk, IfErr};
ghost use Rattle.std.specs.Prelude.{length};
ghost use Rattle.std.specs.List.{range_with_len};
ghost use Rattle.ffv1_wire.specs.Runs.{Grows};
ghost use Rattle.ffv1_frame.specs.Picture.{width_bytes};
ghost use Rattle.ffv1_frame.specs.Order.{lines_down, hand_events};
ghost use Rattle.ffv1_frame.specs.Decoding.{State, top_of};
ghost use Rattle.ffv1_decode.specs.Internal.Tied.{IsFrame, AreTold};
ghost use Rattle.ffv1_decode.specs.Internal.Progress.{StandsIn, Handed, RefusedIn, sink_fault};
ghost use Rattle.ffv1_decode.specs.OwnFaults.{CountsSink};

use crate::column::Column;
use crate::parts::{CodedLine, Frame, Segment};
use crate::places;
use ffv1_frame::fault::{CodecFault, FrameFault};
use ffv1_record::laws as record_laws;
use ffv1_wire::LineSink;
use std::alloc::Allocator;

/// Hands over a line of a plane.
fn hand_line<A: Allocator, S: LineSink>(
    frame: &Frame<'_, A>,
    line: &CodedLine,
    plane: u8,
    samples: &[u8],
    sink: &mut S,
) -> Result<(), FrameFault>
    requires frame { IsFrame frame.now }
    requires row { line.now.row < frame.now.checked.now.configuration.rows }
    requires y { line.now.y < lines_down frame.now.checked.now.configuration plane line.now.row }
    ensures ok { OnOk result (S.takes sink.old plane
        (top_of frame.now.checked.now.configuration plane line.now.row + line.now.y) samples.now
        sink.new) }
    ensures err { IfErr result (λ f.
        (f ≡ sink_fault frame.now.checked.now.configuration line.now.row plane line.now.y)
        × S.refuses sink.old plane
        (top_of frame.now.checked.now.configuration plane line.now.row + line.now.y) samples.now
        sink.new) }
    ensures counted { CountsSink (S.failures sink.old) (S.failures sink.new) result }
{
    places::slices_lie_beside_one_another();
    record_laws::accepted_configuration_is_in_range();
    let top = frame.grid.first_top(plane as u32, line.row);
    let y = (top + line.y) as u16;
    match sink.line(plane, y, samples) {
        Ok(()) => Ok(()),
        Err(_) => {
            let segment = Segment {
                row: line.row,
                column: 0,
                plane,
                index: 0,
                y: line.y,
                height: line.height,
            };
            Err(frame.fault_in(CodecFault::Sink, &segment, 0))
        }
    }
}

/// Hands over a line of each of its planes, of which the bytes stand in `out`.
pub(crate) fn hand_lines<A: Allocator, S: LineSink>(
    frame: &Frame<'_, A>,
    line: &CodedLine,
    out: &[u8],
    sink: &mut S,
) -> Result<(), FrameFault>
    requires frame { IsFrame frame.now }
    requires row { line.now.row < frame.now.checked.now.configuration.rows }
    requires few { line.now.first + line.now.count ≤ 4 }
    requires y { (i : ℕ) → i < line.now.count →
        line.now.y < lines_down frame.now.checked.now.configuration (line.now.first + i)
        line.now.row }
    requires out { line.now.count * width_bytes frame.now.checked.now.configuration
        ≤ length out.now }
    ensures exact { (coded : ℕ → List ℕ) (initial : S) (columns : List Column) (s : State) →
        let a = frame.now.checked.now in
        Grows S.takes initial s.lines sink.old → AreTold a.table columns s →
        StandsIn a.configuration line.now.first line.now.count out.now s →
        MatchResult result
        (λ _. Handed S.takes S.refuses a coded initial line.now.row line.now.first line.now.count
        line.now.y sink.new s)
        (λ f. RefusedIn S.takes S.refuses a coded initial line.now.row columns
        (hand_events line.now.row (range_with_len line.now.first line.now.count) line.now.y) f
        sink.new s) }
    ensures counted { CountsSink (S.failures sink.old) (S.failures sink.new) result }
{
    places::slices_lie_beside_one_another();
    record_laws::accepted_configuration_is_in_range();
    let bytes = frame.grid.sample_bytes();
    let width = bytes * frame.checked.config().width as usize;
    for index in 0..line.count {
        let plane = line.first + index;
        let at = index as usize * width;
        let end = at + bytes * frame.grid.width(plane as u32) as usize;
        hand_line(frame, line, plane, &out[at..end], sink)?;
    }
    Ok(())
}
