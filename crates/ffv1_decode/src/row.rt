//! Decodes a row of slices.

ghost use Rattle.std.specs.Prelude.{◌≡◌, ℕ, ◌+◌, ◌*◌, ◌<◌, List, None, IsSome};
ghost use Rattle.std.specs.Prelude.{MatchResult, OnOk, length};
ghost use Rattle.ffv1_wire.specs.Runs.{Grows};
ghost use Rattle.ffv1_frame.specs.Picture.{width_bytes};
ghost use Rattle.ffv1_frame.specs.SliceList.{bits_of};
ghost use Rattle.ffv1_frame.specs.Decoding.{State};
ghost use Rattle.ffv1_decode.specs.Internal.Tied.{IsFrame, IsKept, column_at, row_slots};
ghost use Rattle.ffv1_decode.specs.Internal.Tied.{output_length, rolling_lines, plane_group};
ghost use Rattle.ffv1_decode.specs.Internal.Opened.{IsCutOf, coded_by};
ghost use Rattle.ffv1_decode.specs.Internal.Buffers.{HoldBits, KeepsSlices, KeepsLengths};
ghost use Rattle.ffv1_decode.specs.Internal.Buffers.{capacity_of_lines, length_of_lines};
ghost use Rattle.ffv1_decode.specs.Internal.Buffers.{samples_of_lines};
ghost use Rattle.ffv1_decode.specs.Internal.Shared.{AreAbove, KeepsLine, kept_in};
ghost use Rattle.ffv1_decode.specs.Internal.Progress.{FailsIn};
ghost use Rattle.ffv1_decode.specs.OwnFaults.{CountsSink};
ghost use Rattle.ffv1_decode.specs.Internal.Rows.{IsBetween, RowDecoded, open_events};
ghost use Rattle.ffv1_decode.specs.Internal.RowParts.{IsRow, ArePlanes, IsLine, AreLong, HasLines};
ghost use Rattle.ffv1_decode.specs.Internal.RowParts.{slices_of};
ghost use Rattle.ffv1_decode.specs.Internal.Steps.{DecodesLine, DecodesSeries, DecodesPlanes};

use crate::buffers::{Buffers, Lines, Slices};
use crate::finish::FinishedWord;
use crate::hand::hand_lines;
use crate::kept::{keep, kept_at, kept_range};
use crate::opening::open_row;
use crate::parts::{CodedLine, CodedPlanes, Frame, LinesAbove};
use crate::places;
use crate::plane_lines::read_planes;
use crate::states::renew_states;
use ffv1_frame::fault::FrameFault;
use ffv1_frame::info::Info;
use ffv1_line::laws as line_laws;
use ffv1_range::laws as range_laws;
use ffv1_record::{Colour, laws as record_laws};
use ffv1_slice::Spans;
use ffv1_wire::LineSink;
use std::alloc::Allocator;

/// Decodes a line: reads it, makes of it what is handed over, and hands it over, if the row of
/// slices above has not.
fn decode_whole_line<W: FinishedWord, A: Allocator, S: LineSink>(
    frame: &Frame<'_, A>,
    line: &CodedLine,
    slices: &mut Slices<A>,
    above: &LinesAbove<'_, W>,
    cur: &mut [W],
    out: &mut [u8],
    sink: &mut S,
) -> Result<(), FrameFault>
    requires row { IsRow frame.now line.now.row (slices_of slices.old) }
    requires bits { W.holds (bits_of frame.now.checked.now.configuration) }
    requires line { IsLine frame.now.checked.now.configuration line.now }
    requires long { AreLong (λ n. n ≡ line.now.count * frame.now.checked.now.configuration.width)
        (length above.now.two.now) (length above.now.one.now) (length cur.old) }
    requires kept { (i : ℕ) → i < line.now.count →
        IsKept frame.now.checked.now.configuration line.now.row (line.now.first + i) line.now.y
        (length above.now.kept.now) }
    requires out_long { length out.old ≡ line.now.count
        * width_bytes frame.now.checked.now.configuration }
    ensures exact { DecodesLine frame.now.checked.now frame.now.payload.now S.takes S.refuses
        line.now (slices_of slices.old) (slices_of slices.new)
        (rolling_lines (W.samples above.now.two.now) (W.samples above.now.one.now)
        (W.samples cur.old)) (W.samples above.now.kept.now) (W.samples cur.new) sink.old sink.new
        result }
    ensures counted { CountsSink (S.failures sink.old) (S.failures sink.new) result }
    ensures row { OnOk result (IsRow frame.now line.now.row (slices_of slices.new)) }
    ensures same { KeepsSlices slices.old slices.new }
{
    places::slices_lie_beside_one_another();
    record_laws::accepted_configuration_is_in_range();
    range_laws::counters_from_zero_show_all_steps();
    read_planes(
        frame,
        line,
        &mut slices.columns,
        &mut slices.states,
        above,
        cur,
    )?;
    W::finish(frame, line, cur, out)?;
    if line.y < line.shared {
        return Ok(());
    }
    hand_lines(frame, line, out, sink)
}

/// Decodes the lines of planes that are coded together, the first of them beside what is kept of
/// it from the row of slices above, and keeps the last of them, if there is room for it.
fn decode_series<W: FinishedWord, A: Allocator, S: LineSink>(
    planes: &CodedPlanes<'_, A>,
    slices: &mut Slices<A>,
    lines: &mut [W],
    kept: &mut [W],
    out: &mut [u8],
    sink: &mut S,
) -> Result<(), FrameFault>
    requires row { IsRow planes.now.frame.now planes.now.row (slices_of slices.old) }
    requires bits { W.holds (bits_of planes.now.frame.now.checked.now.configuration) }
    requires planes { ArePlanes planes.now.frame.now.checked.now.configuration planes.now.first
        planes.now.count }
    requires lines_long { length lines.old ≡ 3 * (planes.now.count *
        planes.now.frame.now.checked.now.configuration.width) }
    requires kept { (i : ℕ) → i < planes.now.count →
        KeepsLine planes.now.frame.now.checked.now.configuration (planes.now.first + i)
        (length kept.old) }
    requires out_long { length out.old ≡ planes.now.count *
        width_bytes planes.now.frame.now.checked.now.configuration }
    ensures exact { DecodesSeries planes.now.frame.now.checked.now
        planes.now.frame.now.payload.now S.takes S.refuses planes.now.row
        (plane_group planes.now.first planes.now.count) (slices_of slices.old)
        (slices_of slices.new) (W.samples kept.old) (W.samples kept.new) sink.old sink.new
        result }
    ensures counted { CountsSink (S.failures sink.old) (S.failures sink.new) result }
    ensures row { OnOk result (IsRow planes.now.frame.now planes.now.row (slices_of slices.new)) }
    ensures same { KeepsSlices slices.old slices.new }
{
    places::slices_lie_beside_one_another();
    record_laws::accepted_configuration_is_in_range();
    record_laws::accepted_configuration_has_sound_parts();
    line_laws::reading_its_rows_reads_the_cell();
    W::clear(lines);
    let frame = planes.frame;
    let size = planes.count as usize * frame.checked.config().width as usize;
    let (mut two, rest) = lines.split_at_mut(size);
    let (mut one, mut cur) = rest.split_at_mut(size);
    let CodedPlanes {
        row,
        first,
        count,
        ..
    } = *planes;
    let cell = frame.grid.cell_down(first as u32, row);
    let shared = frame.grid.top(first as u32, row) - cell.0;
    for y in 0..cell.1 {
        let line = CodedLine {
            row,
            first,
            count,
            shared,
            y,
            height: cell.1,
        };
        let above = LinesAbove {
            two,
            one,
            kept: kept_at(y, shared, kept),
        };
        decode_whole_line(frame, &line, slices, &above, cur, out, sink)?;
        let free = two;
        two = one;
        one = cur;
        cur = free;
    }
    keep(one, kept);
    Ok(())
}

/// Decodes the planes of a row, one after the other, or for RCT together. The kept lines of Cb and
/// Cr, if there are any, come after the three lines that are needed for that.
fn decode_planes<W: FinishedWord, A: Allocator, S: LineSink>(
    frame: &Frame<'_, A>,
    row: u32,
    slices: &mut Slices<A>,
    lines: &mut [W],
    out: &mut [u8],
    sink: &mut S,
) -> Result<(), FrameFault>
    requires row { IsRow frame.now row (slices_of slices.old) }
    requires bits { W.holds (bits_of frame.now.checked.now.configuration) }
    requires lines { HasLines frame.now.checked.now.configuration (length lines.old) }
    requires out_long { length out.old ≡ output_length frame.now.checked.now.configuration }
    ensures exact { DecodesPlanes frame.now.checked.now frame.now.payload.now S.takes S.refuses
        row (slices_of slices.old) (slices_of slices.new)
        (kept_in frame.now.checked.now.configuration (W.samples lines.old))
        (kept_in frame.now.checked.now.configuration (W.samples lines.new)) sink.old sink.new
        result }
    ensures counted { CountsSink (S.failures sink.old) (S.failures sink.new) result }
    ensures same { KeepsSlices slices.old slices.new }
{
    record_laws::accepted_configuration_has_sound_parts();
    record_laws::accepted_configuration_is_in_range();
    places::slices_lie_beside_one_another();
    let planes = frame.grid.planes() as u8;
    let width = frame.checked.config().width as usize;
    match frame.checked.config().colour {
        Colour::Rct => {
            let all = CodedPlanes {
                frame: &*frame,
                row,
                first: 0,
                count: planes,
            };
            let (together, rest) = lines.split_at_mut(3 * (planes as usize * width));
            decode_series(&all, slices, together, rest, out, sink)
        }
        Colour::YCbCr => {
            let (rolling, kept) = lines.split_at_mut(3 * width);
            for plane in 0..planes {
                let one = CodedPlanes {
                    frame: &*frame,
                    row,
                    first: plane,
                    count: 1,
                };
                let (from, upto) = kept_range(plane, kept.len());
                decode_series(&one, slices, rolling, &mut kept[from..upto], out, sink)?;
            }
            Ok(())
        }
    }
}

/// The same in lines of either words.
fn decode_lines<A: Allocator, S: LineSink>(
    frame: &Frame<'_, A>,
    row: u32,
    slices: &mut Slices<A>,
    lines: &mut Lines<A>,
    out: &mut [u8],
    sink: &mut S,
) -> Result<(), FrameFault>
    requires row { IsRow frame.now row (slices_of slices.old) }
    requires bits { HoldBits lines.old (bits_of frame.now.checked.now.configuration) }
    requires lines { HasLines frame.now.checked.now.configuration (length_of_lines lines.old) }
    requires out_long { length out.old ≡ output_length frame.now.checked.now.configuration }
    ensures exact { DecodesPlanes frame.now.checked.now frame.now.payload.now S.takes S.refuses
        row (slices_of slices.old) (slices_of slices.new)
        (kept_in frame.now.checked.now.configuration (samples_of_lines lines.old))
        (kept_in frame.now.checked.now.configuration (samples_of_lines lines.new)) sink.old
        sink.new result }
    ensures counted { CountsSink (S.failures sink.old) (S.failures sink.new) result }
    ensures same { KeepsSlices slices.old slices.new }
    ensures long { length_of_lines lines.new ≡ length_of_lines lines.old }
    ensures capacity { capacity_of_lines lines.new ≡ capacity_of_lines lines.old }
    ensures words { (bits : ℕ) → HoldBits lines.old bits → HoldBits lines.new bits }
{
    match lines {
        Lines::Narrow(lines) => decode_planes(frame, row, slices, lines, out, sink),
        Lines::Wide(lines) => decode_planes(frame, row, slices, lines, out, sink),
    }
}

/// Decodes a row of slices.
pub(crate) fn decode_row<A: Allocator, B: Allocator, S: LineSink>(
    frame: &Frame<'_, A>,
    spans: &Spans<B>,
    row: u32,
    buffers: &mut Buffers<A>,
    first: &mut Option<Info>,
    sink: &mut S,
) -> Result<(), FrameFault>
    requires frame { IsFrame frame.now }
    requires row { row < frame.now.checked.now.configuration.rows }
    requires many { length buffers.old.slices.columns.items ≡
        frame.now.checked.now.configuration.columns }
    requires cut { IsCutOf frame.now.checked.now frame.now.payload.now spans.now }
    requires closed { (k : ℕ) → k < length buffers.old.slices.columns.items → (column_at
        buffers.old.slices.columns.items k).parked ≡ None }
    requires bits { HoldBits buffers.old.lines (bits_of frame.now.checked.now.configuration) }
    requires lines { HasLines frame.now.checked.now.configuration
        (length_of_lines buffers.old.lines) }
    requires out_long { length buffers.old.out.items
        ≡ output_length frame.now.checked.now.configuration }
    requires room { length buffers.old.slices.states.items ≡
        row_slots frame.now.checked.now.configuration }
    ensures exact { (initial : S) (s : State) →
        let a = frame.now.checked.now in
        let coded : ℕ → List ℕ = coded_by a frame.now.payload.now spans.now in
        IsBetween a.configuration first.old s →
        AreAbove a.configuration row
        (kept_in a.configuration (samples_of_lines buffers.old.lines)) s →
        Grows S.takes initial s.lines sink.old →
        MatchResult result
        (λ _. RowDecoded S.takes S.refuses a coded initial row buffers.new.slices.columns.items
        (kept_in a.configuration (samples_of_lines buffers.new.lines)) first.new sink.new s)
        (λ f. FailsIn S.takes S.refuses a coded initial row buffers.new.slices.columns.items
        (open_events a.configuration row) f sink.new s) }
    ensures known { OnOk result (IsSome first.new) }
    ensures counted { CountsSink (S.failures sink.old) (S.failures sink.new) result }
    ensures same { KeepsLengths buffers.old buffers.new }
{
    record_laws::accepted_configuration_has_sound_parts();
    range_laws::counters_from_zero_show_all_steps();
    renew_states(frame, &mut buffers.slices.states);
    open_row(frame, spans, row, &mut buffers.slices.columns, first)?;
    let Buffers { slices, lines, out } = buffers;
    decode_lines(frame, row, slices, lines, out, sink)
}
