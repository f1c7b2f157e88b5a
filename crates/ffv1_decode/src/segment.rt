//! Reads the segment of a line that lies in one slice.

ghost use Rattle.std.specs.Prelude.{◌≡◌, ◌≢◌, ℕ, ◌+◌, ◌*◌, ◌^◌, ◌≤◌, ◌<◌, List, IsSome, OnOk};
ghost use Rattle.std.specs.Prelude.{true, false, IfErr, MatchResult, length, slice_index, take};
ghost use Rattle.ffv1_range.specs.Symbols.{AllHeld, Step};
ghost use Rattle.ffv1_plane.specs.Quantisation.{contexts_of};
ghost use Rattle.ffv1_line.specs.Cell.{Rolls};
ghost use Rattle.ffv1_line.specs.Coding.{coding_by};
ghost use Rattle.ffv1_record.specs.Accepted.{is_rice};
ghost use Rattle.ffv1_frame.specs.declared.fault.CodecFault.TheVariants as fault;
ghost use Rattle.ffv1_frame.specs.Picture.{plane, plane_count};
ghost use Rattle.ffv1_frame.specs.RiceLines.{index_at};
ghost use Rattle.ffv1_frame.specs.SliceList.{class_of, base_of, bits_of, set_at};
ghost use Rattle.ffv1_frame.specs.Order.{lines_down};
ghost use Rattle.ffv1_frame.specs.Decoding.{Slice, fault_in, left_of, width_in};
ghost use Rattle.ffv1_decode.specs.OwnFaults.{IsOwn};
ghost use Rattle.ffv1_decode.specs.Internal.LeftBits.{AreKept, KeepsBits, BitsLine, BitsStop};
ghost use Rattle.ffv1_decode.specs.Internal.Stands.{IsParked, Stands, SegmentRead};
ghost use Rattle.ffv1_decode.specs.Internal.Stands.{SegmentRefused};
ghost use Rattle.ffv1_decode.specs.Internal.Tied.{KeepsBeside, IsFrame, IsOpen, IsKept, HasPlane};
ghost use Rattle.ffv1_decode.specs.Internal.Tied.{bytes_in, slots_in, row_slices, rolling_lines};
ghost use Rattle.ffv1_decode.specs.Internal.RowParts.{IsRow, IsSegment, AreLong};
ghost use Rattle.ffv1_decode.specs.Internal.Steps.{ReadsSegment, StepsSegment};

use crate::column::Column;
use crate::ending::{ending_fault, lacks_ending};
use crate::left_bits::{Refusal, read_bits};
use crate::overread::is_overread;
use crate::parts::{Frame, LinesAbove, Segment};
use crate::places;
use crate::shared::{first_difference, said_left};
use ffv1_frame::class::class_of;
use ffv1_frame::fault::{CodecFault, FrameFault};
use ffv1_frame::line_word::{LineWord, bits_of};
use ffv1_line::{Above, Coding, TooLong, laws as line_laws};
use ffv1_range::{Parked, laws as range_laws};
use ffv1_record::{Colour, laws as record_laws};
use ffv1_rice::laws as rice_laws;
use std::alloc::Allocator;

/// Reads a segment: wakes a decoder on the bytes of its slice, decodes a row by the states of its
/// class, and parks.
fn read_segment<W: LineWord, B: Allocator>(
    parked: &mut Option<Parked>,
    bytes: &[u8],
    coding: &Coding<'_, B>,
    states: &mut [u8],
    above: &Above<'_, W>,
    cur: &mut [W],
) -> Result<(), TooLong>
    requires open { IsSome parked.old }
    requires bits { W.holds coding.now.bits }
    requires few { coding.now.bits ≤ 17 }
    requires some { 0 < length cur.old }
    requires one_long { length above.now.one ≡ length cur.old }
    requires rows { length states.old ≡ contexts_of coding.now.set * 32 }
    requires held { AllHeld coding.now.table states.old }
    ensures exact { (past : List Step) (base : ℕ) (samples : List ℕ) (y : ℕ) →
        let row = W.samples cur.new in
        Stands bytes.now coding.now.table base parked.old states.old past →
        Rolls (length row) samples above.now.two above.now.one y →
        MatchResult result
        (λ _. SegmentRead bytes.now coding.now base base past samples (length row) y parked.new
        states.new row)
        (λ e. SegmentRefused bytes.now coding.now base base past samples (length row) y parked.new
        (take e.x row) e.x) }
    ensures small { OnOk result ((x : ℕ) → x < length (W.samples cur.new) →
        slice_index (W.samples cur.new) x < 2 ^ coding.now.bits) }
    ensures inside { IfErr result (λ e. e.x < length (W.samples cur.new)) }
    ensures open { IsSome parked.new }
    ensures held { AllHeld coding.now.table states.new }
{
    range_laws::array_states_follow_the_history();
    range_laws::decisions_of_two_parts_join();
    range_laws::read_bytes_code_what_was_read();
    range_laws::counters_go_on_by_both_parts();
    range_laws::counters_from_zero_show_all_steps();
    line_laws::row_slots_are_the_contexts_slots();
    range_laws::symbols_stay_in_their_slots();
    line_laws::read_samples_fit_their_bits();
    let set = coding.set;
    set.is_a_bounded_set();
    let mut decoder = parked.take().unwrap().wake(bytes);
    let read = W::decode(&mut decoder, coding, states, above, cur);
    *parked = Some(decoder.park());
    read
}

/// The index that the runs of a segment begin with (RFC 9043, 3.8.2.2.1): 0 where a plane of a
/// slice begins; in RCT it goes on.
fn index_at<A: Allocator>(frame: &Frame<'_, A>, segment: &Segment, index: u32) -> u32
    ensures value { result ≡ index_at frame.now.checked.now.configuration segment.now.y index }
    ensures most { result ≤ index }
{
    match frame.checked.config().colour {
        Colour::Rct => index,
        Colour::YCbCr => { if segment.y == 0 { 0 } else { index } }
    }
}

/// Reads a segment of a plane, by the states of its slice.
fn read_column<W: LineWord, A: Allocator>(
    frame: &Frame<'_, A>,
    segment: &Segment,
    column: &mut Column,
    states: &mut [u8],
    above: &Above<'_, W>,
    cur: &mut [W],
) -> Result<(), Refusal>
    requires frame { IsFrame frame.now }
    requires bits { W.holds (bits_of frame.now.checked.now.configuration) }
    requires plane { segment.now.plane < plane_count frame.now.checked.now.configuration }
    requires open { IsOpen frame.now.payload.now frame.now.checked.now.configuration.sets
        column.old }
    requires some { 0 < length cur.old }
    requires wide { length cur.old < 2 ^ 16 }
    requires one_long { length above.now.one ≡ length cur.old }
    requires rows { length states.old ≡ slots_in frame.now.checked.now.configuration }
    requires kept { AreKept frame.now.checked.now states.old }
    ensures exact { is_rice frame.now.checked.now.configuration.coder ≡ false →
        (past : List Step) (samples : List ℕ) (y : ℕ) →
        let a = frame.now.checked.now in
        let set = set_at a.configuration.sets
        (slice_index column.old.indexes (class_of segment.now.plane)) in
        let bytes = bytes_in frame.now.payload.now column.old in
        let base = base_of a.configuration segment.now.plane in
        let row = W.samples cur.new in
        Stands bytes a.table 33 column.old.parked states.old past →
        Rolls (length row) samples above.now.two above.now.one y →
        MatchResult result
        (λ _. SegmentRead bytes (coding_by a.table set (bits_of a.configuration)) base 33 past
        samples (length row) y column.new.parked states.new row)
        (λ e. SegmentRefused bytes (coding_by a.table set (bits_of a.configuration)) base 33 past
        samples (length row) y column.new.parked (take e.x row) e.x
        × (e.fault ≡ fault.SymbolTooLong)) }
    ensures bits { is_rice frame.now.checked.now.configuration.coder ≡ true →
        (coded : ℕ → List ℕ) (n : ℕ) (q : Slice) →
        let a = frame.now.checked.now in
        let p : ℕ = segment.now.plane in
        let row = W.samples cur.new in
        bytes_in frame.now.payload.now column.old ≡ coded n →
        column.old.indexes ≡ q.head.indexes →
        IsParked (coded n) a.table column.old.parked q.past →
        KeepsBits a (coded n) column.old states.old q →
        Rolls (length row) (plane q.cells p) above.now.two above.now.one segment.now.y →
        MatchResult result
        (λ _. BitsLine a coded n p (length row) segment.now.y q row column.new states.new)
        (λ e. BitsStop a coded n p (length row) segment.now.y q row e.x e.fault) }
    ensures small { OnOk result ((x : ℕ) → x < length (W.samples cur.new) →
        slice_index (W.samples cur.new) x < 2 ^ bits_of frame.now.checked.now.configuration) }
    ensures inside { IfErr result (λ e. e.x < length (W.samples cur.new)) }
    ensures own { IfErr result (λ e. e.fault ≢ fault.Sink) }
    ensures open { IsOpen frame.now.payload.now frame.now.checked.now.configuration.sets
        column.new }
    ensures same { column.new ≡ record column.old {
      parked = column.new.parked;
      bits = column.new.bits;
      index = column.new.index;
    } }
    ensures parked { is_rice frame.now.checked.now.configuration.coder ≡ true →
        column.new.parked ≡ column.old.parked }
    ensures kept { AreKept frame.now.checked.now states.new }
{
    range_laws::array_states_follow_the_history();
    record_laws::accepted_configuration_has_sound_parts();
    rice_laws::a_row_needs_its_contexts_alone();
    let config = frame.checked.config();
    let class = class_of(segment.plane as u32);
    let set = config.sets.get(usize::from(column.indexes[class]));
    set.is_a_bounded_set();
    let at = class * frame.most * 32;
    let end = at + set.contexts() as usize * 32;
    let bytes = &frame.payload[column.first..column.last];
    let coding = Coding {
        table: frame.checked.table(),
        set,
        bits: bits_of(frame.checked),
    };
    if frame.is_rice() {
        column.index = index_at(frame, segment, column.index);
        return read_bits(column, bytes, &coding, &mut states[at..end], above, cur);
    }
    match read_segment(
        &mut column.parked,
        bytes,
        &coding,
        &mut states[at..end],
        above,
        cur,
    ) {
        Ok(()) => Ok(()),
        Err(refused) => Err(Refusal {
            x: refused.x,
            fault: CodecFault::SymbolTooLong,
        }),
    }
}

/// Where a segment begins and ends in a rolling line.
pub(crate) fn extent<A: Allocator>(frame: &Frame<'_, A>, segment: &Segment) -> (usize, usize)
    requires frame { IsFrame frame.now }
    requires column { segment.now.column < frame.now.checked.now.configuration.columns }
    requires few { segment.now.index < 4 }
    ensures left { result.0 ≡ segment.now.index * frame.now.checked.now.configuration.width
        + left_of frame.now.checked.now.configuration segment.now.plane segment.now.column }
    ensures right { result.1 ≡ result.0
        + width_in frame.now.checked.now.configuration segment.now.plane segment.now.column }
    ensures some { result.0 < result.1 }
    ensures inside { result.1 ≤ segment.now.index * frame.now.checked.now.configuration.width
        + frame.now.checked.now.configuration.width }
{
    places::slices_lie_beside_one_another();
    record_laws::accepted_configuration_is_in_range();
    let plane = segment.plane as u32;
    let k = segment.column as u32;
    let offset = segment.index as usize * frame.checked.config().width as usize;
    let cell = frame.grid.cell_across(plane, k);
    let left = offset + cell.0 as usize;
    (left, left + cell.1 as usize)
}

/// A fault of a segment, at this of its samples.
fn fault_at<A: Allocator>(
    frame: &Frame<'_, A>,
    fault: CodecFault,
    segment: &Segment,
    x: usize,
) -> FrameFault
    requires frame { IsFrame frame.now }
    requires row { segment.now.row < frame.now.checked.now.configuration.rows }
    requires column { segment.now.column < frame.now.checked.now.configuration.columns }
    requires y { segment.now.y < lines_down frame.now.checked.now.configuration
        segment.now.plane segment.now.row }
    requires x { x < width_in frame.now.checked.now.configuration segment.now.plane
        segment.now.column }
    ensures { result ≡ fault_in frame.now.checked.now.configuration fault segment.now.row
        segment.now.column segment.now.plane segment.now.y
        (left_of frame.now.checked.now.configuration segment.now.plane segment.now.column + x) }
{
    places::slices_lie_beside_one_another();
    record_laws::accepted_configuration_is_in_range();
    let cell = frame
        .grid
        .cell_across(segment.plane as u32, segment.column as u32);
    frame.fault_in(fault, segment, cell.0 as usize + x)
}

/// Reads a segment into its place of a line. How far its slice was read, and whether it ends, is
/// not looked at.
fn read_on<W: LineWord, A: Allocator>(
    frame: &Frame<'_, A>,
    segment: &Segment,
    columns: &mut [Column],
    states: &mut [u8],
    above: &LinesAbove<'_, W>,
    cur: &mut [W],
) -> Result<(), FrameFault>
    requires row { IsRow frame.now segment.now.row (row_slices columns.old states.old) }
    requires bits { W.holds (bits_of frame.now.checked.now.configuration) }
    requires segment { IsSegment frame.now.checked.now.configuration segment.now }
    requires long { AreLong (HasPlane frame.now.checked.now.configuration segment.now.index)
        (length above.now.two.now) (length above.now.one.now) (length cur.old) }
    ensures exact { ReadsSegment frame.now.checked.now frame.now.payload.now segment.now
        (row_slices columns.old states.old) (row_slices columns.new states.new)
        (rolling_lines (W.samples above.now.two.now) (W.samples above.now.one.now)
        (W.samples cur.old)) (W.samples cur.new) result }
    ensures beside { KeepsBeside
        (segment.now.index * frame.now.checked.now.configuration.width)
        frame.now.checked.now.configuration.width (W.samples cur.old) (W.samples cur.new) }
    ensures own { IfErr result IsOwn }
    ensures row { IsRow frame.now segment.now.row (row_slices columns.new states.new) }
{
    record_laws::accepted_configuration_is_in_range();
    record_laws::accepted_configuration_has_sound_parts();
    line_laws::reading_its_rows_reads_the_cell();
    range_laws::counters_from_zero_show_all_steps();
    places::slices_lie_beside_one_another();
    let (left, right) = extent(frame, segment);
    let k = segment.column;
    let at = k * frame.slots;
    let above = Above {
        two: &above.two[left..right],
        one: &above.one[left..right],
    };
    match read_column(
        frame,
        segment,
        &mut columns[k],
        &mut states[at..at + frame.slots],
        &above,
        &mut cur[left..right],
    ) {
        Ok(()) => Ok(()),
        Err(refused) => Err(fault_at(frame, refused.fault, segment, refused.x)),
    }
}

/// Reads a segment into its place of a line, and looks at how far its slice was read, whether the
/// slices to the left and above say the same of the samples that it has in common with them, and
/// whether the slice ends if that was its last line.
pub(crate) fn read_at<W: LineWord, A: Allocator>(
    frame: &Frame<'_, A>,
    segment: &Segment,
    columns: &mut [Column],
    states: &mut [u8],
    above: &LinesAbove<'_, W>,
    cur: &mut [W],
) -> Result<(), FrameFault>
    requires row { IsRow frame.now segment.now.row (row_slices columns.old states.old) }
    requires bits { W.holds (bits_of frame.now.checked.now.configuration) }
    requires segment { IsSegment frame.now.checked.now.configuration segment.now }
    requires long { AreLong (HasPlane frame.now.checked.now.configuration segment.now.index)
        (length above.now.two.now) (length above.now.one.now) (length cur.old) }
    requires kept { IsKept frame.now.checked.now.configuration segment.now.row
        segment.now.plane segment.now.y (length above.now.kept.now) }
    ensures exact { StepsSegment frame.now.checked.now frame.now.payload.now segment.now
        (row_slices columns.old states.old) (row_slices columns.new states.new)
        (rolling_lines (W.samples above.now.two.now) (W.samples above.now.one.now)
        (W.samples cur.old)) (W.samples above.now.kept.now) (W.samples cur.new) result }
    ensures beside { KeepsBeside
        (segment.now.index * frame.now.checked.now.configuration.width)
        frame.now.checked.now.configuration.width (W.samples cur.old) (W.samples cur.new) }
    ensures own { IfErr result IsOwn }
    ensures row { IsRow frame.now segment.now.row (row_slices columns.new states.new) }
{
    range_laws::counters_from_zero_show_all_steps();
    places::slices_lie_beside_one_another();
    let said = said_left(frame, segment, cur);
    read_on(frame, segment, columns, states, above, cur)?;
    let column = &columns[segment.column];
    if is_overread(frame, column) {
        return Err(frame.fault_in(CodecFault::Overread, segment, 0));
    }
    match first_difference(frame, segment, said, above.kept, cur) {
        Some(x) => return Err(fault_at(frame, CodecFault::Overlap, segment, x)),
        None => (),
    }
    if lacks_ending(frame, segment, column) {
        return Err(frame.fault_in(ending_fault(frame), segment, 0));
    }
    Ok(())
}
