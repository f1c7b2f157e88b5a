//! Opens slices: their start, their key and their head.

ghost use Rattle.std.specs.Prelude.{◌≡◌, ◌≢◌, ℕ, ◌+◌, ◌*◌, ◌≤◌, ◌<◌, List, MatchResult, OnOk, IfOk};
ghost use Rattle.std.specs.Prelude.{IfErr, IsTrue, IsFalse, Some, None, [], length, IsSome};
ghost use Rattle.ffv1_range.specs.Reading.{At};
ghost use Rattle.ffv1_range.specs.Interval.{start};
ghost use Rattle.ffv1_range.specs.Counts.{uncounted};
ghost use Rattle.ffv1_slice.specs.Coding.{IsSlice};
ghost use Rattle.ffv1_slice.specs.Head.{IsHead};
ghost use Rattle.ffv1_frame.specs.declared.fault.CodecFault.TheVariants as fault;
ghost use Rattle.ffv1_frame.specs.SliceList.{Said, said_by};
ghost use Rattle.ffv1_record.specs.declared.config.Profile.{Profile};
ghost use Rattle.ffv1_frame.specs.Decoding.{State, AgreesWith, of_slice, slice_at};
ghost use Rattle.ffv1_frame.specs.Decoding.{unread};
ghost use Rattle.ffv1_decode.specs.Internal.Tied.{IsFrame, IsOpen, AreOpen, AreTold, column_at};
ghost use Rattle.ffv1_decode.specs.OwnFaults.{IsOwn};
ghost use Rattle.ffv1_decode.specs.Internal.Opened.{IsCutOf, HeadRead, HeadRefused, ColumnOpened};
ghost use Rattle.ffv1_decode.specs.Internal.Opened.{coded_by, ColumnRefused, RowOpened, RowRefused};
ghost use Rattle.ffv1_decode.specs.Internal.Opened.{row_heads};

use crate::column::Column;
use crate::overread::is_overread;
use crate::parts::Frame;
use ffv1_frame::fault::{CodecFault, FrameFault};
use ffv1_frame::info::Info;
use ffv1_range::{RangeDecoder, laws as range_laws};
use ffv1_record::{Checked, laws as record_laws};
use ffv1_slice::{SliceFault, SliceHead, Spans, get_head, get_key};
use std::alloc::Allocator;

/// The fault of a slice, as one of a frame.
pub(crate) fn codec_fault(fault: SliceFault) -> CodecFault
    ensures { result ≡ of_slice fault }
{
    match fault {
        SliceFault::OutOfMemory => CodecFault::OutOfMemory,
        SliceFault::SymbolTooLong => CodecFault::SymbolTooLong,
        SliceFault::NotKey => CodecFault::NotKey,
        SliceFault::Place => CodecFault::Place,
        SliceFault::SetIndex => CodecFault::SetIndex,
        SliceFault::Structure => CodecFault::Structure,
        SliceFault::Aspect => CodecFault::Aspect,
        SliceFault::Footer => CodecFault::Footer,
        SliceFault::Leftover => CodecFault::Leftover,
        SliceFault::SliceParity => CodecFault::SliceParity,
        SliceFault::SliceStatus => CodecFault::SliceStatus,
        SliceFault::SliceTooLong => CodecFault::SliceTooLong,
    }
}

/// Reads the key and the head of a slice.
fn read_head<A: Allocator>(
    decoder: &mut RangeDecoder<'_>,
    checked: &Checked<A>,
    slice: u32,
) -> Result<SliceHead, CodecFault>
    requires slice { IsSlice checked.now slice }
    requires begins { At decoder.old start }
    requires counts { decoder.old.counts ≡ uncounted }
    ensures ok { IfOk result (HeadRead checked.now slice decoder.old decoder.new) }
    ensures head { IfOk result (IsHead checked.now.profile checked.now.configuration) }
    ensures err { IfErr result (HeadRefused checked.now slice decoder.old decoder.new) }
    ensures own { IfErr result (λ f. f ≢ fault.Sink) }
{
    range_laws::counters_go_on_by_both_parts();
    match get_key(decoder, checked, slice) {
        Ok(()) => {}
        Err(fault) => return Err(codec_fault(fault)),
    }
    match get_head(decoder, checked, slice) {
        Ok(head) => Ok(head),
        Err(fault) => Err(codec_fault(fault)),
    }
}

/// What a head says, in whichever profile it is one.
fn said(head: &SliceHead) -> Info
    requires { head.now.structure < 4 }
    ensures { (p : Profile) → result ≡ said_by p head.now }
{
    if (head.sar_num == 0) != (head.sar_den == 0) {
        return Info::new(head.structure, 0, 0).unwrap();
    }
    Info::new(head.structure, head.sar_num, head.sar_den).unwrap()
}

/// Whether this was said first, which it is if nothing was.
fn agrees(first: &mut Option<Info>, info: Info) -> bool
    ensures yes { IsTrue result → AgreesWith first.old info × (first.new ≡ Some info) }
    ensures no { IsFalse result → (s : Said) × (first.old ≡ Some s) × (info ≢ s) }
{
    match *first {
        None => {
            *first = Some(info);
            true
        }
        Some(before) => {
            before.structure() == info.structure()
                && before.sar_num() == info.sar_num()
                && before.sar_den() == info.sar_den()
        }
    }
}

/// Opens the slice of a column.
fn open_column<A: Allocator, B: Allocator>(
    frame: &Frame<'_, A>,
    spans: &Spans<B>,
    slice: u32,
    column: &mut Column,
    first: &mut Option<Info>,
) -> Result<(), CodecFault>
    requires frame { IsFrame frame.now }
    requires slice { IsSlice frame.now.checked.now slice }
    requires cut { IsCutOf frame.now.checked.now frame.now.payload.now spans.now }
    requires closed { column.old.parked ≡ None }
    ensures exact { let a = frame.now.checked.now in
        let coded : ℕ → List ℕ = coded_by a frame.now.payload.now spans.now in
        MatchResult result
        (λ _. ColumnOpened a coded frame.now.payload.now slice column.new first.old first.new)
        (λ f. ColumnRefused a coded slice column.new first.old f) }
    ensures open { OnOk result (IsOpen frame.now.payload.now
        frame.now.checked.now.configuration.sets column.new) }
    ensures own { IfErr result (λ f. f ≢ fault.Sink) }
{
    range_laws::array_states_follow_the_history();
    range_laws::decisions_of_two_parts_join();
    range_laws::symbols_stay_in_their_slots();
    range_laws::good_start_codes_the_empty_list();
    range_laws::counters_from_zero_show_all_steps();
    let (begin, end) = spans.span(slice as usize).unwrap();
    let Ok(mut decoder) = RangeDecoder::new(&frame.payload[begin..end]) else {
        return Err(CodecFault::BadStart);
    };
    let read = read_head(&mut decoder, frame.checked, slice);
    column.parked = Some(decoder.park());
    column.bits = None;
    column.index = 0;
    let head = read?;
    column.first = begin;
    column.last = end;
    column.indexes = head.indexes;
    if is_overread(frame, column) {
        return Err(CodecFault::Overread);
    }
    if agrees(first, said(&head)) {
        return Ok(());
    }
    Err(CodecFault::InfoDiffers)
}

/// Opens the slices of a row, from the left.
pub(crate) fn open_row<A: Allocator, B: Allocator>(
    frame: &Frame<'_, A>,
    spans: &Spans<B>,
    row: u32,
    columns: &mut [Column],
    first: &mut Option<Info>,
) -> Result<(), FrameFault>
    requires frame { IsFrame frame.now }
    requires row { row < frame.now.checked.now.configuration.rows }
    requires many { length columns.old ≡ frame.now.checked.now.configuration.columns }
    requires cut { IsCutOf frame.now.checked.now frame.now.payload.now spans.now }
    requires closed { (k : ℕ) → k < length columns.old → (column_at columns.old k).parked ≡ None }
    ensures exact { (s : State) →
        let a = frame.now.checked.now in
        let coded : ℕ → List ℕ = coded_by a frame.now.payload.now spans.now in
        length s.columns ≡ a.configuration.columns →
        ((k : ℕ) → k < a.configuration.columns → slice_at s k ≡ unread) → s.info ≡ first.old →
        MatchResult result
        (λ _. RowOpened a coded frame.now.payload.now row a.configuration.columns
        (row_heads columns.new first.new) s)
        (λ f. RowRefused a coded row a.configuration.columns columns.new f s) }
    ensures open { OnOk result (AreOpen frame.now.payload.now
        frame.now.checked.now.configuration.sets columns.new) }
    ensures known { OnOk result (IsSome first.new) }
    ensures own { IfErr result IsOwn }
{
    record_laws::accepted_configuration_is_in_range();
    range_laws::counters_from_zero_show_all_steps();
    for k in 0..columns.len() {
        let slice = row * columns.len() as u32 + k as u32;
        if let Err(fault) = open_column(frame, spans, slice, &mut columns[k], first) {
            return Err(FrameFault::in_slice(fault, slice as u16));
        }
    }
    Ok(())
}
