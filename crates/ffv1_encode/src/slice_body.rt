//! Puts the decisions of a slice.

ghost use Rattle.std.specs.Prelude.{◌≡◌, ◌⊎◌, ◌+◌, ◌*◌, ◌<◌, ◌≤◌, ℕ, IfErr, OnOk, length, true};
ghost use Rattle.std.specs.Prelude.{false, replicate, ◌≢◌};
ghost use Rattle.ffv1_range.specs.Symbols.{AllHeld, shifted};
ghost use Rattle.ffv1_plane.specs.Quantisation.{contexts_of};
ghost use Rattle.ffv1_line.specs.Row.{row_steps, chosen_row, cell_steps, chosen_rows};
ghost use Rattle.ffv1_line.specs.Cell.{Cell};
ghost use Rattle.ffv1_record.specs.Configuration.{is_rct};
ghost use Rattle.ffv1_frame.specs.declared.fault.CodecFault.TheVariants as fault;
ghost use Rattle.ffv1_frame.specs.Picture.{plane_count, cell_in, cell_height};
ghost use Rattle.ffv1_frame.specs.SliceList.{class_of, bits_of, chosen_line, chosen_body};
ghost use Rattle.ffv1_frame.specs.SliceList.{chosen_head, set_in, base_of};
ghost use Rattle.ffv1_frame.specs.SliceList.{lines_of_plane, planes_of_line, lines_in};
ghost use Rattle.ffv1_encode.specs.Internal.HasPut.{PutsAfter, PutsSamples, states_in};
ghost use Rattle.ffv1_encode.specs.Internal.CellRows.{Loaded, AllRolled, AllLoaded};
ghost use Rattle.ffv1_encode.specs.Internal.CellRows.{fourth_line};
ghost use Rattle.ffv1_encode.specs.Internal.Scratch.{capacity_of_planes, capacity_of_rows};

use crate::cell_rows::{ColourWord, PlaneRows, SlicePlane, load_all, restart, restart_all};
use crate::slice::{Slice, index_of};
use ffv1_frame::class::class_of;
use ffv1_frame::fault::CodecFault;
use ffv1_frame::line_word::{LineWord, bits_of};
use ffv1_line::{Above, CellRows, Coding, RollingRows, encode_cell, laws as line_laws};
use ffv1_range::{RangeEncoder, laws as range_laws};
use ffv1_record::laws as record_laws;
use std::alloc::Allocator;

/// Codes a row of a cell, by the states of its class, which begin at this offset of all states.
fn put_row<W: LineWord, R: Allocator, A: Allocator>(
    encoder: &mut RangeEncoder<R>,
    coding: &Coding<'_, A>,
    states: &mut [u8],
    at: usize,
    rows: &RollingRows<Vec<W, R>>,
) -> Result<(), CodecFault>
    requires bits { W.holds coding.now.bits }
    requires some { 0 < length (W.samples rows.now.cur.items) }
    requires two_long { length (W.samples rows.now.two.items)
        ≡ length (W.samples rows.now.cur.items) }
    requires one_long { length (W.samples rows.now.one.items)
        ≡ length (W.samples rows.now.cur.items) }
    requires fits { at + contexts_of coding.now.set * 32 ≤ length states.old }
    requires held { AllHeld coding.now.table states.old }
    ensures ok { OnOk result ((cell : Cell) (y : ℕ) → Loaded W.samples cell y rows.now →
        PutsAfter coding.now.table encoder.old states.old encoder.new states.new
        (shifted (33 + at) (row_steps coding.now.set cell y 0
        (chosen_row coding.now.set coding.now.bits cell y cell.width)))) }
    ensures held { OnOk result (AllHeld coding.now.table states.new) }
    ensures err { IfErr result (λ f. f ≡ fault.OutOfMemory) }
{
    range_laws::array_states_follow_the_history();
    range_laws::decisions_of_two_parts_join();
    range_laws::counters_go_on_by_both_parts();
    line_laws::row_slots_are_the_contexts_slots();
    let set = coding.set;
    set.is_a_bounded_set();
    let end = at + set.contexts() as usize * 32;
    let above = Above {
        two: &rows.two,
        one: &rows.one,
    };
    let Ok(()) = W::encode(encoder, coding, &mut states[at..end], &above, &rows.cur) else {
        return Err(CodecFault::OutOfMemory);
    };
    Ok(())
}

/// Codes the rows of a cell, by the states of its class, which begin at this offset of all states.
fn put_cell<R: Allocator, A: Allocator, C: CellRows>(
    encoder: &mut RangeEncoder<R>,
    coding: &Coding<'_, A>,
    states: &mut [u8],
    at: usize,
    rows: &mut RollingRows<Vec<u16, R>>,
    cell: &C,
) -> Result<(), CodecFault>
    requires most { coding.now.bits ≤ 16 }
    requires some { 0 < (C.cell cell.now).width }
    requires two { rows.old.two.items ≡ replicate (C.cell cell.now).width 0 }
    requires one { rows.old.one.items ≡ replicate (C.cell cell.now).width 0 }
    requires cur_long { length rows.old.cur.items ≡ (C.cell cell.now).width }
    requires fits { at + contexts_of coding.now.set * 32 ≤ length states.old }
    requires held { AllHeld coding.now.table states.old }
    ensures ok { OnOk result (PutsAfter coding.now.table encoder.old states.old encoder.new
        states.new (shifted (33 + at) (cell_steps coding.now.set (C.cell cell.now) 0
        (chosen_rows coding.now.set coding.now.bits (C.cell cell.now) (C.rows cell.now))))) }
    ensures held { OnOk result (AllHeld coding.now.table states.new) }
    ensures err { IfErr result (λ f. f ≡ fault.OutOfMemory) }
    ensures capacity { capacity_of_rows rows.new ≡ capacity_of_rows rows.old }
{
    range_laws::array_states_follow_the_history();
    range_laws::decisions_of_two_parts_join();
    range_laws::counters_go_on_by_both_parts();
    line_laws::residual_length_follows_from_digits();
    let set = coding.set;
    set.is_a_bounded_set();
    let end = at + set.contexts() as usize * 32;
    let Ok(()) = encode_cell(encoder, coding, &mut states[at..end], rows, cell) else {
        return Err(CodecFault::OutOfMemory);
    };
    Ok(())
}

/// How the lines of a plane are coded: by the set and the bits of the plane. Also where the states
/// of its class begin.
fn coding_of<'a, A: Allocator, B: Allocator>(
    slice: &Slice<'a, A, B>,
    plane: u32,
) -> (Coding<'a, A>, usize)
    requires plane { plane < plane_count slice.now.checked.now.configuration }
    ensures table { result.0.table ≡ slice.now.checked.now.table }
    ensures set { result.0.set ≡ set_in slice.now.checked.now.configuration
        (chosen_head slice.now.checked.now.configuration slice.now.info) plane }
    ensures bits { result.0.bits ≡ bits_of slice.now.checked.now.configuration }
    ensures at { 33 + result.1 ≡ base_of slice.now.checked.now.configuration plane }
    ensures fits { result.1 + contexts_of result.0.set * 32
        ≤ states_in slice.now.checked.now.configuration }
{
    record_laws::accepted_configuration_is_in_range();
    let config = slice.checked.config();
    let class = class_of(plane);
    let set = config.sets.get(index_of(&config.sets, class));
    let at = 32 * (config.sets.most_contexts() as usize * class);
    let table = slice.checked.table();
    let bits = bits_of(slice.checked);
    (Coding { table, set, bits }, at)
}

/// Codes a row of a plane, by the set and the states of the plane's class.
fn put_line<W: LineWord, R: Allocator, A: Allocator, B: Allocator>(
    encoder: &mut RangeEncoder<R>,
    states: &mut [u8],
    rows: &RollingRows<Vec<W, R>>,
    slice: &Slice<'_, A, B>,
    plane: u32,
) -> Result<(), CodecFault>
    requires bits { W.holds (bits_of slice.now.checked.now.configuration) }
    requires plane { plane < plane_count slice.now.checked.now.configuration }
    requires some { 0 < length (W.samples rows.now.cur.items) }
    requires two_long { length (W.samples rows.now.two.items)
        ≡ length (W.samples rows.now.cur.items) }
    requires one_long { length (W.samples rows.now.one.items)
        ≡ length (W.samples rows.now.cur.items) }
    requires room { length states.old ≡ states_in slice.now.checked.now.configuration }
    requires held { AllHeld slice.now.checked.now.table states.old }
    ensures ok { OnOk result ((cell : ℕ → Cell) (y : ℕ) → Loaded W.samples (cell plane) y rows.now →
        PutsAfter slice.now.checked.now.table encoder.old states.old encoder.new states.new
        (chosen_line slice.now.checked.now.configuration
        (chosen_head slice.now.checked.now.configuration slice.now.info) cell
        (record { plane = plane; y = y }))) }
    ensures held { OnOk result (AllHeld slice.now.checked.now.table states.new) }
    ensures err { IfErr result (λ f. f ≡ fault.OutOfMemory) }
{
    let (coding, at) = coding_of(slice, plane);
    put_row(encoder, &coding, states, at, rows)?;
    Ok(())
}

/// Codes the lines of a plane of YCbCr, one after the other.
fn put_plane<R: Allocator, A: Allocator, B: Allocator>(
    encoder: &mut RangeEncoder<R>,
    states: &mut [u8],
    rows: &mut RollingRows<Vec<u16, R>>,
    slice: &Slice<'_, A, B>,
    plane: u32,
) -> Result<(), CodecFault>
    requires plain { is_rct slice.now.checked.now.configuration.colour ≡ false }
    requires plane { plane < plane_count slice.now.checked.now.configuration }
    requires room { length states.old ≡ states_in slice.now.checked.now.configuration }
    requires held { AllHeld slice.now.checked.now.table states.old }
    ensures ok { OnOk result (PutsAfter slice.now.checked.now.table encoder.old states.old
        encoder.new states.new (chosen_body slice.now.checked.now.configuration
        (chosen_head slice.now.checked.now.configuration slice.now.info)
        (cell_in slice.now.checked.now.configuration slice.now.picture.now slice.now.number)
        (lines_of_plane (cell_height slice.now.checked.now.configuration slice.now.number plane)
        plane))) }
    ensures held { OnOk result (AllHeld slice.now.checked.now.table states.new) }
    ensures err { IfErr result (λ f. f ≡ fault.OutOfMemory) }
    ensures capacity { capacity_of_rows rows.old ≤ capacity_of_rows rows.new }
{
    record_laws::accepted_configuration_is_in_range();
    let _config = slice.checked.config();
    let (coding, at) = coding_of(slice, plane);
    restart(rows, slice.cell(plane).width as usize)?;
    let cell = SlicePlane { slice, plane };
    put_cell(encoder, &coding, states, at, rows, &cell)?;
    Ok(())
}

/// Codes the planes of YCbCr, one after the other (RFC 9043, 4.7).
fn put_planes<R: Allocator, A: Allocator, B: Allocator>(
    encoder: &mut RangeEncoder<R>,
    states: &mut [u8],
    rows: &mut RollingRows<Vec<u16, R>>,
    slice: &Slice<'_, A, B>,
) -> Result<(), CodecFault>
    requires plain { is_rct slice.now.checked.now.configuration.colour ≡ false }
    requires room { length states.old ≡ states_in slice.now.checked.now.configuration }
    requires held { AllHeld slice.now.checked.now.table states.old }
    ensures ok { OnOk result (PutsSamples slice.now encoder.old states.old encoder.new
        states.new) }
    ensures err { IfErr result (λ f. f ≡ fault.OutOfMemory) }
    ensures capacity { capacity_of_rows rows.old ≤ capacity_of_rows rows.new }
{
    for plane in 0..slice.grid.planes() {
        put_plane(encoder, states, rows, slice, plane)?;
    }
    Ok(())
}

/// Codes a row of the plane of transparency, if there is one.
fn put_transparency<W: LineWord, R: Allocator, A: Allocator, B: Allocator>(
    encoder: &mut RangeEncoder<R>,
    states: &mut [u8],
    rows: &PlaneRows<W, R>,
    slice: &Slice<'_, A, B>,
    y: u32,
) -> Result<(), CodecFault>
    requires bits { W.holds (bits_of slice.now.checked.now.configuration) }
    requires loaded { AllLoaded W.samples slice.now.checked.now.configuration slice.now.picture.now
        slice.now.number y rows.now }
    requires room { length states.old ≡ states_in slice.now.checked.now.configuration }
    requires held { AllHeld slice.now.checked.now.table states.old }
    ensures ok { OnOk result (PutsAfter slice.now.checked.now.table encoder.old states.old
        encoder.new states.new (chosen_body slice.now.checked.now.configuration
        (chosen_head slice.now.checked.now.configuration slice.now.info)
        (cell_in slice.now.checked.now.configuration slice.now.picture.now slice.now.number)
        (fourth_line slice.now.checked.now.configuration.extra_plane y))) }
    ensures held { OnOk result (AllHeld slice.now.checked.now.table states.new) }
    ensures err { IfErr result (λ f. f ≡ fault.OutOfMemory) }
{
    let _cell = slice.cell(3);
    if !slice.checked.config().extra_plane {
        return Ok(());
    }
    put_line(encoder, states, &rows.fourth, slice, 3)?;
    Ok(())
}

/// Codes line y of Y, Cb, Cr and transparency.
fn put_colours<W: ColourWord, R: Allocator, A: Allocator, B: Allocator>(
    encoder: &mut RangeEncoder<R>,
    states: &mut [u8],
    rows: &mut PlaneRows<W, R>,
    slice: &Slice<'_, A, B>,
    y: u32,
) -> Result<(), CodecFault>
    requires bits { W.holds (bits_of slice.now.checked.now.configuration) }
    requires rct { is_rct slice.now.checked.now.configuration.colour ≡ true }
    requires inside { y < cell_height slice.now.checked.now.configuration slice.now.number 0 }
    requires rolled { AllRolled W.samples slice.now.checked.now.configuration slice.now.picture.now
        slice.now.number y rows.old }
    requires room { length states.old ≡ states_in slice.now.checked.now.configuration }
    requires held { AllHeld slice.now.checked.now.table states.old }
    ensures rolled { OnOk result (AllRolled W.samples slice.now.checked.now.configuration
        slice.now.picture.now slice.now.number (y + 1) rows.new) }
    ensures ok { OnOk result (PutsAfter slice.now.checked.now.table encoder.old states.old
        encoder.new states.new (chosen_body slice.now.checked.now.configuration
        (chosen_head slice.now.checked.now.configuration slice.now.info)
        (cell_in slice.now.checked.now.configuration slice.now.picture.now slice.now.number)
        (planes_of_line (plane_count slice.now.checked.now.configuration) y))) }
    ensures held { OnOk result (AllHeld slice.now.checked.now.table states.new) }
    ensures err { IfErr result (λ f. f ≡ fault.OutOfMemory) }
    ensures capacity { capacity_of_planes rows.old ≤ capacity_of_planes rows.new }
{
    record_laws::accepted_configuration_has_sound_parts();
    let _config = slice.checked.config();
    let (_y, _cb, _cr) = (slice.cell(0), slice.cell(1), slice.cell(2));
    load_all(rows, slice, y);
    put_line(encoder, states, &rows.first, slice, 0)?;
    put_line(encoder, states, &rows.second, slice, 1)?;
    put_line(encoder, states, &rows.third, slice, 2)?;
    put_transparency(encoder, states, rows, slice, y)?;
    rows.turn();
    Ok(())
}

/// Codes the lines of RCT, one after the other, each plane by plane (RFC 9043, 4.7). Lines of
/// several cells come in turn, so that this is no `encode_cell`.
fn put_lines<W: ColourWord, R: Allocator, A: Allocator, B: Allocator>(
    encoder: &mut RangeEncoder<R>,
    states: &mut [u8],
    rows: &mut PlaneRows<W, R>,
    slice: &Slice<'_, A, B>,
) -> Result<(), CodecFault>
    requires bits { W.holds (bits_of slice.now.checked.now.configuration) }
    requires rct { is_rct slice.now.checked.now.configuration.colour ≡ true }
    requires room { length states.old ≡ states_in slice.now.checked.now.configuration }
    requires held { AllHeld slice.now.checked.now.table states.old }
    ensures ok { OnOk result (PutsSamples slice.now encoder.old states.old encoder.new
        states.new) }
    ensures err { IfErr result (λ f. f ≡ fault.OutOfMemory) }
    ensures capacity { capacity_of_planes rows.old ≤ capacity_of_planes rows.new }
{
    restart_all(rows, slice)?;
    for y in 0..slice.cell(0).height {
        put_colours(encoder, states, rows, slice, y)?;
    }
    Ok(())
}

/// The rows of either words. Those that are not used take no memory.
#[derive(Drop)]
pub(crate) struct SliceRows<A: Allocator> {
    /// Of up to 16 bits a coded sample.
    pub(crate) narrow: PlaneRows<u16, A>,
    /// Of 17 bits.
    pub(crate) wide: PlaneRows<u32, A>,
}

/// Codes the lines of RCT, in rows of the words that hold them.
fn put_transformed<R: Allocator, A: Allocator, B: Allocator>(
    encoder: &mut RangeEncoder<R>,
    states: &mut [u8],
    rows: &mut SliceRows<R>,
    slice: &Slice<'_, A, B>,
) -> Result<(), CodecFault>
    requires rct { is_rct slice.now.checked.now.configuration.colour ≡ true }
    requires room { length states.old ≡ states_in slice.now.checked.now.configuration }
    requires held { AllHeld slice.now.checked.now.table states.old }
    ensures ok { OnOk result (PutsSamples slice.now encoder.old states.old encoder.new
        states.new) }
    ensures err { IfErr result (λ f. f ≡ fault.OutOfMemory) }
    ensures narrow { capacity_of_planes rows.old.narrow ≤ capacity_of_planes rows.new.narrow }
    ensures wide { capacity_of_planes rows.old.wide ≤ capacity_of_planes rows.new.wide }
    ensures wide_alone { bits_of slice.now.checked.now.configuration ≡ 17 →
        capacity_of_planes rows.new.narrow ≡ capacity_of_planes rows.old.narrow }
    ensures narrow_alone { bits_of slice.now.checked.now.configuration ≢ 17 →
        capacity_of_planes rows.new.wide ≡ capacity_of_planes rows.old.wide }
{
    if bits_of(slice.checked) == 17 {
        put_lines(encoder, states, &mut rows.wide, slice)?;
        return Ok(());
    }
    put_lines(encoder, states, &mut rows.narrow, slice)?;
    Ok(())
}

/// Codes the samples of a slice.
pub(crate) fn put_body<R: Allocator, A: Allocator, B: Allocator>(
    encoder: &mut RangeEncoder<R>,
    states: &mut [u8],
    rows: &mut SliceRows<R>,
    slice: &Slice<'_, A, B>,
) -> Result<(), CodecFault>
    requires room { length states.old ≡ states_in slice.now.checked.now.configuration }
    requires held { AllHeld slice.now.checked.now.table states.old }
    ensures ok { OnOk result (PutsSamples slice.now encoder.old states.old encoder.new
        states.new) }
    ensures err { IfErr result (λ f. f ≡ fault.OutOfMemory) }
    ensures narrow { capacity_of_planes rows.old.narrow ≤ capacity_of_planes rows.new.narrow }
    ensures wide { capacity_of_planes rows.old.wide ≤ capacity_of_planes rows.new.wide }
    ensures wide_alone { bits_of slice.now.checked.now.configuration ≡ 17 →
        capacity_of_planes rows.new.narrow ≡ capacity_of_planes rows.old.narrow }
    ensures narrow_alone { bits_of slice.now.checked.now.configuration ≢ 17 →
        capacity_of_planes rows.new.wide ≡ capacity_of_planes rows.old.wide }
{
    let _depth = slice.checked.depth();
    if slice.checked.config().colour.is_rct() {
        put_transformed(encoder, states, rows, slice)?;
        return Ok(());
    }
    put_planes(encoder, states, &mut rows.narrow.first, slice)?;
    Ok(())
}
