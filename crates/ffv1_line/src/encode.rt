//! Encodes a row.

ghost use Rattle.std.specs.Prelude.{◌≡◌, ◌+◌, ◌*◌, ◌≤◌, ◌<◌, ◌⊎◌, OnOk, OnErr, IsErr};
ghost use Rattle.std.specs.Prelude.{IsTrue, length, false, unsigned_abs, ◌^◌};
ghost use Rattle.ffv1_range.specs.Symbols.{AllHeld};
ghost use Rattle.ffv1_range.specs.Puts.{Puts, MayBeRefused};
ghost use Rattle.ffv1_plane.specs.Quantisation.{contexts_of, HasThreeTables};
ghost use Rattle.ffv1_range.specs.Listed.{of_nine_bits};
ghost use Rattle.ffv1_line.specs.Internal.Parts.{IsPart, IsBlockOf, CountsPart, nine_bit_steps};
ghost use Rattle.ffv1_line.specs.Internal.Parts.{part_steps};
ghost use Rattle.ffv1_line.specs.Encoded.{FailsForGood, Written, MayBeRefusedRow, CountsFirst};
ghost use Rattle.ffv1_line.specs.Coder.{encoder_by};

mod block;
mod cell;
pub(crate) mod part;
mod plain;
mod row_of_bits;
mod samples;
mod wide;

use crate::cell::above::Above;
use crate::coding::{Coding, fixed_bits};
use crate::encode::block::{
    Block, LIST, PLACES, list_places, number_places, prepare, residual_from,
};
use crate::encode::part::Part;
use crate::encode::row_of_bits::encode_row_of_bits;
use crate::encode::samples::encode_samples;
pub use cell::{CellRows, encode_cell};
use ffv1_range::{Fault, RangeEncoder, StateTable};
use std::alloc::Allocator;
pub use wide::encode_wide;

/// In a block of fewer nonzero residuals the symbols are written one by one.
const MOSTLY_ZERO: u16 = 8;

/// After a block of more decisions the symbols are written one by one too.
const DENSE: u32 = 512;

/// Whether nearly all residuals are zero, so that their symbols are written one by one faster than
/// by a list.
fn are_mostly_zero(residuals: &[u16]) -> bool {
    let mut nonzero = 0u16;
    for &residual in residuals {
        nonzero = nonzero.wrapping_add(u16::from(residual != 0));
    }
    nonzero < MOSTLY_ZERO
}

/// The symbol of a residual of nine bits, given modulo 512, in the states of a context, by an
/// encoder that has not failed.
#[inline(never)]
fn put_residual<A: Allocator>(
    encoder: &mut RangeEncoder<A>,
    table: &StateTable,
    states: &mut [u8],
    context: usize,
    residual: u16,
) -> Result<(), Fault>
    requires sound { encoder.old.failed ≡ false }
    requires rows { context * 32 + 32 ≤ length states.old }
    requires held { AllHeld table.now states.old }
    requires small { residual < 512 }
    ensures ok { OnOk result (Puts table.now encoder.old states.old encoder.new states.new
        (nine_bit_steps context residual)) }
    ensures refused { OnErr result (MayBeRefused table.now encoder.old states.old
        (nine_bit_steps context residual)) }
    ensures held { AllHeld table.now states.new }
    ensures err { FailsForGood result encoder.new }
    ensures kept { OnErr result (encoder.new.counts ≡ encoder.old.counts) }
{
    let value = residual_from(residual, 9);
    encoder.put_signed_in_row(table, states, context, value)?;
    Ok(())
}

/// The same, if nearly all residuals are 0.
#[inline(always)]
fn put_mostly_zero<A: Allocator>(
    encoder: &mut RangeEncoder<A>,
    table: &StateTable,
    states: &mut [u8],
    context: usize,
    residual: u16,
) -> Result<(), Fault>
    requires sound { encoder.old.failed ≡ false }
    requires rows { context * 32 + 32 ≤ length states.old }
    requires held { AllHeld table.now states.old }
    requires small { residual < 512 }
    ensures ok { OnOk result (Puts table.now encoder.old states.old encoder.new states.new
        (nine_bit_steps context residual)) }
    ensures refused { OnErr result (MayBeRefused table.now encoder.old states.old
        (nine_bit_steps context residual)) }
    ensures held { AllHeld table.now states.new }
    ensures err { FailsForGood result encoder.new }
    ensures kept { OnErr result (encoder.new.counts ≡ encoder.old.counts) }
{
    if residual > 0 {
        put_residual(encoder, table, states, context, residual)?;
        return Ok(());
    }
    encoder.put_signed_in_row(table, states, context, 0)?;
    Ok(())
}

/// The symbols of the places of a part of a row of 8 or 9 bits, one by one, by the block that was
/// prepared of it.
#[inline(never)]
fn put_places<A: Allocator, B: Allocator>(
    encoder: &mut RangeEncoder<A>,
    table: &StateTable,
    states: &mut [u8],
    part: &Part<'_, B>,
    block: &Block,
) -> Result<(), Fault>
    requires sound { encoder.old.failed ≡ false }
    requires part { IsPart part.now }
    requires bits { part.now.bits < 10 }
    requires block { IsBlockOf part.now part.now.count block.now }
    requires rows { length states.old ≡ contexts_of part.now.set.now * 32 }
    requires held { AllHeld table.now states.old }
    ensures ok { OnOk result (Puts table.now encoder.old states.old encoder.new states.new
        (part_steps part.now part.now.count)) }
    ensures refused { OnErr result (MayBeRefused table.now encoder.old states.old
        (part_steps part.now part.now.count)) }
    ensures held { AllHeld table.now states.new }
    ensures err { FailsForGood result encoder.new }
    ensures kept { OnErr result (CountsPart part.now encoder.old.counts encoder.new.counts) }
{
    let _contexts = part.set.contexts();
    for k in 0..part.count {
        let context = block.contexts[k] as usize;
        put_mostly_zero(encoder, table, states, context, block.residuals[k])?;
    }
    Ok(())
}

/// The symbols of a part of a row one by one, with the interval in locals. Answers how many
/// decisions they were.
#[inline(never)]
fn put_numbers<A: Allocator, B: Allocator>(
    encoder: &mut RangeEncoder<A>,
    table: &StateTable,
    states: &mut [u8],
    part: &Part<'_, B>,
    block: &mut Block,
) -> Result<u32, Fault>
    requires sound { encoder.old.failed ≡ false }
    requires part { IsPart part.now }
    requires block { IsBlockOf part.now part.now.count block.old }
    requires rows { length states.old ≡ contexts_of part.now.set.now * 32 }
    requires held { AllHeld table.now states.old }
    ensures ok { OnOk result (Puts table.now encoder.old states.old encoder.new states.new
        (part_steps part.now part.now.count)) }
    ensures refused { OnErr result (MayBeRefused table.now encoder.old states.old
        (part_steps part.now part.now.count)) }
    ensures held { AllHeld table.now states.new }
    ensures err { FailsForGood result encoder.new }
    ensures kept { OnErr result (encoder.new.counts ≡ encoder.old.counts) }
{
    let _contexts = part.set.contexts();
    number_places(block, part);
    let Block {
        contexts,
        numbers,
        ..
    } = block;
    encoder.put_rows(
        table,
        states,
        &contexts[..part.count],
        &numbers[..part.count],
    )
}

/// The symbols of a part of a row of 8 or 9 bits, by an encoder that has not failed: one by one if
/// the block before had many decisions, or if nearly all residuals are zero, else by a list.
#[inline(always)]
fn encode_block<A: Allocator, B: Allocator>(
    encoder: &mut RangeEncoder<A>,
    table: &StateTable,
    states: &mut [u8],
    part: &Part<'_, B>,
    block: &mut Block,
) -> Result<(), Fault>
    requires sound { encoder.old.failed ≡ false }
    requires part { IsPart part.now }
    requires bits { part.now.bits < 10 }
    requires rows { length states.old ≡ contexts_of part.now.set.now * 32 }
    requires held { AllHeld table.now states.old }
    ensures ok { OnOk result (Puts table.now encoder.old states.old encoder.new states.new
        (part_steps part.now part.now.count)) }
    ensures refused { OnErr result (MayBeRefused table.now encoder.old states.old
        (part_steps part.now part.now.count)) }
    ensures held { AllHeld table.now states.new }
    ensures err { FailsForGood result encoder.new }
    ensures kept { OnErr result (CountsPart part.now encoder.old.counts encoder.new.counts) }
{
    prepare(block, part);
    if block.is_dense {
        let own = part.own();
        block.is_dense = put_numbers(encoder, table, states, &own, block)? > DENSE;
        return Ok(());
    }
    if are_mostly_zero(&block.residuals[..part.count]) {
        let own = part.own();
        return put_places(encoder, table, states, &own, block);
    }
    let upto = list_places(block, part);
    block.is_dense = upto > DENSE as usize;
    encoder.put_all(table, states, &block.list[..upto])?;
    Ok(())
}

/// A row of a cell of 8 or 9 bits, by an encoder that has not failed, by a body of its own for each
/// depth, its `BITS`, and each kind of set. `THREE_TABLES` may be said of a set whose fourth and
/// fifth tables have one level.
#[inline(never)]
fn encode_row<A: Allocator, B: Allocator, const BITS: u8, const THREE_TABLES: bool>(
    encoder: &mut RangeEncoder<A>,
    coding: &Coding<'_, B>,
    states: &mut [u8],
    above: &Above<'_>,
    cur: &[u16],
) -> Result<(), Fault>
    requires sound { encoder.old.failed ≡ false }
    requires depth { coding.now.bits < 10 }
    requires bits { coding.now.bits ≡ BITS }
    requires three_tables { IsTrue THREE_TABLES → HasThreeTables coding.now.set }
    requires some { 0 < length cur.now }
    requires one_long { length above.now.one ≡ length cur.now }
    requires rows { length states.old ≡ contexts_of coding.now.set * 32 }
    requires held { AllHeld coding.now.table states.old }
    ensures ok { OnOk result (Written coding.now (encoder_by encoder.old states.old)
        (encoder_by encoder.new states.new) above.now cur.now (length cur.now)) }
    ensures refused { OnErr result (MayBeRefusedRow coding.now (encoder_by encoder.old states.old)
        above.now cur.now (length cur.now)) }
    ensures held { AllHeld coding.now.table states.new }
    ensures err { FailsForGood result encoder.new }
    ensures kept { OnErr result (CountsFirst coding.now encoder.old.counts encoder.new.counts
        above.now cur.now) }
{
    let bits = fixed_bits::<BITS>(coding.bits);
    let Coding { table, set, .. } = coding;
    let Above { two, one } = above;
    let mut block = Block {
        contexts: [0; PLACES],
        residuals: [0; PLACES],
        numbers: [0; PLACES],
        list: [0; LIST],
        is_dense: false,
    };
    let mut from = 0;
    'parts: while from < cur.len() {
        let count = (cur.len() - from).min(PLACES);
        let part = Part {
            set,
            bits,
            three_tables: THREE_TABLES,
            two,
            one,
            cur,
            from,
            count,
        };
        encode_block(encoder, table, states, &part, &mut block)?;
        from += count;
    }
    Ok(())
}

/// Codes one row of one cell of a plane: the folded residual of each sample as a symbol (RFC 9043,
/// 3.1 to 3.8).
///
/// `above` has the cell's rows two and one above, all 0 above the cell; `cur` is the row, of at
/// least one sample, and all three have one length. `states` are those of the plane's class, 32 for
/// each context of the set, all held by the table. What is put is what the definition takes for any
/// cell of which these are rows, by the neighbours' coordinates.
///
/// `OutOfMemory` if the encoder was refused memory, now or before: it has failed for good, its
/// counts are those after some first samples of the row, and the states are still held by the
/// table. One that had failed before is left as it was, and the states too.
#[inline(never)]
pub fn encode_line<A: Allocator, B: Allocator>(
    encoder: &mut RangeEncoder<A>,
    coding: &Coding<'_, B>,
    states: &mut [u8],
    above: &Above<'_>,
    cur: &[u16],
) -> Result<(), Fault>
    requires bits { coding.now.bits ≤ 16 }
    requires some { 0 < length cur.now }
    requires one_long { length above.now.one ≡ length cur.now }
    requires rows { length states.old ≡ contexts_of coding.now.set * 32 }
    requires held { AllHeld coding.now.table states.old }
    ensures ok { OnOk result (Written coding.now (encoder_by encoder.old states.old)
        (encoder_by encoder.new states.new) above.now cur.now (length cur.now)) }
    ensures refused { OnErr result (MayBeRefusedRow coding.now (encoder_by encoder.old states.old)
        above.now cur.now (length cur.now)) }
    ensures held { AllHeld coding.now.table states.new }
    ensures err { FailsForGood result encoder.new }
    ensures stays { IsTrue encoder.old.failed → IsErr result }
    ensures unchanged { IsTrue encoder.old.failed →
        (encoder.new ≡ encoder.old) × (states.new ≡ states.old) }
    ensures kept { OnErr result (CountsFirst coding.now encoder.old.counts encoder.new.counts
        above.now cur.now) }
{
    if encoder.has_failed() {
        return Err(Fault::OutOfMemory);
    }
    let Coding { set, bits, .. } = coding;
    let three_tables = set.has_three_tables();
    if *bits > 15 {
        if three_tables {
            return encode_samples::<u16, A, B, true>(encoder, coding, states, above, cur);
        }
        return encode_samples::<u16, A, B, false>(encoder, coding, states, above, cur);
    }
    if *bits == 8 {
        if three_tables {
            return encode_row::<A, B, 8, true>(encoder, coding, states, above, cur);
        }
        return encode_row::<A, B, 8, false>(encoder, coding, states, above, cur);
    }
    if *bits == 9 {
        if three_tables {
            return encode_row::<A, B, 9, true>(encoder, coding, states, above, cur);
        }
        return encode_row::<A, B, 9, false>(encoder, coding, states, above, cur);
    }
    if three_tables {
        return encode_row_of_bits::<A, B, true>(encoder, coding, states, above, cur);
    }
    encode_row_of_bits::<A, B, false>(encoder, coding, states, above, cur)
}
