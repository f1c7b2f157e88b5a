//! Encodes a row of samples of 10 to 15 bits.

ghost use Rattle.std.specs.Prelude.{◌≡◌, ◌+◌, ◌-◌, ◌*◌, ◌%◌, ◌^◌, ◌≤◌, ◌<◌, OnOk, OnErr, ℕ};
ghost use Rattle.std.specs.Prelude.{IsTrue, length, false, slice_index, take};
ghost use Rattle.ffv1_range.specs.Symbols.{AllHeld};
ghost use Rattle.ffv1_range.specs.Puts.{Puts, MayBeRefused};
ghost use Rattle.ffv1_range.specs.History.{AreBelow};
ghost use Rattle.ffv1_range.specs.Listed.{steps_of};
ghost use Rattle.ffv1_plane.specs.Quantisation.{contexts_of, HasThreeTables};
ghost use Rattle.ffv1_line.specs.Internal.Parts.{IsPart, IsBlockOf, CountsPart, part_steps};
ghost use Rattle.ffv1_line.specs.Internal.Parts.{residual_limit, IsOfNineBits, AreOfNineBits};
ghost use Rattle.ffv1_line.specs.Internal.Along.{AreUnsigned};
ghost use Rattle.ffv1_line.specs.Encoded.{FailsForGood, Written, MayBeRefusedRow, CountsFirst};
ghost use Rattle.ffv1_line.specs.Coder.{encoder_by};

use crate::cell::above::Above;
use crate::coding::Coding;
use crate::encode::block::{Block, LIST, PLACES, prepare};
use crate::encode::part::Part;
use crate::encode::{DENSE, MOSTLY_ZERO, put_numbers};
use ffv1_range::{Fault, RangeEncoder, StateTable, list_signed};
use std::alloc::Allocator;

/// Whether nearly all numbers of a block are this one.
#[inline(always)]
fn are_mostly(numbers: &[u16], number: u16) -> bool {
    let mut others = 0u16;
    for &other in numbers {
        others = others.wrapping_add(u16::from(other != number));
    }
    others < MOSTLY_ZERO
}

/// How far the greatest of some numbers lies above a least, modulo 65536.
#[inline(always)]
fn greatest_above(numbers: &[u16], least: u16) -> u16
    ensures { (k : ℕ) → k < length numbers.now →
        (slice_index numbers.now k + (2 ^ 16 - least)) % 2 ^ 16 ≤ result }
{
    let mut greatest = 0u16;
    for &number in numbers {
        greatest = greatest.max(number.wrapping_sub(least));
    }
    greatest
}

/// Whether the symbols of residuals of more than 9 bits, as a block has them, are written by a
/// list: only if all of them lie from -256 to 255, and not nearly all are zero.
#[inline(always)]
fn may_be_listed(residuals: &[u16], bits: u8) -> bool
    requires unsigned { AreUnsigned bits }
    requires above_nine { 9 < bits }
    ensures { IsTrue result → (k : ℕ) → k < length residuals.now →
        slice_index residuals.now k < residual_limit bits →
        IsOfNineBits bits (slice_index residuals.now k) }
{
    let zero = 1u16 << (bits - 1);
    if greatest_above(residuals, zero - 256) > 511 {
        return false;
    }
    !are_mostly(residuals, zero)
}

/// Whether the symbols of a part are written by a list, by the block that was prepared of it: never
/// after a block of many decisions.
#[inline(always)]
fn is_listed<B: Allocator>(part: &Part<'_, B>, block: &Block) -> bool
    requires part { IsPart part.now }
    requires above_nine { 9 < part.now.bits }
    requires block { IsBlockOf part.now part.now.count block.now }
    ensures { IsTrue result →
        AreOfNineBits part.now.bits part.now.count block.now.residuals }
{
    if block.is_dense {
        return false;
    }
    may_be_listed(&block.residuals[..part.count], part.bits)
}

/// Lists the decisions of a part of more than 9 bits whose residuals lie from -256 to 255, by the
/// block that was prepared of it. Answers how many they are.
// Modulo 512 such a number is that of nine bits: half of 2^bits is a multiple of 512.
#[inline(always)]
fn list_places_of_bits<A: Allocator>(block: &mut Block, part: &Part<'_, A>) -> usize
    requires part { IsPart part.now }
    requires block { IsBlockOf part.now part.now.count block.old }
    requires nine { AreOfNineBits part.now.bits part.now.count block.old.residuals }
    ensures steps { steps_of (take result block.new.list) ≡ part_steps part.now part.now.count }
    ensures below { AreBelow (steps_of (take result block.new.list))
        (contexts_of part.now.set.now * 32) }
    ensures short { result ≤ 1216 }
{
    let _contexts = part.set.contexts();
    let mut at = 0;
    for k in 0..part.count {
        let (context, residual) = (block.contexts[k], block.residuals[k] % 512);
        at = list_signed(&mut block.list, at, context, residual as usize);
    }
    at
}

/// The symbols of a part of a row of more than 9 bits, by an encoder that has not failed: by a list
/// if all residuals lie from -256 to 255, but one by one after a block of many decisions, and if
/// nearly all residuals are zero.
#[inline(always)]
fn encode_block_of_bits<A: Allocator, B: Allocator>(
    encoder: &mut RangeEncoder<A>,
    table: &StateTable,
    states: &mut [u8],
    part: &Part<'_, B>,
    block: &mut Block,
) -> Result<(), Fault>
    requires sound { encoder.old.failed ≡ false }
    requires part { IsPart part.now }
    requires above_nine { 9 < part.now.bits }
    requires rows { length states.old ≡ contexts_of part.now.set.now * 32 }
    requires held { AllHeld table.now states.old }
    ensures ok { OnOk result (Puts table.now encoder.old states.old encoder.new states.new
        (part_steps part.now part.now.count)) }
    ensures refused { OnErr result (MayBeRefused table.now encoder.old states.old
        (part_steps part.now part.now.count)) }
    ensures held { AllHeld table.now states.new }
    ensures err { FailsForGood result encoder.new }
    ensures kept { OnErr result (CountsPart part.now encoder.old.counts encoder.new.counts) }
{
    prepare(block, part);
    if is_listed(part, block) {
        let upto = list_places_of_bits(block, part);
        block.is_dense = upto > DENSE as usize;
        encoder.put_all(table, states, &block.list[..upto])?;
        return Ok(());
    }
    let own = part.own();
    block.is_dense = put_numbers(encoder, table, states, &own, block)? > DENSE;
    Ok(())
}

/// A row of a cell of 10 to 15 bits, by an encoder that has not failed, by a body of its own for
/// each kind of set. `THREE_TABLES` may be said of a set whose fourth and fifth tables have one
/// level.
#[inline(never)]
pub(crate) fn encode_row_of_bits<A: Allocator, B: Allocator, const THREE_TABLES: bool>(
    encoder: &mut RangeEncoder<A>,
    coding: &Coding<'_, B>,
    states: &mut [u8],
    above: &Above<'_>,
    cur: &[u16],
) -> Result<(), Fault>
    requires sound { encoder.old.failed ≡ false }
    requires above_nine { 9 < coding.now.bits }
    requires depth { coding.now.bits ≤ 15 }
    requires three_tables { IsTrue THREE_TABLES → HasThreeTables coding.now.set }
    requires some { 0 < length cur.now }
    requires one_long { length above.now.one ≡ length cur.now }
    requires rows { length states.old ≡ contexts_of coding.now.set * 32 }
    requires held { AllHeld coding.now.table states.old }
    ensures ok { OnOk result (Written coding.now (encoder_by encoder.old states.old)
        (encoder_by encoder.new states.new) above.now cur.now (length cur.now)) }
    ensures refused { OnErr result (MayBeRefusedRow coding.now (encoder_by encoder.old states.old)
        above.now cur.now (length cur.now)) }
    ensures held { AllHeld coding.now.table states.new }
    ensures err { FailsForGood result encoder.new }
    ensures kept { OnErr result (CountsFirst coding.now encoder.old.counts encoder.new.counts
        above.now cur.now) }
{
    let Coding { table, set, bits } = coding;
    let Above { two, one } = above;
    let mut block = Block {
        contexts: [0; PLACES],
        residuals: [0; PLACES],
        numbers: [0; PLACES],
        list: [0; LIST],
        is_dense: false,
    };
    let mut from = 0;
    'parts: while from < cur.len() {
        let count = (cur.len() - from).min(PLACES);
        let part = Part {
            set,
            bits: *bits,
            three_tables: THREE_TABLES,
            two,
            one,
            cur,
            from,
            count,
        };
        encode_block_of_bits(encoder, table, states, &part, &mut block)?;
        from += count;
    }
    Ok(())
}
