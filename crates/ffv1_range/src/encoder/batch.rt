//! Writes the decisions of a list.

ghost use Rattle.std.specs.Prelude.{◌≡◌, ℕ, ◌+◌, ◌*◌, ◌/◌, ◌^◌, ◌≤◌, ◌<◌, [], ◌∷◌, OnOk, OnErr};
ghost use Rattle.std.specs.Prelude.{IfOk, IfErr, IsTrue, length, false, List, ◌++◌, take, drop};
ghost use Rattle.std.specs.Prelude.{map};
ghost use Rattle.std.specs.Prelude.{slice_index};
ghost use Rattle.std.specs.Vec.{vec_capacity, vec_len};
ghost use Rattle.ffv1_range.specs.Interval.{narrow, part, renormalised};
ghost use Rattle.ffv1_range.specs.Codes.{value, AreBytes};
ghost use Rattle.ffv1_range.specs.Symbols.{AllHeld, shifted, signed_steps};
ghost use Rattle.ffv1_range.specs.History.{AreBelow};
ghost use Rattle.ffv1_range.specs.Counts.{ones_in};
ghost use Rattle.ffv1_range.specs.Listed.{step_of, steps_of, of_nine_bits};
ghost use Rattle.ffv1_range.specs.Puts.{Puts, Grows, MayBeRefused};
ghost use Rattle.ffv1_range.specs.Writing.{refused_writing};
ghost use Rattle.ffv1_range.specs.Internal.Registers.{Writes, IsWriting, IsHolding, IsMarked};
ghost use Rattle.ffv1_range.specs.Internal.Registers.{IsMarkedPart, interval_from};
ghost use Rattle.ffv1_range.specs.Internal.Registers.{interval_of_holding};
ghost use Rattle.ffv1_range.specs.Internal.Registers.{interval_marked, standing};
ghost use Rattle.ffv1_range.specs.Internal.Registers.{held_in, low_in};
ghost use Rattle.ffv1_range.specs.declared.encoder.symbol_table.TheConstants.{SYMBOLS, LENGTHS};

use crate::encoder::marked::{Marked, mark, settle};
use crate::encoder::registers::{Registers, Span};
use crate::encoder::symbol_table::{LENGTHS, SYMBOLS};
use crate::encoder::{FIRST_WIDTH, RangeEncoder};
use crate::fault::Fault;
use crate::table::StateTable;
use std::alloc::{AllocError, Allocator};

/// A decision of a list.
#[inline(always)]
fn put_listed<A: Allocator>(
    bytes: &mut Vec<u8, A>,
    marked: &mut Marked,
    table: &StateTable,
    states: &mut [u8],
    step: u32,
) -> Result<(), AllocError>
    requires marked { IsMarked bytes.old.items marked.old.low marked.old.width }
    requires few { held_in marked.old.low < 4 }
    requires held { AllHeld table.now states.old }
    requires slot { step / 512 < length states.old }
    ensures writes { OnOk result (Writes table.now
        (standing (interval_marked bytes.old.items marked.old.low marked.old.width))
        states.old
        (standing (interval_marked bytes.new.items marked.new.low marked.new.width))
        states.new (step_of step ∷ [])) }
    ensures refused { OnErr result (Grows table.now
        (interval_marked bytes.old.items marked.old.low marked.old.width)
        states.old (step_of step ∷ [])) }
    ensures marked { OnOk result (IsMarked bytes.new.items marked.new.low marked.new.width) }
    ensures few { OnOk result (held_in marked.new.low < 4) }
    ensures grown { OnOk result (length bytes.old.items ≤ length bytes.new.items) }
    ensures held { AllHeld table.now states.new }
{
    let slot = (step / 512) as usize;
    let bit = step / 256 % 2 == 1;
    let before = states[slot];
    states[slot] = table.after_listed(before, step);
    marked.narrow(bytes, before, bit)?;
    Ok(())
}

/// The decisions of a list, with what is held back.
#[inline(always)]
fn put_each<A: Allocator>(
    bytes: &mut Vec<u8, A>,
    marked: &mut Marked,
    table: &StateTable,
    states: &mut [u8],
    list: &[u32],
) -> Result<(), AllocError>
    requires marked { IsMarked bytes.old.items marked.old.low marked.old.width }
    requires few { held_in marked.old.low < 4 }
    requires held { AllHeld table.now states.old }
    requires slots { AreBelow (steps_of list.now) (length states.old) }
    ensures writes { OnOk result (Writes table.now
        (standing (interval_marked bytes.old.items marked.old.low marked.old.width))
        states.old
        (standing (interval_marked bytes.new.items marked.new.low marked.new.width))
        states.new (steps_of list.now)) }
    ensures refused { OnErr result (Grows table.now
        (interval_marked bytes.old.items marked.old.low marked.old.width)
        states.old (steps_of list.now)) }
    ensures marked { OnOk result (IsMarked bytes.new.items marked.new.low marked.new.width) }
    ensures few { OnOk result (held_in marked.new.low < 4) }
    ensures grown { OnOk result (length bytes.old.items ≤ length bytes.new.items) }
    ensures held { AllHeld table.now states.new }
{
    for step in list {
        put_listed(bytes, marked, table, states, *step)?;
    }
    Ok(())
}

/// The decisions of a list, with the interval in locals.
#[inline(always)]
fn put_list<A: Allocator>(
    bytes: &mut Vec<u8, A>,
    span: &mut Span,
    table: &StateTable,
    states: &mut [u8],
    list: &[u32],
) -> Result<(), AllocError>
    requires writing { IsWriting bytes.old.items span.old.low span.old.width }
    requires held { AllHeld table.now states.old }
    requires slots { AreBelow (steps_of list.now) (length states.old) }
    ensures writes { OnOk result (Writes table.now
        (standing (interval_from bytes.old.items span.old.low span.old.width)) states.old
        (standing (interval_from bytes.new.items span.new.low span.new.width)) states.new
        (steps_of list.now)) }
    ensures refused { OnErr result (Grows table.now
        (interval_from bytes.old.items span.old.low span.old.width) states.old
        (steps_of list.now)) }
    ensures writing { OnOk result (IsWriting bytes.new.items span.new.low span.new.width) }
    ensures held { AllHeld table.now states.new }
{
    let mut marked = mark(bytes, span);
    put_each(bytes, &mut marked, table, states, list)?;
    *span = settle(bytes, marked)?;
    Ok(())
}

/// How many decisions of a list are 1.
// Apart from the loop that puts them: a sum alone takes four at once.
#[inline(always)]
fn ones_of(list: &[u32]) -> u32
    requires { length list.now < 2 ^ 32 }
    ensures value { result ≡ ones_in (steps_of list.now) }
    ensures of_all { result ≤ length list.now }
{
    let mut ones = 0u32;
    for step in list {
        ones += *step / 256 % 2;
    }
    ones
}

/// The row of a residual of nine bits, given modulo 512, in the table of symbols.
#[inline(always)]
fn symbol_of(residual: usize) -> &'static [u16]
    requires { residual < 512 }
    ensures { result.now ≡ take 24 (drop (residual * 24) SYMBOLS) }
{
    &SYMBOLS[residual * 24..residual * 24 + 24]
}

/// How many decisions the residual has.
#[inline(always)]
fn length_of(residual: usize) -> usize
    requires { residual < 512 }
    ensures { result ≡ slice_index LENGTHS residual }
{
    LENGTHS[residual] as usize
}

/// The places of a row of numbers from `from` to before `upto`, each after a base.
#[inline(always)]
fn list_places(list: &mut [u32], at: usize, base: u32, row: &[u16], from: usize, upto: usize)
    requires ordered { from ≤ upto }
    requires row { upto ≤ length row.now }
    requires room { at + length row.now ≤ length list.old }
    requires small { base < 2 ^ 31 }
    ensures { (before : List ℕ) →
        take (at + from) list.old ≡ before ++ map (λ n. base + n) (take from row.now) →
        take (at + upto) list.new ≡ before ++ map (λ n. base + n) (take upto row.now) }
{
    for k in from..upto {
        list[at + k] = base + u32::from(row[k]);
    }
}

/// Lists the decisions of a residual of nine bits, given modulo 512, in the states of a context,
/// after the first `at` numbers of a list that has room for 24 more, all of which may be
/// overwritten. Answers how many numbers the list has then, at most 19 more (RFC 9043, 3.8.1.2).
#[inline(always)]
pub fn list_signed(list: &mut [u32], at: usize, context: u32, residual: usize) -> usize
    requires room { at + 24 ≤ length list.old }
    requires context { context < 2 ^ 16 }
    requires residual { residual < 512 }
    ensures steps { steps_of (take result list.new) ≡ steps_of (take at list.old) ++
        shifted (context * 32) (signed_steps (of_nine_bits residual)) }
    ensures few { result ≤ at + 19 }
{
    let row = symbol_of(residual);
    let long = length_of(residual);
    let base = context * 16384;
    list_places(list, at, base, row, 0, 8);
    if long > 8 {
        list_places(list, at, base, row, 8, 24);
        return at + long;
    }
    at + long
}

impl<A: Allocator> RangeEncoder<A> {
    /// The decisions of a list, of fewer than 2^32, by states that the table holds, by an encoder
    /// that has not failed. A decision is its slot times 512, and 256 more if it is 1. The
    /// states move by the decisions. Answers `OutOfMemory` if a growth was refused: the encoder
    /// has failed for good, its counts stay, and the states are still held by the table.
    #[inline(always)]
    pub fn put_all(
        &mut self,
        table: &StateTable,
        states: &mut [u8],
        list: &[u32],
    ) -> Result<(), Fault>
        requires sound { self.old.failed ≡ false }
        requires held { AllHeld table.now states.old }
        requires slots { AreBelow (steps_of list.now) (length states.old) }
        requires few { length list.now < 2 ^ 32 }
        ensures ok { OnOk result (Puts table.now self.old states.old self.new states.new
            (steps_of list.now)) }
        ensures refused { OnErr result (MayBeRefused table.now self.old states.old
            (steps_of list.now)) }
        ensures held { AllHeld table.now states.new }
        ensures err { IfErr result (λ f. (f ≡ Fault.OutOfMemory) × IsTrue self.new.failed) }
        ensures kept { OnErr result (self.new.counts ≡ self.old.counts) }
        ensures left { OnErr result (self.new ≡ refused_writing self.old) }
    {
        let mut span = Span {
            low: self.low,
            width: self.width,
        };
        let done = put_list(&mut self.bytes, &mut span, table, states, list);
        let Ok(()) = done else {
            self.bytes.clear();
            self.low = 0;
            self.width = FIRST_WIDTH;
            self.failed = true;
            return Err(Fault::OutOfMemory);
        };
        self.low = span.low;
        self.width = span.width;
        let ones = ones_of(list);
        self.count(ones, list.len() as u32 - ones);
        Ok(())
    }
}
