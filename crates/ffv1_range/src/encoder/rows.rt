//! Writes the symbols of many numbers, each by a row of 32 of many states.

ghost use Rattle.std.specs.Prelude.{◌≡◌, ℕ, ℤ, ◌+◌, ◌*◌, ◌^◌, ◌≤◌, ◌<◌, List, length, take, OnOk};
ghost use Rattle.std.specs.Prelude.{OnErr, IfOk, IfErr, IsTrue, unsigned_abs, false};
ghost use Rattle.ffv1_range.specs.Symbols.{AllHeld, shifted, signed_steps};
ghost use Rattle.ffv1_range.specs.Rows.{rows_steps, AreRows, HaveSymbols};
ghost use Rattle.ffv1_range.specs.Counts.{ones_in};
ghost use Rattle.ffv1_range.specs.Puts.{Puts, Grows, MayBeRefused};
ghost use Rattle.ffv1_range.specs.Writing.{refused_writing};
ghost use Rattle.ffv1_range.specs.Internal.Registers.{Writes, IsWriting, interval_from, standing};

use crate::encoder::marked::{mark, settle};
use crate::encoder::registers::{Registers, Span};
use crate::encoder::symbol::put_number;
use crate::encoder::{FIRST_WIDTH, RangeEncoder};
use crate::fault::Fault;
use crate::table::StateTable;
use crate::tally::Sums;
use std::alloc::{AllocError, Allocator};

/// The symbol of a number in its row.
#[inline(always)]
fn put_in_row<A: Allocator, R: Registers>(
    bytes: &mut Vec<u8, A>,
    registers: &mut R,
    table: &StateTable,
    states: &mut [u8],
    row: usize,
    number: i32,
) -> Result<(), AllocError>
    requires sound { R.are_sound bytes.old.items registers.old }
    requires rows { row * 32 + 32 ≤ length states.old }
    requires held { AllHeld table.now states.old }
    requires size { unsigned_abs number < 2 ^ 31 }
    ensures writes { OnOk result (Writes table.now
        (standing (R.interval bytes.old.items registers.old)) states.old
        (standing (R.interval bytes.new.items registers.new)) states.new
        (shifted (row * 32) (signed_steps number))) }
    ensures refused { OnErr result (Grows table.now
        (R.interval bytes.old.items registers.old) states.old
        (shifted (row * 32) (signed_steps number))) }
    ensures sound { R.are_sound bytes.new.items registers.new }
    ensures grown { OnOk result (length bytes.old.items ≤ length bytes.new.items) }
    ensures held { AllHeld table.now states.new }
{
    let base = row * 32;
    let own = &mut states[base..base + 32];
    // By arms: what each outcome says of the row is lifted to all states in its own arm.
    match put_number(bytes, registers, table, own, number) {
        Ok(()) => Ok(()),
        Err(refused) => Err(refused),
    }
}

/// The symbols of numbers in their rows.
#[inline(always)]
fn put_each<A: Allocator, R: Registers>(
    bytes: &mut Vec<u8, A>,
    registers: &mut R,
    table: &StateTable,
    states: &mut [u8],
    rows: &[u32],
    numbers: &[i32],
) -> Result<(), AllocError>
    requires sound { R.are_sound bytes.old.items registers.old }
    requires held { AllHeld table.now states.old }
    requires long { length numbers.now ≡ length rows.now }
    requires rows { AreRows rows.now (length states.old) }
    requires symbols { HaveSymbols numbers.now }
    ensures writes { OnOk result (Writes table.now
        (standing (R.interval bytes.old.items registers.old)) states.old
        (standing (R.interval bytes.new.items registers.new)) states.new
        (rows_steps rows.now numbers.now (length rows.now))) }
    ensures refused { OnErr result (Grows table.now
        (R.interval bytes.old.items registers.old) states.old
        (rows_steps rows.now numbers.now (length rows.now))) }
    ensures sound { R.are_sound bytes.new.items registers.new }
    ensures grown { OnOk result (length bytes.old.items ≤ length bytes.new.items) }
    ensures held { AllHeld table.now states.new }
{
    for k in 0..rows.len() {
        put_in_row(
            bytes,
            registers,
            table,
            states,
            rows[k] as usize,
            numbers[k],
        )?;
    }
    Ok(())
}

/// The same, with the interval in locals.
#[inline(always)]
fn put_all_rows<A: Allocator>(
    bytes: &mut Vec<u8, A>,
    span: &mut Span,
    table: &StateTable,
    states: &mut [u8],
    rows: &[u32],
    numbers: &[i32],
) -> Result<(), AllocError>
    requires writing { IsWriting bytes.old.items span.old.low span.old.width }
    requires held { AllHeld table.now states.old }
    requires long { length numbers.now ≡ length rows.now }
    requires rows { AreRows rows.now (length states.old) }
    requires symbols { HaveSymbols numbers.now }
    ensures writes { OnOk result (Writes table.now
        (standing (interval_from bytes.old.items span.old.low span.old.width)) states.old
        (standing (interval_from bytes.new.items span.new.low span.new.width)) states.new
        (rows_steps rows.now numbers.now (length rows.now))) }
    ensures refused { OnErr result (Grows table.now
        (interval_from bytes.old.items span.old.low span.old.width) states.old
        (rows_steps rows.now numbers.now (length rows.now))) }
    ensures writing { OnOk result (IsWriting bytes.new.items span.new.low span.new.width) }
    ensures held { AllHeld table.now states.new }
{
    let mut marked = mark(bytes, span);
    put_each(bytes, &mut marked, table, states, rows, numbers)?;
    *span = settle(bytes, marked)?;
    Ok(())
}

/// How many decisions of the symbols of numbers are 1, and how many 0.
#[inline(always)]
fn sums_of(numbers: &[i32]) -> Sums
    requires symbols { HaveSymbols numbers.now }
    requires few { length numbers.now < 2 ^ 16 }
    ensures ones { (rows : List ℕ) →
        result.ones ≡ ones_in (rows_steps rows numbers.now (length numbers.now)) }
    ensures all { (rows : List ℕ) →
        result.ones + result.zeros ≡ length (rows_steps rows numbers.now (length numbers.now)) }
    ensures few { result.ones + result.zeros ≤ 63 * length numbers.now }
{
    let mut sums = Sums { ones: 0, zeros: 0 };
    for &number in numbers {
        sums.count_signed(number);
    }
    sums
}

impl<A: Allocator> RangeEncoder<A> {
    /// The symbols of signed numbers, each by its row of many states, 32 a row, by an encoder that
    /// has not failed. Answers how many decisions they were. The states move by the decisions.
    /// `OutOfMemory` if a growth was refused: the encoder has failed for good, its counts stay,
    /// and the states are still held by the table (RFC 9043, 3.8.1.2).
    #[inline(always)]
    pub fn put_rows(
        &mut self,
        table: &StateTable,
        states: &mut [u8],
        rows: &[u32],
        numbers: &[i32],
    ) -> Result<u32, Fault>
        requires sound { self.old.failed ≡ false }
        requires held { AllHeld table.now states.old }
        requires long { length numbers.now ≡ length rows.now }
        requires few { length rows.now < 2 ^ 16 }
        requires rows { AreRows rows.now (length states.old) }
        requires symbols { HaveSymbols numbers.now }
        ensures ok { OnOk result (Puts table.now self.old states.old self.new states.new
            (rows_steps rows.now numbers.now (length rows.now))) }
        ensures long { IfOk result (λ decisions.
            decisions ≡ length (rows_steps rows.now numbers.now (length rows.now))) }
        ensures refused { OnErr result (MayBeRefused table.now self.old states.old
            (rows_steps rows.now numbers.now (length rows.now))) }
        ensures held { AllHeld table.now states.new }
        ensures err { IfErr result (λ f. (f ≡ Fault.OutOfMemory) × IsTrue self.new.failed) }
        ensures kept { OnErr result (self.new.counts ≡ self.old.counts) }
        ensures left { OnErr result (self.new ≡ refused_writing self.old) }
    {
        let mut span = Span {
            low: self.low,
            width: self.width,
        };
        let done = put_all_rows(&mut self.bytes, &mut span, table, states, rows, numbers);
        let Ok(()) = done else {
            self.bytes.clear();
            self.low = 0;
            self.width = FIRST_WIDTH;
            self.failed = true;
            return Err(Fault::OutOfMemory);
        };
        self.low = span.low;
        self.width = span.width;
        let sums = sums_of(numbers);
        self.count(sums.ones, sums.zeros);
        Ok(sums.ones + sums.zeros)
    }
}
