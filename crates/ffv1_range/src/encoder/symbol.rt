//! Writes symbols: numbers by their decisions (RFC 9043, 3.8.1.2).

ghost use Rattle.std.specs.Prelude.{◌≡◌, ℕ, ◌+◌, ◌*◌, ◌^◌, ◌≤◌, ◌<◌, List, [], ◌∷◌, OnOk, OnErr};
ghost use Rattle.std.specs.Prelude.{IfOk, IfErr, IsTrue, IsErr, length, unsigned_abs, false};
ghost use Rattle.ffv1_range.specs.Symbols.{Step, AreHeld, AllHeld, shifted, exponent_steps};
ghost use Rattle.ffv1_range.specs.Symbols.{mantissa_steps, magnitude_steps, signed_steps};
ghost use Rattle.ffv1_range.specs.Symbols.{unsigned_steps};
ghost use Rattle.ffv1_range.specs.Counts.{ones_in, Counted};
ghost use Rattle.ffv1_range.specs.Puts.{Puts, Grows, MayBeRefused};
ghost use Rattle.ffv1_range.specs.Writing.{summed_writing, refused_writing, LeavesNothing};
ghost use Rattle.ffv1_range.specs.Internal.Registers.{Writes, standing};

use crate::encoder::RangeEncoder;
use crate::encoder::registers::{Registers, Span};
use crate::fault::Fault;
use crate::symbol_slots::{EXPONENT, MANTISSA, ZERO, exponent, ones_below, sign_slot};
use crate::table::StateTable;
use crate::tally::Sums;
use std::alloc::{AllocError, Allocator};

/// A decision at a slot.
#[inline(always)]
fn put_slot<A: Allocator, R: Registers>(
    bytes: &mut Vec<u8, A>,
    registers: &mut R,
    table: &StateTable,
    states: &mut [u8],
    slot: usize,
    bit: bool,
) -> Result<(), AllocError>
    requires sound { R.are_sound bytes.old.items registers.old }
    requires held { AreHeld table.now states.old }
    requires slot { slot < 32 }
    ensures writes { OnOk result (Writes table.now
        (standing (R.interval bytes.old.items registers.old)) states.old
        (standing (R.interval bytes.new.items registers.new)) states.new
        (record { slot = slot; bit = bit } ∷ [])) }
    ensures refused { OnErr result (Grows table.now
        (R.interval bytes.old.items registers.old) states.old
        (record { slot = slot; bit = bit } ∷ [])) }
    ensures sound { R.are_sound bytes.new.items registers.new }
    ensures grown { OnOk result (length bytes.old.items ≤ length bytes.new.items) }
    ensures held { AreHeld table.now states.new }
{
    let before = states[slot];
    states[slot] = table.after_listed(before, u32::from(bit) * 256);
    registers.narrow(bytes, before, bit)?;
    Ok(())
}

/// An exponent.
#[inline(always)]
fn put_exponent<A: Allocator, R: Registers>(
    bytes: &mut Vec<u8, A>,
    registers: &mut R,
    table: &StateTable,
    states: &mut [u8],
    exponent: u32,
) -> Result<(), AllocError>
    requires sound { R.are_sound bytes.old.items registers.old }
    requires held { AreHeld table.now states.old }
    ensures writes { OnOk result (Writes table.now
        (standing (R.interval bytes.old.items registers.old)) states.old
        (standing (R.interval bytes.new.items registers.new)) states.new
        (exponent_steps exponent)) }
    ensures refused { OnErr result (Grows table.now
        (R.interval bytes.old.items registers.old) states.old
        (exponent_steps exponent)) }
    ensures sound { R.are_sound bytes.new.items registers.new }
    ensures grown { OnOk result (length bytes.old.items ≤ length bytes.new.items) }
    ensures held { AreHeld table.now states.new }
{
    let few = exponent.min(9);
    for k in 0..few {
        put_slot(bytes, registers, table, states, EXPONENT + k as usize, true)?;
    }
    'more: for _k in few..exponent {
        put_slot(bytes, registers, table, states, EXPONENT + 9, true)?;
    }
    put_slot(
        bytes,
        registers,
        table,
        states,
        EXPONENT + few as usize,
        false,
    )?;
    Ok(())
}

/// The lowest bits of a number, from the highest of them down.
#[inline(always)]
fn put_mantissa<A: Allocator, R: Registers>(
    bytes: &mut Vec<u8, A>,
    registers: &mut R,
    table: &StateTable,
    states: &mut [u8],
    exponent: u32,
    number: u32,
) -> Result<(), AllocError>
    requires sound { R.are_sound bytes.old.items registers.old }
    requires held { AreHeld table.now states.old }
    requires small { exponent < 32 }
    ensures writes { OnOk result (Writes table.now
        (standing (R.interval bytes.old.items registers.old)) states.old
        (standing (R.interval bytes.new.items registers.new)) states.new
        (mantissa_steps exponent 0 number)) }
    ensures refused { OnErr result (Grows table.now
        (R.interval bytes.old.items registers.old) states.old
        (mantissa_steps exponent 0 number)) }
    ensures sound { R.are_sound bytes.new.items registers.new }
    ensures grown { OnOk result (length bytes.old.items ≤ length bytes.new.items) }
    ensures held { AreHeld table.now states.new }
{
    let few = exponent.min(9);
    'high: for place in (few..exponent).rev() {
        put_slot(
            bytes,
            registers,
            table,
            states,
            MANTISSA + 9,
            (number >> place) % 2 == 1,
        )?;
    }
    for place in (0..few).rev() {
        put_slot(
            bytes,
            registers,
            table,
            states,
            MANTISSA + place as usize,
            (number >> place) % 2 == 1,
        )?;
    }
    Ok(())
}

/// A number that is not 0, without its sign.
#[inline(always)]
fn put_magnitude<A: Allocator, R: Registers>(
    bytes: &mut Vec<u8, A>,
    registers: &mut R,
    table: &StateTable,
    states: &mut [u8],
    number: u32,
) -> Result<(), AllocError>
    requires sound { R.are_sound bytes.old.items registers.old }
    requires held { AreHeld table.now states.old }
    requires positive { 0 < number }
    ensures writes { OnOk result (Writes table.now
        (standing (R.interval bytes.old.items registers.old)) states.old
        (standing (R.interval bytes.new.items registers.new)) states.new
        (magnitude_steps number)) }
    ensures refused { OnErr result (Grows table.now
        (R.interval bytes.old.items registers.old) states.old
        (magnitude_steps number)) }
    ensures sound { R.are_sound bytes.new.items registers.new }
    ensures grown { OnOk result (length bytes.old.items ≤ length bytes.new.items) }
    ensures held { AreHeld table.now states.new }
{
    put_slot(bytes, registers, table, states, ZERO, false)?;
    let exponent = exponent(number);
    put_exponent(bytes, registers, table, states, exponent)?;
    put_mantissa(bytes, registers, table, states, exponent, number)?;
    Ok(())
}

/// A number without a sign.
#[inline(always)]
fn put_natural<A: Allocator, R: Registers>(
    bytes: &mut Vec<u8, A>,
    registers: &mut R,
    table: &StateTable,
    states: &mut [u8],
    number: u32,
) -> Result<(), AllocError>
    requires sound { R.are_sound bytes.old.items registers.old }
    requires held { AreHeld table.now states.old }
    ensures writes { OnOk result (Writes table.now
        (standing (R.interval bytes.old.items registers.old)) states.old
        (standing (R.interval bytes.new.items registers.new)) states.new (unsigned_steps number)) }
    ensures refused { OnErr result (Grows table.now
        (R.interval bytes.old.items registers.old) states.old
        (unsigned_steps number)) }
    ensures sound { R.are_sound bytes.new.items registers.new }
    ensures grown { OnOk result (length bytes.old.items ≤ length bytes.new.items) }
    ensures held { AreHeld table.now states.new }
{
    if number == 0 {
        put_slot(bytes, registers, table, states, ZERO, true)?;
        return Ok(());
    }
    put_magnitude(bytes, registers, table, states, number)?;
    Ok(())
}

/// A signed number.
#[inline(always)]
pub(crate) fn put_number<A: Allocator, R: Registers>(
    bytes: &mut Vec<u8, A>,
    registers: &mut R,
    table: &StateTable,
    states: &mut [u8],
    value: i32,
) -> Result<(), AllocError>
    requires sound { R.are_sound bytes.old.items registers.old }
    requires held { AreHeld table.now states.old }
    requires size { unsigned_abs value < 2 ^ 31 }
    ensures writes { OnOk result (Writes table.now
        (standing (R.interval bytes.old.items registers.old)) states.old
        (standing (R.interval bytes.new.items registers.new)) states.new (signed_steps value)) }
    ensures refused { OnErr result (Grows table.now
        (R.interval bytes.old.items registers.old) states.old
        (signed_steps value)) }
    ensures sound { R.are_sound bytes.new.items registers.new }
    ensures grown { OnOk result (length bytes.old.items ≤ length bytes.new.items) }
    ensures held { AreHeld table.now states.new }
{
    let number = value.unsigned_abs();
    if number == 0 {
        put_slot(bytes, registers, table, states, ZERO, true)?;
        return Ok(());
    }
    put_magnitude(bytes, registers, table, states, number)?;
    let slot = sign_slot(exponent(number));
    put_slot(bytes, registers, table, states, slot, value < 0)?;
    Ok(())
}

impl<A: Allocator> RangeEncoder<A> {
    /// The symbol of a signed number of a size below 2^31, by 32 states that the table holds. The
    /// states move by the decisions. Answers `OutOfMemory` if a growth was refused, now or
    /// before: the encoder has failed for good, its counts stay, and the states are still held by
    /// the table.
    #[inline(always)]
    pub fn put_signed(
        &mut self,
        table: &StateTable,
        states: &mut [u8],
        value: i32,
    ) -> Result<(), Fault>
        requires held { AreHeld table.now states.old }
        requires size { unsigned_abs value < 2 ^ 31 }
        ensures ok { OnOk result (Puts table.now self.old states.old self.new states.new
            (signed_steps value)) }
        ensures refused { OnErr result (MayBeRefused table.now self.old states.old
            (signed_steps value)) }
        ensures held { AreHeld table.now states.new }
        ensures err { IfErr result (λ f. (f ≡ Fault.OutOfMemory) × IsTrue self.new.failed) }
        ensures kept { OnErr result (self.new.counts ≡ self.old.counts) }
        ensures left { OnErr result (LeavesNothing self.old self.new) }
        ensures stays { IsTrue self.old.failed → IsErr result }
    {
        if self.failed {
            return Err(Fault::OutOfMemory);
        }
        self.write_signed(table, states, value)?;
        Ok(())
    }

    /// The same by an encoder that has not failed.
    #[inline(always)]
    fn write_signed(
        &mut self,
        table: &StateTable,
        states: &mut [u8],
        value: i32,
    ) -> Result<(), Fault>
        requires sound { self.old.failed ≡ false }
        requires held { AreHeld table.now states.old }
        requires size { unsigned_abs value < 2 ^ 31 }
        ensures ok { OnOk result (Puts table.now self.old states.old self.new states.new
            (signed_steps value)) }
        ensures refused { OnErr result (MayBeRefused table.now self.old states.old
            (signed_steps value)) }
        ensures held { AreHeld table.now states.new }
        ensures err { IfErr result (λ f. (f ≡ Fault.OutOfMemory) × IsTrue self.new.failed) }
        ensures kept { OnErr result (self.new.counts ≡ self.old.counts) }
        ensures left { OnErr result (self.new ≡ refused_writing self.old) }
    {
        let mut sums = self.sums();
        self.sum_signed(&mut sums, table, states, value)?;
        self.count_all(&sums);
        Ok(())
    }

    /// The same, but that its decisions are counted in `sums` and not yet in the encoder's counts.
    /// Sums below 2^32 - 63 have room for them.
    #[inline(always)]
    fn sum_signed(
        &mut self,
        sums: &mut Sums,
        table: &StateTable,
        states: &mut [u8],
        value: i32,
    ) -> Result<(), Fault>
        requires sound { self.old.failed ≡ false }
        requires held { AreHeld table.now states.old }
        requires size { unsigned_abs value < 2 ^ 31 }
        requires room { sums.old.ones + sums.old.zeros + 63 < 2 ^ 32 }
        ensures ok { OnOk result (Puts table.now (summed_writing self.old sums.old) states.old
            (summed_writing self.new sums.new) states.new (signed_steps value)) }
        ensures refused { OnErr result (MayBeRefused table.now self.old states.old
            (signed_steps value)) }
        ensures few { sums.new.ones + sums.new.zeros ≤ sums.old.ones + sums.old.zeros + 63 }
        ensures held { AreHeld table.now states.new }
        ensures err { IfErr result (λ f. (f ≡ Fault.OutOfMemory) × IsTrue self.new.failed) }
        ensures kept { OnErr result (self.new.counts ≡ self.old.counts) }
        ensures left { OnErr result (self.new ≡ refused_writing self.old) }
    {
        let mut span = Span {
            low: self.low,
            width: self.width,
        };
        let done = put_number(&mut self.bytes, &mut span, table, states, value);
        self.low = span.low;
        self.width = span.width;
        let Ok(()) = done else {
            self.fail();
            return Err(Fault::OutOfMemory);
        };
        sums.count_signed(value);
        Ok(())
    }

    /// The symbol of a number without a sign, below 2^31, by 32 states that the table holds. All
    /// else is as with `put_signed`.
    #[inline(always)]
    pub fn put_unsigned(
        &mut self,
        table: &StateTable,
        states: &mut [u8],
        number: u32,
    ) -> Result<(), Fault>
        requires held { AreHeld table.now states.old }
        requires size { number < 2 ^ 31 }
        ensures ok { OnOk result (Puts table.now self.old states.old self.new states.new
            (unsigned_steps number)) }
        ensures refused { OnErr result (MayBeRefused table.now self.old states.old
            (unsigned_steps number)) }
        ensures held { AreHeld table.now states.new }
        ensures err { IfErr result (λ f. (f ≡ Fault.OutOfMemory) × IsTrue self.new.failed) }
        ensures kept { OnErr result (self.new.counts ≡ self.old.counts) }
        ensures left { OnErr result (LeavesNothing self.old self.new) }
        ensures stays { IsTrue self.old.failed → IsErr result }
    {
        if self.failed {
            return Err(Fault::OutOfMemory);
        }
        let mut span = Span {
            low: self.low,
            width: self.width,
        };
        let done = put_natural(&mut self.bytes, &mut span, table, states, number);
        self.low = span.low;
        self.width = span.width;
        let Ok(()) = done else {
            self.fail();
            return Err(Fault::OutOfMemory);
        };
        if number == 0 {
            self.count(1, 0);
            return Ok(());
        }
        let exponent = exponent(number);
        let ones = exponent + ones_below(number);
        self.count(ones, 2 * exponent + 2 - ones);
        Ok(())
    }

    /// The symbol of a signed number, by row `row` of many states, 32 a row, by an encoder that has
    /// not failed. All else is as with `put_signed`.
    #[inline(always)]
    pub fn put_signed_in_row(
        &mut self,
        table: &StateTable,
        states: &mut [u8],
        row: usize,
        value: i32,
    ) -> Result<(), Fault>
        requires sound { self.old.failed ≡ false }
        requires rows { row * 32 + 32 ≤ length states.old }
        requires held { AllHeld table.now states.old }
        requires size { unsigned_abs value < 2 ^ 31 }
        ensures ok { OnOk result (Puts table.now self.old states.old self.new states.new
            (shifted (row * 32) (signed_steps value))) }
        ensures refused { OnErr result (MayBeRefused table.now self.old states.old
            (shifted (row * 32) (signed_steps value))) }
        ensures held { AllHeld table.now states.new }
        ensures err { IfErr result (λ f. (f ≡ Fault.OutOfMemory) × IsTrue self.new.failed) }
        ensures kept { OnErr result (self.new.counts ≡ self.old.counts) }
        ensures left { OnErr result (self.new ≡ refused_writing self.old) }
        ensures stays { IsTrue self.old.failed → IsErr result }
    {
        let base = row * 32;
        // By arms: what each outcome says of the row is lifted to all states in its own arm.
        match self.write_signed(table, &mut states[base..base + 32], value) {
            Ok(()) => Ok(()),
            Err(refused) => Err(refused),
        }
    }

    /// Counts some decisions.
    #[inline(always)]
    pub(crate) fn count(&mut self, ones: u32, zeros: u32)
        ensures counts { (steps : List Step) → ones ≡ ones_in steps → ones + zeros ≡ length steps →
            Counted self.old.counts steps self.new.counts }
        ensures rest { self.new ≡ record self.old { counts = self.new.counts } }
    {
        self.ones = self.ones.saturating_add(u64::from(ones));
        self.zeros = self.zeros.saturating_add(u64::from(zeros));
    }
}
