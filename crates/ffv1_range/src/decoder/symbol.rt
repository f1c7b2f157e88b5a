//! Reads symbols: numbers by their decisions (RFC 9043, 3.8.1.2).

ghost use Rattle.std.specs.Prelude.{◌≡◌, ℕ, ◌+◌, ◌*◌, ◌^◌, ◌≤◌, ◌<◌, List, [], ◌∷◌, IfOk, IfErr};
ghost use Rattle.std.specs.Prelude.{OnErr, length, unsigned_abs};
ghost use Rattle.ffv1_range.specs.Symbols.{Step, AreHeld, AllHeld, shifted};
ghost use Rattle.ffv1_range.specs.Symbols.{exponent_steps, mantissa_steps, raising, signed_steps};
ghost use Rattle.ffv1_range.specs.Symbols.{unsigned_steps, too_long};
ghost use Rattle.ffv1_range.specs.Counts.{ones_in, Counted};
ghost use Rattle.ffv1_range.specs.Follows.{Follows};
ghost use Rattle.ffv1_range.specs.Reading.{summed};
ghost use Rattle.ffv1_range.specs.Internal.Registers.{Reads};

use crate::decoder::RangeDecoder;
use crate::fault::Fault;
use crate::symbol_slots::{EXPONENT, MANTISSA, ZERO, ones_below, sign_slot};
use crate::table::StateTable;
use crate::tally::Sums;

/// An exponent that is too long.
#[derive(Drop)]
pub(crate) struct TooLong;

/// The decision at a slot, which steers what comes next.
#[inline(always)]
pub(crate) fn decide_slot(
    decoder: &mut RangeDecoder<'_>,
    table: &StateTable,
    states: &mut [u8],
    slot: usize,
) -> bool
    requires held { AreHeld table.now states.old }
    requires slot { slot < 32 }
    ensures reads { Reads table.now decoder.old states.old decoder.new states.new
        (record { slot = slot; bit = result } ∷ []) }
    ensures held { AreHeld table.now states.new }
{
    decoder.decide(table, &mut states[slot])
}

/// The decision at a slot, which is data.
#[inline(always)]
pub(crate) fn choose_slot(
    decoder: &mut RangeDecoder<'_>,
    table: &StateTable,
    states: &mut [u8],
    slot: usize,
) -> bool
    requires held { AreHeld table.now states.old }
    requires slot { slot < 32 }
    ensures reads { Reads table.now decoder.old states.old decoder.new states.new
        (record { slot = slot; bit = result } ∷ []) }
    ensures held { AreHeld table.now states.new }
{
    decoder.choose(table, &mut states[slot])
}

/// An exponent.
#[inline(always)]
fn get_exponent(
    decoder: &mut RangeDecoder<'_>,
    table: &StateTable,
    states: &mut [u8],
) -> Result<u32, TooLong>
    requires { AreHeld table.now states.old }
    ensures reads { IfOk result (λ e. Reads table.now decoder.old states.old decoder.new states.new
        (exponent_steps e)) }
    ensures small { IfOk result (λ e. e < 31) }
    ensures refused { OnErr result (Reads table.now decoder.old states.old decoder.new states.new
        (raising 31)) }
    ensures held { AreHeld table.now states.new }
{
    'near: for exponent in 0..10u32 {
        if !decide_slot(decoder, table, states, EXPONENT + exponent as usize) {
            return Ok(exponent);
        }
    }
    'far: for exponent in 10..31u32 {
        if !decide_slot(decoder, table, states, EXPONENT + 9) {
            return Ok(exponent);
        }
    }
    Err(TooLong)
}

/// The number of an exponent below 10, whose highest bit is not coded: each of its bits has a slot
/// of its own.
#[inline(always)]
fn get_near(
    decoder: &mut RangeDecoder<'_>,
    table: &StateTable,
    states: &mut [u8],
    exponent: u32,
) -> u32
    requires held { AreHeld table.now states.old }
    requires small { exponent < 10 }
    ensures reads { Reads table.now decoder.old states.old decoder.new states.new
        (mantissa_steps exponent 0 result) }
    ensures least { 2 ^ exponent ≤ result }
    ensures most { result < 2 * 2 ^ exponent }
    ensures fits { result < 2 ^ 31 }
    ensures held { AreHeld table.now states.new }
{
    let mut number = 1;
    for place in (0..exponent).rev() {
        number = number * 2
            + u32::from(choose_slot(decoder, table, states, MANTISSA + place as usize));
    }
    number
}

/// The number of any exponent, whose highest bit is not coded.
#[inline(always)]
fn get_far(
    decoder: &mut RangeDecoder<'_>,
    table: &StateTable,
    states: &mut [u8],
    exponent: u32,
) -> u32
    requires held { AreHeld table.now states.old }
    requires small { exponent < 31 }
    ensures reads { Reads table.now decoder.old states.old decoder.new states.new
        (mantissa_steps exponent 0 result) }
    ensures least { 2 ^ exponent ≤ result }
    ensures most { result < 2 * 2 ^ exponent }
    ensures fits { result < 2 ^ 31 }
    ensures held { AreHeld table.now states.new }
{
    let mut number = 1;
    let few = exponent.min(9);
    'high: for _place in (few..exponent).rev() {
        number = number * 2 + u32::from(choose_slot(decoder, table, states, MANTISSA + 9));
    }
    for place in (0..few).rev() {
        number = number * 2
            + u32::from(choose_slot(decoder, table, states, MANTISSA + place as usize));
    }
    number
}

/// The number of an exponent, whose highest bit is not coded. Nearly all exponents are below 10, so
/// these have a loop alone.
#[inline(always)]
pub(crate) fn get_mantissa(
    decoder: &mut RangeDecoder<'_>,
    table: &StateTable,
    states: &mut [u8],
    exponent: u32,
) -> u32
    requires held { AreHeld table.now states.old }
    requires small { exponent < 31 }
    ensures reads { Reads table.now decoder.old states.old decoder.new states.new
        (mantissa_steps exponent 0 result) }
    ensures least { 2 ^ exponent ≤ result }
    ensures most { result < 2 * 2 ^ exponent }
    ensures fits { result < 2 ^ 31 }
    ensures held { AreHeld table.now states.new }
{
    if exponent < 10 {
        return get_near(decoder, table, states, exponent);
    }
    get_far(decoder, table, states, exponent)
}

impl RangeDecoder<'_> {
    /// The signed number whose symbol comes next, of a size below 2^31, by 32 states that the table
    /// holds. The states move by the decisions. Answers `SymbolTooLong` exactly if the 31st
    /// decision of the exponent is 1; the decoder then stands after that decision.
    #[inline(always)]
    pub fn get_signed(&mut self, table: &StateTable, states: &mut [u8]) -> Result<i32, Fault>
        requires { AreHeld table.now states.old }
        ensures follows { IfOk result (λ v. Follows table.now self.old states.old self.new
            states.new (signed_steps v)) }
        ensures size { IfOk result (λ v. unsigned_abs v < 2 ^ 31) }
        ensures refused { IfErr result (λ f. (f ≡ Fault.SymbolTooLong) ×
            Follows table.now self.old states.old self.new states.new too_long) }
        ensures held { AreHeld table.now states.new }
    {
        let mut sums = self.sums();
        let read = self.sum_signed(&mut sums, table, states);
        self.count_all(&sums);
        read
    }

    /// The same, but that its decisions are counted in `sums` and not yet in the decoder's counts.
    /// Sums below 2^32 - 63 have room for them.
    #[inline(always)]
    fn sum_signed(
        &mut self,
        sums: &mut Sums,
        table: &StateTable,
        states: &mut [u8],
    ) -> Result<i32, Fault>
        requires held { AreHeld table.now states.old }
        requires room { sums.old.ones + sums.old.zeros + 63 < 2 ^ 32 }
        ensures follows { IfOk result (λ v. Follows table.now (summed self.old sums.old) states.old
            (summed self.new sums.new) states.new (signed_steps v)) }
        ensures size { IfOk result (λ v. unsigned_abs v < 2 ^ 31) }
        ensures refused { IfErr result (λ f. (f ≡ Fault.SymbolTooLong) ×
            Follows table.now (summed self.old sums.old) states.old (summed self.new sums.new)
            states.new too_long) }
        ensures few { sums.new.ones + sums.new.zeros ≤ sums.old.ones + sums.old.zeros + 63 }
        ensures held { AreHeld table.now states.new }
    {
        if decide_slot(self, table, states, ZERO) {
            sums.count(1, 0);
            return Ok(0);
        }
        let Ok(exponent) = get_exponent(self, table, states) else {
            sums.count(31, 1);
            return Err(Fault::SymbolTooLong);
        };
        let number = get_mantissa(self, table, states, exponent);
        let ones = ones_below(number);
        let negative = choose_slot(self, table, states, sign_slot(exponent));
        let ones = exponent + ones + u32::from(negative);
        sums.count(ones, 2 * exponent + 3 - ones);
        if negative {
            return Ok(-(number as i32));
        }
        Ok(number as i32)
    }

    /// The number without a sign whose symbol comes next, below 2^31, by 32 states that the table
    /// holds. The states move by the decisions. Answers `SymbolTooLong` exactly if the 31st
    /// decision of the exponent is 1; the decoder then stands after that decision.
    #[inline(always)]
    pub fn get_unsigned(&mut self, table: &StateTable, states: &mut [u8]) -> Result<u32, Fault>
        requires { AreHeld table.now states.old }
        ensures follows { IfOk result (λ n. Follows table.now self.old states.old self.new
            states.new (unsigned_steps n)) }
        ensures size { IfOk result (λ n. n < 2 ^ 31) }
        ensures refused { IfErr result (λ f. (f ≡ Fault.SymbolTooLong) ×
            Follows table.now self.old states.old self.new states.new too_long) }
        ensures held { AreHeld table.now states.new }
    {
        if decide_slot(self, table, states, ZERO) {
            self.count(1, 0);
            return Ok(0);
        }
        let Ok(exponent) = get_exponent(self, table, states) else {
            self.count(31, 1);
            return Err(Fault::SymbolTooLong);
        };
        let number = get_mantissa(self, table, states, exponent);
        let ones = ones_below(number);
        self.count(exponent + ones, exponent + 2 - ones);
        Ok(number)
    }

    /// The signed number whose symbol comes next, by row `row` of many states, 32 a row. All else
    /// is as with `get_signed`.
    #[inline(always)]
    pub fn get_signed_in_row(
        &mut self,
        table: &StateTable,
        states: &mut [u8],
        row: usize,
    ) -> Result<i32, Fault>
        requires rows { row * 32 + 32 ≤ length states.old }
        requires held { AllHeld table.now states.old }
        ensures follows { IfOk result (λ v. Follows table.now self.old states.old self.new
            states.new (shifted (row * 32) (signed_steps v))) }
        ensures size { IfOk result (λ v. unsigned_abs v < 2 ^ 31) }
        ensures refused { IfErr result (λ f. (f ≡ Fault.SymbolTooLong) ×
            Follows table.now self.old states.old self.new states.new
            (shifted (row * 32) too_long)) }
        ensures held { AllHeld table.now states.new }
    {
        let base = row * 32;
        // By arms: what each outcome says of the row is lifted to all states in its own arm.
        match self.get_signed(table, &mut states[base..base + 32]) {
            Ok(number) => Ok(number),
            Err(refused) => Err(refused),
        }
    }

    /// Counts the decisions of a symbol.
    #[inline(always)]
    fn count(&mut self, ones: u32, zeros: u32)
        ensures counts { (steps : List Step) → ones ≡ ones_in steps → ones + zeros ≡ length steps →
            Counted self.old.counts steps self.new.counts }
        ensures rest { self.new ≡ record self.old { counts = self.new.counts } }
    {
        self.ones = self.ones.saturating_add(u64::from(ones));
        self.zeros = self.zeros.saturating_add(u64::from(zeros));
    }
}
