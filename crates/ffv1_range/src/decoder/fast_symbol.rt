//! Reads symbols of a row: the most frequent ones, zeros and those of the exponents 0 and 1, by
//! straight code. Counts only nonzero numbers (RFC 9043, 3.8.1.2).

ghost use Rattle.std.specs.Prelude.{◌≡◌, ◌↔◌, ℕ, ◌+◌, ◌*◌, ◌^◌, ◌≤◌, ◌<◌, ◌++◌, List, length};
ghost use Rattle.std.specs.Prelude.{slice_index, slice_set, pos, IsTrue, IsFalse, IfSome};
ghost use Rattle.std.specs.Prelude.{IfOk, IfErr, OnErr};
ghost use Rattle.ffv1_range.specs.Interval.{share};
ghost use Rattle.ffv1_range.specs.Table.{Holds};
ghost use Rattle.ffv1_range.specs.Symbols.{AreHeld, AllHeld, shifted, exponent_steps};
ghost use Rattle.ffv1_range.specs.Symbols.{mantissa_steps, raising, signed_steps, too_long};
ghost use Rattle.ffv1_range.specs.Counts.{ones_in};
ghost use Rattle.ffv1_range.specs.Follows.{Follows};
ghost use Rattle.ffv1_range.specs.Reading.{Reading, summed};
ghost use Rattle.ffv1_range.specs.Signed.{number_of};
ghost use Rattle.ffv1_range.specs.Among.{AreNonzeros, sums_among, sums_refused};
ghost use Rattle.ffv1_range.specs.Internal.Registers.{Reads, ReadsOn};

use crate::decoder::RangeDecoder;
use crate::decoder::symbol::{TooLong, choose_slot, decide_slot, get_mantissa};
use crate::fault::Fault;
use crate::symbol_slots::{EXPONENT, MANTISSA, ZERO, ones_below, sign_slot};
use crate::table::StateTable;
use crate::tally::Nonzeros;

/// A number that is not 0, by its size and its sign, which is decoded last: what needs the size
/// alone need not wait for it.
#[derive(Clone, Copy, Debug, PartialEq, Eq)]
pub struct SignedNumber {
    /// From 1 to 2^31 - 1.
    pub size: u32,
    /// Whether it lies below 0.
    pub negative: bool,
}

/// A number above 0: its exponent, itself, and how many bits below its highest are 1.
#[derive(Clone, Copy)]
struct Magnitude {
    exponent: u32,
    number: u32,
    ones: u32,
}

/// An exponent of 2 and more, after its first two decisions, which are 1.
#[inline(always)]
fn get_long_exponent(
    decoder: &mut RangeDecoder<'_>,
    table: &StateTable,
    states: &mut [u8],
) -> Result<u32, TooLong>
    requires { AreHeld table.now states.old }
    ensures reads { IfOk result (λ e. ReadsOn table.now decoder.old states.old decoder.new
        states.new (raising 2) (exponent_steps e)) }
    ensures small { IfOk result (λ e. e < 31) }
    ensures refused { OnErr result (ReadsOn table.now decoder.old states.old decoder.new states.new
        (raising 2) (raising 31)) }
    ensures held { AreHeld table.now states.new }
{
    'near: for exponent in 2..10u32 {
        if !decide_slot(decoder, table, states, EXPONENT + exponent as usize) {
            return Ok(exponent);
        }
    }
    'far: for exponent in 10..31u32 {
        if !decide_slot(decoder, table, states, EXPONENT + 9) {
            return Ok(exponent);
        }
    }
    Err(TooLong)
}

/// A number of an exponent of 2 and more, after the exponent's first two decisions.
#[inline(always)]
fn get_long(
    decoder: &mut RangeDecoder<'_>,
    table: &StateTable,
    states: &mut [u8],
) -> Result<Magnitude, TooLong>
    requires { AreHeld table.now states.old }
    ensures reads { IfOk result (λ m. ReadsOn table.now decoder.old states.old decoder.new
        states.new (raising 2) (exponent_steps m.exponent
        ++ mantissa_steps m.exponent 0 m.number)) }
    ensures small { IfOk result (λ m. m.exponent < 31) }
    ensures least { IfOk result (λ m. 2 ^ m.exponent ≤ m.number) }
    ensures most { IfOk result (λ m. m.number < 2 * 2 ^ m.exponent) }
    ensures fits { IfOk result (λ m. m.number < 2 ^ 31) }
    ensures ones { IfOk result (λ m. m.ones ≡ ones_in (mantissa_steps m.exponent 0 m.number)) }
    ensures few { IfOk result (λ m. m.ones ≤ m.exponent) }
    ensures refused { OnErr result (ReadsOn table.now decoder.old states.old decoder.new states.new
        (raising 2) (raising 31)) }
    ensures held { AreHeld table.now states.new }
{
    match get_long_exponent(decoder, table, states) {
        Ok(exponent) => {
            let number = get_mantissa(decoder, table, states, exponent);
            let ones = ones_below(number);
            Ok(Magnitude {
                exponent,
                number,
                ones,
            })
        }
        Err(refused) => Err(refused),
    }
}

/// A number that is not zero, without its sign.
#[inline(always)]
fn get_magnitude(
    decoder: &mut RangeDecoder<'_>,
    table: &StateTable,
    states: &mut [u8],
) -> Result<Magnitude, TooLong>
    requires { AreHeld table.now states.old }
    ensures reads { IfOk result (λ m. Reads table.now decoder.old states.old decoder.new states.new
        (exponent_steps m.exponent ++ mantissa_steps m.exponent 0 m.number)) }
    ensures small { IfOk result (λ m. m.exponent < 31) }
    ensures least { IfOk result (λ m. 2 ^ m.exponent ≤ m.number) }
    ensures most { IfOk result (λ m. m.number < 2 * 2 ^ m.exponent) }
    ensures fits { IfOk result (λ m. m.number < 2 ^ 31) }
    ensures ones { IfOk result (λ m. m.ones ≡ ones_in (mantissa_steps m.exponent 0 m.number)) }
    ensures few { IfOk result (λ m. m.ones ≤ m.exponent) }
    ensures refused { OnErr result (Reads table.now decoder.old states.old decoder.new states.new
        (raising 31)) }
    ensures held { AreHeld table.now states.new }
{
    if !decide_slot(decoder, table, states, EXPONENT) {
        return Ok(Magnitude {
            exponent: 0,
            number: 1,
            ones: 0,
        });
    }
    if !decide_slot(decoder, table, states, EXPONENT + 1) {
        let ones = choose_slot(decoder, table, states, MANTISSA) as u32;
        return Ok(Magnitude {
            exponent: 1,
            number: 2 + ones,
            ones,
        });
    }
    match get_long(decoder, table, states) {
        Ok(magnitude) => Ok(magnitude),
        Err(refused) => Err(refused),
    }
}

impl RangeDecoder<'_> {
    /// Whether the number that comes next is 0, by the state of its first decision (RFC 9043,
    /// 3.8.1.2): then its symbol is read, and as with `tally_signed_in_row` counted nowhere. Any
    /// other number is not read, and leaves all as it was. A run of zeros is so read by one state
    /// that is kept apart from the others.
    #[inline(always)]
    pub fn take_zero(&mut self, table: &StateTable, state: &mut u8) -> bool
        requires { Holds table.now state.old }
        ensures taken { IsTrue result ↔ (self.old.gap ≤ share self.old.width state.old) }
        ensures follows { IsTrue result → (states : List ℕ) (slot n : ℕ) (nonzeros : Nonzeros) →
            slice_index states slot ≡ state.old → nonzeros.symbols ≤ n →
            Follows table.now (summed self.old (sums_among n nonzeros)) states
            (summed self.new (sums_among (n + 1) nonzeros)) (slice_set states slot state.new)
            (shifted slot (signed_steps (pos 0))) }
        ensures stays { IsFalse result → self.new ≡ self.old }
        ensures left { IsFalse result → state.new ≡ state.old }
        ensures held { Holds table.now state.new }
    {
        self.take_one(table, state)
    }

    /// The signed number whose symbol comes next, or none for 0, counted in `nonzeros` alone.
    #[inline(always)]
    fn tally_signed(
        &mut self,
        nonzeros: &mut Nonzeros,
        table: &StateTable,
        states: &mut [u8],
    ) -> Result<Option<SignedNumber>, Fault>
        requires held { AreHeld table.now states.old }
        requires are { AreNonzeros nonzeros.old }
        requires room { nonzeros.old.symbols < 2 ^ 20 }
        ensures follows { IfOk result (λ v. (n : ℕ) → nonzeros.old.symbols ≤ n →
            Follows table.now (summed self.old (sums_among n nonzeros.old)) states.old
            (summed self.new (sums_among (n + 1) nonzeros.new)) states.new
            (signed_steps (number_of v))) }
        ensures some { IfOk result (λ v. IfSome v (λ s. 0 < s.size)) }
        ensures size { IfOk result (λ v. IfSome v (λ s. s.size < 2 ^ 31)) }
        ensures refused { IfErr result (λ f. (n : ℕ) → nonzeros.old.symbols ≤ n →
            Follows table.now (summed self.old (sums_among n nonzeros.old)) states.old
            (summed self.new (sums_refused n nonzeros.new)) states.new too_long) }
        ensures fault { IfErr result (λ f. f ≡ Fault.SymbolTooLong) }
        ensures are { AreNonzeros nonzeros.new }
        ensures more { nonzeros.new.symbols ≤ nonzeros.old.symbols + 1 }
        ensures stays { IfErr result (λ f. nonzeros.new ≡ nonzeros.old) }
        ensures held { AreHeld table.now states.new }
    {
        if decide_slot(self, table, states, ZERO) {
            return Ok(None);
        }
        let Ok(magnitude) = get_magnitude(self, table, states) else {
            return Err(Fault::SymbolTooLong);
        };
        let Magnitude {
            exponent,
            number,
            ones,
        } = magnitude;
        let negative = choose_slot(self, table, states, sign_slot(exponent));
        nonzeros.count(exponent, ones + negative as u32);
        Ok(Some(SignedNumber {
            size: number,
            negative,
        }))
    }

    /// As `get_signed_in_row`, but that a number is given by its size and its sign, and 0 as none,
    /// and that nothing is counted but `nonzeros`: their symbol, if the number is not zero.
    /// After `n` such symbols the decoder's counts are to go on by `nonzeros.among(n)`, and if
    /// the one after them was refused by `nonzeros.among_refused(n)`. Fewer than 2^20 nonzero
    /// numbers have room.
    #[inline(always)]
    pub fn tally_signed_in_row(
        &mut self,
        nonzeros: &mut Nonzeros,
        table: &StateTable,
        states: &mut [u8],
        row: usize,
    ) -> Result<Option<SignedNumber>, Fault>
        requires rows { row * 32 + 32 ≤ length states.old }
        requires held { AllHeld table.now states.old }
        requires are { AreNonzeros nonzeros.old }
        requires room { nonzeros.old.symbols < 2 ^ 20 }
        ensures follows { IfOk result (λ v. (n : ℕ) → nonzeros.old.symbols ≤ n →
            Follows table.now (summed self.old (sums_among n nonzeros.old)) states.old
            (summed self.new (sums_among (n + 1) nonzeros.new)) states.new
            (shifted (row * 32) (signed_steps (number_of v)))) }
        ensures some { IfOk result (λ v. IfSome v (λ s. 0 < s.size)) }
        ensures size { IfOk result (λ v. IfSome v (λ s. s.size < 2 ^ 31)) }
        ensures refused { IfErr result (λ f. (n : ℕ) → nonzeros.old.symbols ≤ n →
            Follows table.now (summed self.old (sums_among n nonzeros.old)) states.old
            (summed self.new (sums_refused n nonzeros.new)) states.new
            (shifted (row * 32) too_long)) }
        ensures fault { IfErr result (λ f. f ≡ Fault.SymbolTooLong) }
        ensures are { AreNonzeros nonzeros.new }
        ensures more { nonzeros.new.symbols ≤ nonzeros.old.symbols + 1 }
        ensures stays { IfErr result (λ f. nonzeros.new ≡ nonzeros.old) }
        ensures held { AllHeld table.now states.new }
    {
        let base = row * 32;
        // By arms: what each outcome says of the row is lifted to all states in its own arm.
        match self.tally_signed(nonzeros, table, &mut states[base..base + 32]) {
            Ok(number) => Ok(number),
            Err(refused) => Err(refused),
        }
    }
}
