//! Reads decisions.

ghost use Rattle.std.specs.Prelude.{◌≡◌, ℕ, ◌+◌, ◌-◌, ◌*◌, ◌^◌, ◌≤◌, ◌<◌, ◌↔◌, IfOk, IfErr, IsErr};
ghost use Rattle.std.specs.Prelude.{slice_index, slice_set, List, [], ◌∷◌, IsTrue, IsFalse, true};
ghost use Rattle.ffv1_range.specs.Interval.{Interval, narrow, renormalised, share, start};
ghost use Rattle.ffv1_range.specs.Codes.{value};
ghost use Rattle.ffv1_range.specs.Table.{moved, Holds};
ghost use Rattle.ffv1_range.specs.Reading.{At, of_nothing, paused, summed};
ghost use Rattle.ffv1_range.specs.Among.{AreNonzeros, sums_among};
ghost use Rattle.ffv1_range.specs.Follows.{Follows};
ghost use Rattle.ffv1_range.specs.Counts.{uncounted, counted, saturated, total};

pub mod fast_symbol;
pub mod parked;
pub mod symbol;

use crate::decoder::parked::Parked;
use crate::encoder::FIRST_WIDTH;
use crate::fault::Fault;
use crate::table::StateTable;
use crate::tally::{Nonzeros, Sums, Tally};
use std::marker::Model;
use std::mem::replace;

/// A decoder of the decisions that some bytes code (RFC 9043, 3.8.1.1). Bytes after the end are
/// read as 0. It takes no memory.
///
/// It is seen as a `Reading`: its bytes, the width of its interval, how far the interval's upper
/// end lies above the number of the bytes, how often it renormalised, and its counts. `At` says
/// which interval that is.
///
/// No decoder is copied: `take` hands over what a reference leads to, and `park` lets bytes go.
#[derive(Drop)]
pub struct RangeDecoder<'a> {
    pub(crate) bytes: &'a [u8],
    pub(crate) width: u32,
    pub(crate) gap: u32,
    pub(crate) renormalisations: u64,
    pub(crate) ones: u64,
    pub(crate) zeros: u64,
}

impl<'a> Model for RangeDecoder<'a> {
    ghost use Rattle.ffv1_range.specs.Reading.{Reading};
    ghost use Rattle.ffv1_range.specs.Internal.Registers.{IsReading};

    ghost Value = { Reading };

    ghost view = { λ r. record {
      bytes = r.bytes.now;
      width = r.width;
      gap = r.gap;
      renormalisations = r.renormalisations;
      counts = record { ones = r.ones; zeros = r.zeros };
    } };

    ghost invariant = { λ r. IsReading r.width r.gap };
}

impl<'a> RangeDecoder<'a> {
    /// Begins at the bytes. Answers `BadStart` exactly if their first two, big end first and
    /// with zeros after the end, are 65280 or more: such bytes code no decisions, not even none.
    pub fn new(bytes: &'a [u8]) -> Result<RangeDecoder<'a>, Fault>
        ensures refused { IsErr result ↔ (65280 ≤ value bytes.now 2) }
        ensures fault { IfErr result (λ f. f ≡ Fault.BadStart) }
        ensures bytes { IfOk result (λ r. r.bytes ≡ bytes.now) }
        ensures at { IfOk result (λ r. At r start) }
        ensures counts { IfOk result (λ r. r.counts ≡ uncounted) }
    {
        let first = if bytes.is_empty() { 0 } else { bytes[0] };
        let second = if bytes.len() < 2 { 0 } else { bytes[1] };
        let number = u32::from(first) * 256 + u32::from(second);
        if number >= FIRST_WIDTH {
            return Err(Fault::BadStart);
        }
        Ok(RangeDecoder {
            bytes,
            width: FIRST_WIDTH,
            gap: FIRST_WIDTH - number,
            renormalisations: 0,
            ones: 0,
            zeros: 0,
        })
    }

    /// How many decisions were read, at most 2^64 - 1.
    pub fn taken(&self) -> u64
        ensures { result ≡ total self.now.counts }
    {
        self.ones.saturating_add(self.zeros)
    }

    /// How many ones, zeros and renormalisations there were, each at most 2^64 - 1.
    pub fn tally(&self) -> Tally
        ensures ones { result.ones ≡ self.now.counts.ones }
        ensures zeros { result.zeros ≡ self.now.counts.zeros }
        ensures renormalisations { result.renormalisations ≡ self.now.renormalisations }
    {
        Tally {
            ones: self.ones,
            zeros: self.zeros,
            renormalisations: self.renormalisations,
        }
    }

    /// Lets the bytes go. It takes no memory, and is a copy of five numbers.
    #[inline(always)]
    pub fn park(self) -> Parked
        ensures { result ≡ paused self.entry }
    {
        Parked {
            width: self.width,
            gap: self.gap,
            renormalisations: self.renormalisations,
            ones: self.ones,
            zeros: self.zeros,
        }
    }

    /// The decoder as it stands. In its place stands one of no bytes.
    #[inline(always)]
    pub fn take(&mut self) -> RangeDecoder<'a>
        ensures value { result ≡ self.old }
        ensures left { self.new ≡ of_nothing }
    {
        let nothing = RangeDecoder {
            bytes: &[],
            width: FIRST_WIDTH,
            gap: FIRST_WIDTH,
            renormalisations: 0,
            ones: 0,
            zeros: 0,
        };
        replace(self, nothing)
    }

    /// Sums of nothing, by which its counts stay as they are.
    #[inline(always)]
    pub fn sums(&self) -> Sums
        ensures none { result ≡ record { ones = 0; zeros = 0 } }
        ensures stays { summed self.now result ≡ self.now }
    {
        let (_ones, _zeros) = (self.ones, self.zeros);
        Sums { ones: 0, zeros: 0 }
    }

    /// No nonzero numbers, by which its counts stay as they are.
    #[inline(always)]
    pub fn nonzeros(&self) -> Nonzeros
        ensures none { result ≡ record { symbols = 0; exponents = 0; ones = 0 } }
        ensures are { AreNonzeros result }
        ensures stays { summed self.now (sums_among 0 result) ≡ self.now }
    {
        let (_ones, _zeros) = (self.ones, self.zeros);
        Nonzeros {
            symbols: 0,
            exponents: 0,
            ones: 0,
        }
    }

    /// Its counts go on by sums.
    #[inline(always)]
    pub fn count_all(&mut self, sums: &Sums)
        ensures { self.new ≡ summed self.old sums.now }
    {
        self.ones = self.ones.saturating_add(u64::from(sums.ones));
        self.zeros = self.zeros.saturating_add(u64::from(sums.zeros));
    }

    /// The next decision, by a state that the table holds. The state moves by the decision.
    #[inline(always)]
    pub fn get(&mut self, table: &StateTable, state: &mut u8) -> bool
        requires { Holds table.now state.old }
        ensures bytes { self.new.bytes ≡ self.old.bytes }
        ensures at { (i : Interval) → At self.old i → At self.new (narrow i state.old result) }
        ensures follows { (states : List ℕ) (slot : ℕ) → slice_index states slot ≡ state.old →
            Follows table.now self.old states self.new (slice_set states slot state.new)
            (record { slot = slot; bit = result } ∷ []) }
        ensures counts { self.new.counts ≡ counted self.old.counts result }
        ensures moves { state.new ≡ moved table.now state.old result }
        ensures held { Holds table.now state.new }
    {
        if self.decide(table, state) {
            self.ones = self.ones.saturating_add(1);
            return true;
        }
        self.zeros = self.zeros.saturating_add(1);
        false
    }

    /// The next decision, uncounted, by two arms: for a decision that steers what comes next.
    #[inline(always)]
    pub(crate) fn decide(&mut self, table: &StateTable, state: &mut u8) -> bool
        requires { Holds table.now state.old }
        ensures bytes { self.new.bytes ≡ self.old.bytes }
        ensures at { (i : Interval) → At self.old i → At self.new (narrow i state.old result) }
        ensures counts { self.new.counts ≡ self.old.counts }
        ensures moves { state.new ≡ moved table.now state.old result }
        ensures held { Holds table.now state.new }
    {
        let (width, gap) = (self.width, self.gap);
        let before = *state;
        let part = width * u32::from(before) / 256;
        if gap <= part {
            *state = table.after_one(before);
            self.go_on(part, gap);
            return true;
        }
        *state = table.after_zero(before);
        self.go_on(width - part, gap - part);
        false
    }

    /// The next decision, uncounted, by one choice of numbers: for a decision that is data, which
    /// no branch predicts well.
    #[inline(always)]
    pub(crate) fn choose(&mut self, table: &StateTable, state: &mut u8) -> bool
        requires { Holds table.now state.old }
        ensures bytes { self.new.bytes ≡ self.old.bytes }
        ensures at { (i : Interval) → At self.old i → At self.new (narrow i state.old result) }
        ensures counts { self.new.counts ≡ self.old.counts }
        ensures moves { state.new ≡ moved table.now state.old result }
        ensures held { Holds table.now state.new }
    {
        let before = *state;
        let either = table.after_either(before);
        let part = self.width * u32::from(before) / 256;
        // Asked strictly, one flag of the comparison decides each choice.
        let zero = part < self.gap;
        let (after, width, gap) = if zero {
            ((either / 256) as u8, self.width - part, self.gap - part)
        } else {
            ((either % 256) as u8, part, self.gap)
        };
        *state = after;
        self.go_on(width, gap);
        !zero
    }

    /// Whether the decision that comes next is 1: then it is read, uncounted. A decision 0 is not
    /// read, and leaves all as it was.
    #[inline(always)]
    pub(crate) fn take_one(&mut self, table: &StateTable, state: &mut u8) -> bool
        requires { Holds table.now state.old }
        ensures taken { IsTrue result ↔ (self.old.gap ≤ share self.old.width state.old) }
        ensures bytes { self.new.bytes ≡ self.old.bytes }
        ensures at { IsTrue result → (i : Interval) → At self.old i →
            At self.new (narrow i state.old true) }
        ensures counts { self.new.counts ≡ self.old.counts }
        ensures moves { IsTrue result → state.new ≡ moved table.now state.old true }
        ensures stays { IsFalse result → self.new ≡ self.old }
        ensures left { IsFalse result → state.new ≡ state.old }
        ensures held { Holds table.now state.new }
    {
        let (width, gap) = (self.width, self.gap);
        let before = *state;
        let part = width * u32::from(before) / 256;
        if gap > part {
            return false;
        }
        *state = table.after_one(before);
        self.go_on(part, gap);
        true
    }

    /// Goes on with a part of the interval; takes a byte if it is narrower than 256.
    #[inline(always)]
    fn go_on(&mut self, width: u32, gap: u32)
        requires most { width ≤ 65280 }
        requires some { 0 < gap }
        requires within { gap ≤ width }
        ensures bytes { self.new.bytes ≡ self.old.bytes }
        ensures at { (i : Interval) → At (record self.old { width = width; gap = gap }) i →
            At self.new (renormalised i) }
        ensures counts { self.new.counts ≡ self.old.counts }
    {
        if width >= 256 {
            self.width = width;
            self.gap = gap;
            return;
        }
        let next = self.next_byte();
        self.width = width * 256;
        self.gap = gap * 256 - next;
    }

    /// The byte that comes next, or 0 after the end.
    #[inline(always)]
    fn next_byte(&mut self) -> u32
        ensures byte { result ≡ slice_index self.old.bytes (self.old.renormalisations + 2) }
        ensures below { result < 256 }
        ensures moves { self.new ≡
            record self.old { renormalisations = saturated (self.old.renormalisations + 1) } }
    {
        let at = self.renormalisations as usize;
        if at < self.bytes.len().saturating_sub(2) {
            self.renormalisations += 1;
            return u32::from(self.bytes[at + 2]);
        }
        self.renormalisations = self.renormalisations.saturating_add(1);
        0
    }
}
