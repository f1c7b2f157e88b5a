//! What the decisions of a coder were.

ghost use Rattle.std.specs.Prelude.{◌≡◌, ◌+◌, ◌^◌, ◌<◌, ◌≤◌, unsigned_abs};
ghost use Rattle.ffv1_range.specs.Symbols.{signed_steps};
ghost use Rattle.ffv1_range.specs.Counts.{ones_in, zeros_in};
ghost use Rattle.ffv1_range.specs.Among.{AreNonzeros, sums_among, sums_refused};

use crate::symbol_slots::{exponent, ones_below};

/// How many decisions of a coder were 1 and how many 0, and how often it renormalised. Each count
/// stays at 2^64 - 1 once it is there.
#[derive(Clone, Copy, Debug, PartialEq, Eq)]
pub struct Tally {
    /// Decisions 1.
    pub ones: u64,
    /// Decisions 0.
    pub zeros: u64,
    /// Renormalisations.
    pub renormalisations: u64,
}

/// How many decisions of a run of symbols were 1 and how many 0, before a coder's own counts go on
/// by them. A symbol has at most 63 decisions, so some 68 million symbols have room.
#[derive(Clone, Copy, Debug, PartialEq, Eq)]
pub struct Sums {
    /// Decisions 1.
    pub ones: u32,
    /// Decisions 0.
    pub zeros: u32,
}

impl Sums {
    /// Counts some decisions.
    #[inline(always)]
    pub(crate) fn count(&mut self, ones: u32, zeros: u32)
        requires { self.old.ones + self.old.zeros + (ones + zeros) < 2 ^ 32 }
        ensures { self.new ≡
            record { ones = self.old.ones + ones; zeros = self.old.zeros + zeros } }
    {
        self.ones += ones;
        self.zeros += zeros;
    }

    /// Counts the decisions of a signed number.
    #[inline(always)]
    pub(crate) fn count_signed(&mut self, value: i32)
        requires size { unsigned_abs value < 2 ^ 31 }
        requires room { self.old.ones + self.old.zeros + 63 < 2 ^ 32 }
        ensures ones { self.new.ones ≡ self.old.ones + ones_in (signed_steps value) }
        ensures zeros { self.new.zeros ≡ self.old.zeros + zeros_in (signed_steps value) }
        ensures few { self.new.ones + self.new.zeros ≤ self.old.ones + self.old.zeros + 63 }
    {
        let number = value.unsigned_abs();
        if number == 0 {
            self.count(1, 0);
            return;
        }
        let exponent = exponent(number);
        let ones = exponent + ones_below(number) + u32::from(value < 0);
        self.count(ones, 2 * exponent + 3 - ones);
    }
}

/// Of a run of symbols those of nonzero numbers: how many they are, their exponents together, and
/// how many of the bits after their exponents, the sign among them, were 1. With the number of all
/// symbols this tells their decisions, so that a zero needs no count.
#[derive(Clone, Copy, Debug, PartialEq, Eq)]
pub struct Nonzeros {
    /// Symbols of nonzero numbers.
    pub symbols: u32,
    /// Their exponents together.
    pub exponents: u32,
    /// Their decisions 1 after the exponent.
    pub ones: u32,
}

impl Nonzeros {
    /// Counts a symbol of an exponent up to 30, of whose bits after it some are 1.
    #[inline(always)]
    pub(crate) fn count(&mut self, exponent: u32, ones: u32)
        requires are { AreNonzeros self.old }
        requires room { self.old.symbols < 2 ^ 20 }
        requires small { exponent < 31 }
        requires few { ones ≤ exponent + 1 }
        ensures value { self.new ≡ record {
          symbols = self.old.symbols + 1;
          exponents = self.old.exponents + exponent;
          ones = self.old.ones + ones;
        } }
        ensures are { AreNonzeros self.new }
    {
        self.symbols += 1;
        self.exponents += exponent;
        self.ones += ones;
    }

    /// The decisions of so many symbols, of which these are not zero.
    #[inline(always)]
    pub fn among(&self, symbols: u32) -> Sums
        requires are { AreNonzeros self.now }
        requires within { self.now.symbols ≤ symbols }
        requires room { symbols < 2 ^ 20 }
        ensures { result ≡ sums_among symbols self.now }
    {
        Sums {
            ones: symbols - self.symbols + self.exponents + self.ones,
            zeros: 3 * self.symbols + self.exponents - self.ones,
        }
    }

    /// The same with a symbol after them that is refused, of 31 decisions 1 and one 0.
    #[inline(always)]
    pub fn among_refused(&self, symbols: u32) -> Sums
        requires are { AreNonzeros self.now }
        requires within { self.now.symbols ≤ symbols }
        requires room { symbols < 2 ^ 20 }
        ensures { result ≡ sums_refused symbols self.now }
    {
        let Sums { ones, zeros } = self.among(symbols);
        Sums {
            ones: ones + 31,
            zeros: zeros + 1,
        }
    }
}
