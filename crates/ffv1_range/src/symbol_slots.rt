//! The slots of a symbol's decisions, and the exponent of its number (RFC 9043, 3.8.1.2).

ghost use Rattle.std.specs.Prelude.{◌≡◌, ◌+◌, ◌^◌, ◌≤◌, ◌<◌, min};
ghost use Rattle.ffv1_range.specs.Symbols.{exponent, mantissa_steps};
ghost use Rattle.ffv1_range.specs.Counts.{ones_in};

/// The slot of the decision whether a number is zero.
pub(crate) const ZERO: usize = 0;

/// The first of the 10 slots of an exponent.
pub(crate) const EXPONENT: usize = 1;

/// The first of the 11 slots of a sign.
pub(crate) const SIGN: usize = 11;

/// The first of the 10 slots of a mantissa.
pub(crate) const MANTISSA: usize = 22;

/// The slot of the sign.
#[inline(always)]
pub(crate) fn sign_slot(exponent: u32) -> usize
    ensures { result ≡ 11 + min exponent 10 }
{
    if exponent < 10 {
        return SIGN + exponent as usize;
    }
    SIGN + 10
}

/// The place of the highest bit of a number.
#[inline(always)]
pub(crate) fn exponent(number: u32) -> u32
    requires { 0 < number }
    ensures value { result ≡ exponent number }
    ensures most { result ≤ 31 }
{
    31 - number.leading_zeros()
}

/// How many bits of a number are 1, but for its highest.
#[inline(always)]
pub(crate) fn ones_below(number: u32) -> u32
    requires positive { 0 < number }
    requires small { number < 2 ^ 31 }
    ensures ones { result ≡ ones_in (mantissa_steps (exponent number) 0 number) }
    ensures few { result ≤ exponent number }
    ensures most { result < 31 }
{
    number.count_ones() - 1
}
