//! How long a file lasts, in milliseconds: to the nearest one, and from a half on to the next one.

ghost use Rattle.std.specs.Prelude.{◌≡◌, ◌++◌, ◌<◌, ◌≤◌, ◌*◌, ◌^◌, OnOk, Option};
ghost use Rattle.ffv1_outline.specs.Durations.{duration_of, fitting, float_lasts};
ghost use Rattle.ffv1_outline.specs.Durations.{frames_last, lasts_by, rounded, scaled, seconds};
ghost use Rattle.ffv1_outline.specs.Durations.{three_digits, unit};

use crate::facts::{Form, unknown_value};
use ffv1_ebml::{number, number_of};
use ffv1_video::number_lines::push_number;
use std::alloc::{AllocError, Allocator};

/// A binary format of IEEE 754: how many fractions there are, how many exponents, and how much less
/// an exponent means than it says if the fraction is a whole number.
#[derive(Clone, Copy)]
pub(crate) struct Binary {
    pub(crate) fractions: u64,
    pub(crate) exponents: u64,
    pub(crate) bias: u32,
}

/// A number that has room in 64 bits, or None.
fn fitting(number: u128) -> Option<u64>
    ensures { result ≡ fitting number }
{
    if number < 1 << 64 {
        Some(number as u64)
    } else {
        None
    }
}

/// A quotient to the nearest number, and from a half on to the next one.
#[tactic(auto, unfolding(crate::specs::Durations::rounded))]
fn rounded(number: u128, divisor: u128) -> u128
    requires some { 0 < divisor }
    requires number { number < 2 ^ 126 }
    requires divisor { divisor < 2 ^ 126 }
    ensures { result ≡ rounded number divisor }
{
    (2 * number + divisor) / (2 * divisor)
}

/// How many milliseconds so many frames last, of which `rate` last `scale` seconds: to the nearest
/// one, and from a half on to the next one. None if the rate is 0, or if that has no room in 64
/// bits.
pub fn frames_last(frames: u64, scale: u32, rate: u32) -> Option<u64>
    ensures { result ≡ frames_last frames scale rate }
{
    if rate == 0 {
        return None;
    }
    let length = 1000 * (u128::from(frames) * u128::from(scale));
    fitting(rounded(length, u128::from(rate)))
}

/// So many nanoseconds times a power of two.
fn raised(nanoseconds: u128, power: u32) -> Option<u64>
    requires { nanoseconds < 2 ^ 117 }
    ensures { result ≡ fitting (rounded (nanoseconds * 2 ^ power) 1000000) }
{
    if nanoseconds == 0 {
        return Some(0);
    }
    if power > 84 {
        return None;
    }
    if nanoseconds >> (84 - power) != 0 {
        return None;
    }
    fitting(rounded(nanoseconds << power, 1000000))
}

/// So many nanoseconds divided by a power of two.
fn lowered(nanoseconds: u128, power: u32) -> Option<u64>
    requires { nanoseconds < 2 ^ 117 }
    ensures { result ≡ fitting (rounded nanoseconds (1000000 * 2 ^ power)) }
{
    if power > 100 {
        return Some(0);
    }
    fitting(rounded(nanoseconds, 1000000 << power))
}

/// How long `significand` * 2 ^ `power` / 2 ^ `bias` times `scale` nanoseconds are.
#[tactic(auto, unfolding(crate::specs::Durations::scaled))]
fn scaled(significand: u64, power: u32, bias: u32, scale: u64) -> Option<u64>
    requires { significand < 2 ^ 53 }
    ensures { result ≡ scaled significand power bias scale }
{
    let nanoseconds = u128::from(significand) * u128::from(scale);
    if bias <= power {
        raised(nanoseconds, power - bias)
    } else {
        lowered(nanoseconds, bias - power)
    }
}

/// How long a number of a binary format times `scale` nanoseconds is. None if its sign bit is set,
/// or if it is an infinity or no number.
#[tactic(auto, unfolding(crate::specs::Durations::lasts_by))]
fn lasts_by(format: Binary, scale: u64, bits: u64) -> Option<u64>
    requires some { 0 < format.fractions }
    requires fractions { format.fractions ≤ 2 ^ 52 }
    requires exponents { 0 < format.exponents }
    requires few { format.exponents ≤ 2 ^ 11 }
    ensures { result ≡ lasts_by format scale bits }
{
    let exponent = bits / format.fractions % format.exponents;
    let fraction = bits % format.fractions;
    if bits >= format.fractions * format.exponents || exponent + 1 == format.exponents {
        return None;
    }
    if exponent == 0 {
        scaled(fraction, 1, format.bias, scale)
    } else {
        scaled(
            format.fractions + fraction,
            exponent as u32,
            format.bias,
            scale,
        )
    }
}

/// How long a float of 4 or 8 bytes (RFC 8794, 7.3) times `scale` nanoseconds is.
fn float_lasts(scale: u64, content: &[u8]) -> Option<u64>
    ensures { result ≡ float_lasts scale content.now }
{
    if content.len() == 4 {
        let format = Binary {
            fractions: 1 << 23,
            exponents: 1 << 8,
            bias: 150,
        };
        lasts_by(format, scale, number_of(content))
    } else if content.len() == 8 {
        let format = Binary {
            fractions: 1 << 52,
            exponents: 1 << 11,
            bias: 1075,
        };
        lasts_by(format, scale, number_of(content))
    } else {
        None
    }
}

/// How long a Segment lasts, by the content of its TimestampScale and its Duration. None if these
/// say none.
#[tactic(auto, unfolding(crate::specs::Durations::duration_of))]
pub(crate) fn duration_of(scale: &[u8], duration: &[u8]) -> Option<u64>
    ensures { result ≡ duration_of scale.now duration.now }
{
    match number(scale, 1000000) {
        Ok(scale) => float_lasts(scale, duration),
        Err(_) => None,
    }
}

/// The three digits of a number below 1000.
fn three_digits(number: u64) -> [u8; 3]
    requires { number < 1000 }
    ensures { result ≡ three_digits number }
{
    [
        b'0' + (number / 100) as u8,
        b'0' + (number / 10 % 10) as u8,
        b'0' + (number % 10) as u8,
    ]
}

/// What comes after seconds.
fn unit(form: Form) -> &'static [u8]
    ensures { result.now ≡ unit form }
{
    match form {
        Form::Text => b" s",
        Form::Json => b"",
    }
}

/// Appends so many milliseconds as the value of a fact: seconds with three decimals, and in a line
/// a blank and `s` after them. None is unknown.
///
/// An error is memory that was refused; what the text then holds is not said.
#[tactic(auto, unfolding(crate::specs::Durations::seconds))]
pub fn push_seconds<A: Allocator>(
    text: &mut Vec<u8, A>,
    form: Form,
    milliseconds: Option<u64>,
) -> Result<(), AllocError>
    ensures { OnOk result (text.new.items ≡ text.old.items ++ seconds form milliseconds) }
{
    let Some(milliseconds) = milliseconds else {
        text.extend_from_slice(unknown_value(form))?;
        return Ok(());
    };
    push_number(text, b"", milliseconds / 1000)?;
    text.extend_from_slice(b".")?;
    text.extend_from_slice(&three_digits(milliseconds % 1000))?;
    text.extend_from_slice(unit(form))?;
    Ok(())
}
