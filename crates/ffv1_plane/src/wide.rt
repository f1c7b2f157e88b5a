//! Samples of up to 17 bits around a sample, and sample differences of them (RFC 9043, 3.3, 3.5 and
//! 3.8).

ghost use Rattle.std.specs.Prelude.{◌≡◌, ℕ, ◌+◌, ◌-◌, ◌*◌, ◌%◌, ◌^◌, ◌<◌, ◌≤◌, Bool};
ghost use Rattle.std.specs.Prelude.{pos, ◌+ℤ◌, ◌-ℤ◌, unsigned_abs};
ghost use Rattle.ffv1_plane.specs.declared.wide.WideAround.{WideAround};
ghost use Rattle.ffv1_plane.specs.Quantisation.{Set};
ghost use Rattle.ffv1_plane.specs.Context.{size_of, flip_of};
ghost use Rattle.ffv1_plane.specs.Prediction.{median, signed, predicted_in};
ghost use Rattle.ffv1_plane.specs.Residual.{sample_of, chosen_of};
ghost use Rattle.ffv1_plane.specs.Wide.{around_of};

use crate::prediction::Around;

/// The samples around a sample, as `Around` has them, as numbers of 32 bits.
#[derive(Clone, Copy, Debug, PartialEq, Eq)]
pub struct WideAround {
    /// To the left.
    pub l: u32,
    /// Above.
    pub t: u32,
    /// Above, to the left.
    pub tl: u32,
    /// Above, to the right.
    pub tr: u32,
    /// Two to the left (`L` of the standard).
    pub ll: u32,
    /// Two above (`T` of the standard).
    pub tt: u32,
}

/// The samples around a sample modulo 65536. They have the context of the samples, which goes by
/// the low eight bits of their differences (RFC 9043, 3.4 and 3.5).
#[inline(always)]
pub fn low_around(around: &WideAround) -> Around
    ensures size { (set : Set) → size_of set result ≡ size_of set (around_of around.now) }
    ensures flip { (set : Set) → flip_of set result ≡ flip_of set (around_of around.now) }
{
    Around {
        l: (around.l % 65536) as u16,
        t: (around.t % 65536) as u16,
        tl: (around.tl % 65536) as u16,
        tr: (around.tr % 65536) as u16,
        ll: (around.ll % 65536) as u16,
        tt: (around.tt % 65536) as u16,
    }
}

/// The median of `l`, `t` and `l + t - tl`.
#[inline(always)]
fn median_of(l: u32, t: u32, tl: u32) -> u32
    ensures { pos result ≡ median (pos l) (pos t) (pos (l + t) -ℤ pos tl) }
{
    let least = l.min(t);
    let most = l.max(t);
    most - (tl.max(least).min(most) - least)
}

/// A sample read as a signed number of 16 bits, and 65536.
#[inline(always)]
fn raised(sample: u32) -> u32
    ensures { pos result ≡ signed sample +ℤ pos 65536 }
{
    if sample < 32768 {
        return sample + 65536;
    }
    sample
}

/// The prediction of a sample among samples of `bits` bits, modulo 2^32.
#[inline(always)]
fn prediction_of(around: &WideAround, bits: u8) -> u32
    ensures { (k : ℕ) × (pos result ≡ predicted_in bits (around_of around.now) +ℤ
        pos (k * 4294967296)) }
{
    if bits == 16 {
        return median_of(raised(around.l), raised(around.t), raised(around.tl)).wrapping_sub(65536);
    }
    median_of(around.l, around.t, around.tl)
}

/// The lowest `bits` bits of a number.
#[inline(always)]
fn lowest_of(number: u32, bits: u8) -> u32
    requires { bits ≤ 17 }
    ensures value { result ≡ number % 2 ^ bits }
    ensures small { result < 2 ^ bits }
{
    number & ((1u32 << bits) - 1)
}

/// A difference modulo 2^32 folded to `bits` bits (RFC 9043, 3.8).
#[inline(always)]
fn fold_of(difference: u32, bits: u8) -> i32
    requires some { 0 < bits }
    requires few { bits ≤ 17 }
    ensures value { result ≡ pos ((difference + 2 ^ (bits - 1)) % 2 ^ bits) -ℤ
        pos (2 ^ (bits - 1)) }
    ensures size { unsigned_abs result < 2 ^ 31 }
{
    let half = 1u32 << (bits - 1);
    lowest_of(difference.wrapping_add(half), bits).cast_signed() - half.cast_signed()
}

/// The residual that an encoder takes for a sample of `bits` bits beside these neighbours: the
/// difference to the prediction (RFC 9043, 3.3), its sign flipped if `flip` holds (3.5), then
/// folded (3.8), for all neighbours and every `sample`. `bits` lies from 1 to 17; at 16 the
/// prediction is that of `predict_signed`.
#[inline(always)]
pub fn wide_residual(around: &WideAround, flip: bool, sample: u32, bits: u8) -> i32
    requires some { 0 < bits }
    requires few { bits ≤ 17 }
    ensures value { result ≡ chosen_of bits (predicted_in bits (around_of around.now)) flip sample }
    ensures size { unsigned_abs result < 2 ^ 31 }
{
    let prediction = prediction_of(around, bits);
    if flip {
        return fold_of(prediction.wrapping_sub(sample), bits);
    }
    fold_of(sample.wrapping_sub(prediction), bits)
}

/// The sample of `bits` bits that a residual makes beside these neighbours, if `flip`
/// tells whether the residual's sign was flipped (RFC 9043, 3.3, 3.5 and 3.8), for all neighbours
/// and every `residual`. `bits` lies from 0 to 17; at 16 the prediction is that of
/// `predict_signed`. The result is below `2^bits`.
#[inline(always)]
pub fn wide_sample(around: &WideAround, flip: bool, residual: i32, bits: u8) -> u32
    requires { bits ≤ 17 }
    ensures value { pos result ≡ sample_of bits (predicted_in bits (around_of around.now)) flip
        residual }
    ensures small { result < 2 ^ bits }
{
    let prediction = prediction_of(around, bits);
    let residual = residual.cast_unsigned();
    if flip {
        return lowest_of(prediction.wrapping_sub(residual), bits);
    }
    lowest_of(prediction.wrapping_add(residual), bits)
}
