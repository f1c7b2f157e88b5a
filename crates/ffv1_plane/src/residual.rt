//! Sample differences, folded to the depth of their samples (RFC 9043, 3.8).

ghost use Rattle.std.specs.Prelude.{◌≡◌, ℕ, ◌+◌, ◌-◌, ◌*◌, ◌^◌, ◌<◌, ◌≤◌, ◌⊎◌, ◌+ℤ◌, pos};
ghost use Rattle.std.specs.Prelude.{unsigned_abs};
ghost use Rattle.std.specs.Int.{int_rem_euclid, int_wrap, w32};
ghost use Rattle.ffv1_plane.specs.Residual.{IsFolded, turned, sample_of, folded, chosen_of};

/// The lowest `bits` bits of a number.
#[inline(always)]
fn lowest(number: i32, bits: u8) -> u16
    requires { (bits ≡ 8) ⊎ (bits ≡ 9) }
    ensures value { pos result ≡ int_rem_euclid number (pos (2 ^ bits)) }
    ensures small { result < 2 ^ bits }
{
    if bits == 8 {
        return number.rem_euclid(256) as u16;
    }
    number.rem_euclid(512) as u16
}

/// The difference folded to `bits` bits: `((d + 2^(bits-1)) mod 2^bits) - 2^(bits-1)` (RFC 9043,
/// 3.8), for every `d`. `bits` is 8 or 9. The result lies from `-2^(bits-1)` to `2^(bits-1) - 1`.
#[inline(always)]
pub fn fold(d: i32, bits: u8) -> i32
    requires { (bits ≡ 8) ⊎ (bits ≡ 9) }
    ensures value { result ≡ folded bits d }
    ensures range { IsFolded bits result }
{
    if bits == 8 {
        let byte = lowest(d, 8) as u8;
        return i32::from(byte.cast_signed());
    }
    lowest(d.wrapping_add(256), 9) as i32 - 256
}

/// The sample of a residual: `(pred + residual) mod 2^bits`, for every `pred` and `residual`.
/// `bits` is 8 or 9. The result is below `2^bits`.
#[inline(always)]
pub fn unfold(pred: i32, residual: i32, bits: u8) -> u16
    requires { (bits ≡ 8) ⊎ (bits ≡ 9) }
    ensures value { pos result ≡ int_rem_euclid (pred +ℤ residual) (pos (2 ^ bits)) }
    ensures small { result < 2 ^ bits }
{
    lowest(pred.wrapping_add(residual), bits)
}

/// The residual that an encoder takes for a sample: the difference to its prediction, its sign
/// flipped if `flip` holds (RFC 9043, 3.5), then folded (3.8), for every `pred` and `sample`.
/// `bits` is 8 or 9.
#[inline(always)]
pub fn residual_of(pred: i32, flip: bool, sample: u16, bits: u8) -> i32
    requires { (bits ≡ 8) ⊎ (bits ≡ 9) }
    ensures value { result ≡ chosen_of bits pred flip sample }
    ensures size { unsigned_abs result < 2 ^ 31 }
{
    let sample = sample as i32;
    if flip {
        return fold(pred.wrapping_sub(sample), bits);
    }
    fold(sample.wrapping_sub(pred), bits)
}

/// The sample that a residual makes with its prediction, if `flip` tells whether the residual's
/// sign was flipped (RFC 9043, 3.5 and 3.8), for every `pred` and `residual`. `bits` is 8 or 9. The
/// result is below `2^bits`.
#[inline(always)]
pub fn sample_from(pred: i32, flip: bool, residual: i32, bits: u8) -> u16
    requires { (bits ≡ 8) ⊎ (bits ≡ 9) }
    ensures value { pos result ≡ sample_of bits pred flip residual }
    ensures small { result < 2 ^ bits }
{
    if flip {
        return lowest(pred.wrapping_sub(residual), bits);
    }
    unfold(pred, residual, bits)
}
