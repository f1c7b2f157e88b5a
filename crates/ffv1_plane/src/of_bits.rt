//! Sample differences, folded to any depth up to 16 bits (RFC 9043, 3.8).

ghost use Rattle.std.specs.Prelude.{◌≡◌, ℕ, ◌-◌, ◌^◌, ◌<◌, ◌≤◌, pos, unsigned_abs};
ghost use Rattle.std.specs.Int.{int_rem_euclid};
ghost use Rattle.ffv1_plane.specs.Residual.{IsFolded, sample_of, folded, chosen_of};

/// The lowest `bits` bits of a number.
#[inline(always)]
fn lowest_bits(number: i32, bits: u8) -> u16
    requires { bits ≤ 16 }
    ensures value { pos result ≡ int_rem_euclid number (pos (2 ^ bits)) }
    ensures small { result < 2 ^ bits }
{
    let mask = (1u32 << bits) - 1;
    (number.cast_unsigned() & mask) as u16
}

/// A difference folded to `bits` bits (RFC 9043, 3.8).
#[inline(always)]
fn fold_to_bits(difference: i32, bits: u8) -> i32
    requires some { 0 < bits }
    requires few { bits ≤ 16 }
    ensures value { result ≡ folded bits difference }
    ensures range { IsFolded bits result }
{
    let half = 1i32 << (bits - 1);
    lowest_bits(difference.wrapping_add(half), bits) as i32 - half
}

/// The residual that an encoder takes for a sample of `bits` bits, as `residual_of` has it for 8
/// and 9: the difference to the prediction, its sign flipped if `flip` holds (RFC 9043, 3.5),
/// then folded (3.8), for every `pred` and `sample`. `bits` lies from 1 to 16.
#[inline(always)]
pub fn residual_of_bits(pred: i32, flip: bool, sample: u16, bits: u8) -> i32
    requires some { 0 < bits }
    requires few { bits ≤ 16 }
    ensures value { result ≡ chosen_of bits pred flip sample }
    ensures size { unsigned_abs result < 2 ^ 31 }
{
    let sample = sample as i32;
    if flip {
        return fold_to_bits(pred.wrapping_sub(sample), bits);
    }
    fold_to_bits(sample.wrapping_sub(pred), bits)
}

/// The sample of `bits` bits that a residual makes with its prediction, as `sample_from` has it for
/// 8 and 9, if `flip` tells whether the residual's sign was flipped (RFC 9043, 3.5 and 3.8), for
/// every `pred` and `residual`. `bits` lies from 0 to 16. The result is below `2^bits`.
#[inline(always)]
pub fn sample_of_bits(pred: i32, flip: bool, residual: i32, bits: u8) -> u16
    requires { bits ≤ 16 }
    ensures value { pos result ≡ sample_of bits pred flip residual }
    ensures small { result < 2 ^ bits }
{
    if flip {
        return lowest_bits(pred.wrapping_sub(residual), bits);
    }
    lowest_bits(pred.wrapping_add(residual), bits)
}
