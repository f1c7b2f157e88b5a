//! Reads differences by the states of their contexts.

ghost use Rattle.std.specs.Prelude.{◌≡◌, ◌^◌, ◌<◌, ◌≤◌, ◌⊎◌, ◌++◌, IfOk, IfErr, IsErrOf};
ghost use Rattle.std.specs.Prelude.{if◌then◌else◌, unsigned_abs, true, false};
ghost use Rattle.ffv1_plane.specs.Residual.{IsFolded};
ghost use Rattle.ffv1_rice.specs.Number.{Ends, IsBad};
ghost use Rattle.ffv1_rice.specs.States.{IsState, parameter};
ghost use Rattle.ffv1_rice.specs.Scalar.{unsigned, mirrored, scalar_bits, scalar_after};
ghost use Rattle.ffv1_rice.specs.Row.{coded, is_zero};
ghost use Rattle.ffv1_rice.specs.Rows.{IsNone};

use crate::bits::Bits;
use crate::fault::Fault;
use crate::state::State;
use ffv1_plane::fold;

/// The number with a sign that one without stands for: 0, -1, 1, -2, 2 and so on.
#[inline(always)]
fn signed(number: u32) -> i32
    requires { number < 2 ^ 9 }
    ensures { unsigned result ≡ number }
{
    let half = (number / 2) as i32;
    if number % 2 == 0 {
        return half;
    }
    -1 - half
}

/// A number, or -1 less it.
#[inline(always)]
fn turned(turns: bool, number: i32) -> i32
    requires { unsigned_abs number ≤ 2 ^ 9 }
    ensures { result ≡ if turns then mirrored number else number }
{
    if turns {
        return -1 - number;
    }
    number
}

/// Reads a difference of `depth` bits, 8 or 9, by the state of its context, which goes on with it
/// (RFC 9043, 3.8.2.3).
///
/// Refuses as `Bits::read_number` does, by the state's parameter. Then no bit counts as read, and
/// the state is as before.
#[inline(always)]
pub fn read_scalar(bits: &mut Bits<'_>, state: &mut State, depth: u8) -> Result<i32, Fault>
    requires depth { (depth ≡ 8) ⊎ (depth ≡ 9) }
    requires state { IsState depth state.old }
    ensures ok { IfOk result (λ d. bits.old ≡ scalar_bits depth state.old d ++ bits.new) }
    ensures folded { IfOk result (λ d. IsFolded depth d) }
    ensures after { IfOk result (λ d. state.new ≡ scalar_after depth state.old d) }
    ensures state { IsState depth state.new }
    ensures ends { IsErrOf result Fault.BitsEnd → Ends depth (parameter state.old) bits.old }
    ensures bad { IsErrOf result Fault.BadCode → IsBad depth (parameter state.old) bits.old }
    ensures bits_stay { IfErr result (λ f. bits.new ≡ bits.old) }
    ensures state_stays { IfErr result (λ f. state.new ≡ state.old) }
{
    let k = state.parameter(depth);
    let number = bits.read_number(k, u32::from(depth))?;
    let written = signed(number);
    let value = turned(state.turns(), written);
    let difference = fold(value + state.bias, depth);
    state.take(value, depth);
    Ok(difference)
}

/// The same where a difference may stand after a run: that is not 0, and a positive one counts one
/// less (RFC 9043, 3.8.2.2). `BadCode` too if it would be 2^(depth-1). If it refuses, the bits that
/// are left and the state are of no use.
#[inline(always)]
pub fn read_difference(
    bits: &mut Bits<'_>,
    state: &mut State,
    depth: u8,
    is_behind: bool,
) -> Result<i32, Fault>
    requires depth { (depth ≡ 8) ⊎ (depth ≡ 9) }
    requires state { IsState depth state.old }
    ensures ok { IfOk result (λ d. bits.old ≡ scalar_bits depth state.old (coded is_behind d) ++
        bits.new) }
    ensures folded { IfOk result (λ d. IsFolded depth d) }
    ensures some { IfOk result (λ d. is_behind ≡ true → is_zero d ≡ false) }
    ensures after { IfOk result (λ d. state.new ≡ scalar_after depth state.old
        (coded is_behind d)) }
    ensures state { IsState depth state.new }
    ensures ends { IsErrOf result Fault.BitsEnd → Ends depth (parameter state.old) bits.old }
    ensures bad { IsErrOf result Fault.BadCode → IsNone depth state.old is_behind bits.old }
{
    let difference = read_scalar(bits, state, depth)?;
    if !is_behind {
        return Ok(difference);
    }
    if difference < 0 {
        return Ok(difference);
    }
    if difference + 1 == 1i32 << (depth - 1) {
        return Err(Fault::BadCode);
    }
    Ok(difference + 1)
}
