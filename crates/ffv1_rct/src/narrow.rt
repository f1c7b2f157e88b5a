//! From a coded transparency line to bytes.

ghost use Rattle.std.specs.Prelude.{◌≡◌, ℕ, ◌≤◌, ◌<◌, ◌↔◌, length, slice_index, take, OnOk, IfErr};
ghost use Rattle.std.specs.Prelude.{IsErr, IsTrue, IsFalse, ◌+◌};
ghost use Rattle.ffv1_rct.specs.Lines.{IsKeptFrom};

use crate::fault::NoColour;
use std::simd::prelude::*;

/// 32 places from `at` on, or `false` and nothing done if one of them lies above 255.
#[inline(always)]
fn narrow_block(at: usize, a: &[u16], out: &mut [u8]) -> bool
    requires at { at + 32 ≤ length a.now }
    requires out { length out.old ≡ length a.now }
    requires done { (x : ℕ) → x < at → slice_index out.old x ≡ slice_index a.now x }
    ensures all { IsTrue result → (x : ℕ) → x < at + 32 →
        slice_index out.new x ≡ slice_index a.now x }
    ensures kept { IsTrue result → IsKeptFrom (at + 32) out.old out.new }
    ensures none { IsFalse result → out.new ≡ out.old }
{
    let early = u16x16::from_slice(&a[at..]);
    let late = u16x16::from_slice(&a[at + 16..]);
    let bits = early | late;
    if bits.simd_gt(u16x16::splat(255)).to_bitmask() != 0 {
        return false;
    }
    early.cast::<u8>().copy_to_slice(&mut out[at..]);
    late.cast::<u8>().copy_to_slice(&mut out[at + 16..]);
    true
}

/// The places from `at` on, up to the first above 255.
fn narrow_rest(at: usize, a: &[u16], out: &mut [u8]) -> Result<(), NoColour>
    requires at { at ≤ length a.now }
    requires out { length out.old ≡ length a.now }
    requires done { (x : ℕ) → x < at → slice_index out.old x ≡ slice_index a.now x }
    ensures ok { OnOk result (out.new ≡ a.now) }
    ensures behind { IfErr result (λ c. at ≤ c.x) }
    ensures inside { IfErr result (λ c. c.x < length a.now) }
    ensures above { IfErr result (λ c. 255 < slice_index a.now c.x) }
    ensures filled { IfErr result (λ c. (x : ℕ) → x < c.x →
        slice_index out.new x ≡ slice_index a.now x) }
    ensures kept { IfErr result (λ c. IsKeptFrom c.x out.old out.new) }
{
    for x in at..a.len() {
        if a[x] > 255 {
            return Err(NoColour { x });
        }
        out[x] = a[x] as u8;
    }
    Ok(())
}

/// The samples of a coded transparency line, any, as bytes, unchanged. The two lines have one
/// length, any.
///
/// Refuses exactly if a sample lies above 255, with the first such place `x`: the places before
/// `x` are filled then, `x` and all after it are as before.
pub fn narrow_line(a: &[u16], out: &mut [u8]) -> Result<(), NoColour>
    requires { length out.old ≡ length a.now }
    ensures exact { IsErr result ↔ ((x : ℕ) × (x < length a.now) × (255 < slice_index a.now x)) }
    ensures ok { OnOk result (out.new ≡ a.now) }
    ensures inside { IfErr result (λ c. c.x < length a.now) }
    ensures above { IfErr result (λ c. 255 < slice_index a.now c.x) }
    ensures filled { IfErr result (λ c. (x : ℕ) → x < c.x →
        slice_index out.new x ≡ slice_index a.now x) }
    ensures kept { IfErr result (λ c. IsKeptFrom c.x out.old out.new) }
{
    let mut at = 0;
    while a.len() - at >= 32 && narrow_block(at, a, out) {
        at += 32;
    }
    narrow_rest(at, a, out)?;
    Ok(())
}
