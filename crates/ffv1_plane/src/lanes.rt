//! Contexts and residuals of 16 places at once.

ghost use Rattle.std.specs.Prelude.{◌≡◌, ℕ, ◌+◌, ◌*◌, ◌/◌, ◌%◌, ◌^◌, ◌<◌, ◌≤◌, ◌⊎◌, IsTrue, List};
ghost use Rattle.std.specs.Prelude.{length};
ghost use Rattle.std.specs.Prelude.{map, unsigned_abs};
ghost use Rattle.ffv1_plane.specs.Quantisation.{HasThreeTables, HasFewLevels};
ghost use Rattle.ffv1_plane.specs.Context.{size_of, flip_of};
ghost use Rattle.ffv1_plane.specs.Prediction.{predicted};
ghost use Rattle.ffv1_plane.specs.Residual.{chosen_of};
ghost use Rattle.ffv1_plane.specs.Raised.{AreSetLanes};
ghost use Rattle.ffv1_plane.specs.Lanes.{AreAround, modulo_512, folded_modulo};
ghost use Rattle.ffv1_plane.specs.Lanes.{difference_modulo, raised_modulo, raised_residual};
ghost use Rattle.ffv1_plane.specs.declared.prediction.Around.{Around};

use crate::quantisation::{QuantSet, SetLanes};
use std::alloc::Allocator;
use std::simd::prelude::*;

/// The samples around 16 places, as in `Around`.
#[derive(Clone, Copy)]
pub struct AroundLanes {
    /// To the left.
    pub l: u16x16,
    /// Above.
    pub t: u16x16,
    /// Above, to the left.
    pub tl: u16x16,
    /// Above, to the right.
    pub tr: u16x16,
    /// Two to the left.
    pub ll: u16x16,
    /// Two above.
    pub tt: u16x16,
}

/// The samples above 16 places, as in `Around`.
#[derive(Clone, Copy)]
pub(crate) struct AboveLanes {
    /// Above.
    pub(crate) t: u16x16,
    /// Above, to the left.
    pub(crate) tl: u16x16,
    /// Above, to the right.
    pub(crate) tr: u16x16,
    /// Two above.
    pub(crate) tt: u16x16,
}

/// The predictions of 16 places.
#[inline(always)]
fn predict_lanes(around: &AroundLanes) -> u16x16
    ensures { (places : List ℕ) (a : ℕ → Around) → AreAround around.now places a →
        result ≡ map (λ x. unsigned_abs (predicted (a x))) places }
{
    let least = around.l.simd_min(around.t);
    let most = around.l.simd_max(around.t);
    most - (around.tl.simd_max(least).simd_min(most) - least)
}

/// 16 differences modulo 65536, folded to `bits` bits, modulo 512.
#[inline(always)]
fn fold_lanes(differences: u16x16, bits: u8) -> u16x16
    requires { (bits ≡ 8) ⊎ (bits ≡ 9) }
    ensures { (places : List ℕ) (f : ℕ → ℕ) → length places ≡ 16 → differences ≡ map f places →
        result ≡ map (λ x. folded_modulo bits (f x)) places }
{
    if bits == 8 {
        let low = differences & u16x16::splat(255);
        return low + ((low >> 7) << 8);
    }
    differences & u16x16::splat(511)
}

/// 16 differences modulo 65536, folded to `bits` bits, each with `2^(bits - 1)` added.
#[inline(always)]
fn raise_lanes(differences: u16x16, bits: u8) -> u16x16
    requires some { 0 < bits }
    requires few { bits ≤ 15 }
    ensures { (places : List ℕ) (f : ℕ → ℕ) → length places ≡ 16 → differences ≡ map f places →
        result ≡ map (λ x. raised_modulo bits (f x)) places }
{
    let half = 1u16 << (bits - 1);
    let mask = (1u16 << bits) - 1;
    (differences + u16x16::splat(half)) & u16x16::splat(mask)
}

/// The numbers of the contexts of 16 places (RFC 9043, 3.5), and modulo 65536 the differences of
/// their samples to the predictions, their signs flipped if the contexts say so.
#[inline(always)]
fn differ_lanes<A: Allocator>(
    set: &QuantSet<A>,
    lanes: &SetLanes,
    around: &AroundLanes,
    samples: u16x16,
    three_tables: bool,
) -> (u16x16, u16x16)
    requires few { HasFewLevels set.now }
    requires lanes { AreSetLanes set.now lanes.now }
    requires three_tables { IsTrue three_tables → HasThreeTables set.now }
    ensures sizes { (places : List ℕ) (a : ℕ → Around) → length places ≡ 16 →
        AreAround around.now places a → result.0 ≡ map (λ x. size_of set.now (a x)) places }
    ensures differences { (places : List ℕ) (a : ℕ → Around) (s : ℕ → ℕ) → length places ≡ 16 →
        AreAround around.now places a → samples ≡ map s places →
        result.1 ≡ map (λ x. difference_modulo (flip_of set.now (a x))
        (unsigned_abs (predicted (a x))) (s x)) places }
{
    let sums = set.sum_lanes(lanes, around, three_tables);
    let half = lanes.half;
    let flips = sums.simd_lt(half);
    let sizes = flips.select(half - sums, sums - half);
    let predictions = predict_lanes(around);
    let differences = flips.select(predictions - samples, samples - predictions);
    (sizes, differences)
}

/// The numbers of the contexts of 16 places (RFC 9043, 3.5), and the residuals that an encoder
/// takes for their samples (3.8), modulo 512, each as `context`, `predict` and `residual_of` have
/// it. The set's tables have at most eleven levels each (`has_few_levels`), and `lanes` are those
/// of the set (`QuantSet::lanes`). `bits` is 8 or 9; `three_tables` may be said of a set whose
/// fourth and fifth tables have one level.
#[inline(always)]
pub fn choose_lanes<A: Allocator>(
    set: &QuantSet<A>,
    lanes: &SetLanes,
    around: &AroundLanes,
    samples: u16x16,
    bits: u8,
    three_tables: bool,
) -> (u16x16, u16x16)
    requires bits { (bits ≡ 8) ⊎ (bits ≡ 9) }
    requires few { HasFewLevels set.now }
    requires lanes { AreSetLanes set.now lanes.now }
    requires three_tables { IsTrue three_tables → HasThreeTables set.now }
    ensures sizes { (places : List ℕ) (a : ℕ → Around) → length places ≡ 16 →
        AreAround around.now places a → result.0 ≡ map (λ x. size_of set.now (a x)) places }
    ensures residuals { (places : List ℕ) (a : ℕ → Around) (s : ℕ → ℕ) → length places ≡ 16 →
        AreAround around.now places a → samples ≡ map s places → ((x : ℕ) → s x < 2 ^ 16) →
        result.1 ≡ map (λ x. modulo_512
        (chosen_of bits (predicted (a x)) (flip_of set.now (a x)) (s x))) places }
{
    let (sizes, differences) = differ_lanes(set, lanes, around, samples, three_tables);
    (sizes, fold_lanes(differences, bits))
}

/// The same of samples of 10 to 15 bits, but that each residual has `2^(bits - 1)` added, which
/// makes it a number from 0 to `2^bits - 1`.
// Not inlined: what calls both, for some depth or other, would grow too large to be inlined itself.
#[inline(never)]
pub fn choose_lanes_of_bits<A: Allocator>(
    set: &QuantSet<A>,
    lanes: &SetLanes,
    around: &AroundLanes,
    samples: u16x16,
    bits: u8,
    three_tables: bool,
) -> (u16x16, u16x16)
    requires some { 0 < bits }
    requires bits { bits ≤ 15 }
    requires few { HasFewLevels set.now }
    requires lanes { AreSetLanes set.now lanes.now }
    requires three_tables { IsTrue three_tables → HasThreeTables set.now }
    ensures sizes { (places : List ℕ) (a : ℕ → Around) → length places ≡ 16 →
        AreAround around.now places a → result.0 ≡ map (λ x. size_of set.now (a x)) places }
    ensures residuals { (places : List ℕ) (a : ℕ → Around) (s : ℕ → ℕ) → length places ≡ 16 →
        AreAround around.now places a → samples ≡ map s places → ((x : ℕ) → s x < 2 ^ 16) →
        result.1 ≡ map (λ x. raised_residual bits
        (chosen_of bits (predicted (a x)) (flip_of set.now (a x)) (s x))) places }
{
    let (sizes, differences) = differ_lanes(set, lanes, around, samples, three_tables);
    (sizes, raise_lanes(differences, bits))
}
