//! Laws of the definitions.

ghost use Rattle.std.specs.Prelude.{◌≡◌, ◌≢◌, ℕ, ◌+◌, ◌-◌, ◌^◌, ◌<◌, ◌≤◌, List, length, sum, take};
ghost use Rattle.std.specs.Prelude.{Bool, true, ℤ, pos, ◌+ℤ◌, ◌-ℤ◌};
ghost use Rattle.std.specs.Int.{int_rem_euclid};
ghost use Rattle.ffv1_plane.specs.declared.prediction.Around.{Around};
ghost use Rattle.ffv1_plane.specs.Quantisation.{Set, IsSet, HasThreeTables, runs_below, entry};
ghost use Rattle.ffv1_plane.specs.Quantisation.{contexts_of};
ghost use Rattle.ffv1_plane.specs.Context.{size_of};
ghost use Rattle.ffv1_plane.specs.Residual.{IsSuiting, IsFolded, turned, folded, sample_of};
ghost use Rattle.ffv1_plane.specs.Residual.{chosen_of};

/// Run `v` of a table, from 0, gives its places the level `v`.
pub fn each_run_gives_its_level()
    ensures { (runs : List ℕ) (v k : ℕ) → v < length runs → sum (take v runs) ≤ k →
        k < sum (take (v + 1) runs) → runs_below runs k ≡ v }
{}

/// The upper half of a table is its lower half with the signs flipped, and its middle entry is that
/// before it.
pub fn upper_half_mirrors_lower_half()
    ensures half { (set : Set) (i k : ℕ) → 0 < k → k < 128 →
        entry set i (256 - k) ≡ pos 0 -ℤ entry set i k }
    ensures middle { (set : Set) (i : ℕ) → entry set i 128 ≡ pos 0 -ℤ entry set i 127 }
{}

/// The number of each place's context is below the number of contexts.
pub fn contexts_stay_below_their_count()
    ensures { (set : Set) → IsSet set → (a : Around) → size_of set a < contexts_of set }
{}

/// In a set whose fourth and fifth tables have one level, the context of a sample is 0 if the
/// samples to the left, above, and above to the left and right are one.
pub fn flat_place_has_first_context()
    ensures { (set : Set) → IsSet set → HasThreeTables set → (a : Around) → a.t ≡ a.l → a.tl ≡ a.l →
        a.tr ≡ a.l → size_of set a ≡ 0 }
{}

/// The residual that an encoder takes makes its sample, has a symbol, and lies from -2^(bits-1) to
/// 2^(bits-1) - 1.
pub fn chosen_residual_makes_its_sample()
    ensures suits { (bits : ℕ) (p : ℤ) (flip : Bool) (s : ℕ) → 0 < bits → bits < 32 → s < 2 ^ bits →
        IsSuiting bits p flip s (chosen_of bits p flip s) }
    ensures folded { (bits : ℕ) (p : ℤ) (flip : Bool) (s : ℕ) → 0 < bits →
        IsFolded bits (chosen_of bits p flip s) }
{}

/// No other number from -2^(bits-1) to 2^(bits-1) - 1 makes the sample.
pub fn no_other_residual_makes_the_sample()
    ensures { (bits : ℕ) (p : ℤ) (flip : Bool) (s : ℕ) (q : ℤ) → 0 < bits →
        IsSuiting bits p flip s q → IsFolded bits q → q ≡ chosen_of bits p flip s }
{}

/// Each residual makes exactly one sample of `bits` bits: the prediction and the residual, its sign
/// flipped or not, modulo 2^bits.
pub fn residual_makes_one_sample()
    ensures one { (bits : ℕ) (p : ℤ) (flip : Bool) (q : ℤ) →
        (s : ℕ) × (s < 2 ^ bits) × (pos s ≡ sample_of bits p flip q) }
    ensures unfolded { (bits : ℕ) (p : ℤ) (flip : Bool) (s : ℕ) (q : ℤ) →
        IsSuiting bits p flip s q →
        pos s ≡ int_rem_euclid (p +ℤ turned flip q) (pos (2 ^ bits)) }
{}

/// The sign is flipped first, and the difference folded then. Only at a difference of 2^(bits-1),
/// but for a multiple of 2^bits, does the order count: flipped or not it is folded to -2^(bits-1),
/// and folded first it would be flipped to 2^(bits-1).
pub fn sign_is_flipped_before_folding()
    ensures extreme { (bits : ℕ) (flip : Bool) → 0 < bits →
        folded bits (turned flip (pos (2 ^ (bits - 1)))) ≡ pos 0 -ℤ pos (2 ^ (bits - 1)) }
    ensures other_order { (bits : ℕ) → 0 < bits →
        turned true (folded bits (pos (2 ^ (bits - 1)))) ≡ pos (2 ^ (bits - 1)) }
    ensures elsewhere { (bits : ℕ) (flip : Bool) (d : ℤ) → 0 < bits →
        folded bits d ≢ (pos 0 -ℤ pos (2 ^ (bits - 1))) →
        folded bits (turned flip d) ≡ turned flip (folded bits d) }
{}
