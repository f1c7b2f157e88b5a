//! Laws of the sum.

ghost use Rattle.std.specs.Prelude.{ℕ, List, ◌≡◌, ◌<◌, ◌+◌, ◌*◌, ◌^◌, ◌++◌, length, fold, bit_xor};
ghost use Rattle.std.specs.Prelude.{All, codes};
ghost use Rattle.ffv1_sum.specs.Sum.{byte_step, crc_of, number_of};

/// The check value of the catalogues: the sum of the nine digits `123456789` is 0xCBF43926.
pub fn nine_digits_have_the_check_value()
    ensures { crc_of (codes "123456789") ≡ 3421780262 }
{}

/// A sum of bytes goes on by others as the sum of both.
pub fn sum_goes_on_over_further_bytes()
    ensures { (sum : ℕ) (xs ys : List ℕ) →
        fold byte_step sum (xs ++ ys) ≡ fold byte_step (fold byte_step sum xs) ys }
{}

/// Bytes that differ, and only within 32 neighbouring bits, each byte's low bit first, have
/// different sums.
pub fn bursts_change_the_sum()
    ensures { (xs ys : List ℕ) (bits place : ℕ) → All (λ b. b < 256) xs → All (λ b. b < 256) ys →
        length xs ≡ length ys → 0 < bits → bits < 2 ^ 32 →
        bit_xor (number_of xs) (number_of ys) ≡ bits * 2 ^ place → crc_of xs ≡ crc_of ys → ⊥ }
{}
