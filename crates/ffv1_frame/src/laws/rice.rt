//! Laws of Golomb-Rice coded slices, each the contract of a function that does nothing.

ghost use Rattle.std.specs.Prelude.{◌≡◌, ℕ, ◌*◌, ◌≤◌, ◌<◌, true, false, List, [], ◌∷◌, length};
ghost use Rattle.ffv1_rice.specs.Bits.{binary};
ghost use Rattle.ffv1_record.specs.declared.config.Colour.TheVariants as colour;
ghost use Rattle.ffv1_record.specs.Accepted.{Accepted, IsAccepted, is_rice};
ghost use Rattle.ffv1_frame.specs.Decoding.{Slice};
ghost use Rattle.ffv1_frame.specs.Known.{CodesRead};
ghost use Rattle.ffv1_frame.specs.SliceList.{Line};
ghost use Rattle.ffv1_frame.specs.Worked.{small_pictures, rice_of};

use crate::laws;
use ffv1_rice::laws as rice_laws;

/// Slices that are known from outside the program: what the definition of their bits gives.
pub fn worked_slices_have_known_bits()
    ensures zero { rice_of (small_pictures colour.YCbCr false false 1 1 1 false)
        ((0 ∷ []) ∷ []) ≡ binary 1 1 }
    ensures greatest { rice_of (small_pictures colour.YCbCr false false 1 1 1 false)
        ((255 ∷ []) ∷ []) ≡ binary 4 5 }
    ensures escape { rice_of (small_pictures colour.YCbCr false false 1 1 1 false)
        ((128 ∷ []) ∷ []) ≡ binary 21 244 }
    ensures runs { rice_of (small_pictures colour.YCbCr false false 4 2 1 false)
        ((0 ∷ 0 ∷ 0 ∷ 0 ∷ 0 ∷ 0 ∷ 0 ∷ 0 ∷ []) ∷ []) ≡ binary 6 63 }
    ensures lower { rice_of (small_pictures colour.YCbCr false false 12 2 1 false)
        ((0 ∷ 0 ∷ 0 ∷ 0 ∷ 0 ∷ 0 ∷ 0 ∷ 0 ∷ 0 ∷ 0 ∷ 0 ∷ 0 ∷ 0 ∷ 0 ∷ 0 ∷ 0 ∷ 0 ∷ 0 ∷ 0 ∷ 0 ∷ 0
        ∷ 0 ∷ 9 ∷ 0 ∷ []) ∷ []) ≡ binary 27 134119941 }
    ensures partial { rice_of (small_pictures colour.YCbCr false false 5 1 1 false)
        ((0 ∷ 0 ∷ 0 ∷ 0 ∷ 0 ∷ []) ∷ []) ≡ binary 5 31 }
    ensures broken { rice_of (small_pictures colour.YCbCr false false 6 1 1 false)
        ((0 ∷ 0 ∷ 0 ∷ 0 ∷ 3 ∷ 0 ∷ []) ∷ []) ≡ binary 14 15429 }
    ensures turned { rice_of (small_pictures colour.YCbCr false false 3 2 1 false)
        ((10 ∷ 20 ∷ 10 ∷ 200 ∷ 3 ∷ 90 ∷ []) ∷ []) ≡ binary 83 227271957571674942996643 }
    ensures transparency { rice_of (small_pictures colour.YCbCr true true 1 1 1 false)
        ((16 ∷ []) ∷ (128 ∷ []) ∷ (128 ∷ []) ∷ (255 ∷ []) ∷ []) ≡ binary 46 206162431957 }
    ensures red { rice_of (small_pictures colour.Rct true false 1 1 1 false)
        ((255 ∷ []) ∷ (0 ∷ []) ∷ (0 ∷ []) ∷ []) ≡ binary 54 485331816704 }
    ensures black { rice_of (small_pictures colour.Rct true false 4 2 1 false)
        ((0 ∷ 0 ∷ 0 ∷ 0 ∷ 0 ∷ 0 ∷ 0 ∷ 0 ∷ []) ∷ (0 ∷ 0 ∷ 0 ∷ 0 ∷ 0 ∷ 0 ∷ 0 ∷ 0 ∷ [])
        ∷ (0 ∷ 0 ∷ 0 ∷ 0 ∷ 0 ∷ 0 ∷ 0 ∷ 0 ∷ []) ∷ []) ≡ binary 48 263883840880383 }
    ensures clear { rice_of (small_pictures colour.Rct true true 2 1 1 false)
        ((0 ∷ 0 ∷ []) ∷ (0 ∷ 0 ∷ []) ∷ (0 ∷ 0 ∷ []) ∷ (255 ∷ 255 ∷ []) ∷ [])
        ≡ binary 62 3458902124404936588 }
{}

/// Each line of Golomb-Rice coded samples that is read of a slice has at least one bit: they are at
/// most eight for each of its coded bytes.
pub fn each_line_has_a_bit()
    ensures { (a : Accepted) (coded : ℕ → List ℕ) (n : ℕ) (q : Slice) (read : List Line) →
        IsAccepted a.configuration a.table → is_rice a.configuration.coder ≡ true →
        n < a.configuration.columns * a.configuration.rows → CodesRead a coded n q read →
        length read ≤ 8 * length (coded n) }
{
    rice_laws::place_takes_few_bits();
    laws::planes_are_divided_part_by_part();
}
