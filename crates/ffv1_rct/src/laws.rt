//! Laws of the transform.

ghost use Rattle.std.specs.Prelude.{ℕ, ℤ, pos, List, ◌≡◌, ◌<◌, slice_index, ◌≤ℤ◌, ◌<ℤ◌, ◌+ℤ◌, ◌*ℤ◌};
ghost use Rattle.std.specs.Prelude.{length, ◌^◌, ◌+◌};
ghost use Rattle.ffv1_rct.specs.Transform.{quarter_below, IsCoded, IsColour, IsCodedIn};
ghost use Rattle.ffv1_rct.specs.Transform.{IsColourIn};
ghost use Rattle.ffv1_rct.specs.Lines.{AreCoded, AreCodedIn, lumas, chromas, chromas_in};

/// The quarter of the definition is rounded down, for negative numbers too.
pub fn quarter_is_rounded_down()
    ensures least { (z : ℤ) → (pos 4 *ℤ quarter_below z) ≤ℤ z }
    ensures most { (z : ℤ) → z <ℤ ((pos 4 *ℤ quarter_below z) +ℤ pos 4) }
{}

/// The transform of a sample determines its red, green and blue, and they determine the transform.
pub fn transform_is_one_to_one()
    ensures colour { (r g b s h d y cb cr : ℕ) → IsCoded r g b y cb cr → IsCoded s h d y cb cr →
        (s ≡ r) × (h ≡ g) × (d ≡ b) }
    ensures coded { (r g b y cb cr z db dr : ℕ) → IsCoded r g b y cb cr → IsCoded r g b z db dr →
        (z ≡ y) × (db ≡ cb) × (dr ≡ cr) }
{}

/// The inverse of a line's transform is the line itself: lines of one length with the same
/// transform at each place are the same lines.
pub fn inverse_undoes_the_transform()
    ensures { (n : ℕ) (r g b s h d y cb cr : List ℕ) → length r ≡ n → length g ≡ n → length b ≡ n →
        length s ≡ n → length h ≡ n → length d ≡ n
        → AreCoded n r g b y cb cr → AreCoded n s h d y cb cr → (s ≡ r) × (h ≡ g) × (d ≡ b) }
{}

/// The transform of the inverse of a line is the line itself: two transforms of one line, of its
/// length, are the same lines.
pub fn transform_undoes_the_inverse()
    ensures { (n : ℕ) (r g b y cb cr z db dr : List ℕ) → length y ≡ n → length cb ≡ n →
        length cr ≡ n → length z ≡ n → length db ≡ n → length dr ≡ n
        → AreCoded n r g b y cb cr → AreCoded n r g b z db dr → (z ≡ y) × (db ≡ cb) × (dr ≡ cr) }
{}

/// The transform of a sample whose red, green and blue lie from 0 to 255: Y lies from 0 to 255, Cb
/// and Cr from 1 to 511.
pub fn transform_of_bytes_stays_in_range()
    ensures luma { (r g b y cb cr : ℕ) → IsColour y cb cr r g b → y < 256 }
    ensures blue { (r g b y cb cr : ℕ) → IsColour y cb cr r g b → (0 < cb) × (cb < 512) }
    ensures red { (r g b y cb cr : ℕ) → IsColour y cb cr r g b → (0 < cr) × (cr < 512) }
{}

/// The transform of a line as one list for each of Y, Cb and Cr: lines that are the transform at
/// each place are these lists, and of lines from 0 to 255 these lists are the transform at each
/// place, of the same length.
pub fn line_transform_is_three_lists()
    ensures lists { (n : ℕ) (r g b y cb cr : List ℕ) → length r ≡ n → length g ≡ n → length b ≡ n →
        length y ≡ n → length cb ≡ n → length cr ≡ n
        → AreCoded n r g b y cb cr → (y ≡ lumas r g b) × (cb ≡ chromas b g) × (cr ≡ chromas r g) }
    ensures coded { (n : ℕ) (r g b : List ℕ) → length r ≡ n → length g ≡ n → length b ≡ n
        → ((x : ℕ) → slice_index r x < 256) → ((x : ℕ) → slice_index g x < 256) →
        ((x : ℕ) → slice_index b x < 256)
        → AreCoded n r g b (lumas r g b) (chromas b g) (chromas r g) }
    ensures luma_long { (r g b : List ℕ) → length g ≡ length r → length b ≡ length r →
        length (lumas r g b) ≡ length r }
    ensures chroma_long { (v g : List ℕ) → length g ≡ length v → length (chromas v g) ≡ length v }
{}

/// At any depth the transform of a sample determines its red, green and blue, and they determine
/// the transform.
pub fn transform_is_one_to_one_at_depth()
    ensures colour { (depth r g b s h d y cb cr : ℕ) → IsCodedIn depth r g b y cb cr →
        IsCodedIn depth s h d y cb cr → (s ≡ r) × (h ≡ g) × (d ≡ b) }
    ensures coded { (depth r g b y cb cr z db dr : ℕ) → IsCodedIn depth r g b y cb cr →
        IsCodedIn depth r g b z db dr → (z ≡ y) × (db ≡ cb) × (dr ≡ cr) }
{}

/// At any depth the inverse of a line's transform is the line itself, and so is the transform of
/// its inverse.
pub fn lines_transform_back_at_any_depth()
    ensures inverse { (depth n : ℕ) (r g b s h d y cb cr : List ℕ) → length r ≡ n →
        length g ≡ n → length b ≡ n → length s ≡ n → length h ≡ n → length d ≡ n
        → AreCodedIn depth n r g b y cb cr → AreCodedIn depth n s h d y cb cr
        → (s ≡ r) × (h ≡ g) × (d ≡ b) }
    ensures forward { (depth n : ℕ) (r g b y cb cr z db dr : List ℕ) → length y ≡ n →
        length cb ≡ n → length cr ≡ n → length z ≡ n → length db ≡ n → length dr ≡ n
        → AreCodedIn depth n r g b y cb cr → AreCodedIn depth n r g b z db dr
        → (z ≡ y) × (db ≡ cb) × (dr ≡ cr) }
{}

/// The transform of a sample whose red, green and blue are below 2^depth: Y is below 2^depth, Cb
/// and Cr lie from 1 to 2^(depth+1) - 1.
pub fn transform_stays_in_range_at_depth()
    ensures luma { (depth r g b y cb cr : ℕ) → IsColourIn depth y cb cr r g b → y < 2 ^ depth }
    ensures blue { (depth r g b y cb cr : ℕ) → IsColourIn depth y cb cr r g b →
        (0 < cb) × (cb < 2 ^ (depth + 1)) }
    ensures red { (depth r g b y cb cr : ℕ) → IsColourIn depth y cb cr r g b →
        (0 < cr) × (cr < 2 ^ (depth + 1)) }
{}

/// The transform of a line as lists, at any depth: lines that are the transform at each place are
/// these lists, and of lines below 2^depth these lists are the transform at each place, of the same
/// length.
pub fn line_transform_is_lists_at_depth()
    ensures lists { (depth n : ℕ) (r g b y cb cr : List ℕ) → length r ≡ n → length g ≡ n →
        length b ≡ n → length y ≡ n → length cb ≡ n → length cr ≡ n
        → AreCodedIn depth n r g b y cb cr
        → (y ≡ lumas r g b) × (cb ≡ chromas_in depth b g) × (cr ≡ chromas_in depth r g) }
    ensures coded { (depth n : ℕ) (r g b : List ℕ) → length r ≡ n → length g ≡ n → length b ≡ n
        → ((x : ℕ) → slice_index r x < 2 ^ depth) → ((x : ℕ) → slice_index g x < 2 ^ depth) →
        ((x : ℕ) → slice_index b x < 2 ^ depth)
        → AreCodedIn depth n r g b (lumas r g b) (chromas_in depth b g) (chromas_in depth r g) }
    ensures chroma_long { (depth : ℕ) (v g : List ℕ) → length g ≡ length v →
        length (chromas_in depth v g) ≡ length v }
{}
