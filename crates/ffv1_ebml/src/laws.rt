//! Laws of elements.

ghost use Rattle.std.specs.Prelude.{◌≡◌, ◌≤◌, ◌<◌, ◌+◌, ◌-◌, ◌^◌, ◌++◌, ◌∷◌, ℕ, List, [], Some};
ghost use Rattle.std.specs.Prelude.{Bool, None, Ok, Err, codes, false, true};
ghost use Rattle.std.specs.Prelude.{length, slice_set};
ghost use Rattle.ffv1_ebml.specs.Contents.{content_told, first_part, found};
ghost use Rattle.ffv1_ebml.specs.Elements.{content_passed, element_in, element_read};
ghost use Rattle.ffv1_ebml.specs.Sums.{summed};
ghost use Rattle.ffv1_reads.specs.Reads.{Looked, Met, Short};
ghost use Rattle.ffv1_ebml.specs.declared.element.Element.{Element};
ghost use Rattle.ffv1_reads.specs.declared.fault.FileFault.{FileFault};
ghost use Rattle.ffv1_reads.specs.declared.fault.FileFault.TheVariants as fault;
ghost use Rattle.ffv1_ebml.specs.declared.sum.Sum.{Sum};
ghost use Rattle.ffv1_ebml.specs.Rows.{cluster_row, header_content, header_row};
ghost use Rattle.ffv1_ebml.specs.Spelled.{IsIdent, SaysSize, ident_bytes, long, short, spelled};
ghost use Rattle.ffv1_ebml.specs.Spelled.{unknown};
ghost use Rattle.ffv1_ebml.specs.Vints.{IsVint, length_of, number_of, size_of, vint_read};

use crate::sum::Sum;
use ffv1_reads::FileFault as Fault;

/// How many bytes a variable-size integer has is one more than the bits 0 before the first bit 1 of
/// its first byte (RFC 8794, 4.1).
pub fn first_byte_says_the_length()
    ensures { (n first : ℕ) → 1 ≤ n → n ≤ 8 → 2 ^ (8 - n) ≤ first → first < 2 ^ (9 - n) →
        length_of first ≡ n }
{}

/// Bytes of which the first says how many they are, and no others, are read as a variable-size
/// integer.
pub fn integers_are_read_exactly()
    ensures read { (most left : ℕ) (bytes rest : List ℕ) → IsVint bytes → length bytes ≤ most →
        length bytes ≤ left → vint_read most left (bytes ++ rest) ≡ Ok (bytes, rest) }
    ensures only { (most left : ℕ) (text bytes rest : List ℕ) →
        vint_read most left text ≡ Ok (bytes, rest) → (text ≡ bytes ++ rest) × IsVint bytes
        × (length bytes ≤ most) × (length bytes ≤ left) }
{}

/// An ID is spelled as a variable-size integer of at most four bytes, whose number it is with all
/// bits. No ID is the beginning of another.
pub fn no_id_begins_another()
    ensures spelled { (ident : ℕ) → IsIdent ident → IsVint (ident_bytes ident)
        × (length (ident_bytes ident) ≤ 4) × (number_of (ident_bytes ident) ≡ ident) }
    ensures apart { (a b : ℕ) (xs ys : List ℕ) → IsIdent a → IsIdent b →
        ident_bytes a ++ xs ≡ ident_bytes b ++ ys → a ≡ b }
{}

/// A size is spelled as a variable-size integer that says it, in one byte or in eight; the unknown
/// size says that it is unknown.
pub fn spelled_size_says_its_number()
    ensures short { (n : ℕ) → n < 127 → SaysSize (short n) (Some n) }
    ensures long { (n : ℕ) → n < 2 ^ 56 - 1 → SaysSize (long n) (Some n) }
    ensures unknown { SaysSize unknown None }
{}

/// An element that is spelled is read as it was spelled, in any parent that holds it, and its
/// header is summed: a header alone, one of unknown size, and one with the content, which is left.
pub fn spelled_element_is_read()
    ensures known { (left ident n : ℕ) (sum : Sum) (size rest : List ℕ) → IsIdent ident →
        SaysSize size (Some n) → length (ident_bytes ident ++ size) + n ≤ left →
        element_read left sum ((ident_bytes ident ++ size) ++ rest) ≡ Ok (
          (
            record {
              ident = ident;
              size = Some n;
              left = left - length (ident_bytes ident ++ size) - n;
            },
            summed sum (ident_bytes ident ++ size),
          ),
          rest,
        ) }
    ensures unknown { (left ident : ℕ) (sum : Sum) (size rest : List ℕ) → IsIdent ident →
        SaysSize size None → length (ident_bytes ident ++ size) ≤ left →
        element_read left sum ((ident_bytes ident ++ size) ++ rest) ≡ Ok (
          (
            record {
              ident = ident;
              size = None;
              left = left - length (ident_bytes ident ++ size);
            },
            summed sum (ident_bytes ident ++ size),
          ),
          rest,
        ) }
    ensures whole { (left ident : ℕ) (sum : Sum) (size content rest : List ℕ) → IsIdent ident →
        SaysSize size (Some (length content)) → length (spelled ident size content) ≤ left →
        element_read left sum (spelled ident size content ++ rest) ≡ Ok (
          (
            record {
              ident = ident;
              size = Some (length content);
              left = left - length (spelled ident size content);
            },
            summed sum (ident_bytes ident ++ size),
          ),
          content ++ rest,
        ) }
{}

/// In memory an element that is spelled is the first one of what begins with it. It is found by its
/// ID, and passed over for another one.
pub fn spelled_element_is_found()
    ensures part { (ident : ℕ) (size content rest : List ℕ) → IsIdent ident →
        SaysSize size (Some (length content)) → first_part (spelled ident size content ++ rest)
        ≡ Ok (Some (record { ident = ident; content = content; rest = rest })) }
    ensures first { (ident : ℕ) (size content rest : List ℕ) → IsIdent ident →
        SaysSize size (Some (length content)) →
        found ident (spelled ident size content ++ rest) ≡ Ok (Some content) }
    ensures past { (ident other : ℕ) (size content rest : List ℕ) → IsIdent other →
        SaysSize size (Some (length content)) → (other ≡ ident → ⊥) →
        found ident (spelled other size content ++ rest) ≡ found ident rest }
{}

/// In a parent outside of which elements of some IDs stand, an element with one of these IDs is
/// refused after its ID, whatever comes after that: its size is not looked at. Any other element is
/// read as in any parent; and an element that is read has none of these IDs.
pub fn ids_outside_are_refused()
    ensures refused { (outside : ℕ → Bool) (left : ℕ) (sum : Sum) (ident rest : List ℕ) →
        IsVint ident → length ident ≤ 4 → length ident ≤ left →
        outside (number_of ident) ≡ true →
        element_in outside left sum (ident ++ rest) ≡ Err (Met fault.BadElement rest) }
    ensures others { (outside : ℕ → Bool) (left : ℕ) (sum : Sum) (ident rest : List ℕ) →
        IsVint ident → length ident ≤ 4 → length ident ≤ left →
        outside (number_of ident) ≡ false →
        element_in outside left sum (ident ++ rest) ≡ element_read left sum (ident ++ rest) }
    ensures read { (outside : ℕ → Bool) (left : ℕ) (sum : Sum) (text : List ℕ)
        (p : (Element × Sum) × List ℕ) → element_in outside left sum text ≡ Ok p →
        (element_read left sum text ≡ Ok p) × (outside p.0.0.ident ≡ false) }
{}

/// The bytes of a header that is read, without some of the last, end when more are wanted.
pub fn shorter_header_wants_more_bytes()
    ensures { (left : ℕ) (sum : Sum) (xs ys : List ℕ) (p : Element × Sum) → 0 < length ys →
        element_read left sum (xs ++ ys) ≡ Ok (p, []) →
        element_read left sum xs ≡ Err (Short Looked) }
{}

/// Known sizes, some of the standard's own (RFC 8794, 4.4 and 6.2); and two parts of a file from
/// outside, its EBML header and the content of its Cluster, which begins with a CRC-32.
pub fn known_elements_read_as_expected()
    ensures two { (size_of (0x82 ∷ []) ≡ Some 2) × (size_of (0x40 ∷ 0x02 ∷ []) ≡ Some 2)
        × (size_of (0x20 ∷ 0 ∷ 0x02 ∷ []) ≡ Some 2)
        × (size_of (0x10 ∷ 0 ∷ 0 ∷ 0x02 ∷ []) ≡ Some 2) }
    ensures ends { (size_of (0x80 ∷ []) ≡ Some 0) × (size_of (0xFE ∷ []) ≡ Some 126)
        × (size_of (0xFF ∷ []) ≡ None) × (size_of (0x40 ∷ 0x7F ∷ []) ≡ Some 127)
        × (size_of (0x7F ∷ 0xFF ∷ []) ≡ None) }
    ensures header { element_read 40 Sum.Absent header_row ≡ Ok (
      (
        record {
          ident = 0x1A45DFA3;
          size = Some 35;
          left = 0;
        },
        Sum.Absent,
      ),
      header_content,
    ) }
    ensures fields { (found 0x4282 header_content ≡ Ok (Some (codes "matroska")))
        × (found 0x4285 header_content ≡ Ok (Some (0x02 ∷ [])))
        × (found 0xEC header_content ≡ Ok None) }
    ensures told { content_told cluster_row ≡ Ok tt }
    ensures passed { content_passed 34 cluster_row ≡ Ok (tt, []) }
    ensures changed { content_told (slice_set cluster_row 31 1) ≡ Err Fault.Checksum }
{}

/// Content that is passed is judged as it is in memory, whatever comes after it.
pub fn passed_content_is_judged_alike()
    ensures good { (content rest : List ℕ) → content_told content ≡ Ok tt →
        content_passed (length content) (content ++ rest) ≡ Ok (tt, rest) }
    ensures bad { (content rest : List ℕ) (f : FileFault) → content_told content ≡ Err f →
        (left : List ℕ) × (content_passed (length content) (content ++ rest) ≡ Err (Met f left)) }
{}
