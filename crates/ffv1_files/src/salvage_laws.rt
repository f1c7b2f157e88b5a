//! Laws of Matroska files that may be damaged before their first frame: what is told of one says
//! what the file opens as.

ghost use Rattle.std.specs.Prelude.{◌≡◌, ◌∷◌, [], ℕ, List, Err, true};
ghost use Rattle.ffv1_reads.specs.Items.{Given, Tells};
ghost use Rattle.ffv1_reads.specs.Offsets.{FaultAt, offset_after};
ghost use Rattle.ffv1_reads.specs.Reads.{Met, read_on};
ghost use Rattle.ffv1_reads.specs.declared.fault.FileFault.{FileFault};
ghost use Rattle.ffv1_matroska.specs.Offsets.{Start, spot_taken};
ghost use Rattle.ffv1_matroska.specs.SalvageTold.{plainly};
ghost use Rattle.ffv1_matroska.specs.Salvaged.{salvage_read};
ghost use Rattle.ffv1_files.specs.Files.{is_matroska, matroska_begun, once_read};
ghost use Rattle.ffv1_files.specs.Salvaged.{told_of};
ghost use Rattle.ffv1_files.specs.declared.container.Scope.TheVariants as scope;

use ffv1_matroska::salvage_laws as matroska_laws;

/// If nothing is told of a Matroska file before its frames, it opens plainly as the same, in one
/// reading; or it is refused with the same fault, or its bytes end too early. If a fault is told
/// first, it is refused plainly with that fault; and as many bytes of the file come before the
/// element at fault, which are elements that are read whole, as are told.
pub fn what_is_told_says_what_a_file_opens_as()
    ensures none { (file : List ℕ) → is_matroska file ≡ true → told_of file ≡ [] →
        once_read scope.Whole file ≡ read_on (plainly (salvage_read file)) matroska_begun }
    ensures first { (file : List ℕ) (f : FileFault) (offset : ℕ) (others : List Given) →
        is_matroska file ≡ true → told_of file ≡ Tells f offset ∷ others →
        (rest : List ℕ) × (once_read scope.Whole file ≡ Err (Met f rest))
        × (count : ℕ) × FaultAt spot_taken Start file f count × (offset ≡ offset_after 0 count) }
{
    matroska_laws::what_is_told_says_what_plain_reading_meets();
    matroska_laws::the_first_fault_is_told_of_its_element();
}
