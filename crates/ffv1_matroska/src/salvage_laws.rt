//! Laws of files that may be damaged before their first frame: what plain reading says of the same
//! bytes.

ghost use Rattle.std.specs.Prelude.{◌≡◌, ◌∷◌, [], ℕ, List, Option, Ok, Err, true};
ghost use Rattle.ffv1_reads.specs.Offsets.{FaultAt};
ghost use Rattle.ffv1_reads.specs.Reads.{Met};
ghost use Rattle.ffv1_reads.specs.declared.fault.FileFault.{FileFault};
ghost use Rattle.ffv1_matroska.specs.Offsets.{Start, spot_taken};
ghost use Rattle.ffv1_matroska.specs.Opened.{Opened, open_read};
ghost use Rattle.ffv1_matroska.specs.SalvageTold.{StandsAfter, plainly, told_before};
ghost use Rattle.ffv1_matroska.specs.Salvaged.{Salvaged, may_be_told, salvage_read};
ghost use Rattle.ffv1_matroska.specs.declared.told.ToldFault.{ToldFault};

/// A file that opens plainly opens as the same, and nothing is told. If it has a fault plainly, and
/// it opens nevertheless, that is the first fault that is told; and it is one of a CRC-32, or of an
/// element that may not stand there.
pub fn the_first_fault_is_told_first()
    ensures sound { (text rest : List ℕ) (o : Opened) → open_read text ≡ Ok (o, rest) →
        (begun : ℕ) × (salvage_read text
        ≡ Ok (record { opened = o; begun = begun; told = [] }, rest)) }
    ensures first { (text rest left : List ℕ) (f : FileFault) (s : Salvaged) →
        open_read text ≡ Err (Met f rest) → salvage_read text ≡ Ok (s, left) →
        (position : Option ℕ) × (others : List ToldFault)
        × (s.told ≡ record { fault = f; position = position } ∷ others)
        × (may_be_told f ≡ true) }
{}

/// What is told of any file says what plain reading comes to. If nothing is told, it comes to the
/// same: the same file, the same fault, or bytes that end too early. If a fault is told first,
/// plain reading is refused with that fault. If the frames begin, what is told are the faults of
/// the answer.
pub fn what_is_told_says_what_plain_reading_meets()
    ensures none { (text : List ℕ) → told_before text ≡ [] →
        open_read text ≡ plainly (salvage_read text) }
    ensures first { (text : List ℕ) (t : ToldFault) (others : List ToldFault) →
        told_before text ≡ t ∷ others →
        (rest : List ℕ) × (open_read text ≡ Err (Met t.fault rest))
        × (may_be_told t.fault ≡ true) }
    ensures all { (text rest : List ℕ) (s : Salvaged) → salvage_read text ≡ Ok (s, rest) →
        told_before text ≡ s.told }
{}

/// The first fault that is told is told of the element at which plain reading is refused: so many
/// bytes of the file come before that, of elements that are read whole, one after the other, and
/// it has that fault. It is the header of EBML, or the one at the position in the Segment that is
/// told.
pub fn the_first_fault_is_told_of_its_element()
    ensures { (text : List ℕ) (t : ToldFault) (others : List ToldFault) →
        told_before text ≡ t ∷ others →
        (count : ℕ) × FaultAt spot_taken Start text t.fault count
        × StandsAfter text t.position count }
{}
