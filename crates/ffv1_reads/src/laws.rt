//! Laws of readings.

ghost use Rattle.std.specs.Prelude.{◌≡◌, ◌++◌, ◌<◌, ℕ, List, [], Option, Some, Ok, Err, true};
ghost use Rattle.std.specs.Prelude.{drop, false, length, take};
ghost use Rattle.ffv1_reads.specs.Behind.{begins_file, behind_read};
ghost use Rattle.ffv1_reads.specs.declared.fault.FileFault.TheVariants as fault;
ghost use Rattle.std.specs.Io.KnownBytes.{IsAtEnd};
ghost use Rattle.ffv1_reads.specs.Ends.{Ends, FaultsAtEnd, Stops};
ghost use Rattle.ffv1_reads.specs.Offsets.{FaultAt, Leads, StopsAfter};
ghost use Rattle.ffv1_reads.specs.Reads.{Faults, Lacks, Met, Read, Reading, Short, Want};
ghost use Rattle.ffv1_reads.specs.declared.fault.FileFault.{FileFault};

/// If the bytes are known, a value that a call answers is what they read as, and a fault is the
/// first that they have; what is left is known too. If a read failed, memory was refused or the
/// bytes ended, those that were read end when more are wanted. If the end of the bytes is an
/// answer, all of them read as that; and those that were read before a read failed there do. The
/// same holds if their end has a fault.
pub fn known_bytes_determine_the_answer<X>()
    ensures read { (reading : Reading X) (text : List ℕ) (new : Option (List ℕ)) (x : X) →
        Read reading (Some text) new x →
        (rest : List ℕ) × (new ≡ Some rest) × (reading text ≡ Ok (x, rest)) }
    ensures fault { (reading : Reading X) (text : List ℕ) (new : Option (List ℕ)) (f : FileFault) →
        Faults reading (Some text) new f →
        (rest : List ℕ) × (new ≡ Some rest) × (reading text ≡ Err (Met f rest)) }
    ensures stopped { (reading : Reading X) (text : List ℕ) (new : Option (List ℕ)) (w : Want) →
        Lacks reading (Some text) new w →
        (bytes rest : List ℕ) × (text ≡ bytes ++ rest) × (new ≡ Some rest)
        × (reading bytes ≡ Err (Short w)) }
    ensures ends { (reading : Reading X) (text : List ℕ) (new : Option (List ℕ)) (x : X) →
        Ends reading (Some text) new x → (new ≡ Some []) × (reading text ≡ Ok (x, [])) }
    ensures stops { (reading : Reading X) (text : List ℕ) (new : Option (List ℕ)) (x : X) →
        Stops reading (Some text) new x →
        (bytes rest : List ℕ) × (text ≡ bytes ++ rest) × (new ≡ Some rest)
        × (reading bytes ≡ Ok (x, [])) }
    ensures end_fault { (reading : Reading X) (text : List ℕ) (new : Option (List ℕ))
        (f : FileFault) → FaultsAtEnd reading (Some text) new f → IsAtEnd new →
        (new ≡ Some []) × (reading text ≡ Err (Met f [])) }
    ensures fault_there { (reading : Reading X) (text : List ℕ) (new : Option (List ℕ))
        (f : FileFault) → FaultsAtEnd reading (Some text) new f →
        (bytes rest : List ℕ) × (text ≡ bytes ++ rest) × (new ≡ Some rest)
        × (reading bytes ≡ Err (Met f [])) }
{}

/// If the bytes are known, a call that was refused in an element after others, other than by a
/// read that failed or by memory, says where the fault is. The bytes begin with elements of so many
/// bytes that are read whole, and the next one has the fault. It is the first fault of those bytes,
/// and the only place that they have one at: no other fault comes after as many bytes, nor this one
/// after another number of them.
pub fn refusal_says_where_the_fault_is<S>()
    ensures known { (element : S → Reading S) (from : S) (text : List ℕ) (new : Option (List ℕ))
        (before after : ℕ) (f : FileFault) (to : S) (count : ℕ) →
        StopsAfter element from (record {
          old = Some text;
          new = new;
          before = before;
          after = after;
        }) f to count →
        (f ≡ fault.Read → ⊥) → (f ≡ fault.OutOfMemory → ⊥) → FaultAt element from text f count }
    ensures only { (element : S → Reading S) (from : S) (text : List ℕ) (f g : FileFault)
        (m n : ℕ) → FaultAt element from text f m → FaultAt element from text g n →
        (f ≡ g) × (m ≡ n) }
{}

/// What stands behind the end of a file is looked at so: if nothing is found, the input has ended;
/// another file is refused after its four bytes; any other bytes are told.
pub fn what_stands_behind_is_known()
    ensures nothing { (text rest : List ℕ) → behind_read text ≡ Ok (false, rest) → text ≡ [] }
    ensures another { (bytes more : List ℕ) → begins_file bytes ≡ true →
        behind_read (bytes ++ more) ≡ Err (Met fault.Another more) }
    ensures other { (text : List ℕ) → 0 < length text → begins_file (take 4 text) ≡ false →
        behind_read text ≡ Ok (true, drop 4 text) }
{}
