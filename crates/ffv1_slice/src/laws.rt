//! Laws of the definitions, each the contract of a function that does nothing.

ghost use Rattle.std.specs.Prelude.{◌≡◌, ℕ, ◌+◌, ◌*◌, ◌^◌, ◌<◌, ◌≤◌, ◌++◌, Bool, true, List};
ghost use Rattle.std.specs.Prelude.{Result, Ok, length, slice_index};
ghost use Rattle.std.proofs.Common.{suc};
ghost use Rattle.ffv1_range.specs.Codes.{AreBytes};
ghost use Rattle.ffv1_range.specs.Table.{Table, IsTable};
ghost use Rattle.ffv1_range.specs.Symbols.{Step};
ghost use Rattle.ffv1_record.specs.declared.config.Profile.{Profile};
ghost use Rattle.ffv1_record.specs.Configuration.{Configuration};
ghost use Rattle.ffv1_record.specs.declared.config.Profile.TheVariants as profile;
ghost use Rattle.ffv1_record.specs.Accepted.{AreMultiples, IsAccepted, PassesAll, checks};
ghost use Rattle.ffv1_slice.specs.declared.cutting.CutFault.{CutFault};
ghost use Rattle.ffv1_slice.specs.declared.fault.SliceFault.{SliceFault};
ghost use Rattle.ffv1_slice.specs.declared.head.SliceHead.{SliceHead};
ghost use Rattle.ffv1_record.specs.Parity.{remainder_of};
ghost use Rattle.ffv1_slice.specs.Footer.{footer_of, foot_length};
ghost use Rattle.ffv1_slice.specs.Cutting.{IsCutting, Cuts, CutsTo, IsRefused};
ghost use Rattle.ffv1_slice.specs.Cutting.{joined_of, offset_in, AreCodedBytes, AreCodedIn};
ghost use Rattle.ffv1_slice.specs.Grid.{Side, IsDivided, begin_of, length_of, whole_of, Lies};
ghost use Rattle.ffv1_slice.specs.Grid.{first_of, coded_of, shared_of};
ghost use Rattle.ffv1_slice.specs.Grid.{Division, IsDivision, CoversOnce, across, down};
ghost use Rattle.ffv1_slice.specs.Grid.{division_of, slices_in, CodedBy, Covers};
ghost use Rattle.ffv1_slice.specs.Head.{CodesHead, RefusesHead, IsHead, Stops, head_rules};
ghost use Rattle.ffv1_slice.specs.Head.{head_steps};
ghost use Rattle.ffv1_slice.specs.Length.{head_most, numbers_most};

use crate::laws;
use ffv1_record::laws as record_laws;

/// A payload has one cutting at most.
pub fn payload_has_one_cutting()
    ensures { (payload : List ℕ) (foot count : ℕ) (xs ys : ℕ → ℕ) →
        IsCutting payload foot count xs → IsCutting payload foot count ys → (s : ℕ) → s ≤ count →
        xs s ≡ ys s }
{}

/// A payload is cut in exactly one way: to the offsets of its slices, or it is refused, for one
/// fault in one slice. If it has a cutting whose slices are sound, these are its offsets, and it
/// is not refused.
pub fn payload_is_cut_in_one_way()
    ensures some { (c : Configuration) (payload : List ℕ) →
        (r : Result (List ℕ) CutFault) × CutsTo c payload r }
    ensures one { (c : Configuration) (payload : List ℕ) (r s : Result (List ℕ) CutFault) →
        CutsTo c payload r → CutsTo c payload s → r ≡ s }
    ensures only { (c : Configuration) (payload : List ℕ) (spans : ℕ → ℕ) → Cuts c payload spans →
        (os : List ℕ) × CutsTo c payload (Ok os)
        × ((s : ℕ) → s ≤ c.columns * c.rows → slice_index os s ≡ spans s) }
    ensures refused { (c : Configuration) (payload : List ℕ) (spans : ℕ → ℕ) (f : CutFault) →
        IsRefused c payload f → Cuts c payload spans → ⊥ }
{}

/// With parity, a payload that is a row of sound slices has the remainder 0 as a whole.
pub fn payload_of_sound_slices_has_remainder_zero()
    ensures { (c : Configuration) (payload : List ℕ) (spans : ℕ → ℕ) → AreBytes payload →
        c.ec ≡ true → Cuts c payload spans → remainder_of payload ≡ 0 }
{
    record_laws::remainder_of_sound_bytes_in_a_row_is_zero();
}

/// Coded bytes with their footers, one slice's after the other's, are cut where they were joined.
pub fn slices_are_cut_where_joined()
    ensures cuts { (c : Configuration) (codes : List (List ℕ)) → AreCodedBytes codes →
        length codes ≡ c.columns * c.rows → Cuts c (joined_of c.ec codes) (offset_in c.ec codes) }
    ensures coded { (ec : Bool) (codes : List (List ℕ)) → AreCodedBytes codes →
        AreCodedIn (joined_of ec codes) (foot_length ec) (offset_in ec codes) codes }
{
    laws::footer_has_its_length_and_parity();
}

/// The parts of a side stand one after the other, from 0 to its end, and none is empty.
pub fn parts_follow_one_another()
    ensures first { (s : Side) → IsDivided s → begin_of s 0 ≡ 0 }
    ensures next { (s : Side) (k : ℕ) → IsDivided s → k < s.count →
        begin_of s k + length_of s k ≡ begin_of s (suc k) }
    ensures last { (s : Side) → IsDivided s → begin_of s s.count ≡ whole_of s }
    ensures some { (s : Side) (k : ℕ) → IsDivided s → k < s.count → 0 < coded_of s k }
    ensures few { (s : Side) (k : ℕ) → IsDivided s → k < s.count →
        (first_of s k ≤ begin_of s k) × (shared_of s k ≤ 1) }
    ensures coded { (s : Side) (k : ℕ) → IsDivided s → k < s.count →
        first_of s k + coded_of s k ≤ whole_of s }
    ensures one { (s : Side) (x : ℕ) → IsDivided s → x < whole_of s → (k : ℕ) × Lies s x k
        × ((other : ℕ) → Lies s x other → other ≡ k) }
    ensures inside { (s : Side) (x k : ℕ) → IsDivided s → Lies s x k → x < whole_of s }
{}

/// Each sample of a plane is of one slice, whose cell has it, and no cell has anything else. Of two
/// cells that have it, it is of the upper or left one.
pub fn cells_tile_their_plane()
    ensures across { (d : Division) (p : ℕ) → IsDivision d → IsDivided (across d p) }
    ensures down { (d : Division) (p : ℕ) → IsDivision d → IsDivided (down d p) }
    ensures covered { (d : Division) (p x y : ℕ) → IsDivision d → x < whole_of (across d p) →
        y < whole_of (down d p) → CoversOnce d p x y }
    ensures inside { (d : Division) (p n x y : ℕ) → IsDivision d → Covers d p n x y →
        (x < whole_of (across d p)) × (y < whole_of (down d p)) }
    ensures coded { (d : Division) (p n x y : ℕ) → IsDivision d → Covers d p n x y →
        CodedBy d p n x y }
    ensures within { (d : Division) (p n x y : ℕ) → IsDivision d → CodedBy d p n x y →
        (x < whole_of (across d p)) × (y < whole_of (down d p)) }
{}

/// A footer is as long as a configuration says, and with its parity a slice has the remainder 0.
pub fn footer_has_its_length_and_parity()
    ensures long { (ec : Bool) (bytes : List ℕ) → length (footer_of ec bytes) ≡ foot_length ec }
    ensures whole { (bytes : List ℕ) → AreBytes bytes →
        remainder_of (bytes ++ footer_of true bytes) ≡ 0 }
{
    record_laws::parity_makes_the_remainder_zero();
}

/// A head takes few decisions, and so do numbers in the place of a head up to the first that is
/// refused.
pub fn head_takes_few_decisions()
    ensures head { (p : Profile) (c : Configuration) (t : Table) (n : ℕ) (h : SliceHead) →
        IsAccepted c t →
        IsHead p c h → n < c.columns * c.rows → length (head_steps c n h) ≤ head_most c }
    ensures refused { (p : Profile) (c : Configuration) (n before : ℕ) (f : SliceFault)
        (steps : List Step) →
        Stops (head_rules p c n) before f steps → length steps ≤ numbers_most c }
{
    record_laws::accepted_configuration_is_in_range();
}

/// Pictures of a configuration that was checked are divided so.
pub fn accepted_pictures_are_divided()
    ensures { (c : Configuration) (t : Table) → IsAccepted c t → IsDivision (division_of c) }
{
    record_laws::accepted_configuration_is_in_range();
}

/// Slices of a configuration that was checked in `Strict` have no sample in common.
pub fn strict_slices_share_nothing()
    ensures across { (c : Configuration) (t : Table) (p k : ℕ) → IsAccepted c t →
        PassesAll profile.Strict checks c → k < c.columns →
        shared_of (across (division_of c) p) k ≡ 0 }
    ensures down { (c : Configuration) (t : Table) (p k : ℕ) → IsAccepted c t →
        PassesAll profile.Strict checks c → k < c.rows →
        shared_of (down (division_of c) p) k ≡ 0 }
{
    record_laws::accepted_configuration_is_in_range();
}

/// The parts of a side have no sample in common exactly if each inner edge is a multiple of the
/// factor. Then what is coded of each is what it has alone.
pub fn sides_share_nothing_at_multiples()
    ensures none { (s : Side) (k : ℕ) → 0 < s.count → s.count ≤ s.size →
        AreMultiples s.size s.count s.log2 → k < s.count → shared_of s k ≡ 0 }
    ensures only { (s : Side) → 0 < s.count → s.count ≤ s.size →
        ((k : ℕ) → k < s.count → shared_of s k ≡ 0) → AreMultiples s.size s.count s.log2 }
    ensures same { (s : Side) (k : ℕ) → 0 < s.count → s.count ≤ s.size →
        AreMultiples s.size s.count s.log2 → k < s.count →
        (begin_of s k ≡ first_of s k) × (length_of s k ≡ coded_of s k) }
{}

/// After its key bytes code one head at most, or are refused in one way.
pub fn bytes_code_one_head()
    ensures head { (bytes : List ℕ) (t : Table) (p : Profile) (c : Configuration) (n : ℕ)
        (g h : SliceHead) → AreBytes bytes → IsTable t.floor t.one → n < 2 ^ 31 →
        length c.sets ≤ 8 →
        CodesHead bytes t p c n g → CodesHead bytes t p c n h → g ≡ h }
    ensures apart { (bytes : List ℕ) (t : Table) (p : Profile) (c : Configuration) (n : ℕ)
        (h : SliceHead) (f : SliceFault) (steps : List Step) → AreBytes bytes →
        IsTable t.floor t.one → n < 2 ^ 31 → length c.sets ≤ 8 →
        CodesHead bytes t p c n h → RefusesHead bytes t p c n f steps → ⊥ }
    ensures refusal { (bytes : List ℕ) (t : Table) (p : Profile) (c : Configuration) (n : ℕ)
        (f g : SliceFault) (xs ys : List Step) → AreBytes bytes → IsTable t.floor t.one →
        RefusesHead bytes t p c n f xs → RefusesHead bytes t p c n g ys → (f ≡ g) × (xs ≡ ys) }
{}
