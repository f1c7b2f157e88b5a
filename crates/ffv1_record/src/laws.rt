//! Laws of the definitions, each the contract of a function that does nothing.

ghost use Rattle.std.specs.Prelude.{Err, true, false, [], slice_index_or, ◌≡◌, ◌↔◌, ℕ, ◌*◌, ◌^◌};
ghost use Rattle.std.specs.Prelude.{◌<◌, ◌≤◌, ◌≢◌, ◌⊎◌, ◌++◌, List, length, bit_xor};
ghost use Rattle.std.specs.List.{Contains};
ghost use Rattle.ffv1_range.specs.Codes.{AreBytes, value, digits};
ghost use Rattle.ffv1_record.specs.Configuration.{Configuration};
ghost use Rattle.ffv1_record.specs.Parity.{remainder_of, parity_of};
ghost use Rattle.ffv1_range.specs.Table.{Table, IsTable};
ghost use Rattle.ffv1_plane.specs.Quantisation.{IsSet};
ghost use Rattle.ffv1_record.specs.declared.config.Coder.TheVariants as coder;
ghost use Rattle.ffv1_record.specs.declared.config.Colour.TheVariants as colour;
ghost use Rattle.ffv1_record.specs.declared.fault.RecordFault.{RecordFault};
ghost use Rattle.ffv1_record.specs.Sets.{AreSets, most_contexts};
ghost use Rattle.ffv1_record.specs.declared.config.Profile.{Profile};
ghost use Rattle.ffv1_record.specs.declared.config.Profile.TheVariants as profile;
ghost use Rattle.ffv1_record.specs.Accepted.{IsAccepted, IsTableFor, AreMultiples, AreReached};
ghost use Rattle.ffv1_record.specs.Accepted.{are_multiples, IsFirstIn, PassesIn, PassesAll, checks};
ghost use Rattle.ffv1_record.specs.Accepted.{least_coder};
ghost use Rattle.ffv1_record.specs.Writable.{IsWritable};
ghost use Rattle.ffv1_record.specs.Order.{FirstBad, IsRefusedBy, in_order};
ghost use Rattle.ffv1_record.specs.Reading.{beginning, parameters, IsRefused, IsRefusedBeforeSets};
ghost use Rattle.ffv1_record.specs.Reading.{ReachesSets};
ghost use Rattle.ffv1_record.specs.Record.{IsRecord, record_of, body_of};

use crate::laws;

/// Bytes followed by four more have the remainder 0 exactly if the four are their parity, big
/// end first; and the parity of bytes is 0 exactly if their remainder is.
pub fn parity_makes_the_remainder_zero()
    ensures stored { (bytes : List ℕ) (n : ℕ) → AreBytes bytes → n < 2 ^ 32 →
        (remainder_of (bytes ++ digits 4 n) ≡ 0) ↔ (n ≡ parity_of bytes) }
    ensures zero { (bytes : List ℕ) → AreBytes bytes →
        (parity_of bytes ≡ 0) ↔ (remainder_of bytes ≡ 0) }
    ensures small { (bytes : List ℕ) → AreBytes bytes → remainder_of bytes < 2 ^ 32 }
    ensures small_parity { (bytes : List ℕ) → AreBytes bytes → parity_of bytes < 2 ^ 32 }
{}

/// The remainder of a sum, place by place, of bytes is the sum of the remainders.
pub fn remainders_add_place_by_place()
    ensures { (xs ys zs : List ℕ) → length xs ≡ length zs → length ys ≡ length zs →
        value zs (length zs) ≡ bit_xor (value xs (length xs)) (value ys (length ys)) →
        remainder_of zs ≡ bit_xor (remainder_of xs) (remainder_of ys) }
{}

/// Bytes that differ, and only within 32 neighbouring bits, have different remainders.
pub fn bursts_change_the_remainder()
    ensures { (xs ys : List ℕ) (bits place : ℕ) → AreBytes xs → AreBytes ys →
        length xs ≡ length ys → 0 < bits → bits < 2 ^ 32 →
        bit_xor (value xs (length xs)) (value ys (length ys)) ≡ bits * 2 ^ place →
        remainder_of xs ≡ remainder_of ys → ⊥ }
{}

/// Two runs of bytes whose remainders are 0 have the remainder 0 together.
pub fn remainder_of_sound_bytes_in_a_row_is_zero()
    ensures { (xs ys : List ℕ) → AreBytes ys → 4 ≤ length xs → 4 ≤ length ys →
        remainder_of xs ≡ 0 → remainder_of ys ≡ 0 → remainder_of (xs ++ ys) ≡ 0 }
{}

/// What is written of a configuration is its record, whatever the configuration.
pub fn written_bytes_are_a_record()
    ensures { (c : Configuration) → IsRecord (record_of c) c }
{
    laws::parity_makes_the_remainder_zero();
}

/// What is written of an accepted configuration is read: it is its record, and no fault stands in
/// it in a profile whose checks it passes.
pub fn written_record_is_read_back()
    ensures stored { (c : Configuration) (t : Table) → IsAccepted c t → IsRecord (record_of c) c }
    ensures none { (p : Profile) (c : Configuration) (t : Table) (most : ℕ) (f : RecordFault) →
        IsAccepted c t → PassesAll p checks c →
        c.depth ≤ most → IsRefused p most (record_of c) c.width c.height f → ⊥ }
{
    laws::written_bytes_are_a_record();
}

/// Bytes are a record of one accepted configuration of a size at most, and that has one state
/// transition table.
pub fn record_has_one_configuration()
    ensures one { (bytes : List ℕ) (c d : Configuration) (t u : Table) → AreBytes bytes →
        IsAccepted c t → IsAccepted d u → c.width ≡ d.width → c.height ≡ d.height →
        IsRecord bytes c → IsRecord bytes d → c ≡ d }
    ensures table { (c : Configuration) (t u : Table) → IsAccepted c t → IsAccepted c u → t ≡ u }
{}

/// A fault that stands before the first set is answered whatever memory there is: the bytes are
/// refused with it, and `read_record` answers `OutOfMemory` for no such bytes.
pub fn faults_before_sets_need_no_memory()
    ensures refused { (p : Profile) (most : ℕ) (bytes : List ℕ) (width height : ℕ)
        (f : RecordFault) →
        IsRefusedBeforeSets p most bytes f → IsRefused p most bytes width height f }
    ensures apart { (p : Profile) (most : ℕ) (bytes : List ℕ) (f : RecordFault) →
        AreBytes bytes → ReachesSets p most bytes → IsRefusedBeforeSets p most bytes f → ⊥ }
{}

/// Bytes are refused for one reason at most in a profile, and none that are a record of an accepted
/// configuration, of a depth up to the greatest one, that passes the checks of the profile.
pub fn bytes_are_refused_for_one_reason()
    ensures one { (p : Profile) (most : ℕ) (bytes : List ℕ) (width height : ℕ)
        (f g : RecordFault) → AreBytes bytes →
        IsRefused p most bytes width height f → IsRefused p most bytes width height g → f ≡ g }
    ensures none { (p : Profile) (most : ℕ) (bytes : List ℕ) (c : Configuration) (t : Table)
        (f : RecordFault) → AreBytes bytes → IsAccepted c t → PassesAll p checks c →
        c.depth ≤ most → IsRecord bytes c → IsRefused p most bytes c.width c.height f → ⊥ }
{}

/// Which fault `Config::check` tells, and in a profile `Config::check_in`: one of its own eight,
/// the one of which the configuration does not meet what it has to, and none of the faults of
/// reading.
pub fn first_fault_is_an_unmet_check()
    ensures named { (p : Profile) (c : Configuration) (f : RecordFault) →
        IsFirstIn p checks c f → Contains checks f }
    ensures fails { (p : Profile) (c : Configuration) (f : RecordFault) →
        IsFirstIn p checks c f → PassesIn p f c → ⊥ }
    ensures passes { (p : Profile) (c : Configuration) (f : RecordFault) →
        PassesAll p checks c → IsFirstIn p checks c f → ⊥ }
{}

/// What passes the checks of `Strict` passes those of `Wide`: multiples of the chroma factor leave
/// no column and no line of chroma out.
pub fn strict_checks_are_the_narrower()
    ensures edges { (size count log2 : ℕ) → 0 < count → count ≤ size →
        AreMultiples size count log2 → AreReached size count log2 }
    ensures wide { (c : Configuration) →
        PassesAll profile.Strict checks c → PassesAll profile.Wide checks c }
    ensures decided { (size count log2 : ℕ) →
        (are_multiples size count log2 ≡ true) ↔ AreMultiples size count log2 }
{}

/// What holds of a configuration that was checked, in numbers.
pub fn accepted_configuration_is_in_range()
    ensures sizes { (c : Configuration) (t : Table) → IsAccepted c t →
        (1 ≤ c.width) × (c.width ≤ 8192) × (1 ≤ c.height) × (c.height ≤ 8192) }
    ensures depth { (c : Configuration) (t : Table) → IsAccepted c t →
        (8 ≤ c.depth) × (c.depth ≤ 16) }
    ensures factors { (c : Configuration) (t : Table) → IsAccepted c t →
        (c.log2_h ≤ 2) × (c.log2_v ≤ 2) }
    ensures columns { (c : Configuration) (t : Table) → IsAccepted c t →
        (1 ≤ c.columns) × (c.columns ≤ 32) × (c.columns ≤ c.width) }
    ensures rows { (c : Configuration) (t : Table) → IsAccepted c t →
        (1 ≤ c.rows) × (c.rows ≤ 32) × (c.rows ≤ c.height) }
    ensures edges { (c : Configuration) (t : Table) → IsAccepted c t →
        AreReached c.width c.columns c.log2_h × AreReached c.height c.rows c.log2_v }
    ensures sets { (c : Configuration) (t : Table) → IsAccepted c t →
        (1 ≤ length c.sets) × (length c.sets ≤ 8) × AreSets c.sets }
{}

/// What holds of the planes, sets and table of a configuration that was checked.
pub fn accepted_configuration_has_sound_parts()
    ensures rct { (c : Configuration) (t : Table) → IsAccepted c t → c.colour ≡ colour.Rct →
        (c.chroma_planes ≡ true) × (c.log2_h ≡ 0) × (c.log2_v ≡ 0) }
    ensures depth { (c : Configuration) (t : Table) → IsAccepted c t →
        (c.depth ≤ 14) ⊎ (c.depth ≡ 16) }
    ensures luma { (c : Configuration) (t : Table) → IsAccepted c t → c.chroma_planes ≡ false →
        (c.colour ≡ colour.YCbCr) × (c.log2_h ≡ 0) × (c.log2_v ≡ 0) × (c.extra_plane ≡ false) }
    ensures set { (c : Configuration) (t : Table) (k : ℕ) → IsAccepted c t → k < length c.sets →
        IsSet (slice_index_or c.sets k []) }
    ensures most { (c : Configuration) (t : Table) → IsAccepted c t →
        most_contexts c.sets ≤ 32768 }
    ensures coder { (c : Configuration) (t : Table) → IsAccepted c t →
        IsTableFor c.coder t × IsTable t.floor t.one × IsWritable c.coder }
    ensures rice { (c : Configuration) (t : Table) → IsAccepted c t → c.coder ≡ coder.Rice →
        c.depth ≡ 8 }
    ensures strict { (c : Configuration) → PassesAll profile.Strict checks c →
        c.coder ≢ coder.Rice }
{}

/// The first parameter that is not good, in the order of the record, is the fault that is answered:
/// if the bytes code good symbols of all parameters before it, and then symbols that are a fault
/// in its place. And the other way round: a reading of parameters that is refused has such a first
/// one, and so has a record that is refused for nothing else.
pub fn first_bad_parameter_is_the_fault()
    ensures read { (p : Profile) (most : ℕ) (bytes : List ℕ) (width height bits : ℕ)
        (c : Configuration) (f : RecordFault) →
        AreBytes bytes → FirstBad (in_order (least_coder p) most) bytes [] bits c f →
        parameters (least_coder p) most width height bytes beginning (Err f) }
    ensures refused { (p : Profile) (most : ℕ) (bytes : List ℕ) (width height bits : ℕ)
        (c : Configuration) (f : RecordFault) →
        AreBytes bytes → 5 ≤ length bytes → remainder_of bytes ≡ 0 →
        FirstBad (in_order (least_coder p) most) (body_of bytes) [] bits c f →
        IsRefused p most bytes width height f }
    ensures found { (p : Profile) (most : ℕ) (bytes : List ℕ) (width height : ℕ)
        (f : RecordFault) →
        parameters (least_coder p) most width height bytes beginning (Err f) →
        (bits : ℕ) × (c : Configuration)
        × FirstBad (in_order (least_coder p) most) bytes [] bits c f }
    ensures because { (p : Profile) (most : ℕ) (bytes : List ℕ) (width height : ℕ)
        (f : RecordFault) →
        IsRefused p most bytes width height f → IsRefusedBy p most bytes width height f }
{}
