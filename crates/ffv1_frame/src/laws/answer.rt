//! Laws of what a payload is answered, each the contract of a function that does nothing.

ghost use Rattle.std.specs.Prelude.{◌≡◌, ◌≢◌, ◌⊎◌, ℕ, ◌≤◌, true, Result, Ok, Err, List, []};
ghost use Rattle.ffv1_wire.specs.Runs.{Grows};
ghost use Rattle.ffv1_range.specs.declared.tally.Tally.{Tally};
ghost use Rattle.ffv1_range.specs.Codes.{AreBytes};
ghost use Rattle.ffv1_range.specs.History.{decisions_after};
ghost use Rattle.ffv1_range.specs.Symbols.{Step};
ghost use Rattle.ffv1_range.specs.Weight.{AreHeldBy};
ghost use Rattle.ffv1_record.specs.Accepted.{Accepted, IsAccepted, PassesAll, checks};
ghost use Rattle.ffv1_record.specs.declared.config.Profile.TheVariants as profile;
ghost use Rattle.ffv1_range.specs.Standard.{standard};
ghost use Rattle.ffv1_range.specs.Renormalising.{decisions_a_byte};
ghost use Rattle.ffv1_frame.specs.declared.fault.FrameFault.{FrameFault};
ghost use Rattle.ffv1_frame.specs.Picture.{Planes, Fits};
ghost use Rattle.ffv1_frame.specs.SliceList.{Said};
ghost use Rattle.ffv1_frame.specs.Frame.{CodesPicture};
ghost use Rattle.ffv1_frame.specs.Lines.{lines_of};
ghost use Rattle.ffv1_frame.specs.Answer.{Answers, decisions_in, decided_by, no_tally};
ghost use Rattle.ffv1_frame.specs.Answer.{HasDecided, slices_in, cut_fault};
ghost use Rattle.ffv1_frame.specs.Cost.{Costs, HasCost};
ghost use Rattle.ffv1_frame.specs.Handed.{HandsFinishes};
ghost use Rattle.ffv1_frame.specs.Outcome.{CountOf, FaultsOf, RefusesNext, TakesBefore};
ghost use Rattle.ffv1_record.specs.Held.{held_of};
ghost use Rattle.ffv1_record.specs.declared.checked.Held.{Held};
ghost use Rattle.ffv1_frame.specs.Bounds.{most_decisions, most_by_bytes, most_by_standard};
ghost use Rattle.ffv1_frame.specs.Headline.{StandsOnce, AreShort, DecodesTo, Headline};
ghost use Rattle.ffv1_frame.specs.Headline.{StandsAtEachPlace};
ghost use Rattle.ffv1_slice.specs.Cutting.{Cuts, IsRefused};
ghost use Rattle.ffv1_slice.specs.declared.cutting.CutFault.{CutFault};
ghost use Rattle.ffv1_frame.specs.declared.fault.CodecFault.TheVariants as codec_fault;
ghost use Rattle.ffv1_frame.specs.Damage.{IsBurst, HasBurst};
ghost use Rattle.ffv1_frame.specs.DecodeFaults.{is_decode_fault};
ghost use Rattle.ffv1_frame.specs.Decoding as decoding;
ghost use Rattle.ffv1_frame.specs.Decoding.{State, Decodes, Offers, in_slice};

use crate::laws;
use ffv1_line::laws as line_laws;
use ffv1_range::laws as range_laws;
use ffv1_record::laws as record_laws;
use ffv1_slice::laws as slice_laws;
use ffv1_wire::LineSink;

/// The lines of a picture are each row of each plane once, of each plane from the top; they
/// determine its planes; and at each place of the planes stands that line, once, and at no other
/// place any.
pub fn each_line_stands_once()
    ensures rows { (a : Accepted) (planes : Planes) → IsAccepted a.configuration a.table →
        StandsOnce a planes }
    ensures planes { (a : Accepted) (planes others : Planes) → IsAccepted a.configuration a.table →
        Fits a.configuration planes → Fits a.configuration others →
        lines_of a.configuration planes ≡ lines_of a.configuration others → planes ≡ others }
    ensures places { (a : Accepted) (planes : Planes) → IsAccepted a.configuration a.table →
        StandsAtEachPlace a.configuration planes }
{
    laws::planes_are_divided_part_by_part();
}

/// A payload codes one picture at most, with one structure and aspect.
pub fn payload_codes_one_picture()
    ensures { (a : Accepted) (payload : List ℕ) (planes others : Planes) (info other : Said) →
        IsAccepted a.configuration a.table → AreBytes payload →
        CodesPicture a payload planes info → CodesPicture a payload others other →
        (planes ≡ others) × (info ≡ other) }
{
    slice_laws::payload_has_one_cutting();
    laws::decoding::coded_picture_is_decoded();
    laws::decoding::decoding_has_one_end();
    laws::answer::each_line_stands_once();
}

/// If the answer is Ok, the payload codes a picture, whose lines the sink took. A payload that
/// codes a picture is answered Ok, or the sink refused the line that came next.
pub fn answer_is_ok_for_coded_pictures<S: LineSink>()
    ensures found { (a : Accepted) (payload : List ℕ) (old new : S) (tally : Tally) (info : Said) →
        IsAccepted a.configuration a.table →
        Answers S.takes S.refuses a payload old new tally (Ok info) →
        (planes : Planes) × CodesPicture a payload planes info
        × Grows S.takes old (lines_of a.configuration planes) new }
    ensures only { (a : Accepted) (payload : List ℕ) (planes : Planes) (info : Said) (old new : S)
        (tally : Tally) (result : Result Said FrameFault) →
        IsAccepted a.configuration a.table → AreBytes payload →
        CodesPicture a payload planes info →
        Answers S.takes S.refuses a payload old new tally result →
        DecodesTo S.takes S.refuses a old new result planes info }
{
    slice_laws::payload_is_cut_in_one_way();
    laws::decoding::decoded_payload_codes_a_picture();
    laws::decoding::coded_picture_is_decoded();
    laws::decoding::decoding_has_one_end();
}

/// However decoding ends, at its end, at its first fault or at a line that is handed over, few
/// decisions were made; so a tally tells few.
pub fn decoding_makes_few_decisions<S: LineSink>()
    ensures end { (a : Accepted) (coded : ℕ → List ℕ) (t : State) →
        IsAccepted a.configuration a.table → Decodes a coded t →
        decisions_in t ≤ most_decisions a.configuration }
    ensures fault { (a : Accepted) (coded : ℕ → List ℕ) (f : FrameFault) (t : State) →
        IsAccepted a.configuration a.table → decoding.Refuses a coded f t →
        decisions_in t ≤ most_decisions a.configuration }
    ensures offered { (a : Accepted) (coded : ℕ → List ℕ) (r i p y : ℕ) (t : State) →
        IsAccepted a.configuration a.table → Offers a coded r i p y t →
        decisions_in t ≤ most_decisions a.configuration }
    ensures answer { (a : Accepted) (payload : List ℕ) (old new : S) (tally : Tally)
        (result : Result Said FrameFault) → IsAccepted a.configuration a.table →
        Answers S.takes S.refuses a payload old new tally result →
        decided_by tally ≤ most_decisions a.configuration }
{
    record_laws::accepted_configuration_is_in_range();
    line_laws::suiting_residuals_have_symbols();
    line_laws::residual_length_follows_from_digits();
    slice_laws::head_takes_few_decisions();
    range_laws::symbol_length_follows_from_exponent();
    laws::planes_are_divided_part_by_part();
}

/// In `Wide` a tally tells few decisions for the coded bytes of the payload, however decoding ends:
/// at most `decisions_a_byte` for each of them and as many a slice, at least 169, and 63 for each
/// sample of one line of its cell. By the standard's table these are 197 for each and 197 a slice.
pub fn coded_bytes_bound_the_decisions<S: LineSink>()
    ensures table { (a : Accepted) (payload : List ℕ) (old new : S) (tally : Tally)
        (result : Result Said FrameFault) → IsAccepted a.configuration a.table →
        a.profile ≡ profile.Wide → Answers S.takes S.refuses a payload old new tally result →
        decided_by tally ≤ most_by_bytes (decisions_a_byte a.table.floor) a.configuration payload }
    ensures standard { (a : Accepted) (payload : List ℕ) (old new : S) (tally : Tally)
        (result : Result Said FrameFault) → IsAccepted a.configuration a.table →
        a.profile ≡ profile.Wide → a.table ≡ standard →
        Answers S.takes S.refuses a payload old new tally result →
        decided_by tally ≤ most_by_standard a.configuration payload }
{
    record_laws::accepted_configuration_is_in_range();
    line_laws::suiting_residuals_have_symbols();
    line_laws::residual_length_follows_from_digits();
    slice_laws::head_takes_few_decisions();
    range_laws::symbol_length_follows_from_exponent();
    range_laws::renormalisations_bound_the_decisions();
    range_laws::decisions_in_a_row_renormalise();
    laws::planes_are_divided_part_by_part();
}

/// Each decision of a slice has a state that the table holds. What the decisions of a frame cost is
/// told by its tally, however decoding ends: its renormalisations are little more than the weight
/// of the decisions asks for, and little fewer.
pub fn frame_cost_is_near_its_weight<S: LineSink>()
    ensures held { (a : Accepted) (past : List Step) → IsAccepted a.configuration a.table →
        AreHeldBy a.table.floor (decisions_after a.table [] past) }
    ensures state { (a : Accepted) (s : State) (tally : Tally) →
        IsAccepted a.configuration a.table → decisions_in s ≤ most_decisions a.configuration →
        HasDecided a.table s tally → Costs a.table (slices_in s) tally }
    ensures answer { (a : Accepted) (payload : List ℕ) (old new : S) (tally : Tally)
        (result : Result Said FrameFault) → IsAccepted a.configuration a.table →
        Answers S.takes S.refuses a payload old new tally result → HasCost a tally }
{
    record_laws::accepted_configuration_is_in_range();
    range_laws::code_length_is_near_its_weight();
    laws::answer::decoding_makes_few_decisions::<S>();
}

/// Whatever the answer, the sink was handed finishes of lines that the bytes of its slices code,
/// and no other line. This holds before a fault too, and if the sink refused one.
pub fn sink_is_handed_only_coded_lines<S: LineSink>()
    ensures { (a : Accepted) (payload : List ℕ) (old new : S) (tally : Tally)
        (result : Result Said FrameFault) → IsAccepted a.configuration a.table →
        Answers S.takes S.refuses a payload old new tally result →
        HandsFinishes S.takes S.refuses a payload old new }
{
    laws::decoding::handed_lines_finish_coded_lines();
}

/// What decoding makes of a payload, whatever the sink: an answer Ok comes with the payload's
/// count. A fault, if it is not the sink's, comes with what was decided before it, and is the
/// payload's first fault. A payload has one count or one first fault, and no two of them. If a
/// fault is answered, the sink took the lines before the payload's first fault, or it refused a
/// line that came next.
pub fn payload_has_one_outcome<S: LineSink>()
    ensures count { (a : Accepted) (payload : List ℕ) (old new : S) (tally : Tally)
        (info : Said) → Answers S.takes S.refuses a payload old new tally (Ok info) →
        CountOf a payload tally }
    ensures fault { (a : Accepted) (payload : List ℕ) (old new : S) (tally : Tally)
        (f : FrameFault) → f.fault ≢ codec_fault.Sink →
        Answers S.takes S.refuses a payload old new tally (Err f) → FaultsOf a payload f tally }
    ensures lines { (a : Accepted) (payload : List ℕ) (old new : S) (tally : Tally)
        (f : FrameFault) → Answers S.takes S.refuses a payload old new tally (Err f) →
        TakesBefore S.takes a payload f tally old new
        ⊎ ((f.fault ≡ codec_fault.Sink) × RefusesNext S.takes S.refuses a payload old new) }
    ensures one_count { (a : Accepted) (payload : List ℕ) (t u : Tally) →
        IsAccepted a.configuration a.table → AreBytes payload → CountOf a payload t →
        CountOf a payload u → t ≡ u }
    ensures apart { (a : Accepted) (payload : List ℕ) (t u : Tally) (f : FrameFault) →
        IsAccepted a.configuration a.table → AreBytes payload → CountOf a payload t →
        FaultsOf a payload f u → ⊥ }
    ensures one_fault { (a : Accepted) (payload : List ℕ) (t u : Tally) (f g : FrameFault) →
        IsAccepted a.configuration a.table → AreBytes payload → FaultsOf a payload f t →
        FaultsOf a payload g u → (f ≡ g) × (t ≡ u) }
{
    slice_laws::payload_is_cut_in_one_way();
    laws::decoding::decoding_has_one_end();
}

/// Whatever the payload and the sink, a fault that is answered is one of decoding: of cutting it,
/// of a slice's start, key or head, of a symbol or a colour, or the sink's.
pub fn answered_fault_is_of_decoding<S: LineSink>()
    ensures { (a : Accepted) (payload : List ℕ) (old new : S) (tally : Tally) (f : FrameFault) →
        Answers S.takes S.refuses a payload old new tally (Err f) →
        is_decode_fault f.fault ≡ true }
{}

/// A configuration that passes the checks of `Strict` has slices with no sample in common, so that
/// no answer is that two of them say different values of one.
pub fn strict_slices_do_not_differ<S: LineSink>()
    ensures { (a : Accepted) (payload : List ℕ) (old new : S) (tally : Tally) (f : FrameFault) →
        IsAccepted a.configuration a.table → PassesAll profile.Strict checks a.configuration →
        Answers S.takes S.refuses a payload old new tally (Err f) →
        f.fault ≢ codec_fault.Overlap }
{
    slice_laws::strict_slices_share_nothing();
}

/// With parity, a payload that differs from a good one within 32 neighbouring bits of one slice,
/// apart from its slice_size, is answered by the parity of that slice, before any line and any
/// decision.
pub fn damage_is_found_by_parity<S: LineSink>()
    ensures { (a : Accepted) (sent payload : List ℕ) (spans : ℕ → ℕ) (s : ℕ) (old new : S)
        (tally : Tally) (result : Result Said FrameFault) → AreBytes sent → AreBytes payload →
        Cuts a.configuration sent spans → IsBurst a.configuration sent payload spans s →
        Answers S.takes S.refuses a payload old new tally result →
        (result ≡ Err (in_slice codec_fault.SliceParity s)) × (tally ≡ no_tally) × (new ≡ old) }
{
    record_laws::bursts_change_the_remainder();
    slice_laws::payload_is_cut_in_one_way();
}

/// With parity, a payload that differs from a good one within 32 neighbouring bits, wherever these
/// lie, also in sizes and across the borders of slices, is refused when it is cut into slices,
/// before any line and any decision.
pub fn damage_anywhere_is_refused<S: LineSink>()
    ensures { (a : Accepted) (sent payload : List ℕ) (old new : S) (tally : Tally)
        (result : Result Said FrameFault) → AreBytes payload → HasBurst a sent payload →
        Answers S.takes S.refuses a payload old new tally result →
        (f : CutFault) × IsRefused a.configuration payload f × (result ≡ Err (cut_fault f))
        × (tally ≡ no_tally) × (new ≡ old) }
{
    record_laws::bursts_change_the_remainder();
    slice_laws::payload_of_sound_slices_has_remainder_zero();
}

/// What a call of the decoder is for, from its answer, its bytes, and what it holds: one statement,
/// whatever the payload and the sink. That encoded frames are short is the encoder's.
pub fn headline_holds_for_each_answer<S: LineSink>()
    ensures { (a : Accepted) (payload : List ℕ) (old new : S) (result : Result Said FrameFault)
        (tally : Tally) (held : Held) → IsAccepted a.configuration a.table → AreBytes payload →
        AreShort a → Answers S.takes S.refuses a payload old new tally result →
        held ≡ held_of a.configuration →
        Headline S.takes S.refuses a old new result payload tally held }
{
    laws::answer::answer_is_ok_for_coded_pictures::<S>();
    laws::answer::each_line_stands_once();
    laws::encoded_frame_codes_its_picture();
    laws::answer::decoding_makes_few_decisions::<S>();
    laws::answer::coded_bytes_bound_the_decisions::<S>();
}
