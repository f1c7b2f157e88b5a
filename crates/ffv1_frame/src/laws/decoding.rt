//! Laws of decoding, each the contract of a function that does nothing.

ghost use Rattle.std.specs.Prelude.{◌≡◌, ◌⊎◌, ℕ, ◌+◌, ◌*◌, ◌<◌, ◌≤◌, ◌++◌, ◌∷◌, List, [], length};
ghost use Rattle.std.specs.Prelude.{Some, false};
ghost use Rattle.std.proofs.Common.{get_or};
ghost use Rattle.std.specs.List.{All, sum_by, range_with_len};
ghost use Rattle.ffv1_range.specs.Interval.{interval_of};
ghost use Rattle.ffv1_range.specs.Codes.{AreBytes, value, sentinel_of};
ghost use Rattle.ffv1_range.specs.Ending.{IsEnded};
ghost use Rattle.ffv1_record.specs.declared.config.Profile.TheVariants as profile;
ghost use Rattle.ffv1_record.specs.Accepted.{Accepted, IsAccepted};
ghost use Rattle.ffv1_frame.specs.declared.fault.FrameFault.{FrameFault};
ghost use Rattle.ffv1_slice.specs.Footer.{foot_length};
ghost use Rattle.ffv1_slice.specs.Cutting.{Cuts, coded_of};
ghost use Rattle.ffv1_frame.specs.Picture.{Planes};
ghost use Rattle.ffv1_frame.specs.SliceList.{Said, Line, lines_in};
ghost use Rattle.ffv1_frame.specs.CodedSlice.{CodesSlice, decided_by_slice};
ghost use Rattle.ffv1_record.specs.Accepted.{is_rice};
ghost use Rattle.ffv1_frame.specs.Answer.{slices_in, decisions_in};
ghost use Rattle.ffv1_frame.specs.Known.{CodesRead, IsBegun, ShowSame, cells_of};
ghost use Rattle.ffv1_frame.specs.Handed.{IsFinishOf, offered, slice_of};
ghost use Rattle.ffv1_frame.specs.Frame.{CodesPicture};
ghost use Rattle.ffv1_frame.specs.Lines.{lines_of};
ghost use Rattle.ffv1_frame.specs.Decoding.{State, StepsBy, FaultsWith, Decodes, Refuses, Offers};
ghost use Rattle.ffv1_frame.specs.Decoding.{Slice, at_first, unread};
ghost use Rattle.ffv1_frame.specs.Order.{Event, events_of};
ghost use Rattle.ffv1_frame.specs.Runs.{Runs};

use crate::laws;
use ffv1_line::laws as line_laws;
use ffv1_range::laws as range_laws;
use ffv1_rct::laws as rct_laws;
use ffv1_record::laws as record_laws;
use ffv1_rice::laws as rice_laws;
use ffv1_slice::laws as slice_laws;

/// Decoding has one end at most: it comes to its end in one state, or is refused at one first
/// fault; and after each beginning of its order it stands in one state.
pub fn decoding_has_one_end()
    ensures end { (a : Accepted) (coded : ℕ → List ℕ) (s t : State) →
        IsAccepted a.configuration a.table → ((n : ℕ) → AreBytes (coded n)) →
        Decodes a coded s → Decodes a coded t → s ≡ t }
    ensures apart { (a : Accepted) (coded : ℕ → List ℕ) (s t : State) (f : FrameFault) →
        IsAccepted a.configuration a.table → ((n : ℕ) → AreBytes (coded n)) →
        Decodes a coded s → Refuses a coded f t → ⊥ }
    ensures fault { (a : Accepted) (coded : ℕ → List ℕ) (s t : State) (f g : FrameFault) →
        IsAccepted a.configuration a.table → ((n : ℕ) → AreBytes (coded n)) →
        Refuses a coded f s → Refuses a coded g t → (f ≡ g) × (s ≡ t) }
    ensures beginning { (a : Accepted) (coded : ℕ → List ℕ) (before after : List Event)
        (s t : State) →
        IsAccepted a.configuration a.table → ((n : ℕ) → AreBytes (coded n)) →
        events_of a.configuration ≡ before ++ after →
        Runs (StepsBy a coded) (at_first a.configuration) before s →
        Runs (StepsBy a coded) (at_first a.configuration) before t → s ≡ t }
{
    line_laws::bytes_code_one_row();
    line_laws::reading_its_rows_reads_the_cell();
    rice_laws::bits_begin_with_one_row_of_samples();
    rice_laws::a_row_is_refused_in_one_way();
    slice_laws::bytes_code_one_head();
    range_laws::bytes_code_each_beginning();
    range_laws::bytes_code_one_bit_next();
    range_laws::each_decision_has_a_state();
    record_laws::accepted_configuration_is_in_range();
    record_laws::accepted_configuration_has_sound_parts();
    slice_laws::accepted_pictures_are_divided();
    slice_laws::cells_tile_their_plane();
    slice_laws::parts_follow_one_another();
}

/// What is decoded to its end is a picture that the payload codes: its lines were handed over, and
/// its slices said the same.
pub fn decoded_payload_codes_a_picture()
    ensures { (a : Accepted) (payload : List ℕ) (spans : ℕ → ℕ) (t : State) →
        IsAccepted a.configuration a.table → Cuts a.configuration payload spans →
        Decodes a (coded_of payload (foot_length a.configuration.ec) spans) t →
        (planes : Planes) × (info : Said) × CodesPicture a payload planes info
        × (t.info ≡ Some info) × (t.lines ≡ lines_of a.configuration planes) }
{
    line_laws::agreeing_cells_code_rows_alike();
    line_laws::suiting_residuals_have_symbols();
    laws::planes_are_divided_part_by_part();
}

/// A payload that codes a picture is decoded to its end: its lines are handed over, and its slices
/// say what the picture's do, if it is cut as it has to be.
pub fn coded_picture_is_decoded()
    ensures { (a : Accepted) (payload : List ℕ) (planes : Planes) (info : Said)
        (codes : CodesPicture a payload planes info) (spans : ℕ → ℕ) →
        IsAccepted a.configuration a.table → AreBytes payload →
        ((n : ℕ) → n ≤ a.configuration.columns * a.configuration.rows → spans n ≡ codes.spans n) →
        (t : State) × Decodes a (coded_of payload (foot_length a.configuration.ec) spans) t
        × (t.info ≡ Some info) × (t.lines ≡ lines_of a.configuration planes) }
{
    line_laws::agreeing_cells_code_rows_alike();
    line_laws::suiting_residuals_have_symbols();
    range_laws::bytes_code_each_beginning();
    range_laws::each_decision_has_a_state();
    range_laws::decisions_of_two_parts_join();
    rct_laws::line_transform_is_lists_at_depth();
    rct_laws::transform_is_one_to_one_at_depth();
    rct_laws::transform_stays_in_range_at_depth();
    laws::coded_samples_fit_their_bits();
    laws::planes_are_divided_part_by_part();
}

/// However far decoding has come, each slice is unread, or its bytes code its key, its head and the
/// samples of its first lines. A fault is that of one event, after such a state. At the end the
/// bytes of each slice code all its lines, and what was decided is the sum of what was decided in
/// each slice.
pub fn bytes_code_what_was_decoded()
    ensures begun { (a : Accepted) (coded : ℕ → List ℕ) (before after : List Event) (s : State)
        (n : ℕ) → IsAccepted a.configuration a.table →
        events_of a.configuration ≡ before ++ after →
        Runs (StepsBy a coded) (at_first a.configuration) before s →
        n < a.configuration.columns * a.configuration.rows →
        (get_or (slices_in s) n unread ≡ unread)
        ⊎ IsBegun a coded n (get_or (slices_in s) n unread) }
    ensures refused { (a : Accepted) (coded : ℕ → List ℕ) (f : FrameFault) (t : State) →
        Refuses a coded f t → (before : List Event) × (event : Event) × (after : List Event)
        × (s : State) × (events_of a.configuration ≡ before ++ (event ∷ after))
        × Runs (StepsBy a coded) (at_first a.configuration) before s
        × FaultsWith a coded s event f t }
    ensures whole { (a : Accepted) (coded : ℕ → List ℕ) (t : State) (n : ℕ) →
        IsAccepted a.configuration a.table → Decodes a coded t →
        n < a.configuration.columns * a.configuration.rows →
        CodesRead a coded n (get_or t.done n unread) (lines_in a.configuration n) }
    ensures count { (a : Accepted) (coded : ℕ → List ℕ) (t : State) →
        IsAccepted a.configuration a.table → Decodes a coded t →
        decisions_in t ≡ sum_by (λ n. length (get_or t.done n unread).past)
        (range_with_len 0 (a.configuration.columns * a.configuration.rows)) }
{
    line_laws::agreeing_cells_code_rows_alike();
    line_laws::suiting_residuals_have_symbols();
    laws::planes_are_divided_part_by_part();
}

/// What the bytes of a range coded slice code of its first lines, no others do: one head, and one
/// row of samples for each of the lines.
pub fn bytes_code_one_head_and_lines()
    ensures { (a : Accepted) (coded : ℕ → List ℕ) (n : ℕ) (q r : Slice) (read more : List Line) →
        IsAccepted a.configuration a.table → is_rice a.configuration.coder ≡ false →
        AreBytes (coded n) → n < a.configuration.columns * a.configuration.rows →
        lines_in a.configuration n ≡ read ++ more →
        CodesRead a coded n q read → CodesRead a coded n r read →
        (q.head ≡ r.head) × (q.past ≡ r.past)
        × ShowSame (cells_of a.configuration n q) (cells_of a.configuration n r) read }
{
    line_laws::bytes_code_one_row();
    line_laws::rows_above_roll_down_the_cell();
    line_laws::agreeing_cells_code_rows_alike();
    slice_laws::bytes_code_one_head();
    range_laws::bytes_code_each_beginning();
    range_laws::each_decision_has_a_state();
    range_laws::decisions_of_two_parts_join();
    record_laws::accepted_configuration_is_in_range();
    laws::planes_are_divided_part_by_part();
}

/// At `Wide` no range coded slice begins another: bytes that code a slice, of whatever picture, and
/// more bytes after them code no slice of that number.
pub fn no_slice_begins_another()
    ensures { (a : Accepted) (xs ys : List ℕ) (planes others : Planes) (info said : Said)
        (n : ℕ) → IsAccepted a.configuration a.table → is_rice a.configuration.coder ≡ false →
        a.profile ≡ profile.Wide → AreBytes (xs ++ ys) →
        n < a.configuration.columns * a.configuration.rows →
        CodesSlice xs a planes info n → CodesSlice (xs ++ ys) a others said n → ys ≡ [] }
{
    line_laws::bytes_code_one_row();
    line_laws::rows_above_roll_down_the_cell();
    line_laws::agreeing_cells_code_rows_alike();
    slice_laws::bytes_code_one_head();
    range_laws::bytes_code_each_beginning();
    range_laws::each_decision_has_a_state();
    range_laws::decisions_of_two_parts_join();
    range_laws::ended_bytes_code_their_list();
    record_laws::accepted_configuration_is_in_range();
    laws::planes_are_divided_part_by_part();
}

/// At `Wide` the bytes of a range coded slice are as many as those of the sentinel ending of its
/// decisions, with a number that is no less and at most 254 more; and all bytes that end its
/// decisions code it.
pub fn slices_end_near_the_sentinel_ending()
    ensures near { (a : Accepted) (bytes : List ℕ) (planes : Planes) (info : Said) (n : ℕ)
        (slice : CodesSlice bytes a planes info n) →
        let least = sentinel_of (interval_of (decided_by_slice slice)) in
        IsAccepted a.configuration a.table → is_rice a.configuration.coder ≡ false →
        a.profile ≡ profile.Wide → (length bytes ≡ length least)
        × (value least (length least) ≤ value bytes (length bytes))
        × (value bytes (length bytes) ≤ value least (length least) + 254) }
    ensures others { (a : Accepted) (bytes others : List ℕ) (planes : Planes) (info : Said) (n : ℕ)
        (slice : CodesSlice bytes a planes info n) → is_rice a.configuration.coder ≡ false →
        AreBytes others → IsEnded others (interval_of (decided_by_slice slice)) →
        CodesSlice others a planes info n }
{
    range_laws::each_decision_has_a_state();
    range_laws::ended_bytes_code_their_list();
    range_laws::ended_bytes_are_near_the_sentinel_ending();
}

/// However far decoding has come (to its end, to its first fault, or to a line that is handed over
/// next), each line that was handed over, and that next one, is the finish of a line that the bytes
/// of its slices code. It is made of that line of each slice of its row, and the bytes of the slice
/// code it.
pub fn handed_lines_finish_coded_lines()
    ensures reached { (a : Accepted) (coded : ℕ → List ℕ) (before after : List Event) (s : State) →
        IsAccepted a.configuration a.table → events_of a.configuration ≡ before ++ after →
        Runs (StepsBy a coded) (at_first a.configuration) before s →
        All (IsFinishOf a coded (slice_of s)) s.lines }
    ensures end { (a : Accepted) (coded : ℕ → List ℕ) (t : State) →
        IsAccepted a.configuration a.table → Decodes a coded t →
        All (IsFinishOf a coded (slice_of t)) t.lines }
    ensures fault { (a : Accepted) (coded : ℕ → List ℕ) (f : FrameFault) (t : State) →
        IsAccepted a.configuration a.table → Refuses a coded f t →
        (s : State) × (t.lines ≡ s.lines) × All (IsFinishOf a coded (slice_of s)) s.lines }
    ensures offered { (a : Accepted) (coded : ℕ → List ℕ) (r i p y : ℕ) (t : State) →
        IsAccepted a.configuration a.table → Offers a coded r i p y t →
        All (IsFinishOf a coded (slice_of t))
        (t.lines ++ (offered a.configuration r i p y t ∷ [])) }
{
    line_laws::agreeing_cells_code_rows_alike();
    line_laws::suiting_residuals_have_symbols();
    laws::planes_are_divided_part_by_part();
}
