//! Laws of what a decoder hands to a sink, each the contract of a function that does nothing.

ghost use Rattle.std.specs.Prelude.{◌≡◌, ◌≢◌, ℕ, ◌+◌, true, false, Err, List, [], ◌∷◌, ◌++◌, map};
ghost use Rattle.std.specs.List.{flat_map, range_with_len};
ghost use Rattle.std.proofs.Common.{get_or};
ghost use Rattle.ffv1_wire.specs.Runs.{Grows, Line, places_in};
ghost use Rattle.ffv1_range.specs.declared.tally.Tally.{Tally};
ghost use Rattle.ffv1_record.specs.Accepted.{Accepted, IsAccepted};
ghost use Rattle.ffv1_record.specs.Configuration.{is_rct};
ghost use Rattle.ffv1_slice.specs.Grid.{division_of};
ghost use Rattle.ffv1_frame.specs.declared.fault.CodecFault.TheVariants as fault;
ghost use Rattle.ffv1_frame.specs.declared.fault.FrameFault.{FrameFault};
ghost use Rattle.ffv1_frame.specs.Picture.{AreOf, Fits, Planes, plane_height, plane_width};
ghost use Rattle.ffv1_frame.specs.Lines.{line_in, lines_of, places_of};
ghost use Rattle.ffv1_frame.specs.Order.{Event, events_of};
ghost use Rattle.ffv1_frame.specs.Runs.{Runs};
ghost use Rattle.ffv1_frame.specs.Answer.{Answers};
ghost use Rattle.ffv1_frame.specs.Decoding as decoding;
ghost use Rattle.ffv1_frame.specs.Decoding.{Decodes, Offers, State, StepsBy, at_first, top_of};
ghost use Rattle.ffv1_frame.specs.Turns.{RefusesInTurn, TakesInTurn};
ghost use Rattle.ffv1_frame.specs.Kept.{Dropped, Drops, DropsNot, IsLine, Keeps, KeepsNot, Kept};

use crate::laws;
use ffv1_line::laws as line_laws;
use ffv1_wire::LineSink;

/// A line that decoding comes to, and that is handed over next, is a line of the configuration: it
/// is of one of its planes, inside its height, and as long as the plane is wide.
pub fn offered_lines_fit_the_configuration()
    ensures { (a : Accepted) (coded : ℕ → List ℕ) (r i p y : ℕ) (t : State) →
        IsAccepted a.configuration a.table → Offers a coded r i p y t →
        IsLine (division_of a.configuration) p (top_of a.configuration p r + y)
        (get_or t.out i []) }
{
    line_laws::agreeing_cells_code_rows_alike();
    line_laws::suiting_residuals_have_symbols();
    laws::planes_are_divided_part_by_part();
}

/// So a sink of the configuration's own lines refuses none: no answer is its fault, whether the
/// lines are kept or dropped.
pub fn sinks_of_own_lines_refuse_none()
    ensures kept { (a : Accepted) (payload : List ℕ) (old new : Kept) (tally : Tally)
        (f : FrameFault) → IsAccepted a.configuration a.table →
        Answers Keeps KeepsNot a payload old new tally (Err f) →
        old.grid ≡ division_of a.configuration → f.fault ≢ fault.Sink }
    ensures dropped { (a : Accepted) (payload : List ℕ) (old new : Dropped) (tally : Tally)
        (f : FrameFault) → IsAccepted a.configuration a.table →
        Answers Drops DropsNot a payload old new tally (Err f) →
        old.grid ≡ division_of a.configuration → f.fault ≢ fault.Sink }
{
    laws::sink::offered_lines_fit_the_configuration();
}

/// A sink of the configuration's own lines that kept those of a picture has its planes; and
/// whatever lines it kept, its grid, the sizes of its planes and its count are as they were.
pub fn kept_lines_make_up_the_picture()
    ensures picture { (a : Accepted) (planes : Planes) (old new : Kept) →
        IsAccepted a.configuration a.table → Fits a.configuration planes →
        old.grid ≡ division_of a.configuration → AreOf old.grid old.planes →
        Grows Keeps old (lines_of a.configuration planes) new →
        (new.planes ≡ planes) × (new.grid ≡ old.grid) × (new.failures ≡ old.failures) }
    ensures lines { (old new : Kept) (lines : List Line) → AreOf old.grid old.planes →
        Grows Keeps old lines new →
        (new.grid ≡ old.grid) × AreOf new.grid new.planes × (new.failures ≡ old.failures) }
{
    laws::planes_are_divided_part_by_part();
}

/// Where the lines stand that are handed over, and in which order, depends on the configuration
/// alone: the planes and rows of the lines of any picture. Whatever the bytes say, the lines so far
/// are a beginning of that order, and the line that is handed over next is the next of it. At the
/// end they are all of it. For RCT without transparency the order is red, green and blue of each
/// row, the rows from the top.
pub fn lines_are_handed_in_turn()
    ensures lines { (a : Accepted) (planes : Planes) →
        lines_of a.configuration planes
        ≡ map (λ (k : ℕ × ℕ). line_in a.configuration planes k.1 k.0) (places_of a.configuration) }
    ensures picture { (a : Accepted) (planes : Planes) →
        places_in (lines_of a.configuration planes) ≡ places_of a.configuration }
    ensures begun { (a : Accepted) (coded : ℕ → List ℕ) (before after : List Event) (t : State) →
        events_of a.configuration ≡ before ++ after →
        Runs (StepsBy a coded) (at_first a.configuration) before t →
        (rest : List (ℕ × ℕ)) × (places_in t.lines ++ rest ≡ places_of a.configuration) }
    ensures offered { (a : Accepted) (coded : ℕ → List ℕ) (r i p y : ℕ) (t : State) →
        Offers a coded r i p y t → (rest : List (ℕ × ℕ))
        × (places_in t.lines ++ ((p, top_of a.configuration p r + y) ∷ rest)
        ≡ places_of a.configuration) }
    ensures refused { (a : Accepted) (coded : ℕ → List ℕ) (f : FrameFault) (t : State) →
        decoding.Refuses a coded f t → (rest : List (ℕ × ℕ))
        × (places_in t.lines ++ rest ≡ places_of a.configuration) }
    ensures decoded { (a : Accepted) (coded : ℕ → List ℕ) (t : State) → Decodes a coded t →
        places_in t.lines ≡ places_of a.configuration }
    ensures colours { (a : Accepted) → IsAccepted a.configuration a.table →
        is_rct a.configuration.colour ≡ true → a.configuration.extra_plane ≡ false →
        places_of a.configuration
        ≡ flat_map (λ y. (0, y) ∷ (1, y) ∷ (2, y) ∷ [])
        (range_with_len 0 a.configuration.height) }
{
    laws::planes_are_divided_part_by_part();
}

/// For RCT each plane is as wide and as high as the picture.
pub fn rct_planes_have_the_picture_size()
    ensures wide { (a : Accepted) (p : ℕ) → IsAccepted a.configuration a.table →
        is_rct a.configuration.colour ≡ true →
        plane_width a.configuration p ≡ a.configuration.width }
    ensures high { (a : Accepted) (p : ℕ) → IsAccepted a.configuration a.table →
        is_rct a.configuration.colour ≡ true →
        plane_height a.configuration p ≡ a.configuration.height }
{
    laws::planes_are_divided_part_by_part();
}

/// Whatever the payload, a fault that is answered is the sink's exactly if the sink refused a line.
/// After a beginning of the lines it refused the one that came next, a line of the configuration,
/// and the fault names its plane and its row. After any other fault it took a beginning of the
/// lines, and refused none.
pub fn sink_fault_is_a_refused_line<S: LineSink>()
    ensures sink { (a : Accepted) (payload : List ℕ) (old new : S) (tally : Tally)
        (f : FrameFault) → IsAccepted a.configuration a.table →
        Answers S.takes S.refuses a payload old new tally (Err f) → f.fault ≡ fault.Sink →
        RefusesInTurn S.takes S.refuses a.configuration old new f.plane f.line }
    ensures other { (a : Accepted) (payload : List ℕ) (old new : S) (tally : Tally)
        (f : FrameFault) → Answers S.takes S.refuses a payload old new tally (Err f) →
        f.fault ≢ fault.Sink → TakesInTurn S.takes a.configuration old new }
{
    laws::sink::offered_lines_fit_the_configuration();
}
