//! Laws of the definitions, each the contract of a function that does nothing.

ghost use Rattle.std.specs.Prelude.{◌≡◌, ◌≢◌, ◌↔◌, ℕ, ℤ, pos, unsigned_abs, ◌^◌, ◌*◌, ◌-◌, ◌+◌};
ghost use Rattle.std.specs.Prelude.{◌≤◌, ◌<◌, List, [], ◌∷◌, ◌++◌, Bool, true, false, suc, length};
ghost use Rattle.std.specs.Prelude.{replicate, take, drop};
ghost use Rattle.ffv1_range.specs.Interval.{Interval, Decision, part, narrow, narrowed};
ghost use Rattle.ffv1_range.specs.Interval.{interval_of};
ghost use Rattle.ffv1_range.specs.Codes.{value, Codes, AreBytes, IsState, AreStates, ExactlyOne};
ghost use Rattle.ffv1_range.specs.Codes.{IsOnlyList, sentinel_of, full_of};
ghost use Rattle.ffv1_range.specs.Ending.{IsEnded, bits_place};
ghost use Rattle.ffv1_range.specs.Table.{Table, Holds, IsTable};
ghost use Rattle.ffv1_range.specs.Symbols.{Step, exponent, sized_steps, decided, moved_by, shifted};
ghost use Rattle.ffv1_range.specs.Symbols.{signed_steps, unsigned_steps, too_long, AreHeld};
ghost use Rattle.ffv1_range.specs.Symbols.{AllHeld};
ghost use Rattle.ffv1_range.specs.Weight.{weight, ones, zeros, IsHeld, AreHeldBy, sealed};
ghost use Rattle.ffv1_range.specs.History.{state_of, decisions_after, AreBelow, AreOutside};
ghost use Rattle.ffv1_range.specs.History.{HasStates};
ghost use Rattle.ffv1_range.specs.Counts.{Counts, Counted, ones_in, zeros_in, saturated, total};
ghost use Rattle.ffv1_range.specs.Counts.{uncounted};
ghost use Rattle.ffv1_range.specs.Renormalising.{IsNormalised, parts_of, left_of, AreEnough};
ghost use Rattle.ffv1_range.specs.Renormalising.{decisions_a_byte};
ghost use Rattle.ffv1_range.specs.Standard.{default_state_transition, standard};
ghost use Rattle.ffv1_range.specs.Generator.{generated};
ghost use Rattle.ffv1_range.specs.Deltas.{IsTableOf};
ghost use Rattle.ffv1_range.specs.Reading.{Reading, At, paused, resumed};
ghost use Rattle.ffv1_range.specs.Writing.{Writing, unwritten};
ghost use Rattle.ffv1_range.specs.Follows.{Follows};
ghost use Rattle.ffv1_range.specs.Puts.{Puts, MayBeRefused};

/// Bytes with a start below 65280 code the empty list, and no others do.
pub fn good_start_codes_the_empty_list()
    ensures codes { (bytes : List ℕ) → value bytes 2 < 65280 → Codes bytes [] }
    ensures only { (bytes : List ℕ) → Codes bytes [] → value bytes 2 < 65280 }
{}

/// Bytes that code a list code each beginning of it.
pub fn bytes_code_each_beginning()
    ensures { (bytes : List ℕ) (xs ys : List Decision) → AreBytes bytes → AreStates ys →
        Codes bytes (xs ++ ys) → Codes bytes xs }
{}

/// Bytes that code a list code exactly one of its two continuations, whatever the state.
pub fn bytes_code_one_continuation()
    ensures { (bytes : List ℕ) (ds : List Decision) (state : ℕ) → AreBytes bytes → IsState state →
        Codes bytes ds →
        ExactlyOne (Codes bytes (ds ++ (record { state = state; bit = false } ∷ [])))
        (Codes bytes (ds ++ (record { state = state; bit = true } ∷ []))) }
{}

/// However states are named from the decisions before, bytes with a good start code one list of
/// each length.
pub fn bytes_code_one_list_of_each_length()
    ensures { (bytes : List ℕ) (name : List Decision → ℕ) (count : ℕ) → AreBytes bytes →
        ((ds : List Decision) → IsState (name ds)) → Codes bytes [] →
        (ds : List Decision) × IsOnlyList bytes name count ds }
{}

/// The sentinel ending of a list codes it, with zeros after too.
pub fn sentinel_ending_codes_its_list()
    ensures codes { (ds : List Decision) → AreStates ds → Codes (sentinel_of (interval_of ds)) ds }
    ensures bytes { (i : Interval) → AreBytes (sentinel_of i) }
    ensures zeros { (ds : List Decision) (count : ℕ) → AreStates ds →
        Codes (sentinel_of (interval_of ds) ++ replicate count 0) ds }
{}

/// The full ending of a list codes it, whatever follows.
pub fn full_ending_codes_its_list()
    ensures { (ds : List Decision) (behind : List ℕ) → AreStates ds →
        Codes (full_of (interval_of ds) ++ behind) ds }
{}

/// States that are kept in arrays, and moved at each decision, are those that the history gives:
/// for one array of all slots, and for one that has the slots from base on, beside any others.
pub fn array_states_follow_the_history()
    ensures all { (t : Table) (count : ℕ) (steps : List Step) → AreBelow steps count →
        decided t (replicate count 128) steps ≡ decisions_after t [] steps }
    ensures fresh { (t : Table) (count base : ℕ) → HasStates t (replicate count 128) base [] }
    ensures decided { (t : Table) (states : List ℕ) (base : ℕ) (past steps : List Step) →
        AreBelow steps (length states) → HasStates t states base past →
        decided t states steps ≡ decisions_after t past (shifted base steps) }
    ensures moved { (t : Table) (states : List ℕ) (base : ℕ) (past steps : List Step) →
        AreBelow steps (length states) → HasStates t states base past →
        HasStates t (moved_by t states steps) base (past ++ shifted base steps) }
    ensures others { (t : Table) (states : List ℕ) (base : ℕ) (past steps : List Step) →
        AreOutside steps base (length states) → HasStates t states base past →
        HasStates t states base (past ++ steps) }
    ensures part { (t : Table) (states : List ℕ) (base at count : ℕ) (past : List Step) →
        at + count ≤ length states → HasStates t states base past →
        HasStates t (take count (drop at states)) (base + at) past }
    ensures put { (t : Table) (states ys : List ℕ) (base at count : ℕ) (past ss : List Step) →
        at + count ≤ length states → length ys ≡ count → AreBelow ss count →
        HasStates t states base past → HasStates t ys (base + at) (past ++ shifted (base + at) ss) →
        HasStates t (take at states ++ (ys ++ drop count (drop at states))) base
        (past ++ shifted (base + at) ss) }
{}

/// Reading and writing of some steps, and then of others, is that of both lists.
pub fn reads_and_writes_in_turn_are_one()
    ensures follows_none { (t : Table) (r : Reading) (states : List ℕ) →
        Follows t r states r states [] }
    ensures follows_append { (t : Table) (a b c : Reading) (ss ts us : List ℕ)
        (xs ys : List Step) → Follows t a ss b ts xs → Follows t b ts c us ys →
        Follows t a ss c us (xs ++ ys) }
    ensures puts_none { (t : Table) (w : Writing) (states : List ℕ) → Puts t w states w states [] }
    ensures puts_append { (t : Table) (a b c : Writing) (ss ts us : List ℕ) (xs ys : List Step) →
        Puts t a ss b ts xs → Puts t b ts c us ys → Puts t a ss c us (xs ++ ys) }
    ensures refused_first { (t : Table) (w : Writing) (states : List ℕ) (xs ys : List Step) →
        MayBeRefused t w states xs → MayBeRefused t w states (xs ++ ys) }
    ensures refused_second { (t : Table) (a b : Writing) (ss ts : List ℕ) (xs ys : List Step) →
        Puts t a ss b ts xs → MayBeRefused t b ts ys → MayBeRefused t a ss (xs ++ ys) }
{}

/// Lists of decisions in two parts.
pub fn decisions_of_two_parts_join()
    ensures interval { (i : Interval) (xs ys : List Decision) →
        narrowed i (xs ++ ys) ≡ narrowed (narrowed i xs) ys }
    ensures decided { (t : Table) (states : List ℕ) (xs ys : List Step) →
        decided t states (xs ++ ys) ≡ decided t states xs ++ decided t (moved_by t states xs) ys }
    ensures moved { (t : Table) (states : List ℕ) (xs ys : List Step) →
        moved_by t states (xs ++ ys) ≡ moved_by t (moved_by t states xs) ys }
    ensures history { (t : Table) (past xs ys : List Step) →
        decisions_after t past (xs ++ ys) ≡
        decisions_after t past xs ++ decisions_after t (past ++ xs) ys }
    ensures below { (xs ys : List Step) (count : ℕ) → AreBelow xs count → AreBelow ys count →
        AreBelow (xs ++ ys) count }
{}

/// What a decoder has read is coded by its bytes, after the decisions that it had read before.
pub fn read_bytes_code_what_was_read()
    ensures { (t : Table) (old : Reading) (states : List ℕ) (new : Reading) (after : List ℕ)
        (steps : List Step) (past : List Decision) →
        At old (interval_of past) → Follows t old states new after steps →
        At new (interval_of (past ++ decided t states steps)) ×
        Codes new.bytes (past ++ decided t states steps) }
{}

/// What an encoder has written stands after what it had written before.
pub fn written_decisions_follow_earlier_ones()
    ensures { (t : Table) (old : Writing) (states : List ℕ) (new : Writing) (after : List ℕ)
        (steps : List Step) (past : List Decision) →
        old.interval ≡ interval_of past → Puts t old states new after steps →
        new.interval ≡ interval_of (past ++ decided t states steps) }
{}

/// The slots of a symbol are 32; those of one in a row of many states stand in the row.
pub fn symbols_stay_in_their_slots()
    ensures signed { (v : ℤ) → AreBelow (signed_steps v) 32 }
    ensures unsigned { (n : ℕ) → AreBelow (unsigned_steps n) 32 }
    ensures refused { AreBelow too_long 32 }
    ensures shifted { (base count : ℕ) (steps : List Step) → AreBelow steps count →
        AreBelow (shifted base steps) (base + count) }
    ensures more { (steps : List Step) (few many : ℕ) → few ≤ many → AreBelow steps few →
        AreBelow steps many }
    ensures twice { (base more : ℕ) (steps : List Step) →
        shifted base (shifted more steps) ≡ shifted (base + more) steps }
    ensures append { (base : ℕ) (xs ys : List Step) →
        shifted base (xs ++ ys) ≡ shifted base xs ++ shifted base ys }
{}

/// An exponent is the place of the highest bit, whatever the number above 0.
pub fn exponent_is_the_highest_bit()
    ensures least { (n : ℕ) → 0 < n → 2 ^ exponent n ≤ n }
    ensures most { (n : ℕ) → 0 < n → n < 2 ^ (exponent n + 1) }
{}

/// How many decisions a symbol takes.
pub fn symbol_length_follows_from_exponent()
    ensures zero { length (unsigned_steps 0) ≡ 1 }
    ensures unsigned { (n : ℕ) → length (unsigned_steps (suc n)) ≡ 2 * exponent (suc n) + 2 }
    ensures sized { (n : ℕ) (negative : Bool) →
        length (sized_steps n negative) ≡ 2 * exponent n + 3 }
    ensures refused { length too_long ≡ 32 }
    ensures shifted { (base : ℕ) (steps : List Step) → length (shifted base steps) ≡ length steps }
{}

/// By a table of states each decision of a history has a state, and fresh states are held.
pub fn each_decision_has_a_state()
    ensures held { (t : Table) (slot : ℕ) (past : List Step) → IsTable t.floor t.one →
        Holds t (state_of t slot past) }
    ensures named { (t : Table) (past steps : List Step) → IsTable t.floor t.one →
        AreStates (decisions_after t past steps) }
    ensures fresh { (t : Table) → IsTable t.floor t.one → AreHeld t (replicate 32 128) }
    ensures all_fresh { (t : Table) (count : ℕ) → IsTable t.floor t.one →
        AllHeld t (replicate count 128) }
{}

/// Each step is a 1 or a 0, and so is its decision.
pub fn each_step_is_one_or_zero()
    ensures steps { (steps : List Step) → ones_in steps + zeros_in steps ≡ length steps }
    ensures ones { (t : Table) (states : List ℕ) (steps : List Step) →
        ones (decided t states steps) ≡ ones_in steps }
    ensures zeros { (t : Table) (states : List ℕ) (steps : List Step) →
        zeros (decided t states steps) ≡ zeros_in steps }
    ensures ones_after { (t : Table) (past steps : List Step) →
        ones (decisions_after t past steps) ≡ ones_in steps }
    ensures zeros_after { (t : Table) (past steps : List Step) →
        zeros (decisions_after t past steps) ≡ zeros_in steps }
    ensures ones_append { (xs ys : List Step) → ones_in (xs ++ ys) ≡ ones_in xs + ones_in ys }
    ensures zeros_append { (xs ys : List Step) → zeros_in (xs ++ ys) ≡ zeros_in xs + zeros_in ys }
{}

/// No symbol begins another one, nor one that is refused.
pub fn no_symbol_begins_another()
    ensures apart { (v w : ℤ) (xs ys : List Step) → unsigned_abs v < 2 ^ 31 →
        unsigned_abs w < 2 ^ 31 → signed_steps v ++ xs ≡ signed_steps w ++ ys →
        (v ≡ w) × (xs ≡ ys) }
    ensures refused { (v : ℤ) (xs ys : List Step) → unsigned_abs v < 2 ^ 31 →
        signed_steps v ++ xs ≢ too_long ++ ys }
    ensures unsigned_apart { (n m : ℕ) (xs ys : List Step) → n < 2 ^ 31 → m < 2 ^ 31 →
        unsigned_steps n ++ xs ≡ unsigned_steps m ++ ys → (n ≡ m) × (xs ≡ ys) }
    ensures unsigned_refused { (n : ℕ) (xs ys : List Step) → n < 2 ^ 31 →
        unsigned_steps n ++ xs ≢ too_long ++ ys }
{}

/// At states from floor to 256 less floor a code is little longer than its weight asks for: a 1
/// loses at most the factor (floor + 1) / floor, and a 0 nothing. A last decision 0 by the state
/// 129 changes nothing of that. And it is little shorter.
pub fn code_length_is_near_its_weight()
    ensures most { (floor : ℕ) (ds : List Decision) → 0 < floor → AreHeldBy floor ds →
        floor ^ ones ds * 256 ^ ((interval_of ds).count - 2) * weight ds ≤
        (256 * (floor + 1)) ^ ones ds * 256 ^ zeros ds }
    ensures most_sentinel { (floor : ℕ) (ds : List Decision) → 0 < floor → AreHeldBy floor ds →
        floor ^ ones (sealed ds) * 256 ^ ((interval_of (sealed ds)).count - 2) *
        weight (sealed ds) ≤ (256 * (floor + 1)) ^ ones (sealed ds) * 256 ^ zeros (sealed ds) }
    ensures least { (floor : ℕ) (ds : List Decision) → 0 < floor → AreHeldBy floor ds →
        256 ^ ones ds * (256 * floor) ^ zeros ds ≤
        255 * 256 ^ ((interval_of ds).count - 2) * (floor + 1) ^ zeros ds * weight ds }
{}

/// The cost of what an encoder has put, by states that its table holds, whose renormalisations are
/// its count less 2.
pub fn written_code_is_near_its_weight()
    ensures most { (t : Table) (states : List ℕ) (w : Writing) (after : List ℕ)
        (steps : List Step) → IsTable t.floor t.one → AllHeld t states →
        AreBelow steps (length states) →
        Puts t unwritten states w after steps →
        t.floor ^ ones_in steps * 256 ^ (w.interval.count - 2) * weight (decided t states steps) ≤
        (256 * (t.floor + 1)) ^ ones_in steps * 256 ^ zeros_in steps }
    ensures most_sentinel { (t : Table) (states : List ℕ) (w : Writing) (after : List ℕ)
        (steps : List Step) → IsTable t.floor t.one → AllHeld t states →
        AreBelow steps (length states) →
        Puts t unwritten states w after steps →
        t.floor ^ ones_in steps * 256 ^ ((narrow w.interval 129 false).count - 2) *
        (weight (decided t states steps) * 127) ≤
        (256 * (t.floor + 1)) ^ ones_in steps * 256 ^ (zeros_in steps + 1) }
    ensures least { (t : Table) (states : List ℕ) (w : Writing) (after : List ℕ)
        (steps : List Step) → IsTable t.floor t.one → AllHeld t states →
        AreBelow steps (length states) →
        Puts t unwritten states w after steps →
        256 ^ ones_in steps * (256 * t.floor) ^ zeros_in steps ≤
        255 * 256 ^ (w.interval.count - 2) * (t.floor + 1) ^ zeros_in steps *
        weight (decided t states steps) }
{}

/// The sentinel ending codes its list whatever byte follows.
pub fn sentinel_ending_allows_any_next_byte()
    ensures { (ds : List Decision) (byte : ℕ) → AreStates ds → byte < 256 →
        Codes (sentinel_of (interval_of ds) ++ (byte ∷ [])) ds }
{}

/// Bytes that end a list code it, and so does whatever they begin.
pub fn ended_bytes_code_their_list()
    ensures codes { (bytes : List ℕ) (ds : List Decision) → AreBytes bytes →
        IsEnded bytes (interval_of ds) → Codes bytes ds }
    ensures begins { (xs ys : List ℕ) (ds : List Decision) → AreBytes (xs ++ ys) → AreStates ds →
        IsEnded xs (interval_of ds) → Codes (xs ++ ys) ds }
{}

/// Behind bytes that end a list any others may stand. They all code the list and one more decision
/// by state 129, of which either bit is possible; and behind that decision the others begin at the
/// byte that a coder read last. A decoder that stands there knows it by its renormalisations.
pub fn bits_begin_behind_ended_bytes()
    ensures behind { (xs ys : List ℕ) (ds : List Decision) → AreBytes (xs ++ ys) → AreStates ds →
        IsEnded xs (interval_of ds) →
        (bit : Bool) × Codes (xs ++ ys) (ds ++ (record { state = 129; bit = bit } ∷ []))
        × (bits_place (interval_of (ds ++ (record { state = 129; bit = bit } ∷ []))) ≡ length xs) }
    ensures known { (r : Reading) (i : Interval) → At r i → r.renormalisations < 2 ^ 64 - 1 →
        bits_place i ≡ r.renormalisations + 1 }
{}

/// The bytes that end a list are as many as those of its sentinel ending. Their number is no less,
/// and 256 times it lies in the interval that the last decision leaves; so it is at most 254 more.
/// The empty list is ended by one byte, any below 127.
pub fn ended_bytes_are_near_the_sentinel_ending()
    ensures sentinel { (ds : List Decision) → AreStates ds →
        IsEnded (sentinel_of (interval_of ds)) (interval_of ds) }
    ensures exact { (bytes : List ℕ) (ds : List Decision) → AreStates ds →
        let least = sentinel_of (interval_of ds) in
        let last = narrow (interval_of ds) 129 false in
        IsEnded bytes (interval_of ds) ↔
        ((length bytes ≡ length least) × (value least (length least) ≤ value bytes (length bytes))
        × (256 * value bytes (length bytes) < last.low + last.width)) }
    ensures near { (bytes : List ℕ) (ds : List Decision) → AreStates ds →
        let least = sentinel_of (interval_of ds) in
        IsEnded bytes (interval_of ds) →
        value bytes (length bytes) ≤ value least (length least) + 254 }
    ensures empty { (byte : ℕ) → IsEnded (byte ∷ []) (interval_of []) ↔ (byte < 127) }
{}

/// Lists that the bytes code and that part at a decision of one state do not part there.
pub fn bytes_code_one_bit_next()
    ensures { (bytes : List ℕ) (past xs ys : List Decision) (state : ℕ) (b c : Bool) →
        AreBytes bytes → IsState state → AreStates xs → AreStates ys →
        Codes bytes (past ++ (record { state = state; bit = b } ∷ xs)) →
        Codes bytes (past ++ (record { state = state; bit = c } ∷ ys)) → b ≡ c }
{}

/// Bytes code at most one number next, and none if they code a symbol that is refused.
pub fn bytes_code_one_number_next()
    ensures one { (bytes : List ℕ) (t : Table) (states : List ℕ) (past : List Decision) (v w : ℤ) →
        AreBytes bytes → unsigned_abs v < 2 ^ 31 → unsigned_abs w < 2 ^ 31 →
        AreStates (decided t states (signed_steps v)) →
        AreStates (decided t states (signed_steps w)) →
        Codes bytes (past ++ decided t states (signed_steps v)) →
        Codes bytes (past ++ decided t states (signed_steps w)) → v ≡ w }
    ensures refused { (bytes : List ℕ) (t : Table) (states : List ℕ) (past : List Decision)
        (v : ℤ) → AreBytes bytes → unsigned_abs v < 2 ^ 31 →
        AreStates (decided t states (signed_steps v)) → AreStates (decided t states too_long) →
        Codes bytes (past ++ decided t states (signed_steps v)) →
        Codes bytes (past ++ decided t states too_long) → ⊥ }
    ensures unsigned { (bytes : List ℕ) (t : Table) (states : List ℕ) (past : List Decision)
        (n m : ℕ) → AreBytes bytes → n < 2 ^ 31 → m < 2 ^ 31 →
        AreStates (decided t states (unsigned_steps n)) →
        AreStates (decided t states (unsigned_steps m)) →
        Codes bytes (past ++ decided t states (unsigned_steps n)) →
        Codes bytes (past ++ decided t states (unsigned_steps m)) → n ≡ m }
    ensures unsigned_refused { (bytes : List ℕ) (t : Table) (states : List ℕ)
        (past : List Decision) (n : ℕ) → AreBytes bytes → n < 2 ^ 31 →
        AreStates (decided t states (unsigned_steps n)) → AreStates (decided t states too_long) →
        Codes bytes (past ++ decided t states (unsigned_steps n)) →
        Codes bytes (past ++ decided t states too_long) → ⊥ }
{}

/// The same if the states are those of a history, at slots from base on.
pub fn bytes_code_one_number_after_history()
    ensures one { (bytes : List ℕ) (t : Table) (base : ℕ) (before : List Decision)
        (past : List Step) (v w : ℤ) → AreBytes bytes → IsTable t.floor t.one →
        unsigned_abs v < 2 ^ 31 → unsigned_abs w < 2 ^ 31 →
        Codes bytes (before ++ decisions_after t past (shifted base (signed_steps v))) →
        Codes bytes (before ++ decisions_after t past (shifted base (signed_steps w))) → v ≡ w }
    ensures refused { (bytes : List ℕ) (t : Table) (base : ℕ) (before : List Decision)
        (past : List Step) (v : ℤ) → AreBytes bytes → IsTable t.floor t.one →
        unsigned_abs v < 2 ^ 31 →
        Codes bytes (before ++ decisions_after t past (shifted base (signed_steps v))) →
        Codes bytes (before ++ decisions_after t past (shifted base too_long)) → ⊥ }
    ensures unsigned { (bytes : List ℕ) (t : Table) (base : ℕ) (before : List Decision)
        (past : List Step) (n m : ℕ) → AreBytes bytes → IsTable t.floor t.one →
        n < 2 ^ 31 → m < 2 ^ 31 →
        Codes bytes (before ++ decisions_after t past (shifted base (unsigned_steps n))) →
        Codes bytes (before ++ decisions_after t past (shifted base (unsigned_steps m))) →
        n ≡ m }
    ensures unsigned_refused { (bytes : List ℕ) (t : Table) (base : ℕ) (before : List Decision)
        (past : List Step) (n : ℕ) → AreBytes bytes → IsTable t.floor t.one →
        n < 2 ^ 31 →
        Codes bytes (before ++ decisions_after t past (shifted base (unsigned_steps n))) →
        Codes bytes (before ++ decisions_after t past (shifted base too_long)) → ⊥ }
{}

/// Deltas make at most one table, and those of 0 make the standard's.
pub fn deltas_make_one_table()
    ensures one { (deltas : List ℤ) (t s : Table) → IsTableOf deltas t → IsTableOf deltas s →
        t ≡ s }
    ensures standard { IsTableOf (replicate 255 (pos 0)) standard }
    ensures table { (deltas : List ℤ) (t : Table) → IsTableOf deltas t → IsTable t.floor t.one }
{}

/// The standard's table is what its rule gives, and keeps its states.
pub fn standard_table_follows_its_rule()
    ensures rule { generated ≡ default_state_transition }
    ensures table { IsTable standard.floor standard.one }
{}

/// A decoder that is parked, and woken on the bytes that it had, is as it was.
pub fn parked_decoder_wakes_as_it_was()
    ensures { (r : Reading) → resumed (paused r) r.bytes ≡ r }
{}

/// What the counters of a coder show that began with nothing.
pub fn counters_from_zero_show_all_steps()
    ensures { (steps : List Step) (c : Counts) → Counted uncounted steps c →
        (c.ones ≡ saturated (ones_in steps)) × (c.zeros ≡ saturated (zeros_in steps)) ×
        (total c ≡ saturated (length steps)) }
{}

/// Counters that went on by some steps, and then by others, went on by both lists.
pub fn counters_go_on_by_both_parts()
    ensures none { (c : Counts) → Counted c [] c }
    ensures append { (a b c : Counts) (xs ys : List Step) → Counted a xs b → Counted b ys c →
        Counted a (xs ++ ys) c }
    ensures shifted { (a b : Counts) (base : ℕ) (steps : List Step) → Counted a steps b →
        Counted a (shifted base steps) b }
{}

/// At states that a table of a floor m holds each decision leaves at most 1 - m² / (256 (m + 1)) of
/// an interval's width, 35/36 by the standard's table. So `decisions_a_byte` of them in a row
/// renormalise it at least once, 197 by the standard's table; and for each renormalisation, and
/// once more, there are fewer than so many.
pub fn decisions_in_a_row_renormalise()
    ensures normalised { (ds : List Decision) → AreStates ds → IsNormalised (interval_of ds) }
    ensures stays { (i : Interval) (state : ℕ) (bit : Bool) → IsState state → IsNormalised i →
        IsNormalised (narrow i state bit) }
    ensures each { (floor : ℕ) (i : Interval) (state : ℕ) (bit : Bool) → 0 < floor →
        IsHeld floor state → 256 ≤ i.width →
        parts_of floor * (part i state bit).width ≤ left_of floor * i.width }
    ensures each_of_standard { (i : Interval) (state : ℕ) (bit : Bool) →
        IsHeld standard.floor state → 256 ≤ i.width →
        36 * (part i state bit).width ≤ 35 * i.width }
    ensures enough { (floor : ℕ) → 0 < floor → floor ≤ 128 →
        AreEnough floor (decisions_a_byte floor) }
    ensures least { (floor n : ℕ) → AreEnough floor n → decisions_a_byte floor ≤ n }
    ensures of_standard { decisions_a_byte standard.floor ≡ 197 }
    ensures of_lowest { decisions_a_byte 1 ≡ 2835 }
    ensures of_highest { decisions_a_byte 128 ≡ 9 }
    ensures once { (floor : ℕ) (i : Interval) (ds : List Decision) → 0 < floor → floor ≤ 128 →
        IsNormalised i → AreHeldBy floor ds → decisions_a_byte floor ≤ length ds →
        i.count < (narrowed i ds).count }
    ensures few { (floor : ℕ) (i : Interval) (ds : List Decision) → 0 < floor → floor ≤ 128 →
        IsNormalised i → AreHeldBy floor ds →
        length ds < decisions_a_byte floor * ((narrowed i ds).count - i.count + 1) }
{}

/// The same of the decisions of a history, of a decoder's and of an encoder's: fewer than
/// `decisions_a_byte` for each renormalisation, and once more. Counters show no more decisions than
/// there were.
pub fn renormalisations_bound_the_decisions()
    ensures history { (t : Table) (past : List Step) → IsTable t.floor t.one →
        length past <
        decisions_a_byte t.floor * ((interval_of (decisions_after t [] past)).count - 2 + 1) }
    ensures decoded { (t : Table) (r : Reading) (past : List Step) → IsTable t.floor t.one →
        At r (interval_of (decisions_after t [] past)) → r.renormalisations < 2 ^ 64 - 1 →
        length past < decisions_a_byte t.floor * (r.renormalisations + 1) }
    ensures read { (t : Table) (i : Interval) (old : Reading) (states : List ℕ) (new : Reading)
        (after : List ℕ) (steps : List Step) → IsTable t.floor t.one → AllHeld t states →
        AreBelow steps (length states) → IsNormalised i → At old i →
        Follows t old states new after steps → new.renormalisations < 2 ^ 64 - 1 →
        length steps <
        decisions_a_byte t.floor * (new.renormalisations - old.renormalisations + 1) }
    ensures written { (t : Table) (old : Writing) (states : List ℕ) (new : Writing)
        (after : List ℕ) (steps : List Step) → IsTable t.floor t.one → AllHeld t states →
        AreBelow steps (length states) → IsNormalised old.interval →
        Puts t old states new after steps →
        length steps <
        decisions_a_byte t.floor * (new.interval.count - old.interval.count + 1) }
    ensures counted { (steps : List Step) (c : Counts) → Counted uncounted steps c →
        total c ≤ length steps }
{}
