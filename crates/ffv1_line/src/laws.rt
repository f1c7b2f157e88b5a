//! Laws of the definitions.

ghost use Rattle.std.specs.Prelude.{◌≡◌, ℕ, ℤ, unsigned_abs, ◌+◌, ◌-◌, ◌*◌, ◌^◌, ◌<◌, ◌≤◌, List};
ghost use Rattle.std.specs.Prelude.{[], ◌∷◌, ◌++◌, length, slice_index, replicate, take, drop};
ghost use Rattle.ffv1_range.specs.Reading.{Reading, At};
ghost use Rattle.ffv1_range.specs.Writing.{Writing};
ghost use Rattle.ffv1_range.specs.Interval.{Decision, interval_of};
ghost use Rattle.ffv1_range.specs.Codes.{AreBytes, AreStates, sentinel_of, full_of};
ghost use Rattle.ffv1_range.specs.Table.{Table, IsTable};
ghost use Rattle.ffv1_range.specs.Puts.{Puts};
ghost use Rattle.ffv1_range.specs.Follows.{Follows};
ghost use Rattle.ffv1_range.specs.History.{AreBelow, decisions_after};
ghost use Rattle.ffv1_plane.specs.declared.prediction.Around.{Around};
ghost use Rattle.ffv1_plane.specs.Quantisation.{Set, contexts_of};
ghost use Rattle.ffv1_plane.specs.Context.{size_of};
ghost use Rattle.ffv1_line.specs.Cell.{Cell, Above, Agree, Shows, Rolls, cell_of};
ghost use Rattle.ffv1_line.specs.Row.{AreSuiting, row_steps, chosen_row, chosen_rows, cell_steps};
ghost use Rattle.ffv1_line.specs.Length.{CountedAtMost, binary_digits, decisions_of, row_decisions};
ghost use Rattle.ffv1_line.specs.Length.{cell_decisions, AreSmall, AreSmallRows, residuals_in};
ghost use Rattle.ffv1_range.specs.Symbols.{Step, signed_steps};
ghost use Rattle.ffv1_line.specs.Decoded.{RowRead, Rows, RowsSuit, Lined, LinedToRefusal, RowsRead};
ghost use Rattle.ffv1_line.specs.Decoded.{CellRead};
ghost use Rattle.ffv1_line.specs.Encoded.{Written};
ghost use Rattle.ffv1_line.specs.Coded.{AreSame, CodesRow, RefusesRow, CodesRowBy, RefusesRowBy};
ghost use Rattle.ffv1_line.specs.Coded.{CodesCellBy, StandsAfter};
ghost use Rattle.ffv1_line.specs.Coding.{RowCoding};
ghost use Rattle.ffv1_line.specs.Coder.{Decoder, Encoder};
ghost use Rattle.ffv1_line.specs.Above.{RowsAbove};

/// The rows of a cell, one after the other, are the cell's list.
pub fn cell_is_its_rows_joined()
    ensures { (set : Set) (c : Cell) (y : ℕ) (rows : List (List ℤ)) (qs : List ℤ) →
        cell_steps set c y (rows ++ (qs ∷ [])) ≡ cell_steps set c y rows ++ row_steps set c
        (y + length rows) 0 qs }
{}

/// The slots of a row are those of the set's contexts.
pub fn row_slots_are_the_contexts_slots()
    ensures { (set : Set) (c : Cell) (y x : ℕ) (qs : List ℤ) →
        ((a : Around) → size_of set a < contexts_of set) →
        AreBelow (row_steps set c y x qs) (contexts_of set * 32) }
{}

/// A decoder that read some rows of a cell, and then the next, read these rows.
pub fn reading_goes_on_row_by_row()
    ensures { (coding : RowCoding) (a b d : Decoder) (c : Cell) (rows : List (List ℤ))
        (qs : List ℤ) →
        Rows coding a b c rows → length qs ≡ c.width →
        RowRead coding b d qs c (length rows) →
        Rows coding a d c (rows ++ (qs ∷ [])) }
{}

/// An encoder that wrote some rows of a cell, and then the next, wrote these rows.
pub fn writing_goes_on_row_by_row()
    ensures { (t : Table) (set : Set) (a b d : Writing) (states between after : List ℕ) (c : Cell)
        (rows : List (List ℤ)) (qs : List ℤ) →
        Puts t a states b between (cell_steps set c 0 rows) →
        Puts t b between d after (row_steps set c (length rows) 0 qs) →
        Puts t a states d after (cell_steps set c 0 (rows ++ (qs ∷ []))) }
{}

/// What an encoder writes of a row, and of the rows of a cell, are residuals that suit their
/// samples, one for each sample.
pub fn chosen_residuals_suit_their_samples()
    ensures long { (set : Set) (bits : ℕ) (c : Cell) (y n : ℕ) →
        length (chosen_row set bits c y n) ≡ n }
    ensures suit { (set : Set) (bits : ℕ) (c : Cell) (y n : ℕ) → 0 < bits → bits < 32 →
        0 < c.width →
        ((x : ℕ) → x < c.width → c.at x y < 2 ^ bits) →
        AreSuiting set bits c y 0 (chosen_row set bits c y n) }
    ensures rows { (set : Set) (bits : ℕ) (c : Cell) (n : ℕ) →
        length (chosen_rows set bits c n) ≡ n }
    ensures rows_suit { (set : Set) (bits : ℕ) (c : Cell) (n : ℕ) → 0 < bits → bits < 32 →
        0 < c.width →
        ((x y : ℕ) → x < c.width → y < n → c.at x y < 2 ^ bits) →
        RowsSuit set bits c 0 (chosen_rows set bits c n) }
{}

/// A residual of n binary digits takes 2 n + 1 decisions, at most 63; a row and a cell take those
/// of their residuals, at slots of the set's contexts; and each residual that an encoder takes of a
/// cell has a symbol.
pub fn residual_length_follows_from_digits()
    ensures symbol { (v : ℤ) → unsigned_abs v < 2 ^ 31 → length (signed_steps v) ≡ decisions_of v }
    ensures most { (v : ℤ) → unsigned_abs v < 2 ^ 31 → decisions_of v ≤ 63 }
    ensures row { (set : Set) (c : Cell) (y x : ℕ) (qs : List ℤ) → AreSmall qs →
        length (row_steps set c y x qs) ≡ row_decisions qs }
    ensures cell { (set : Set) (c : Cell) (y : ℕ) (rows : List (List ℤ)) → AreSmallRows rows →
        length (cell_steps set c y rows) ≡ cell_decisions rows }
    ensures cell_most { (rows : List (List ℤ)) → AreSmallRows rows →
        cell_decisions rows ≤ 63 * residuals_in rows }
    ensures cell_slots { (set : Set) (c : Cell) (y : ℕ) (rows : List (List ℤ)) →
        ((a : Around) → size_of set a < contexts_of set) →
        AreBelow (cell_steps set c y rows) (contexts_of set * 32) }
    ensures chosen_small { (set : Set) (bits : ℕ) (c : Cell) (n : ℕ) → 0 < bits →
        2 ^ (bits - 1) < 2 ^ 31 → AreSmallRows (chosen_rows set bits c n) }
    ensures chosen_many { (set : Set) (bits : ℕ) (c : Cell) (n : ℕ) →
        residuals_in (chosen_rows set bits c n) ≡ n * c.width }
{}

/// After one past the bytes code one row at most, below two given rows: residuals of so many
/// samples that suit them are one list and make one row; a row that is refused is no beginning of
/// one that is coded, and is refused at one place.
pub fn bytes_code_one_row()
    ensures one { (bytes : List ℕ) (coding : RowCoding) (base : ℕ) (past : List Step) (c d : Cell)
        (y z : ℕ) (two one : List ℕ) (ps qs : List ℤ) →
        AreBytes bytes → IsTable coding.table.floor coding.table.one → 0 < length one →
        Above c y two one →
        Above d z two one →
        length ps ≡ length qs → CodesRow bytes coding base past c y ps →
        CodesRow bytes coding base past d z qs → (ps ≡ qs) × AreSame c y d z (length ps) }
    ensures whole_or_refused { (bytes : List ℕ) (coding : RowCoding) (base : ℕ) (past : List Step)
        (c d : Cell) (y z : ℕ) (two one : List ℕ) (ps qs : List ℤ) →
        AreBytes bytes → IsTable coding.table.floor coding.table.one → 0 < length one →
        Above c y two one →
        Above d z two one →
        length qs < length ps → CodesRow bytes coding base past c y ps →
        RefusesRow bytes coding base past d z qs → ⊥ }
    ensures one_refusal { (bytes : List ℕ) (coding : RowCoding) (base : ℕ) (past : List Step)
        (c d : Cell) (y z : ℕ) (two one : List ℕ) (ps qs : List ℤ) →
        AreBytes bytes → IsTable coding.table.floor coding.table.one → 0 < length one →
        Above c y two one →
        Above d z two one →
        RefusesRow bytes coding base past c y ps →
        RefusesRow bytes coding base past d z qs →
        (ps ≡ qs) × AreSame c y d z (length ps) }
{}

/// The same after any decisions, by any states.
pub fn bytes_code_one_row_by_states()
    ensures one { (bytes : List ℕ) (before : List Decision) (coding : RowCoding) (states : List ℕ)
        (c d : Cell) (y z : ℕ) (two one : List ℕ) (ps qs : List ℤ) →
        AreBytes bytes → 0 < length one → Above c y two one → Above d z two one →
        length ps ≡ length qs → CodesRowBy bytes before coding states c y ps →
        CodesRowBy bytes before coding states d z qs → (ps ≡ qs) × AreSame c y d z (length ps) }
    ensures whole_or_refused { (bytes : List ℕ) (before : List Decision) (coding : RowCoding)
        (states : List ℕ) (c d : Cell) (y z : ℕ) (two one : List ℕ) (ps qs : List ℤ) →
        AreBytes bytes → 0 < length one → Above c y two one → Above d z two one →
        length qs < length ps → CodesRowBy bytes before coding states c y ps →
        RefusesRowBy bytes before coding states d z qs → ⊥ }
    ensures one_refusal { (bytes : List ℕ) (before : List Decision) (coding : RowCoding)
        (states : List ℕ) (c d : Cell) (y z : ℕ) (two one : List ℕ) (ps qs : List ℤ) →
        AreBytes bytes → 0 < length one → Above c y two one → Above d z two one →
        RefusesRowBy bytes before coding states c y ps →
        RefusesRowBy bytes before coding states d z qs →
        (ps ≡ qs) × AreSame c y d z (length ps) }
{}

/// A row that its decoder's bytes code by its states is read as it is, and is not refused.
pub fn coded_row_is_read_back()
    ensures read { (coding : RowCoding) (old new : Decoder) (above : RowsAbove) (cur : List ℕ)
        (before : List Decision) (c : Cell) (y : ℕ) (qs : List ℤ) →
        0 < length above.one → Above c y above.two above.one → length cur ≡ c.width →
        length qs ≡ c.width →
        At old.reading (interval_of before) → AreBytes old.reading.bytes →
        CodesRowBy old.reading.bytes before coding old.states c y qs →
        Lined coding old new above cur (length cur) →
        Shows c (y + 2) cur c.width × Follows coding.table old.reading old.states new.reading
        new.states (row_steps coding.set c y 0 qs) }
    ensures not_refused { (coding : RowCoding) (old new : Decoder) (above : RowsAbove)
        (cur : List ℕ) (before : List Decision) (c : Cell) (y x : ℕ) (qs : List ℤ) →
        0 < length above.one → Above c y above.two above.one → length qs ≡ c.width → x < c.width →
        At old.reading (interval_of before) → AreBytes old.reading.bytes →
        CodesRowBy old.reading.bytes before coding old.states c y qs →
        LinedToRefusal coding old new above cur x → ⊥ }
{}

/// So are the rows of a cell that its bytes code, one after the other.
pub fn coded_cell_is_read_back()
    ensures first { (before : List Decision) (coding : RowCoding) (now : Decoder) (c : Cell)
        (rows : List (List ℤ)) → At now.reading (interval_of before) →
        CodesCellBy now.reading.bytes before coding now.states c rows →
        StandsAfter before coding now.states c rows 0 now }
    ensures next { (before : List Decision) (coding : RowCoding) (states : List ℕ) (c : Cell)
        (rows : List (List ℤ)) (y : ℕ) (now new : Decoder) (above : RowsAbove) (cur : List ℕ) →
        0 < c.width → y < length rows → Above c y above.two above.one → length cur ≡ c.width →
        StandsAfter before coding states c rows y now →
        Lined coding now new above cur (length cur) →
        Shows c (y + 2) cur c.width ×
        StandsAfter before coding states c rows (y + 1) new }
    ensures not_refused { (before : List Decision) (coding : RowCoding) (states : List ℕ) (c : Cell)
        (rows : List (List ℤ)) (y x : ℕ) (now new : Decoder) (above : RowsAbove) (cur : List ℕ) →
        y < length rows → Above c y above.two above.one → x < c.width →
        StandsAfter before coding states c rows y now →
        LinedToRefusal coding now new above cur x → ⊥ }
{}

/// What an encoder wrote is coded by either ending, after what it had written before: the rows of
/// a cell, if they suit.
pub fn either_ending_codes_what_was_written()
    ensures sentinel { (before : List Decision) (coding : RowCoding) (old w : Writing)
        (states after : List ℕ) (c : Cell) (rows : List (List ℤ)) →
        AreStates before → old.interval ≡ interval_of before →
        RowsSuit coding.set coding.bits c 0 rows →
        Puts coding.table old states w after (cell_steps coding.set c 0 rows) →
        CodesCellBy (sentinel_of w.interval) before coding states c rows }
    ensures full { (before : List Decision) (coding : RowCoding) (old w : Writing)
        (states after : List ℕ) (c : Cell) (rows : List (List ℤ)) (behind : List ℕ) →
        AreStates before → old.interval ≡ interval_of before →
        RowsSuit coding.set coding.bits c 0 rows →
        AreBytes behind → Puts coding.table old states w after (cell_steps coding.set c 0 rows) →
        CodesCellBy (full_of w.interval ++ behind) before coding states c rows }
    ensures fresh_sentinel { (coding : RowCoding) (count : ℕ) (c : Cell) (rows : List (List ℤ)) →
        IsTable coding.table.floor coding.table.one → AreBelow (cell_steps coding.set c 0 rows)
        count →
        RowsSuit coding.set coding.bits c 0 rows →
        CodesCellBy (sentinel_of (interval_of (decisions_after coding.table []
        (cell_steps coding.set c 0 rows)))) [] coding (replicate count 128) c rows }
    ensures fresh_full { (coding : RowCoding) (count : ℕ) (c : Cell) (rows : List (List ℤ))
        (behind : List ℕ) → IsTable coding.table.floor coding.table.one →
        AreBelow (cell_steps coding.set c 0 rows) count → RowsSuit coding.set coding.bits c 0 rows →
        AreBytes behind →
        CodesCellBy (full_of (interval_of (decisions_after coding.table []
        (cell_steps coding.set c 0 rows))) ++ behind) [] coding (replicate count 128) c rows }
{}

/// The rows two and one above are 0 at a cell's top, and from a row to the next they move by one.
pub fn rows_above_roll_down_the_cell()
    ensures top { (c : Cell) → Above c 0 (replicate c.width 0) (replicate c.width 0) }
    ensures next { (c : Cell) (y : ℕ) (two one cur : List ℕ) → Above c y two one →
        length cur ≡ c.width → Shows c (y + 2) cur c.width → Above c (y + 1) one cur }
    ensures row { (width y : ℕ) (samples : List ℕ) →
        Shows (cell_of width samples) (y + 2) (take width (drop (y * width) samples)) width }
{}

/// A decoder that read rows, one below the other, read the cell of their samples.
pub fn reading_its_rows_reads_the_cell()
    ensures top { (width : ℕ) → Rolls width [] (replicate width 0) (replicate width 0) 0 }
    ensures rolls { (width n : ℕ) (samples two one cur : List ℕ) → length cur ≡ width →
        Rolls width samples two one n → Rolls width (samples ++ cur) one cur (n + 1) }
    ensures none { (coding : RowCoding) (r : Decoder) (width : ℕ) →
        RowsRead coding r r width [] 0 }
    ensures next { (coding : RowCoding) (a b d : Decoder) (width n : ℕ) (samples : List ℕ)
        (above : RowsAbove) (cur : List ℕ) → length cur ≡ width →
        Rolls width samples above.two above.one n →
        RowsRead coding a b width samples n →
        Lined coding b d above cur (length cur) →
        RowsRead coding a d width (samples ++ cur) (n + 1) }
    ensures all { (coding : RowCoding) (a b : Decoder) (width n : ℕ) (samples : List ℕ) →
        RowsRead coding a b width samples n →
        CellRead coding a b width n samples }
{}

/// Samples that were read have `bits` bits.
pub fn read_samples_fit_their_bits()
    ensures read { (coding : RowCoding) (old new : Decoder) (above : RowsAbove) (cur : List ℕ)
        (n : ℕ) → n ≤ length above.one →
        Lined coding old new above cur n →
        (x : ℕ) → x < n → slice_index cur x < 2 ^ coding.bits }
    ensures refused { (coding : RowCoding) (old new : Decoder) (above : RowsAbove) (cur : List ℕ)
        (n : ℕ) → n ≤ length above.one →
        LinedToRefusal coding old new above cur n →
        (x : ℕ) → x < n → slice_index cur x < 2 ^ coding.bits }
{}

/// A residual that was read has a symbol; so a sample that was read takes at most 63 decisions, a
/// symbol that is refused 32, and a sample of `bits` bits that was written `2 * bits + 1`.
pub fn sample_takes_at_most_63_decisions()
    ensures small { (coding : RowCoding) (old new : Decoder) (above : RowsAbove) (cur : List ℕ)
        (n : ℕ) → n ≤ length above.one →
        (l : Lined coding old new above cur n) → AreSmall l.residuals }
    ensures small_refused { (coding : RowCoding) (old new : Decoder) (above : RowsAbove)
        (cur : List ℕ) (n : ℕ) → n ≤ length above.one →
        (r : LinedToRefusal coding old new above cur n) → AreSmall r.residuals }
    ensures read { (coding : RowCoding) (old new : Decoder) (above : RowsAbove) (cur : List ℕ)
        (n : ℕ) → n ≤ length above.one →
        Lined coding old new above cur n →
        CountedAtMost old.reading.counts new.reading.counts (63 * n) }
    ensures refused { (coding : RowCoding) (old new : Decoder) (above : RowsAbove) (cur : List ℕ)
        (n : ℕ) → n ≤ length above.one →
        LinedToRefusal coding old new above cur n →
        CountedAtMost old.reading.counts new.reading.counts (63 * n + 32) }
    ensures written { (coding : RowCoding) (old new : Encoder) (above : RowsAbove) (cur : List ℕ)
        (n : ℕ) → 0 < coding.bits → coding.bits < 32 → n ≤ length above.one →
        Written coding old new above cur n →
        CountedAtMost old.writing.counts new.writing.counts ((2 * coding.bits + 1) * n) }
{}

/// A number has d binary digits if it is at least 2^(d-1) and below 2^d, and 0 has none.
pub fn binary_digits_bound_a_number()
    ensures least { (n : ℕ) → 0 < n → 2 ^ (binary_digits n - 1) ≤ n }
    ensures most { (n : ℕ) → n < 2 ^ binary_digits n }
    ensures none { binary_digits 0 ≡ 0 }
{}

/// Cells that agree on the rows up to one row have the same decisions of it, and the same residuals
/// suit it.
pub fn agreeing_cells_code_rows_alike()
    ensures steps { (set : Set) (c d : Cell) (y x : ℕ) (qs : List ℤ) → Agree c d y →
        row_steps set c y x qs ≡ row_steps set d y x qs }
    ensures suits { (set : Set) (bits : ℕ) (c d : Cell) (y x : ℕ) (qs : List ℤ) → Agree c d y →
        AreSuiting set bits c y x qs → AreSuiting set bits d y x qs }
{}

/// Residuals that suit a row have a symbol each, and the row's samples have `bits` bits.
pub fn suiting_residuals_have_symbols()
    ensures small { (set : Set) (bits : ℕ) (c : Cell) (y x : ℕ) (qs : List ℤ) →
        AreSuiting set bits c y x qs → AreSmall qs }
    ensures below { (set : Set) (bits : ℕ) (c : Cell) (y x : ℕ) (qs : List ℤ) →
        AreSuiting set bits c y 0 qs → x < length qs → x < c.width → c.at x y < 2 ^ bits }
{}
