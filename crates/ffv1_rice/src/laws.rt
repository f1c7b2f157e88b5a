//! Laws of the definitions.

ghost use Rattle.std.specs.Prelude.{◌≡◌, ℕ, ◌+◌, ◌-◌, ◌*◌, ◌^◌, ◌<◌, ◌≤◌, ◌++◌, ◌⊎◌, List, Bool};
ghost use Rattle.std.specs.Prelude.{◌∷◌, None, drop, length, slice_index, ℤ};
ghost use Rattle.ffv1_plane.specs.Residual.{IsFolded};
ghost use Rattle.ffv1_rice.specs.declared.state.State.{State};
ghost use Rattle.ffv1_rice.specs.Number.{number_bits, Ends, IsBad};
ghost use Rattle.ffv1_rice.specs.States.{IsState, parameter};
ghost use Rattle.ffv1_rice.specs.Scalar.{scalar_bits, scalar_after};
ghost use Rattle.ffv1_rice.specs.Row.{Coder, Place, row_bits, place_bits, IsRunning};
ghost use Rattle.ffv1_rice.specs.Row.{AreAlike, AreContexts, AreFolded, places_after, places_of};
ghost use Rattle.ffv1_rice.specs.Row.{KnowSame};
ghost use Rattle.ffv1_plane.specs.Quantisation.{IsSet, Set, contexts_of};
ghost use Rattle.ffv1_rice.specs.Rows.{AreSamples, CodesRow, IsRefused, Reading, read_by};
ghost use Rattle.ffv1_rice.specs.Bits.{bits_of, IsPadding};
ghost use Rattle.ffv1_rice.specs.Run.{run_log};
ghost use Rattle.ffv1_rice.specs.declared.fault.Fault.{Fault};

use ffv1_plane::laws as plane_laws;

/// Bits begin with one number at most.
pub fn bits_begin_with_one_number()
    ensures { (bits k m n : ℕ) (rest others : List Bool) → m < 2 ^ bits → n < 2 ^ bits →
        number_bits bits k m ++ rest ≡ number_bits bits k n ++ others →
        (m ≡ n) × (rest ≡ others) }
{}

/// Bits that begin with a number do not end within one and are not refused; and no bits are refused
/// for both reasons. So a number that is coded is read, and what is read is the number.
pub fn bits_of_a_number_are_read()
    ensures whole { (bits k n : ℕ) (text rest : List Bool) → n < 2 ^ bits →
        text ≡ number_bits bits k n ++ rest → Ends bits k text → ⊥ }
    ensures good { (bits k n : ℕ) (text rest : List Bool) → n < 2 ^ bits →
        text ≡ number_bits bits k n ++ rest → IsBad bits k text → ⊥ }
    ensures one_reason { (bits k : ℕ) (text : List Bool) → Ends bits k text →
        IsBad bits k text → ⊥ }
{}

/// A number takes at least one bit, and at most 12 and those of a difference.
pub fn number_takes_few_bits()
    ensures some { (bits k n : ℕ) → 1 ≤ length (number_bits bits k n) }
    ensures most { (bits k n : ℕ) → k ≤ bits → length (number_bits bits k n) ≤ 12 + bits }
{}

/// Bits begin with one difference at most, by the state of a context.
pub fn bits_begin_with_one_difference()
    ensures { (depth : ℕ) (s : State) (d e : ℤ) (rest others : List Bool) → 0 < depth →
        IsFolded depth d → IsFolded depth e →
        scalar_bits depth s d ++ rest ≡ scalar_bits depth s e ++ others →
        (d ≡ e) × (rest ≡ others) }
{}

/// Bits that begin with a difference are read.
pub fn bits_of_a_difference_are_read()
    ensures whole { (depth : ℕ) (s : State) (d : ℤ) (text rest : List Bool) → 0 < depth →
        text ≡ scalar_bits depth s d ++ rest → Ends depth (parameter s) text → ⊥ }
    ensures good { (depth : ℕ) (s : State) (d : ℤ) (text rest : List Bool) → 0 < depth →
        text ≡ scalar_bits depth s d ++ rest → IsBad depth (parameter s) text → ⊥ }
{}

/// A difference takes at least one bit, and at most 12 and those of its depth; and its state stays
/// within its bounds.
pub fn difference_takes_few_bits()
    ensures some { (depth : ℕ) (s : State) (d : ℤ) → 1 ≤ length (scalar_bits depth s d) }
    ensures most { (depth : ℕ) (s : State) (d : ℤ) → 0 < depth → IsState depth s →
        length (scalar_bits depth s d) ≤ 12 + depth }
    ensures state { (depth : ℕ) (s : State) (d : ℤ) → 3 ≤ depth → depth ≤ 9 → IsState depth s →
        IsState depth (scalar_after depth s d) }
{}

/// The coding of a row is unique: bits begin with the coding of one row at most. The contexts of
/// the two rows are one as long as their differences are.
pub fn bits_begin_with_one_row()
    ensures { (depth : ℕ) (c : Coder) (ps qs : List Place) (rest others : List Bool) → 0 < depth →
        IsRunning c.index c.run → AreAlike ps qs → AreFolded depth ps → AreFolded depth qs →
        row_bits depth c ps ++ rest ≡ row_bits depth c qs ++ others → (ps ≡ qs) × (rest ≡ others) }
{}

/// A place takes at most 27 bits and those of a difference, 35 or 36, while the index of the run is
/// at most 30; and a row at least one.
pub fn place_takes_few_bits()
    ensures most { (depth : ℕ) (c : Coder) (p : Place) → 0 < depth → c.index ≤ 30 →
        IsRunning c.index c.run → IsState depth (c.states p.context) →
        length (place_bits depth c p) ≤ 27 + depth }
    ensures some { (depth : ℕ) (c : Coder) (p : Place) (ps : List Place) → IsRunning c.index c.run →
        1 ≤ length (row_bits depth c (p ∷ ps)) }
{}

/// The index of the runs stays at most as it is where rows are too short for a run by it: at most
/// 30 if a row has up to 8192 samples.
pub fn run_index_stays_small()
    ensures most { (depth limit : ℕ) (c : Coder) (ps : List Place) → c.run ≡ None →
        length ps < 2 ^ run_log limit → c.index ≤ limit →
        (places_after depth c ps).index ≤ limit }
    ensures thirty { (depth : ℕ) (c : Coder) (ps : List Place) → c.run ≡ None →
        length ps ≤ 8192 → c.index ≤ 30 → (places_after depth c ps).index ≤ 30 }
{}

/// What codes something and is filled up by zeros to the end of its byte is one list of bytes.
pub fn padded_bits_are_of_the_same_bytes()
    ensures { (code rest others : List Bool) (xs ys : List ℕ) →
        ((k : ℕ) → slice_index xs k < 256) → ((k : ℕ) → slice_index ys k < 256) →
        bits_of xs ≡ code ++ rest → bits_of ys ≡ code ++ others → IsPadding rest →
        IsPadding others → xs ≡ ys }
{}

/// The bits of two rows of samples below the same rows are one only if the rows are: what is read
/// is the only row that the bits begin with.
pub fn bits_begin_with_one_row_of_samples()
    ensures { (r : Reading) (row other : List ℕ) (rest others : List Bool) →
        (r.depth ≡ 8) ⊎ (r.depth ≡ 9) → IsRunning r.start.index r.start.run →
        length row ≡ length other → CodesRow r row rest → CodesRow r other others →
        (row ≡ other) × (rest ≡ others) }
{}

/// Bits that begin with a row are not refused, and others are refused at one place and for one
/// reason. Before that place samples are those that were read.
pub fn a_row_is_refused_in_one_way()
    ensures coded { (r : Reading) (row other : List ℕ) (x : ℕ) (fault : Fault)
        (rest : List Bool) → (r.depth ≡ 8) ⊎ (r.depth ≡ 9) → IsRunning r.start.index r.start.run →
        length row ≡ length other → x < length row → AreSamples r.depth x row →
        IsRefused r row x fault → CodesRow r other rest → ⊥ }
    ensures once { (r : Reading) (row other : List ℕ) (x y : ℕ) (fault reason : Fault) →
        (r.depth ≡ 8) ⊎ (r.depth ≡ 9) → IsRunning r.start.index r.start.run →
        length row ≡ length other → x < length row → y < length other →
        AreSamples r.depth x row → AreSamples r.depth y other → IsRefused r row x fault →
        IsRefused r other y reason → (x ≡ y) × (fault ≡ reason) }
{}

/// A row of up to 8192 places takes at most 27 bits and those of a difference for each, 35 or 36,
/// if it begins with an index of at most 30 and its contexts have states.
pub fn row_takes_few_bits()
    ensures { (depth contexts : ℕ) (c : Coder) (ps : List Place) → 3 ≤ depth → depth ≤ 9 →
        c.run ≡ None → c.index ≤ 30 → length ps ≤ 8192 → AreContexts contexts ps →
        ((k : ℕ) → k < contexts → IsState depth (c.states k)) →
        length (row_bits depth c ps) ≤ (27 + depth) * length ps }
{}

/// A row is coded by the states of the contexts of its set alone: coders that know the same of
/// them have the same bits for it, know the same behind it, and are refused alike.
pub fn a_row_needs_its_contexts_alone()
    ensures contexts { (set : Set) → IsSet set → (depth : ℕ) (two one row : List ℕ) (n : ℕ) →
        AreContexts (contexts_of set) (places_of set depth two one row n) }
    ensures bits { (depth contexts : ℕ) (c d : Coder) (ps : List Place) →
        KnowSame contexts c d → AreContexts contexts ps →
        row_bits depth c ps ≡ row_bits depth d ps }
    ensures after { (depth contexts : ℕ) (c d : Coder) (ps : List Place) →
        KnowSame contexts c d → AreContexts contexts ps →
        KnowSame contexts (places_after depth c ps) (places_after depth d ps) }
    ensures codes { (r : Reading) (start : Coder) (row : List ℕ) (rest : List Bool) →
        IsSet r.set → KnowSame (contexts_of r.set) r.start start →
        CodesRow r row rest → CodesRow (read_by r start) row rest }
    ensures refused { (r : Reading) (start : Coder) (row : List ℕ) (x : ℕ) (fault : Fault) →
        IsSet r.set → KnowSame (contexts_of r.set) r.start start →
        IsRefused r row x fault → IsRefused (read_by r start) row x fault }
{
    plane_laws::contexts_stay_below_their_count();
}

/// Bits that are left after some others are those that are woken by how many they are.
pub fn bits_that_are_left_are_the_last()
    ensures { (bytes : List ℕ) (read text : List Bool) → bits_of bytes ≡ read ++ text →
        (length text ≤ 8 * length bytes)
        × (drop (8 * length bytes - length text) (bits_of bytes) ≡ text) }
{}
