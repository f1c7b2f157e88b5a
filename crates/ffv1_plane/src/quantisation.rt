//! Quantisation table sets, and the contexts of places by them.

ghost use Rattle.std.specs.Prelude.{◌≡◌, ℕ, ◌+◌, ◌-◌, ◌*◌, ◌^◌, ◌<◌, ◌≤◌, ◌↔◌, IfOk, IsErrOf};
ghost use Rattle.std.specs.Prelude.{IsOkUnless};
ghost use Rattle.std.specs.Prelude.{IsTrue, IsFalse, length, map, slice_index_or, [], ◌∷◌, pos};
ghost use Rattle.std.specs.Prelude.{◌-ℤ◌, List};
ghost use Rattle.ffv1_plane.specs.declared.prediction.Around.{Around};
ghost use Rattle.ffv1_plane.specs.Quantisation.{Set, IsSet, are_filled, contexts_of, small_set};
ghost use Rattle.ffv1_plane.specs.Quantisation.{large_set, HasThreeTables, HasFewLevels};
ghost use Rattle.ffv1_plane.specs.Context.{size_of, flip_of, context_of};
ghost use Rattle.ffv1_plane.specs.Early.{IsEarly, IsEarlySomewhere};
ghost use Rattle.ffv1_plane.specs.Raised.{AreRaised, AreSetLanes, table_of, raised_sum};
ghost use Rattle.ffv1_plane.specs.Lanes.{AreAround};

use crate::fault::Fault;
use crate::lanes::{AboveLanes, AroundLanes};
use crate::prediction::Around;
use crate::table::{Table, TableLanes, fills, scale_after};
use std::alloc::{AllocError, Allocator, Global};
use std::marker::Model;
use std::simd::prelude::*;

/// A quantisation table set (RFC 9043, 3.4): five tables of 256 entries, one for each difference
/// that makes a context. In a contract a set is the runs of its five tables, so two sets with the
/// same runs are equal.
// The five tables are fields, not an array: a look-up by a field needs no index, and the set's
// invariant names each table's scale.
pub struct QuantSet<A: Allocator = Global> {
    first: Table<A>,
    second: Table<A>,
    third: Table<A>,
    fourth: Table<A>,
    fifth: Table<A>,
    pub(crate) half: u32,
}

// Written out, so that who lets a set go calls one function, and does not let go of each table.
impl<A: Allocator> Drop for QuantSet<A> {
    fn drop(self) {
        let QuantSet {
            first: _first,
            second: _second,
            third: _third,
            fourth: _fourth,
            fifth: _fifth,
            half: _half,
        } = self;
    }
}

impl<A: Allocator> Model for QuantSet<A> {
    ghost use Rattle.std.specs.Prelude.{[], ◌∷◌};
    ghost use Rattle.ffv1_plane.specs.Quantisation.{Set};
    ghost use Rattle.ffv1_plane.specs.Raised.{AreRaised};

    ghost Value = { Set };

    ghost view = { λ s. s.first.runs ∷ s.second.runs ∷ s.third.runs ∷ s.fourth.runs ∷ s.fifth.runs ∷
        [] };

    ghost invariant = { λ s. AreRaised s.first s.second s.third s.fourth s.fifth s.half };
}

/// What the sums of 16 places take of a set, in 16 lanes each: the lanes of its tables, what the
/// early part of a sum is raised by beside them, and the sum of the greatest entries.
#[derive(Clone, Copy)]
pub struct SetLanes {
    pub(crate) first: TableLanes,
    pub(crate) second: TableLanes,
    pub(crate) third: TableLanes,
    pub(crate) fourth: TableLanes,
    pub(crate) fifth: TableLanes,
    pub(crate) raise: u16x16,
    pub(crate) half: u16x16,
}

/// The runs of a table of eleven levels.
const ELEVEN: [u8; 6] = [1, 1, 3, 7, 11, 105];

/// The runs of a table of five levels.
const FIVE: [u8; 3] = [3, 11, 114];

/// The runs of a table of one level.
const ONE: [u8; 1] = [128];

/// The scales of a set's tables but the first, whose scale is 1, and the sum of the tables'
/// greatest entries.
#[derive(Clone, Copy)]
struct Scales {
    second: u16,
    third: u16,
    fourth: u16,
    fifth: u16,
    half: u32,
}

/// The runs of a set's tables.
#[derive(Clone, Copy)]
struct FiveRuns<'a> {
    first: &'a [u8],
    second: &'a [u8],
    third: &'a [u8],
    fourth: &'a [u8],
    fifth: &'a [u8],
}

/// The scales of five tables by their runs, or why the runs make no set.
fn scales_of(runs: &FiveRuns<'_>) -> Result<Scales, Fault>
    ensures runs { let set = runs.now.first.now ∷ runs.now.second.now ∷ runs.now.third.now ∷
        runs.now.fourth.now ∷ runs.now.fifth.now ∷ [] in
        IsErrOf result Fault.Runs ↔ IsFalse (are_filled set) }
    ensures contexts { let set = runs.now.first.now ∷ runs.now.second.now ∷ runs.now.third.now ∷
        runs.now.fourth.now ∷ runs.now.fifth.now ∷ [] in
        IsErrOf result Fault.Contexts ↔ (IsTrue (are_filled set) × (32768 < contexts_of set)) }
    ensures memory { IsErrOf result Fault.OutOfMemory → ⊥ }
    ensures ok { IfOk result (λ s. AreRaised (table_of runs.now.first.now 1)
        (table_of runs.now.second.now s.second) (table_of runs.now.third.now s.third)
        (table_of runs.now.fourth.now s.fourth) (table_of runs.now.fifth.now s.fifth) s.half) }
{
    let FiveRuns {
        first,
        second,
        third,
        fourth,
        fifth,
    } = *runs;
    if !(fills(first) && fills(second) && fills(third) && fills(fourth) && fills(fifth)) {
        return Err(Fault::Runs);
    }
    let second_scale = scale_after(1, first);
    let third_scale = scale_after(second_scale, second);
    let fourth_scale = scale_after(third_scale, third);
    let fifth_scale = scale_after(fourth_scale, fourth);
    let scale = scale_after(fifth_scale, fifth);
    if scale > 65536 {
        return Err(Fault::Contexts);
    }
    Ok(Scales {
        second: second_scale as u16,
        third: third_scale as u16,
        fourth: fourth_scale as u16,
        fifth: fifth_scale as u16,
        half: ((scale - 1) / 2) as u32,
    })
}

/// The set of five tables by their runs and scales.
fn build<A: Allocator + Copy>(
    alloc: A,
    runs: &FiveRuns<'_>,
    scales: Scales,
) -> Result<QuantSet<A>, AllocError>
    requires { AreRaised (table_of runs.now.first.now 1)
        (table_of runs.now.second.now scales.second) (table_of runs.now.third.now scales.third)
        (table_of runs.now.fourth.now scales.fourth) (table_of runs.now.fifth.now scales.fifth)
        scales.half }
    ensures { IfOk result (λ s. s ≡ runs.now.first.now ∷ runs.now.second.now ∷ runs.now.third.now ∷
        runs.now.fourth.now ∷ runs.now.fifth.now ∷ []) }
{
    let first = Table::new(alloc, runs.first, 1)?;
    let second = Table::new(alloc, runs.second, scales.second)?;
    let third = Table::new(alloc, runs.third, scales.third)?;
    let fourth = Table::new(alloc, runs.fourth, scales.fourth)?;
    let fifth = Table::new(alloc, runs.fifth, scales.fifth)?;
    Ok(QuantSet {
        first,
        second,
        third,
        fourth,
        fifth,
        half: scales.half,
    })
}

impl<A: Allocator + Copy> QuantSet<A> {
    /// The set of five tables by their runs (RFC 9043, 4.1): run `v` of a table, from 0, gives
    /// `scale * v` to its next entries until 128 are filled.
    ///
    /// Refuses with `Fault::Runs` if a table has no run, a run of 0, or runs that do not fill
    /// 128 entries exactly; else with `Fault::Contexts` if the set has more than 32768 contexts;
    /// else with `Fault::OutOfMemory` if a growth is refused.
    pub fn from_runs(alloc: A, runs: &[&[u8]; 5]) -> Result<QuantSet<A>, Fault>
        ensures runs { IsErrOf result Fault.Runs ↔ IsFalse
            (are_filled (map (λ r. r.now) runs.now)) }
        ensures contexts { let set = map (λ r. r.now) runs.now in
            IsErrOf result Fault.Contexts ↔ (IsTrue (are_filled set) × (32768 < contexts_of set)) }
        ensures memory { IsErrOf result Fault.OutOfMemory → IsSet (map (λ r. r.now) runs.now) }
        ensures ok { IfOk result (λ s. s ≡ map (λ r. r.now) runs.now) }
        ensures set { IfOk result (λ s. IsSet s) }
    {
        let [first, second, third, fourth, fifth] = *runs;
        let runs = FiveRuns {
            first,
            second,
            third,
            fourth,
            fifth,
        };
        let scales = scales_of(&runs)?;
        let set = build(alloc, &runs, scales)?;
        Ok(set)
    }

    /// The set of the runs 1 1 3 7 11 105 three times and 128 twice, of 666 contexts: the samples
    /// two to the left and two above count for nothing. Refuses with `Fault::OutOfMemory` alone,
    /// if a growth is refused.
    pub fn small(alloc: A) -> Result<QuantSet<A>, Fault>
        ensures ok { IfOk result (λ s. s ≡ small_set) }
        ensures contexts { IfOk result (λ s. contexts_of s ≡ 666) }
        ensures refused { IsOkUnless result Fault.OutOfMemory }
    {
        let eleven = ELEVEN.as_slice();
        let one = ONE.as_slice();
        QuantSet::from_runs(alloc, &[eleven, eleven, eleven, one, one])
    }

    /// The set of the runs 1 1 3 7 11 105 three times and 3 11 114 twice, of 16638 contexts.
    /// Refuses with `Fault::OutOfMemory` alone, if a growth is refused.
    pub fn large(alloc: A) -> Result<QuantSet<A>, Fault>
        ensures ok { IfOk result (λ s. s ≡ large_set) }
        ensures contexts { IfOk result (λ s. contexts_of s ≡ 16638) }
        ensures refused { IsOkUnless result Fault.OutOfMemory }
    {
        let eleven = ELEVEN.as_slice();
        let five = FIVE.as_slice();
        QuantSet::from_runs(alloc, &[eleven, eleven, eleven, five, five])
    }
}

impl<A: Allocator> QuantSet<A> {
    /// The number of contexts, from 1 to 32768 (RFC 9043, 4.1): half of the scale after the five
    /// tables, rounded up.
    pub fn contexts(&self) -> u32
        ensures value { result ≡ contexts_of self.now }
        ensures some { 0 < result }
        ensures few { result ≤ 32768 }
    {
        self.half + 1
    }

    /// The runs of a table, from 0 to 4.
    pub fn runs(&self, table: usize) -> &[u8]
        requires { table < 5 }
        ensures { result.now ≡ slice_index_or self.now table [] }
    {
        match table {
            0 => self.first.runs(),
            1 => self.second.runs(),
            2 => self.third.runs(),
            3 => self.fourth.runs(),
            _ => self.fifth.runs(),
        }
    }

    /// Whether the samples two to the left and two above count for nothing: whether the fourth and
    /// the fifth table have one level.
    pub fn has_three_tables(&self) -> bool
        ensures { IsTrue result ↔ HasThreeTables self.now }
    {
        self.fourth.runs().len() == 1 && self.fifth.runs().len() == 1
    }

    /// Whether each table has at most eleven levels.
    pub fn has_few_levels(&self) -> bool
        ensures { IsTrue result ↔ HasFewLevels self.now }
    {
        let first = self.first.runs().len();
        let second = self.second.runs().len();
        let third = self.third.runs().len();
        let fourth = self.fourth.runs().len();
        let fifth = self.fifth.runs().len();
        first.max(second).max(third).max(fourth).max(fifth) <= 6
    }

    /// What the sums of 16 places take, made once before a loop over blocks of 16.
    #[inline(always)]
    pub fn lanes(&self) -> SetLanes
        ensures { AreSetLanes self.now result }
    {
        SetLanes {
            first: self.first.lanes(),
            second: self.second.lanes(),
            third: self.third.lanes(),
            fourth: self.fourth.lanes(),
            fifth: self.fifth.lanes(),
            raise: u16x16::splat((RAISE - self.half) as u16),
            half: u16x16::splat(self.half as u16),
        }
    }

    /// The early parts of the sums of 16 places, as of `early_sum`, by the set's lanes.
    /// `three_tables` may be said of a set whose fourth and fifth tables have one level.
    #[inline(always)]
    pub(crate) fn early_lanes(
        &self,
        lanes: &SetLanes,
        above: &AboveLanes,
        three_tables: bool,
    ) -> u16x16
        requires few { HasFewLevels self.now }
        requires lanes { AreSetLanes self.now lanes.now }
        requires three_tables { IsTrue three_tables → HasThreeTables self.now }
        ensures { (places : List ℕ) (f g h k : ℕ → ℕ) → length places ≡ 16 →
            above.now.tl ≡ map f places → above.now.t ≡ map g places →
            above.now.tr ≡ map h places → above.now.tt ≡ map k places →
            ((x : ℕ) → g x < 2 ^ 16) → ((x : ℕ) → h x < 2 ^ 16) →
            (sum : ℕ → ℕ) × (result ≡ map sum places) ×
            ((x : ℕ) → IsEarly self.now (f x) (g x) (h x) (k x) (sum x)) }
    {
        let sum = self.second.raised_lanes(&lanes.second, above.tl, above.t)
            + self.third.raised_lanes(&lanes.third, above.t, above.tr)
            + lanes.raise;
        if three_tables {
            return sum;
        }
        sum + self.fifth.raised_lanes(&lanes.fifth, above.tt, above.t)
    }

    /// The sums of the look-ups of 16 places, each raised by the sum of the greatest entries, by
    /// the set's lanes. `three_tables` may be said of a set whose fourth and fifth tables have one
    /// level.
    #[inline(always)]
    pub(crate) fn sum_lanes(
        &self,
        lanes: &SetLanes,
        around: &AroundLanes,
        three_tables: bool,
    ) -> u16x16
        requires few { HasFewLevels self.now }
        requires lanes { AreSetLanes self.now lanes.now }
        requires three_tables { IsTrue three_tables → HasThreeTables self.now }
        ensures sums { (places : List ℕ) (a : ℕ → Around) → length places ≡ 16 →
            AreAround around.now places a →
            result ≡ map (λ x. raised_sum self.now (a x)) places }
        ensures few { contexts_of self.now ≤ 32768 }
        ensures context { (a : Around) →
            context_of self.now a ≡ pos (raised_sum self.now a) -ℤ pos (contexts_of self.now - 1) }
        ensures most { (a : Around) → raised_sum self.now a ≤ 2 * (contexts_of self.now - 1) }
    {
        let early = self.second.raised_lanes(&lanes.second, around.tl, around.t)
            + self.third.raised_lanes(&lanes.third, around.t, around.tr);
        let left = self.first.raised_lanes(&lanes.first, around.l, around.tl);
        if three_tables {
            return left + early;
        }
        let far = self.fourth.raised_lanes(&lanes.fourth, around.ll, around.l)
            + self.fifth.raised_lanes(&lanes.fifth, around.tt, around.t);
        left + early + far
    }

    /// A law of each set: it is five filled tables with at most 32768 contexts, and the number of
    /// each place's context is below the number of contexts.
    pub fn is_a_bounded_set(&self)
        ensures set { IsSet self.now }
        ensures below { (a : Around) → size_of self.now a < contexts_of self.now }
    {
        let _half = self.half;
    }
}

/// The context of a sum of raised entries: its number, which is how far the sum lies from `half`,
/// the sum of the greatest entries, and whether it lies below.
#[inline(always)]
fn unraised(sum: u32, half: u32) -> (u32, bool)
    ensures size { (set : Set) (a : Around) → context_of set a ≡ pos sum -ℤ pos half →
        result.0 ≡ size_of set a }
    ensures flip { (set : Set) (a : Around) → context_of set a ≡ pos sum -ℤ pos half →
        result.1 ≡ flip_of set a }
    ensures below { sum ≤ 2 * half → result.0 ≤ half }
{
    if sum < half {
        (half - sum, true)
    } else {
        (sum - half, false)
    }
}

/// The context of a sample (RFC 9043, 3.5): its number, which is the size of the sum of the five
/// look-ups, each by the low eight bits of a difference, and whether the sum is negative, so that
/// the sign of the sample difference is flipped. The number is below `set.contexts()`.
#[inline(always)]
pub fn context<A: Allocator>(set: &QuantSet<A>, around: &Around) -> (u32, bool)
    ensures size { result.0 ≡ size_of set.now around.now }
    ensures flip { result.1 ≡ flip_of set.now around.now }
    ensures below { result.0 < contexts_of set.now }
{
    let early = set.second.raised(around.tl, around.t)
        + set.third.raised(around.t, around.tr)
        + set.fifth.raised(around.tt, around.t);
    let sum = set.first.raised(around.l, around.tl)
        + (set.fourth.raised(around.ll, around.l) + early);
    unraised(sum, set.half)
}

/// The same in a set whose fourth and fifth tables have one level, without a look-up in them.
#[inline(always)]
pub fn context_by_three_tables<A: Allocator>(set: &QuantSet<A>, around: &Around) -> (u32, bool)
    requires { HasThreeTables set.now }
    ensures size { result.0 ≡ size_of set.now around.now }
    ensures flip { result.1 ≡ flip_of set.now around.now }
    ensures below { result.0 < contexts_of set.now }
{
    let early = set.second.raised(around.tl, around.t) + set.third.raised(around.t, around.tr);
    let sum = set.first.raised(around.l, around.tl) + early;
    unraised(sum, set.half)
}

/// What the sum that makes a context is raised by, so that it is not negative.
const RAISE: u32 = 32768;

/// The early part of the sum that makes a context, which the rows above decide: the entries of the
/// second, the third and the fifth table, each raised by its table's greatest, and how far the sum
/// of all five tables' greatest lies below 32768. `three_tables` may be said of a set whose fourth
/// and fifth tables have one level: then the fifth is not looked up.
#[inline(always)]
pub fn early_sum<A: Allocator>(
    set: &QuantSet<A>,
    tl: u16,
    t: u16,
    tr: u16,
    tt: u16,
    three_tables: bool,
) -> u16
    requires { IsTrue three_tables → HasThreeTables set.now }
    ensures { IsEarly set.now tl t tr tt result }
{
    let sum = set.second.raised(tl, t) + set.third.raised(t, tr) + (RAISE - set.half);
    if three_tables {
        return sum as u16;
    }
    (sum + set.fifth.raised(tt, t)) as u16
}

/// The context of a sample (RFC 9043, 3.5) by the early part of its sum and the samples that the
/// rest takes, as with `context`. `three_tables` may be said of a set whose fourth and fifth tables
/// have one level: then the fourth is not looked up.
#[inline(always)]
pub fn late_context<A: Allocator>(
    set: &QuantSet<A>,
    sum: u16,
    l: u16,
    tl: u16,
    ll: u16,
    three_tables: bool,
) -> (u32, bool)
    requires three_tables { IsTrue three_tables → HasThreeTables set.now }
    requires early { IsEarlySomewhere set.now tl sum }
    ensures size { (t tr tt : ℕ) → IsEarly set.now tl t tr tt sum → result.0 ≡ size_of set.now
        (record { l = l; t = t; tl = tl; tr = tr; ll = ll; tt = tt }) }
    ensures flip { (t tr tt : ℕ) → IsEarly set.now tl t tr tt sum → result.1 ≡ flip_of set.now
        (record { l = l; t = t; tl = tl; tr = tr; ll = ll; tt = tt }) }
    ensures below { result.0 < contexts_of set.now }
{
    let sum = sum as u32 + set.first.raised(l, tl);
    if three_tables {
        return unraised(sum, RAISE);
    }
    unraised(sum + set.fourth.raised(ll, l), RAISE)
}

/// Two sets are equal if their tables have the same runs, and so the same entries.
impl<A: Allocator> PartialEq for QuantSet<A> {
    ghost use Rattle.std.specs.Prelude.{◌≡◌, ◌↔◌, IsTrue, nat_eq};
    ghost use lib.Pointwise.{pointwise};
    ghost use Rattle.std.specs.Cmp.{partial_equiv_from_equiv};
    ghost use Rattle.std.proofs.lemmas.Cmp.{lists_equiv, nat_list_eq_equiv};

    ghost eq = { pointwise (pointwise nat_eq) };

    ghost laws = { partial_equiv_from_equiv (lists_equiv nat_list_eq_equiv) };

    fn eq(&self, other: &QuantSet<A>) -> bool
        ensures value { result ≡ pointwise (pointwise nat_eq) self.now other.now }
        ensures same { IsTrue result ↔ (self.now ≡ other.now) }
    {
        self.first.runs() == other.first.runs()
            && self.second.runs() == other.second.runs()
            && self.third.runs() == other.third.runs()
            && self.fourth.runs() == other.fourth.runs()
            && self.fifth.runs() == other.fifth.runs()
    }
}

impl<A: Allocator> Eq for QuantSet<A> {
    ghost use Rattle.std.proofs.lemmas.Cmp.{lists_equiv, nat_list_eq_equiv};

    ghost laws = { lists_equiv nat_list_eq_equiv };
}
