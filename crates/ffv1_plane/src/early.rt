//! What the rows above decide of the places of a block, before the samples to their left are known.

ghost use Rattle.std.specs.Prelude.{◌≡◌, ℕ, ◌+◌, ◌^◌, ◌≤◌, ◌<◌, ◌⊎◌, IsTrue, length, slice_index};
ghost use Rattle.std.specs.Prelude.{pos, unsigned_abs};
ghost use Rattle.ffv1_plane.specs.Residual.{turned, sample_of};
ghost use Rattle.ffv1_plane.specs.Quantisation.{HasThreeTables, HasFewLevels};
ghost use Rattle.ffv1_plane.specs.Early.{AreAbove, AreBounds, AreEarly, left_above};
ghost use Rattle.ffv1_plane.specs.Raised.{AreSetLanes};

use crate::lanes::AboveLanes;
use crate::quantisation::{QuantSet, SetLanes, early_sum};
use crate::residual::unfold;
use std::alloc::Allocator;
use std::simd::prelude::*;

/// The places of a block.
pub const BLOCK: usize = 128;

/// Of each place of a block, from its first on: the samples above to the left and above, the lesser
/// and the greater one of them, and the early part of the context's sum, as of `early_sum`.
#[derive(Clone, Copy)]
pub struct Early {
    /// Above, to the left.
    pub tl: [u16; BLOCK],
    /// Above.
    pub t: [u16; BLOCK],
    /// The lesser one of the two.
    pub least: [u16; BLOCK],
    /// The greater one.
    pub most: [u16; BLOCK],
    /// The early part of the sum.
    pub sum: [u16; BLOCK],
}

/// What the rows above a block of places of a row are summed by.
#[derive(Drop)]
pub struct BlockRows<'a, A: Allocator> {
    /// The quantisation table set.
    pub set: &'a QuantSet<A>,
    /// The row two above.
    pub two: &'a [u16],
    /// The row one above.
    pub one: &'a [u16],
    /// The row's place that is the block's first.
    pub from: usize,
    /// Said of no set but one whose fourth and fifth tables have one level.
    pub three_tables: bool,
}

/// The samples above to the left, from place `from` on.
#[inline(always)]
fn fill_left(two: &[u16], one: &[u16], from: usize, count: usize, tl: &mut [u16])
    requires some { 0 < count }
    requires wide { length two.now ≡ length one.now }
    requires within { from + count ≤ length one.now }
    requires room { count ≤ length tl.old }
    ensures { (i : ℕ) → i < count → slice_index tl.new i ≡ left_above two.now one.now (from + i) }
{
    tl[0] = if from == 0 { two[0] } else { one[from - 1] };
    for i in 1..count {
        tl[i] = one[from + i - 1];
    }
}

/// The samples above, from place `from` on.
#[inline(always)]
fn fill_above(one: &[u16], from: usize, count: usize, t: &mut [u16])
    requires within { from + count ≤ length one.now }
    requires room { count ≤ length t.old }
    ensures { (i : ℕ) → i < count → slice_index t.new i ≡ slice_index one.now (from + i) }
{
    for i in 0..count {
        t[i] = one[from + i];
    }
}

/// The lesser and the greater ones of two samples each.
#[inline(always)]
fn fill_bounds(tl: &[u16], t: &[u16], count: usize, least: &mut [u16], most: &mut [u16])
    requires tl_room { count ≤ length tl.now }
    requires t_room { count ≤ length t.now }
    requires least_room { count ≤ length least.old }
    requires most_room { count ≤ length most.old }
    ensures { AreBounds tl.now t.now least.new most.new count }
{
    for i in 0..count {
        least[i] = tl[i].min(t[i]);
        most[i] = tl[i].max(t[i]);
    }
}

/// A law of each row: its samples have 16 bits, also if the row is a field.
#[inline(always)]
fn are_words(row: &[u16])
    ensures { (x : ℕ) → slice_index row.now x < 2 ^ 16 }
{}

/// The early sums of places `start` to before `end` of a block.
#[inline(always)]
fn sum_places<A: Allocator>(
    rows: &BlockRows<'_, A>,
    start: usize,
    end: usize,
    tl: &[u16],
    sum: &mut [u16],
)
    requires three_tables { IsTrue rows.now.three_tables → HasThreeTables rows.now.set.now }
    requires wide { length rows.now.two.now ≡ length rows.now.one.now }
    requires ordered { start ≤ end }
    requires within { rows.now.from + end ≤ length rows.now.one.now }
    requires room { end ≤ length sum.old }
    requires tl_room { end ≤ length tl.now }
    requires left { (i : ℕ) → i < end → slice_index tl.now i ≡
        left_above rows.now.two.now rows.now.one.now (rows.now.from + i) }
    requires done { AreEarly rows.now.set.now rows.now.two.now rows.now.one.now rows.now.from
        sum.old start }
    ensures { AreEarly rows.now.set.now rows.now.two.now rows.now.one.now rows.now.from sum.new
        end }
{
    let BlockRows {
        set,
        two,
        one,
        from,
        three_tables,
    } = *rows;
    for i in start..end {
        let x = from + i;
        let right = (x + 1).min(one.len() - 1);
        sum[i] = early_sum(set, tl[i], one[x], one[right], two[x], three_tables);
    }
}

/// The early sums of 16 places of a block from `at` on, none of which is a border of the row, by
/// the set's lanes.
#[inline(always)]
fn sum_lanes<A: Allocator>(rows: &BlockRows<'_, A>, lanes: &SetLanes, at: usize, sum: &mut [u16])
    requires few { HasFewLevels rows.now.set.now }
    requires lanes { AreSetLanes rows.now.set.now lanes.now }
    requires three_tables { IsTrue rows.now.three_tables → HasThreeTables rows.now.set.now }
    requires wide { length rows.now.two.now ≡ length rows.now.one.now }
    requires inside { 0 < rows.now.from + at }
    requires within { rows.now.from + at + 17 ≤ length rows.now.one.now }
    requires room { at + 16 ≤ length sum.old }
    requires done { AreEarly rows.now.set.now rows.now.two.now rows.now.one.now rows.now.from
        sum.old at }
    ensures { AreEarly rows.now.set.now rows.now.two.now rows.now.one.now rows.now.from sum.new
        (at + 16) }
{
    let BlockRows {
        set,
        two,
        one,
        from,
        three_tables,
    } = *rows;
    are_words(one);
    let x = from + at;
    let above = AboveLanes {
        t: u16x16::from_slice(&one[x..]),
        tl: u16x16::from_slice(&one[x - 1..]),
        tr: u16x16::from_slice(&one[x + 1..]),
        tt: u16x16::from_slice(&two[x..]),
    };
    set.early_lanes(lanes, &above, three_tables)
        .copy_to_slice(&mut sum[at..]);
}

/// The early sums of the first `count` places of a block: those inside the row 16 at once, in a set
/// whose tables have few levels, and the last of these again if fewer than 16 are left.
#[inline(always)]
fn fill_sums<A: Allocator>(rows: &BlockRows<'_, A>, count: usize, tl: &[u16], sum: &mut [u16])
    requires three_tables { IsTrue rows.now.three_tables → HasThreeTables rows.now.set.now }
    requires some { 0 < count }
    requires wide { length rows.now.two.now ≡ length rows.now.one.now }
    requires within { rows.now.from + count ≤ length rows.now.one.now }
    requires room { count ≤ length sum.old }
    requires tl_room { count ≤ length tl.now }
    requires left { (i : ℕ) → i < count → slice_index tl.now i ≡
        left_above rows.now.two.now rows.now.one.now (rows.now.from + i) }
    ensures { AreEarly rows.now.set.now rows.now.two.now rows.now.one.now rows.now.from sum.new
        count }
{
    // After the last place that has a sample above to the right.
    let end = count.min(rows.one.len() - 1 - rows.from);
    let mut at = if rows.from == 0 { 1 } else { 0 };
    sum_places(rows, 0, at, tl, sum);
    if rows.set.has_few_levels() && 16 <= end && 16 < rows.from + end {
        let lanes = rows.set.lanes();
        while at < end {
            let start = at.min(end - 16);
            sum_lanes(rows, &lanes, start, sum);
            at = start + 16;
        }
    }
    sum_places(rows, at, count, tl, sum);
}

/// The number, its sign flipped or not, by a choice and no branch, which no one could predict.
#[inline(always)]
fn turn(flip: bool, number: i32) -> i32
    requires { unsigned_abs number < 2 ^ 31 }
    ensures { result ≡ turned flip number }
{
    if flip { -number } else { number }
}

/// The sample of a residual, as with `sample_from`, by its size and its sign. The sign is what a
/// decoder knows last, and so it is chosen by last.
#[inline(always)]
pub fn sample_signed(pred: i32, flip: bool, size: u32, negative: bool, bits: u8) -> u16
    requires bits { (bits ≡ 8) ⊎ (bits ≡ 9) }
    requires size { size < 2 ^ 31 }
    ensures value { pos result ≡ sample_of bits pred flip (turned negative (pos size)) }
    ensures small { result < 2 ^ bits }
{
    unfold(pred, turn(negative, turn(flip, size as i32)), bits)
}

impl Early {
    /// Room for a block, of zeros.
    #[inline(always)]
    pub fn new() -> Early {
        Early {
            tl: [0; BLOCK],
            t: [0; BLOCK],
            least: [0; BLOCK],
            most: [0; BLOCK],
            sum: [0; BLOCK],
        }
    }

    /// Fills the first `count` places with what is known of the places from `rows.from` on of the
    /// row below `rows.two` and `rows.one`.
    pub fn fill<A: Allocator>(&mut self, rows: &BlockRows<'_, A>, count: usize)
        requires three_tables { IsTrue rows.now.three_tables → HasThreeTables rows.now.set.now }
        requires wide { length rows.now.two.now ≡ length rows.now.one.now }
        requires some { 0 < count }
        requires few { count ≤ 128 }
        requires within { rows.now.from + count ≤ length rows.now.one.now }
        ensures above { AreAbove rows.now.two.now rows.now.one.now rows.now.from self.new.tl
            self.new.t count }
        ensures bounds { AreBounds self.new.tl self.new.t self.new.least self.new.most count }
        ensures early { AreEarly rows.now.set.now rows.now.two.now rows.now.one.now rows.now.from
            self.new.sum count }
    {
        // A copy of its own: no store of a sum can change it, so no turn reads it again.
        let BlockRows {
            set,
            two,
            one,
            from,
            three_tables,
        } = *rows;
        let own = BlockRows {
            set,
            two,
            one,
            from,
            three_tables,
        };
        fill_left(two, one, from, count, &mut self.tl);
        fill_above(one, from, count, &mut self.t);
        fill_bounds(&self.tl, &self.t, count, &mut self.least, &mut self.most);
        fill_sums(&own, count, &self.tl, &mut self.sum);
    }
}
