//! A block of places of a row, before its decisions are written.

ghost use Rattle.std.specs.Prelude.{◌≡◌, ◌+◌, ◌*◌, ◌<◌, ◌≤◌, length, slice_index};
ghost use Rattle.std.specs.Prelude.{take, ℕ, map, ◌^◌, unsigned_abs, List, IsTrue};
ghost use Rattle.std.specs.List.{range_with_len};
ghost use Rattle.ffv1_range.specs.History.{AreBelow};
ghost use Rattle.ffv1_range.specs.Listed.{steps_of};
ghost use Rattle.ffv1_plane.specs.Quantisation.{HasFewLevels, HasThreeTables, contexts_of};
ghost use Rattle.ffv1_plane.specs.Context.{size_of, flip_of};
ghost use Rattle.ffv1_plane.specs.Prediction.{predicted};
ghost use Rattle.ffv1_plane.specs.declared.prediction.Around.{Around as AroundPlace};
ghost use Rattle.ffv1_plane.specs.Raised.{AreSetLanes};
ghost use Rattle.ffv1_plane.specs.Residual.{IsFolded, chosen_of};
ghost use Rattle.ffv1_plane.specs.Lanes.{AreAround};
ghost use Rattle.ffv1_line.specs.Beside.{beside};
ghost use Rattle.ffv1_line.specs.Internal.Parts.{IsPart, IsBlockOf, ArePrepared, part_steps};
ghost use Rattle.ffv1_line.specs.Internal.Parts.{residual_by, residual_limit, kept_of, AreNumbered};
ghost use Rattle.ffv1_line.specs.Internal.Along.{AreUnsigned};

use crate::cell::neighbours::{context_by, right_above, sample_before, sample_two_before};
use crate::encode::part::Part;
use ffv1_plane::{
    Around, AroundLanes, QuantSet, SetLanes, choose_lanes, choose_lanes_of_bits, predict,
    residual_of, residual_of_bits,
};
use ffv1_range::list_signed;
use std::alloc::Allocator;
use std::simd::prelude::*;

/// How many places of a row are coded at once.
pub(crate) const PLACES: usize = 64;

/// How many numbers their decisions take at most, 19 a sample, with room for a row of the table of
/// symbols after them.
pub(crate) const LIST: usize = 1240;

/// A block of places, before and while its decisions are written.
#[derive(Drop)]
pub(crate) struct Block {
    /// The contexts.
    pub(crate) contexts: [u32; PLACES],
    /// The residuals: of 8 and 9 bits modulo 512, of more with half of `2^bits` added.
    pub(crate) residuals: [u16; PLACES],
    /// The residuals as signed numbers, if they are written symbol by symbol.
    pub(crate) numbers: [i32; PLACES],
    /// The decisions, if they are listed.
    pub(crate) list: [u32; LIST],
    /// Whether the block before had many decisions a sample.
    pub(crate) is_dense: bool,
}

/// A residual as a block has it.
#[inline(always)]
fn kept(residual: i32, bits: u8) -> u16
    requires bits { AreUnsigned bits }
    requires folded { IsFolded bits residual }
    ensures { result ≡ kept_of bits residual }
{
    if bits < 10 {
        return residual.rem_euclid(512) as u16;
    }
    (residual + (1 << (bits - 1))) as u16
}

/// The residual again.
#[inline(always)]
pub(crate) fn residual_from(number: u16, bits: u8) -> i32
    requires bits { AreUnsigned bits }
    requires small { number < residual_limit bits }
    ensures value { result ≡ residual_by bits number }
    ensures size { unsigned_abs result < 2 ^ 31 }
{
    let number = number as i32;
    if bits > 9 {
        return number - (1 << (bits - 1));
    }
    if number < 256 {
        return number;
    }
    number - 512
}

/// The residual that an encoder takes, of 8 to 15 bits.
#[inline(always)]
fn chosen_residual(prediction: i32, flip: bool, sample: u16, bits: u8) -> i32
    requires { AreUnsigned bits }
    ensures { result ≡ chosen_of bits prediction flip sample }
{
    if bits > 9 {
        return residual_of_bits(prediction, flip, sample, bits);
    }
    residual_of(prediction, flip, sample, bits)
}

/// The contexts and the residuals of places `start` to before `end` of a part, after those before
/// them.
#[inline(always)]
fn prepare_places<A: Allocator>(block: &mut Block, part: &Part<'_, A>, start: usize, end: usize)
    requires part { IsPart part.now }
    requires ordered { start ≤ end }
    requires few { end ≤ part.now.count }
    requires done { IsBlockOf part.now start block.old }
    ensures { IsBlockOf part.now end block.new }
{
    let Part {
        set,
        bits,
        three_tables,
        two,
        one,
        cur,
        from,
        ..
    } = *part;
    let last = cur.len() - 1;
    let mut ll = sample_two_before(one, cur, from + start);
    let mut l = sample_before(one, cur, from + start);
    let mut tl = sample_before(two, one, from + start);
    for k in start..end {
        let x = from + k;
        let t = one[x];
        let around = Around {
            l,
            t,
            tl,
            tr: right_above(one, x, last, t),
            ll,
            tt: two[x],
        };
        let (size, flip) = context_by(set, &around, three_tables);
        let sample = cur[x];
        let residual = chosen_residual(predict(&around), flip, sample, bits);
        block.contexts[k] = size;
        block.residuals[k] = kept(residual, bits);
        ll = l;
        l = sample;
        tl = t;
    }
}

/// The neighbours of 16 places of a row from `x` on, which all stand in the rows, and the samples
/// of these places.
#[inline(always)]
fn around_lanes(two: &[u16], one: &[u16], cur: &[u16], x: usize) -> (AroundLanes, u16x16)
    requires inside { 2 ≤ x }
    requires within { x + 17 ≤ length cur.now }
    requires two_long { length two.now ≡ length cur.now }
    requires one_long { length one.now ≡ length cur.now }
    ensures around { AreAround result.0 (range_with_len x 16) (beside two.now one.now cur.now) }
    ensures samples { result.1 ≡ map (slice_index cur.now) (range_with_len x 16) }
    ensures small { (k : ℕ) → slice_index cur.now k < 2 ^ 16 }
{
    let around = AroundLanes {
        l: u16x16::from_slice(&cur[x - 1..]),
        t: u16x16::from_slice(&one[x..]),
        tl: u16x16::from_slice(&one[x - 1..]),
        tr: u16x16::from_slice(&one[x + 1..]),
        ll: u16x16::from_slice(&cur[x - 2..]),
        tt: u16x16::from_slice(&two[x..]),
    };
    (around, u16x16::from_slice(&cur[x..]))
}

/// The numbers of the contexts of 16 places, and their residuals as a block has them.
#[inline(always)]
fn kept_lanes<A: Allocator>(
    set: &QuantSet<A>,
    lanes: &SetLanes,
    around: &AroundLanes,
    samples: u16x16,
    bits: u8,
    three_tables: bool,
) -> (u16x16, u16x16)
    requires bits { AreUnsigned bits }
    requires few { HasFewLevels set.now }
    requires lanes { AreSetLanes set.now lanes.now }
    requires three_tables { IsTrue three_tables → HasThreeTables set.now }
    ensures sizes { (places : List ℕ) (a : ℕ → AroundPlace) → length places ≡ 16 →
        AreAround around.now places a → result.0 ≡ map (λ x. size_of set.now (a x)) places }
    ensures residuals { (places : List ℕ) (a : ℕ → AroundPlace) (s : ℕ → ℕ) → length places ≡ 16 →
        AreAround around.now places a → samples ≡ map s places → ((x : ℕ) → s x < 2 ^ 16) →
        result.1 ≡ map (λ x. kept_of bits
        (chosen_of bits (predicted (a x)) (flip_of set.now (a x)) (s x))) places }
{
    if bits > 9 {
        return choose_lanes_of_bits(set, lanes, around, samples, bits, three_tables);
    }
    choose_lanes(set, lanes, around, samples, bits, three_tables)
}

/// The contexts and the residuals of 16 places from `at` on, after those before them, by the set's
/// lanes. All neighbours of these places stand in the rows.
#[inline(always)]
fn prepare_lanes<A: Allocator>(
    contexts: &mut [u32],
    residuals: &mut [u16],
    part: &Part<'_, A>,
    lanes: &SetLanes,
    at: usize,
)
    requires part { IsPart part.now }
    requires levels { HasFewLevels part.now.set.now }
    requires lanes { AreSetLanes part.now.set.now lanes.now }
    requires contexts { at + 16 ≤ length contexts.old }
    requires residuals { at + 16 ≤ length residuals.old }
    requires inside { 2 ≤ part.now.from + at }
    requires within { part.now.from + at + 17 ≤ length part.now.cur.now }
    requires done { ArePrepared part.now at contexts.old residuals.old }
    ensures { ArePrepared part.now (at + 16) contexts.new residuals.new }
{
    let Part {
        set,
        bits,
        three_tables,
        two,
        one,
        cur,
        from,
        ..
    } = *part;
    set.is_a_bounded_set();
    let (around, samples) = around_lanes(two, one, cur, from + at);
    let (sizes, chosen) = kept_lanes(set, lanes, &around, samples, bits, three_tables);
    sizes.cast::<u32>().copy_to_slice(&mut contexts[at..]);
    chosen.copy_to_slice(&mut residuals[at..]);
}

/// The contexts and the residuals of a part: in a set whose tables have few levels 16 at once, but
/// at the row's borders, and the last of these again if fewer than 16 are left.
#[inline(always)]
pub(crate) fn prepare<A: Allocator>(block: &mut Block, part: &Part<'_, A>)
    requires part { IsPart part.now }
    ensures { IsBlockOf part.now part.now.count block.new }
{
    let Part {
        set,
        cur,
        from,
        count,
        ..
    } = *part;
    let few_levels = set.has_few_levels();
    let lanes = set.lanes();
    // After the last place that has a sample above to the right.
    let end = count.min(cur.len().saturating_sub(from + 1));
    let mut at = 0;
    while at < count {
        let start = at.min(end.saturating_sub(16));
        if few_levels && at < end && 16 <= end && 2 <= from + start {
            let Block {
                contexts,
                residuals,
                ..
            } = block;
            prepare_lanes(contexts, residuals, part, &lanes, start);
            at = start + 16;
        } else {
            let next = if from + at < 2 {
                count.min(at + 2)
            } else {
                count
            };
            prepare_places(block, part, at, next);
            at = next;
        }
    }
}

/// Lists the decisions of a part of 8 or 9 bits, by the block that was prepared of it. Answers how
/// many they are.
#[inline(always)]
pub(crate) fn list_places<A: Allocator>(block: &mut Block, part: &Part<'_, A>) -> usize
    requires part { IsPart part.now }
    requires bits { part.now.bits < 10 }
    requires block { IsBlockOf part.now part.now.count block.old }
    ensures steps { steps_of (take result block.new.list) ≡ part_steps part.now part.now.count }
    ensures below { AreBelow (steps_of (take result block.new.list))
        (contexts_of part.now.set.now * 32) }
    ensures short { result ≤ 1216 }
{
    let _contexts = part.set.contexts();
    let mut at = 0;
    for k in 0..part.count {
        let (context, residual) = (block.contexts[k], block.residuals[k]);
        at = list_signed(&mut block.list, at, context, residual as usize);
    }
    at
}

/// The residuals of a part as signed numbers, by the block that was prepared of it.
#[inline(always)]
pub(crate) fn number_places<A: Allocator>(block: &mut Block, part: &Part<'_, A>)
    requires part { IsPart part.now }
    requires block { IsBlockOf part.now part.now.count block.old }
    ensures block { IsBlockOf part.now part.now.count block.new }
    ensures same { block.new.contexts ≡ block.old.contexts }
    ensures numbers { AreNumbered part.now block.new.numbers part.now.count }
{
    for k in 0..part.count {
        block.numbers[k] = residual_from(block.residuals[k], part.bits);
    }
}
