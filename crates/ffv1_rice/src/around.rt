//! The samples around a place of a row.

ghost use Rattle.std.specs.Prelude.{◌≡◌, ℕ, ◌+◌, ◌-◌, ◌<◌, ◌≤◌, List, length, slice_index, min};
ghost use Rattle.std.specs.Prelude.{true};
ghost use Rattle.ffv1_plane.specs.Quantisation.{HasThreeTables, contexts_of};
ghost use Rattle.ffv1_plane.specs.Context.{flip_of, size_of};
ghost use Rattle.ffv1_line.specs.Beside.{before, two_before, beside};

use ffv1_plane::{Around, QuantSet, context, context_by_three_tables};
use std::alloc::Allocator;

/// The sample to the left of a place.
#[inline(always)]
fn sample_before(above: &[u16], row: &[u16], x: usize) -> u16
    requires above { 0 < length above.now }
    requires row { x ≤ length row.now }
    ensures { result ≡ before above.now row.now x }
{
    if x == 0 {
        return above[0];
    }
    row[x - 1]
}

/// The second sample to the left.
#[inline(always)]
fn sample_two_before(above: &[u16], row: &[u16], x: usize) -> u16
    requires above { 0 < length above.now }
    requires row { x ≤ length row.now }
    ensures { result ≡ two_before above.now row.now x }
{
    if x == 0 {
        return 0;
    }
    sample_before(above, row, x - 1)
}

/// The sample above to the right: after the end of a row stands its last sample (RFC 9043, 3.1).
#[inline(always)]
fn right_above(one: &[u16], x: usize) -> u16
    requires { x < length one.now }
    ensures { result ≡ slice_index one.now (min (x + 1) (length one.now - 1)) }
{
    if x + 1 < one.len() {
        return one[x + 1];
    }
    one[x]
}

/// The samples around a place of a row.
#[inline(always)]
pub(crate) fn around_place(two: &[u16], one: &[u16], cur: &[u16], x: usize) -> Around
    requires two { length two.now ≡ length cur.now }
    requires one { length one.now ≡ length cur.now }
    requires inside { x < length cur.now }
    ensures { result ≡ beside two.now one.now cur.now x }
{
    Around {
        l: sample_before(one, cur, x),
        t: one[x],
        tl: sample_before(two, one, x),
        tr: right_above(one, x),
        ll: sample_two_before(one, cur, x),
        tt: two[x],
    }
}

/// The context of a place, of a set that has three tables or not.
#[inline(always)]
pub(crate) fn context_of<A: Allocator, const THREE: bool>(
    set: &QuantSet<A>,
    around: &Around,
) -> (u32, bool)
    requires { THREE ≡ true → HasThreeTables set.now }
    ensures size { result.0 ≡ size_of set.now around.now }
    ensures flip { result.1 ≡ flip_of set.now around.now }
    ensures below { result.0 < contexts_of set.now }
{
    if THREE {
        return context_by_three_tables(set, around);
    }
    context(set, around)
}

/// The samples around the place after another one, which has a sample now.
#[inline(always)]
pub(crate) fn around_next(
    two: &[u16],
    one: &[u16],
    around: &Around,
    sample: u16,
    x: usize,
) -> Around
    requires two { x < length two.now }
    requires one { x < length one.now }
    ensures { (row : List ℕ) (place : ℕ) → x ≡ place + 1 →
        around.now ≡ beside two.now one.now row place → slice_index row place ≡ sample →
        result ≡ beside two.now one.now row x }
{
    Around {
        l: sample,
        t: around.tr,
        tl: around.t,
        tr: right_above(one, x),
        ll: around.l,
        tt: two[x],
    }
}
