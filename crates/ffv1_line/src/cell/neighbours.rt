//! The neighbours of a sample in a row, and their context.

ghost use Rattle.std.specs.Prelude.{◌≡◌, ◌+◌, ◌≤◌, ◌<◌, IsTrue, length, min, slice_index};
ghost use Rattle.ffv1_plane.specs.Quantisation.{HasThreeTables, contexts_of};
ghost use Rattle.ffv1_plane.specs.Context.{size_of, flip_of};
ghost use Rattle.ffv1_line.specs.Beside.{before, two_before};

use crate::cell::word::Word;
use ffv1_plane::{Around, QuantSet, context, context_by_three_tables};
use std::alloc::Allocator;

/// The sample to the left in a row.
#[inline(always)]
pub(crate) fn sample_before(above: &[u16], row: &[u16], x: usize) -> u16
    requires above { 0 < length above.now }
    requires row { x ≤ length row.now }
    ensures { result ≡ before above.now row.now x }
{
    if x == 0 {
        return above[0];
    }
    row[x - 1]
}

/// The second sample to the left in a row.
#[inline(always)]
pub(crate) fn sample_two_before(above: &[u16], row: &[u16], x: usize) -> u16
    requires above { 0 < length above.now }
    requires row { x ≤ length row.now }
    ensures { result ≡ two_before above.now row.now x }
{
    if x == 0 {
        return 0;
    }
    sample_before(above, row, x - 1)
}

/// The sample to the right above, if the sample above is `t`: after the end of a row stands
/// its last sample (RFC 9043, 3.1).
#[inline(always)]
pub(crate) fn right_above(one: &[u16], x: usize, last: usize, t: u16) -> u16
    requires inside { x ≤ last }
    requires last { last + 1 ≡ length one.now }
    requires above { t ≡ slice_index one.now x }
    ensures { result ≡ slice_index one.now (min (x + 1) last) }
{
    if x == last {
        return t;
    }
    one[x + 1]
}

/// The same in a line of any words.
#[inline(always)]
pub(crate) fn word_right_above<W: Word>(one: &[W], x: usize, last: usize, t: u32) -> u32
    requires inside { x ≤ last }
    requires last { last + 1 ≡ length one.now }
    requires above { t ≡ slice_index (W.samples one.now) x }
    ensures { result ≡ slice_index (W.samples one.now) (min (x + 1) last) }
{
    if x == last {
        return t;
    }
    W::read(one, x + 1)
}

/// The sample to the left in a row of a line of any words.
#[inline(always)]
pub(crate) fn word_before<W: Word>(above: &[W], row: &[W], x: usize) -> u32
    requires above { 0 < length above.now }
    requires row { x ≤ length row.now }
    ensures { result ≡ before (W.samples above.now) (W.samples row.now) x }
{
    if x == 0 {
        return W::read(above, 0);
    }
    W::read(row, x - 1)
}

/// The second sample to the left in such a row.
#[inline(always)]
pub(crate) fn word_two_before<W: Word>(above: &[W], row: &[W], x: usize) -> u32
    requires above { 0 < length above.now }
    requires row { x ≤ length row.now }
    ensures { result ≡ two_before (W.samples above.now) (W.samples row.now) x }
{
    if x == 0 {
        return 0;
    }
    word_before(above, row, x - 1)
}

/// The context of a sample. `three_tables` may be said of a set whose fourth and fifth tables have
/// one level: then these are not looked up.
#[inline(always)]
pub(crate) fn context_by<A: Allocator>(
    set: &QuantSet<A>,
    around: &Around,
    three_tables: bool,
) -> (u32, bool)
    requires { IsTrue three_tables → HasThreeTables set.now }
    ensures size { result.0 ≡ size_of set.now around.now }
    ensures flip { result.1 ≡ flip_of set.now around.now }
    ensures below { result.0 < contexts_of set.now }
{
    if three_tables {
        return context_by_three_tables(set, around);
    }
    context(set, around)
}
