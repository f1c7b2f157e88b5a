//! Decodes zeros by a state that is kept apart: the samples above, above to the left and to the
//! left are one value, and in a run the sample above to the right is too.

ghost use Rattle.std.specs.Prelude.{ℕ, ◌<◌, IsTrue};
ghost use Rattle.ffv1_range.specs.Table.{Holds};
ghost use Rattle.ffv1_line.specs.Internal.Places.{MayComeAgain, Carries, ReadZerosBy, kept_apart};
ghost use Rattle.ffv1_line.specs.Internal.Places.{GoesOn, SharesContext};

use crate::decode::places::{Behind, Places};
use ffv1_plane::Early;
use ffv1_range::RangeDecoder;
use std::alloc::Allocator;

/// Whether a position goes on as the one before it, if the samples to the left and above to the
/// left are `l`: in a run the sample above to the right is `l` too, else the sample above is, and
/// the early sum is this one.
#[inline(always)]
fn goes_on<const RUN: bool>(early: &Early, sum: u16, l: u16, at: usize) -> bool
    requires { at < 127 }
    ensures { IsTrue result → GoesOn RUN early.now sum l at }
{
    if RUN {
        return early.t[at + 1] == l;
    }
    early.t[at] == l && early.sum[at] == sum
}

/// The places of a block from `start` to before its last, as long as they go on and their symbols
/// are zeros: the sample to the left comes again at each. `state` is that of the first decision of
/// a context, which all of them have. Answers the first place that is left.
#[inline(always)]
pub(crate) fn take_zeros<B: Allocator, const RUN: bool>(
    decoder: &mut RangeDecoder<'_>,
    places: &Places<'_, B>,
    state: &mut u8,
    cur: &mut [u16],
    behind: &mut Behind,
    start: usize,
) -> usize
    requires may { MayComeAgain places.now state.old cur.old behind.old start }
    ensures inside { result < places.now.count }
    ensures begins { Carries places.now result cur.new behind.new }
    ensures read { (size : ℕ) → SharesContext RUN places.now start behind.old size →
        ReadZerosBy places.now size start (kept_apart decoder.old state.old cur.old) result
        (kept_apart decoder.new state.new cur.new) }
    ensures held { Holds places.now.table.now state.new }
{
    let Places {
        table,
        early,
        from,
        count,
        ..
    } = *places;
    let sum = early.sum[start];
    for at in start..count - 1 {
        if !goes_on::<RUN>(early, sum, behind.l, at) {
            return at;
        }
        if !decoder.take_zero(table, state) {
            return at;
        }
        cur[from + at] = behind.l;
        behind.ll = behind.l;
    }
    count - 1
}
