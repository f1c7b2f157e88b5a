//! Decodes zeros in a run: the samples above, above to the left and right and to the left are one
//! value.

ghost use Rattle.ffv1_plane.specs.Quantisation.{HasThreeTables};
ghost use Rattle.ffv1_line.specs.Internal.Places.{StandsAt, ReadZeros};
ghost use Rattle.ffv1_line.specs.Coder.{decoder_by};

use crate::decode::places::{Behind, Places};
use crate::decode::zeros::take_zeros;
use ffv1_plane::{laws as plane_laws, predict_late, sample_of_bits};
use ffv1_range::RangeDecoder;
use std::alloc::Allocator;

/// The places of a block from `start` on that are a run and whose symbols are zeros, in a set whose
/// fourth and fifth tables have one level: the samples above, above to the left and right and to
/// the left are one, and so is each that comes. Their context is the first, whose state is kept
/// apart. Answers the first place that is left, from `start` to the last one.
#[inline(always)]
pub(crate) fn decode_run<B: Allocator>(
    decoder: &mut RangeDecoder<'_>,
    places: &Places<'_, B>,
    states: &mut [u8],
    cur: &mut [u16],
    behind: &mut Behind,
    start: usize,
) -> usize
    requires three_tables { HasThreeTables places.now.set.now }
    requires stands { StandsAt places.now states.old cur.old behind.old start }
    ensures stands { StandsAt places.now states.new cur.new behind.new result }
    ensures read { ReadZeros places.now start (decoder_by decoder.old states.old) cur.old result
        (decoder_by decoder.new states.new) cur.new }
{
    let Places {
        set,
        bits,
        early,
        ..
    } = *places;
    let l = behind.l;
    if early.tl[start] != l || early.t[start] != l {
        return start;
    }
    // A sample of more bits, as only a row from elsewhere has, does not come again.
    if sample_of_bits(predict_late(l, l, l, l), false, 0, bits) != l {
        return start;
    }
    set.is_a_bounded_set();
    plane_laws::flat_place_has_first_context();
    let mut state = states[0];
    let left = take_zeros::<B, true>(decoder, places, &mut state, cur, behind, start);
    states[0] = state;
    left
}
