//! Decodes zeros at samples of equal neighbours: those above and to the left are one value.

ghost use Rattle.std.specs.Prelude.{◌≡◌, slice_index};
ghost use Rattle.ffv1_line.specs.Internal.Places.{StandsAt, ReadZeros};
ghost use Rattle.ffv1_line.specs.Coder.{decoder_by};

use crate::decode::places::{Behind, Places};
use crate::decode::zeros::take_zeros;
use ffv1_plane::{late_context, predict_late, sample_of_bits};
use ffv1_range::RangeDecoder;
use std::alloc::Allocator;

/// The places of a block from `start` on whose neighbours are equal and whose symbols are zeros:
/// the samples above and to the left are one, and so is each that comes. Their context is one,
/// whose state is kept apart. Answers the first place that is left, from `start` to the last one.
#[inline(never)]
pub(crate) fn decode_equal<B: Allocator>(
    decoder: &mut RangeDecoder<'_>,
    places: &Places<'_, B>,
    states: &mut [u8],
    cur: &mut [u16],
    behind: &mut Behind,
    start: usize,
) -> usize
    requires stands { StandsAt places.now states.old cur.old behind.old start }
    requires left { slice_index places.now.early.now.tl start ≡ behind.old.l }
    requires top { slice_index places.now.early.now.t start ≡ behind.old.l }
    ensures stands { StandsAt places.now states.new cur.new behind.new result }
    ensures read { ReadZeros places.now start (decoder_by decoder.old states.old) cur.old result
        (decoder_by decoder.new states.new) cur.new }
{
    let Places {
        set,
        bits,
        early,
        ..
    } = *places;
    let Behind { ll, l } = *behind;
    let sum = early.sum[start];
    let (size, _) = late_context(set, sum, l, l, ll, false);
    let (next, _) = late_context(set, sum, l, l, l, false);
    // A sample of more bits, as only a row from elsewhere has, does not come again.
    if size != next || sample_of_bits(predict_late(l, l, l, l), false, 0, bits) != l {
        return start;
    }
    let slot = size as usize * 32;
    let mut state = states[slot];
    let mut local = decoder.take();
    let left = take_zeros::<B, false>(&mut local, places, &mut state, cur, behind, start);
    states[slot] = state;
    *decoder = local;
    left
}
