//! Decodes a sample.

ghost use Rattle.std.specs.Prelude.{◌≡◌, ℕ, ◌+◌, ◌*◌, ◌^◌, ◌≤◌, ◌<◌, IfOk, OnErr, length, pos};
ghost use Rattle.ffv1_range.specs.Symbols.{AllHeld};
ghost use Rattle.ffv1_range.specs.Follows.{Follows};
ghost use Rattle.ffv1_range.specs.Reading.{summed};
ghost use Rattle.ffv1_range.specs.Among.{AreNonzeros, sums_among, sums_refused};
ghost use Rattle.ffv1_plane.specs.Quantisation.{contexts_of};
ghost use Rattle.ffv1_plane.specs.Residual.{sample_of, turned};
ghost use Rattle.ffv1_line.specs.Row.{refused_steps};
ghost use Rattle.ffv1_line.specs.Decoded.{Sampled};
ghost use Rattle.ffv1_line.specs.Internal.Along.{AreUnsigned, IsPrepared};
ghost use Rattle.ffv1_line.specs.Internal.Places.{ArePlaces, around_place, coding_of};
ghost use Rattle.ffv1_line.specs.Coder.{decoder_by};

use crate::decode::places::{Behind, Places};
use ffv1_plane::{late_context, predict_late, sample_of_bits, sample_signed};
use ffv1_range::{Nonzeros, RangeDecoder, SignedNumber};
use std::alloc::Allocator;

/// The sample of a residual by its size and its sign, among samples of 8 to 15 bits.
#[inline(always)]
fn sample_by_sign(prediction: i32, flip: bool, size: u32, negative: bool, bits: u8) -> u16
    requires bits { AreUnsigned bits }
    requires size { size < 2 ^ 31 }
    ensures value { pos result ≡ sample_of bits prediction flip (turned negative (pos size)) }
    ensures small { result < 2 ^ bits }
{
    if bits == 8 || bits == 9 {
        return sample_signed(prediction, flip, size, negative, bits);
    }
    let size = size as i32;
    let residual = if negative { -size } else { size };
    sample_of_bits(prediction, flip, residual, bits)
}

/// The sample that comes next, at place `i` of a block, which adds its symbol to `nonzeros`.
#[inline(always)]
pub(crate) fn decode_sample<B: Allocator>(
    decoder: &mut RangeDecoder<'_>,
    nonzeros: &mut Nonzeros,
    places: &Places<'_, B>,
    states: &mut [u8],
    i: usize,
    behind: Behind,
) -> Result<u16, ()>
    requires places { ArePlaces places.now }
    requires inside { i < places.now.count }
    requires rows { length states.old ≡ contexts_of places.now.set.now * 32 }
    requires held { AllHeld places.now.table.now states.old }
    requires are { AreNonzeros nonzeros.old }
    requires few { nonzeros.old.symbols ≤ i }
    ensures ok { IfOk result (λ s. (tr tt : ℕ) → IsPrepared places.now.set.now places.now.early.now
        i tr tt → Sampled (coding_of places.now) (decoder_by (summed decoder.old
        (sums_among i nonzeros.old)) states.old) (decoder_by (summed decoder.new
        (sums_among (i + 1) nonzeros.new)) states.new) (around_place places.now i behind tr tt) s) }
    ensures refused { OnErr result ((tr tt : ℕ) → IsPrepared places.now.set.now
        places.now.early.now i tr tt → Follows places.now.table.now
        (summed decoder.old (sums_among i nonzeros.old)) states.old
        (summed decoder.new (sums_refused i nonzeros.new)) states.new
        (refused_steps places.now.set.now (around_place places.now i behind tr tt))) }
    ensures are { AreNonzeros nonzeros.new }
    ensures few { nonzeros.new.symbols ≤ i + 1 }
    ensures stays { OnErr result (nonzeros.new ≡ nonzeros.old) }
    ensures held { AllHeld places.now.table.now states.new }
{
    let Places {
        table,
        set,
        bits,
        three_tables,
        early,
        ..
    } = *places;
    let Behind { ll, l } = behind;
    let (context, flip) = late_context(set, early.sum[i], l, early.tl[i], ll, three_tables);
    let prediction = predict_late(l, early.t[i], early.least[i], early.most[i]);
    match decoder.tally_signed_in_row(nonzeros, table, states, context as usize) {
        // A zero, the most frequent one, has no sign to flip.
        Ok(None) => Ok(sample_of_bits(prediction, false, 0, bits)),
        Ok(Some(SignedNumber { size, negative })) => {
            Ok(sample_by_sign(prediction, flip, size, negative, bits))
        }
        Err(_) => Err(()),
    }
}
