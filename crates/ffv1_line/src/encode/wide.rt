//! Encodes a row of samples of 17 bits.

ghost use Rattle.std.specs.Prelude.{◌≡◌, ◌*◌, ◌<◌, OnOk, OnErr, IsErr, IsTrue, length};
ghost use Rattle.ffv1_range.specs.Symbols.{AllHeld};
ghost use Rattle.ffv1_plane.specs.Quantisation.{contexts_of};
ghost use Rattle.ffv1_line.specs.Encoded.{FailsForGood, Written, MayBeRefusedRow, CountsFirst};
ghost use Rattle.ffv1_line.specs.Coder.{encoder_by};

use crate::cell::above::Above;
use crate::coding::Coding;
use crate::encode::samples::encode_samples;
use ffv1_range::{Fault, RangeEncoder};
use std::alloc::Allocator;

/// Codes one row of one cell of a plane of 17 bits, as `encode_line` does of up to 16: the folded
/// residual of each sample as a symbol (RFC 9043, 3.1 to 3.8).
///
/// `above` has the cell's rows two and one above, all 0 above the cell; `cur` is the row, of at
/// least one sample, and all three have one length. `states` are those of the plane's class, 32 for
/// each context of the set, all held by the table.
///
/// `OutOfMemory` if the encoder was refused memory, now or before: it has failed for good, its
/// counts are those after some first samples of the row, and the states are still held by the
/// table. One that had failed before is left as it was, and the states too.
#[inline(never)]
pub fn encode_wide<A: Allocator, B: Allocator>(
    encoder: &mut RangeEncoder<A>,
    coding: &Coding<'_, B>,
    states: &mut [u8],
    above: &Above<'_, u32>,
    cur: &[u32],
) -> Result<(), Fault>
    requires bits { coding.now.bits ≡ 17 }
    requires some { 0 < length cur.now }
    requires one_long { length above.now.one ≡ length cur.now }
    requires rows { length states.old ≡ contexts_of coding.now.set * 32 }
    requires held { AllHeld coding.now.table states.old }
    ensures ok { OnOk result (Written coding.now (encoder_by encoder.old states.old)
        (encoder_by encoder.new states.new) above.now cur.now (length cur.now)) }
    ensures refused { OnErr result (MayBeRefusedRow coding.now (encoder_by encoder.old states.old)
        above.now cur.now (length cur.now)) }
    ensures held { AllHeld coding.now.table states.new }
    ensures err { FailsForGood result encoder.new }
    ensures stays { IsTrue encoder.old.failed → IsErr result }
    ensures unchanged { IsTrue encoder.old.failed →
        (encoder.new ≡ encoder.old) × (states.new ≡ states.old) }
    ensures kept { OnErr result (CountsFirst coding.now encoder.old.counts encoder.new.counts
        above.now cur.now) }
{
    if encoder.has_failed() {
        return Err(Fault::OutOfMemory);
    }
    if coding.set.has_three_tables() {
        return encode_samples::<u32, A, B, true>(encoder, coding, states, above, cur);
    }
    encode_samples::<u32, A, B, false>(encoder, coding, states, above, cur)
}
