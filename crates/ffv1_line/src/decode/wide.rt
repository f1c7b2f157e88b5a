//! Decodes a row of samples of 17 bits.

ghost use Rattle.std.specs.Prelude.{◌≡◌, ◌*◌, ◌<◌, IfErr, OnOk, length};
ghost use Rattle.ffv1_range.specs.Symbols.{AllHeld};
ghost use Rattle.ffv1_plane.specs.Quantisation.{contexts_of};
ghost use Rattle.ffv1_line.specs.Decoded.{Lined, LinedToRefusal, SameFrom};
ghost use Rattle.ffv1_line.specs.Coder.{decoder_by};

use crate::cell::above::Above;
use crate::coding::Coding;
use crate::decode::samples::decode_samples;
use crate::fault::TooLong;
use ffv1_range::RangeDecoder;
use std::alloc::Allocator;

/// Decodes one row of one cell of a plane of 17 bits, as `decode_line` does of up to 16: each
/// sample from its prediction and the residual that its symbol codes (RFC 9043, 3.1 to 3.8).
///
/// `above` has the cell's rows two and one above, all 0 above the cell, of any samples; `cur` takes
/// the row, of at least one sample, and all three have one length. `states` are those of the
/// plane's class, 32 for each context of the set, all held by the table. It takes no memory.
///
/// `TooLong { x }` if the symbol at `x`, the first such place, has 31 exponent decisions 1: the
/// decoder stands after the last of them, the places before `x` are filled, and `x` and those
/// after it are as before.
#[inline(never)]
pub fn decode_wide<B: Allocator>(
    decoder: &mut RangeDecoder<'_>,
    coding: &Coding<'_, B>,
    states: &mut [u8],
    above: &Above<'_, u32>,
    cur: &mut [u32],
) -> Result<(), TooLong>
    requires bits { coding.now.bits ≡ 17 }
    requires some { 0 < length cur.old }
    requires one_long { length above.now.one ≡ length cur.old }
    requires rows { length states.old ≡ contexts_of coding.now.set * 32 }
    requires held { AllHeld coding.now.table states.old }
    ensures ok { OnOk result (Lined coding.now (decoder_by decoder.old states.old)
        (decoder_by decoder.new states.new) above.now cur.new (length cur.new)) }
    ensures refused { IfErr result (λ e. LinedToRefusal coding.now
        (decoder_by decoder.old states.old) (decoder_by decoder.new states.new) above.now cur.new
        e.x) }
    ensures inside { IfErr result (λ e. e.x < length cur.new) }
    ensures behind { IfErr result (λ e. SameFrom e.x cur.old cur.new) }
    ensures held { AllHeld coding.now.table states.new }
{
    if coding.set.has_three_tables() {
        return decode_samples::<u32, B, true>(decoder, coding, states, above, cur);
    }
    decode_samples::<u32, B, false>(decoder, coding, states, above, cur)
}
