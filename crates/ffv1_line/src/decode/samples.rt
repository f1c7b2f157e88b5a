//! Decodes a row of samples of 16 bits, which are predicted by signed numbers.

ghost use Rattle.std.specs.Prelude.{◌≡◌, ◌*◌, ◌<◌, ◌≤◌, ◌^◌, IfErr, OnOk, IsTrue, length};
ghost use Rattle.ffv1_range.specs.Symbols.{AllHeld};
ghost use Rattle.ffv1_plane.specs.Quantisation.{contexts_of, HasThreeTables};
ghost use Rattle.ffv1_line.specs.Decoded.{Lined, LinedToRefusal, SameFrom};
ghost use Rattle.ffv1_line.specs.Coder.{decoder_by};

use crate::cell::above::Above;
use crate::cell::word::Word;
use crate::coding::Coding;
use crate::coding::way::Way;
use crate::decode::plain::decode_plain;
use crate::fault::TooLong;
use ffv1_range::RangeDecoder;
use std::alloc::Allocator;

/// A row of a cell, place by place, by a body of its own for each kind of set. `THREE_TABLES` may
/// be said of a set whose fourth and fifth tables have one level.
#[inline(always)]
pub(crate) fn decode_samples<W: Word, B: Allocator, const THREE_TABLES: bool>(
    decoder: &mut RangeDecoder<'_>,
    coding: &Coding<'_, B>,
    states: &mut [u8],
    above: &Above<'_, W>,
    cur: &mut [W],
) -> Result<(), TooLong>
    requires three_tables { IsTrue THREE_TABLES → HasThreeTables coding.now.set }
    requires fits { 2 ^ coding.now.bits ≤ W.limit }
    requires some { 0 < length cur.old }
    requires one_long { length above.now.one ≡ length cur.old }
    requires rows { length states.old ≡ contexts_of coding.now.set * 32 }
    requires held { AllHeld coding.now.table states.old }
    ensures ok { OnOk result (Lined coding.now (decoder_by decoder.old states.old)
        (decoder_by decoder.new states.new) above.now (W.samples cur.new) (length cur.new)) }
    ensures refused { IfErr result (λ e. LinedToRefusal coding.now
        (decoder_by decoder.old states.old) (decoder_by decoder.new states.new) above.now
        (W.samples cur.new) e.x) }
    ensures inside { IfErr result (λ e. e.x < length cur.new) }
    ensures behind { IfErr result (λ e. SameFrom e.x (W.samples cur.old) (W.samples cur.new)) }
    ensures held { AllHeld coding.now.table states.new }
{
    let Coding { table, set, bits } = coding;
    let Above { two, one } = above;
    let way = Way {
        table,
        set,
        bits: *bits,
    };
    decode_plain::<W, B, THREE_TABLES>(decoder, &way, states, two, one, cur)
}
