//! Encodes a row of samples of 16 bits, which are predicted by signed numbers.

ghost use Rattle.std.specs.Prelude.{◌≡◌, ◌*◌, ◌<◌, OnOk, OnErr, IsTrue, length, false};
ghost use Rattle.ffv1_range.specs.Symbols.{AllHeld};
ghost use Rattle.ffv1_plane.specs.Quantisation.{contexts_of, HasThreeTables};
ghost use Rattle.ffv1_line.specs.Encoded.{FailsForGood, Written, MayBeRefusedRow, CountsFirst};
ghost use Rattle.ffv1_line.specs.Coder.{encoder_by};

use crate::cell::above::Above;
use crate::cell::word::Word;
use crate::coding::Coding;
use crate::coding::way::Way;
use crate::encode::plain::encode_plain;
use ffv1_range::{Fault, RangeEncoder};
use std::alloc::Allocator;

/// A row of a cell, place by place, by an encoder that has not failed. `THREE_TABLES` may be said
/// of a set whose fourth and fifth tables have one level.
#[inline(always)]
pub(crate) fn encode_samples<W: Word, A: Allocator, B: Allocator, const THREE_TABLES: bool>(
    encoder: &mut RangeEncoder<A>,
    coding: &Coding<'_, B>,
    states: &mut [u8],
    above: &Above<'_, W>,
    cur: &[W],
) -> Result<(), Fault>
    requires sound { encoder.old.failed ≡ false }
    requires three_tables { IsTrue THREE_TABLES → HasThreeTables coding.now.set }
    requires some { 0 < length cur.now }
    requires one_long { length above.now.one ≡ length cur.now }
    requires rows { length states.old ≡ contexts_of coding.now.set * 32 }
    requires held { AllHeld coding.now.table states.old }
    ensures ok { OnOk result (Written coding.now (encoder_by encoder.old states.old)
        (encoder_by encoder.new states.new) above.now (W.samples cur.now) (length cur.now)) }
    ensures refused { OnErr result (MayBeRefusedRow coding.now (encoder_by encoder.old states.old)
        above.now (W.samples cur.now) (length cur.now)) }
    ensures held { AllHeld coding.now.table states.new }
    ensures err { FailsForGood result encoder.new }
    ensures kept { OnErr result (CountsFirst coding.now encoder.old.counts encoder.new.counts
        above.now (W.samples cur.now)) }
{
    let Coding { table, set, bits } = coding;
    let Above { two, one } = above;
    let way = Way {
        table,
        set,
        bits: *bits,
    };
    encode_plain::<W, A, B, THREE_TABLES>(encoder, &way, states, two, one, cur)
}
