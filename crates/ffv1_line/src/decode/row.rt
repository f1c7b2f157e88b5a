//! Decodes a row in blocks.

ghost use Rattle.std.specs.Prelude.{◌≡◌, ◌*◌, ◌<◌, ◌⊎◌, IfErr, IsTrue, OnOk, length};
ghost use Rattle.ffv1_range.specs.Symbols.{AllHeld};
ghost use Rattle.ffv1_plane.specs.Quantisation.{contexts_of, HasThreeTables};
ghost use Rattle.ffv1_line.specs.Decoded.{Lined, LinedToRefusal, SameFrom};
ghost use Rattle.ffv1_line.specs.Internal.Along.{AreUnsigned};
ghost use Rattle.ffv1_line.specs.Coder.{decoder_by};

use crate::cell::above::Above;
use crate::coding::{Coding, fixed_bits};
use crate::decode::block::decode_block_by;
use crate::decode::places::Places;
use crate::fault::TooLong;
use ffv1_plane::{BLOCK, BlockRows, Early};
use ffv1_range::RangeDecoder;
use std::alloc::Allocator;

/// The least state of the first context's zeros with which a row begins as after a block that was
/// mostly zero.
const MOSTLY_ZERO_STATE: u8 = 224;

/// A row of a cell of 8 to 15 bits, by a body of its own for each kind of set, for 8 and for 9
/// bits, and one for all others, whose `BITS` is 0. `THREE_TABLES` may be said of a set whose
/// fourth and fifth tables have one level.
#[inline(never)]
pub(crate) fn decode_row<B: Allocator, const BITS: u8, const THREE_TABLES: bool>(
    decoder: &mut RangeDecoder<'_>,
    coding: &Coding<'_, B>,
    states: &mut [u8],
    above: &Above<'_>,
    cur: &mut [u16],
) -> Result<(), TooLong>
    requires depth { AreUnsigned coding.now.bits }
    requires bits { (BITS ≡ 0) ⊎ (coding.now.bits ≡ BITS) }
    requires three_tables { IsTrue THREE_TABLES → HasThreeTables coding.now.set }
    requires some { 0 < length cur.old }
    requires one_long { length above.now.one ≡ length cur.old }
    requires rows { length states.old ≡ contexts_of coding.now.set * 32 }
    requires held { AllHeld coding.now.table states.old }
    ensures ok { OnOk result (Lined coding.now (decoder_by decoder.old states.old)
        (decoder_by decoder.new states.new) above.now cur.new (length cur.new)) }
    ensures refused { IfErr result (λ e. LinedToRefusal coding.now
        (decoder_by decoder.old states.old) (decoder_by decoder.new states.new) above.now cur.new
        e.x) }
    ensures inside { IfErr result (λ e. e.x < length cur.new) }
    ensures behind { IfErr result (λ e. SameFrom e.x cur.old cur.new) }
    ensures held { AllHeld coding.now.table states.new }
{
    let Coding { table, set, .. } = coding;
    let bits = fixed_bits::<BITS>(coding.bits);
    let Above { two, one } = above;
    let mut local = decoder.take();
    let mut early = Early::new();
    let mut mostly_zero = states
        .first()
        .is_some_and(|&state| state >= MOSTLY_ZERO_STATE);
    let mut from = 0;
    'parts: while from < cur.len() {
        let count = (cur.len() - from).min(BLOCK);
        let rows = BlockRows {
            set,
            two,
            one,
            from,
            three_tables: THREE_TABLES,
        };
        early.fill(&rows, count);
        let places = Places::below(&rows, table, bits, &early, count);
        match decode_block_by::<B, BITS, THREE_TABLES>(
            &mut local,
            &places,
            states,
            cur,
            mostly_zero,
        ) {
            Ok(next) => {
                mostly_zero = next;
                from += count;
            }
            Err(refused) => {
                *decoder = local;
                return Err(refused);
            }
        }
    }
    *decoder = local;
    Ok(())
}
