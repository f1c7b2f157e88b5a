//! Decodes a row.

ghost use Rattle.std.specs.Prelude.{◌≡◌, ◌*◌, ◌<◌, ◌≤◌, IfErr, OnOk, length};
ghost use Rattle.ffv1_range.specs.Symbols.{AllHeld};
ghost use Rattle.ffv1_plane.specs.Quantisation.{contexts_of};
ghost use Rattle.ffv1_line.specs.Decoded.{Lined, LinedToRefusal, SameFrom};
ghost use Rattle.ffv1_line.specs.Coder.{decoder_by};

mod block;
mod cell;
mod equal;
pub(crate) mod places;
mod plain;
mod row;
mod run;
mod sample;
mod samples;
mod wide;
mod zeros;

use crate::cell::above::Above;
use crate::coding::Coding;
use crate::decode::row::decode_row;
use crate::decode::samples::decode_samples;
use crate::fault::TooLong;
pub use cell::{RowSink, decode_cell};
use ffv1_range::RangeDecoder;
use std::alloc::Allocator;
pub use wide::decode_wide;

/// Decodes one row of one cell of a plane: each sample from its prediction and the residual that
/// its symbol codes (RFC 9043, 3.1 to 3.8).
///
/// `above` has the cell's rows two and one above, all 0 above the cell, of any samples; `cur` takes
/// the row, of at least one sample, and all three have one length. `states` are those of the
/// plane's class, 32 for each context of the set, all held by the table. The samples are those that
/// the coded residuals make in any cell of which these are rows, by the neighbours' coordinates. It
/// takes no memory.
///
/// `TooLong { x }` if the symbol at `x`, the first such place, has 31 exponent decisions 1: the
/// decoder stands after the last of them, the places before `x` are filled, and `x` and those
/// after it are as before.
#[inline(never)]
pub fn decode_line<'a, B: Allocator>(
    decoder: &mut RangeDecoder<'a>,
    coding: &Coding<'_, B>,
    states: &mut [u8],
    above: &Above<'_>,
    cur: &mut [u16],
) -> Result<(), TooLong>
    requires bits { coding.now.bits ≤ 16 }
    requires some { 0 < length cur.old }
    requires one_long { length above.now.one ≡ length cur.old }
    requires rows { length states.old ≡ contexts_of coding.now.set * 32 }
    requires held { AllHeld coding.now.table states.old }
    ensures ok { OnOk result (Lined coding.now (decoder_by decoder.old states.old)
        (decoder_by decoder.new states.new) above.now cur.new (length cur.new)) }
    ensures refused { IfErr result (λ e. LinedToRefusal coding.now
        (decoder_by decoder.old states.old) (decoder_by decoder.new states.new) above.now cur.new
        e.x) }
    ensures inside { IfErr result (λ e. e.x < length cur.new) }
    ensures behind { IfErr result (λ e. SameFrom e.x cur.old cur.new) }
    ensures held { AllHeld coding.now.table states.new }
{
    let Coding { set, bits, .. } = coding;
    let three_tables = set.has_three_tables();
    if *bits == 16 {
        if three_tables {
            return decode_samples::<u16, B, true>(decoder, coding, states, above, cur);
        }
        return decode_samples::<u16, B, false>(decoder, coding, states, above, cur);
    }
    if *bits == 8 {
        if three_tables {
            return decode_row::<B, 8, true>(decoder, coding, states, above, cur);
        }
        return decode_row::<B, 8, false>(decoder, coding, states, above, cur);
    }
    if *bits == 9 {
        if three_tables {
            return decode_row::<B, 9, true>(decoder, coding, states, above, cur);
        }
        return decode_row::<B, 9, false>(decoder, coding, states, above, cur);
    }
    if three_tables {
        return decode_row::<B, 0, true>(decoder, coding, states, above, cur);
    }
    decode_row::<B, 0, false>(decoder, coding, states, above, cur)
}
