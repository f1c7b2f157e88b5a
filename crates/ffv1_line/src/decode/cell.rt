//! Decodes the rows of a cell, one after the other.

ghost use Rattle.std.specs.Prelude.{◌≡◌, ℕ, ℤ, ◌+◌, ◌*◌, ◌<◌, ◌≤◌, List, IfErr, IsOk, OnOk};
ghost use Rattle.std.specs.Prelude.{length, replicate, vec_capacity};
ghost use Rattle.ffv1_range.specs.Interval.{Decision};
ghost use Rattle.ffv1_range.specs.Symbols.{AllHeld};
ghost use Rattle.ffv1_plane.specs.Quantisation.{contexts_of};
ghost use Rattle.ffv1_line.specs.Cell.{Cell};
ghost use Rattle.ffv1_line.specs.Coded.{StandsAfter};
ghost use Rattle.ffv1_line.specs.Coder.{decoder_by};
ghost use Rattle.ffv1_line.specs.Decoded.{RowsRead};
ghost use Rattle.ffv1_line.specs.Taken.{RowsTaken, RowsRefused, TakesCell};

use crate::cell::above::Above;
use crate::cell::rows::RollingRows;
use crate::coding::Coding;
use crate::decode::decode_line;
use crate::fault::TooLong;
use ffv1_range::RangeDecoder;
use std::alloc::Allocator;

/// What takes the rows of a cell that is decoded, one after the other.
pub trait RowSink {
    // What a sink becomes by a row that it takes: the sink before, the row's samples, and the sink
    // after.
    ghost takes: { Self → List ℕ → Self → Type 0 };

    /// Takes the row that comes next.
    fn row(&mut self, samples: &[u16])
        ensures { takes self.old samples.now self.new };
}

/// Decodes the rows of one cell of a plane from the top, one after the other: each sample from its
/// prediction and the residual that its symbol codes (RFC 9043, 3.1 to 3.8 and 4.7). Each row is
/// handed to `sink` before the next one is decoded.
///
/// The cell has `height` rows of at least one sample of `coding.bits` bits. `rows` are three lines
/// of its width, of which `two` and `one` are zeros, as `RollingRows::new` makes them; they turn
/// after each row, and keep their memory. `states` are those of the plane's class, 32 for each
/// context of the set, all held by the table. It takes no memory itself. If the bytes code a cell
/// of this size, its rows are handed over.
///
/// `TooLong { x }` if the symbol at place `x` of a row, the first such place of the cell, has 31
/// exponent decisions 1: the rows above it were handed over, and the decoder stands after the last
/// of them.
pub fn decode_cell<B: Allocator, R: Allocator, T: RowSink>(
    decoder: &mut RangeDecoder<'_>,
    coding: &Coding<'_, B>,
    states: &mut [u8],
    rows: &mut RollingRows<Vec<u16, R>>,
    height: u32,
    sink: &mut T,
) -> Result<(), TooLong>
    requires bits { coding.now.bits ≤ 16 }
    requires some { 0 < length rows.old.cur.items }
    requires two { rows.old.two.items ≡ replicate (length rows.old.cur.items) 0 }
    requires one { rows.old.one.items ≡ replicate (length rows.old.cur.items) 0 }
    requires rows { length states.old ≡ contexts_of coding.now.set * 32 }
    requires held { AllHeld coding.now.table states.old }
    ensures ok { OnOk result (RowsTaken T.takes sink.old sink.new (length rows.old.cur.items)
        (λ count samples. (count ≡ height)
        × RowsRead coding.now (decoder_by decoder.old states.old)
        (decoder_by decoder.new states.new) (length rows.old.cur.items) samples height)) }
    ensures refused { IfErr result (λ e. RowsTaken T.takes sink.old sink.new
        (length rows.old.cur.items) (λ y samples. (y < height)
        × RowsRefused coding.now (decoder_by decoder.old states.old)
        (decoder_by decoder.new states.new) (length rows.old.cur.items) e.x y samples)) }
    ensures inside { IfErr result (λ e. e.x < length rows.old.cur.items) }
    ensures held { AllHeld coding.now.table states.new }
    ensures back { (before : List Decision) (c : Cell) (qs : List (List ℤ)) →
        c.width ≡ length rows.old.cur.items → length qs ≡ height →
        StandsAfter before coding.now states.old c qs 0 (decoder_by decoder.old states.old) →
        IsOk result × TakesCell T.takes c height sink.old sink.new }
    ensures capacity { vec_capacity rows.new.two + vec_capacity rows.new.one
        + vec_capacity rows.new.cur
        ≡ vec_capacity rows.old.two + vec_capacity rows.old.one + vec_capacity rows.old.cur }
{
    for _ in 0..height {
        let above = Above {
            two: &rows.two,
            one: &rows.one,
        };
        decode_line(decoder, coding, states, &above, rows.cur.as_mut_slice())?;
        sink.row(rows.cur.as_slice());
        rows.turn();
    }
    Ok(())
}
