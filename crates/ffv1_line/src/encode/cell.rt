//! Encodes the rows of a cell, one after the other.

ghost use Rattle.std.specs.Prelude.{◌≡◌, ℕ, ◌+◌, ◌*◌, ◌<◌, ◌≤◌, OnOk, OnErr, IsErr, IsTrue};
ghost use Rattle.std.specs.Prelude.{length, replicate, vec_capacity};
ghost use Rattle.ffv1_range.specs.Symbols.{AllHeld};
ghost use Rattle.ffv1_range.specs.Puts.{Puts, MayBeRefused};
ghost use Rattle.ffv1_plane.specs.Quantisation.{contexts_of};
ghost use Rattle.ffv1_line.specs.Cell.{Cell, Shows};
ghost use Rattle.ffv1_line.specs.Row.{cell_steps, chosen_rows};
ghost use Rattle.ffv1_line.specs.Encoded.{FailsForGood, CountsFirstRows};

use crate::cell::above::Above;
use crate::cell::rows::RollingRows;
use crate::coding::Coding;
use crate::encode::encode_line;
use ffv1_range::{Fault, RangeEncoder};
use std::alloc::Allocator;

/// A cell of a plane whose rows can be written into a line, one by one.
pub trait CellRows {
    // Its samples.
    ghost cell: { Self → Cell };

    // How many rows it has.
    ghost rows: { Self → ℕ };

    /// How many rows it has.
    fn height(&self) -> u32
        ensures { result ≡ rows self.now };

    /// Writes row `y`, from the top and from 0, into a line as long as the row.
    fn load(&self, y: u32, line: &mut [u16])
        requires inside { y < rows self.now }
        requires long { length line.old ≡ (cell self.now).width }
        ensures { Shows (cell self.now) (y + 2) line.new (cell self.now).width };
}

/// The same into a vector.
fn load_row<R: Allocator, C: CellRows>(cell: &C, y: u32, line: &mut Vec<u16, R>)
    requires inside { y < C.rows cell.now }
    requires long { length line.old.items ≡ (C.cell cell.now).width }
    ensures shows { Shows (C.cell cell.now) (y + 2) line.new.items (C.cell cell.now).width }
    ensures long { length line.new.items ≡ (C.cell cell.now).width }
    ensures capacity { vec_capacity line.new ≡ vec_capacity line.old }
{
    cell.load(y, line.as_mut_slice());
}

/// Codes the rows of one cell of a plane from the top, one after the other: the folded residual of
/// each sample as a symbol (RFC 9043, 3.1 to 3.8 and 4.7). Planes whose lines are coded in turn, as
/// those of RCT are, are coded by `encode_line`.
///
/// `cell` writes each of its rows into the line of `rows` that is free; a row has at least one
/// sample of `coding.bits` bits. `rows` are three lines of the cell's width, of which `two` and
/// `one` are zeros, as `RollingRows::new` makes them; they turn after each row, and keep their
/// memory. `states` are those of the plane's class, 32 for each context of the set, all held by the
/// table. A cell of no rows puts nothing.
///
/// `OutOfMemory` if the encoder was refused memory, now or before: it has failed for good, its
/// counts are those after some first rows of the cell and some first samples of the next one, and
/// the states are still held by the table. One that had failed before is left as it was, and the
/// states too.
pub fn encode_cell<A: Allocator, B: Allocator, R: Allocator, C: CellRows>(
    encoder: &mut RangeEncoder<A>,
    coding: &Coding<'_, B>,
    states: &mut [u8],
    rows: &mut RollingRows<Vec<u16, R>>,
    cell: &C,
) -> Result<(), Fault>
    requires bits { coding.now.bits ≤ 16 }
    requires some { 0 < (C.cell cell.now).width }
    requires two { rows.old.two.items ≡ replicate (C.cell cell.now).width 0 }
    requires one { rows.old.one.items ≡ replicate (C.cell cell.now).width 0 }
    requires cur_long { length rows.old.cur.items ≡ (C.cell cell.now).width }
    requires rows { length states.old ≡ contexts_of coding.now.set * 32 }
    requires held { AllHeld coding.now.table states.old }
    ensures ok { OnOk result (Puts coding.now.table encoder.old states.old encoder.new states.new
        (cell_steps coding.now.set (C.cell cell.now) 0 (chosen_rows coding.now.set coding.now.bits
        (C.cell cell.now) (C.rows cell.now)))) }
    ensures refused { OnErr result (MayBeRefused coding.now.table encoder.old states.old
        (cell_steps coding.now.set (C.cell cell.now) 0 (chosen_rows coding.now.set coding.now.bits
        (C.cell cell.now) (C.rows cell.now)))) }
    ensures held { AllHeld coding.now.table states.new }
    ensures err { FailsForGood result encoder.new }
    ensures stays { IsTrue encoder.old.failed → 0 < C.rows cell.now → IsErr result }
    ensures unchanged { IsTrue encoder.old.failed →
        (encoder.new ≡ encoder.old) × (states.new ≡ states.old) }
    ensures kept { OnErr result (CountsFirstRows coding.now encoder.old.counts encoder.new.counts
        (C.cell cell.now) (C.rows cell.now)) }
    ensures capacity { vec_capacity rows.new.two + vec_capacity rows.new.one
        + vec_capacity rows.new.cur
        ≡ vec_capacity rows.old.two + vec_capacity rows.old.one + vec_capacity rows.old.cur }
{
    for y in 0..cell.height() {
        load_row(cell, y, &mut rows.cur);
        let above = Above {
            two: &rows.two,
            one: &rows.one,
        };
        encode_line(encoder, coding, states, &above, &rows.cur)?;
        rows.turn();
    }
    Ok(())
}
