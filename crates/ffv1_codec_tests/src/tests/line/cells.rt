//! The rows of a cell in both directions, beside values computed outside the program.

ghost use Rattle.std.specs.Prelude.{◌≡◌, ◌*◌, length, replicate};
ghost use Rattle.ffv1_plane.specs.Quantisation.{contexts_of};
ghost use Rattle.ffv1_range.specs.Symbols.{AreHeld};
ghost use Rattle.ffv1_line.specs.Cell.{cell_of};

use super::{holds, refused_at_two};
use ffv1_line::{
    CellRows, Coding, RollingRows, RowSink, TooLong, decode_cell, encode_cell, laws as line_laws,
    reset,
};
use ffv1_plane::QuantSet;
use ffv1_range::{RangeDecoder, RangeEncoder, StateTable};
use std::alloc::Global;
use std::process::Abort;
use std::test::Fail;

/// The code of three rows by the sentinel ending, as the model has it.
const CODE: &[u8] = b"\x71\xC6\xE5\x2D\x4A\xAA";

/// The samples of a cell of rows of two.
#[derive(Drop)]
struct Pairs<'a> {
    samples: &'a [u16],
    rows: u32,
    ghost whole: { length samples.now ≡ 2 * rows },
}

impl<'a> CellRows for Pairs<'a> {
    ghost cell = { λ p. cell_of 2 p.samples.now };

    ghost rows = { λ p. p.rows };

    fn height(&self) -> u32 {
        self.rows
    }

    fn load(&self, y: u32, line: &mut [u16]) {
        line_laws::rows_above_roll_down_the_cell();
        let start = y as usize * 2;
        line.copy_from_slice(&self.samples[start..start + 2]);
    }
}

/// The last two rows that came, and how many there were.
#[derive(Clone, Copy)]
struct LastRows {
    first: [u16; 2],
    last: [u16; 2],
    count: u8,
}

impl RowSink for LastRows {
    ghost takes = { λ old row new. new.first ≡ old.last };

    fn row(&mut self, samples: &[u16]) {
        self.first = self.last;
        if samples.len() == 2 {
            self.last = [samples[0], samples[1]];
        }
        self.count = self.count.saturating_add(1);
    }
}

/// Whether three rows have the model's code, of 42 decisions.
fn has_code(
    alloc: Global,
    table: &StateTable,
    set: &QuantSet,
    states: &mut [u8],
) -> Result<bool, Fail>
    requires rows { length states.old ≡ contexts_of set.now * 32 }
    requires fresh { AreHeld table.now (replicate 32 128) }
{
    let coding = Coding {
        table,
        set,
        bits: 8,
    };
    let cell = Pairs {
        samples: &[10, 20, 30, 40, 30, 41],
        rows: 3,
    };
    let mut rows = RollingRows::new(alloc, 2)?;
    let mut encoder = RangeEncoder::new(alloc);
    reset(states);
    encode_cell(&mut encoder, &coding, states, &mut rows, &cell)?;
    let decisions = encoder.decisions();
    let code = encoder.finish_sentinel()?;
    Ok(code.as_slice() == CODE && decisions == 42)
}

/// The last two of so many rows of two that a code has, and how many came; also the answer, and
/// by how many decisions.
fn rows_of(
    alloc: Global,
    table: &StateTable,
    set: &QuantSet,
    states: &mut [u8],
    code: &[u8],
    height: u32,
) -> Result<(Result<(), TooLong>, LastRows, u64), Fail>
    requires rows { length states.old ≡ contexts_of set.now * 32 }
    requires fresh { AreHeld table.now (replicate 32 128) }
{
    let coding = Coding {
        table,
        set,
        bits: 8,
    };
    let mut taken = LastRows {
        first: [0; 2],
        last: [0; 2],
        count: 0,
    };
    let mut rows = RollingRows::new(alloc, 2)?;
    let mut decoder = RangeDecoder::new(code)?;
    reset(states);
    let done = decode_cell(&mut decoder, &coding, states, &mut rows, height, &mut taken);
    Ok((done, taken, decoder.taken()))
}

/// Whether the rows come back from their code.
fn come_back(
    alloc: Global,
    table: &StateTable,
    set: &QuantSet,
    states: &mut [u8],
) -> Result<bool, Fail>
    requires rows { length states.old ≡ contexts_of set.now * 32 }
    requires fresh { AreHeld table.now (replicate 32 128) }
{
    let (done, taken, decisions) = rows_of(alloc, table, set, states, CODE, 3)?;
    let LastRows { first, last, count } = taken;
    Ok((done, decisions, count, first, last) == (Ok(()), 42, 3, [30, 40], [30, 41]))
}

/// Whether the row above a symbol that is too long is handed over, and no more.
fn stops_at_a_refusal(
    alloc: Global,
    table: &StateTable,
    set: &QuantSet,
    states: &mut [u8],
) -> Result<bool, Fail>
    requires rows { length states.old ≡ contexts_of set.now * 32 }
    requires fresh { AreHeld table.now (replicate 32 128) }
{
    let code = refused_at_two(alloc, table)?;
    let (done, taken, decisions) = rows_of(alloc, table, set, states, &code, 2)?;
    Ok((done, decisions, taken.count) == (Err(TooLong { x: 0 }), 34, 1))
}

/// By states of the small set.
fn judge_cells(
    rt: &impl Abort,
    alloc: Global,
    table: &StateTable,
    small: &QuantSet,
    states: &mut [u8],
) -> Result<(), Fail>
    requires rows { length states.old ≡ contexts_of small.now * 32 }
    requires fresh { AreHeld table.now (replicate 32 128) }
{
    holds(rt, has_code(alloc, table, small, states))?;
    holds(rt, come_back(alloc, table, small, states))?;
    holds(rt, stops_at_a_refusal(alloc, table, small, states))
}

#[test]
fn cells_of_the_small_set(rt: HostRuntime) -> Result<(), Fail> {
    let alloc = rt.alloc();
    let small = QuantSet::small(alloc)?;
    let table = StateTable::standard();
    let mut states = vec![in alloc; 128u8; small.contexts() as usize * 32]?;
    judge_cells(&rt, alloc, &table, &small, states.as_mut_slice())
}
