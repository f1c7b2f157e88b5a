//! The rows of a plane, coded and decoded over three rolling lines.

ghost use Rattle.std.specs.Prelude.{◌≤◌, ◌≡◌, ◌*◌, ◌<◌, length};
ghost use Rattle.ffv1_plane.specs.Quantisation.{contexts_of};
ghost use Rattle.ffv1_range.specs.Symbols.{AllHeld};

use anyhow::{Result, anyhow, ensure};
use ffv1_line::{Above, Coding, RollingRows, decode_line, encode_line};
use ffv1_range::{RangeDecoder, RangeEncoder};
use std::alloc::Global;

/// The samples of a plane, row by row.
#[derive(Clone, Copy)]
pub(crate) struct Plane<'a> {
    pub(crate) samples: &'a [u8],
    pub(crate) width: usize,
}

/// Codes the row that the lines hold.
fn encode_row(
    encoder: &mut RangeEncoder,
    coding: &Coding<'_, Global>,
    states: &mut [u8],
    rows: &RollingRows<Vec<u16>>,
) -> Result<()>
    requires narrow { coding.now.bits ≤ 16 }
    requires rows { length states.old ≡ contexts_of coding.now.set * 32 }
    requires held { AllHeld coding.now.table states.old }
    ensures held { AllHeld coding.now.table states.new }
{
    let RollingRows { two, one, cur } = rows;
    ensure!(
        cur.len() > 0 && two.len() == cur.len() && one.len() == cur.len(),
        "lengths"
    );
    match encode_line(encoder, coding, states, &Above { two, one }, cur) {
        Ok(()) => Ok(()),
        Err(_) => Err(anyhow!("2 OutOfMemory")),
    }
}

/// Codes a plane by an encoder and rolling lines.
fn encode_rows(
    encoder: &mut RangeEncoder,
    coding: &Coding<'_, Global>,
    states: &mut [u8],
    rows: &mut RollingRows<Vec<u16>>,
    plane: &Plane<'_>,
) -> Result<()>
    requires narrow { coding.now.bits ≤ 16 }
    requires wide { 0 < plane.now.width }
    requires rows { length states.old ≡ contexts_of coding.now.set * 32 }
    requires held { AllHeld coding.now.table states.old }
{
    'rows: for row in plane.samples.chunks_exact(plane.width) {
        for (sample, byte) in rows.cur.iter_mut().zip(row) {
            *sample = u16::from(*byte);
        }
        encode_row(encoder, coding, states, rows)?;
        rows.turn();
    }
    Ok(())
}

/// Codes a plane.
pub(crate) fn encode(
    alloc: Global,
    coding: &Coding<'_, Global>,
    states: &mut [u8],
    plane: &Plane<'_>,
) -> Result<Vec<u8>>
    requires narrow { coding.now.bits ≤ 16 }
    requires wide { 0 < plane.now.width }
    requires rows { length states.old ≡ contexts_of coding.now.set * 32 }
    requires held { AllHeld coding.now.table states.old }
{
    let mut rows = RollingRows::new(alloc, plane.width)?;
    let mut encoder = RangeEncoder::new(alloc);
    encode_rows(&mut encoder, coding, states, &mut rows, plane)?;
    Ok(encoder.finish_sentinel()?)
}

/// Decodes a row into the lines.
fn decode_row(
    decoder: &mut RangeDecoder<'_>,
    coding: &Coding<'_, Global>,
    states: &mut [u8],
    rows: &mut RollingRows<Vec<u16>>,
) -> Result<()>
    requires narrow { coding.now.bits ≤ 16 }
    requires rows { length states.old ≡ contexts_of coding.now.set * 32 }
    requires held { AllHeld coding.now.table states.old }
    ensures held { AllHeld coding.now.table states.new }
{
    let RollingRows { two, one, cur } = rows;
    if cur.is_empty() || two.len() != cur.len() || one.len() != cur.len() {
        return Err(anyhow!("lengths"));
    }
    match decode_line(decoder, coding, states, &Above { two, one }, cur) {
        Ok(()) => Ok(()),
        Err(_) => Err(anyhow!("too long")),
    }
}

/// Whether a line has these samples.
fn shows(line: &[u16], row: &[u8]) -> bool {
    let mut same = true;
    for (sample, byte) in line.iter().zip(row) {
        same = same & (*sample == u16::from(*byte));
    }
    same
}

/// Decodes a plane over rolling lines, and tells whether it is the one given.
fn decode_rows(
    coding: &Coding<'_, Global>,
    states: &mut [u8],
    rows: &mut RollingRows<Vec<u16>>,
    plane: &Plane<'_>,
    bytes: &[u8],
    parks: bool,
) -> Result<bool>
    requires narrow { coding.now.bits ≤ 16 }
    requires wide { 0 < plane.now.width }
    requires rows { length states.old ≡ contexts_of coding.now.set * 32 }
    requires held { AllHeld coding.now.table states.old }
{
    let Ok(mut decoder) = RangeDecoder::new(bytes) else {
        return Err(anyhow!("start"));
    };
    let mut same = true;
    'rows: for row in plane.samples.chunks_exact(plane.width) {
        if parks {
            decoder = decoder.park().wake(bytes);
        }
        decode_row(&mut decoder, coding, states, rows)?;
        same = same & shows(&rows.cur, row);
        rows.turn();
    }
    Ok(same)
}

/// Decodes a plane, and tells whether it is the one given.
pub(crate) fn decode(
    alloc: Global,
    coding: &Coding<'_, Global>,
    states: &mut [u8],
    plane: &Plane<'_>,
    bytes: &[u8],
    parks: bool,
) -> Result<bool>
    requires narrow { coding.now.bits ≤ 16 }
    requires wide { 0 < plane.now.width }
    requires rows { length states.old ≡ contexts_of coding.now.set * 32 }
    requires held { AllHeld coding.now.table states.old }
{
    let mut rows = RollingRows::new(alloc, plane.width)?;
    decode_rows(coding, states, &mut rows, plane, bytes, parks)
}
