//! Heads of slices: the fault, the decisions that were read, and what the head says.

ghost use Rattle.std.specs.Prelude.{◌≡◌, ◌*◌, IfOk};

use crate::fields::{Count, bytes, counted, number};
use anyhow::{Result, ensure};
use ffv1_plane::QuantSet;
use ffv1_range::RangeDecoder;
use ffv1_record::{Checked, Coder, Colour, Config, Sets};
use ffv1_slice::{SliceFault, SliceHead, get_head, get_key};
use std::alloc::Global;
use std::fs;
use std::rt::Files;
use std::str::SplitWhitespace;

/// So many small sets.
fn small_sets(alloc: Global, count: u32) -> Result<Sets> {
    let mut sets = Sets::new(alloc);
    for _ in 0..count {
        sets.push(QuantSet::small(alloc)?)?;
    }
    Ok(sets)
}

/// Pictures with one sample in each slice.
pub(crate) fn checked(
    alloc: Global,
    columns: u32,
    rows: u32,
    extra: bool,
    ec: bool,
    sets: u32,
) -> Result<Checked>
    ensures columns { IfOk result (λ c. c.configuration.columns ≡ columns) }
    ensures rows { IfOk result (λ c. c.configuration.rows ≡ rows) }
{
    let sets = small_sets(alloc, sets)?;
    let config = Config {
        width: columns,
        height: rows,
        coder: Coder::One,
        colour: Colour::YCbCr,
        chroma_planes: extra,
        extra_plane: extra,
        log2_h: 0,
        log2_v: 0,
        columns,
        rows,
        sets,
        ec,
        intra: true,
    };
    Ok(config.check()?)
}

/// The number of a fault.
pub(crate) fn number_of(fault: SliceFault) -> u32 {
    match fault {
        SliceFault::OutOfMemory => 2,
        SliceFault::SymbolTooLong => 4,
        SliceFault::NotKey => 30,
        SliceFault::Place => 31,
        SliceFault::SetIndex => 32,
        SliceFault::Structure => 33,
        SliceFault::Aspect => 34,
        SliceFault::Footer => 35,
        SliceFault::Leftover => 36,
        SliceFault::SliceParity => 37,
        SliceFault::SliceStatus => 38,
        SliceFault::SliceTooLong => 40,
    }
}

/// The key and the head of a slice.
fn head_of(
    decoder: &mut RangeDecoder<'_>,
    checked: &Checked,
    slice: u32,
    columns: u32,
    rows: u32,
) -> Result<Result<SliceHead, SliceFault>>
    requires columns { checked.now.configuration.columns ≡ columns }
    requires rows { checked.now.configuration.rows ≡ rows }
{
    ensure!(
        u64::from(slice) < u64::from(columns) * u64::from(rows),
        "no such slice"
    );
    if let Err(fault) = get_key(decoder, checked, slice) {
        return Ok(Err(fault));
    }
    Ok(get_head(decoder, checked, slice))
}

/// Whether the rest of a line is what was read.
fn agrees(
    fields: &mut SplitWhitespace<'_>,
    head: Result<SliceHead, SliceFault>,
    decisions: u64,
) -> Result<bool> {
    let fault = number(fields)?;
    let count = number(fields)?;
    if u64::from(count) != decisions {
        return Ok(false);
    }
    match head {
        Err(refused) => Ok(number_of(refused) == fault),
        Ok(head) => {
            let [first, second, third] = head.indexes;
            Ok(
                fault == 0
                    && number(fields)? == u32::from(first)
                    && number(fields)? == u32::from(second)
                    && number(fields)? == u32::from(third)
                    && number(fields)? == u32::from(head.structure)
                    && number(fields)? == u32::from(head.sar_num)
                    && number(fields)? == u32::from(head.sar_den),
            )
        }
    }
}

/// Whether one case agrees.
fn case(alloc: Global, line: &str) -> Result<bool> {
    let mut fields = line.split_whitespace();
    let columns = number(&mut fields)?;
    let rows = number(&mut fields)?;
    let extra = number(&mut fields)? == 1;
    let sets = number(&mut fields)?;
    let slice = number(&mut fields)?;
    let coded = bytes(alloc, &mut fields)?;
    let checked = checked(alloc, columns, rows, extra, false, sets)?;
    let mut decoder = RangeDecoder::new(coded.as_slice())?;
    let head = head_of(&mut decoder, &checked, slice, columns, rows)?;
    agrees(&mut fields, head, decoder.taken())
}

/// How many cases agree.
pub(crate) fn count<R: AllocGlobal + Files>(rt: &R) -> Result<Count> {
    let text = fs::read_to_string(rt, "heads.txt")?;
    let mut count = Count { agree: 0, cases: 0 };
    for line in text.lines() {
        count = counted(count, case(rt.alloc(), line)?);
    }
    Ok(count)
}
