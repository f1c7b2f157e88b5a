//! Configurations and records to test with.

use super::symbols::Symbols;
use ffv1_doubles::made;
use ffv1_plane::QuantSet;
use ffv1_range::Fault;
use ffv1_record::{Config, RecordFault, Sets, parity};
use std::alloc::Global;

/// Mono pictures by the small set, ec and intra 1.
pub(super) fn mono(alloc: Global, width: u32, height: u32) -> Result<Config, RecordFault> {
    made::mono(alloc, width, height, 1, true)
}

/// The same by the large set.
pub(super) fn mono_large(alloc: Global, width: u32, height: u32) -> Result<Config, RecordFault> {
    let mut config = mono(alloc, width, height)?;
    let mut sets = Sets::new(alloc);
    sets.push(QuantSet::large(alloc)?)?;
    config.sets = sets;
    Ok(config)
}

/// What a record says, each value as it is coded.
#[derive(Clone, Copy)]
pub(super) struct Made {
    pub(super) version: u16,
    pub(super) micro_version: u16,
    pub(super) coder: u16,
    pub(super) delta: i8,
    pub(super) colour: u16,
    pub(super) bits: u16,
    pub(super) chroma_planes: bool,
    pub(super) log2_h: u16,
    pub(super) extra_plane: bool,
    pub(super) columns: u16,
    pub(super) rows: u16,
    pub(super) count: u16,
    pub(super) run: u16,
    pub(super) large: bool,
    pub(super) coded: bool,
    pub(super) ec: u16,
    pub(super) intra: u16,
}

/// Mono pictures by the small set, ec and intra 1.
pub(super) const MONO: Made = Made {
    version: 3,
    micro_version: 4,
    coder: 1,
    delta: 0,
    colour: 0,
    bits: 8,
    chroma_planes: false,
    log2_h: 0,
    extra_plane: false,
    columns: 0,
    rows: 0,
    count: 1,
    run: 0,
    large: false,
    coded: false,
    ec: 1,
    intra: 1,
};

/// Writes the deltas, that of state 128 given.
fn put_deltas(symbols: &mut Symbols, delta: i8) -> Result<(), Fault> {
    for k in 0..255u8 {
        if k == 127 {
            symbols.signed_number(i32::from(delta))?;
        } else {
            symbols.signed_number(0)?;
        }
    }
    Ok(())
}

/// Writes the runs of a table, the first given, each less 1.
fn put_table(symbols: &mut Symbols, first: u16, more: &[u8]) -> Result<(), Fault> {
    let mut states = [128u8; 32];
    symbols.run(&mut states, u32::from(first))?;
    for &run in more {
        symbols.run(&mut states, u32::from(run))?;
    }
    Ok(())
}

/// Writes the fourth or fifth table of the small or the large set.
fn put_coarse(symbols: &mut Symbols, large: bool) -> Result<(), Fault> {
    if large {
        return put_table(symbols, 2, [10u8, 113].as_slice());
    }
    put_table(symbols, 127, [].as_slice())
}

/// Writes the small or the large set, the first run of its first table given less 1.
fn put_set(symbols: &mut Symbols, first: u16, large: bool) -> Result<(), Fault> {
    let more = [0u8, 2, 6, 10, 104];
    put_table(symbols, first, more.as_slice())?;
    put_table(symbols, 0, more.as_slice())?;
    put_table(symbols, 0, more.as_slice())?;
    put_coarse(symbols, large)?;
    put_coarse(symbols, large)?;
    Ok(())
}

/// Writes numbers.
fn put_numbers(symbols: &mut Symbols, numbers: &[u16]) -> Result<(), Fault> {
    for &number in numbers {
        symbols.number(u32::from(number))?;
    }
    Ok(())
}

/// Writes the parameters before the sets.
fn put_head(symbols: &mut Symbols, made: Made) -> Result<(), Fault> {
    put_numbers(symbols, &[made.version, made.micro_version, made.coder])?;
    if made.coder == 2 {
        put_deltas(symbols, made.delta)?;
    }
    put_numbers(symbols, &[made.colour, made.bits])?;
    symbols.truth(made.chroma_planes)?;
    put_numbers(symbols, &[made.log2_h, 0])?;
    symbols.truth(made.extra_plane)?;
    put_numbers(symbols, &[made.columns, made.rows, made.count])
}

/// Writes all parameters.
fn put_parameters(symbols: &mut Symbols, made: Made) -> Result<(), Fault> {
    put_head(symbols, made)?;
    put_set(symbols, made.run, made.large)?;
    symbols.truth(made.coded)?;
    put_numbers(symbols, &[made.ec, made.intra])
}

/// Puts the parity after bytes, big end first.
pub(super) fn sealed(mut bytes: Vec<u8>) -> Result<Vec<u8>, RecordFault> {
    let tail = parity(&bytes).to_be_bytes();
    bytes.extend_from_slice(&tail)?;
    Ok(bytes)
}

/// The record, and how many decisions it has.
pub(super) fn made_record(alloc: Global, made: Made) -> Result<(Vec<u8>, u64), RecordFault> {
    let mut symbols = Symbols::new(alloc);
    put_parameters(&mut symbols, made)?;
    let decisions = symbols.decisions();
    let bytes = symbols.finish()?;
    Ok((sealed(bytes)?, decisions))
}
