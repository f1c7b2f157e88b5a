//! Records that are refused, and why.

use super::made::{MONO, Made, made_record};
use super::stored::SMALL;
use ffv1_record::{RecordFault, parity, read_record, write_record};
use std::alloc::Global;
use std::process::Abort;

/// What bytes are refused for, if they are.
fn fault_of(alloc: Global, bytes: &[u8], width: u32, height: u32) -> Option<RecordFault> {
    match read_record(alloc, bytes, width, height) {
        Ok(_) => None,
        Err(fault) => Some(fault),
    }
}

/// The same of the record of these values.
fn fault_of_made(
    alloc: Global,
    values: Made,
    width: u32,
) -> Result<Option<RecordFault>, RecordFault> {
    let record = made_record(alloc, values)?.0;
    Ok(fault_of(alloc, &record, width, 8192))
}

/// Values, widths, and what the records are refused for.
static REFUSED: [(Made, u32, RecordFault); 21] = [
    (Made { version: 4, ..MONO }, 1, RecordFault::Version),
    (
        Made {
            version: 2,
            coder: 0,
            ..MONO
        },
        1,
        RecordFault::Version,
    ),
    (
        Made {
            micro_version: 3,
            ..MONO
        },
        1,
        RecordFault::MicroVersion,
    ),
    (Made { coder: 0, ..MONO }, 1, RecordFault::Coder),
    (
        Made {
            coder: 2,
            delta: 122,
            colour: 2,
            ..MONO
        },
        1,
        RecordFault::StateTable,
    ),
    (Made { colour: 2, ..MONO }, 1, RecordFault::ColourSpace),
    (Made { bits: 10, ..MONO }, 1, RecordFault::Depth),
    (
        Made {
            extra_plane: true,
            ..MONO
        },
        1,
        RecordFault::ExtraPlane,
    ),
    (
        Made {
            colour: 1,
            extra_plane: true,
            ..MONO
        },
        1,
        RecordFault::ExtraPlane,
    ),
    (
        Made {
            colour: 1,
            columns: 32,
            ..MONO
        },
        1,
        RecordFault::Subsampling,
    ),
    (Made { count: 0, ..MONO }, 1, RecordFault::Sets),
    (Made { count: 9, ..MONO }, 1, RecordFault::Sets),
    (Made { run: 128, ..MONO }, 1, RecordFault::Runs),
    (
        Made {
            coded: true,
            ..MONO
        },
        1,
        RecordFault::CodedStates,
    ),
    (Made { ec: 2, ..MONO }, 1, RecordFault::Ec),
    (Made { intra: 2, ..MONO }, 1, RecordFault::Intra),
    (
        Made {
            columns: 32,
            ..MONO
        },
        64,
        RecordFault::Grid,
    ),
    (
        Made {
            columns: 31,
            ..MONO
        },
        31,
        RecordFault::Grid,
    ),
    (
        Made {
            chroma_planes: true,
            log2_h: 1,
            columns: 1,
            ..MONO
        },
        7,
        RecordFault::ChromaEdge,
    ),
    (MONO, 0, RecordFault::Size),
    (MONO, 8193, RecordFault::Size),
];

#[test]
fn refused_values(rt: HostRuntime) {
    for &(values, width, fault) in &REFUSED {
        assert!(rt; fault_of_made(rt.alloc(), values, width) == Ok(Some(fault)));
    }
}

/// Short beginnings of a record are refused, and the record with a bit flipped.
fn refuses_short_and_damaged(rt: &impl Abort, alloc: Global) {
    for len in 0..5usize {
        assert!(rt; fault_of(alloc, &SMALL[..len], 1, 1) == Some(RecordFault::Short));
    }
    for place in 0..SMALL.len() {
        for bit in 0..8u32 {
            let mut record = SMALL;
            record[place] ^= 1 << bit;
            assert!(rt; fault_of(alloc, &record, 1, 1) == Some(RecordFault::Parity));
        }
    }
}

#[test]
fn short_and_damaged(rt: HostRuntime) {
    refuses_short_and_damaged(&rt, rt.alloc());
}

#[test]
fn starts_badly(rt: HostRuntime) {
    let mut bytes = [255, 0, 0, 0, 0, 0];
    bytes[2..].copy_from_slice(&parity(&[255, 0]).to_be_bytes());
    assert!(rt; fault_of(rt.alloc(), &bytes, 1, 1) == Some(RecordFault::BadStart));
}

/// Whether what a record is read as has the small record, and its intra.
fn is_small(alloc: Global, record: &[u8]) -> Result<(bool, bool), RecordFault> {
    let checked = read_record(alloc, record, 1, 1)?;
    let again = write_record(alloc, &checked)?;
    Ok((again.as_slice() == SMALL.as_slice(), checked.config().intra))
}

#[test]
fn eight_bits(rt: HostRuntime) -> Result<(), RecordFault> {
    let record = made_record(rt.alloc(), Made { bits: 0, ..MONO })?.0;
    assert!(rt; is_small(rt.alloc(), &record) == Ok((true, true)));
    Ok(())
}

#[test]
fn a_byte_behind(rt: HostRuntime) {
    let mut record = [0; 27];
    record[..26].copy_from_slice(&SMALL);
    assert!(rt; is_small(rt.alloc(), &record) == Ok((true, true)));
}
