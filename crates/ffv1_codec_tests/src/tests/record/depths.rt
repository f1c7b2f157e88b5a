//! Depths of configurations and of records, by records of an independent model.

use super::made::{MONO, Made, made_record, mono};
use super::stored::SMALL;
use ffv1_record::{
    Checked, Colour, Config, Held, Profile, RecordFault, read_record_in, write_record,
};
use std::alloc::Global;
use std::test::Fail;

/// Depths, and the bytes of mono pictures 1 by 1, small set, ec and intra 1.
const RECORDS: [(u32, [u8; 26]); 6] = [
    (8, SMALL),
    (
        9,
        [
            0x56, 0x00, 0x37, 0xCE, 0x1E, 0xA8, 0xC0, 0x5C, 0x71, 0x22, 0xDB, 0xFA, 0x19, 0x78,
            0x14, 0x3E, 0xF0, 0x7E, 0xEB, 0xD5, 0x68, 0x00, 0x8A, 0x4B, 0x34, 0xE5,
        ],
    ),
    (
        10,
        [
            0x56, 0x00, 0x3F, 0x17, 0xF5, 0x9C, 0x63, 0xEA, 0x54, 0xD1, 0x38, 0xF6, 0xD8, 0xA1,
            0x5F, 0x85, 0x4E, 0x3B, 0x74, 0xE7, 0xB0, 0x00, 0xE8, 0x04, 0xCA, 0x71,
        ],
    ),
    (
        12,
        [
            0x56, 0x00, 0x4D, 0x5A, 0xE1, 0x4F, 0x76, 0x38, 0xB8, 0x2B, 0x67, 0xDB, 0x66, 0x4A,
            0x1B, 0x2F, 0x41, 0xA0, 0xE7, 0xCD, 0x48, 0x00, 0x72, 0xD1, 0x40, 0x96,
        ],
    ),
    (
        14,
        [
            0x56, 0x00, 0x5C, 0x48, 0xF5, 0x9C, 0x63, 0xEA, 0x54, 0xD1, 0x38, 0xF6, 0xD8, 0xA1,
            0x5F, 0x85, 0x4E, 0x3B, 0x74, 0xE7, 0xB0, 0x00, 0x57, 0xFC, 0xCD, 0xD3,
        ],
    ),
    (
        16,
        [
            0x56, 0x00, 0x67, 0x9A, 0xD3, 0x27, 0x5E, 0x56, 0x2E, 0x30, 0xDA, 0x37, 0xAD, 0x3F,
            0xF9, 0x16, 0x0E, 0x54, 0x1A, 0x33, 0xD4, 0x00, 0x6E, 0xE2, 0xBB, 0xEF,
        ],
    ),
];

/// A checked configuration is written so, and read back equal, of this depth.
fn is_stored(
    alloc: Global,
    checked: &Checked,
    depth: u32,
    bytes: &[u8],
) -> Result<bool, RecordFault> {
    let record = write_record(alloc, checked)?;
    let again = read_record_in(alloc, &record, 1, 1, Profile::Wide, 16)?;
    Ok(record.as_slice() == bytes && again == *checked && again.depth() == depth)
}

/// Whether that holds of mono pictures of this depth.
fn mono_is_stored(alloc: Global, depth: u32, bytes: &[u8]) -> Result<bool, RecordFault> {
    let checked = mono(alloc, 1, 1)?.check_in(Profile::Wide, depth, 16)?;
    is_stored(alloc, &checked, depth, bytes)
}

#[test]
fn records(rt: HostRuntime) {
    for &(depth, bytes) in &RECORDS {
        assert!(rt; mono_is_stored(rt.alloc(), depth, &bytes) == Ok(true));
    }
}

/// Why a record of so many bits is refused, if it is.
fn fault_of(
    alloc: Global,
    bits: u16,
    rct: bool,
    profile: Profile,
    most: u32,
) -> Result<Option<RecordFault>, RecordFault> {
    let values = Made {
        bits,
        colour: u16::from(rct),
        chroma_planes: rct,
        ..MONO
    };
    let record = made_record(alloc, values)?.0;
    Ok(read_record_in(alloc, &record, 1, 8192, profile, most).err())
}

#[test]
fn mono_bits(rt: HostRuntime) {
    let (alloc, wide) = (rt.alloc(), Profile::Wide);
    for bits in [0u16, 8, 9, 10, 12, 14, 16] {
        assert!(rt; fault_of(alloc, bits, false, wide, 16) == Ok(None));
    }
    for bits in [1u16, 7, 11, 13, 15, 17, 24, 32] {
        assert!(rt; fault_of(alloc, bits, false, wide, 16) == Ok(Some(RecordFault::Depth)));
    }
}

#[test]
fn colour_bits(rt: HostRuntime) {
    let (alloc, wide) = (rt.alloc(), Profile::Wide);
    for bits in [0u16, 8, 9, 10, 12, 14, 16] {
        assert!(rt; fault_of(alloc, bits, true, wide, 16) == Ok(None));
    }
    assert!(rt; fault_of(alloc, 17, true, wide, 16) == Ok(Some(RecordFault::Depth)));
}

#[test]
fn strict_bits(rt: HostRuntime) {
    let (alloc, strict, wide) = (rt.alloc(), Profile::Strict, Profile::Wide);
    for bits in [0u16, 8] {
        assert!(rt; fault_of(alloc, bits, false, strict, 16) == Ok(None));
    }
    for bits in [9u16, 10, 16, 17] {
        assert!(rt; fault_of(alloc, bits, false, strict, 16) == Ok(Some(RecordFault::Depth)));
        assert!(rt; fault_of(alloc, bits, false, wide, 8) == Ok(Some(RecordFault::Depth)));
    }
}

/// What pictures 352 wide hold, of 4:2:0 in two columns, at a depth.
fn held(alloc: Global, depth: u32) -> Result<Held, RecordFault> {
    let mut config = mono(alloc, 352, 288)?;
    config.chroma_planes = true;
    config.log2_h = 1;
    config.log2_v = 1;
    config.columns = 2;
    Ok(config.check_in(Profile::Wide, depth, 16)?.held())
}

#[test]
fn held_bytes(rt: HostRuntime) -> Result<(), Fail> {
    let (eight, ten) = (held(rt.alloc(), 8)?, held(rt.alloc(), 10)?);
    assert!(rt; (eight.states, eight.samples, eight.output) == (85248, 1056, 352));
    assert!(rt; (ten.states, ten.samples, ten.output) == (85248, 1056, 704));
    assert!(rt; (ten.columns, ten.offsets) == (2, 1025));
    Ok(())
}

/// Why a configuration of this width is refused at a depth in `Wide`; None if it is accepted.
fn fault_at(alloc: Global, width: u32, rct: bool, depth: u32) -> Option<RecordFault> {
    match colours(alloc, width, rct) {
        Ok(config) => config.check_in(Profile::Wide, depth, 16).err(),
        Err(fault) => Some(fault),
    }
}

/// Mono pictures, or pictures by RCT.
fn colours(alloc: Global, width: u32, rct: bool) -> Result<Config, RecordFault> {
    let mut config = mono(alloc, width, 1)?;
    config.chroma_planes = rct;
    config.colour = if rct { Colour::Rct } else { Colour::YCbCr };
    Ok(config)
}

#[test]
fn checked_depths(rt: HostRuntime) {
    let alloc = rt.alloc();
    for depth in [8, 9, 10, 12, 14, 16] {
        assert!(rt; fault_at(alloc, 1, false, depth).is_none());
        assert!(rt; fault_at(alloc, 1, true, depth).is_none());
    }
    for depth in [0, 7, 11, 13, 15, 17] {
        assert!(rt; fault_at(alloc, 1, false, depth) == Some(RecordFault::Depth));
        assert!(rt; fault_at(alloc, 0, false, depth) == Some(RecordFault::Size));
    }
}
