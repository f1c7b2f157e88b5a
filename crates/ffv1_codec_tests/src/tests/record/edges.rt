//! Which grids are accepted if slices share chroma samples, by values from outside the program:
//! those of an independent model.

use super::made::mono;
use ffv1_doubles::made;
use ffv1_record::{Config, Held, Profile, RecordFault, read_record_in, write_record};
use std::alloc::Global;
use std::test::Fail;

/// A size in parts of a chroma factor, given by its binary logarithm, and whether each profile,
/// `Strict` first, accepts it.
static SIDES: [(u32, u32, u32, bool, bool); 13] = [
    (10, 2, 1, false, true),
    (640, 6, 1, false, true),
    (1280, 6, 1, false, true),
    (486, 4, 1, false, true),
    (288, 5, 1, false, true),
    (2048, 6, 2, false, true),
    (4, 4, 2, false, true),
    (10, 4, 1, false, true),
    (5, 3, 1, false, false),
    (7, 2, 1, false, false),
    (9, 3, 2, false, false),
    (53, 4, 2, false, false),
    (720, 6, 1, true, true),
];

/// Why pictures of a width in columns are refused in a profile; None if they are accepted.
fn refusal_across(
    alloc: Global,
    profile: Profile,
    width: u32,
    columns: u32,
    log2: u32,
) -> Option<RecordFault> {
    let Ok(mut config) = made::mono(alloc, width, 1, columns, false) else {
        return Some(RecordFault::OutOfMemory);
    };
    config.chroma_planes = true;
    config.log2_h = log2;
    config.check_in(profile, 8, 8).err()
}

/// The same of a height in rows.
fn refusal_down(
    alloc: Global,
    profile: Profile,
    height: u32,
    rows: u32,
    log2: u32,
) -> Option<RecordFault> {
    let Ok(mut config) = mono(alloc, 1, height) else {
        return Some(RecordFault::OutOfMemory);
    };
    config.chroma_planes = true;
    config.log2_v = log2;
    config.rows = rows;
    config.check_in(profile, 8, 8).err()
}

/// The fault of edges that are not accepted.
fn edge_fault(accepted: bool) -> Option<RecordFault> {
    if accepted {
        None
    } else {
        Some(RecordFault::ChromaEdge)
    }
}

#[test]
fn sides(rt: HostRuntime) {
    let alloc = rt.alloc();
    for &(size, parts, log2, strict, wide) in &SIDES {
        for (profile, accepted) in [(Profile::Strict, strict), (Profile::Wide, wide)] {
            let wanted = edge_fault(accepted);
            assert!(rt; refusal_across(alloc, profile, size, parts, log2) == wanted);
            assert!(rt; refusal_down(alloc, profile, size, parts, log2) == wanted);
        }
    }
}

/// A record of pictures that are divided in columns and rows.
#[derive(Clone, Copy)]
struct Row {
    width: u32,
    height: u32,
    log2_h: u32,
    log2_v: u32,
    columns: u32,
    rows: u32,
    ec: bool,
    record: &'static [u8],
    /// Whether `Strict` accepts it.
    strict: bool,
    /// States, samples and bytes of output that are held, if `Wide` accepts it.
    held: Option<(usize, usize, usize)>,
}

/// Edges that halve no chroma sample, some that do, a shared line of chroma, and two sizes of which
/// the last column of chroma lies in no slice.
static RECORDS: [Row; 6] = [
    Row {
        width: 640,
        height: 480,
        log2_h: 1,
        log2_v: 0,
        columns: 6,
        rows: 4,
        ec: true,
        record: b"\x56\x00\x31\x27\x34\x02\x6A\x71\x7B\x6A\x91\x0F\x74\x8B\
            \xCF\x59\x94\xFD\x19\xF9\xF1\xD8\x00\xDD\xA1\xDA\x58",
        strict: false,
        held: Some((255744, 1920, 640)),
    },
    Row {
        width: 1280,
        height: 720,
        log2_h: 1,
        log2_v: 1,
        columns: 6,
        rows: 4,
        ec: true,
        record: b"\x56\x00\x30\xAB\x2A\x7F\xC6\xEA\x6D\xA4\x79\x01\xAA\x18\
            \xBB\xE2\x40\xFD\xCB\x93\x24\xA0\x00\x28\xAC\x36\xCF",
        strict: false,
        held: Some((255744, 3840, 1280)),
    },
    Row {
        width: 720,
        height: 486,
        log2_h: 1,
        log2_v: 1,
        columns: 2,
        rows: 2,
        ec: true,
        record: b"\x56\x00\x30\x9C\x03\xB9\x22\x16\x33\x71\x0E\x97\x2A\x00\
            \x96\x4D\x38\x0F\x9B\x35\xDC\x00\xA4\xED\x09\x1D",
        strict: false,
        held: Some((85248, 2880, 720)),
    },
    Row {
        width: 720,
        height: 486,
        log2_h: 1,
        log2_v: 1,
        columns: 3,
        rows: 3,
        ec: true,
        record: b"\x56\x00\x30\xA6\x3F\x7C\x41\x28\xF6\x39\x4B\xAE\x22\x83\
            \xDA\x43\x2A\x1A\x87\x0E\x14\x90\x05\xB0\xB8\x23",
        strict: true,
        held: Some((127872, 2160, 720)),
    },
    Row {
        width: 7,
        height: 1,
        log2_h: 1,
        log2_v: 1,
        columns: 2,
        rows: 1,
        ec: false,
        record: b"\x56\x00\x30\xA2\x87\x82\x83\x75\xB6\x10\x93\x47\x52\x96\
            \xCA\xB5\x4C\xEC\xFB\xF7\xD1\x60\xE1\x42\xB6\x78",
        strict: false,
        held: None,
    },
    Row {
        width: 9,
        height: 1,
        log2_h: 2,
        log2_v: 0,
        columns: 3,
        rows: 1,
        ec: false,
        record: b"\x56\x00\x31\x95\x6D\xDD\xBB\x6D\x3B\x1F\xFF\x31\x03\xFA\
            \x82\xEA\x57\x24\x30\x60\xBD\x30\xDF\x55\x58\x88",
        strict: false,
        held: None,
    },
];

/// The configuration of a row.
fn config_of(alloc: Global, row: Row) -> Result<Config, RecordFault> {
    let mut config = made::mono(alloc, row.width, row.height, row.columns, row.ec)?;
    config.chroma_planes = true;
    config.log2_h = row.log2_h;
    config.log2_v = row.log2_v;
    config.rows = row.rows;
    Ok(config)
}

/// What a decoder of a row holds in a profile, by its configuration.
fn held_of(alloc: Global, row: Row, profile: Profile) -> Result<Held, RecordFault> {
    Ok(config_of(alloc, row)?.check_in(profile, 8, 8)?.held())
}

/// The same by its record.
fn held_by_record(alloc: Global, row: Row, profile: Profile) -> Result<Held, RecordFault> {
    Ok(read_record_in(alloc, row.record, row.width, row.height, profile, 8)?.held())
}

/// Whether its configuration is written as its record.
fn is_written(alloc: Global, row: Row) -> Result<bool, RecordFault> {
    let checked = config_of(alloc, row)?.check_in(Profile::Wide, 8, 8)?;
    Ok(write_record(alloc, &checked)?.as_slice() == row.record)
}

/// What a row holds, or why it is refused.
fn wanted(row: Row, profile: Profile) -> Result<Held, RecordFault> {
    let accepted = match profile {
        Profile::Strict => row.strict,
        Profile::Wide => true,
    };
    match row.held {
        Some((states, samples, output)) if accepted => Ok(Held {
            states,
            samples,
            output,
            columns: row.columns as usize,
            offsets: 1025,
        }),
        _ => Err(RecordFault::ChromaEdge),
    }
}

#[test]
fn records(rt: HostRuntime) -> Result<(), Fail> {
    let alloc = rt.alloc();
    for &row in &RECORDS {
        for profile in [Profile::Strict, Profile::Wide] {
            assert!(rt; held_of(alloc, row, profile) == wanted(row, profile));
            assert!(rt; held_by_record(alloc, row, profile) == wanted(row, profile));
        }
        assert!(rt; row.held.is_none() || is_written(alloc, row)?);
    }
    Ok(())
}
