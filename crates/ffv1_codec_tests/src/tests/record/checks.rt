//! Which configurations are accepted.

use super::made::mono;
use super::stored::SMALL;
use ffv1_record::{
    Coder, Colour, Config, Profile, RecordFault, Sets, parity, read_record, read_record_in,
};
use std::alloc::Global;
use std::test::Fail;

/// What is said of a configuration of pictures one sample high.
#[derive(Clone, Copy)]
struct Said {
    width: u32,
    coder: Coder,
    colour: Colour,
    chroma_planes: bool,
    extra_plane: bool,
    log2_h: u32,
    columns: u32,
    has_set: bool,
}

/// Mono pictures by the small set.
const MONO: Said = Said {
    width: 1,
    coder: Coder::One,
    colour: Colour::YCbCr,
    chroma_planes: false,
    extra_plane: false,
    log2_h: 0,
    columns: 1,
    has_set: true,
};

/// Deltas without a symbol.
const UNWRITABLE: Coder = Coder::Two([i32::MIN; 255]);

/// The configuration of which this is said.
fn config_of(alloc: Global, said: Said) -> Result<Config, RecordFault> {
    let mut config = mono(alloc, said.width, 1)?;
    config.coder = said.coder;
    config.colour = said.colour;
    config.chroma_planes = said.chroma_planes;
    config.extra_plane = said.extra_plane;
    config.log2_h = said.log2_h;
    config.columns = said.columns;
    if !said.has_set {
        config.sets = Sets::new(alloc);
    }
    Ok(config)
}

/// The floor of the state transition table of a configuration that is accepted.
fn floor_of(alloc: Global, said: Said) -> Result<u8, RecordFault> {
    let checked = config_of(alloc, said)?.check()?;
    Ok(checked.table().floor())
}

/// What is said of configurations, and the floors of their tables or their first faults.
static JUDGED: [(Said, Result<u8, RecordFault>); 9] = [
    (
        Said {
            width: 8193,
            log2_h: 3,
            ..MONO
        },
        Err(RecordFault::Size),
    ),
    (
        Said {
            colour: Colour::Rct,
            extra_plane: true,
            ..MONO
        },
        Err(RecordFault::Subsampling),
    ),
    (
        Said {
            extra_plane: true,
            has_set: false,
            ..MONO
        },
        Err(RecordFault::ExtraPlane),
    ),
    (
        Said {
            coder: UNWRITABLE,
            has_set: false,
            ..MONO
        },
        Err(RecordFault::Sets),
    ),
    (
        Said {
            coder: UNWRITABLE,
            columns: 2,
            ..MONO
        },
        Err(RecordFault::StateTable),
    ),
    (
        Said {
            width: 64,
            columns: 33,
            ..MONO
        },
        Err(RecordFault::Grid),
    ),
    (
        Said {
            width: 31,
            columns: 32,
            ..MONO
        },
        Err(RecordFault::Grid),
    ),
    (
        Said {
            width: 7,
            chroma_planes: true,
            log2_h: 1,
            columns: 2,
            ..MONO
        },
        Err(RecordFault::ChromaEdge),
    ),
    (
        Said {
            width: 5,
            chroma_planes: true,
            log2_h: 1,
            columns: 2,
            ..MONO
        },
        Ok(8),
    ),
];

#[test]
fn first_faults_and_grids(rt: HostRuntime) {
    for &(said, judged) in &JUDGED {
        assert!(rt; floor_of(rt.alloc(), said) == judged);
    }
}

#[test]
fn parities(rt: HostRuntime) {
    assert!(rt; (parity(&[1]), parity(&[0, 0, 0])) == (0x04C1_1DB7, 0));
}

/// The profiles of a configuration that is checked, and of its record that is read: if none is
/// named, and if one is.
fn profiles(alloc: Global, profile: Profile) -> Result<[Profile; 4], RecordFault> {
    let checked = mono(alloc, 1, 1)?.check()?;
    let checked_in = mono(alloc, 1, 1)?.check_in(profile, 8, 8)?;
    let read = read_record(alloc, &SMALL, 1, 1)?;
    let read_in = read_record_in(alloc, &SMALL, 1, 1, profile, 8)?;
    Ok([
        checked.profile(),
        checked_in.profile(),
        read.profile(),
        read_in.profile(),
    ])
}

/// Whether a record that is read in two profiles is the same.
fn are_same(alloc: Global, first: Profile, second: Profile) -> Result<bool, RecordFault> {
    let one = read_record_in(alloc, &SMALL, 1, 1, first, 8)?;
    let other = read_record_in(alloc, &SMALL, 1, 1, second, 8)?;
    Ok(one == other)
}

#[test]
fn kept_profiles(rt: HostRuntime) -> Result<(), Fail> {
    let (strict, wide) = (Profile::Strict, Profile::Wide);
    assert!(rt; profiles(rt.alloc(), strict)? == [strict; 4]);
    assert!(rt; profiles(rt.alloc(), wide)? == [strict, wide, strict, wide]);
    let same = are_same(rt.alloc(), wide, wide)?;
    assert!(rt; same && !are_same(rt.alloc(), strict, wide)?);
    Ok(())
}

/// Why a configuration of this width is refused at a depth; None if it is accepted.
fn fault_at(alloc: Global, width: u32, depth: u32) -> Option<RecordFault> {
    match mono(alloc, width, 1) {
        Ok(config) => config.check_in(Profile::Wide, depth, 8).err(),
        Err(fault) => Some(fault),
    }
}

#[test]
fn depths(rt: HostRuntime) {
    let alloc = rt.alloc();
    assert!(rt; fault_at(alloc, 1, 8).is_none());
    for depth in [0, 7, 9, 10, 16] {
        assert!(rt; fault_at(alloc, 1, depth) == Some(RecordFault::Depth));
        assert!(rt; fault_at(alloc, 0, depth) == Some(RecordFault::Size));
    }
}
