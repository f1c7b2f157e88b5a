//! How much a decoder holds.

use super::made::{mono, mono_large};
use ffv1_record::{Colour, Config, Held, RecordFault};
use std::alloc::Global;

/// What a configuration holds, of these colours, a subsampling and columns.
fn held_by(
    mut config: Config,
    colour: Colour,
    extra_plane: bool,
    log2: u32,
    columns: u32,
) -> Result<Held, RecordFault> {
    config.colour = colour;
    config.chroma_planes = true;
    config.extra_plane = extra_plane;
    config.log2_h = log2;
    config.log2_v = log2;
    config.columns = columns;
    Ok(config.check()?.held())
}

/// What pictures 352 wide hold by the small set.
fn held_of(
    alloc: Global,
    height: u32,
    colour: Colour,
    extra_plane: bool,
    log2: u32,
) -> Result<Held, RecordFault> {
    held_by(mono(alloc, 352, height)?, colour, extra_plane, log2, 2)
}

/// What is held.
const fn held(states: usize, samples: usize, output: usize, columns: usize) -> Held {
    Held {
        states,
        samples,
        output,
        columns,
        offsets: 1025,
    }
}

#[test]
fn whatever_the_height(rt: HostRuntime) {
    for height in [2u32, 288, 8192] {
        let found = held_of(rt.alloc(), height, Colour::YCbCr, false, 1);
        assert!(rt; found == Ok(held(85248, 1056, 352, 2)));
    }
}

#[test]
fn by_colour(rt: HostRuntime) -> Result<(), RecordFault> {
    let large = held_by(mono_large(rt.alloc(), 352, 288)?, Colour::Rct, false, 0, 4);
    let alpha = held_of(rt.alloc(), 288, Colour::YCbCr, true, 0);
    let both = held_of(rt.alloc(), 288, Colour::Rct, true, 0);
    assert!(rt; large == Ok(held(4259328, 3168, 1056, 4)));
    assert!(rt; alpha == Ok(held(127872, 1056, 352, 2)));
    assert!(rt; both == Ok(held(127872, 4224, 1408, 2)));
    Ok(())
}
