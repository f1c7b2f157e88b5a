//! How long a frame lasts in a file that is written.

use super::files::file_of;
use ffv1_reads::{Colour, FileFault, FileHead};
use std::alloc::Global;
use std::process::Abort;

/// The microseconds that are written.
fn microseconds(alloc: Global, rate: u32, scale: u32) -> Result<[u8; 4], FileFault> {
    let head = FileHead {
        width: 1,
        height: 1,
        rate,
        scale,
        colour: Colour::UNSAID,
        config_record: Vec::new(alloc),
    };
    let frames = Vec::new(alloc);
    let file = file_of(alloc, &head, frames.as_slice())?;
    let mut bytes = [0u8; 4];
    if 36 <= file.len() {
        bytes.copy_from_slice(&file[32..36]);
    }
    Ok(bytes)
}

/// Frames at this rate last so many microseconds.
fn lasts(rt: &impl Abort, alloc: Global, rate: u32, scale: u32, expected: u32) {
    assert!(rt; microseconds(alloc, rate, scale) == Ok(expected.to_le_bytes()));
}

#[test]
fn microseconds_a_frame(rt: HostRuntime) {
    lasts(&rt, rt.alloc(), 25, 1, 40000);
    lasts(&rt, rt.alloc(), 30000, 1001, 33366);
    lasts(&rt, rt.alloc(), 1, 4295, u32::MAX);
    lasts(&rt, rt.alloc(), 1, 4294, 4294000000);
    lasts(&rt, rt.alloc(), 0, 0, 0);
}
