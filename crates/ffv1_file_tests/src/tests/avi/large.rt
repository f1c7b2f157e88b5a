//! Frames of many bytes.

use super::files::file_of;
use ffv1_avi::AviReader;
use ffv1_reads::{Colour, FileFault, FileHead};
use ffv1_wire::FromRead;
use std::alloc::{AllocError, Global};
use std::process::Abort;
use std::test::Fail;

/// So many zeros.
fn zeros(alloc: Global, count: usize) -> Result<Vec<u8>, AllocError> {
    let mut bytes = Vec::new(alloc);
    bytes.resize(count, 0)?;
    Ok(bytes)
}

/// One frame of so many zeros and a byte 7.
fn frames_of(alloc: Global, zeros_before: usize) -> Result<Vec<Vec<u8>>, Fail> {
    let mut frame = zeros(alloc, zeros_before)?;
    frame.push(7)?;
    let mut frames = Vec::new(alloc);
    frames.push(frame)?;
    Ok(frames)
}

/// A file of one of these frames.
pub fn file_of_one(alloc: Global, zeros_before: usize) -> Result<Vec<u8>, Fail> {
    let frames = frames_of(alloc, zeros_before)?;
    let head = FileHead {
        width: 1,
        height: 1,
        rate: 25,
        scale: 1,
        colour: Colour::UNSAID,
        config_record: Vec::new(alloc),
    };
    Ok(file_of(alloc, &head, frames.as_slice())?)
}

/// What the first frame of the file reads as, how many bytes it has, its last byte, and how many
/// bytes are left.
fn first_frame(
    alloc: Global,
    file: &[u8],
) -> Result<(Result<bool, FileFault>, usize, Option<u8>, usize), FileFault> {
    let mut input = FromRead::new(file);
    let mut reader = AviReader::open(alloc, &mut input)?;
    let mut frame = Vec::new(alloc);
    let answer = reader.next_frame(&mut input, &mut frame);
    Ok((
        answer,
        frame.len(),
        frame.last().copied(),
        input.into_inner().len(),
    ))
}

/// A file of so many zeros and a byte 7 is read so.
fn reads_large(
    rt: &impl Abort,
    alloc: Global,
    zeros_before: usize,
    expected: (Result<bool, FileFault>, usize, Option<u8>, usize),
) -> Result<(), Fail> {
    let file = file_of_one(alloc, zeros_before)?;
    assert!(rt; first_frame(alloc, file.as_slice()) == Ok(expected));
    Ok(())
}

#[test]
fn large_frames(rt: HostRuntime) -> Result<(), Fail> {
    reads_large(&rt, rt.alloc(), 65_535, (Ok(true), 65_536, Some(7), 0))?;
    reads_large(&rt, rt.alloc(), 65_536, (Ok(true), 65_537, Some(7), 0))?;
    reads_large(&rt, rt.alloc(), 131_072, (Ok(true), 131_073, Some(7), 0))?;
    reads_large(
        &rt,
        rt.alloc(),
        3_000_000,
        (Ok(true), 3_000_001, Some(7), 0),
    )?;
    reads_large(
        &rt,
        rt.alloc(),
        67_108_863,
        (Ok(true), 67_108_864, Some(7), 0),
    )
}

#[test]
fn frame_too_long(rt: HostRuntime) -> Result<(), Fail> {
    // the frame and its padding are left
    let expected = (Err(FileFault::ChunkTooLong), 0, None, 67_108_866);
    reads_large(&rt, rt.alloc(), 67_108_864, expected)
}
