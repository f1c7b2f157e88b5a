//! Files that are damaged: what is given of them.

use super::riffs::two_riffs;
use ffv1_avi::{AviReader, Course};
use ffv1_reads::{FileFault, Item};
use ffv1_wire::FromRead;
use std::alloc::Global;
use std::process::Abort;

/// What is given next.
#[derive(Clone, Copy, Debug, PartialEq, Eq)]
enum Given {
    /// A frame of so many bytes.
    Frame(usize),
    /// A fault, with the bytes before its chunk.
    Told(FileFault, u64),
    /// Nothing more.
    End,
}

/// The next item of a file.
fn give(
    course: &mut Course,
    input: &mut FromRead<&[u8]>,
    frame: &mut Vec<u8>,
) -> Result<Given, FileFault> {
    match course.next_item(input, frame)? {
        Item::Frame => Ok(Given::Frame(frame.len())),
        Item::Told { fault, offset } => Ok(Given::Told(fault, offset)),
        Item::End => Ok(Given::End),
    }
}

/// The first three items of a file.
fn three_items(alloc: Global, file: &[u8]) -> Result<[Given; 3], FileFault> {
    let mut input = FromRead::new(file);
    let reader = AviReader::open_all(alloc, &mut input)?;
    let mut course = reader.course();
    let mut frame = Vec::new(alloc);
    let first = give(&mut course, &mut input, &mut frame)?;
    let second = give(&mut course, &mut input, &mut frame)?;
    let third = give(&mut course, &mut input, &mut frame)?;
    Ok([first, second, third])
}

/// A file of two RIFFs, of a frame each, in which a byte is another one.
fn changed(at: usize, byte: u8) -> [u8; 336] {
    let mut file = two_riffs();
    if at < file.len() {
        file[at] = byte;
    }
    file
}

/// These are the first three items of a file with another byte there.
fn are_given(rt: &impl Abort, alloc: Global, at: usize, byte: u8, items: [Given; 3]) {
    assert!(rt; three_items(alloc, &changed(at, byte)) == Ok(items), "{at}");
}

const FRAME: Given = Given::Frame(5);

#[test]
fn no_damage(rt: HostRuntime) {
    are_given(&rt, rt.alloc(), 0, b'R', [FRAME, FRAME, Given::End]);
}

/// Names of a frame, and of the second RIFF.
#[test]
fn names(rt: HostRuntime) {
    let alloc = rt.alloc();
    let first = Given::Told(FileFault::NotAvi, 284);
    are_given(&rt, alloc, 286, b'x', [first, FRAME, Given::End]);
    let second = Given::Told(FileFault::NotAvi, 322);
    are_given(&rt, alloc, 325, b'd', [FRAME, second, Given::End]);
    are_given(&rt, alloc, 301, b'X', [FRAME, Given::End, Given::End]);
    let other = Given::Told(FileFault::Another, 298);
    are_given(&rt, alloc, 309, b' ', [FRAME, other, Given::End]);
}

/// Sizes of a frame, of `movi` and of the second RIFF.
#[test]
fn sizes(rt: HostRuntime) {
    let alloc = rt.alloc();
    let first = Given::Told(FileFault::Truncated, 284);
    are_given(&rt, alloc, 288, 6 + 8, [first, FRAME, Given::End]);
    are_given(&rt, alloc, 276, 11, [first, FRAME, FRAME]);
    let second = Given::Told(FileFault::NotAvi, 298);
    are_given(&rt, alloc, 302, 3, [FRAME, second, FRAME]);
}

/// The input ends in the second frame, and in its name.
#[test]
fn cut(rt: HostRuntime) {
    let alloc = rt.alloc();
    let told = Given::Told(FileFault::Truncated, 322);
    for length in [323, 335] {
        let found = three_items(alloc, &two_riffs()[..length]);
        assert!(rt; found == Ok([FRAME, told, Given::End]), "{length}");
    }
}
