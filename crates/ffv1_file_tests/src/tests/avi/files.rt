//! A file of one frame, and what others of it say.

ghost use Rattle.std.specs.Prelude.{◌≡◌, ◌+◌, ◌<◌, ◌≤◌, IfOk, length};

use super::example::EXAMPLE;
use ffv1_avi::{AviReader, write_avi};
use ffv1_reads::{Colour, FileFault, FileHead};
use ffv1_wire::{FromRead, ToWrite};
use std::alloc::{Allocator, Global};
use std::process::Abort;
use std::test::Fail;

/// Puts four bytes in place of others.
fn put(file: &mut [u8], at: usize, bytes: [u8; 4])
    requires { at + 4 ≤ length file.old }
{
    file[at..at + 4].copy_from_slice(&bytes);
}

/// The head of the example.
pub(super) fn example_head(rt: &HostRuntime) -> Result<FileHead, Fail>
    ensures width { IfOk result (λ h. h.width ≡ 352) }
    ensures height { IfOk result (λ h. h.height ≡ 288) }
{
    let mut record = Vec::new(rt.alloc());
    for byte in 1..61u8 {
        record.push(byte)?;
    }
    Ok(FileHead {
        width: 352,
        height: 288,
        rate: 25,
        scale: 1,
        colour: Colour::UNSAID,
        config_record: record,
    })
}

/// Its one frame.
pub(super) fn example_frames(rt: &HostRuntime) -> Result<Vec<Vec<u8>>, Fail> {
    let mut frames = Vec::new(rt.alloc());
    frames.push(b"\xFE\x7B\x00\x00\x02".to_vec(rt.alloc())?)?;
    Ok(frames)
}

/// The file of a head and of frames.
pub(super) fn file_of(
    alloc: Global,
    head: &FileHead,
    frames: &[Vec<u8>],
) -> Result<Vec<u8>, FileFault>
    requires width { head.now.width ≤ 8192 }
    requires height { head.now.height ≤ 8192 }
{
    let mut out = ToWrite::new(Vec::new(alloc));
    write_avi(&mut out, head, frames)?;
    Ok(out.into_inner())
}

#[test]
fn written(rt: HostRuntime) -> Result<(), Fail> {
    let head = example_head(&rt)?;
    let frames = example_frames(&rt)?;
    let file = file_of(rt.alloc(), &head, frames.as_slice())?;
    assert!(rt; file.as_slice() == EXAMPLE.as_slice());
    Ok(())
}

/// Colours are not written.
#[test]
fn colours_are_not_written(rt: HostRuntime) -> Result<(), Fail> {
    let mut head = example_head(&rt)?;
    head.colour.matrix = 1;
    head.colour.range = 2;
    let frames = example_frames(&rt)?;
    let file = file_of(rt.alloc(), &head, frames.as_slice())?;
    assert!(rt; file.as_slice() == EXAMPLE.as_slice());
    Ok(())
}

/// No colours are read.
#[test]
fn no_colours_are_read(rt: HostRuntime) -> Result<(), Fail> {
    let mut input = FromRead::new(EXAMPLE.as_slice());
    let reader = AviReader::open(rt.alloc(), &mut input)?;
    assert!(rt; reader.head().colour == Colour::UNSAID);
    Ok(())
}

/// The head has these numbers (width, height, rate and scale) and this record.
fn has_numbers(rt: &impl Abort, head: &FileHead, numbers: (u32, u32, u32, u32), record: &[u8]) {
    let same = head.config_record.as_slice() == record;
    let found = (head.width, head.height, head.rate, head.scale);
    assert!(rt; (found, same) == (numbers, true));
}

/// The next frame has these bytes.
fn reads_frame(
    rt: &impl Abort,
    reader: &mut AviReader,
    input: &mut FromRead<&[u8]>,
    frame: &mut Vec<u8>,
    bytes: &[u8],
) {
    let answer = reader.next_frame(input, frame);
    let same = frame.as_slice() == bytes;
    assert!(rt; (answer, same) == (Ok(true), true));
}

/// There is no frame any more, and the vector is empty.
fn reads_end(
    rt: &impl Abort,
    reader: &mut AviReader,
    input: &mut FromRead<&[u8]>,
    frame: &mut Vec<u8>,
) {
    let answer = reader.next_frame(input, frame);
    assert!(rt; (answer, frame.len()) == (Ok(false), 0));
}

#[test]
fn read_back(rt: HostRuntime) -> Result<(), Fail> {
    let mut input = FromRead::new(EXAMPLE.as_slice());
    let mut reader = AviReader::open(rt.alloc(), &mut input)?;
    has_numbers(&rt, reader.head(), (352, 288, 25, 1), &EXAMPLE[212..272]);
    let mut frame = Vec::new(rt.alloc());
    let bytes = b"\xFE\x7B\x00\x00\x02";
    reads_frame(&rt, &mut reader, &mut input, &mut frame, bytes);
    reads_end(&rt, &mut reader, &mut input, &mut frame);
    reads_end(&rt, &mut reader, &mut input, &mut frame);
    Ok(())
}

/// The example with lists of 2147483647 and 2147483000 bytes, and a frame of so many.
fn long(size: u32) -> [u8; 298] {
    let mut file = EXAMPLE;
    put(&mut file, 4, 2147483647u32.to_le_bytes());
    put(&mut file, 276, 2147483000u32.to_le_bytes());
    put(&mut file, 288, size.to_le_bytes());
    file
}

/// What the first frame is read as, and again, how long the vector then is, and how many bytes are
/// left.
pub(super) fn twice<A: Allocator + Copy>(
    alloc: A,
    file: &[u8],
) -> Result<
    (
        Result<bool, FileFault>,
        Result<bool, FileFault>,
        usize,
        usize,
    ),
    FileFault,
> {
    let mut input = FromRead::new(file);
    let mut reader = AviReader::open(alloc, &mut input)?;
    let mut frame = Vec::new(alloc);
    let first = reader.next_frame(&mut input, &mut frame);
    let len = frame.len();
    let second = reader.next_frame(&mut input, &mut frame);
    Ok((first, second, len, input.into_inner().len()))
}

/// What the first frame is read as where every RIFF is, how long the vector then is, and how many
/// bytes are left.
fn first_of_all<A: Allocator + Copy>(
    alloc: A,
    file: &[u8],
) -> Result<(Result<bool, FileFault>, usize, usize), FileFault> {
    let mut input = FromRead::new(file);
    let mut reader = AviReader::open_all(alloc, &mut input)?;
    let mut frame = Vec::new(alloc);
    let first = reader.next_frame(&mut input, &mut frame);
    Ok((first, frame.len(), input.into_inner().len()))
}

#[test]
fn long_frames_of_all(rt: HostRuntime) {
    let (long_one, short) = (Err(FileFault::ChunkTooLong), Err(FileFault::Truncated));
    assert!(rt; first_of_all(rt.alloc(), &long(1073741825)) == Ok((long_one, 0, 6)));
    assert!(rt; first_of_all(rt.alloc(), &long(1073741824)) == Ok((short, 6, 0)));
    assert!(rt; first_of_all(rt.alloc(), &long(67108865)) == Ok((short, 6, 0)));
    assert!(rt; first_of_all(rt.alloc(), &long(0)) == Ok((Ok(true), 0, 6)));
}

#[test]
fn long_frames(rt: HostRuntime) {
    let long_one = Err(FileFault::ChunkTooLong);
    assert!(rt; twice(rt.alloc(), &long(67108865)) == Ok((long_one, long_one, 0, 6)));
    let short = Err(FileFault::Truncated);
    assert!(rt; twice(rt.alloc(), &long(67108864)) == Ok((short, short, 6, 0)));
    let empty = Err(FileFault::EmptyFrame);
    assert!(rt; twice(rt.alloc(), &long(0)) == Ok((empty, empty, 0, 6)));
}

/// The fault of the example with this name of its format.
fn named(alloc: Global, name: [u8; 4]) -> (Option<FileFault>, Option<FileFault>) {
    let mut file = EXAMPLE;
    put(&mut file, 188, name);
    let first = AviReader::open(alloc, &mut FromRead::new(&file[..])).err();
    let all = AviReader::open_all(alloc, &mut FromRead::new(&file[..])).err();
    (first, all)
}

/// Each letter may be small if every RIFF is read, and none if the first movi is read alone.
#[test]
fn small_letters(rt: HostRuntime) {
    let none = Some(FileFault::NoFfv1);
    assert!(rt; named(rt.alloc(), *b"FFV1") == (None, None));
    assert!(rt; named(rt.alloc(), *b"ffv1") == (none, None));
    assert!(rt; named(rt.alloc(), *b"fFv1") == (none, None));
    assert!(rt; named(rt.alloc(), *b"ffvh") == (none, none));
    assert!(rt; named(rt.alloc(), [0x66, 0x66, 0x76, 0x11]) == (none, none));
}
