//! Reads that fail, and writers with little room.

ghost use Rattle.std.specs.Prelude.{◌<◌, ◌≤◌};

use super::example::EXAMPLE;
use super::files::{example_frames, example_head};
use super::large::file_of_one;
use ffv1_avi::{AviReader, write_avi};
use ffv1_doubles::{FailingReader, ShortWriter};
use ffv1_reads::{FileFault, FileHead};
use ffv1_wire::{FromRead, ToWrite};
use std::alloc::Global;
use std::io::ErrorKind;
use std::process::Abort;
use std::test::Fail;

/// Reads the file's one frame, and whatever comes next twice.
fn read_all(
    alloc: Global,
    before: usize,
) -> Result<
    (
        Result<bool, FileFault>,
        Result<bool, FileFault>,
        Result<bool, FileFault>,
    ),
    FileFault,
> {
    let mut input = FromRead::new(FailingReader::new(&EXAMPLE, before, 40, ErrorKind::Other));
    let mut reader = AviReader::open(alloc, &mut input)?;
    let mut frame = Vec::new(alloc);
    let first = reader.next_frame(&mut input, &mut frame);
    let second = reader.next_frame(&mut input, &mut frame);
    let third = reader.next_frame(&mut input, &mut frame);
    Ok((first, second, third))
}

#[test]
fn failing_reads(rt: HostRuntime) {
    let failed = Err(FileFault::Read);
    let mut opens = 0u32;
    let mut frames = 0u32;
    for before in 0..40usize {
        let answers = read_all(rt.alloc(), before);
        if answers == Err(FileFault::Read) {
            opens = opens.saturating_add(1);
        } else if answers == Ok((failed, failed, failed)) {
            frames = frames.saturating_add(1);
        } else {
            assert!(rt; answers == Ok((Ok(true), Ok(false), Ok(false))));
        }
    }
    assert!(rt; frames == 3);
    assert!(rt; 8 < opens && opens < 36);
}

/// Reads the first frame, which fails, and whatever comes next: both answers, and how many bytes
/// the vector then has, and whether the second call read nothing.
fn failing_frame(
    alloc: Global,
    file: &[u8],
    before: usize,
) -> Result<
    (
        Result<bool, FileFault>,
        usize,
        Result<bool, FileFault>,
        usize,
        u64,
    ),
    FileFault,
> {
    let mut input = FromRead::new(FailingReader::new(file, before, 40, ErrorKind::Other));
    let mut reader = AviReader::open(alloc, &mut input)?;
    let mut frame = Vec::new(alloc);
    let first = reader.next_frame(&mut input, &mut frame);
    let held = frame.len();
    let second = reader.next_frame(&mut input, &mut frame);
    Ok((first, held, second, frame.len(), input.failures()))
}

#[test]
fn failing_in_a_frame(rt: HostRuntime) -> Result<(), Fail> {
    // 70000 bytes, of which 65536 are read and held before the read that fails
    let file = file_of_one(rt.alloc(), 69_999)?;
    let failed = Err(FileFault::Read);
    let read = failing_frame(rt.alloc(), file.as_slice(), 1700);
    assert!(rt; read == Ok((failed, 65_536, failed, 0, 1)));
    Ok(())
}

/// Writes the example with room for so many bytes: the answer, whether it is without failures, and
/// whether as many bytes of the example are written as there is room for.
fn write_short(
    alloc: Global,
    head: &FileHead,
    frames: &[Vec<u8>],
    room: usize,
) -> (Result<(), FileFault>, bool, bool)
    requires width { head.now.width ≤ 8192 }
    requires height { head.now.height ≤ 8192 }
    requires room { room < 299 }
{
    let mut out = ToWrite::new(ShortWriter::new(alloc, room, 298, None));
    let answer = write_avi(&mut out, head, frames);
    let whole = out.failures() == 0;
    let filled = out.into_inner().held() == &EXAMPLE[..room];
    (answer, whole, filled)
}

/// The example is written if there is room for it, and fails with less.
fn writes_where_room(rt: &impl Abort, alloc: Global, head: &FileHead, frames: &[Vec<u8>])
    requires width { head.now.width ≤ 8192 }
    requires height { head.now.height ≤ 8192 }
{
    let failed = (Err(FileFault::Write), false, true);
    for room in 0..298usize {
        assert!(rt; write_short(alloc, head, frames, room) == failed);
    }
    assert!(rt; write_short(alloc, head, frames, 298) == (Ok(()), true, true));
}

#[test]
fn short_writes(rt: HostRuntime) -> Result<(), Fail> {
    let head = example_head(&rt)?;
    let frames = example_frames(&rt)?;
    writes_where_room(&rt, rt.alloc(), &head, frames.as_slice());
    Ok(())
}
