//! Memory that is refused to the reader of AVI, at each request, and how much it asks for.

ghost use Rattle.std.specs.Prelude.{◌≡◌, IfOk};

use super::files::{file_of, twice};
use ffv1_avi::AviReader;
use ffv1_doubles::Scarce;
use ffv1_reads::{Colour, FileFault, FileHead};
use ffv1_wire::FromRead;
use std::alloc::{Allocator, Global};
use std::process::Abort;
use std::test::Fail;

/// The head of a file.
fn head_of(alloc: Global) -> Result<FileHead, FileFault>
    ensures width { IfOk result (λ h. h.width ≡ 2) }
    ensures height { IfOk result (λ h. h.height ≡ 2) }
{
    let mut record = Vec::new(alloc);
    record.resize(60, 1)?;
    Ok(FileHead {
        width: 2,
        height: 2,
        rate: 25,
        scale: 1,
        colour: Colour::UNSAID,
        config_record: record,
    })
}

/// One frame of so many bytes.
fn frames_of(alloc: Global, len: usize) -> Result<Vec<Vec<u8>>, FileFault> {
    let mut frame = Vec::new(alloc);
    frame.resize(len, 7)?;
    let mut frames = Vec::new(alloc);
    if frames.push(frame).is_err() {
        return Err(FileFault::OutOfMemory);
    }
    Ok(frames)
}

/// A file of one frame of so many bytes.
fn file_of_one(alloc: Global, len: usize) -> Result<Vec<u8>, FileFault> {
    let head = head_of(alloc)?;
    let frames = frames_of(alloc, len)?;
    file_of(alloc, &head, frames.as_slice())
}

/// What the first frame is read as, how many bytes the vector then holds, and what is read next.
fn read_two<A: Allocator + Copy>(
    alloc: A,
    file: &[u8],
) -> Result<(Result<bool, FileFault>, usize, Result<bool, FileFault>), FileFault> {
    let (first, second, len, _left) = twice(alloc, file)?;
    Ok((first, len, second))
}

/// The same if the request after `before` others is refused.
fn read_scarcely(
    alloc: Global,
    file: &[u8],
    before: u64,
) -> Result<(Result<bool, FileFault>, usize, Result<bool, FileFault>), FileFault> {
    let heap = Scarce::new(alloc, before);
    read_two(&heap, file)
}

/// Each request is refused in its turn.
fn refused_in_turn(rt: &impl Abort, alloc: Global, file: &[u8]) {
    let refused = Err(FileFault::OutOfMemory);
    assert!(rt; read_scarcely(alloc, file, 0) == Err(FileFault::OutOfMemory));
    assert!(rt; read_scarcely(alloc, file, 1) == Ok((refused, 0, refused)));
    assert!(rt; read_scarcely(alloc, file, 2) == Ok((refused, 65_536, refused)));
    assert!(rt; read_scarcely(alloc, file, 3) == Ok((refused, 196_608, refused)));
    for before in 4..7u64 {
        assert!(rt; read_scarcely(alloc, file, before) == Ok((Ok(true), 200_000, Ok(false))));
    }
}

#[test]
fn each_request_of_the_reader(rt: HostRuntime) -> Result<(), Fail> {
    let file = file_of_one(rt.alloc(), 200_000)?;
    refused_in_turn(&rt, rt.alloc(), file.as_slice());
    Ok(())
}

/// What the first frame is read as, and how many bytes the vector has, and room for.
fn read_short<A: Allocator + Copy>(
    alloc: A,
    file: &[u8],
) -> Result<(Result<bool, FileFault>, usize, usize), FileFault> {
    let mut input = FromRead::new(file);
    let mut reader = AviReader::open(alloc, &mut input)?;
    let mut frame = Vec::new(alloc);
    let answer = reader.next_frame(&mut input, &mut frame);
    Ok((answer, frame.len(), frame.capacity()))
}

/// Room is made for a frame that ends after so many bytes.
fn makes_room(rt: &impl Abort, alloc: Global, file: &[u8], read: usize) {
    let head = file.len().saturating_sub(400_000);
    let end = head.saturating_add(read).min(file.len());
    match read_short(alloc, &file[..end]) {
        Ok((answer, len, room)) => {
            assert!(rt; (answer, len) == (Err(FileFault::Truncated), read));
            assert!(rt; room <= read.saturating_add(read).saturating_add(65_536));
        }
        Err(_) => assert!(rt; false),
    }
}

/// A frame that says that it has 400000 bytes, and ends before: room is made for at most as many as
/// were read and 65536 more.
#[test]
fn room_for_a_frame(rt: HostRuntime) -> Result<(), Fail> {
    let file = file_of_one(rt.alloc(), 400_000)?;
    makes_room(&rt, rt.alloc(), file.as_slice(), 0);
    makes_room(&rt, rt.alloc(), file.as_slice(), 1);
    makes_room(&rt, rt.alloc(), file.as_slice(), 65_535);
    makes_room(&rt, rt.alloc(), file.as_slice(), 65_536);
    makes_room(&rt, rt.alloc(), file.as_slice(), 65_537);
    makes_room(&rt, rt.alloc(), file.as_slice(), 196_607);
    makes_room(&rt, rt.alloc(), file.as_slice(), 196_608);
    makes_room(&rt, rt.alloc(), file.as_slice(), 399_999);
    Ok(())
}
