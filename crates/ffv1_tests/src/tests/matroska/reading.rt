//! A file that is read, frame by frame.

use super::written_example::{EXAMPLE, FRAME};
use ffv1_matroska::MatroskaReader;
use ffv1_reads::{FileFault, FileHead};
use ffv1_wire::{ByteIn, FromRead};
use std::alloc::Allocator;
use std::process::Abort;
use std::test::Fail;

/// How many frames are given, and then the fault that is met, or the end.
type Frames = (u32, Option<FileFault>);

/// Reads a file's frames, up to its end or its first fault, which come again.
pub(super) fn frames_of<R: ByteIn, A: Allocator + Copy>(alloc: A, input: &mut R) -> Frames {
    let mut reader = match MatroskaReader::open(alloc, input) {
        Ok(reader) => reader,
        Err(fault) => return (0, Some(fault)),
    };
    let mut frame = Vec::new(alloc);
    let mut count = 0u32;
    for _ in 0..9u32 {
        match reader.next_frame(input, &mut frame) {
            Ok(true) => count = count.saturating_add(u32::from(frame.as_slice() == FRAME)),
            Ok(false) => return (count, None),
            Err(fault) => {
                let again = reader.next_frame(input, &mut frame) == Err(fault);
                if again && frame.is_empty() {
                    return (count, Some(fault));
                }
                return (count, None);
            }
        }
    }
    (count, None)
}

/// The head has these numbers (width, height, rate and scale) and this record.
fn has_numbers(rt: &impl Abort, head: &FileHead, numbers: (u32, u32, u32, u32), record: &[u8]) {
    let same = head.config_record.as_slice() == record;
    let found = (head.width, head.height, head.rate, head.scale);
    assert!(rt; (found, same) == (numbers, true));
}

/// The smallest file that a writer makes.
#[test]
fn smallest(rt: HostRuntime) -> Result<(), Fail> {
    let mut input = FromRead::new(EXAMPLE.as_slice());
    let mut reader = MatroskaReader::open(rt.alloc(), &mut input)?;
    has_numbers(&rt, reader.head(), (1, 1, 0, 0), &EXAMPLE[282..308]);
    assert!(rt; reader.segment() == Some(347));
    let mut frame = Vec::new(rt.alloc());
    while reader.next_frame(&mut input, &mut frame)? {
        assert!(rt; frame.as_slice() == FRAME);
    }
    Ok(())
}
