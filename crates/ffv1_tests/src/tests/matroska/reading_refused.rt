//! Reads that fail, and memory that is refused.

use super::reading::frames_of;
use super::written_example::EXAMPLE;
use ffv1_doubles::{FailingReader, Scarce};
use ffv1_reads::FileFault;
use ffv1_wire::FromRead;
use std::alloc::Global;
use std::io::ErrorKind;

/// How many frames the smallest file gives if a read fails after so many, and the fault.
fn failing(alloc: Global, before: usize) -> (u32, Option<FileFault>) {
    let mut input = FromRead::new(FailingReader::new(&EXAMPLE, before, 40, ErrorKind::Other));
    frames_of(alloc, &mut input)
}

/// A read that fails is the fault, whenever it comes.
#[test]
fn failing_reads(rt: HostRuntime) {
    let mut frames = 0u32;
    let mut faults = 0u32;
    for before in 0..60usize {
        let (count, fault) = failing(rt.alloc(), before);
        if fault == Some(FileFault::Read) {
            faults = faults.saturating_add(1);
            frames = frames.saturating_add(count);
        } else {
            assert!(rt; (count, fault) == (1, None));
        }
    }
    assert!(rt; 20 < faults && faults < 60);
    assert!(rt; 1 <= frames && frames < 12);
}

/// The same if the request of memory after so many others is refused.
fn scarce(alloc: Global, before: u64) -> (u32, Option<FileFault>) {
    let heap = Scarce::new(alloc, before);
    let mut input = FromRead::new(EXAMPLE.as_slice());
    frames_of(&heap, &mut input)
}

/// Each request is refused in its turn: for the header of EBML, for Tracks, for the record, for the
/// last byte of Tracks, and for the frame.
#[test]
fn refused_memory(rt: HostRuntime) {
    for before in 0..5u64 {
        assert!(rt; scarce(rt.alloc(), before) == (0, Some(FileFault::OutOfMemory)));
    }
    for before in 5..8u64 {
        assert!(rt; scarce(rt.alloc(), before) == (1, None));
    }
}
