//! Memory that is refused to what a trial stands on, and to its output, and what a trial leaves.

use ffv1_doubles::{FailingReader, Scarce};
use ffv1_engine::{Fault, code_plane, trial};
use ffv1_plane::QuantSet;
use ffv1_wire::{FromRead, ToWrite};
use std::alloc::Global;
use std::io::ErrorKind;

static TEXT: &[u8] = b"YUV4MPEG2 W2 H2 Cmono\nFRAME\n\x0A\x14\x1E\x28";

static MORE: &[u8] = b"YUV4MPEG2 W2 H2 Cmono\nFRAME\n\x0A\x14\x1E\x28behind";

static PRINTED: &[u8] = b"samples 4\ndecisions 38\ncode 71C6E52D49\nsame yes\n";

/// A trial into a writer for whose bytes memory is scarce.
fn written_scarcely(alloc: Global, before: u64) -> Result<(), Fault> {
    let heap = Scarce::new(alloc, before);
    let mut output = ToWrite::new(Vec::new(&heap));
    trial(alloc, &mut FromRead::new(TEXT), &mut output)
}

#[test]
fn memory_of_the_output(rt: HostRuntime) {
    assert!(rt; written_scarcely(rt.alloc(), 0) == Err(Fault::Write));
    assert!(rt; written_scarcely(rt.alloc(), 9) == Ok(()));
}

#[test]
fn each_request_of_a_plane(rt: HostRuntime) {
    let mut refused = 0u8;
    for before in 0..40u64 {
        let heap = Scarce::new(rt.alloc(), before);
        match code_plane(&heap, 2, 2, &[10, 20, 30, 40]) {
            Ok(coded) => assert!(rt; coded.code.as_slice() == b"\x71\xC6\xE5\x2D\x49".as_slice()),
            Err(fault) => {
                assert!(rt; fault == Fault::OutOfMemory);
                refused = refused.saturating_add(1);
            }
        }
    }
    assert!(rt; refused == 10);
}

#[test]
fn each_request_of_a_set(rt: HostRuntime) {
    let mut refused = 0u8;
    for before in 0..10u64 {
        let heap = Scarce::new(rt.alloc(), before);
        match QuantSet::large(&heap) {
            Ok(set) => assert!(rt; set.contexts() == 16638),
            Err(fault) => {
                assert!(rt; fault == ffv1_plane::Fault::OutOfMemory);
                refused = refused.saturating_add(1);
            }
        }
    }
    assert!(rt; refused == 5);
}

#[test]
fn nothing_behind_the_picture_is_read(rt: HostRuntime) {
    let failing = FailingReader::new(MORE, TEXT.len(), 1, ErrorKind::Other);
    let mut input = FromRead::new(failing);
    let mut output = ToWrite::new(Vec::new(rt.alloc()));
    assert!(rt; trial(rt.alloc(), &mut input, &mut output) == Ok(()));
    assert!(rt; input.into_inner().rest() == 6);
    assert!(rt; output.into_inner().as_slice() == PRINTED);
}
