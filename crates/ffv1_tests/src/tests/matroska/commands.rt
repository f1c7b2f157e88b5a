//! Matroska files by the calls that read a file of either container.

use super::written_example::EXAMPLE;
use ffv1_engine::{Fault, Notes, Profile, check};
use ffv1_files::{Container, FileReader, Scope};
use ffv1_reads::FileFault;
use ffv1_wire::{FromRead, ToWrite};
use std::alloc::Global;
use std::process::Abort;
use std::test::Fail;

const FRAME: &[u8] = b"\xFE\x7B\x00\x00\x02";

static TOLD: &[u8] = b"frame 0: 5 bytes, 1 slices, 11 decisions\nframes 1\n";

#[test]
fn container_of_a_file(rt: HostRuntime) -> Result<(), Fail> {
    let mut input = FromRead::new(EXAMPLE.as_slice());
    let mut reader = FileReader::open(rt.alloc(), Scope::Whole, &mut input)?;
    let mut frame = Vec::new(rt.alloc());
    assert!(rt; reader.container() == Container::Matroska(Some(347)));
    assert!(rt; reader.head().width == 1);
    assert!(rt; reader.next_frame(&mut input, &mut frame) == Ok(true));
    assert!(rt; frame.as_slice() == FRAME);
    assert!(rt; reader.next_frame(&mut input, &mut frame) == Ok(false));
    Ok(())
}

#[test]
fn matroska_is_no_avi(rt: HostRuntime) -> Result<(), Fail> {
    let mut input = FromRead::new(EXAMPLE.as_slice());
    match FileReader::open(rt.alloc(), Scope::FirstMovi, &mut input) {
        Ok(_) => assert!(rt; false),
        Err(fault) => assert!(rt; fault == FileFault::NotAvi),
    }
    Ok(())
}

#[test]
fn frames_of_matroska_are_checked(rt: HostRuntime) -> Result<(), Fail> {
    let mut output = ToWrite::new(Vec::new(rt.alloc()));
    let mut input = FromRead::new(EXAMPLE.as_slice());
    let answer = check(rt.alloc(), Profile::Wide, &mut input, &mut output, false);
    assert!(rt; answer == Ok(Notes::NONE));
    assert!(rt; output.into_inner().as_slice() == TOLD);
    Ok(())
}

/// How many bytes of the example are left, and what a check of them writes that asks for places.
static CUT: [(usize, &[u8]); 5] = [
    (40, b"fault frame 0 byte 40\n"),
    (100, b"fault frame 0 byte 52\n"),
    (300, b"fault frame 0 byte 200\n"),
    (350, b"fault frame 0 byte 336\n"),
    (
        360,
        b"frame 0: 5 bytes, 1 slices, 11 decisions\nfault frame 1 byte 354\n",
    ),
];

/// A check of a part of a file finds it cut short, and writes this.
fn is_cut(rt: &impl Abort, alloc: Global, part: &[u8], text: &[u8]) {
    let mut output = ToWrite::new(Vec::new(alloc));
    let mut input = FromRead::new(part);
    let answer = check(alloc, Profile::Wide, &mut input, &mut output, true);
    assert!(rt; answer == Err(Fault::File(FileFault::Truncated)));
    assert!(rt; output.into_inner().as_slice() == text);
}

#[test]
fn the_byte_where_a_file_is_cut(rt: HostRuntime) {
    for &(left, text) in &CUT {
        match EXAMPLE.get(..left) {
            Some(part) => is_cut(&rt, rt.alloc(), part, text),
            None => assert!(rt; false),
        }
    }
}
