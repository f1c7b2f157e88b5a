//! Voids before the Segment.

use super::written_example::EXAMPLE;
use ffv1_matroska::MatroskaReader;
use ffv1_reads::FileFault;
use ffv1_wire::FromRead;
use std::alloc::Global;

/// How many bytes come before the frame of the smallest file with these before its Segment; or
/// before the element at fault, and its fault.
fn opened(alloc: Global, between: [u8; 10]) -> (u64, Option<FileFault>) {
    let mut file = [0u8; 409];
    file[..40].copy_from_slice(&EXAMPLE[..40]);
    file[40..50].copy_from_slice(&between);
    file[50..].copy_from_slice(&EXAMPLE[40..]);
    let mut offset = 0;
    let mut input = FromRead::new(file.as_slice());
    match MatroskaReader::open_located(alloc, None, &mut input, &mut offset) {
        Ok(reader) => (reader.offset(), None),
        Err(fault) => (offset, Some(fault)),
    }
}

/// Any number of them is passed.
#[test]
fn voids_are_passed(rt: HostRuntime) {
    assert!(rt; opened(rt.alloc(), *b"\xEC\x8812345678") == (330, None));
    assert!(rt; opened(rt.alloc(), *b"\xEC\x40\x071234567") == (330, None));
    assert!(rt; opened(rt.alloc(), *b"\xEC\x80\xEC\x81\xFF\xEC\x83123") == (330, None));
    assert!(rt; opened(rt.alloc(), *b"\xEC\x80\xEC\x80\xEC\x80\xEC\x80\xEC\x80") == (330, None));
}

/// One of a size that is unknown, or has nine bytes, is refused.
#[test]
fn sizes_of_voids(rt: HostRuntime) {
    let bad = Some(FileFault::BadElement);
    assert!(rt; opened(rt.alloc(), *b"\xEC\xFF12345678") == (40, bad));
    assert!(rt; opened(rt.alloc(), *b"\xEC\x82AB\xEC\x7F\xFF123") == (44, bad));
    assert!(rt; opened(rt.alloc(), *b"\xEC\x80\xEC\0\x80\x80\x80\x80\x80\x80") == (42, bad));
    let short = Some(FileFault::Truncated);
    assert!(rt; opened(rt.alloc(), *b"\xEC\x80\xEC\x42\0\0\0\0\0\0") == (42, short));
}

/// Any other element is.
#[test]
fn other_elements(rt: HostRuntime) {
    let other = Some(FileFault::NotMatroska);
    assert!(rt; opened(rt.alloc(), *b"\xBF\x841234\xEC\x8212") == (40, other));
    assert!(rt; opened(rt.alloc(), *b"\xEC\x82AB\xBF\x841234") == (44, other));
    assert!(rt; opened(rt.alloc(), *b"\x40\xEC\x8712345\0\0") == (40, other));
    assert!(rt; opened(rt.alloc(), *b"\xEC\x8A12345678") == (52, other));
    assert!(rt; opened(rt.alloc(), *b"\0\0\0\0\0\0\0\0\0\0") == (40, other));
}
