//! Elements of EBML: read, passed, found in memory and spelled, with bytes of a file from outside.

use ffv1_ebml::{
    Sum, fill_summed, find, first_child, first_element, judge, long_header, next_data,
    next_element, number, pass_content, pass_summed, short_header, spelled_number, take_summed,
    text, unknown_header,
};
use ffv1_reads::FileFault;
use ffv1_wire::FromRead;
use std::alloc::Global;
use std::test::Fail;

/// The EBML header of a file of one frame.
static HEADER: [u8; 40] = [
    0x1A, 0x45, 0xDF, 0xA3, 0xA3, 0x42, 0x86, 0x81, 0x01, 0x42, 0xF7, 0x81, 0x01, 0x42, 0xF2, 0x81,
    0x04, 0x42, 0xF3, 0x81, 0x08, 0x42, 0x82, 0x88, b'm', b'a', b't', b'r', b'o', b's', b'k', b'a',
    0x42, 0x87, 0x81, 0x04, 0x42, 0x85, 0x81, 0x02,
];

/// The content of its Cluster: a CRC-32, and what that is the sum of.
static CLUSTER: [u8; 34] = [
    0xBF, 0x84, 0x38, 0xA3, 0x41, 0xF1, 0xE7, 0x88, 0, 0, 0, 0, 0, 0, 0, 0, 0xA3, 0x01, 0, 0, 0, 0,
    0, 0, 0x09, 0x81, 0, 0, 0x80, 0xFE, 0x7B, 0, 0, 0x02,
];

/// The ID, the size and what is left after the first element of some bytes.
fn header(bytes: &[u8], left: u64) -> Result<(u32, Option<u64>, u64), FileFault> {
    let mut input = FromRead::new(bytes);
    let mut sum = Sum::Absent;
    let element = next_element(&mut input, left, &mut sum)?;
    Ok((element.ident, element.size, element.left))
}

#[test]
fn headers(rt: HostRuntime) {
    let open = [0x18, 0x53, 0x80, 0x67, 1, 255, 255, 255, 255, 255, 255, 255];
    assert!(rt; header(&HEADER, 41) == Ok((0x1A45_DFA3, Some(35), 1)));
    assert!(rt; header(&open, 12) == Ok((0x1853_8067, None, 0)));
    assert!(rt; header(&HEADER, 39) == Err(FileFault::Truncated));
    assert!(rt; header(&HEADER[..4], 40) == Err(FileFault::Truncated));
    assert!(rt; header(&[0x08, 0x81, 0], 3) == Err(FileFault::BadElement));
    assert!(rt; header(&[0xEC, 0], 2) == Err(FileFault::BadElement));
}

/// The ID of the first element, or None at the end of the input.
fn first(bytes: &[u8]) -> Result<Option<u32>, FileFault> {
    let mut input = FromRead::new(bytes);
    match first_element(&mut input, 40)? {
        Some(element) => Ok(Some(element.ident)),
        None => Ok(None),
    }
}

#[test]
fn ends(rt: HostRuntime) {
    assert!(rt; first(&HEADER) == Ok(Some(0x1A45_DFA3)));
    assert!(rt; first(b"") == Ok(None));
    assert!(rt; first(&HEADER[..1]) == Err(FileFault::Truncated));
}

/// Passes some content.
fn passed(content: &[u8]) -> Result<(), FileFault> {
    let mut input = FromRead::new(content);
    pass_content(&mut input, content.len() as u64)
}

#[test]
fn sums(rt: HostRuntime) {
    let mut changed = CLUSTER;
    changed[20] = 4;
    assert!(rt; passed(&CLUSTER) == Ok(()));
    assert!(rt; passed(&changed) == Err(FileFault::Checksum));
    assert!(rt; passed(&HEADER[5..]) == Ok(()));
    assert!(rt; judge(&CLUSTER) == Ok(()));
    assert!(rt; judge(&changed) == Err(FileFault::Checksum));
    assert!(rt; judge(&HEADER[5..]) == Ok(()));
}

/// Whether the sum of a Cluster is met after each of its parts was read, and its track number.
fn in_parts(alloc: Global) -> Result<(bool, u64), FileFault> {
    let mut input = FromRead::new(&CLUSTER[6..]);
    let mut sum = Sum::Awaits {
        stated: 0xF141_A338,
        so_far: !0,
    };
    let stamp = next_element(&mut input, 28, &mut sum)?;
    pass_summed(&mut input, 8, &mut sum)?;
    let block = next_element(&mut input, stamp.left, &mut sum)?;
    let track = next_data(&mut input, block.size.unwrap_or(0), &mut sum)?;
    let mut flags = [0; 3];
    take_summed(&mut input, &mut flags, &mut sum)?;
    let mut frame = Vec::new(alloc);
    fill_summed(&mut input, 5, &mut frame, &mut sum)?;
    Ok((sum.is_met(), track.value))
}

#[test]
fn parts(rt: HostRuntime) {
    assert!(rt; in_parts(rt.alloc()) == Ok((true, 1)));
}

#[test]
fn fields(rt: HostRuntime) -> Result<(), Fail> {
    let content = &HEADER[5..];
    let kind = find(content, 0x4282)?.ok_or("no DocType")?;
    assert!(rt; text(kind) == b"matroska".as_slice());
    assert!(rt; text(b"V_FFV1\0A") == b"V_FFV1".as_slice());
    let version = find(content, 0x4285)?.ok_or("no version")?;
    assert!(rt; number(version, 1) == Ok(2));
    assert!(rt; number(b"", 1) == Ok(1));
    assert!(rt; number(&[0; 9], 1) == Err(FileFault::BadElement));
    let first = first_child(content)?.ok_or("no element")?;
    assert!(rt; (first.ident, first.content.len(), first.rest.len()) == (0x4286, 1, 31));
    Ok(())
}

/// A bad element after the one that is looked for is not seen; one before it is the fault.
#[test]
fn bad_elements(rt: HostRuntime) {
    let bytes = [0xD7, 0x81, 7, 0xEC, 0x85, 0];
    assert!(rt; found_number(&bytes, 0xD7) == Ok(7));
    assert!(rt; found_number(&bytes, 0xE7) == Err(FileFault::Truncated));
    assert!(rt; found_number(&bytes[..3], 0xE7) == Ok(0));
}

/// The number in the first element with this ID, or 0.
fn found_number(content: &[u8], ident: u32) -> Result<u64, FileFault> {
    match find(content, ident)? {
        Some(field) => number(field, 0),
        None => Ok(0),
    }
}

#[test]
fn spelled(rt: HostRuntime) {
    assert!(rt; short_header(0x1A45_DFA3, 35).as_slice() == &HEADER[..5]);
    assert!(rt; spelled_number(0x4286, 1, 1).as_slice() == &HEADER[5..9]);
    assert!(rt; spelled_number(0xE7, 8, 0).as_slice() == &CLUSTER[6..16]);
    assert!(rt; long_header(0xA3, 9).as_slice() == &CLUSTER[16..25]);
    assert!(rt;
        unknown_header(0x1853_8067).as_slice()
            == [0x18, 0x53, 0x80, 0x67, 1, 255, 255, 255, 255, 255, 255, 255].as_slice()
    );
}
