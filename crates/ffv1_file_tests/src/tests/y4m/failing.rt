//! Reads that fail after bytes that were read.

use super::pictures::first_fault;
use ffv1_doubles::BrokenReader;
use ffv1_wire::FromRead;
use ffv1_y4m::{Fault, PpmReader};
use std::alloc::Global;
use std::test::Fail;

/// Texts of pictures after which reads fail, and their faults.
static PICTURES: [(&[u8], Option<Fault>); 8] = [
    (b"", Some(Fault::Read)),
    (b"YUV4MPEG2 W1", Some(Fault::Read)),
    (b"YUV4MPEG2 W1\n", Some(Fault::Tag)),
    (b"YUV4MPEG2 W2 H1 Cmono\n", Some(Fault::Read)),
    (b"YUV4MPEG2 W2 H1 Cmono\nFRA", Some(Fault::Read)),
    (b"YUV4MPEG2 W2 H1 Cmono\nFRa", Some(Fault::FrameLine)),
    (b"YUV4MPEG2 W2 H1 Cmono\nFRAME\na", Some(Fault::Read)),
    (b"YUV4MPEG2 W2 H1 Cmono\nFRAME\nab", None),
];

#[test]
fn failed_reads_of_pictures(rt: HostRuntime) -> Result<(), Fail> {
    for &(text, fault) in &PICTURES {
        let mut input = FromRead::new(BrokenReader::new(text));
        assert!(rt; first_fault(rt.alloc(), &mut input) == fault);
    }
    Ok(())
}

/// The fault of opening what was read of a text of PPM, or else of its next image.
fn image_fault(alloc: Global, text: &[u8]) -> Option<Fault> {
    let mut input = FromRead::new(BrokenReader::new(text));
    match PpmReader::open(alloc, None, &mut input) {
        Err(fault) => Some(fault),
        Ok(mut reader) => reader.next(&mut input, &mut Vec::new(alloc)).err(),
    }
}

/// Texts of images after which reads fail, and their faults.
static IMAGES: [(&[u8], Option<Fault>); 5] = [
    (b"P6", Some(Fault::Read)),
    (b"P6 1", Some(Fault::Header)),
    (b"P6\n1 1\n255", Some(Fault::Read)),
    (b"P6\n1 1\n255\nab", Some(Fault::Read)),
    (b"P6\n1 1\n255\nabc", None),
];

#[test]
fn failed_reads_of_images(rt: HostRuntime) -> Result<(), Fail> {
    for &(text, fault) in &IMAGES {
        assert!(rt; image_fault(rt.alloc(), text) == fault);
    }
    Ok(())
}
