//! Pictures of YUV4MPEG2, read and written.

use ffv1_wire::{FromRead, ToWrite};
use ffv1_y4m::{Fault, Y4mReader, Y4mWriter};
use std::alloc::Global;
use std::io::Read;
use std::test::Fail;

/// The canonical text of a text of one picture or more.
fn written_back(alloc: Global, text: &[u8]) -> Result<Vec<u8>, Fault> {
    let mut input = FromRead::new(text);
    let mut reader = Y4mReader::open(alloc, None, &mut input)?;
    let mut writer = Y4mWriter::new(*reader.head());
    let mut planes = Vec::new(alloc);
    let mut output = ToWrite::new(Vec::new(alloc));
    for _ in 0..text.len() {
        if !pass_picture(
            &mut reader,
            &mut input,
            &mut planes,
            &mut writer,
            &mut output,
        )? {
            break;
        }
    }
    Ok(output.into_inner())
}

/// Reads the next picture and writes it. Whether there was one.
fn pass_picture(
    reader: &mut Y4mReader,
    input: &mut FromRead<&[u8]>,
    planes: &mut Vec<Vec<u8>>,
    writer: &mut Y4mWriter,
    output: &mut ToWrite<Vec<u8>>,
) -> Result<bool, Fault> {
    if !reader.next(input, planes)? {
        return Ok(false);
    }
    writer.picture(output, planes)?;
    Ok(true)
}

/// Whether a text is written as another.
fn becomes(alloc: Global, text: &[u8], canonical: &[u8]) -> bool {
    match written_back(alloc, text) {
        Ok(out) => out.as_slice() == canonical,
        Err(_) => false,
    }
}

/// Texts, and the canonical ones with their lengths; the first is that of the crate's example.
static CANONICAL: [(&[u8], &[u8], usize); 7] = [
    (
        b"YUV4MPEG2 W1 H1 Cmono\nFRAME\na",
        b"YUV4MPEG2 W1 H1 F0:0 I? A0:0 Cmono\nFRAME\na",
        42,
    ),
    (
        b"YUV4MPEG2 W2 H2 F25:1 C420mpeg2 Xa\nFRAME\nabcdef",
        b"YUV4MPEG2 W2 H2 F25:1 I? A0:0 C420jpeg\nFRAME\nabcdef",
        51,
    ),
    (
        b"YUV4MPEG2 W1 H1 C444alpha\nFRAME\n\x00\x00\x00\x00",
        b"YUV4MPEG2 W1 H1 F0:0 I? A0:0 C444alpha\nFRAME\n\x00\x00\x00\x00",
        49,
    ),
    (
        b"YUV4MPEG2 W3 H1 Ip C422\nFRAME\nabcdefgFRAME\nhijklmn",
        b"YUV4MPEG2 W3 H1 F0:0 Ip A0:0 C422\nFRAME\nabcdefgFRAME\nhijklmn",
        60,
    ),
    (
        b"YUV4MPEG2 C411 H3 W5 It A4:3\nFRAME\nabcdefghijklmnopqrstuvwxyz0",
        b"YUV4MPEG2 W5 H3 F0:0 It A4:3 C411\nFRAME\nabcdefghijklmnopqrstuvwxyz0",
        67,
    ),
    (
        b"YUV4MPEG2 W1 H1 Cmono Ib\nFRAME\n\xFF",
        b"YUV4MPEG2 W1 H1 F0:0 Ib A0:0 Cmono\nFRAME\n\xFF",
        42,
    ),
    (
        b"YUV4MPEG2 W3 H5\nFRAME\nabcdefghijklmno012345678901",
        b"YUV4MPEG2 W3 H5 F0:0 I? A0:0 C420jpeg\nFRAME\nabcdefghijklmno012345678901",
        71,
    ),
];

#[test]
fn canonical_texts(rt: HostRuntime) -> Result<(), Fail> {
    for &(text, canonical, len) in &CANONICAL {
        let same = becomes(rt.alloc(), text, canonical);
        assert!(rt; (same, canonical.len()) == (true, len));
    }
    Ok(())
}

/// The fault of the last call on a text, and whether the call after it answers so too.
fn last_fault(alloc: Global, text: &[u8]) -> Result<Option<Fault>, Fault> {
    let mut input = FromRead::new(text);
    let mut reader = Y4mReader::open(alloc, None, &mut input)?;
    let mut planes = Vec::new(alloc);
    for _ in 0..text.len() {
        match reader.next(&mut input, &mut planes) {
            Ok(true) => (),
            Ok(false) => return Ok(None),
            Err(fault) => {
                return match reader.next(&mut input, &mut planes) {
                    Err(again) if again == fault => Ok(Some(fault)),
                    _ => Ok(None),
                };
            }
        }
    }
    Ok(None)
}

#[test]
fn ends_of_texts(rt: HostRuntime) -> Result<(), Fail> {
    let text = b"YUV4MPEG2 W2 H1 C444\nFRAME\nabcdefFRAME\nghijkl";
    for end in 0..46usize {
        let answer = last_fault(rt.alloc(), &text[..end]);
        let expected = match end {
            0..=20 => Err(Fault::Header),
            21 | 33 | 45 => Ok(None),
            _ => Ok(Some(Fault::FrameTruncated)),
        };
        assert!(rt; answer == expected);
    }
    Ok(())
}

/// Texts and their last faults.
static FRAME_LINES: [(&[u8], Option<Fault>); 5] = [
    (
        b"YUV4MPEG2 W1 H1 Cmono\nFRAME Ip\na",
        Some(Fault::FrameLine),
    ),
    (b"YUV4MPEG2 W1 H1 Cmono\nFRAMEa", Some(Fault::FrameLine)),
    (b"YUV4MPEG2 W1 H1 Cmono\nG", Some(Fault::FrameLine)),
    (
        b"YUV4MPEG2 W1 H1 Cmono\nFRAME\naFRAMX",
        Some(Fault::FrameLine),
    ),
    (b"YUV4MPEG2 W1 H1 Cmono\nFRAME\na", None),
];

#[test]
fn frame_lines(rt: HostRuntime) -> Result<(), Fail> {
    for &(text, fault) in &FRAME_LINES {
        assert!(rt; last_fault(rt.alloc(), text) == Ok(fault));
    }
    Ok(())
}

/// The fault of opening a text or of its next picture, and how many bytes of the text are left
/// after it.
fn fault_and_left(alloc: Global, text: &[u8]) -> (Option<Fault>, usize) {
    let mut input = FromRead::new(text);
    let fault = first_fault(alloc, &mut input);
    (fault, input.into_inner().len())
}

/// The fault of opening an input, or else of its next picture.
pub(super) fn first_fault<R: Read>(alloc: Global, input: &mut FromRead<R>) -> Option<Fault> {
    match Y4mReader::open(alloc, None, input) {
        Err(fault) => Some(fault),
        Ok(mut reader) => reader.next(input, &mut Vec::new(alloc)).err(),
    }
}

/// Texts, their first faults, and how many bytes are left after them.
static FAULTS: [(&[u8], Option<Fault>, usize); 9] = [
    (b"YUV4MPEG1 W1 H1\nrest", Some(Fault::Header), 4),
    (b"YUV4MPEG2 W1 H1", Some(Fault::Header), 0),
    (b"YUV4MPEG2 W1 H1 q\nrest", Some(Fault::Tag), 4),
    (b"YUV4MPEG2 W1 H1 Im\nrest", Some(Fault::Unsupported), 4),
    (
        b"YUV4MPEG2 W1 H1 Cmono\nFRaME\na",
        Some(Fault::FrameLine),
        4,
    ),
    (
        b"YUV4MPEG2 W1 H1 Cmono\nFRAME Ip\na",
        Some(Fault::FrameLine),
        4,
    ),
    (
        b"YUV4MPEG2 W1 H1 Cmono\nFRA",
        Some(Fault::FrameTruncated),
        0,
    ),
    (
        b"YUV4MPEG2 W2 H1 Cmono\nFRAME\na",
        Some(Fault::FrameTruncated),
        0,
    ),
    (b"YUV4MPEG2 W1 H1 Cmono\nFRAME\narest", None, 4),
];

#[test]
fn left_behind_faults(rt: HostRuntime) -> Result<(), Fail> {
    for &(text, fault, left) in &FAULTS {
        assert!(rt; fault_and_left(rt.alloc(), text) == (fault, left));
    }
    Ok(())
}
