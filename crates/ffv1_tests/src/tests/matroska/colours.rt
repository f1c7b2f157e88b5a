//! What Video says of colours, as it is read and written.

use super::written_example::{EXAMPLE, FRAME, RECORD};
use ffv1_files::{FileReader, Scope};
use ffv1_matroska::{CodecId, MatroskaReader, MatroskaWriter, TrackEntry};
use ffv1_reads::{Colour, FileFault, FileHead};
use ffv1_wire::{FromRead, ToMemory};
use std::alloc::Global;
use std::test::Fail;

/// A header of EBML, that of a Segment of unknown size, and the ID of Tracks.
static OPENING: &[u8] = b"\x1A\x45\xDF\xA3\x8B\x42\x82\x88matroska\x18\x53\x80\x67\xFF\x16\x54\
    \xAE\x6B";

/// TrackType and CodecID of a TrackEntry, and the ID of Video.
static ENTRY: &[u8] = b"\x83\x81\x01\x86\x86V_FFV1\xE0";

/// A file without frames whose Video has this content, of at most 100 bytes.
fn file_with(alloc: Global, video: &[u8]) -> Result<Vec<u8>, FileFault> {
    let Ok(len) = u8::try_from(video.len()) else {
        return Err(FileFault::TooLarge);
    };
    if len > 100 {
        return Err(FileFault::TooLarge);
    }
    let mut file = Vec::from_slice(alloc, OPENING)?;
    file.extend_from_slice(&[143 + len, 0xAE, 141 + len])?;
    file.extend_from_slice(ENTRY)?;
    file.extend_from_slice(&[128 + len])?;
    file.extend_from_slice(video)?;
    Ok(file)
}

/// The colours of a file whose Video has this content.
fn colour_of(alloc: Global, video: &[u8]) -> Result<Colour, FileFault> {
    let file = file_with(alloc, video)?;
    let mut input = FromRead::new(file.as_slice());
    let reader = MatroskaReader::open(alloc, &mut input)?;
    Ok(reader.head().colour)
}

/// Colours by matrix, transfer, primaries, range and siting, across and down.
const fn colour(numbers: [u8; 6]) -> Colour {
    Colour {
        matrix: numbers[0],
        transfer: numbers[1],
        primaries: numbers[2],
        range: numbers[3],
        siting_across: numbers[4],
        siting_down: numbers[5],
    }
}

/// Contents of Video, and the colours that they say.
static READ: [(&[u8], [u8; 6]); 14] = [
    // as FFmpeg 5.1 writes it for yuv420p, full range, chroma on the left
    (
        b"\xB0\x81\x40\xBA\x81\x30\x9A\x81\x02\x55\xB0\x8C\x55\xB9\x81\x02\x55\xB7\x81\x01\x55\
            \xB8\x81\x02",
        [2, 2, 2, 2, 1, 2],
    ),
    // all six, of any number
    (
        b"\xB0\x81\x40\xBA\x81\x30\x55\xB0\x98\x55\xB1\x81\x09\x55\xBA\x81\x10\x55\xBB\x81\xFF\
            \x55\xB9\x81\x01\x55\xB7\x81\x02\x55\xB8\x81\x03",
        [9, 16, 255, 1, 2, 3],
    ),
    // no Colour, and one without fields
    (b"\xB0\x81\x40\xBA\x81\x30", [2, 2, 2, 0, 0, 0]),
    (b"\xB0\x81\x40\xBA\x81\x30\x55\xB0\x80", [2, 2, 2, 0, 0, 0]),
    // fields without bytes
    (
        b"\xB0\x81\x40\xBA\x81\x30\x55\xB0\x8C\x55\xB1\x80\x55\xB9\x80\x55\xB7\x80\x55\xBA\x80",
        [2, 2, 2, 0, 0, 0],
    ),
    // a field of nine bytes, and one of eight
    (
        b"\xB0\x81\x40\xBA\x81\x30\x55\xB0\x8C\x55\xB9\x89\0\0\0\0\0\0\0\0\x02",
        [2, 2, 2, 0, 0, 0],
    ),
    (
        b"\xB0\x81\x40\xBA\x81\x30\x55\xB0\x8B\x55\xB9\x88\0\0\0\0\0\0\0\x02",
        [2, 2, 2, 2, 0, 0],
    ),
    // 256, and 0
    (
        b"\xB0\x81\x40\xBA\x81\x30\x55\xB0\x85\x55\xB1\x82\x01\x00",
        [2, 2, 2, 0, 0, 0],
    ),
    (
        b"\xB0\x81\x40\xBA\x81\x30\x55\xB0\x84\x55\xB1\x81\x00",
        [0, 2, 2, 0, 0, 0],
    ),
    // the first field, and the first Colour
    (
        b"\xB0\x81\x40\xBA\x81\x30\x55\xB0\x88\x55\xB9\x81\x01\x55\xB9\x81\x02",
        [2, 2, 2, 1, 0, 0],
    ),
    (
        b"\xB0\x81\x40\xBA\x81\x30\x55\xB0\x80\x55\xB0\x84\x55\xB9\x81\x02",
        [2, 2, 2, 0, 0, 0],
    ),
    // a field that can't be read, after one that can
    (
        b"\xB0\x81\x40\xBA\x81\x30\x55\xB0\x88\x55\xB7\x81\x01\x55\xB9\x85\x02",
        [2, 2, 2, 0, 1, 0],
    ),
    // a Colour that is longer than Video, and one behind what can't be read
    (
        b"\xB0\x81\x40\xBA\x81\x30\x55\xB0\x85\x55\xB9\x81\x02",
        [2, 2, 2, 0, 0, 0],
    ),
    (
        b"\xB0\x81\x40\xBA\x81\x30\0\0\x55\xB0\x84\x55\xB9\x81\x02",
        [2, 2, 2, 0, 0, 0],
    ),
];

#[test]
fn are_read(rt: HostRuntime) {
    for &(video, numbers) in &READ {
        let found = colour_of(rt.alloc(), video);
        assert!(rt; found == Ok(colour(numbers)), "{numbers:?}");
    }
}

/// The colours of a file of either container.
fn colour_of_file(alloc: Global, file: &[u8]) -> Result<Colour, FileFault> {
    let mut input = FromRead::new(file);
    let reader = FileReader::open(alloc, Scope::Whole, &mut input)?;
    Ok(reader.head().colour)
}

#[test]
fn are_read_of_files(rt: HostRuntime) -> Result<(), Fail> {
    let (video, numbers) = READ[0];
    let file = file_with(rt.alloc(), video)?;
    let found = colour_of_file(rt.alloc(), file.as_slice());
    assert!(rt; found == Ok(colour(numbers)));
    Ok(())
}

/// The bytes of a file of one frame with these colours.
fn written(alloc: Global, colour: Colour) -> Result<ToMemory<Global>, FileFault> {
    let head = FileHead {
        width: 1,
        height: 1,
        rate: 0,
        scale: 0,
        colour,
        config_record: Vec::from_slice(alloc, &RECORD)?,
    };
    let details = TrackEntry {
        codec_id: CodecId::Native,
        structure: 0,
        sar_num: 0,
        sar_den: 0,
    };
    let mut out = ToMemory::new(alloc);
    let mut writer = MatroskaWriter::new(alloc, &head, details)?;
    writer.put(&mut out, FRAME)?;
    writer.finish(&mut out)?;
    Ok(out)
}

/// Whether the colours come back, and the bytes of the file.
fn come_back(alloc: Global, colour: Colour) -> Result<(bool, usize), FileFault> {
    let out = written(alloc, colour)?;
    let mut input = FromRead::new(out.bytes());
    let reader = MatroskaReader::open(alloc, &mut input)?;
    Ok((reader.head().colour == colour, out.bytes().len()))
}

/// Colours, and the bytes of their files.
static WRITTEN: [([u8; 6], usize); 8] = [
    ([2, 2, 2, 0, 0, 0], 399),
    ([0, 2, 2, 0, 0, 0], 406),
    ([2, 255, 2, 0, 0, 0], 406),
    ([2, 2, 1, 0, 0, 0], 406),
    ([2, 2, 2, 2, 0, 0], 406),
    ([2, 2, 2, 0, 1, 2], 410),
    ([9, 16, 9, 1, 1, 1], 426),
    ([255, 255, 255, 255, 255, 255], 426),
];

#[test]
fn are_written_and_read_back(rt: HostRuntime) {
    for &(numbers, length) in &WRITTEN {
        let found = come_back(rt.alloc(), colour(numbers));
        assert!(rt; found == Ok((true, length)), "{numbers:?}");
    }
}

/// Whether a file with these colours has these bytes from where its Video begins.
fn has_video(alloc: Global, colour: Colour, video: &[u8]) -> Result<bool, FileFault> {
    let out = written(alloc, colour)?;
    let bytes = out.bytes();
    Ok(bytes.len() > 255 && bytes[255..].starts_with(video))
}

#[test]
fn come_last_in_video(rt: HostRuntime) {
    let all = b"\xE0\xAA\xB0\x84\0\0\0\x01\xBA\x84\0\0\0\x01\x9A\x81\0\x55\xB0\x98\x55\xB1\x81\
        \x01\x55\xB7\x81\x05\x55\xB8\x81\x06\x55\xB9\x81\x04\x55\xBA\x81\x03\x55\xBB\x81\x07\x63\
        \xA2";
    let found = has_video(rt.alloc(), colour([1, 3, 7, 4, 5, 6]), all);
    assert!(rt; found == Ok(true));
    let found = has_video(rt.alloc(), Colour::UNSAID, &EXAMPLE[255..]);
    assert!(rt; found == Ok(true));
}
