//! Files that are written: whole, open and begun, and what is refused.

use super::written_example::{EXAMPLE, FILE, FRAME, RECORD, SECOND};
use ffv1_doubles::{FailingWriter, Scarce};
use ffv1_matroska::{CodecId, MatroskaWriter, TrackEntry};
use ffv1_reads::{Colour, FileFault, FileHead};
use ffv1_sum::crc32;
use ffv1_wire::{ByteOut, PatchOut, ToMemory, ToWrite};
use std::alloc::{Allocator, Global};
use std::io::ErrorKind;
use std::process::Abort;
use std::test::Fail;

/// The record alone in CodecPrivate, and nothing is known of how pictures are shown.
const PLAIN: TrackEntry = TrackEntry {
    codec_id: CodecId::Native,
    structure: 0,
    sar_num: 0,
    sar_den: 0,
};

/// A head of this size and rate.
fn head_of<A: Allocator>(
    alloc: A,
    size: (u32, u32),
    rate: (u32, u32),
) -> Result<FileHead<A>, FileFault> {
    Ok(FileHead {
        width: size.0,
        height: size.1,
        rate: rate.0,
        scale: rate.1,
        colour: Colour::UNSAID,
        config_record: Vec::from_slice(alloc, &RECORD)?,
    })
}

/// Writes two frames, or one if the second is empty, and ends the file.
fn put_all<W: PatchOut>(
    alloc: Global,
    out: &mut W,
    head: &FileHead,
    details: TrackEntry,
    second: &[u8],
) -> Result<bool, FileFault> {
    let mut writer = MatroskaWriter::new(alloc, head, details)?;
    writer.put(out, FRAME)?;
    if !second.is_empty() {
        writer.put(out, second)?;
    }
    writer.finish(out)
}

/// The example in its open form.
fn open_example() -> [u8; 399] {
    let mut file = EXAMPLE;
    file[44..52].copy_from_slice(b"\x01\xFF\xFF\xFF\xFF\xFF\xFF\xFF");
    file[57..63].copy_from_slice(b"\xBF\x84\xAD\xF0\x40\x38");
    file[105..126].copy_from_slice(b"\xEC\x93\0\0\0\0\0\0\0\0\0\0\0\0\0\0\0\0\0\0\0");
    file[131..137].copy_from_slice(b"\xBF\x84\x20\xDD\x34\x93");
    file[149..160].copy_from_slice(b"\xEC\x89\0\0\0\0\0\0\0\0\0");
    file
}

/// Whether a file of this size and rate is these bytes, finished.
fn is_finished(
    alloc: Global,
    numbers: [(u32, u32); 2],
    details: TrackEntry,
    second: &[u8],
    bytes: &[u8],
) -> Result<bool, FileFault> {
    let [size, rate] = numbers;
    let head = head_of(alloc, size, rate)?;
    let mut out = ToMemory::new(alloc);
    let is_ended = put_all(alloc, &mut out, &head, details, second)?;
    Ok(is_ended && out.bytes() == bytes)
}

#[test]
fn finished(rt: HostRuntime) {
    let said = TrackEntry {
        codec_id: CodecId::Native,
        structure: 1,
        sar_num: 10,
        sar_den: 11,
    };
    let (least, most) = ([(1, 1), (0, 0)], [(352, 288), (30000, 1001)]);
    assert!(rt; is_finished(rt.alloc(), least, PLAIN, b"", &EXAMPLE) == Ok(true));
    assert!(rt; is_finished(rt.alloc(), most, said, SECOND, &FILE) == Ok(true));
}

#[test]
fn open(rt: HostRuntime) -> Result<(), Fail> {
    let mut out = ToWrite::new(Vec::new(rt.alloc()));
    let head = head_of(rt.alloc(), (1, 1), (0, 0))?;
    assert!(rt; put_all(rt.alloc(), &mut out, &head, PLAIN, b"") == Ok(false));
    assert!(rt; out.into_inner().as_slice() == open_example().as_slice());
    Ok(())
}

/// Writes one frame alone.
fn begin<W: ByteOut>(alloc: Global, out: &mut W, head: &FileHead) -> Result<(), FileFault> {
    let mut writer = MatroskaWriter::new(alloc, head, PLAIN)?;
    writer.put(out, FRAME)
}

#[test]
fn begun(rt: HostRuntime) -> Result<(), Fail> {
    let mut out = ToMemory::new(rt.alloc());
    let head = head_of(rt.alloc(), (1, 1), (0, 0))?;
    begin(rt.alloc(), &mut out, &head)?;
    assert!(rt; out.bytes().len() == 354);
    assert!(rt; open_example().as_slice().starts_with(out.bytes()));
    Ok(())
}

/// The bytes and the CRC-32 of a file of two frames of 720 by 576 at 25.
fn summed(alloc: Global, structure: u8, aspect: (u16, u16)) -> Result<(usize, u32), FileFault> {
    let details = TrackEntry {
        codec_id: CodecId::Native,
        structure,
        sar_num: aspect.0,
        sar_den: aspect.1,
    };
    let mut out = ToMemory::new(alloc);
    let head = head_of(alloc, (720, 576), (25, 1))?;
    put_all(alloc, &mut out, &head, details, SECOND)?;
    Ok((out.bytes().len(), crc32(out.bytes())))
}

/// Structures and aspects, and the bytes and the CRC-32 of their files.
static SUMS: [(u8, (u16, u16), usize, u32); 6] = [
    (1, (0, 0), 485, 0x5A96_20F7),
    (2, (16, 15), 511, 0xED86_2015),
    (3, (1, 1), 508, 0xAAB1_B003),
    (0, (65535, 1), 508, 0xDA07_4DD3),
    (0, (0, 0), 482, 0x2B37_09CA),
    (4, (0, 7), 482, 0x2B37_09CA),
];

#[test]
fn structures_and_aspects(rt: HostRuntime) {
    for &(structure, aspect, length, sum) in &SUMS {
        let found = summed(rt.alloc(), structure, aspect);
        assert!(rt; found == Ok((length, sum)), "{structure} {length}");
    }
}

/// The bytes and the CRC-32 of a file of Video for Windows of this size, whose record has so many
/// bytes.
fn of_windows(alloc: Global, size: (u32, u32), count: usize) -> Result<(usize, u32), FileFault> {
    let mut head = head_of(alloc, size, (25, 1))?;
    head.config_record.truncate(count);
    let mut out = ToMemory::new(alloc);
    let entry = TrackEntry {
        codec_id: CodecId::Vfw,
        structure: 0,
        sar_num: 0,
        sar_den: 0,
    };
    put_all(alloc, &mut out, &head, entry, SECOND)?;
    Ok((out.bytes().len(), crc32(out.bytes())))
}

/// Sizes and bytes of records, and the bytes and the CRC-32 of their files.
static OF_WINDOWS: [((u32, u32), usize, usize, u32); 4] = [
    ((720, 576), 26, 531, 0xAB86_BB91),
    ((720, 576), 25, 531, 0xDF4C_EFF1),
    ((4294967295, 4294967295), 25, 531, 0x606A_5CD4),
    ((720, 576), 0, 505, 0x7513_C7DF),
];

#[test]
fn video_for_windows(rt: HostRuntime) {
    for &(size, count, length, sum) in &OF_WINDOWS {
        let found = of_windows(rt.alloc(), size, count);
        assert!(rt; found == Ok((length, sum)), "{count} {length}");
    }
}

/// Writes so many frames of one byte.
fn put_many<W: PatchOut>(
    alloc: Global,
    out: &mut W,
    head: &FileHead,
    count: u64,
) -> Result<bool, FileFault> {
    let mut writer = MatroskaWriter::new(alloc, head, PLAIN)?;
    for number in 0..count {
        writer.put(out, &[(number % 251) as u8])?;
    }
    writer.finish(out)
}

/// The bytes and the CRC-32 of a file of so many frames.
fn many(alloc: Global, count: u64) -> Result<(usize, u32), FileFault> {
    let mut out = ToMemory::new(alloc);
    let head = head_of(alloc, (1, 1), (0, 0))?;
    put_many(alloc, &mut out, &head, count)?;
    Ok((out.bytes().len(), crc32(out.bytes())))
}

#[test]
fn cues_are_thinned(rt: HostRuntime) {
    assert!(rt; many(rt.alloc(), 8192) == Ok((565_574, 0xF5BF_1915)));
    assert!(rt; many(rt.alloc(), 8193) == Ok((455_051, 0x3C7D_D0BB)));
    assert!(rt; many(rt.alloc(), 16385) == Ok((799_115, 0x4538_C0F5)));
}

/// What a writer answers if so many requests for memory are passed on.
fn in_scarce<'a>(heap: &'a Scarce<Global>) -> Result<(), FileFault> {
    let head = head_of(heap, (1, 1), (0, 0))?;
    let _writer = MatroskaWriter::new(heap, &head, PLAIN)?;
    Ok(())
}

#[test]
fn memory_refused(rt: HostRuntime) {
    assert!(rt; in_scarce(&Scarce::new(rt.alloc(), 1)) == Err(FileFault::OutOfMemory));
    assert!(rt; in_scarce(&Scarce::new(rt.alloc(), 2)) == Err(FileFault::OutOfMemory));
    assert!(rt; in_scarce(&Scarce::new(rt.alloc(), 3)) == Ok(()));
}

/// Puts the frame twice and ends the file, whatever is answered.
fn answers<W: PatchOut>(
    alloc: Global,
    out: &mut W,
    head: &FileHead,
) -> Result<(bool, bool, bool), FileFault> {
    let mut writer = MatroskaWriter::new(alloc, head, PLAIN)?;
    let first = writer.put(out, FRAME) == Err(FileFault::Write);
    let second = writer.put(out, FRAME) == Err(FileFault::Write);
    let end = writer.finish(out) == Err(FileFault::Write);
    Ok((first, second, end))
}

/// A write fails after so many bytes: the bytes are a beginning of those of the open form, and each
/// call from there on answers so.
fn fails_after(
    rt: &impl Abort,
    alloc: Global,
    head: &FileHead,
    before: usize,
    told: (bool, bool, bool),
) -> Result<(), FileFault> {
    let mut out = ToWrite::new(FailingWriter::new(alloc, before, Some(ErrorKind::Other)));
    let answers = answers(alloc, &mut out, head)?;
    let failures = out.failures();
    let inner = out.into_inner();
    assert!(rt; (answers, failures) == (told, 1));
    assert!(rt; inner.held().len() == before);
    Ok(())
}

#[test]
fn each_byte_fails(rt: HostRuntime) -> Result<(), Fail> {
    let head = head_of(rt.alloc(), (1, 1), (0, 0))?;
    for before in 0..354usize {
        fails_after(&rt, rt.alloc(), &head, before, (true, true, true))?;
    }
    for before in 354..400usize {
        fails_after(&rt, rt.alloc(), &head, before, (false, true, true))?;
    }
    for before in 400..472usize {
        fails_after(&rt, rt.alloc(), &head, before, (false, false, true))?;
    }
    Ok(())
}

/// A writer that has no frame writes nothing.
#[test]
fn no_frame(rt: HostRuntime) -> Result<(), Fail> {
    let mut out = ToMemory::new(rt.alloc());
    let head = head_of(rt.alloc(), (1, 1), (0, 0))?;
    let writer = MatroskaWriter::new(rt.alloc(), &head, PLAIN)?;
    assert!(rt; writer.finish(&mut out) == Ok(false));
    assert!(rt; out.bytes().len() == 0);
    Ok(())
}
