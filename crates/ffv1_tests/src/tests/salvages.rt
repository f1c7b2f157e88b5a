//! What `unpack_all` writes of files over memory, and its faults. The payloads are those of the
//! model.

use ffv1_avi::write_avi;
use ffv1_codec::CodecFault;
use ffv1_doubles::{Scarce, ShortWriter, made};
use ffv1_engine::{Fault, JudgedCounts, Notes, Profile, unpack_all};
use ffv1_reads::FileHead;
use ffv1_record::{Colour, Config, RecordFault, write_record};
use ffv1_wire::{FromRead, ToWrite};
use std::alloc::Global;
use std::io::ErrorKind;
use std::process::Abort;
use std::test::Fail;

/// Mono pictures of 1 by 1: of 7, and of 9; of 9 with another structure; and bytes that are none.
const SEVEN: &[u8] = b"\xFE\x67\x00\x00\x02";

const NINE: &[u8] = b"\xFE\x6B\x6A\x00\x00\x03";

const OTHER: &[u8] = b"\xFC\x38\xB7\x00\x00\x03";

const NONE: &[u8] = b"\x01";

/// Images of 1 by 2: of 1 to 6, and one whose second row has a fault.
const IMAGE: &[u8] = b"\xFE\x4D\x43\xCD\xB2\x18\x87\x00\x00\x07";

const HALF: &[u8] = b"\xFE\x78\xDF\x83\xD9\x3B\xC7\xB3\x5F\xE1\x00\x00\x0A";

/// A file of this configuration and these frames.
fn file_with(alloc: Global, config: Config, frames: &[&[u8]]) -> Result<Vec<u8>, Fault> {
    let (width, height) = (config.width, config.height);
    if width > 8192 || height > 8192 {
        return Err(Fault::Record(RecordFault::Size));
    }
    let head = FileHead {
        width,
        height,
        rate: 25,
        scale: 1,
        colour: ffv1_reads::Colour::UNSAID,
        config_record: write_record(alloc, &config.check()?)?,
    };
    let mut payloads = Vec::new(alloc);
    for frame in frames {
        let mut payload = Vec::new(alloc);
        payload.extend_from_slice(frame)?;
        payloads.push(payload)?;
    }
    let mut out = ToWrite::new(Vec::new(alloc));
    write_avi(&mut out, &head, &payloads)?;
    Ok(out.into_inner())
}

/// A file of mono pictures of 1 by 1, without parity.
fn mono_file(alloc: Global, frames: &[&[u8]]) -> Result<Vec<u8>, Fault> {
    file_with(alloc, made::mono(alloc, 1, 1, 1, false)?, frames)
}

/// A file of images of 1 by 2, without parity.
fn image_file(alloc: Global, frames: &[&[u8]]) -> Result<Vec<u8>, Fault> {
    let mut config = made::mono(alloc, 1, 2, 1, false)?;
    config.colour = Colour::Rct;
    config.chroma_planes = true;
    file_with(alloc, config, frames)
}

/// So many frames, and so many faults, of which this is the first.
fn counts(frames: u64, faults: u64, first: Option<Fault>) -> Result<JudgedCounts, Fault> {
    Ok(JudgedCounts {
        frames,
        faults,
        first,
    })
}

/// Unpacking all of a file answers so, writes these lines, and this text.
fn comes_to(
    rt: &impl Abort,
    alloc: Global,
    file: &[u8],
    answer: Result<JudgedCounts, Fault>,
    lines: &[u8],
    text: &[u8],
) {
    let mut told = ToWrite::new(Vec::new(alloc));
    let output = ToWrite::new(Vec::new(alloc));
    let mut input = FromRead::new(file);
    let (written, found) = unpack_all(alloc, Profile::Wide, &mut input, &mut told, output);
    assert!(rt; found == answer.map(|counts| (counts, Notes::NONE)));
    assert!(rt; told.into_inner().as_slice() == lines);
    assert!(rt; written.into_inner().as_slice() == text);
}

static THREE: &[u8] = b"YUV4MPEG2 W1 H1 F25:1 I? A0:0 Cmono\nFRAME\n\x07FRAME\n\x07FRAME\n\x09";

static SECOND: &[u8] = b"frame 1: fault 35 Footer\n";

#[test]
fn the_last_good_picture_again(rt: HostRuntime) -> Result<(), Fail> {
    let file = mono_file(rt.alloc(), &[SEVEN, NONE, NINE])?;
    let answer = counts(3, 1, Some(Fault::Codec(CodecFault::Footer)));
    comes_to(&rt, rt.alloc(), &file, answer, SECOND, THREE);
    Ok(())
}

#[test]
fn none_before_the_first_good_one(rt: HostRuntime) -> Result<(), Fail> {
    let file = mono_file(rt.alloc(), &[NONE, NINE])?;
    let answer = counts(2, 1, Some(Fault::Codec(CodecFault::Footer)));
    let text = b"YUV4MPEG2 W1 H1 F25:1 I? A0:0 Cmono\nFRAME\n\x09";
    comes_to(
        &rt,
        rt.alloc(),
        &file,
        answer,
        b"frame 0: fault 35 Footer\n",
        text,
    );
    Ok(())
}

#[test]
fn no_good_one(rt: HostRuntime) -> Result<(), Fail> {
    let file = mono_file(rt.alloc(), &[NONE, NONE])?;
    let answer = counts(2, 2, Some(Fault::Codec(CodecFault::Footer)));
    let lines = b"frame 0: fault 35 Footer\nframe 1: fault 35 Footer\n";
    comes_to(&rt, rt.alloc(), &file, answer, lines, b"");
    let empty = mono_file(rt.alloc(), &[])?;
    comes_to(&rt, rt.alloc(), &empty, Err(Fault::NoFrames), b"", b"");
    Ok(())
}

static CHANGED: &[u8] =
    b"YUV4MPEG2 W1 H1 F25:1 I? A0:0 Cmono\nFRAME\n\x07FRAME\n\x09FRAME\n\x09FRAME\n\x07";

static CHANGED_LINES: &[u8] = b"frame 1: fault 71 FormatChanged\nframe 2: fault 35 Footer\n";

#[test]
fn another_structure(rt: HostRuntime) -> Result<(), Fail> {
    let file = mono_file(rt.alloc(), &[SEVEN, OTHER, NONE, SEVEN])?;
    let answer = counts(4, 2, Some(Fault::FormatChanged));
    comes_to(&rt, rt.alloc(), &file, answer, CHANGED_LINES, CHANGED);
    Ok(())
}

static IMAGES: &[u8] =
    b"P6\n1 2\n255\n\x01\x03\x05\x02\x04\x06P6\n1 2\n255\n\x01\x03\x05\x02\x04\x06";

#[test]
fn images(rt: HostRuntime) -> Result<(), Fail> {
    let file = image_file(rt.alloc(), &[HALF, IMAGE, HALF])?;
    let answer = counts(3, 2, Some(Fault::Codec(CodecFault::Colour)));
    let lines = b"frame 0: fault 7 Colour\nframe 2: fault 7 Colour\n";
    comes_to(&rt, rt.alloc(), &file, answer, lines, IMAGES);
    Ok(())
}

/// Where a write of the pictures fails, what is written is a beginning of them.
#[test]
fn a_picture_that_is_not_written_ends_it(rt: HostRuntime) -> Result<(), Fail> {
    let file = mono_file(rt.alloc(), &[SEVEN, NONE, NINE])?;
    for room in 0..THREE.len() {
        let output = ToWrite::new(ShortWriter::new(rt.alloc(), room, 7, Some(ErrorKind::Other)));
        let mut told = ToWrite::new(Vec::new(rt.alloc()));
        let mut input = FromRead::new(file.as_slice());
        let (_, answer) = unpack_all(rt.alloc(), Profile::Wide, &mut input, &mut told, output);
        assert!(rt; answer == Err(Fault::Write));
        assert!(rt; SECOND.starts_with(told.into_inner().as_slice()));
    }
    Ok(())
}

/// Where a write of the lines fails, the pictures before are written.
#[test]
fn a_line_that_is_not_written_ends_it(rt: HostRuntime) -> Result<(), Fail> {
    let file = mono_file(rt.alloc(), &[SEVEN, NONE, NINE])?;
    for room in 0..SECOND.len() {
        let mut told = ToWrite::new(ShortWriter::new(rt.alloc(), room, 7, Some(ErrorKind::Other)));
        let output = ToWrite::new(Vec::new(rt.alloc()));
        let mut input = FromRead::new(file.as_slice());
        let (text, answer) = unpack_all(rt.alloc(), Profile::Wide, &mut input, &mut told, output);
        assert!(rt; answer == Err(Fault::Write));
        assert!(rt; text.into_inner().as_slice() == &THREE[..43]);
    }
    Ok(())
}

#[test]
fn refused_memory_ends_it(rt: HostRuntime) -> Result<(), Fail> {
    let file = mono_file(rt.alloc(), &[SEVEN, NONE, NINE])?;
    let mut refused = 0u8;
    for before in 0..60u64 {
        let heap = Scarce::new(rt.alloc(), before);
        let mut told = ToWrite::new(Vec::new(rt.alloc()));
        let output = ToWrite::new(Vec::new(rt.alloc()));
        let mut input = FromRead::new(file.as_slice());
        let (text, answer) = unpack_all(&heap, Profile::Wide, &mut input, &mut told, output);
        if answer == Err(Fault::OutOfMemory) {
            refused = refused.saturating_add(1);
            assert!(rt; THREE.starts_with(text.into_inner().as_slice()));
        } else {
            let sound = counts(3, 1, Some(Fault::Codec(CodecFault::Footer))).map(|counts| (
                counts,
                Notes::NONE,
            ));
            assert!(rt; answer == sound);
        }
    }
    assert!(rt; 10 < refused && refused < 60);
    Ok(())
}
