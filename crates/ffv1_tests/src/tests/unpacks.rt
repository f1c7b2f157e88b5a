//! Files that are unpacked, with texts computed outside the program, and their faults.

use super::orders::NO_COLOUR;
use ffv1_avi::write_avi;
use ffv1_codec::CodecFault;
use ffv1_doubles::made;
use ffv1_engine::{Choice, CodecIdChoice, CoderChoice, Fault, Notes, Profile, pack, unpack};
use ffv1_reads::{FileFault, FileHead};
use ffv1_record::{Colour, Config, RecordFault, write_record};
use ffv1_wire::{FromRead, ToWrite};
use std::alloc::Global;
use std::process::Abort;
use std::test::Fail;

/// Without parity.
const PLAIN: Choice = Choice {
    coder: CoderChoice::Standard,
    large: false,
    columns: 1,
    rows: 1,
    default_grid: false,
    ec: false,
    rate: 25,
    scale: 1,
    verify: false,
    codec_id: CodecIdChoice::Native,
    codec_id_given: false,
    rate_given: false,
    colour: NO_COLOUR,
};

/// A text of 4:2:0 with one picture of 2 by 2, and what comes back of it.
const TEXT: &[u8] = b"YUV4MPEG2 W2 H2 F25:1 C420mpeg2 Xa\nFRAME\n\x01\x02\x03\x04\x05\x06";

const CANONICAL: &[u8] = b"YUV4MPEG2 W2 H2 F25:1 I? A0:0 C420jpeg\nFRAME\n\x01\x02\x03\x04\x05\x06";

/// A red image of 1 by 1.
const IMAGE: &[u8] = b"P6\n1 1\n255\n\xFF\x00\x00";

/// The file of a text.
fn file_of(alloc: Global, text: &[u8], choice: &Choice) -> Result<Vec<u8>, Fault> {
    let mut input = FromRead::new(text);
    let mut output = ToWrite::new(Vec::new(alloc));
    pack(alloc, Profile::Strict, &mut input, &mut output, choice)?;
    Ok(output.into_inner())
}

/// Unpacking a file answers so, and writes this.
fn comes_to(rt: &impl Abort, alloc: Global, file: &[u8], answer: Result<u64, Fault>, text: &[u8]) {
    let output = ToWrite::new(Vec::new(alloc));
    let (written, found) = unpack(alloc, Profile::Strict, &mut FromRead::new(file), output);
    assert!(rt; found == answer.map(|count| (count, Notes::NONE)));
    assert!(rt; written.into_inner().as_slice() == text);
}

/// A text that is packed and unpacked is this one.
fn comes_back(
    rt: &impl Abort,
    alloc: Global,
    text: &[u8],
    count: u64,
    back: &[u8],
) -> Result<(), Fault> {
    let file = file_of(alloc, text, &PLAIN)?;
    comes_to(rt, alloc, &file, Ok(count), back);
    Ok(())
}

/// Texts, how many pictures they have, and what comes back of them.
static BACK: [(&[u8], u64, &[u8]); 5] = [
    (TEXT, 1, CANONICAL),
    (
        b"YUV4MPEG2 W1 H1 C444alpha\nFRAME\n\x01\x02\x03\x04",
        1,
        b"YUV4MPEG2 W1 H1 F0:0 I? A0:0 C444alpha\nFRAME\n\x01\x02\x03\x04",
    ),
    (
        b"YUV4MPEG2 H1 W1 F30000:1001 It A4:3 Cmono\nFRAME\n\x07FRAME\n\x08",
        2,
        b"YUV4MPEG2 W1 H1 F30000:1001 It A4:3 Cmono\nFRAME\n\x07FRAME\n\x08",
    ),
    (IMAGE, 1, IMAGE),
    (
        b"P6\n2 1\n255\n\x01\x02\x03\x04\x05\x06P6\n2 1\n255\n\x11\x12\x13\x14\x15\x16",
        2,
        b"P6\n2 1\n255\n\x01\x02\x03\x04\x05\x06P6\n2 1\n255\n\x11\x12\x13\x14\x15\x16",
    ),
];

#[test]
fn pictures(rt: HostRuntime) -> Result<(), Fail> {
    assert!(&rt; CANONICAL.len() == 51);
    for &(text, count, back) in &BACK {
        comes_back(&rt, rt.alloc(), text, count, back)?;
    }
    Ok(())
}

/// Pictures of one slice, without parity.
fn config_of(
    alloc: Global,
    size: (u32, u32),
    colour: Colour,
    planes: (bool, bool),
    log2: (u32, u32),
) -> Result<Config, Fault> {
    let mut config = made::mono(alloc, size.0, size.1, 1, false)?;
    config.colour = colour;
    config.chroma_planes = planes.0;
    config.extra_plane = planes.1;
    config.log2_h = log2.0;
    config.log2_v = log2.1;
    Ok(config)
}

/// A file of this configuration and these frames.
fn file_with(alloc: Global, config: Config, frames: &[Vec<u8>]) -> Result<Vec<u8>, Fault> {
    let (width, height) = (config.width, config.height);
    if width > 8192 || height > 8192 {
        return Err(Fault::Record(RecordFault::Size));
    }
    let head = FileHead {
        width,
        height,
        rate: 25,
        scale: 1,
        colour: ffv1_reads::Colour::UNSAID,
        config_record: write_record(alloc, &config.check()?)?,
    };
    let mut out = ToWrite::new(Vec::new(alloc));
    write_avi(&mut out, &head, frames)?;
    Ok(out.into_inner())
}

/// A file without frames, of pictures of 2 by 2, is refused so, and nothing is written.
fn refuses(
    rt: &impl Abort,
    alloc: Global,
    colour: Colour,
    planes: (bool, bool),
    log2: (u32, u32),
    fault: Fault,
) -> Result<(), Fault> {
    let config = config_of(alloc, (2, 2), colour, planes, log2)?;
    let frames = Vec::new(alloc);
    let file = file_with(alloc, config, frames.as_slice())?;
    comes_to(rt, alloc, &file, Err(fault), b"");
    Ok(())
}

/// Colours, planes and subsampling of files without frames, and why they are refused.
static REFUSED: [(Colour, (bool, bool), (u32, u32), Fault); 6] = [
    (Colour::YCbCr, (true, false), (0, 1), Fault::NoY4mName),
    (Colour::YCbCr, (true, true), (1, 1), Fault::NoY4mName),
    (Colour::YCbCr, (true, false), (2, 2), Fault::NoY4mName),
    (Colour::Rct, (true, true), (0, 0), Fault::NoPpm),
    (Colour::YCbCr, (true, false), (1, 1), Fault::NoFrames),
    (Colour::Rct, (true, false), (0, 0), Fault::NoFrames),
];

#[test]
fn no_text_and_no_frames(rt: HostRuntime) -> Result<(), Fail> {
    for &(colour, planes, log2, fault) in &REFUSED {
        refuses(&rt, rt.alloc(), colour, planes, log2, fault)?;
    }
    Ok(())
}

#[test]
fn no_file(rt: HostRuntime) {
    comes_to(
        &rt,
        rt.alloc(),
        b"RIFX",
        Err(Fault::File(FileFault::Truncated)),
        b"",
    );
    comes_to(
        &rt,
        rt.alloc(),
        b"RIFX\0\0\0\0AVI ",
        Err(Fault::File(FileFault::NotAvi)),
        b"",
    );
}

/// Two frames of one sample 0, the second as wide as high.
fn other_aspect(rt: &impl Abort, alloc: Global) -> Result<(), Fault> {
    let config = config_of(alloc, (1, 1), Colour::YCbCr, (false, false), (0, 0))?;
    let mut frames = Vec::new(alloc);
    frames.push(Vec::from_slice(alloc, b"\xFE\x7B\x00\x00\x02")?)?;
    frames.push(Vec::from_slice(alloc, b"\xFC\xA6\x00\x00\x02")?)?;
    let file = file_with(alloc, config, frames.as_slice())?;
    let text = b"YUV4MPEG2 W1 H1 F25:1 I? A0:0 Cmono\nFRAME\n\x00";
    comes_to(rt, alloc, &file, Err(Fault::FormatChanged), text);
    Ok(())
}

#[test]
fn another_aspect(rt: HostRuntime) -> Result<(), Fail> {
    other_aspect(&rt, rt.alloc())?;
    Ok(())
}

/// Two images, the second damaged: its first byte that is decided by no sample.
fn damaged(rt: &impl Abort, alloc: Global) -> Result<(), Fault> {
    let images = b"P6\n1 2\n255\n\x01\x02\x03\x04\x05\x06P6\n1 2\n255\n\x11\x12\x13\x14\x15\x16";
    let mut file = file_of(alloc, images, &Choice { ec: true, ..PLAIN })?;
    if let Some(place) = file.len().checked_sub(3) {
        file[place] ^= 1;
    }
    comes_to(
        rt,
        alloc,
        &file,
        Err(Fault::Codec(CodecFault::SliceParity)),
        &images[..17],
    );
    Ok(())
}

#[test]
fn a_damaged_image(rt: HostRuntime) -> Result<(), Fail> {
    damaged(&rt, rt.alloc())?;
    Ok(())
}
