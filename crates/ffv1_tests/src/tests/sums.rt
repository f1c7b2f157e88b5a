//! What `framemd5` writes of files over memory and `framemd5_text` of texts, with the lines that
//! FFmpeg 5.1.9 prints of them, and their faults.

use super::orders::NO_COLOUR;
use ffv1_avi::write_avi;
use ffv1_codec::CodecFault;
use ffv1_doubles::{FailingWriter, Scarce, made};
use ffv1_engine::{
    Choice, CodecIdChoice, CoderChoice, Fault, Notes, Profile, framemd5, framemd5_text, pack,
};
use ffv1_reads::FileHead;
use ffv1_record::write_record;
use ffv1_wire::{FromRead, ToWrite};
use std::alloc::Global;
use std::io::ErrorKind;
use std::process::Abort;
use std::test::Fail;

/// One slice, without parity.
const PLAIN: Choice = Choice {
    coder: CoderChoice::Standard,
    large: false,
    columns: 1,
    rows: 1,
    default_grid: false,
    ec: false,
    rate: 25,
    scale: 1,
    verify: false,
    codec_id: CodecIdChoice::Native,
    codec_id_given: false,
    rate_given: false,
    colour: NO_COLOUR,
};

/// The file of a text.
pub(super) fn file_of(alloc: Global, text: &[u8]) -> Result<Vec<u8>, Fault> {
    let mut output = ToWrite::new(Vec::new(alloc));
    let mut input = FromRead::new(text);
    pack(alloc, Profile::Wide, &mut input, &mut output, &PLAIN)?;
    Ok(output.into_inner())
}

/// The head with these lines in it, and then these lines.
fn written(alloc: Global, head: &[u8], lines: &[u8]) -> Result<Vec<u8>, Fault> {
    let mut text = Vec::from_slice(alloc, FIRST)?;
    text.extend_from_slice(head)?;
    text.extend_from_slice(LAST)?;
    text.extend_from_slice(lines)?;
    Ok(text)
}

/// The lines of a file are these, between the first four and the last one of its head.
fn comes_to(
    rt: &impl Abort,
    alloc: Global,
    file: &[u8],
    answer: Result<(), Fault>,
    head: &[u8],
    lines: &[u8],
) -> Result<(), Fault> {
    let mut output = ToWrite::new(Vec::new(alloc));
    let found = framemd5(alloc, Profile::Wide, &mut FromRead::new(file), &mut output);
    let text = written(alloc, head, lines)?;
    assert!(rt; found == answer.map(|_| Notes::NONE));
    assert!(rt; output.into_inner().as_slice() == text.as_slice());
    Ok(())
}

const FIRST: &[u8] = b"#format: frame checksums\n#version: 2\n#hash: MD5\n#software: ffv1\n";

const LAST: &[u8] = b"#stream#, dts,        pts, duration,     size, hash\n";

/// A text of two pictures of 2 by 2, and what is written of its file.
pub(super) const PAIR: (&[u8], &[u8], &[u8]) = (
    b"YUV4MPEG2 W2 H2 F50:2 It A2:2 C420jpeg
FRAME
\x01\x02\x03\x04\x05\x06FRAME
\x11\x12\x13\x14\x15\x16",
    b"#tb 0: 1/25\n#media_type 0: video\n#codec_id 0: rawvideo\n#dimensions 0: 2x2\n#sar 0: 2/2\n",
    b"0,          0,          0,        1,        6, 6ac1e56bc78f031059be7be854522c4c
0,          1,          1,        1,        6, 06e22bc66691496dd92c04669b3703cc
",
);

/// Texts, and what is written of their files: mono, with transparency, of 10 bits, and images of 8
/// and of 10 bits.
static SUMS: [(&[u8], &[u8], &[u8]); 6] = [
    PAIR,
    (
        b"YUV4MPEG2 W2 H2 F30000:1001 It A4:3 Cmono
FRAME
\x07\x08\x09\x0AFRAME
\x08\x07\x06\x05",
        b"#tb 0: 1001/30000
#media_type 0: video
#codec_id 0: rawvideo
#dimensions 0: 2x2
#sar 0: 4/3
",
        b"0,          0,          0,        1,        4, be16a383ef16a9b4c842fdc74263a859
0,          1,          1,        1,        4, 4233b58bf3d2d8397db7ba0fcc9aaf17
",
    ),
    (
        b"YUV4MPEG2 W1 H1 F25:1 C444alpha\nFRAME\n\x01\x02\x03\x04",
        b"#tb 0: 1/25
#media_type 0: video
#codec_id 0: rawvideo
#dimensions 0: 1x1
#sar 0: 0/1
",
        b"0,          0,          0,        1,        4, 08d6c05a21512a79a1dfeb9d2a8f262f\n",
    ),
    (
        b"YUV4MPEG2 W2 H2 F25:1 A59:54 C420p10
FRAME
\x01\x02\x03\x01\xFF\x03\x00\x00\x05\x01\x06\x02",
        b"#tb 0: 1/25
#media_type 0: video
#codec_id 0: rawvideo
#dimensions 0: 2x2
#sar 0: 59/54
",
        b"0,          0,          0,        1,       12, f21c07710c00da85d0ff7a71c3feafa0\n",
    ),
    (
        b"P6\n2 1\n255\n\x01\x02\x03\x04\x05\x06P6\n2 1\n255\n\x11\x12\x13\x14\x15\x16",
        b"#tb 0: 1/25
#media_type 0: video
#codec_id 0: rawvideo
#dimensions 0: 2x1
#sar 0: 0/1
",
        b"0,          0,          0,        1,        6, 6ac1e56bc78f031059be7be854522c4c
0,          1,          1,        1,        6, 06e22bc66691496dd92c04669b3703cc
",
    ),
    (
        b"P6\n1 1\n1023\n\x01\x02\x00\x03\x03\x04",
        b"#tb 0: 1/25
#media_type 0: video
#codec_id 0: rawvideo
#dimensions 0: 1x1
#sar 0: 0/1
",
        b"0,          0,          0,        1,        6, 30068e75ffcca6b65d9843b97449ee52\n",
    ),
];

#[test]
fn as_ffmpeg(rt: HostRuntime) -> Result<(), Fail> {
    for &(text, head, lines) in &SUMS {
        let file = file_of(rt.alloc(), text)?;
        comes_to(&rt, rt.alloc(), &file, Ok(()), head, lines)?;
    }
    Ok(())
}

/// What is written of a file of one mono picture of one sample, which is 0.
const ONE: (&[u8], &[u8]) = (
    b"#tb 0: 1/25\n#media_type 0: video\n#codec_id 0: rawvideo\n#dimensions 0: 1x1\n#sar 0: 0/1\n",
    b"0,          0,          0,        1,        1, 93b885adfe0da089cdf634904fd59f71\n",
);

/// A file of mono pictures of one sample, with these frames.
fn file_with(alloc: Global, frames: &[Vec<u8>]) -> Result<Vec<u8>, Fault> {
    let head = FileHead {
        width: 1,
        height: 1,
        rate: 25,
        scale: 1,
        colour: ffv1_reads::Colour::UNSAID,
        config_record: write_record(alloc, &made::mono(alloc, 1, 1, 1, false)?.check()?)?,
    };
    let mut out = ToWrite::new(Vec::new(alloc));
    write_avi(&mut out, &head, frames)?;
    Ok(out.into_inner())
}

/// A frame of one of these files.
const FRAME: &[u8] = b"\xFE\x7B\x00\x00\x02";

/// A file of one of these frames.
fn one_frame(alloc: Global) -> Result<Vec<u8>, Fault> {
    let mut frames = Vec::new(alloc);
    frames.push(Vec::from_slice(alloc, FRAME)?)?;
    file_with(alloc, &frames)
}

#[test]
fn a_fault_ends_it(rt: HostRuntime) -> Result<(), Fail> {
    let alloc = rt.alloc();
    let mut frames = Vec::new(alloc);
    frames.push(Vec::from_slice(alloc, FRAME)?)?;
    frames.push(Vec::from_slice(alloc, b"\x00\x00\x00")?)?;
    let file = file_with(alloc, &frames)?;
    comes_to(
        &rt,
        alloc,
        &file,
        Err(Fault::Codec(CodecFault::NotKey)),
        ONE.0,
        ONE.1,
    )?;
    Ok(())
}

#[test]
fn no_frame(rt: HostRuntime) -> Result<(), Fail> {
    let file = file_with(rt.alloc(), &[])?;
    let mut output = ToWrite::new(Vec::new(rt.alloc()));
    let answer = framemd5(
        rt.alloc(),
        Profile::Strict,
        &mut FromRead::new(file.as_slice()),
        &mut output,
    );
    assert!(rt; answer == Err(Fault::NoFrames));
    assert!(rt; output.into_inner().is_empty());
    Ok(())
}

#[test]
fn memory_is_refused(rt: HostRuntime) -> Result<(), Fail> {
    let file = one_frame(rt.alloc())?;
    let mut refused = 0u8;
    for before in 0..60u64 {
        let heap = Scarce::new(rt.alloc(), before);
        let mut output = ToWrite::new(Vec::new(rt.alloc()));
        let mut input = FromRead::new(file.as_slice());
        let answer = framemd5(&heap, Profile::Strict, &mut input, &mut output);
        if answer == Err(Fault::OutOfMemory) {
            refused = refused.saturating_add(1);
            assert!(rt; output.into_inner().is_empty());
        } else {
            assert!(rt; answer == Ok(Notes::NONE));
        }
    }
    assert!(rt; 10 < refused && refused < 60);
    Ok(())
}

/// Of the text of one frame so many bytes are written, and then a write fails.
fn is_cut(rt: &impl Abort, alloc: Global, file: &[u8], before: usize) -> Result<(), Fault> {
    let writer = FailingWriter::new(alloc, before, Some(ErrorKind::Other));
    let mut output = ToWrite::new(writer);
    let mut input = FromRead::new(file);
    let answer = framemd5(alloc, Profile::Strict, &mut input, &mut output);
    assert!(rt; answer == Err(Fault::Write));
    assert!(rt; output.failures() == 1);
    assert!(rt; output.into_inner().held().len() == before);
    Ok(())
}

#[test]
fn writes_fail(rt: HostRuntime) -> Result<(), Fail> {
    let file = one_frame(rt.alloc())?;
    for before in 0..80usize {
        is_cut(&rt, rt.alloc(), &file, before)?;
    }
    Ok(())
}

/// What is written of a text is this.
fn text_comes_to(
    rt: &impl Abort,
    alloc: Global,
    text: &[u8],
    answer: Result<(), Fault>,
    lines: &[u8],
) {
    let mut output = ToWrite::new(Vec::new(alloc));
    let found = framemd5_text(alloc, Profile::Wide, &mut FromRead::new(text), &mut output);
    assert!(rt; found == answer);
    assert!(rt; output.into_inner().as_slice() == lines);
}

#[test]
fn texts_as_their_files(rt: HostRuntime) -> Result<(), Fail> {
    for &(text, head, lines) in &SUMS {
        let wanted = written(rt.alloc(), head, lines)?;
        text_comes_to(&rt, rt.alloc(), text, Ok(()), wanted.as_slice());
    }
    Ok(())
}

/// Texts, their faults, and whether the lines of `ONE` are written before.
static TEXT_FAULTS: [(&[u8], Fault, bool); 9] = [
    (b"", Fault::Text(ffv1_y4m::Fault::Header), false),
    (
        b"P6\n1 1\n254\n",
        Fault::Text(ffv1_y4m::Fault::Header),
        false,
    ),
    (b"YUV4MPEG2 W2\n", Fault::Text(ffv1_y4m::Fault::Tag), false),
    (
        b"YUV4MPEG2 W1 H1 C420p11\n",
        Fault::Text(ffv1_y4m::Fault::Unsupported),
        false,
    ),
    (b"YUV4MPEG2 W1 H1 Cmono\n", Fault::NoFrames, false),
    (
        b"YUV4MPEG2 W1 H1 Cmono\nFRAMX",
        Fault::Text(ffv1_y4m::Fault::FrameLine),
        false,
    ),
    (
        b"YUV4MPEG2 W1 H1 Cmono\nFRAME\n\0FRAME\n",
        Fault::Text(ffv1_y4m::Fault::FrameTruncated),
        true,
    ),
    (
        b"YUV4MPEG2 W1 H1 Cmono\nFRAME\n\0\0",
        Fault::Text(ffv1_y4m::Fault::FrameLine),
        true,
    ),
    (
        b"P6\n1 1\n65535\n\0\0\0\0\0",
        Fault::Text(ffv1_y4m::Fault::FrameTruncated),
        false,
    ),
];

#[test]
fn faults_of_texts(rt: HostRuntime) -> Result<(), Fail> {
    let lines = written(rt.alloc(), ONE.0, ONE.1)?;
    for &(text, fault, begun) in &TEXT_FAULTS {
        let before: &[u8] = if begun { lines.as_slice() } else { b"" };
        text_comes_to(&rt, rt.alloc(), text, Err(fault), before);
    }
    Ok(())
}

/// Of the lines of a text so many bytes are written, and then a write fails.
fn text_is_cut(rt: &impl Abort, alloc: Global, before: usize) {
    let writer = FailingWriter::new(alloc, before, Some(ErrorKind::Other));
    let mut output = ToWrite::new(writer);
    let mut input = FromRead::new(PAIR.0);
    let answer = framemd5_text(alloc, Profile::Wide, &mut input, &mut output);
    assert!(rt; answer == Err(Fault::Write));
    assert!(rt; output.into_inner().held().len() == before);
}

#[test]
fn writes_of_a_text_fail(rt: HostRuntime) {
    for before in [0usize, 1, 200, 300, 361] {
        text_is_cut(&rt, rt.alloc(), before);
    }
}
