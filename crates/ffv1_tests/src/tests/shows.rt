//! What `show` writes of files over memory, and its faults. The lines are those of the model, in
//! `model/known_answers/shown.py`.

use ffv1_avi::write_avi;
use ffv1_codec::CodecFault;
use ffv1_doubles::made;
use ffv1_engine::{Fault, Profile, show};
use ffv1_plane::QuantSet;
use ffv1_reads::{FileFault, FileHead};
use ffv1_record::{Coder, Colour, Config, RecordFault, Sets, write_record};
use ffv1_wire::{FromRead, ToWrite};
use std::alloc::Global;
use std::process::Abort;
use std::test::Fail;

/// The lines of mono pictures of 1 by 1.
const MONO: &[u8] = b"size 1x1\ncoder 1\ncolour YCbCr\nchroma mono\nslices 1x1\ncontexts 666\n\
        ec 0\nintra 1\nrate 25/1\n\
        held states 21312 samples 3 output 1 columns 1 offsets 1025\n";

/// Those of images of 1 by 1.
static IMAGE: &[u8] = b"size 1x1\ncoder 1\ncolour RCT\nchroma 0,0\nslices 1x1\ncontexts 666\n\
        ec 0\nintra 1\nrate 25/1\n\
        held states 42624 samples 9 output 3 columns 1 offsets 1025\n";

/// Those of images of 352 by 2 in two columns, with transparency and two sets.
static WIDE: &[u8] = b"size 352x2\ncoder 1\ncolour RCT\nchroma 0,0\nextra 1\nslices 2x1\n\
        contexts 666 666\nec 1\nintra 0\nrate 30000/1001\n\
        held states 127872 samples 4224 output 1408 columns 2 offsets 1025\n";

/// Those of 4:2:0 with deltas, of 4 by 6 in two columns and three rows, of the large set.
static CHROMA: &[u8] = b"size 4x6\ncoder 2\ncolour YCbCr\nchroma 1,0\nslices 2x3\n\
        contexts 16638\nnote other programs refuse sets of more than 16384 contexts\nec 0\n\
        intra 1\nrate 0/0\n\
        held states 2129664 samples 12 output 4 columns 2 offsets 1025\n";

/// A frame of a mono picture of 1 by 1, and the line of what it costs.
const FRAME: &[u8] = b"\xFE\x7B\x00\x00\x02";

static COST: &[u8] = b"cost frame 0: ones 11 zeros 0 renormalisations 1\n";

/// Mono pictures of 1 by 1, without parity.
fn mono(alloc: Global) -> Result<Config, RecordFault> {
    made::mono(alloc, 1, 1, 1, false)
}

/// A file of this rate and scale, and of so many of these frames.
pub(super) fn file_of(
    alloc: Global,
    config: Config,
    rate: u32,
    scale: u32,
    frame: &[u8],
    count: usize,
) -> Result<Vec<u8>, Fault> {
    let (width, height) = (config.width, config.height);
    let checked = config.check()?;
    let head = FileHead {
        width,
        height,
        rate,
        scale,
        colour: ffv1_reads::Colour::UNSAID,
        config_record: write_record(alloc, &checked)?,
    };
    let mut frames = Vec::new(alloc);
    for _frame in 0..count {
        frames.push(Vec::from_slice(alloc, frame)?)?;
    }
    let mut out = ToWrite::new(Vec::new(alloc));
    if width > 8192 || height > 8192 {
        return Err(Fault::Record(RecordFault::Size));
    }
    write_avi(&mut out, &head, frames.as_slice())?;
    Ok(out.into_inner())
}

/// What is answered of a file, and written.
fn shown(alloc: Global, file: &[u8], cost: bool) -> (Result<(), Fault>, Vec<u8>) {
    let mut output = ToWrite::new(Vec::new(alloc));
    let answer = show(
        alloc,
        Profile::Strict,
        &mut FromRead::new(file),
        &mut output,
        cost,
    );
    (answer.map(|_| ()), output.into_inner())
}

/// A file is answered so, and these lines and others are written.
fn shows(
    rt: &impl Abort,
    alloc: Global,
    file: &[u8],
    cost: bool,
    answer: Result<(), Fault>,
    lines: (&[u8], &[u8]),
) {
    let (found, written) = shown(alloc, file, cost);
    assert!(rt; found == answer);
    assert!(rt; written.len() == lines.0.len().saturating_add(lines.1.len()));
    assert!(rt; written.as_slice().starts_with(lines.0));
    assert!(rt; written.as_slice().ends_with(lines.1));
}

#[test]
fn an_image(rt: HostRuntime) -> Result<(), Fail> {
    let mut config = mono(rt.alloc())?;
    config.colour = Colour::Rct;
    config.chroma_planes = true;
    let file = file_of(rt.alloc(), config, 25, 1, b"", 0)?;
    shows(&rt, rt.alloc(), &file, false, Ok(()), (IMAGE, b""));
    shows(&rt, rt.alloc(), &file, true, Ok(()), (IMAGE, b""));
    Ok(())
}

#[test]
fn transparency(rt: HostRuntime) -> Result<(), Fail> {
    let mut config = mono(rt.alloc())?;
    config.width = 352;
    config.height = 2;
    config.columns = 2;
    config.colour = Colour::Rct;
    config.chroma_planes = true;
    config.extra_plane = true;
    config.sets.push(QuantSet::small(rt.alloc())?)?;
    config.ec = true;
    config.intra = false;
    let file = file_of(rt.alloc(), config, 30000, 1001, b"", 0)?;
    shows(&rt, rt.alloc(), &file, false, Ok(()), (WIDE, b""));
    Ok(())
}

#[test]
fn chroma_and_deltas(rt: HostRuntime) -> Result<(), Fail> {
    let mut config = mono(rt.alloc())?;
    config.width = 4;
    config.height = 6;
    config.columns = 2;
    config.rows = 3;
    config.coder = Coder::Two([0; 255]);
    config.chroma_planes = true;
    config.log2_h = 1;
    let mut sets = Sets::new(rt.alloc());
    sets.push(QuantSet::large(rt.alloc())?)?;
    config.sets = sets;
    let file = file_of(rt.alloc(), config, 0, 0, b"", 0)?;
    shows(&rt, rt.alloc(), &file, false, Ok(()), (CHROMA, b""));
    Ok(())
}

#[test]
fn costs(rt: HostRuntime) -> Result<(), Fail> {
    let file = file_of(rt.alloc(), mono(rt.alloc())?, 25, 1, FRAME, 1)?;
    shows(&rt, rt.alloc(), &file, false, Ok(()), (MONO, b""));
    shows(&rt, rt.alloc(), &file, true, Ok(()), (MONO, COST));
    Ok(())
}

#[test]
fn faults(rt: HostRuntime) -> Result<(), Fail> {
    let file = file_of(rt.alloc(), mono(rt.alloc())?, 25, 1, b"\x00\x00\x00", 1)?;
    shows(&rt, rt.alloc(), &file, false, Ok(()), (MONO, b""));
    shows(
        &rt,
        rt.alloc(),
        &file,
        true,
        Err(Fault::Codec(CodecFault::NotKey)),
        (MONO, b""),
    );
    let file = file_of(rt.alloc(), mono(rt.alloc())?, 25, 1, b"", 1)?;
    shows(
        &rt,
        rt.alloc(),
        &file,
        true,
        Err(Fault::File(FileFault::EmptyFrame)),
        (MONO, b""),
    );
    shows(
        &rt,
        rt.alloc(),
        b"RIFX",
        false,
        Err(Fault::File(FileFault::Truncated)),
        (b"", b""),
    );
    shows(
        &rt,
        rt.alloc(),
        b"RIFX\x04\x00\x00\x00AVI ",
        true,
        Err(Fault::File(FileFault::NotAvi)),
        (b"", b""),
    );
    Ok(())
}
