//! Frames of a small picture.

use ffv1_codec::{FrameCounts, FrameDecoder, FrameEncoder, Info, KeepLines, Picture};
use ffv1_doubles::made;
use ffv1_record::Checked;
use std::alloc::Global;
use std::process::Abort;
use std::test::Fail;

/// The frame of four samples, progressive and as wide as high.
static PROGRESSIVE: [u8; 10] = [0xfc, 0x16, 0x51, 0xb4, 0xdd, 0x9e, 0xc2, 0x00, 0x00, 0x07];

/// Pictures of one plane of 2 by 2 samples.
fn square(alloc: Global) -> Result<Checked, Fail> {
    let checked = made::mono(alloc, 2, 2, 1, false)?.check()?;
    Ok(checked)
}

/// The picture of four samples.
fn four(alloc: Global, checked: &Checked) -> Result<Picture, Fail> {
    let mut planes = Vec::new(alloc);
    planes.push([10u8, 20, 30, 40].to_vec(alloc)?)?;
    let Some(picture) = Picture::new(checked, planes) else {
        return Err(Fail::new("no picture"));
    };
    Ok(picture)
}

/// Whether the four samples, of which this is said, have this frame by an encoder.
fn has_frame(
    encoder: &mut FrameEncoder,
    picture: &Picture,
    said: (u8, u16, u16),
    frame: &[u8],
) -> Result<bool, Fail> {
    let Some(info) = Info::new(said.0, said.1, said.2) else {
        return Err(Fail::new("no info"));
    };
    if !picture.fits(encoder.config()) {
        return Err(Fail::new("another picture"));
    }
    let made = encoder.encode(picture, info)?;
    Ok(made.as_slice() == frame)
}

/// The decisions and the renormalisations that are counted.
fn counted(encoder: &FrameEncoder) -> (u64, u64) {
    let FrameCounts {
        decisions,
        renormalisations,
    } = encoder.counts();
    (decisions, renormalisations)
}

/// An encoder gives a frame twice, and counts each anew; and then one of which more is said.
fn gives_each(rt: &impl Abort, encoder: &mut FrameEncoder, picture: &Picture) -> Result<(), Fail> {
    let frame = b"\xFE\x6C\xAF\x59\x7A\x88\x00\x00\x06".as_slice();
    assert!(rt; counted(encoder) == (0, 0));
    assert!(rt; has_frame(encoder, picture, (0, 0, 0), frame)?);
    assert!(rt; has_frame(encoder, picture, (0, 0, 0), frame)?);
    assert!(rt; counted(encoder) == (38, 5));
    assert!(rt; has_frame(encoder, picture, (3, 1, 1), &PROGRESSIVE)?);
    Ok(())
}

#[test]
fn by_one_encoder(rt: HostRuntime) -> Result<(), Fail> {
    let checked = square(rt.alloc())?;
    let picture = four(rt.alloc(), &checked)?;
    let mut encoder = FrameEncoder::new(rt.alloc(), checked);
    gives_each(&rt, &mut encoder, &picture)
}

/// It is decoded into its four samples, and what is said of them.
fn decodes(
    rt: &impl Abort,
    decoder: &mut FrameDecoder,
    sink: &mut KeepLines,
    frame: &[u8],
) -> Result<(), Fail> {
    let Ok(info) = decoder.decode(frame, sink) else {
        return Err(Fail::new("not decoded"));
    };
    assert!(rt; (info.structure(), info.sar_num(), info.sar_den()) == (3, 1, 1));
    assert!(rt; sink.planes().len() == 1);
    for plane in sink.planes() {
        assert!(rt; plane.as_slice() == [10, 20, 30, 40].as_slice());
    }
    Ok(())
}

#[test]
fn is_decoded(rt: HostRuntime) -> Result<(), Fail> {
    let checked = square(rt.alloc())?;
    let mut sink = KeepLines::new(rt.alloc(), &checked)?;
    let mut decoder = FrameDecoder::new(rt.alloc(), checked)?;
    decodes(&rt, &mut decoder, &mut sink, &PROGRESSIVE)
}
