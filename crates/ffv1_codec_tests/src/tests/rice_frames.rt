//! Frames of Golomb-Rice coded samples that are known from outside the program.

use ffv1_codec::{CodecFault, FrameDecoder, FrameFault, KeepLines};
use ffv1_doubles::made;
use ffv1_plane::QuantSet;
use ffv1_record::{Checked, Coder, Colour, Profile};
use std::alloc::Global;
use std::test::Fail;

/// How pictures are made of slices and planes.
#[derive(Clone, Copy)]
struct Form {
    width: u32,
    height: u32,
    colour: Colour,
    has_chroma: bool,
    has_transparency: bool,
    log2: (u32, u32),
    columns: u32,
    ec: bool,
    has_large_set: bool,
}

/// Pictures of one plane, in one slice.
fn mono(width: u32, height: u32) -> Form {
    Form {
        width,
        height,
        colour: Colour::YCbCr,
        has_chroma: false,
        has_transparency: false,
        log2: (0, 0),
        columns: 1,
        ec: false,
        has_large_set: false,
    }
}

/// The same of a configuration with two sets.
fn two_sets(width: u32, height: u32) -> Form {
    let mut form = mono(width, height);
    form.has_large_set = true;
    form
}

/// Pictures of one plane, in slices beside one another, with parity.
fn columns(width: u32, height: u32, columns: u32) -> Form {
    let mut form = mono(width, height);
    form.columns = columns;
    form.ec = true;
    form
}

/// Pictures of Y, Cb and Cr, and of transparency.
fn chroma(width: u32, height: u32, log2: (u32, u32), has_transparency: bool) -> Form {
    let mut form = mono(width, height);
    form.has_chroma = true;
    form.has_transparency = has_transparency;
    form.log2 = log2;
    form
}

/// Pictures of red, green and blue, and of transparency.
fn rct(width: u32, height: u32, has_transparency: bool) -> Form {
    let mut form = chroma(width, height, (0, 0), has_transparency);
    form.colour = Colour::Rct;
    form
}

/// Their configuration.
fn checked(alloc: Global, form: &Form) -> Result<Checked, Fail> {
    let mut config = made::mono(alloc, form.width, form.height, form.columns, form.ec)?;
    if form.has_large_set {
        let large = QuantSet::large(alloc)?;
        config.sets.push(large)?;
    }
    config.coder = Coder::Rice;
    config.colour = form.colour;
    config.chroma_planes = form.has_chroma;
    config.extra_plane = form.has_transparency;
    config.log2_h = form.log2.0;
    config.log2_v = form.log2.1;
    let checked = config.check_in(Profile::Wide, 8, 16)?;
    Ok(checked)
}

/// What is kept of a payload's picture, plane after plane, is these samples.
fn has_samples(keep: &mut KeepLines, samples: &[u8]) -> bool {
    let mut left = samples;
    let mut is_same = true;
    for plane in keep.planes() {
        match left.strip_prefix(plane.as_slice()) {
            Some(rest) => left = rest,
            None => is_same = false,
        }
    }
    is_same && left.is_empty()
}

/// Whether a payload is decoded to these samples.
fn keeps(alloc: Global, form: Form, payload: &[u8], samples: &[u8]) -> Result<bool, Fail> {
    let checked = checked(alloc, &form)?;
    let mut keep = KeepLines::new(alloc, &checked)?;
    let mut decoder = FrameDecoder::new(alloc, checked)?;
    let is_ok = decoder.decode(payload, &mut keep).is_ok();
    Ok(is_ok && has_samples(&mut keep, samples))
}

/// The fault of a payload, and its place: line and sample of the first plane.
fn refused(
    alloc: Global,
    form: Form,
    payload: &[u8],
) -> Result<Option<(CodecFault, u16, u16)>, Fail> {
    let checked = checked(alloc, &form)?;
    let mut keep = KeepLines::new(alloc, &checked)?;
    let mut decoder = FrameDecoder::new(alloc, checked)?;
    match decoder.decode(payload, &mut keep) {
        Ok(_) => Ok(None),
        Err(FrameFault { fault, line, x, .. }) => Ok(Some((fault, line, x))),
    }
}

/// Of one plane.
#[test]
fn planes(rt: HostRuntime) -> Result<(), Fail> {
    let alloc = rt.alloc();
    // mono 1 by 1, 0
    let got = keeps(alloc, mono(1, 1), &[0xFC, 0x9B, 0x80, 0, 0, 3], &[0])?;
    assert!(rt; got);
    // the same, 255
    let got = keeps(alloc, mono(1, 1), &[0xFC, 0x9B, 0x50, 0, 0, 3], &[255])?;
    assert!(rt; got);
    // the same, 128: an escape
    let got = keeps(
        alloc,
        mono(1, 1),
        &[0xFC, 0x9B, 0, 7, 0xA0, 0, 0, 5],
        &[128],
    )?;
    assert!(rt; got);
    // mono 4 by 2, all 0: a run a line, the index goes on
    let got = keeps(
        alloc,
        mono(4, 2),
        &[0xFC, 0x9B, 0xFC, 0, 0, 3],
        &[0, 0, 0, 0, 0, 0, 0, 0],
    )?;
    assert!(rt; got);
    // mono 4 by 2, all 5
    let got = keeps(
        alloc,
        mono(4, 2),
        &[0xFC, 0x9B, 0x12, 0x54, 0xE0, 0, 0, 5],
        &[5, 5, 5, 5, 5, 5, 5, 5],
    )?;
    assert!(rt; got);
    // mono 12 by 2, 0 but the last but one, 9: run of 10 and a lower part
    let got = keeps(
        alloc,
        mono(12, 2),
        &[0xFC, 0x9B, 0xFF, 0xD0, 0x40, 0xA0, 0, 0, 6],
        &[
            0, 0, 0, 0, 0, 0, 0, 0, 0, 0, 0, 0, 0, 0, 0, 0, 0, 0, 0, 0, 0, 0, 9, 0,
        ],
    )?;
    assert!(rt; got);
    // mono 5 by 1, 0 0 0 0 0: the last 1 is of a run that is not whole
    let got = keeps(
        alloc,
        mono(5, 1),
        &[0xFC, 0x9B, 0xF8, 0, 0, 3],
        &[0, 0, 0, 0, 0],
    )?;
    assert!(rt; got);
    // mono 6 by 1, 0 0 0 0 3 0
    let got = keeps(
        alloc,
        mono(6, 1),
        &[0xFC, 0x9B, 0xF1, 0x14, 0, 0, 4],
        &[0, 0, 0, 0, 3, 0],
    )?;
    assert!(rt; got);
    // mono 3 by 2, (10, 20, 10) and (200, 3, 90): turned contexts
    let got = keeps(
        alloc,
        mono(3, 2),
        &[
            0xFC, 0x9B, 6, 4, 0x0E, 0, 0x0F, 0x20, 0, 0xD6, 0, 0x14, 0x60, 0, 0, 0x0D,
        ],
        &[10, 20, 10, 200, 3, 90],
    )?;
    assert!(rt; got);
    // mono 16 by 1, 1 2 3 .. 16: drift and bias
    let got = keeps(
        alloc,
        mono(16, 1),
        &[0xFC, 0x9B, 0x4D, 0xA5, 0xA5, 0x7D, 0x28, 0, 0, 7],
        &[1, 2, 3, 4, 5, 6, 7, 8, 9, 10, 11, 12, 13, 14, 15, 16],
    )?;
    assert!(rt; got);
    // mono 1 by 1, 0, structure 3, aspect 9:3: the sentinel is read as 1
    let got = keeps(alloc, mono(1, 1), &[0xFC, 0x25, 0x32, 0x80, 0, 0, 4], &[0])?;
    assert!(rt; got);
    // mono 4 by 2, all 0, the head ended by one more than the least number
    let got = keeps(
        alloc,
        mono(4, 2),
        &[0xFC, 0x9C, 0xFC, 0, 0, 3],
        &[0, 0, 0, 0, 0, 0, 0, 0],
    )?;
    assert!(rt; got);
    Ok(())
}

/// Of several planes, slices or sets.
#[test]
fn colours(rt: HostRuntime) -> Result<(), Fail> {
    let alloc = rt.alloc();
    // the same by the second set of two, 7563 contexts
    let got = keeps(
        alloc,
        two_sets(3, 2),
        &[
            0xF4, 0xD3, 6, 0x0E, 8, 0, 0x0F, 0x20, 0, 0xD4, 0, 0x14, 0x40, 0, 0, 0x0D,
        ],
        &[10, 20, 10, 200, 3, 90],
    )?;
    assert!(rt; got);
    // 4:2:0 2 by 2, Y 1 2 3 4, Cb 128, Cr 130: Cr by the states of Cb
    let got = keeps(
        alloc,
        chroma(2, 2, (1, 1), false),
        &[0xFC, 0x9B, 0x4D, 0xE8, 0, 0x3D, 0x0F, 0x90, 0, 0, 8],
        &[1, 2, 3, 4, 128, 130],
    )?;
    assert!(rt; got);
    // 4:2:2 4 by 1, all 0: the index is 0 again in each plane
    let got = keeps(
        alloc,
        chroma(4, 1, (1, 0), false),
        &[0xFC, 0x9B, 0xFF, 0, 0, 3],
        &[0, 0, 0, 0, 0, 0, 0, 0],
    )?;
    assert!(rt; got);
    // 4:4:4 1 by 1 with transparency 255
    let got = keeps(
        alloc,
        chroma(1, 1, (0, 0), true),
        &[0xFD, 0x71, 0, 0xC0, 0, 0xF4, 0x3F, 0x54, 0, 0, 8],
        &[16, 128, 128, 255],
    )?;
    assert!(rt; got);
    // RCT 1 by 1, (255, 0, 0): 9 bits
    let got = keeps(
        alloc,
        rct(1, 1, false),
        &[0xFC, 0x9B, 0, 1, 0xC4, 0, 0x1F, 0x44, 0, 0, 0, 9],
        &[255, 0, 0],
    )?;
    assert!(rt; got);
    // RCT 4 by 2, black: the index goes on from plane to plane
    let got = keeps(
        alloc,
        rct(4, 2, false),
        &[0xFC, 0x9B, 0xF0, 0, 0x3E, 0x98, 0xFE, 0xFF, 0, 0, 8],
        &[
            0, 0, 0, 0, 0, 0, 0, 0, 0, 0, 0, 0, 0, 0, 0, 0, 0, 0, 0, 0, 0, 0, 0, 0,
        ],
    )?;
    assert!(rt; got);
    // RCT 2 by 1, black, with transparency 255
    let got = keeps(
        alloc,
        rct(2, 1, true),
        &[
            0xFD, 0x71, 0xC0, 1, 0xF4, 0x9F, 0xD8, 0, 0x3E, 0x30, 0, 0, 0x0A,
        ],
        &[0, 0, 0, 0, 0, 0, 255, 255],
    )?;
    assert!(rt; got);
    // mono 4 by 2, two columns, ec 1, 7 but the last, 0
    let got = keeps(
        alloc,
        columns(4, 2, 2),
        &[
            0xFC, 0x9B, 9, 0x24, 0, 0, 4, 0, 0x46, 0x3D, 0xA8, 0x7B, 0x3E, 0x3D, 9, 0x21, 0xE0, 0,
            0, 5, 0, 0x44, 0xCD, 0, 0x87,
        ],
        &[7, 7, 7, 7, 7, 7, 7, 0],
    )?;
    assert!(rt; got);
    Ok(())
}

/// What no encoder writes.
#[test]
fn refusals(rt: HostRuntime) -> Result<(), Fail> {
    let alloc = rt.alloc();
    // mono 4 by 2, bits 111111, then padding of a 1
    let got = refused(alloc, mono(4, 2), &[0xFC, 0x9B, 0xFD, 0, 0, 3])?;
    assert!(rt; got == Some((CodecFault::Padding, 1, 0)));
    // the same and a byte 00 more
    let got = refused(alloc, mono(4, 2), &[0xFC, 0x9B, 0xFC, 0, 0, 0, 4])?;
    assert!(rt; got == Some((CodecFault::Padding, 1, 0)));
    // the same without its bits
    let got = refused(alloc, mono(4, 2), &[0xFC, 0x9B, 0, 0, 2])?;
    assert!(rt; got == Some((CodecFault::BitsEnd, 0, 0)));
    // an escape of 11, which is 1 11 by k = 2
    let got = refused(alloc, mono(4, 2), &[0xFC, 0x9B, 0, 0, 7, 0xE0, 0, 0, 6])?;
    assert!(rt; got == Some((CodecFault::BadCode, 0, 0)));
    // an escape of 256
    let got = refused(alloc, mono(4, 2), &[0xFC, 0x9B, 0, 7, 0xAF, 0xF8, 0, 0, 6])?;
    assert!(rt; got == Some((CodecFault::BadCode, 0, 0)));
    // behind a run the number of 127, whose difference is 128
    let got = refused(alloc, mono(4, 2), &[0xFC, 0x9B, 0, 7, 0x9F, 0xF8, 0, 0, 6])?;
    assert!(rt; got == Some((CodecFault::BadCode, 0, 0)));
    // mono 5 by 1, bits 1111 0 1: a run of 1 that is broken, where one sample is left
    let got = refused(alloc, mono(5, 1), &[0xFC, 0x9B, 0xF4, 0, 0, 3])?;
    assert!(rt; got == Some((CodecFault::BadCode, 0, 4)));
    Ok(())
}
