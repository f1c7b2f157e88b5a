//! What a trial prints, computed outside the program from the standard's text, and its faults.

ghost use Rattle.std.specs.Prelude.{◌≤◌};

use ffv1_engine::{Fault, Order, code_plane, trial, words};
use ffv1_wire::{FromRead, ToWrite};
use std::alloc::Global;
use std::process::Abort;
use std::test::Fail;

/// What a trial of a text writes.
fn trial_of(alloc: Global, text: &[u8]) -> Result<Vec<u8>, Fault> {
    let mut input = FromRead::new(text);
    let mut output = ToWrite::new(Vec::new(alloc));
    trial(alloc, &mut input, &mut output)?;
    Ok(output.into_inner())
}

fn prints(rt: &impl Abort, alloc: Global, text: &[u8], printed: &[u8]) -> Result<(), Fault> {
    let written = trial_of(alloc, text)?;
    assert!(rt; written.as_slice() == printed);
    Ok(())
}

fn refuses(rt: &impl Abort, alloc: Global, text: &[u8], fault: Fault) {
    assert!(rt; trial_of(alloc, text).err() == Some(fault));
}

/// The lines of the example of `ffv1_engine`.
#[test]
fn example(rt: HostRuntime) -> Result<(), Fail> {
    let input = b"YUV4MPEG2 W1 H1 Cmono\nFRAME\n\x80".as_slice();
    let mut output = ToWrite::new(Vec::new(rt.alloc()));
    let order = words(rt.alloc(), &["ffv1", "trial", "disc.y4m"]).ok();
    assert!(rt; order == Some(Order::Trial { input: "disc.y4m" }));
    trial(rt.alloc(), &mut FromRead::new(input), &mut output)?;
    let lines = output.into_inner();
    assert!(rt; lines.as_slice() == b"samples 1\ndecisions 17\ncode 7E8180\nsame yes\n".as_slice());
    Ok(())
}

/// Texts, and what a trial of them prints.
static PRINTED: [(&[u8], &[u8]); 6] = [
    (
        b"YUV4MPEG2 W1 H1 Cmono\nFRAME\n\x80",
        b"samples 1\ndecisions 17\ncode 7E8180\nsame yes\n",
    ),
    (
        b"YUV4MPEG2 W1 H1 Cmono\nFRAME\n\x00",
        b"samples 1\ndecisions 1\ncode 80\nsame yes\n",
    ),
    (
        b"YUV4MPEG2 W1 H1 Cmono\nFRAME\n\xFF",
        b"samples 1\ndecisions 3\ncode 20\nsame yes\n",
    ),
    (
        b"YUV4MPEG2 W1 H1 Cmono\nFRAME\n\x04",
        b"samples 1\ndecisions 7\ncode 5FA0\nsame yes\n",
    ),
    (
        b"YUV4MPEG2 W1 H2 Cmono\nFRAME\n\x0A\x1E",
        b"samples 2\ndecisions 20\ncode 71CA54\nsame yes\n",
    ),
    (
        b"YUV4MPEG2 H2 F30000:1001 Ip A0:0 XYSCSS=MONO XCOLORRANGE=FULL W2 \
            Cmono\nFRAME\n\x0A\x14\x1E\x28behind",
        b"samples 4\ndecisions 38\ncode 71C6E52D49\nsame yes\n",
    ),
];

#[test]
fn pictures(rt: HostRuntime) -> Result<(), Fail> {
    for &(text, printed) in &PRINTED {
        prints(&rt, rt.alloc(), text, printed)?;
    }
    Ok(())
}

/// Texts that are refused, and why.
static REFUSED: [(&[u8], Fault); 10] = [
    (b"YUV4MPEG2 W1 H1 Cmono\n", Fault::NoFrames),
    (
        b"YUV4MPEG2 W1 H1 Cmono\nFRAME\n",
        Fault::Text(ffv1_y4m::Fault::FrameTruncated),
    ),
    (
        b"YUV4MPEG2 W1 H1 Cmono\nFRA",
        Fault::Text(ffv1_y4m::Fault::FrameTruncated),
    ),
    (
        b"YUV4MPEG2 W1 H1 Cmono\nFRAME X\n\x80",
        Fault::Text(ffv1_y4m::Fault::FrameLine),
    ),
    (
        b"YUV4MPEG2 W1 H1\nFRAME\n\x80",
        Fault::Text(ffv1_y4m::Fault::Unsupported),
    ),
    (
        b"YUV4MPEG2 W1 H1 C420\n",
        Fault::Text(ffv1_y4m::Fault::Unsupported),
    ),
    (
        b"YUV4MPEG2 W1 C420jpeg\n",
        Fault::Text(ffv1_y4m::Fault::Tag),
    ),
    (
        b"YUV4MPEG2 W1 H0 Cmono\n",
        Fault::Text(ffv1_y4m::Fault::Tag),
    ),
    (
        b"P6\n1 1\n255\n\x01\x02\x03",
        Fault::Text(ffv1_y4m::Fault::Header),
    ),
    (b"", Fault::Text(ffv1_y4m::Fault::Header)),
];

#[test]
fn faults(rt: HostRuntime) {
    for &(text, fault) in &REFUSED {
        refuses(&rt, rt.alloc(), text, fault);
    }
}

/// How many decisions a plane of one sample value takes.
fn decisions_of(alloc: Global, width: u32, height: u32) -> Result<u64, Fault>
    requires some_wide { 1 ≤ width }
    requires wide { width ≤ 8192 }
    requires some_high { 1 ≤ height }
    requires high { height ≤ 8192 }
{
    let samples = vec![in alloc; 128u8; width as usize * height as usize]?;
    Ok(code_plane(alloc, width, height, &samples)?.decisions)
}

/// Planes of the least and the greatest sizes are coded: a plane of 128 takes 17 decisions for its
/// first sample, and one for each other.
#[test]
fn sizes(rt: HostRuntime) -> Result<(), Fail> {
    assert!(rt; decisions_of(rt.alloc(), 1, 1)? == 17);
    assert!(rt; decisions_of(rt.alloc(), 1, 8192)? == 17 + 8191);
    assert!(rt; decisions_of(rt.alloc(), 8192, 1)? == 17 + 8191);
    assert!(rt; decisions_of(rt.alloc(), 352, 288)? == 17 + 101_375);
    Ok(())
}
