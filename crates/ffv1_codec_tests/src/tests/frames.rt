//! Memory that is refused to an encoder and to a decoder of frames, at every request.

use ffv1_codec::{
    CodecFault, DropLines, FrameCounts, FrameDecoder, FrameEncoder, Info, KeepLines, Picture,
};
use ffv1_doubles::{Scarce, made};
use ffv1_record::{Checked, Colour};
use std::alloc::{Allocator, Global};
use std::process::Abort;

/// What is encoded: square pictures of these planes, in one slice, and their frame, whose residuals
/// take so many decisions.
#[derive(Clone, Copy)]
struct Kind<'a> {
    size: u32,
    colour: Colour,
    ec: bool,
    planes: &'a [&'a [u8]],
    frame: &'a [u8],
    decisions: u64,
}

/// The sample 0, with a parity.
static GUARDED: Kind<'static> = Kind {
    size: 1,
    colour: Colour::YCbCr,
    ec: true,
    planes: &[&[0]],
    frame: b"\xFE\x7B\x00\x00\x02\x00\x94\x8C\x13\x3C",
    decisions: 1,
};

/// Four samples.
static FOUR: Kind<'static> = Kind {
    size: 2,
    colour: Colour::YCbCr,
    ec: false,
    planes: &[&[10, 20, 30, 40]],
    frame: b"\xFE\x6C\xAF\x59\x7A\x88\x00\x00\x06",
    decisions: 38,
};

/// A red sample.
static RED: Kind<'static> = Kind {
    size: 1,
    colour: Colour::Rct,
    ec: false,
    planes: &[&[255], &[0], &[0]],
    frame: b"\xFE\x78\xDF\x83\xD9\x2C\x00\x00\x06",
    decisions: 35,
};

/// Pictures of a kind.
fn pictures<A: Allocator + Copy>(alloc: A, kind: &Kind<'_>) -> Option<Checked<A>> {
    let mut config = made::mono(alloc, kind.size, kind.size, 1, kind.ec).ok()?;
    config.colour = kind.colour;
    config.chroma_planes = kind.planes.len() > 1;
    config.check().ok()
}

/// The picture of a kind.
fn picture<A: Allocator + Copy>(
    alloc: A,
    checked: &Checked<A>,
    kind: &Kind<'_>,
) -> Option<Picture<A>> {
    let mut planes = Vec::new(alloc);
    for samples in kind.planes {
        planes.push(Vec::from_slice(alloc, *samples).ok()?).ok()?;
    }
    Picture::new(checked, planes)
}

/// What a call comes to.
#[derive(Clone, Copy, Debug, PartialEq, Eq)]
enum Came {
    /// The frame, or its picture.
    Frame,
    /// A refusal.
    Refusal,
    /// Something else.
    Other,
}

/// The frame of a picture.
fn encoded<A: Allocator + Copy>(
    encoder: &mut FrameEncoder<A>,
    picture: &Picture<A>,
    info: Info,
    wanted: &[u8],
) -> Came {
    if !picture.fits(encoder.config()) {
        return Came::Other;
    }
    match encoder.encode(picture, info) {
        Ok(frame) => {
            if frame.as_slice() == wanted {
                Came::Frame
            } else {
                Came::Other
            }
        }
        Err(CodecFault::OutOfMemory) => Came::Refusal,
        Err(_) => Came::Other,
    }
}

/// What the first frame comes to, and the second.
fn two_frames<A: Allocator + Copy>(alloc: A, kind: &Kind<'_>) -> Option<(Came, Came, FrameCounts)> {
    let checked = pictures(alloc, kind)?;
    let picture = picture(alloc, &checked, kind)?;
    let info = Info::new(0, 0, 0)?;
    let mut encoder = FrameEncoder::new(alloc, checked);
    let first = encoded(&mut encoder, &picture, info, kind.frame);
    let counts = encoder.counts();
    let second = encoded(&mut encoder, &picture, info, kind.frame);
    Some((first, second, counts))
}

/// Whether the request to refuse is the next one.
fn refuses_next<A: Allocator>(alloc: A) -> bool {
    Vec::<u8, A>::with_capacity(alloc, 1).is_err()
}

/// What a decoder comes to, and then frames, sound and damaged; and whether it made all requests
/// before the one to refuse, and no other.
fn decoder<A: Allocator + Copy>(alloc: A, checked: Checked<A>, frame: &[u8]) -> (Came, bool) {
    let mut sink = DropLines::new(&checked);
    match FrameDecoder::new(alloc, checked) {
        Ok(mut decoder) => {
            let first = decoder.decode(frame, &mut sink).is_ok();
            let damaged = decoder.decode(b"\0\0\0", &mut sink).is_err();
            if first && damaged && decoder.decode(frame, &mut sink).is_ok() {
                (Came::Frame, refuses_next(alloc))
            } else {
                (Came::Other, false)
            }
        }
        Err(CodecFault::OutOfMemory) => (Came::Refusal, false),
        Err(_) => (Came::Other, false),
    }
}

/// The same of a kind, if the request after so many others is refused once the configuration is
/// made.
fn decoder_of(alloc: Global, kind: &Kind<'_>, before: u64) -> Option<(Came, bool)> {
    let ample = Scarce::new(alloc, u64::MAX);
    let scarce = Scarce::new(alloc, before);
    let checked = pictures(&ample, kind)?;
    Some(decoder(&scarce, checked, kind.frame))
}

/// What a sink that keeps lines comes to.
fn kept<A: Allocator + Copy>(alloc: A) -> Option<Came> {
    let checked = pictures(alloc, &GUARDED)?;
    match KeepLines::new(alloc, &checked) {
        Ok(mut sink) => {
            if sink.planes().len() == 1 {
                Some(Came::Frame)
            } else {
                Some(Came::Other)
            }
        }
        Err(CodecFault::OutOfMemory) => Some(Came::Refusal),
        Err(_) => Some(Came::Other),
    }
}

/// A decoder of a kind makes five requests when it is made.
fn makes_five(rt: &impl Abort, alloc: Global, kind: &Kind<'_>) {
    for before in 0..9u64 {
        let wanted = match before {
            0..=4 => (Came::Refusal, false),
            _ => (Came::Frame, before == 5),
        };
        assert!(rt; decoder_of(alloc, kind, before) == Some(wanted));
    }
}

/// A decoder makes five requests, one for each vector that it holds, and none when it decodes.
#[test]
fn each_request_of_a_decoder(rt: HostRuntime) {
    makes_five(&rt, rt.alloc(), &GUARDED);
    makes_five(&rt, rt.alloc(), &FOUR);
    makes_five(&rt, rt.alloc(), &RED);
}

/// Pictures of 32 by 1 in 32 columns.
fn wide<A: Allocator + Copy>(alloc: A) -> Option<Checked<A>> {
    made::mono(alloc, 32, 1, 32, false).ok()?.check().ok()
}

/// Whether the making of their decoder is refused, if the request after so many others is.
fn wide_is_refused(alloc: Global, before: u64) -> Option<bool> {
    let ample = Scarce::new(alloc, u64::MAX);
    let scarce = Scarce::new(alloc, before);
    let checked = wide(&ample)?;
    Some(FrameDecoder::new(&scarce, checked).is_err())
}

/// In many columns it makes as many.
#[test]
fn each_request_of_a_wide_decoder(rt: HostRuntime) {
    for before in 0..9u64 {
        assert!(rt; wide_is_refused(rt.alloc(), before) == Some(before < 5));
    }
}

#[test]
fn each_request_of_a_sink(rt: HostRuntime) {
    let mut refused = 0u8;
    for before in 0..60u64 {
        match kept(&Scarce::new(rt.alloc(), before)) {
            Some(Came::Refusal) => refused = refused.saturating_add(1),
            Some(Came::Other) => assert!(rt; false),
            _ => {}
        }
    }
    assert!(rt; refused == 2);
}

/// Coded bytes, one by one, and a frame of them and their footer of so many bytes.
fn gathered<A: Allocator + Copy>(alloc: A, frame: &[u8], foot: usize) -> Option<usize> {
    let (coded, footer) = frame.split_at_checked(frame.len().checked_sub(foot)?)?;
    let mut code = Vec::new(alloc);
    for byte in coded {
        code.push(*byte).ok()?;
    }
    let mut whole = Vec::new(alloc);
    whole.extend_from_slice(coded).ok()?;
    whole.extend_from_slice(footer).ok()?;
    Some(whole.len())
}

/// How many requests that takes.
fn growth(alloc: Global, frame: &[u8], foot: usize) -> u64 {
    let mut count = 0u64;
    for before in 0..20u64 {
        if gathered(&Scarce::new(alloc, before), frame, foot).is_none() {
            count = count.saturating_add(1);
        }
    }
    count
}

/// How many requests a first frame and a second one make; each that is refused is answered so, and
/// the next frame is as if by a new encoder.
fn frames_in_turn(rt: &impl Abort, alloc: Global, kind: &Kind<'_>) -> (u64, u64) {
    let (mut refused, mut again) = (0u64, 0u64);
    for before in 0..60u64 {
        match two_frames(&Scarce::new(alloc, before), kind) {
            None => assert!(rt; refused == 0),
            Some((Came::Refusal, second, counts)) => {
                assert!(rt; second == Came::Frame && counts.decisions == 0);
                refused = refused.saturating_add(1);
            }
            Some((first, second, counts)) => {
                assert!(rt; first == Came::Frame && counts.decisions == kind.decisions);
                if second == Came::Refusal {
                    again = again.saturating_add(1);
                } else {
                    assert!(rt; second == Came::Frame && again > 0);
                }
            }
        }
    }
    (refused, again)
}

/// The second frame of a kind makes requests for the growth of its code alone, of which the last
/// bytes are a footer, and the first one for its states and so many lines, too.
fn makes_requests(rt: &impl Abort, alloc: Global, kind: &Kind<'_>, foot: usize, lines: u64) {
    let grown = growth(alloc, kind.frame, foot);
    let (first, second) = frames_in_turn(rt, alloc, kind);
    assert!(rt; second == grown && first == grown.saturating_add(1).saturating_add(lines));
}

/// A warm encoder makes requests for the growth of its code alone; the first frame's are for its
/// states, too, and for three lines of each plane that is coded beside others.
#[test]
fn each_request_of_a_frame(rt: HostRuntime) {
    makes_requests(&rt, rt.alloc(), &GUARDED, 8, 3);
    makes_requests(&rt, rt.alloc(), &FOUR, 3, 3);
    makes_requests(&rt, rt.alloc(), &RED, 3, 9);
}
