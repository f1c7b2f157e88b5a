//! Videos that are packed into Matroska: what is written of a whole one, and before a fault.

use super::written_example::EXAMPLE;
use crate::tests::orders::NO_COLOUR;
use ffv1_engine::{
    Choice, CodecIdChoice, CoderChoice, Fault, PackedMatroska, Profile, pack_matroska,
};
use ffv1_reads::FileFault;
use ffv1_wire::{FromRead, ToMemory};
use std::alloc::Allocator;
use std::process::Abort;
use std::test::Fail;

const PLAIN: Choice = Choice {
    coder: CoderChoice::Standard,
    large: false,
    columns: 1,
    rows: 1,
    default_grid: false,
    ec: false,
    rate: 50,
    scale: 2,
    verify: false,
    codec_id: CodecIdChoice::Native,
    codec_id_given: false,
    rate_given: false,
    colour: NO_COLOUR,
};

/// The video of the example.
const ONE: &[u8] = b"YUV4MPEG2 W1 H1 Cmono\nFRAME\n\0";

/// Where the Cluster of its frame ends.
const BEGUN: usize = 354;

/// Texts and their faults, and whether the Cluster of the example's frame is written before.
static FAULTS: [(&[u8], Fault, bool); 9] = [
    (b"", Fault::Text(ffv1_y4m::Fault::Header), false),
    (b"YUV4MPEG2 W2\n", Fault::Text(ffv1_y4m::Fault::Tag), false),
    (b"YUV4MPEG2 W1 H1 Cmono\n", Fault::NoFrames, false),
    (
        b"YUV4MPEG2 W1 H1 F50:2 Cmono\nFRAMX",
        Fault::File(FileFault::Rate),
        false,
    ),
    (b"P6\n1 1\n255\n\0\0", Fault::File(FileFault::Rate), false),
    (
        b"YUV4MPEG2 W1 H1 Cmono\nFRAME\n",
        Fault::Text(ffv1_y4m::Fault::FrameTruncated),
        false,
    ),
    (
        b"YUV4MPEG2 W1 H1 Cmono\nFRAME\n\0FRAME\n",
        Fault::Text(ffv1_y4m::Fault::FrameTruncated),
        true,
    ),
    (
        b"YUV4MPEG2 W1 H1 Cmono\nFRAME\n\0FRAMX",
        Fault::Text(ffv1_y4m::Fault::FrameLine),
        true,
    ),
    (
        b"YUV4MPEG2 W1 H1 Cmono\nFRAME\n\0\0",
        Fault::Text(ffv1_y4m::Fault::FrameLine),
        true,
    ),
];

#[test]
fn finishes(rt: HostRuntime) -> Result<(), Fail> {
    let mut output = ToMemory::new(rt.alloc());
    let mut input = FromRead::new(ONE);
    let packed = pack_matroska(rt.alloc(), Profile::Wide, &mut input, &mut output, &PLAIN)?;
    let want = PackedMatroska {
        frames: 1,
        bytes: 5,
        finished: true,
    };
    assert!(rt; packed == want);
    assert!(rt; output.bytes() == EXAMPLE.as_slice());
    Ok(())
}

/// CodecID of Video for Windows.
const CODEC_ID: &[u8] = b"\x86\x8FV_MS/VFW/FOURCC";

/// What FFmpeg writes before a record of 26 bytes, of pictures of 1 by 1, for the codec ID of Video
/// for Windows.
const HEADER: &[u8] =
    b"\x42\0\0\0\x01\0\0\0\x01\0\0\0\x01\0\x18\0FFV1\x03\0\0\0\0\0\0\0\0\0\0\0\0\0\0\0\0\0\0\0";

#[test]
fn codec_id_of_video_for_windows(rt: HostRuntime) -> Result<(), Fail> {
    let mut output = ToMemory::new(rt.alloc());
    let mut input = FromRead::new(ONE);
    let choice = Choice {
        codec_id: CodecIdChoice::Vfw,
        ..PLAIN
    };
    let packed = pack_matroska(rt.alloc(), Profile::Wide, &mut input, &mut output, &choice)?;
    assert!(rt; packed.bytes == 5);
    assert!(rt; output.bytes().len() == 448);
    assert!(rt; output.bytes()[247..264] == CODEC_ID[..]);
    assert!(rt; output.bytes()[291..331] == HEADER[..]);
    assert!(rt; output.bytes()[331..357] == EXAMPLE[282..308]);
    Ok(())
}

/// A refused text: its fault, and what is written before it.
fn refuses<A: Allocator + Copy>(rt: &impl Abort, alloc: A, text: &[u8], fault: Fault, begun: bool) {
    let mut output = ToMemory::new(alloc);
    let mut input = FromRead::new(text);
    let answer = pack_matroska(alloc, Profile::Wide, &mut input, &mut output, &PLAIN);
    assert!(rt; answer == Err(fault));
    if begun {
        assert!(rt; output.bytes().len() == BEGUN);
        assert!(rt; output.bytes()[200..] == EXAMPLE[200..BEGUN]);
    } else {
        assert!(rt; output.bytes().is_empty());
    }
}

#[test]
fn faults(rt: HostRuntime) {
    for (text, fault, begun) in FAULTS {
        refuses(&rt, rt.alloc(), text, fault, begun);
    }
}
