//! Videos that are packed, with files and frames computed outside the program, and their faults.

use super::orders::NO_COLOUR;
use ffv1_engine::{Choice, CodecIdChoice, CoderChoice, Fault, Packed, Profile, pack};
use ffv1_record::RecordFault;
use ffv1_wire::{FromRead, ToWrite};
use std::alloc::Global;
use std::process::Abort;
use std::test::Fail;

const PLAIN: Choice = Choice {
    coder: CoderChoice::Standard,
    large: false,
    columns: 1,
    rows: 1,
    default_grid: false,
    ec: false,
    rate: 25,
    scale: 1,
    verify: false,
    codec_id: CodecIdChoice::Native,
    codec_id_given: false,
    rate_given: false,
    colour: NO_COLOUR,
};

/// A text of 4:2:0 with one picture of 2 by 2.
const TEXT: &[u8] = b"YUV4MPEG2 W2 H2 F25:1 C420mpeg2 Xa\nFRAME\n\x01\x02\x03\x04\x05\x06";

/// What was packed of a text, and the file.
fn packed(alloc: Global, text: &[u8], choice: &Choice) -> Result<(Packed, Vec<u8>), Fault> {
    let mut input = FromRead::new(text);
    let mut output = ToWrite::new(Vec::new(alloc));
    let packed = pack(alloc, Profile::Strict, &mut input, &mut output, choice)?;
    Ok((packed, output.into_inner()))
}

/// Compares how many frames and bytes of them there are, how long the file is, and its end.
fn packs(
    rt: &impl Abort,
    alloc: Global,
    text: &[u8],
    choice: &Choice,
    want: (u64, u64),
    end: &[u8],
) -> Result<(), Fault> {
    let (done, file) = packed(alloc, text, choice)?;
    assert!(rt; (done.frames, done.bytes) == want);
    assert!(rt; file.as_slice().starts_with(b"RIFF".as_slice()));
    assert!(rt; file.as_slice().ends_with(end));
    Ok(())
}

/// A refused text: its fault, and that nothing is written.
fn refuses(rt: &impl Abort, alloc: Global, text: &[u8], choice: &Choice, fault: Fault) {
    let mut output = ToWrite::new(Vec::new(alloc));
    assert!(rt;
        pack(
            alloc,
            Profile::Strict,
            &mut FromRead::new(text),
            &mut output,
            choice
        ) == Err(fault)
    );
    assert!(rt; output.into_inner().is_empty());
}

/// Texts, choices, how many frames and bytes of them are packed, and how the files end.
static PACKED: [(&[u8], Choice, (u64, u64), &[u8]); 5] = [
    (
        b"YUV4MPEG2 W1 H1 Cmono\nFRAME\n\x00",
        PLAIN,
        (1, 5),
        b"00dc\x05\x00\x00\x00\xFE\x7B\x00\x00\x02\x00",
    ),
    (
        b"YUV4MPEG2 W1 H1 Cmono\nFRAME\n\x00",
        Choice { ec: true, ..PLAIN },
        (1, 10),
        b"00dc\x0A\x00\x00\x00\xFE\x7B\x00\x00\x02\x00\x94\x8C\x13\x3C",
    ),
    (
        b"P6\n1 1\n255\n\xFF\x00\x00",
        PLAIN,
        (1, 9),
        b"00dc\x09\x00\x00\x00\xFE\x78\xDF\x83\xD9\x2C\x00\x00\x06\x00",
    ),
    (
        b"YUV4MPEG2 W1 H1 Cmono\nFRAME\n\x00FRAME\n\xFF",
        PLAIN,
        (2, 10),
        b"\xFE\x7B\x00\x00\x02\x0000dc\x05\x00\x00\x00\xFE\x18\x00\x00\x02\x00",
    ),
    (
        b"YUV4MPEG2 W2 H1 Cmono\nFRAME\n\x00\x00",
        Choice {
            columns: 2,
            ..PLAIN
        },
        (1, 10),
        b"\xFE\x7B\x00\x00\x02\x3F\x76\x00\x00\x02",
    ),
];

#[test]
fn frames(rt: HostRuntime) -> Result<(), Fail> {
    for &(text, choice, done, end) in &PACKED {
        packs(&rt, rt.alloc(), text, &choice, done, end)?;
        let verified = Choice {
            verify: true,
            ..choice
        };
        packs(&rt, rt.alloc(), text, &verified, done, end)?;
    }
    Ok(())
}

/// Texts that are refused, and why; choices that do not suit come last.
static REFUSED: [(&[u8], Choice, Fault); 11] = [
    (b"", PLAIN, Fault::Text(ffv1_y4m::Fault::Header)),
    (b"YUV4MPEG2 W2 H2\n", PLAIN, Fault::NoFrames),
    (
        b"YUV4MPEG2 W2 H2 C420p10\n",
        PLAIN,
        Fault::Text(ffv1_y4m::Fault::Unsupported),
    ),
    (b"YUV4MPEG2 W2\n", PLAIN, Fault::Text(ffv1_y4m::Fault::Tag)),
    (
        b"YUV4MPEG2 W1 H1 Cmono\nFRAME Ip\n\x00",
        PLAIN,
        Fault::Text(ffv1_y4m::Fault::FrameLine),
    ),
    (
        b"YUV4MPEG2 W1 H1 Cmono\nFRAME\n",
        PLAIN,
        Fault::Text(ffv1_y4m::Fault::FrameTruncated),
    ),
    (
        b"P6\n1 1\n255\n\xFF\x00\x00P6\n2 1\n255\n\x00\x00\x00\x00\x00\x00",
        PLAIN,
        Fault::FormatChanged,
    ),
    (
        b"P5\n1 1\n255\n\xFF",
        PLAIN,
        Fault::Text(ffv1_y4m::Fault::Header),
    ),
    (
        TEXT,
        Choice {
            columns: 3,
            ..PLAIN
        },
        Fault::Record(RecordFault::Grid),
    ),
    (
        TEXT,
        Choice { rows: 0, ..PLAIN },
        Fault::Record(RecordFault::Grid),
    ),
    (
        TEXT,
        Choice {
            columns: 2,
            ..PLAIN
        },
        Fault::Record(RecordFault::ChromaEdge),
    ),
];

#[test]
fn faults(rt: HostRuntime) {
    for &(text, choice, fault) in &REFUSED {
        refuses(&rt, rt.alloc(), text, &choice, fault);
    }
}
