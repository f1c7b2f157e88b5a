//! YUV4MPEG2 of more than 8 bits: its names, and samples of two bytes, the low one first.

use ffv1_wire::{FromRead, ToWrite};
use ffv1_y4m::{Fault, Y4mReader, Y4mWriter};
use std::alloc::Global;

fn depth_of(alloc: Global, text: &[u8]) -> Result<u32, Fault> {
    let mut input = FromRead::new(text);
    let reader = Y4mReader::open_deep(alloc, None, &mut input)?;
    Ok(reader.depth())
}

fn strict(alloc: Global, text: &[u8]) -> Result<u32, Fault> {
    let mut input = FromRead::new(text);
    let reader = Y4mReader::open(alloc, None, &mut input)?;
    Ok(reader.depth())
}

fn next(alloc: Global, text: &[u8]) -> Result<bool, Fault> {
    let mut input = FromRead::new(text);
    let mut reader = Y4mReader::open_deep(alloc, None, &mut input)?;
    let mut planes = Vec::new(alloc);
    reader.next(&mut input, &mut planes)
}

fn again(alloc: Global, text: &[u8], out: &mut ToWrite<Vec<u8, Global>>) -> Result<bool, Fault> {
    let mut input = FromRead::new(text);
    let mut reader = Y4mReader::open_deep(alloc, None, &mut input)?;
    let mut planes = Vec::new(alloc);
    let more = reader.next(&mut input, &mut planes)?;
    let mut writer = Y4mWriter::at_depth(*reader.head(), reader.depth());
    writer.picture(out, &planes)?;
    Ok(more)
}

/// The head of a text, and its depth or its fault.
static ROWS: [(&[u8], Result<u32, Fault>); 19] = [
    (b"YUV4MPEG2 W1 H1 C420p9\n", Ok(9)),
    (b"YUV4MPEG2 W1 H1 C420p10\n", Ok(10)),
    (b"YUV4MPEG2 W1 H1 C420p12\n", Ok(12)),
    (b"YUV4MPEG2 W1 H1 C420p14\n", Ok(14)),
    (b"YUV4MPEG2 W1 H1 C420p16\n", Ok(16)),
    (b"YUV4MPEG2 W1 H1 C422p10\n", Ok(10)),
    (b"YUV4MPEG2 W1 H1 C444p16\n", Ok(16)),
    (b"YUV4MPEG2 W1 H1 Cmono9\n", Ok(9)),
    (b"YUV4MPEG2 W1 H1 Cmono10\n", Ok(10)),
    (b"YUV4MPEG2 W1 H1 Cmono12\n", Ok(12)),
    (b"YUV4MPEG2 W1 H1 Cmono16\n", Ok(16)),
    (b"YUV4MPEG2 W1 H1 Cmono14\n", Err(Fault::Unsupported)),
    (b"YUV4MPEG2 W1 H1 C420p11\n", Err(Fault::Unsupported)),
    (b"YUV4MPEG2 W1 H1 C444alphap10\n", Err(Fault::Unsupported)),
    (b"YUV4MPEG2 W1 H1 C420p10le\n", Err(Fault::Unsupported)),
    (b"YUV4MPEG2 W1 H1 C440p10\n", Err(Fault::Unsupported)),
    (b"YUV4MPEG2 W1 H1 C411p10\n", Err(Fault::Unsupported)),
    (b"YUV4MPEG2 W1 H1 C420p8\n", Err(Fault::Unsupported)),
    (b"YUV4MPEG2 W1 H1 C420p010\n", Err(Fault::Unsupported)),
];

#[test]
fn headers(rt: HostRuntime) {
    for &(text, answer) in &ROWS {
        assert!(rt; depth_of(rt.alloc(), text) == answer);
    }
    assert!(rt; strict(rt.alloc(), b"YUV4MPEG2 W1 H1 C420p10\n") == Err(Fault::Unsupported));
    assert!(rt; strict(rt.alloc(), b"YUV4MPEG2 W1 H1\n") == Ok(8));
    assert!(rt; depth_of(rt.alloc(), b"YUV4MPEG2 W1 H1\n") == Ok(8));
}

#[test]
fn pictures(rt: HostRuntime) {
    let alloc = rt.alloc();
    assert!(rt; next(alloc, b"YUV4MPEG2 W1 H1 Cmono10\nFRAME\n\xff\x03") == Ok(true));
    assert!(rt;
        next(alloc, b"YUV4MPEG2 W1 H1 Cmono10\nFRAME\n\x00\x04") == Err(Fault::SampleTooLarge)
    );
    assert!(rt; next(alloc, b"YUV4MPEG2 W1 H1 Cmono10\nFRAME\n\xff") == Err(Fault::FrameTruncated));
    assert!(rt;
        next(alloc, b"YUV4MPEG2 W2 H1 Cmono10\nFRAME\n\x00\x04\xff") == Err(Fault::FrameTruncated)
    );
    let mut out = ToWrite::new(Vec::new(alloc));
    assert!(rt; again(alloc, b"YUV4MPEG2 W1 H1 Cmono10\nFRAME\n\xff\x03", &mut out) == Ok(true));
    let text = out.into_inner();
    assert!(rt;
        text.as_slice() == b"YUV4MPEG2 W1 H1 F0:0 I? A0:0 Cmono10\nFRAME\n\xff\x03".as_slice()
    );
}
