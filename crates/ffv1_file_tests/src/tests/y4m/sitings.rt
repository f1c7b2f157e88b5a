//! Siting of chroma and range of values in YUV4MPEG2, read and written again.

use ffv1_wire::{FromRead, ToWrite};
use ffv1_y4m::{Fault, Range, Siting, Y4mReader, Y4mWriter};
use std::alloc::Global;

/// What a text says of siting and range.
type Said = (Option<Siting>, Option<Range>);

fn said(alloc: Global, text: &[u8]) -> Result<Said, Fault> {
    let mut input = FromRead::new(text);
    let reader = Y4mReader::open_deep(alloc, None, &mut input)?;
    Ok((reader.head().siting, reader.head().range))
}

fn strict(alloc: Global, text: &[u8]) -> Result<Said, Fault> {
    let mut input = FromRead::new(text);
    let reader = Y4mReader::open(alloc, None, &mut input)?;
    Ok((reader.head().siting, reader.head().range))
}

/// Heads of texts: what they say, and what they say if no depth above 8 is read. So FFmpeg 5.1
/// reads them, but that it takes the last range if there are two, and one that begins with `FULL`.
static ROWS: [(&[u8], Result<Said, Fault>, Result<Said, Fault>); 21] = [
    (b"YUV4MPEG2 W2 H2\n", Ok((None, None)), Ok((None, None))),
    (
        b"YUV4MPEG2 W2 H2 C420\n",
        Ok((Some(Siting::Centre), None)),
        Err(Fault::Unsupported),
    ),
    (
        b"YUV4MPEG2 W2 H2 C420jpeg\n",
        Ok((Some(Siting::Centre), None)),
        Ok((None, None)),
    ),
    (
        b"YUV4MPEG2 W2 H2 C420mpeg2\n",
        Ok((Some(Siting::Left), None)),
        Ok((None, None)),
    ),
    (
        b"YUV4MPEG2 W2 H2 C420paldv\n",
        Ok((Some(Siting::TopLeft), None)),
        Ok((None, None)),
    ),
    (
        b"YUV4MPEG2 W2 H2 C411\n",
        Ok((None, None)),
        Ok((None, None)),
    ),
    (
        b"YUV4MPEG2 W2 H2 C422\n",
        Ok((None, None)),
        Ok((None, None)),
    ),
    (
        b"YUV4MPEG2 W2 H2 C444\n",
        Ok((None, None)),
        Ok((None, None)),
    ),
    (
        b"YUV4MPEG2 W2 H2 C444alpha\n",
        Ok((None, None)),
        Ok((None, None)),
    ),
    (
        b"YUV4MPEG2 W2 H2 Cmono XCOLORRANGE=FULL\n",
        Ok((None, Some(Range::Full))),
        Ok((None, None)),
    ),
    (
        b"YUV4MPEG2 W2 H2 C420p10 XCOLORRANGE=LIMITED\n",
        Ok((None, Some(Range::Limited))),
        Err(Fault::Unsupported),
    ),
    (
        b"YUV4MPEG2 W2 H2 C420jpeg XYSCSS=420JPEG XCOLORRANGE=FULL\n",
        Ok((Some(Siting::Centre), Some(Range::Full))),
        Ok((None, None)),
    ),
    (
        b"YUV4MPEG2 XCOLORRANGE=LIMITED W2 C420mpeg2 H2\n",
        Ok((Some(Siting::Left), Some(Range::Limited))),
        Ok((None, None)),
    ),
    (
        b"YUV4MPEG2 W2 H2 XCOLORRANGE=full\n",
        Ok((None, None)),
        Ok((None, None)),
    ),
    (
        b"YUV4MPEG2 W2 H2 XCOLORRANGE=FULLY\n",
        Ok((None, None)),
        Ok((None, None)),
    ),
    (
        b"YUV4MPEG2 W2 H2 XCOLORRANGE= XCOLORRANGE=FULL X X\n",
        Ok((None, Some(Range::Full))),
        Ok((None, None)),
    ),
    (
        b"YUV4MPEG2 W2 H2 XCOLORRANGE=FULL XCOLORRANGE=FULL\n",
        Err(Fault::Tag),
        Ok((None, None)),
    ),
    (
        b"YUV4MPEG2 XCOLORRANGE=FULL X XCOLORRANGE=LIMITED Im\n",
        Err(Fault::Tag),
        Err(Fault::Unsupported),
    ),
    (
        b"YUV4MPEG2 W2 H2 C420 C420\n",
        Err(Fault::Tag),
        Err(Fault::Unsupported),
    ),
    (
        b"YUV4MPEG2 W2 H2 C420mpeg\n",
        Err(Fault::Unsupported),
        Err(Fault::Unsupported),
    ),
    (
        b"YUV4MPEG2 W2 H2 C42\n",
        Err(Fault::Unsupported),
        Err(Fault::Unsupported),
    ),
];

#[test]
fn sayings(rt: HostRuntime) {
    for &(text, deep, shallow) in &ROWS {
        assert!(rt; (said(rt.alloc(), text), strict(rt.alloc(), text)) == (deep, shallow));
    }
}

/// A text of one picture that is read and written again.
fn again(alloc: Global, text: &[u8], out: &mut ToWrite<Vec<u8, Global>>) -> Result<bool, Fault> {
    let mut input = FromRead::new(text);
    let mut reader = Y4mReader::open_deep(alloc, None, &mut input)?;
    let mut planes = Vec::new(alloc);
    let more = reader.next(&mut input, &mut planes)?;
    let mut writer = Y4mWriter::at_depth(*reader.head(), reader.depth());
    writer.picture(out, &planes)?;
    Ok(more)
}

/// Whether a text of one picture is written again as this one.
fn is_again(alloc: Global, text: &[u8], other: &[u8]) -> bool {
    let mut out = ToWrite::new(Vec::new(alloc));
    let answer = again(alloc, text, &mut out);
    let written = out.into_inner();
    answer == Ok(true) && written.as_slice() == other
}

/// Texts, and how they are written.
static WRITTEN: [(&[u8], &[u8]); 6] = [
    (
        b"YUV4MPEG2 W1 H1\nFRAME\nabc",
        b"YUV4MPEG2 W1 H1 F0:0 I? A0:0 C420jpeg\nFRAME\nabc",
    ),
    (
        b"YUV4MPEG2 W1 H1 C420\nFRAME\nabc",
        b"YUV4MPEG2 W1 H1 F0:0 I? A0:0 C420jpeg\nFRAME\nabc",
    ),
    (
        b"YUV4MPEG2 W1 H1 XCOLORRANGE=FULL C420mpeg2\nFRAME\nabc",
        b"YUV4MPEG2 W1 H1 F0:0 I? A0:0 C420mpeg2 XCOLORRANGE=FULL\nFRAME\nabc",
    ),
    (
        b"YUV4MPEG2 W1 H1 C420paldv XYSCSS=420PALDV XCOLORRANGE=LIMITED\nFRAME\nabc",
        b"YUV4MPEG2 W1 H1 F0:0 I? A0:0 C420paldv XCOLORRANGE=LIMITED\nFRAME\nabc",
    ),
    (
        b"YUV4MPEG2 W1 H1 C444 XCOLORRANGE=FULL\nFRAME\nabc",
        b"YUV4MPEG2 W1 H1 F0:0 I? A0:0 C444 XCOLORRANGE=FULL\nFRAME\nabc",
    ),
    (
        b"YUV4MPEG2 W1 H1 Cmono10 XCOLORRANGE=FULL\nFRAME\n\xff\x03",
        b"YUV4MPEG2 W1 H1 F0:0 I? A0:0 Cmono10 XCOLORRANGE=FULL\nFRAME\n\xff\x03",
    ),
];

#[test]
fn texts_again(rt: HostRuntime) {
    for &(text, other) in &WRITTEN {
        assert!(rt; is_again(rt.alloc(), text, other));
    }
}
