//! Headers of YUV4MPEG2.

ghost use Rattle.std.specs.Prelude.{◌<◌, ◌≤◌};

use ffv1_wire::FromRead;
use ffv1_y4m::{Fault, VideoHead, Y4mReader};
use std::alloc::Global;

/// The head of a text.
fn head_of(alloc: Global, text: &[u8]) -> Result<VideoHead, Fault> {
    let mut input = FromRead::new(text);
    let reader = Y4mReader::open(alloc, None, &mut input)?;
    Ok(*reader.head())
}

/// The head of both sizes 2 and no other tag.
const PLAIN: VideoHead = VideoHead {
    width: 2,
    height: 2,
    rate: 0,
    scale: 0,
    structure: 0,
    sar_num: 0,
    sar_den: 0,
    chroma_planes: true,
    log2_h: 1,
    log2_v: 1,
    extra_plane: false,
    siting: None,
    range: None,
};

/// Texts that are refused, and why.
static REFUSED: [(&[u8], Fault); 28] = [
    (b"", Fault::Header),
    (b"YUV4MPEG", Fault::Header),
    (b"YUV4MPEG2 W2 H2", Fault::Header),
    (b"YUV4MPEG2x W2 H2\n", Fault::Header),
    (b"P6\n1 1\n255\nabc", Fault::Header),
    (b"YUV4MPEG2\n", Fault::Tag),
    (b"YUV4MPEG2 \n", Fault::Tag),
    (b"YUV4MPEG2 W2\n", Fault::Tag),
    (b"YUV4MPEG2 H2\n", Fault::Tag),
    (b"YUV4MPEG2 W2 W2 H2\n", Fault::Tag),
    (b"YUV4MPEG2 W02 H2\n", Fault::Tag),
    (b"YUV4MPEG2 W+2 H2\n", Fault::Tag),
    (b"YUV4MPEG2 W H2\n", Fault::Tag),
    (b"YUV4MPEG2 W0 H2\n", Fault::Tag),
    (b"YUV4MPEG2 W8193 H2\n", Fault::Tag),
    (b"YUV4MPEG2  W2 H2\n", Fault::Tag),
    (b"YUV4MPEG2 W2 H2 \n", Fault::Tag),
    (b"YUV4MPEG2 W2 H2 w2\n", Fault::Tag),
    (b"YUV4MPEG2 W2 H2 F25\n", Fault::Tag),
    (b"YUV4MPEG2 W2 H2 F0:1\n", Fault::Tag),
    (b"YUV4MPEG2 W2 H2 F4294967296:1\n", Fault::Tag),
    (b"YUV4MPEG2 W2 H2 A1:0\n", Fault::Tag),
    (b"YUV4MPEG2 W2 H2 A65536:1\n", Fault::Tag),
    (b"YUV4MPEG2 W2 H2 Ix\n", Fault::Tag),
    (b"YUV4MPEG2 W2 H2 C444 C420p10\n", Fault::Tag),
    (b"YUV4MPEG2 Q1 Im\n", Fault::Tag),
    (b"YUV4MPEG2 Im Q1\n", Fault::Unsupported),
    (b"YUV4MPEG2 W2 H2 C420p10\n", Fault::Unsupported),
];

#[test]
fn refused_headers(rt: HostRuntime) {
    for &(text, fault) in &REFUSED {
        assert!(rt; head_of(rt.alloc(), text) == Err(fault));
    }
}

/// Headers and their heads: of each name of C, and as other programs write them.
static HEADERS: [(&[u8], VideoHead); 13] = [
    (
        b"YUV4MPEG2 C420jpeg W2 H2\n",
        VideoHead {
            chroma_planes: true,
            log2_h: 1,
            log2_v: 1,
            extra_plane: false,
            ..PLAIN
        },
    ),
    (
        b"YUV4MPEG2 C420mpeg2 W2 H2\n",
        VideoHead {
            chroma_planes: true,
            log2_h: 1,
            log2_v: 1,
            extra_plane: false,
            ..PLAIN
        },
    ),
    (
        b"YUV4MPEG2 C420paldv W2 H2\n",
        VideoHead {
            chroma_planes: true,
            log2_h: 1,
            log2_v: 1,
            extra_plane: false,
            ..PLAIN
        },
    ),
    (
        b"YUV4MPEG2 C422 W2 H2\n",
        VideoHead {
            chroma_planes: true,
            log2_h: 1,
            log2_v: 0,
            extra_plane: false,
            ..PLAIN
        },
    ),
    (
        b"YUV4MPEG2 C444 W2 H2\n",
        VideoHead {
            chroma_planes: true,
            log2_h: 0,
            log2_v: 0,
            extra_plane: false,
            ..PLAIN
        },
    ),
    (
        b"YUV4MPEG2 C411 W2 H2\n",
        VideoHead {
            chroma_planes: true,
            log2_h: 2,
            log2_v: 0,
            extra_plane: false,
            ..PLAIN
        },
    ),
    (
        b"YUV4MPEG2 Cmono W2 H2\n",
        VideoHead {
            chroma_planes: false,
            log2_h: 0,
            log2_v: 0,
            extra_plane: false,
            ..PLAIN
        },
    ),
    (
        b"YUV4MPEG2 C444alpha W2 H2\n",
        VideoHead {
            chroma_planes: true,
            log2_h: 0,
            log2_v: 0,
            extra_plane: true,
            ..PLAIN
        },
    ),
    (b"YUV4MPEG2 W2 H2\n", PLAIN),
    (
        b"YUV4MPEG2 W176 H144 F30000:1001 Ip A128:117 C420jpeg XYSCSS=420JPEG \
            XCOLORRANGE=LIMITED\n",
        VideoHead {
            width: 176,
            height: 144,
            rate: 30000,
            scale: 1001,
            structure: 3,
            sar_num: 128,
            sar_den: 117,
            ..PLAIN
        },
    ),
    (
        b"YUV4MPEG2 W720 H576 F25:1 It A59:54 C420mpeg2 XYSCSS=420MPEG2\n",
        VideoHead {
            width: 720,
            height: 576,
            rate: 25,
            scale: 1,
            structure: 1,
            sar_num: 59,
            sar_den: 54,
            ..PLAIN
        },
    ),
    (
        b"YUV4MPEG2 W352 H288 F25:1 Ib A1:1\n",
        VideoHead {
            width: 352,
            height: 288,
            rate: 25,
            scale: 1,
            structure: 2,
            sar_num: 1,
            sar_den: 1,
            ..PLAIN
        },
    ),
    (
        b"YUV4MPEG2 X H8192 Xm A0:0 I? F4294967295:4294967295 W1\n",
        VideoHead {
            width: 1,
            height: 8192,
            rate: 4294967295,
            scale: 4294967295,
            ..PLAIN
        },
    ),
];

#[test]
fn headers(rt: HostRuntime) {
    for &(text, head) in &HEADERS {
        assert!(rt; head_of(rt.alloc(), text) == Ok(head));
    }
}

/// The head of a header line of so many bytes.
fn long_head(alloc: Global, len: usize) -> Result<VideoHead, Fault>
    requires least { 17 ≤ len }
    requires most { len < 1040 }
{
    let mut text = [b'x'; 1040];
    text[..17].copy_from_slice(b"YUV4MPEG2 W2 H2 X");
    text[len] = b'\n';
    head_of(alloc, &text[..len + 1])
}

#[test]
fn long_headers(rt: HostRuntime) {
    let (most, more) = (long_head(rt.alloc(), 1024), long_head(rt.alloc(), 1025));
    assert!(rt; (most, more) == (Ok(PLAIN), Err(Fault::Header)));
}

#[test]
fn first_byte_read_before(rt: HostRuntime) -> Result<(), Fault> {
    let text: &[u8] = b"UV4MPEG2 W2 H2\nrest";
    let mut input = FromRead::new(text);
    let reader = Y4mReader::open(rt.alloc(), Some(b'Y'), &mut input)?;
    let left = input.into_inner() == b"rest".as_slice();
    assert!(rt; (*reader.head(), left) == (PLAIN, true));
    Ok(())
}

/// How many bytes are left after a header line without an end.
fn left_of_long(alloc: Global, len: usize) -> usize
    requires { len < 1040 }
{
    let text = [b'x'; 1040];
    let mut input = FromRead::new(&text[..len]);
    match Y4mReader::open(alloc, None, &mut input) {
        Ok(_) => len,
        Err(_) => input.into_inner().len(),
    }
}

#[test]
fn no_more_than_a_line_is_read(rt: HostRuntime) {
    let (most, more) = (
        left_of_long(rt.alloc(), 1024),
        left_of_long(rt.alloc(), 1025),
    );
    assert!(rt; (most, more, left_of_long(rt.alloc(), 1032)) == (0, 0, 7));
}
