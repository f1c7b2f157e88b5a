//! PPM of more than 8 bits: its greatest samples, and samples of two bytes, the high one first.

ghost use Rattle.std.specs.Prelude.{◌≤◌};

use ffv1_wire::{FromRead, LineSink, ToWrite};
use ffv1_y4m::{Fault, PpmReader, PpmWriter};
use std::alloc::Global;

fn depth_of(alloc: Global, text: &[u8]) -> Result<u32, Fault> {
    let mut input = FromRead::new(text);
    let reader = PpmReader::open_deep(alloc, None, &mut input)?;
    Ok(reader.depth())
}

fn strict(alloc: Global, text: &[u8]) -> Result<u32, Fault> {
    let mut input = FromRead::new(text);
    let reader = PpmReader::open(alloc, None, &mut input)?;
    Ok(reader.depth())
}

/// The first image, its three planes one after the other.
fn first(alloc: Global, text: &[u8], all: &mut Vec<u8, Global>) -> Result<bool, Fault> {
    let mut input = FromRead::new(text);
    let mut reader = PpmReader::open_deep(alloc, None, &mut input)?;
    let mut planes = Vec::new(alloc);
    let more = reader.next(&mut input, &mut planes)?;
    for plane in &planes {
        all.extend_from_slice(plane.as_slice())?;
    }
    Ok(more)
}

/// What the second call of `next` answers.
fn second(alloc: Global, text: &[u8]) -> Result<bool, Fault> {
    let mut input = FromRead::new(text);
    let mut reader = PpmReader::open_deep(alloc, None, &mut input)?;
    let mut planes = Vec::new(alloc);
    let _first = reader.next(&mut input, &mut planes)?;
    reader.next(&mut input, &mut planes)
}

/// The same of a reader that `open` made.
fn second_strict(alloc: Global, text: &[u8]) -> Result<bool, Fault> {
    let mut input = FromRead::new(text);
    let mut reader = PpmReader::open(alloc, None, &mut input)?;
    let mut planes = Vec::new(alloc);
    let _first = reader.next(&mut input, &mut planes)?;
    reader.next(&mut input, &mut planes)
}

/// An image of one row by its three lines.
fn written(
    alloc: Global,
    width: u32,
    depth: u32,
    red: &[u8],
    green: &[u8],
    blue: &[u8],
) -> Result<Vec<u8, Global>, Fault>
    requires { (1 ≤ width) × (width ≤ 8192) × (8 ≤ depth) × (depth ≤ 16) }
{
    let out = ToWrite::new(Vec::new(alloc));
    let Ok(mut sink) = PpmWriter::sized_at(alloc, out, width, 1, depth) else {
        return Err(Fault::OutOfMemory);
    };
    let Ok(()) = sink.line(0, 0, red) else {
        return Err(Fault::Write);
    };
    let Ok(()) = sink.line(1, 0, green) else {
        return Err(Fault::Write);
    };
    let Ok(()) = sink.line(2, 0, blue) else {
        return Err(Fault::Write);
    };
    Ok(sink.into_inner().into_inner())
}

/// The header of an image, and its depth or its fault.
static HEADS: [(&[u8], Result<u32, Fault>); 24] = [
    (b"P6\n1 1\n1\n", Err(Fault::Header)),
    (b"P6\n1 1\n127\n", Err(Fault::Header)),
    (b"P6\n1 1\n254\n", Err(Fault::Header)),
    (b"P6\n1 1\n255\n", Ok(8)),
    (b"P6\n1 1\n256\n", Err(Fault::Header)),
    (b"P6\n1 1\n511\n", Ok(9)),
    (b"P6\n1 1\n1000\n", Err(Fault::Header)),
    (b"P6\n1 1\n1023\n", Ok(10)),
    (b"P6\n1 1\n2047\n", Err(Fault::Header)),
    (b"P6\n1 1\n4095\n", Ok(12)),
    (b"P6\n1 1\n8191\n", Err(Fault::Header)),
    (b"P6\n1 1\n16383\n", Ok(14)),
    (b"P6\n1 1\n32767\n", Err(Fault::Header)),
    (b"P6\n1 1\n65535\n", Ok(16)),
    (b"P6\n1 1\n65536\n", Err(Fault::Header)),
    (b"P6\n1 1\n01023\n", Err(Fault::Header)),
    (b"P6\n1 1\n1023", Err(Fault::Header)),
    (b"P6 1\t1\r\n1023 ", Ok(10)),
    (b"P6\n# a\n# b\r1 #P5\n8192 255\n", Ok(8)),
    (b"P6#\n1 1\n255\n", Err(Fault::Header)),
    (b"P6\n1#\n1 255\n", Err(Fault::Header)),
    (b"P6\n1 1\n255#\n", Err(Fault::Header)),
    (b"P6\n1\x0b1\n255\n", Err(Fault::Header)),
    (b"P6\n#1 1 255", Err(Fault::Header)),
];

#[test]
fn headers(rt: HostRuntime) {
    for &(text, answer) in &HEADS {
        assert!(rt; depth_of(rt.alloc(), text) == answer);
    }
    assert!(rt; strict(rt.alloc(), b"P6\n1 1\n255\n") == Ok(8));
    assert!(rt; strict(rt.alloc(), b"P6\n1 1\n511\n") == Err(Fault::Header));
    assert!(rt; strict(rt.alloc(), b"P6\n1 1\n1023\n") == Err(Fault::Header));
    assert!(rt; strict(rt.alloc(), b"P6\n1 1\n65535\n") == Err(Fault::Header));
    assert!(rt; strict(rt.alloc(), b"P6 1 1\n255\n") == Err(Fault::Header));
    assert!(rt; strict(rt.alloc(), b"P6\n#\n1 1\n255\n") == Err(Fault::Header));
}

#[test]
fn samples(rt: HostRuntime) {
    let alloc = rt.alloc();
    let mut all = Vec::new(alloc);
    assert!(rt; first(alloc, b"P6\n1 1\n1023\n\x03\xff\x00\x01\x02\x00", &mut all) == Ok(true));
    assert!(rt; all.as_slice() == b"\xff\x03\x01\x00\x00\x02".as_slice());
    let mut pair = Vec::new(alloc);
    assert!(rt;
        first(
            alloc,
            b"P6\n2 1\n65535\n\xff\xfe\x01\x02\x03\x04\x05\x06\x07\x08\x09\x0a",
            &mut pair
        ) == Ok(true)
    );
    assert!(rt; pair.as_slice() == b"\xfe\xff\x06\x05\x02\x01\x08\x07\x04\x03\x0a\x09".as_slice());
    let mut byte = Vec::new(alloc);
    assert!(rt; first(alloc, b"P6\n2 1\n255\n\x01\x02\x03\x04\x05\x06", &mut byte) == Ok(true));
    assert!(rt; byte.as_slice() == b"\x01\x04\x02\x05\x03\x06".as_slice());
}

#[test]
fn faults(rt: HostRuntime) {
    let alloc = rt.alloc();
    let mut all = Vec::new(alloc);
    assert!(rt;
        first(alloc, b"P6\n1 1\n1023\n\x04\x00\x00\x00\x00\x00", &mut all)
            == Err(Fault::SampleTooLarge)
    );
    assert!(rt;
        first(alloc, b"P6\n1 1\n1023\n\x00\x00\x00\x00\x04\x00", &mut all)
            == Err(Fault::SampleTooLarge)
    );
    assert!(rt;
        first(alloc, b"P6\n1 1\n1023\n\x04\x00\x00\x00\x00", &mut all) == Err(Fault::FrameTruncated)
    );
    assert!(rt; second(alloc, b"P6\n1 1\n1023\n\x03\xff\x00\x00\x00\x00") == Ok(false));
    assert!(rt;
        second(
            alloc,
            b"P6\n1 1\n1023\n\x03\xff\x00\x00\x00\x00P6\n1 1\n1023\n\x03\xff\x00\x00\x00\x00"
        ) == Ok(true)
    );
    assert!(rt;
        second(
            alloc,
            b"P6\n1 1\n1023\n\x03\xff\x00\x00\x00\x00P6\n1 1\n4095\n\x03\xff\x00\x00\x00\x00"
        ) == Err(Fault::FormatChanged)
    );
    assert!(rt;
        second(
            alloc,
            b"P6\n1 1\n1023\n\x03\xff\x00\x00\x00\x00P6\n1 1\n2047\n\x03\xff\x00\x00\x00\x00"
        ) == Err(Fault::Header)
    );
    assert!(rt;
        second(
            alloc,
            b"P6\n1 1\n255\n\x01\x02\x03P6\n1 1\n511\n\x00\x00\x00\x00\x00\x00"
        ) == Err(Fault::FormatChanged)
    );
    assert!(rt;
        second_strict(
            alloc,
            b"P6\n1 1\n255\n\x01\x02\x03P6\n1 1\n511\n\x00\x00\x00\x00\x00\x00"
        ) == Err(Fault::Header)
    );
    assert!(rt;
        second(
            alloc,
            b"P6\n1 1\n255\n\x01\x02\x03P6\n2 1\n255\n\x00\x00\x00\x00\x00\x00"
        ) == Err(Fault::FormatChanged)
    );
}

#[test]
fn rows(rt: HostRuntime) {
    let alloc = rt.alloc();
    let Ok(ten) = written(alloc, 1, 10, b"\xff\x03", b"\x00\x00", b"\x00\x00") else {
        panic!(rt; "ten");
    };
    assert!(rt; ten.as_slice() == b"P6\n1 1\n1023\n\x03\xff\x00\x00\x00\x00".as_slice());
    let Ok(sixteen) = written(
        alloc,
        2,
        16,
        b"\xfe\xff\x06\x05",
        b"\x02\x01\x08\x07",
        b"\x04\x03\x0a\x09",
    ) else {
        panic!(rt; "sixteen");
    };
    assert!(rt;
        sixteen.as_slice()
            == b"P6\n2 1\n65535\n\xff\xfe\x01\x02\x03\x04\x05\x06\x07\x08\x09\x0a".as_slice()
    );
    let Ok(eight) = written(alloc, 2, 8, b"\x01\x04", b"\x02\x05", b"\x03\x06") else {
        panic!(rt; "eight");
    };
    assert!(rt; eight.as_slice() == b"P6\n2 1\n255\n\x01\x02\x03\x04\x05\x06".as_slice());
    assert!(rt; written(alloc, 2, 10, b"\xff\x03", b"\x00\x00", b"\x00\x00").is_err());
}
