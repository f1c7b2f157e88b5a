//! Images of PPM, read and written.

use ffv1_wire::{FromRead, LineSink, ToWrite};
use ffv1_y4m::{Fault, PpmReader, PpmWriter};
use std::alloc::Global;
use std::process::Abort;
use std::test::Fail;

/// The planes of the last image of a text, one after the other, and how many images there are.
fn read_all(alloc: Global, text: &[u8]) -> Result<(Vec<u8>, u32), Fault> {
    let mut input = FromRead::new(text);
    let mut reader = PpmReader::open(alloc, None, &mut input)?;
    let mut planes = Vec::new(alloc);
    let mut last = Vec::new(alloc);
    let mut images = 0u32;
    for _ in 0..text.len() {
        if !read_next(&mut reader, &mut input, &mut planes, &mut last)? {
            break;
        }
        images = images.wrapping_add(1);
    }
    Ok((last, images))
}

/// Reads the next image, and puts its planes one after the other. Whether there was one.
fn read_next(
    reader: &mut PpmReader,
    input: &mut FromRead<&[u8]>,
    planes: &mut Vec<Vec<u8>>,
    last: &mut Vec<u8>,
) -> Result<bool, Fault> {
    if !reader.next(input, planes)? {
        return Ok(false);
    }
    last.clear();
    for plane in planes.iter() {
        last.extend_from_slice(plane)?;
    }
    Ok(true)
}

/// Whether the last image of a text has these planes, and the text so many images.
fn has_planes(alloc: Global, text: &[u8], planes: &[u8], images: u32) -> bool {
    match read_all(alloc, text) {
        Ok((last, count)) => (last.as_slice(), count) == (planes, images),
        Err(_) => false,
    }
}

/// The fault of a text, if it has one.
fn fault_of(alloc: Global, text: &[u8]) -> Option<Fault> {
    match read_all(alloc, text) {
        Ok(_) => None,
        Err(fault) => Some(fault),
    }
}

/// Texts, the planes of their last images, and how many images they have.
static PARTED: [(&[u8], &[u8], u32); 3] = [
    (b"P6\n1 1\n255\n\xFF\x00\x00", b"\xFF\x00\x00", 1),
    (b"P6\n2 1\n255\nabcdef", b"adbecf", 1),
    (b"P6\n1 2\n255\nabcdefP6\n1 2\n255\nghijkl", b"gjhkil", 2),
];

#[test]
fn images_are_parted(rt: HostRuntime) -> Result<(), Fail> {
    for &(text, planes, images) in &PARTED {
        assert!(rt; has_planes(rt.alloc(), text, planes, images));
    }
    Ok(())
}

/// Texts and their faults.
static REFUSED: [(&[u8], Option<Fault>); 19] = [
    (b"P6\n8192 81920\n255\n", Some(Fault::Header)),
    (b"", Some(Fault::Header)),
    (b"P", Some(Fault::Header)),
    (b"P5\n1 1\n255\nabc", Some(Fault::Header)),
    (b"P6 1 1 255\nabc", Some(Fault::Header)),
    (b"P6\n01 1\n255\nabc", Some(Fault::Header)),
    (b"P6\n1  1\n255\nabc", Some(Fault::Header)),
    (b"P6\n0 1\n255\nabc", Some(Fault::Header)),
    (b"P6\n8193 1\n255\nabc", Some(Fault::Header)),
    (b"P6\n1 1\n65535\nabc", Some(Fault::Header)),
    (b"P6\n1 1\n25\nabc", Some(Fault::Header)),
    (b"P6\n#a\n1 1\n255\nabc", Some(Fault::Header)),
    (b"P6\n1 1\n255", Some(Fault::Header)),
    (b"P6\n1 1\n255\nab", Some(Fault::FrameTruncated)),
    (
        b"P6\n1 1\n255\nabcP6\n2 1\n255\n",
        Some(Fault::FormatChanged),
    ),
    (
        b"P6\n1 1\n255\nabcP6\n1 2\n255\nabcdef",
        Some(Fault::FormatChanged),
    ),
    (b"P6\n1 1\n255\nabcP6\n2 1\n254\n", Some(Fault::Header)),
    (
        b"P6\n1 1\n255\nabcP6\n1 1\n255\n",
        Some(Fault::FrameTruncated),
    ),
    (b"P6\n1 1\n255\nabc", None),
];

#[test]
fn refused_images(rt: HostRuntime) -> Result<(), Fail> {
    for &(text, fault) in &REFUSED {
        assert!(rt; fault_of(rt.alloc(), text) == fault);
    }
    Ok(())
}

/// The width of an image of several blocks.
const WIDE: usize = 2050;

/// The text of a wide image.
fn wide_text(alloc: Global) -> Result<Vec<u8>, Fault> {
    let mut text = Vec::from_slice(alloc, b"P6\n2050 1\n255\n")?;
    for place in 0..3 * WIDE {
        text.push((place % 251) as u8)?;
    }
    Ok(text)
}

/// Whether each plane of a wide image has the samples of its colour.
fn wide_image(alloc: Global) -> Result<bool, Fault> {
    let text = wide_text(alloc)?;
    let (planes, _) = read_all(alloc, &text)?;
    Ok(are_parted(&planes))
}

/// Whether planes have the samples of the wide image.
fn are_parted(planes: &[u8]) -> bool {
    let mut same = planes.len() == 3 * WIDE;
    for (place, sample) in planes.iter().enumerate() {
        let from = 3 * (place % WIDE) + place / WIDE % 3;
        same = same && usize::from(*sample) == from % 251;
    }
    same
}

#[test]
fn images_of_several_blocks(rt: HostRuntime) -> Result<(), Fail> {
    assert!(rt; wide_image(rt.alloc())?);
    Ok(())
}

/// A line of a plane and a row, and whether a sink takes it.
type Line = (u8, u16, &'static [u8], bool);

/// Lines of two images, and others between them.
static LINES: [Line; 17] = [
    (1, 0, b"bb", false),
    (0, 1, b"aa", false),
    (0, 0, b"a", false),
    (0, 0, b"ad", true),
    (0, 0, b"ad", false),
    (1, 0, b"be", true),
    (2, 0, b"cfx", false),
    (2, 0, b"cf", true),
    (0, 0, b"gj", false),
    (0, 1, b"gj", true),
    (1, 1, b"hk", true),
    (2, 1, b"il", true),
    (0, 2, b"mp", false),
    (0, 0, b"mp", true),
    (1, 0, b"nq", true),
    (2, 0, b"or", true),
    (3, 1, b"or", false),
];

/// A sink takes and refuses lines so, and counts those that it refuses.
fn takes(rt: &impl Abort, sink: &mut PpmWriter<ToWrite<Vec<u8>>>, lines: &[Line], failures: u64) {
    for &(plane, row, samples, taken) in lines {
        assert!(rt; sink.line(plane, row, samples).is_ok() == taken);
    }
    assert!(rt; sink.failures() == failures);
}

/// A sink of images of this size takes and refuses lines so, and has then written this text.
fn writes(
    rt: &impl Abort,
    sink: Result<PpmWriter<ToWrite<Vec<u8>>>, (ToWrite<Vec<u8>>, Fault)>,
    lines: &[Line],
    failures: u64,
    text: &[u8],
) -> Result<(), Fault> {
    let mut sink = match sink {
        Ok(sink) => sink,
        Err((_, fault)) => return Err(fault),
    };
    takes(rt, &mut sink, lines, failures);
    let written = sink.into_inner().into_inner();
    assert!(rt; written.as_slice() == text);
    Ok(())
}

#[test]
fn lines_are_written(rt: HostRuntime) -> Result<(), Fault> {
    let output = ToWrite::new(Vec::new(rt.alloc()));
    let sink = PpmWriter::sized(rt.alloc(), output, 2, 2);
    let text = b"P6\n2 2\n255\nabcdefghijklP6\n2 2\n255\nmnopqr";
    writes(&rt, sink, &LINES, 8, text)
}

#[test]
fn one_red_sample(rt: HostRuntime) -> Result<(), Fault> {
    let output = ToWrite::new(Vec::new(rt.alloc()));
    let sink = PpmWriter::sized(rt.alloc(), output, 1, 1);
    let lines: [Line; 3] = [
        (0, 0, b"\xFF", true),
        (1, 0, b"\0", true),
        (2, 0, b"\0", true),
    ];
    let text = b"P6\n1 1\n255\n\xFF\x00\x00";
    assert!(rt; text.len() == 14);
    writes(&rt, sink, &lines, 0, text)
}

/// The longest line of sizes, of which the head says both.
#[test]
fn longest_sizes(rt: HostRuntime) -> Result<(), Fault> {
    let mut input = FromRead::new(b"P6\n8192 8192\n255\nabc".as_slice());
    let reader = PpmReader::open(rt.alloc(), None, &mut input)?;
    assert!(rt; reader.head().width == 8192 && reader.head().height == 8192);
    assert!(rt; input.into_inner() == b"abc".as_slice());
    Ok(())
}

/// The fault of a text's second image, and how many bytes are left after it; the call after it
/// reads nothing.
fn second_fault(alloc: Global, text: &[u8]) -> Result<(Option<Fault>, usize), Fault> {
    let mut input = FromRead::new(text);
    let mut reader = PpmReader::open(alloc, None, &mut input)?;
    let mut planes = Vec::new(alloc);
    reader.next(&mut input, &mut planes)?;
    let fault = reader.next(&mut input, &mut planes).err();
    let again = reader.next(&mut input, &mut planes).err();
    if again != fault {
        return Ok((again, text.len()));
    }
    Ok((fault, input.into_inner().len()))
}

/// Texts, the faults of their second images, and how many bytes are left after them.
static LATER: [(&[u8], Option<Fault>, usize); 5] = [
    (b"P6\n1 1\n255\nabc", None, 0),
    (
        b"P6\n1 1\n255\nabcP6\n2 1\n255\nrest",
        Some(Fault::FormatChanged),
        4,
    ),
    (
        b"P6\n1 1\n255\nabcP5\n1 1\n255\nrest",
        Some(Fault::Header),
        4,
    ),
    (b"P6\n1 1\n255\nabcP6x\n1 1", Some(Fault::Header), 4),
    (
        b"P6\n1 1\n255\nabcP6\n1 1\n255\nde",
        Some(Fault::FrameTruncated),
        0,
    ),
];

#[test]
fn left_behind_later_images(rt: HostRuntime) -> Result<(), Fail> {
    for &(text, fault, left) in &LATER {
        assert!(rt; second_fault(rt.alloc(), text) == Ok((fault, left)));
    }
    Ok(())
}
