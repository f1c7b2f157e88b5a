//! Readers and writers of YUV4MPEG2 and PPM, if memory is refused, or if a read or a write fails.

use ffv1_doubles::{FailingReader, Scarce, ShortWriter};
use ffv1_wire::{FromRead, LineSink, ToWrite};
use ffv1_y4m::{Fault, PpmReader, PpmWriter, Y4mReader, Y4mWriter};
use std::alloc::{Allocator, Global};
use std::io::{ErrorKind, Read};
use std::process::Abort;
use std::test::Fail;

static PICTURES: &[u8] = b"YUV4MPEG2 W2 H2 F25:1 I? A0:0 C420jpeg\nFRAME\nabcdefFRAME\nghijkl";

static IMAGES: &[u8] = b"P6\n2 1\n255\nabcdefP6\n2 1\n255\nghijkl";

/// How many pictures of YUV4MPEG2 an input has; the fault, if it comes again.
fn pictures<R: Read, A: Allocator + Copy>(alloc: A, input: &mut FromRead<R>) -> Result<u32, Fault> {
    let mut reader = Y4mReader::open(alloc, None, input)?;
    let mut planes = Vec::new(alloc);
    let mut count = 0u32;
    for _ in 0..100 {
        match reader.next(input, &mut planes) {
            Ok(true) => count = count.wrapping_add(1),
            Ok(false) => break,
            Err(fault) if reader.next(input, &mut planes) == Err(fault) => return Err(fault),
            Err(_) => return Ok(u32::MAX),
        }
    }
    Ok(count)
}

/// How many images of PPM an input has; the fault, if it comes again.
fn images<R: Read, A: Allocator + Copy>(alloc: A, input: &mut FromRead<R>) -> Result<u32, Fault> {
    let mut reader = PpmReader::open(alloc, None, input)?;
    let mut planes = Vec::new(alloc);
    let mut count = 0u32;
    for _ in 0..100 {
        match reader.next(input, &mut planes) {
            Ok(true) => count = count.wrapping_add(1),
            Ok(false) => break,
            Err(fault) if reader.next(input, &mut planes) == Err(fault) => return Err(fault),
            Err(_) => return Ok(u32::MAX),
        }
    }
    Ok(count)
}

/// The text of pictures or of images, counted.
fn count_of<A: Allocator + Copy>(alloc: A, text: &[u8]) -> Result<u32, Fault> {
    let mut input = FromRead::new(text);
    match text {
        [b'P', ..] => images(alloc, &mut input),
        _ => pictures(alloc, &mut input),
    }
}

/// Each request of memory is refused in turn: `OutOfMemory` for as many as the first picture makes,
/// of one vector of planes and a vector for each of three; the second one makes none.
#[test]
fn memory_refused(rt: HostRuntime) -> Result<(), Fail> {
    for text in [PICTURES, IMAGES] {
        let mut refused = 0u32;
        for before in 0..20u64 {
            let heap = Scarce::new(rt.alloc(), before);
            match count_of(&heap, text) {
                Ok(count) => assert!(rt; count == 2),
                Err(fault) => {
                    assert!(rt; fault == Fault::OutOfMemory);
                    refused = refused.wrapping_add(1);
                }
            }
        }
        assert!(rt; refused == 4);
    }
    Ok(())
}

/// Both pictures were counted and no read failed, or one read failed: `Read`.
fn counts_or_fails(rt: &impl Abort, answer: Result<u32, Fault>, failures: u64) {
    let (expected, failed) = match answer {
        Ok(_) => (Ok(2), 0),
        Err(_) => (Err(Fault::Read), 1),
    };
    assert!(rt; answer == expected);
    assert!(rt; failures == failed);
}

/// Each read fails in turn: `Read`.
#[test]
fn reads_failed(rt: HostRuntime) -> Result<(), Fail> {
    for before in 0..200usize {
        let mut input = FromRead::new(FailingReader::new(PICTURES, before, 1, ErrorKind::Other));
        let answer = pictures(rt.alloc(), &mut input);
        counts_or_fails(&rt, answer, input.failures());
        let mut input = FromRead::new(FailingReader::new(
            IMAGES,
            before,
            1,
            ErrorKind::Interrupted,
        ));
        let answer = images(rt.alloc(), &mut input);
        counts_or_fails(&rt, answer, input.failures());
    }
    Ok(())
}

/// Writes two pictures. Whether the last write failed.
fn write_pictures(
    rt: &impl Abort,
    alloc: Global,
    output: &mut ToWrite<ShortWriter>,
) -> Result<bool, Fault> {
    let mut input = FromRead::new(PICTURES);
    let mut reader = Y4mReader::open(alloc, None, &mut input)?;
    let mut writer = Y4mWriter::new(*reader.head());
    let mut planes = Vec::new(alloc);
    let mut failed = false;
    for _ in 0..2 {
        assert!(rt; reader.next(&mut input, &mut planes) == Ok(true));
        failed = fails_from_here(rt, writer.picture(output, &planes), failed);
    }
    Ok(failed)
}

/// Whether a write failed: then `Write` is answered, also if one failed before.
fn fails_from_here(rt: &impl Abort, answer: Result<(), Fault>, failed: bool) -> bool {
    match answer {
        Ok(()) => assert!(rt; !failed),
        Err(fault) => assert!(rt; fault == Fault::Write),
    }
    answer.is_err()
}

/// A writer with so much room: a beginning is written.
fn cut_at(rt: &impl Abort, alloc: Global, room: usize) -> Result<(), Fault> {
    let mut output = ToWrite::new(ShortWriter::new(alloc, room, 3, Some(ErrorKind::Other)));
    let failed = write_pictures(rt, alloc, &mut output)?;
    holds_beginning(rt, output, failed, &PICTURES[..room.min(PICTURES.len())]);
    assert!(rt; failed == (room < PICTURES.len()));
    Ok(())
}

/// A writer holds the beginning of a text, and failed once or never.
fn holds_beginning(rt: &impl Abort, output: ToWrite<ShortWriter>, failed: bool, beginning: &[u8]) {
    assert!(rt; output.failures() == u64::from(failed));
    assert!(rt; output.into_inner().held() == beginning);
}

/// Writers of each number of bytes below the text's length.
#[test]
fn pictures_cut(rt: HostRuntime) -> Result<(), Fail> {
    for room in 0..70usize {
        cut_at(&rt, rt.alloc(), room)?;
    }
    Ok(())
}

/// The lines of two images.
static LINES: [&[u8]; 6] = [b"ad", b"be", b"cf", b"gj", b"hk", b"il"];

/// How many lines of two images a sink refuses, by its own count too.
fn lines_refused(rt: &impl Abort, sink: &mut PpmWriter<ToWrite<ShortWriter>>) -> u64 {
    let mut refused = 0u64;
    for (number, line) in LINES.iter().enumerate() {
        if sink.line((number % 3) as u8, 0, line).is_err() {
            refused = refused.wrapping_add(1);
        }
    }
    assert!(rt; sink.failures() == refused);
    refused
}

/// A sink with so much room for images: so many lines are refused, and a beginning is written.
fn image_cut_at(rt: &impl Abort, alloc: Global, room: usize, expected: u64) -> Result<(), Fault> {
    let output = ToWrite::new(ShortWriter::new(alloc, room, 4, Some(ErrorKind::Other)));
    let mut sink = match PpmWriter::sized(alloc, output, 2, 1) {
        Ok(sink) => sink,
        Err((_, fault)) => return Err(fault),
    };
    let refused = lines_refused(rt, &mut sink);
    let beginning = &IMAGES[..room.min(IMAGES.len())];
    holds_beginning(rt, sink.into_inner(), refused != 0, beginning);
    assert!(rt; refused == expected);
    Ok(())
}

/// The same of images, line by line.
#[test]
fn images_cut(rt: HostRuntime) -> Result<(), Fail> {
    for room in 0..40usize {
        let expected = match room {
            0..=16 => 4,
            17..=33 => 1,
            _ => 0,
        };
        image_cut_at(&rt, rt.alloc(), room, expected)?;
    }
    Ok(())
}

/// The failures of a sink of which a request is refused after others; or of its writer, and why
/// that one comes back and how much it then holds.
fn sink_answer(alloc: Global, before: u64) -> (u64, Option<(Fault, usize)>) {
    let heap = Scarce::new(alloc, before);
    let output = ToWrite::new(ShortWriter::new(alloc, 9, 9, Some(ErrorKind::Other)));
    match PpmWriter::sized(&heap, output, 2, 1) {
        Ok(sink) => (sink.failures(), None),
        Err((back, fault)) => (
            back.failures(),
            Some((fault, back.into_inner().held().len())),
        ),
    }
}

/// The memory of a sink is refused: the writer comes back as it was.
#[test]
fn sink_refused(rt: HostRuntime) -> Result<(), Fail> {
    let mut refused = 0u32;
    for before in 0..6u64 {
        let (failures, fault) = sink_answer(rt.alloc(), before);
        assert!(rt; failures == 0);
        if let Some(answer) = fault {
            assert!(rt; answer == (Fault::OutOfMemory, 0));
            refused = refused.wrapping_add(1);
        }
    }
    assert!(rt; refused == 3);
    Ok(())
}
