//! What `check_all` writes of files over memory, and its faults.

use super::shows;
use ffv1_codec::CodecFault;
use ffv1_doubles::{Scarce, ShortWriter, made};
use ffv1_engine::{Fault, Notes, Profile, check_all};
use ffv1_wire::{FromRead, ToWrite};
use std::alloc::Global;
use std::io::ErrorKind;
use std::process::Abort;
use std::test::Fail;

/// A file of so many of these frames, of mono pictures of one line in two columns, a sample in
/// each, without parity.
fn file_of(alloc: Global, frame: &[u8], count: usize) -> Result<Vec<u8>, Fault> {
    let config = made::mono(alloc, 2, 1, 2, false)?;
    shows::file_of(alloc, config, 25, 1, frame, count)
}

/// A check of all of these frames answers so, and writes this.
fn comes_to(
    rt: &impl Abort,
    alloc: Global,
    frames: (&[u8], usize),
    place: bool,
    answer: Result<Option<Fault>, Fault>,
    text: &[u8],
) -> Result<(), Fault> {
    let file = file_of(alloc, frames.0, frames.1)?;
    let mut output = ToWrite::new(Vec::new(alloc));
    let mut input = FromRead::new(file.as_slice());
    let found = check_all(alloc, Profile::Strict, &mut input, &mut output, place);
    assert!(rt; found == answer.map(|first| (first, Notes::NONE)));
    assert!(rt; output.into_inner().as_slice() == text);
    Ok(())
}

static MISPLACED: &[u8] = b"\xFE\x7B\x00\x00\x02\xFE\x7B\x00\x00\x02";

static PLACES: &[u8] = b"frame 0: fault 31 Place
fault frame 0 slice 1 plane 0 line 0 x 0 decisions 11
frame 1: fault 31 Place
fault frame 1 slice 1 plane 0 line 0 x 0 decisions 11
frames 2 faults 2
";

#[test]
fn frames_after_a_refused_one(rt: HostRuntime) -> Result<(), Fail> {
    let answer = Ok(Some(Fault::Codec(CodecFault::Place)));
    comes_to(&rt, rt.alloc(), (MISPLACED, 2), true, answer, PLACES)?;
    Ok(())
}

#[test]
fn no_frame(rt: HostRuntime) -> Result<(), Fail> {
    comes_to(&rt, rt.alloc(), (b"", 0), true, Err(Fault::NoFrames), b"")?;
    Ok(())
}

#[test]
fn a_line_that_is_not_written_ends_it(rt: HostRuntime) -> Result<(), Fail> {
    let file = file_of(rt.alloc(), MISPLACED, 2)?;
    for room in 0..PLACES.len() {
        let writer = ShortWriter::new(rt.alloc(), room, 7, Some(ErrorKind::Other));
        let mut output = ToWrite::new(writer);
        let mut input = FromRead::new(file.as_slice());
        let answer = check_all(rt.alloc(), Profile::Strict, &mut input, &mut output, true);
        assert!(rt; answer == Err(Fault::Write));
    }
    Ok(())
}

#[test]
fn refused_memory_ends_it(rt: HostRuntime) -> Result<(), Fail> {
    let file = file_of(rt.alloc(), MISPLACED, 2)?;
    let mut refused = 0u8;
    for before in 0..40u64 {
        let heap = Scarce::new(rt.alloc(), before);
        let mut input = FromRead::new(file.as_slice());
        let mut output = ToWrite::new(Vec::new(rt.alloc()));
        let answer = check_all(&heap, Profile::Strict, &mut input, &mut output, true);
        if answer == Err(Fault::OutOfMemory) {
            refused = refused.saturating_add(1);
            assert!(rt; PLACES.starts_with(output.into_inner().as_slice()));
        } else {
            assert!(rt; answer == Ok((Some(Fault::Codec(CodecFault::Place)), Notes::NONE)));
        }
    }
    assert!(rt; 10 < refused && refused < 40);
    Ok(())
}

static CUT: &[u8] = b"frame 0: fault 31 Place
fault frame 0 slice 1 plane 0 line 0 x 0 decisions 11
byte 268: fault 52 Truncated
frames 1 faults 2
";

#[test]
fn the_byte_where_a_file_is_cut(rt: HostRuntime) -> Result<(), Fail> {
    let file = file_of(rt.alloc(), MISPLACED, 2)?;
    let mut output = ToWrite::new(Vec::new(rt.alloc()));
    let mut input = FromRead::new(file.get(..270).unwrap_or(b""));
    let answer = check_all(rt.alloc(), Profile::Wide, &mut input, &mut output, true);
    assert!(rt; answer == Ok((Some(Fault::Codec(CodecFault::Place)), Notes::NONE)));
    assert!(rt; output.into_inner().as_slice() == CUT);
    Ok(())
}
