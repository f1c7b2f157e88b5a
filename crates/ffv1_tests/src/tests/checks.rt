//! What `check` writes of files over memory, and its faults.

use super::shows;
use ffv1_codec::CodecFault;
use ffv1_doubles::{Scarce, made};
use ffv1_engine::{Fault, Profile, check};
use ffv1_reads::FileFault;
use ffv1_wire::{FromRead, ToWrite};
use std::alloc::Global;
use std::process::Abort;
use std::test::Fail;

/// A file of so many of these frames, of mono pictures of one line in so many columns, a sample in
/// each, without parity.
fn file_of(alloc: Global, columns: u32, frame: &[u8], count: usize) -> Result<Vec<u8>, Fault> {
    let config = made::mono(alloc, columns, 1, columns, false)?;
    shows::file_of(alloc, config, 25, 1, frame, count)
}

/// What a check of a file answers, and writes.
fn checked(alloc: Global, file: &[u8], place: bool) -> (Result<(), Fault>, Vec<u8>) {
    let mut output = ToWrite::new(Vec::new(alloc));
    let answer = check(
        alloc,
        Profile::Strict,
        &mut FromRead::new(file),
        &mut output,
        place,
    );
    (answer.map(|_| ()), output.into_inner())
}

/// A check of so many frames answers so, and writes this.
fn comes_to(
    rt: &impl Abort,
    alloc: Global,
    frames: (u32, &[u8], usize),
    place: bool,
    answer: Result<(), Fault>,
    text: &[u8],
) -> Result<(), Fault> {
    let file = file_of(alloc, frames.0, frames.1, frames.2)?;
    let (found, written) = checked(alloc, &file, place);
    assert!(rt; found == answer);
    assert!(rt; written.as_slice() == text);
    Ok(())
}

#[test]
fn one_frame(rt: HostRuntime) -> Result<(), Fail> {
    comes_to(
        &rt,
        rt.alloc(),
        (1, b"\xFE\x7B\x00\x00\x02", 1),
        false,
        Ok(()),
        b"frame 0: 5 bytes, 1 slices, 11 decisions\nframes 1\n",
    )?;
    Ok(())
}

#[test]
fn no_frame(rt: HostRuntime) -> Result<(), Fail> {
    comes_to(
        &rt,
        rt.alloc(),
        (1, b"", 0),
        true,
        Err(Fault::NoFrames),
        b"",
    )?;
    Ok(())
}

static MISPLACED: &[u8] = b"\xFE\x7B\x00\x00\x02\xFE\x7B\x00\x00\x02";

static PLACE: &[u8] = b"fault frame 0 slice 1 plane 0 line 0 x 0 decisions 11\n";

#[test]
fn the_place_of_a_fault(rt: HostRuntime) -> Result<(), Fail> {
    let frames = (2, MISPLACED, 1);
    comes_to(
        &rt,
        rt.alloc(),
        frames,
        true,
        Err(Fault::Codec(CodecFault::Place)),
        PLACE,
    )?;
    Ok(())
}

#[test]
fn a_place_takes_no_memory(rt: HostRuntime) -> Result<(), Fail> {
    let file = file_of(rt.alloc(), 2, MISPLACED, 1)?;
    let mut refused = 0u8;
    for before in 0..40u64 {
        let heap = Scarce::new(rt.alloc(), before);
        let mut input = FromRead::new(file.as_slice());
        let mut output = ToWrite::new(Vec::new(rt.alloc()));
        let answer = check(&heap, Profile::Strict, &mut input, &mut output, true);
        let text = if answer == Err(Fault::OutOfMemory) {
            refused = refused.saturating_add(1);
            b"".as_slice()
        } else {
            assert!(rt; answer == Err(Fault::Codec(CodecFault::Place)));
            PLACE
        };
        assert!(rt; output.into_inner().as_slice() == text);
    }
    assert!(rt; 10 < refused && refused < 40);
    Ok(())
}

/// What a check of the first 270 bytes of two frames writes that asks for places.
fn of_cut_file(rt: &impl Abort, alloc: Global, profile: Profile, text: &[u8]) -> Result<(), Fault> {
    let file = file_of(alloc, 1, b"\xFE\x7B\x00\x00\x02", 2)?;
    let mut output = ToWrite::new(Vec::new(alloc));
    let part = file.get(..270).unwrap_or(b"");
    let answer = check(alloc, profile, &mut FromRead::new(part), &mut output, true);
    assert!(rt; answer == Err(Fault::File(FileFault::Truncated)));
    assert!(rt; output.into_inner().as_slice() == text);
    Ok(())
}

static CUT: &[u8] = b"frame 0: 5 bytes, 1 slices, 11 decisions
fault frame 1 byte 264
";

static CUT_STRICT: &[u8] = b"frame 0: 5 bytes, 1 slices, 11 decisions\n";

#[test]
fn the_byte_where_a_file_is_cut(rt: HostRuntime) -> Result<(), Fail> {
    of_cut_file(&rt, rt.alloc(), Profile::Wide, CUT)?;
    of_cut_file(&rt, rt.alloc(), Profile::Strict, CUT_STRICT)?;
    Ok(())
}
