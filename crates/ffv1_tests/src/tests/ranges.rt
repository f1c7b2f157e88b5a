//! Some frames of a file: what is written of them, and what is read.

use super::sums::{PAIR, file_of};
use ffv1_engine::{
    Fault, FrameRange, Profile, check_all_range, check_range, framemd5_range, unpack_range,
};
use ffv1_wire::{FromRead, ToWrite};
use std::alloc::Global;
use std::process::Abort;
use std::test::Fail;

/// The second of two frames, the first, and one that is not there.
const SECOND: FrameRange = FrameRange {
    first: 1,
    count: None,
};

const FIRST: FrameRange = FrameRange {
    first: 0,
    count: Some(1),
};

const THIRD: FrameRange = FrameRange {
    first: 2,
    count: Some(1),
};

/// The calls of a range.
#[derive(Clone, Copy)]
enum Call {
    Check,
    CheckAll,
    FrameMd5,
    Unpack,
}

/// What a call answers, without what it counts, and what it writes.
fn called(
    alloc: Global,
    call: Call,
    file: &[u8],
    range: FrameRange,
) -> (Result<(), Fault>, Vec<u8>) {
    let mut output = ToWrite::new(Vec::new(alloc));
    let mut input = FromRead::new(file);
    let wide = Profile::Wide;
    let answer = match call {
        Call::Check => {
            check_range(alloc, wide, &mut input, &mut output, true, range).map(|_| ())
        }
        Call::CheckAll => {
            check_all_range(alloc, wide, &mut input, &mut output, true, range).map(|_| ())
        }
        Call::FrameMd5 => {
            framemd5_range(alloc, wide, &mut input, &mut output, range).map(|_| ())
        }
        Call::Unpack => {
            let (written, count) = unpack_range(alloc, wide, &mut input, output, range);
            return (count.map(|_| ()), written.into_inner());
        }
    };
    (answer, output.into_inner())
}

/// A call on the file of `PAIR` answers so, and what it writes ends so.
fn comes_to(
    rt: &impl Abort,
    alloc: Global,
    call: (Call, FrameRange),
    answer: Result<(), Fault>,
    end: &[u8],
) -> Result<(), Fault> {
    let file = file_of(alloc, PAIR.0)?;
    let (found, text) = called(alloc, call.0, &file, call.1);
    assert!(rt; found == answer);
    assert!(rt; text.ends_with(end) && (end.is_empty() == text.is_empty()));
    Ok(())
}

/// Calls on one frame, and how what they write ends.
static CALLS: [(Call, FrameRange, &[u8]); 8] = [
    (Call::Check, SECOND, b" decisions\nframes 1\n"),
    (Call::Check, FIRST, b" decisions\nframes 1\n"),
    (Call::CheckAll, SECOND, b" decisions\nframes 1 faults 0\n"),
    (Call::CheckAll, FIRST, b" decisions\nframes 1 faults 0\n"),
    (
        Call::FrameMd5,
        SECOND,
        b"\n0,          1,          1,        1,        6, 06e22bc66691496dd92c04669b3703cc\n",
    ),
    (
        Call::FrameMd5,
        FIRST,
        b"\n0,          0,          0,        1,        6, 6ac1e56bc78f031059be7be854522c4c\n",
    ),
    (
        Call::Unpack,
        SECOND,
        b"C420jpeg\nFRAME\n\x11\x12\x13\x14\x15\x16",
    ),
    (
        Call::Unpack,
        FIRST,
        b"C420jpeg\nFRAME\n\x01\x02\x03\x04\x05\x06",
    ),
];

#[test]
fn one_frame(rt: HostRuntime) -> Result<(), Fail> {
    for &(call, range, end) in &CALLS {
        comes_to(&rt, rt.alloc(), (call, range), Ok(()), end)?;
    }
    Ok(())
}

#[test]
fn no_frame(rt: HostRuntime) -> Result<(), Fail> {
    for call in [Call::Check, Call::CheckAll, Call::FrameMd5, Call::Unpack] {
        comes_to(&rt, rt.alloc(), (call, THIRD), Err(Fault::NoFrames), b"")?;
    }
    Ok(())
}
