//! Files of more than one RIFF: at the wide profile each frame of them, at the strict one those of
//! the first `movi`.

use crate::tests::shows;
use ffv1_codec::CodecFault;
use ffv1_doubles::made;
use ffv1_doubles::riffs::MORE;
use ffv1_engine::{Fault, FrameRange, Notes, Profile, check, show, unpack, unpack_range};
use ffv1_reads::FileFault;
use ffv1_wire::{FromRead, ToWrite};
use std::alloc::Global;
use std::test::Fail;

/// A file of one frame of 1 by 1, and so many RIFFs of one frame after it; then these bytes.
fn file_of(alloc: Global, riffs: usize, last: &[u8]) -> Result<Vec<u8>, Fault> {
    let config = made::mono(alloc, 1, 1, 1, false)?;
    let mut file = shows::file_of(alloc, config, 25, 1, b"\xFE\x7B\x00\x00\x02", 1)?;
    for _riff in 0..riffs {
        file.extend_from_slice(&MORE)?;
    }
    file.extend_from_slice(last)?;
    Ok(file)
}

/// Whether a check answers so, and writes this.
fn checks(
    alloc: Global,
    profile: Profile,
    file: &[u8],
    answer: Result<Notes, Fault>,
    text: &[u8],
) -> bool {
    let mut output = ToWrite::new(Vec::new(alloc));
    let found = check(alloc, profile, &mut FromRead::new(file), &mut output, false);
    let same = output.into_inner().as_slice() == text;
    found == answer && same
}

/// Whether the frames are unpacked as so many, with these notes, and written as this text.
fn unpacks(
    alloc: Global,
    profile: Profile,
    file: &[u8],
    answer: (u64, Notes),
    text: &[u8],
) -> bool {
    let output = ToWrite::new(Vec::new(alloc));
    let (written, found) = unpack(alloc, profile, &mut FromRead::new(file), output);
    let same = written.into_inner().as_slice() == text;
    found == Ok(answer) && same
}

/// Whether what a file says ends with this text, with what its frames cost, and these notes.
fn is_shown(alloc: Global, profile: Profile, file: &[u8], notes: Notes, end: &[u8]) -> bool {
    let mut output = ToWrite::new(Vec::new(alloc));
    let found = show(alloc, profile, &mut FromRead::new(file), &mut output, true);
    let same = output.into_inner().as_slice().ends_with(end);
    found == Ok(notes) && same
}

const ONE: &[u8] = b"frame 0: 5 bytes, 1 slices, 11 decisions\nframes 1\n";

static TWO: &[u8] =
    b"frame 0: 5 bytes, 1 slices, 11 decisions\nframe 1: 5 bytes, 1 slices, 11 decisions\n\
    frame 2: 5 bytes, 1 slices, 11 decisions\n";

static THREE: &[u8] =
    b"frame 0: 5 bytes, 1 slices, 11 decisions\nframe 1: 5 bytes, 1 slices, 11 decisions\n\
    frame 2: 5 bytes, 1 slices, 11 decisions\nframes 3\n";

/// What the second of two frames cost.
static COST: &[u8] = b"cost frame 1: ones 11 zeros 0 renormalisations 1\n";

/// A `RIFF` after the first, of a frame of no bytes.
static AGAIN: &[u8] = b"RIFF\x18\0\0\0AVIXLIST\x0C\0\0\0movi00dc\0\0\0\0";

/// One frame repeats another.
const REPEATED: Notes = Notes {
    is_open: false,
    others: 0,
    times: None,
    repeated: 1,
    after: None,
};

static LAST_AGAIN: &[u8] =
    b"frame 0: 5 bytes, 1 slices, 11 decisions\nframe 1: 5 bytes, 1 slices, 11 decisions\n\
    frame 2: again\nframes 3\n";

static FIRST_AGAIN: &[u8] = b"frame 0: again\nframe 1: 5 bytes, 1 slices, 11 decisions\nframes 2\n";

#[test]
fn each_frame_is_checked(rt: HostRuntime) -> Result<(), Fail> {
    let file = file_of(rt.alloc(), 2, b"")?;
    assert!(rt; checks(rt.alloc(), Profile::Wide, &file, Ok(Notes::NONE), THREE));
    assert!(rt; checks(rt.alloc(), Profile::Strict, &file, Ok(Notes::NONE), ONE));
    Ok(())
}

/// Bytes with which no file begins are noted at the wide profile, behind the last `RIFF`.
#[test]
fn what_stands_behind_is_looked_at(rt: HostRuntime) -> Result<(), Fail> {
    let file = file_of(rt.alloc(), 2, b"\0\0\0")?;
    let noted = Notes {
        is_open: false,
        others: 0,
        times: None,
        repeated: 0,
        after: Some(file.len().saturating_sub(3) as u64),
    };
    assert!(rt; checks(rt.alloc(), Profile::Wide, &file, Ok(noted), THREE));
    assert!(rt; checks(rt.alloc(), Profile::Strict, &file, Ok(Notes::NONE), ONE));
    Ok(())
}

/// Another file there is refused.
#[test]
fn another_file_is_refused(rt: HostRuntime) -> Result<(), Fail> {
    let file = file_of(rt.alloc(), 2, b"RIFF\x04\0\0\0AVI ")?;
    assert!(rt;
        checks(
            rt.alloc(),
            Profile::Wide,
            &file,
            Err(Fault::File(FileFault::Another)),
            TWO
        )
    );
    assert!(rt; checks(rt.alloc(), Profile::Strict, &file, Ok(Notes::NONE), ONE));
    Ok(())
}

#[test]
fn each_frame_is_unpacked(rt: HostRuntime) -> Result<(), Fail> {
    let file = file_of(rt.alloc(), 1, b"")?;
    let two = b"YUV4MPEG2 W1 H1 F25:1 I? A0:0 Cmono\nFRAME\n\0FRAME\n\0";
    assert!(rt; unpacks(rt.alloc(), Profile::Wide, &file, (2, Notes::NONE), two));
    assert!(rt;
        unpacks(
            rt.alloc(),
            Profile::Strict,
            &file,
            (1, Notes::NONE),
            &two[..43]
        )
    );
    Ok(())
}

#[test]
fn each_frame_is_shown(rt: HostRuntime) -> Result<(), Fail> {
    let file = file_of(rt.alloc(), 1, b"")?;
    assert!(rt; is_shown(rt.alloc(), Profile::Wide, &file, Notes::NONE, COST));
    Ok(())
}

/// A file whose first frame has no bytes, with one more in a further `RIFF`.
fn first_again(alloc: Global) -> Result<Vec<u8>, Fault> {
    let config = made::mono(alloc, 1, 1, 1, false)?;
    let mut file = shows::file_of(alloc, config, 25, 1, b"", 1)?;
    file.extend_from_slice(&MORE)?;
    Ok(file)
}

/// A chunk of no bytes repeats the frame before it at the wide profile, and is noted; the strict
/// one refuses it.
#[test]
fn empty_chunks_are_checked(rt: HostRuntime) -> Result<(), Fail> {
    let last = file_of(rt.alloc(), 1, AGAIN)?;
    assert!(rt; checks(rt.alloc(), Profile::Wide, &last, Ok(REPEATED), LAST_AGAIN));
    assert!(rt; checks(rt.alloc(), Profile::Strict, &last, Ok(Notes::NONE), ONE));
    let first = first_again(rt.alloc())?;
    assert!(rt; checks(rt.alloc(), Profile::Wide, &first, Ok(REPEATED), FIRST_AGAIN));
    assert!(rt;
        checks(
            rt.alloc(),
            Profile::Strict,
            &first,
            Err(Fault::File(FileFault::EmptyFrame)),
            b""
        )
    );
    Ok(())
}

/// The picture before is written once more, and none before the first.
#[test]
fn empty_chunks_are_unpacked(rt: HostRuntime) -> Result<(), Fail> {
    let three = b"YUV4MPEG2 W1 H1 F25:1 I? A0:0 Cmono\nFRAME\n\0FRAME\n\0FRAME\n\0";
    let last = file_of(rt.alloc(), 1, AGAIN)?;
    assert!(rt; unpacks(rt.alloc(), Profile::Wide, &last, (3, REPEATED), three));
    let first = first_again(rt.alloc())?;
    assert!(rt;
        unpacks(
            rt.alloc(),
            Profile::Wide,
            &first,
            (2, REPEATED),
            &three[..43]
        )
    );
    Ok(())
}

#[test]
fn empty_chunks_are_shown(rt: HostRuntime) -> Result<(), Fail> {
    let last = file_of(rt.alloc(), 1, AGAIN)?;
    let end = b"renormalisations 1\ncost frame 2: again\n";
    assert!(rt; is_shown(rt.alloc(), Profile::Wide, &last, REPEATED, end));
    Ok(())
}

/// Whether one frame, of this number, is unpacked as this text, with no notes, or is refused.
fn unpacks_one(
    alloc: Global,
    file: &[u8],
    first: u32,
    answer: Result<(), Fault>,
    text: &[u8],
) -> bool {
    let output = ToWrite::new(Vec::new(alloc));
    let range = FrameRange {
        first,
        count: Some(1),
    };
    let mut input = FromRead::new(file);
    let (written, found) = unpack_range(alloc, Profile::Wide, &mut input, output, range);
    let same = written.into_inner().as_slice() == text;
    found == answer.map(|_| (1, Notes::NONE)) && same
}

/// A part that begins with a chunk of no bytes shows the last frame before it that has bytes, which
/// may be refused; before the first one it shows none.
#[test]
fn parts_begin_with_empty_chunks(rt: HostRuntime) -> Result<(), Fail> {
    let one = b"YUV4MPEG2 W1 H1 F25:1 I? A0:0 Cmono\nFRAME\n\0";
    let mut last = file_of(rt.alloc(), 1, AGAIN)?;
    last.extend_from_slice(AGAIN)?;
    assert!(rt; unpacks_one(rt.alloc(), &last, 2, Ok(()), one));
    assert!(rt; unpacks_one(rt.alloc(), &last, 3, Ok(()), one));
    let first = first_again(rt.alloc())?;
    assert!(rt; unpacks_one(rt.alloc(), &first, 0, Ok(()), b""));
    let config = made::mono(rt.alloc(), 1, 1, 1, false)?;
    let mut refused = shows::file_of(rt.alloc(), config, 25, 1, b"\x00\x00\x00\x00\x02", 1)?;
    refused.extend_from_slice(AGAIN)?;
    assert!(rt;
        unpacks_one(
            rt.alloc(),
            &refused,
            1,
            Err(Fault::Codec(CodecFault::NotKey)),
            b""
        )
    );
    Ok(())
}
