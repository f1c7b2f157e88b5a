//! Files of which an RIFF, or the first movi, has no size.

use super::example::EXAMPLE;
use ffv1_avi::AviReader;
use ffv1_doubles::riffs::MORE;
use ffv1_reads::FileFault;
use ffv1_wire::FromRead;
use std::alloc::{AllocError, Global};

/// Sizes that are not known.
const NONE: [u8; 4] = [0, 0, 0, 0];

const MOST: [u8; 4] = [255, 255, 255, 255];

/// The example, whose RIFF and movi say these sizes, with more bytes after it.
fn sized(
    alloc: Global,
    riff: Option<[u8; 4]>,
    movi: Option<[u8; 4]>,
    more: &[u8],
) -> Result<Vec<u8>, AllocError> {
    let mut file = Vec::from_slice(alloc, &EXAMPLE)?;
    if let Some(size) = riff {
        file[4..8].copy_from_slice(&size);
    }
    if let Some(size) = movi {
        file[276..280].copy_from_slice(&size);
    }
    file.extend_from_slice(more)?;
    Ok(file)
}

/// How many frames a file gives, and then its fault, and where that is; or the end, and whether a
/// size that is not known is there.
type Answer = (u32, Option<FileFault>, u64, bool);

fn read(alloc: Global, file: &[u8]) -> Answer {
    let mut input = FromRead::new(file);
    let mut reader = match AviReader::open_all(alloc, &mut input) {
        Ok(reader) => reader,
        Err(fault) => return (0, Some(fault), 0, false),
    };
    let mut frame = Vec::new(alloc);
    let mut count = 0u32;
    for _ in 0..4u32 {
        match reader.next_frame(&mut input, &mut frame) {
            Ok(true) => count = count.saturating_add(1),
            Ok(false) => return (count, None, 0, reader.open_ended()),
            Err(fault) => return (count, Some(fault), reader.offset(), reader.open_ended()),
        }
    }
    (count, None, 1, false)
}

/// To the end of the input, whichever of the two has no size.
#[test]
fn ends_with_the_input(rt: HostRuntime) {
    let alloc = rt.alloc();
    for riff in [None, Some(NONE), Some(MOST)] {
        for movi in [None, Some(NONE), Some(MOST)] {
            let file = sized(alloc, riff, movi, &[]);
            let is_open = riff.is_some() || movi.is_some();
            assert!(rt; file.map(|file| read(alloc, &file)) == Ok((1, None, 0, is_open)));
        }
    }
}

/// The size of an RIFF after one without size is not looked at.
#[test]
fn goes_on_with_an_riff(rt: HostRuntime) {
    let alloc = rt.alloc();
    for size in [NONE, MOST, [3, 0, 0, 0], [255, 255, 0, 0]] {
        let mut more = MORE;
        more[4..8].copy_from_slice(&size);
        let file = sized(alloc, None, Some(NONE), &more);
        assert!(rt; file.map(|file| read(alloc, &file)) == Ok((2, None, 0, true)));
    }
}

/// Behind an RIFF that has a size, one that has none.
#[test]
fn a_further_riff_alone(rt: HostRuntime) {
    let mut more = MORE;
    more[4..8].copy_from_slice(&NONE);
    let file = sized(rt.alloc(), None, None, &more);
    assert!(rt; file.map(|file| read(rt.alloc(), &file)) == Ok((2, None, 0, true)));
}

/// An index ends a movi without size, and no frame stands after it.
#[test]
fn an_index(rt: HostRuntime) {
    let alloc = rt.alloc();
    let index = sized(alloc, Some(NONE), Some(NONE), b"idx1\x02\0\0\0ab");
    assert!(rt; index.map(|file| read(alloc, &file)) == Ok((1, None, 0, true)));
    let frame = sized(
        alloc,
        Some(NONE),
        Some(NONE),
        b"idx1\0\0\0\x0000dc\x01\0\0\0a\0",
    );
    let refused = (1, Some(FileFault::NotAvi), 306, false);
    assert!(rt; frame.map(|file| read(alloc, &file)) == Ok(refused));
}

/// Where the input ends inside a chunk, or another file begins.
#[test]
fn refused(rt: HostRuntime) {
    let alloc = rt.alloc();
    let name = sized(alloc, Some(NONE), Some(NONE), b"00d");
    let truncated = (1, Some(FileFault::Truncated), 298, false);
    assert!(rt; name.map(|file| read(alloc, &file)) == Ok(truncated));
    let another = sized(alloc, Some(NONE), Some(NONE), &EXAMPLE);
    let other = (1, Some(FileFault::Another), 298, false);
    assert!(rt; another.map(|file| read(alloc, &file)) == Ok(other));
}

/// A list without size that is no movi, and a movi without size after another one in an RIFF that
/// has one.
#[test]
fn lists(rt: HostRuntime) {
    let alloc = rt.alloc();
    let list = sized(alloc, Some(NONE), None, b"LIST\0\0\0\0abcd");
    let refused = (1, Some(FileFault::NotAvi), 298, false);
    assert!(rt; list.map(|file| read(alloc, &file)) == Ok(refused));
    let movi = sized(alloc, Some([46, 1, 0, 0]), None, b"LIST\0\0\0\0movi");
    assert!(rt; movi.map(|file| read(alloc, &file)) == Ok(refused));
}
