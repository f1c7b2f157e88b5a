//! Slices that share chroma samples, by payloads and answers of an independent model.

mod large_rows;
mod rows;

ghost use Rattle.std.specs.Prelude.{◌≡◌, ◌++◌};

use self::large_rows::LARGE_ROWS;
use self::rows::{Pictures, ROWS, Row};
use ffv1_codec::{CodecFault, FrameDecoder, FrameEncoder, FrameFault, Info, KeepLines, Picture};
use ffv1_doubles::made;
use ffv1_record::{Checked, Coder, Profile, RecordFault};
use ffv1_wire::{LineSink, SinkFault};
use std::alloc::Global;
use std::test::Fail;

/// Pictures, checked in a profile.
fn checked_in(alloc: Global, pictures: Pictures, profile: Profile) -> Result<Checked, RecordFault> {
    let (width, height) = pictures.size;
    let (columns, rows) = pictures.grid;
    let mut config = made::mono(alloc, width, height, columns, pictures.ec)?;
    config.rows = rows;
    config.chroma_planes = true;
    config.extra_plane = pictures.extra_plane;
    config.log2_h = pictures.log2.0;
    config.log2_v = pictures.log2.1;
    if pictures.deltas {
        config.coder = Coder::Two([0; 255]);
    }
    config.check_in(profile, pictures.depth, 16)
}

/// Keeps plane, number and samples of its lines, and refuses one line, after so many.
#[derive(Drop)]
struct KeepTold {
    told: Vec<u8>,
    before: u64,
    failures: u64,
}

impl LineSink for KeepTold {
    ghost takes = { λ s _ _ samples t. Unit {0} };

    ghost refuses = { λ s _ _ samples t. Unit {0} };

    ghost failures = { λ s. s.failures };

    fn line(&mut self, plane: u8, y: u16, samples: &[u8]) -> Result<(), SinkFault> {
        let before = self.before;
        self.before = before.wrapping_sub(1);
        let head = [plane, (y % 256) as u8];
        if before != 0
            && self.told.extend_from_slice(&head).is_ok()
            && self.told.extend_from_slice(samples).is_ok()
        {
            return Ok(());
        }
        self.failures = self.failures.wrapping_add(1);
        Err(SinkFault)
    }
}

/// How many lines a sink takes for which a row says that it refuses one: 4, else all.
fn lines_before(row: Row) -> u64 {
    match row.answer {
        Some((CodecFault::Sink, _)) => 4,
        _ => u64::MAX,
    }
}

/// The fault of a row at its place.
fn fault_of(row: Row) -> Option<FrameFault> {
    row.answer.map(|(fault, (slice, plane, line, x))| FrameFault {
        fault,
        slice,
        plane,
        line,
        x,
    })
}

/// Whether a row comes to what it says, when it is decoded twice by one decoder.
fn comes_to(alloc: Global, row: Row) -> Result<bool, Fail> {
    let checked = checked_in(alloc, row.pictures, Profile::Wide)?;
    let mut decoder = FrameDecoder::new(alloc, checked)?;
    for _ in 0..2u8 {
        let mut sink = KeepTold {
            told: Vec::new(alloc),
            before: lines_before(row),
            failures: 0,
        };
        let fault = decoder.decode(row.payload, &mut sink).err();
        let right = fault == fault_of(row) && decoder.decisions() == row.decisions;
        if !right || sink.told.as_slice() != row.lines {
            return Ok(false);
        }
    }
    Ok(true)
}

#[test]
fn decoded(rt: HostRuntime) -> Result<(), Fail> {
    for &row in ROWS.iter().chain(&LARGE_ROWS) {
        let right = comes_to(rt.alloc(), row)?;
        assert!(rt; right, "{:?}", row.payload);
    }
    Ok(())
}

/// `Strict` refuses each of these pictures.
#[test]
fn strict(rt: HostRuntime) {
    for row in ROWS.iter().chain(&LARGE_ROWS) {
        let fault = checked_in(rt.alloc(), row.pictures, Profile::Strict).err();
        let depth = row.pictures.depth != 8;
        let wanted = if depth {
            RecordFault::Depth
        } else {
            RecordFault::ChromaEdge
        };
        assert!(rt; fault == Some(wanted));
    }
}

/// The picture that a payload codes.
fn picture_of(alloc: Global, row: Row) -> Result<Option<Picture>, Fail> {
    let checked = checked_in(alloc, row.pictures, Profile::Wide)?;
    let mut sink = KeepLines::new(alloc, &checked)?;
    let mut decoder = FrameDecoder::new(alloc, checked)?;
    if decoder.decode(row.payload, &mut sink).is_err() {
        return Ok(None);
    }
    let mut planes = Vec::new(alloc);
    for plane in sink.planes() {
        planes.push(plane.to_vec(alloc)?)?;
    }
    Ok(Picture::new(decoder.config(), planes))
}

/// Whether the picture of a payload is coded by it.
fn is_coded_so(alloc: Global, row: Row) -> Result<bool, Fail> {
    let Some(picture) = picture_of(alloc, row)? else {
        return Ok(row.answer.is_some());
    };
    let checked = checked_in(alloc, row.pictures, Profile::Wide)?;
    let mut encoder = FrameEncoder::new(alloc, checked);
    let Some(info) = Info::new(0, 0, 0) else {
        return Ok(false);
    };
    if !picture.fits(encoder.config()) {
        return Ok(false);
    }
    let frame = encoder.encode(&picture, info)?;
    Ok(frame.as_slice() == row.payload)
}

#[test]
fn encoded_again(rt: HostRuntime) -> Result<(), Fail> {
    for &row in ROWS.iter().chain(&LARGE_ROWS) {
        let right = is_coded_so(rt.alloc(), row)?;
        assert!(rt; right, "{:?}", row.payload);
    }
    Ok(())
}
