//! Frames: the payload of a picture, and what is counted of it.

use crate::fields::{Count, bytes, counted, number};
use anyhow::{Context, Result, ensure};
use ffv1_codec::{FrameCounts, FrameEncoder, Info, Picture};
use ffv1_record::{Checked, Profile, read_record_in};
use ffv1_slice::Grid;
use std::alloc::Global;
use std::fs;
use std::rt::Files;
use std::str::SplitWhitespace;

/// The configuration of a record, of pictures of a size, in a profile.
pub(crate) fn configuration(
    alloc: Global,
    fields: &mut SplitWhitespace<'_>,
    profile: Profile,
) -> Result<Checked> {
    let width = number(fields)?;
    let height = number(fields)?;
    let record = bytes(alloc, fields)?;
    Ok(read_record_in(alloc, record.as_slice(), width, height, profile, 16)?)
}

/// What is said of a picture.
fn info(fields: &mut SplitWhitespace<'_>) -> Result<Info> {
    let structure = u8::try_from(number(fields)?)?;
    let sar_num = u16::try_from(number(fields)?)?;
    let sar_den = u16::try_from(number(fields)?)?;
    Info::new(structure, sar_num, sar_den).context("no such info")
}

/// The planes of a picture, of the bytes of all its samples one plane after the other.
fn planes(alloc: Global, checked: &Checked, samples: &[u8]) -> Result<Vec<Vec<u8>>> {
    let grid = Grid::of(checked);
    let mut planes = Vec::new(alloc);
    let mut rest = samples;
    for plane in 0..grid.planes() {
        let places = grid.width(plane) as usize * grid.height(plane) as usize;
        let size = places.saturating_mul(grid.sample_bytes());
        ensure!(size <= rest.len(), "samples are missing");
        planes.push(rest[..size].to_vec(alloc)?)?;
        rest = &rest[size..];
    }
    Ok(planes)
}

/// The picture of the samples in the next field.
fn picture(alloc: Global, checked: &Checked, fields: &mut SplitWhitespace<'_>) -> Result<Picture> {
    let samples = bytes(alloc, fields)?;
    let planes = planes(alloc, checked, samples.as_slice())?;
    Picture::new(checked, planes).context("no such picture")
}

/// Whether the next field is these bytes.
pub(crate) fn is_next(
    alloc: Global,
    fields: &mut SplitWhitespace<'_>,
    found: &[u8],
) -> Result<bool> {
    let wanted = bytes(alloc, fields)?;
    Ok(found == wanted.as_slice())
}

/// Whether the next fields are what was counted.
fn are_counted(fields: &mut SplitWhitespace<'_>, counts: FrameCounts) -> Result<bool> {
    let decisions = u64::from(number(fields)?);
    let renormalisations = u64::from(number(fields)?);
    Ok((counts.decisions, counts.renormalisations) == (decisions, renormalisations))
}

/// Whether a picture has the payload and the counts of the next fields.
fn is_encoded(
    alloc: Global,
    encoder: &mut FrameEncoder,
    picture: &Picture,
    info: Info,
    fields: &mut SplitWhitespace<'_>,
) -> Result<bool> {
    ensure!(picture.fits(encoder.config()), "another picture");
    let frame = encoder.encode(picture, info)?;
    let same = is_next(alloc, fields, frame.as_slice())?;
    Ok(are_counted(fields, encoder.counts())? && same)
}

/// Whether one case agrees.
fn case(alloc: Global, line: &str, profile: Profile) -> Result<bool> {
    let mut fields = line.split_whitespace();
    let checked = configuration(alloc, &mut fields, profile)?;
    let info = info(&mut fields)?;
    let picture = picture(alloc, &checked, &mut fields)?;
    let mut encoder = FrameEncoder::new(alloc, checked);
    is_encoded(alloc, &mut encoder, &picture, info, &mut fields)
}

/// How many cases of a file agree, in a profile.
pub(crate) fn count<R: AllocGlobal + Files>(rt: &R, name: &str, profile: Profile) -> Result<Count> {
    let text = fs::read_to_string(rt, name)?;
    let mut count = Count { agree: 0, cases: 0 };
    for line in text.lines() {
        count = counted(count, case(rt.alloc(), line, profile)?);
    }
    Ok(count)
}
