//! AVI files made by FFmpeg 5.1: their sizes and rates, columns, rows and ec of their records, and
//! the lengths of their frames, each of which is cut. They were made by
//!
//! ```text
//! ffmpeg -f lavfi -i testsrc2=size=16x12:rate=25 -frames:v 2 -pix_fmt yuv420p -c:v ffv1 -level 3 \
//!     -coder range_def -context 0 -slices 4 -slicecrc 1 -g 1 yuv420p.avi
//! ffmpeg -f lavfi -i testsrc2=size=24x16:rate=30000/1001 -frames:v 2 -pix_fmt bgr0 -c:v ffv1 \
//!     -level 3 -coder range_tab -context 1 -slices 4 -slicecrc 0 -g 1 bgr0.avi
//! ```

use crate::fields::{Count, counted, number};
use anyhow::{Context, Result};
use ffv1_avi::AviReader;
use ffv1_reads::FileHead;
use ffv1_record::{Checked, read_record};
use ffv1_slice::{Spans, cut};
use ffv1_wire::{ByteIn, FromRead};
use std::alloc::Global;
use std::fs;
use std::rt::Files;
use std::str::SplitWhitespace;

/// Whether a head has the next sizes and rates of a line.
fn is_head(fields: &mut SplitWhitespace<'_>, head: &FileHead) -> Result<bool> {
    let sizes = head.width == number(fields)? && head.height == number(fields)?;
    let rates = head.rate == number(fields)? && head.scale == number(fields)?;
    Ok(sizes && rates)
}

/// Whether a configuration has the next columns, rows and ec of a line.
fn is_record(fields: &mut SplitWhitespace<'_>, checked: &Checked) -> Result<bool> {
    let config = checked.config();
    let grid = config.columns == number(fields)? && config.rows == number(fields)?;
    Ok(grid && config.ec == (number(fields)? == 1))
}

/// Whether the frames of a file have the lengths of the rest of a line, and are all, and are cut.
fn are_frames<R: ByteIn>(
    alloc: Global,
    fields: &mut SplitWhitespace<'_>,
    reader: &mut AviReader,
    input: &mut R,
    checked: &Checked,
) -> Result<bool> {
    let mut spans = Spans::new(alloc)?;
    let mut frame = Vec::new(alloc);
    for length in fields {
        let wanted = length.parse::<usize>()?;
        if !reader.next_frame(input, &mut frame)? || frame.len() != wanted {
            return Ok(false);
        }
        cut(checked, frame.as_slice(), &mut spans)
            .ok()
            .context("a frame is not cut")?;
    }
    Ok(!reader.next_frame(input, &mut frame)?)
}

/// Whether one file agrees.
fn case<R: AllocGlobal + Files>(rt: &R, line: &str) -> Result<bool> {
    let mut fields = line.split_whitespace();
    let name = fields.next().context("a name is missing")?;
    let mut input = FromRead::new(fs::open(rt, name)?);
    let mut reader = AviReader::open(rt.alloc(), &mut input)?;
    if !is_head(&mut fields, reader.head())? {
        return Ok(false);
    }
    let head = reader.head();
    let record = head.config_record.as_slice();
    let checked = read_record(rt.alloc(), record, head.width, head.height)?;
    if !is_record(&mut fields, &checked)? {
        return Ok(false);
    }
    are_frames(rt.alloc(), &mut fields, &mut reader, &mut input, &checked)
}

/// How many files agree.
pub(crate) fn count<R: AllocGlobal + Files>(rt: &R) -> Result<Count> {
    let text = fs::read_to_string(rt, "files.txt")?;
    let mut count = Count { agree: 0, cases: 0 };
    for line in text.lines() {
        count = counted(count, case(rt, line)?);
    }
    Ok(count)
}
