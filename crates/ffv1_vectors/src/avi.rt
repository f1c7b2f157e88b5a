//! Files of AVI: what their heads say, their frames, the fault after them or the end, and how many
//! bytes are left.

use crate::fields::{Count, bytes, counted, number};
use crate::matroska::{is_frame, is_head, number_of};
use anyhow::Result;
use ffv1_avi::AviReader;
use ffv1_reads::FileFault;
use ffv1_wire::FromRead;
use std::alloc::Global;
use std::fs;
use std::rt::Files;
use std::str::SplitWhitespace;

/// The reader of all RIFFs of a file, or of its first list movi.
fn opened(
    alloc: Global,
    is_whole: bool,
    input: &mut FromRead<&[u8]>,
) -> Result<AviReader, FileFault> {
    if is_whole {
        AviReader::open_all(alloc, input)
    } else {
        AviReader::open(alloc, input)
    }
}

/// Whether the frames of a file have the lengths and sums of the rest of a line, and then it has
/// this fault, or ends if that is 0; the second time too.
fn are_frames(
    alloc: Global,
    fields: &mut SplitWhitespace<'_>,
    reader: &mut AviReader,
    input: &mut FromRead<&[u8]>,
    fault: u32,
) -> Result<bool> {
    let mut frame = Vec::new(alloc);
    for field in fields {
        if reader.next_frame(input, &mut frame) != Ok(true) || !is_frame(field, frame.as_slice())? {
            return Ok(false);
        }
    }
    let end = reader.next_frame(input, &mut frame);
    let again = reader.next_frame(input, &mut frame) == end;
    match end {
        Ok(more) => Ok(again && !more && fault == 0 && frame.is_empty()),
        Err(met) => Ok(again && number_of(met) == fault),
    }
}

/// Whether a file is opened as the next fields say, and has the frames of those after them.
fn is_opened(
    alloc: Global,
    fields: &mut SplitWhitespace<'_>,
    input: &mut FromRead<&[u8]>,
    is_whole: bool,
    fault: u32,
) -> Result<bool> {
    let has_head = number(fields)? == 1;
    match opened(alloc, is_whole, input) {
        Ok(reader) => {
            let mut reader = reader;
            if !has_head || !is_head(alloc, fields, reader.head())? {
                return Ok(false);
            }
            are_frames(alloc, fields, &mut reader, input, fault)
        }
        Err(met) => Ok(!has_head && number_of(met) == fault),
    }
}

/// Whether a file is read as the rest of a line says.
fn is_read(alloc: Global, fields: &mut SplitWhitespace<'_>, file: &[u8]) -> Result<bool> {
    let is_whole = number(fields)? == 1;
    let fault = number(fields)?;
    let left = number(fields)?;
    let mut input = FromRead::new(file);
    let agrees = is_opened(alloc, fields, &mut input, is_whole, fault)?;
    Ok(agrees && input.into_inner().len() == left as usize)
}

/// Whether one case agrees.
fn case(alloc: Global, line: &str) -> Result<bool> {
    let mut fields = line.split_whitespace();
    let file = bytes(alloc, &mut fields)?;
    is_read(alloc, &mut fields, file.as_slice())
}

/// How many cases agree.
pub(crate) fn count<R: AllocGlobal + Files>(rt: &R) -> Result<Count> {
    let text = fs::read_to_string(rt, "avi.txt")?;
    let mut count = Count { agree: 0, cases: 0 };
    for line in text.lines() {
        count = counted(count, case(rt.alloc(), line)?);
    }
    Ok(count)
}
