//! Files of Matroska: what their heads say, their frames, the fault after them or the end, and how
//! many bytes are left.

use crate::fields::{Count, bytes, counted, number};
use anyhow::{Context, Result};
use ffv1_matroska::MatroskaReader;
use ffv1_reads::{FileFault, FileHead};
use ffv1_sum::crc32;
use ffv1_wire::{ByteIn, FromRead};
use std::alloc::Global;
use std::fs;
use std::rt::Files;
use std::str::SplitWhitespace;

/// The number of a fault.
pub(crate) fn number_of(fault: FileFault) -> u32 {
    match fault {
        FileFault::OutOfMemory => 2,
        FileFault::NotAvi => 50,
        FileFault::NoFfv1 => 51,
        FileFault::Truncated => 52,
        FileFault::ChunkTooLong => 53,
        FileFault::EmptyFrame => 54,
        FileFault::TooLarge => 55,
        FileFault::Read => 56,
        FileFault::Write => 57,
        FileFault::NotMatroska => 80,
        FileFault::BadElement => 81,
        FileFault::NoTracks => 82,
        FileFault::Encoded => 83,
        FileFault::Laced => 84,
        FileFault::Checksum => 85,
        FileFault::Rate => 86,
        FileFault::Another => 88,
    }
}

/// Whether the size of a Segment is the next field: `-` if it is unknown.
fn is_size(fields: &mut SplitWhitespace<'_>, size: Option<u64>) -> Result<bool> {
    let field = fields.next().context("a size is missing")?;
    match size {
        Some(size) => Ok(field.parse::<u64>() == Ok(size)),
        None => Ok(field == "-"),
    }
}

/// Whether a head has the next sizes, rates and record of a line.
pub(crate) fn is_head(
    alloc: Global,
    fields: &mut SplitWhitespace<'_>,
    head: &FileHead,
) -> Result<bool> {
    let sizes = head.width == number(fields)? && head.height == number(fields)?;
    let rates = head.rate == number(fields)? && head.scale == number(fields)?;
    let record = bytes(alloc, fields)?;
    Ok(sizes && rates && head.config_record.as_slice() == record.as_slice())
}

/// Whether a frame has the length and the sum of a field.
pub(crate) fn is_frame(field: &str, frame: &[u8]) -> Result<bool> {
    let (length, sum) = field.split_once(":").context("a sum is missing")?;
    let has_length = frame.len() == length.parse::<usize>()?;
    Ok(has_length && crc32(frame) == sum.parse::<u32>()?)
}

/// Whether what stands behind the Segment is refused with this fault, or by none if that is 0.
fn is_end<R: ByteIn>(reader: &MatroskaReader, input: &mut R, fault: u32) -> bool {
    match reader.look_behind(input) {
        Ok(_) => fault == 0,
        Err(met) => number_of(met) == fault,
    }
}

/// Whether the frames of a file have the lengths and sums of the rest of a line, and then it has
/// this fault, the second time too and with no frame, or ends if that is 0, and what stands behind
/// it is then looked at too.
fn are_frames<R: ByteIn>(
    alloc: Global,
    fields: &mut SplitWhitespace<'_>,
    reader: &mut MatroskaReader,
    input: &mut R,
    fault: u32,
) -> Result<bool> {
    let mut frame = Vec::new(alloc);
    for field in fields {
        if reader.next_frame(input, &mut frame) != Ok(true) || !is_frame(field, frame.as_slice())? {
            return Ok(false);
        }
    }
    match reader.next_frame(input, &mut frame) {
        Ok(more) => Ok(!more && is_end(reader, input, fault)),
        Err(met) => {
            let again = reader.next_frame(input, &mut frame) == Err(met);
            Ok(again && frame.is_empty() && number_of(met) == fault)
        }
    }
}

/// Whether a file is read as the rest of a line says.
fn is_read<R: ByteIn>(
    alloc: Global,
    fields: &mut SplitWhitespace<'_>,
    input: &mut R,
    fault: u32,
) -> Result<bool> {
    let is_opened = number(fields)? == 1;
    match MatroskaReader::open(alloc, input) {
        Ok(reader) => {
            let mut reader = reader;
            if !is_opened || !is_size(fields, reader.segment())? {
                return Ok(false);
            }
            if !is_head(alloc, fields, reader.head())? {
                return Ok(false);
            }
            are_frames(alloc, fields, &mut reader, input, fault)
        }
        Err(met) => Ok(!is_opened && number_of(met) == fault),
    }
}

/// Changes the byte at an offset by exclusive or.
fn change(file: &mut Vec<u8>, place: u32, bits: u32) {
    if let Some(byte) = file.get_mut(place as usize) {
        *byte ^= (bits % 256) as u8;
    }
}

/// Whether one case agrees. The file is that of the line before if the line begins with `=`, and
/// one of its bytes may then be changed.
fn case(alloc: Global, line: &str, file: &mut Vec<u8>) -> Result<bool> {
    let mut fields = line.split_whitespace();
    if line.starts_with("=") {
        fields.next().context("a file is missing")?;
    } else {
        *file = bytes(alloc, &mut fields)?;
    }
    let place = number(&mut fields)?;
    let bits = number(&mut fields)?;
    change(file, place, bits);
    let fault = number(&mut fields)?;
    let left = number(&mut fields)?;
    let mut input = FromRead::new(file.as_slice());
    let agrees = is_read(alloc, &mut fields, &mut input, fault)?;
    let same = input.into_inner().len() == left as usize;
    change(file, place, bits);
    Ok(agrees && same)
}

/// How many cases agree.
pub(crate) fn count<R: AllocGlobal + Files>(rt: &R) -> Result<Count> {
    let text = fs::read_to_string(rt, "matroska.txt")?;
    let mut count = Count { agree: 0, cases: 0 };
    let mut file = Vec::new(rt.alloc());
    for line in text.lines() {
        count = counted(count, case(rt.alloc(), line, &mut file)?);
    }
    Ok(count)
}
