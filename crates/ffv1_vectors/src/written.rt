//! Files of Matroska that are written: the lengths and the CRC-32 of the three forms, or the fault.

use crate::fields::{Count, bytes, counted, number};
use crate::matroska::number_of;
use anyhow::{Context, Result};
use ffv1_matroska::{CodecId, MatroskaWriter, TrackEntry};
use ffv1_reads::{Colour, FileHead};
use ffv1_sum::crc32;
use ffv1_wire::{ByteOut, ToMemory, ToWrite};
use std::alloc::Global;
use std::fs;
use std::rt::Files;
use std::str::SplitWhitespace;

/// What files are written of.
#[derive(Drop)]
struct Given<'a> {
    head: FileHead,
    details: TrackEntry,
    seed: u32,
    runs: &'a str,
}

/// The size, the rate and the record of the next fields.
fn head(alloc: Global, fields: &mut SplitWhitespace<'_>) -> Result<FileHead> {
    let width = number(fields)?;
    let height = number(fields)?;
    let rate = number(fields)?;
    let scale = number(fields)?;
    let config_record = bytes(alloc, fields)?;
    Ok(FileHead {
        width,
        height,
        rate,
        scale,
        colour: Colour::UNSAID,
        config_record,
    })
}

/// The structure and the aspect of the next fields.
fn details(fields: &mut SplitWhitespace<'_>) -> Result<TrackEntry> {
    let structure = u8::try_from(number(fields)?)?;
    let sar_num = u16::try_from(number(fields)?)?;
    let sar_den = u16::try_from(number(fields)?)?;
    Ok(TrackEntry {
        codec_id: CodecId::Native,
        structure,
        sar_num,
        sar_den,
    })
}

/// Makes a frame of so many bytes, each the highest byte of the next number: 1664525 times the one
/// before and 1013904223 more, modulo 2^32. It answers the last number.
fn make(frame: &mut Vec<u8>, length: u32, before: u32) -> Result<u32> {
    let mut state = before;
    frame.clear();
    for _ in 0..length {
        state = state.wrapping_mul(1664525).wrapping_add(1013904223);
        frame.push((state >> 24) as u8)?;
    }
    Ok(state)
}

/// Puts so many frames of a length.
fn put_run<W: ByteOut>(
    alloc: Global,
    writer: &mut MatroskaWriter,
    out: &mut W,
    run: &str,
    before: u32,
) -> Result<u32> {
    let (count, length) = run.split_once("*").context("a length is missing")?;
    let (count, length) = (count.parse::<u32>()?, length.parse::<u32>()?);
    let mut frame = Vec::new(alloc);
    let mut state = before;
    for _ in 0..count {
        state = make(&mut frame, length, state)?;
        writer.put(out, frame.as_slice())?;
    }
    Ok(state)
}

/// Puts all frames.
fn put_all<W: ByteOut>(
    alloc: Global,
    writer: &mut MatroskaWriter,
    out: &mut W,
    given: &Given<'_>,
) -> Result<()> {
    let mut state = given.seed;
    for run in given.runs.split_whitespace() {
        state = put_run(alloc, writer, out, run, state)?;
    }
    Ok(())
}

/// Whether bytes have the length and the sum of the next fields.
fn are_summed(fields: &mut SplitWhitespace<'_>, bytes: &[u8]) -> Result<bool> {
    let length = number(fields)?;
    let sum = number(fields)?;
    Ok(bytes.len() == length as usize && crc32(bytes) == sum)
}

/// Whether the begun form and then the finished form are those of the next fields.
fn is_finished(
    alloc: Global,
    fields: &mut SplitWhitespace<'_>,
    writer: MatroskaWriter,
    given: &Given<'_>,
) -> Result<bool> {
    let mut writer = writer;
    let mut out = ToMemory::new(alloc);
    put_all(alloc, &mut writer, &mut out, given)?;
    let is_begun = are_summed(fields, out.bytes())?;
    let is_ended = writer.finish(&mut out)?;
    Ok(is_begun && is_ended && are_summed(fields, out.bytes())?)
}

/// Whether the open form is that of the next fields.
fn is_open(
    alloc: Global,
    fields: &mut SplitWhitespace<'_>,
    writer: MatroskaWriter,
    given: &Given<'_>,
) -> Result<bool> {
    let mut writer = writer;
    let mut out = ToWrite::new(Vec::new(alloc));
    put_all(alloc, &mut writer, &mut out, given)?;
    let is_ended = writer.finish(&mut out)?;
    Ok(!is_ended && are_summed(fields, out.into_inner().as_slice())?)
}

/// Whether the three forms are those of the next fields, or the fault is this one.
fn is_written(
    alloc: Global,
    fields: &mut SplitWhitespace<'_>,
    given: &Given<'_>,
    fault: u32,
) -> Result<bool> {
    let writer = match MatroskaWriter::new(alloc, &given.head, given.details) {
        Ok(writer) => writer,
        Err(met) => return Ok(number_of(met) == fault),
    };
    if fault != 0 || !is_finished(alloc, fields, writer, given)? {
        return Ok(false);
    }
    let writer = MatroskaWriter::new(alloc, &given.head, given.details)?;
    is_open(alloc, fields, writer, given)
}

/// Whether one case agrees.
fn case(alloc: Global, line: &str) -> Result<bool> {
    let (said, runs) = line.split_once(";").context("frames are missing")?;
    let mut fields = said.split_whitespace();
    let head = head(alloc, &mut fields)?;
    let details = details(&mut fields)?;
    let fault = number(&mut fields)?;
    let seed = number(&mut fields)?;
    let given = Given {
        head,
        details,
        seed,
        runs,
    };
    is_written(alloc, &mut fields, &given, fault)
}

/// How many cases agree.
pub(crate) fn count<R: AllocGlobal + Files>(rt: &R) -> Result<Count> {
    let text = fs::read_to_string(rt, "written.txt")?;
    let mut count = Count { agree: 0, cases: 0 };
    for line in text.lines() {
        count = counted(count, case(rt.alloc(), line)?);
    }
    Ok(count)
}
