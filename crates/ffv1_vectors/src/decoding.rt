//! Payloads that are decoded: the info, or the fault with its place, what was decided, and the
//! lines that were handed over.

ghost use Rattle.std.specs.Prelude.{◌≡◌};
ghost use Rattle.ffv1_wire.specs.Failures.{one_more};

use crate::fields::{Count, bytes, counted, number};
use crate::frames::{configuration, is_next};
use anyhow::Result;
use ffv1_codec::{CodecFault, FrameDecoder, FrameFault, Info};
use ffv1_range::Tally;
use ffv1_record::Profile;
use ffv1_wire::{LineSink, SinkFault};
use std::alloc::{AllocError, Global};
use std::fs;
use std::rt::Files;
use std::str::SplitWhitespace;

/// A sink that takes so many lines, and refuses from then on. It keeps each by its plane, its row
/// and its samples.
#[derive(Drop)]
struct FewLines {
    text: Vec<u8>,
    room: u32,
    failures: u64,
}

impl FewLines {
    /// Keeps a line.
    fn keep(&mut self, plane: u8, y: u16, samples: &[u8]) -> Result<(), AllocError>
        ensures failures { self.new.failures ≡ self.old.failures }
        ensures room { self.new.room ≡ self.old.room }
    {
        self.text.push(plane)?;
        self.text.extend_from_slice(&y.to_be_bytes())?;
        self.text.extend_from_slice(samples)?;
        Ok(())
    }
}

impl LineSink for FewLines {
    ghost takes = { λ s _ _ _ t. t.failures ≡ s.failures };

    ghost refuses = { λ s _ _ _ t. t.failures ≡ one_more s.failures };

    ghost failures = { λ s. s.failures };

    fn line(&mut self, plane: u8, y: u16, samples: &[u8]) -> Result<(), SinkFault> {
        if self.room == 0 || self.keep(plane, y, samples).is_err() {
            self.failures = self.failures.wrapping_add(1);
            return Err(SinkFault);
        }
        self.room -= 1;
        Ok(())
    }
}

/// The number of a fault.
fn number_of(fault: CodecFault) -> u32 {
    match fault {
        CodecFault::OutOfMemory => 2,
        CodecFault::BadStart => 3,
        CodecFault::SymbolTooLong => 4,
        CodecFault::Colour => 7,
        CodecFault::Overread => 8,
        CodecFault::Ending => 9,
        CodecFault::BitsEnd => 27,
        CodecFault::BadCode => 28,
        CodecFault::Padding => 29,
        CodecFault::NotKey => 30,
        CodecFault::Place => 31,
        CodecFault::SetIndex => 32,
        CodecFault::Structure => 33,
        CodecFault::Aspect => 34,
        CodecFault::Footer => 35,
        CodecFault::Leftover => 36,
        CodecFault::SliceParity => 37,
        CodecFault::SliceStatus => 38,
        CodecFault::Overlap => 39,
        CodecFault::SliceTooLong => 40,
        CodecFault::InfoDiffers => 41,
        CodecFault::Sink => 42,
    }
}

/// The numbers of an answer: the fault with its slice, plane, line and column, and the info.
fn numbers_of(answer: Result<Info, FrameFault>) -> [u32; 8] {
    match answer {
        Err(refused) => [
            number_of(refused.fault),
            u32::from(refused.slice),
            u32::from(refused.plane),
            u32::from(refused.line),
            u32::from(refused.x),
            0,
            0,
            0,
        ],
        Ok(info) => [
            0,
            0,
            0,
            0,
            0,
            u32::from(info.structure()),
            u32::from(info.sar_num()),
            u32::from(info.sar_den()),
        ],
    }
}

/// Whether the next fields are these numbers.
fn next_are(fields: &mut SplitWhitespace<'_>, numbers: &[u32]) -> Result<bool> {
    let mut same = true;
    for wanted in numbers {
        same = number(fields)? == *wanted && same;
    }
    Ok(same)
}

/// Whether the next fields are what was decided.
fn tally_agrees(fields: &mut SplitWhitespace<'_>, tally: Tally) -> Result<bool> {
    let ones = u64::from(number(fields)?);
    let zeros = u64::from(number(fields)?);
    let renormalisations = u64::from(number(fields)?);
    let wanted = Tally {
        ones,
        zeros,
        renormalisations,
    };
    Ok(tally == wanted)
}

/// Whether the next fields are an answer, what was decided and the lines that were handed over.
fn agrees(
    alloc: Global,
    fields: &mut SplitWhitespace<'_>,
    answer: Result<Info, FrameFault>,
    tally: Tally,
    lines: &[u8],
) -> Result<bool> {
    let same = next_are(fields, &numbers_of(answer))?;
    let counted = tally_agrees(fields, tally)?;
    Ok(is_next(alloc, fields, lines)? && same && counted)
}

/// Whether the payload in the next field is decoded as the rest of a line says.
fn is_decoded(
    alloc: Global,
    fields: &mut SplitWhitespace<'_>,
    decoder: &mut FrameDecoder,
) -> Result<bool> {
    let payload = bytes(alloc, fields)?;
    let room = number(fields)?;
    let mut sink = FewLines {
        text: Vec::new(alloc),
        room,
        failures: 0,
    };
    let answer = decoder.decode(payload.as_slice(), &mut sink);
    agrees(alloc, fields, answer, decoder.tally(), sink.text.as_slice())
}

/// Whether one case agrees.
fn case(alloc: Global, line: &str, profile: Profile) -> Result<bool> {
    let mut fields = line.split_whitespace();
    let checked = configuration(alloc, &mut fields, profile)?;
    let mut decoder = FrameDecoder::new(alloc, checked)?;
    is_decoded(alloc, &mut fields, &mut decoder)
}

/// How many cases of a file agree, in a profile.
pub(crate) fn count<R: AllocGlobal + Files>(rt: &R, name: &str, profile: Profile) -> Result<Count> {
    let text = fs::read_to_string(rt, name)?;
    let mut count = Count { agree: 0, cases: 0 };
    for line in text.lines() {
        count = counted(count, case(rt.alloc(), line, profile)?);
    }
    Ok(count)
}
