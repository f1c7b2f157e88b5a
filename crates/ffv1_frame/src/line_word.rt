//! The words in which lines are coded.

ghost use Rattle.std.specs.Prelude.{◌≡◌, ◌⊎◌, ℕ, ◌*◌, ◌^◌, ◌≤◌, ◌<◌, IfErr, OnErr, OnOk, length};
ghost use Rattle.std.specs.Prelude.{replicate};
ghost use Rattle.std.specs.Prelude.{vec_capacity};
ghost use Rattle.std.proofs.Common.{rules};
ghost use Rattle.ffv1_range.specs.Symbols.{AllHeld};
ghost use Rattle.ffv1_plane.specs.Quantisation.{contexts_of};
ghost use Rattle.ffv1_line.specs.Decoded.{Lined, LinedToRefusal};
ghost use Rattle.ffv1_line.specs.Encoded.{FailsForGood, Written, MayBeRefusedRow, CountsFirst};
ghost use Rattle.ffv1_line.specs.Coder.{decoder_by, encoder_by};
ghost use Rattle.ffv1_rice.specs.Kept.{AreStates, state_at};
ghost use Rattle.ffv1_rice.specs.Row.{begins};
ghost use Rattle.ffv1_rice.specs.Rows.{AreSamples, IsRefused, RowRead, reading_of};
ghost use Rattle.ffv1_frame.specs.SliceList.{bits_of};

use ffv1_line::{Above, Coding, TooLong, Word, decode_line, decode_wide, encode_line, encode_wide};
use ffv1_range::{Fault, RangeDecoder, RangeEncoder};
use ffv1_record::{Checked, Colour, laws as record_laws};
use ffv1_rice::{Below, Bits, Fault as RiceFault, Refused, decode_row};
use std::alloc::{AllocError, Allocator};

/// Words that lines of samples of some numbers of bits are coded in: 8 to 16 bits in words of 16
/// bits, and 17 in words of 32.
pub trait LineWord: Word {
    // Lines of samples of so many bits are coded in words of this type.
    ghost holds: { ℕ → Type 0 };

    /// Decodes a row of a cell, as `ffv1_line::decode_line` does.
    fn decode<B: Allocator>(
        decoder: &mut RangeDecoder<'_>,
        coding: &Coding<'_, B>,
        states: &mut [u8],
        above: &Above<'_, Self>,
        cur: &mut [Self],
    ) -> Result<(), TooLong>
        requires bits { holds coding.now.bits }
        requires some { 0 < length cur.old }
        requires one_long { length above.now.one ≡ length cur.old }
        requires rows { length states.old ≡ contexts_of coding.now.set * 32 }
        requires held { AllHeld coding.now.table states.old }
        ensures ok { OnOk result (Lined coding.now (decoder_by decoder.old states.old)
            (decoder_by decoder.new states.new) above.now (Self.samples cur.new)
            (length (Self.samples cur.new))) }
        ensures refused { IfErr result (λ e. LinedToRefusal coding.now
            (decoder_by decoder.old states.old) (decoder_by decoder.new states.new) above.now
            (Self.samples cur.new) e.x) }
        ensures inside { IfErr result (λ e. e.x < length (Self.samples cur.new)) }
        ensures held { AllHeld coding.now.table states.new };

    /// Reads a row of a cell of Golomb-Rice coded samples, as `ffv1_rice::decode_row` does, if
    /// lines of so many bits are coded in words of this type. They have 8 or 9 bits, which words of
    /// 32 bits are never for, and these read nothing.
    fn decode_bits<B: Allocator>(
        bits: &mut Bits<'_>,
        coding: &Coding<'_, B>,
        states: &mut [u8],
        index: &mut u32,
        above: &Above<'_, Self>,
        cur: &mut [Self],
    ) -> Result<(), Refused>
        requires bits { (coding.now.bits ≡ 8) ⊎ (coding.now.bits ≡ 9) }
        requires one_long { length above.now.one ≡ length cur.old }
        requires wide { length cur.old < 2 ^ 16 }
        requires index { index.old ≤ 32 }
        requires rows { length states.old ≡ contexts_of coding.now.set * 32 }
        requires states { AreStates coding.now.bits (contexts_of coding.now.set) states.old }
        ensures ok { holds coding.now.bits → OnOk result (RowRead (reading_of coding.now.set
            coding.now.bits above.now.two above.now.one
            (begins (state_at states.old) index.old) bits.old) (Self.samples cur.new)
            (state_at states.new) index.new bits.new) }
        ensures refused { holds coding.now.bits → IfErr result (λ e. IsRefused
            (reading_of coding.now.set coding.now.bits above.now.two
            above.now.one (begins (state_at states.old) index.old) bits.old)
            (Self.samples cur.new) e.x e.fault) }
        ensures inside { holds coding.now.bits →
            IfErr result (λ e. e.x < length (Self.samples cur.new)) }
        ensures samples { holds coding.now.bits → OnOk result (AreSamples coding.now.bits
            (length (Self.samples cur.new)) (Self.samples cur.new)) }
        ensures samples_before { holds coding.now.bits →
            IfErr result (λ e. AreSamples coding.now.bits e.x (Self.samples cur.new)) }
        ensures index { index.new ≤ 32 }
        ensures states { AreStates coding.now.bits (contexts_of coding.now.set) states.new };

    /// Codes a row of a cell, as `ffv1_line::encode_line` does.
    fn encode<R: Allocator, B: Allocator>(
        encoder: &mut RangeEncoder<R>,
        coding: &Coding<'_, B>,
        states: &mut [u8],
        above: &Above<'_, Self>,
        cur: &[Self],
    ) -> Result<(), Fault>
        requires bits { holds coding.now.bits }
        requires some { 0 < length (Self.samples cur.now) }
        requires one_long { length above.now.one ≡ length (Self.samples cur.now) }
        requires rows { length states.old ≡ contexts_of coding.now.set * 32 }
        requires held { AllHeld coding.now.table states.old }
        ensures ok { OnOk result (Written coding.now (encoder_by encoder.old states.old)
            (encoder_by encoder.new states.new) above.now (Self.samples cur.now)
            (length (Self.samples cur.now))) }
        ensures refused { OnErr result (MayBeRefusedRow coding.now
            (encoder_by encoder.old states.old) above.now (Self.samples cur.now)
            (length (Self.samples cur.now))) }
        ensures held { AllHeld coding.now.table states.new }
        ensures err { FailsForGood result encoder.new }
        ensures kept { OnErr result (CountsFirst coding.now encoder.old.counts encoder.new.counts
            above.now (Self.samples cur.now)) };

    /// Sets each sample of some lines to 0.
    fn clear(lines: &mut [Self])
        ensures { Self.samples lines.new ≡ replicate (length lines.old) 0 };

    /// So many zeros, in the memory that a row has if they find room in it. None of it is given
    /// back.
    fn renew<A: Allocator>(row: &mut Vec<Self, A>, width: usize) -> Result<(), AllocError>
        ensures zeros { OnOk result (Self.samples row.new.items ≡ replicate width 0) }
        ensures room { vec_capacity row.old ≤ vec_capacity row.new }
        ensures full { OnErr result (vec_capacity row.old < width) };

    ghost room: { 65536 ≤ Self.limit };
}

impl LineWord for u16 {
    ghost holds = { λ bits. (8 ≤ bits) × (bits ≤ 16) };

    #[inline(always)]
    fn decode<B: Allocator>(
        decoder: &mut RangeDecoder<'_>,
        coding: &Coding<'_, B>,
        states: &mut [u8],
        above: &Above<'_, u16>,
        cur: &mut [u16],
    ) -> Result<(), TooLong> {
        decode_line(decoder, coding, states, above, cur)
    }

    #[inline(always)]
    fn decode_bits<B: Allocator>(
        bits: &mut Bits<'_>,
        coding: &Coding<'_, B>,
        states: &mut [u8],
        index: &mut u32,
        above: &Above<'_, u16>,
        cur: &mut [u16],
    ) -> Result<(), Refused> {
        let below = Below {
            set: coding.set,
            depth: coding.bits,
            two: above.two,
            one: above.one,
        };
        decode_row(bits, &below, states, index, cur)
    }

    #[inline(always)]
    fn encode<R: Allocator, B: Allocator>(
        encoder: &mut RangeEncoder<R>,
        coding: &Coding<'_, B>,
        states: &mut [u8],
        above: &Above<'_, u16>,
        cur: &[u16],
    ) -> Result<(), Fault> {
        encode_line(encoder, coding, states, above, cur)
    }

    fn clear(lines: &mut [u16]) {
        lines.fill(0);
    }

    fn renew<A: Allocator>(row: &mut Vec<u16, A>, width: usize) -> Result<(), AllocError> {
        row.resize(width, 0)?;
        row.fill(0);
        Ok(())
    }

    ghost room = { Prim.search rules };
}

impl LineWord for u32 {
    ghost holds = { λ bits. bits ≡ 17 };

    #[inline(always)]
    fn decode<B: Allocator>(
        decoder: &mut RangeDecoder<'_>,
        coding: &Coding<'_, B>,
        states: &mut [u8],
        above: &Above<'_, u32>,
        cur: &mut [u32],
    ) -> Result<(), TooLong> {
        decode_wide(decoder, coding, states, above, cur)
    }

    #[inline(always)]
    fn decode_bits<B: Allocator>(
        _bits: &mut Bits<'_>,
        _coding: &Coding<'_, B>,
        _states: &mut [u8],
        _index: &mut u32,
        _above: &Above<'_, u32>,
        _cur: &mut [u32],
    ) -> Result<(), Refused> {
        Err(Refused {
            x: 0,
            fault: RiceFault::BadCode,
        })
    }

    #[inline(always)]
    fn encode<R: Allocator, B: Allocator>(
        encoder: &mut RangeEncoder<R>,
        coding: &Coding<'_, B>,
        states: &mut [u8],
        above: &Above<'_, u32>,
        cur: &[u32],
    ) -> Result<(), Fault> {
        encode_wide(encoder, coding, states, above, cur)
    }

    fn clear(lines: &mut [u32]) {
        lines.fill(0);
    }

    fn renew<A: Allocator>(row: &mut Vec<u32, A>, width: usize) -> Result<(), AllocError> {
        row.resize(width, 0)?;
        row.fill(0);
        Ok(())
    }

    ghost room = { Prim.search rules };
}

/// The bits of a coded sample.
pub fn bits_of<A: Allocator>(checked: &Checked<A>) -> u8
    ensures value { result ≡ bits_of checked.now.configuration }
    ensures least { 8 ≤ result }
    ensures most { result ≤ 17 }
{
    record_laws::accepted_configuration_is_in_range();
    let depth = checked.depth() as u8;
    match checked.config().colour {
        Colour::YCbCr => depth,
        Colour::Rct => depth + 1,
    }
}
