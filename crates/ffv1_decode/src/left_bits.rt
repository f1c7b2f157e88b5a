//! Reads segments of Golomb-Rice coded samples from the bits that are left of their slice.

ghost use Rattle.std.specs.Prelude.{◌≡◌, ◌≢◌, ◌⊎◌, ℕ, ◌+◌, ◌*◌, ◌^◌, ◌≤◌, ◌<◌, ◌++◌, Bool, List};
ghost use Rattle.std.specs.Prelude.{Some, IfErr, MatchResult, OnOk, length, drop, slice_index};
ghost use Rattle.ffv1_range.specs.Symbols.{Step};
ghost use Rattle.ffv1_plane.specs.Quantisation.{contexts_of};
ghost use Rattle.ffv1_rice.specs.Bits.{bits_of};
ghost use Rattle.ffv1_rice.specs.Kept.{AreStates, state_at};
ghost use Rattle.ffv1_rice.specs.Row.{begins};
ghost use Rattle.ffv1_rice.specs.Rows.{reading_of};
ghost use Rattle.ffv1_record.specs.Accepted.{Accepted};
ghost use Rattle.ffv1_frame.specs.declared.fault.CodecFault.TheVariants as codec_fault;
ghost use Rattle.ffv1_frame.specs.Decoding.{of_rice};
ghost use Rattle.ffv1_frame.specs.Ending.{IsBehind};
ghost use Rattle.ffv1_decode.specs.Internal.LeftBits.{AreLeft, BitsRead, BitsRefused};
ghost use Rattle.ffv1_decode.specs.Internal.Stands.{IsParked};

use crate::column::Column;
use ffv1_frame::fault::CodecFault;
use ffv1_frame::line_word::LineWord;
use ffv1_line::{Above, Coding};
use ffv1_rice::{Bits, Fault, laws as rice_laws};
use std::alloc::Allocator;

/// Why a segment is refused, and at which of its samples.
#[derive(Clone, Copy, Debug, PartialEq, Eq)]
pub struct Refusal {
    /// The sample, from 0.
    pub x: usize,
    /// Why.
    pub fault: CodecFault,
}

/// The fault of bits that are those of no line.
fn rice_fault(fault: Fault) -> CodecFault
    ensures value { result ≡ of_rice fault }
    ensures own { result ≢ codec_fault.Sink }
{
    match fault {
        Fault::BitsEnd => CodecFault::BitsEnd,
        Fault::BadCode => CodecFault::BadCode,
    }
}

/// The byte of a slice at which its bits begin, or its end, if that is before.
fn bits_begin(column: &Column, bytes: &[u8]) -> usize
    ensures inside { result ≤ length bytes.now }
    ensures behind { (a : Accepted) (past : List Step) →
        IsParked bytes.now a.table column.now.parked past →
        IsBehind a bytes.now past (drop (8 * result) (bits_of bytes.now)) }
{
    match &column.parked {
        None => 0,
        Some(parked) => {
            let place = parked.bits_place();
            if place > bytes.len() as u64 {
                return bytes.len();
            }
            place as usize
        }
    }
}

/// The bits of a slice that are left, behind its head or behind the last line that was read.
pub(crate) fn bits_left<'a>(column: &Column, bytes: &'a [u8]) -> Bits<'a>
    requires { (n : ℕ) → column.now.bits ≡ Some n → n ≤ 8 * length bytes.now }
    ensures few { length result ≤ 8 * length bytes.now }
    ensures behind { (a : Accepted) (past : List Step) (read : List Bool) →
        IsParked bytes.now a.table column.now.parked past →
        AreLeft a bytes.now past read column.now.bits →
        IsBehind a bytes.now past (read ++ result) }
{
    rice_laws::bits_that_are_left_are_the_last();
    match &column.bits {
        None => Bits::behind(bytes, bits_begin(column, bytes)),
        Some(left) => left.wake(bytes),
    }
}

/// Reads a segment: wakes the bits of its slice, decodes a row by the states of its class and by
/// the index of its runs, and parks. Refused, it keeps no bits.
pub(crate) fn read_bits<W: LineWord, B: Allocator>(
    column: &mut Column,
    bytes: &[u8],
    coding: &Coding<'_, B>,
    states: &mut [u8],
    above: &Above<'_, W>,
    cur: &mut [W],
) -> Result<(), Refusal>
    requires holds { W.holds coding.now.bits }
    requires bits { (coding.now.bits ≡ 8) ⊎ (coding.now.bits ≡ 9) }
    requires one_long { length above.now.one ≡ length cur.old }
    requires wide { length cur.old < 2 ^ 16 }
    requires index { column.old.index ≤ 32 }
    requires left { (n : ℕ) → column.old.bits ≡ Some n → n ≤ 8 * length bytes.now }
    requires rows { length states.old ≡ contexts_of coding.now.set * 32 }
    requires states { AreStates coding.now.bits (contexts_of coding.now.set) states.old }
    ensures exact { (a : Accepted) (past : List Step) (read : List Bool) →
        let row = W.samples cur.new in
        IsParked bytes.now a.table column.old.parked past →
        AreLeft a bytes.now past read column.old.bits →
        (text : List Bool) × IsBehind a bytes.now past (read ++ text)
        × MatchResult result
        (λ _. BitsRead (reading_of coding.now.set coding.now.bits above.now.two above.now.one
        (begins (state_at states.old) column.old.index) text) row (state_at states.new)
        column.new.index column.new.bits)
        (λ e. BitsRefused (reading_of coding.now.set coding.now.bits above.now.two above.now.one
        (begins (state_at states.old) column.old.index) text) row e.x e.fault) }
    ensures small { OnOk result ((x : ℕ) → x < length (W.samples cur.new) →
        slice_index (W.samples cur.new) x < 2 ^ coding.now.bits) }
    ensures inside { IfErr result (λ e. e.x < length (W.samples cur.new)) }
    ensures own { IfErr result (λ e. e.fault ≢ codec_fault.Sink) }
    ensures index { column.new.index ≤ 32 }
    ensures left { (n : ℕ) → column.new.bits ≡ Some n → n ≤ 8 * length bytes.now }
    ensures same { column.new ≡ record column.old {
      bits = column.new.bits;
      index = column.new.index;
    } }
    ensures states { AreStates coding.now.bits (contexts_of coding.now.set) states.new }
{
    let mut bits = bits_left(column, bytes);
    match W::decode_bits(&mut bits, coding, states, &mut column.index, above, cur) {
        Ok(()) => {
            column.bits = Some(bits.park());
            Ok(())
        }
        Err(refused) => {
            column.bits = None;
            Err(Refusal {
                x: refused.x,
                fault: rice_fault(refused.fault),
            })
        }
    }
}
