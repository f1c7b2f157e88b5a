//! The registers of an encoder that holds bytes back.

ghost use Rattle.std.specs.Prelude.{◌≡◌, ◌+◌, ◌*◌, ◌/◌, ◌%◌, ◌^◌, ◌≤◌, ◌<◌, OnOk, OnErr, IfOk};
ghost use Rattle.std.specs.Prelude.{length};
ghost use Rattle.std.specs.Vec.{vec_capacity, vec_len};
ghost use Rattle.ffv1_range.specs.Interval.{narrow, part, renormalised};
ghost use Rattle.ffv1_range.specs.Codes.{value, AreBytes};
ghost use Rattle.ffv1_range.specs.Internal.Registers.{IsWriting, IsHolding, IsMarked};
ghost use Rattle.ffv1_range.specs.Internal.Registers.{IsMarkedPart, interval_from};
ghost use Rattle.ffv1_range.specs.Internal.Registers.{interval_of_holding};
ghost use Rattle.ffv1_range.specs.Internal.Registers.{interval_marked};
ghost use Rattle.ffv1_range.specs.Internal.Registers.{held_in, low_in};

use crate::encoder::registers::{Registers, Span};
use crate::encoder::{FIRST_WIDTH, carry, emit};
use std::alloc::{AllocError, Allocator};

/// What an encoder's interval has beside its bytes while many decisions are written: its low end,
/// with up to four bytes that are held back, and its width. The low end is marked: one bit more,
/// 2^31 if no byte is held back and eight places further up for each one that is, tells how many
/// they are.
// No count beside it: the mark is shifted with the low end, and that four bytes are held back is
// the highest bit.
#[derive(Clone, Copy, Drop)]
pub(crate) struct Marked {
    pub(crate) low: u64,
    pub(crate) width: u32,
}

/// The same without a mark: how many bytes are held back stands beside the low end.
#[derive(Clone, Copy, Drop)]
struct Holding {
    low: u64,
    width: u32,
    held: u32,
}

/// The mark if no byte is held back.
const MARK: u64 = 1 << 31;

/// The mark if four bytes are held back.
const FULL: u64 = 1 << 63;

/// The part of a decision.
#[inline(always)]
fn part_marked(bytes: &[u8], marked: Marked, state: u8, bit: bool) -> Marked
    requires marked { IsMarked bytes.now marked.low marked.width }
    requires few { held_in marked.low < 4 }
    requires positive { 0 < state }
    ensures interval { interval_marked bytes.now result.low result.width ≡
        part (interval_marked bytes.now marked.low marked.width) state bit }
    ensures part { IsMarkedPart bytes.now result.low result.width }
{
    let Marked { low, width } = marked;
    let upper = width * u32::from(state) / 256;
    let lower = width - upper;
    if bit {
        return Marked {
            low: low + u64::from(lower),
            width: upper,
        };
    }
    Marked { low, width: lower }
}

/// A part that is narrower than 256 takes a byte more.
#[inline(always)]
fn renormalise_marked(bytes: &[u8], part: Marked) -> Marked
    requires { IsMarkedPart bytes.now part.low part.width }
    ensures interval { interval_marked bytes.now result.low result.width ≡
        renormalised (interval_marked bytes.now part.low part.width) }
    ensures marked { IsMarked bytes.now result.low result.width }
{
    let Marked { low, width } = part;
    if width < 256 {
        return Marked {
            low: low * 256,
            width: width * 256,
        };
    }
    part
}

/// Four places of a number, big end first.
#[inline(always)]
fn push_word<A: Allocator>(bytes: &mut Vec<u8, A>, word: u32) -> Result<(), AllocError>
    requires { AreBytes bytes.old.items }
    ensures value { OnOk result (value bytes.new.items (length bytes.new.items) ≡
        4294967296 * value bytes.old.items (length bytes.old.items) + word) }
    ensures long { OnOk result (length bytes.new.items ≡ length bytes.old.items + 4) }
    ensures full { OnErr result (vec_capacity bytes.old < vec_len bytes.old + 4) }
    ensures bytes_fit { OnOk result (AreBytes bytes.new.items) }
{
    bytes.extend_from_slice(&word.to_be_bytes())?;
    Ok(())
}

/// Four places more of a number with its bytes big end first. A top of 2^32 or more carries into
/// the bytes before.
#[inline(always)]
fn emit_word<A: Allocator>(bytes: &mut Vec<u8, A>, top: u64) -> Result<(), AllocError>
    requires bytes_fit { AreBytes bytes.old.items }
    requires below { top < 8589934592 }
    requires room { 4294967296 * value bytes.old.items (length bytes.old.items) + top <
        4294967296 * 256 ^ length bytes.old.items }
    ensures value { OnOk result (value bytes.new.items (length bytes.new.items) ≡
        4294967296 * value bytes.old.items (length bytes.old.items) + top) }
    ensures long { OnOk result (length bytes.new.items ≡ length bytes.old.items + 4) }
    ensures full { OnErr result (vec_capacity bytes.old < vec_len bytes.old + 4) }
    ensures bytes_fit { OnOk result (AreBytes bytes.new.items) }
{
    if top < 4294967296 {
        push_word(bytes, top as u32)?;
        return Ok(());
    }
    carry(bytes);
    push_word(bytes, (top - 4294967296) as u32)?;
    Ok(())
}

impl Registers for Marked {
    ghost use Rattle.std.specs.Prelude.{◌<◌};
    ghost use Rattle.ffv1_range.specs.Internal.Registers.{interval_marked, IsMarked, held_in};

    ghost interval = { λ bytes m. interval_marked bytes m.low m.width };

    ghost are_sound = { λ bytes m. IsMarked bytes m.low m.width × (held_in m.low < 4) };

    // Four bytes are given out if they are held back.
    #[inline(always)]
    fn narrow<A: Allocator>(
        &mut self,
        bytes: &mut Vec<u8, A>,
        state: u8,
        bit: bool,
    ) -> Result<(), AllocError> {
        let part = part_marked(bytes, *self, state, bit);
        let next = renormalise_marked(bytes, part);
        if next.low < FULL {
            *self = next;
            return Ok(());
        }
        match emit_word(bytes, (next.low - FULL) / 65536) {
            Ok(()) => {
                *self = Marked {
                    low: next.low % 65536 + MARK,
                    width: next.width,
                };
                Ok(())
            }
            Err(refused) => {
                bytes.clear();
                *self = Marked {
                    low: MARK,
                    width: FIRST_WIDTH,
                };
                Err(refused)
            }
        }
    }
}

/// The registers of an encoder, marked: no byte is held back.
#[inline(always)]
pub(crate) fn mark(bytes: &[u8], span: &Span) -> Marked
    requires { IsWriting bytes.now span.now.low span.now.width }
    ensures same { interval_marked bytes.now result.low result.width ≡
        interval_from bytes.now span.now.low span.now.width }
    ensures marked { IsMarked bytes.now result.low result.width }
    ensures few { held_in result.low < 4 }
{
    Marked {
        low: u64::from(span.low) + MARK,
        width: span.width,
    }
}

/// How many bytes are held back, by the mark.
#[inline(always)]
fn held_back(low: u64) -> u32
    requires { held_in low < 4 }
    ensures { result ≡ held_in low }
{
    if low < 1 << 39 {
        return 0;
    }
    if low < 1 << 47 {
        return 1;
    }
    if low < 1 << 55 {
        return 2;
    }
    3
}

/// A low end without its mark, and beside it how many bytes are held back.
#[inline(always)]
fn unmark(marked: Marked) -> Holding
    requires some { 2 ^ 31 ≤ marked.low }
    requires few { held_in marked.low < 4 }
    ensures low { result.low ≡ low_in marked.low }
    ensures held { result.held ≡ held_in marked.low }
    ensures width { result.width ≡ marked.width }
{
    let Marked { low, width } = marked;
    let held = held_back(low);
    Holding {
        low: low - (MARK << (8 * held)),
        width,
        held,
    }
}

/// Gives out the first of the bytes that are held back.
#[inline(always)]
fn release<A: Allocator>(bytes: &mut Vec<u8, A>, holding: &mut Holding) -> Result<(), AllocError>
    requires holding { IsHolding bytes.old.items holding.old.low holding.old.width
        holding.old.held }
    requires some { 0 < holding.old.held }
    requires few { holding.old.held < 4 }
    ensures same { OnOk result (interval_of_holding bytes.new.items holding.new
        ≡ interval_of_holding bytes.old.items holding.old) }
    ensures holding { OnOk result (IsHolding bytes.new.items holding.new.low holding.new.width
        holding.new.held) }
    ensures less { OnOk result (holding.new.held + 1 ≡ holding.old.held) }
    ensures long { OnOk result (length bytes.new.items ≡ length bytes.old.items + 1) }
    ensures full { OnErr result (vec_capacity bytes.old ≤ vec_len bytes.old) }
    ensures room { vec_capacity bytes.old ≤ vec_capacity bytes.new }
{
    let Holding { low, width, held } = *holding;
    let places = 8 * held + 8;
    emit(bytes, (low >> places) as u32)?;
    *holding = Holding {
        low: low % (1 << places),
        width,
        held: held - 1,
    };
    Ok(())
}

/// Gives out the bytes that are held back.
#[inline(always)]
fn release_all<A: Allocator>(
    bytes: &mut Vec<u8, A>,
    holding: &mut Holding,
) -> Result<(), AllocError>
    requires holding { IsHolding bytes.old.items holding.old.low holding.old.width
        holding.old.held }
    requires few { holding.old.held < 4 }
    ensures same { OnOk result (interval_of_holding bytes.new.items holding.new
        ≡ interval_of_holding bytes.old.items holding.old) }
    ensures holding { OnOk result (IsHolding bytes.new.items holding.new.low holding.new.width
        holding.new.held) }
    ensures none { OnOk result (holding.new.held ≡ 0) }
    ensures refused { OnErr result (0 < holding.old.held) }
    ensures full { OnErr result (vec_capacity bytes.old < vec_len bytes.old + holding.old.held) }
{
    'held: while holding.held > 0 {
        release(bytes, holding)?;
    }
    Ok(())
}

/// The registers of an encoder again, after the bytes that are held back are given out.
#[inline(always)]
pub(crate) fn settle<A: Allocator>(
    bytes: &mut Vec<u8, A>,
    marked: Marked,
) -> Result<Span, AllocError>
    requires marked { IsMarked bytes.old.items marked.low marked.width }
    requires few { held_in marked.low < 4 }
    ensures same { IfOk result (λ span. interval_from bytes.new.items span.low span.width ≡
        interval_marked bytes.old.items marked.low marked.width) }
    ensures writing { IfOk result (λ span. IsWriting bytes.new.items span.low span.width) }
    ensures refused { OnErr result (0 < held_in marked.low) }
    ensures full { OnErr result (vec_capacity bytes.old < vec_len bytes.old
        + held_in marked.low) }
{
    let mut holding = unmark(marked);
    release_all(bytes, &mut holding)?;
    Ok(Span {
        low: holding.low as u32,
        width: holding.width,
    })
}
