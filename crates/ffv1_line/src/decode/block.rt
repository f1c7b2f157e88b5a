//! Decodes a block of samples.

ghost use Rattle.std.specs.Prelude.{◌≡◌, ◌+◌, ◌⊎◌, OnOk, IfErr};
ghost use Rattle.ffv1_line.specs.Internal.Places.{IsReady, StandsAt, ReadZeros, ReadsBlock};
ghost use Rattle.ffv1_line.specs.Internal.Places.{RefusesBlock};
ghost use Rattle.ffv1_line.specs.Coder.{decoder_by};

use crate::cell::neighbours::{sample_before, sample_two_before};
use crate::decode::equal::decode_equal;
use crate::decode::places::{Behind, Places};
use crate::decode::run::decode_run;
use crate::decode::sample::decode_sample;
use crate::fault::TooLong;
use ffv1_range::RangeDecoder;
use std::alloc::Allocator;

/// A block of fewer nonzero symbols is mostly zero.
const MOSTLY_ZERO: u32 = 16;

/// The places of a block from `start` on whose symbols are zeros, if the block before was mostly
/// zero: those of a run in a set whose fourth and fifth tables have one level, else those of equal
/// neighbours. `kept` is the same value in memory, for the call that is not inlined: a copy for
/// each call costs more than one argument more. Answers the first place that is left, from `start`
/// to the last one.
#[inline(always)]
fn decode_zeros<'a, B: Allocator, const WAS_MOSTLY_ZERO: bool>(
    decoder: &mut RangeDecoder<'_>,
    places: &Places<'a, B>,
    kept: &Places<'a, B>,
    states: &mut [u8],
    cur: &mut [u16],
    behind: &mut Behind,
    start: usize,
) -> usize
    requires same { kept.now ≡ places.now }
    requires stands { StandsAt places.now states.old cur.old behind.old start }
    ensures stands { StandsAt places.now states.new cur.new behind.new result }
    ensures read { ReadZeros places.now start (decoder_by decoder.old states.old) cur.old result
        (decoder_by decoder.new states.new) cur.new }
{
    if !WAS_MOSTLY_ZERO {
        return start;
    }
    if places.three_tables {
        return decode_run(decoder, places, states, cur, behind, start);
    }
    if places.early.tl[start] != behind.l || places.early.t[start] != behind.l {
        return start;
    }
    let mut other = decoder.take();
    let mut along = *behind;
    let left = decode_equal(&mut other, kept, states, cur, &mut along, start);
    *decoder = other;
    *behind = along;
    left
}

/// The places of a block, by a decoder of its own. After a block that was mostly zero, zeros in
/// runs or at equal neighbours are looked for first, which is faster if they are many. Answers
/// whether this block is mostly zero: whether few of its symbols are nonzero. `kept` is the same as
/// `places`.
#[inline(always)]
fn decode_block<'a, B: Allocator, const WAS_MOSTLY_ZERO: bool>(
    decoder: &mut RangeDecoder<'_>,
    places: &Places<'a, B>,
    kept: &Places<'a, B>,
    states: &mut [u8],
    cur: &mut [u16],
) -> Result<bool, TooLong>
    requires same { kept.now ≡ places.now }
    requires ready { IsReady places.now states.old cur.old }
    ensures ok { OnOk result (ReadsBlock places.now (decoder_by decoder.old states.old) cur.old
        (decoder_by decoder.new states.new) cur.new) }
    ensures refused { IfErr result (λ e. RefusesBlock places.now
        (decoder_by decoder.old states.old) cur.old e.x (decoder_by decoder.new states.new)
        cur.new) }
    ensures ready { IsReady places.now states.new cur.new }
{
    let Places {
        one,
        from,
        count,
        ..
    } = *places;
    let mut nonzeros = decoder.nonzeros();
    let mut along = Behind {
        ll: sample_two_before(one, cur, from),
        l: sample_before(one, cur, from),
    };
    let mut i = 0;
    'places: while i < count {
        i = decode_zeros::<B, WAS_MOSTLY_ZERO>(decoder, places, kept, states, cur, &mut along, i);
        match decode_sample(decoder, &mut nonzeros, places, states, i, along) {
            Ok(sample) => {
                cur[from + i] = sample;
                along.ll = along.l;
                along.l = sample;
                i += 1;
            }
            Err(_) => {
                decoder.count_all(&nonzeros.among_refused(i as u32));
                return Err(TooLong { x: from + i });
            }
        }
    }
    decoder.count_all(&nonzeros.among(count as u32));
    Ok(nonzeros.symbols < MOSTLY_ZERO)
}

/// The same after a block that was mostly zero, by any decoder and by a body of its own for each
/// depth and each kind of set.
#[inline(never)]
fn decode_mostly_zero<B: Allocator, const BITS: u8, const THREE_TABLES: bool>(
    decoder: &mut RangeDecoder<'_>,
    places: &Places<'_, B>,
    states: &mut [u8],
    cur: &mut [u16],
) -> Result<bool, TooLong>
    requires bits { (BITS ≡ 0) ⊎ (places.now.bits ≡ BITS) }
    requires three_tables { places.now.three_tables ≡ THREE_TABLES }
    requires ready { IsReady places.now states.old cur.old }
    ensures ok { OnOk result (ReadsBlock places.now (decoder_by decoder.old states.old) cur.old
        (decoder_by decoder.new states.new) cur.new) }
    ensures refused { IfErr result (λ e. RefusesBlock places.now
        (decoder_by decoder.old states.old) cur.old e.x (decoder_by decoder.new states.new)
        cur.new) }
    ensures ready { IsReady places.now states.new cur.new }
{
    let mut local = decoder.take();
    let own = places.fixed::<BITS, THREE_TABLES>();
    let read = decode_block::<B, true>(&mut local, &own, places, states, cur);
    *decoder = local;
    read
}

/// The same after a block that was mostly zero or not, by a decoder of its own.
#[inline(always)]
pub(crate) fn decode_block_by<B: Allocator, const BITS: u8, const THREE_TABLES: bool>(
    decoder: &mut RangeDecoder<'_>,
    places: &Places<'_, B>,
    states: &mut [u8],
    cur: &mut [u16],
    was_mostly_zero: bool,
) -> Result<bool, TooLong>
    requires bits { (BITS ≡ 0) ⊎ (places.now.bits ≡ BITS) }
    requires three_tables { places.now.three_tables ≡ THREE_TABLES }
    requires ready { IsReady places.now states.old cur.old }
    ensures ok { OnOk result (ReadsBlock places.now (decoder_by decoder.old states.old) cur.old
        (decoder_by decoder.new states.new) cur.new) }
    ensures refused { IfErr result (λ e. RefusesBlock places.now
        (decoder_by decoder.old states.old) cur.old e.x (decoder_by decoder.new states.new)
        cur.new) }
    ensures ready { IsReady places.now states.new cur.new }
{
    if !was_mostly_zero {
        return decode_block::<B, false>(decoder, places, places, states, cur);
    }
    let mut other = decoder.take();
    let own = places.fixed::<BITS, THREE_TABLES>();
    let read = decode_mostly_zero::<B, BITS, THREE_TABLES>(&mut other, &own, states, cur);
    *decoder = other;
    read
}
