//! Decodes a row sample by sample, in a line of any words.

ghost use Rattle.std.specs.Prelude.{◌≡◌, ◌+◌, ◌*◌, ◌^◌, ◌≤◌, ◌<◌, IfOk, IfErr, OnOk, OnErr, IsTrue};
ghost use Rattle.std.specs.Prelude.{length, min, slice_index};
ghost use Rattle.ffv1_range.specs.Symbols.{AllHeld};
ghost use Rattle.ffv1_range.specs.Follows.{Follows};
ghost use Rattle.ffv1_plane.specs.Quantisation.{contexts_of, HasThreeTables};
ghost use Rattle.ffv1_plane.specs.Wide.{around_of};
ghost use Rattle.ffv1_line.specs.Row.{refused_steps};
ghost use Rattle.ffv1_line.specs.Decoded.{Sampled, Lined, LinedToRefusal, SameFrom};
ghost use Rattle.ffv1_line.specs.Coding.{coding_by};
ghost use Rattle.ffv1_line.specs.Coder.{decoder_by};
ghost use Rattle.ffv1_line.specs.Above.{rows_above};

use crate::cell::neighbours::{context_by, word_right_above};
use crate::cell::word::Word;
use crate::coding::way::Way;
use crate::fault::TooLong;
use ffv1_plane::{QuantSet, WideAround, low_around, wide_sample};
use ffv1_range::{RangeDecoder, StateTable};
use std::alloc::Allocator;

/// The sample that comes next, beside these neighbours. `THREE_TABLES` may be said of a set whose
/// fourth and fifth tables have one level.
#[inline(always)]
fn decode_word<B: Allocator, const THREE_TABLES: bool>(
    decoder: &mut RangeDecoder<'_>,
    table: &StateTable,
    set: &QuantSet<B>,
    states: &mut [u8],
    around: &WideAround,
    bits: u8,
) -> Result<u32, ()>
    requires few { bits ≤ 17 }
    requires three_tables { IsTrue THREE_TABLES → HasThreeTables set.now }
    requires rows { length states.old ≡ contexts_of set.now * 32 }
    requires held { AllHeld table.now states.old }
    ensures ok { IfOk result (λ s. Sampled (coding_by table.now set.now bits)
        (decoder_by decoder.old states.old) (decoder_by decoder.new states.new)
        (around_of around.now) s) }
    ensures small { IfOk result (λ s. s < 2 ^ bits) }
    ensures refused { OnErr result (Follows table.now decoder.old states.old decoder.new states.new
        (refused_steps set.now (around_of around.now))) }
    ensures held { AllHeld table.now states.new }
{
    let (context, flip) = context_by(set, &low_around(around), THREE_TABLES);
    match decoder.get_signed_in_row(table, states, context as usize) {
        Ok(residual) => Ok(wide_sample(around, flip, residual, bits)),
        Err(_) => Err(()),
    }
}

/// A row of a cell, sample by sample, by a decoder of its own.
#[inline(always)]
fn decode_words<W: Word, B: Allocator, const THREE_TABLES: bool>(
    decoder: &mut RangeDecoder<'_>,
    way: &Way<'_, B>,
    states: &mut [u8],
    two: &[W],
    one: &[W],
    cur: &mut [W],
) -> Result<(), TooLong>
    requires three_tables { IsTrue THREE_TABLES → HasThreeTables way.now.set.now }
    requires few { way.now.bits ≤ 17 }
    requires fits { 2 ^ way.now.bits ≤ W.limit }
    requires some { 0 < length cur.old }
    requires one_long { length one.now ≡ length cur.old }
    requires two_long { length two.now ≡ length cur.old }
    requires rows { length states.old ≡ contexts_of way.now.set.now * 32 }
    requires held { AllHeld way.now.table.now states.old }
    ensures ok { OnOk result (Lined (coding_by way.now.table.now way.now.set.now way.now.bits)
        (decoder_by decoder.old states.old) (decoder_by decoder.new states.new)
        (rows_above (W.samples two.now) (W.samples one.now)) (W.samples cur.new) (length cur.new)) }
    ensures refused { IfErr result (λ e. LinedToRefusal (coding_by way.now.table.now way.now.set.now
        way.now.bits) (decoder_by decoder.old states.old) (decoder_by decoder.new states.new)
        (rows_above (W.samples two.now) (W.samples one.now)) (W.samples cur.new) e.x) }
    ensures inside { IfErr result (λ e. e.x < length cur.new) }
    ensures behind { IfErr result (λ e. SameFrom e.x (W.samples cur.old) (W.samples cur.new)) }
    ensures held { AllHeld way.now.table.now states.new }
{
    let Way { table, set, bits } = way;
    let last = cur.len() - 1;
    let mut ll = 0;
    let mut l = W::read(one, 0);
    let mut tl = W::read(two, 0);
    let mut t = l;
    for x in 0..cur.len() {
        let tr = word_right_above(one, x, last, t);
        let around = WideAround {
            l,
            t,
            tl,
            tr,
            ll,
            tt: W::read(two, x),
        };
        match decode_word::<B, THREE_TABLES>(decoder, table, set, states, &around, *bits) {
            Ok(sample) => {
                W::write(cur, x, sample);
                ll = l;
                l = sample;
                tl = t;
                t = tr;
            }
            Err(_) => return Err(TooLong { x }),
        }
    }
    Ok(())
}

/// The same by any decoder, and by a body of its own for each kind of words and of set.
/// `THREE_TABLES` may be said of a set whose fourth and fifth tables have one level.
#[inline(never)]
pub(crate) fn decode_plain<W: Word, B: Allocator, const THREE_TABLES: bool>(
    decoder: &mut RangeDecoder<'_>,
    way: &Way<'_, B>,
    states: &mut [u8],
    two: &[W],
    one: &[W],
    cur: &mut [W],
) -> Result<(), TooLong>
    requires three_tables { IsTrue THREE_TABLES → HasThreeTables way.now.set.now }
    requires few { way.now.bits ≤ 17 }
    requires fits { 2 ^ way.now.bits ≤ W.limit }
    requires some { 0 < length cur.old }
    requires one_long { length one.now ≡ length cur.old }
    requires two_long { length two.now ≡ length cur.old }
    requires rows { length states.old ≡ contexts_of way.now.set.now * 32 }
    requires held { AllHeld way.now.table.now states.old }
    ensures ok { OnOk result (Lined (coding_by way.now.table.now way.now.set.now way.now.bits)
        (decoder_by decoder.old states.old) (decoder_by decoder.new states.new)
        (rows_above (W.samples two.now) (W.samples one.now)) (W.samples cur.new) (length cur.new)) }
    ensures refused { IfErr result (λ e. LinedToRefusal (coding_by way.now.table.now way.now.set.now
        way.now.bits) (decoder_by decoder.old states.old) (decoder_by decoder.new states.new)
        (rows_above (W.samples two.now) (W.samples one.now)) (W.samples cur.new) e.x) }
    ensures inside { IfErr result (λ e. e.x < length cur.new) }
    ensures behind { IfErr result (λ e. SameFrom e.x (W.samples cur.old) (W.samples cur.new)) }
    ensures held { AllHeld way.now.table.now states.new }
{
    let mut local = decoder.take();
    let read = decode_words::<W, B, THREE_TABLES>(&mut local, way, states, two, one, cur);
    *decoder = local;
    read
}
