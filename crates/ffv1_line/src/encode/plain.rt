//! Encodes a row of a line of any words.

ghost use Rattle.std.specs.Prelude.{◌≡◌, ◌+◌, ◌*◌, ◌≤◌, ◌<◌, ◌^◌, OnOk, OnErr, IsTrue, length};
ghost use Rattle.std.specs.Prelude.{false};
ghost use Rattle.std.specs.Prelude.{unsigned_abs};
ghost use Rattle.ffv1_range.specs.Symbols.{AllHeld};
ghost use Rattle.ffv1_range.specs.Puts.{Puts, MayBeRefused};
ghost use Rattle.ffv1_range.specs.Rows.{rows_steps, AreRows, HaveSymbols};
ghost use Rattle.ffv1_plane.specs.Quantisation.{contexts_of, HasThreeTables};
ghost use Rattle.ffv1_plane.specs.Context.{size_of, flip_of};
ghost use Rattle.ffv1_plane.specs.Prediction.{predicted_in};
ghost use Rattle.ffv1_plane.specs.Residual.{chosen_of};
ghost use Rattle.ffv1_plane.specs.Wide.{around_of};
ghost use Rattle.ffv1_line.specs.Encoded.{FailsForGood, Written, MayBeRefusedRow, CountsFirst};
ghost use Rattle.ffv1_line.specs.Internal.Parts.{HaveContexts, HaveResiduals};
ghost use Rattle.ffv1_line.specs.Beside.{chosen_beside};
ghost use Rattle.ffv1_line.specs.Coding.{coding_by};
ghost use Rattle.ffv1_line.specs.Coder.{encoder_by};
ghost use Rattle.ffv1_line.specs.Above.{rows_above};

use crate::cell::neighbours::{context_by, word_before, word_right_above, word_two_before};
use crate::cell::word::Word;
use crate::coding::way::Way;
use crate::encode::block::PLACES;
use ffv1_plane::{QuantSet, WideAround, low_around, wide_residual};
use ffv1_range::{Fault, RangeEncoder, StateTable};
use std::alloc::Allocator;

/// The number of a sample's context, and the residual that an encoder takes for its sample.
/// `three_tables` may be said of a set whose fourth and fifth tables have one level.
#[inline(always)]
fn chosen_word<B: Allocator>(
    set: &QuantSet<B>,
    around: &WideAround,
    sample: u32,
    bits: u8,
    three_tables: bool,
) -> (u32, i32)
    requires some { 0 < bits }
    requires few { bits ≤ 17 }
    requires three_tables { IsTrue three_tables → HasThreeTables set.now }
    ensures context { result.0 ≡ size_of set.now (around_of around.now) }
    ensures below { result.0 < contexts_of set.now }
    ensures residual { result.1 ≡ chosen_of bits (predicted_in bits (around_of around.now))
        (flip_of set.now (around_of around.now)) sample }
    ensures size { unsigned_abs result.1 < 2 ^ 31 }
{
    let (context, flip) = context_by(set, &low_around(around), three_tables);
    let residual = wide_residual(around, flip, sample, bits);
    (context, residual)
}

/// The contexts and the residuals of places of a row that are coded at once.
#[derive(Drop)]
struct Numbered {
    contexts: [u32; PLACES],
    numbers: [i32; PLACES],
}

/// The contexts and the residuals of places of a row from `from` on: of all that are left, or of
/// 64. Answers how many they are.
#[inline(always)]
fn number_words<W: Word, B: Allocator, const THREE_TABLES: bool>(
    block: &mut Numbered,
    way: &Way<'_, B>,
    two: &[W],
    one: &[W],
    cur: &[W],
    from: usize,
) -> usize
    requires three_tables { IsTrue THREE_TABLES → HasThreeTables way.now.set.now }
    requires any { 0 < way.now.bits }
    requires few { way.now.bits ≤ 17 }
    requires inside { from < length cur.now }
    requires one_long { length one.now ≡ length cur.now }
    requires two_long { length two.now ≡ length cur.now }
    ensures some { 0 < result }
    ensures few { result ≤ 64 }
    ensures room { result ≤ length block.new.contexts }
    ensures within { from + result ≤ length cur.now }
    ensures contexts { HaveContexts way.now.set.now (W.samples two.now) (W.samples one.now)
        (W.samples cur.now) from block.new.contexts result }
    ensures numbers { HaveResiduals (λ k. chosen_beside way.now.set.now way.now.bits
        (W.samples two.now) (W.samples one.now) (W.samples cur.now) (from + k)) block.new.numbers
        result }
{
    let Way { set, bits, .. } = way;
    let last = cur.len() - 1;
    let count = (cur.len() - from).min(PLACES);
    let mut ll = word_two_before(one, cur, from);
    let mut l = word_before(one, cur, from);
    let mut tl = word_before(two, one, from);
    for k in 0..count {
        let x = from + k;
        let t = W::read(one, x);
        let around = WideAround {
            l,
            t,
            tl,
            tr: word_right_above(one, x, last, t),
            ll,
            tt: W::read(two, x),
        };
        let sample = W::read(cur, x);
        let (context, residual) = chosen_word(set, &around, sample, *bits, THREE_TABLES);
        block.contexts[k] = context;
        block.numbers[k] = residual;
        ll = l;
        l = sample;
        tl = t;
    }
    count
}

/// The symbols of numbers by the rows of their contexts, by an encoder that has not failed.
#[inline(never)]
fn put_contexts<A: Allocator>(
    encoder: &mut RangeEncoder<A>,
    table: &StateTable,
    states: &mut [u8],
    contexts: &[u32],
    numbers: &[i32],
) -> Result<(), Fault>
    requires sound { encoder.old.failed ≡ false }
    requires held { AllHeld table.now states.old }
    requires long { length numbers.now ≡ length contexts.now }
    requires few { length contexts.now < 2 ^ 16 }
    requires rows { AreRows contexts.now (length states.old) }
    requires symbols { HaveSymbols numbers.now }
    ensures ok { OnOk result (Puts table.now encoder.old states.old encoder.new states.new
        (rows_steps contexts.now numbers.now (length contexts.now))) }
    ensures refused { OnErr result (MayBeRefused table.now encoder.old states.old
        (rows_steps contexts.now numbers.now (length contexts.now))) }
    ensures held { AllHeld table.now states.new }
    ensures err { FailsForGood result encoder.new }
    ensures kept { OnErr result (encoder.new.counts ≡ encoder.old.counts) }
{
    encoder.put_rows(table, states, contexts, numbers)?;
    Ok(())
}

/// A row of a cell in blocks, by an encoder that has not failed, by a body of its own for each kind
/// of words and of set. `THREE_TABLES` may be said of a set whose fourth and fifth tables have one
/// level.
// Samples of 16 and 17 bits are predicted by numbers that no lane of 16 bits holds: so the places
// of a block are prepared one by one.
#[inline(never)]
pub(crate) fn encode_plain<W: Word, A: Allocator, B: Allocator, const THREE_TABLES: bool>(
    encoder: &mut RangeEncoder<A>,
    way: &Way<'_, B>,
    states: &mut [u8],
    two: &[W],
    one: &[W],
    cur: &[W],
) -> Result<(), Fault>
    requires sound { encoder.old.failed ≡ false }
    requires three_tables { IsTrue THREE_TABLES → HasThreeTables way.now.set.now }
    requires any { 0 < way.now.bits }
    requires few { way.now.bits ≤ 17 }
    requires some { 0 < length cur.now }
    requires one_long { length one.now ≡ length cur.now }
    requires two_long { length two.now ≡ length cur.now }
    requires rows { length states.old ≡ contexts_of way.now.set.now * 32 }
    requires held { AllHeld way.now.table.now states.old }
    ensures ok { OnOk result (Written (coding_by way.now.table.now way.now.set.now way.now.bits)
        (encoder_by encoder.old states.old) (encoder_by encoder.new states.new)
        (rows_above (W.samples two.now) (W.samples one.now)) (W.samples cur.now) (length cur.now)) }
    ensures refused { OnErr result (MayBeRefusedRow (coding_by way.now.table.now way.now.set.now
        way.now.bits) (encoder_by encoder.old states.old) (rows_above (W.samples two.now)
        (W.samples one.now)) (W.samples cur.now) (length cur.now)) }
    ensures held { AllHeld way.now.table.now states.new }
    ensures err { FailsForGood result encoder.new }
    ensures kept { OnErr result (CountsFirst (coding_by way.now.table.now way.now.set.now
        way.now.bits) encoder.old.counts encoder.new.counts (rows_above (W.samples two.now)
        (W.samples one.now)) (W.samples cur.now)) }
{
    let mut block = Numbered {
        contexts: [0; PLACES],
        numbers: [0; PLACES],
    };
    let mut from = 0;
    'parts: while from < cur.len() {
        let count = number_words::<W, B, THREE_TABLES>(&mut block, way, two, one, cur, from);
        let Numbered { contexts, numbers } = &block;
        put_contexts(
            encoder,
            way.table,
            states,
            &contexts[..count],
            &numbers[..count],
        )?;
        from += count;
    }
    Ok(())
}
