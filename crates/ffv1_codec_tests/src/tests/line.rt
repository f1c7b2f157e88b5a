//! Rows in both directions, beside values computed outside the program from the standard's text.

ghost use Rattle.std.specs.Prelude.{◌≡◌, ◌*◌, ◌<◌, ◌≤◌, ◌⊎◌, length, replicate};
ghost use Rattle.ffv1_plane.specs.Quantisation.{contexts_of};
ghost use Rattle.ffv1_range.specs.Symbols.{AreHeld, AllHeld};

mod cells;

use super::range::made::{put_at, put_long_exponent};
use ffv1_line::{Above, Coding, RollingRows, TooLong, decode_line, encode_line, reset};
use ffv1_plane::QuantSet;
use ffv1_range::{Fault, RangeDecoder, RangeEncoder, StateTable};
use std::alloc::Global;
use std::process::Abort;
use std::test::Fail;

/// What is answered is true.
pub(super) fn holds(rt: &impl Abort, answer: Result<bool, Fail>) -> Result<(), Fail> {
    assert!(rt; answer?);
    Ok(())
}

/// Codes rows of 8 bits and one sample, one below the other and the first below zeros.
fn put_samples(
    encoder: &mut RangeEncoder,
    coding: &Coding<'_, Global>,
    states: &mut [u8],
    samples: &[u16],
) -> Result<(), Fault>
    requires narrow { coding.now.bits ≤ 16 }
    requires bits { coding.now.bits ≡ 8 }
    requires rows { length states.old ≡ contexts_of coding.now.set * 32 }
    requires held { AllHeld coding.now.table states.old }
    ensures held { AllHeld coding.now.table states.new }
{
    let (mut two, mut one) = ([0u16], [0u16]);
    'rows: for &sample in samples {
        let above = Above {
            two: &two,
            one: &one,
        };
        encode_line(encoder, coding, states, &above, &[sample])?;
        two = one;
        one = [sample];
    }
    Ok(())
}

/// Whether these rows from fresh states, and after them others from fresh states, have these bytes
/// by the sentinel ending, else by the full one. Also how many decisions they are.
fn codes(
    alloc: Global,
    coding: &Coding<'_, Global>,
    states: &mut [u8],
    samples: [&[u16]; 2],
    sentinel: bool,
    code: &[u8],
) -> Result<(bool, u64), Fault>
    requires narrow { coding.now.bits ≤ 16 }
    requires bits { coding.now.bits ≡ 8 }
    requires rows { length states.old ≡ contexts_of coding.now.set * 32 }
    requires fresh { AreHeld coding.now.table (replicate 32 128) }
{
    let [first, others] = samples;
    let mut encoder = RangeEncoder::new(alloc);
    reset(states);
    put_samples(&mut encoder, coding, states, first)?;
    reset(states);
    put_samples(&mut encoder, coding, states, others)?;
    let decisions = encoder.decisions();
    let ended = if sentinel {
        encoder.finish_sentinel()
    } else {
        encoder.finish_full()
    };
    Ok((ended?.as_slice() == code, decisions))
}

/// What two rows of two samples of 8 bits are decoded as, from fresh states, and by how many
/// decisions.
fn two_rows(
    table: &StateTable,
    set: &QuantSet,
    states: &mut [u8],
    bytes: &[u8],
) -> Result<([u16; 2], [u16; 2], u64), Fail>
    requires rows { length states.old ≡ contexts_of set.now * 32 }
    requires fresh { AreHeld table.now (replicate 32 128) }
{
    let (mut first, mut second) = ([0u16; 2], [0u16; 2]);
    let mut decoder = RangeDecoder::new(bytes)?;
    reset(states);
    let coding = Coding {
        table,
        set,
        bits: 8,
    };
    let zeros = [0; 2];
    let above = Above {
        two: &zeros,
        one: &zeros,
    };
    decode_line(&mut decoder, &coding, states, &above, &mut first)?;
    let above = Above {
        two: &zeros,
        one: &first,
    };
    decode_line(&mut decoder, &coding, states, &above, &mut second)?;
    Ok((first, second, decoder.taken()))
}

/// What a row of 8 bits, of one to three samples, is decoded as, over samples 7 and below rows of
/// zeros, from fresh states. Also the answer, and by how many decisions.
fn one_row(
    table: &StateTable,
    set: &QuantSet,
    states: &mut [u8],
    bytes: &[u8],
    width: usize,
) -> Result<(Result<(), TooLong>, [u16; 3], u64), Fault>
    requires some { 0 < width }
    requires few { width ≤ 3 }
    requires rows { length states.old ≡ contexts_of set.now * 32 }
    requires fresh { AreHeld table.now (replicate 32 128) }
{
    let (zeros, mut row) = ([0u16; 3], [7u16; 3]);
    let zeros = &zeros[..width];
    let mut decoder = RangeDecoder::new(bytes)?;
    reset(states);
    let coding = Coding {
        table,
        set,
        bits: 8,
    };
    let above = Above {
        two: zeros,
        one: zeros,
    };
    let done = decode_line(&mut decoder, &coding, states, &above, &mut row[..width]);
    Ok((done, row, decoder.taken()))
}

/// What a row is decoded as whose one residual has 31 bits.
fn long_residual(
    alloc: Global,
    table: &StateTable,
    set: &QuantSet,
    states: &mut [u8],
) -> Result<(Result<(), TooLong>, [u16; 3], u64), Fault>
    requires rows { length states.old ≡ contexts_of set.now * 32 }
    requires fresh { AreHeld table.now (replicate 32 128) }
{
    let mut number = [128; 32];
    let mut encoder = RangeEncoder::new(alloc);
    encoder.put_signed(table, &mut number, -2147483647)?;
    let bytes = encoder.finish_sentinel()?;
    one_row(table, set, states, &bytes, 1)
}

/// Two residuals 0, and then a symbol whose exponent has 31 ones.
fn refused_at_two(alloc: Global, table: &StateTable) -> Result<Vec<u8>, Fault>
    requires { AreHeld table.now (replicate 32 128) }
{
    let mut states = [128; 32];
    let mut encoder = RangeEncoder::new(alloc);
    put_at(&mut encoder, table, &mut states, 0, true)?;
    put_at(&mut encoder, table, &mut states, 0, true)?;
    put_long_exponent(&mut encoder, table, &mut states)?;
    encoder.finish_full()
}

/// What a row of three samples is decoded as of which the third is refused.
fn long_exponent(
    alloc: Global,
    table: &StateTable,
    set: &QuantSet,
    states: &mut [u8],
) -> Result<(Result<(), TooLong>, [u16; 3], u64), Fault>
    requires rows { length states.old ≡ contexts_of set.now * 32 }
    requires fresh { AreHeld table.now (replicate 32 128) }
{
    let bytes = refused_at_two(alloc, table)?;
    one_row(table, set, states, &bytes, 3)
}

/// Samples below 2^bits.
fn fill(row: &mut [u16], bits: u8) {
    let most = if bits == 8 { 256 } else { 512 };
    let mut number = 9043u32;
    for sample in row.iter_mut() {
        number = number.wrapping_mul(1664525).wrapping_add(1013904223);
        *sample = (number / 65536 % most) as u16;
    }
}

/// The code of a row below rows of zeros, from fresh states.
fn code_of(
    alloc: Global,
    coding: &Coding<'_, Global>,
    states: &mut [u8],
    zeros: &[u16],
    row: &[u16],
) -> Result<Vec<u8>, Fault>
    requires narrow { coding.now.bits ≤ 16 }
    requires some { 0 < length row.now }
    requires zeros { length zeros.now ≡ length row.now }
    requires rows { length states.old ≡ contexts_of coding.now.set * 32 }
    requires fresh { AreHeld coding.now.table (replicate 32 128) }
{
    let mut encoder = RangeEncoder::new(alloc);
    reset(states);
    let above = Above {
        two: zeros,
        one: zeros,
    };
    encode_line(&mut encoder, coding, states, &above, row)?;
    encoder.finish_sentinel()
}

/// Whether the code of a row below rows of zeros decodes to it, from fresh states.
fn decodes_to(
    coding: &Coding<'_, Global>,
    states: &mut [u8],
    bytes: &[u8],
    zeros: &[u16],
    row: &[u16],
    other: &mut [u16],
) -> Result<bool, Fault>
    requires narrow { coding.now.bits ≤ 16 }
    requires some { 0 < length row.now }
    requires zeros { length zeros.now ≡ length row.now }
    requires other { length other.old ≡ length row.now }
    requires rows { length states.old ≡ contexts_of coding.now.set * 32 }
    requires fresh { AreHeld coding.now.table (replicate 32 128) }
{
    let mut decoder = RangeDecoder::new(bytes)?;
    reset(states);
    let above = Above {
        two: zeros,
        one: zeros,
    };
    let done = decode_line(&mut decoder, coding, states, &above, other);
    Ok(done.is_ok() & (&*other == row))
}

/// Whether a row of so many samples comes back.
fn comes_back(
    alloc: Global,
    table: &StateTable,
    set: &QuantSet,
    states: &mut [u8],
    width: usize,
    bits: u8,
) -> Result<bool, Fault>
    requires some { 0 < width }
    requires width { width ≤ 65539 }
    requires bits { (bits ≡ 8) ⊎ (bits ≡ 9) }
    requires rows { length states.old ≡ contexts_of set.now * 32 }
    requires fresh { AreHeld table.now (replicate 32 128) }
{
    let mut samples = vec![in alloc; 0u16; 3 * width]?;
    let (zeros, rows) = samples.split_at_mut(width);
    let (row, other) = rows.split_at_mut(width);
    fill(row, bits);
    other.fill(7);
    let coding = Coding { table, set, bits };
    let bytes = code_of(alloc, &coding, states, zeros, row)?;
    decodes_to(&coding, states, &bytes, zeros, row, other)
}

/// Rows of 1, 2, 3, 8192 and 65539 samples come back, of 8 and of 9 bits.
fn all_come_back(
    rt: &impl Abort,
    alloc: Global,
    table: &StateTable,
    set: &QuantSet,
    states: &mut [u8],
)
    requires rows { length states.old ≡ contexts_of set.now * 32 }
    requires fresh { AreHeld table.now (replicate 32 128) }
{
    'widths: for width in [1usize, 2, 3, 8192, 65539] {
        let eight = comes_back(alloc, table, set, states, width, 8);
        let nine = comes_back(alloc, table, set, states, width, 9);
        assert!(rt; (eight, nine) == (Ok(true), Ok(true)));
    }
}

/// Rows that are coded, by states of the small set.
fn codes_each(
    rt: &impl Abort,
    alloc: Global,
    table: &StateTable,
    small: &QuantSet,
    states: &mut [u8],
)
    requires rows { length states.old ≡ contexts_of small.now * 32 }
    requires fresh { AreHeld table.now (replicate 32 128) }
{
    let coding = Coding {
        table,
        set: small,
        bits: 8,
    };
    let one = codes(alloc, &coding, states, [&[128], &[]], true, b"\x7E\x81\x80");
    let shared = codes(alloc, &coding, states, [&[0, 0], &[]], false, b"\xBC\x43");
    let apart = codes(alloc, &coding, states, [&[0], &[0]], false, b"\xBF\x40");
    // a flipped difference of 128
    let flipped = b"\xAF\x71\x8D\x7A";
    let flipped = codes(alloc, &coding, states, [&[0, 5, 133], &[]], true, flipped);
    let numbers = [Ok((true, 17)), Ok((true, 2)), Ok((true, 2)), Ok((true, 25))];
    assert!(rt; [one, shared, apart, flipped] == numbers);
}

/// Rows that are decoded.
fn decodes_each(
    rt: &impl Abort,
    alloc: Global,
    table: &StateTable,
    small: &QuantSet,
    states: &mut [u8],
) -> Result<(), Fail>
    requires rows { length states.old ≡ contexts_of small.now * 32 }
    requires fresh { AreHeld table.now (replicate 32 128) }
{
    let two = two_rows(table, small, states, b"\x71\xC6\xE5\x2D\x49")?;
    assert!(rt; two == ([10, 20], [30, 40], 38));
    let long = long_residual(alloc, table, small, states);
    let refused = long_exponent(alloc, table, small, states);
    let third = Err(TooLong { x: 2 });
    assert!(rt; (long, refused) == (Ok((Ok(()), [1, 7, 7], 63)), Ok((third, [0, 0, 7], 34))));
    Ok(())
}

/// By states of the small set.
fn judge_small(rt: &impl Abort, alloc: Global, small: &QuantSet) -> Result<(), Fail> {
    let table = StateTable::standard();
    let mut states = vec![in alloc; 128u8; small.contexts() as usize * 32]?;
    codes_each(rt, alloc, &table, small, states.as_mut_slice());
    all_come_back(rt, alloc, &table, small, states.as_mut_slice());
    decodes_each(rt, alloc, &table, small, states.as_mut_slice())
}

#[test]
fn rows_of_the_small_set(rt: HostRuntime) -> Result<(), Fail> {
    let small = QuantSet::small(rt.alloc())?;
    judge_small(&rt, rt.alloc(), &small)
}

/// By states of the large set.
fn judge_large(rt: &impl Abort, alloc: Global, large: &QuantSet) -> Result<(), Fail> {
    let table = StateTable::standard();
    let mut states = vec![in alloc; 128u8; large.contexts() as usize * 32]?;
    all_come_back(rt, alloc, &table, large, states.as_mut_slice());
    Ok(())
}

#[test]
fn rows_of_the_large_set(rt: HostRuntime) -> Result<(), Fail> {
    let large = QuantSet::large(rt.alloc())?;
    judge_large(&rt, rt.alloc(), &large)
}

/// Rows of two samples 0 are filled with 5 and with 6, and change places.
fn change_places(rt: &impl Abort, rolling: &mut RollingRows<Vec<u16>>) {
    rolling.cur.fill(5);
    rolling.turn();
    rolling.cur.fill(6);
    rolling.turn();
    let (two, one) = (rolling.two.as_slice(), rolling.one.as_slice());
    let cur = rolling.cur.as_slice();
    assert!(rt;
        (
            two == [5, 5].as_slice(),
            one == [6, 6].as_slice(),
            cur == [0, 0].as_slice()
        ) == (true, true, true)
    );
}

#[test]
fn rows_change_places(rt: HostRuntime) -> Result<(), Fail> {
    let mut rolling = RollingRows::new(rt.alloc(), 2)?;
    change_places(&rt, &mut rolling);
    Ok(())
}
