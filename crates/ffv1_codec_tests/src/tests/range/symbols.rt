//! Symbols.

ghost use Rattle.std.specs.Prelude.{◌^◌, ◌<◌, replicate, unsigned_abs};
ghost use Rattle.ffv1_range.specs.Symbols.{AreHeld};

use super::made::put_long_exponent;
use ffv1_range::{Fault, RangeDecoder, RangeEncoder, StateTable};
use std::alloc::Global;
use std::process::Abort;
use std::test::Fail;

#[test]
fn there_and_back(rt: HostRuntime) -> Result<(), Fail> {
    let table = StateTable::standard();
    let (mut states, mut fresh) = ([128; 32], [128; 32]);
    let mut encoder = RangeEncoder::new(rt.alloc());
    encoder
        .put_signed(&table, &mut states, -3)
        .expect(&rt, "memory");
    let bytes = encoder.finish_sentinel().expect(&rt, "memory");
    let mut decoder = RangeDecoder::new(&bytes).expect(&rt, "a good start");
    assert!(rt; decoder.get_signed(&table, &mut fresh) == Ok(-3));
    Ok(())
}

/// How many decisions the symbol of a number is, how many of them are 1, and whether it has this
/// code by the sentinel ending.
fn codes(alloc: Global, value: i32, code: &[u8]) -> Result<(u64, u64, bool), Fault>
    requires size { unsigned_abs value < 2 ^ 31 }
{
    let table = StateTable::standard();
    let mut states = [128; 32];
    let mut encoder = RangeEncoder::new(alloc);
    encoder.put_signed(&table, &mut states, value)?;
    let (decisions, ones) = (encoder.decisions(), encoder.tally().ones);
    Ok((
        decisions,
        ones,
        encoder.finish_sentinel()?.as_slice() == code,
    ))
}

/// What a code is read as by states of its own, by how many decisions and ones, and what by the
/// states of a row.
fn reads(code: &[u8]) -> Result<(Result<i32, Fault>, u64, u64, Result<i32, Fault>), Fault> {
    let table = StateTable::standard();
    let (mut fresh, mut rows) = ([128; 32], [128; 64]);
    let mut decoder = RangeDecoder::new(code)?;
    let mut copy = RangeDecoder::new(code)?;
    let alone = copy.get_signed(&table, &mut fresh);
    let in_row = decoder.get_signed_in_row(&table, &mut rows, 1);
    Ok((alone, copy.taken(), copy.tally().ones, in_row))
}

/// A number has this code, of so many decisions, of which so many are 1, and is read from it.
fn codes_and_reads(
    rt: &impl Abort,
    alloc: Global,
    value: i32,
    code: &[u8],
    decisions: u64,
    ones: u64,
)
    requires size { unsigned_abs value < 2 ^ 31 }
{
    let expected = (
        Ok((decisions, ones, true)),
        Ok((Ok(value), decisions, ones, Ok(value))),
    );
    assert!(rt; (codes(alloc, value, code), reads(code)) == expected);
}

#[test]
fn signed(rt: HostRuntime) {
    let heap = rt.alloc();
    codes_and_reads(&rt, heap, 0, &[0x80], 1, 1);
    codes_and_reads(&rt, heap, -1, &[0x20], 3, 1);
    codes_and_reads(&rt, heap, 4, &[0x5f, 0xa0], 7, 2);
    codes_and_reads(&rt, heap, -128, &[0x7e, 0x81, 0x80], 17, 8);
    let long = [0x7f, 0x7f, 0xfb, 0x49, 0x00, 0x00];
    codes_and_reads(&rt, heap, 1_073_741_824, &long, 63, 30);
}

/// Whether the symbol of a number, by the second row of some states, has this code by the full
/// ending.
fn codes_in_full(alloc: Global, value: i32, code: &[u8]) -> Result<bool, Fault>
    requires size { unsigned_abs value < 2 ^ 31 }
{
    let table = StateTable::standard();
    let mut states = [128; 64];
    let mut encoder = RangeEncoder::new(alloc);
    encoder.put_signed_in_row(&table, &mut states, 1, value)?;
    Ok(encoder.finish_full()?.as_slice() == code)
}

#[test]
fn signed_in_full(rt: HostRuntime) {
    let heap = rt.alloc();
    let long = [0x7f, 0x7f, 0xfc, 0x18, 0xff, 0xfc, 0x28];
    let coded = [
        codes_in_full(heap, -1, &[0x1f, 0xe0]),
        codes_in_full(heap, 1, &[0x00, 0x00]),
        codes_in_full(heap, -2_147_483_647, &long),
    ];
    assert!(rt; coded == [Ok(true); 3]);
}

/// The same as `codes` of a number without a sign.
fn codes_unsigned(alloc: Global, number: u32, code: &[u8]) -> Result<(u64, u64, bool), Fault>
    requires size { number < 2 ^ 31 }
{
    let table = StateTable::standard();
    let mut states = [128; 32];
    let mut encoder = RangeEncoder::new(alloc);
    encoder.put_unsigned(&table, &mut states, number)?;
    let (decisions, ones) = (encoder.decisions(), encoder.tally().ones);
    Ok((
        decisions,
        ones,
        encoder.finish_sentinel()?.as_slice() == code,
    ))
}

/// What a code is read as without a sign, and by how many decisions and ones.
fn reads_unsigned(code: &[u8]) -> Result<(Result<u32, Fault>, u64, u64), Fault> {
    let table = StateTable::standard();
    let mut fresh = [128; 32];
    let mut decoder = RangeDecoder::new(code)?;
    let read = decoder.get_unsigned(&table, &mut fresh);
    Ok((read, decoder.taken(), decoder.tally().ones))
}

#[test]
fn unsigned(rt: HostRuntime) {
    let heap = rt.alloc();
    let long = [0x7f, 0x7f, 0xbd, 0x5b, 0x00];
    let coded = [
        codes_unsigned(heap, 0, &[0x80]),
        codes_unsigned(heap, 5, &[0x64]),
        codes_unsigned(heap, 1_000_000, &long),
    ];
    assert!(rt; coded == [Ok((1, 1, true)), Ok((6, 3, true)), Ok((40, 25, true))]);
    let read = [
        reads_unsigned(&[0x80]),
        reads_unsigned(&[0x64]),
        reads_unsigned(&long),
    ];
    assert!(rt;
        read == [
            Ok((Ok(0), 1, 1)),
            Ok((Ok(5), 6, 3)),
            Ok((Ok(1_000_000), 40, 25))
        ]
    );
}

/// The bytes of an exponent of 31 ones, after the decision that the number is not zero.
fn long_exponent(rt: &HostRuntime, table: &StateTable) -> Result<Vec<u8>, Fault>
    requires { AreHeld table.now (replicate 32 128) }
{
    let mut states = [128; 32];
    let mut encoder = RangeEncoder::new(rt.alloc());
    put_long_exponent(&mut encoder, table, &mut states)?;
    encoder.finish_full()
}

/// These bytes are refused after 32 decisions, as a number with a sign and as one without.
fn refuses(rt: &impl Abort, table: &StateTable, bytes: &[u8]) -> Result<(), Fault>
    requires { AreHeld table.now (replicate 32 128) }
{
    let (mut fresh, mut other) = ([128; 32], [128; 32]);
    let mut decoder = RangeDecoder::new(bytes)?;
    let mut copy = RangeDecoder::new(bytes)?;
    let signed = decoder.get_signed(table, &mut fresh);
    let counts = (decoder.taken(), decoder.tally().ones);
    assert!(rt; (signed, counts) == (Err(Fault::SymbolTooLong), (32, 31)));
    let unsigned = copy.get_unsigned(table, &mut other);
    assert!(rt; (unsigned, copy.taken()) == (Err(Fault::SymbolTooLong), 32));
    Ok(())
}

#[test]
fn too_long(rt: HostRuntime) -> Result<(), Fault> {
    let table = StateTable::standard();
    let bytes = long_exponent(&rt, &table)?;
    refuses(&rt, &table, &bytes)
}
