//! Over a megabyte by each call that writes, and by both endings: no call gives up if memory is to
//! be had.

ghost use Rattle.std.specs.Prelude.{◌<◌, ◌^◌, unsigned_abs};

use ffv1_range::{RangeEncoder, StateTable};
use std::test::Fail;

const MEGABYTE: u64 = 1 << 20;

/// The next of a row of numbers without a pattern.
fn next(seed: u32) -> u32 {
    seed.wrapping_mul(1_664_525).wrapping_add(1_013_904_223)
}

/// A number of up to 31 bits; an even seed makes it negative.
fn signed_of(seed: u32) -> i32
    ensures { unsigned_abs result < 2 ^ 31 }
{
    let number = (seed >> 1) as i32;
    if seed % 2 == 0 { -number } else { number }
}

#[test]
fn decisions(rt: HostRuntime) -> Result<(), Fail> {
    let table = StateTable::standard();
    let mut encoder = RangeEncoder::new(rt.alloc());
    for _ in 0..1_700_000u32 {
        let mut state = 8;
        encoder.put(&table, &mut state, true).expect(&rt, "memory");
    }
    let (renormalisations, failed) = (encoder.renormalisations(), encoder.has_failed());
    let bytes = encoder.finish_full().expect(&rt, "memory");
    let least = renormalisations.min(bytes.len() as u64);
    assert!(rt; (least > MEGABYTE, failed) == (true, false));
    Ok(())
}

#[test]
fn signed_numbers(rt: HostRuntime) -> Result<(), Fail> {
    let table = StateTable::standard();
    let mut encoder = RangeEncoder::new(rt.alloc());
    let (mut seed, mut states) = (1, [128; 32]);
    for _ in 0..300_000u32 {
        seed = next(seed);
        encoder
            .put_signed(&table, &mut states, signed_of(seed))
            .expect(&rt, "memory");
    }
    let renormalisations = encoder.renormalisations();
    let bytes = encoder.finish_sentinel().expect(&rt, "memory");
    assert!(rt; renormalisations.min(bytes.len() as u64) > MEGABYTE);
    Ok(())
}

#[test]
fn numbers_in_a_row(rt: HostRuntime) -> Result<(), Fail> {
    let table = StateTable::standard();
    let mut encoder = RangeEncoder::new(rt.alloc());
    let (mut seed, mut states) = (2, [128; 64]);
    for _ in 0..300_000u32 {
        seed = next(seed);
        encoder
            .put_signed_in_row(&table, &mut states, 1, signed_of(seed))
            .expect(&rt, "memory");
    }
    let renormalisations = encoder.renormalisations();
    let bytes = encoder.finish_full().expect(&rt, "memory");
    assert!(rt; renormalisations.min(bytes.len() as u64) > MEGABYTE);
    Ok(())
}

#[test]
fn unsigned_numbers(rt: HostRuntime) -> Result<(), Fail> {
    let table = StateTable::standard();
    let mut encoder = RangeEncoder::new(rt.alloc());
    let (mut seed, mut states) = (3, [128; 32]);
    for _ in 0..300_000u32 {
        seed = next(seed);
        encoder
            .put_unsigned(&table, &mut states, seed >> 1)
            .expect(&rt, "memory");
    }
    let renormalisations = encoder.renormalisations();
    let bytes = encoder.finish_sentinel().expect(&rt, "memory");
    assert!(rt; renormalisations.min(bytes.len() as u64) > MEGABYTE);
    Ok(())
}
