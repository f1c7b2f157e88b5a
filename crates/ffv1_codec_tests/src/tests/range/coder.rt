//! Single decisions, and how a list ends.

ghost use Rattle.ffv1_range.specs.Table.{Holds};

use ffv1_range::{Fault, RangeDecoder, RangeEncoder, StateTable, Tally};
use std::alloc::Global;

const NO_DECISIONS: Tally = Tally {
    ones: 0,
    zeros: 0,
    renormalisations: 0,
};

const TWO_ONES: Tally = Tally {
    ones: 2,
    zeros: 0,
    renormalisations: 0,
};

/// Two ones by a state 128. Answers the state after the first.
fn put_two(encoder: &mut RangeEncoder, table: &StateTable) -> Result<u8, Fault>
    requires { Holds table.now 128 }
{
    let mut state = 128;
    encoder.put(table, &mut state, true)?;
    let moved = state;
    encoder.put(table, &mut state, true)?;
    Ok(moved)
}

/// Of two ones by a state 128, or of no decision: the state after the first, how many decisions
/// there are, their tally, and whether the sentinel ending, else the full one, gives these bytes.
fn ends(
    alloc: Global,
    two: bool,
    sentinel: bool,
    code: &[u8],
) -> Result<(u8, u64, Tally, bool), Fault> {
    let table = StateTable::standard();
    let mut encoder = RangeEncoder::new(alloc);
    let state = if two {
        put_two(&mut encoder, &table)?
    } else {
        128
    };
    let (decisions, tally) = (encoder.decisions(), encoder.tally());
    let ended = if sentinel {
        encoder.finish_sentinel()
    } else {
        encoder.finish_full()
    };
    Ok((state, decisions, tally, ended?.as_slice() == code))
}

#[test]
fn no_decisions(rt: HostRuntime) {
    let none = Ok((128, 0, NO_DECISIONS, true));
    let sentinel = ends(rt.alloc(), false, true, &[0x00]);
    let full = ends(rt.alloc(), false, false, &[0x00, 0x00]);
    assert!(rt; (sentinel, full) == (none, none));
}

#[test]
fn two_ones(rt: HostRuntime) {
    let two = Ok((134, 2, TWO_ONES, true));
    let sentinel = ends(rt.alloc(), true, true, &[0xbd]);
    let full = ends(rt.alloc(), true, false, &[0xbc, 0x43]);
    assert!(rt; (sentinel, full) == (two, two));
}

#[test]
fn two_ones_read(rt: HostRuntime) -> Result<(), Fault> {
    let table = StateTable::standard();
    let mut decoder = RangeDecoder::new(&[0xbd])?;
    let mut fresh = 128;
    let first = decoder.get(&table, &mut fresh);
    let second = decoder.get(&table, &mut fresh);
    let counts = (decoder.taken(), decoder.tally());
    assert!(rt; (first, second, counts) == (true, true, (2, TWO_ONES)));
    Ok(())
}

fn power(base: u64, exponent: u64) -> u64 {
    let mut product = 1u64;
    for _ in 0..exponent {
        product = product.saturating_mul(base);
    }
    product
}

#[test]
fn cost_of_two_ones(rt: HostRuntime) -> Result<(), Fault> {
    let (_, _, tally, _) = ends(rt.alloc(), true, true, &[])?;
    let weight = 128 * 134;
    let bytes = power(256, tally.renormalisations);
    let least = power(8, tally.ones)
        .saturating_mul(bytes)
        .saturating_mul(weight);
    let ones = power(256 * 9, tally.ones).saturating_mul(power(256, tally.zeros));
    let zeros = power(256, tally.ones).saturating_mul(power(256 * 8, tally.zeros));
    let most = bytes
        .saturating_mul(power(9, tally.zeros))
        .saturating_mul(weight);
    let bounds = [least, ones, zeros, most.saturating_mul(255)];
    assert!(rt; bounds == [1_097_728, 5_308_416, 65_536, 4_373_760]);
    Ok(())
}

#[test]
fn starts(rt: HostRuntime) {
    let bad = RangeDecoder::new(&[0xff, 0x00]).err();
    let good = RangeDecoder::new(&[0xfe, 0xff]).is_ok();
    let empty = RangeDecoder::new(&[]).is_ok();
    assert!(rt; (bad, good, empty) == (Some(Fault::BadStart), true, true));
}
