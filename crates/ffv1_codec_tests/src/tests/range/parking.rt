//! The first slice of a picture of one sample: a keyframe bit, nine values of its head, and one
//! residual, all of them ones.

use ffv1_range::{Fault, Parked, RangeDecoder, RangeEncoder, StateTable, Tally};
use std::alloc::Global;

const ELEVEN_ONES: Tally = Tally {
    ones: 11,
    zeros: 0,
    renormalisations: 1,
};

/// The eleven decisions of a slice.
fn put_slice(encoder: &mut RangeEncoder) -> Result<(), Fault> {
    let table = StateTable::standard();
    let (mut key, mut residual, mut head) = (128, 128, [128; 32]);
    encoder.put(&table, &mut key, true)?;
    for _ in 0..9 {
        encoder.put_unsigned(&table, &mut head, 0)?;
    }
    encoder.put(&table, &mut residual, true)
}

/// Whether they are counted so, and have these bytes.
fn gives(alloc: Global, tally: Tally, code: &[u8]) -> Result<bool, Fault> {
    let mut encoder = RangeEncoder::new(alloc);
    put_slice(&mut encoder)?;
    let same = encoder.tally() == tally;
    Ok(same & (encoder.finish_sentinel()?.as_slice() == code))
}

#[test]
fn eleven_ones(rt: HostRuntime) -> Result<(), Fault> {
    assert!(rt; gives(rt.alloc(), ELEVEN_ONES, &[0xfe, 0x7b])?);
    Ok(())
}

/// The decoder of a slice after its eleven decisions, parked and woken between any two of them;
/// nothing if one is a 0.
fn parked_after(bytes: &[u8]) -> Option<Parked> {
    let table = StateTable::standard();
    let (mut key, mut residual, mut head) = (128, 128, [128; 32]);
    let Ok(mut decoder) = RangeDecoder::new(bytes) else {
        return None;
    };
    let first = decoder.get(&table, &mut key);
    for _ in 0..9 {
        decoder = decoder.park().wake(bytes);
        if !matches!(decoder.get_unsigned(&table, &mut head), Ok(0)) {
            return None;
        }
    }
    decoder = decoder.park().wake(bytes);
    let last = decoder.get(&table, &mut residual);
    if first && last {
        Some(decoder.park())
    } else {
        None
    }
}

/// What they are.
fn read_parked(bytes: &[u8]) -> Option<Tally> {
    match parked_after(bytes) {
        None => None,
        Some(parked) => Some(parked.tally()),
    }
}

/// Whether the bytes end there.
fn is_ended(bytes: &[u8]) -> bool {
    match parked_after(bytes) {
        None => false,
        Some(parked) => parked.is_ended(bytes),
    }
}

#[test]
fn last_bytes(rt: HostRuntime) {
    for byte in 0..=255u8 {
        assert!(rt; is_ended(&[0xfe, byte]) == (byte >= 0x7b && byte <= 0xbc));
        assert!(rt; !is_ended(&[0xfe, 0x7b, byte]));
    }
    assert!(rt; !is_ended(&[0xfe]));
}

#[test]
fn any_byte_behind(rt: HostRuntime) {
    assert!(rt; read_parked(&[0xfe, 0x7b]) == Some(ELEVEN_ONES));
    for byte in 0..=255u8 {
        assert!(rt; read_parked(&[0xfe, 0x7b, byte]) == Some(ELEVEN_ONES));
    }
}

#[test]
fn other_bytes(rt: HostRuntime) {
    let table = StateTable::standard();
    let mut state = 128;
    let mut decoder = RangeDecoder::new(&[0x80, 0x3f, 0x40]).expect(&rt, "a good start");
    let first = decoder.get(&table, &mut state);
    let parked = decoder.park();
    let tally = Tally {
        ones: 1,
        zeros: 0,
        renormalisations: 0,
    };
    let before = (parked.taken(), parked.tally());
    let mut woken = parked.wake(&[]);
    woken.get(&table, &mut state);
    assert!(rt; (first, before, woken.taken()) == (true, (1, tally), 2));
}
