//! The encoder beside the interval of its decisions, computed slowly over numbers of 128 bits.

ghost use Rattle.std.specs.Prelude.{replicate, ◌<◌};
ghost use Rattle.ffv1_range.specs.Symbols.{AreHeld};

use super::made::put_at;
use ffv1_range::{Fault, RangeEncoder, StateTable};

/// The numbers from low to below low and width, each of so many bytes.
#[derive(Clone, Copy)]
struct Interval {
    low: u128,
    width: u128,
    count: u32,
}

impl Interval {
    fn narrow(self, state: u8, bit: bool) -> Interval {
        let upper = self.width.wrapping_mul(u128::from(state)) / 256;
        let lower = self.width.wrapping_sub(upper);
        let mut part = if bit {
            Interval {
                low: self.low.wrapping_add(lower),
                width: upper,
                count: self.count,
            }
        } else {
            Interval {
                low: self.low,
                width: lower,
                count: self.count,
            }
        };
        if part.width < 256 {
            part.low = part.low.wrapping_mul(256);
            part.width = part.width.wrapping_mul(256);
            part.count = part.count.wrapping_add(1);
        }
        part
    }
}

/// Whether the bytes are so many, and the number with its bytes big end first.
fn are_digits(number: u128, count: u32, bytes: &[u8]) -> bool {
    let mut rest = number;
    let mut same = bytes.len() as u64 == u64::from(count);
    for byte in bytes.iter().rev() {
        same = same & (u128::from(*byte) == rest % 256);
        rest /= 256;
    }
    same & (rest == 0)
}

/// Whether an ending of some decisions is that of their interval. Three of four decisions are ones.
fn ends_alike(
    rt: &HostRuntime,
    table: &StateTable,
    seed: u32,
    count: usize,
    sentinel: bool,
) -> Result<bool, Fault>
    requires { AreHeld table.now (replicate 32 128) }
{
    let mut states = [128; 32];
    let mut encoder = RangeEncoder::new(rt.alloc());
    let mut seed = seed;
    let mut interval = Interval {
        low: 0,
        width: 65280,
        count: 2,
    };
    for _ in 0..count {
        seed = seed.wrapping_mul(1_664_525).wrapping_add(1_013_904_223);
        let slot = (seed >> 29) as usize % 8;
        let bit = (seed >> 20) % 4 != 0;
        interval = interval.narrow(states[slot], bit);
        put_at(&mut encoder, table, &mut states, slot, bit)?;
    }
    let (number, count, ended) = if sentinel {
        let last = interval.narrow(129, false);
        let top = last.low.wrapping_add(255) / 256;
        (top, last.count.wrapping_sub(1), encoder.finish_sentinel())
    } else {
        (interval.low, interval.count, encoder.finish_full())
    };
    Ok(are_digits(number, count, &ended?))
}

#[test]
fn random_lists(rt: HostRuntime) {
    let table = StateTable::standard();
    for seed in 0..40u32 {
        for count in 0..60usize {
            let full = ends_alike(&rt, &table, seed, count, false);
            let sentinel = ends_alike(&rt, &table, seed, count, true);
            assert!(rt; (full, sentinel) == (Ok(true), Ok(true)));
        }
    }
}
