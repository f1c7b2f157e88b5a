//! A range encoder whose growth is refused.

ghost use Rattle.std.specs.Prelude.{replicate};
ghost use Rattle.ffv1_range.specs.Symbols.{AreHeld};

use ffv1_doubles::Scarce;
use ffv1_range::{Fault, RangeEncoder, StateTable};
use std::alloc::{Allocator, Global};
use std::process::Abort;

/// One of the calls that write, on fresh states.
fn write_one<A: Allocator>(
    encoder: &mut RangeEncoder<A>,
    table: &StateTable,
    call: u8,
) -> Result<(), Fault>
    requires { AreHeld table.now (replicate 32 128) }
{
    let mut states = [128u8; 32];
    match call {
        0 => encoder.put(table, &mut states[0], true),
        1 => encoder.put_signed(table, &mut states, -300),
        2 => encoder.put_unsigned(table, &mut states, 300),
        _ if encoder.has_failed() => Err(Fault::OutOfMemory),
        _ => encoder.put_signed_in_row(table, &mut states, 0, 300),
    }
}

/// Calls it so often, and says whether all calls succeeded.
fn write_many<A: Allocator>(
    encoder: &mut RangeEncoder<A>,
    table: &StateTable,
    call: u8,
    count: u32,
) -> bool
    requires { AreHeld table.now (replicate 32 128) }
{
    let mut all = true;
    for _turn in 0..count {
        all = write_one(encoder, table, call).is_ok() & all;
    }
    all
}

/// A growth of these calls is refused, and then every call is.
fn refuses_calls<A: Allocator>(
    rt: &impl Abort,
    encoder: &mut RangeEncoder<A>,
    table: &StateTable,
    call: u8,
)
    requires { AreHeld table.now (replicate 32 128) }
{
    assert!(rt; !write_many(encoder, table, call, 800));
    for other in 0..4u8 {
        assert!(rt; write_one(encoder, table, other) == Err(Fault::OutOfMemory));
    }
}

/// Whether the first ending, else the other, is refused.
fn refuses_ending<A: Allocator>(encoder: RangeEncoder<A>, sentinel: bool) -> bool {
    let ended = if sentinel {
        encoder.finish_sentinel()
    } else {
        encoder.finish_full()
    };
    ended.err() == Some(Fault::OutOfMemory)
}

/// After the growth that comes after `before` others was refused, every call is.
fn refuses_for_good(rt: &impl Abort, alloc: Global, table: &StateTable, call: u8, before: u64)
    requires { AreHeld table.now (replicate 32 128) }
{
    let heap = Scarce::new(alloc, before);
    let mut encoder = RangeEncoder::new(&heap);
    refuses_calls(rt, &mut encoder, table, call);
    assert!(rt; refuses_ending(encoder, before % 2 != 0));
}

#[test]
fn each_growth_of_each_call(rt: HostRuntime) {
    let table = StateTable::standard();
    for call in 0..4u8 {
        for before in 0..4u64 {
            refuses_for_good(&rt, rt.alloc(), &table, call, before);
        }
    }
}

/// Whether the first ending, else the other, of so many decisions is refused, if the decisions
/// themselves are not.
fn ending_is_refused(
    alloc: Global,
    table: &StateTable,
    count: u32,
    before: u64,
    sentinel: bool,
) -> bool
    requires { AreHeld table.now (replicate 32 128) }
{
    let heap = Scarce::new(alloc, before);
    let mut encoder = RangeEncoder::new(&heap);
    let written = write_many(&mut encoder, table, 0, count);
    written & refuses_ending(encoder, sentinel)
}

#[test]
fn growths_of_endings(rt: HostRuntime) {
    let table = StateTable::standard();
    for sentinel in [true, false] {
        let mut refused = 0u32;
        for before in 0..3u64 {
            for count in 0..300u32 {
                if ending_is_refused(rt.alloc(), &table, count, before, sentinel) {
                    refused = refused.saturating_add(1);
                }
            }
        }
        assert!(rt; refused > 2);
    }
}
