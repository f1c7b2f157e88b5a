//! Rows of Golomb-Rice whose bits are known: FFmpeg decodes those that are good to these samples.

ghost use Rattle.std.specs.Prelude.{◌≡◌, ◌≤◌, ◌*◌, length};
ghost use Rattle.ffv1_plane.specs.Quantisation.{contexts_of};

use ffv1_plane::QuantSet;
use ffv1_rice::kept::reset;
use ffv1_rice::{Below, Bits, Fault, Refused, decode_row};
use std::alloc::Global;
use std::process::Abort;

/// What two rows of 8 bits answer, of which the first begins a plane, and whether what is left then
/// are zeros to the end of a byte.
fn two_answers(
    set: &QuantSet<Global>,
    states: &mut [u8],
    bytes: &[u8],
    first: &mut [u16],
    second: &mut [u16],
) -> (Result<(), Refused>, Result<(), Refused>, bool)
    requires first { length first.old ≤ 16 }
    requires second { length second.old ≡ length first.old }
    requires long { length states.old ≡ contexts_of set.now * 32 }
{
    let none = [0u16; 16];
    let zeros = &none[..first.len()];
    let mut bits = Bits::new(bytes);
    let mut index = 0;
    reset(states);
    let below = Below {
        set,
        depth: 8,
        two: zeros,
        one: zeros,
    };
    let one = decode_row(&mut bits, &below, states, &mut index, first);
    let below = Below {
        set,
        depth: 8,
        two: zeros,
        one: &*first,
    };
    let two = decode_row(&mut bits, &below, states, &mut index, second);
    (one, two, bits.is_padding())
}

/// The same of one row.
fn one_answer(
    set: &QuantSet<Global>,
    states: &mut [u8],
    bytes: &[u8],
    row: &mut [u16],
) -> (Result<(), Refused>, bool)
    requires row { length row.old ≤ 16 }
    requires long { length states.old ≡ contexts_of set.now * 32 }
{
    let none = [0u16; 16];
    let zeros = &none[..row.len()];
    let mut bits = Bits::new(bytes);
    let mut index = 0;
    reset(states);
    let below = Below {
        set,
        depth: 8,
        two: zeros,
        one: zeros,
    };
    let done = decode_row(&mut bits, &below, states, &mut index, row);
    (done, bits.is_padding())
}

/// The same by the set of 666 contexts.
fn two_rows(
    rt: &impl Abort,
    alloc: Global,
    bytes: &[u8],
    first: &mut [u16],
    second: &mut [u16],
) -> (Result<(), Refused>, Result<(), Refused>, bool)
    requires first { length first.old ≤ 16 }
    requires second { length second.old ≡ length first.old }
{
    let set = QuantSet::small(alloc).expect(rt, "set");
    let mut states = vec![in alloc; 0u8; 21312].expect(rt, "states");
    two_answers(&set, &mut states, bytes, first, second)
}

/// The same of one row.
fn one_row(
    rt: &impl Abort,
    alloc: Global,
    bytes: &[u8],
    row: &mut [u16],
) -> (Result<(), Refused>, bool)
    requires row { length row.old ≤ 16 }
{
    let set = QuantSet::small(alloc).expect(rt, "set");
    let mut states = vec![in alloc; 0u8; 21312].expect(rt, "states");
    one_answer(&set, &mut states, bytes, row)
}

/// Mono 1 by 1, 0.
#[test]
fn one_zero(rt: HostRuntime) {
    let mut row = [1u16; 1];
    let seen = one_row(&rt, rt.alloc(), &[128], &mut row);
    assert!(rt; seen == (Ok(()), true) && row == [0]);
}

/// The same, 255.
#[test]
fn one_255(rt: HostRuntime) {
    let mut row = [0u16; 1];
    let seen = one_row(&rt, rt.alloc(), &[80], &mut row);
    assert!(rt; seen == (Ok(()), true) && row == [255]);
}

/// The same, 128: an escape.
#[test]
fn an_escape(rt: HostRuntime) {
    let mut row = [0u16; 1];
    let seen = one_row(&rt, rt.alloc(), &[0, 7, 160], &mut row);
    assert!(rt; seen == (Ok(()), true) && row == [128]);
}

/// Mono 4 by 2, all 0: a run a line, the index goes on.
#[test]
fn a_run_a_line(rt: HostRuntime) {
    let mut first = [1u16; 4];
    let mut second = [1u16; 4];
    let seen = two_rows(&rt, rt.alloc(), &[252], &mut first, &mut second);
    assert!(rt; seen == (Ok(()), Ok(()), true) && first == [0, 0, 0, 0] && second == [0, 0, 0, 0]);
}

/// Mono 4 by 2, all 5.
#[test]
fn all_five(rt: HostRuntime) {
    let mut first = [0u16; 4];
    let mut second = [0u16; 4];
    let seen = two_rows(&rt, rt.alloc(), &[18, 84, 224], &mut first, &mut second);
    assert!(rt; seen == (Ok(()), Ok(()), true) && first == [5, 5, 5, 5] && second == [5, 5, 5, 5]);
}

/// Mono 12 by 2, 0 but the last but one, 9: run of 10 and a lower part.
#[test]
fn a_lower_part(rt: HostRuntime) {
    let mut first = [1u16; 12];
    let mut second = [1u16; 12];
    let seen = two_rows(
        &rt,
        rt.alloc(),
        &[255, 208, 64, 160],
        &mut first,
        &mut second,
    );
    assert!(rt; seen == (Ok(()), Ok(()), true) && first == [0; 12]);
    assert!(rt; second == [0, 0, 0, 0, 0, 0, 0, 0, 0, 0, 9, 0]);
}

/// Mono 5 by 1, 0 0 0 0 0: the last 1 is of a run that is not whole.
#[test]
fn a_run_that_is_not_whole(rt: HostRuntime) {
    let mut row = [1u16; 5];
    let seen = one_row(&rt, rt.alloc(), &[248], &mut row);
    assert!(rt; seen == (Ok(()), true) && row == [0, 0, 0, 0, 0]);
}

/// Mono 6 by 1, 0 0 0 0 3 0.
#[test]
fn a_broken_run(rt: HostRuntime) {
    let mut row = [1u16; 6];
    let seen = one_row(&rt, rt.alloc(), &[241, 20], &mut row);
    assert!(rt; seen == (Ok(()), true) && row == [0, 0, 0, 0, 3, 0]);
}

/// Mono 3 by 2, (10, 20, 10) and (200, 3, 90): turned contexts.
#[test]
fn turned_contexts(rt: HostRuntime) {
    let bytes = [6, 4, 14, 0, 15, 32, 0, 214, 0, 20, 96];
    let mut first = [0u16; 3];
    let mut second = [0u16; 3];
    let seen = two_rows(&rt, rt.alloc(), &bytes, &mut first, &mut second);
    assert!(rt; seen == (Ok(()), Ok(()), true) && first == [10, 20, 10] && second == [200, 3, 90]);
}

/// Mono 16 by 1, 1 2 3 .. 16: drift and bias.
#[test]
fn drift_and_bias(rt: HostRuntime) {
    let mut row = [0u16; 16];
    let seen = one_row(&rt, rt.alloc(), &[77, 165, 165, 125, 40], &mut row);
    assert!(rt; seen == (Ok(()), true));
    assert!(rt; row == [1, 2, 3, 4, 5, 6, 7, 8, 9, 10, 11, 12, 13, 14, 15, 16]);
}

/// A 1 after the last bit, and a byte after it, which FFmpeg does not look at.
#[test]
fn no_padding(rt: HostRuntime) {
    let mut first = [1u16; 4];
    let mut second = [1u16; 4];
    let one = two_rows(&rt, rt.alloc(), &[253], &mut first, &mut second);
    let two = two_rows(&rt, rt.alloc(), &[252, 0], &mut first, &mut second);
    assert!(rt; (one, two) == ((Ok(()), Ok(()), false), (Ok(()), Ok(()), false)));
}

/// What a row of four answers.
fn four(rt: &impl Abort, alloc: Global, bytes: &[u8]) -> Result<(), Refused> {
    let mut row = [0u16; 4];
    let (done, _) = one_row(rt, alloc, bytes, &mut row);
    done
}

/// No bits; then an escape of 11, which is 1 11 by k = 2, one of 256, and after a run the number of
/// 127, whose difference is 128.
#[test]
fn bad_codes(rt: HostRuntime) {
    let ends = Err(Refused {
        x: 0,
        fault: Fault::BitsEnd,
    });
    let bad = Err(Refused {
        x: 0,
        fault: Fault::BadCode,
    });
    assert!(rt; four(&rt, rt.alloc(), &[]) == ends);
    assert!(rt; four(&rt, rt.alloc(), &[0, 0, 7, 224]) == bad);
    assert!(rt; four(&rt, rt.alloc(), &[0, 7, 175, 248]) == bad);
    assert!(rt; four(&rt, rt.alloc(), &[0, 7, 159, 248]) == bad);
}

/// Mono 5 by 1, bits 1111 0 1: a run of 1 that is broken, where one sample is left.
#[test]
fn a_run_leaves_the_row(rt: HostRuntime) {
    let mut row = [0u16; 5];
    let (done, _) = one_row(&rt, rt.alloc(), &[244], &mut row);
    assert!(rt;
        done == Err(Refused {
            x: 4,
            fault: Fault::BadCode
        })
    );
}
