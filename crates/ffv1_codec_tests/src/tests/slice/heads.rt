//! Heads, and why they are refused.

ghost use Rattle.std.specs.Prelude.{◌≡◌, ◌*◌, ◌<◌, length};
ghost use Rattle.ffv1_range.specs.Symbols.{AreHeld};
ghost use Rattle.ffv1_slice.specs.Coding.{IsSlice};

use super::made::{mono, pair};
use super::slices::plain;
use ffv1_range::{RangeDecoder, RangeEncoder, StateTable};
use ffv1_record::{Checked, Profile};
use ffv1_slice::{SliceFault, SliceHead, get_head, get_key, put_key};
use std::alloc::Global;
use std::process::Abort;
use std::test::Fail;

/// The head of a slice, and how many decisions were read, also of one that is refused.
fn head_of(
    bytes: &[u8],
    checked: &Checked,
    number: u32,
) -> Result<(Result<SliceHead, SliceFault>, u64), Fail>
    requires { IsSlice checked.now number }
{
    let mut decoder = RangeDecoder::new(bytes)?;
    if let Err(fault) = get_key(&mut decoder, checked, number) {
        return Ok((Err(fault), decoder.taken()));
    }
    let head = get_head(&mut decoder, checked, number);
    Ok((head, decoder.taken()))
}

/// The heads of two slices.
fn two_heads(rt: &impl Abort, two: &Checked) -> Result<(), Fail>
    requires first { IsSlice two.now 0 }
    requires second { IsSlice two.now 1 }
{
    let first = head_of(&[0xfe, 0x7b], two, 0)?;
    let second = head_of(&[0x3f, 0x76], two, 1)?;
    assert!(rt; (first, second) == ((Ok(plain()), 10), (Ok(plain()), 10)));
    Ok(())
}

#[test]
fn stored_heads(rt: HostRuntime) -> Result<(), Fail> {
    let two = mono(rt.alloc(), 2, 1, 2, false)?;
    two_heads(&rt, &two)
}

/// Numbers one after the other, each below 2^31.
fn put_numbers(
    encoder: &mut RangeEncoder,
    table: &StateTable,
    states: &mut [u8],
    numbers: &[u32],
) -> Result<(), Fail>
    requires { AreHeld table.now states.old }
    ensures { AreHeld table.now states.new }
{
    for number in numbers {
        encoder.put_unsigned(table, states, *number % 2147483648)?;
    }
    Ok(())
}

/// Slice 0, whose head has six zeros and then these numbers.
fn made(alloc: Global, checked: &Checked, numbers: [u32; 3]) -> Result<Vec<u8>, Fail> {
    let [structure, num, den] = numbers;
    let table = StateTable::standard();
    let mut encoder = RangeEncoder::new(alloc);
    put_key(&mut encoder, checked, 0)?;
    let mut states = [128u8; 32];
    let all = [0, 0, 0, 0, 0, 0, structure, num, den];
    put_numbers(&mut encoder, &table, &mut states, &all)?;
    Ok(encoder.finish_sentinel()?)
}

/// The structure and the aspect that a head of these numbers is read as.
fn read(
    alloc: Global,
    checked: &Checked,
    numbers: [u32; 3],
) -> Result<Result<(u8, u16, u16), SliceFault>, Fail>
    requires { IsSlice checked.now 0 }
{
    let bytes = made(alloc, checked, numbers)?;
    match head_of(bytes.as_slice(), checked, 0)?.0 {
        Ok(head) => {
            let [first, second, third] = head.indexes;
            if (first, second, third) != (0, 0, 0) {
                return Err(Fail::new("other indexes"));
            }
            Ok(Ok((head.structure, head.sar_num, head.sar_den)))
        }
        Err(fault) => Ok(Err(fault)),
    }
}

/// Structures and aspects, and what they are read as.
type Said = ([u32; 3], Result<(u8, u16, u16), SliceFault>);

/// At `Wide`, aspects of which one number is 0, as they are coded, and what is above 65535.
static AT_WIDE: [Said; 7] = [
    ([0, 0, 1], Ok((0, 0, 1))),
    ([0, 65535, 0], Ok((0, 65535, 0))),
    ([0, 0, 0], Ok((0, 0, 0))),
    ([0, 4, 3], Ok((0, 4, 3))),
    ([0, 0, 65536], Err(SliceFault::Aspect)),
    ([0, 65536, 0], Err(SliceFault::Aspect)),
    ([0, 65536, 1], Err(SliceFault::Aspect)),
];

/// At `Strict`, aspects, three refused and one found.
static AT_STRICT: [Said; 4] = [
    ([3, 65536, 1], Err(SliceFault::Aspect)),
    ([3, 0, 1], Err(SliceFault::Aspect)),
    ([3, 1, 0], Err(SliceFault::Aspect)),
    ([3, 65535, 12], Ok((3, 65535, 12))),
];

/// Each is read as is said.
fn are_read(rt: &impl Abort, alloc: Global, two: &Checked, rows: &[Said]) -> Result<(), Fail>
    requires { IsSlice two.now 0 }
{
    for &(numbers, said) in rows {
        let found = read(alloc, two, numbers)?;
        assert!(rt; found == said, "{}", numbers[1]);
    }
    Ok(())
}

#[test]
fn aspects_at_wide(rt: HostRuntime) -> Result<(), Fail> {
    let two = pair(rt.alloc(), Profile::Wide)?;
    are_read(&rt, rt.alloc(), &two, &AT_WIDE)
}

#[test]
fn aspects_at_strict(rt: HostRuntime) -> Result<(), Fail> {
    let two = pair(rt.alloc(), Profile::Strict)?;
    are_read(&rt, rt.alloc(), &two, &AT_STRICT)
}
