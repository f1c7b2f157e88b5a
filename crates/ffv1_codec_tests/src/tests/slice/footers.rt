//! Footers.

use ffv1_slice::{SliceFault, footer};
use std::process::Abort;
use std::test::Fail;

#[test]
fn stored_footers(rt: HostRuntime) -> Result<(), Fail> {
    let foot = footer(&[0xfe, 0x7b], false)?;
    assert!(rt; foot.bytes() == [0, 0, 2].as_slice());
    let foot = footer(&[0xfe, 0x7b], true)?;
    assert!(rt; foot.bytes() == [0, 0, 2, 0, 0x94, 0x8c, 0x13, 0x3c].as_slice());
    Ok(())
}

/// The first three bytes of the footer of so many bytes, without parity.
fn size_of(rt: &HostRuntime, count: usize) -> Result<Result<[u8; 3], SliceFault>, Fail> {
    let bytes = vec![in rt.alloc(); 0u8; count]?;
    match footer(bytes.as_slice(), false) {
        Ok(foot) => match foot.bytes() {
            [first, second, third] => Ok(Ok([*first, *second, *third])),
            _ => Ok(Ok([0, 0, 0])),
        },
        Err(fault) => Ok(Err(fault)),
    }
}

#[test]
fn the_longest_slice(rt: HostRuntime) -> Result<(), Fail> {
    assert!(rt; size_of(&rt, 16777215)? == Ok([255, 255, 255]));
    assert!(rt; size_of(&rt, 16777216)? == Err(SliceFault::SliceTooLong));
    Ok(())
}
