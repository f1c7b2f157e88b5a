//! Bytes that are read after others.

use ffv1_reads::{FileFault, append};
use ffv1_wire::FromRead;
use std::alloc::Global;

/// The answers of reading two bytes twice after one, of three, and what is there after each.
fn appended(
    alloc: Global,
) -> Result<(Result<(), FileFault>, bool, Result<(), FileFault>, bool), FileFault> {
    let mut input = FromRead::new(b"abc".as_slice());
    let mut bytes = Vec::from_slice(alloc, b"9")?;
    let first = append(&mut input, 2, &mut bytes);
    let two = bytes.as_slice() == b"9ab".as_slice();
    let second = append(&mut input, 2, &mut bytes);
    let three = bytes.as_slice() == b"9abc".as_slice();
    Ok((first, two, second, three))
}

#[test]
fn bytes_after_others(rt: HostRuntime) {
    let truncated = Err(FileFault::Truncated);
    assert!(rt; appended(rt.alloc()) == Ok((Ok(()), true, truncated, true)));
}
