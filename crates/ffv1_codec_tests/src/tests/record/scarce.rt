//! Memory that is refused while a configuration record is written or read, at every place.

use super::stored::SMALL;
use ffv1_doubles::Scarce;
use ffv1_doubles::made::mono;
use ffv1_record::{Checked, RecordFault, read_record, write_record};
use std::alloc::Global;
use std::process::Abort;

/// Whether an answer is a want of memory; any other answer is true.
fn is_refused(rt: &impl Abort, answer: Result<bool, RecordFault>) -> bool {
    match answer {
        Ok(right) => assert!(rt; right),
        Err(fault) => assert!(rt; fault == RecordFault::OutOfMemory),
    }
    answer.is_err()
}

/// Whether a configuration is written as the small record.
fn is_written(heap: &Scarce<Global>, checked: &Checked) -> Result<bool, RecordFault> {
    let record = write_record(heap, checked)?;
    Ok(record.as_slice() == SMALL.as_slice())
}

/// Whether the small record is read with its ec.
fn is_read(heap: &Scarce<Global>) -> Result<bool, RecordFault> {
    let checked = read_record(heap, &SMALL, 1, 1)?;
    Ok(checked.config().ec)
}

/// Whether a configuration is made with its set.
fn is_made(heap: &Scarce<Global>) -> Result<bool, RecordFault> {
    let config = mono(heap, 1, 1, 1, true)?;
    Ok(config.sets.len() == 1)
}

/// How many requests of memory are refused, each in its turn, to the writing of a configuration,
/// the reading of its record and the making of it.
fn refused(rt: &impl Abort, alloc: Global, checked: &Checked) -> (u8, u8, u8) {
    let (mut written, mut read, mut made) = (0u8, 0u8, 0u8);
    for before in 0..40u64 {
        if is_refused(rt, is_written(&Scarce::new(alloc, before), checked)) {
            written = written.saturating_add(1);
        }
        if is_refused(rt, is_read(&Scarce::new(alloc, before))) {
            read = read.saturating_add(1);
        }
        if is_refused(rt, is_made(&Scarce::new(alloc, before))) {
            made = made.saturating_add(1);
        }
    }
    (written, read, made)
}

#[test]
fn each_request(rt: HostRuntime) -> Result<(), RecordFault> {
    let checked = mono(rt.alloc(), 1, 1, 1, true)?.check()?;
    assert!(rt; refused(&rt, rt.alloc(), &checked) == (3, 11, 6));
    Ok(())
}
