//! A payload that is cut.

use super::made::mono;
use ffv1_slice::{Spans, cut};
use std::test::Fail;

#[test]
fn example(rt: HostRuntime) -> Result<(), Fail> {
    let checked = mono(rt.alloc(), 1, 1, 1, false)?;
    let mut spans = Spans::new(rt.alloc())?;
    assert!(rt; spans.span(0) == None);
    cut(&checked, &[0xfe, 0x7b, 0, 0, 2], &mut spans)?;
    assert!(rt; spans.span(0) == Some((0, 2)));
    assert!(rt; spans.span(1) == None);
    Ok(())
}
