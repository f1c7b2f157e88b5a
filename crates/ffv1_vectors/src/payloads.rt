//! Payloads that are cut: the fault and its slice, or the spans.

use crate::fields::{Count, bytes, counted, number};
use crate::heads::{checked, number_of};
use anyhow::Result;
use ffv1_slice::{Spans, cut};
use std::alloc::Global;
use std::fs;
use std::rt::Files;
use std::str::SplitWhitespace;

/// Whether the spans are those of the rest of a line, and no more.
fn agree(fields: &mut SplitWhitespace<'_>, spans: &Spans, slices: usize) -> Result<bool> {
    let mut same = spans.span(slices).is_none();
    for slice in 0..slices {
        let begin = number(fields)? as usize;
        let end = number(fields)? as usize;
        same = same && spans.span(slice) == Some((begin, end));
    }
    Ok(same)
}

/// Whether one case agrees.
fn case(alloc: Global, line: &str, spans: &mut Spans) -> Result<bool> {
    let mut fields = line.split_whitespace();
    let columns = number(&mut fields)?;
    let rows = number(&mut fields)?;
    let ec = number(&mut fields)? == 1;
    let payload = bytes(alloc, &mut fields)?;
    let checked = checked(alloc, columns, rows, false, ec, 1)?;
    let fault = number(&mut fields)?;
    let slice = number(&mut fields)?;
    match cut(&checked, payload.as_slice(), spans) {
        Err(refused) => Ok(
            number_of(refused.fault) == fault
                && u32::from(refused.slice) == slice
                && spans.span(0).is_none(),
        ),
        Ok(()) => Ok(
            fault == 0 && agree(&mut fields, spans, columns.saturating_mul(rows) as usize)?,
        ),
    }
}

/// How many cases agree.
pub(crate) fn count<R: AllocGlobal + Files>(rt: &R) -> Result<Count> {
    let text = fs::read_to_string(rt, "payloads.txt")?;
    let mut spans = Spans::new(rt.alloc())?;
    let mut count = Count { agree: 0, cases: 0 };
    for line in text.lines() {
        count = counted(count, case(rt.alloc(), line, &mut spans)?);
    }
    Ok(count)
}
