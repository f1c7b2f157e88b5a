//! The fields of a line.

use anyhow::{Context, Result};
use std::alloc::Global;
use std::str::SplitWhitespace;

/// How many cases agree with the crates, of how many.
#[derive(Clone, Copy)]
pub(crate) struct Count {
    pub(crate) agree: u64,
    pub(crate) cases: u64,
}

/// One case more.
pub(crate) fn counted(count: Count, agrees: bool) -> Count {
    Count {
        agree: count.agree.saturating_add(u64::from(agrees)),
        cases: count.cases.saturating_add(1),
    }
}

/// The next field, as a number.
pub(crate) fn number(fields: &mut SplitWhitespace<'_>) -> Result<u32> {
    Ok(fields.next().context("a field is missing")?.parse::<u32>()?)
}

/// The value of a hexadecimal digit.
fn digit(code: u8) -> Result<u8> {
    let value = char::from(code)
        .to_digit(16)
        .context("no hexadecimal digit")?;
    Ok(value as u8)
}

/// The next field, as bytes: hexadecimal, and `-` if there are none.
pub(crate) fn bytes(alloc: Global, fields: &mut SplitWhitespace<'_>) -> Result<Vec<u8>> {
    let text = fields.next().context("a field is missing")?.as_bytes();
    let mut bytes = Vec::new(alloc);
    if text == b"-".as_slice() {
        return Ok(bytes);
    }
    for pair in text.chunks(2) {
        if let [high, low] = pair {
            bytes.push(digit(*high)? % 16 * 16 + digit(*low)? % 16)?;
        }
    }
    Ok(bytes)
}
