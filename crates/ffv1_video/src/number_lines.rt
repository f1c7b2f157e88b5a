//! Words and numbers that are appended to a text.

ghost use Rattle.std.specs.Prelude.{◌≡◌, ◌++◌, decimal, OnOk};
ghost use Rattle.ffv1_video.specs.NumberLines.{pair_line};

use itoa::Buffer;
use std::alloc::{AllocError, Allocator};

/// Appends a word and a number.
pub fn push_number<A: Allocator>(
    text: &mut Vec<u8, A>,
    word: &[u8],
    number: u64,
) -> Result<(), AllocError>
    ensures { OnOk result (text.new.items ≡ text.old.items ++ word.now ++ decimal number) }
{
    let mut buffer = Buffer::new();
    text.extend_from_slice(word)?;
    text.extend_from_slice(buffer.format(number).as_bytes())?;
    Ok(())
}

/// Appends a line of a name and two numbers, with a sign between them.
#[tactic(auto, unfolding(crate::specs::NumberLines::pair_line))]
pub fn push_pair<A: Allocator>(
    text: &mut Vec<u8, A>,
    name: &[u8],
    first: u32,
    sign: &[u8],
    second: u32,
) -> Result<(), AllocError>
    ensures { OnOk result (text.new.items
        ≡ text.old.items ++ pair_line name.now first sign.now second) }
{
    push_number(text, name, u64::from(first))?;
    push_number(text, sign, u64::from(second))?;
    text.extend_from_slice(b"\n")?;
    Ok(())
}
