//! What `trial` prints.

ghost use Rattle.std.specs.Prelude.{◌≡◌, ◌<◌, ◌*◌, ◌++◌, List, length, codes, IfOk, OnOk};
ghost use Rattle.ffv1_pack.specs.Report.{hexadecimal, digit_of, report_of, same_line};

use ffv1_video::number_lines::push_number;
use std::alloc::{AllocError, Allocator};

/// The digits of hexadecimal numbers.
const DIGITS: [u8; 16] = *b"0123456789ABCDEF";

/// One digit of a hexadecimal number.
fn digit(value: u8) -> u8
    requires { value < 16 }
    ensures { result ≡ digit_of value }
{
    DIGITS[value as usize]
}

/// Writes bytes in hexadecimal, two upper-case digits each.
fn write_hexadecimal(digits: &mut [u8], bytes: &[u8])
    requires { length digits.old ≡ length bytes.now * 2 }
    ensures { digits.new ≡ hexadecimal bytes.now }
{
    for x in 0..bytes.len() {
        let byte = bytes[x];
        digits[x * 2] = digit(byte / 16);
        digits[x * 2 + 1] = digit(byte % 16);
    }
}

/// Appends bytes in hexadecimal.
fn push_hexadecimal<A: Allocator>(text: &mut Vec<u8, A>, bytes: &[u8]) -> Result<(), AllocError>
    ensures { OnOk result (text.new.items ≡ text.old.items ++ hexadecimal bytes.now) }
{
    let start = text.len();
    let Some(end) = start.checked_add(bytes.len() * 2) else {
        return Err(AllocError);
    };
    text.resize(end, 0)?;
    write_hexadecimal(&mut text.as_mut_slice()[start..], bytes);
    Ok(())
}

/// The four lines of a trial: how many samples there were and how many decisions they took, the
/// code in hexadecimal, and whether it was decoded to the same samples.
pub(crate) fn report<A: Allocator>(
    alloc: A,
    samples: u64,
    decisions: u64,
    code: &[u8],
    same: bool,
) -> Result<Vec<u8, A>, AllocError>
    ensures { IfOk result (λ text. text.items ≡ report_of samples decisions code.now same) }
{
    let mut text = Vec::new(alloc);
    push_number(&mut text, b"samples ", samples)?;
    push_number(&mut text, b"\ndecisions ", decisions)?;
    text.extend_from_slice(b"\ncode ")?;
    push_hexadecimal(&mut text, code)?;
    let last = if same {
        b"\nsame yes\n".as_slice()
    } else {
        b"\nsame no\n".as_slice()
    };
    text.extend_from_slice(last)?;
    Ok(text)
}
