//! Strings of a file, without the control characters that JSON does not escape.

ghost use Rattle.std.specs.Prelude.{◌≡◌, IfOk, false};
ghost use Rattle.ffv1_outline.specs.Strings.{masked, masked_byte};

use std::alloc::{AllocError, Allocator};

/// A byte, or one that no UTF-8 has if it is DEL or the second byte of a control character from
/// U+0080 to U+009F.
fn masked_byte(after: bool, byte: u8) -> u8
    ensures { result ≡ masked_byte after byte }
{
    if byte == 0x7F || after && 0x80 <= byte && byte < 0xA0 {
        0xFF
    } else {
        byte
    }
}

/// The bytes of a string, in which each control character from U+007F to U+009F is no UTF-8 any
/// more.
pub(crate) fn masked<A: Allocator>(alloc: A, string: &[u8]) -> Result<Vec<u8, A>, AllocError>
    ensures { IfOk result (λ v. v.items ≡ masked false string.now) }
{
    let mut bytes = Vec::new(alloc);
    let mut after = false;
    for byte in string {
        bytes.push(masked_byte(after, *byte))?;
        after = *byte == 0xC2;
    }
    Ok(bytes)
}
