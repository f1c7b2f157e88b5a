//! Content that is in memory.

ghost use Rattle.std.specs.Prelude.{◌≡◌, ◌≤◌, ◌<◌, ◌+◌, ℕ, List, Ok, Err, IfOk, IfErr, IfSome};
ghost use Rattle.std.specs.Prelude.{length};
ghost use Rattle.ffv1_reads.specs.Reads.{Met};
ghost use Rattle.ffv1_ebml.specs.Contents.{content_told, first_part, found, number_in, text_in};
ghost use Rattle.ffv1_ebml.specs.Children.{parts, slices};
ghost use Rattle.ffv1_ebml.specs.Vints.{vint_read};

use crate::element::is_crc;
use crate::vint::{length_of, number_of, size_of};
use ffv1_reads::FileFault;
use ffv1_sum::crc32;

/// An element in memory.
#[derive(Clone, Copy, Debug)]
pub struct Child<'a> {
    /// The ID, with all its bits.
    pub ident: u32,
    /// Its content.
    pub content: &'a [u8],
    /// What comes after it in its parent.
    pub rest: &'a [u8],
}

/// The bytes of a variable-size integer of at most `most` bytes, and what comes after them.
fn split_vint(content: &[u8], most: usize) -> Result<(&[u8], &[u8]), FileFault>
    requires { most ≤ 8 }
    ensures ok { IfOk result (λ p. vint_read most (length content.now) content.now
        ≡ Ok (p.0.now, p.1.now)) }
    ensures err { IfErr result (λ f. (rest : List ℕ)
        × (vint_read most (length content.now) content.now ≡ Err (Met f rest))) }
    ensures few { IfOk result (λ p. length p.0.now ≤ most) }
    ensures some { IfOk result (λ p. 1 ≤ length p.0.now) }
    ensures whole { IfOk result (λ p. length p.0.now + length p.1.now ≡ length content.now) }
{
    if content.is_empty() {
        return Err(FileFault::Truncated);
    }
    let len = length_of(content[0]);
    if len > most {
        return Err(FileFault::BadElement);
    }
    if content.len() < len {
        return Err(FileFault::Truncated);
    }
    Ok((&content[..len], &content[len..]))
}

/// The first element of some content, or None if that has no bytes.
///
/// `BadElement` if its ID has more than 4 bytes, its size more than 8, or its size is unknown.
/// `Truncated` if it does not fit.
pub fn first_child(content: &[u8]) -> Result<Option<Child<'_>>, FileFault>
    ensures value { parts result ≡ first_part content.now }
    ensures less { IfOk result (λ o. IfSome o (λ c.
        length c.content.now + length c.rest.now < length content.now)) }
{
    if content.is_empty() {
        return Ok(None);
    }
    let (ident, after) = split_vint(content, 4)?;
    let (size, after) = split_vint(after, 8)?;
    let Some(size) = size_of(size) else {
        return Err(FileFault::BadElement);
    };
    if (after.len() as u64) < size {
        return Err(FileFault::Truncated);
    }
    let size = size as usize;
    Ok(Some(Child {
        ident: number_of(ident) as u32,
        content: &after[..size],
        rest: &after[size..],
    }))
}

/// The content of the first element with this ID, or None if there is none.
///
/// If an element before it can't be read, the fault of that one, as of `first_child`. What comes
/// after it is not looked at.
pub fn find(content: &[u8], ident: u32) -> Result<Option<&[u8]>, FileFault>
    ensures value { slices result ≡ found ident content.now }
    ensures short { IfOk result (λ o. IfSome o (λ s. length s.now ≤ length content.now)) }
{
    let mut rest = content;
    while let Some(child) = first_child(rest)? {
        if child.ident == ident {
            return Ok(Some(child.content));
        }
        rest = child.rest;
    }
    Ok(None)
}

/// The number that an element holds (RFC 8794, 7.2), or `default` if it holds no bytes.
///
/// `BadElement` if it has more than 8 bytes.
pub fn number(content: &[u8], default: u64) -> Result<u64, FileFault>
    ensures { result ≡ number_in default content.now }
{
    if content.is_empty() {
        return Ok(default);
    }
    if content.len() > 8 {
        return Err(FileFault::BadElement);
    }
    Ok(number_of(content))
}

/// The text that an element holds (RFC 8794, 7.4): it ends before its first byte 0.
pub fn text(content: &[u8]) -> &[u8]
    ensures { result.now ≡ text_in content.now }
{
    match content.iter().position(|b| *b == 0) {
        Some(len) => &content[..len],
        None => content,
    }
}

/// Judges the CRC-32 of some content (RFC 8794, 11.3.1): if its first element is one of 4 bytes,
/// they are the sum of all that comes after it.
///
/// `Checksum` if they are not; the fault of `first_child` if the first element can't be read.
pub fn judge(content: &[u8]) -> Result<(), FileFault>
    ensures { result ≡ content_told content.now }
{
    let Some(child) = first_child(content)? else {
        return Ok(());
    };
    if is_crc(child.ident, child.content.len() as u64) {
        let stated = child.content;
        let stated = u32::from_le_bytes([stated[0], stated[1], stated[2], stated[3]]);
        if stated != crc32(child.rest) {
            return Err(FileFault::Checksum);
        }
    }
    Ok(())
}
