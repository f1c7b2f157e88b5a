//! The values of a header's tags.

ghost use Rattle.std.specs.Prelude.{◌≡◌, ◌≤◌, ◌<◌, ◌==◌, IfSome, length};
ghost use Rattle.std.specs.List.{position};
ghost use Rattle.ffv1_y4m.specs.Header.{IsSplitOnce, number_of, capped_of, size_of, ratio_of};
ghost use Rattle.ffv1_y4m.specs.Header.{structure_of, is_text};

use crate::fault::Fault;
use itoa::Buffer;
use std::str;

/// Where the byte comes first.
fn place(text: &[u8], byte: u8) -> Option<usize>
    ensures value { result ≡ position (λ c. c == byte) text.now }
    ensures bound { IfSome result (λ i. i < length text.now) }
{
    text.iter().position(|c| *c == byte)
}

/// What comes before and after the first of these bytes.
pub(crate) fn split_once(text: &[u8], byte: u8) -> Option<(&[u8], &[u8])>
    ensures { IsSplitOnce byte text.now result }
{
    match place(text, byte) {
        Some(at) => Some((&text[..at], &text[at + 1..])),
        None => None,
    }
}

/// Whether the text is this name.
pub(crate) fn is_text(text: &[u8], name: &[u8]) -> bool
    ensures { result ≡ is_text text.now name.now }
{
    text == name
}

/// The number below 2 ^ 32 whose one decimal spelling the text is: no sign, no leading zero.
pub(crate) fn number(text: &[u8]) -> Option<u32>
    ensures { result ≡ number_of text.now }
{
    let Ok(digits) = str::from_utf8(text) else {
        return None;
    };
    let Ok(number) = digits.parse::<u32>() else {
        return None;
    };
    if Buffer::new().format(number) == digits {
        return Some(number);
    }
    None
}

/// A width or a height, from 1 to 8192.
#[tactic(auto, unfolding(crate::specs::Header::size_of))]
pub(crate) fn size(value: &[u8]) -> Option<u32>
    ensures { result ≡ size_of value.now }
{
    let number = number(value)?;
    if 1 <= number && number <= 8192 {
        return Some(number);
    }
    None
}

/// A number of at most so much.
#[tactic(auto, unfolding(crate::specs::Header::capped_of))]
fn capped(most: u32, text: &[u8]) -> Option<u32>
    ensures value { result ≡ capped_of most text.now }
    ensures small { IfSome result (λ n. n ≤ most) }
{
    let number = number(text)?;
    if number <= most {
        return Some(number);
    }
    None
}

/// Two numbers of at most so much, joined by a colon; both zero or neither.
fn ratio(most: u32, value: &[u8]) -> Option<(u32, u32)>
    ensures value { result ≡ ratio_of most value.now }
    ensures small { IfSome result (λ r. (r.0 ≤ most) × (r.1 ≤ most)) }
{
    let Some((first, second)) = split_once(value, b':') else {
        return None;
    };
    let Some(first) = capped(most, first) else {
        return None;
    };
    let Some(second) = capped(most, second) else {
        return None;
    };
    if (first == 0) == (second == 0) {
        return Some((first, second));
    }
    None
}

/// Frames a second, of a tag F.
pub(crate) fn rate(value: &[u8]) -> Option<(u32, u32)>
    ensures { result ≡ ratio_of 4294967295 value.now }
{
    ratio(u32::MAX, value)
}

/// The aspect of a sample, of a tag A.
pub(crate) fn aspect(value: &[u8]) -> Option<(u16, u16)>
    ensures { result ≡ ratio_of 65535 value.now }
{
    let (num, den) = ratio(65535, value)?;
    Some((num as u16, den as u16))
}

/// The structure of a picture, of a tag I.
#[tactic(auto, unfolding(crate::specs::Header::structure_of))]
pub(crate) fn structure(value: &[u8]) -> Result<u8, Fault>
    ensures { result ≡ structure_of value.now }
{
    match value {
        b"p" => Ok(3),
        b"t" => Ok(1),
        b"b" => Ok(2),
        b"?" => Ok(0),
        b"m" => Err(Fault::Unsupported),
        _ => Err(Fault::Tag),
    }
}
