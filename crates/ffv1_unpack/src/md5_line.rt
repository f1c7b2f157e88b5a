//! A line of a list of MD5s, as FFmpeg's framemd5 writes it.

ghost use Rattle.std.specs.Prelude.{◌≡◌, ◌≤◌, ◌<◌, ◌==◌, ◌&&◌, IfSome, length};
ghost use Rattle.std.specs.Prelude.{slice_index};
ghost use Rattle.std.specs.List.{position};
ghost use Rattle.ffv1_unpack.specs.Md5Line.{after, before, field, head_said, is_integer, is_text};
ghost use Rattle.ffv1_unpack.specs.Md5Line.{md5_of, number_of, row_said, says, trimmed};

use std::str;

/// What a line of a list says.
#[derive(Clone, Copy, Debug, PartialEq, Eq)]
pub enum Md5Line {
    /// Nothing of a picture: a line that begins with `#`.
    Head,
    /// That this stream is video.
    Video(u128),
    /// The MD5 of a picture.
    Picture {
        /// Its stream.
        stream: u128,
        /// The MD5, as a number whose first hexadecimal digit is the highest.
        md5: u128,
    },
    /// Another hash, or what is no line of a list.
    Other,
}

/// The most bytes of a line.
pub(crate) const LONGEST_LINE: usize = 65536;

/// Where the byte comes first.
fn place(text: &[u8], byte: u8) -> Option<usize>
    ensures value { result ≡ position (λ c. c == byte) text.now }
    ensures bound { IfSome result (λ i. i < length text.now) }
{
    text.iter().position(|c| *c == byte)
}

/// Whether this byte comes first.
fn begins_with(text: &[u8], byte: u8) -> bool
    requires { 0 < byte }
    ensures { result ≡ (slice_index text.now 0 == byte) }
{
    !text.is_empty() && text[0] == byte
}

/// What stands before the first of these bytes, and after it; all and nothing if there is none.
fn cut(text: &[u8], byte: u8) -> (&[u8], &[u8])
    ensures before { result.0.now ≡ before byte text.now }
    ensures after { result.1.now ≡ after byte text.now }
{
    match place(text, byte) {
        Some(at) => (&text[..at], &text[at + 1..]),
        None => (text, &[]),
    }
}

/// The text without white space at its beginning, and at its end.
#[tactic(auto, unfolding(crate::specs::Md5Line::trimmed))]
fn trimmed(text: &[u8]) -> &[u8]
    ensures { result.now ≡ trimmed text.now }
{
    text.trim_ascii()
}

/// The number of 128 bits that digits of a radix write, and nothing beside them.
#[tactic(auto, unfolding(crate::specs::Md5Line::number_of))]
fn number(text: &[u8], radix: u32) -> Option<u128>
    requires least { 2 ≤ radix }
    requires most { radix ≤ 16 }
    ensures { result ≡ number_of radix text.now }
{
    if begins_with(text, b'+') {
        return None;
    }
    let Ok(digits) = str::from_utf8(text) else {
        return None;
    };
    match u128::from_str_radix(digits, radix) {
        Ok(number) => Some(number),
        Err(_) => None,
    }
}

/// Whether it is a number, of which a minus may stand first.
fn is_integer(text: &[u8]) -> bool
    ensures { result ≡ is_integer text.now }
{
    let digits = if !text.is_empty() && text[0] == b'-' {
        &text[1..]
    } else {
        text
    };
    number(digits, 10).is_some()
}

/// The MD5 of 32 hexadecimal digits.
fn md5_of(text: &[u8]) -> Option<u128>
    ensures { result ≡ md5_of text.now }
{
    if text.len() == 32 {
        number(text, 16)
    } else {
        None
    }
}

/// The next field of a row, and what stands after its comma.
fn next_field(row: &[u8]) -> (&[u8], &[u8])
    ensures field { result.0.now ≡ field 0 row.now }
    ensures rest { result.1.now ≡ after 44 row.now }
{
    let (text, rest) = cut(row, b',');
    (trimmed(text), rest)
}

/// Whether the next four fields are numbers, and what stands after them.
fn numbers(row: &[u8]) -> (bool, &[u8])
    ensures are { result.0 ≡ ((is_integer (field 0 row.now) && is_integer (field 1 row.now))
        && (is_integer (field 2 row.now) && is_integer (field 3 row.now))) }
    ensures rest { result.1.now ≡ after 44 (after 44 (after 44 (after 44 row.now))) }
{
    let (decoded, row) = next_field(row);
    let (shown, row) = next_field(row);
    let (duration, row) = next_field(row);
    let (size, row) = next_field(row);
    let times = is_integer(decoded) && is_integer(shown);
    let sizes = is_integer(duration) && is_integer(size);
    (times && sizes, row)
}

/// Whether the text is this name.
fn is_text(text: &[u8], name: &[u8]) -> bool
    ensures { result ≡ is_text text.now name.now }
{
    text == name
}

/// What a row says.
fn row_said(row: &[u8]) -> Md5Line
    ensures { result ≡ row_said row.now }
{
    let (stream, rest) = next_field(row);
    let (are_numbers, rest) = numbers(rest);
    let (md5, _) = next_field(rest);
    match (number(stream, 10), md5_of(md5)) {
        (Some(stream), Some(md5)) if are_numbers => Md5Line::Picture { stream, md5 },
        _ => Md5Line::Other,
    }
}

/// What a head says.
fn head_said(head: &[u8]) -> Md5Line
    ensures { result ≡ head_said head.now }
{
    let (name, value) = cut(head, b':');
    let value = trimmed(value);
    if is_text(name, b"#hash") {
        return if is_text(value, b"MD5") {
            Md5Line::Head
        } else {
            Md5Line::Other
        };
    }
    let Some(stream) = name.strip_prefix(b"#media_type ") else {
        return Md5Line::Head;
    };
    match number(trimmed(stream), 10) {
        Some(stream) if is_text(value, b"video") => Md5Line::Video(stream),
        _ => Md5Line::Head,
    }
}

/// What a line says, which is given without its line feed; a carriage return may stand at its end.
/// A line of more than 65536 bytes is none.
#[tactic(auto, unfolding(crate::specs::Md5Line::says, crate::specs::Md5Line::longest_line))]
pub(crate) fn says(text: &[u8]) -> Md5Line
    ensures { result ≡ says text.now }
{
    if text.len() > LONGEST_LINE {
        return Md5Line::Other;
    }
    if !text.is_empty() && text[0] == b'#' {
        head_said(text)
    } else {
        row_said(text)
    }
}
