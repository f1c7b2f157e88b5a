//! The text that framemd5 writes of pictures.

ghost use Rattle.std.specs.Prelude.{◌≡◌, ◌++◌, ◌<◌, true, OnOk};
ghost use Rattle.ffv1_range.specs.Counts.{saturated};
ghost use Rattle.ffv1_frame.specs.Picture.{planes_of};
ghost use Rattle.ffv1_matroska.specs.Rates.{common_up_to};
ghost use Rattle.ffv1_video.specs.Md5Text.{aspect_of, field, line_of, md5_head};
ghost use Rattle.ffv1_video.specs.Md5Text.{md5_line, next_md5};
ghost use Rattle.ffv1_video.specs.Md5Text.{small_digit, small_hexadecimal, time_base};
ghost use Rattle.ffv1_video.specs.RawPicture.{AreEven, raw_bytes};

use crate::number_lines::push_pair;
use crate::picture_md5::picture_md5;
use ffv1_y4m::VideoHead;
use itoa::Buffer;
use std::alloc::{AllocError, Allocator};

/// Appends a number, at the end of a field that is as wide as these blanks, and a comma.
#[tactic(auto, unfolding(crate::specs::Md5Text::field))]
fn push_field<A: Allocator>(
    text: &mut Vec<u8, A>,
    blanks: &[u8],
    number: u64,
) -> Result<(), AllocError>
    ensures { OnOk result (text.new.items ≡ text.old.items ++ field blanks.now number) }
{
    let mut buffer = Buffer::new();
    let digits = buffer.format(number).as_bytes();
    if digits.len() < blanks.len() {
        text.extend_from_slice(&blanks[digits.len()..])?;
    }
    text.extend_from_slice(digits)?;
    text.extend_from_slice(b", ")?;
    Ok(())
}

/// One digit of a hexadecimal number, in lower case.
fn small_digit(value: u8) -> u8
    requires { value < 16 }
    ensures { result ≡ small_digit value }
{
    if value < 10 {
        b'0' + value
    } else {
        b'a' - 10 + value
    }
}

/// Appends bytes in hexadecimal, two lower-case digits each.
fn push_small_hexadecimal<A: Allocator>(
    text: &mut Vec<u8, A>,
    bytes: &[u8],
) -> Result<(), AllocError>
    ensures { OnOk result (text.new.items ≡ text.old.items ++ small_hexadecimal bytes.now) }
{
    for at in 0..bytes.len() {
        let byte = bytes[at];
        text.push(small_digit(byte / 16))?;
        text.push(small_digit(byte % 16))?;
    }
    Ok(())
}

/// Appends the line of a picture: its number, how many bytes it has, and their MD5.
#[tactic(auto, unfolding(crate::specs::Md5Text::line_of))]
fn push_line<A: Allocator>(
    text: &mut Vec<u8, A>,
    number: u64,
    size: u64,
    hash: &[u8],
) -> Result<(), AllocError>
    ensures { OnOk result (text.new.items ≡ text.old.items ++ line_of number size hash.now) }
{
    text.extend_from_slice(b"0, ")?;
    push_field(text, b"          ", number)?;
    push_field(text, b"          ", number)?;
    push_field(text, b"        ", 1)?;
    push_field(text, b"        ", size)?;
    push_small_hexadecimal(text, hash)?;
    text.extend_from_slice(b"\n")?;
    Ok(())
}

/// The greatest common divisor of two numbers above 0.
fn common(a: u32, b: u32) -> u32
    requires first { 0 < a }
    requires second { 0 < b }
    ensures value { result ≡ common_up_to a b b }
    ensures some { 0 < result }
{
    let mut x = a;
    let mut y = b;
    while y > 0 {
        let rest = x % y;
        x = y;
        y = rest;
    }
    x
}

/// A picture's time in seconds, as two numbers in lowest terms.
fn time_base(rate: u32, scale: u32) -> (u32, u32)
    ensures scale { result.0 ≡ (time_base rate scale).0 }
    ensures rate { result.1 ≡ (time_base rate scale).1 }
{
    if rate == 0 || scale == 0 {
        return (1, 25);
    }
    let divisor = common(rate, scale);
    (scale / divisor, rate / divisor)
}

/// The aspect of a sample, as two numbers.
fn aspect(num: u16, den: u16) -> (u32, u32)
    ensures num { result.0 ≡ (aspect_of num den).0 }
    ensures den { result.1 ≡ (aspect_of num den).1 }
{
    if num == 0 {
        return (0, 1);
    }
    (u32::from(num), u32::from(den))
}

/// The lines before those of the pictures, in place of what the text has.
#[tactic(auto, unfolding(crate::specs::Md5Text::md5_head))]
pub fn put_head<A: Allocator>(text: &mut Vec<u8, A>, head: &VideoHead) -> Result<(), AllocError>
    ensures { OnOk result (text.new.items ≡ md5_head head.now) }
{
    let (scale, rate) = time_base(head.rate, head.scale);
    let (num, den) = aspect(head.sar_num, head.sar_den);
    text.clear();
    text.extend_from_slice(
        b"#format: frame checksums\n#version: 2\n#hash: MD5\n#software: ffv1\n",
    )?;
    push_pair(text, b"#tb 0: ", scale, b"/", rate)?;
    text.extend_from_slice(b"#media_type 0: video\n#codec_id 0: rawvideo\n")?;
    push_pair(text, b"#dimensions 0: ", head.width, b"x", head.height)?;
    push_pair(text, b"#sar 0: ", num, b"/", den)?;
    text.extend_from_slice(b"#stream#, dts,        pts, duration,     size, hash\n")?;
    Ok(())
}

/// Appends the line of the picture with this number, which has these planes.
pub fn push_picture<A: Allocator>(
    text: &mut Vec<u8, A>,
    number: u64,
    rct: bool,
    depth: u32,
    planes: &[Vec<u8, A>],
) -> Result<(), AllocError>
    requires { rct ≡ true → AreEven (planes_of planes.now) }
    ensures { OnOk result (text.new.items
        ≡ text.old.items ++ md5_line number (raw_bytes rct depth (planes_of planes.now))) }
{
    let (size, hash) = picture_md5(rct, depth, planes);
    push_line(text, number, size, &hash)
}

/// The line of the picture with this number, and before the first one the head, in place of what
/// the text has.
pub fn put_picture<A: Allocator>(
    text: &mut Vec<u8, A>,
    number: u64,
    head: &VideoHead,
    rct: bool,
    depth: u32,
    planes: &[Vec<u8, A>],
) -> Result<(), AllocError>
    requires { rct ≡ true → AreEven (planes_of planes.now) }
    ensures { OnOk result
        (text.new.items ≡ next_md5 rct depth head.now number (planes_of planes.now)) }
{
    text.clear();
    if number == 0 {
        put_head(text, head)?;
    }
    push_picture(text, number, rct, depth, planes)?;
    Ok(())
}
