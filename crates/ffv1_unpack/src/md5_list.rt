//! Reads a list of MD5s, as FFmpeg's framemd5 writes it.

ghost use Rattle.std.specs.Prelude.{◌≡◌, List, ℕ, [], ◌∷◌, Err, IfErr, IfOk, Ok, OnOk};
ghost use Rattle.ffv1_wire.specs.Passage.{passage};
ghost use Rattle.ffv1_unpack.specs.Internal.Md5List.{RefusesLine, TakesAll, listed, md5s_with};
ghost use Rattle.ffv1_unpack.specs.Md5Line.{says};
ghost use Rattle.ffv1_unpack.specs.Md5List.{IsListed, ListStops, StopsBy, counted, with_line};
ghost use Rattle.ffv1_unpack.specs.declared.md5_line.Md5Line.TheVariants as line;
ghost use Rattle.ffv1_unpack.specs.declared.md5_list.ListFault.TheVariants as list_fault;

use crate::md5_line::{LONGEST_LINE, Md5Line, says};
use ffv1_wire::{ByteIn, Failed, read_byte};
use std::alloc::{AllocError, AllocFailed, Allocator};

/// Why a list of MD5s is refused.
#[derive(Clone, Copy, Debug, PartialEq, Eq)]
pub enum ListFault {
    /// A read failed.
    Read,
    /// Memory was refused.
    OutOfMemory,
    /// This line, counted from 1, is none of a list, or names another hash than MD5; or the list
    /// has no MD5 of the stream, and this is its last line, 0 if it has none.
    Line(u64),
}

impl From<Failed> for ListFault {
    ghost from_gives = { λ _ f. f ≡ list_fault.Read };

    fn from(_failed: Failed) -> ListFault {
        ListFault::Read
    }
}

impl From<AllocError> for ListFault {
    ghost from_gives = { λ _ f. f ≡ list_fault.OutOfMemory };

    fn from(_refused: AllocError) -> ListFault {
        ListFault::OutOfMemory
    }
}

impl<T: Drop> From<AllocFailed<T>> for ListFault {
    ghost from_gives = { λ _ f. f ≡ list_fault.OutOfMemory };

    fn from(_refused: AllocFailed<T>) -> ListFault {
        ListFault::OutOfMemory
    }
}

/// A list, as far as it was read.
#[derive(Drop)]
struct Lines<A: Allocator> {
    // The first stream of video that its lines named.
    stream: Option<u128>,
    // The MD5s of its pictures.
    md5s: Vec<u128, A>,
    // How many lines have ended.
    number: u64,
    // The bytes of the line that has not.
    line: Vec<u8, A>,
}

/// Takes an MD5, if it is of the stream.
fn take_md5<A: Allocator>(lines: &mut Lines<A>, stream: u128, md5: u128) -> Result<(), AllocError>
    ensures ok { OnOk result (with_line (listed lines.old) (line.Picture stream md5)
        ≡ Ok (counted (listed lines.new))) }
    ensures same { OnOk result (lines.new.number ≡ lines.old.number) }
{
    let is_of_stream = match lines.stream {
        Some(first) => stream == first,
        None => stream == 0,
    };
    if is_of_stream {
        lines.md5s.push(md5)?;
    }
    Ok(())
}

/// Takes what the line said that ends.
fn take_said<A: Allocator>(lines: &mut Lines<A>, said: Md5Line) -> Result<(), ListFault>
    ensures ok { OnOk result (with_line (listed lines.old) said ≡ Ok (listed lines.new)) }
    ensures err { IfErr result (RefusesLine (λ n. with_line (listed lines.old) said ≡ Err n)) }
{
    let number = lines.number.saturating_add(1);
    match said {
        Md5Line::Head => (),
        Md5Line::Video(stream) => {
            if lines.stream.is_none() {
                lines.stream = Some(stream);
            }
        }
        Md5Line::Picture { stream, md5 } => take_md5(lines, stream, md5)?,
        Md5Line::Other => return Err(ListFault::Line(number)),
    }
    lines.number = number;
    Ok(())
}

/// Ends the line.
fn end_line<A: Allocator>(lines: &mut Lines<A>) -> Result<(), ListFault>
    ensures ok { OnOk result (with_line (listed lines.old) (says lines.old.line.items)
        ≡ Ok (listed lines.new)) }
    ensures line { OnOk result (lines.new.line.items ≡ []) }
    ensures err { IfErr result (RefusesLine (λ n.
        with_line (listed lines.old) (says lines.old.line.items) ≡ Err n)) }
{
    let said = says(&lines.line);
    take_said(lines, said)?;
    lines.line.clear();
    Ok(())
}

/// Takes a byte of the list.
fn take_byte<A: Allocator>(lines: &mut Lines<A>, byte: u8) -> Result<(), ListFault>
    ensures ok { OnOk result ((rest : List ℕ) →
        md5s_with lines.old (byte ∷ rest) ≡ md5s_with lines.new rest) }
    ensures err { IfErr result (RefusesLine (λ n. (rest : List ℕ) →
        md5s_with lines.old (byte ∷ rest) ≡ Err n)) }
{
    if byte == b'\n' {
        end_line(lines)?;
        return Ok(());
    }
    lines.line.push(byte)?;
    if lines.line.len() > LONGEST_LINE {
        return Err(ListFault::Line(lines.number.saturating_add(1)));
    }
    Ok(())
}

/// Takes all bytes that are left of the list.
fn take_bytes<R: ByteIn, A: Allocator>(lines: &mut Lines<A>, input: &mut R) -> Result<(), ListFault>
    ensures ok { OnOk result (TakesAll lines.old lines.new
        (passage R.remaining R.failures input.old input.new)) }
    ensures err { IfErr result (StopsBy (md5s_with lines.old)
        (passage R.remaining R.failures input.old input.new)) }
{
    for _ in 0..u64::MAX {
        match read_byte(input)? {
            Some(byte) => take_byte(lines, byte)?,
            None => return Ok(()),
        }
    }
    Err(ListFault::OutOfMemory)
}

/// Ends the last line, if it has a byte, and the list.
fn finish<A: Allocator>(lines: Lines<A>) -> Result<Vec<u128, A>, ListFault>
    ensures ok { IfOk result (λ md5s. md5s_with lines [] ≡ Ok md5s.items) }
    ensures err { IfErr result (RefusesLine (λ n. md5s_with lines [] ≡ Err n)) }
{
    let mut lines = lines;
    if !lines.line.is_empty() {
        end_line(&mut lines)?;
    }
    if lines.md5s.is_empty() {
        return Err(ListFault::Line(lines.number));
    }
    let Lines {
        md5s,
        line: _line,
        ..
    } = lines;
    Ok(md5s)
}

/// Reads a list of MD5s to its end, and answers those of its stream, in order: each as a number
/// whose first hexadecimal digit is the highest. It is the text that FFmpeg's `framemd5` writes:
///
/// - a line ends with a line feed, before which a carriage return may stand, or with the list, and
///   has at most 65536 bytes;
/// - a line that begins with `#` is a head. `#media_type {number}: video` names a stream: the first
///   one named so is that of the list, and stream 0 if none is. After `#hash:` stands `MD5`;
/// - another line is a row, whose fields are parted by commas, with white space around each: the
///   stream, a decimal number; when a picture is decoded and shown, how long, and its size, decimal
///   numbers that may begin with a minus; and its MD5, 32 hexadecimal digits, in letters of either
///   case. Further fields are passed over. Rows of other streams are passed over, too.
///
/// `Line` with the number of the first line that is none of these, counted from 1, which are read
/// up to there; or, of a list that has no MD5 of its stream, with the number of its last line.
/// `Read` if a read failed. `OutOfMemory`, also after 2^64 - 1 bytes.
///
/// For each MD5 it holds 16 bytes, and one line.
pub fn read_list<R: ByteIn, A: Allocator + Copy>(
    alloc: A,
    input: &mut R,
) -> Result<Vec<u128, A>, ListFault>
    ensures ok { IfOk result (λ md5s. IsListed
        (passage R.remaining R.failures input.old input.new) md5s.items) }
    ensures err { IfErr result (ListStops
        (passage R.remaining R.failures input.old input.new)) }
{
    let mut lines = Lines {
        stream: None,
        md5s: Vec::new(alloc),
        number: 0,
        line: Vec::new(alloc),
    };
    take_bytes(&mut lines, input)?;
    finish(lines)
}
