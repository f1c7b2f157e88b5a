//! Reads headers of PPM with any white space and comments.

ghost use Rattle.std.specs.Prelude.{◌≡◌, ◌≤◌, ◌-◌, ◌∷◌, [], IfOk, IfSome, None, Some, length, take};
ghost use Rattle.std.specs.Prelude.{OnErr, ℕ, false};
ghost use Rattle.ffv1_y4m.specs.Passage.{passage, passage_from};
ghost use Rattle.ffv1_y4m.specs.Ppm.{greatest_read, magic_read, size_read, spaced_head};
ghost use Rattle.ffv1_y4m.specs.Ppm.{spaced_header};
ghost use Rattle.ffv1_y4m.specs.Reads.{Nowhere, Stands, seen};
ghost use Rattle.ffv1_y4m.specs.Spaces.{blank_read, byte_read, is_break, is_white, spaced_word};
ghost use Rattle.ffv1_y4m.specs.Spaces.{word_read};
ghost use Rattle.ffv1_y4m.specs.State.{IsLineFault, OnFault};
ghost use Rattle.ffv1_y4m.specs.VideoHead.{IsNamed, IsSized, colour_head};

use crate::fault::Fault;
use crate::head::DeepHead;
use crate::ppm_reading::{depth_of_line, sized_head};
use crate::reading::next_byte;
use crate::values::{is_text, size};
use ffv1_wire::{ByteIn, read_byte};

/// A blank, a tab, a line feed or a carriage return.
fn is_white(byte: u8) -> bool
    ensures { result ≡ is_white byte }
{
    byte == b' ' || (byte == b'\t' || (byte == b'\n' || byte == b'\r'))
}

/// What ends a comment: a line feed or a carriage return.
fn is_break(byte: u8) -> bool
    ensures { result ≡ is_break byte }
{
    byte == b'\n' || byte == b'\r'
}

/// Reads the first byte, which may have been read before.
fn first_byte<R: ByteIn>(first: Option<u8>, input: &mut R) -> Result<u8, Fault>
    ensures answer { Stands byte_read Nowhere
        (passage_from first R.remaining R.failures input.old input.new) result }
    ensures own { OnFault IsLineFault result }
{
    let mut first = first;
    match next_byte(&mut first, input)? {
        Some(byte) => Ok(byte),
        None => Err(Fault::Header),
    }
}

/// Passes white space and comments, and answers the first byte after them, which is among the next
/// `room`.
fn pass_blank<R: ByteIn>(room: usize, input: &mut R) -> Result<u8, Fault>
    ensures answer { Stands (blank_read room false) Nowhere
        (passage R.remaining R.failures input.old input.new) result }
    ensures own { OnFault IsLineFault result }
{
    let mut inside = false;
    for _place in 0..room {
        let Some(byte) = read_byte(input)? else {
            return Err(Fault::Header);
        };
        if inside {
            inside = !is_break(byte);
        } else if !is_white(byte) {
            if byte != b'#' {
                return Ok(byte);
            }
            inside = true;
        }
    }
    Err(Fault::Header)
}

/// Reads a word up to the next byte of white space, of which the first byte is already in `word`,
/// and answers how long it is. `Header` if no white space is among as many bytes as `word` has room
/// for after its first one; after these nothing is read.
fn read_word<R: ByteIn>(input: &mut R, word: &mut [u8]) -> Result<usize, Fault>
    requires { 1 ≤ length word.old }
    ensures answer { Stands (word_read (length word.new - 1) (take 1 word.old)) Nowhere
        (passage R.remaining R.failures input.old input.new)
        (seen (λ end. take end word.new) result) }
    ensures within { IfOk result (λ end. end ≤ length word.new) }
    ensures own { OnFault IsLineFault result }
{
    for len in 1..word.len() {
        let Some(byte) = read_byte(input)? else {
            return Err(Fault::Header);
        };
        if is_white(byte) {
            return Ok(len);
        }
        word[len] = byte;
    }
    Err(Fault::Header)
}

/// How many bytes white space and comments may have, with the first byte after them.
const ROOM: usize = 65536;

/// Reads the word after white space and comments into the front of `word`.
fn read_spaced<R: ByteIn>(input: &mut R, word: &mut [u8]) -> Result<usize, Fault>
    requires { 1 ≤ length word.old }
    ensures answer { Stands (spaced_word (length word.new - 1)) Nowhere
        (passage R.remaining R.failures input.old input.new)
        (seen (λ end. take end word.new) result) }
    ensures within { IfOk result (λ end. end ≤ length word.new) }
    ensures own { OnFault IsLineFault result }
{
    word[0] = pass_blank(ROOM, input)?;
    read_word(input, word)
}

/// Whether the first word is `P6`, of which the first byte may have been read before.
fn read_magic<R: ByteIn>(first: Option<u8>, input: &mut R) -> Result<bool, Fault>
    ensures answer { Stands magic_read Nowhere
        (passage_from first R.remaining R.failures input.old input.new) result }
    ensures own { OnFault IsLineFault result }
{
    let mut word = [0u8; 3];
    word[0] = first_byte(first, input)?;
    let end = read_word(input, &mut word)?;
    Ok(is_text(&word[..end], b"P6"))
}

/// Reads a size, if the next word is one.
fn read_size<R: ByteIn>(input: &mut R) -> Result<Option<u32>, Fault>
    ensures answer { Stands size_read Nowhere
        (passage R.remaining R.failures input.old input.new) result }
    ensures own { OnFault IsLineFault result }
    ensures sized { IfOk result (λ n. IfSome n (λ size. (1 ≤ size) × (size ≤ 8192))) }
{
    let mut word = [0u8; 5];
    let end = read_spaced(input, &mut word)?;
    Ok(size(&word[..end]))
}

/// Reads the greatest sample: its depth, if it has one of at most `most`.
fn read_greatest<R: ByteIn>(most: u32, input: &mut R) -> Result<Option<u32>, Fault>
    ensures answer { Stands (greatest_read most) Nowhere
        (passage R.remaining R.failures input.old input.new) result }
    ensures own { OnFault IsLineFault result }
    ensures named { IfOk result (λ d. IfSome d (λ depth. (depth ≤ most)
        × ((width height : ℕ) → IsNamed depth (colour_head width height)))) }
{
    let mut word = [0u8; 6];
    let end = read_spaced(input, &mut word)?;
    Ok(depth_of_line(most, &word[..end]))
}

/// The head of a first word, which is `P6` or not, of two sizes and of a depth.
fn spaced_head(
    magic: bool,
    width: Option<u32>,
    height: Option<u32>,
    depth: Option<u32>,
) -> Option<DeepHead>
    ensures { result ≡ spaced_head magic width height depth }
{
    if !magic {
        return None;
    }
    let Some(depth) = depth else {
        return None;
    };
    let Some(width) = width else {
        return None;
    };
    let Some(height) = height else {
        return None;
    };
    Some(sized_head(width, height, depth))
}

/// Reads the header of an image as Netpbm writes it, of which the first byte may have been read
/// before; depths up to `most` are read.
pub(crate) fn read_spaced_header<R: ByteIn>(
    most: u32,
    first: Option<u8>,
    input: &mut R,
) -> Result<DeepHead, Fault>
    ensures answer { Stands (spaced_header most) Nowhere
        (passage_from first R.remaining R.failures input.old input.new) result }
    ensures own { OnFault IsLineFault result }
    ensures head { IfOk result (λ h. IsSized h.head
        × (h.head ≡ colour_head h.head.width h.head.height)) }
    ensures named { IfOk result (λ h. IsNamed h.depth h.head × (h.depth ≤ most)) }
{
    let magic = read_magic(first, input)?;
    let width = read_size(input)?;
    let height = read_size(input)?;
    let depth = read_greatest(most, input)?;
    match spaced_head(magic, width, height, depth) {
        Some(said) => Ok(said),
        None => Err(Fault::Header),
    }
}
