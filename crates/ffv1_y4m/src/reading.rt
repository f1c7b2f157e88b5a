//! Reads headers and pictures.

ghost use Rattle.std.specs.Prelude.{◌≡◌, ◌≤◌, ℕ, Bool, List, Option, length, take, IfOk, OnOk};
ghost use Rattle.std.specs.Prelude.{OnErr, None};
ghost use Rattle.std.specs.Io.KnownBytes.{Keeps};
ghost use Rattle.ffv1_wire.specs.Failures.{Counted};
ghost use Rattle.ffv1_wire.specs.Reads.{GivesByte};
ghost use Rattle.ffv1_y4m.specs.Header.{head_of_line, header_of, line_read};
ghost use Rattle.ffv1_y4m.specs.declared.head.DeepHead.{DeepHead};
ghost use Rattle.ffv1_y4m.specs.State.{IsHeaderFault, IsLineFault, IsPictureFault, NoWant, OnFault};
ghost use Rattle.std.specs.Vec.{vec_capacity};
ghost use Rattle.ffv1_y4m.specs.VideoHead.{IsHead, IsNamed, SaysNeither};
ghost use Rattle.ffv1_y4m.specs.Passage.{known_text, passage, passage_from};
ghost use Rattle.ffv1_y4m.specs.Pictures.{frame_begun, plane_read};
ghost use Rattle.ffv1_y4m.specs.Reads.{IsNone, Nowhere, Stands, seen};

use crate::fault::Fault;
use crate::head::DeepHead;
use crate::tags::{all_tags, head_of_tags};
use crate::values::is_text;
use ffv1_samples::are_in_depth;
use ffv1_wire::{ByteIn, Failed, read_byte, read_full};
use std::alloc::Allocator;

/// The most bytes of a header line, its line feed included.
const LINE: usize = 1025;

/// The head and the depth of a header line, which is given without its line feed.
#[tactic(auto, unfolding(crate::specs::Header::head_of_line))]
fn head_of_line(most: u32, line: &[u8]) -> Result<DeepHead, Fault>
    ensures value { result ≡ head_of_line most line.now }
    ensures head { IfOk result (λ h. IsHead h.head) }
    ensures named { IfOk result (λ h. IsNamed h.depth h.head) }
    ensures most { IfOk result (λ h. 8 ≤ most → h.depth ≤ most) }
    ensures strict { IfOk result (λ h. most ≤ 8 → SaysNeither h.head) }
{
    if is_text(line, b"YUV4MPEG2") {
        return Err(Fault::Tag);
    }
    if line.len() < 10 || !is_text(&line[..10], b"YUV4MPEG2 ") {
        return Err(Fault::Header);
    }
    let tags = all_tags(most, &line[10..])?;
    head_of_tags(tags)
}

/// The byte that was read before, or else the next one.
pub(crate) fn next_byte<R: ByteIn>(
    first: &mut Option<u8>,
    input: &mut R,
) -> Result<Option<u8>, Failed>
    ensures ok { IfOk result
        (λ b. GivesByte (known_text first.old (R.remaining input.old)) (R.remaining input.new) b) }
    ensures err { OnErr result (Keeps (known_text first.old (R.remaining input.old))
        (R.remaining input.new)) }
    ensures taken { first.new ≡ None }
    ensures counted { Counted (R.failures input.old) (R.failures input.new) result }
{
    if let Some(byte) = first.take() {
        return Ok(Some(byte));
    }
    read_byte(input)
}

/// Reads a line, without its line feed, into the front of `line`, and answers how long it is.
/// `Header` if no line feed is among as many bytes as `line` has room for; after these nothing
/// is read.
pub(crate) fn read_line<R: ByteIn>(
    first: Option<u8>,
    input: &mut R,
    line: &mut [u8],
) -> Result<usize, Fault>
    requires { 1 ≤ length line.old }
    ensures answer { Stands (line_read (length line.new)) Nowhere
        (passage_from first R.remaining R.failures input.old input.new)
        (seen (λ end. take end line.new) result) }
    ensures within { IfOk result (λ end. end ≤ length line.new) }
    ensures own { OnFault IsLineFault result }
{
    let mut first = first;
    for len in 0..line.len() {
        match next_byte(&mut first, input)? {
            Some(b'\n') => return Ok(len),
            Some(byte) => line[len] = byte,
            None => return Err(Fault::Header),
        }
    }
    Err(Fault::Header)
}

/// Reads the header of YUV4MPEG2 from an input of which the caller has read the first byte, if it
/// has one; depths up to `most` are read.
pub(crate) fn read_header<R: ByteIn>(
    most: u32,
    first: Option<u8>,
    input: &mut R,
) -> Result<DeepHead, Fault>
    ensures answer { Stands (header_of most) Nowhere
        (passage_from first R.remaining R.failures input.old input.new) result }
    ensures head { IfOk result (λ h. IsHead h.head) }
    ensures named { IfOk result (λ h. IsNamed h.depth h.head) }
    ensures most { IfOk result (λ h. 8 ≤ most → h.depth ≤ most) }
    ensures strict { IfOk result (λ h. most ≤ 8 → SaysNeither h.head) }
    ensures own { OnFault IsHeaderFault result }
{
    let mut line = [0u8; LINE];
    let end = read_line(first, input, &mut line)?;
    head_of_line(most, &line[..end])
}

/// The line that begins a picture.
const FRAME: [u8; 6] = *b"FRAME\n";

/// Reads the line that begins a picture: true, with the input then after it; or false if the input
/// has ended.
///
/// `FrameLine` if a byte differs, after which nothing is read; `FrameTruncated` if the input
/// ends inside the line; `Read` if a read failed.
pub(crate) fn read_frame_line<R: ByteIn>(input: &mut R) -> Result<bool, Fault>
    ensures answer { Stands frame_begun Nowhere
        (passage R.remaining R.failures input.old input.new) result }
    ensures own { OnFault IsPictureFault result }
{
    for place in 0..FRAME.len() {
        match read_byte(input)? {
            Some(byte) if byte == FRAME[place] => (),
            Some(_) => return Err(Fault::FrameLine),
            None if place == 0 => return Ok(false),
            None => return Err(Fault::FrameTruncated),
        }
    }
    Ok(true)
}

/// Reads the samples of a plane, `size` bytes of them, in place of what the vector had. It takes
/// memory only if the vector has room for fewer, before it reads.
///
/// `FrameTruncated` if the input ends before that, else `SampleTooLarge` if a sample is 2 ^ depth
/// or more; `Read` if a read failed, `OutOfMemory`. After a fault nothing is said of the vector.
pub(crate) fn read_plane<R: ByteIn, A: Allocator>(
    depth: u32,
    input: &mut R,
    plane: &mut Vec<u8, A>,
    size: usize,
) -> Result<(), Fault>
    requires least { 8 ≤ depth }
    requires most { depth ≤ 16 }
    ensures answer { Stands (plane_read depth size) IsNone
        (passage R.remaining R.failures input.old input.new)
        (seen (λ (_ : Unit {0}). plane.new.items) result) }
    ensures long { OnOk result (length plane.new.items ≡ size) }
    ensures room { size ≤ vec_capacity plane.old → NoWant result }
    ensures own { OnFault IsPictureFault result }
{
    plane.resize(size, 0)?;
    let len = read_full(input, plane.as_mut_slice())?;
    if len < size {
        return Err(Fault::FrameTruncated);
    }
    if !are_in_depth(depth, plane) {
        return Err(Fault::SampleTooLarge);
    }
    Ok(())
}
