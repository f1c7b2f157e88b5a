//! What comes before Tracks.

ghost use Rattle.std.specs.Prelude.{◌≡◌, ◌≤◌, ◌<◌, ◌-◌, ◌^◌, ◌++◌, length, Option, IfSome};
ghost use Rattle.ffv1_ebml.specs.Spelled.{ident_bytes};
ghost use Rattle.ffv1_reads.specs.Head.{head_of};
ghost use Rattle.ffv1_matroska.specs.Opening.{segment};
ghost use Rattle.ffv1_matroska.specs.Written.{cues_seek, double, duration_element, ebml_header};
ghost use Rattle.ffv1_matroska.specs.Written.{exponent_of, info_content, opening, seek_element};
ghost use Rattle.ffv1_matroska.specs.Written.{seeks, segment_size, tick_of, void_element};

use crate::idents::{
    CUES, DOC_TYPE, EBML, INFO, READ_VERSION, SEEK_HEAD, SEGMENT, TIMESTAMP_SCALE, TRACKS,
    TYPE_READ_VERSION, VOID,
};
use crate::rate::duration_of;
use crate::write::bytes::Bytes;
use ffv1_ebml::unknown_header;
use ffv1_reads::FileHead;
use std::alloc::Allocator;

/// The name of the writer.
const NAME: &[u8] = b"Ravenbillon mkv 1";

/// What is known once all is written.
#[derive(Clone, Copy)]
pub(crate) struct Finish {
    /// Of the Segment's content, in bytes.
    pub(crate) size: u64,
    /// Where Cues begin, from the first byte of the Segment's content.
    pub(crate) cues: u64,
    /// How many frames there are.
    pub(crate) count: u64,
}

/// The header of EBML.
#[tactic(auto, unfolding(crate::specs::Written::ebml_header))]
fn ebml_header() -> Bytes
    ensures value { result ≡ ebml_header }
    ensures len { length result ≤ 100 }
{
    let mut content = Bytes::new();
    content.number(0x4286, 1, 1); // EBMLVersion
    content.number(READ_VERSION, 1, 1);
    content.number(0x42F2, 1, 4); // EBMLMaxIDLength
    content.number(0x42F3, 1, 8); // EBMLMaxSizeLength
    content.short(DOC_TYPE, b"matroska");
    content.number(0x4287, 1, 4); // DocTypeVersion
    content.number(TYPE_READ_VERSION, 1, 2);
    let mut header = Bytes::new();
    header.short(EBML, content.as_slice());
    header
}

/// An element of so many bytes that says nothing.
#[tactic(auto, unfolding(crate::specs::Written::void_element))]
fn void_element(size: usize) -> Bytes
    requires least { 2 ≤ size }
    requires most { size ≤ 32 }
    ensures value { result ≡ void_element size }
    ensures len { length result ≤ 35 }
{
    let zeros = [0u8; 30];
    let mut element = Bytes::new();
    element.short(VOID, &zeros[..size - 2]);
    element
}

/// Where an element of the Segment begins.
#[tactic(auto, unfolding(crate::specs::Written::seek_element))]
fn seek_element(ident: u32, place: u64) -> Bytes
    ensures value { result ≡ seek_element ident place }
    ensures len { length result ≤ 31 }
{
    let mut content = Bytes::new();
    content.number(0x53AB, 4, u64::from(ident)); // SeekID
    content.number(0x53AC, 8, place); // SeekPosition
    let mut element = Bytes::new();
    element.short(0x4DBB, content.as_slice()); // Seek
    element
}

/// Where Cues begin.
fn cues_seek(finish: Option<Finish>) -> Bytes
    ensures value { result ≡ cues_seek finish }
    ensures len { length result ≤ 35 }
{
    match finish {
        Some(f) => seek_element(CUES, f.cues),
        None => void_element(21),
    }
}

/// The content of SeekHead.
#[tactic(auto, unfolding(crate::specs::Written::seeks))]
fn seeks(finish: Option<Finish>) -> Bytes
    ensures value { result ≡ seeks finish }
    ensures len { length result ≤ 97 }
{
    let mut all = seek_element(INFO, 74);
    all.put(seek_element(TRACKS, 148).as_slice());
    all.put(cues_seek(finish).as_slice());
    all
}

/// A number as binary64.
#[tactic(auto, unfolding(crate::specs::Written::double))]
fn double(n: u64) -> u64
    requires some { 0 < n }
    requires most { n < 2 ^ 53 }
    ensures { result ≡ double n }
{
    let exponent = 63 - n.leading_zeros();
    let fraction = n - (1u64 << exponent);
    ((1023 + u64::from(exponent)) << 52) + (fraction << (52 - exponent))
}

/// How long all frames last, in ticks.
fn duration_element(finish: Option<Finish>) -> Bytes
    requires some { IfSome finish (λ f. 0 < f.count) }
    requires most { IfSome finish (λ f. f.count < 2 ^ 53) }
    ensures value { result ≡ duration_element finish }
    ensures len { length result ≤ 35 }
{
    match finish {
        Some(f) => {
            let mut element = Bytes::new();
            element.number(0x4489, 8, double(f.count));
            element
        }
        None => void_element(11),
    }
}

/// How many nanoseconds a timestamp counts.
#[tactic(auto, unfolding(crate::specs::Written::tick_of))]
fn tick_of<A: Allocator>(head: &FileHead<A>) -> u64
    ensures { result ≡ tick_of (head_of head.now) }
{
    let duration = duration_of(head.rate, head.scale);
    if duration == 0 { 40_000_000 } else { duration }
}

/// The content of Info.
#[tactic(auto, unfolding(crate::specs::Written::info_content))]
fn info_content<A: Allocator>(head: &FileHead<A>, finish: Option<Finish>) -> Bytes
    requires some { IfSome finish (λ f. 0 < f.count) }
    requires most { IfSome finish (λ f. f.count < 2 ^ 53) }
    ensures value { result ≡ info_content (head_of head.now) finish }
    ensures len { length result ≤ 92 }
{
    let mut all = Bytes::new();
    all.number(TIMESTAMP_SCALE, 8, tick_of(head));
    all.put(duration_element(finish).as_slice());
    all.short(0x4D80, NAME); // MuxingApp
    all.short(0x5741, NAME); // WritingApp
    all
}

/// The header of the Segment.
fn segment_header(finish: Option<Finish>) -> Bytes
    requires { IfSome finish (λ f. f.size < 2 ^ 56 - 1) }
    ensures value { result ≡ ident_bytes segment ++ segment_size finish }
    ensures len { length result ≤ 16 }
{
    let mut header = Bytes::new();
    match finish {
        Some(f) => header.long(SEGMENT, f.size),
        None => header.put(unknown_header(SEGMENT).as_slice()),
    }
    header
}

/// All that comes before Tracks: open, or once all is written.
#[tactic(auto, unfolding(crate::specs::Written::opening))]
pub(crate) fn opening<A: Allocator>(head: &FileHead<A>, finish: Option<Finish>) -> Bytes
    requires some { IfSome finish (λ f. 0 < f.count) }
    requires most { IfSome finish (λ f. f.count < 2 ^ 53) }
    requires size { IfSome finish (λ f. f.size < 2 ^ 56 - 1) }
    ensures { result ≡ opening (head_of head.now) finish }
{
    let mut all = ebml_header();
    all.put(segment_header(finish).as_slice());
    let mut content = Bytes::new();
    content.checked(seeks(finish).as_slice());
    all.short(SEEK_HEAD, content.as_slice());
    let mut content = Bytes::new();
    content.checked(info_content(head, finish).as_slice());
    all.short(INFO, content.as_slice());
    all
}
