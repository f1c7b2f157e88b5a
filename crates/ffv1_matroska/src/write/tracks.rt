//! Writes Tracks.

ghost use Rattle.std.specs.Prelude.{◌≡◌, ◌≤◌, ◌<◌, ◌+◌, ◌*◌, ◌-◌, ◌^◌, ◌++◌};
ghost use Rattle.std.specs.Prelude.{◌%◌, length, replicate};
ghost use Rattle.ffv1_wire.specs.Passage.{passage};
ghost use Rattle.ffv1_reads.specs.Head.{Head, head_of};
ghost use Rattle.ffv1_matroska.specs.Tracks.{codec_id};
ghost use Rattle.ffv1_matroska.specs.Written.{codec_name, private_content, private_end};
ghost use Rattle.ffv1_matroska.specs.Written.{private_front, short_element};
ghost use Rattle.ffv1_matroska.specs.declared.track_entry.CodecId.TheVariants.{Vfw};
ghost use Rattle.ffv1_reads.specs.Writes.{Writes};
ghost use Rattle.ffv1_matroska.specs.Written.{colour_content, colour_element, display};
ghost use Rattle.ffv1_matroska.specs.Written.{duration_field, entry_fields, interlaced_of};
ghost use Rattle.ffv1_matroska.specs.Written.{said_field};
ghost use Rattle.ffv1_matroska.specs.Written.{order_element, tracks_element, video_content};
ghost use Rattle.ffv1_matroska.specs.WrittenPlaces.{content_limit};

use crate::idents::{
    CHROMA_SITING_HORZ, CHROMA_SITING_VERT, CODEC_ID, CODEC_PRIVATE, COLOUR, DEFAULT_DURATION,
    MATRIX_COEFFICIENTS, PIXEL_HEIGHT, PIXEL_WIDTH, PRIMARIES, RANGE, TRACK_ENTRY, TRACK_NUMBER,
    TRACK_TYPE, TRACKS, TRANSFER_CHARACTERISTICS, VIDEO,
};
use crate::rate::duration_of;
use crate::track_entry::{CodecId, TrackEntry};
use crate::write::bytes::Bytes;
use crate::write::send::send;
use ffv1_reads::{Colour, FileFault, FileHead};
use ffv1_sum::more;
use ffv1_wire::ByteOut;
use std::alloc::Allocator;

/// Whether pictures are interlaced.
fn interlaced_of(structure: u8) -> u64
    ensures { result ≡ interlaced_of structure }
{
    match structure {
        1 | 2 => 1,
        3 => 2,
        _ => 0,
    }
}

/// Which of their fields comes first.
#[tactic(auto, unfolding(crate::specs::Written::order_element))]
fn order_element(structure: u8) -> Bytes
    ensures value { result ≡ order_element structure }
    ensures len { length result ≤ 13 }
{
    let mut element = Bytes::new();
    if structure == 1 {
        element.number(0x9D, 1, 9);
    } else if structure == 2 {
        element.number(0x9D, 1, 14);
    }
    element
}

/// A side of a picture in parts of a sample.
fn product(side: u32, parts: u16) -> u64
    ensures { result ≡ side * parts }
{
    u64::from(side) * u64::from(parts)
}

/// The shape of a picture if the aspect of a sample is known.
#[tactic(auto, unfolding(crate::specs::Written::display))]
fn display<A: Allocator>(head: &FileHead<A>, details: TrackEntry) -> Bytes
    ensures value { result ≡ display (head_of head.now) details }
    ensures len { length result ≤ 39 }
{
    let mut elements = Bytes::new();
    if details.sar_num == 0 || details.sar_den == 0 {
        return elements;
    }
    elements.number(0x54B0, 8, product(head.width, details.sar_num)); // DisplayWidth
    elements.number(0x54BA, 8, product(head.height, details.sar_den)); // DisplayHeight
    elements.number(0x54B2, 1, 3); // DisplayUnit: an aspect
    elements
}

/// A number of colours, if it is said.
fn put_said(elements: &mut Bytes, ident: u32, default: u8, value: u8)
    requires { length elements.old ≤ 499 }
    ensures value { elements.new ≡ elements.old ++ said_field ident default value }
    ensures len { length elements.new ≤ length elements.old + 6 }
{
    if value != default {
        elements.number(ident, 1, u64::from(value));
    }
}

/// What is said of colours.
#[tactic(auto, unfolding(crate::specs::Written::colour_content))]
fn colour_content(colour: Colour) -> Bytes
    ensures value { result ≡ colour_content colour }
    ensures len { length result ≤ 36 }
{
    let mut content = Bytes::new();
    put_said(&mut content, MATRIX_COEFFICIENTS, 2, colour.matrix);
    put_said(&mut content, CHROMA_SITING_HORZ, 0, colour.siting_across);
    put_said(&mut content, CHROMA_SITING_VERT, 0, colour.siting_down);
    put_said(&mut content, RANGE, 0, colour.range);
    put_said(&mut content, TRANSFER_CHARACTERISTICS, 2, colour.transfer);
    put_said(&mut content, PRIMARIES, 2, colour.primaries);
    content
}

/// The element Colour, if anything is said.
#[tactic(auto, unfolding(crate::specs::Written::colour_element))]
fn colour_element(colour: Colour) -> Bytes
    ensures value { result ≡ colour_element colour }
    ensures len { length result ≤ 41 }
{
    let content = colour_content(colour);
    let mut element = Bytes::new();
    if content.len() == 0 {
        return element;
    }
    element.short(COLOUR, content.as_slice());
    element
}

/// The content of Video.
#[tactic(auto, unfolding(crate::specs::Written::video_content))]
fn video_content<A: Allocator>(head: &FileHead<A>, details: TrackEntry) -> Bytes
    ensures value { result ≡ video_content (head_of head.now) details }
    ensures len { length result ≤ 117 }
{
    let mut content = Bytes::new();
    content.number(PIXEL_WIDTH, 4, u64::from(head.width));
    content.number(PIXEL_HEIGHT, 4, u64::from(head.height));
    content.number(0x9A, 1, interlaced_of(details.structure)); // FlagInterlaced
    content.put(order_element(details.structure).as_slice());
    content.put(display(head, details).as_slice());
    content.put(colour_element(head.colour).as_slice());
    content
}

/// How long a frame lasts, if there is a rate.
#[tactic(auto, unfolding(crate::specs::Written::duration_field))]
fn duration_field<A: Allocator>(head: &FileHead<A>) -> Bytes
    ensures value { result ≡ duration_field (head_of head.now) }
    ensures len { length result ≤ 13 }
{
    let mut field = Bytes::new();
    let duration = duration_of(head.rate, head.scale);
    if duration == 0 {
        return field;
    }
    field.number(DEFAULT_DURATION, 8, duration);
    field
}

/// The element CodecID.
fn put_codec(fields: &mut Bytes, id: CodecId)
    requires { length fields.old ≤ 300 }
    ensures value { fields.new ≡ fields.old ++ short_element codec_id (codec_name id) }
    ensures len { length fields.new ≤ length fields.old + 20 }
{
    match id {
        CodecId::Native => fields.short(CODEC_ID, b"V_FFV1"),
        CodecId::Vfw => fields.short(CODEC_ID, b"V_MS/VFW/FOURCC"),
    }
}

/// What the track is, before its configuration record.
#[tactic(auto, unfolding(crate::specs::Written::entry_fields))]
fn entry_fields<A: Allocator>(head: &FileHead<A>, details: TrackEntry) -> Bytes
    ensures value { result ≡ entry_fields (head_of head.now) details }
    ensures len { length result ≤ 200 }
{
    let mut fields = Bytes::new();
    fields.number(TRACK_NUMBER, 1, 1);
    fields.number(0x73C5, 1, 1); // TrackUID
    fields.number(TRACK_TYPE, 1, 1); // video
    fields.number(0x9C, 1, 0); // FlagLacing
    fields.short(0x22_B59C, b"und"); // Language
    put_codec(&mut fields, details.codec_id);
    fields.put(duration_field(head).as_slice());
    fields.short(VIDEO, video_content(head, details).as_slice());
    fields
}

/// The bytes of a picture, three a sample.
fn picture_bytes(width: u32, height: u32) -> u128
    ensures { result ≡ width * height * 3 }
{
    u128::from(u64::from(width) * u64::from(height)) * 3
}

/// BITMAPINFOHEADER, for a record of so many bytes.
fn bitmap_header<A: Allocator>(head: &FileHead<A>, len: usize) -> Bytes
    requires record { len ≡ length head.now.config_record.items }
    requires short { len < 2 ^ 56 }
    ensures value { result ≡ private_front Vfw (head_of head.now) }
    ensures len { length result ≡ 40 }
{
    let mut header = Bytes::new();
    header.put(&(40 + len as u64).to_le_bytes()[..4]); // biSize
    header.put(&head.width.to_le_bytes()); // biWidth
    header.put(&head.height.to_le_bytes()); // biHeight
    header.put(&[1, 0, 24, 0]); // biPlanes, which is always 1; biBitCount, of three samples of 8
    header.put(b"FFV1"); // biCompression
    header.put(&picture_bytes(head.width, head.height).to_le_bytes()[..4]); // biSizeImage
    // biXPelsPerMeter, biYPelsPerMeter, biClrUsed, biClrImportant
    header.put(&[0u8; 16]);
    header
}

/// What stands in CodecPrivate before the configuration record, of so many bytes.
fn private_front<A: Allocator>(head: &FileHead<A>, id: CodecId, len: usize) -> Bytes
    requires record { len ≡ length head.now.config_record.items }
    requires short { len < 2 ^ 56 }
    ensures value { result ≡ private_front id (head_of head.now) }
    ensures len { length result ≤ 40 }
{
    match id {
        CodecId::Native => Bytes::new(),
        CodecId::Vfw => bitmap_header(head, len),
    }
}

/// How many bytes stand in CodecPrivate after a configuration record of so many bytes.
fn padding(id: CodecId, len: usize) -> usize
    ensures value { (head : Head) → len ≡ length head.config_record →
        result ≡ length (private_end id head) }
    ensures zeros { (head : Head) → len ≡ length head.config_record →
        replicate result 0 ≡ private_end id head }
    ensures most { result ≤ 1 }
{
    match id {
        CodecId::Native => 0,
        CodecId::Vfw => len % 2,
    }
}

/// The bytes of CodecPrivate beside the configuration record.
fn beside_record(id: CodecId, len: usize) -> u64
    ensures value { (head : Head) → len ≡ length head.config_record →
        result + len ≡ length (private_content id head) }
    ensures most { result ≤ 41 }
{
    match id {
        CodecId::Native => 0,
        CodecId::Vfw => 40 + padding(id, len) as u64,
    }
}

/// The bytes of Tracks.
pub(crate) fn tracks_size<A: Allocator>(head: &FileHead<A>, details: TrackEntry) -> u64
    ensures value { result ≡ length (tracks_element (head_of head.now) details) }
    ensures fits { result < 2 ^ 63 + 2 ^ 10 }
{
    let fields = entry_fields(head, details).len();
    let len = head.config_record.len();
    (37 + fields) as u64 + beside_record(details.codec_id, len) + len as u64
}

/// Tracks up to the configuration record, after which so many bytes stand that are 0.
pub(crate) fn tracks_front<A: Allocator>(
    head: &FileHead<A>,
    details: TrackEntry,
    zeros: &[u8],
) -> Bytes
    requires short { length head.now.config_record.items < content_limit }
    requires zeros { zeros.now ≡ private_end details.codec_id (head_of head.now) }
    ensures { result ++ (head.now.config_record.items ++ zeros.now)
        ≡ tracks_element (head_of head.now) details }
{
    let record = head.config_record.as_slice();
    let len = record.len() + zeros.len();
    let front = private_front(head, details.codec_id, record.len());
    let mut content = entry_fields(head, details);
    content.long(CODEC_PRIVATE, (front.len() + len) as u64);
    content.put(front.as_slice());
    let mut entry = Bytes::new();
    entry.long(TRACK_ENTRY, (content.len() + len) as u64);
    entry.put(content.as_slice());
    let sum = more(more(more(!0, entry.as_slice()), record), zeros) ^ !0;
    let mut tracks = Bytes::new();
    tracks.long(TRACKS, (6 + entry.len() + len) as u64);
    tracks.sum(sum);
    tracks.put(entry.as_slice());
    tracks
}

/// Writes Tracks.
pub(crate) fn put_tracks<W: ByteOut, A: Allocator>(
    out: &mut W,
    head: &FileHead<A>,
    details: TrackEntry,
) -> Result<(), FileFault>
    requires { length head.now.config_record.items < content_limit }
    ensures { Writes (passage W.contents W.failures out.old out.new)
        (tracks_element (head_of head.now) details) result }
{
    let zero = [0u8];
    let zeros = &zero[..padding(details.codec_id, head.config_record.len())];
    send(out, tracks_front(head, details, zeros).as_slice())?;
    send(out, head.config_record.as_slice())?;
    send(out, zeros)
}
