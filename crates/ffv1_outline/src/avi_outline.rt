//! What the beginning of an AVI says of it (Microsoft's AVI RIFF File Reference).

ghost use Rattle.std.specs.Prelude.{◌≡◌, ◌++◌, ◌<◌, IfSome, OnOk, codes, length};
ghost use Rattle.ffv1_outline.specs.AviOutline.{avi_entry, avi_step, found_chunk, first_chunk};
ghost use Rattle.ffv1_outline.specs.AviOutline.{format_tag, software_in, stream_codec};
ghost use Rattle.ffv1_outline.specs.AviOutline.{frames_in, header_in, is_video, stream_entry};
ghost use Rattle.ffv1_outline.specs.AviOutline.{stream_kind, video_header, video_lasts};
ghost use Rattle.ffv1_outline.specs.Steps.{chunks, slices, steps};

use crate::durations::frames_last;
use crate::facts::{Form, push_known_string, push_word_value, unknown_value};
use crate::parts::{after, before, is_name};
use crate::tracks::{Step, before_codec, before_language, entry_closing, push_entry_opening};
use byteorder::{ByteOrder, LittleEndian};
use ffv1_ebml::text as text_of;
use ffv1_video::number_lines::push_number;
use std::alloc::{AllocError, Allocator};

/// A chunk, of a list by its own name.
#[derive(Clone, Copy)]
pub(crate) struct Chunk<'a> {
    pub(crate) name: &'a [u8],
    pub(crate) content: &'a [u8],
    pub(crate) rest: &'a [u8],
}

/// The first chunk of some bytes, or None if they have no room for its name and its size. Of its
/// content what the bytes lack is left out.
#[tactic(auto, unfolding(crate::specs::AviOutline::first_chunk))]
fn first_chunk(bytes: &[u8]) -> Option<Chunk<'_>>
    ensures value { chunks result ≡ first_chunk bytes.now }
    ensures less { IfSome result (λ c. length c.rest.now < length bytes.now) }
{
    if bytes.len() < 8 {
        return None;
    }
    let name = before(bytes, 4);
    let size = LittleEndian::read_u32(after(bytes, 4)) as usize;
    let content = before(after(bytes, 8), size);
    let rest = after(bytes, 8 + (size + size % 2));
    if is_name(name, b"LIST") {
        Some(Chunk {
            name: before(content, 4),
            content: after(content, 4),
            rest,
        })
    } else {
        Some(Chunk {
            name,
            content,
            rest,
        })
    }
}

/// The content of the first chunk or list of this name, or no bytes if there is none.
pub(crate) fn found_chunk<'a>(bytes: &'a [u8], name: &[u8]) -> &'a [u8]
    ensures { result.now ≡ found_chunk name.now bytes.now }
{
    let mut rest = bytes;
    while let Some(chunk) = first_chunk(rest) {
        if is_name(chunk.name, name) {
            return chunk.content;
        }
        rest = chunk.rest;
    }
    b""
}

/// Appends which software wrote the file.
pub(crate) fn push_software<A: Allocator + Copy>(
    text: &mut Vec<u8, A>,
    form: Form,
    riff: &[u8],
) -> Result<(), AllocError>
    ensures { OnOk result (text.new.items ≡ text.old.items ++ software_in form riff.now) }
{
    push_known_string(
        text,
        form,
        text_of(found_chunk(found_chunk(riff, b"INFO"), b"ISFT")),
    )
}

/// The next step through the chunks of a list `hdrl`, or None at its end.
#[tactic(auto, unfolding(crate::specs::AviOutline::avi_step))]
pub(crate) fn avi_step(content: &[u8]) -> Option<Step<'_>>
    ensures value { steps result ≡ avi_step content.now }
    ensures less { IfSome result (λ s. length s.rest.now < length content.now) }
{
    match first_chunk(content) {
        Some(chunk) => {
            let track = if is_name(chunk.name, b"strl") {
                Some(chunk.content)
            } else {
                None
            };
            Some(Step {
                track,
                rest: chunk.rest,
            })
        }
        None => None,
    }
}

/// Appends what kind a stream of this type is.
#[tactic(auto, unfolding(crate::specs::AviOutline::stream_kind))]
fn push_stream_kind<A: Allocator + Copy>(
    text: &mut Vec<u8, A>,
    form: Form,
    name: &[u8],
) -> Result<(), AllocError>
    ensures { OnOk result (text.new.items ≡ text.old.items ++ stream_kind form name.now) }
{
    if is_name(name, b"vids") {
        push_word_value(text, form, b"video")
    } else if is_name(name, b"auds") {
        push_word_value(text, form, b"audio")
    } else if is_name(name, b"txts") {
        push_word_value(text, form, b"subtitles")
    } else {
        push_known_string(text, form, name)
    }
}

/// Appends the tag of a format of audio.
fn push_format_tag<A: Allocator>(
    text: &mut Vec<u8, A>,
    form: Form,
    format: &[u8],
) -> Result<(), AllocError>
    ensures { OnOk result (text.new.items ≡ text.old.items ++ format_tag form format.now) }
{
    if format.len() < 2 {
        text.extend_from_slice(unknown_value(form))
    } else {
        push_number(text, b"", u64::from(LittleEndian::read_u16(format)))
    }
}

/// Appends the codec of a stream, by its header and its format.
#[tactic(auto, unfolding(crate::specs::AviOutline::stream_codec))]
fn push_stream_codec<A: Allocator + Copy>(
    text: &mut Vec<u8, A>,
    form: Form,
    header: &[u8],
    format: &[u8],
) -> Result<(), AllocError>
    ensures { OnOk result (text.new.items
        ≡ text.old.items ++ stream_codec form header.now format.now) }
{
    let name = before(header, 4);
    if is_name(name, b"vids") {
        push_known_string(text, form, text_of(before(after(format, 16), 4)))
    } else if is_name(name, b"auds") {
        push_format_tag(text, form, format)
    } else {
        push_known_string(text, form, text_of(before(after(header, 4), 4)))
    }
}

/// Appends a stream, by its header and its format.
#[tactic(auto, unfolding(crate::specs::Tracks::entry))]
fn push_stream<A: Allocator + Copy>(
    text: &mut Vec<u8, A>,
    form: Form,
    number: u64,
    header: &[u8],
    format: &[u8],
) -> Result<(), AllocError>
    ensures { OnOk result (text.new.items
        ≡ text.old.items ++ stream_entry form number header.now format.now) }
{
    push_entry_opening(text, form, number)?;
    push_stream_kind(text, form, before(header, 4))?;
    text.extend_from_slice(before_codec(form))?;
    push_stream_codec(text, form, header, format)?;
    text.extend_from_slice(before_language(form))?;
    text.extend_from_slice(unknown_value(form))?;
    text.extend_from_slice(entry_closing(form))?;
    Ok(())
}

/// Appends a track.
pub(crate) fn push_avi_entry<A: Allocator + Copy>(
    text: &mut Vec<u8, A>,
    form: Form,
    number: u64,
    track: &[u8],
) -> Result<(), AllocError>
    ensures { OnOk result (text.new.items ≡ text.old.items ++ avi_entry form number track.now) }
{
    push_stream(
        text,
        form,
        number,
        found_chunk(track, b"strh"),
        found_chunk(track, b"strf"),
    )
}

/// The header of a stream, if one stands there, else no bytes.
fn header_in(track: Option<&[u8]>) -> &[u8]
    ensures { result.now ≡ header_in (slices track.entry) }
{
    match track {
        Some(track) => found_chunk(track, b"strh"),
        None => b"",
    }
}

/// Whether a header is one of video.
fn is_video(header: &[u8]) -> bool
    ensures { result ≡ is_video header.now }
{
    is_name(before(header, 4), b"vids")
}

/// The header of the first stream of video in a list `hdrl`, or no bytes if there is none.
pub(crate) fn video_header(hdrl: &[u8]) -> &[u8]
    ensures { result.now ≡ video_header hdrl.now }
{
    let mut rest = hdrl;
    while let Some(step) = avi_step(rest) {
        let header = header_in(step.track);
        if is_video(header) {
            return header;
        }
        rest = step.rest;
    }
    b""
}

/// Appends how many frames a header of video says.
#[tactic(auto, unfolding(crate::specs::AviOutline::frames_in))]
pub(crate) fn push_frames<A: Allocator>(
    text: &mut Vec<u8, A>,
    form: Form,
    header: &[u8],
) -> Result<(), AllocError>
    ensures { OnOk result (text.new.items ≡ text.old.items ++ frames_in form header.now) }
{
    if header.len() < 36 {
        text.extend_from_slice(unknown_value(form))
    } else {
        push_number(
            text,
            b"",
            u64::from(LittleEndian::read_u32(after(header, 32))),
        )
    }
}

/// How many milliseconds the frames last that a header of video says, or None if it says none.
#[tactic(auto, unfolding(crate::specs::AviOutline::video_lasts))]
pub(crate) fn video_lasts(header: &[u8]) -> Option<u64>
    ensures { result ≡ video_lasts header.now }
{
    if header.len() < 36 {
        return None;
    }
    let frames = LittleEndian::read_u32(after(header, 32));
    let scale = LittleEndian::read_u32(after(header, 20));
    frames_last(
        u64::from(frames),
        scale,
        LittleEndian::read_u32(after(header, 24)),
    )
}
