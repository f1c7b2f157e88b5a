//! What the beginning of a Matroska file says of it (RFC 9559).

ghost use Rattle.std.specs.Prelude.{◌≡◌, ◌≤◌, ◌++◌, ◌<◌, IfSome, OnOk, length};
ghost use Rattle.ffv1_ebml.specs.Contents.{number_in, text_in};
ghost use Rattle.ffv1_ebml.specs.Vints.{length_of};
ghost use Rattle.ffv1_outline.specs.MatroskaOutline.{after_void, after_voids, application_in};
ghost use Rattle.ffv1_outline.specs.MatroskaOutline.{child, doc_type, info_lasts, kind_of};
ghost use Rattle.ffv1_outline.specs.MatroskaOutline.{language_of, matroska_entry, matroska_step};
ghost use Rattle.ffv1_outline.specs.MatroskaOutline.{segment, segment_content, type_value};
ghost use Rattle.ffv1_outline.specs.Steps.{slices, steps};

use crate::durations::duration_of;
use crate::facts::{Form, push_known_string, push_quoted, push_word_value, unknown_value};
use crate::parts::{after, before, is_name};
use crate::tracks::{Step, before_codec, before_language, entry_closing, push_entry_opening};
use ffv1_ebml::{find, first_child, laws, number, text as text_of};
use ffv1_video::number_lines::push_number;
use std::alloc::{AllocError, Allocator};

/// The ID of DocType.
const DOC_TYPE: u32 = 0x4282;

/// The ID of Segment.
const SEGMENT: &[u8; 4] = b"\x18\x53\x80\x67";

/// The ID of Void.
const VOID: u32 = 0xEC;

/// The ID of Info.
pub(crate) const INFO: u32 = 0x1549A966;

/// The ID of WritingApp.
const WRITING_APP: u32 = 0x5741;

/// The ID of TimestampScale.
const TIMESTAMP_SCALE: u32 = 0x2AD7B1;

/// The ID of Duration.
const DURATION: u32 = 0x4489;

/// The ID of Tracks.
pub(crate) const TRACKS: u32 = 0x1654AE6B;

/// The ID of TrackEntry.
const TRACK_ENTRY: u32 = 0xAE;

/// The ID of TrackType.
const TRACK_TYPE: u32 = 0x83;

/// The ID of CodecID.
const CODEC_ID: u32 = 0x86;

/// The ID of Language.
const LANGUAGE: u32 = 0x22B59C;

/// The ID of LanguageBCP47.
const LANGUAGE_BCP47: u32 = 0x22B59D;

/// The content of the first child with this ID, or no bytes if it is not found.
#[tactic(auto, unfolding(crate::specs::MatroskaOutline::child))]
pub(crate) fn child(content: &[u8], ident: u32) -> &[u8]
    ensures { result.now ≡ child ident content.now }
{
    match find(content, ident) {
        Ok(Some(found)) => found,
        Ok(None) => b"",
        Err(_) => b"",
    }
}

/// How many bytes a variable-size integer has, by the first of them (RFC 8794, 4.1); 9 if it begins
/// none.
fn length_of(first: u8) -> usize
    ensures value { result ≡ length_of first }
    ensures most { result ≤ 9 }
{
    laws::first_byte_says_the_length();
    first.leading_zeros() as usize + 1
}

/// The DocType of the EBML header, or no bytes if it is not found.
#[tactic(auto, unfolding(crate::specs::MatroskaOutline::doc_type))]
pub(crate) fn doc_type(bytes: &[u8]) -> &[u8]
    ensures { result.now ≡ doc_type bytes.now }
{
    match first_child(bytes) {
        Ok(Some(header)) => text_of(child(header.content, DOC_TYPE)),
        Ok(None) => text_of(child(b"", DOC_TYPE)),
        Err(_) => text_of(child(b"", DOC_TYPE)),
    }
}

/// The content of a Segment: what comes after its ID and its size. No bytes if it is none.
#[tactic(auto, unfolding(crate::specs::MatroskaOutline::segment_content))]
fn segment_content(bytes: &[u8]) -> &[u8]
    ensures { result.now ≡ segment_content bytes.now }
{
    if bytes.len() <= 4 {
        return b"";
    }
    if is_name(before(bytes, 4), SEGMENT) {
        after(bytes, 4 + length_of(bytes[4]))
    } else {
        b""
    }
}

/// What comes after the Void element that some bytes begin with, or None if they begin with none.
#[tactic(auto, unfolding(crate::specs::MatroskaOutline::after_void))]
fn after_void(bytes: &[u8]) -> Option<&[u8]>
    ensures value { slices result ≡ after_void bytes.now }
    ensures less { IfSome result (λ rest. length rest.now < length bytes.now) }
{
    match first_child(bytes) {
        Ok(Some(child)) => {
            if child.ident == VOID {
                Some(child.rest)
            } else {
                None
            }
        }
        Ok(None) => None,
        Err(_) => None,
    }
}

/// What comes after the Void elements that some bytes begin with.
fn after_voids(bytes: &[u8]) -> &[u8]
    ensures { result.now ≡ after_voids bytes.now }
{
    let mut rest = bytes;
    while let Some(after) = after_void(rest) {
        rest = after;
    }
    rest
}

/// The content of the Segment that comes after the EBML header and Voids, as far as there are
/// bytes.
#[tactic(auto, unfolding(crate::specs::MatroskaOutline::segment))]
pub(crate) fn segment(bytes: &[u8]) -> &[u8]
    ensures { result.now ≡ segment bytes.now }
{
    match first_child(bytes) {
        Ok(Some(header)) => segment_content(after_voids(header.rest)),
        Ok(None) => b"",
        Err(_) => b"",
    }
}

/// Appends which application wrote the file.
pub(crate) fn push_application<A: Allocator + Copy>(
    text: &mut Vec<u8, A>,
    form: Form,
    info: &[u8],
) -> Result<(), AllocError>
    ensures { OnOk result (text.new.items ≡ text.old.items ++ application_in form info.now) }
{
    push_known_string(text, form, text_of(child(info, WRITING_APP)))
}

/// How many milliseconds Info says that the file lasts, or None if it says none.
pub(crate) fn info_lasts(info: &[u8]) -> Option<u64>
    ensures { result ≡ info_lasts info.now }
{
    duration_of(child(info, TIMESTAMP_SCALE), child(info, DURATION))
}

/// The next step through the content of Tracks, or None at its end, or if the next element can't be
/// read.
#[tactic(auto, unfolding(crate::specs::MatroskaOutline::matroska_step))]
pub(crate) fn matroska_step(content: &[u8]) -> Option<Step<'_>>
    ensures value { steps result ≡ matroska_step content.now }
    ensures less { IfSome result (λ s. length s.rest.now < length content.now) }
{
    match first_child(content) {
        Ok(Some(child)) => {
            let track = if child.ident == TRACK_ENTRY {
                Some(child.content)
            } else {
                None
            };
            Some(Step {
                track,
                rest: child.rest,
            })
        }
        Ok(None) => None,
        Err(_) => None,
    }
}

/// Appends what kind a track of this type is.
#[tactic(auto, unfolding(crate::specs::MatroskaOutline::type_value))]
fn push_type<A: Allocator>(text: &mut Vec<u8, A>, form: Form, number: u64) -> Result<(), AllocError>
    ensures { OnOk result (text.new.items ≡ text.old.items ++ type_value form number) }
{
    match number {
        0 => text.extend_from_slice(unknown_value(form)),
        1 => push_word_value(text, form, b"video"),
        2 => push_word_value(text, form, b"audio"),
        17 => push_word_value(text, form, b"subtitles"),
        _ => push_number(text, b"", number),
    }
}

/// Appends what kind a track is, by the content of its TrackType.
fn push_kind<A: Allocator>(
    text: &mut Vec<u8, A>,
    form: Form,
    content: &[u8],
) -> Result<(), AllocError>
    ensures { OnOk result (text.new.items
        ≡ text.old.items ++ kind_of form (number_in 0 content.now)) }
{
    match number(content, 0) {
        Ok(number) => push_type(text, form, number),
        Err(_) => text.extend_from_slice(unknown_value(form)),
    }
}

/// The language of a track, by its LanguageBCP47 and its Language.
fn language_of<'a>(tag: &'a [u8], name: &'a [u8]) -> &'a [u8]
    ensures { result.now ≡ language_of tag.now name.now }
{
    if !tag.is_empty() {
        tag
    } else if name.is_empty() {
        b"eng"
    } else {
        name
    }
}

/// Appends a track.
#[tactic(auto, unfolding(crate::specs::Tracks::entry))]
pub(crate) fn push_matroska_entry<A: Allocator + Copy>(
    text: &mut Vec<u8, A>,
    form: Form,
    number: u64,
    track: &[u8],
) -> Result<(), AllocError>
    ensures { OnOk result (text.new.items
        ≡ text.old.items ++ matroska_entry form number track.now) }
{
    let tag = text_of(child(track, LANGUAGE_BCP47));
    let language = language_of(tag, text_of(child(track, LANGUAGE)));
    push_entry_opening(text, form, number)?;
    push_kind(text, form, child(track, TRACK_TYPE))?;
    text.extend_from_slice(before_codec(form))?;
    push_known_string(text, form, text_of(child(track, CODEC_ID)))?;
    text.extend_from_slice(before_language(form))?;
    push_quoted(text, language)?;
    text.extend_from_slice(entry_closing(form))?;
    Ok(())
}
