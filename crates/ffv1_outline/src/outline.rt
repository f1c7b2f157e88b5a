//! What a file says of itself beside its video, by its beginning.

ghost use Rattle.std.specs.Prelude.{◌≡◌, ◌++◌, OnOk, codes};
ghost use Rattle.ffv1_outline.specs.Durations.{seconds};
ghost use Rattle.ffv1_outline.specs.Facts.{fact};
ghost use Rattle.ffv1_outline.specs.Outline.{avi_facts, container_of, container_value, facts_of};
ghost use Rattle.ffv1_outline.specs.Outline.{info_facts, matroska_facts, outline_facts};
ghost use Rattle.ffv1_outline.specs.Outline.{streams_facts, video_facts};

use crate::avi_outline::{found_chunk, push_frames, push_software, video_header, video_lasts};
use crate::durations::push_seconds;
use crate::facts::{Form, closing, push_opening, push_unknown, push_word_value, unknown_value};
use crate::matroska_outline::{
    INFO, TRACKS, child, doc_type, info_lasts, push_application, segment,
};
use crate::parts::{after, before, is_name};
use crate::tracks::{Layout, push_tracks};
use std::alloc::{AllocError, Allocator};

/// What holds the video of a file.
#[derive(Clone, Copy)]
pub(crate) enum Container {
    Avi,
    Matroska,
    Mxf,
    QuickTime,
    Unknown,
    WebM,
}

/// What holds the video, by how the file begins.
#[tactic(auto, unfolding(crate::specs::Outline::container_of))]
fn container_of(bytes: &[u8]) -> Container
    ensures { result ≡ container_of bytes.now }
{
    let first = before(bytes, 4);
    if is_name(first, b"\x1A\x45\xDF\xA3") {
        if is_name(doc_type(bytes), b"webm") {
            Container::WebM
        } else {
            Container::Matroska
        }
    } else if is_name(first, b"RIFF") && is_name(before(after(bytes, 8), 4), b"AVI ") {
        Container::Avi
    } else if is_name(before(after(bytes, 4), 4), b"ftyp") {
        Container::QuickTime
    } else if is_name(first, b"\x06\x0E\x2B\x34") {
        Container::Mxf
    } else {
        Container::Unknown
    }
}

/// Appends the name of a container.
fn push_container<A: Allocator>(
    text: &mut Vec<u8, A>,
    form: Form,
    container: Container,
) -> Result<(), AllocError>
    ensures { OnOk result (text.new.items ≡ text.old.items ++ container_value form container) }
{
    match container {
        Container::Avi => push_word_value(text, form, b"AVI"),
        Container::Matroska => push_word_value(text, form, b"Matroska"),
        Container::Mxf => push_word_value(text, form, b"MXF"),
        Container::QuickTime => push_word_value(text, form, b"QuickTime"),
        Container::Unknown => text.extend_from_slice(unknown_value(form)),
        Container::WebM => push_word_value(text, form, b"WebM"),
    }
}

/// Appends a fact that says how long the file lasts, in seconds with three decimals.
fn push_duration<A: Allocator>(
    text: &mut Vec<u8, A>,
    form: Form,
    milliseconds: Option<u64>,
) -> Result<(), AllocError>
    ensures { OnOk result (text.new.items
        ≡ text.old.items ++ fact form (codes "duration") (seconds form milliseconds)) }
{
    push_opening(text, form, b"duration")?;
    push_seconds(text, form, milliseconds)?;
    text.extend_from_slice(closing(form))?;
    Ok(())
}

/// Appends what Info says.
#[tactic(auto, unfolding(crate::specs::Outline::info_facts))]
fn push_info<A: Allocator + Copy>(
    text: &mut Vec<u8, A>,
    form: Form,
    info: &[u8],
) -> Result<(), AllocError>
    ensures { OnOk result (text.new.items ≡ text.old.items ++ info_facts form info.now) }
{
    push_opening(text, form, b"application")?;
    push_application(text, form, info)?;
    text.extend_from_slice(closing(form))?;
    push_duration(text, form, info_lasts(info))?;
    Ok(())
}

/// Appends what a Segment says, by its content.
#[tactic(auto, unfolding(crate::specs::Outline::matroska_facts))]
fn push_matroska<A: Allocator + Copy>(
    text: &mut Vec<u8, A>,
    form: Form,
    segment: &[u8],
) -> Result<(), AllocError>
    ensures { OnOk result (text.new.items ≡ text.old.items ++ matroska_facts form segment.now) }
{
    push_info(text, form, child(segment, INFO))?;
    push_unknown(text, form, b"frames")?;
    push_tracks(text, Layout::Matroska, form, child(segment, TRACKS))?;
    Ok(())
}

/// Appends what the header of a stream of video says.
#[tactic(auto, unfolding(crate::specs::Outline::video_facts))]
fn push_video<A: Allocator>(
    text: &mut Vec<u8, A>,
    form: Form,
    header: &[u8],
) -> Result<(), AllocError>
    ensures { OnOk result (text.new.items ≡ text.old.items ++ video_facts form header.now) }
{
    push_duration(text, form, video_lasts(header))?;
    push_opening(text, form, b"frames")?;
    push_frames(text, form, header)?;
    text.extend_from_slice(closing(form))?;
    Ok(())
}

/// Appends what the streams of a list `hdrl` say.
#[tactic(auto, unfolding(crate::specs::Outline::streams_facts))]
fn push_streams<A: Allocator + Copy>(
    text: &mut Vec<u8, A>,
    form: Form,
    hdrl: &[u8],
) -> Result<(), AllocError>
    ensures { OnOk result (text.new.items ≡ text.old.items ++ streams_facts form hdrl.now) }
{
    push_video(text, form, video_header(hdrl))?;
    push_tracks(text, Layout::Avi, form, hdrl)?;
    Ok(())
}

/// Appends what an AVI says, by the chunks of its RIFF.
#[tactic(auto, unfolding(crate::specs::Outline::avi_facts))]
fn push_avi<A: Allocator + Copy>(
    text: &mut Vec<u8, A>,
    form: Form,
    riff: &[u8],
) -> Result<(), AllocError>
    ensures { OnOk result (text.new.items ≡ text.old.items ++ avi_facts form riff.now) }
{
    push_opening(text, form, b"application")?;
    push_software(text, form, riff)?;
    text.extend_from_slice(closing(form))?;
    push_streams(text, form, found_chunk(riff, b"hdrl"))?;
    Ok(())
}

/// Appends what a file of this container says.
fn push_facts<A: Allocator + Copy>(
    text: &mut Vec<u8, A>,
    form: Form,
    container: Container,
    bytes: &[u8],
) -> Result<(), AllocError>
    ensures { OnOk result (text.new.items
        ≡ text.old.items ++ facts_of form container bytes.now) }
{
    match container {
        Container::Avi => push_avi(text, form, after(bytes, 12)),
        Container::Matroska => push_matroska(text, form, segment(bytes)),
        Container::Mxf => Ok(()),
        Container::QuickTime => Ok(()),
        Container::Unknown => Ok(()),
        Container::WebM => push_matroska(text, form, segment(bytes)),
    }
}

/// Appends what a file says of itself beside its video, by its first bytes: what holds it, and of
/// Matroska and AVI which application wrote it, how long it lasts, how many frames there are, and
/// its tracks. What is not found in these bytes, or cannot be read, is unknown.
///
/// An error is memory that was refused.
pub fn push_outline<A: Allocator + Copy>(
    text: &mut Vec<u8, A>,
    form: Form,
    bytes: &[u8],
) -> Result<(), AllocError>
    ensures { OnOk result (text.new.items ≡ text.old.items ++ outline_facts form bytes.now) }
{
    let container = container_of(bytes);
    push_opening(text, form, b"container")?;
    push_container(text, form, container)?;
    text.extend_from_slice(closing(form))?;
    push_facts(text, form, container, bytes)?;
    Ok(())
}
