//! The tracks of a file.

ghost use Rattle.std.specs.Prelude.{◌≡◌, ◌++◌, ◌+◌, ◌^◌, ◌<◌, IfOk, IfSome, OnOk, codes};
ghost use Rattle.std.specs.Prelude.{decimal, length};
ghost use Rattle.ffv1_outline.specs.Outline.{entry_in, step_in, tracks_of};
ghost use Rattle.ffv1_outline.specs.Steps.{slices, steps};
ghost use Rattle.ffv1_outline.specs.Tracks.{before_codec, before_language, comma_before};
ghost use Rattle.ffv1_outline.specs.Tracks.{entries, entry_closing, entry_opening, entry_there};
ghost use Rattle.ffv1_outline.specs.Tracks.{number_behind, tracks_in};

use crate::avi_outline::{avi_step, push_avi_entry};
use crate::facts::{Form, push_opening};
use crate::matroska_outline::{matroska_step, push_matroska_entry};
use ffv1_video::number_lines::push_number;
use std::alloc::{AllocError, Allocator};

/// How what lists the tracks is laid out.
#[derive(Clone, Copy)]
pub(crate) enum Layout {
    /// A list `hdrl` of an AVI.
    Avi,
    /// Tracks of Matroska.
    Matroska,
}

/// A step through what lists the tracks: the content of a track, if one stands there, and what
/// comes after it.
#[derive(Clone, Copy)]
pub(crate) struct Step<'a> {
    pub(crate) track: Option<&'a [u8]>,
    pub(crate) rest: &'a [u8],
}

/// The name of a track's line.
fn line_name<A: Allocator>(alloc: A, number: u64) -> Result<Vec<u8, A>, AllocError>
    ensures { IfOk result (λ name. name.items ≡ codes "track " ++ decimal number) }
{
    let mut name = Vec::new(alloc);
    push_number(&mut name, b"track ", number)?;
    Ok(name)
}

/// A comma before each object but the first one.
fn comma_before(number: u64) -> &'static [u8]
    ensures { result.now ≡ comma_before number }
{
    if number == 1 { b"" } else { b"," }
}

/// Appends what comes before a track.
pub(crate) fn push_entry_opening<A: Allocator + Copy>(
    text: &mut Vec<u8, A>,
    form: Form,
    number: u64,
) -> Result<(), AllocError>
    ensures { OnOk result (text.new.items ≡ text.old.items ++ entry_opening form number) }
{
    match form {
        Form::Text => {
            let name = line_name(*text.allocator(), number)?;
            push_opening(text, form, name.as_slice())?;
            Ok(())
        }
        Form::Json => {
            text.extend_from_slice(comma_before(number))?;
            text.extend_from_slice(b"{\"kind\":")
        }
    }
}

/// What comes before a track's codec.
pub(crate) fn before_codec(form: Form) -> &'static [u8]
    ensures { result.now ≡ before_codec form }
{
    match form {
        Form::Text => b", ",
        Form::Json => b",\"codec\":",
    }
}

/// What comes before a track's language.
pub(crate) fn before_language(form: Form) -> &'static [u8]
    ensures { result.now ≡ before_language form }
{
    match form {
        Form::Text => b", ",
        Form::Json => b",\"language\":",
    }
}

/// What comes after a track.
pub(crate) fn entry_closing(form: Form) -> &'static [u8]
    ensures { result.now ≡ entry_closing form }
{
    match form {
        Form::Text => b"\n",
        Form::Json => b"}",
    }
}

/// The next step through what lists the tracks, or None at its end.
fn next_step(layout: Layout, content: &[u8]) -> Option<Step<'_>>
    ensures value { steps result ≡ step_in layout content.now }
    ensures less { IfSome result (λ s. length s.rest.now < length content.now) }
{
    match layout {
        Layout::Avi => avi_step(content),
        Layout::Matroska => matroska_step(content),
    }
}

/// Appends a track.
fn push_entry<A: Allocator + Copy>(
    text: &mut Vec<u8, A>,
    layout: Layout,
    form: Form,
    number: u64,
    track: &[u8],
) -> Result<(), AllocError>
    ensures { OnOk result (text.new.items
        ≡ text.old.items ++ entry_in layout form number track.now) }
{
    match layout {
        Layout::Avi => push_avi_entry(text, form, number, track),
        Layout::Matroska => push_matroska_entry(text, form, number, track),
    }
}

/// Appends a track, if one stands there, and answers the number of the next one.
fn push_there<A: Allocator + Copy>(
    text: &mut Vec<u8, A>,
    layout: Layout,
    form: Form,
    number: u64,
    track: Option<&[u8]>,
) -> Result<u64, AllocError>
    requires { number + 1 < 2 ^ 64 }
    ensures text { OnOk result (text.new.items
        ≡ text.old.items ++ entry_there (entry_in layout form number) (slices track.entry)) }
    ensures next { IfOk result (λ n. n ≡ number_behind number (slices track.entry)) }
{
    match track {
        Some(track) => {
            push_entry(text, layout, form, number, track)?;
            Ok(number + 1)
        }
        None => Ok(number),
    }
}

/// Appends all tracks.
fn push_entries<A: Allocator + Copy>(
    text: &mut Vec<u8, A>,
    layout: Layout,
    form: Form,
    content: &[u8],
) -> Result<(), AllocError>
    ensures { OnOk result (text.new.items ≡ text.old.items
        ++ entries (entry_in layout form) 1 (tracks_in (step_in layout) content.now)) }
{
    let mut number = 1;
    let mut rest = content;
    while let Some(step) = next_step(layout, rest) {
        number = push_there(text, layout, form, number, step.track)?;
        rest = step.rest;
    }
    Ok(())
}

/// Appends the fact that says the tracks.
#[tactic(auto, unfolding(crate::specs::Outline::tracks_of))]
pub(crate) fn push_tracks<A: Allocator + Copy>(
    text: &mut Vec<u8, A>,
    layout: Layout,
    form: Form,
    content: &[u8],
) -> Result<(), AllocError>
    ensures { OnOk result (text.new.items
        ≡ text.old.items ++ tracks_of layout form content.now) }
{
    match form {
        Form::Text => push_entries(text, layout, form, content),
        Form::Json => {
            push_opening(text, form, b"tracks")?;
            text.extend_from_slice(b"[")?;
            push_entries(text, layout, form, content)?;
            text.extend_from_slice(b"]")
        }
    }
}
