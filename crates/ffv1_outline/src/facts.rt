//! Facts of a file, each a name and a value.
//!
//! Each call appends a fact to a text. An error is memory that was refused; what the text then
//! holds is not said.

ghost use Rattle.std.specs.Prelude.{◌≡◌, ◌++◌, OnOk, IfOk};
ghost use Rattle.ffv1_outline.specs.Facts.{closing, known_string, named_fact, number_fact, opening};
ghost use Rattle.ffv1_outline.specs.Facts.{pair_fact, pair_value};
ghost use Rattle.ffv1_outline.specs.Facts.{string_fact, string_value, truth_fact, truth_value};
ghost use Rattle.ffv1_outline.specs.Facts.{unknown_fact, unknown_value, word_fact, word_value};

use crate::parts::after;
use crate::strings::masked;
use ffv1_video::number_lines::push_number;
use json::Writer;
use std::alloc::{AllocError, Allocator};

/// As many blanks as the column has at which values begin.
const BLANKS: &[u8; 20] = b"                    ";

/// How facts are written.
#[derive(Clone, Copy, Debug, PartialEq, Eq)]
pub enum Form {
    /// A line each: its name, blanks up to the column 20, its value.
    Text,
    /// A member each of an object of JSON (RFC 8259, 4), after a comma.
    Json,
}

/// Appends what comes before a value: in a line the name and blanks up to the column 20, none if
/// it is as long; in JSON a comma, the name in quotes, and a colon. The name needs no escape.
#[tactic(auto, unfolding(crate::specs::Facts::opening))]
pub fn push_opening<A: Allocator>(
    text: &mut Vec<u8, A>,
    form: Form,
    name: &[u8],
) -> Result<(), AllocError>
    ensures { OnOk result (text.new.items ≡ text.old.items ++ opening form name.now) }
{
    match form {
        Form::Text => {
            text.extend_from_slice(name)?;
            text.extend_from_slice(after(BLANKS, name.len()))
        }
        Form::Json => {
            text.extend_from_slice(b",\"")?;
            text.extend_from_slice(name)?;
            text.extend_from_slice(b"\":")
        }
    }
}

/// What comes after a value: the end of the line, and in JSON nothing.
pub fn closing(form: Form) -> &'static [u8]
    ensures { result.now ≡ closing form }
{
    match form {
        Form::Text => b"\n",
        Form::Json => b"",
    }
}

/// Appends a word that needs no escape.
pub(crate) fn push_word_value<A: Allocator>(
    text: &mut Vec<u8, A>,
    form: Form,
    word: &[u8],
) -> Result<(), AllocError>
    ensures { OnOk result (text.new.items ≡ text.old.items ++ word_value form word.now) }
{
    match form {
        Form::Text => text.extend_from_slice(word),
        Form::Json => {
            text.extend_from_slice(b"\"")?;
            text.extend_from_slice(word)?;
            text.extend_from_slice(b"\"")
        }
    }
}

/// How a value is written that is not known.
pub(crate) fn unknown_value(form: Form) -> &'static [u8]
    ensures { result.now ≡ unknown_value form }
{
    match form {
        Form::Text => b"unknown",
        Form::Json => b"null",
    }
}

/// How a truth is written.
fn truth_value(form: Form, truth: bool) -> &'static [u8]
    ensures { result.now ≡ truth_value form truth }
{
    match (form, truth) {
        (Form::Text, true) => b"yes",
        (Form::Text, false) => b"no",
        (Form::Json, true) => b"true",
        (Form::Json, false) => b"false",
    }
}

/// A string of a file as JSON quotes it. Control characters from U+007F to U+009F, and what is no
/// UTF-8, become U+FFFD.
#[tactic(auto, unfolding(crate::specs::Facts::string_value))]
fn quoted<A: Allocator + Copy>(alloc: A, string: &[u8]) -> Result<Vec<u8, A>, AllocError>
    ensures { IfOk result (λ v. v.items ≡ string_value string.now) }
{
    let bytes = masked(alloc, string)?;
    let string = String::from_utf8_lossy(alloc, bytes.as_slice())?;
    let mut writer = Writer::new(Vec::new(alloc));
    writer.string(string.as_str())?;
    Ok(writer.into_inner())
}

/// Appends a string of a file as JSON quotes it (RFC 8259, 7), in which control characters below
/// U+0020 are escaped. Those from U+007F to U+009F, and what is no UTF-8, become U+FFFD.
pub(crate) fn push_quoted<A: Allocator + Copy>(
    text: &mut Vec<u8, A>,
    string: &[u8],
) -> Result<(), AllocError>
    ensures { OnOk result (text.new.items ≡ text.old.items ++ string_value string.now) }
{
    let quoted = quoted(*text.allocator(), string)?;
    text.extend_from_slice(quoted.as_slice())?;
    Ok(())
}

/// Appends a string of a file as `push_quoted` does, or that it is unknown if it is empty.
#[tactic(auto, unfolding(crate::specs::Facts::known_string))]
pub(crate) fn push_known_string<A: Allocator + Copy>(
    text: &mut Vec<u8, A>,
    form: Form,
    string: &[u8],
) -> Result<(), AllocError>
    ensures { OnOk result (text.new.items ≡ text.old.items ++ known_string form string.now) }
{
    if string.is_empty() {
        text.extend_from_slice(unknown_value(form))
    } else {
        push_quoted(text, string)
    }
}

/// Appends a fact whose value is a word of the program's own, which needs no escape.
pub fn push_word<A: Allocator>(
    text: &mut Vec<u8, A>,
    form: Form,
    name: &[u8],
    word: &[u8],
) -> Result<(), AllocError>
    ensures { OnOk result (text.new.items
        ≡ text.old.items ++ word_fact form name.now word.now) }
{
    push_opening(text, form, name)?;
    push_word_value(text, form, word)?;
    text.extend_from_slice(closing(form))?;
    Ok(())
}

/// Appends a fact whose value is not known.
pub fn push_unknown<A: Allocator>(
    text: &mut Vec<u8, A>,
    form: Form,
    name: &[u8],
) -> Result<(), AllocError>
    ensures { OnOk result (text.new.items ≡ text.old.items ++ unknown_fact form name.now) }
{
    push_opening(text, form, name)?;
    text.extend_from_slice(unknown_value(form))?;
    text.extend_from_slice(closing(form))?;
    Ok(())
}

/// Appends a fact that is so or is not.
pub fn push_truth<A: Allocator>(
    text: &mut Vec<u8, A>,
    form: Form,
    name: &[u8],
    truth: bool,
) -> Result<(), AllocError>
    ensures { OnOk result (text.new.items ≡ text.old.items ++ truth_fact form name.now truth) }
{
    push_opening(text, form, name)?;
    text.extend_from_slice(truth_value(form, truth))?;
    text.extend_from_slice(closing(form))?;
    Ok(())
}

/// Appends a fact whose value is a number.
pub fn push_number_fact<A: Allocator>(
    text: &mut Vec<u8, A>,
    form: Form,
    name: &[u8],
    number: u64,
) -> Result<(), AllocError>
    ensures { OnOk result (text.new.items ≡ text.old.items ++ number_fact form name.now number) }
{
    push_opening(text, form, name)?;
    push_number(text, b"", number)?;
    text.extend_from_slice(closing(form))?;
    Ok(())
}

/// Appends two numbers: with a sign between them, or as an array.
fn push_pair_value<A: Allocator>(
    text: &mut Vec<u8, A>,
    form: Form,
    first: u32,
    sign: &[u8],
    second: u32,
) -> Result<(), AllocError>
    ensures { OnOk result (text.new.items
        ≡ text.old.items ++ pair_value form first sign.now second) }
{
    match form {
        Form::Text => {
            push_number(text, b"", u64::from(first))?;
            push_number(text, sign, u64::from(second))
        }
        Form::Json => {
            push_number(text, b"[", u64::from(first))?;
            push_number(text, b",", u64::from(second))?;
            text.extend_from_slice(b"]")
        }
    }
}

/// Appends a fact whose value is two numbers.
pub fn push_pair<A: Allocator>(
    text: &mut Vec<u8, A>,
    form: Form,
    name: &[u8],
    first: u32,
    sign: &[u8],
    second: u32,
) -> Result<(), AllocError>
    ensures { OnOk result (text.new.items
        ≡ text.old.items ++ pair_fact form name.now first sign.now second) }
{
    push_opening(text, form, name)?;
    push_pair_value(text, form, first, sign, second)?;
    text.extend_from_slice(closing(form))?;
    Ok(())
}

/// Appends a fact whose value is a number that has a word, or an empty one if it has none.
pub fn push_named<A: Allocator>(
    text: &mut Vec<u8, A>,
    form: Form,
    name: &[u8],
    word: &[u8],
    number: u64,
) -> Result<(), AllocError>
    ensures { OnOk result (text.new.items
        ≡ text.old.items ++ named_fact form name.now word.now number) }
{
    if word.is_empty() {
        push_number_fact(text, form, name, number)
    } else {
        push_word(text, form, name, word)
    }
}

/// Appends a fact whose value is a string of a file, quoted in either form as JSON quotes it
/// (RFC 8259, 7), in which control characters below U+0020 are escaped. Those from U+007F to
/// U+009F, and what is no UTF-8, become U+FFFD.
pub fn push_string<A: Allocator + Copy>(
    text: &mut Vec<u8, A>,
    form: Form,
    name: &[u8],
    string: &[u8],
) -> Result<(), AllocError>
    ensures { OnOk result (text.new.items
        ≡ text.old.items ++ string_fact form name.now string.now) }
{
    push_opening(text, form, name)?;
    push_quoted(text, string)?;
    text.extend_from_slice(closing(form))?;
    Ok(())
}
