//! The arguments of commands.

ghost use Rattle.std.specs.Prelude.{◌≡◌, codes, false};
ghost use Rattle.clap.specs.Words.{rule_of};
ghost use Rattle.ffv1_words.specs.CommandLine.{count_rule, file_rule, files_rule, flag_rule};
ghost use Rattle.ffv1_words.specs.CommandLine.{number_rule, path_rule, word_rule};

use clap::{Arg, ArgAction, value_parser};
use std::alloc::Global;

/// A file that a command has to be given.
pub(crate) fn file_arg<'a>(alloc: Global, id: &'a str, help: &'a str) -> Arg<'a>
    ensures rule { rule_of result ≡ file_rule id.entry.now }
    ensures own { result.global ≡ false }
{
    Arg::new(alloc, id).required(true).help(help)
}

/// Files, of which a command has to be given one.
pub(crate) fn files_arg<'a>(alloc: Global, id: &'a str, help: &'a str) -> Arg<'a>
    ensures rule { rule_of result ≡ files_rule id.entry.now }
    ensures own { result.global ≡ false }
{
    file_arg(alloc, id, help).action(ArgAction::Append)
}

/// An option without a value.
pub(crate) fn flag_arg<'a>(alloc: Global, id: &'a str, help: &'a str) -> Arg<'a>
    ensures rule { rule_of result ≡ flag_rule id.entry.now }
    ensures own { result.global ≡ false }
{
    Arg::new(alloc, id)
        .long(id)
        .action(ArgAction::SetTrue)
        .help(help)
}

/// An option of a path, without a default.
pub(crate) fn path_arg<'a>(alloc: Global, id: &'a str, help: &'a str) -> Arg<'a>
    ensures rule { rule_of result ≡ path_rule id.entry.now }
    ensures own { result.global ≡ false }
{
    Arg::new(alloc, id).long(id).help(help)
}

/// An option of a number from `low` to `high`, whose default is that of the text.
pub(crate) fn number_arg<'a>(
    alloc: Global,
    id: &'a str,
    low: u32,
    high: u32,
    text: &'a str,
    help: &'a str,
) -> Arg<'a>
    ensures rule { rule_of result ≡ number_rule id.entry.now low high text.entry.now }
    ensures own { result.global ≡ false }
{
    Arg::new(alloc, id)
        .long(id)
        .value_parser(value_parser!(u32).range(i64::from(low)..=i64::from(high)))
        .default_value(text)
        .help(help)
}

/// An option of a number from `low` to `high`, without a default.
pub(crate) fn count_arg<'a>(
    alloc: Global,
    id: &'a str,
    low: u32,
    high: u32,
    help: &'a str,
) -> Arg<'a>
    ensures rule { rule_of result ≡ count_rule id.entry.now low high }
    ensures own { result.global ≡ false }
{
    Arg::new(alloc, id)
        .long(id)
        .value_parser(value_parser!(u32).range(i64::from(low)..=i64::from(high)))
        .help(help)
}

/// An option of one of these words, whose default is that of the text.
pub(crate) fn word_arg<'a>(
    alloc: Global,
    id: &'a str,
    words: &'a [&'a str],
    text: &'a str,
    help: &'a str,
) -> Arg<'a>
    ensures rule { rule_of result ≡ word_rule id.entry.now words.entry text.entry.now }
    ensures own { result.global ≡ false }
{
    Arg::new(alloc, id)
        .long(id)
        .value_parser(words)
        .default_value(text)
        .help(help)
}

/// Which quantisation set there is.
pub(crate) fn contexts_arg<'a>(alloc: Global, contexts: &'a [&'a str]) -> Arg<'a>
    ensures rule { rule_of result
        ≡ word_rule (codes "contexts") contexts.entry (codes "small") }
    ensures own { result.global ≡ false }
{
    let help = "666 contexts, or 16638, which no other program reads";
    word_arg(alloc, "contexts", contexts, "small", help)
}

/// Whether to say how much is read.
pub(crate) fn progress_arg<'a>(alloc: Global) -> Arg<'a>
    ensures rule { rule_of result ≡ flag_rule (codes "progress") }
    ensures own { result.global ≡ false }
{
    let help = "Say on standard error, once a second, how much of IN is read";
    flag_arg(alloc, "progress", help)
}

/// Whether a note of a file is a fault.
pub(crate) fn notes_arg<'a>(alloc: Global) -> Arg<'a>
    ensures rule { rule_of result ≡ flag_rule (codes "notes-as-faults") }
    ensures own { result.global ≡ false }
{
    let help = "End with status 1 if anything is noted of a file";
    flag_arg(alloc, "notes-as-faults", help)
}
