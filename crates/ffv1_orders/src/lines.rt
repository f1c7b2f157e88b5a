//! Does what a command line asks for, by what does the parts of orders.

ghost use Rattle.std.specs.Prelude.{◌≡◌, ◌≢◌, ◌⊎◌, ◌≤◌, IfOk, map};
ghost use Rattle.clap.specs.Words.{kind_of};
ghost use Rattle.clap.specs.declared.error.kind.ErrorKind.TheVariants as kind;
ghost use Rattle.ffv1_orders.specs.Orders.{DoesLine};

use crate::met::Met;
use crate::orders::{Doer, run_order};
use crate::told::help;
use clap::Error;
use ffv1_words::{help_topic, words};
use std::alloc::Global;
use std::io;

/// The exit status of a line that is refused: 0 if it asks for help or for the version.
fn line_status(error: &Error) -> u8
    ensures asked { (kind_of error.now ≡ kind.DisplayHelp)
        ⊎ (kind_of error.now ≡ kind.DisplayVersion) → result ≡ 0 }
    ensures refused { kind_of error.now ≢ kind.DisplayHelp →
        kind_of error.now ≢ kind.DisplayVersion → result ≡ 2 }
    ensures small { result ≤ 2 }
{
    if error.use_stderr() { 2 } else { 0 }
}

/// Prints why a line is refused, or the help that it asks for. Answers the exit status.
fn tell_line(rt: &impl Eprint, error: &Error) -> io::Result<u8>
    ensures asked { IfOk result (λ status. (kind_of error.now ≡ kind.DisplayHelp)
        ⊎ (kind_of error.now ≡ kind.DisplayVersion) → status ≡ 0) }
    ensures refused { IfOk result (λ status. kind_of error.now ≢ kind.DisplayHelp →
        kind_of error.now ≢ kind.DisplayVersion → status ≡ 2) }
    ensures small { IfOk result (λ status. status ≤ 2) }
{
    eprint!(rt; "{error}")?;
    Ok(line_status(error))
}

/// Does what the words of the command line ask for: status 0 for success, 1 for a fault, which is
/// told on standard error, of each file that has one, and 2 for a line or for files that are
/// refused. All of clap's text goes to standard error, that of help too, which ends with status 0,
/// as what is known of a fault does. Answers what did it, and the exit status.
pub fn command<D: Doer>(
    rt: &impl Eprint,
    alloc: Global,
    met: &Met,
    doer: D,
    texts: &[&str],
) -> (D, io::Result<u8>)
    ensures small { IfOk result.1 (λ status. status ≤ 2) }
    ensures does { DoesLine (record {
      packs = D.packs;
      unpacks = D.unpacks;
      compares = D.compares;
      names = D.names;
      looks = D.looks;
    }) doer (map (λ text. text.now) texts.entry.now) result.1
        result.0 }
{
    if let Some(topic) = help_topic(texts) {
        return (doer, help(rt, topic));
    }
    match words(alloc, texts) {
        Err(error) => (doer, tell_line(rt, &error)),
        Ok(order) => run_order(rt, met, doer, order),
    }
}
