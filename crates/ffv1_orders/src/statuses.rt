//! The exit status of an order, and what is said of one that is not done.

ghost use Rattle.std.specs.Prelude.{◌≡◌, ℕ, Err, IfOk, IfSome, IsOk, OnErr};
ghost use Rattle.ffv1_files.specs.declared.notes.Notes.{Notes};
ghost use Rattle.ffv1_orders.specs.declared.refusal.Refusal.TheVariants as refusal;
ghost use Rattle.ffv1_orders.specs.Looked.{IsTold};
ghost use Rattle.ffv1_orders.specs.Statuses.{status_of};
ghost use Rattle.ffv1_video.specs.declared.fault.Fault.{Fault};

use crate::met::Met;
use crate::notes::{notes_of, tell_notes};
use crate::refusal::Refusal;
use crate::told::{Paths, advise};
use ffv1_files::Notes;
use ffv1_video::Fault;
use std::io;

/// The exit status of an order: 0 if it was done, 1 for a fault, if a list of MD5s or a frame of it
/// is refused, or for a note that is a fault, 2 if its files are refused.
pub fn status_of(done: Result<Notes, Refusal>) -> u8
    ensures ok { IsOk done → result ≡ 0 }
    ensures fault { (f : Fault) → done ≡ Err (refusal.Fault f) → result ≡ 1 }
    ensures judged { (f : Fault) (n : Notes) → done ≡ Err (refusal.Judged f n) → result ≡ 1 }
    ensures notes { (n : Notes) → done ≡ Err (refusal.Notes n) → result ≡ 1 }
    ensures one_file { done ≡ Err refusal.OneFile → result ≡ 2 }
    ensures exists { done ≡ Err refusal.Exists → result ≡ 2 }
    ensures differs { (n : ℕ) → done ≡ Err (refusal.Differs n) → result ≡ 1 }
    ensures list { (n : ℕ) → done ≡ Err (refusal.List n) → result ≡ 1 }
    ensures value { result ≡ status_of done }
{
    match done {
        Ok(_) => 0,
        Err(Refusal::Fault(_) | Refusal::Judged(_, _) | Refusal::Notes(_)) => 1,
        Err(Refusal::Differs(_) | Refusal::List(_)) => 1,
        Err(Refusal::OneFile | Refusal::Exists) => 2,
    }
}

/// Why an order is not done, where lines of its own say so: those of notes stand for themselves.
fn told_refusal(done: Result<Notes, Refusal>) -> Option<Refusal>
    ensures { IfSome result (λ r. done ≡ Err r) }
{
    match done {
        Ok(_) | Err(Refusal::Notes(_)) => None,
        Err(refusal) => Some(refusal),
    }
}

/// Says on standard error what is noted of a file, and why an order is not done: in one line, and
/// of a fault in two more which file it is of and what to do. `path` stands in the first line of
/// each, if there is one.
pub(crate) fn tell_outcome(
    rt: &impl Eprint,
    met: &Met,
    path: Option<&str>,
    paths: Paths<'_>,
    done: Result<Notes, Refusal>,
) -> io::Result<()>
    ensures { OnErr result (IsTold done) }
{
    tell_notes(rt, path, notes_of(done))?;
    let colon = if path.is_some() { ": " } else { "" };
    let path = path.unwrap_or("");
    if let Some(refusal) = told_refusal(done) {
        eprintln!(rt; "ffv1: {path}{colon}{refusal}")?;
        advise(rt, met, paths, refusal)?;
    }
    Ok(())
}

/// Says on standard error what is noted of the file of an order, and why it is not done. Answers
/// its exit status.
pub fn tell(
    rt: &impl Eprint,
    met: &Met,
    paths: Paths<'_>,
    done: Result<Notes, Refusal>,
) -> io::Result<u8>
    ensures { IfOk result (λ status. status ≡ status_of done) }
{
    tell_outcome(rt, met, None, paths, done)?;
    Ok(status_of(done))
}
