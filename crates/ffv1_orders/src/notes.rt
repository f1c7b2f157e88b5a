//! What is noted of a file: what comes of it, and how it is said on standard error.

ghost use Rattle.std.specs.Prelude.{◌≡◌, ◌⊎◌, Err, IfErr, OnErr, true};
ghost use Rattle.ffv1_orders.specs.Noted.{IsOfNotes, is_noted, noted, notes_of};

use crate::refusal::Refusal;
use ffv1_files::Notes;
use std::io;

/// Whether anything is noted.
fn is_noted(notes: Notes) -> bool
    ensures { result ≡ is_noted notes }
{
    notes.is_open
        || notes.others > 0
        || notes.times.is_some()
        || notes.repeated > 0
        || notes.after.is_some()
}

/// What comes of an order by what was done of its file: if that is done, what is noted of the file,
/// or a refusal if a note is to be a fault, and there is one.
pub fn noted(as_faults: bool, done: Result<Notes, Refusal>) -> Result<Notes, Refusal>
    ensures value { result ≡ noted as_faults done }
    ensures refused { IfErr result (λ r. (done ≡ Err r) ⊎ IsOfNotes r) }
{
    match done {
        Ok(notes) if as_faults && is_noted(notes) => Err(Refusal::Notes(notes)),
        Ok(notes) => Ok(notes),
        Err(refusal) => Err(refusal),
    }
}

/// What is noted of a file by what came of its order.
pub(crate) fn notes_of(done: Result<Notes, Refusal>) -> Notes
    ensures { result ≡ notes_of done }
{
    match done {
        Ok(notes) | Err(Refusal::Notes(notes) | Refusal::Judged(_, notes)) => notes,
        Err(_) => Notes::NONE,
    }
}

/// Says on standard error what is noted of a file, in a line of each note, in the order of their
/// numbers; `path` stands before it, if there is one.
pub(crate) fn tell_notes(rt: &impl Eprint, path: Option<&str>, notes: Notes) -> io::Result<()>
    ensures { OnErr result (is_noted notes ≡ true) }
{
    let colon = if path.is_some() { ": " } else { "" };
    let path = path.unwrap_or("");
    if notes.is_open {
        eprintln!(rt; "ffv1: {path}{colon}note 90 Open")?;
    }
    if notes.others > 0 {
        let others = notes.others;
        eprintln!(rt; "ffv1: {path}{colon}note 91 OtherVideo {others}")?;
    }
    if let Some(frame) = notes.times {
        eprintln!(rt; "ffv1: {path}{colon}note 92 Times frame {frame}")?;
    }
    if notes.repeated > 0 {
        let repeated = notes.repeated;
        eprintln!(rt; "ffv1: {path}{colon}note 93 Repeated {repeated}")?;
    }
    if let Some(byte) = notes.after {
        eprintln!(rt; "ffv1: {path}{colon}note 94 After byte {byte}")?;
    }
    Ok(())
}
