//! What the program says beside the first line of a refusal, and help on faults.

ghost use Rattle.std.specs.Prelude.{◌≡◌, ◌≤◌, [], ◌∷◌, IfOk};

use crate::advice::{CODEC, FILE, RECORD, ROWS, TEXT};
use crate::met::{Beginning, Met};
use crate::refusal::Refusal;
use ffv1_reads::FileFault;
use ffv1_video::Fault;
use ffv1_words::{Topic, is_hyphen};
use std::io;

/// The paths of an order, or of one of its files.
#[derive(Clone, Copy)]
pub struct Paths<'a> {
    /// What is read.
    pub input: &'a str,
    /// What is written.
    pub output: &'a str,
}

impl<'a> Paths<'a> {
    /// Of a file that is looked at: what is said of it goes to standard output.
    pub fn looked(input: &'a str) -> Paths<'a>
        ensures input { result.input ≡ input.entry }
        ensures output { result.output.now ≡ 45 ∷ [] }
    {
        Paths { input, output: "-" }
    }
}

/// The greatest number that a fault has is at most this.
const LAST: u32 = 99;

/// The number in this place of a table.
fn number_at(numbers: &[u32], place: usize) -> u32 {
    match numbers.get(place) {
        Some(number) => *number,
        None => 0,
    }
}

/// The number of a fault.
fn number_of(fault: Fault) -> u32 {
    match fault {
        Fault::OutOfMemory => 2,
        Fault::Read => 56,
        Fault::Write => 57,
        Fault::NoFrames => 70,
        Fault::FormatChanged => 71,
        Fault::NoY4mName => 72,
        Fault::NoPpm => 73,
        Fault::NotSame => 87,
        Fault::Record(refused) => number_at(&RECORD, refused as usize),
        Fault::Codec(refused) => number_at(&CODEC, refused as usize),
        Fault::File(refused) => number_at(&FILE, refused as usize),
        Fault::Text(refused) => number_at(&TEXT, refused as usize),
    }
}

/// Which frame or line a refusal is of, and its number.
fn told_place(refusal: Refusal) -> Option<(u32, &'static str, u64)> {
    match refusal {
        Refusal::Differs(frame) => Some((89, "frame", frame)),
        Refusal::List(line) => Some((66, "line", line)),
        Refusal::Fault(_) | Refusal::Judged(_, _) => None,
        Refusal::OneFile | Refusal::Exists | Refusal::Notes(_) => None,
    }
}

/// What is known of the fault of a number.
fn row_numbered(number: u32) -> Option<&'static str> {
    for row in &ROWS {
        if let Some((digits, _)) = row.split_once(' ') {
            if digits.parse::<u32>() == Ok(number) {
                return Some(row);
            }
        }
    }
    None
}

/// What is known of a fault.
fn row_of(fault: Fault) -> &'static str {
    row_numbered(number_of(fault)).unwrap_or("")
}

/// What is known of a refusal that has a number.
pub fn known_of(refusal: Refusal) -> &'static str {
    if let Some((number, _, _)) = told_place(refusal) {
        return row_numbered(number).unwrap_or("");
    }
    match refusal {
        Refusal::Fault(fault) | Refusal::Judged(fault, _) => row_of(fault),
        _ => "",
    }
}

/// Which line says what to do if the system refused to read, by its number: there is no such file,
/// no permission, or it is a folder.
fn place_of_read(code: i32) -> usize {
    match code {
        2 => 0,
        13 => 1,
        21 => 2,
        _ => 3,
    }
}

/// Which line says what to do if the system refused to write, by its number: there is no room, the
/// quota is used up or the file too large, or the reader of a pipe is gone.
fn place_of_write(code: i32) -> usize {
    match code {
        27 | 28 | 122 => 0,
        32 => 1,
        _ => 2,
    }
}

/// Which line says what to do of a file that is none to be read, by its beginning.
fn place_of_file(beginning: Beginning) -> usize {
    match beginning {
        Beginning::QuickTime => 0,
        Beginning::Avi => 1,
        Beginning::Matroska | Beginning::Nothing | Beginning::Other => 2,
    }
}

/// Which line says what to do of a file that is no video to be packed, by its beginning.
fn place_of_video(beginning: Beginning) -> usize {
    match beginning {
        Beginning::Nothing => 1,
        Beginning::Other => 2,
        _ => 0,
    }
}

/// Which of the lines that say what to do serves, by what was met.
fn advice_place(fault: Fault, met: &Met) -> usize {
    match fault {
        Fault::Read => place_of_read(met.code()),
        Fault::Write => place_of_write(met.code()),
        Fault::File(FileFault::NotAvi) => place_of_file(met.beginning()),
        Fault::Text(ffv1_y4m::Fault::Header) => place_of_video(met.beginning()),
        _ => 0,
    }
}

/// A path, or the stream that a hyphen names.
fn named<'a>(path: &'a str, stream: &'a str) -> &'a str {
    if is_hyphen(path) { stream } else { path }
}

/// The file that a fault is of.
fn path_of<'a>(paths: Paths<'a>, fault: Fault) -> &'a str {
    let (path, stream) = if fault == Fault::Write {
        (paths.output, "standard output")
    } else {
        (paths.input, "standard input")
    };
    named(path, stream)
}

/// Says what to do, in this line of what is known of a fault.
fn tell_advice(rt: &impl Eprint, row: &str, line: usize) -> io::Result<()> {
    match row.lines().nth(line) {
        Some(advice) => eprintln!(rt; "{advice}"),
        None => Ok(()),
    }
}

/// Says on standard error, in two lines, which file a refusal is of, with the system's reason if it
/// refused a call, or the number of a frame or of a line, and what to do.
pub fn advise(rt: &impl Eprint, met: &Met, paths: Paths<'_>, refusal: Refusal) -> io::Result<()> {
    if let Some((number, kind, place)) = told_place(refusal) {
        let path = named(paths.input, "standard input");
        eprintln!(rt; "  {path}: {kind} {place}")?;
        return tell_advice(rt, row_numbered(number).unwrap_or(""), 2);
    }
    let (Refusal::Fault(fault) | Refusal::Judged(fault, _)) = refusal else {
        return Ok(());
    };
    let path = path_of(paths, fault);
    let is_system = fault == Fault::Read || fault == Fault::Write;
    match met.reason() {
        Some(error) if is_system => eprintln!(rt; "  {path}: {error}")?,
        _ => eprintln!(rt; "  {path}")?,
    }
    tell_advice(
        rt,
        row_of(fault),
        advice_place(fault, met).saturating_add(2),
    )
}

/// Prints on standard error what is known of a topic. Answers the exit status, 2 if no fault has
/// the number.
pub fn help(rt: &impl Eprint, topic: Topic) -> io::Result<u8>
    ensures { IfOk result (λ status. status ≤ 2) }
{
    match topic {
        Topic::Faults => {
            for number in 0..=LAST {
                if let Some(row) = row_numbered(number) {
                    let name = row.lines().next().unwrap_or("");
                    eprintln!(rt; "{name}")?;
                }
            }
            Ok(0)
        }
        Topic::Fault(number) => match row_numbered(number) {
            Some(row) => {
                eprintln!(rt; "{row}")?;
                Ok(0)
            }
            None => {
                eprintln!(rt; "ffv1: no fault is {number}: ffv1 help faults prints all")?;
                Ok(2)
            }
        },
    }
}
