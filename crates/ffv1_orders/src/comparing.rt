//! What is compared with a list of MD5s, and what is printed of that.

use crate::refusal::Refusal;
use crate::telling::Telling;
use ffv1_words::is_hyphen;
use std::io;

/// What is compared, and how that is said.
#[derive(Clone, Copy)]
pub struct Comparing<'a> {
    /// The path of the file.
    pub input: &'a str,
    /// The path of the list.
    pub list: &'a str,
    /// What it prints of the file.
    pub told: Telling,
    /// Whether it says how much of the file is read.
    pub progress: bool,
    /// Whether a note of the file is a fault.
    pub notes_as_faults: bool,
}

/// Prints what came of comparing: how many frames there are, if all agree; in one line of the file
/// also what is refused.
pub fn print_answer(
    rt: &impl Print,
    path: &str,
    quiet: bool,
    frames: usize,
    done: Result<(), Refusal>,
) -> io::Result<()> {
    let path = if is_hyphen(path) {
        "standard input"
    } else {
        path
    };
    match done {
        Ok(()) if quiet => println!(rt; "{path}: sound, {frames} frames"),
        Ok(()) => println!(rt; "frames {frames}"),
        Err(_) if !quiet => Ok(()),
        Err(Refusal::Differs(frame)) => println!(rt; "{path}: 89 Differs in frame {frame}"),
        Err(Refusal::List(line)) => println!(rt; "{path}: 66 List in line {line}"),
        Err(refusal) => println!(rt; "{path}: {refusal}"),
    }
}
