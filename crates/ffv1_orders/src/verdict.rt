//! What became of a file, as an object of JSON (RFC 8259) on a line.

ghost use Rattle.std.specs.Prelude.{◌≡◌, ◌⊎◌, IfErr};
ghost use Rattle.ffv1_orders.specs.declared.refusal.Refusal.TheVariants as refusal;
ghost use Rattle.ffv1_video.specs.declared.fault.Fault.TheVariants as fault;

use crate::met::Met;
use crate::quiet::{LastLines, Place};
use crate::refusal::Refusal;
use crate::told::known_of;
use ffv1_video::Fault;
use serde::Serialize;
use std::alloc::Global;

/// A fault, and where it is as far as that is known: in a frame of the file, in a slice of that, at
/// a byte of the file, or in a line of a list of MD5s.
#[derive(Clone, Copy, Serialize)]
pub struct Told<'a> {
    number: u64,
    name: &'a str,
    frame: Option<u64>,
    slice: Option<u64>,
    byte: Option<u64>,
    line: Option<u64>,
}

/// The number of a decimal numeral.
fn number(digits: &str) -> Option<u64> {
    digits.parse::<u64>().ok()
}

impl<'a> Told<'a> {
    /// A fault by its number and name.
    fn new(known: &'a str) -> Told<'a> {
        let first = known.lines().next().unwrap_or("");
        let (digits, name) = first.split_once(' ').unwrap_or(("", ""));
        Told {
            number: number(digits).unwrap_or(0),
            name,
            frame: None,
            slice: None,
            byte: None,
            line: None,
        }
    }

    /// A fault of a file, which is there.
    fn at(fault: Fault, place: Place<'_>) -> Told<'static> {
        let told = Told::new(known_of(Refusal::Fault(fault)));
        match place {
            Place::Slice(frame, slice) => Told {
                frame: number(frame),
                slice: number(slice),
                ..told
            },
            Place::Byte(byte) => Told {
                byte: number(byte),
                ..told
            },
            Place::Unknown => told,
        }
    }

    /// Why an order is not done, with the frame or the line that it names.
    pub fn of(refusal: Refusal) -> Told<'static> {
        let told = Told::new(known_of(refusal));
        match refusal {
            Refusal::Differs(frame) => Told {
                frame: Some(frame),
                ..told
            },
            Refusal::List(line) => Told {
                line: Some(line),
                ..told
            },
            Refusal::Fault(_) | Refusal::Judged(_, _) => told,
            Refusal::OneFile | Refusal::Exists | Refusal::Notes(_) => told,
        }
    }
}

/// What became of a file that was checked. How many frames it has, and how many faults, is known if
/// its check came to the end.
#[derive(Clone, Copy, Serialize)]
struct Verdict<'a> {
    path: &'a str,
    sound: bool,
    frames: Option<u64>,
    faults: Option<u64>,
    fault: Option<Told<'static>>,
}

/// Prints an object on a line: `Write` if it cannot be printed, `OutOfMemory` if memory of it is
/// refused.
fn print_object<T: Serialize>(
    rt: &impl Print,
    alloc: Global,
    met: &Met,
    object: &T,
) -> Result<(), Refusal>
    ensures { IfErr result (λ r.
        (r ≡ refusal.Fault fault.Write) ⊎ (r ≡ refusal.Fault fault.OutOfMemory)) }
{
    match serde_json::to_string(alloc, object) {
        Ok(text) => met.printed(println!(rt; "{text}")),
        Err(_) => Err(Refusal::Fault(Fault::OutOfMemory)),
    }
}

/// Prints the beginning of an object of facts: the path. `Write` and `OutOfMemory` as an object is.
pub fn print_beginning(rt: &impl Print, alloc: Global, met: &Met, path: &str) -> Result<(), Refusal>
    ensures { IfErr result (λ r.
        (r ≡ refusal.Fault fault.Write) ⊎ (r ≡ refusal.Fault fault.OutOfMemory)) }
{
    match serde_json::to_string(alloc, &path) {
        Ok(text) => met.printed(print!(rt; "{{\"path\":{text}")),
        Err(_) => Err(Refusal::Fault(Fault::OutOfMemory)),
    }
}

/// Prints the end of an object of facts: why the file is refused, if it is. `Write` and
/// `OutOfMemory` as an object is.
pub fn print_end(
    rt: &impl Print,
    alloc: Global,
    met: &Met,
    done: Result<(), Refusal>,
) -> Result<(), Refusal>
    ensures { IfErr result (λ r.
        (r ≡ refusal.Fault fault.Write) ⊎ (r ≡ refusal.Fault fault.OutOfMemory)) }
{
    let told = match done {
        Ok(()) => None,
        Err(refusal) => Some(Told::of(refusal)),
    };
    match serde_json::to_string(alloc, &told) {
        Ok(text) => met.printed(println!(rt; ",\"fault\":{text}}}")),
        Err(_) => Err(Refusal::Fault(Fault::OutOfMemory)),
    }
}

/// Prints an object of a file that was checked. `answer` is what the check answered, and `lines`
/// has what it wrote, with places. `Write` and `OutOfMemory` as that object is.
pub fn tell_object(
    rt: &impl Print,
    alloc: Global,
    path: &str,
    lines: &LastLines<'_>,
    all: bool,
    answer: Result<Option<Fault>, Fault>,
) -> Result<(), Refusal>
    ensures { IfErr result (λ r.
        (r ≡ refusal.Fault fault.Write) ⊎ (r ≡ refusal.Fault fault.OutOfMemory)) }
{
    let verdict = match answer {
        Ok(None) => Verdict {
            path,
            sound: true,
            frames: number(lines.frames()),
            faults: Some(0),
            fault: None,
        },
        Ok(Some(fault)) => Verdict {
            path,
            sound: false,
            frames: number(lines.frames()),
            faults: number(lines.faults()),
            fault: Some(Told::at(fault, lines.first_place())),
        },
        Err(fault) => Verdict {
            path,
            sound: false,
            frames: None,
            faults: None,
            fault: Some(Told::at(fault, lines.place(all))),
        },
    };
    print_object(rt, alloc, lines.met(), &verdict)
}

/// Prints an object of a file that was compared with a list of so many MD5s, or of the list.
/// `Write` and `OutOfMemory` as that object is.
pub fn tell_compared(
    rt: &impl Print,
    alloc: Global,
    met: &Met,
    path: &str,
    frames: usize,
    done: Result<(), Refusal>,
) -> Result<(), Refusal>
    ensures { IfErr result (λ r.
        (r ≡ refusal.Fault fault.Write) ⊎ (r ≡ refusal.Fault fault.OutOfMemory)) }
{
    let verdict = match done {
        Ok(()) => Verdict {
            path,
            sound: true,
            frames: Some(frames as u64),
            faults: Some(0),
            fault: None,
        },
        Err(refusal) => Verdict {
            path,
            sound: false,
            frames: None,
            faults: None,
            fault: Some(Told::of(refusal)),
        },
    };
    print_object(rt, alloc, met, &verdict)
}
