//! One line of a file in place of those of its frames. What `check` writes is not printed, and no
//! more of it is kept than that line tells, or an object of JSON.

ghost use Rattle.std.specs.Prelude.{None};

use crate::met::Met;
use ffv1_video::Fault;
use ffv1_wire::{ByteOut, Failed};
use ffv1_words::is_hyphen;
use std::{fmt, io, str};

/// How many bytes are kept of a line: those of its first five words, which a number of 64 bits may
/// be, are fewer.
const KEPT: usize = 64;

/// A line, of which the first bytes are kept.
#[derive(Clone, Copy)]
struct Line {
    // Its first bytes, and spaces after its last one.
    bytes: [u8; KEPT],
    // How many bytes it has.
    length: usize,
}

impl Line {
    /// A line with no byte yet.
    fn new() -> Line {
        Line {
            bytes: [b' '; KEPT],
            length: 0,
        }
    }

    /// Adds a byte.
    fn add(&mut self, byte: u8) {
        if let Some(kept) = self.bytes.get_mut(self.length) {
            *kept = byte;
        }
        self.length = self.length.saturating_add(1);
    }

    /// A word of it, counted from 0; an empty one if there is none.
    fn word(&self, number: usize) -> &str {
        match str::from_utf8(&self.bytes) {
            Ok(text) => text.split(' ').nth(number).unwrap_or(""),
            Err(_) => "",
        }
    }

    /// Whether it tells a fault of the file that is passed.
    fn is_told(&self) -> bool {
        self.word(0) == "byte"
    }

    /// Whether it says where a fault is.
    fn says_place(&self) -> bool {
        self.word(0) == "fault" || self.is_told()
    }

    /// Where it says that a fault is.
    fn place(&self) -> Place<'_> {
        if !self.says_place() {
            return Place::Unknown;
        }
        if self.is_told() {
            let byte = self.word(1);
            return Place::Byte(byte.strip_suffix(':').unwrap_or(byte));
        }
        let kind = self.word(3);
        if kind == "slice" {
            Place::Slice(self.word(2), self.word(4))
        } else if kind == "byte" {
            Place::Byte(self.word(4))
        } else {
            Place::Unknown
        }
    }
}

/// Where a fault is, in the digits of its numbers.
#[derive(Clone, Copy)]
pub enum Place<'a> {
    /// In this frame, and in this slice of it.
    Slice(&'a str, &'a str),
    /// At this byte of the file.
    Byte(&'a str),
    /// It is not known.
    Unknown,
}

impl fmt::Display for Place<'_> {
    fn fmt<W: fmt::Write>(&self, f: &mut fmt::Formatter<W>) -> fmt::Result {
        match self {
            Place::Slice(frame, slice) => write!(f, " in frame {frame}, slice {slice}"),
            Place::Byte(byte) => write!(f, " at byte {byte}"),
            Place::Unknown => Ok(()),
        }
    }
}

/// A writer of lines, which keeps the last one that ended, and the first one of a fault's place.
#[derive(Drop)]
pub struct LastLines<'a> {
    met: &'a Met,
    // The line that has not ended.
    line: Line,
    // The last one that ended.
    last: Line,
    // The first one of a fault's place; one with no byte if there was none.
    first: Line,
    // Whether there was one of a fault of the file that is passed.
    told: bool,
}

impl<'a> LastLines<'a> {
    /// No line was written yet.
    pub fn new(met: &'a Met) -> LastLines<'a> {
        LastLines {
            met,
            line: Line::new(),
            last: Line::new(),
            first: Line::new(),
            told: false,
        }
    }

    /// Ends a line.
    fn end(&mut self) {
        if self.first.length == 0 && self.line.says_place() {
            self.first = self.line;
        }
        self.told = self.told || self.line.is_told();
        self.last = self.line;
        self.line = Line::new();
    }

    /// What is met in the file.
    pub(crate) fn met(&self) -> &'a Met {
        self.met
    }

    /// How many frames there are, if all were judged.
    pub(crate) fn frames(&self) -> &str {
        self.last.word(1)
    }

    /// How many faults there are, if all frames were judged and some fault was met.
    pub(crate) fn faults(&self) -> &str {
        self.last.word(3)
    }

    /// Where the first fault is.
    pub(crate) fn first_place(&self) -> Place<'_> {
        self.first.place()
    }

    /// Where a fault is that ended a check: as the last line says. If all frames were asked for
    /// that line may be of a frame before, or of a fault that was passed, and only a byte of the
    /// file is the fault's own.
    pub(crate) fn place(&self, all: bool) -> Place<'_> {
        if self.last.is_told() {
            return Place::Unknown;
        }
        match self.last.place() {
            Place::Slice(_, _) if all => Place::Unknown,
            place => place,
        }
    }
}

impl ByteOut for LastLines<'_> {
    ghost contents = { λ _. None };

    ghost failures = { λ _. 0 };

    fn write(&mut self, buf: &[u8]) -> Result<usize, Failed> {
        self.met.wrote(buf);
        for byte in buf {
            if *byte == b'\n' {
                self.end();
            } else {
                self.line.add(*byte);
            }
        }
        Ok(buf.len())
    }
}

/// Prints one line of a file that was checked: how many frames it has if all are sound; with `all`
/// how many are refused, and the first fault, or how many faults there are, if some are of the
/// file; or the fault that ended the check, and where it is if that is known. `answer` is what the
/// check answered, and `lines` has what it wrote, with places.
pub fn tell_line(
    rt: &impl Print,
    path: &str,
    lines: &LastLines<'_>,
    all: bool,
    answer: Result<Option<Fault>, Fault>,
) -> io::Result<()> {
    let path = if is_hyphen(path) {
        "standard input"
    } else {
        path
    };
    match answer {
        Ok(None) => {
            let frames = lines.frames();
            println!(rt; "{path}: sound, {frames} frames")
        }
        Ok(Some(fault)) => {
            let (frames, faults) = (lines.frames(), lines.faults());
            let place = lines.first_place();
            if lines.told {
                println!(rt; "{path}: {faults} faults in {frames} frames, the first {fault}{place}")
            } else {
                println!(rt;
                    "{path}: {faults} of {frames} frames refused, the first {fault}{place}"
                )
            }
        }
        Err(fault) => {
            let place = lines.place(all);
            println!(rt; "{path}: {fault}{place}")
        }
    }
}
