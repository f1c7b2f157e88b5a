//! What is met in the files of an order: the first bytes of IN, and why the system refused a call.

ghost use Rattle.std.specs.Prelude.{◌≡◌, IfErr};
ghost use Rattle.ffv1_orders.specs.declared.refusal.Refusal.TheVariants as refusal;
ghost use Rattle.ffv1_video.specs.declared.fault.Fault.TheVariants as fault;

use crate::refusal::Refusal;
use ffv1_video::Fault;
use std::cell::Cell;
use std::io;
use std::io::{Error, Read, Seek, SeekFrom, Write};

/// How many of the first bytes are kept.
const KEPT: usize = 12;

/// What a file is by its first bytes.
#[derive(Clone, Copy, PartialEq, Eq)]
pub enum Beginning {
    /// QuickTime or MP4.
    QuickTime,
    /// Matroska.
    Matroska,
    /// AVI.
    Avi,
    /// No byte was read.
    Nothing,
    /// None of these.
    Other,
}

/// What was met in the files of an order.
#[derive(Drop)]
pub struct Met {
    // The system's number of the last call that it refused; 0 if there is none.
    code: Cell<i32>,
    // The first bytes that were read of IN.
    head: Cell<[u8; KEPT]>,
    // How many bytes were read of it.
    read: Cell<u64>,
    // How many lines of its frames were written.
    frames: Cell<u64>,
}

impl Met {
    /// Nothing was met yet.
    pub fn new() -> Met {
        Met {
            code: Cell::new(0),
            head: Cell::new([0; KEPT]),
            read: Cell::new(0),
            frames: Cell::new(0),
        }
    }

    /// Forgets what was met, before another file.
    pub fn clear(&self) {
        self.code.set(0);
        self.head.set([0; KEPT]);
        self.read.set(0);
        self.frames.set(0);
    }

    /// Keeps why the system refused a call.
    pub(crate) fn refused(&self, error: &Error) {
        self.code.set(error.raw_os_error().unwrap_or(0));
    }

    /// What becomes of an order whose line was printed so: `Write` if it could not be, and then it
    /// keeps why.
    pub fn printed(&self, printed: io::Result<()>) -> Result<(), Refusal>
        ensures { IfErr result (λ r. r ≡ refusal.Fault fault.Write) }
    {
        if let Err(error) = printed {
            self.refused(&error);
            return Err(Refusal::Fault(Fault::Write));
        }
        Ok(())
    }

    /// The system's number of the last call that it refused; 0 if it refused none.
    pub(crate) fn code(&self) -> i32 {
        self.code.get()
    }

    /// Why the system refused the last call that it refused.
    pub(crate) fn reason(&self) -> Option<Error> {
        match self.code.get() {
            0 => None,
            code => Some(Error::from_raw_os_error(code)),
        }
    }

    /// Counts bytes that were read of IN, and keeps the first of them.
    fn took(&self, bytes: &[u8]) {
        let read = self.read.get();
        self.read.set(read.saturating_add(bytes.len() as u64));
        if read >= KEPT as u64 {
            return;
        }
        let mut head = self.head.get();
        for (byte, place) in bytes.iter().zip(read as usize..KEPT) {
            if let Some(kept) = head.get_mut(place) {
                *kept = *byte;
            }
        }
        self.head.set(head);
    }

    /// Counts a line that was written, if it is of a frame.
    pub(crate) fn wrote(&self, line: &[u8]) {
        if line.starts_with(b"frame ") {
            self.frames.set(self.frames.get().saturating_add(1));
        }
    }

    /// How many lines of frames were written.
    pub(crate) fn frames(&self) -> u64 {
        self.frames.get()
    }

    /// Whether IN begins as YUV4MPEG2 does.
    pub fn is_text(&self) -> bool {
        self.head.get().starts_with(b"Y")
    }

    /// What IN is by its first bytes.
    pub(crate) fn beginning(&self) -> Beginning {
        if self.read.get() == 0 {
            return Beginning::Nothing;
        }
        let head = self.head.get();
        let kind = [head[4], head[5], head[6], head[7]];
        if kind == *b"ftyp" || kind == *b"moov" || kind == *b"mdat" || kind == *b"wide" {
            return Beginning::QuickTime;
        }
        if head.starts_with(&[0x1A, 0x45, 0xDF, 0xA3]) {
            return Beginning::Matroska;
        }
        if head.starts_with(b"RIFF") && head.ends_with(b"AVI ") {
            Beginning::Avi
        } else {
            Beginning::Other
        }
    }
}

/// What reads or writes, of which it is kept what is met.
#[derive(Drop)]
pub struct Noted<'a, T> {
    inner: T,
    met: &'a Met,
}

impl<'a, T> Noted<'a, T> {
    /// Wraps a reader or a writer.
    pub fn new(met: &'a Met, inner: T) -> Noted<'a, T>
        ensures { result.inner ≡ inner }
    {
        Noted { inner, met }
    }
}

impl<R: Read> Read for Noted<'_, R> {
    ghost remaining = { λ s. R.remaining s.inner };

    fn read(&mut self, buf: &mut [u8]) -> io::Result<usize> {
        match self.inner.read(buf) {
            Ok(count) => {
                self.met.took(&buf[..count]);
                Ok(count)
            }
            Err(error) => {
                self.met.refused(&error);
                Err(error)
            }
        }
    }
}

impl<W: Write> Write for Noted<'_, W> {
    ghost contents = { λ s. W.contents s.inner };

    fn write(&mut self, buf: &[u8]) -> io::Result<usize> {
        match self.inner.write(buf) {
            Ok(count) => {
                self.met.wrote(&buf[..count]);
                Ok(count)
            }
            Err(error) => {
                self.met.refused(&error);
                Err(error)
            }
        }
    }

    fn flush(&mut self) -> io::Result<()> {
        self.inner.flush()
    }
}

impl<S: Seek> Seek for Noted<'_, S> {
    fn seek(&mut self, to: SeekFrom) -> io::Result<u64> {
        self.inner.seek(to)
    }
}
