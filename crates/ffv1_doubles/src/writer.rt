//! Writers that fail.

ghost use Rattle.std.specs.Prelude.{Some};

use std::alloc::{Allocator, Global};
use std::io;
use std::io::{Error, ErrorKind, Write};

/// A writer that takes one byte at a time, and once, after so many calls, fails, or takes none
/// if it has no kind of failure.
#[derive(Drop)]
pub struct FailingWriter<A: Allocator = Global> {
    held: Vec<u8, A>,
    before: usize,
    kind: Option<ErrorKind>,
    calls: u64,
}

impl<A: Allocator> FailingWriter<A> {
    pub fn new(alloc: A, before: usize, kind: Option<ErrorKind>) -> FailingWriter<A> {
        FailingWriter {
            held: Vec::new(alloc),
            before,
            kind,
            calls: 0,
        }
    }

    pub fn held(&self) -> &[u8] {
        self.held.as_slice()
    }

    pub fn calls(&self) -> u64 {
        self.calls
    }
}

impl<A: Allocator> Write for FailingWriter<A> {
    ghost contents = { λ s. Some s.held.items };

    fn write(&mut self, buf: &[u8]) -> io::Result<usize> {
        self.calls = self.calls.wrapping_add(1);
        let before = self.before;
        self.before = before.wrapping_sub(1);
        if before == 0 {
            return match self.kind {
                Some(kind) => Err(Error::from(kind)),
                None => Ok(0),
            };
        }
        let n = buf.len().min(1);
        self.held.extend_from_slice(&buf[..n])?;
        Ok(n)
    }

    fn flush(&mut self) -> io::Result<()> {
        Ok(())
    }
}

/// A writer that takes so many bytes in all, a few at a time, and then none, or fails.
#[derive(Drop)]
pub struct ShortWriter<A: Allocator = Global> {
    held: Vec<u8, A>,
    room: usize,
    most: usize,
    end: Option<ErrorKind>,
}

impl<A: Allocator> ShortWriter<A> {
    pub fn new(alloc: A, room: usize, most: usize, end: Option<ErrorKind>) -> ShortWriter<A> {
        ShortWriter {
            held: Vec::new(alloc),
            room,
            most,
            end,
        }
    }

    pub fn held(&self) -> &[u8] {
        self.held.as_slice()
    }
}

impl<A: Allocator> Write for ShortWriter<A> {
    ghost contents = { λ s. Some s.held.items };

    fn write(&mut self, buf: &[u8]) -> io::Result<usize> {
        let n = buf.len().min(self.room).min(self.most);
        if n == 0 {
            if let Some(kind) = self.end {
                return Err(Error::from(kind));
            }
        }
        self.held.extend_from_slice(&buf[..n])?;
        self.room -= n;
        Ok(n)
    }

    fn flush(&mut self) -> io::Result<()> {
        Ok(())
    }
}
