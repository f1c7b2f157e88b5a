//! Readers that fail.

ghost use Rattle.std.specs.Prelude.{Some};

use std::io;
use std::io::{Error, ErrorKind, Read, Seek, SeekFrom};

/// A reader that gives a few bytes at a time, and fails once, after so many calls.
#[derive(Drop)]
pub struct FailingReader<'a> {
    rest: &'a [u8],
    before: usize,
    most: usize,
    kind: ErrorKind,
    calls: u64,
}

impl<'a> FailingReader<'a> {
    /// Gives `rest`, at most `most` bytes a call (one if that is 0), and fails by `kind` once,
    /// after `before` calls.
    pub fn new(rest: &'a [u8], before: usize, most: usize, kind: ErrorKind) -> FailingReader<'a> {
        FailingReader {
            rest,
            before,
            most,
            kind,
            calls: 0,
        }
    }

    /// How many bytes are left.
    pub fn rest(&self) -> usize {
        self.rest.len()
    }

    /// How many calls there were, failed ones too.
    pub fn calls(&self) -> u64 {
        self.calls
    }
}

impl Read for FailingReader<'_> {
    ghost remaining = { λ s. Some s.rest.now };

    fn read(&mut self, buf: &mut [u8]) -> io::Result<usize> {
        self.calls = self.calls.wrapping_add(1);
        let before = self.before;
        self.before = before.wrapping_sub(1);
        if before == 0 {
            return Err(Error::from(self.kind));
        }
        let most = buf.len().min(self.most.max(1));
        self.rest.read(&mut buf[..most])
    }
}

/// A reader that gives some bytes, and fails from then on.
#[derive(Drop)]
pub struct BrokenReader<'a> {
    rest: &'a [u8],
}

impl<'a> BrokenReader<'a> {
    /// Gives `rest`, and fails after it.
    pub fn new(rest: &'a [u8]) -> BrokenReader<'a> {
        BrokenReader { rest }
    }
}

impl Read for BrokenReader<'_> {
    ghost remaining = { λ s. Some s.rest.now };

    fn read(&mut self, buf: &mut [u8]) -> io::Result<usize> {
        if self.rest.is_empty() {
            return Err(Error::from(ErrorKind::Other));
        }
        self.rest.read(buf)
    }
}

/// What stands for a file: a reader that can be sought in, to a place from its begin, so many
/// times; each seek after these fails.
#[derive(Drop)]
pub struct SoughtReader<'a> {
    text: &'a [u8],
    rest: &'a [u8],
    seeks: usize,
}

impl<'a> SoughtReader<'a> {
    /// Stands at the begin of `text`, and can be sought in `seeks` times.
    pub fn new(text: &'a [u8], seeks: usize) -> SoughtReader<'a> {
        SoughtReader {
            text,
            rest: text,
            seeks,
        }
    }

    /// How many seeks are left.
    pub fn seeks(&self) -> usize {
        self.seeks
    }
}

impl Read for SoughtReader<'_> {
    ghost remaining = { λ s. Some s.rest.now };

    fn read(&mut self, buf: &mut [u8]) -> io::Result<usize> {
        self.rest.read(buf)
    }
}

impl Seek for SoughtReader<'_> {
    fn seek(&mut self, to: SeekFrom) -> io::Result<u64> {
        let place = match to {
            SeekFrom::Start(place) => place,
            _ => return Err(Error::from(ErrorKind::Unsupported)),
        };
        if self.seeks == 0 {
            return Err(Error::from(ErrorKind::Other));
        }
        self.seeks -= 1;
        let place = place.min(self.text.len() as u64);
        self.rest = &self.text[place as usize..];
        Ok(place)
    }
}
