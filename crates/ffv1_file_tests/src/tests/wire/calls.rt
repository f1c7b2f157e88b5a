//! What a wrapped reader or writer is asked: all of the room, or all bytes, by one call.

ghost use Rattle.std.specs.Prelude.{None};

use ffv1_wire::{ByteIn, ByteOut, FromRead, ToWrite};
use std::io;
use std::io::{Error, ErrorKind, Read, Write};

/// How many calls there were, and how many bytes the last one was about.
#[derive(Clone, Copy, Debug, PartialEq, Eq)]
struct Asked {
    calls: u64,
    length: usize,
}

/// A reader and writer that takes all, or fails at each call, and counts.
#[derive(Drop)]
struct Counting {
    asked: Asked,
    fails: bool,
}

impl Counting {
    fn new(fails: bool) -> Counting {
        let asked = Asked {
            calls: 0,
            length: 0,
        };
        Counting { asked, fails }
    }

    fn count(&mut self, length: usize) -> bool {
        self.asked = Asked {
            calls: self.asked.calls.wrapping_add(1),
            length,
        };
        self.fails
    }
}

impl Read for Counting {
    ghost remaining = { λ _. None };

    fn read(&mut self, buf: &mut [u8]) -> io::Result<usize> {
        if self.count(buf.len()) {
            return Err(Error::from(ErrorKind::Interrupted));
        }
        Ok(buf.len())
    }
}

impl Write for Counting {
    ghost contents = { λ _. None };

    fn write(&mut self, buf: &[u8]) -> io::Result<usize> {
        if self.count(buf.len()) {
            return Err(Error::from(ErrorKind::Interrupted));
        }
        Ok(buf.len())
    }

    fn flush(&mut self) -> io::Result<()> {
        Ok(())
    }
}

/// Reads into a room of 300 bytes: whether it is filled, and what the reader inside was asked.
fn read_once(fails: bool) -> (bool, Asked) {
    let mut input = FromRead::new(Counting::new(fails));
    let is_full = input.read(&mut [0; 300]).ok() == Some(300);
    (is_full, input.into_inner().asked)
}

/// Writes 300 bytes: whether all are written, and what the writer inside was asked.
fn write_once(fails: bool) -> (bool, Asked) {
    let mut output = ToWrite::new(Counting::new(fails));
    let are_written = output.write(&[0; 300]).ok() == Some(300);
    (are_written, output.into_inner().asked)
}

#[test]
fn one_call(rt: HostRuntime) {
    let asked = Asked {
        calls: 1,
        length: 300,
    };
    assert!(rt; read_once(false) == (true, asked));
    assert!(rt; read_once(true) == (false, asked));
    assert!(rt; write_once(false) == (true, asked));
    assert!(rt; write_once(true) == (false, asked));
}
