//! Readers that can begin again.

ghost use Rattle.std.specs.Prelude.{◌≡◌, ℕ, Bool, false, List, Option, None, IfSome, OnErr, OnOk};
ghost use Rattle.std.specs.Prelude.{is_some};
ghost use Rattle.ffv1_wire.specs.Failures.{Counted};
ghost use Rattle.ffv1_wire.specs.Wrappers.{begins_again, failed_file_reads};

use crate::Failed;
use crate::read::{ByteIn, FromRead};
use std::io::{Read, Seek, SeekFrom};

/// A reader that may begin again where it stood, as a file does and a pipe can't.
pub trait AgainIn: ByteIn {
    /// What it keeps of where it stood.
    type Start: Drop;

    /// Whether it can begin again.
    ghost begins: { Self → Bool };

    /// The bytes that reads gave from there on, if they are known.
    ghost whole: { Self.Start → Option (List ℕ) };

    /// Keeps where it stands, so that it can begin again there; None if it can't.
    fn start(&self) -> Option<Self::Start>
        ensures able { is_some result ≡ begins self.now }
        ensures there { IfSome result (λ start. whole start ≡ Self.remaining self.now) };

    /// Begins again where it stood: reads give the same bytes once more. A failure leaves it where
    /// it is, and is counted.
    fn again(&mut self, start: &Self::Start) -> Result<(), Failed>
        ensures done { OnOk result (Self.remaining self.new ≡ whole start.now) }
        ensures kept { OnErr result (Self.remaining self.new ≡ Self.remaining self.old) }
        ensures counted { Counted (Self.failures self.old) (Self.failures self.new) result };
}

/// A reader of std's does not begin again.
impl<R: Read> AgainIn for FromRead<R> {
    type Start = ();

    ghost begins = { λ _. false };

    ghost whole = { λ _. None };

    fn start(&self) -> Option<()> {
        None
    }

    fn again(&mut self, _start: &()) -> Result<(), Failed> {
        self.failures = self.failures.wrapping_add(1);
        Err(Failed)
    }
}

/// A file of std's, or what else can be sought in. Which bytes it gives is not known to proofs: std
/// says nothing that joins its position to them. Any error, `Interrupted` too, is a failure.
#[derive(Drop)]
pub struct FromFile<F> {
    pub(crate) inner: FromRead<F>,
    pub(crate) begins: bool,
    // How many bytes were read since its begin.
    read: u64,
}

impl<F> FromFile<F> {
    /// Wraps a file that stands at its begin, of which no read has failed yet. It can begin again
    /// if `begins` says so.
    pub fn new(inner: F, begins: bool) -> FromFile<F>
        ensures begins { begins_again result ≡ begins }
        ensures none { failed_file_reads result ≡ 0 }
    {
        FromFile {
            inner: FromRead::new(inner),
            begins,
            read: 0,
        }
    }
}

impl<F: Read> ByteIn for FromFile<F> {
    ghost remaining = { λ _. None };

    ghost failures = { λ s. s.inner.failures };

    fn read(&mut self, buf: &mut [u8]) -> Result<usize, Failed> {
        let count = self.inner.read(buf)?;
        self.read = self.read.saturating_add(count as u64);
        Ok(count)
    }
}

impl<F: Read + Seek> AgainIn for FromFile<F> {
    type Start = u64;

    ghost begins = { λ s. s.begins };

    ghost whole = { λ _. None };

    fn start(&self) -> Option<u64> {
        if self.begins { Some(self.read) } else { None }
    }

    fn again(&mut self, start: &u64) -> Result<(), Failed> {
        if self.inner.inner.seek(SeekFrom::Start(*start)).is_ok() {
            self.read = *start;
            return Ok(());
        }
        self.inner.failures = self.inner.failures.wrapping_add(1);
        Err(Failed)
    }
}
