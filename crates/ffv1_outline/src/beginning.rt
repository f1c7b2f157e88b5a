//! The beginning of an input, kept in memory while the input is read.

ghost use Rattle.std.specs.Prelude.{◌≡◌, ◌≤◌, ◌<◌, IfOk, IfSome, OnErr, OnOk, drop, false, is_some};
ghost use Rattle.std.specs.Prelude.{length, min, take, true};
ghost use Rattle.std.specs.Io.{ReadsAtMost};
ghost use Rattle.std.specs.Io.KnownBytes.{Consumes, IsAtEnd, Keeps, ReadConsumes, prepend_known};
ghost use Rattle.ffv1_wire.specs.Failures.{Counted};
ghost use Rattle.ffv1_outline.specs.Beginnings.{Fails, Gives, IsBeginning, StandsAt, StaysThere};
ghost use Rattle.ffv1_outline.specs.Beginnings.{failures_behind, failures_of, inner_of, is_broken};
ghost use Rattle.ffv1_outline.specs.Beginnings.{kept, left_of, most, whole_of};

use ffv1_wire::{AgainIn, ByteIn, Failed};
use std::alloc::{AllocError, Allocator};

/// The most bytes that are kept.
const MOST: usize = 1048576;

/// A reader that gives what another one has, of which the beginning is kept: its first 1048576
/// bytes, or all if it has fewer. If a read fails before, those are kept that were read until then;
/// a read of this one then fails once where they end, and the next one goes on. It counts its own
/// failures.
#[derive(Drop)]
pub struct Beginning<'a, R> {
    bytes: &'a [u8],
    given: usize,
    fails: bool,
    failures: u64,
    inner: R,
}

/// Reads until `buf` is full, the input has ended or a read fails. It answers how many bytes stand
/// at its front, and whether a read failed, before it was full.
fn read_until<R: ByteIn>(input: &mut R, buf: &mut [u8]) -> (usize, bool)
    ensures long { length buf.new ≡ length buf.old }
    ensures bound { result.0 ≤ length buf.new }
    ensures bytes { Consumes (R.remaining input.old) (R.remaining input.new)
        (take result.0 buf.new) }
    ensures failed { result.1 ≡ true → result.0 < length buf.new }
    ensures whole { result.1 ≡ false → result.0 < length buf.new →
        IsAtEnd (R.remaining input.new) }
    ensures counted { R.failures input.new ≡ failures_behind result.1 (R.failures input.old) }
{
    let mut done = 0;
    while done < buf.len() {
        let Ok(n) = input.read(&mut buf[done..]) else {
            return (done, true);
        };
        if n == 0 {
            break;
        }
        done += n;
    }
    (done, false)
}

/// Copies to the front of `buf` as many bytes as there are and have room, and answers how many.
fn give(bytes: &[u8], buf: &mut [u8]) -> usize
    ensures many { result ≡ min (length bytes.now) (length buf.old) }
    ensures front { take result buf.new ≡ take result bytes.now }
    ensures long { length buf.new ≡ length buf.old }
{
    let len = bytes.len().min(buf.len());
    buf[..len].copy_from_slice(&bytes[..len]);
    len
}

impl<'a, R: ByteIn + Drop> Beginning<'a, R> {
    /// Reads the beginning of what a reader has, and keeps it in `bytes`, in the place of what
    /// stood there. Of the reader that this makes no read has failed yet, even if one of the other
    /// one did.
    ///
    /// An error is memory that was refused; then nothing was read.
    pub fn new<A: Allocator>(
        bytes: &'a mut Vec<u8, A>,
        inner: R,
    ) -> Result<Beginning<'a, R>, AllocError>
        ensures begins { IfOk result
            (λ b. IsBeginning (R.remaining inner) (is_broken b) (kept b)) }
        ensures few { IfOk result (λ b. length (kept b) ≤ most) }
        ensures same { IfOk result (λ b. Keeps (R.remaining inner) (left_of R.remaining b)) }
        ensures counted { IfOk result (λ b. R.failures (inner_of b)
            ≡ failures_behind (is_broken b) (R.failures inner)) }
        ensures none { IfOk result (λ b. failures_of b ≡ 0) }
    {
        bytes.resize(MOST, 0)?;
        let mut inner = inner;
        let (len, fails) = read_until(&mut inner, bytes.as_mut_slice());
        bytes.truncate(len);
        Ok(Beginning {
            bytes: bytes.as_slice(),
            given: 0,
            fails,
            failures: 0,
            inner,
        })
    }
}

impl<R> Beginning<'_, R> {
    /// The bytes that are kept, whatever was read of them since.
    pub fn bytes(&self) -> &[u8]
        ensures { result.now ≡ kept self.now }
    {
        self.bytes
    }
}

impl<R: ByteIn> ByteIn for Beginning<'_, R> {
    ghost remaining = { λ s. prepend_known (drop s.given s.bytes.now) (R.remaining s.inner) };

    ghost failures = { λ s. s.failures };

    fn read(&mut self, buf: &mut [u8]) -> Result<usize, Failed>
        ensures bound { ReadsAtMost result buf.new }
        ensures bytes { ReadConsumes (left_of R.remaining self.old) (left_of R.remaining self.new)
            result buf.new }
        ensures counted { Counted (failures_of self.old) (failures_of self.new) result }
        ensures gives { OnOk result (Gives R.failures self.old self.new) }
        ensures fails { OnErr result (Fails R.failures self.old self.new) }
    {
        if self.given < self.bytes.len() {
            let len = give(&self.bytes[self.given..], buf);
            self.given += len;
            return Ok(len);
        }
        if self.fails {
            self.fails = false;
            self.failures = self.failures.wrapping_add(1);
            return Err(Failed);
        }
        match self.inner.read(buf) {
            Ok(n) => Ok(n),
            Err(_) => {
                self.failures = self.failures.wrapping_add(1);
                Err(Failed)
            }
        }
    }
}

/// What is kept of such a reader where it stood: how many of the kept bytes were given, whether a
/// read was still to fail where they end, and where the reader inside stood.
#[derive(Drop)]
pub struct BeginningStart<'a, S> {
    bytes: &'a [u8],
    given: usize,
    fails: bool,
    inner: S,
}

/// It begins again if the reader inside can, which then stands where it stood: the kept bytes that
/// were not given yet are given once more before, and if a read was still to fail where they end,
/// one fails there once more.
impl<'a, R: AgainIn> AgainIn for Beginning<'a, R> {
    type Start = BeginningStart<'a, R::Start>;

    ghost begins = { λ s. R.begins s.inner };

    ghost whole = { λ s. prepend_known (drop s.given s.bytes.now) (R.whole s.inner) };

    fn start(&self) -> Option<BeginningStart<'a, R::Start>>
        ensures able { is_some result ≡ R.begins (inner_of self.now) }
        ensures there { IfSome result (λ start. whole_of R.whole start ≡
            left_of R.remaining self.now) }
        ensures stands { IfSome result (StandsAt self.now) }
    {
        match self.inner.start() {
            Some(inner) => Some(BeginningStart {
                bytes: self.bytes,
                given: self.given,
                fails: self.fails,
                inner,
            }),
            None => None,
        }
    }

    fn again(&mut self, start: &BeginningStart<'a, R::Start>) -> Result<(), Failed>
        ensures done { OnOk result (left_of R.remaining self.new ≡ whole_of R.whole start.now) }
        ensures kept { OnErr result
            (left_of R.remaining self.new ≡ left_of R.remaining self.old) }
        ensures counted { Counted (failures_of self.old) (failures_of self.new) result }
        ensures stands { OnOk result (StandsAt self.new start.now) }
        ensures stays { OnErr result (StaysThere self.old self.new) }
    {
        if self.inner.again(&start.inner).is_err() {
            self.failures = self.failures.wrapping_add(1);
            return Err(Failed);
        }
        self.bytes = start.bytes;
        self.given = start.given;
        self.fails = start.fails;
        Ok(())
    }
}
