//! Says on standard error how much of a file was read.

ghost use Rattle.std.specs.Prelude.{◌≡◌};

use crate::met::Met;
use ffv1_wire::{AgainIn, ByteIn, Failed};
use std::fmt;
use std::time::{Clock, Instant};

/// The seconds between two lines, at least.
const PAUSE: u64 = 1;

const MEBIBYTE: u64 = 1048576;

/// A reader that gives the bytes and the failures of another one, and tells at most once a second
/// how much was read since it began, or began again. If the clock fails it prints nothing, and a
/// line that cannot be printed is left out.
#[derive(Drop)]
pub struct Watched<'a, R, P> {
    inner: R,
    rt: &'a P,
    met: &'a Met,
    // When it was made; none if it prints nothing.
    begun: Option<Instant>,
    // How many seconds it had been there when it printed last; 0 if it has not.
    told: u64,
    // The same, of when it began again; 0 if it has not.
    since: u64,
    // How many bytes there are, if that is known.
    size: Option<u64>,
    read: u64,
}

impl<'a, R, P: Eprint + Clock> Watched<'a, R, P> {
    /// Wraps a reader. It prints only if `progress` asks for that.
    pub fn new(
        rt: &'a P,
        inner: R,
        size: Option<u64>,
        progress: bool,
        met: &'a Met,
    ) -> Watched<'a, R, P>
        ensures { result.inner ≡ inner }
    {
        let begun = if progress {
            Instant::now(rt).ok()
        } else {
            None
        };
        Watched {
            inner,
            rt,
            met,
            begun,
            told: 0,
            since: 0,
            size,
            read: 0,
        }
    }

    /// Counts bytes that were read, and tells of them when a second has passed.
    fn count(&mut self, bytes: u64)
        ensures { self.new.inner ≡ self.old.inner }
    {
        self.read = self.read.saturating_add(bytes);
        let Some(begun) = self.begun else {
            return;
        };
        let Ok(now) = Instant::now(self.rt) else {
            return;
        };
        let seconds = now.duration_since(begun).as_secs();
        if seconds.saturating_sub(self.told) >= PAUSE {
            self.told = seconds;
            let so_far = SoFar {
                read: self.read,
                size: self.size,
                frames: self.met.frames(),
                seconds: seconds.saturating_sub(self.since),
            };
            let _ = eprintln!(self.rt; "ffv1: {so_far}");
        }
    }
}

/// How far a file was read after so many seconds, at least one.
#[derive(Clone, Copy)]
struct SoFar {
    // How many bytes were read, and of how many, if that is known.
    read: u64,
    size: Option<u64>,
    // How many lines of frames were written.
    frames: u64,
    seconds: u64,
}

impl fmt::Display for SoFar {
    fn fmt<W: fmt::Write>(&self, f: &mut fmt::Formatter<W>) -> fmt::Result {
        let done = self.read / MEBIBYTE;
        write!(f, "read {done} MiB")?;
        if let Some(size) = self.size {
            let whole = size / MEBIBYTE;
            let share = self.read.saturating_mul(100) / size.max(1);
            let rest = size.saturating_sub(self.read);
            let left = rest.saturating_mul(self.seconds) / self.read.max(1);
            write!(f, " of {whole}, {share} %, {left} s left")?;
        }
        if self.frames > 0 {
            let rate = self.frames / self.seconds.max(1);
            write!(f, ", {rate} frames a second")?;
        }
        Ok(())
    }
}

impl<R: ByteIn, P: Eprint + Clock> ByteIn for Watched<'_, R, P> {
    ghost remaining = { λ s. R.remaining s.inner };

    ghost failures = { λ s. R.failures s.inner };

    fn read(&mut self, buf: &mut [u8]) -> Result<usize, Failed> {
        let count = self.inner.read(buf)?;
        self.count(count as u64);
        Ok(count)
    }
}

/// What is kept of such a reader where it stood: how much was read, and where the other one stood.
#[derive(Drop)]
pub struct WatchedStart<S> {
    inner: S,
    read: u64,
}

impl<R: AgainIn, P: Eprint + Clock> AgainIn for Watched<'_, R, P> {
    type Start = WatchedStart<R::Start>;

    ghost begins = { λ s. R.begins s.inner };

    ghost whole = { λ s. R.whole s.inner };

    fn start(&self) -> Option<WatchedStart<R::Start>> {
        match self.inner.start() {
            Some(inner) => Some(WatchedStart {
                inner,
                read: self.read,
            }),
            None => None,
        }
    }

    fn again(&mut self, start: &WatchedStart<R::Start>) -> Result<(), Failed> {
        self.inner.again(&start.inner)?;
        self.read = start.read;
        self.since = self.told;
        Ok(())
    }
}
