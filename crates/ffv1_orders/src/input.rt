//! Where bytes are read from, a file or standard input, and what opens files.

ghost use Rattle.std.specs.Prelude.{◌≡◌, ◌⊎◌, ℕ, List, IfErr, IfOk, OnErr};
ghost use Rattle.std.specs.Prelude.{option_to_list};
ghost use Rattle.std.specs.Io.KnownBytes.{prepend_known};
ghost use Rattle.ffv1_orders.specs.Statuses.{IsMakingRefusal};
ghost use Rattle.ffv1_orders.specs.declared.making.Making.{Making};
ghost use Rattle.ffv1_orders.specs.declared.refusal.Refusal.{Refusal};
ghost use Rattle.ffv1_video.specs.declared.fault.Fault.{Fault};
ghost use Rattle.ffv1_video.specs.declared.fault.Fault.TheVariants as fault;

use crate::making::Making;
use crate::met::{Met, Noted};
use crate::output::{Target, open_output};
use crate::progress::Watched;
use crate::refusal::Refusal;
use either::{Either, Left, Right};
use ffv1_video::Fault;
use ffv1_wire::{AgainIn, ByteIn, Failed, FromFile, FromRead, PatchOut, ToFile, ToWrite};
use ffv1_words::is_hyphen;
use std::alloc::Global;
use std::fs::{Metadata, OpenFile};
use std::io::{BufReader, ErrorKind, Input, Read, Seek, SeekFrom};
use std::rt::Files;
use std::time::Clock;
use std::{fs, io};

/// Standard input, which can't be sent to a place.
#[derive(Drop)]
pub struct Piped<R> {
    inner: R,
}

impl<R: Read> Read for Piped<R> {
    ghost remaining = { λ s. R.remaining s.inner };

    fn read(&mut self, buf: &mut [u8]) -> io::Result<usize> {
        self.inner.read(buf)
    }
}

impl<R> Seek for Piped<R> {
    fn seek(&mut self, _to: SeekFrom) -> io::Result<u64> {
        Err(io::Error::from(ErrorKind::NotSeekable))
    }
}

/// A file, or standard input.
pub type Given<'a, H> = Noted<'a, Either<<H as Files>::File, Piped<<H as Input>::Reader>>>;

/// A reader of a file, or of standard input.
pub type Source<'a, H> = FromFile<Given<'a, H>>;

/// Opens IN, and tells what it is if that is known: of `-`, standard input is opened. `Read`
/// if it cannot be opened.
fn open_given<'a, H: Files + Input>(
    rt: &H,
    path: &str,
    met: &'a Met,
) -> Result<(Given<'a, H>, Option<Metadata>), Fault>
    ensures { IfErr result (λ f. f ≡ fault.Read) }
{
    if is_hyphen(path) {
        let source = Noted::new(met, Right(Piped { inner: rt.reader() }));
        return Ok((source, fs::metadata(rt, "/dev/stdin").ok()));
    }
    match fs::open(rt, path) {
        Ok(file) => {
            let metadata = file.metadata().ok();
            Ok((Noted::new(met, Left(file)), metadata))
        }
        Err(error) => {
            met.refused(&error);
            Err(Fault::Read)
        }
    }
}

/// Whether a file can begin again: a regular one can, and standard input can't.
fn begins_again(path: &str, metadata: &Option<Metadata>) -> bool {
    match metadata {
        Some(metadata) => metadata.is_file() && !is_hyphen(path),
        None => false,
    }
}

/// A reader of IN, as `open_given` opens it, and what it is if that is known.
pub fn open_input<'a, H: Files + Input>(
    rt: &H,
    path: &str,
    met: &'a Met,
) -> Result<(Source<'a, H>, Option<Metadata>), Fault>
    ensures { IfErr result (λ f. f ≡ fault.Read) }
{
    let (given, metadata) = open_given(rt, path, met)?;
    let begins = begins_again(path, &metadata);
    Ok((FromFile::new(given, begins), metadata))
}

/// Wraps a reader of IN so that it tells how much was read, if that is asked for.
pub fn watched<'a, H: Files + Input + Eprint + Clock>(
    rt: &'a H,
    source: Source<'a, H>,
    metadata: &Option<Metadata>,
    progress: bool,
    met: &'a Met,
) -> Watched<'a, Source<'a, H>, H> {
    let size = match metadata {
        Some(metadata) if metadata.is_file() => Some(metadata.len()),
        _ => None,
    };
    Watched::new(rt, source, size, progress, met)
}

/// A reader of a list, which reads more at a time than a list is asked for.
pub type ListSource<'a, H> = FromRead<BufReader<Given<'a, H>>>;

/// A writer of OUT, which is written over if it is a regular file.
pub type Written<'a, H> = ToFile<ToWrite<Target<'a, H>>>;

/// What opens files, and makes them.
pub trait Opens {
    /// What reads a file.
    type Reader: AgainIn + Drop;

    /// What reads a list.
    type Lines: ByteIn + Drop;

    /// What writes a file.
    type Writer: PatchOut + Drop;

    /// A file was opened: what opens it, the bytes of its path, and its reader.
    ghost opens: { Self → List ℕ → Self.Reader → Type 0 };

    /// A file could not be opened: what opens it, and the bytes of its path.
    ghost misses: { Self → List ℕ → Type 0 };

    /// A list was opened: what opens it, the bytes of its path, and its reader.
    ghost lists: { Self → List ℕ → Self.Lines → Type 0 };

    /// A list could not be opened: what opens it, the bytes of its path, and why.
    ghost lacks: { Self → List ℕ → Fault → Type 0 };

    /// A file was made: what makes it, the bytes of its path, and its writer.
    ghost makes: { Self → List ℕ → Self.Writer → Type 0 };

    /// A file could not be opened, or the other one not made: what does that, what the command is
    /// given, and why.
    ghost refuses: { Self → Making → Refusal → Type 0 };

    /// Opens the file of a path, whose reader tells how much was read if `progress` asks for that.
    /// `Read` if it cannot be opened.
    fn open(&self, path: &str, progress: bool) -> Result<Self::Reader, Fault>
        ensures opened { IfOk result (opens self.now path.now) }
        ensures missed { OnErr result (misses self.now path.now) }
        ensures refused { IfErr result (λ f. f ≡ fault.Read) };

    /// Opens the list of a path. `Read` if it cannot be opened, `OutOfMemory` if memory of its
    /// reader is refused.
    fn open_list(&self, alloc: Global, path: &str) -> Result<Self::Lines, Fault>
        ensures listed { IfOk result (lists self.now path.now) }
        ensures lacked { IfErr result (lacks self.now path.now) }
        ensures refused { IfErr result (λ f. (f ≡ fault.Read) ⊎ (f ≡ fault.OutOfMemory)) };

    /// Opens IN, and then makes OUT, or opens it if it is there. They are refused if IN cannot be
    /// opened, if both are one file, if OUT is there and is to be kept, or if it cannot be made.
    fn make(&self, files: &Making<'_>) -> Result<(Self::Reader, Self::Writer), Refusal>
        ensures opened { IfOk result (λ both. opens self.now files.now.input.now both.0) }
        ensures made { IfOk result (λ both. makes self.now files.now.output.now both.1) }
        ensures missed { IfErr result (refuses self.now files.now) }
        ensures refused { IfErr result (IsMakingRefusal files.now.no_clobber) };
}

/// What opens and makes them by the calls of the system; of `-` standard input and output.
#[derive(Drop)]
pub struct SystemFiles<'a, H> {
    /// The system.
    pub rt: &'a H,
    /// What is met in them.
    pub met: &'a Met,
}

impl<'a, H: Files + Input + Print + Eprint + Clock> Opens for SystemFiles<'a, H> {
    type Reader = Watched<'a, Source<'a, H>, H>;

    type Lines = ListSource<'a, H>;

    type Writer = Written<'a, H>;

    ghost opens = { λ _ _ _. Unit {0} };

    ghost misses = { λ _ _. Unit {0} };

    ghost lists = { λ _ _ _. Unit {0} };

    ghost lacks = { λ _ _ _. Unit {0} };

    ghost makes = { λ _ _ _. Unit {0} };

    ghost refuses = { λ _ _ _. Unit {0} };

    fn open(&self, path: &str, progress: bool) -> Result<Watched<'a, Source<'a, H>, H>, Fault> {
        let (source, metadata) = open_input(self.rt, path, self.met)?;
        Ok(watched(self.rt, source, &metadata, progress, self.met))
    }

    fn open_list(&self, alloc: Global, path: &str) -> Result<ListSource<'a, H>, Fault> {
        let (given, _) = open_given(self.rt, path, self.met)?;
        match BufReader::new(alloc, given) {
            Ok(buffered) => Ok(FromRead::new(buffered)),
            Err(_) => Err(Fault::OutOfMemory),
        }
    }

    fn make(
        &self,
        files: &Making<'_>,
    ) -> Result<(Watched<'a, Source<'a, H>, H>, Written<'a, H>), Refusal> {
        let Making {
            input,
            output,
            no_clobber,
            progress,
        } = *files;
        let (source, metadata) = open_input(self.rt, input, self.met)?;
        let target = open_output(self.rt, output, &metadata, no_clobber, self.met)?;
        let reader = watched(self.rt, source, &metadata, progress, self.met);
        Ok((reader, ToFile::new(target)))
    }
}

/// A reader that gives a byte once more, which was read of another one, and then the bytes and the
/// failures of that one.
#[derive(Drop)]
pub struct Again<R> {
    /// The byte that it gives once more; none once it has.
    pub first: Option<u8>,
    /// The other reader.
    pub inner: R,
}

impl<R> Again<R> {
    /// Wraps a reader of which this byte was read; of none the input has ended.
    pub fn new(first: Option<u8>, inner: R) -> Again<R>
        ensures first { result.first ≡ first }
        ensures inner { result.inner ≡ inner }
    {
        Again { first, inner }
    }
}

impl<R: ByteIn> ByteIn for Again<R> {
    ghost remaining = { λ s. prepend_known (option_to_list s.first) (R.remaining s.inner) };

    ghost failures = { λ s. R.failures s.inner };

    fn read(&mut self, buf: &mut [u8]) -> Result<usize, Failed> {
        let Some(byte) = self.first else {
            return self.inner.read(buf);
        };
        if buf.is_empty() {
            return Ok(0);
        }
        buf[0] = byte;
        self.first = None;
        Ok(1)
    }
}

/// What is kept of such a reader where it stood: the byte that it gives, and where the other one
/// stood.
#[derive(Drop)]
pub struct AgainStart<S> {
    first: Option<u8>,
    inner: S,
}

impl<R: AgainIn> AgainIn for Again<R> {
    type Start = AgainStart<R::Start>;

    ghost begins = { λ s. R.begins s.inner };

    ghost whole = { λ s. prepend_known (option_to_list s.first) (R.whole s.inner) };

    fn start(&self) -> Option<AgainStart<R::Start>> {
        match self.inner.start() {
            Some(inner) => Some(AgainStart {
                first: self.first,
                inner,
            }),
            None => None,
        }
    }

    fn again(&mut self, start: &AgainStart<R::Start>) -> Result<(), Failed> {
        self.inner.again(&start.inner)?;
        self.first = start.first;
        Ok(())
    }
}
