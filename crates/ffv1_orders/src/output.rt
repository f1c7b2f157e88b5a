//! Where bytes are written: a file, which keeps what it holds until a byte is written, or standard
//! output.

ghost use Rattle.std.specs.Prelude.{◌≡◌, ◌⊎◌, [], IfErr, Ok, OnErr, OnOk, false, true};
ghost use Rattle.ffv1_orders.specs.Output.{making_options};
ghost use Rattle.ffv1_orders.specs.declared.refusal.Refusal.TheVariants as refusal;
ghost use Rattle.ffv1_video.specs.declared.fault.Fault.TheVariants as fault;

use crate::met::{Met, Noted};
use crate::refusal::Refusal;
use either::{Either, Left, Right};
use ffv1_video::Fault;
use ffv1_words::is_hyphen;
use std::fs::{Metadata, OpenFile, OpenOptions};
use std::io::{ErrorKind, Printer, Seek, SeekFrom, Write};
use std::os::unix::fs::{FileTypeExt, MetadataExt};
use std::rt::Files;
use std::{fs, io};

/// A file that is written from its begin. What it held goes when the first byte is written.
#[derive(Drop)]
pub struct Anew<F: Drop> {
    file: F,
    // Whether it still holds what it held when it was opened.
    is_old: bool,
    // Whether it is a regular file, which may be written over: a pipe and a device are not.
    is_regular: bool,
}

impl<F: OpenFile + Drop> Anew<F> {
    /// Makes room for bytes: what the file held goes before the first of them.
    fn clear_for(&mut self, bytes: &[u8]) -> io::Result<()>
        ensures gone { OnOk result (bytes.now ≡ [] ⊎ self.new.is_old ≡ false) }
        ensures kept { bytes.now ≡ [] → (result ≡ Ok tt) × (self.new ≡ self.old) }
        ensures err { OnErr result (self.new ≡ self.old) }
    {
        if self.is_old && !bytes.is_empty() {
            self.file.set_len(0)?;
            self.is_old = false;
        }
        Ok(())
    }
}

impl<F: Write + OpenFile + Drop> Write for Anew<F> {
    fn write(&mut self, buf: &[u8]) -> io::Result<usize> {
        self.clear_for(buf)?;
        self.file.write(buf)
    }

    fn flush(&mut self) -> io::Result<()> {
        self.file.flush()
    }
}

impl<F: Seek + OpenFile + Drop> Seek for Anew<F> {
    fn seek(&mut self, to: SeekFrom) -> io::Result<u64> {
        if !self.is_regular {
            return Err(io::Error::from(ErrorKind::NotSeekable));
        }
        self.file.seek(to)
    }
}

/// A writer that cannot be sent to a place, so that nothing is written over.
#[derive(Drop)]
pub struct Onward<W> {
    inner: W,
}

impl<W: Write> Write for Onward<W> {
    ghost contents = { λ s. W.contents s.inner };

    fn write(&mut self, buf: &[u8]) -> io::Result<usize> {
        self.inner.write(buf)
    }

    fn flush(&mut self) -> io::Result<()> {
        self.inner.flush()
    }
}

impl<W> Seek for Onward<W> {
    fn seek(&mut self, _to: SeekFrom) -> io::Result<u64> {
        Err(io::Error::from(ErrorKind::NotSeekable))
    }
}

/// A file, or standard output.
pub type Target<'a, H> = Noted<'a, Either<Anew<<H as Files>::File>, Onward<Printer<'a, H>>>>;

/// Whether these are one file, by its device and number. Streams and terminals, of which nothing
/// is lost, are none.
fn is_one_file(input: &Metadata, output: &Metadata) -> bool {
    let is_kept = input.is_file() || input.file_type().is_block_device();
    is_kept && input.dev() == output.dev() && input.ino() == output.ino()
}

/// How OUT is opened: to be written, and made if nothing is there, but not emptied; with
/// `no_clobber` it has to be made.
fn options_for(no_clobber: bool) -> OpenOptions
    ensures { result ≡ making_options no_clobber }
{
    let mut options = OpenOptions::new();
    options.write(true).create(true).create_new(no_clobber);
    options
}

/// Opens OUT if it is not the file of IN, and `-` is standard output. A file that is there is
/// left as it is until a byte is written.
///
/// `OneFile` if IN and OUT are one file, `Exists` if a file is there and `no_clobber` asks to
/// refuse that, and then nothing is opened; the fault `Write` if OUT cannot be opened.
pub fn open_output<'a, H: Files + Print>(
    rt: &'a H,
    path: &str,
    input: &Option<Metadata>,
    no_clobber: bool,
    met: &'a Met,
) -> Result<Target<'a, H>, Refusal>
    ensures { IfErr result (λ r. (r ≡ refusal.OneFile)
        ⊎ (((r ≡ refusal.Exists) × (no_clobber ≡ true)) ⊎ (r ≡ refusal.Fault fault.Write))) }
{
    let place = if is_hyphen(path) { "/dev/stdout" } else { path };
    let there = fs::metadata(rt, place).ok();
    if let (Some(input), Some(output)) = (input, &there) {
        if is_one_file(input, output) {
            return Err(Refusal::OneFile);
        }
    }
    if is_hyphen(path) {
        let printer = Onward {
            inner: io::writer(rt),
        };
        return Ok(Noted::new(met, Right(printer)));
    }
    match options_for(no_clobber).open(rt, path) {
        Ok(file) => {
            let (is_regular, is_old) = match file.metadata() {
                Ok(metadata) => (metadata.is_file(), metadata.is_file() && metadata.len() > 0),
                Err(_) => (false, false),
            };
            let target = Anew {
                file,
                is_old,
                is_regular,
            };
            Ok(Noted::new(met, Left(target)))
        }
        Err(error) if no_clobber && error.kind() == ErrorKind::AlreadyExists => {
            Err(Refusal::Exists)
        }
        Err(error) => {
            met.refused(&error);
            Err(Refusal::Fault(Fault::Write))
        }
    }
}
