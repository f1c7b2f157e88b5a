//! The writer of PPM, as a sink of lines.

ghost use Rattle.std.specs.Prelude.{◌≡◌, ℕ, ◌*◌, ◌≤◌, ◌==◌, ◌++◌, if◌then◌else◌, IfOk, IfErr, List};
ghost use Rattle.std.specs.Prelude.{[], length, false};
ghost use Rattle.ffv1_wire.specs.Passage.{passage};
ghost use Rattle.ffv1_y4m.specs.declared.fault.Fault.TheVariants as fault;
ghost use Rattle.ffv1_y4m.specs.Ppm.{bytes_for, half_of, image_header_text, in_turn, interleaved};
ghost use Rattle.ffv1_y4m.specs.Sink.{PpmSink, Takes, Refuses, row_text};
ghost use Rattle.ffv1_y4m.specs.Writes.{Writes};

use crate::fault::Fault;
use crate::pairs::interleave_pairs;
use crate::writing::{write_image_header, write_part};
use ffv1_samples::sample_bytes;
use ffv1_wire::{ByteOut, LineSink, SinkFault};
use std::alloc::{AllocError, Allocator, Global};
use std::marker::Model;

/// A sink of lines that writes them as binary PPM, one image after the other. It owns its writer.
///
/// Samples of 8 bits are one byte each, others two: in lines the low byte first, in the text the
/// high one. Lines come as red, green, blue of each row, the rows from the top. The lines of red
/// and green are kept until the row's blue one comes, which writes the row, and before the first
/// row of an image its header.
#[derive(Drop)]
pub struct PpmWriter<W, A: Allocator = Global> {
    out: W,
    width: u32,
    last: u16,
    depth: u32,
    red: Vec<u8, A>,
    green: Vec<u8, A>,
    text: Vec<u8, A>,
    plane: u8,
    row: u16,
    failed: bool,
    failures: u64,
}

impl<W, A: Allocator> Model for PpmWriter<W, A> {
    ghost use Rattle.std.specs.Prelude.{◌≡◌, ◌≤◌, ◌+◌, ◌*◌, length};
    ghost use Rattle.ffv1_y4m.specs.Ppm.{bytes_for};
    ghost use Rattle.ffv1_y4m.specs.Sink.{PpmSink, kept_of};

    ghost Value = { PpmSink W };

    ghost view = { λ s. record {
      out = s.out;
      width = s.width;
      height = s.last + 1;
      depth = s.depth;
      kept = kept_of s.plane s.red.items s.green.items;
      row = s.row;
      failed = s.failed;
      failures =
          s.failures;
    } };

    ghost invariant = { λ s. (s.plane ≤ 2) × (s.row ≤ s.last) × (s.depth ≤ 16)
        × (length s.red.items ≡ bytes_for s.depth s.width)
        × (length s.green.items ≡ bytes_for s.depth s.width)
        × (length s.text.items ≡ 3 * bytes_for s.depth s.width) };
}

/// Red, green and blue of each place, of one byte each, one after the other.
fn interleave_bytes(red: &[u8], green: &[u8], blue: &[u8], text: &mut [u8])
    requires green { length green.now ≡ length red.now }
    requires blue { length blue.now ≡ length red.now }
    requires text { length text.old ≡ 3 * length red.now }
    ensures { text.new ≡ in_turn red.now green.now blue.now }
{
    for place in 0..red.len() {
        text[3 * place] = red[place];
        text[3 * place + 1] = green[place];
        text[3 * place + 2] = blue[place];
    }
}

/// Red, green and blue of each place, one after the other.
fn interleave(depth: u32, red: &[u8], green: &[u8], blue: &[u8], text: &mut [u8])
    requires whole { half_of depth (length red.now) ≡ 0 }
    requires green { length green.now ≡ length red.now }
    requires blue { length blue.now ≡ length red.now }
    requires text { length text.old ≡ 3 * length red.now }
    ensures { text.new ≡ interleaved depth red.now green.now blue.now }
{
    if depth == 8 {
        interleave_bytes(red, green, blue, text);
    } else {
        interleave_pairs(red, green, blue, text);
    }
}

/// Writes a row, and before the first one of an image its header.
fn write_row<W: ByteOut>(
    out: &mut W,
    depth: u32,
    width: u32,
    height: u32,
    row: u16,
    text: &[u8],
) -> Result<(), Fault>
    requires { depth ≤ 16 }
    ensures { Writes ((if row == 0 then image_header_text depth width height else []) ++ text.now)
        (passage W.contents W.failures out.old out.new) result }
{
    if row == 0 {
        write_image_header(out, depth, width, height)?;
        write_part(out, text)?;
        return Ok(());
    }
    write_part(out, text)?;
    Ok(())
}

impl<W: ByteOut, A: Allocator + Copy> PpmWriter<W, A> {
    /// A sink of images of these sizes, of which no line has come yet. It takes its memory here:
    /// two lines, and the text of a row. `OutOfMemory` hands the writer back as it came.
    pub fn sized(alloc: A, out: W, width: u32, height: u32) -> Result<PpmWriter<W, A>, (W, Fault)>
        requires some_wide { 1 ≤ width }
        requires wide { width ≤ 8192 }
        requires some_high { 1 ≤ height }
        requires high { height ≤ 8192 }
        ensures ok { IfOk result
            (λ s. s ≡ record {
              out = out;
              width = width;
              height = height;
              depth = 8;
              kept = [];
              row = 0;
              failed = false;
              failures = 0;
            }) }
        ensures err { IfErr result (λ e. (e.0 ≡ out) × (e.1 ≡ fault.OutOfMemory)) }
    {
        PpmWriter::sized_at(alloc, out, width, height, 8)
    }

    /// A sink of images of these sizes and of samples of so many bits, of which no line has come
    /// yet: the third line of their headers is 2 ^ depth - 1. It takes its memory here: two lines,
    /// and the text of a row. `OutOfMemory` hands the writer back as it came.
    ///
    /// What it writes is read back at 8, 9, 10, 12, 14 and 16 bits, if each sample of the lines
    /// is below 2 ^ depth.
    pub fn sized_at(
        alloc: A,
        out: W,
        width: u32,
        height: u32,
        depth: u32,
    ) -> Result<PpmWriter<W, A>, (W, Fault)>
        requires some_wide { 1 ≤ width }
        requires wide { width ≤ 8192 }
        requires some_high { 1 ≤ height }
        requires high { height ≤ 8192 }
        requires least { 8 ≤ depth }
        requires most { depth ≤ 16 }
        ensures ok { IfOk result
            (λ s. s ≡ record {
              out = out;
              width = width;
              height = height;
              depth = depth;
              kept = [];
              row = 0;
              failed = false;
              failures = 0;
            }) }
        ensures err { IfErr result (λ e. (e.0 ≡ out) × (e.1 ≡ fault.OutOfMemory)) }
    {
        let Ok((red, green, text)) = lines(alloc, depth, width as usize) else {
            return Err((out, Fault::OutOfMemory));
        };
        Ok(PpmWriter {
            out,
            width,
            last: (height - 1) as u16,
            depth,
            red,
            green,
            text,
            plane: 0,
            row: 0,
            failed: false,
            failures: 0,
        })
    }

    /// Hands the writer back.
    pub fn into_inner(self) -> W
        ensures { result ≡ self.out }
    {
        self.out
    }

    /// The number of lines that were refused, modulo 2 ^ 64.
    pub fn failures(&self) -> u64
        ensures { result ≡ self.now.failures }
    {
        self.failures
    }
}

/// How many bytes a line of so many samples has.
fn line_bytes(depth: u32, width: usize) -> usize
    requires { width ≤ 8192 }
    ensures value { result ≡ bytes_for depth width }
    ensures most { result ≤ 16384 }
{
    sample_bytes(depth) * width
}

/// Two lines of samples, and the text of a row.
fn lines<A: Allocator + Copy>(
    alloc: A,
    depth: u32,
    width: usize,
) -> Result<(Vec<u8, A>, Vec<u8, A>, Vec<u8, A>), AllocError>
    requires { width ≤ 8192 }
    ensures { IfOk result (λ l. (length l.0.items ≡ bytes_for depth width)
        × (length l.1.items ≡ bytes_for depth width)
        × (length l.2.items ≡ 3 * bytes_for depth width)) }
{
    let size = line_bytes(depth, width);
    let red = vec![in alloc; 0; size]?;
    let green = vec![in alloc; 0; size]?;
    let text = vec![in alloc; 0; 3 * size]?;
    Ok((red, green, text))
}

impl<W: ByteOut, A: Allocator> LineSink for PpmWriter<W, A> {
    ghost takes = { λ s plane row samples t. Takes W.contents W.failures s plane row samples t };

    ghost refuses = { λ s plane row samples t.
        Refuses W.contents W.failures s plane row samples t };

    ghost failures = { λ s. s.failures };

    /// Takes the line that comes next; a blue one writes its row. Any other line, and one of
    /// another length, is refused and changes nothing but the count. A line whose write fails is
    /// refused, a beginning of its row written; after it each line is refused. It takes no memory.
    fn line(&mut self, plane: u8, y: u16, samples: &[u8]) -> Result<(), SinkFault> {
        if self.failed || plane != self.plane || y != self.row || samples.len() != self.red.len() {
            self.failures = self.failures.wrapping_add(1);
            return Err(SinkFault);
        }
        if plane == 0 {
            self.red.copy_from_slice(samples);
            self.plane = 1;
            return Ok(());
        }
        if plane == 1 {
            self.green.copy_from_slice(samples);
            self.plane = 2;
            return Ok(());
        }
        interleave(self.depth, &self.red, &self.green, samples, &mut self.text);
        let height = u32::from(self.last) + 1;
        match write_row(&mut self.out, self.depth, self.width, height, y, &self.text) {
            Ok(()) => {
                self.plane = 0;
                self.row = if y < self.last { y + 1 } else { 0 };
                Ok(())
            }
            Err(_) => {
                self.failed = true;
                self.failures = self.failures.wrapping_add(1);
                Err(SinkFault)
            }
        }
    }
}
