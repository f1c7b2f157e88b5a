//! The writer of YUV4MPEG2.

ghost use Rattle.std.specs.Prelude.{◌≡◌, ℕ, Bool, false};
ghost use Rattle.ffv1_wire.specs.Passage.{passage};
ghost use Rattle.ffv1_y4m.specs.Canonical.{next_text};
ghost use Rattle.ffv1_y4m.specs.State.{samples_of};
ghost use Rattle.ffv1_y4m.specs.Writes.{Y4mWriting, NextWrites, Writes, written_by};

use crate::fault::Fault;
use crate::head::VideoHead;
use crate::writing::{write_header, write_picture};
use ffv1_wire::ByteOut;
use std::alloc::Allocator;
use std::marker::Model;

/// A writer of YUV4MPEG2. It is seen as its head, the depth of its samples, whether the header is
/// written, and whether a write has failed.
///
/// It holds no output, and is handed the same one each time. It takes no memory.
#[derive(Drop)]
pub struct Y4mWriter {
    head: VideoHead,
    depth: u32,
    begun: bool,
    failed: bool,
}

impl Model for Y4mWriter {
    ghost use Rattle.ffv1_y4m.specs.Writes.{Y4mWriting};

    ghost Value = { Y4mWriting };

    ghost view = { λ w. record {
      head = w.head;
      depth = w.depth;
      begun = w.begun;
      failed = w.failed;
    } };
}

impl Y4mWriter {
    /// A writer of pictures with this head, of which nothing is written yet.
    ///
    /// What it writes is read back if the head is as a reader gives it: sizes of 1 to 8192, a
    /// rate and an aspect of which both numbers are 0 or neither, a structure of at most 3, and
    /// chroma planes that have a name.
    pub fn new(head: VideoHead) -> Y4mWriter
        ensures { result ≡ record { head = head; depth = 8; begun = false; failed = false } }
    {
        Y4mWriter::at_depth(head, 8)
    }

    /// A writer of pictures with this head and samples of so many bits, of which nothing is written
    /// yet. Samples of 8 bits are one byte each, others two, the low byte first.
    ///
    /// What it writes is read back if the head is as a reader gives it, `has_chroma_name_at` has
    /// a name for its chroma at this depth, and each sample is below 2 ^ depth. If there is no name
    /// above 8 bits, C names no chroma, and each reader refuses the header.
    pub fn at_depth(head: VideoHead, depth: u32) -> Y4mWriter
        ensures { result ≡ record { head = head; depth = depth; begun = false; failed = false } }
    {
        Y4mWriter {
            head,
            depth,
            begun: false,
            failed: false,
        }
    }

    /// Writes the next picture of these planes, and before the first one the header:
    /// `YUV4MPEG2 W{width} H{height} F{rate}:{scale} I{structure} A{sar_num}:{sar_den} C{chroma}`,
    /// and after it ` XCOLORRANGE=FULL` or ` XCOLORRANGE=LIMITED` if the head says a range. C of
    /// 4:2:0 of 8 bits is `420mpeg2` or `420paldv` if its siting is on the left or on the upper
    /// left, else `420jpeg`; the siting of other chroma is not written.
    ///
    /// The planes are those of the head, as a reader gives them: then what is written reads back.
    /// Planes of another number or size are written as they are, and what stands then is no text of
    /// the head.
    ///
    /// `Write` if a write failed: a beginning of the text of this call is then written, and not
    /// all of it. Each call after it answers `Write` again and writes nothing.
    pub fn picture<W: ByteOut, A: Allocator>(
        &mut self,
        output: &mut W,
        planes: &[Vec<u8, A>],
    ) -> Result<(), Fault>
        ensures answer { NextWrites self.old.failed
            (next_text self.old.depth self.old.head self.old.begun (samples_of planes.now))
            (passage W.contents W.failures output.old output.new) result }
        ensures after { self.new ≡ written_by self.old result }
    {
        if self.failed {
            return Err(Fault::Write);
        }
        let answer = write_next(&self.head, self.depth, self.begun, output, planes);
        match answer {
            Ok(()) => self.begun = true,
            Err(_) => self.failed = true,
        }
        answer
    }
}

/// Writes a picture, and before the first one the header.
fn write_next<W: ByteOut, A: Allocator>(
    head: &VideoHead,
    depth: u32,
    begun: bool,
    output: &mut W,
    planes: &[Vec<u8, A>],
) -> Result<(), Fault>
    ensures { Writes (next_text depth head.now begun (samples_of planes.now))
        (passage W.contents W.failures output.old output.new) result }
{
    if begun {
        write_picture(output, planes)?;
        return Ok(());
    }
    write_header(output, head, depth)?;
    write_picture(output, planes)?;
    Ok(())
}
