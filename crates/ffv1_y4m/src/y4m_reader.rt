//! The reader of YUV4MPEG2.

ghost use Rattle.std.specs.Prelude.{◌≡◌, ◌≤◌, ℕ, Bool, IfOk, true, None};
ghost use Rattle.ffv1_y4m.specs.Header.{header_of};
ghost use Rattle.ffv1_y4m.specs.Passage.{passage, passage_from};
ghost use Rattle.ffv1_y4m.specs.Pictures.{GrowsInPicture, picture_read};
ghost use Rattle.ffv1_y4m.specs.Reads.{Answers, Nowhere};
ghost use Rattle.ffv1_y4m.specs.State.{HasRoom, IsHeaderFault, IsPictureFault, Lent, NextAnswers};
ghost use Rattle.ffv1_y4m.specs.State.{NoWant, OnFault, failing, said_by, samples_of, shown};
ghost use Rattle.ffv1_y4m.specs.VideoHead.{AreInDepth, Fits, IsHead, IsNamed, SaysNeither};
ghost use Rattle.ffv1_y4m.specs.VideoHead.{plane_bytes};

use crate::fault::Fault;
use crate::head::VideoHead;
use crate::planes::read_picture;
use crate::reading::read_header;
use ffv1_wire::ByteIn;
use std::alloc::{Allocator, Global};
use std::marker::Model;

/// A reader of YUV4MPEG2. It is seen as the head that it read, the depth of its samples, and the
/// fault that it met, if it met one.
///
/// It holds no input, and is handed the same one each time.
#[derive(Drop)]
pub struct Y4mReader<A: Allocator = Global> {
    alloc: A,
    head: VideoHead,
    depth: u32,
    failed: Option<Fault>,
}

impl<A: Allocator> Model for Y4mReader<A> {
    ghost use Rattle.ffv1_y4m.specs.State.{Y4mReading};
    ghost use Rattle.ffv1_y4m.specs.VideoHead.{IsHead, IsNamed};

    ghost Value = { Y4mReading };

    ghost view = { λ r. record { head = r.head; depth = r.depth; failed = r.failed } };

    ghost invariant = { λ r. IsHead r.head × IsNamed r.depth r.head };
}

impl<A: Allocator + Copy> Y4mReader<A> {
    /// Reads the header from an input of which the caller has read the first byte, if it has one.
    ///
    /// The input is then after the line feed, after a fault too. The first fault from the left is
    /// answered. `Header` if the line does not begin with `YUV4MPEG2` and a space or the line feed,
    /// has no line feed, or is longer than 1024 bytes: 1025 bytes are then read, and none after
    /// them. `Tag` if a tag is empty, has an unknown letter, is there for the second time (except
    /// X) or has no value of its kind, or W or H is missing. `Unsupported` if C names no chroma
    /// that is read here, or I is mixed. `Read` if a read failed.
    ///
    /// C may be `420jpeg`, `420mpeg2`, `420paldv`, `422`, `444`, `411`, `444alpha` or `mono`; the
    /// head says no siting and no range, and X may be anything.
    pub fn open<R: ByteIn>(
        alloc: A,
        first: Option<u8>,
        input: &mut R,
    ) -> Result<Y4mReader<A>, Fault>
        ensures answer { Answers said_by (header_of 8) Nowhere
            (passage_from first R.remaining R.failures input.old input.new) result }
        ensures fresh { IfOk result (λ r. r.failed ≡ None) }
        ensures own { OnFault IsHeaderFault result }
        ensures head { IfOk result (λ r. IsHead r.head) }
        ensures depth { IfOk result (λ r. r.depth ≡ 8) }
        ensures neither { IfOk result (λ r. SaysNeither r.head) }
    {
        open_at(alloc, 8, first, input)
    }

    /// Reads the header as `open` does, and reads depths of up to 16 bits too: C may also be
    /// `420p`, `422p` or `444p` and 9, 10, 12, 14 or 16 after it, or `mono` and 9, 10, 12 or 16.
    ///
    /// The head then says a siting and a range, if the text does (yuv4mpeg(5), and FFmpeg's tags
    /// X): `420jpeg`, `420mpeg2` and `420paldv` say that chroma lies in the centre, on the left and
    /// on the upper left; `420` is read as `420jpeg`. X of `COLORRANGE=FULL` or
    /// `COLORRANGE=LIMITED` says the range, and `Tag` is answered if a second one does; any other X
    /// says nothing.
    pub fn open_deep<R: ByteIn>(
        alloc: A,
        first: Option<u8>,
        input: &mut R,
    ) -> Result<Y4mReader<A>, Fault>
        ensures answer { Answers said_by (header_of 16) Nowhere
            (passage_from first R.remaining R.failures input.old input.new) result }
        ensures fresh { IfOk result (λ r. r.failed ≡ None) }
        ensures own { OnFault IsHeaderFault result }
        ensures head { IfOk result (λ r. IsHead r.head) }
        ensures named { IfOk result (λ r. IsNamed r.depth r.head) }
    {
        open_at(alloc, 16, first, input)
    }

    /// What the header says.
    pub fn head(&self) -> &VideoHead
        ensures value { result.now ≡ self.now.head }
        ensures head { IsHead result.now }
    {
        &self.head
    }

    /// The bits of a sample: 8, 9, 10, 12, 14 or 16, and 8 if `open` made the reader. Samples of
    /// 8 bits are one byte each, others two, the low byte first.
    pub fn depth(&self) -> u32
        ensures value { result ≡ self.now.depth }
        ensures named { IsNamed result self.now.head }
    {
        self.depth
    }

    /// Reads the next picture in place of what the planes were: Y, Cb, Cr, transparency, as many of
    /// them as there are, each row by row. False if the input has ended: the planes are then as
    /// they were. After a fault nothing is said of them, unless it came before.
    ///
    /// Memory is taken only if a vector has room for fewer samples. The first fault from the left
    /// is answered. `FrameLine` if a byte differs from the line `FRAME` and its line feed,
    /// `FrameTruncated` if the input ends inside it or inside samples, `SampleTooLarge` after the
    /// bytes of a plane of which a sample is 2 ^ depth or more, `Read` if a read failed,
    /// `OutOfMemory`. After a fault each call answers that fault again and reads nothing.
    pub fn next<R: ByteIn>(
        &mut self,
        input: &mut R,
        planes: &mut Vec<Vec<u8, A>, A>,
    ) -> Result<bool, Fault>
        ensures answer { NextAnswers self.old.failed (shown planes.new.items)
            (picture_read self.old.depth self.old.head)
            (GrowsInPicture self.old.depth self.old.head)
            (passage R.remaining R.failures input.old input.new) result }
        ensures own { self.old.failed ≡ None → OnFault IsPictureFault result }
        ensures lent { Lent self.old.failed planes.old planes.new result }
        ensures fits { IfOk result (λ more. more ≡ true →
            Fits self.old.depth self.old.head (samples_of planes.new.items)) }
        ensures depth { IfOk result (λ more. more ≡ true →
            AreInDepth self.old.depth (samples_of planes.new.items)) }
        ensures room { self.old.failed ≡ None →
            HasRoom (plane_bytes self.old.depth self.old.head) planes.old.items → NoWant result }
        ensures after { self.new ≡ record self.old { failed = failing self.old.failed result } }
    {
        if let Some(fault) = self.failed {
            return Err(fault);
        }
        let answer = read_picture(self.alloc, &self.head, self.depth, input, planes);
        if let Err(fault) = answer {
            self.failed = Some(fault);
        }
        answer
    }
}

/// Reads a header of a depth of at most `most`.
fn open_at<R: ByteIn, A: Allocator + Copy>(
    alloc: A,
    most: u32,
    first: Option<u8>,
    input: &mut R,
) -> Result<Y4mReader<A>, Fault>
    ensures answer { Answers said_by (header_of most) Nowhere
        (passage_from first R.remaining R.failures input.old input.new) result }
    ensures fresh { IfOk result (λ r. r.failed ≡ None) }
    ensures own { OnFault IsHeaderFault result }
    ensures head { IfOk result (λ r. IsHead r.head) }
    ensures named { IfOk result (λ r. IsNamed r.depth r.head) }
    ensures most { IfOk result (λ r. 8 ≤ most → r.depth ≤ most) }
    ensures strict { IfOk result (λ r. most ≤ 8 → SaysNeither r.head) }
{
    let said = read_header(most, first, input)?;
    Ok(Y4mReader {
        alloc,
        head: said.head,
        depth: said.depth,
        failed: None,
    })
}
