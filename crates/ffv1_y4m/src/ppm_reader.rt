//! The reader of PPM.

ghost use Rattle.std.specs.Prelude.{◌≡◌, ◌≤◌, ℕ, Bool, IfOk, true, false, None};
ghost use Rattle.ffv1_y4m.specs.Passage.{passage, passage_from};
ghost use Rattle.ffv1_y4m.specs.Ppm.{GrowsInImage, image_header, image_read};
ghost use Rattle.ffv1_y4m.specs.Reads.{Answers, Nowhere};
ghost use Rattle.ffv1_y4m.specs.State.{HasRoom, IsImageFault, IsLineFault, Lent, NextAnswers};
ghost use Rattle.ffv1_y4m.specs.State.{NoWant, OnFault, PpmReading, failing, image_said};
ghost use Rattle.ffv1_y4m.specs.State.{samples_of, shown};
ghost use Rattle.ffv1_y4m.specs.VideoHead.{AreInDepth, Fits, IsNamed, IsSized, colour_head};
ghost use Rattle.ffv1_y4m.specs.VideoHead.{plane_bytes};

use crate::fault::Fault;
use crate::head::{DeepHead, VideoHead};
use crate::ppm_reading::{read_image, read_image_header};
use ffv1_wire::ByteIn;
use std::alloc::{Allocator, Global};
use std::marker::Model;

/// A reader of binary PPM, one image after the other. It is seen as the greatest depth that it
/// reads, the head that it read, the depth of its samples, whether the samples of the first image
/// come next, and the fault that it met, if it met one.
///
/// It holds no input, and is handed the same one each time.
#[derive(Drop)]
pub struct PpmReader<A: Allocator = Global> {
    alloc: A,
    most: u32,
    head: VideoHead,
    depth: u32,
    begun: bool,
    failed: Option<Fault>,
}

impl<A: Allocator> Model for PpmReader<A> {
    ghost use Rattle.ffv1_y4m.specs.State.{PpmReading, IsColour};
    ghost use Rattle.ffv1_y4m.specs.VideoHead.{IsNamed};

    ghost Value = { PpmReading };

    ghost view = { λ r. record {
      most = r.most;
      head = r.head;
      depth = r.depth;
      begun = r.begun;
      failed = r.failed;
    } };

    ghost invariant = { λ r. IsColour r.head × IsNamed r.depth r.head };
}

impl<A: Allocator + Copy> PpmReader<A> {
    /// Reads the header of the first image from an input of which the caller has read the first
    /// byte, if it has one: the lines `P6`, `{width} {height}` and `255`, sizes of 1 to 8192
    /// without leading zeros.
    ///
    /// `Header` if the text begins otherwise or ends inside, `Read` if a read failed.
    pub fn open<R: ByteIn>(
        alloc: A,
        first: Option<u8>,
        input: &mut R,
    ) -> Result<PpmReader<A>, Fault>
        ensures answer { Answers image_said (image_header 8) Nowhere
            (passage_from first R.remaining R.failures input.old input.new) result }
        ensures fresh { IfOk result (λ r. (r.begun ≡ true) × (r.failed ≡ None)) }
        ensures own { OnFault IsLineFault result }
        ensures head { IfOk result (λ r. IsSized r.head
            × (r.head ≡ colour_head r.head.width r.head.height)) }
        ensures depth { IfOk result (λ r. (r.depth ≡ 8) × (r.most ≡ 8)) }
    {
        open_at(alloc, 8, first, input)
    }

    /// Reads the header as `open` does, and reads depths of up to 16 bits too: the third line may
    /// also be `511`, `1023`, `4095`, `16383` or `65535`, which is 2 ^ depth - 1.
    pub fn open_deep<R: ByteIn>(
        alloc: A,
        first: Option<u8>,
        input: &mut R,
    ) -> Result<PpmReader<A>, Fault>
        ensures answer { Answers image_said (image_header 16) Nowhere
            (passage_from first R.remaining R.failures input.old input.new) result }
        ensures fresh { IfOk result (λ r. (r.begun ≡ true) × (r.failed ≡ None)) }
        ensures own { OnFault IsLineFault result }
        ensures head { IfOk result (λ r. IsSized r.head
            × (r.head ≡ colour_head r.head.width r.head.height)) }
        ensures named { IfOk result (λ r. IsNamed r.depth r.head) }
        ensures most { IfOk result (λ r. r.most ≡ 16) }
    {
        open_at(alloc, 16, first, input)
    }

    /// The sizes, and that there are three planes of that size; rate, structure and aspect are
    /// unknown.
    pub fn head(&self) -> &VideoHead
        ensures value { result.now ≡ self.now.head }
        ensures head { IsSized result.now
            × (result.now ≡ colour_head result.now.width result.now.height) }
    {
        &self.head
    }

    /// The bits of a sample: 8, 9, 10, 12, 14 or 16, and 8 if `open` made the reader. Samples of 8
    /// bits are one byte each, others two: in the text the high byte first, in planes the low one.
    pub fn depth(&self) -> u32
        ensures value { result ≡ self.now.depth }
        ensures named { IsNamed result self.now.head }
    {
        self.depth
    }

    /// Reads the next image in place of what the planes were: red, green, blue, each row by row.
    /// False if the input has ended: the planes are then as they were. After a fault nothing is
    /// said of them, unless it came before.
    ///
    /// Memory is taken only if a vector has room for fewer samples. The first fault is answered. Of
    /// a later image that is `Header`, then `FormatChanged` if its sizes or its depth are not the
    /// first one's. Then `FrameTruncated` if the input ends inside samples, `SampleTooLarge` after
    /// the bytes of an image of which a sample is 2 ^ depth or more. `Read` if a read failed,
    /// `OutOfMemory`. After a fault each call answers that fault again and reads nothing.
    pub fn next<R: ByteIn>(
        &mut self,
        input: &mut R,
        planes: &mut Vec<Vec<u8, A>, A>,
    ) -> Result<bool, Fault>
        ensures answer { NextAnswers self.old.failed (shown planes.new.items)
            (image_read self.old.most (image_said self.old) self.old.begun)
            (GrowsInImage self.old.most (image_said self.old) self.old.begun)
            (passage R.remaining R.failures input.old input.new) result }
        ensures own { self.old.failed ≡ None → OnFault IsImageFault result }
        ensures lent { Lent self.old.failed planes.old planes.new result }
        ensures fits { IfOk result (λ more. more ≡ true →
            Fits self.old.depth self.old.head (samples_of planes.new.items)) }
        ensures depth { IfOk result (λ more. more ≡ true →
            AreInDepth self.old.depth (samples_of planes.new.items)) }
        ensures room { self.old.failed ≡ None →
            HasRoom (plane_bytes self.old.depth self.old.head) planes.old.items → NoWant result }
        ensures after { self.new ≡ record self.old {
          begun = false;
          failed = failing self.old.failed result;
        } }
    {
        let begun = self.begun;
        self.begun = false;
        if let Some(fault) = self.failed {
            return Err(fault);
        }
        let said = DeepHead {
            head: self.head,
            depth: self.depth,
        };
        let answer = read_image(self.alloc, self.most, &said, begun, input, planes);
        if let Err(fault) = answer {
            self.failed = Some(fault);
        }
        answer
    }
}

/// Reads the header of the first image, of a depth of at most `most`.
fn open_at<R: ByteIn, A: Allocator + Copy>(
    alloc: A,
    most: u32,
    first: Option<u8>,
    input: &mut R,
) -> Result<PpmReader<A>, Fault>
    ensures answer { Answers image_said (image_header most) Nowhere
        (passage_from first R.remaining R.failures input.old input.new) result }
    ensures fresh { IfOk result (λ r. (r.begun ≡ true) × (r.failed ≡ None)) }
    ensures own { OnFault IsLineFault result }
    ensures head { IfOk result (λ r. IsSized r.head
        × (r.head ≡ colour_head r.head.width r.head.height)) }
    ensures named { IfOk result (λ r. IsNamed r.depth r.head × (r.depth ≤ most)) }
    ensures most { IfOk result (λ r. r.most ≡ most) }
{
    let said = read_image_header(most, first, input)?;
    Ok(PpmReader {
        alloc,
        most,
        head: said.head,
        depth: said.depth,
        begun: true,
        failed: None,
    })
}
