//! The video that is packed.

ghost use Rattle.std.specs.Prelude.{◌≡◌, ◌≤◌, Bool, IfOk, IfErr, None, true, false, IsTrue};
ghost use Rattle.ffv1_wire.specs.Passage.{passage};
ghost use Rattle.ffv1_y4m.specs.Header.{header_of};
ghost use Rattle.ffv1_y4m.specs.Passage.{passage_from};
ghost use Rattle.ffv1_y4m.specs.Ppm.{image_header};
ghost use Rattle.ffv1_y4m.specs.Reads.{Answers, Nowhere};
ghost use Rattle.ffv1_y4m.specs.State.{IsHeaderFault, IsLineFault, OnFault, image_said, said_by};
ghost use Rattle.ffv1_y4m.specs.State.{samples_of, shown};
ghost use Rattle.ffv1_y4m.specs.VideoHead.{AreInDepth, Fits, IsHead, IsSized, colour_head};
ghost use Rattle.ffv1_pack.specs.Pack.{is_pack_fault};
ghost use Rattle.ffv1_video.specs.Profiles.{greatest_depth};
ghost use Rattle.ffv1_pack.specs.Internal.VideoReads.{HeadRead, HeadRefused, IsHeadOf, NextRead};
ghost use Rattle.ffv1_pack.specs.Internal.VideoReads.{NextRefused, VideoReading, reading_of};

use ffv1_video::{Fault, Profile};
use ffv1_wire::{ByteIn, read_byte};
use ffv1_y4m::{PpmReader, VideoHead, Y4mReader, laws as y4m_laws};
use std::alloc::{Allocator, Global};

/// A reader of a video: of binary PPM if the first byte is `P`, else of YUV4MPEG2. Above 8 bits
/// a sample of its planes is two bytes, the low byte first.
#[derive(Drop)]
pub(crate) enum VideoReader<A: Allocator = Global> {
    Y4m(Y4mReader<A>),
    Ppm(PpmReader<A>),
}

/// Reads the header of a YUV4MPEG2, of a depth that the profile reads.
fn open_text<R: ByteIn, A: Allocator + Copy>(
    alloc: A,
    profile: Profile,
    first: Option<u8>,
    input: &mut R,
) -> Result<Y4mReader<A>, ffv1_y4m::Fault>
    ensures answer { Answers said_by (header_of (greatest_depth profile)) Nowhere
        (passage_from first R.remaining R.failures input.old input.new) result }
    ensures fresh { IfOk result (λ r. r.failed ≡ None) }
    ensures own { OnFault IsHeaderFault result }
    ensures head { IfOk result (λ r. IsHead r.head) }
    ensures deep { IfOk result (λ r. r.depth ≤ greatest_depth profile) }
{
    match profile {
        Profile::Strict => Y4mReader::open(alloc, first, input),
        Profile::Wide => Y4mReader::open_deep(alloc, first, input),
    }
}

/// Reads the header of the first image of a PPM, of a depth that the profile reads: three lines, or
/// at `Wide` as Netpbm writes it.
fn open_images<R: ByteIn, A: Allocator + Copy>(
    alloc: A,
    profile: Profile,
    first: Option<u8>,
    input: &mut R,
) -> Result<PpmReader<A>, ffv1_y4m::Fault>
    ensures answer { Answers image_said (image_header (greatest_depth profile)) Nowhere
        (passage_from first R.remaining R.failures input.old input.new) result }
    ensures fresh { IfOk result (λ r. (r.begun ≡ true) × (r.failed ≡ None)) }
    ensures own { OnFault IsLineFault result }
    ensures head { IfOk result (λ r. IsSized r.head
        × (r.head ≡ colour_head r.head.width r.head.height)) }
    ensures deep { IfOk result (λ r. r.depth ≤ greatest_depth profile) }
    ensures most { IfOk result (λ r. r.most ≡ greatest_depth profile) }
{
    match profile {
        Profile::Strict => PpmReader::open(alloc, first, input),
        Profile::Wide => PpmReader::open_deep(alloc, first, input),
    }
}

impl<A: Allocator + Copy> VideoReader<A> {
    /// Reads the head of a video, of a depth that the profile reads.
    pub(crate) fn open<R: ByteIn>(
        alloc: A,
        profile: Profile,
        input: &mut R,
    ) -> Result<VideoReader<A>, Fault>
        ensures ok { IfOk result (λ r. HeadRead (greatest_depth profile)
            (passage R.remaining R.failures input.old input.new) (reading_of r)) }
        ensures head { IfOk result (λ r. IsHeadOf (reading_of r)) }
        ensures err { IfErr result (HeadRefused (greatest_depth profile)
            (passage R.remaining R.failures input.old input.new)) }
        ensures own { IfErr result (λ f. is_pack_fault f ≡ true) }
    {
        y4m_laws::image_header_takes_its_first_byte();
        let Ok(first) = read_byte(input) else {
            return Err(Fault::Read);
        };
        if first == Some(b'P') {
            let reader = open_images(alloc, profile, first, input)?;
            return Ok(VideoReader::Ppm(reader));
        }
        let reader = open_text(alloc, profile, first, input)?;
        Ok(VideoReader::Y4m(reader))
    }

    /// Whether it is PPM.
    pub(crate) fn is_ppm(&self) -> bool
        ensures { result ≡ (reading_of self.now).ppm }
    {
        match self {
            VideoReader::Ppm(_) => true,
            VideoReader::Y4m(_) => false,
        }
    }

    /// What its head says.
    pub(crate) fn head(&self) -> &VideoHead
        ensures value { result.now ≡ (reading_of self.now).head.head }
        ensures head { IsHeadOf (reading_of self.now) }
    {
        match self {
            VideoReader::Ppm(reader) => reader.head(),
            VideoReader::Y4m(reader) => reader.head(),
        }
    }

    /// The bits of a sample.
    pub(crate) fn depth(&self) -> u32
        ensures value { result ≡ (reading_of self.now).head.depth }
        ensures least { 8 ≤ (reading_of self.now).head.depth }
    {
        match self {
            VideoReader::Ppm(reader) => reader.depth(),
            VideoReader::Y4m(reader) => reader.depth(),
        }
    }

    /// Reads the next picture in place of what the planes were; false at the end.
    pub(crate) fn next<R: ByteIn>(
        &mut self,
        input: &mut R,
        planes: &mut Vec<Vec<u8, A>, A>,
    ) -> Result<bool, Fault>
        requires { (reading_of self.old).failed ≡ None }
        ensures ok { IfOk result (λ more. NextRead
            (passage R.remaining R.failures input.old input.new) (reading_of self.old)
            (shown planes.new.items more) (reading_of self.new)) }
        ensures fits { IfOk result (λ more. more ≡ true →
            Fits (reading_of self.old).head.depth (reading_of self.old).head.head
            (samples_of planes.new.items)) }
        ensures depth { IfOk result (λ more. more ≡ true →
            AreInDepth (reading_of self.old).head.depth (samples_of planes.new.items)) }
        ensures err { IfErr result (NextRefused
            (passage R.remaining R.failures input.old input.new) (reading_of self.old)) }
        ensures own { IfErr result (λ f. is_pack_fault f ≡ true) }
    {
        match self {
            VideoReader::Ppm(reader) => Ok(reader.next(input, planes)?),
            VideoReader::Y4m(reader) => Ok(reader.next(input, planes)?),
        }
    }
}
