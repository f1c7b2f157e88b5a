//! Packs a video into AVI.

ghost use Rattle.std.specs.Prelude.{◌≡◌, ◌≤◌, IfOk, IfErr, true};
ghost use Rattle.ffv1_wire.specs.Passage.{passage};
ghost use Rattle.ffv1_reads.specs.Head.{head_of};
ghost use Rattle.ffv1_avi.specs.Written.{frames_of};
ghost use Rattle.ffv1_video.specs.declared.fault.Fault.TheVariants as fault;
ghost use Rattle.ffv1_pack.specs.Pack.{HasAccepted, Packs, RefusesPack};
ghost use Rattle.ffv1_pack.specs.Internal.Pack.{EncodesVideo, StopsVideo};
ghost use Rattle.ffv1_pack.specs.Pack.{IsPackFault};
ghost use Rattle.ffv1_pack.specs.Packing.{bytes_in};

use crate::encoding::{encode_pictures, encoder_for, file_head};
use crate::judging::judge;
use crate::video::VideoReader;
use ffv1_avi::write_avi;
use ffv1_reads::FileHead;
use ffv1_video::colours::loses_colour;
use ffv1_video::{Fault, Profile};
use ffv1_wire::{ByteIn, ByteOut};
use ffv1_words::Choice;
use ffv1_y4m::laws as y4m_laws;
use std::alloc::{Allocator, Global};

/// What was packed.
#[derive(Clone, Copy, Debug, PartialEq, Eq)]
pub struct Packed {
    /// How many frames there are, at least 1.
    pub frames: u64,
    /// How many bytes the frames have, without what the file adds to them.
    pub bytes: u64,
    /// Whether the text says a range of colours, or that chroma does not lie in the centre: the
    /// file does not, so that `unpack` writes the text without it.
    pub loses_colour: bool,
}

/// The head and the frames of a file.
#[derive(Drop)]
struct Stream<A: Allocator = Global> {
    head: FileHead<A>,
    frames: Vec<Vec<u8, A>, A>,
}

/// Reads a video and encodes it.
fn encode_video<R: ByteIn, A: Allocator + Copy>(
    alloc: A,
    profile: Profile,
    input: &mut R,
    choice: &Choice,
) -> Result<Stream<A>, Fault>
    ensures ok { IfOk result (λ s. EncodesVideo profile choice.now
        (passage R.remaining R.failures input.old input.new) (head_of s.head)
        (frames_of s.frames.items)) }
    ensures err { IfErr result (StopsVideo profile choice.now
        (passage R.remaining R.failures input.old input.new)) }
    ensures own { IfErr result (IsPackFault profile) }
    ensures sound { IfErr result (λ f. f ≡ fault.OutOfMemory →
        HasAccepted profile choice.now (R.remaining input.old)) }
{
    y4m_laws::text_is_read_as_its_pictures();
    y4m_laws::text_is_read_as_its_images();
    let mut reader = VideoReader::open(alloc, profile, input)?;
    judge(alloc, profile, choice, &reader)?;
    let mut encoder = encoder_for(alloc, profile, choice, &reader)?;
    let head = file_head(alloc, choice, &reader, encoder.config())?;
    let mut frames = Vec::new(alloc);
    encode_pictures(alloc, &mut reader, input, &mut encoder, &mut frames)?;
    if frames.is_empty() {
        return Err(Fault::NoFrames);
    }
    Ok(Stream { head, frames })
}

/// How many bytes frames have.
fn bytes_in<A: Allocator>(frames: &[Vec<u8, A>]) -> u64
    requires { bytes_in (frames_of frames.now) ≤ 2147483647 }
    ensures { result ≡ bytes_in (frames_of frames.now) }
{
    let mut bytes = 0;
    for frame in 0..frames.len() {
        bytes += frames[frame].as_slice().len() as u64;
    }
    bytes
}

/// Packs a video: YUV4MPEG2 or, if the first byte is `P`, binary PPM is read, each picture is
/// encoded, and an AVI of the frames is written (RFC 9043, 4.3.3).
///
/// The file's configuration record has one quantisation table set, and says that all frames are
/// key frames. The frames of YUV4MPEG2 say its structure and aspect, and the file its rate and
/// scale; PPM is coded by the colour transform, with structure and aspect unknown, and the rate
/// and scale of the choice. An AVI says neither the range of colours nor the siting of chroma;
/// whether the text says what is lost so is answered. All frames are encoded before the first
/// byte is written. The profile says which depths are read: `Strict` those of 8 bits a sample,
/// `Wide` also 9, 10, 12, 14 and 16, of one depth in a text; of what both read, the same is
/// written.
///
/// If the choice says `verify`, each frame is decoded as soon as it is coded, and compared with
/// its picture, in memory that is taken once. What is written and answered is the same, but that
/// `OutOfMemory` may come for that memory.
///
/// The first fault is answered in this order. `Header`, `Tag` and `Unsupported` if the text has no
/// head of a depth that is read; `Grid` and `ChromaEdge` if the choice does not suit its sizes: in
/// `Strict`, if an inner edge is no multiple of its chroma factor, in `Wide`, if a column or a line
/// of chroma would lie in no slice; for each picture `FrameLine`, `FrameTruncated`,
/// `SampleTooLarge` if a sample is 2^depth or more, for a later image `Header` and `FormatChanged`,
/// `SliceTooLong` if a slice takes more than 16777215 bytes, and, in `Wide`, `ChunkTooLong` if its
/// frame takes more than 1073741824, which is not read; `NoFrames` if there is no picture;
/// `TooLarge` if the size of RIFF would pass 2147483647. `Read` if a read failed, where the head or
/// the next picture wants one more byte. `OutOfMemory`, which comes after the head alone, and only
/// if the head has none of these faults: before the first picture is read, for what is read of the
/// next one, or for its frame once it was read whole. Nothing is written then. `Write` if a write
/// failed: a beginning of the file is then written, and not all of it.
pub fn pack<R: ByteIn, W: ByteOut, A: Allocator + Copy>(
    alloc: A,
    profile: Profile,
    input: &mut R,
    output: &mut W,
    choice: &Choice,
) -> Result<Packed, Fault>
    ensures ok { IfOk result (Packs profile choice.now
        (passage R.remaining R.failures input.old input.new)
        (passage W.contents W.failures output.old output.new)) }
    ensures err { IfErr result (RefusesPack profile choice.now
        (passage R.remaining R.failures input.old input.new)
        (passage W.contents W.failures output.old output.new)) }
    ensures own { IfErr result (IsPackFault profile) }
    ensures sound { IfErr result (λ f. f ≡ fault.OutOfMemory →
        HasAccepted profile choice.now (R.remaining input.old)) }
{
    let stream = encode_video(alloc, profile, input, choice)?;
    write_avi(output, &stream.head, &stream.frames)?;
    Ok(Packed {
        frames: stream.frames.len() as u64,
        bytes: bytes_in(&stream.frames),
        loses_colour: loses_colour(&stream.head.colour),
    })
}
