//! Packs a video into Matroska, picture by picture.

ghost use Rattle.std.specs.Prelude.{◌≡◌, [], IfOk, IfErr, None, true};
ghost use Rattle.ffv1_wire.specs.Passage.{passage};
ghost use Rattle.ffv1_matroska.specs.Writers.{writing_of};
ghost use Rattle.ffv1_pack.specs.Internal.Clusters.{PutsAll, StopsPutting};
ghost use Rattle.ffv1_pack.specs.PackMatroska.{AsksMatroska, HasTimed, PacksMatroska};
ghost use Rattle.ffv1_pack.specs.Internal.PackMatroska.{LacksMatroska, OpensMatroska};
ghost use Rattle.ffv1_pack.specs.PackMatroska.{RefusesMatroska};
ghost use Rattle.ffv1_video.specs.declared.fault.Fault.TheVariants as fault;
ghost use Rattle.ffv1_pack.specs.Grids.{choice_for};
ghost use Rattle.ffv1_pack.specs.PackMatroska.{IsMatroskaPackFault, is_matroska_pack_fault};
ghost use Rattle.ffv1_pack.specs.PackMatroska.{codec_id_for, details_for};
ghost use Rattle.ffv1_pack.specs.Packing.{IsFor};
ghost use Rattle.ffv1_pack.specs.Internal.VideoReads.{reading_of};

use crate::default_grid::grid_for;
use crate::encoding::{encode_picture, encoder_for, file_head, most_frame};
use crate::judging::{judge, judge_rate};
use crate::verifying::VerifyingEncoder;
use crate::video::VideoReader;
use ffv1_matroska::{CodecId, MatroskaWriter, TrackEntry, written_laws};
use ffv1_reads::FileFault;
use ffv1_video::{Fault, Profile};
use ffv1_wire::{ByteIn, ByteOut, PatchOut};
use ffv1_words::{Choice, CodecIdChoice};
use ffv1_y4m::laws as y4m_laws;
use std::alloc::{Allocator, Global};

/// What was packed into Matroska.
#[derive(Clone, Copy, Debug, PartialEq, Eq)]
pub struct PackedMatroska {
    /// How many frames there are, at least 1.
    pub frames: u64,
    /// How many bytes the frames have, without what the file adds to them.
    pub bytes: u64,
    /// Whether the file was finished: false if the output cannot be written over, so that the
    /// size of its Segment stays unknown.
    pub finished: bool,
}

/// How many Clusters were written, and how many bytes their frames have.
#[derive(Clone, Copy)]
struct Put {
    frames: u64,
    bytes: u64,
}

/// A video whose head was read, and what encodes and writes its pictures.
#[derive(Drop)]
struct Opened<A: Allocator = Global> {
    reader: VideoReader<A>,
    encoder: VerifyingEncoder<A>,
    writer: MatroskaWriter<A>,
}

/// What a choice calls the codec.
fn codec_id_for(choice: CodecIdChoice) -> CodecId
    ensures { result ≡ codec_id_for choice }
{
    match choice {
        CodecIdChoice::Native => CodecId::Native,
        CodecIdChoice::Vfw => CodecId::Vfw,
    }
}

/// What the TrackEntry of a video says beside the head of its file.
fn details_for<A: Allocator + Copy>(choice: &Choice, reader: &VideoReader<A>) -> TrackEntry
    ensures { result ≡ details_for choice.now (reading_of reader.now).head }
{
    let head = reader.head();
    TrackEntry {
        codec_id: codec_id_for(choice.codec_id),
        structure: head.structure,
        sar_num: head.sar_num,
        sar_den: head.sar_den,
    }
}

/// The choice with the grid of a video, its own or the default one.
fn choice_for<A: Allocator + Copy>(
    profile: Profile,
    choice: &Choice,
    reader: &VideoReader<A>,
) -> Choice
    ensures { result ≡ choice_for profile choice.now (reading_of reader.now).head }
{
    let (columns, rows) = grid_for(profile, choice, reader);
    Choice {
        columns,
        rows,
        ..*choice
    }
}

/// Reads the head of a video, and makes what encodes and writes its pictures.
fn open_video<R: ByteIn, A: Allocator + Copy>(
    alloc: A,
    profile: Profile,
    input: &mut R,
    choice: &Choice,
) -> Result<Opened<A>, Fault>
    ensures ok { IfOk result (λ o. OpensMatroska profile choice.now
        (passage R.remaining R.failures input.old input.new) (reading_of o.reader)
        o.encoder.accepted o.writer) }
    ensures err { IfErr result (LacksMatroska profile choice.now
        (passage R.remaining R.failures input.old input.new)) }
    ensures own { IfErr result (IsMatroskaPackFault profile) }
    ensures sound { IfErr result (λ f. f ≡ fault.OutOfMemory →
        HasTimed profile choice.now (R.remaining input.old)) }
{
    let reader = VideoReader::open(alloc, profile, input)?;
    let chosen = choice_for(profile, choice, &reader);
    judge(alloc, profile, &chosen, &reader)?;
    judge_rate(choice, &reader)?;
    let encoder = encoder_for(alloc, profile, &chosen, &reader)?;
    let head = file_head(alloc, choice, &reader, encoder.config())?;
    let writer = MatroskaWriter::new(alloc, &head, details_for(choice, &reader))?;
    Ok(Opened {
        reader,
        encoder,
        writer,
    })
}

/// Encodes all pictures, and writes the Cluster of each at once. What is encoded is held until it
/// is written, and no longer.
fn put_pictures<R: ByteIn, W: ByteOut, A: Allocator + Copy>(
    alloc: A,
    reader: &mut VideoReader<A>,
    input: &mut R,
    encoder: &mut VerifyingEncoder<A>,
    writer: &mut MatroskaWriter<A>,
    output: &mut W,
) -> Result<Put, Fault>
    requires working { (reading_of reader.old).failed ≡ None }
    requires begun { (reading_of reader.old).begun ≡ true }
    requires suits { (profile : Profile) × (choice : Choice) × IsFor profile choice
        (reading_of reader.old).ppm (reading_of reader.old).head encoder.old.accepted }
    requires fresh { writer.old ≡ writing_of writer.old.head writer.old.details [] }
    ensures ok { IfOk result (PutsAll encoder.old.accepted (reading_of reader.old)
        writer.old writer.new (passage R.remaining R.failures input.old input.new)
        (passage W.contents W.failures output.old output.new)) }
    ensures err { IfErr result (StopsPutting encoder.old.accepted (reading_of reader.old)
        writer.old (passage R.remaining R.failures input.old input.new)
        (passage W.contents W.failures output.old output.new)) }
    ensures own { IfErr result (λ f. is_matroska_pack_fault f ≡ true) }
{
    written_laws::writes_make_up_the_file();
    let most = most_frame(encoder.config().profile());
    let mut planes = Vec::new(alloc);
    let mut packed = Put {
        frames: 0,
        bytes: 0,
    };
    while let Some(frame) = encode_picture(alloc, reader, input, encoder, &mut planes)? {
        let size = frame.as_slice().len();
        if size > most {
            return Err(Fault::File(FileFault::ChunkTooLong));
        }
        writer.put(output, frame.as_slice())?;
        packed.frames += 1;
        packed.bytes += size as u64;
    }
    Ok(packed)
}

/// Packs a video into Matroska, picture by picture: YUV4MPEG2 or, if the first byte is `P`,
/// binary PPM is read, and the Cluster of a picture is written as soon as it is encoded (RFC 9559,
/// 5.1.3, with FFV1 as RFC 9043, 4.3.3, has it).
///
/// The configuration and the frames are those of `pack`, and so are the depths that are read, rate
/// and scale; but if the choice asks for `default_grid`, and not for columns and rows, a picture of
/// more than 101376 pixels has at least 4 slices, as RFC 9043, section 5, wants it. It has the
/// first grid, by the number of slices and then of columns, that has at least as many columns as
/// rows, whose greatest slice has fewer bytes of samples than 12 MiB, and whose slices share no
/// chroma sample. If there is none, it has, in `Wide`, the first whose slices may share one; else
/// the first of any columns and rows whose slices share none; else one slice.
///
/// Colour says the range and the siting of chroma that the text says, if it says any (RFC 9559,
/// 5.1.4.1.28.16).
///
/// The codec's ID is that of the choice: `V_FFV1`, as RFC 9043, 4.3.3, asks for, or
/// `V_MS/VFW/FOURCC` with a header of Video for Windows before the record (RFC 9559, 8).
///
/// Before the first Cluster comes all that stands before the Clusters, of a Segment of unknown
/// size; after the last one come Cues, and then what stands before Tracks is written over, so that
/// the file is finished. Only if the output cannot be written over, as its `patch` says, the
/// Segment's size stays unknown, and all else is there. One picture, its frame and the places of
/// at most 8192 Clusters are held, however many pictures there are.
///
/// If the choice says `verify`, each frame is decoded as soon as it is coded, and compared with
/// its picture before its Cluster is written, in memory that is taken once, before the first byte
/// is written. What is written and answered is the same, but that `OutOfMemory` may come for that
/// memory.
///
/// The first fault is answered in this order. `Header`, `Tag` and `Unsupported` if the text has
/// no head of a depth that is read; `Grid` and `ChromaEdge` if the grid that is chosen does not
/// suit its sizes, as `pack` says; `Rate` if no whole nanoseconds a frame say its rate, as
/// `ffv1_matroska::rate_of` reads them; nothing is written then. For each picture `FrameLine`,
/// `FrameTruncated`, `SampleTooLarge`, for a later image `Header` and `FormatChanged`,
/// `SliceTooLong` if a slice takes more than 16777215 bytes, `ChunkTooLong` if its frame takes
/// more than 67108864 bytes at `Strict` or 1073741824 at `Wide`, and `TooLarge` if its Cluster
/// would end more than 2^56 - 2^20 bytes after the first byte of the Segment's content; `NoFrames`
/// if there is no picture. Then the Clusters of the pictures before are written, which can be
/// read, and nothing if there is none.
///
/// No picture is read before the Clusters of those before it are written. `Read` if a read
/// failed: nothing is written if the head wants one more byte; else the Clusters of exactly the
/// pictures that were read whole are, and the next picture wants one more byte. `OutOfMemory`,
/// which comes after the head alone, and only if that has none of these faults: so, too, or the
/// next picture was read whole, and memory for its frame was refused. `Write` if a write failed: a
/// beginning of the file is then written, which ends in the Cluster of the last picture that was
/// read, or in Cues; or the file whose Segment has no size, with a beginning of what it is written
/// over by.
pub fn pack_matroska<R: ByteIn, W: PatchOut, A: Allocator + Copy>(
    alloc: A,
    profile: Profile,
    input: &mut R,
    output: &mut W,
    choice: &Choice,
) -> Result<PackedMatroska, Fault>
    ensures ok { IfOk result (PacksMatroska profile choice.now
        (passage R.remaining R.failures input.old input.new)
        (passage W.contents W.failures output.old output.new)) }
    ensures asks { IfOk result (λ packed. (packs : PacksMatroska profile choice.now
        (passage R.remaining R.failures input.old input.new)
        (passage W.contents W.failures output.old output.new) packed)
        × AsksMatroska W.contents W.overwrites output.old output.new choice.now packs.video
        packs.accepted packed.finished) }
    ensures err { IfErr result (RefusesMatroska profile choice.now
        (passage R.remaining R.failures input.old input.new)
        (passage W.contents W.failures output.old output.new)) }
    ensures own { IfErr result (IsMatroskaPackFault profile) }
    ensures sound { IfErr result (λ f. f ≡ fault.OutOfMemory →
        HasTimed profile choice.now (R.remaining input.old)) }
{
    y4m_laws::text_is_read_as_its_pictures();
    y4m_laws::text_is_read_as_its_images();
    written_laws::writes_make_up_the_file();
    let Opened {
        mut reader,
        mut encoder,
        mut writer,
    } = open_video(alloc, profile, input, choice)?;
    let packed = put_pictures(alloc, &mut reader, input, &mut encoder, &mut writer, output)?;
    if packed.frames == 0 {
        return Err(Fault::NoFrames);
    }
    let finished = writer.finish(output)?;
    Ok(PackedMatroska {
        frames: packed.frames,
        bytes: packed.bytes,
        finished,
    })
}
