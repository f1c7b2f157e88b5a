//! Unpacks the frames of a file into pictures.

ghost use Rattle.std.specs.Prelude.{◌≡◌, ◌⊎◌, ℕ, IfErr, IfOk, IfSome, List, length, None, true};
ghost use Rattle.ffv1_wire.specs.Passage.{passage};
ghost use Rattle.ffv1_range.specs.Counts.{saturated};
ghost use Rattle.ffv1_record.specs.Accepted.{IsAccepted};
ghost use Rattle.ffv1_record.specs.Configuration.{configuration_of, is_rct};
ghost use Rattle.ffv1_unpack.specs.Internal.Opens.{OpensPart, OpensStream, stream_of};
ghost use Rattle.ffv1_unpack.specs.Opens.{IsReadAgain};
ghost use Rattle.ffv1_unpack.specs.Ranges.{NextShows, PassStops};
ghost use Rattle.ffv1_unpack.specs.Plays.{has_more};
ghost use Rattle.ffv1_unpack.specs.Internal.Carried.{ShowsThen};
ghost use Rattle.ffv1_unpack.specs.Stream.{Frame};
ghost use Rattle.ffv1_unpack.specs.Unpack.{IsUnpackFaultIn, LacksUnpacking, UnpackStops};
ghost use Rattle.ffv1_unpack.specs.Internal.Unpack.{IsWritingFault};
ghost use Rattle.ffv1_unpack.specs.Unpack.{UnpackDone, UnpackRangeDone, UnpackRangeStops};
ghost use Rattle.ffv1_unpack.specs.Unpacked.{HasText, HasTextBy, LacksTextBy};
ghost use Rattle.ffv1_unpack.specs.Unpacking.{UnpackingStopsIn, UnpacksMost};
ghost use Rattle.ffv1_unpack.specs.Internal.Located.{EndsNoted};
ghost use Rattle.ffv1_video.specs.Faults.{cause_of};
ghost use Rattle.ffv1_video.specs.Profiles.{scope_in};
ghost use Rattle.ffv1_unpack.specs.Located.{Stands};

use crate::carrying::pass_keeping;
use crate::images_out::write_images;
use crate::passing::notes_after;
use crate::pictures_out::{text_head, write_pictures};
use crate::player::{Player, open_stream, player_of};
use ffv1_files::{Notes, laws as files_laws};
use ffv1_reads::FileHead;
use ffv1_record::{Checked, Colour};
use ffv1_video::{Fault, Profile};
use ffv1_wire::{AgainIn, ByteIn, ByteOut};
use ffv1_words::FrameRange;
use ffv1_y4m::has_chroma_name_at;
use std::alloc::Allocator;

/// Whether pictures of a configuration have a text: YUV4MPEG2 names six kinds of chroma of 8 bits,
/// and fewer of other depths, as `has_chroma_name_at` has them, and PPM has no transparency.
/// Refuses with `NoY4mName` or `NoPpm`.
pub(crate) fn check_text<A: Allocator>(
    head: &FileHead<A>,
    checked: &Checked<A>,
) -> Result<(), Fault>
    ensures ok { IfOk result (λ _. HasTextBy (is_rct checked.now.configuration.colour)
        checked.now.configuration) }
    ensures err { IfErr result (LacksTextBy (is_rct checked.now.configuration.colour)
        checked.now.configuration) }
{
    let config = checked.config();
    if config.colour == Colour::Rct {
        if config.extra_plane {
            return Err(Fault::NoPpm);
        }
        return Ok(());
    }
    if !has_chroma_name_at(&text_head(head, checked), checked.depth()) {
        return Err(Fault::NoY4mName);
    }
    Ok(())
}

/// Opens a file whose pictures have a text, and makes the decoder of its frames.
fn open_unpacking<R: AgainIn, A: Allocator + Copy>(
    alloc: A,
    profile: Profile,
    input: &mut R,
) -> Result<Player<A>, Fault>
    ensures ok { IfOk result (λ p. OpensStream profile p.reader p.decoder.accepted
        (passage R.remaining R.failures input.old input.new)) }
    ensures text { IfOk result (λ p. HasText (stream_of p.reader p.decoder.accepted)) }
    ensures err { IfErr result (LacksUnpacking profile
        (passage R.remaining R.failures input.old input.new)) }
    ensures own { IfErr result (IsUnpackFaultIn profile) }
    ensures again { IfErr result (IsReadAgain profile (R.begins input.old)
        (passage R.remaining R.failures input.old input.new)) }
    ensures located { IfOk result (λ p. Stands (scope_in profile) (R.remaining input.old)
        (R.remaining input.new) p.reader) }
{
    let (reader, checked) = open_stream(alloc, profile, input)?;
    check_text(reader.head(), &checked)?;
    let player = player_of(alloc, reader, checked)?;
    Ok(player)
}

/// Writes the pictures of the frames that are left, at most so many, and hands the writer back; a
/// first one without bytes shows what is carried over to it.
fn write_frames<R: ByteIn, W: ByteOut, A: Allocator + Copy>(
    alloc: A,
    player: &mut Player<A>,
    input: &mut R,
    mut output: W,
    most: Option<u32>,
    carried: &mut Vec<u8, A>,
) -> (W, Result<u64, Fault>)
    requires sound { player.old.reader.fault ≡ None }
    requires accepted { IsAccepted player.old.decoder.accepted.configuration
        player.old.decoder.accepted.table }
    requires text { HasText (stream_of player.old.reader player.old.decoder.accepted) }
    ensures ok { IfOk result.1 (λ n. (frames : List Frame) × (n ≡ saturated (length frames))
        × UnpacksMost (ShowsThen carried.old.items player.old.reader.place)
        (stream_of player.old.reader player.old.decoder.accepted)
        (passage R.remaining R.failures input.old input.new)
        (passage W.contents W.failures output result.0) player.new.notes most frames) }
    ensures err { IfErr result.1 (λ f. UnpackingStopsIn
        (ShowsThen carried.old.items player.old.reader.place)
        (stream_of player.old.reader player.old.decoder.accepted)
        (passage R.remaining R.failures input.old input.new)
        (passage W.contents W.failures output result.0) (NextShows carried.old.items) f
        (cause_of f)) }
    ensures own { IfErr result.1 (IsWritingFault player.old.reader (R.remaining input.old)) }
    ensures noted { IfOk result.1 (λ n. (k : ℕ) → n ≡ saturated k → has_more most k ≡ true →
        EndsNoted player.old.reader (passage R.remaining R.failures input.old input.new)
        player.new.notes) }
{
    match player.decoder.config().config().colour {
        Colour::YCbCr => {
            let answer = write_pictures(alloc, player, input, &mut output, most, carried);
            (output, answer)
        }
        Colour::Rct => write_images(alloc, player, input, output, most, carried),
    }
}

/// Decodes all frames of a file that the profile reads, and writes their pictures: those of YCbCr
/// as YUV4MPEG2 in its canonical form, and those of RCT as PPM, one image after the other, each of
/// the depth that the record says. It answers how many frames there were, at most 2^64 - 1, and
/// hands the writer back.
///
/// A picture of YCbCr is written when it is decoded, the header before the first one; a row of an
/// image as soon as it is decoded. A frame of an AVI that has no bytes is the picture before once
/// more, and nothing before the first one. Beside what the decoder holds, one payload and one
/// picture are held, for PPM two payloads and three lines.
///
/// The first fault ends it. Nothing is written if it is one of the file up to its first frame
/// (`NotAvi`, `NoFfv1`, `Truncated`, `ChunkTooLong`) or of its record, or `NoY4mName` if
/// YUV4MPEG2 has no name for the chroma at its depth, or `NoPpm` for RCT with transparency. Then
/// come those of the chunks of its frames (`EmptyFrame`, too), of a payload, `FormatChanged` if
/// a later frame's structure or aspect are not those of the header, and `NoFrames` if there was
/// none; `Read`, `OutOfMemory` and `Write` as they come. At `Wide`, `Truncated` is also a file that
/// ends inside a `RIFF`, or that has fewer frames than its `dmlh` says, and `NotAvi` one in which
/// something that is no `RIFF` comes after the last one; and a file that begins with the byte 1A is
/// Matroska, with the faults that `MatroskaReader::open` and `MatroskaReader::next_frame` name in
/// place of those of AVI; `NoTracks` says that no Tracks stand anywhere in its Segment, if the
/// input can begin again. What is written then is the text of the frames before, and of an image
/// the rows before the fault; after `Write` a beginning of the next picture or row, too.
///
/// At the end, what comes after the file is looked at, as `FileReader::look_behind`
/// does: `Another` if another file begins there, after all pictures; else what it notes is answered
/// beside the count.
pub fn unpack<R: AgainIn, W: ByteOut, A: Allocator + Copy>(
    alloc: A,
    profile: Profile,
    input: &mut R,
    output: W,
) -> (W, Result<(u64, Notes), Fault>)
    ensures ok { IfOk result.1 (λ told. UnpackDone profile
        (passage R.remaining R.failures input.old input.new)
        (passage W.contents W.failures output result.0) told.0 told.1) }
    ensures err { IfErr result.1 (UnpackStops profile
        (passage R.remaining R.failures input.old input.new)
        (passage W.contents W.failures output result.0)) }
    ensures own { IfErr result.1 (IsUnpackFaultIn profile) }
    ensures again { IfErr result.1 (IsReadAgain profile (R.begins input.old)
        (passage R.remaining R.failures input.old input.new)) }
{
    files_laws::frames_come_in_turn();
    files_laws::what_is_read_is_a_file();
    unpack_range(alloc, profile, input, output, FrameRange::ALL)
}

/// Opens a file whose pictures have a text, passes the frames before a range that begins with this
/// number, and keeps the last payload of them that has bytes.
fn open_unpacking_range<R: AgainIn, A: Allocator + Copy>(
    alloc: A,
    profile: Profile,
    input: &mut R,
    first: u32,
) -> Result<(Player<A>, Vec<u8, A>), Fault>
    ensures ok { IfOk result (λ p. OpensPart profile first p.1.items p.0.reader
        p.0.decoder.accepted (passage R.remaining R.failures input.old input.new)) }
    ensures text { IfOk result (λ p. HasText (stream_of p.0.reader p.0.decoder.accepted)) }
    ensures err { IfErr result (λ f.
        LacksUnpacking profile (passage R.remaining R.failures input.old input.new) f
        ⊎ ((passed : ℕ) × PassStops profile first
        (passage R.remaining R.failures input.old input.new) passed f)) }
    ensures own { IfErr result (IsUnpackFaultIn profile) }
    ensures again { IfErr result (IsReadAgain profile (R.begins input.old)
        (passage R.remaining R.failures input.old input.new)) }
    ensures located { IfOk result (λ p. Stands (scope_in profile) (R.remaining input.old)
        (R.remaining input.new) p.0.reader) }
{
    let mut player = open_unpacking(alloc, profile, input)?;
    let mut kept = Vec::new(alloc);
    let mut passed = 0u64;
    pass_keeping(&mut player, input, first, &mut passed, &mut kept)?;
    Ok((player, kept))
}

/// Decodes the frames of a range of a file that the profile reads, and writes their pictures as
/// `unpack` does: the header of YUV4MPEG2 says what the first frame of the range says, and
/// `FormatChanged` is by that. The frames before the range are read, and not decoded; but if the
/// range begins with frames of an AVI that have no bytes, they show the picture of the last one
/// before them that has bytes, which is decoded then. For that its payload is held beside the next
/// one. If there are as many frames as the range names, nothing after them is read. Answers how
/// many frames of the range there were, at most 2^64 - 1, and hands the writer back.
///
/// The faults are those of `unpack`, as far as the file is read; of the payload before the range
/// only if its picture is shown. `NoFrames` is also a file that has no frame of the range. Nothing
/// is noted if the end of the file is not read, as where there are as many frames as the range
/// names.
pub fn unpack_range<R: AgainIn, W: ByteOut, A: Allocator + Copy>(
    alloc: A,
    profile: Profile,
    input: &mut R,
    output: W,
    range: FrameRange,
) -> (W, Result<(u64, Notes), Fault>)
    ensures ok { IfOk result.1 (λ told. UnpackRangeDone profile range
        (passage R.remaining R.failures input.old input.new)
        (passage W.contents W.failures output result.0) told.0 told.1) }
    ensures err { IfErr result.1 (UnpackRangeStops profile range
        (passage R.remaining R.failures input.old input.new)
        (passage W.contents W.failures output result.0)) }
    ensures own { IfErr result.1 (IsUnpackFaultIn profile) }
    ensures again { IfErr result.1 (IsReadAgain profile (R.begins input.old)
        (passage R.remaining R.failures input.old input.new)) }
{
    match open_unpacking_range(alloc, profile, input, range.first) {
        Err(fault) => (output, Err(fault)),
        Ok((mut player, mut carried)) => {
            let most = range.count;
            let (output, answer) = write_frames(
                alloc,
                &mut player,
                input,
                output,
                most,
                &mut carried,
            );
            match answer {
                Ok(0) => (output, Err(Fault::NoFrames)),
                Ok(count) => {
                    let notes = notes_after(player.notes, range.count, count);
                    (output, Ok((count, notes)))
                }
                Err(fault) => (output, Err(fault)),
            }
        }
    }
}
