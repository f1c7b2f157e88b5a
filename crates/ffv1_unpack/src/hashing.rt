//! The MD5 of each picture of a file.

ghost use Rattle.std.specs.Prelude.{◌≡◌, ◌⊎◌, ◌<◌, ℕ, IfErr, IfOk, List, None, OnOk, length, true};
ghost use Rattle.ffv1_wire.specs.Passage.{passage};
ghost use Rattle.ffv1_range.specs.Counts.{saturated};
ghost use Rattle.ffv1_record.specs.Accepted.{IsAccepted};
ghost use Rattle.ffv1_record.specs.Configuration.{is_rct};
ghost use Rattle.ffv1_slice.specs.Grid.{division_of};
ghost use Rattle.ffv1_codec.specs.Picture.{AreOf, planes_of};
ghost use Rattle.ffv1_files.specs.Places.{amount, container_of};
ghost use Rattle.ffv1_unpack.specs.Check.{IsCheckFault};
ghost use Rattle.ffv1_unpack.specs.FrameMd5.{Md5Done, Md5RangeDone, Md5RangeStops, Md5Stops};
ghost use Rattle.ffv1_unpack.specs.FrameMd5.{md5_from};
ghost use Rattle.ffv1_unpack.specs.Internal.FrameMd5.{Md5Answers, headed_md5};
ghost use Rattle.ffv1_video.specs.RawPicture.{AreEven};
ghost use Rattle.ffv1_unpack.specs.Internal.Opens.{OpensRange, stream_of};
ghost use Rattle.ffv1_unpack.specs.Opens.{IsReadAgain, LacksOpening};
ghost use Rattle.ffv1_unpack.specs.Ranges.{PassStops};
ghost use Rattle.ffv1_video.specs.KeptLines.{IsKeptFor};
ghost use Rattle.ffv1_unpack.specs.Internal.PicturesOut.{head_saying};
ghost use Rattle.ffv1_unpack.specs.Plays.{HasThen, PlayStops, has_more};
ghost use Rattle.ffv1_unpack.specs.Internal.Plays.{PlaysMost};
ghost use Rattle.ffv1_unpack.specs.Stream.{Frame, IsFrame, frame_payload};
ghost use Rattle.ffv1_unpack.specs.Internal.Told.{IsToldFault, WritesFrame};
ghost use Rattle.std.specs.Prelude.{false};
ghost use Rattle.ffv1_unpack.specs.Internal.Located.{EndsNoted, StaysReached};
ghost use Rattle.ffv1_video.specs.Profiles.{scope_in};
ghost use Rattle.ffv1_unpack.specs.Located.{Stands};

use crate::passing::{has_more, notes_after, pass_frames};
use crate::pictures_out::text_head;
use crate::player::{NextFrame, Player, Stop, open_player, play};
use ffv1_codec::{Info, KeepLines, laws as codec_laws};
use ffv1_files::{Notes, laws as files_laws};
use ffv1_record::{Checked, laws as record_laws};
use ffv1_video::md5_lines::{push_picture, put_head};
use ffv1_video::{Fault, Profile};
use ffv1_wire::{AgainIn, ByteIn, ByteOut, write_all};
use ffv1_words::FrameRange;
use ffv1_y4m::VideoHead;
use std::alloc::{AllocError, Allocator};

/// The place of a picture among those that are written.
#[derive(Clone, Copy)]
struct LinePlace {
    /// Its number.
    number: u64,
    /// Whether it is the first, before which the head comes.
    first: bool,
}

/// The text of the next picture, what its head says but for the structure and the aspect, which are
/// 0, and whether the head was written.
struct Lines<A: Allocator> {
    head: VideoHead,
    begun: bool,
    text: Vec<u8, A>,
}

impl<A: Allocator> Drop for Lines<A> {
    fn drop(self) {
        let Lines {
            head: _head,
            begun: _begun,
            text: _text,
        } = self;
    }
}

/// The line of the picture with this place, which has these planes, and before the first one the
/// head, in place of what the text has.
fn put_line<A: Allocator>(
    text: &mut Vec<u8, A>,
    head: &VideoHead,
    place: LinePlace,
    rct: bool,
    depth: u32,
    planes: &[Vec<u8, A>],
) -> Result<(), AllocError>
    requires { rct ≡ true → AreEven (planes_of planes.now) }
    ensures { OnOk result (text.new.items
        ≡ headed_md5 rct depth head.now place.first place.number (planes_of planes.now)) }
{
    text.clear();
    if place.first {
        put_head(text, head)?;
    }
    push_picture(text, place.number, rct, depth, planes)?;
    Ok(())
}

/// Writes the line of the picture of these planes, which says this, and before the first one the
/// head.
fn write_picture<W: ByteOut, A: Allocator>(
    output: &mut W,
    lines: &mut Lines<A>,
    place: LinePlace,
    checked: &Checked<A>,
    info: Info,
    planes: &[Vec<u8, A>],
) -> Result<(), Fault>
    requires { AreOf (division_of checked.now.configuration) (planes_of planes.now) }
    ensures answer { WritesFrame (headed_md5 (is_rct checked.now.configuration.colour)
        checked.now.configuration.depth (head_saying lines.old.head info) place.first place.number
        (planes_of planes.now)) (passage W.contents W.failures output.old output.new) result }
    ensures same { lines.new.head ≡ lines.old.head }
    ensures begun { lines.new.begun ≡ lines.old.begun }
{
    record_laws::accepted_configuration_has_sound_parts();
    codec_laws::sink::rct_planes_have_the_picture_size();
    let head = VideoHead {
        structure: info.structure(),
        sar_num: info.sar_num(),
        sar_den: info.sar_den(),
        ..lines.head
    };
    let rct = checked.config().colour.is_rct();
    let depth = checked.depth();
    put_line(&mut lines.text, &head, place, rct, depth, planes)?;
    if write_all(output, &lines.text).is_err() {
        return Err(Fault::Write);
    }
    Ok(())
}

/// Reads the next frame, decodes it, and writes the line of its picture, which has this number; one
/// that repeats another has no line. Answers false if there is none.
fn write_next<R: ByteIn, W: ByteOut, A: Allocator>(
    player: &mut Player<A>,
    input: &mut R,
    output: &mut W,
    kept: &mut KeepLines<A>,
    lines: &mut Lines<A>,
    number: u64,
) -> Result<bool, Fault>
    requires sound { player.old.reader.fault ≡ None }
    requires accepted { IsAccepted player.old.decoder.accepted.configuration
        player.old.decoder.accepted.table }
    requires kept { IsKeptFor player.old.decoder.accepted kept.old }
    ensures answer { Md5Answers player.old.decoder.accepted lines.old.head lines.old.begun number
        player.old.reader.place player.new.reader.place
        (passage R.remaining R.failures input.old input.new)
        (passage W.contents W.failures output.old output.new) player.new.notes lines.new.begun
        result }
    ensures kept { OnOk result (IsKeptFor player.old.decoder.accepted kept.new) }
    ensures head { lines.new.head ≡ lines.old.head }
    ensures sound { OnOk result (player.new.reader.fault ≡ None) }
    ensures less { IfOk result (λ more. more ≡ true →
        amount player.new.reader.place < amount player.old.reader.place) }
    ensures reached { IfOk result (λ more. more ≡ true → StaysReached player.old.reader
        player.new.reader (passage R.remaining R.failures input.old input.new)) }
    ensures noted { IfOk result (λ more. more ≡ false → EndsNoted player.old.reader
        (passage R.remaining R.failures input.old input.new) player.new.notes) }
    ensures same { player.new.decoder.accepted ≡ player.old.decoder.accepted }
    ensures container { container_of player.new.reader.place
        ≡ container_of player.old.reader.place }
    ensures own { IfErr result (IsToldFault player.old.reader (R.remaining input.old)) }
{
    codec_laws::answer::answer_is_ok_for_coded_pictures::<KeepLines<A>>();
    codec_laws::sink::sinks_of_own_lines_refuse_none();
    codec_laws::sink::kept_lines_make_up_the_picture();
    codec_laws::answer::answered_fault_is_of_decoding::<KeepLines<A>>();
    match play(player, input, kept) {
        Ok(NextFrame::End) => Ok(false),
        Ok(NextFrame::Coded(info)) => {
            let checked = player.decoder.config();
            let place = LinePlace {
                number,
                first: !lines.begun,
            };
            write_picture(output, lines, place, checked, info, kept.planes())?;
            lines.begun = true;
            Ok(true)
        }
        Ok(NextFrame::Again) => Ok(true),
        Err(Stop::File(fault)) => Err(Fault::from(fault)),
        Err(Stop::Payload(fault)) => Err(Fault::from(fault.fault)),
    }
}

/// Decodes the frames that are left, of a range whose first one comes next, and writes the line of
/// each picture as soon as it is decoded. Answers how many there were, at most 2^64 - 1.
fn write_frames<R: ByteIn, W: ByteOut, A: Allocator + Copy>(
    alloc: A,
    player: &mut Player<A>,
    input: &mut R,
    output: &mut W,
    range: FrameRange,
) -> Result<u64, Fault>
    requires sound { player.old.reader.fault ≡ None }
    requires accepted { IsAccepted player.old.decoder.accepted.configuration
        player.old.decoder.accepted.table }
    ensures ok { IfOk result (λ n. (frames : List Frame) × (n ≡ saturated (length frames))
        × PlaysMost (IsFrame player.old.decoder.accepted) frame_payload
        (HasThen player.old.reader.place)
        (md5_from range.first (stream_of player.old.reader player.old.decoder.accepted))
        (passage R.remaining R.failures input.old input.new)
        (passage W.contents W.failures output.old output.new) player.new.notes range.count
        frames) }
    ensures err { IfErr result (PlayStops (HasThen player.old.reader.place)
        player.old.decoder.accepted
        (md5_from range.first (stream_of player.old.reader player.old.decoder.accepted))
        (passage R.remaining R.failures input.old input.new)
        (passage W.contents W.failures output.old output.new)) }
    ensures own { IfErr result (IsToldFault player.old.reader (R.remaining input.old)) }
    ensures noted { IfOk result (λ n. (k : ℕ) → n ≡ saturated k → has_more range.count k ≡ true →
        EndsNoted player.old.reader (passage R.remaining R.failures input.old input.new)
        player.new.notes) }
{
    let checked = player.decoder.config();
    let mut kept = KeepLines::new(alloc, checked)?;
    let mut lines = Lines {
        head: text_head(player.reader.head(), checked),
        begun: false,
        text: Vec::new(alloc),
    };
    let mut count = 0u64;
    'frames: while has_more(range.count, count) {
        let number = count.saturating_add(u64::from(range.first));
        if !write_next(player, input, output, &mut kept, &mut lines, number)? {
            return Ok(count);
        }
        count = count.saturating_add(1);
    }
    Ok(count)
}

/// Decodes all frames of a file that the profile reads, and writes of their pictures what FFmpeg's
/// `framemd5` writes of raw video, but for the line `#software`: before the first frame a head of
/// ten lines, and a line for each frame as soon as it is decoded:
///
/// ```text
/// #format: frame checksums
/// #version: 2
/// #hash: MD5
/// #software: ffv1
/// #tb 0: {scale}/{rate}
/// #media_type 0: video
/// #codec_id 0: rawvideo
/// #dimensions 0: {width}x{height}
/// #sar 0: {width}/{height}
/// #stream#, dts,        pts, duration,     size, hash
/// 0,          0,          0,        1,   {bytes}, {MD5}
/// ```
///
/// The rate is in lowest terms, 1/25 if none is known. The aspect of a sample is the first frame's
/// as it stands, 0/1 if none is known; FFmpeg has that of the container if it is Matroska, and
/// leaves out one by which a picture would have less than a row or a column. Frames are counted
/// from 0; a count of 64 bits stays at its greatest value. A frame of an AVI that has no bytes has
/// a number, and no line; the head is that of the first coded frame, and not written if there is
/// none.
///
/// The bytes of a picture are those of its planes, one after the other: of YCbCr as they are, of
/// RGB of more than 8 bits green, blue, red and transparency. Of RGB of 8 bits they are the samples
/// of each place. Samples of more than 8 bits are two bytes, the low one first.
///
/// Beside what the decoder holds, one payload, one picture and one line are held.
///
/// The first fault ends it, after the lines of the frames before: those of the file up to its
/// first frame (`NotAvi`, `NoFfv1`, `Truncated`, `ChunkTooLong`), of its record, of the chunks of
/// its frames (`EmptyFrame`, too), of a payload; `NoFrames` at the end if there was none;
/// `Read`, `OutOfMemory` and `Write` as they come. At `Wide`, `Truncated` is also a file that ends
/// inside a `RIFF`, or that has fewer frames than its `dmlh` says, and `NotAvi` one in which
/// something that is no `RIFF` comes after the last one; and a file that begins with the byte 1A
/// is Matroska, with the faults that `MatroskaReader::open` and `MatroskaReader::next_frame` name
/// in place of those of AVI; `NoTracks` says that no Tracks stand anywhere in its Segment, if the
/// input can begin again. At the end, what comes after the file is looked at, as
/// `FileReader::look_behind` does: `Another` if another file begins there, after all lines; else
/// the answer is what it notes.
pub fn framemd5<R: AgainIn, W: ByteOut, A: Allocator + Copy>(
    alloc: A,
    profile: Profile,
    input: &mut R,
    output: &mut W,
) -> Result<Notes, Fault>
    ensures ok { IfOk result (Md5Done profile
        (passage R.remaining R.failures input.old input.new)
        (passage W.contents W.failures output.old output.new)) }
    ensures err { IfErr result (Md5Stops profile
        (passage R.remaining R.failures input.old input.new)
        (passage W.contents W.failures output.old output.new)) }
    ensures own { IfErr result (IsCheckFault profile) }
    ensures again { IfErr result (IsReadAgain profile (R.begins input.old)
        (passage R.remaining R.failures input.old input.new)) }
{
    files_laws::frames_come_in_turn();
    files_laws::what_is_read_is_a_file();
    framemd5_range(alloc, profile, input, output, FrameRange::ALL)
}

/// Opens a file, and passes the frames before a range that begins with this number.
fn open_range<R: AgainIn, A: Allocator + Copy>(
    alloc: A,
    profile: Profile,
    input: &mut R,
    first: u32,
) -> Result<Player<A>, Fault>
    ensures ok { IfOk result (λ p. OpensRange profile first p.reader p.decoder.accepted
        (passage R.remaining R.failures input.old input.new)) }
    ensures err { IfErr result (λ f.
        LacksOpening profile (passage R.remaining R.failures input.old input.new) f
        ⊎ ((passed : ℕ) × PassStops profile first
        (passage R.remaining R.failures input.old input.new) passed f)) }
    ensures own { IfErr result (IsCheckFault profile) }
    ensures again { IfErr result (IsReadAgain profile (R.begins input.old)
        (passage R.remaining R.failures input.old input.new)) }
    ensures located { IfOk result (λ p. Stands (scope_in profile) (R.remaining input.old)
        (R.remaining input.new) p.reader) }
{
    let mut player = open_player(alloc, profile, input)?;
    let mut passed = 0u64;
    pass_frames(&mut player, input, first, &mut passed)?;
    Ok(player)
}

/// Decodes the frames of a range of a file that the profile reads, and writes of their pictures
/// what `framemd5` writes: the head of the first one of the range, and a line for each frame as
/// soon as it is decoded, with its number in the file. The frames before the range are read, and
/// not decoded. If there are as many as the range names, nothing after them is read.
///
/// The faults are those of `framemd5`, as far as the file is read; `NoFrames` is also a file that
/// has no frame of the range. Nothing is noted if the end of the file is not read, as where there
/// are as many frames as the range names.
pub fn framemd5_range<R: AgainIn, W: ByteOut, A: Allocator + Copy>(
    alloc: A,
    profile: Profile,
    input: &mut R,
    output: &mut W,
    range: FrameRange,
) -> Result<Notes, Fault>
    ensures ok { IfOk result (Md5RangeDone profile range
        (passage R.remaining R.failures input.old input.new)
        (passage W.contents W.failures output.old output.new)) }
    ensures err { IfErr result (Md5RangeStops profile range
        (passage R.remaining R.failures input.old input.new)
        (passage W.contents W.failures output.old output.new)) }
    ensures own { IfErr result (IsCheckFault profile) }
    ensures again { IfErr result (IsReadAgain profile (R.begins input.old)
        (passage R.remaining R.failures input.old input.new)) }
{
    let mut player = open_range(alloc, profile, input, range.first)?;
    let count = write_frames(alloc, &mut player, input, output, range)?;
    if count == 0 {
        return Err(Fault::NoFrames);
    }
    Ok(notes_after(player.notes, range.count, count))
}
