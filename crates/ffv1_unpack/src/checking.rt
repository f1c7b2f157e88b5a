//! Decodes all frames of a file, and prints a line of each.

ghost use Rattle.std.specs.Prelude.{◌≡◌, IfErr, IfOk, OnOk};
ghost use Rattle.ffv1_wire.specs.Passage.{passage};
ghost use Rattle.ffv1_video.specs.Profiles.{scope_in};
ghost use Rattle.ffv1_unpack.specs.Check.{CheckDone, CheckStops, IsCheckFault, count_line};
ghost use Rattle.ffv1_unpack.specs.Check.{CheckRangeDone, CheckRangeStops};
ghost use Rattle.ffv1_unpack.specs.CheckAll.{AllDone, AllStops};
ghost use Rattle.ffv1_unpack.specs.CheckAll.{CheckAllRangeDone, CheckAllRangeStops};
ghost use Rattle.ffv1_unpack.specs.Checked.{LacksRange};
ghost use Rattle.ffv1_unpack.specs.Internal.Opens.{OpensRange};
ghost use Rattle.ffv1_unpack.specs.Located.{Stands};
ghost use Rattle.ffv1_unpack.specs.Opens.{IsReadAgain};
ghost use Rattle.ffv1_unpack.specs.Judged.{counts_line};
ghost use Rattle.ffv1_unpack.specs.ToldItems.{IsReadAgainTelling, IsTried};
ghost use Rattle.ffv1_unpack.specs.Internal.Told.{WritesFrame};

use crate::frame_line::{FrameLine, put_count, put_counts};
use crate::judging::judge_frames;
use crate::judging_all::{judge_on, judge_plainly};
use crate::opening_all::{none_told, open_telling};
use crate::passing::{notes_after, pass_frames};
use crate::plainly::is_plain;
use crate::player::{Player, open_player_located};
use crate::telling::{Places, Telling, tell_byte, tell_frames};
use crate::told_first::{judge_told, refused_at, tell_refused};
use ffv1_files::{Notes, Way, laws as files_laws};
use ffv1_video::{Fault, Profile};
use ffv1_wire::{AgainIn, ByteOut, write_all};
use ffv1_words::FrameRange;
use std::alloc::Allocator;

/// Writes how many frames there were.
fn write_count<W: ByteOut, A: Allocator + Copy>(
    alloc: A,
    output: &mut W,
    count: u64,
) -> Result<(), Fault>
    ensures { WritesFrame (count_line count)
        (passage W.contents W.failures output.old output.new) result }
{
    let mut text = Vec::new(alloc);
    put_count(&mut text, count)?;
    if write_all(output, &text).is_err() {
        return Err(Fault::Write);
    }
    Ok(())
}

/// Decodes all frames of a file that the profile reads, and writes a line of each as soon as it is
/// decoded, and at the end how many there were:
///
/// ```text
/// frame {i}: {length} bytes, {slices} slices, {decisions} decisions
/// frames {n}
/// ```
///
/// Frames are counted from 0; a count of 64 bits stays at its greatest value. Beside what the
/// decoder holds, one payload and one line are held. A frame of an AVI that has no bytes repeats
/// the one before it, and its line is `frame {i}: again`; how many there are is noted.
///
/// The first fault ends it, after the lines of the frames before: those of the file up to its first
/// frame (`NotAvi`, `NoFfv1`, `Truncated`, `ChunkTooLong`), of its record, of the chunks of its
/// frames (`EmptyFrame`, too), of a payload; `NoFrames` at the end if there was none; `Read`,
/// `OutOfMemory` and `Write` as they come. At `Wide`, `Truncated` is also a file that ends inside a
/// `RIFF`, or that has fewer frames than its `dmlh` says, and `NotAvi` one in which something that
/// is no `RIFF` comes after the last one; and a file that begins with the byte 1A is Matroska, with
/// the faults that `MatroskaReader::open` and `MatroskaReader::next_frame` name in place of those
/// of AVI; `NoTracks` says that no Tracks stand anywhere in its Segment, if the input can begin
/// again. With `place` one line more is written if a payload is refused, and at `Wide` if the file
/// itself is; if that line cannot be written, the fault stays what it is:
///
/// ```text
/// fault frame {i} slice {s} plane {p} line {l} x {x} decisions {d}
/// fault frame {i} byte {offset}
/// ```
///
/// The second is written of `NotAvi`, `NoFfv1`, `Truncated`, `ChunkTooLong`, `EmptyFrame`, `Read`,
/// `Another` and the faults of Matroska. Its frame is the one that would come next, 0 up to the
/// first one; its offset is how many bytes of the file come before the element or the chunk that is
/// refused, or before what comes after all of them.
///
/// At the end, what comes after the file is looked at, as `FileReader::look_behind`
/// does: `Another` if another file begins there, after the lines of all frames; else the answer is
/// what it notes.
pub fn check<R: AgainIn, W: ByteOut, A: Allocator + Copy>(
    alloc: A,
    profile: Profile,
    input: &mut R,
    output: &mut W,
    place: bool,
) -> Result<Notes, Fault>
    ensures ok { IfOk result (CheckDone profile place
        (passage R.remaining R.failures input.old input.new)
        (passage W.contents W.failures output.old output.new)) }
    ensures err { IfErr result (CheckStops profile place
        (passage R.remaining R.failures input.old input.new)
        (passage W.contents W.failures output.old output.new)) }
    ensures own { IfErr result (IsCheckFault profile) }
    ensures again { IfErr result (IsReadAgain profile (R.begins input.old)
        (passage R.remaining R.failures input.old input.new)) }
{
    files_laws::frames_come_in_turn();
    files_laws::what_is_read_is_a_file();
    check_range(alloc, profile, input, output, place, FrameRange::ALL)
}

/// Opens a file, and passes the frames before a range that begins with this number. If the file is
/// refused, the line of the byte where it is is written, if it is asked for; a write of that which
/// fails is counted, and no fault.
fn open_range<R: AgainIn, W: ByteOut, A: Allocator + Copy>(
    alloc: A,
    profile: Profile,
    input: &mut R,
    output: &mut W,
    byte: bool,
    first: u32,
) -> Result<Player<A>, Fault>
    ensures ok { IfOk result (λ p. OpensRange profile first p.reader p.decoder.accepted
        (passage R.remaining R.failures input.old input.new)) }
    ensures located { IfOk result (λ p. Stands (scope_in profile) (R.remaining input.old)
        (R.remaining input.new) p.reader) }
    ensures silent { OnOk result (output.new ≡ output.old) }
    ensures err { IfErr result (LacksRange profile byte first
        (passage R.remaining R.failures input.old input.new)
        (passage W.contents W.failures output.old output.new)) }
    ensures own { IfErr result (IsCheckFault profile) }
    ensures again { IfErr result (IsReadAgain profile (R.begins input.old)
        (passage R.remaining R.failures input.old input.new)) }
{
    let mut offset = 0u64;
    match open_player_located(alloc, profile, input, &mut offset) {
        Err(fault) => {
            tell_byte(output, byte, 0, offset, fault);
            Err(fault)
        }
        Ok(mut player) => {
            let mut passed = 0u64;
            match pass_frames(&mut player, input, first, &mut passed) {
                Err(fault) => {
                    tell_byte(output, byte, passed, player.offset, fault);
                    Err(fault)
                }
                Ok(()) => Ok(player),
            }
        }
    }
}

/// Decodes the frames of a range of a file that the profile reads, and writes a line of each as
/// soon as it is decoded, and at the end how many of the range there were, as `check` does. The
/// numbers are those of the file. The frames before the range are read, and not decoded. If there
/// are as many as the range names, nothing after them is read.
///
/// The faults are those of `check`, as far as the file is read; `NoFrames` is also a file that has
/// no frame of the range. Nothing is noted if the end of the file is not read, as where there are
/// as many frames as the range names.
pub fn check_range<R: AgainIn, W: ByteOut, A: Allocator + Copy>(
    alloc: A,
    profile: Profile,
    input: &mut R,
    output: &mut W,
    place: bool,
    range: FrameRange,
) -> Result<Notes, Fault>
    ensures ok { IfOk result (CheckRangeDone profile place range
        (passage R.remaining R.failures input.old input.new)
        (passage W.contents W.failures output.old output.new)) }
    ensures err { IfErr result (CheckRangeStops profile place range
        (passage R.remaining R.failures input.old input.new)
        (passage W.contents W.failures output.old output.new)) }
    ensures own { IfErr result (IsCheckFault profile) }
    ensures again { IfErr result (IsReadAgain profile (R.begins input.old)
        (passage R.remaining R.failures input.old input.new)) }
{
    let byte = profile.tells_byte(place);
    let mut player = open_range(alloc, profile, input, output, byte, range.first)?;
    let telling = Telling {
        kind: FrameLine::Sizes,
        places: Places { place, byte },
    };
    let count = tell_frames(alloc, &mut player, input, output, telling, range)?;
    if count == 0 {
        return Err(Fault::NoFrames);
    }
    write_count(alloc, output, count)?;
    Ok(notes_after(player.notes, range.count, count))
}

/// Writes how many frames there were, and how many faults.
pub(crate) fn write_counts<W: ByteOut, A: Allocator + Copy>(
    alloc: A,
    output: &mut W,
    frames: u64,
    faults: u64,
) -> Result<(), Fault>
    ensures { WritesFrame (counts_line frames faults)
        (passage W.contents W.failures output.old output.new) result }
{
    let mut text = Vec::new(alloc);
    put_counts(&mut text, frames, faults)?;
    if write_all(output, &text).is_err() {
        return Err(Fault::Write);
    }
    Ok(())
}

/// Decodes all frames of a file that the profile reads, and goes on after a payload that is
/// refused; at `Wide` also after a fault of the file itself among its frames, as
/// `FileReader::next_item` does. Writes a line of each frame as soon as it is judged, and of each
/// such fault with the number of bytes of the file before the element or chunk at fault, and at the
/// end how many frames there were, and how many faults of both kinds:
///
/// ```text
/// frame {i}: {length} bytes, {slices} slices, {decisions} decisions
/// frame {i}: fault {number} {name}
/// byte {offset}: fault {number} {name}
/// frames {n} faults {m}
/// ```
///
/// With `place` a frame that is refused has a line more, after its own:
///
/// ```text
/// fault frame {i} slice {s} plane {p} line {l} x {x} decisions {d}
/// ```
///
/// A frame of an AVI that has no bytes has the line that `check` writes of it, and no fault.
///
/// A Matroska file is read once up to its first frame, as `FileReader::open_told` does: the CRC-32
/// of the header of EBML or of an element that is not the sum, `Checksum`, and an element of known
/// size that may not stand in a Segment, `BadElement`, are told first, at most sixteen, and each is
/// one fault. If a fault ends that before the first frame, the lines of what is told are written,
/// and it is the answer. So these two are an answer only if they can't be told: the seventeenth
/// fault, and an element of unknown size.
///
/// If the first Cluster comes before any Tracks, and the input can begin again, the file is read
/// from its beginning again, as `check` does. If Tracks stand behind the first Cluster of a damaged
/// file, it is read twice so: up to these Tracks, whatever would be told on the way, and then with
/// their track, and only what comes before the first Cluster is told first. `NoTracks` is the
/// answer if there are none at all, at the first Cluster.
///
/// Answers the first fault of either kind, and None if there is none, and what is noted of the end,
/// as `check` does. If another file begins after it, that is told, too: the line of a fault with
/// the number of bytes before it, and one fault more. A Segment of unknown size is open if no Cues
/// came after the last Cluster that was read. Frames are counted from 0; a count of 64 bits stays
/// at its greatest value, and at `Wide` at most 2^64 - 1 frames and faults are judged. Beside what
/// the decoder holds, one payload and its lines are held.
///
/// All other faults end it as they end `check`, after the lines of the frames before: those of the
/// file up to its first frame, of its record, and at `Strict` of the chunks of its frames
/// (`EmptyFrame`, too); `NoFrames` at the end if there was neither a frame nor a fault; `Read`,
/// `OutOfMemory` and `Write` as they come, `Write` also if the line of a frame's place, or of a
/// fault that is told, is not written. With `place`, at `Wide`, a fault of the file up to its first
/// frame has the line of its byte, as `check` writes it, after the lines of what is told; not so a
/// read that fails among the frames.
pub fn check_all<R: AgainIn, W: ByteOut, A: Allocator + Copy>(
    alloc: A,
    profile: Profile,
    input: &mut R,
    output: &mut W,
    place: bool,
) -> Result<(Option<Fault>, Notes), Fault>
    ensures ok { IfOk result (λ told. AllDone profile place
        (passage R.remaining R.failures input.old input.new)
        (passage W.contents W.failures output.old output.new) told.0 told.1) }
    ensures err { IfErr result (AllStops profile place
        (passage R.remaining R.failures input.old input.new)
        (passage W.contents W.failures output.old output.new)) }
    ensures own { IfErr result (IsCheckFault profile) }
    ensures again { IfErr result (IsReadAgainTelling profile (R.begins input.old)
        (passage R.remaining R.failures input.old input.new)) }
    ensures tried { IfErr result (IsTried (passage R.remaining R.failures input.old input.new)) }
{
    let byte = profile.tells_byte(place);
    let mut offset = 0u64;
    let mut told = none_told(alloc);
    let mut way = Way::Plainly;
    match open_telling(alloc, profile, input, &mut offset, &mut told, &mut way) {
        Err(fault) => Err(tell_refused(alloc, output, &told, refused_at(fault, offset, byte))),
        Ok(mut player) => {
            if way.tells() {
                return judge_told(alloc, &mut player, &told, input, output, place);
            }
            if is_plain(player.reader.course()) {
                judge_plainly(alloc, &mut player, input, output, Places { place, byte })
            } else {
                judge_on(alloc, &mut player, input, output, place)
            }
        }
    }
}

/// Decodes the frames of a range of a file that the profile reads, and goes on after a payload that
/// is refused, as `check_all` does: a frame that is refused is one of the range. The numbers are
/// those of the file, the last line has the frames of the range, and how many of them are refused.
/// The frames before the range are read, and not decoded. If there are as many as the range names,
/// nothing after them is read.
///
/// Answers the fault of the first payload of the range that is refused, and None if none is, and
/// what is noted of the end: nothing, if that is not read. The first fault of the file itself ends
/// it, in a Matroska file, too, which `check_all` reads on. The faults are those of `check`, as far
/// as the file is read; `NoFrames` is also a file that has no frame of the range.
pub fn check_all_range<R: AgainIn, W: ByteOut, A: Allocator + Copy>(
    alloc: A,
    profile: Profile,
    input: &mut R,
    output: &mut W,
    place: bool,
    range: FrameRange,
) -> Result<(Option<Fault>, Notes), Fault>
    ensures ok { IfOk result (λ told. CheckAllRangeDone profile place range
        (passage R.remaining R.failures input.old input.new)
        (passage W.contents W.failures output.old output.new) told.0 told.1) }
    ensures err { IfErr result (CheckAllRangeStops profile place range
        (passage R.remaining R.failures input.old input.new)
        (passage W.contents W.failures output.old output.new)) }
    ensures own { IfErr result (IsCheckFault profile) }
    ensures again { IfErr result (IsReadAgain profile (R.begins input.old)
        (passage R.remaining R.failures input.old input.new)) }
{
    let byte = profile.tells_byte(place);
    let mut player = open_range(alloc, profile, input, output, byte, range.first)?;
    let places = Places { place, byte };
    let counts = judge_frames(alloc, &mut player, input, output, places, range)?;
    if counts.frames == 0 {
        return Err(Fault::NoFrames);
    }
    write_counts(alloc, output, counts.frames, counts.faults)?;
    let notes = notes_after(player.notes, range.count, counts.frames);
    Ok((counts.first, notes))
}
