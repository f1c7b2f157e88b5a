//! Judges frames one after the other, and writes the lines of each at once, whether it is decoded
//! or refused.

ghost use Rattle.std.specs.Prelude.{◌≡◌, ◌++◌, ◌<◌, IfErr, IfOk, List, None, OnOk, true, false, ℕ};
ghost use Rattle.ffv1_wire.specs.Passage.{passage};
ghost use Rattle.ffv1_record.specs.Accepted.{IsAccepted};
ghost use Rattle.ffv1_files.specs.Places.{amount, container_of};
ghost use Rattle.ffv1_video.specs.Faults.{cause_of};
ghost use Rattle.ffv1_unpack.specs.FrameLines.{place_text};
ghost use Rattle.ffv1_unpack.specs.Judged.{IsJudged, Judged, judged_from, payload_of, refused_line};
ghost use Rattle.ffv1_unpack.specs.Internal.Judged.{AreCounts, JudgeAnswers, one_counted};
ghost use Rattle.ffv1_unpack.specs.Internal.JudgedItems.{told_counted};
ghost use Rattle.ffv1_unpack.specs.Internal.Located.{EndsNoted, LocatedAfter, StaysReached};
ghost use Rattle.ffv1_unpack.specs.Plays.{GoesFrom, HasThen, has_more};
ghost use Rattle.ffv1_unpack.specs.Ranges.{number_in};
ghost use Rattle.ffv1_unpack.specs.Internal.Plays.{PlaysMost};
ghost use Rattle.ffv1_unpack.specs.Internal.Told.{IsToldFault, WritesFrame};
ghost use Rattle.ffv1_range.specs.Counts.{saturated};

use crate::frame_line::{FrameLine, put_refused, write_place};
use crate::passing::has_more;
use crate::player::{NextFrame, Player, Stop, play};
use crate::telling::{Places, tell_byte, write_again, write_line};
use ffv1_codec::{CodecFault, DropLines, FrameDecoder, FrameFault, laws as codec_laws};
use ffv1_video::Fault;
use ffv1_wire::{ByteIn, ByteOut, write_all};
use ffv1_words::FrameRange;
use std::alloc::Allocator;

/// How many frames were judged, and how many faults there were. A count of 64 bits stays at its
/// greatest value.
#[derive(Clone, Copy, Debug, PartialEq, Eq)]
pub struct JudgedCounts {
    /// The frames.
    pub frames: u64,
    /// Those of them that are refused, and the faults of the file that were told.
    pub faults: u64,
    /// The first fault.
    pub first: Option<Fault>,
}

impl JudgedCounts {
    /// Counts one fault more of the file.
    pub(crate) fn tell(&mut self, fault: Fault)
        ensures { self.new ≡ told_counted self.old fault }
    {
        self.faults = self.faults.saturating_add(1);
        if self.first.is_none() {
            self.first = Some(fault);
        }
    }

    /// Counts one frame more, with its fault if it is refused.
    pub(crate) fn count(&mut self, fault: Option<Fault>)
        ensures { self.new ≡ one_counted self.old fault }
    {
        self.frames = self.frames.saturating_add(1);
        if let Some(fault) = fault {
            self.faults = self.faults.saturating_add(1);
            if self.first.is_none() {
                self.first = Some(fault);
            }
        }
    }
}

/// Writes the line of a frame that is refused.
pub(crate) fn write_refused<W: ByteOut, A: Allocator>(
    output: &mut W,
    text: &mut Vec<u8, A>,
    number: u64,
    fault: CodecFault,
) -> Result<(), Fault>
    ensures { WritesFrame (refused_line number fault)
        (passage W.contents W.failures output.old output.new) result }
{
    put_refused(text, number, fault)?;
    if write_all(output, text).is_err() {
        return Err(Fault::Write);
    }
    Ok(())
}

/// Writes the line of a frame that is refused, and with `place` that of the place.
pub(crate) fn write_refusal<W: ByteOut, A: Allocator>(
    output: &mut W,
    text: &mut Vec<u8, A>,
    place: bool,
    number: u64,
    fault: FrameFault,
    decoder: &FrameDecoder<A>,
) -> Result<(), Fault>
    ensures { WritesFrame
        (refused_line number fault.fault ++ place_text place number fault decoder.now.tally)
        (passage W.contents W.failures output.old output.new) result }
{
    write_refused(output, text, number, fault.fault)?;
    if place && write_place(output, number, fault, decoder.decisions()).is_err() {
        return Err(Fault::Write);
    }
    Ok(())
}

/// What is told of the next frame to judge.
#[derive(Clone, Copy)]
struct Judging {
    /// Which places of faults are written.
    places: Places,
    /// The number of the frame.
    number: u64,
}

/// Reads the next frame and decodes it, writes its lines and counts it, whether it is decoded or
/// refused. Answers false if there is none.
fn judge_frame<R: ByteIn, W: ByteOut, A: Allocator>(
    player: &mut Player<A>,
    input: &mut R,
    output: &mut W,
    text: &mut Vec<u8, A>,
    judging: Judging,
    counts: &mut JudgedCounts,
) -> Result<bool, Fault>
    requires sound { player.old.reader.fault ≡ None }
    requires accepted { IsAccepted player.old.decoder.accepted.configuration
        player.old.decoder.accepted.table }
    ensures answer { JudgeAnswers judging.places.place judging.places.byte
        player.old.decoder.accepted judging.number player.old.reader player.new.reader.place
        (passage R.remaining R.failures input.old input.new)
        (passage W.contents W.failures output.old output.new) player.new.notes counts.old
        counts.new result }
    ensures sound { OnOk result (player.new.reader.fault ≡ None) }
    ensures less { IfOk result (λ more. more ≡ true →
        amount player.new.reader.place < amount player.old.reader.place) }
    ensures reached { IfOk result (λ more. more ≡ true → StaysReached player.old.reader
        player.new.reader (passage R.remaining R.failures input.old input.new)) }
    ensures noted { IfOk result (λ more. more ≡ false → EndsNoted player.old.reader
        (passage R.remaining R.failures input.old input.new) player.new.notes) }
    ensures same { player.new.decoder.accepted ≡ player.old.decoder.accepted }
    ensures container { container_of player.new.reader.place
        ≡ container_of player.old.reader.place }
    ensures own { IfErr result (IsToldFault player.old.reader (R.remaining input.old)) }
{
    codec_laws::answer::answer_is_ok_for_coded_pictures::<DropLines>();
    codec_laws::answer::answered_fault_is_of_decoding::<DropLines>();
    codec_laws::sink::sinks_of_own_lines_refuse_none();
    let places = judging.places;
    let number = judging.number;
    let mut sink = DropLines::new(player.decoder.config());
    match play(player, input, &mut sink) {
        Ok(NextFrame::End) => Ok(false),
        Ok(NextFrame::Coded(_info)) => {
            let kind = FrameLine::Sizes;
            write_line(output, text, kind, number, &player.payload, &player.decoder)?;
            counts.count(None);
            Ok(true)
        }
        Ok(NextFrame::Again) => {
            write_again(output, text, FrameLine::Sizes, number)?;
            counts.count(None);
            Ok(true)
        }
        Err(Stop::File(fault)) => {
            let fault = Fault::from(fault);
            tell_byte(output, places.byte, number, player.offset, fault);
            Err(fault)
        }
        Err(Stop::Payload(fault)) => {
            write_refusal(output, text, places.place, number, fault, &player.decoder)?;
            counts.count(Some(Fault::from(fault.fault)));
            Ok(true)
        }
    }
}

/// Judges the frames that are left, of a range whose first one comes next, and writes the lines of
/// each as soon as it is judged. Answers how many there were, and how many of them are refused;
/// what is noted of the end is in the player, if it was read.
pub(crate) fn judge_frames<R: ByteIn, W: ByteOut, A: Allocator + Copy>(
    alloc: A,
    player: &mut Player<A>,
    input: &mut R,
    output: &mut W,
    places: Places,
    range: FrameRange,
) -> Result<JudgedCounts, Fault>
    requires sound { player.old.reader.fault ≡ None }
    requires accepted { IsAccepted player.old.decoder.accepted.configuration
        player.old.decoder.accepted.table }
    ensures ok { IfOk result (λ counts. (js : List Judged) × AreCounts counts js
        × PlaysMost (IsJudged player.old.decoder.accepted) payload_of
        (HasThen player.old.reader.place)
        (judged_from places.place player.old.decoder.accepted.configuration range.first)
        (passage R.remaining R.failures input.old input.new)
        (passage W.contents W.failures output.old output.new) player.new.notes range.count
        js) }
    ensures err { IfErr result (λ f. GoesFrom (IsJudged player.old.decoder.accepted) payload_of
        (HasThen player.old.reader.place)
        (judged_from places.place player.old.decoder.accepted.configuration range.first)
        (passage R.remaining R.failures input.old input.new)
        (passage W.contents W.failures output.old output.new) (number_in range)
        (LocatedAfter player.old.reader (passage R.remaining R.failures input.old input.new))
        places.byte f (cause_of f)) }
    ensures own { IfErr result (IsToldFault player.old.reader (R.remaining input.old)) }
    ensures noted { IfOk result (λ counts. (k : ℕ) → counts.frames ≡ saturated k →
        has_more range.count k ≡ true →
        EndsNoted player.old.reader (passage R.remaining R.failures input.old input.new)
        player.new.notes) }
{
    let mut text = Vec::new(alloc);
    let mut counts = JudgedCounts {
        frames: 0,
        faults: 0,
        first: None,
    };
    'frames: while has_more(range.count, counts.frames) {
        let number = counts.frames.saturating_add(u64::from(range.first));
        let judging = Judging { places, number };
        if !judge_frame(player, input, output, &mut text, judging, &mut counts)? {
            return Ok(counts);
        }
    }
    Ok(counts)
}
