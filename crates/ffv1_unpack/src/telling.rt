//! Decodes frames one after the other, and writes a line of each at once.

ghost use Rattle.std.specs.Prelude.{◌≡◌, ◌<◌, IfErr, IfOk, None, OnOk, true, length, List, []};
ghost use Rattle.ffv1_wire.specs.Passage.{passage};
ghost use Rattle.ffv1_range.specs.Counts.{saturated};
ghost use Rattle.ffv1_record.specs.Accepted.{IsAccepted};
ghost use Rattle.ffv1_files.specs.Places.{amount, container_of};
ghost use Rattle.ffv1_unpack.specs.FrameLines.{again_line, frame_line, lines_from, place_text};
ghost use Rattle.ffv1_unpack.specs.Located.{WritesLine, located_text};
ghost use Rattle.ffv1_unpack.specs.Internal.Located.{EndsNoted, LocatedAfter, StaysReached};
ghost use Rattle.ffv1_unpack.specs.Plays.{HasThen, has_more};
ghost use Rattle.ffv1_unpack.specs.Internal.Plays.{PlaysMost};
ghost use Rattle.ffv1_unpack.specs.Stream.{Frame, IsFrame, frame_payload};
ghost use Rattle.ffv1_unpack.specs.Internal.Told.{FrameAnswers, IsToldFault, TellingStops};
ghost use Rattle.ffv1_unpack.specs.Internal.Told.{WritesFrame};
ghost use Rattle.std.specs.Prelude.{false, ℕ};

use crate::frame_line::{FrameLine, put_again, put_cost, put_sizes, write_offset, write_place};
use crate::passing::has_more;
use crate::player::{NextFrame, Player, Stop, play};
use ffv1_codec::{DropLines, FrameDecoder, FrameFault, laws as codec_laws};
use ffv1_video::Fault;
use ffv1_wire::{ByteIn, ByteOut, write_all};
use ffv1_words::FrameRange;
use std::alloc::{AllocError, Allocator};

/// Which places of faults are written.
#[derive(Clone, Copy, Debug, PartialEq, Eq)]
pub struct Places {
    /// The one where a payload is refused.
    pub place: bool,
    /// The byte of the file where that is.
    pub byte: bool,
}

/// What is written of frames.
#[derive(Clone, Copy, Debug, PartialEq, Eq)]
pub struct Telling {
    /// The line of each one that is decoded.
    pub kind: FrameLine,
    /// Which places of faults.
    pub places: Places,
}

/// The line of a frame that was decoded last, in place of what the text has.
fn put_line<A: Allocator>(
    text: &mut Vec<u8, A>,
    kind: FrameLine,
    number: u64,
    payload: &[u8],
    decoder: &FrameDecoder<A>,
) -> Result<(), AllocError>
    ensures { OnOk result (text.new.items ≡ frame_line kind decoder.now.accepted.configuration
        number payload.now decoder.now.tally) }
{
    match kind {
        FrameLine::Sizes => {
            let config = decoder.config().config();
            let slices = u64::from(config.columns) * u64::from(config.rows);
            put_sizes(
                text,
                number,
                payload.len() as u64,
                slices,
                decoder.decisions(),
            )?;
            Ok(())
        }
        FrameLine::Cost => {
            put_cost(text, number, decoder.tally())?;
            Ok(())
        }
    }
}

/// Writes the line of the frame that was decoded last.
pub(crate) fn write_line<W: ByteOut, A: Allocator>(
    output: &mut W,
    text: &mut Vec<u8, A>,
    kind: FrameLine,
    number: u64,
    payload: &[u8],
    decoder: &FrameDecoder<A>,
) -> Result<(), Fault>
    ensures { WritesFrame (frame_line kind decoder.now.accepted.configuration number payload.now
        decoder.now.tally) (passage W.contents W.failures output.old output.new) result }
{
    put_line(text, kind, number, payload, decoder)?;
    if write_all(output, text).is_err() {
        return Err(Fault::Write);
    }
    Ok(())
}

/// Writes the line of a frame that repeats the one before it.
pub(crate) fn write_again<W: ByteOut, A: Allocator>(
    output: &mut W,
    text: &mut Vec<u8, A>,
    kind: FrameLine,
    number: u64,
) -> Result<(), Fault>
    ensures { WritesFrame (again_line kind number)
        (passage W.contents W.failures output.old output.new) result }
{
    put_again(text, kind, number)?;
    if write_all(output, text).is_err() {
        return Err(Fault::Write);
    }
    Ok(())
}

/// Writes the line of the place where a frame is refused, if it is asked for. A write that fails
/// is counted, and no fault.
fn tell_place<W: ByteOut, A: Allocator>(
    output: &mut W,
    place: bool,
    number: u64,
    fault: FrameFault,
    decoder: &FrameDecoder<A>,
)
    ensures { WritesLine [] (place_text place number fault decoder.now.tally)
        (passage W.contents W.failures output.old output.new) }
{
    if !place {
        return;
    }
    let _told = write_place(output, number, fault, decoder.decisions());
}

/// Writes the line of the byte where a file is refused, if it is asked for and the fault is the
/// file's own. A write that fails is counted, and no fault.
pub(crate) fn tell_byte<W: ByteOut>(
    output: &mut W,
    byte: bool,
    number: u64,
    offset: u64,
    fault: Fault,
)
    ensures { WritesLine [] (located_text byte number fault offset)
        (passage W.contents W.failures output.old output.new) }
{
    if !byte {
        return;
    }
    if !fault.is_of_file() {
        return;
    }
    let _told = write_offset(output, number, offset);
}

/// Reads the next frame, decodes it, and writes its line, or that of the place where it is refused,
/// or of the byte where the file is. One that repeats another is not decoded. Answers false if
/// there is none.
fn tell_frame<R: ByteIn, W: ByteOut, A: Allocator>(
    player: &mut Player<A>,
    input: &mut R,
    output: &mut W,
    text: &mut Vec<u8, A>,
    telling: Telling,
    number: u64,
) -> Result<bool, Fault>
    requires sound { player.old.reader.fault ≡ None }
    requires accepted { IsAccepted player.old.decoder.accepted.configuration
        player.old.decoder.accepted.table }
    ensures answer { FrameAnswers telling.kind telling.places.place telling.places.byte
        player.old.decoder.accepted number player.old.reader player.new.reader.place
        (passage R.remaining R.failures input.old input.new)
        (passage W.contents W.failures output.old output.new) player.new.notes result }
    ensures sound { OnOk result (player.new.reader.fault ≡ None) }
    ensures less { IfOk result (λ more. more ≡ true →
        amount player.new.reader.place < amount player.old.reader.place) }
    ensures reached { IfOk result (λ more. more ≡ true → StaysReached player.old.reader
        player.new.reader (passage R.remaining R.failures input.old input.new)) }
    ensures noted { IfOk result (λ more. more ≡ false → EndsNoted player.old.reader
        (passage R.remaining R.failures input.old input.new) player.new.notes) }
    ensures same { player.new.decoder.accepted ≡ player.old.decoder.accepted }
    ensures container { container_of player.new.reader.place
        ≡ container_of player.old.reader.place }
    ensures own { IfErr result (IsToldFault player.old.reader (R.remaining input.old)) }
{
    codec_laws::answer::answer_is_ok_for_coded_pictures::<DropLines>();
    codec_laws::answer::answered_fault_is_of_decoding::<DropLines>();
    codec_laws::sink::sinks_of_own_lines_refuse_none();
    let mut sink = DropLines::new(player.decoder.config());
    match play(player, input, &mut sink) {
        Ok(NextFrame::End) => Ok(false),
        Ok(NextFrame::Coded(_info)) => {
            let kind = telling.kind;
            write_line(output, text, kind, number, &player.payload, &player.decoder)?;
            Ok(true)
        }
        Ok(NextFrame::Again) => {
            write_again(output, text, telling.kind, number)?;
            Ok(true)
        }
        Err(Stop::File(fault)) => {
            let fault = Fault::from(fault);
            tell_byte(output, telling.places.byte, number, player.offset, fault);
            Err(fault)
        }
        Err(Stop::Payload(fault)) => {
            tell_place(output, telling.places.place, number, fault, &player.decoder);
            Err(Fault::from(fault.fault))
        }
    }
}

/// Decodes the frames that are left, of a range whose first one comes next, and writes the line of
/// each as soon as it is decoded. Answers how many there were, at most 2^64 - 1; what is noted of
/// the end is in the player, if it was read.
pub(crate) fn tell_frames<R: ByteIn, W: ByteOut, A: Allocator + Copy>(
    alloc: A,
    player: &mut Player<A>,
    input: &mut R,
    output: &mut W,
    telling: Telling,
    range: FrameRange,
) -> Result<u64, Fault>
    requires sound { player.old.reader.fault ≡ None }
    requires accepted { IsAccepted player.old.decoder.accepted.configuration
        player.old.decoder.accepted.table }
    ensures ok { IfOk result (λ n. (frames : List Frame) × (n ≡ saturated (length frames))
        × PlaysMost (IsFrame player.old.decoder.accepted) frame_payload
        (HasThen player.old.reader.place)
        (lines_from telling.kind player.old.decoder.accepted.configuration range.first)
        (passage R.remaining R.failures input.old input.new)
        (passage W.contents W.failures output.old output.new) player.new.notes range.count
        frames) }
    ensures err { IfErr result (TellingStops (HasThen player.old.reader.place)
        telling.kind range telling.places.place player.old.decoder.accepted
        (passage R.remaining R.failures input.old input.new)
        (passage W.contents W.failures output.old output.new)
        (LocatedAfter player.old.reader (passage R.remaining R.failures input.old input.new))
        telling.places.byte) }
    ensures own { IfErr result (IsToldFault player.old.reader (R.remaining input.old)) }
    ensures noted { IfOk result (λ n. (k : ℕ) → n ≡ saturated k → has_more range.count k ≡ true →
        EndsNoted player.old.reader (passage R.remaining R.failures input.old input.new)
        player.new.notes) }
{
    let mut text = Vec::new(alloc);
    let mut count = 0u64;
    'frames: while has_more(range.count, count) {
        let number = count.saturating_add(u64::from(range.first));
        if !tell_frame(player, input, output, &mut text, telling, number)? {
            return Ok(count);
        }
        count = count.saturating_add(1);
    }
    Ok(count)
}
