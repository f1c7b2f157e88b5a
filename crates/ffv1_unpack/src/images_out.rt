//! Writes the pictures of a file as PPM, each row when it is decoded.

ghost use Rattle.std.specs.Prelude.{◌≡◌, ◌<◌, ℕ, IfErr, IfOk, List, length, None, OnOk, false};
ghost use Rattle.std.specs.Prelude.{[], true};
ghost use Rattle.ffv1_wire.specs.Passage.{passage};
ghost use Rattle.ffv1_range.specs.Counts.{saturated};
ghost use Rattle.ffv1_record.specs.Accepted.{IsAccepted};
ghost use Rattle.ffv1_record.specs.Configuration.{is_rct};
ghost use Rattle.ffv1_files.specs.Places.{amount, container_of};
ghost use Rattle.ffv1_unpack.specs.Internal.ImagesOut.{IsLastPayload, IsSinkFor, RepeatsImage};
ghost use Rattle.ffv1_unpack.specs.Internal.ImagesOut.{WritesImage};
ghost use Rattle.ffv1_unpack.specs.Internal.Opens.{stream_of};
ghost use Rattle.ffv1_unpack.specs.Stream.{AreFrames, Frame, Stream};
ghost use Rattle.ffv1_video.specs.declared.fault.Fault.TheVariants as fault;
ghost use Rattle.ffv1_unpack.specs.Internal.Unpack.{IsWritingFault};
ghost use Rattle.ffv1_unpack.specs.Unpacking.{UnpackingStopsIn, UnpacksMost};
ghost use Rattle.ffv1_unpack.specs.Plays.{has_more};
ghost use Rattle.ffv1_unpack.specs.Ranges.{NextShows};
ghost use Rattle.ffv1_unpack.specs.Internal.Carried.{ShowsThen};
ghost use Rattle.ffv1_video.specs.Faults.{cause_of};
ghost use Rattle.ffv1_unpack.specs.Internal.Located.{EndsNoted, StaysReached};

use crate::carrying::play_carried;
use crate::passing::has_more;
use crate::picture_out::PictureOut;
use crate::player::{NextFrame, Player, Stop};
use ffv1_codec::{CodecFault, FrameDecoder, laws as codec_laws};
use ffv1_record::laws as record_laws;
use ffv1_video::Fault;
use ffv1_wire::{ByteIn, ByteOut};
use ffv1_y4m::{PpmWriter, laws as y4m_laws};
use std::alloc::Allocator;
use std::mem::swap;

/// Writes the last image once more, which this payload codes; nothing if it has no bytes, as before
/// the first one.
fn repeat_image<W: ByteOut, A: Allocator>(
    decoder: &mut FrameDecoder<A>,
    sink: &mut PpmWriter<W, A>,
    last: &[u8],
) -> Result<(), Fault>
    requires accepted { IsAccepted decoder.old.accepted.configuration decoder.old.accepted.table }
    requires colour { is_rct decoder.old.accepted.configuration.colour ≡ true }
    requires opaque { decoder.old.accepted.configuration.extra_plane ≡ false }
    requires sink { IsSinkFor decoder.old.accepted.configuration sink.old }
    ensures answer { (s : Stream) (frames : List Frame) → s.accepted ≡ decoder.old.accepted →
        AreFrames decoder.old.accepted frames → IsLastPayload frames last.now →
        RepeatsImage decoder.old.accepted frames last.now
        (passage W.contents W.failures sink.old.out sink.new.out) result }
    ensures sink { (s : Stream) (frames : List Frame) → s.accepted ≡ decoder.old.accepted →
        AreFrames decoder.old.accepted frames → IsLastPayload frames last.now →
        OnOk result (IsSinkFor decoder.old.accepted.configuration sink.new) }
    ensures same { decoder.new.accepted ≡ decoder.old.accepted }
    ensures own { IfErr result (λ f. f ≡ fault.Write) }
{
    if last.is_empty() {
        return Ok(());
    }
    sink.put(decoder, last)?;
    Ok(())
}

/// Reads the next frame, and decodes it into an image; one that repeats another is the last image
/// once more, whose payload is kept. One without bytes is the image of what is carried over to it.
/// Answers false if there is none.
fn write_next<R: ByteIn, W: ByteOut, A: Allocator>(
    player: &mut Player<A>,
    input: &mut R,
    sink: &mut PpmWriter<W, A>,
    last: &mut Vec<u8, A>,
    carried: &mut Vec<u8, A>,
) -> Result<bool, Fault>
    requires sound { player.old.reader.fault ≡ None }
    requires accepted { IsAccepted player.old.decoder.accepted.configuration
        player.old.decoder.accepted.table }
    requires colour { is_rct player.old.decoder.accepted.configuration.colour ≡ true }
    requires opaque { player.old.decoder.accepted.configuration.extra_plane ≡ false }
    requires sink { IsSinkFor player.old.decoder.accepted.configuration sink.old }
    ensures answer { (frames : List Frame) → AreFrames player.old.decoder.accepted frames →
        IsLastPayload frames last.old.items →
        WritesImage player.old.decoder.accepted carried.old.items frames
        player.old.reader.place player.new.reader.place
        (passage R.remaining R.failures input.old input.new)
        (passage W.contents W.failures sink.old.out sink.new.out) player.new.notes last.new.items
        result }
    ensures sink { (frames : List Frame) → AreFrames player.old.decoder.accepted frames →
        IsLastPayload frames last.old.items →
        OnOk result (IsSinkFor player.old.decoder.accepted.configuration sink.new) }
    ensures none { IfOk result (λ more. more ≡ true → carried.new.items ≡ []) }
    ensures sound { OnOk result (player.new.reader.fault ≡ None) }
    ensures less { IfOk result (λ more. more ≡ true →
        amount player.new.reader.place < amount player.old.reader.place) }
    ensures reached { IfOk result (λ more. more ≡ true → StaysReached player.old.reader
        player.new.reader (passage R.remaining R.failures input.old input.new)) }
    ensures noted { IfOk result (λ more. more ≡ false → EndsNoted player.old.reader
        (passage R.remaining R.failures input.old input.new) player.new.notes) }
    ensures same { player.new.decoder.accepted ≡ player.old.decoder.accepted }
    ensures container { container_of player.new.reader.place
        ≡ container_of player.old.reader.place }
    ensures own { IfErr result (IsWritingFault player.old.reader (R.remaining input.old)) }
{
    codec_laws::answer::answer_is_ok_for_coded_pictures::<PpmWriter<W, A>>();
    codec_laws::answer::answered_fault_is_of_decoding::<PpmWriter<W, A>>();
    codec_laws::sink::sink_fault_is_a_refused_line::<PpmWriter<W, A>>();
    codec_laws::sink::offered_lines_fit_the_configuration();
    codec_laws::sink::lines_are_handed_in_turn();
    codec_laws::sink::rct_planes_have_the_picture_size();
    record_laws::accepted_configuration_is_in_range();
    record_laws::accepted_configuration_has_sound_parts();
    y4m_laws::image_is_written_after_the_others::<W>();
    y4m_laws::sink_writes_the_lines_it_took::<W>();
    y4m_laws::sink_takes_the_next_line::<W>();
    match play_carried(player, input, sink, carried) {
        Ok(NextFrame::End) => Ok(false),
        Ok(NextFrame::Coded(_info)) => {
            swap(&mut player.payload, last);
            Ok(true)
        }
        Ok(NextFrame::Again) => {
            repeat_image(&mut player.decoder, sink, last)?;
            Ok(true)
        }
        Err(Stop::File(fault)) => Err(Fault::from(fault)),
        Err(Stop::Payload(fault)) => match fault.fault {
            // The sink refuses no line of the pictures but one whose row cannot be written.
            CodecFault::Sink => Err(Fault::Write),
            fault => Err(Fault::from(fault)),
        },
    }
}

/// Decodes the frames that are left, at most so many, into images; a first one without bytes shows
/// what is carried over to it. Answers how many there were, at most 2^64 - 1.
fn write_all_images<R: ByteIn, W: ByteOut, A: Allocator + Copy>(
    alloc: A,
    player: &mut Player<A>,
    input: &mut R,
    sink: &mut PpmWriter<W, A>,
    most: Option<u32>,
    carried: &mut Vec<u8, A>,
) -> Result<u64, Fault>
    requires sound { player.old.reader.fault ≡ None }
    requires accepted { IsAccepted player.old.decoder.accepted.configuration
        player.old.decoder.accepted.table }
    requires colour { is_rct player.old.decoder.accepted.configuration.colour ≡ true }
    requires opaque { player.old.decoder.accepted.configuration.extra_plane ≡ false }
    requires sink { IsSinkFor player.old.decoder.accepted.configuration sink.old }
    ensures ok { IfOk result (λ n. (frames : List Frame) × (n ≡ saturated (length frames))
        × UnpacksMost (ShowsThen carried.old.items player.old.reader.place)
        (stream_of player.old.reader player.old.decoder.accepted)
        (passage R.remaining R.failures input.old input.new)
        (passage W.contents W.failures sink.old.out sink.new.out) player.new.notes most frames) }
    ensures err { IfErr result (λ f. UnpackingStopsIn
        (ShowsThen carried.old.items player.old.reader.place)
        (stream_of player.old.reader player.old.decoder.accepted)
        (passage R.remaining R.failures input.old input.new)
        (passage W.contents W.failures sink.old.out sink.new.out) (NextShows carried.old.items) f
        (cause_of f)) }
    ensures own { IfErr result (IsWritingFault player.old.reader (R.remaining input.old)) }
    ensures noted { IfOk result (λ n. (k : ℕ) → n ≡ saturated k → has_more most k ≡ true →
        EndsNoted player.old.reader (passage R.remaining R.failures input.old input.new)
        player.new.notes) }
{
    let mut last = Vec::new(alloc);
    let mut count = 0u64;
    'frames: while has_more(most, count) {
        if !write_next(player, input, sink, &mut last, carried)? {
            return Ok(count);
        }
        count = count.saturating_add(1);
    }
    Ok(count)
}

/// Decodes the frames that are left, at most so many, into images, which are written row by row.
/// Answers how many there were, at most 2^64 - 1, and hands the writer back.
pub(crate) fn write_images<R: ByteIn, W: ByteOut, A: Allocator + Copy>(
    alloc: A,
    player: &mut Player<A>,
    input: &mut R,
    output: W,
    most: Option<u32>,
    carried: &mut Vec<u8, A>,
) -> (W, Result<u64, Fault>)
    requires sound { player.old.reader.fault ≡ None }
    requires accepted { IsAccepted player.old.decoder.accepted.configuration
        player.old.decoder.accepted.table }
    requires colour { is_rct player.old.decoder.accepted.configuration.colour ≡ true }
    requires opaque { player.old.decoder.accepted.configuration.extra_plane ≡ false }
    ensures ok { IfOk result.1 (λ n. (frames : List Frame) × (n ≡ saturated (length frames))
        × UnpacksMost (ShowsThen carried.old.items player.old.reader.place)
        (stream_of player.old.reader player.old.decoder.accepted)
        (passage R.remaining R.failures input.old input.new)
        (passage W.contents W.failures output result.0) player.new.notes most frames) }
    ensures err { IfErr result.1 (λ f. UnpackingStopsIn
        (ShowsThen carried.old.items player.old.reader.place)
        (stream_of player.old.reader player.old.decoder.accepted)
        (passage R.remaining R.failures input.old input.new)
        (passage W.contents W.failures output result.0) (NextShows carried.old.items) f
        (cause_of f)) }
    ensures own { IfErr result.1 (IsWritingFault player.old.reader (R.remaining input.old)) }
    ensures noted { IfOk result.1 (λ n. (k : ℕ) → n ≡ saturated k → has_more most k ≡ true →
        EndsNoted player.old.reader (passage R.remaining R.failures input.old input.new)
        player.new.notes) }
{
    let checked = player.decoder.config();
    let config = checked.config();
    match PpmWriter::sized_at(alloc, output, config.width, config.height, checked.depth()) {
        Err((output, fault)) => (output, Err(Fault::from(fault))),
        Ok(mut sink) => {
            let count = write_all_images(alloc, player, input, &mut sink, most, carried);
            (sink.into_inner(), count)
        }
    }
}
