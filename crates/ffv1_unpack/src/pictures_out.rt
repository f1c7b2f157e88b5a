//! Writes the pictures of a file as YUV4MPEG2, each when it is decoded.

ghost use Rattle.std.specs.Prelude.{◌≡◌, ◌<◌, ℕ, IfErr, IfOk, List, None, OnOk, false, length};
ghost use Rattle.std.specs.Prelude.{[], true};
ghost use Rattle.ffv1_wire.specs.Passage.{passage};
ghost use Rattle.ffv1_range.specs.Counts.{saturated};
ghost use Rattle.ffv1_record.specs.Accepted.{IsAccepted};
ghost use Rattle.ffv1_record.specs.Configuration.{is_rct};
ghost use Rattle.ffv1_codec.specs.Picture.{planes_of};
ghost use Rattle.ffv1_codec.specs.SliceList.{Said};
ghost use Rattle.ffv1_reads.specs.Head.{head_of};
ghost use Rattle.ffv1_files.specs.Places.{amount, container_of};
ghost use Rattle.ffv1_unpack.specs.Internal.Opens.{stream_of};
ghost use Rattle.ffv1_unpack.specs.Internal.PicturesOut.{IsBegun, WritesNext, head_saying, said_in};
ghost use Rattle.ffv1_video.specs.KeptLines.{IsKeptFor};
ghost use Rattle.ffv1_unpack.specs.Internal.PicturesOut.{RepeatsPicture, WritesPicture};
ghost use Rattle.ffv1_unpack.specs.Plays.{has_more};
ghost use Rattle.ffv1_unpack.specs.Ranges.{NextShows};
ghost use Rattle.ffv1_unpack.specs.Internal.Carried.{ShowsThen};
ghost use Rattle.ffv1_video.specs.Faults.{cause_of};
ghost use Rattle.ffv1_unpack.specs.Stream.{Frame};
ghost use Rattle.ffv1_unpack.specs.Unpack.{IsUnpackFault};
ghost use Rattle.ffv1_unpack.specs.Internal.Unpack.{IsWritingFault};
ghost use Rattle.ffv1_unpack.specs.Unpacked.{video_of};
ghost use Rattle.ffv1_unpack.specs.Unpacking.{UnpackingStopsIn, UnpacksMost};
ghost use Rattle.ffv1_unpack.specs.Internal.Located.{EndsNoted, StaysReached};

use crate::carrying::play_carried;
use crate::passing::has_more;
use crate::player::{NextFrame, Player, Stop};
use ffv1_codec::{Info, KeepLines, laws as codec_laws};
use ffv1_reads::FileHead;
use ffv1_record::{Checked, laws as record_laws};
use ffv1_video::Fault;
use ffv1_video::colours::{range_named, siting_in};
use ffv1_wire::{ByteIn, ByteOut};
use ffv1_y4m::{VideoHead, Y4mWriter};
use std::alloc::Allocator;

/// The text that is being written: its head, and after the first picture what that says and the
/// text's writer. Until then the head's structure and aspect are 0.
#[derive(Drop)]
struct Text {
    head: VideoHead,
    begun: Option<(Info, Y4mWriter)>,
}

/// The head of the text of a stream, its structure and aspect 0.
pub(crate) fn text_head<A: Allocator>(head: &FileHead<A>, checked: &Checked<A>) -> VideoHead
    ensures { (said : Said) → head_saying result said
        ≡ video_of (record { head = head_of head.now; accepted = checked.now }) said }
{
    record_laws::accepted_configuration_is_in_range();
    let config = checked.config();
    VideoHead {
        width: config.width,
        height: config.height,
        rate: head.rate,
        scale: head.scale,
        structure: 0,
        sar_num: 0,
        sar_den: 0,
        chroma_planes: config.chroma_planes,
        log2_h: config.log2_h as u8,
        log2_v: config.log2_v as u8,
        extra_plane: config.extra_plane,
        siting: siting_in(checked, &head.colour),
        range: range_named(head.colour.range),
    }
}

/// Writes the picture of these planes, of samples of so many bits, which says this, and before the
/// first one the header. Refuses with `FormatChanged`, and writes nothing, if it says something
/// else than the first.
fn write_picture<W: ByteOut, A: Allocator>(
    depth: u32,
    text: &mut Text,
    output: &mut W,
    info: Info,
    planes: &[Vec<u8, A>],
) -> Result<(), Fault>
    requires begun { IsBegun depth text.old.head text.old.begun }
    ensures answer { WritesPicture depth text.old.head (said_in text.old.begun) info
        (planes_of planes.now) (passage W.contents W.failures output.old output.new)
        text.new.begun result }
    ensures same { text.new.head ≡ text.old.head }
    ensures own { IfErr result IsUnpackFault }
{
    if let Some((first, writer)) = &mut text.begun {
        if info != *first {
            return Err(Fault::FormatChanged);
        }
        writer.picture(output, planes)?;
        return Ok(());
    }
    let head = VideoHead {
        structure: info.structure(),
        sar_num: info.sar_num(),
        sar_den: info.sar_den(),
        ..text.head
    };
    let mut writer = Y4mWriter::at_depth(head, depth);
    writer.picture(output, planes)?;
    text.begun = Some((info, writer));
    Ok(())
}

/// Writes the last picture once more, which has these planes, and nothing before the first one.
fn repeat_picture<W: ByteOut, A: Allocator>(
    text: &mut Text,
    output: &mut W,
    planes: &[Vec<u8, A>],
) -> Result<(), Fault>
    ensures answer { (depth : ℕ) → IsBegun depth text.old.head text.old.begun →
        RepeatsPicture depth text.old.head text.old.begun (planes_of planes.now)
        (passage W.contents W.failures output.old output.new) text.new.begun result }
    ensures same { text.new.head ≡ text.old.head }
    ensures own { IfErr result IsUnpackFault }
{
    if let Some((_first, writer)) = &mut text.begun {
        writer.picture(output, planes)?;
        return Ok(());
    }
    Ok(())
}

/// Reads the next frame, decodes it, and writes its picture, or the last one once more if it
/// repeats that. One without bytes is the picture of what is carried over to it. Answers false if
/// there is none.
fn write_next<R: ByteIn, W: ByteOut, A: Allocator>(
    player: &mut Player<A>,
    input: &mut R,
    output: &mut W,
    kept: &mut KeepLines<A>,
    text: &mut Text,
    carried: &mut Vec<u8, A>,
) -> Result<bool, Fault>
    requires sound { player.old.reader.fault ≡ None }
    requires accepted { IsAccepted player.old.decoder.accepted.configuration
        player.old.decoder.accepted.table }
    requires kept { IsKeptFor player.old.decoder.accepted kept.old }
    requires begun { IsBegun player.old.decoder.accepted.configuration.depth text.old.head
        text.old.begun }
    ensures answer { WritesNext player.old.decoder.accepted carried.old.items text.old.head
        text.old.begun kept.old.planes player.old.reader.place player.new.reader.place
        (passage R.remaining R.failures input.old input.new)
        (passage W.contents W.failures output.old output.new) player.new.notes text.new.begun
        kept.new.planes result }
    ensures kept { OnOk result (IsKeptFor player.old.decoder.accepted kept.new) }
    ensures end { IfOk result (λ more. more ≡ false → text.new.begun ≡ text.old.begun) }
    ensures head { text.new.head ≡ text.old.head }
    ensures none { IfOk result (λ more. more ≡ true → carried.new.items ≡ []) }
    ensures sound { OnOk result (player.new.reader.fault ≡ None) }
    ensures less { IfOk result (λ more. more ≡ true →
        amount player.new.reader.place < amount player.old.reader.place) }
    ensures reached { IfOk result (λ more. more ≡ true → StaysReached player.old.reader
        player.new.reader (passage R.remaining R.failures input.old input.new)) }
    ensures noted { IfOk result (λ more. more ≡ false → EndsNoted player.old.reader
        (passage R.remaining R.failures input.old input.new) player.new.notes) }
    ensures same { player.new.decoder.accepted ≡ player.old.decoder.accepted }
    ensures container { container_of player.new.reader.place
        ≡ container_of player.old.reader.place }
    ensures own { IfErr result (IsWritingFault player.old.reader (R.remaining input.old)) }
{
    codec_laws::answer::answer_is_ok_for_coded_pictures::<KeepLines<A>>();
    codec_laws::sink::sinks_of_own_lines_refuse_none();
    codec_laws::sink::kept_lines_make_up_the_picture();
    codec_laws::answer::answered_fault_is_of_decoding::<KeepLines<A>>();
    let depth = player.decoder.config().depth();
    match play_carried(player, input, kept, carried) {
        Ok(NextFrame::End) => Ok(false),
        Ok(NextFrame::Coded(info)) => {
            write_picture(depth, text, output, info, kept.planes())?;
            Ok(true)
        }
        Ok(NextFrame::Again) => {
            repeat_picture(text, output, kept.planes())?;
            Ok(true)
        }
        Err(Stop::File(fault)) => Err(Fault::from(fault)),
        Err(Stop::Payload(fault)) => Err(Fault::from(fault.fault)),
    }
}

/// Decodes the frames that are left, at most so many, and writes the picture of each; a first one
/// without bytes shows what is carried over to it. Answers how many there were, at most 2^64 - 1;
/// what is noted of the end is in the player, if it was read.
pub(crate) fn write_pictures<R: ByteIn, W: ByteOut, A: Allocator + Copy>(
    alloc: A,
    player: &mut Player<A>,
    input: &mut R,
    output: &mut W,
    most: Option<u32>,
    carried: &mut Vec<u8, A>,
) -> Result<u64, Fault>
    requires sound { player.old.reader.fault ≡ None }
    requires accepted { IsAccepted player.old.decoder.accepted.configuration
        player.old.decoder.accepted.table }
    requires colour { is_rct player.old.decoder.accepted.configuration.colour ≡ false }
    ensures ok { IfOk result (λ n. (frames : List Frame) × (n ≡ saturated (length frames))
        × UnpacksMost (ShowsThen carried.old.items player.old.reader.place)
        (stream_of player.old.reader player.old.decoder.accepted)
        (passage R.remaining R.failures input.old input.new)
        (passage W.contents W.failures output.old output.new) player.new.notes most frames) }
    ensures err { IfErr result (λ f. UnpackingStopsIn
        (ShowsThen carried.old.items player.old.reader.place)
        (stream_of player.old.reader player.old.decoder.accepted)
        (passage R.remaining R.failures input.old input.new)
        (passage W.contents W.failures output.old output.new) (NextShows carried.old.items) f
        (cause_of f)) }
    ensures own { IfErr result (IsWritingFault player.old.reader (R.remaining input.old)) }
    ensures noted { IfOk result (λ n. (k : ℕ) → n ≡ saturated k → has_more most k ≡ true →
        EndsNoted player.old.reader (passage R.remaining R.failures input.old input.new)
        player.new.notes) }
{
    let checked = player.decoder.config();
    let mut kept = KeepLines::new(alloc, checked)?;
    let mut text = Text {
        head: text_head(player.reader.head(), checked),
        begun: None,
    };
    let mut count = 0u64;
    'frames: while has_more(most, count) {
        if !write_next(player, input, output, &mut kept, &mut text, carried)? {
            return Ok(count);
        }
        count = count.saturating_add(1);
    }
    Ok(count)
}
