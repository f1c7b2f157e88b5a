//! Judges what a file gives that may be damaged, one after the other: frames, and faults of the
//! file that are told.

ghost use Rattle.std.specs.Prelude.{◌≡◌, ◌++◌, IfErr, IfOk, List, None, OnOk, false, true};
ghost use Rattle.ffv1_wire.specs.Passage.{passage};
ghost use Rattle.ffv1_record.specs.Accepted.{IsAccepted};
ghost use Rattle.ffv1_reads.specs.Items.{SaidBy};
ghost use Rattle.ffv1_files.specs.Items.{course_ended, course_of, cued_item};
ghost use Rattle.ffv1_matroska.specs.CuedItems.{CuedBy};
ghost use Rattle.ffv1_unpack.specs.ItemsEnd.{course_left, cued_left};
ghost use Rattle.ffv1_files.specs.Places.{container_of};
ghost use Rattle.ffv1_files.specs.declared.container.Container.TheVariants as container;
ghost use Rattle.ffv1_video.specs.Faults.{cause_of};
ghost use Rattle.ffv1_unpack.specs.JudgedItems.{ItemsAll, ItemsFrom, ItemsStopBy, JudgedItem};
ghost use Rattle.ffv1_unpack.specs.JudgedItems.{file_word, told_line};
ghost use Rattle.ffv1_unpack.specs.Internal.JudgedItems.{AreItemCounts, ItemJudged};
ghost use Rattle.ffv1_unpack.specs.Internal.JudgedItems.{PayloadAnswers};
ghost use Rattle.ffv1_unpack.specs.Internal.Plainly.{is_plain};
ghost use Rattle.ffv1_unpack.specs.Internal.Told.{WritesFrame};
ghost use Rattle.ffv1_unpack.specs.Told.{is_telling_fault};

use crate::frame_line::FrameLine;
use crate::judging::{JudgedCounts, write_refusal};
use crate::player::Player;
use crate::telling::{write_again, write_line};
use ffv1_codec::{DropLines, laws as codec_laws};
use ffv1_files::{Course, Item};
use ffv1_reads::FileFault;
use ffv1_video::Fault;
use ffv1_video::number_lines::push_number;
use ffv1_wire::{ByteIn, ByteOut, write_all};
use std::alloc::{AllocError, Allocator};

/// The number and the name of a fault of a file, as it displays.
#[tactic(auto, unfolding(crate::specs::JudgedItems::file_word))]
fn file_word(fault: FileFault) -> &'static str
    ensures { result.now ≡ file_word fault }
{
    match fault {
        FileFault::OutOfMemory => "2 OutOfMemory",
        FileFault::NotAvi => "50 NotAvi",
        FileFault::NoFfv1 => "51 NoFfv1",
        FileFault::Truncated => "52 Truncated",
        FileFault::ChunkTooLong => "53 ChunkTooLong",
        FileFault::EmptyFrame => "54 EmptyFrame",
        FileFault::TooLarge => "55 TooLarge",
        FileFault::Read => "56 Read",
        FileFault::Write => "57 Write",
        FileFault::NotMatroska => "80 NotMatroska",
        FileFault::BadElement => "81 BadElement",
        FileFault::NoTracks => "82 NoTracks",
        FileFault::Encoded => "83 Encoded",
        FileFault::Laced => "84 Laced",
        FileFault::Checksum => "85 Checksum",
        FileFault::Rate => "86 Rate",
        FileFault::Another => "88 Another",
    }
}

/// Appends the line of a fault that is told.
#[tactic(auto, unfolding(crate::specs::JudgedItems::told_line))]
pub(crate) fn push_told<A: Allocator>(
    text: &mut Vec<u8, A>,
    offset: u64,
    fault: FileFault,
) -> Result<(), AllocError>
    ensures { OnOk result (text.new.items ≡ text.old.items ++ told_line offset fault) }
{
    push_number(text, b"byte ", offset)?;
    text.extend_from_slice(b": fault ")?;
    text.extend_from_slice(file_word(fault).as_bytes())?;
    text.extend_from_slice(b"\n")?;
    Ok(())
}

/// The line of a fault that is told, in place of what the text has.
fn put_told<A: Allocator>(
    text: &mut Vec<u8, A>,
    offset: u64,
    fault: FileFault,
) -> Result<(), AllocError>
    ensures { OnOk result (text.new.items ≡ told_line offset fault) }
{
    text.clear();
    push_told(text, offset, fault)?;
    Ok(())
}

/// Writes the line of a fault that is told.
pub(crate) fn write_told<W: ByteOut, A: Allocator>(
    output: &mut W,
    text: &mut Vec<u8, A>,
    offset: u64,
    fault: FileFault,
) -> Result<(), Fault>
    ensures { WritesFrame (told_line offset fault)
        (passage W.contents W.failures output.old output.new) result }
{
    put_told(text, offset, fault)?;
    if write_all(output, text).is_err() {
        return Err(Fault::Write);
    }
    Ok(())
}

/// How far a file was judged.
#[derive(Clone, Copy)]
struct Judging {
    course: Course,
    counts: JudgedCounts,
}

/// Decodes the payload that was read last, writes its lines and counts it; if it has no bytes, the
/// frame before is repeated.
fn judge_payload<W: ByteOut, A: Allocator>(
    player: &mut Player<A>,
    output: &mut W,
    text: &mut Vec<u8, A>,
    place: bool,
    counts: &mut JudgedCounts,
) -> Result<(), Fault>
    requires accepted { IsAccepted player.old.decoder.accepted.configuration
        player.old.decoder.accepted.table }
    ensures answer { PayloadAnswers place player.old.decoder.accepted counts.old.frames
        player.old.payload.items (passage W.contents W.failures output.old output.new) counts.old
        counts.new result }
    ensures reader { player.new.reader ≡ player.old.reader }
    ensures same { player.new.decoder.accepted ≡ player.old.decoder.accepted }
    ensures cued { player.new.cued ≡ player.old.cued }
{
    codec_laws::answer::answer_is_ok_for_coded_pictures::<DropLines>();
    codec_laws::sink::sinks_of_own_lines_refuse_none();
    let number = counts.frames;
    if player.payload.is_empty() {
        write_again(output, text, FrameLine::Sizes, number)?;
        counts.count(None);
        return Ok(());
    }
    let mut sink = DropLines::new(player.decoder.config());
    match player.decoder.decode(&player.payload, &mut sink) {
        Ok(_info) => {
            let kind = FrameLine::Sizes;
            write_line(output, text, kind, number, &player.payload, &player.decoder)?;
            counts.count(None);
            Ok(())
        }
        Err(fault) => {
            write_refusal(output, text, place, number, fault, &player.decoder)?;
            counts.count(Some(Fault::from(fault.fault)));
            Ok(())
        }
    }
}

/// Judges the next item of a file that is read on, and writes its lines. Answers false if there is
/// none.
fn judge_item<R: ByteIn, W: ByteOut, A: Allocator>(
    player: &mut Player<A>,
    input: &mut R,
    output: &mut W,
    text: &mut Vec<u8, A>,
    place: bool,
    judging: &mut Judging,
) -> Result<bool, Fault>
    requires sound { player.old.reader.fault ≡ None }
    requires reads { is_plain judging.old.course ≡ false }
    requires accepted { IsAccepted player.old.decoder.accepted.configuration
        player.old.decoder.accepted.table }
    ensures answer { ItemJudged place player.old.decoder.accepted judging.old.counts.frames
        player.old.reader.place player.new.reader.place judging.old.course judging.new.course
        (passage R.remaining R.failures input.old input.new)
        (passage W.contents W.failures output.old output.new) judging.old.counts
        judging.new.counts result }
    ensures reader { player.new.reader ≡ player.old.reader }
    ensures same { player.new.decoder.accepted ≡ player.old.decoder.accepted }
    ensures own { IfErr result (λ f. is_telling_fault f ≡ true) }
    ensures cued { IfOk result (λ more. CuedBy
        (cued_item player.old.reader.place judging.old.course player.old.cued)
        (R.remaining input.old) (R.remaining input.new) player.new.cued) }
    ensures kind { OnOk result (is_plain judging.new.course ≡ false) }
    ensures over { IfOk result (λ more. more ≡ false →
        container_of player.old.reader.place ≡ container.Avi →
        SaidBy (course_ended judging.old.course)
        (R.remaining input.old) (R.remaining input.new) judging.new.course) }
{
    let next = player.reader.next_item(
        input,
        &mut judging.course,
        &mut player.cued,
        &mut player.payload,
    );
    match next {
        Err(fault) => Err(Fault::from(fault)),
        Ok(item) => match item {
            Item::End => Ok(false),
            Item::Frame => {
                judge_payload(player, output, text, place, &mut judging.counts)?;
                Ok(true)
            }
            Item::Told { fault, offset } => {
                write_told(output, text, offset, fault)?;
                judging.counts.tell(Fault::from(fault));
                Ok(true)
            }
        },
    }
}

/// Judges all items of a file that is read on that are left, at most 2^64 - 1, and writes the lines
/// of each as soon as it is judged. Answers how many frames there were, and how many faults of
/// either kind. The player knows then whether Cues came after the last Cluster, and where reading
/// has come to.
pub(crate) fn judge_items<R: ByteIn, W: ByteOut, A: Allocator + Copy>(
    alloc: A,
    player: &mut Player<A>,
    input: &mut R,
    output: &mut W,
    place: bool,
) -> Result<JudgedCounts, Fault>
    requires sound { player.old.reader.fault ≡ None }
    requires reads { is_plain (course_of player.old.reader) ≡ false }
    requires accepted { IsAccepted player.old.decoder.accepted.configuration
        player.old.decoder.accepted.table }
    ensures ok { IfOk result (λ counts. (xs : List JudgedItem) × AreItemCounts counts xs
        × ItemsAll (ItemsFrom player.old.reader.place (course_of player.old.reader))
        player.old.decoder.accepted place (passage R.remaining R.failures input.old input.new)
        (passage W.contents W.failures output.old output.new) xs) }
    ensures err { IfErr result (λ f. ItemsStopBy (ItemsFrom player.old.reader.place
        (course_of player.old.reader)) player.old.decoder.accepted place
        (passage R.remaining R.failures input.old input.new)
        (passage W.contents W.failures output.old output.new) (cause_of f)) }
    ensures own { IfErr result (λ f. is_telling_fault f ≡ true) }
    ensures reader { IfOk result (λ counts. player.new.reader ≡ player.old.reader) }
    ensures cued { IfOk result (λ counts. CuedBy
        (cued_left player.old.reader.place (course_of player.old.reader) player.old.cued)
        (R.remaining input.old) (R.remaining input.new) player.new.cued) }
    ensures course { IfOk result (λ counts.
        container_of player.old.reader.place ≡ container.Avi →
        SaidBy (course_left player.old.reader.place (course_of player.old.reader))
        (R.remaining input.old) (R.remaining input.new) player.new.course) }
{
    let mut text = Vec::new(alloc);
    let mut judging = Judging {
        course: player.reader.course(),
        counts: JudgedCounts {
            frames: 0,
            faults: 0,
            first: None,
        },
    };
    for _item in 0..u64::MAX {
        if !judge_item(player, input, output, &mut text, place, &mut judging)? {
            player.course = judging.course;
            return Ok(judging.counts);
        }
    }
    player.course = judging.course;
    Ok(judging.counts)
}
