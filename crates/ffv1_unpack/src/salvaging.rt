//! Judges what a file gives that may be damaged, one after the other, and writes the picture of
//! each frame, or the last good one again if the frame is refused; and a line of each fault.

ghost use Rattle.std.specs.Prelude.{◌≡◌, ◌⊎◌, ◌-◌, ◌^◌, ℕ, IfErr, IfOk, List, None, OnOk, Option};
ghost use Rattle.std.specs.Prelude.{Some, [], false, length, true};
ghost use Rattle.ffv1_wire.specs.Passage.{passage};
ghost use Rattle.ffv1_record.specs.Accepted.{IsAccepted};
ghost use Rattle.ffv1_record.specs.Configuration.{is_rct};
ghost use Rattle.ffv1_codec.specs.SliceList.{Said};
ghost use Rattle.ffv1_files.specs.Answers.{ReadsAs};
ghost use Rattle.ffv1_reads.specs.Items.{SaidBy};
ghost use Rattle.ffv1_files.specs.Items.{course_ended, course_of, cued_item, item_of, item_read};
ghost use Rattle.ffv1_matroska.specs.CuedItems.{CuedBy};
ghost use Rattle.ffv1_unpack.specs.ItemsEnd.{course_left, cued_left};
ghost use Rattle.ffv1_unpack.specs.Internal.Plainly.{IsItemFault, is_plain};
ghost use Rattle.ffv1_files.specs.Places.{container_of};
ghost use Rattle.ffv1_files.specs.declared.container.Container.TheVariants as container;
ghost use Rattle.ffv1_reads.specs.declared.item.Item.TheVariants as item;
ghost use Rattle.ffv1_video.specs.Faults.{cause_of};
ghost use Rattle.ffv1_unpack.specs.Internal.Judged.{one_counted};
ghost use Rattle.ffv1_unpack.specs.JudgedItems.{IsJudgedItem, ItemsFrom, JudgedItem};
ghost use Rattle.ffv1_unpack.specs.Salvaged.{changed_fault, changed_line, changed_text, differs};
ghost use Rattle.ffv1_unpack.specs.Salvaged.{good_frames, shown};
ghost use Rattle.ffv1_unpack.specs.Internal.Opens.{stream_of};
ghost use Rattle.ffv1_unpack.specs.Internal.Salvage.{FrameSalvaged, FrameTold, ItemSalvaged};
ghost use Rattle.ffv1_unpack.specs.Internal.Salvage.{NoneGivenBy, PutsPictures, StandsAfter};
ghost use Rattle.ffv1_unpack.specs.Internal.Told.{IsToldFault, WritesFrame};
ghost use Rattle.ffv1_unpack.specs.Told.{is_telling_fault};
ghost use Rattle.ffv1_unpack.specs.ToldItems.{is_told};
ghost use Rattle.ffv1_unpack.specs.Stream.{AreAll, CodedFrame, Stream, last_of, those};
ghost use Rattle.ffv1_unpack.specs.UnpackAll.{AreSalvageCounts, SalvageStopsBy, SalvagesAll};
ghost use Rattle.ffv1_unpack.specs.Unpacked.{HasText, is_ppm_stream};
ghost use Rattle.ffv1_unpack.specs.Internal.Located.{ComesToEnd, StaysReached};

use crate::judging::{JudgedCounts, write_refused};
use crate::judging_items::write_told;
use crate::picture_out::PictureOut;
use crate::plainly::is_plain;
use crate::player::Player;
use ffv1_codec::Info;
use ffv1_files::{Course, Item};
use ffv1_video::Fault;
use ffv1_video::number_lines::push_number;
use ffv1_wire::{ByteIn, ByteOut, write_all};
use std::alloc::{AllocError, Allocator};
use std::mem::swap;

/// The line of a frame that says something else than the header, in place of what the text has.
#[tactic(auto, unfolding(crate::specs::Salvaged::changed_line))]
fn put_changed<A: Allocator>(text: &mut Vec<u8, A>, number: u64) -> Result<(), AllocError>
    ensures { OnOk result (text.new.items ≡ changed_line number) }
{
    text.clear();
    push_number(text, b"frame ", number)?;
    text.extend_from_slice(b": fault 71 FormatChanged\n")?;
    Ok(())
}

/// Writes the line of a frame that says something else than the header.
fn write_changed<W: ByteOut, A: Allocator>(
    output: &mut W,
    text: &mut Vec<u8, A>,
    number: u64,
) -> Result<(), Fault>
    ensures { WritesFrame (changed_line number)
        (passage W.contents W.failures output.old output.new) result }
{
    put_changed(text, number)?;
    if write_all(output, text).is_err() {
        return Err(Fault::Write);
    }
    Ok(())
}

/// Reads the next item of a file, of either container; an AVI of which the first `movi` alone is
/// read gives its frames.
fn read_item<R: ByteIn, A: Allocator>(
    player: &mut Player<A>,
    input: &mut R,
    course: &mut Course,
) -> Result<Item, Fault>
    requires sound { player.old.reader.fault ≡ None }
    requires plain { is_plain course.old ≡ true →
        container_of player.old.reader.place ≡ container.Avi }
    ensures ok { IfOk result (λ i. ReadsAs (item_read player.old.reader.place course.old)
        (passage R.remaining R.failures input.old input.new)
        (item_of i player.new.payload.items player.new.reader.place course.new)) }
    ensures err { IfErr result (λ f. NoneGivenBy player.old.reader.place course.old
        (passage R.remaining R.failures input.old input.new) f (cause_of f)) }
    ensures sound { OnOk result (player.new.reader.fault ≡ None) }
    ensures same { player.new.decoder ≡ player.old.decoder }
    ensures head { player.new.reader.head ≡ player.old.reader.head }
    ensures container { container_of player.new.reader.place
        ≡ container_of player.old.reader.place }
    ensures own { IfErr result (IsItemFault (is_plain course.old) player.old.reader
        (R.remaining input.old)) }
    ensures untold { IfErr result (λ f. is_told f ≡ false) }
    ensures reached { IfOk result (λ i. (i ≡ item.End → ⊥) → is_plain course.old ≡ true →
        StaysReached player.old.reader player.new.reader
        (passage R.remaining R.failures input.old input.new)) }
    ensures ended { IfOk result (λ i. i ≡ item.End → is_plain course.old ≡ true →
        ComesToEnd player.old.reader player.new.reader
        (passage R.remaining R.failures input.old input.new)) }
    ensures stays { IfOk result (λ i. is_plain course.old ≡ false →
        player.new.reader ≡ player.old.reader) }
    ensures kind { is_plain course.new ≡ is_plain course.old }
    ensures over { IfOk result (λ i. i ≡ item.End →
        container_of player.old.reader.place ≡ container.Avi → SaidBy (course_ended course.old)
        (R.remaining input.old) (R.remaining input.new) course.new) }
    ensures cued { IfOk result (λ i. CuedBy
        (cued_item player.old.reader.place course.old player.old.cued)
        (R.remaining input.old) (R.remaining input.new) player.new.cued) }
{
    if is_plain(*course) {
        match player.reader.next_frame(input, &mut player.payload) {
            Ok(true) => Ok(Item::Frame),
            Ok(false) => Ok(Item::End),
            Err(fault) => Err(Fault::from(fault)),
        }
    } else {
        match player
            .reader
            .next_item(input, course, &mut player.cued, &mut player.payload)
        {
            Ok(item) => Ok(item),
            Err(fault) => Err(Fault::from(fault)),
        }
    }
}

/// How far a file was judged: what was counted, what the first good frame says, and the payload of
/// the last good one.
#[derive(Drop)]
struct Salvage<A: Allocator> {
    /// Whether the pictures are written as PPM.
    ppm: bool,
    course: Course,
    counts: JudgedCounts,
    header: Option<Info>,
    last: Vec<u8, A>,
    text: Vec<u8, A>,
}

/// Whether a frame says something else than the header of the text, if that stands.
fn differs(ppm: bool, header: Option<Info>, info: Info) -> bool
    ensures { result ≡ differs ppm header info }
{
    if ppm {
        return false;
    }
    match header {
        Some(header) => info != header,
        None => false,
    }
}

/// Counts a frame that is decoded, after its line if it says something else than the header.
fn tell_good<L: ByteOut, A: Allocator>(
    lines: &mut L,
    salvage: &mut Salvage<A>,
    info: Info,
) -> Result<(), Fault>
    ensures told { WritesFrame (changed_text salvage.old.counts.frames
        (differs salvage.old.ppm salvage.old.header info))
        (passage L.contents L.failures lines.old lines.new) result }
    ensures counts { OnOk result (salvage.new.counts ≡ one_counted salvage.old.counts
        (changed_fault (differs salvage.old.ppm salvage.old.header info))) }
    ensures header { salvage.new.header ≡ salvage.old.header }
    ensures last { salvage.new.last ≡ salvage.old.last }
    ensures kind { salvage.new.ppm ≡ salvage.old.ppm }
    ensures course { salvage.new.course ≡ salvage.old.course }
    ensures own { IfErr result (λ f. is_telling_fault f ≡ true) }
{
    if differs(salvage.ppm, salvage.header, info) {
        write_changed(lines, &mut salvage.text, salvage.counts.frames)?;
        salvage.counts.count(Some(Fault::FormatChanged));
        return Ok(());
    }
    salvage.counts.count(None);
    Ok(())
}

/// Keeps the payload that was read last as the last good one, and what it says if it is the first.
fn keep_good<A: Allocator>(player: &mut Player<A>, salvage: &mut Salvage<A>, info: Info)
    ensures last { salvage.new.last.items ≡ player.old.payload.items }
    ensures first { salvage.old.header ≡ None → salvage.new.header ≡ Some info }
    ensures again { (said : Said) → salvage.old.header ≡ Some said →
        salvage.new.header ≡ Some said }
    ensures counts { salvage.new.counts ≡ salvage.old.counts }
    ensures kind { salvage.new.ppm ≡ salvage.old.ppm }
    ensures course { salvage.new.course ≡ salvage.old.course }
    ensures reader { player.new.reader ≡ player.old.reader }
    ensures same { player.new.decoder ≡ player.old.decoder }
    ensures cued { player.new.cued ≡ player.old.cued }
{
    swap(&mut player.payload, &mut salvage.last);
    if salvage.header.is_none() {
        salvage.header = Some(info);
    }
}

/// Judges the payload that was read last, writes its line if it has a fault, and counts it; one
/// that has no bytes is counted alone. A good payload is kept as the last good one. If a picture is
/// remembered then, it is that one's.
fn tell_frame<L: ByteOut, P: PictureOut, A: Allocator>(
    player: &mut Player<A>,
    lines: &mut L,
    output: &mut P,
    salvage: &mut Salvage<A>,
) -> Result<(), Fault>
    requires accepted { IsAccepted player.old.decoder.accepted.configuration
        player.old.decoder.accepted.table }
    ensures answer { (s : Stream) (before : List JudgedItem) (fs : List CodedFrame) →
        s.accepted ≡ player.old.decoder.accepted → salvage.old.ppm ≡ is_ppm_stream s →
        StandsAfter s before salvage.old.counts salvage.old.header salvage.old.last.items →
        P.ready s fs output.old → FrameTold s before player.old.payload.items
        (passage L.contents L.failures lines.old lines.new) salvage.new.counts salvage.new.header
        salvage.new.last.items result }
    ensures silent { (P.contents output.new ≡ P.contents output.old)
        × (P.failures output.new ≡ P.failures output.old) }
    ensures fits { OnOk result ((s : Stream) (fs : List CodedFrame) →
        s.accepted ≡ player.old.decoder.accepted → P.ready s fs output.old →
        P.fits s salvage.old.last.items output.old →
        P.ready s fs output.new × P.fits s salvage.new.last.items output.new) }
    ensures kind { salvage.new.ppm ≡ salvage.old.ppm }
    ensures course { salvage.new.course ≡ salvage.old.course }
    ensures reader { player.new.reader ≡ player.old.reader }
    ensures same { player.new.decoder.accepted ≡ player.old.decoder.accepted }
    ensures own { IfErr result (λ f. is_telling_fault f ≡ true) }
    ensures cued { player.new.cued ≡ player.old.cued }
{
    if player.payload.is_empty() {
        salvage.counts.count(None);
        return Ok(());
    }
    match output.judge(&mut player.decoder, &player.payload) {
        Ok(info) => {
            tell_good(lines, salvage, info)?;
            keep_good(player, salvage, info);
            Ok(())
        }
        Err(fault) => {
            let number = salvage.counts.frames;
            write_refused(lines, &mut salvage.text, number, fault.fault)?;
            salvage.counts.count(Some(Fault::from(fault.fault)));
            Ok(())
        }
    }
}

/// Writes the picture of the last good payload, if there is one.
fn show_last<P: PictureOut, A: Allocator>(
    player: &mut Player<A>,
    output: &mut P,
    salvage: &Salvage<A>,
) -> Result<(), Fault>
    ensures answer { (s : Stream) (xs : List JudgedItem) (fs : List CodedFrame) →
        s.accepted ≡ player.old.decoder.accepted →
        IsAccepted s.accepted.configuration s.accepted.table → HasText s →
        AreAll (IsJudgedItem s.accepted) xs → P.ready s fs output.old →
        P.fits s salvage.now.last.items output.old →
        StandsAfter s xs salvage.now.counts salvage.now.header salvage.now.last.items →
        PutsPictures P.ready s fs (those (last_of (good_frames xs)))
        (passage P.contents P.failures output.old output.new) output.new result }
    ensures stays { (s : Stream) (other : List ℕ) → P.fits s other output.old →
        P.fits s other output.new }
    ensures reader { player.new.reader ≡ player.old.reader }
    ensures same { player.new.decoder.accepted ≡ player.old.decoder.accepted }
    ensures own { IfErr result (λ f. is_telling_fault f ≡ true) }
    ensures cued { player.new.cued ≡ player.old.cued }
{
    match salvage.header {
        None => Ok(()),
        Some(_said) => {
            output.put(&mut player.decoder, &salvage.last)?;
            Ok(())
        }
    }
}

/// Judges the payload that was read last, writes its line if it has a fault, and then its picture,
/// or the last good one again.
fn salvage_frame<L: ByteOut, P: PictureOut, A: Allocator>(
    player: &mut Player<A>,
    lines: &mut L,
    output: &mut P,
    salvage: &mut Salvage<A>,
) -> Result<(), Fault>
    requires accepted { IsAccepted player.old.decoder.accepted.configuration
        player.old.decoder.accepted.table }
    ensures answer { (s : Stream) (before : List JudgedItem) →
        s.accepted ≡ player.old.decoder.accepted → salvage.old.ppm ≡ is_ppm_stream s →
        HasText s → AreAll (IsJudgedItem s.accepted) before →
        StandsAfter s before salvage.old.counts salvage.old.header salvage.old.last.items →
        P.ready s (shown before) output.old → P.fits s salvage.old.last.items output.old →
        FrameSalvaged P.ready s before (passage L.contents L.failures lines.old lines.new)
        (passage P.contents P.failures output.old output.new) output.new
        player.old.payload.items salvage.new.counts salvage.new.header salvage.new.last.items
        result }
    ensures fits { OnOk result ((s : Stream) (fs : List CodedFrame) →
        s.accepted ≡ player.old.decoder.accepted → P.ready s fs output.old →
        P.fits s salvage.old.last.items output.old →
        P.fits s salvage.new.last.items output.new) }
    ensures kind { salvage.new.ppm ≡ salvage.old.ppm }
    ensures course { salvage.new.course ≡ salvage.old.course }
    ensures reader { player.new.reader ≡ player.old.reader }
    ensures same { player.new.decoder.accepted ≡ player.old.decoder.accepted }
    ensures own { IfErr result (λ f. is_telling_fault f ≡ true) }
    ensures cued { player.new.cued ≡ player.old.cued }
{
    tell_frame(player, lines, output, salvage)?;
    show_last(player, output, salvage)?;
    Ok(())
}

/// Salvages the next item of a file: writes its line, and the picture for it. Answers false if
/// there is none.
fn salvage_item<R: ByteIn, L: ByteOut, P: PictureOut, A: Allocator>(
    player: &mut Player<A>,
    input: &mut R,
    lines: &mut L,
    output: &mut P,
    salvage: &mut Salvage<A>,
) -> Result<bool, Fault>
    requires sound { player.old.reader.fault ≡ None }
    requires plain { is_plain salvage.old.course ≡ true →
        container_of player.old.reader.place ≡ container.Avi }
    requires accepted { IsAccepted player.old.decoder.accepted.configuration
        player.old.decoder.accepted.table }
    ensures answer { (s : Stream) (before : List JudgedItem) →
        s.accepted ≡ player.old.decoder.accepted → salvage.old.ppm ≡ is_ppm_stream s →
        HasText s → AreAll (IsJudgedItem s.accepted) before →
        StandsAfter s before salvage.old.counts salvage.old.header salvage.old.last.items →
        P.ready s (shown before) output.old → P.fits s salvage.old.last.items output.old →
        ItemSalvaged s player.old.reader.place player.new.reader.place salvage.old.course
        salvage.new.course (passage R.remaining R.failures input.old input.new) P.ready before
        (passage L.contents L.failures lines.old lines.new)
        (passage P.contents P.failures output.old output.new) output.new salvage.new.counts
        salvage.new.header salvage.new.last.items result }
    ensures fits { OnOk result ((s : Stream) (fs : List CodedFrame) →
        s.accepted ≡ player.old.decoder.accepted → P.ready s fs output.old →
        P.fits s salvage.old.last.items output.old →
        P.fits s salvage.new.last.items output.new) }
    ensures sound { OnOk result (player.new.reader.fault ≡ None) }
    ensures kind { salvage.new.ppm ≡ salvage.old.ppm }
    ensures same { player.new.decoder.accepted ≡ player.old.decoder.accepted }
    ensures container { container_of player.new.reader.place
        ≡ container_of player.old.reader.place }
    ensures own { IfErr result (IsItemFault (is_plain salvage.old.course) player.old.reader
        (R.remaining input.old)) }
    ensures untold { IfErr result (λ f. is_told f ≡ false) }
    ensures reached { IfOk result (λ more. more ≡ true → is_plain salvage.old.course ≡ true →
        StaysReached player.old.reader player.new.reader
        (passage R.remaining R.failures input.old input.new)) }
    ensures ended { IfOk result (λ more. more ≡ false → is_plain salvage.old.course ≡ true →
        ComesToEnd player.old.reader player.new.reader
        (passage R.remaining R.failures input.old input.new)) }
    ensures stays { IfOk result (λ more. is_plain salvage.old.course ≡ false →
        player.new.reader ≡ player.old.reader) }
    ensures kept { OnOk result (is_plain salvage.new.course ≡ is_plain salvage.old.course) }
    ensures over { IfOk result (λ more. more ≡ false →
        container_of player.old.reader.place ≡ container.Avi →
        SaidBy (course_ended salvage.old.course)
        (R.remaining input.old) (R.remaining input.new) salvage.new.course) }
    ensures cued { IfOk result (λ more. CuedBy
        (cued_item player.old.reader.place salvage.old.course player.old.cued)
        (R.remaining input.old) (R.remaining input.new) player.new.cued) }
{
    match read_item(player, input, &mut salvage.course) {
        Err(fault) => Err(fault),
        Ok(item) => match item {
            Item::End => Ok(false),
            Item::Frame => {
                salvage_frame(player, lines, output, salvage)?;
                Ok(true)
            }
            Item::Told { fault, offset } => {
                write_told(lines, &mut salvage.text, offset, fault)?;
                salvage.counts.tell(Fault::from(fault));
                Ok(true)
            }
        },
    }
}

/// Salvages all items of a file that are left, at most 2^64 - 1. Answers how many frames there
/// were, and how many faults of either kind. The player knows then whether Cues came after the last
/// Cluster, and where reading has come to.
pub(crate) fn salvage_items<R: ByteIn, L: ByteOut, P: PictureOut, A: Allocator + Copy>(
    alloc: A,
    player: &mut Player<A>,
    input: &mut R,
    lines: &mut L,
    output: &mut P,
    ppm: bool,
) -> Result<JudgedCounts, Fault>
    requires sound { player.old.reader.fault ≡ None }
    requires accepted { IsAccepted player.old.decoder.accepted.configuration
        player.old.decoder.accepted.table }
    requires text { HasText (stream_of player.old.reader player.old.decoder.accepted) }
    requires ready { P.ready (stream_of player.old.reader player.old.decoder.accepted) []
        output.old }
    requires fits { P.fits (stream_of player.old.reader player.old.decoder.accepted) []
        output.old }
    requires kind { ppm ≡ is_rct player.old.decoder.accepted.configuration.colour }
    ensures ok { IfOk result (λ counts. (xs : List JudgedItem)
        × AreSalvageCounts (is_rct player.old.decoder.accepted.configuration.colour) counts xs
        × SalvagesAll (ItemsFrom player.old.reader.place (course_of player.old.reader))
        (stream_of player.old.reader player.old.decoder.accepted)
        (passage R.remaining R.failures input.old input.new)
        (passage L.contents L.failures lines.old lines.new)
        (passage P.contents P.failures output.old output.new) xs
        × (is_plain (course_of player.old.reader) ≡ true →
        ComesToEnd player.old.reader player.new.reader
        (passage R.remaining R.failures input.old input.new) ⊎ (length xs ≡ 2 ^ 64 - 1))) }
    ensures err { IfErr result (λ f. SalvageStopsBy
        (ItemsFrom player.old.reader.place (course_of player.old.reader))
        (stream_of player.old.reader player.old.decoder.accepted)
        (passage R.remaining R.failures input.old input.new)
        (passage L.contents L.failures lines.old lines.new)
        (passage P.contents P.failures output.old output.new) f (cause_of f)) }
    ensures own { IfErr result (IsToldFault player.old.reader (R.remaining input.old)) }
    ensures untold { IfErr result (λ f. is_told f ≡ false) }
    ensures container { container_of player.new.reader.place
        ≡ container_of player.old.reader.place }
    ensures stays { IfOk result (λ counts. is_plain (course_of player.old.reader) ≡ false →
        player.new.reader ≡ player.old.reader) }
    ensures course { IfOk result (λ counts.
        container_of player.old.reader.place ≡ container.Avi →
        SaidBy (course_left player.old.reader.place (course_of player.old.reader))
        (R.remaining input.old) (R.remaining input.new) player.new.course) }
    ensures kind { IfOk result (λ counts.
        is_plain player.new.course ≡ is_plain (course_of player.old.reader)) }
    ensures cued { IfOk result (λ counts. CuedBy
        (cued_left player.old.reader.place (course_of player.old.reader) player.old.cued)
        (R.remaining input.old) (R.remaining input.new) player.new.cued) }
{
    let mut salvage = Salvage {
        ppm,
        course: player.reader.course(),
        counts: JudgedCounts {
            frames: 0,
            faults: 0,
            first: None,
        },
        header: None,
        last: Vec::new(alloc),
        text: Vec::new(alloc),
    };
    for _item in 0..u64::MAX {
        if !salvage_item(player, input, lines, output, &mut salvage)? {
            player.course = salvage.course;
            return Ok(salvage.counts);
        }
    }
    player.course = salvage.course;
    Ok(salvage.counts)
}
