//! Unpacks all frames of a file that may be damaged into pictures.

ghost use Rattle.std.specs.Prelude.{◌≡◌, ◌⊎◌, ◌-◌, ◌^◌, ℕ, IfErr, IfOk, List, None, Ok, Option};
ghost use Rattle.std.specs.Prelude.{[], false, length, true};
ghost use Rattle.ffv1_wire.specs.Passage.{passage};
ghost use Rattle.ffv1_record.specs.Accepted.{IsAccepted};
ghost use Rattle.ffv1_record.specs.Configuration.{is_rct};
ghost use Rattle.ffv1_reads.specs.Items.{SaidBy};
ghost use Rattle.ffv1_files.specs.Items.{course_of};
ghost use Rattle.ffv1_files.specs.Noted.{NotedOf, NotesEnd};
ghost use Rattle.ffv1_files.specs.Places.{container_of};
ghost use Rattle.ffv1_files.specs.declared.container.Container.TheVariants as container;
ghost use Rattle.ffv1_files.specs.declared.container.Scope.{Scope};
ghost use Rattle.ffv1_files.specs.declared.course.Course.TheVariants as course;
ghost use Rattle.ffv1_files.specs.declared.notes.Notes.{Notes};
ghost use Rattle.ffv1_matroska.specs.CuedItems.{CuedBy};
ghost use Rattle.ffv1_unpack.specs.ItemsEnd.{course_left, cued_left};
ghost use Rattle.ffv1_unpack.specs.Internal.Plainly.{is_plain};
ghost use Rattle.ffv1_unpack.specs.Internal.ItemsEnd.{BehindAnswers, BehindFailsBy};
ghost use Rattle.ffv1_unpack.specs.Internal.Located.{ComesToEnd};
ghost use Rattle.ffv1_unpack.specs.declared.judging.JudgedCounts.{JudgedCounts};
ghost use Rattle.ffv1_video.specs.Faults.{cause_of};
ghost use Rattle.ffv1_video.specs.declared.fault.Fault.TheVariants as fault;
ghost use Rattle.ffv1_video.specs.Profiles.{scope_in};
ghost use Rattle.ffv1_unpack.specs.JudgedItems.{ItemsFrom, JudgedItem};
ghost use Rattle.ffv1_unpack.specs.Internal.Opens.{OpensStream, stream_of};
ghost use Rattle.ffv1_unpack.specs.Internal.Unpack.{IsWritingFault};
ghost use Rattle.ffv1_files.specs.Ways.{tells};
ghost use Rattle.ffv1_files.specs.declared.way.Way.TheVariants as ways;
ghost use Rattle.ffv1_video.specs.declared.profile.Profile.TheVariants.{Wide};
ghost use Rattle.ffv1_unpack.specs.Internal.OpensTold.{OpensTold};
ghost use Rattle.ffv1_unpack.specs.ToldItems.{HasToldFault, IsReadAgainTelling, IsTried};
ghost use Rattle.ffv1_unpack.specs.ToldItems.{LacksTelling, ToldLacks, is_told};
ghost use Rattle.ffv1_unpack.specs.Unpack.{IsUnpackFault, IsUnpackFaultIn, LacksUnpacking};
ghost use Rattle.ffv1_unpack.specs.UnpackAll.{AreSalvageCounts, SalvageStopsBy, SalvagesAll};
ghost use Rattle.ffv1_unpack.specs.UnpackAll.{ToldLacksText, UnpackAllDone, UnpackAllStops};
ghost use Rattle.ffv1_unpack.specs.Unpacked.{HasText};
ghost use Rattle.ffv1_unpack.specs.Located.{Stands};

use crate::behind::tell_behind;
use crate::judging::JudgedCounts;
use crate::opening_all::{none_told, open_telling};
use crate::picture_out::TextOut;
use crate::pictures_out::text_head;
use crate::player::Player;
use crate::salvaging::salvage_items;
use crate::told_first::{refused_at, tell_refused};
use crate::unpacking::check_text;
use crate::unpacking_told::salvage_told;
use ffv1_codec::KeepLines;
use ffv1_files::{Notes, ToldFaults, Way};
use ffv1_record::{Colour, laws as record_laws};
use ffv1_video::{Fault, Profile};
use ffv1_wire::{AgainIn, ByteIn, ByteOut};
use ffv1_y4m::PpmWriter;
use std::alloc::Allocator;

/// Opens a file as `open_telling` does whose pictures have a text. If they have none, nothing is
/// told.
fn open_whole<R: AgainIn, A: Allocator + Copy>(
    alloc: A,
    profile: Profile,
    input: &mut R,
    told: &mut ToldFaults<A>,
    way: &mut Way,
) -> Result<Player<A>, Fault>
    requires none { told.old.faults.items ≡ [] }
    ensures ok { way.new ≡ ways.Plainly → IfOk result (λ p. OpensStream profile p.reader
        p.decoder.accepted (passage R.remaining R.failures input.old input.new)) }
    ensures stands { way.new ≡ ways.Plainly → IfOk result (λ p. Stands (scope_in profile)
        (R.remaining input.old) (R.remaining input.new) p.reader) }
    ensures text { IfOk result (λ p. HasText (stream_of p.reader p.decoder.accepted)) }
    ensures uncued { IfOk result (λ p. p.cued ≡ false) }
    ensures told { tells way.new ≡ true → IfOk result (λ p. OpensTold profile
        (passage R.remaining R.failures input.old input.new) told.new.data told.new.faults.items
        p.reader p.decoder.accepted) }
    ensures plainly { tells way.new ≡ true → HasToldFault profile
        (passage R.remaining R.failures input.old input.new) }
    ensures wide { tells way.new ≡ true → profile ≡ Wide }
    ensures none { way.new ≡ ways.Plainly → told.new.faults.items ≡ [] }
    ensures err { way.new ≡ ways.Plainly → IfErr result (λ f.
        LacksUnpacking profile (passage R.remaining R.failures input.old input.new) f
        ⊎ LacksTelling profile (passage R.remaining R.failures input.old input.new) f
        ⊎ (HasToldFault profile (passage R.remaining R.failures input.old input.new)
        × ToldLacksText profile (passage R.remaining R.failures input.old input.new) f)) }
    ensures refused { tells way.new ≡ true → IfErr result (λ f. (offset : ℕ)
        × ToldLacks profile (passage R.remaining R.failures input.old input.new) told.new.data
        told.new.faults.items f offset) }
    ensures own { IfErr result (IsUnpackFaultIn profile) }
    ensures again { IfErr result (IsReadAgainTelling profile (R.begins input.old)
        (passage R.remaining R.failures input.old input.new)) }
    ensures tried { IfErr result (IsTried (passage R.remaining R.failures input.old input.new)) }
{
    let mut offset = 0u64;
    let player = open_telling(alloc, profile, input, &mut offset, told, way)?;
    if let Err(fault) = check_text(player.reader.head(), player.decoder.config()) {
        told.faults.clear();
        *way = Way::Plainly;
        return Err(fault);
    }
    Ok(player)
}

/// Salvages the frames that are left as YUV4MPEG2, and hands the writer back.
fn salvage_text<R: ByteIn, L: ByteOut, W: ByteOut, A: Allocator + Copy>(
    alloc: A,
    player: &mut Player<A>,
    input: &mut R,
    lines: &mut L,
    output: W,
) -> (W, Result<JudgedCounts, Fault>)
    requires sound { player.old.reader.fault ≡ None }
    requires accepted { IsAccepted player.old.decoder.accepted.configuration
        player.old.decoder.accepted.table }
    requires text { HasText (stream_of player.old.reader player.old.decoder.accepted) }
    requires colour { is_rct player.old.decoder.accepted.configuration.colour ≡ false }
    ensures ok { IfOk result.1 (λ counts. (xs : List JudgedItem)
        × AreSalvageCounts (is_rct player.old.decoder.accepted.configuration.colour) counts xs
        × SalvagesAll (ItemsFrom player.old.reader.place (course_of player.old.reader))
        (stream_of player.old.reader player.old.decoder.accepted)
        (passage R.remaining R.failures input.old input.new)
        (passage L.contents L.failures lines.old lines.new)
        (passage W.contents W.failures output result.0) xs
        × (is_plain (course_of player.old.reader) ≡ true →
        ComesToEnd player.old.reader player.new.reader
        (passage R.remaining R.failures input.old input.new) ⊎ (length xs ≡ 2 ^ 64 - 1))) }
    ensures err { IfErr result.1 (λ f. SalvageStopsBy
        (ItemsFrom player.old.reader.place (course_of player.old.reader))
        (stream_of player.old.reader player.old.decoder.accepted)
        (passage R.remaining R.failures input.old input.new)
        (passage L.contents L.failures lines.old lines.new)
        (passage W.contents W.failures output result.0) f (cause_of f)) }
    ensures own { IfErr result.1 (IsWritingFault player.old.reader (R.remaining input.old)) }
    ensures untold { IfErr result.1 (λ f. is_told f ≡ false) }
    ensures container { container_of player.new.reader.place
        ≡ container_of player.old.reader.place }
    ensures stays { IfOk result.1 (λ counts. is_plain (course_of player.old.reader) ≡ false →
        player.new.reader ≡ player.old.reader) }
    ensures course { IfOk result.1 (λ counts.
        container_of player.old.reader.place ≡ container.Avi →
        SaidBy (course_left player.old.reader.place (course_of player.old.reader))
        (R.remaining input.old) (R.remaining input.new) player.new.course) }
    ensures kind { IfOk result.1 (λ counts.
        is_plain player.new.course ≡ is_plain (course_of player.old.reader)) }
    ensures cued { IfOk result.1 (λ counts. CuedBy
        (cued_left player.old.reader.place (course_of player.old.reader) player.old.cued)
        (R.remaining input.old) (R.remaining input.new) player.new.cued) }
{
    let checked = player.decoder.config();
    match KeepLines::new(alloc, checked) {
        Err(fault) => (output, Err(Fault::from(fault))),
        Ok(kept) => {
            let mut text = TextOut {
                output,
                kept,
                held: None,
                depth: checked.depth(),
                head: text_head(player.reader.head(), checked),
                begun: None,
            };
            let answer = salvage_items(alloc, player, input, lines, &mut text, false);
            (text.into_inner(), answer)
        }
    }
}

/// Salvages the frames that are left as PPM, and hands the writer back.
fn salvage_images<R: ByteIn, L: ByteOut, W: ByteOut, A: Allocator + Copy>(
    alloc: A,
    player: &mut Player<A>,
    input: &mut R,
    lines: &mut L,
    output: W,
) -> (W, Result<JudgedCounts, Fault>)
    requires sound { player.old.reader.fault ≡ None }
    requires accepted { IsAccepted player.old.decoder.accepted.configuration
        player.old.decoder.accepted.table }
    requires text { HasText (stream_of player.old.reader player.old.decoder.accepted) }
    requires colour { is_rct player.old.decoder.accepted.configuration.colour ≡ true }
    ensures ok { IfOk result.1 (λ counts. (xs : List JudgedItem)
        × AreSalvageCounts (is_rct player.old.decoder.accepted.configuration.colour) counts xs
        × SalvagesAll (ItemsFrom player.old.reader.place (course_of player.old.reader))
        (stream_of player.old.reader player.old.decoder.accepted)
        (passage R.remaining R.failures input.old input.new)
        (passage L.contents L.failures lines.old lines.new)
        (passage W.contents W.failures output result.0) xs
        × (is_plain (course_of player.old.reader) ≡ true →
        ComesToEnd player.old.reader player.new.reader
        (passage R.remaining R.failures input.old input.new) ⊎ (length xs ≡ 2 ^ 64 - 1))) }
    ensures err { IfErr result.1 (λ f. SalvageStopsBy
        (ItemsFrom player.old.reader.place (course_of player.old.reader))
        (stream_of player.old.reader player.old.decoder.accepted)
        (passage R.remaining R.failures input.old input.new)
        (passage L.contents L.failures lines.old lines.new)
        (passage W.contents W.failures output result.0) f (cause_of f)) }
    ensures own { IfErr result.1 (IsWritingFault player.old.reader (R.remaining input.old)) }
    ensures untold { IfErr result.1 (λ f. is_told f ≡ false) }
    ensures container { container_of player.new.reader.place
        ≡ container_of player.old.reader.place }
    ensures stays { IfOk result.1 (λ counts. is_plain (course_of player.old.reader) ≡ false →
        player.new.reader ≡ player.old.reader) }
    ensures course { IfOk result.1 (λ counts.
        container_of player.old.reader.place ≡ container.Avi →
        SaidBy (course_left player.old.reader.place (course_of player.old.reader))
        (R.remaining input.old) (R.remaining input.new) player.new.course) }
    ensures kind { IfOk result.1 (λ counts.
        is_plain player.new.course ≡ is_plain (course_of player.old.reader)) }
    ensures cued { IfOk result.1 (λ counts. CuedBy
        (cued_left player.old.reader.place (course_of player.old.reader) player.old.cued)
        (R.remaining input.old) (R.remaining input.new) player.new.cued) }
{
    record_laws::accepted_configuration_is_in_range();
    let checked = player.decoder.config();
    let config = checked.config();
    match PpmWriter::sized_at(alloc, output, config.width, config.height, checked.depth()) {
        Err((output, fault)) => (output, Err(Fault::from(fault))),
        Ok(mut sink) => {
            let answer = salvage_items(alloc, player, input, lines, &mut sink, true);
            (sink.into_inner(), answer)
        }
    }
}

/// Salvages the frames that are left, as the colour says.
pub(crate) fn salvage_file<R: ByteIn, L: ByteOut, W: ByteOut, A: Allocator + Copy>(
    alloc: A,
    player: &mut Player<A>,
    input: &mut R,
    lines: &mut L,
    output: W,
) -> (W, Result<JudgedCounts, Fault>)
    requires sound { player.old.reader.fault ≡ None }
    requires accepted { IsAccepted player.old.decoder.accepted.configuration
        player.old.decoder.accepted.table }
    requires text { HasText (stream_of player.old.reader player.old.decoder.accepted) }
    ensures ok { IfOk result.1 (λ counts. (xs : List JudgedItem)
        × AreSalvageCounts (is_rct player.old.decoder.accepted.configuration.colour) counts xs
        × SalvagesAll (ItemsFrom player.old.reader.place (course_of player.old.reader))
        (stream_of player.old.reader player.old.decoder.accepted)
        (passage R.remaining R.failures input.old input.new)
        (passage L.contents L.failures lines.old lines.new)
        (passage W.contents W.failures output result.0) xs
        × (is_plain (course_of player.old.reader) ≡ true →
        ComesToEnd player.old.reader player.new.reader
        (passage R.remaining R.failures input.old input.new) ⊎ (length xs ≡ 2 ^ 64 - 1))) }
    ensures err { IfErr result.1 (λ f. SalvageStopsBy
        (ItemsFrom player.old.reader.place (course_of player.old.reader))
        (stream_of player.old.reader player.old.decoder.accepted)
        (passage R.remaining R.failures input.old input.new)
        (passage L.contents L.failures lines.old lines.new)
        (passage W.contents W.failures output result.0) f (cause_of f)) }
    ensures own { IfErr result.1 (IsWritingFault player.old.reader (R.remaining input.old)) }
    ensures untold { IfErr result.1 (λ f. is_told f ≡ false) }
    ensures container { container_of player.new.reader.place
        ≡ container_of player.old.reader.place }
    ensures stays { IfOk result.1 (λ counts. is_plain (course_of player.old.reader) ≡ false →
        player.new.reader ≡ player.old.reader) }
    ensures course { IfOk result.1 (λ counts.
        container_of player.old.reader.place ≡ container.Avi →
        SaidBy (course_left player.old.reader.place (course_of player.old.reader))
        (R.remaining input.old) (R.remaining input.new) player.new.course) }
    ensures kind { IfOk result.1 (λ counts.
        is_plain player.new.course ≡ is_plain (course_of player.old.reader)) }
    ensures cued { IfOk result.1 (λ counts. CuedBy
        (cued_left player.old.reader.place (course_of player.old.reader) player.old.cued)
        (R.remaining input.old) (R.remaining input.new) player.new.cued) }
{
    match player.decoder.config().config().colour {
        Colour::YCbCr => salvage_text(alloc, player, input, lines, output),
        Colour::Rct => salvage_images(alloc, player, input, lines, output),
    }
}

/// These counts; or `NoFrames`, if there was neither a frame nor a fault.
fn found(counts: JudgedCounts) -> Result<JudgedCounts, Fault>
    ensures ok { IfOk result (λ c. (c ≡ counts)
        × (counts.frames ≡ 0 → counts.faults ≡ 0 → ⊥)) }
    ensures err { IfErr result (λ f. (f ≡ fault.NoFrames) × (counts.frames ≡ 0)
        × (counts.faults ≡ 0)) }
{
    if counts.frames == 0 {
        if counts.faults == 0 {
            return Err(Fault::NoFrames);
        }
    }
    Ok(counts)
}

/// Tells what comes after the items of a file, of which these are the counts.
pub(crate) fn end_all<R: ByteIn, L: ByteOut, A: Allocator + Copy>(
    alloc: A,
    player: &Player<A>,
    input: &mut R,
    lines: &mut L,
    counts: JudgedCounts,
) -> Result<(JudgedCounts, Notes), Fault>
    ensures ok { IfOk result (λ told. BehindAnswers
        player.now.reader player.now.course player.now.cued
        (passage R.remaining R.failures input.old input.new)
        (passage L.contents L.failures lines.old lines.new) counts told.0 (Ok told.1)
        × (told.0.frames ≡ 0 → told.0.faults ≡ 0 → ⊥)) }
    ensures err { IfErr result (λ f. BehindFailsBy
        player.now.reader player.now.course player.now.cued
        (passage R.remaining R.failures input.old input.new)
        (passage L.contents L.failures lines.old lines.new) (cause_of f)
        ⊎ ((f ≡ fault.NoFrames) × (new : JudgedCounts) × (new.frames ≡ 0) × (new.faults ≡ 0)
        × (notes : Notes) × BehindAnswers player.now.reader player.now.course player.now.cued
        (passage R.remaining R.failures input.old input.new)
        (passage L.contents L.failures lines.old lines.new) counts new (Ok notes))) }
    ensures noted { container_of player.now.reader.place ≡ container.Avi →
        player.now.course ≡ course.Plain → (scope : Scope) (text : Option (List ℕ)) →
        NotesEnd scope text (R.remaining input.old) player.now.reader →
        IfOk result (λ told. NotedOf scope text (R.remaining input.new) told.1) }
    ensures own { IfErr result IsUnpackFault }
    ensures untold { IfErr result (λ f. is_told f ≡ false) }
{
    let mut counts = counts;
    let notes = tell_behind(alloc, player, input, lines, &mut counts)?;
    let counts = found(counts)?;
    Ok((counts, notes))
}

/// Decodes all frames of a file that the profile reads, and goes on after a frame that is refused;
/// at `Wide` also after a fault of the file itself among its frames, as `FileReader::next_item`
/// does. Of each frame it writes a picture, as `unpack` does: its own,
/// or, if it is refused, or has no bytes, the last good one again; before the first good one none.
/// So there are as many pictures as frames, less those before the first good one. It writes a line
/// of each fault as soon as that is met, before the picture:
///
/// ```text
/// frame {i}: fault {number} {name}
/// byte {offset}: fault {number} {name}
/// ```
///
/// A later frame whose structure or aspect are not those of the header of YUV4MPEG2 is good: its
/// picture is written under that header, and its line tells `FormatChanged`. Images of PPM say
/// neither, and nothing is told.
///
/// Answers how many frames there were, how many faults of both kinds, and the first fault. A file
/// without faults has no line, and the pictures that `unpack` writes. Frames are counted from 0; a
/// count of 64 bits stays at its greatest value, and at most 2^64 - 1 frames and faults are judged.
/// Of YUV4MPEG2 each payload is decoded once, into the picture that is held, before anything of it
/// is written; if it is refused, the last good one is decoded again. Images of PPM are written row
/// by row, so each payload is decoded twice, first without writing, so that nothing of a refused
/// picture is written. Beside what `unpack` holds, one payload more is held, the last good one.
///
/// A Matroska file is opened as `check_all` opens it: the faults that are told before its first
/// frame have their lines before all others, and each is one fault more. If a fault ends that
/// before the first frame, the lines of what is told are written, and it is the answer. If the
/// pictures have no text, that is the fault, and nothing is told.
///
/// All other faults end it as they end `unpack`, after the pictures and lines before: those of the
/// file up to its first frame, of its record, `NoY4mName` and `NoPpm`, and at `Strict` of the
/// chunks of its frames (`EmptyFrame`, too); `NoFrames` at the end if there was neither a frame nor
/// a fault; `Read`, `OutOfMemory` and `Write` as they come. After `Write` a beginning of the next
/// line or of the next picture is written.
///
/// At the end, what comes after the file is looked at, as `check_all` does: another one that begins
/// there is told, `Another`, and is one fault more. Else the answer has what is noted of the end.
pub fn unpack_all<R: AgainIn, L: ByteOut, W: ByteOut, A: Allocator + Copy>(
    alloc: A,
    profile: Profile,
    input: &mut R,
    lines: &mut L,
    output: W,
) -> (W, Result<(JudgedCounts, Notes), Fault>)
    ensures ok { IfOk result.1 (λ told. UnpackAllDone profile
        (passage R.remaining R.failures input.old input.new)
        (passage L.contents L.failures lines.old lines.new)
        (passage W.contents W.failures output result.0) told.0 told.1) }
    ensures err { IfErr result.1 (UnpackAllStops profile
        (passage R.remaining R.failures input.old input.new)
        (passage L.contents L.failures lines.old lines.new)
        (passage W.contents W.failures output result.0)) }
    ensures own { IfErr result.1 (IsUnpackFaultIn profile) }
    ensures again { IfErr result.1 (IsReadAgainTelling profile (R.begins input.old)
        (passage R.remaining R.failures input.old input.new)) }
    ensures tried { IfErr result.1 (IsTried (passage R.remaining R.failures input.old input.new)) }
{
    let mut told = none_told(alloc);
    let mut way = Way::Plainly;
    match open_whole(alloc, profile, input, &mut told, &mut way) {
        Err(fault) => {
            let fault = tell_refused(alloc, lines, &told, refused_at(fault, 0, false));
            (output, Err(fault))
        }
        Ok(mut player) => {
            if way.tells() {
                return salvage_told(alloc, &mut player, &told, input, lines, output);
            }
            let (output, answer) = salvage_file(alloc, &mut player, input, lines, output);
            match answer {
                Err(fault) => (output, Err(fault)),
                Ok(counts) => match end_all(alloc, &player, input, lines, counts) {
                    Ok(told) => (output, Ok(told)),
                    Err(fault) => (output, Err(fault)),
                },
            }
        }
    }
}
