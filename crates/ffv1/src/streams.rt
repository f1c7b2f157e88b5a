//! What commands do with a reader and a writer, once their files are open: all at the profile
//! `Wide`.

ghost use Rattle.std.specs.Prelude.{◌≡◌, ◌≢◌, IfErr, IfOk, MatchResult, None, Some, false, true};
ghost use Rattle.ffv1_wire.specs.Passage.{passage};
ghost use Rattle.ffv1_pack.specs.Pack.{Packs, RefusesPack};
ghost use Rattle.ffv1_pack.specs.PackMatroska.{PacksMatroska, RefusesMatroska};
ghost use Rattle.ffv1_info.specs.Info.{IsInfoReadAgain};
ghost use Rattle.ffv1_unpack.specs.Check.{IsCheckFault};
ghost use Rattle.ffv1_unpack.specs.Opens.{IsReadAgain};
ghost use Rattle.ffv1_unpack.specs.Show.{IsShowFault};
ghost use Rattle.ffv1_unpack.specs.ToldItems.{IsReadAgainTelling};
ghost use Rattle.ffv1_unpack.specs.Unpack.{UnpackRangeDone, UnpackRangeStops};
ghost use Rattle.ffv1.specs.Made.{UnpacksAll};
ghost use Rattle.ffv1_words.specs.Order.{leaves_out};
ghost use Rattle.ffv1_video.specs.declared.profile.Profile.TheVariants as profile;
ghost use Rattle.ffv1.specs.Made.{AsksInto, PacksAsked, PacksInto};
ghost use Rattle.ffv1_orders.specs.Statuses.{IsAnyFault, IsFault};
ghost use Rattle.ffv1.specs.Streams.{Checks, Informs, Shows, Tries, WritesFrames, WritesMd5s};

use ffv1_engine::{
    Fault, JudgedCounts, Packed, PackedMatroska, Profile, check_all, check_all_range, check_range,
    framemd5_range, framemd5_text, pack, pack_matroska, show, trial, unpack_all, unpack_range,
};
use ffv1_files::Notes;
use ffv1_info::info;
use ffv1_orders::Refusal;
use ffv1_outline::Form;
use ffv1_wire::{AgainIn, ByteIn, ByteOut, PatchOut};
use ffv1_words::{Choice, FrameRange};
use std::alloc::Global;

/// Decodes frames of a file, and writes what each took, and with `place` where one is refused; with
/// `all` also those after one that is refused, and if no frame is left out also what is left of a
/// Matroska file after a fault of its own. Answers the first fault of those, and what is noted of
/// the file.
pub fn check_stream<R: AgainIn, W: ByteOut>(
    alloc: Global,
    input: &mut R,
    output: &mut W,
    all: bool,
    place: bool,
    range: FrameRange,
) -> Result<(Option<Fault>, Notes), Fault>
    ensures checks { Checks all place range (passage R.remaining R.failures input.old input.new)
        (passage W.contents W.failures output.old output.new) result }
    ensures none { all ≡ false → IfOk result (λ answer. answer.0 ≡ None) }
    ensures own { IfErr result (IsCheckFault profile.Wide) }
    ensures again { IfErr result (IsReadAgainTelling profile.Wide (R.begins input.old)
        (passage R.remaining R.failures input.old input.new)) }
{
    if !all {
        let notes = check_range(alloc, Profile::Wide, input, output, place, range)?;
        return Ok((None, notes));
    }
    if range.leaves_out() {
        return check_all_range(alloc, Profile::Wide, input, output, place, range);
    }
    check_all(alloc, Profile::Wide, input, output, place)
}

/// Writes what a file says, and with `cost` what its frames cost. Answers what is noted of it.
pub fn show_stream<R: AgainIn, W: ByteOut>(
    alloc: Global,
    input: &mut R,
    output: &mut W,
    cost: bool,
) -> Result<Notes, Refusal>
    ensures shows { Shows cost (passage R.remaining R.failures input.old input.new)
        (passage W.contents W.failures output.old output.new) result }
    ensures own { IfErr result (IsFault (IsShowFault profile.Wide cost)) }
    ensures again { IfErr result (IsFault (IsReadAgain profile.Wide (R.begins input.old)
        (passage R.remaining R.failures input.old input.new))) }
    ensures fault { IfErr result IsAnyFault }
{
    match show(alloc, Profile::Wide, input, output, cost) {
        Ok(notes) => Ok(notes),
        Err(fault) => Err(Refusal::Fault(fault)),
    }
}

/// Writes the facts of a file, and with `count` how many frames it has.
pub fn info_stream<R: AgainIn + Drop, W: ByteOut>(
    alloc: Global,
    input: R,
    output: &mut W,
    form: Form,
    count: bool,
) -> Result<(), Refusal>
    ensures informs { Informs form count (R.remaining input)
        (passage W.contents W.failures output.old output.new) result }
    ensures again { ((reader : R) → R.begins reader ≡ true) →
        IfErr result (IsFault (IsInfoReadAgain profile.Wide (R.remaining input))) }
    ensures fault { IfErr result IsAnyFault }
{
    match info(alloc, Profile::Wide, input, output, form, count) {
        Ok(()) => Ok(()),
        Err(fault) => Err(Refusal::Fault(fault)),
    }
}

/// Codes and decodes the first picture of a text, and writes what it found.
pub fn trial_stream<R: ByteIn, W: ByteOut>(
    alloc: Global,
    input: &mut R,
    output: &mut W,
) -> Result<(), Refusal>
    ensures tries { Tries (passage R.remaining R.failures input.old input.new)
        (passage W.contents W.failures output.old output.new) result }
    ensures fault { IfErr result IsAnyFault }
{
    match trial(alloc, input, output) {
        Ok(()) => Ok(()),
        Err(fault) => Err(Refusal::Fault(fault)),
    }
}

/// Writes the MD5 of each picture of a file, or of a text, which begins with `P` or `Y`. Only
/// frames of a file are left out. Answers what is noted of a file; of a text nothing is.
pub fn framemd5_stream<R: AgainIn, W: ByteOut>(
    alloc: Global,
    first: Option<u8>,
    input: &mut R,
    output: &mut W,
    range: FrameRange,
) -> Result<Notes, Refusal>
    ensures images { leaves_out range ≡ false → first ≡ Some 80 → WritesMd5s
        (passage R.remaining R.failures input.old input.new)
        (passage W.contents W.failures output.old output.new) result }
    ensures text { leaves_out range ≡ false → first ≡ Some 89 → WritesMd5s
        (passage R.remaining R.failures input.old input.new)
        (passage W.contents W.failures output.old output.new) result }
    ensures file { first ≢ Some 80 → first ≢ Some 89 → WritesFrames range
        (passage R.remaining R.failures input.old input.new)
        (passage W.contents W.failures output.old output.new) result }
    ensures frames { leaves_out range ≡ true → WritesFrames range
        (passage R.remaining R.failures input.old input.new)
        (passage W.contents W.failures output.old output.new) result }
    ensures again { first ≢ Some 80 → first ≢ Some 89 → IfErr result
        (IsFault (IsReadAgain profile.Wide (R.begins input.old)
        (passage R.remaining R.failures input.old input.new))) }
    ensures fault { IfErr result IsAnyFault }
{
    if !range.leaves_out() && (first == Some(b'P') || first == Some(b'Y')) {
        return match framemd5_text(alloc, Profile::Wide, input, output) {
            Ok(()) => Ok(Notes::NONE),
            Err(fault) => Err(Refusal::Fault(fault)),
        };
    }
    match framemd5_range(alloc, Profile::Wide, input, output, range) {
        Ok(notes) => Ok(notes),
        Err(fault) => Err(Refusal::Fault(fault)),
    }
}

/// Unpacks frames of a file into a text of their pictures. Answers the writer, how many pictures
/// there are, and what is noted of the file.
pub fn unpack_stream<R: AgainIn, W: ByteOut>(
    alloc: Global,
    input: &mut R,
    output: W,
    range: FrameRange,
) -> (W, Result<(u64, Notes), Refusal>)
    ensures unpacks { MatchResult result.1
        (λ answer. UnpackRangeDone profile.Wide range
        (passage R.remaining R.failures input.old input.new)
        (passage W.contents W.failures output result.0) answer.0 answer.1)
        (IsFault (UnpackRangeStops profile.Wide range
        (passage R.remaining R.failures input.old input.new)
        (passage W.contents W.failures output result.0))) }
    ensures again { IfErr result.1 (IsFault (IsReadAgain profile.Wide (R.begins input.old)
        (passage R.remaining R.failures input.old input.new))) }
    ensures fault { IfErr result.1 IsAnyFault }
{
    let (output, answer) = unpack_range(alloc, Profile::Wide, input, output, range);
    match answer {
        Ok(told) => (output, Ok(told)),
        Err(fault) => (output, Err(Refusal::Fault(fault))),
    }
}

/// Unpacks all of a file that may be damaged into a text of its pictures, and writes a line of each
/// fault. Answers the writer, how many frames and faults there are, the first fault, and what is
/// noted of the file.
pub fn unpack_all_stream<R: AgainIn, L: ByteOut, W: ByteOut>(
    alloc: Global,
    input: &mut R,
    lines: &mut L,
    output: W,
) -> (W, Result<(JudgedCounts, Notes), Refusal>)
    ensures unpacks { UnpacksAll (passage R.remaining R.failures input.old input.new)
        (passage L.contents L.failures lines.old lines.new)
        (passage W.contents W.failures output result.0) result.1 }
    ensures again { IfErr result.1 (IsFault (IsReadAgainTelling profile.Wide (R.begins input.old)
        (passage R.remaining R.failures input.old input.new))) }
    ensures fault { IfErr result.1 IsAnyFault }
{
    let (output, answer) = unpack_all(alloc, Profile::Wide, input, lines, output);
    match answer {
        Ok(told) => (output, Ok(told)),
        Err(fault) => {
            let refusal = Refusal::Fault(fault);
            (output, Err(refusal))
        }
    }
}

/// The counts of a file that was packed.
#[derive(Clone, Copy)]
pub struct Counts {
    /// How many frames there are.
    pub frames: u64,
    /// How many bytes the frames have.
    pub bytes: u64,
    /// Whether the file does not hold what its video says of colours.
    pub loses_colour: bool,
}

/// Packs a video into AVI.
pub fn pack_stream<R: ByteIn, W: ByteOut>(
    alloc: Global,
    input: &mut R,
    output: &mut W,
    choice: &Choice,
) -> Result<Packed, Refusal>
    ensures packs { MatchResult result
        (Packs profile.Wide choice.now (passage R.remaining R.failures input.old input.new)
        (passage W.contents W.failures output.old output.new))
        (IsFault (RefusesPack profile.Wide choice.now
        (passage R.remaining R.failures input.old input.new)
        (passage W.contents W.failures output.old output.new))) }
    ensures fault { IfErr result IsAnyFault }
{
    match pack(alloc, Profile::Wide, input, output, choice) {
        Ok(packed) => Ok(packed),
        Err(fault) => Err(Refusal::Fault(fault)),
    }
}

/// Packs a video into Matroska. The file is finished if the output answers that it was written
/// over, when it is asked for that; else the Segment stays open, of unknown size.
pub fn pack_clusters<R: ByteIn, W: PatchOut>(
    alloc: Global,
    input: &mut R,
    output: &mut W,
    choice: &Choice,
) -> Result<PackedMatroska, Refusal>
    ensures packs { MatchResult result
        (PacksMatroska profile.Wide choice.now
        (passage R.remaining R.failures input.old input.new)
        (passage W.contents W.failures output.old output.new))
        (IsFault (RefusesMatroska profile.Wide choice.now
        (passage R.remaining R.failures input.old input.new)
        (passage W.contents W.failures output.old output.new))) }
    ensures asks { IfOk result (PacksAsked W.contents W.failures W.overwrites choice.now
        (passage R.remaining R.failures input.old input.new) output.old output.new) }
    ensures fault { IfErr result IsAnyFault }
{
    match pack_matroska(alloc, Profile::Wide, input, output, choice) {
        Ok(packed) => Ok(packed),
        Err(fault) => Err(Refusal::Fault(fault)),
    }
}

/// Packs a video into Matroska, or into AVI. Only Matroska is written over, where the output can
/// be, and is then finished.
pub fn pack_into<R: ByteIn, W: PatchOut>(
    alloc: Global,
    input: &mut R,
    output: &mut W,
    is_matroska: bool,
    choice: &Choice,
) -> Result<Counts, Refusal>
    ensures packs { PacksInto is_matroska choice.now
        (passage R.remaining R.failures input.old input.new)
        (passage W.contents W.failures output.old output.new) result }
    ensures asks { AsksInto W.contents W.failures W.overwrites is_matroska choice.now
        (passage R.remaining R.failures input.old input.new) output.old output.new result }
    ensures fault { IfErr result IsAnyFault }
{
    if is_matroska {
        return match pack_clusters(alloc, input, output, choice) {
            Ok(packed) => Ok(Counts {
                frames: packed.frames,
                bytes: packed.bytes,
                loses_colour: false,
            }),
            Err(refusal) => Err(refusal),
        };
    }
    match pack_stream(alloc, input, output, choice) {
        Ok(packed) => Ok(Counts {
            frames: packed.frames,
            bytes: packed.bytes,
            loses_colour: packed.loses_colour,
        }),
        Err(refusal) => Err(refusal),
    }
}
