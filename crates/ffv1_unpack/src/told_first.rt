//! Tells the faults of a Matroska file that may be damaged before its first frame, before all else
//! that is told of it.

ghost use Rattle.std.specs.Prelude.{◌≡◌, ◌⊎◌, ◌++◌, ℕ, List, Option, IfErr, IfOk, Bool, None};
ghost use Rattle.std.specs.Prelude.{OnOk, [], false, true};
ghost use Rattle.ffv1_wire.specs.Passage.{between, passage};
ghost use Rattle.ffv1_record.specs.Accepted.{IsAccepted};
ghost use Rattle.ffv1_files.specs.Places.{container_of};
ghost use Rattle.ffv1_files.specs.Salvaged.{SomeTold, told_offset};
ghost use Rattle.ffv1_video.specs.declared.fault.Fault.TheVariants as fault;
ghost use Rattle.ffv1_video.specs.declared.profile.Profile.{Profile};
ghost use Rattle.ffv1_unpack.specs.AllItems.{DoneBy};
ghost use Rattle.ffv1_unpack.specs.Internal.Containers.{is_segment};
ghost use Rattle.ffv1_unpack.specs.Internal.JudgedItems.{AreItemCounts};
ghost use Rattle.ffv1_unpack.specs.Internal.OpensTold.{OpensTold, first_told};
ghost use Rattle.ffv1_unpack.specs.Internal.Told.{WritesFrame};
ghost use Rattle.ffv1_unpack.specs.JudgedItems.{JudgedItem};
ghost use Rattle.ffv1_unpack.specs.Located.{WritesLine, located_text};
ghost use Rattle.ffv1_unpack.specs.Told.{is_telling_fault};
ghost use Rattle.ffv1_unpack.specs.ToldItems.{AgainFault, ToldItemsEnd, ToldItemsThen, ToldWrites};
ghost use Rattle.ffv1_unpack.specs.ToldItems.{is_told, told_items, told_lines};
ghost use Rattle.ffv1_unpack.specs.UnpackAll.{AreSalvageCounts};

use crate::behind::tell_behind;
use crate::checking::write_counts;
use crate::judging::JudgedCounts;
use crate::judging_items::{judge_items, push_told};
use crate::player::Player;
use crate::telling::tell_byte;
use ffv1_files::{Notes, ToldFault, ToldFaults};
use ffv1_reads::FileFault;
use ffv1_video::{Fault, Profile};
use ffv1_wire::{ByteIn, ByteOut, write_all};
use std::alloc::{AllocError, Allocator};

/// Whether a fault of a file is one that may be told before its first frame.
pub(crate) fn is_told(fault: Fault) -> bool
    ensures { result ≡ is_told fault }
{
    match fault {
        Fault::File(FileFault::Checksum) | Fault::File(FileFault::BadElement) => true,
        _ => false,
    }
}

/// How many bytes of a file come before an element at fault, if so many come before the first
/// element of its Segment.
fn told_offset(start: u64, position: Option<u64>) -> u64
    ensures { result ≡ told_offset start position }
{
    match position {
        None => 0,
        Some(position) => start.saturating_add(position),
    }
}

/// Appends the lines of faults that are told.
fn push_lines<A: Allocator>(
    text: &mut Vec<u8, A>,
    start: u64,
    faults: &[ToldFault],
) -> Result<(), AllocError>
    ensures { OnOk result (text.new.items ≡ text.old.items ++ told_lines start faults.now) }
{
    for told in faults {
        push_told(text, told_offset(start, told.position), told.fault)?;
    }
    Ok(())
}

/// Writes the lines of the faults that are told, all at once.
pub(crate) fn write_lines<W: ByteOut, A: Allocator + Copy>(
    alloc: A,
    output: &mut W,
    told: &ToldFaults<A>,
) -> Result<(), Fault>
    ensures { WritesFrame (told_lines told.now.data told.now.faults.items)
        (passage W.contents W.failures output.old output.new) result }
{
    let mut text = Vec::new(alloc);
    push_lines(&mut text, told.data, told.faults.as_slice())?;
    if write_all(output, &text).is_err() {
        return Err(Fault::Write);
    }
    Ok(())
}

/// The first of these faults, or else that one.
fn first_fault(faults: &[ToldFault], other: Option<Fault>) -> Option<Fault>
    ensures { result ≡ first_told faults.now other }
{
    match faults.first() {
        Some(told) => Some(Fault::from(told.fault)),
        None => other,
    }
}

/// The counts of items, with those of the faults that were told before.
pub(crate) fn with_told<A: Allocator>(told: &ToldFaults<A>, counts: JudgedCounts) -> JudgedCounts
    ensures judged { (start : ℕ) (xs : List JudgedItem) → AreItemCounts counts xs →
        AreItemCounts result (told_items start told.now.faults.items ++ xs) }
    ensures salvaged { (start : ℕ) (ppm : Bool) (xs : List JudgedItem) →
        AreSalvageCounts ppm counts xs →
        AreSalvageCounts ppm result (told_items start told.now.faults.items ++ xs) }
{
    JudgedCounts {
        frames: counts.frames,
        faults: counts.faults.saturating_add(told.faults.len() as u64),
        first: first_fault(told.faults.as_slice(), counts.first),
    }
}

/// Writes the lines of the faults that are told, then judges all items that are left, tells what
/// comes after them, and writes how many there were, as `check_all` does. `NoFrames` if there was
/// neither a frame nor a fault.
pub(crate) fn judge_told<R: ByteIn, W: ByteOut, A: Allocator + Copy>(
    alloc: A,
    player: &mut Player<A>,
    told: &ToldFaults<A>,
    input: &mut R,
    output: &mut W,
    place: bool,
) -> Result<(Option<Fault>, Notes), Fault>
    requires sound { player.old.reader.fault ≡ None }
    requires segment { is_segment (container_of player.old.reader.place) ≡ true }
    requires accepted { IsAccepted player.old.decoder.accepted.configuration
        player.old.decoder.accepted.table }
    ensures ok { (profile : Profile) (i0 : Option (List ℕ)) (ib : ℕ) → OpensTold profile
        (between i0 (R.remaining input.old) ib (R.failures input.old)) told.now.data
        told.now.faults.items player.old.reader player.old.decoder.accepted →
        player.old.cued ≡ false → IfOk result (λ r. DoneBy ToldItemsThen ToldItemsEnd profile place
        (between i0 (R.remaining input.new) ib (R.failures input.new))
        (passage W.contents W.failures output.old output.new) r.0 r.1) }
    ensures err { (profile : Profile) (i0 : Option (List ℕ)) (ib : ℕ) → OpensTold profile
        (between i0 (R.remaining input.old) ib (R.failures input.old)) told.now.data
        told.now.faults.items player.old.reader player.old.decoder.accepted →
        player.old.cued ≡ false → IfErr result (AgainFault profile place
        (between i0 (R.remaining input.new) ib (R.failures input.new))
        (passage W.contents W.failures output.old output.new)) }
    ensures own { IfErr result (λ f. (is_telling_fault f ≡ true) ⊎ (f ≡ fault.NoFrames)) }
{
    write_lines(alloc, output, told)?;
    let judged = judge_items(alloc, player, input, output, place)?;
    let mut counts = with_told(told, judged);
    let notes = tell_behind(alloc, player, input, output, &mut counts)?;
    if counts.frames == 0 && counts.faults == 0 {
        return Err(Fault::NoFrames);
    }
    write_counts(alloc, output, counts.frames, counts.faults)?;
    Ok((counts.first, notes))
}

/// Why a file was not opened, and where in it that is; and whether that is written.
#[derive(Clone, Copy)]
pub(crate) struct Refused {
    /// The fault.
    pub(crate) fault: Fault,
    /// The number of bytes of the file before the element at fault.
    pub(crate) offset: u64,
    /// Whether the line of the byte is written.
    pub(crate) byte: bool,
}

/// The same, put together.
pub(crate) fn refused_at(fault: Fault, offset: u64, byte: bool) -> Refused
    ensures { result ≡ record { fault = fault; offset = offset; byte = byte } }
{
    Refused {
        fault,
        offset,
        byte,
    }
}

/// Writes the lines of the faults that are told of a file that is refused before its first frame,
/// and then the line of the byte where it is. Answers the fault that refuses it, also if that line
/// can't be written; `Write` if the lines before can't, and `OutOfMemory`.
pub(crate) fn tell_refused<W: ByteOut, A: Allocator + Copy>(
    alloc: A,
    output: &mut W,
    told: &ToldFaults<A>,
    refused: Refused,
) -> Fault
    ensures none { told.now.faults.items ≡ [] → (result ≡ refused.fault)
        × WritesLine [] (located_text refused.byte 0 refused.fault refused.offset)
        (passage W.contents W.failures output.old output.new) }
    ensures some { SomeTold told.now.faults.items → ToldWrites refused.byte
        (passage W.contents W.failures output.old output.new) told.now.data
        told.now.faults.items refused.fault refused.offset result }
    ensures own { (result ≡ refused.fault) ⊎ (is_telling_fault result ≡ true) }
{
    if !told.faults.is_empty() {
        if let Err(fault) = write_lines(alloc, output, told) {
            return fault;
        }
    }
    tell_byte(output, refused.byte, 0, refused.offset, refused.fault);
    refused.fault
}
