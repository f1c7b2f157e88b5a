//! What a command that makes a file does.

ghost use Rattle.std.specs.Prelude.{◌≡◌, IfErr};
ghost use Rattle.ffv1_words.specs.Order.{is_matroska};
ghost use Rattle.ffv1_orders.specs.Telling.{IsUntold};
ghost use Rattle.ffv1.specs.Made.{PacksIn, UnpacksAllIn, UnpacksIn};
ghost use Rattle.ffv1_orders.specs.Statuses.{IsAnyFault, IsMakingRefusal};
ghost use Rattle.ffv1_orders.specs.declared.refusal.Refusal.TheVariants as refusal;
ghost use Rattle.ffv1_video.specs.declared.fault.Fault.TheVariants as fault;

use crate::BySystem;
use crate::checking::judged;
use crate::streams::{Counts, pack_into, unpack_all_stream, unpack_stream};
use ffv1_files::Notes;
use ffv1_orders::{
    Making, Met, Noted, Opens, Refusal, Remarks, Unpacking, beside, noted, tell_remarks,
};
use ffv1_wire::ToWrite;
use ffv1_words::{Choice, ContainerChoice, is_hyphen};

/// Prints a count: on standard output, or on standard error if the output itself goes there.
fn print_count(
    rt: &(impl Print + Eprint),
    output: &str,
    count: &str,
    met: &Met,
) -> Result<(), Refusal>
    ensures { IfErr result (λ r. r ≡ refusal.Fault fault.Write) }
{
    let printed = if is_hyphen(output) {
        eprintln!(rt; "{count}")
    } else {
        println!(rt; "{count}")
    };
    met.printed(printed)
}

/// Prints how many frames and bytes of them there are, after what the file does not hold.
/// `Write` if a line cannot be printed, `OutOfMemory` if memory of it is refused.
fn tell_packed<R: Print + Eprint, O>(
    system: &BySystem<'_, R, O>,
    files: &Making<'_>,
    choice: &Choice,
    counts: Counts,
) -> Result<(), Refusal>
    ensures untold { IfErr result IsUntold }
    ensures fault { IfErr result IsAnyFault }
{
    let Counts {
        frames,
        bytes,
        loses_colour,
    } = counts;
    let met = system.met;
    let keeps_rate = choice.rate_given && met.is_text();
    let remarks = Remarks {
        loses_colour,
        keeps_rate,
    };
    met.printed(tell_remarks(system.rt, files.paths(), remarks))?;
    let count = format!(in system.alloc; "frames {frames} bytes {bytes}")?;
    print_count(system.rt, files.output, &count, met)
}

/// Prints how many pictures there are. `Write` if the line cannot be printed, `OutOfMemory` if
/// memory of it is refused.
fn tell_unpacked<R: Print + Eprint, O>(
    system: &BySystem<'_, R, O>,
    files: &Making<'_>,
    frames: u64,
) -> Result<(), Refusal>
    ensures untold { IfErr result IsUntold }
    ensures fault { IfErr result IsAnyFault }
{
    let count = format!(in system.alloc; "frames {frames}")?;
    print_count(system.rt, files.output, &count, system.met)
}

/// Packs a video into a file, and prints how many frames and bytes of them there are, after what
/// the file does not hold. Matroska is finished if OUT can be written over; else its
/// Segment stays open.
pub fn run_pack<R: Print + Eprint, O: Opens>(
    system: &BySystem<'_, R, O>,
    files: &Making<'_>,
    container: ContainerChoice,
    choice: &Choice,
) -> Result<Notes, Refusal>
    ensures packs { PacksIn (O.opens system.now.opener files.now.input.now)
        (O.makes system.now.opener files.now.output.now) (O.refuses system.now.opener files.now)
        O.Reader.remaining O.Reader.failures O.Writer.contents O.Writer.failures O.Writer.overwrites
        (is_matroska container files.now.output.now) choice.now result }
    ensures refused { IfErr result (IsMakingRefusal files.now.no_clobber) }
{
    let (mut reader, mut writer) = system.opener.make(files)?;
    match pack_into(
        system.alloc,
        &mut reader,
        &mut writer,
        container.is_matroska(files.output),
        choice,
    ) {
        Ok(counts) => {
            tell_packed(system, files, choice, counts)?;
            Ok(Notes::NONE)
        }
        Err(refusal) => Err(refusal),
    }
}

/// Unpacks frames of a file into a text of their pictures, and prints how many there are. What
/// becomes of it is what is noted of the file.
pub fn run_unpack<R: Print + Eprint, O: Opens>(
    system: &BySystem<'_, R, O>,
    files: &Making<'_>,
    how: Unpacking,
) -> Result<Notes, Refusal>
    ensures unpacks { UnpacksIn (O.opens system.now.opener files.now.input.now)
        (O.makes system.now.opener files.now.output.now) (O.refuses system.now.opener files.now)
        O.Reader.remaining O.Reader.failures O.Writer.contents O.Writer.failures how result }
    ensures refused { IfErr result (IsMakingRefusal files.now.no_clobber) }
{
    let (mut reader, writer) = system.opener.make(files)?;
    let (_written, answer) = unpack_stream(system.alloc, &mut reader, writer, how.range);
    match answer {
        Ok((frames, notes)) => {
            tell_unpacked(system, files, frames)?;
            noted(how.notes_as_faults, Ok(notes))
        }
        Err(refusal) => Err(refusal),
    }
}

/// Unpacks all of a file that may be damaged into a text of its pictures, and prints a line of each
/// fault, and then how many frames there are. What becomes of it is the first fault, and what is
/// noted of the file.
pub fn run_unpack_all<R: Print + Eprint, O: Opens>(
    system: &BySystem<'_, R, O>,
    files: &Making<'_>,
    notes_as_faults: bool,
) -> Result<Notes, Refusal>
    ensures unpacks { UnpacksAllIn (O.opens system.now.opener files.now.input.now)
        (O.makes system.now.opener files.now.output.now) (O.refuses system.now.opener files.now)
        O.Reader.remaining O.Reader.failures O.Writer.contents O.Writer.failures notes_as_faults
        result }
    ensures refused { IfErr result (IsMakingRefusal files.now.no_clobber) }
{
    let (mut reader, output) = system.opener.make(files)?;
    let mut lines = ToWrite::new(Noted::new(system.met, beside(system.rt, files.output)));
    let (_written, answer) = unpack_all_stream(system.alloc, &mut reader, &mut lines, output);
    match answer {
        Ok((counts, notes)) => {
            tell_unpacked(system, files, counts.frames)?;
            judged(counts.first, notes, notes_as_faults)
        }
        Err(refusal) => Err(refusal),
    }
}
