//! Opens files of which all is read, as what they are.

ghost use Rattle.std.specs.Prelude.{◌≡◌, ◌≤◌, if◌then◌else◌, true, false, None, IfErr, IfOk};
ghost use Rattle.ffv1_wire.specs.Passage.{passage};
ghost use Rattle.ffv1_reads.specs.Known.{Known};
ghost use Rattle.ffv1_reads.specs.Room.{RoomRead};
ghost use Rattle.ffv1_files.specs.declared.container.Scope.TheVariants.{Whole};
ghost use Rattle.ffv1_files.specs.Again.{LacksTracks, OpensAs, RoomWithin, lacks_tracks};
ghost use Rattle.ffv1_files.specs.Answers.{FileAnswers};
ghost use Rattle.ffv1_files.specs.Behind.{EndsThere};
ghost use Rattle.ffv1_files.specs.Endings.{opening_endings};
ghost use Rattle.ffv1_files.specs.Files.{once_read};
ghost use Rattle.ffv1_files.specs.Noted.{StreamsReached, TimesBegin};
ghost use Rattle.ffv1_files.specs.Offsets.{Reached, StopsAt, StopsOnce};
ghost use Rattle.ffv1_files.specs.Places.{least_bytes, least_in, most_bytes, most_in};
ghost use Rattle.ffv1_files.specs.Readers.{is_opening_fault, opened_at};

use crate::reader::{FileReader, Inner};
use ffv1_avi::{AviReader, Extent};
use ffv1_matroska::MatroskaReader;
use ffv1_reads::FileFault;
use ffv1_wire::{AgainIn, ByteIn, read_byte};
use std::alloc::Allocator;

/// The first byte of a Matroska file, of the ID of its header of EBML.
pub(crate) const EBML: u8 = 0x1A;

/// Looks at the first byte of a file, and opens it as what it is. It is read once: `NoTracks` if
/// the first Cluster of a Matroska file comes before any Tracks. After a fault `offset` is the
/// number of bytes before the element or chunk at fault.
fn open_once<R: ByteIn, A: Allocator + Copy>(
    alloc: A,
    input: &mut R,
    offset: &mut u64,
) -> Result<FileReader<A>, FileFault>
    ensures answer { FileAnswers (opening_endings Whole) opened_at (once_read Whole)
        (passage R.remaining R.failures input.old input.new) result }
    ensures sound { IfOk result (λ r. r.fault ≡ None) }
    ensures most { IfOk result (λ r. most_bytes r.place ≡ most_in Whole) }
    ensures least { IfOk result (λ r. least_in Whole ≤ least_bytes r.place) }
    ensures own { IfErr result (λ f. is_opening_fault Whole f ≡ true) }
    ensures room { IfOk result (λ r. RoomRead (R.remaining input.old) (R.remaining input.new) 0
        r.room) }
    ensures located { IfOk result (Reached Whole (R.remaining input.old) (R.remaining input.new)) }
    ensures stopped { IfErr result (λ f. StopsAt Whole
        (passage R.remaining R.failures input.old input.new) f offset.new) }
    ensures late { IfErr result (λ f. lacks_tracks f ≡ true →
        Known (R.remaining input.old) (R.remaining input.new) LacksTracks) }
    ensures first { IfErr result (λ f. lacks_tracks f ≡ true → StopsOnce
        (passage R.remaining R.failures input.old input.new) f offset.new) }
    ensures ends { IfOk result EndsThere }
    ensures uncued { IfOk result (λ r. r.cued ≡ false) }
    ensures untold { IfOk result (λ r. r.after ≡ None) }
    ensures uncounted { IfOk result (λ r. r.repeated ≡ 0) }
    ensures shut { IfOk result (λ r. r.open_ended ≡ false) }
    ensures streams { IfOk result
        (StreamsReached Whole (R.remaining input.old) (R.remaining input.new)) }
    ensures times { IfOk result (TimesBegin (R.remaining input.old) (R.remaining input.new)) }
{
    *offset = 0;
    let Ok(first) = read_byte(input) else {
        return Err(FileFault::Read);
    };
    if first == Some(EBML) {
        return match MatroskaReader::open_located(alloc, first, input, offset) {
            Ok(reader) => Ok(FileReader {
                inner: Inner::Matroska(reader),
            }),
            Err(fault) => Err(fault),
        };
    }
    match AviReader::open_located(alloc, Extent::EveryRiff, first, input, offset) {
        Ok(reader) => Ok(FileReader {
            inner: Inner::Avi(reader),
        }),
        Err(fault) => Err(fault),
    }
}

/// Whether a file was refused since no Tracks come before its first Cluster, or before its end.
pub(crate) fn lacks_tracks(fault: FileFault) -> bool
    ensures { result ≡ lacks_tracks fault }
{
    match fault {
        FileFault::NoTracks => true,
        _ => false,
    }
}

/// Where a file stops that was read again, by where the first reading did: there, if it has no
/// Tracks at all.
pub(crate) fn stop_of(fault: FileFault, first: u64, last: u64) -> u64
    ensures { result ≡ (if lacks_tracks fault then first else last) }
{
    if lacks_tracks(fault) { first } else { last }
}

/// Opens a file that is read whole: once, or if it lacks Tracks where they are looked for first,
/// from its beginning again, if the input can begin again. After a fault `offset` is the number of
/// bytes before the element or chunk at fault; if it has no Tracks at all, as the first reading
/// says.
pub(crate) fn open_whole<R: AgainIn, A: Allocator + Copy>(
    alloc: A,
    input: &mut R,
    offset: &mut u64,
) -> Result<FileReader<A>, FileFault>
    ensures answer { OpensAs (R.begins input.old) Whole
        (passage R.remaining R.failures input.old input.new) result }
    ensures sound { IfOk result (λ r. r.fault ≡ None) }
    ensures most { IfOk result (λ r. most_bytes r.place ≡ most_in Whole) }
    ensures least { IfOk result (λ r. least_in Whole ≤ least_bytes r.place) }
    ensures own { IfErr result (λ f. is_opening_fault Whole f ≡ true) }
    ensures room { IfOk result (λ r. RoomWithin (R.remaining input.old) (R.remaining input.new)
        r.room) }
    ensures located { IfOk result (Reached Whole (R.remaining input.old) (R.remaining input.new)) }
    ensures stopped { IfErr result (λ f. StopsAt Whole
        (passage R.remaining R.failures input.old input.new) f offset.new) }
    ensures ends { IfOk result EndsThere }
    ensures uncued { IfOk result (λ r. r.cued ≡ false) }
    ensures untold { IfOk result (λ r. r.after ≡ None) }
    ensures uncounted { IfOk result (λ r. r.repeated ≡ 0) }
    ensures shut { IfOk result (λ r. r.open_ended ≡ false) }
    ensures streams { IfOk result
        (StreamsReached Whole (R.remaining input.old) (R.remaining input.new)) }
    ensures times { IfOk result (TimesBegin (R.remaining input.old) (R.remaining input.new)) }
{
    let start = input.start();
    let fault = match open_once(alloc, input, offset) {
        Ok(reader) => return Ok(reader),
        Err(fault) => fault,
    };
    if !lacks_tracks(fault) {
        return Err(fault);
    }
    let Some(start) = start else {
        return Err(fault);
    };
    let first = *offset;
    match MatroskaReader::open_again(alloc, &start, input, offset) {
        Ok(reader) => Ok(FileReader {
            inner: Inner::Matroska(reader),
        }),
        Err(fault) => {
            *offset = stop_of(fault, first, *offset);
            Err(fault)
        }
    }
}
