//! Opens files that may be damaged before their first frame.

ghost use Rattle.std.specs.Prelude.{◌≡◌, ◌≤◌, ℕ, [], List, Option, None, false, true, map, IfErr};
ghost use Rattle.std.specs.Prelude.{IfOk};
ghost use Rattle.std.specs.Vec.{vec_capacity};
ghost use Rattle.ffv1_wire.specs.Passage.{between, passage};
ghost use Rattle.ffv1_reads.specs.Known.{Known};
ghost use Rattle.ffv1_reads.specs.Room.{RoomRead};
ghost use Rattle.ffv1_matroska.specs.Again.{RoomTwice};
ghost use Rattle.ffv1_matroska.specs.Salvaged.{may_be_told, most_told};
ghost use Rattle.ffv1_files.specs.Again.{LacksTracks, OpensAs, RoomWithin, lacks_tracks};
ghost use Rattle.ffv1_files.specs.Answers.{FileAnswers};
ghost use Rattle.ffv1_files.specs.Behind.{EndsThere};
ghost use Rattle.ffv1_files.specs.Endings.{opening_endings};
ghost use Rattle.ffv1_files.specs.Files.{once_read, open_read};
ghost use Rattle.ffv1_files.specs.Noted.{NotesReached, StreamsReached, TimesBegin};
ghost use Rattle.ffv1_files.specs.Offsets.{Reached, StopsAt, StopsOnce};
ghost use Rattle.ffv1_files.specs.Places.{container_of, least_bytes, least_in, most_bytes, most_in};
ghost use Rattle.ffv1_files.specs.Readers.{is_opening_fault, opened_at};
ghost use Rattle.ffv1_files.specs.Salvaged.{EndsTelling, FirstLacksTracks, RefusedLate};
ghost use Rattle.ffv1_files.specs.Salvaged.{RefusedOnce, RefusedPlainly, Salvages, SomeTold};
ghost use Rattle.ffv1_files.specs.Salvaged.{StopsTelling, given_told};
ghost use Rattle.ffv1_files.specs.Ways.{tells};
ghost use Rattle.ffv1_files.specs.declared.container.Container.TheVariants as container;
ghost use Rattle.ffv1_files.specs.declared.container.Scope.TheVariants.{Whole};
ghost use Rattle.ffv1_files.specs.declared.way.Way.TheVariants as ways;

use crate::opening::{EBML, lacks_tracks, stop_of};
use crate::reader::{FileReader, Inner};
use crate::way::Way;
use ffv1_avi::{AviReader, Extent};
use ffv1_matroska::{MatroskaReader, ToldFault, ToldFaults, salvage_laws as matroska_laws};
use ffv1_reads::FileFault;
use ffv1_wire::{AgainIn, ByteIn, read_byte};
use std::alloc::Allocator;

/// Looks at the first byte of a file, and opens it as what it is, as `open_told` does, but reads it
/// once: `NoTracks` if the first Cluster of a Matroska file comes before any Tracks.
fn tell_once<R: ByteIn, A: Allocator + Copy>(
    alloc: A,
    input: &mut R,
    offset: &mut u64,
    told: &mut ToldFaults<A>,
) -> Result<FileReader<A>, FileFault>
    requires room { most_told ≤ vec_capacity told.old.faults }
    ensures held { most_told ≤ vec_capacity told.new.faults }
    ensures answer { told.new.faults.items ≡ [] → FileAnswers (opening_endings Whole) opened_at
        (once_read Whole) (passage R.remaining R.failures input.old input.new) result }
    ensures located { told.new.faults.items ≡ [] →
        IfOk result (Reached Whole (R.remaining input.old) (R.remaining input.new)) }
    ensures stopped { told.new.faults.items ≡ [] → IfErr result (λ f. StopsAt Whole
        (passage R.remaining R.failures input.old input.new) f offset.new) }
    ensures late { told.new.faults.items ≡ [] → IfErr result (λ f. lacks_tracks f ≡ true →
        Known (R.remaining input.old) (R.remaining input.new) LacksTracks) }
    ensures first { told.new.faults.items ≡ [] → IfErr result (λ f. lacks_tracks f ≡ true →
        StopsOnce (passage R.remaining R.failures input.old input.new) f offset.new) }
    ensures streams { told.new.faults.items ≡ [] → IfOk result
        (StreamsReached Whole (R.remaining input.old) (R.remaining input.new)) }
    ensures times { told.new.faults.items ≡ [] →
        IfOk result (TimesBegin (R.remaining input.old) (R.remaining input.new)) }
    ensures opens { SomeTold told.new.faults.items → IfOk result (λ r. Salvages
        (passage R.remaining R.failures input.old input.new) r.head r.place r.offset
        (map (given_told told.new.data) told.new.faults.items)) }
    ensures plainly { SomeTold told.new.faults.items →
        RefusedPlainly (once_read Whole) (R.remaining input.old) }
    ensures segment { SomeTold told.new.faults.items → IfOk result (λ r. (size : Option ℕ)
        × (container_of r.place ≡ container.Matroska size)) }
    ensures refused { SomeTold told.new.faults.items → IfErr result (λ f. RefusedOnce
        (passage R.remaining R.failures input.old input.new) told.new.data
        told.new.faults.items f offset.new) }
    ensures lacks { IfErr result (λ f. lacks_tracks f ≡ true → FirstLacksTracks
        (R.remaining input.old) (R.remaining input.new) offset.new) }
    ensures counted { IfErr result (λ f. lacks_tracks f ≡ true →
        R.failures input.new ≡ R.failures input.old) }
    ensures tried { IfErr result (λ f. may_be_told f ≡ true →
        Known (R.remaining input.old) (R.remaining input.new) (EndsTelling f)) }
    ensures sound { IfOk result (λ r. r.fault ≡ None) }
    ensures most { IfOk result (λ r. most_bytes r.place ≡ most_in Whole) }
    ensures least { IfOk result (λ r. least_in Whole ≤ least_bytes r.place) }
    ensures own { IfErr result (λ f. is_opening_fault Whole f ≡ true) }
    ensures room { IfOk result (λ r. RoomRead (R.remaining input.old) (R.remaining input.new) 0
        r.room) }
    ensures ends { IfOk result EndsThere }
    ensures uncued { IfOk result (λ r. r.cued ≡ false) }
    ensures untold { IfOk result (λ r. r.after ≡ None) }
    ensures uncounted { IfOk result (λ r. r.repeated ≡ 0) }
    ensures shut { IfOk result (λ r. r.open_ended ≡ false) }
{
    matroska_laws::what_is_told_says_what_plain_reading_meets();
    *offset = 0;
    told.faults.clear();
    let Ok(first) = read_byte(input) else {
        return Err(FileFault::Read);
    };
    if first == Some(EBML) {
        return match MatroskaReader::open_salvaged(alloc, first, input, offset, told) {
            Ok(reader) => Ok(FileReader {
                inner: Inner::Matroska(reader),
            }),
            Err(fault) => Err(fault),
        };
    }
    match AviReader::open_located(alloc, Extent::EveryRiff, first, input, offset) {
        Ok(reader) => Ok(FileReader {
            inner: Inner::Avi(reader),
        }),
        Err(fault) => Err(fault),
    }
}

/// In which way a file was opened, or refused, that was read once.
fn way_once(faults: &[ToldFault]) -> Way
    ensures none { result ≡ ways.Plainly → faults.now ≡ [] }
    ensures some { result ≡ ways.Telling → SomeTold faults.now }
    ensures once { result ≡ ways.TellingLate → ⊥ }
{
    if faults.is_empty() {
        Way::Plainly
    } else {
        Way::Telling
    }
}

/// Whether a fault before the first frame may be told.
fn may_be_told(fault: FileFault) -> bool
    ensures { result ≡ may_be_told fault }
{
    match fault {
        FileFault::Checksum | FileFault::BadElement => true,
        _ => false,
    }
}

/// Reads a file again that lacks Tracks where they are looked for first, as
/// `MatroskaReader::open_salvaged_again` does. If it has none at all, `offset` stays what it was.
fn tell_late<R: AgainIn, A: Allocator + Copy>(
    alloc: A,
    start: &R::Start,
    input: &mut R,
    offset: &mut u64,
    told: &mut ToldFaults<A>,
) -> Result<FileReader<A>, FileFault>
    requires room { most_told ≤ vec_capacity told.old.faults }
    ensures opens { (left : Option (List ℕ)) (first : ℕ) →
        FirstLacksTracks (R.whole start.now) left first →
        IfOk result (λ r. Salvages (between (R.whole start.now) (R.remaining input.new)
        (R.failures input.old) (R.failures input.new)) r.head r.place r.offset
        (map (given_told told.new.data) told.new.faults.items)) }
    ensures segment { IfOk result (λ r. (size : Option ℕ)
        × (container_of r.place ≡ container.Matroska size)) }
    ensures refused { (left : Option (List ℕ)) →
        FirstLacksTracks (R.whole start.now) left offset.old →
        IfErr result (λ f. RefusedLate (between (R.whole start.now) (R.remaining input.new)
        (R.failures input.old) (R.failures input.new)) told.new.data told.new.faults.items f
        offset.new) }
    ensures tried { (left : Option (List ℕ)) (first : ℕ) →
        FirstLacksTracks (R.whole start.now) left first →
        IfErr result (λ f. may_be_told f ≡ true →
        Known (R.whole start.now) (R.remaining input.new) (EndsTelling f)) }
    ensures lacks { (left : Option (List ℕ)) (first : ℕ) →
        FirstLacksTracks (R.whole start.now) left first →
        IfErr result (λ f. lacks_tracks f ≡ true →
        Known (R.whole start.now) (R.remaining input.new) (EndsTelling f)) }
    ensures sound { IfOk result (λ r. r.fault ≡ None) }
    ensures most { IfOk result (λ r. most_bytes r.place ≡ most_in Whole) }
    ensures least { IfOk result (λ r. least_in Whole ≤ least_bytes r.place) }
    ensures own { IfErr result (λ f. is_opening_fault Whole f ≡ true) }
    ensures room { IfOk result (λ r. RoomTwice (R.whole start.now) (R.remaining input.new) 0
        r.room) }
    ensures ends { IfOk result EndsThere }
    ensures uncued { IfOk result (λ r. r.cued ≡ false) }
    ensures untold { IfOk result (λ r. r.after ≡ None) }
    ensures uncounted { IfOk result (λ r. r.repeated ≡ 0) }
    ensures shut { IfOk result (λ r. r.open_ended ≡ false) }
{
    let first = *offset;
    match MatroskaReader::open_salvaged_again(alloc, start, input, offset, told) {
        Ok(reader) => Ok(FileReader {
            inner: Inner::Matroska(reader),
        }),
        Err(fault) => {
            *offset = stop_of(fault, first, *offset);
            Err(fault)
        }
    }
}

impl<A: Allocator + Copy> FileReader<A> {
    /// Reads a file that may be damaged, all of which is read, from its beginning up to where its
    /// frames begin; and says in which way. `Plainly` nothing is told, and all is as of
    /// `open_located` at `Whole`, also where it begins again since it lacks Tracks: so of an AVI,
    /// and of a Matroska file without faults there.
    ///
    /// Faults of two kinds in a Matroska file are told, at most sixteen, and it goes on after them,
    /// as `MatroskaReader::open_salvaged` does: `Telling`. It is read once, unless its first
    /// Cluster comes before any Tracks, and the input can begin again. If Tracks stand behind the
    /// first Cluster of a damaged file, it is read twice more, as
    /// `MatroskaReader::open_salvaged_again` does: `TellingLate`. So it is if something was told
    /// before that Cluster, or if plain reading is then refused with a fault that may be told. What
    /// was told before is dropped, and `told` has what the last of these readings tells, or
    /// nothing: damage between Clusters is told only among the frames.
    ///
    /// If it is refused, `told` has all faults that come before that, and `offset` is the number of
    /// bytes of the file before the element at fault. `NoTracks` if there are no Tracks in its
    /// Segment, or if the first Cluster comes before any and the input can't begin again: the
    /// offset is that of the first Cluster, or of the end of a Segment without one. `told` has room
    /// for sixteen; what it had before is dropped.
    pub fn open_told<R: AgainIn>(
        alloc: A,
        input: &mut R,
        offset: &mut u64,
        told: &mut ToldFaults<A>,
        way: &mut Way,
    ) -> Result<FileReader<A>, FileFault>
        requires room { most_told ≤ vec_capacity told.old.faults }
        ensures answer { way.new ≡ ways.Plainly → OpensAs (R.begins input.old) Whole
            (passage R.remaining R.failures input.old input.new) result }
        ensures located { way.new ≡ ways.Plainly →
            IfOk result (Reached Whole (R.remaining input.old) (R.remaining input.new)) }
        ensures stopped { way.new ≡ ways.Plainly → IfErr result (λ f. StopsAt Whole
            (passage R.remaining R.failures input.old input.new) f offset.new) }
        ensures noted { way.new ≡ ways.Plainly →
            IfOk result (NotesReached Whole (R.remaining input.old) (R.remaining input.new)) }
        ensures none { way.new ≡ ways.Plainly → told.new.faults.items ≡ [] }
        ensures some { way.new ≡ ways.Telling → SomeTold told.new.faults.items }
        ensures opens { tells way.new ≡ true → IfOk result (λ r. Salvages
            (passage R.remaining R.failures input.old input.new) r.head r.place r.offset
            (map (given_told told.new.data) told.new.faults.items)) }
        ensures plainly { way.new ≡ ways.Telling →
            RefusedPlainly (once_read Whole) (R.remaining input.old) }
        ensures late { way.new ≡ ways.TellingLate →
            RefusedPlainly (open_read Whole) (R.remaining input.old) }
        ensures segment { tells way.new ≡ true → IfOk result (λ r. (size : Option ℕ)
            × (container_of r.place ≡ container.Matroska size)) }
        ensures refused { tells way.new ≡ true → IfErr result (λ f. StopsTelling
            (passage R.remaining R.failures input.old input.new) told.new.data
            told.new.faults.items f offset.new) }
        ensures tried { IfErr result (λ f. may_be_told f ≡ true →
            Known (R.remaining input.old) (R.remaining input.new) (EndsTelling f)) }
        ensures again { tells way.new ≡ true → R.begins input.old ≡ true →
            IfErr result (λ f. lacks_tracks f ≡ true →
            Known (R.remaining input.old) (R.remaining input.new) (EndsTelling f)) }
        ensures sound { IfOk result (λ r. r.fault ≡ None) }
        ensures most { IfOk result (λ r. most_bytes r.place ≡ most_in Whole) }
        ensures least { IfOk result (λ r. least_in Whole ≤ least_bytes r.place) }
        ensures own { IfErr result (λ f. is_opening_fault Whole f ≡ true) }
        ensures room { IfOk result (λ r. RoomWithin (R.remaining input.old) (R.remaining input.new)
            r.room) }
        ensures ends { IfOk result EndsThere }
        ensures uncued { IfOk result (λ r. r.cued ≡ false) }
        ensures untold { IfOk result (λ r. r.after ≡ None) }
        ensures uncounted { IfOk result (λ r. r.repeated ≡ 0) }
        ensures shut { IfOk result (λ r. r.open_ended ≡ false) }
    {
        let start = input.start();
        let answer = tell_once(alloc, input, offset, told);
        *way = way_once(told.faults.as_slice());
        let fault = match answer {
            Ok(reader) => return Ok(reader),
            Err(fault) => fault,
        };
        if !lacks_tracks(fault) {
            return Err(fault);
        }
        let Some(start) = start else {
            return Err(fault);
        };
        if !told.faults.is_empty() {
            *way = Way::TellingLate;
            return tell_late(alloc, &start, input, offset, told);
        }
        let first = *offset;
        let fault = match MatroskaReader::open_again(alloc, &start, input, offset) {
            Ok(reader) => {
                return Ok(FileReader {
                    inner: Inner::Matroska(reader),
                });
            }
            Err(fault) => fault,
        };
        if may_be_told(fault) {
            *offset = first;
            *way = Way::TellingLate;
            return tell_late(alloc, &start, input, offset, told);
        }
        *offset = stop_of(fault, first, *offset);
        Err(fault)
    }
}
