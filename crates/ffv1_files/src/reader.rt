//! Reads files, frame by frame.

ghost use Rattle.std.specs.Prelude.{◌≡◌, ◌<◌, ◌≤◌, ℕ, Bool, List, [], true, false, Option, None};
ghost use Rattle.std.specs.Prelude.{Some};
ghost use Rattle.std.specs.Prelude.{IfErr, IfOk, OnErr, Ok, Err, length, max, ◌+◌, ◌*◌};
ghost use Rattle.std.specs.Vec.{vec_capacity};
ghost use Rattle.ffv1_wire.specs.Passage.{passage};
ghost use Rattle.ffv1_reads.specs.Head.{head_of};
ghost use Rattle.ffv1_reads.specs.Room.{HasRoom};
ghost use Rattle.ffv1_reads.specs.declared.fault.FileFault.{FileFault};
ghost use Rattle.ffv1_files.specs.declared.container.Container.TheVariants as container;
ghost use Rattle.ffv1_files.specs.declared.container.Scope.{Scope};
ghost use Rattle.ffv1_files.specs.declared.container.Scope.TheVariants.{FirstMovi, Whole};
ghost use Rattle.ffv1_files.specs.Again.{OpensAs, RoomWithin};
ghost use Rattle.ffv1_files.specs.Answers.{FileAnswers};
ghost use Rattle.std.specs.Prelude.{if◌then◌else◌};
ghost use Rattle.ffv1_files.specs.Behind.{BehindAfter, CuedAfter, EndStays, EndsThere, OpenAfter};
ghost use Rattle.ffv1_files.specs.Behind.{any_value, avi_noted};
ghost use Rattle.ffv1_files.specs.Behind.{is_behind_fault, items_noted, notes_of, notes_told};
ghost use Rattle.ffv1_files.specs.Behind.{repeated_after};
ghost use Rattle.ffv1_files.specs.Noted.{NotedOf, NotesEnd, NotesNext, NotesReached};
ghost use Rattle.ffv1_files.specs.declared.notes.Notes.{Notes};
ghost use Rattle.ffv1_files.specs.Files.{frame_read};
ghost use Rattle.ffv1_files.specs.Items.{ItemAnswers, course_ended, course_of, cued_item};
ghost use Rattle.ffv1_files.specs.declared.course.Course.TheVariants.{Plain};
ghost use Rattle.ffv1_reads.specs.Items.{SaidBy};
ghost use Rattle.ffv1_reads.specs.declared.item.Item.TheVariants as item;
ghost use Rattle.ffv1_matroska.specs.CuedItems.{CuedBy};
ghost use Rattle.ffv1_files.specs.Offsets.{LocatedNext, Reached, StopsAt};
ghost use Rattle.ffv1_files.specs.Endings.{endings_from};
ghost use Rattle.ffv1_files.specs.Places.{InMatroska, amount, container_of, least_bytes, least_in};
ghost use Rattle.ffv1_files.specs.Places.{most_bytes, most_in};
ghost use Rattle.ffv1_files.specs.Readers.{StandsAfter, is_frame_fault, is_opening_fault, next_of};
ghost use Rattle.ffv1_files.specs.Readers.{Leaves, others_at};

use crate::container::{Container, Scope};
use crate::course::Course;
use crate::items::{avi_course, read_chunk_item, read_element_item};
use crate::notes::Notes;
use crate::opening::open_whole;
use ffv1_avi::{AviReader, Extent};
use ffv1_matroska::MatroskaReader;
use ffv1_reads::{FileFault, FileHead, Item};
use ffv1_wire::{AgainIn, ByteIn};
use std::alloc::{Allocator, Global};
use std::marker::Model;

/// A reader of the frames of a file. It holds no input: each call is lent the same one.
#[derive(Drop)]
pub struct FileReader<A: Allocator = Global> {
    pub(crate) inner: Inner<A>,
}

/// The reader of its container.
#[derive(Drop)]
pub(crate) enum Inner<A: Allocator = Global> {
    Avi(AviReader<A>),
    Matroska(MatroskaReader<A>),
}

impl<A: Allocator> Model for FileReader<A> {
    ghost use Rattle.ffv1_files.specs.Readers.{Standing, standing_of};

    ghost Value = { Standing };

    ghost view = { λ r. standing_of r.inner };
}

impl<A: Allocator + Copy> FileReader<A> {
    /// Reads a file up to where its frames begin. What begins with the byte 1A is read as Matroska,
    /// and all else as AVI; up to its first `movi` a file is read as AVI alone.
    ///
    /// If the first Cluster of a Matroska file comes before any Tracks, and the input can begin
    /// again, it is read from its beginning up to the first Tracks, and then once more, with their
    /// track, as `MatroskaReader::open_again` does. No other file is read twice.
    ///
    /// The faults are those of `AviReader::open`, and if all of a file is read those of
    /// `AviReader::open_all`, of `MatroskaReader::open` or of `MatroskaReader::open_again`. The
    /// record that it keeps has room for at most as many bytes as were read.
    pub fn open<R: AgainIn>(
        alloc: A,
        scope: Scope,
        input: &mut R,
    ) -> Result<FileReader<A>, FileFault>
        ensures answer { OpensAs (R.begins input.old) scope
            (passage R.remaining R.failures input.old input.new) result }
        ensures sound { IfOk result (λ r. r.fault ≡ None) }
        ensures avi { scope ≡ FirstMovi →
            IfOk result (λ r. container_of r.place ≡ container.Avi) }
        ensures most { IfOk result (λ r. most_bytes r.place ≡ most_in scope) }
        ensures least { IfOk result (λ r. least_in scope ≤ least_bytes r.place) }
        ensures own { IfErr result (λ f. is_opening_fault scope f ≡ true) }
        ensures room { IfOk result (λ r. RoomWithin (R.remaining input.old) (R.remaining input.new)
            r.room) }
        ensures untold { IfOk result (λ r. r.after ≡ None) }
        ensures uncounted { IfOk result (λ r. r.repeated ≡ 0) }
        ensures shut { IfOk result (λ r. r.open_ended ≡ false) }
    {
        let mut offset = 0;
        FileReader::open_located(alloc, scope, input, &mut offset)
    }

    /// The same, which says where in the file a fault is: `offset` is then the number of bytes of
    /// the file before the element or chunk at fault, those before it read whole; no greater than
    /// 2^64 - 1. It is of Matroska the header of EBML, a Void after it, the header of the Segment,
    /// or an element of that; of an AVI its first twelve bytes, or a chunk of its first RIFF.
    pub fn open_located<R: AgainIn>(
        alloc: A,
        scope: Scope,
        input: &mut R,
        offset: &mut u64,
    ) -> Result<FileReader<A>, FileFault>
        ensures answer { OpensAs (R.begins input.old) scope
            (passage R.remaining R.failures input.old input.new) result }
        ensures sound { IfOk result (λ r. r.fault ≡ None) }
        ensures avi { scope ≡ FirstMovi →
            IfOk result (λ r. container_of r.place ≡ container.Avi) }
        ensures most { IfOk result (λ r. most_bytes r.place ≡ most_in scope) }
        ensures least { IfOk result (λ r. least_in scope ≤ least_bytes r.place) }
        ensures own { IfErr result (λ f. is_opening_fault scope f ≡ true) }
        ensures room { IfOk result (λ r. RoomWithin (R.remaining input.old) (R.remaining input.new)
            r.room) }
        ensures located { IfOk result
            (Reached scope (R.remaining input.old) (R.remaining input.new)) }
        ensures stopped { IfErr result (λ f. StopsAt scope
            (passage R.remaining R.failures input.old input.new) f offset.new) }
        ensures ends { IfOk result EndsThere }
        ensures uncued { IfOk result (λ r. r.cued ≡ false) }
        ensures untold { IfOk result (λ r. r.after ≡ None) }
        ensures uncounted { IfOk result (λ r. r.repeated ≡ 0) }
        ensures shut { IfOk result (λ r. r.open_ended ≡ false) }
        ensures noted { IfOk result (NotesReached scope (R.remaining input.old)
            (R.remaining input.new)) }
    {
        // All arms are written out, so that the clauses are proved by arm.
        match scope {
            Scope::FirstMovi => match AviReader::open_located(
                alloc,
                Extent::FirstMovi,
                None,
                input,
                offset,
            ) {
                Ok(reader) => Ok(FileReader {
                    inner: Inner::Avi(reader),
                }),
                Err(fault) => Err(fault),
            },
            Scope::Whole => match open_whole(alloc, input, offset) {
                Ok(reader) => Ok(reader),
                Err(fault) => Err(fault),
            },
        }
    }
}

impl<A: Allocator> FileReader<A> {
    /// The head of the file.
    pub fn head(&self) -> &FileHead<A>
        ensures value { head_of result.now ≡ self.now.head }
        ensures room { vec_capacity result.now.config_record ≡ self.now.room }
    {
        match &self.inner {
            Inner::Avi(reader) => reader.head(),
            Inner::Matroska(reader) => reader.head(),
        }
    }

    /// What holds its frames.
    pub fn container(&self) -> Container
        ensures { result ≡ container_of self.now.place }
    {
        match &self.inner {
            Inner::Avi(_) => Container::Avi,
            Inner::Matroska(reader) => Container::Matroska(reader.segment()),
        }
    }

    /// How many further entries of Tracks, or further streams of an AVI, are FFV1 video, which is
    /// not read. Of an AVI whose first `movi` alone is read none is looked at, and this is 0.
    pub fn others(&self) -> u64
        ensures { result ≡ others_at self.now.place self.now.others }
    {
        match &self.inner {
            Inner::Avi(reader) => reader.others(),
            Inner::Matroska(reader) => reader.others(),
        }
    }

    /// The number of bytes of the file before where the reader stands; after a fault, before the
    /// element or chunk at fault. No greater than 2^64 - 1.
    pub fn offset(&self) -> u64
        ensures { result ≡ self.now.offset }
    {
        match &self.inner {
            Inner::Avi(reader) => reader.offset(),
            Inner::Matroska(reader) => reader.offset(),
        }
    }

    /// The number of bytes of the file before the end of its Segment, if it is Matroska and the
    /// size of that is known. No greater than 2^64 - 1.
    pub fn end(&self) -> u64
        ensures { result ≡ self.now.end }
    {
        match &self.inner {
            Inner::Avi(_) => 0,
            Inner::Matroska(reader) => reader.end(),
        }
    }

    /// Reads the next frame in place of what the vector has, and answers true; or false at the end,
    /// where the vector is then empty, as `AviReader::next_frame` and `MatroskaReader::next_frame`
    /// do, with their faults and their room. A frame of an AVI that has no bytes repeats the one
    /// before it. The input has to be the one that the reader was opened on. After a fault `offset`
    /// says how many bytes of the file come before the element or chunk at fault.
    pub fn next_frame<R: ByteIn>(
        &mut self,
        input: &mut R,
        frame: &mut Vec<u8, A>,
    ) -> Result<bool, FileFault>
        ensures answer { self.old.fault ≡ None → FileAnswers (endings_from self.old.place)
            (λ (more : Bool). next_of more frame.new.items self.new.place)
            (frame_read self.old.place)
            (passage R.remaining R.failures input.old input.new) result }
        ensures stands { StandsAfter self.old result self.new }
        ensures sized { IfOk result (λ more. more ≡ true →
            (least_bytes self.old.place ≤ length frame.new.items)
            × (length frame.new.items ≤ most_bytes self.old.place)) }
        ensures end { IfOk result (λ more. more ≡ false → frame.new.items ≡ []) }
        ensures less { IfOk result
            (λ more. more ≡ true → amount self.new.place < amount self.old.place) }
        ensures same { container_of self.new.place ≡ container_of self.old.place }
        ensures most { most_bytes self.new.place ≤ most_bytes self.old.place }
        ensures least { least_bytes self.old.place ≤ least_bytes self.new.place }
        ensures own { self.old.fault ≡ None →
            IfErr result (λ f. is_frame_fault self.old.place f ≡ true) }
        ensures err { OnErr result (Leaves self.old.place (R.remaining input.old)
            frame.new.items) }
        ensures room { HasRoom (vec_capacity frame.old) (vec_capacity frame.new)
            (length frame.new.items) result }
        ensures again { (f : FileFault) → self.old.fault ≡ Some f → (result ≡ Err f)
            × (self.new ≡ self.old) × (frame.new.items ≡ []) × (input.new ≡ input.old) }
        ensures capacity { (f : FileFault) → self.old.fault ≡ Some f →
            vec_capacity frame.new ≡ vec_capacity frame.old }
        ensures kept { self.new.room ≡ self.old.room }
        ensures located { self.old.fault ≡ None → (scope : Scope) (text : Option (List ℕ)) →
            Reached scope text (R.remaining input.old) self.old →
            LocatedNext scope text (passage R.remaining R.failures input.old input.new) result
            self.new }
        ensures stays { EndStays self.old self.new }
        ensures ends { EndsThere self.old → IfOk result (λ more. more ≡ true → EndsThere self.new) }
        ensures cued { self.old.fault ≡ None → CuedAfter self.old
            (passage R.remaining R.failures input.old input.new) result self.new }
        ensures behind { self.old.fault ≡ None → BehindAfter self.old
            (passage R.remaining R.failures input.old input.new) result self.new }
        ensures open_ended { self.old.fault ≡ None → OpenAfter self.old
            (passage R.remaining R.failures input.old input.new) result self.new }
        ensures repeats { self.new.repeated
            ≡ repeated_after self.old.place result frame.new.items self.old.repeated }
        ensures noted { self.old.fault ≡ None → (scope : Scope) (text : Option (List ℕ)) →
            Reached scope text (R.remaining input.old) self.old →
            NotesReached scope text (R.remaining input.old) self.old →
            NotesNext scope text (passage R.remaining R.failures input.old input.new) result
            self.new }
    {
        match &mut self.inner {
            Inner::Avi(reader) => reader.next_frame(input, frame),
            Inner::Matroska(reader) => reader.next_frame(input, frame),
        }
    }

    /// Looks at what stands after the file, once `next_frame` has answered false, and tells what
    /// its end leaves in doubt, how many frames of an AVI had no bytes, and which frame of a
    /// Segment comes too early or too late. After a Segment of known size four bytes are read, or
    /// as many as there are; after one of unknown size nothing stands, and nothing is read. What
    /// stands after an AVI was found by that call, and nothing is read.
    ///
    /// `Another` if another file begins there: these four bytes are the ID of EBML, or RIFF. `Read`
    /// if a read failed. The input has to be the one that the reader was opened on.
    pub fn look_behind<R: ByteIn>(&self, input: &mut R) -> Result<Notes, FileFault>
        ensures answer { FileAnswers any_value (λ (n : Notes). n) (notes_of self.now)
            (passage R.remaining R.failures input.old input.new) result }
        ensures own { IfErr result (λ f. is_behind_fault self.now.place f ≡ true) }
        ensures noted { (scope : Scope) (text : Option (List ℕ)) →
            NotesEnd scope text (R.remaining input.old) self.now →
            IfOk result (NotedOf scope text (R.remaining input.new)) }
    {
        match &self.inner {
            Inner::Avi(reader) => Ok(avi_notes(reader)),
            Inner::Matroska(reader) => look_behind_segment(
                reader,
                reader.cued(),
                reader.times(),
                input,
            ),
        }
    }

    /// Where reading goes on from here, if the file may be damaged.
    pub fn course(&self) -> Course
        ensures { result ≡ course_of self.now }
    {
        match &self.inner {
            Inner::Avi(reader) => avi_course(reader),
            Inner::Matroska(reader) => Course::Matroska(reader.course()),
        }
    }

    /// Reads the next frame of a file that may be damaged, or tells a fault that is passed, or
    /// answers that nothing more comes, as `next_item` of `ffv1_avi::Course` and of
    /// `MatroskaReader` do, by a course that begins as `course` says: the reader stays where it is.
    /// But an AVI of which the first `movi` alone is read gives what `next_frame` gives, and its
    /// first fault is answered. The input has to be the one that the reader was opened on, and the
    /// reader not to have met a fault. By a course of another container nothing comes. After a
    /// frame the vector has room for as many bytes as it had, or as the frame has, if that is more;
    /// else at most for twice as many as it holds and 65536 more.
    ///
    /// `cued` is lent to each call, and is false before the first one. It is then whether Cues came
    /// after the last Cluster of a Segment, by the elements that were read so far; an AVI leaves it
    /// as it was. After a fault it says nothing.
    pub fn next_item<R: ByteIn>(
        &mut self,
        input: &mut R,
        course: &mut Course,
        cued: &mut bool,
        frame: &mut Vec<u8, A>,
    ) -> Result<Item, FileFault>
        ensures answer { self.old.fault ≡ None → ItemAnswers self.old.place course.old
            (passage R.remaining R.failures input.old input.new) result frame.new.items
            self.new.place course.new }
        ensures same { container_of self.new.place ≡ container_of self.old.place }
        ensures stays { (size : Option ℕ) →
            container_of self.old.place ≡ container.Matroska size → self.new ≡ self.old }
        ensures still { (course.old ≡ Plain → ⊥) → self.new ≡ self.old }
        ensures kind { (course.old ≡ Plain → ⊥) → course.new ≡ Plain → ⊥ }
        ensures plain { course.old ≡ Plain → course.new ≡ Plain }
        ensures kept { self.new.room ≡ self.old.room }
        ensures room { vec_capacity frame.new
            ≤ max (vec_capacity frame.old) (2 * length frame.new.items + 65536) }
        ensures held { IfOk result (λ i. i ≡ item.Frame →
            vec_capacity frame.new ≤ max (vec_capacity frame.old) (length frame.new.items)) }
        ensures cued { self.old.fault ≡ None → IfOk result (λ i. CuedBy
            (cued_item self.old.place course.old cued.old)
            (R.remaining input.old) (R.remaining input.new) cued.new) }
        ensures ended { self.old.fault ≡ None → container_of self.old.place ≡ container.Avi →
            IfOk result (λ i. i ≡ item.End → SaidBy (course_ended course.old)
            (R.remaining input.old) (R.remaining input.new) course.new) }
    {
        match &mut self.inner {
            Inner::Avi(reader) => read_chunk_item(reader, input, course, frame),
            Inner::Matroska(reader) => read_element_item(reader, input, course, cued, frame),
        }
    }

    /// Looks at what stands after a file that may be damaged, once `next_item` has answered that
    /// nothing more comes by this course, and tells what its end leaves in doubt, as `look_behind`
    /// does. But whether Cues came after the last Cluster of a Segment is `cued`, as the calls of
    /// `next_item` say; of an AVI it does not count. When frames of a Segment come is not looked
    /// at. Of an AVI nothing is read: the course says where other bytes stand, how many frames that
    /// it gave had no bytes, and whether an RIFF or a `movi` had no size.
    ///
    /// If the size of the Segment is known, four bytes are read, or as many as there are, also if
    /// the input ended before that size, or a Cluster was sought up to it. If an element passed the
    /// end of the Segment, that was read to the end of the input, after which nothing stands.
    ///
    /// `Another` if another file begins there: these four bytes are the ID of EBML, or RIFF. `Read`
    /// if a read failed. The input has to be the one that the reader was opened on.
    pub fn look_behind_items<R: ByteIn>(
        &self,
        course: Course,
        cued: bool,
        input: &mut R,
    ) -> Result<Notes, FileFault>
        ensures answer { FileAnswers any_value (λ (n : Notes). n) (items_noted self.now course cued)
            (passage R.remaining R.failures input.old input.new) result }
        ensures own { IfErr result (λ f. is_behind_fault self.now.place f ≡ true) }
        ensures told { container_of self.now.place ≡ container.Avi → result
            ≡ Ok (avi_noted self.now.open_ended self.now.others self.now.repeated self.now.after
            course) }
        ensures noted { container_of self.now.place ≡ container.Avi → course ≡ Plain →
            (scope : Scope) (text : Option (List ℕ)) →
            NotesEnd scope text (R.remaining input.old) self.now →
            IfOk result (NotedOf scope text (R.remaining input.new)) }
    {
        match &self.inner {
            Inner::Avi(reader) => Ok(course_notes(reader, course)),
            Inner::Matroska(reader) => look_behind_segment(reader, cued, None, input),
        }
    }
}

/// What is noted of an AVI: whether an RIFF or a movi without size ends it, how many further
/// streams begin as FFV1 video, how many of its frames have no bytes, and where other bytes stand
/// after its last RIFF, if any do.
fn avi_notes<A: Allocator>(reader: &AviReader<A>) -> Notes
    ensures { result ≡ record {
      is_open = reader.now.open_ended;
      others = reader.now.others;
      times = None;
      repeated = reader.now.repeated;
      after = reader.now.after;
    } }
{
    Notes {
        is_open: reader.open_ended(),
        others: reader.others(),
        times: None,
        repeated: reader.repeated(),
        after: reader.after(),
    }
}

/// The same by a course, if every RIFF is read by it.
fn course_notes<A: Allocator>(reader: &AviReader<A>, course: Course) -> Notes
    ensures { result ≡ avi_noted reader.now.open_ended reader.now.others reader.now.repeated
        reader.now.after course }
{
    match course {
        Course::Avi { course, repeated } => Notes {
            is_open: course.open_ended(),
            others: reader.others(),
            times: None,
            repeated,
            after: course.after(),
        },
        _ => avi_notes(reader),
    }
}

/// What is noted of a Segment by its reader if other bytes stand after its end or not, if nothing
/// says that it is whole, and if this frame comes too early or too late.
fn noted<A: Allocator>(
    reader: &MatroskaReader<A>,
    some: bool,
    is_open: bool,
    times: Option<u64>,
) -> Notes
    ensures { result ≡ record {
      is_open = is_open;
      others = reader.now.track.numbers.others;
      times = times;
      repeated = 0;
      after = if some then Some reader.now.end else None;
    } }
{
    Notes {
        is_open,
        others: reader.others(),
        times,
        repeated: 0,
        after: if some { Some(reader.end()) } else { None },
    }
}

/// What stands after a Segment, as notes; if Cues came after its last Cluster, or not, and if this
/// frame comes too early or too late.
fn look_behind_segment<R: ByteIn, A: Allocator>(
    reader: &MatroskaReader<A>,
    cued: bool,
    times: Option<u64>,
    input: &mut R,
) -> Result<Notes, FileFault>
    ensures answer { FileAnswers any_value (λ (n : Notes). n)
        (notes_told times (InMatroska reader.now.segment reader.now.track.numbers reader.now.place)
        reader.now.end cued None 0 0 false)
        (passage R.remaining R.failures input.old input.new) result }
    ensures own { IfErr result (λ f. is_behind_fault (InMatroska reader.now.segment
        reader.now.track.numbers reader.now.place) f ≡ true) }
{
    match reader.look_behind(input) {
        Ok(some) => Ok(noted(reader, some, reader.is_left_open(cued), times)),
        Err(fault) => Err(fault),
    }
}
