//! Reads files, frame by frame.

ghost use Rattle.std.specs.Prelude.{◌≡◌, ◌<◌, ◌≤◌, Bool, [], true, false, Option, None, Some};
ghost use Rattle.std.specs.Prelude.{IfErr, IfOk, OnErr, Ok, Err, length, max, ◌+◌, ◌*◌};
ghost use Rattle.std.specs.Vec.{vec_capacity};
ghost use Rattle.ffv1_wire.specs.Passage.{between, passage};
ghost use Rattle.ffv1_reads.specs.Ends.{AnswersOrEnds, AnswersOrFaults, AnswersOrNone};
ghost use Rattle.ffv1_reads.specs.First.{bytes_with, passage_with};
ghost use Rattle.ffv1_reads.specs.Head.{head_of};
ghost use Rattle.ffv1_reads.specs.Known.{Known};
ghost use Rattle.ffv1_reads.specs.Room.{HasRoom, RoomRead};
ghost use Rattle.ffv1_reads.specs.declared.fault.FileFault.{FileFault};
ghost use Rattle.ffv1_reads.specs.declared.fault.FileFault.TheVariants as fault;
ghost use Rattle.ffv1_matroska.specs.Again.{AnswersAgain, RoomTwice, TwiceOpened};
ghost use Rattle.ffv1_matroska.specs.Blocks.{IsFrameSize};
ghost use Rattle.ffv1_matroska.specs.Files.{frame_read};
ghost use Rattle.ffv1_matroska.specs.Internal.{opened_kept};
ghost use Rattle.ffv1_reads.specs.Items.{ItemAnswers};
ghost use Rattle.ffv1_matroska.specs.Items.{course_at, item_read};
ghost use Rattle.ffv1_reads.specs.declared.item.Item.TheVariants as item;
ghost use Rattle.ffv1_matroska.specs.Opened.{open_read};
ghost use Rattle.ffv1_matroska.specs.CuedItems.{CuedBy, cued_item};
ghost use Rattle.ffv1_matroska.specs.Cues.{CuedAfter};
ghost use Rattle.ffv1_matroska.specs.Offsets.{OffsetAfter, OffsetOpened};
ghost use Rattle.ffv1_matroska.specs.Places.{amount, ended};
ghost use Rattle.ffv1_matroska.specs.Readers.{EndsThere, HasEnded, Leaves, Standing, StandsAfter};
ghost use Rattle.ffv1_matroska.specs.Readers.{is_frame_fault, is_open, is_opening_fault};
ghost use Rattle.ffv1_matroska.specs.Readers.{next_of, segment_behind};
ghost use Rattle.ffv1_matroska.specs.Readers.{opened_at};
ghost use Rattle.ffv1_matroska.specs.Scales.{tick_in};
ghost use Rattle.ffv1_matroska.specs.Times.{TimedAfter, times_begun};

use crate::beginning::read_opening;
use crate::course::{Course, Pending};
use crate::frames::read_frame;
use crate::items::read_item;
use crate::late::read_twice;
use crate::place::{Place, ended, passed};
use crate::times::{Seen, Times, times_begun};
use crate::track::{Numbers, TrackNumbers};
use ffv1_reads::{FileFault, FileHead, Item, look_behind};
use ffv1_wire::{AgainIn, ByteIn};
use std::alloc::{Allocator, Global};
use std::marker::Model;

/// A reader of the frames of a file.
///
/// It holds no input: each call is lent the same one. It stands in a Segment, or at the end, or has
/// met a fault.
#[derive(Drop)]
pub struct MatroskaReader<A: Allocator = Global> {
    head: FileHead<A>,
    track: TrackNumbers,
    segment: Option<u64>,
    place: Place,
    fault: Option<FileFault>,
    offset: u64,
    end: u64,
    cued: bool,
    times: Times,
}

impl<A: Allocator> Model for MatroskaReader<A> {
    ghost Value = { Standing };

    ghost view = { λ r. record {
      track = record { numbers = r.track; head = head_of r.head };
      segment = r.segment;
      place = r.place;
      fault = r.fault;
      room = vec_capacity r.head.config_record;
      offset = r.offset;
      end = r.end;
      cued = r.cued;
      times = r.times;
    } };
}

impl<A: Allocator + Copy> MatroskaReader<A> {
    /// Reads a file up to where its frames begin: the header of EBML, Voids after it, and the
    /// elements of the Segment up to its first Cluster, or its end. The first Tracks say which
    /// frames are read: those of their first track that is FFV1 video. Memory is taken for the
    /// header of EBML and for Tracks, which is given back, and room as large as Tracks for the
    /// configuration record, so for at most as many bytes as were read.
    ///
    /// `NotMatroska` if the file does not begin with a header of EBML that says Matroska of a
    /// version that is read, or if what comes after that and after any Voids is no Segment.
    /// `Truncated` if an element does not fit in what it stands in, or the input ends inside it.
    /// `BadElement` if an ID has more than 4 bytes, a size or a field more than 8, a size is
    /// unknown other than that of the Segment or a Cluster, or an element may not stand in a
    /// Segment. `ChunkTooLong` if the header of EBML or Tracks are above 67108864 bytes. `NoTracks`
    /// if a Cluster comes before any Tracks, or the end of the Segment does. `NoFfv1` if no track
    /// is FFV1 video, `Encoded` if the one that counts is compressed or encrypted. `Checksum` if a
    /// CRC-32 is not the sum, which is known at the end of the element. `Read` if a read failed,
    /// `OutOfMemory`. A fault of the header of EBML or of Tracks comes after all of their bytes.
    /// What Video says of colours has no fault: what of it can't be read says nothing.
    pub fn open<R: ByteIn>(alloc: A, input: &mut R) -> Result<MatroskaReader<A>, FileFault>
        ensures answer { AnswersOrFaults fault.NoTracks HasEnded opened_at open_read
            (passage R.remaining R.failures input.old input.new) result }
        ensures sound { IfOk result (λ r. r.fault ≡ None) }
        ensures own { IfErr result (λ f. is_opening_fault f ≡ true) }
        ensures room { IfOk result (λ r. RoomRead (R.remaining input.old)
            (R.remaining input.new) 0 r.room) }
    {
        let mut offset = 0;
        MatroskaReader::open_located(alloc, None, input, &mut offset)
    }

    /// The same of a file of which the first byte may have been read before, if there was one; and
    /// it says where in the file a fault is: `offset` is then the number of bytes before the
    /// element at fault, counting the byte that was read before; no greater than 2^64 - 1. That
    /// element is the header of EBML, a Void after it, the header of the Segment, or an element of
    /// that; if the Segment ends before any Tracks, it is where the next element would begin.
    pub fn open_located<R: ByteIn>(
        alloc: A,
        first: Option<u8>,
        input: &mut R,
        offset: &mut u64,
    ) -> Result<MatroskaReader<A>, FileFault>
        ensures answer { AnswersOrFaults fault.NoTracks HasEnded opened_at open_read
            (passage_with first R.remaining R.failures input.old input.new) result }
        ensures sound { IfOk result (λ r. r.fault ≡ None) }
        ensures own { IfErr result (λ f. is_opening_fault f ≡ true) }
        ensures room { IfOk result (λ r. RoomRead (bytes_with first (R.remaining input.old))
            (R.remaining input.new) 0 r.room) }
        ensures offset { OffsetOpened (passage_with first R.remaining R.failures input.old
            input.new) result offset.new }
        ensures end { IfOk result EndsThere }
        ensures uncued { IfOk result (λ r. r.cued ≡ false) }
        ensures timed { IfOk result (λ r. Known (bytes_with first (R.remaining input.old))
            (R.remaining input.new) (λ text rest. r.times ≡ times_begun (tick_in text))) }
    {
        let mut content = Vec::new(alloc);
        let mut config_record = Vec::new(alloc);
        let mut tick = 0;
        let (segment, numbers, place) = read_opening(
            first,
            input,
            &mut content,
            &mut config_record,
            offset,
            &mut tick,
        )?;
        let times = times_begun(tick);
        Ok(MatroskaReader::before_frames(segment, numbers, place, config_record, *offset, times))
    }
}

impl<A: Allocator + Copy> MatroskaReader<A> {
    /// Reads a file twice from its beginning, since Tracks stand behind its first Cluster: up to
    /// the end of the first Tracks, wherever these stand, and then up to where its frames begin.
    /// The frames are those of the first track of the first Tracks that is FFV1 video. Up to the
    /// Tracks a Cluster of known size is passed whole, and of one of unknown size each element.
    /// Room for the record is made for at most as many bytes as were read.
    ///
    /// The input begins again where `start` says, so its bytes from there on are those of the file.
    /// Faults as of `open_located`, with the offset: of `NoTracks` it is where the Segment ends.
    /// `Read` too if the input could not begin again, and then the offset is 0.
    pub fn open_again<R: AgainIn>(
        alloc: A,
        start: &R::Start,
        input: &mut R,
        offset: &mut u64,
    ) -> Result<MatroskaReader<A>, FileFault>
        ensures answer { AnswersAgain opened_at (R.remaining input.old) (between
            (R.whole start.now) (R.remaining input.new) (R.failures input.old)
            (R.failures input.new)) result }
        ensures sound { IfOk result (λ r. r.fault ≡ None) }
        ensures own { IfErr result (λ f. is_opening_fault f ≡ true) }
        ensures room { IfOk result (λ r. RoomTwice (R.whole start.now) (R.remaining input.new) 0
            r.room) }
        ensures offset { TwiceOpened (between (R.whole start.now) (R.remaining input.new)
            (R.failures input.old) (R.failures input.new)) result offset.new }
        ensures end { IfOk result EndsThere }
        ensures uncued { IfOk result (λ r. r.cued ≡ false) }
        ensures timed { IfOk result (λ r. Known (R.whole start.now) (R.remaining input.new)
            (λ text rest. r.times ≡ times_begun (tick_in text))) }
    {
        let mut content = Vec::new(alloc);
        let mut config_record = Vec::new(alloc);
        let mut tick = 0;
        let (segment, numbers, place) = read_twice(
            input,
            start,
            &mut content,
            &mut config_record,
            offset,
            &mut tick,
        )?;
        let times = times_begun(tick);
        Ok(MatroskaReader::before_frames(segment, numbers, place, config_record, *offset, times))
    }
}

impl<A: Allocator> MatroskaReader<A> {
    /// A reader before the frames of a track with this record, where so many bytes of the file come
    /// before, with what is known there of when frames come.
    pub(crate) fn before_frames(
        segment: Option<u64>,
        numbers: Numbers,
        place: Place,
        config_record: Vec<u8, A>,
        offset: u64,
        times: Times,
    ) -> MatroskaReader<A>
        ensures opened { opened_at result
            ≡ opened_kept (segment, numbers, place) config_record.items }
        ensures sound { result.fault ≡ None }
        ensures room { result.room ≡ vec_capacity config_record }
        ensures offset { result.offset ≡ offset }
        ensures end { EndsThere result }
        ensures uncued { result.cued ≡ false }
        ensures times { result.times ≡ times }
    {
        MatroskaReader {
            head: FileHead {
                width: numbers.width,
                height: numbers.height,
                rate: numbers.rate,
                scale: numbers.scale,
                colour: numbers.colour,
                config_record,
            },
            track: numbers.numbers,
            segment,
            place,
            fault: None,
            offset,
            end: offset.saturating_add(passed(place, ended())),
            cued: false,
            times,
        }
    }

    /// The head of the file.
    pub fn head(&self) -> &FileHead<A>
        ensures value { head_of result.now ≡ self.now.track.head }
        ensures room { vec_capacity result.now.config_record ≡ self.now.room }
    {
        &self.head
    }

    /// The size of the Segment, in bytes; None if it is unknown.
    pub fn segment(&self) -> Option<u64>
        ensures { result ≡ self.now.segment }
    {
        self.segment
    }

    /// The number of bytes of the file before where the reader stands; after a fault, before the
    /// element at fault: a BlockGroup is one up to its first Block. No greater than 2^64 - 1.
    pub fn offset(&self) -> u64
        ensures { result ≡ self.now.offset }
    {
        self.offset
    }

    /// The number of bytes of the file before the end of its Segment, if the size of that is known.
    /// No greater than 2^64 - 1.
    pub fn end(&self) -> u64
        ensures { result ≡ self.now.end }
    {
        self.end
    }

    /// How many other tracks of Tracks are FFV1 video, which are not read. A count of 64 bits stays
    /// at its greatest value.
    pub fn others(&self) -> u64
        ensures { result ≡ self.now.track.numbers.others }
    {
        self.track.others
    }

    /// Whether Cues came after the last Cluster before where the reader stands.
    pub fn cued(&self) -> bool
        ensures { result ≡ self.now.cued }
    {
        self.cued
    }

    /// The number of the first frame, of those before where the reader stands, that came too early
    /// or too late for DefaultDuration; None if none did. The first frame has number 0. It is so if
    /// frame i comes more than a tick and i nanoseconds away from where i durations lead to from
    /// the first one, where its time is the Timestamp of its Cluster and the 16 bits of its block,
    /// which are signed, as RFC 9559 says, 11.2. A tick has as many nanoseconds as TimestampScale
    /// of Info says, before the first Cluster, or 1000000 if Info has none. Nothing is told if no
    /// Info comes there, as where a program moved it to the end; where TimestampScale is not found
    /// in the first element of Info nor in the 4096 bytes after that, and Info has more; nor if an
    /// element before it can't be read, or if it or DefaultDuration is 0.
    pub fn times(&self) -> Option<u64>
        ensures { result ≡ self.now.times.off }
    {
        self.times.off
    }

    /// Whether nothing says that the Segment is whole, once `next_frame` has answered false: its
    /// size is unknown, and no Cues stand behind its last Cluster. A program that was broken off
    /// leaves such a file, and so do some that write to a pipe.
    #[tactic(auto, unfolding(crate::specs::Readers::is_open))]
    pub fn is_open(&self) -> bool
        ensures { result ≡ is_open self.now.segment self.now.cued }
    {
        self.segment.is_none() && !self.cued
    }

    /// The same of a file that may be damaged, once `next_item` has answered that nothing more
    /// comes; `cued` is whether Cues came after the last Cluster, as those calls say.
    #[tactic(auto, unfolding(crate::specs::Readers::is_open))]
    pub fn is_left_open(&self, cued: bool) -> bool
        ensures { result ≡ is_open self.now.segment cued }
    {
        self.segment.is_none() && !cued
    }

    /// Looks at what stands behind the Segment, once `next_frame` has answered false: whether there
    /// are bytes, at `end`. If the size of the Segment is known, four of them are read, or as many
    /// as there are. If it is unknown, the Segment ends with the input: the answer is false, and
    /// nothing is read.
    ///
    /// `Another` if another file begins there: these four bytes are the ID of EBML, or RIFF. `Read`
    /// if a read failed.
    #[tactic(auto, unfolding(crate::specs::Readers::segment_behind))]
    pub fn look_behind<R: ByteIn>(&self, input: &mut R) -> Result<bool, FileFault>
        ensures { AnswersOrEnds (λ (some : Bool). some) (segment_behind self.now.segment)
            (passage R.remaining R.failures input.old input.new) result }
    {
        match self.segment {
            None => Ok(false),
            Some(_) => look_behind(input),
        }
    }

    /// Reads the next frame in place of what the vector has, and answers true; or false at the end.
    /// The vector is then empty. Each further call answers false again, and reads nothing. The end
    /// is that of the Segment; of one of unknown size it is also the end of the input before an
    /// element of it. The bytes after it are left unread.
    ///
    /// The input has to be the one that the reader was opened on. `Truncated` if an element or
    /// what comes before a frame does not fit in what it stands in, or the input ends inside it.
    /// `BadElement` if an ID has more than 4 bytes, a size or a track number more than 8, a size is
    /// unknown other than that of a Cluster, an element may not stand in a Segment or in a Cluster,
    /// where Timestamp, Position and PrevSize have at most 8 bytes, a BlockGroup ends without a
    /// Block, or, after its number, if a block has a number that no track has, or one above 127 and
    /// no track has one above that. `Laced` for a block with lacing. `ChunkTooLong` for a frame
    /// above 1073741824 bytes, of which no byte is read, `EmptyFrame` for one of none. `Checksum`
    /// if a CRC-32 is not the sum, which is known at the end of the element: of a Cluster, before
    /// the frame is given that ends it. `Read` if a read failed, `OutOfMemory`. After a fault the
    /// vector holds a beginning of the frame, and each further call answers the fault again,
    /// empties the vector and reads nothing. The vector has room as `ffv1_reads::fill` says; it
    /// keeps its room in a call that reads nothing.
    pub fn next_frame<R: ByteIn>(
        &mut self,
        input: &mut R,
        frame: &mut Vec<u8, A>,
    ) -> Result<bool, FileFault>
        ensures answer { self.old.fault ≡ None → AnswersOrNone
            (λ (more : Bool). next_of more frame.new.items self.new.place)
            (frame_read self.old.track.numbers self.old.place)
            (passage R.remaining R.failures input.old input.new) result }
        ensures stands { StandsAfter self.old result self.new }
        ensures sized { IfOk result (λ more. more ≡ true → IsFrameSize (length frame.new.items)) }
        ensures end { IfOk result (λ more. more ≡ false → (frame.new.items ≡ [])
            × (self.new.place ≡ ended)) }
        ensures less { IfOk result
            (λ more. more ≡ true → amount self.new.place < amount self.old.place) }
        ensures own { self.old.fault ≡ None → IfErr result (λ f. is_frame_fault f ≡ true) }
        ensures err { OnErr result (Leaves self.old.track.numbers self.old.place
            (R.remaining input.old) frame.new.items) }
        ensures room { HasRoom (vec_capacity frame.old) (vec_capacity frame.new)
            (length frame.new.items) result }
        ensures over { self.old.fault ≡ None → self.old.place ≡ ended →
            (result ≡ Ok false) × (self.new ≡ self.old) × (frame.new.items ≡ [])
            × (input.new ≡ input.old) }
        ensures again { (f : FileFault) → self.old.fault ≡ Some f → (result ≡ Err f)
            × (self.new ≡ self.old) × (frame.new.items ≡ []) × (input.new ≡ input.old) }
        ensures capacity { (f : FileFault) → self.old.fault ≡ Some f →
            vec_capacity frame.new ≡ vec_capacity frame.old }
        ensures idle { self.old.fault ≡ None → self.old.place ≡ ended →
            vec_capacity frame.new ≡ vec_capacity frame.old }
        ensures kept { self.new.room ≡ self.old.room }
        ensures behind { self.new.end ≡ self.old.end }
        ensures ends { EndsThere self.old → IfOk result (λ more. more ≡ true → EndsThere self.new) }
        ensures cued { self.old.fault ≡ None → CuedAfter self.old
            (passage R.remaining R.failures input.old input.new) result self.new }
        ensures timed { self.old.fault ≡ None → TimedAfter self.old
            (passage R.remaining R.failures input.old input.new) result self.new }
        ensures offset { self.old.fault ≡ None → OffsetAfter self.old
            (passage R.remaining R.failures input.old input.new) result self.new }
    {
        frame.clear();
        if let Some(fault) = self.fault {
            return Err(fault);
        }
        if self.place.segment == 0 && self.place.cluster == 0 && self.place.group == 0 {
            self.place = ended();
            return Ok(false);
        }
        let mut here = self.place;
        let mut seen = Seen {
            cued: self.cued,
            times: self.times,
        };
        match read_frame(input, self.track, self.place, &mut here, &mut seen, frame) {
            Ok(Some(place)) => {
                self.offset = self.offset.saturating_add(passed(self.place, place));
                self.place = place;
                self.cued = seen.cued;
                self.times = seen.times;
                Ok(true)
            }
            Ok(None) => {
                self.place = ended();
                self.cued = seen.cued;
                self.times = seen.times;
                Ok(false)
            }
            Err(fault) => {
                self.offset = self.offset.saturating_add(passed(self.place, here));
                self.fault = Some(fault);
                Err(fault)
            }
        }
    }

    /// Where reading goes on from here, if the file may be damaged.
    pub fn course(&self) -> Course
        ensures { result ≡ course_at self.now }
    {
        Course {
            place: self.place,
            pending: Pending::Nothing,
            begun: self.offset,
            at: self.offset,
        }
    }

    /// Reads the next frame of a file that may be damaged, or tells a fault and goes on after it,
    /// or answers that nothing more comes. The reader stays where it is: the course says where
    /// reading goes on, and it begins as `course` says.
    ///
    /// A frame is read in place of what the vector has. A Cluster whose CRC-32 is not the sum gives
    /// all its frames, and is told after them, at its last element. A block of a track that no
    /// TrackEntry has, one with lacing, one of no bytes or of too many, and an element that may not
    /// stand in a Cluster are told, and the rest of them is passed by their sizes. If an element of
    /// a Segment begins in a Cluster, that is told, and it is read as one of the Segment. An
    /// element that passes the Segment is told, and read as if the Segment were of unknown size.
    /// Behind any other fault the next four bytes that are the ID of a Cluster are sought whose
    /// size is one and fits in the Segment; where none comes, there are no more frames. If the
    /// input ends inside an element, `Truncated` is told, and nothing more comes.
    ///
    /// `cued` is lent to each call, and is false before the first one. It is then whether Cues came
    /// after the last Cluster, by the IDs of the Segment's elements that were read, whatever else
    /// of these is at fault; the ID of a Cluster that a search found counts, too. An element in
    /// which the input ends does not count, unless a fault of it was told before. After a fault
    /// `cued` says nothing.
    ///
    /// `Read` if a read failed, `OutOfMemory`; no other fault is answered. The input has to be the
    /// one that the reader was opened on. After a frame the vector has room for as many bytes as it
    /// had, or as it holds, if that is more; else at most for as many as it had, or for twice those
    /// that it holds and 65536.
    pub fn next_item<R: ByteIn>(
        &self,
        input: &mut R,
        course: &mut Course,
        cued: &mut bool,
        frame: &mut Vec<u8, A>,
    ) -> Result<Item, FileFault>
        ensures answer { ItemAnswers (item_read self.now.track.numbers course.old)
            (passage R.remaining R.failures input.old input.new) result frame.new.items course.new }
        ensures end { IfOk result (λ i. i ≡ item.End → course.new.place ≡ ended) }
        ensures cued { IfOk result (λ i. CuedBy
            (cued_item self.now.track.numbers course.old cued.old)
            (R.remaining input.old) (R.remaining input.new) cued.new) }
        ensures room { vec_capacity frame.new
            ≤ max (vec_capacity frame.old) (2 * length frame.new.items + 65536) }
        ensures held { IfOk result (λ i. i ≡ item.Frame →
            vec_capacity frame.new ≤ max (vec_capacity frame.old) (length frame.new.items)) }
    {
        read_item(input, self.track, course, cued, frame)
    }
}
