//! Reads files, frame by frame.

ghost use Rattle.std.specs.Prelude.{◌≡◌, ◌<◌, length, true, IfSome, OnSome, ◌+◌, ◌≤◌, ℕ, Bool};
ghost use Rattle.std.specs.Prelude.{[], false, Option, None, Some, IfErr, IfOk, OnErr, Ok};
ghost use Rattle.std.specs.Prelude.{Err};
ghost use Rattle.std.specs.Vec.{vec_capacity};
ghost use Rattle.ffv1_avi.specs.Behind.{BehindAfter, OpenAfter};
ghost use Rattle.ffv1_avi.specs.Extents.{AnswersFrom};
ghost use Rattle.ffv1_avi.specs.Files.{frame_found, frame_read, open_read};
ghost use Rattle.ffv1_avi.specs.Readers.{CountsOthers};
ghost use Rattle.ffv1_reads.specs.First.{bytes_with, passage_with};
ghost use Rattle.ffv1_reads.specs.Head.{head_of};
ghost use Rattle.ffv1_wire.specs.Passage.{passage};
ghost use Rattle.ffv1_avi.specs.Internal.Ending.{AnswersOrNone};
ghost use Rattle.ffv1_avi.specs.Offsets.{OffsetAfter};
ghost use Rattle.ffv1_avi.specs.Internal.Offsets.{FindsFrom, MovesTo, TellsBehind};
ghost use Rattle.ffv1_avi.specs.Names.{least_bytes, least_in, most_bytes, most_in};
ghost use Rattle.ffv1_avi.specs.Offsets.{OffsetOpened};
ghost use Rattle.ffv1_avi.specs.Places.{amount, ended, extent_of, frame_at};
ghost use Rattle.ffv1_reads.specs.Reads.{Answers};
ghost use Rattle.ffv1_reads.specs.Room.{HasRoom, RoomRead};
ghost use Rattle.ffv1_avi.specs.Items.{course_at};
ghost use Rattle.ffv1_avi.specs.Readers.{is_frame_fault, is_opening_fault};
ghost use Rattle.ffv1_avi.specs.Readers.{Leaves, Standing, StandsAfter, next_of};
ghost use Rattle.ffv1_avi.specs.Readers.{next_with, opened_at, repeated_after, with_repeated};
ghost use Rattle.ffv1_reads.specs.declared.fault.FileFault.{FileFault};
ghost use Rattle.ffv1_avi.specs.declared.place.Extent.TheVariants.{FirstMovi, EveryRiff};
ghost use Rattle.ffv1_avi.specs.declared.place.Place.{Place};

use crate::chunk::padded;
use crate::course::{Course, Pending};
use crate::movi::find_in_movi;
use crate::open::read_opening;
use crate::opens::{next_open, step_size};
use crate::place::{Extent, Place, ended, is_open, others_in};
use crate::riff::move_on;
use ffv1_reads::{Colour, FileFault, FileHead, fill, pass};
use ffv1_wire::ByteIn;
use std::alloc::{Allocator, Global};
use std::marker::Model;

/// The place after a frame's header, if movi has so many bytes left.
fn frame_at(place: Place, left: u64) -> Place
    ensures { result ≡ frame_at place left }
{
    Place {
        input: place.input,
        riff: place.riff,
        movi: left,
        names: place.names,
        owed: place.owed.saturating_sub(1),
        open_in: place.open_in,
    }
}

/// The size of the next frame, and the place after its header; None at the end. The chunks before
/// its own are counted, and at the end it is said where other bytes stand after the last RIFF, if
/// any do, and whether an RIFF or a movi there has no size.
fn find_frame<R: ByteIn>(
    input: &mut R,
    place: Place,
    offset: &mut u64,
    after: &mut Option<u64>,
    open_ended: &mut bool,
) -> Result<Option<(u32, Place)>, FileFault>
    ensures sized { IfOk result (λ o. IfSome o
        (λ p. (least_bytes place.names ≤ p.0) × (p.0 ≤ most_bytes place.names))) }
    ensures answer { AnswersOrNone (extent_of place) (λ (p : Option (ℕ × Place)). p)
        (frame_found place) (passage R.remaining R.failures input.old input.new) result }
    ensures from { FindsFrom place (passage R.remaining R.failures input.old input.new) result
        offset.old offset.new }
    ensures behind { IfOk result (λ o. o ≡ None → TellsBehind (extent_of place) place
        (R.remaining input.old) (R.remaining input.new) offset.old after.new open_ended.new) }
{
    let mut place = place;
    loop {
        if let Some((size, left)) = find_in_movi(input, place, offset)? {
            return Ok(Some((size, frame_at(place, left))));
        }
        if place.input == 0 {
            *after = None;
            *open_ended = false;
            return Ok(None);
        }
        *open_ended = is_open(place.open_in);
        if !*open_ended {
            let Some(next) = move_on(input, place, offset, after)? else {
                return Ok(None);
            };
            place = next;
            continue;
        }
        let Some((frame, next)) = next_open(input, place)? else {
            *after = None;
            return Ok(None);
        };
        if let Some(size) = frame {
            return Ok(Some((size, next)));
        }
        *offset = offset.saturating_add(step_size(place, next));
        place = next;
    }
}

/// The next frame in place of what the vector has, and the place after it; None at the end. The
/// chunks before its own are counted, and its own if there is no fault; at the end it is said where
/// other bytes stand after the last RIFF, if any do.
fn read_frame<R: ByteIn, A: Allocator>(
    input: &mut R,
    place: Place,
    offset: &mut u64,
    behind: &mut Option<u64>,
    open_ended: &mut bool,
    frame: &mut Vec<u8, A>,
) -> Result<Option<Place>, FileFault>
    ensures answer { AnswersFrom place (λ (after : Option Place). next_with frame.new.items after)
        (frame_read place) (passage R.remaining R.failures input.old input.new) result }
    ensures sized { IfOk result
        (λ o. OnSome o ((least_bytes place.names ≤ length frame.new.items)
        × (length frame.new.items ≤ most_bytes place.names))) }
    ensures none { IfOk result (λ after. after ≡ None → frame.new.items ≡ []) }
    ensures less { IfOk result (λ o. IfSome o (λ after. amount after < amount place)) }
    ensures same { IfOk result (λ o. IfSome o (λ after. extent_of after ≡ extent_of place)) }
    ensures names { IfOk result (λ o. IfSome o (λ after. after.names ≡ place.names)) }
    ensures err { OnErr result (Leaves place (R.remaining input.old) frame.new.items) }
    ensures room { HasRoom (vec_capacity frame.old) (vec_capacity frame.new)
        (length frame.new.items) result }
    ensures from { MovesTo place (passage R.remaining R.failures input.old input.new) result
        offset.old offset.new }
    ensures behind { IfOk result (λ after. after ≡ None → TellsBehind (extent_of place) place
        (R.remaining input.old) (R.remaining input.new) offset.old behind.new open_ended.new) }
{
    frame.clear();
    let Some((size, after)) = find_frame(input, place, offset, behind, open_ended)? else {
        return Ok(None);
    };
    fill(input, size as usize, frame)?;
    pass(input, u64::from(size % 2))?;
    *offset = offset.saturating_add(8 + padded(size));
    Ok(Some(after))
}

/// How many frames had no bytes, after a further frame of these bytes. A count of 64 bits stays at
/// its greatest value.
fn with_repeated(repeated: u64, frame: &[u8]) -> u64
    ensures { result ≡ with_repeated frame.now repeated }
{
    if frame.is_empty() {
        return repeated.saturating_add(1);
    }
    repeated
}

/// A reader of the frames of a file.
///
/// It holds no input: each call is lent the same one. It stands in a `movi`, or at the end, or has
/// met a fault.
#[derive(Drop)]
pub struct AviReader<A: Allocator = Global> {
    head: FileHead<A>,
    place: Place,
    fault: Option<FileFault>,
    offset: u64,
    after: Option<u64>,
    repeated: u64,
    others: u64,
    open_ended: bool,
}

impl<A: Allocator> Model for AviReader<A> {
    ghost Value = { Standing };

    ghost view = { λ r. record {
      head = head_of r.head;
      place = r.place;
      fault = r.fault;
      room = vec_capacity r.head.config_record;
      offset = r.offset;
      after = r.after;
      repeated = r.repeated;
      others = r.others;
      open_ended = r.open_ended;
    } };
}

impl<A: Allocator> AviReader<A> {
    /// Reads a file up to its first `movi`, the frames of which are then read, and takes memory for
    /// its configuration record alone, with room for at most as many bytes as were read.
    ///
    /// `Truncated` if a chunk does not fit in its list or the input ends inside it. `NotAvi` if the
    /// file does not begin as an AVI, a list has no room for its own name, there is no `movi`, or
    /// one of rate and scale is zero and the other is not. `NoFfv1` if the first `strl` is no FFV1
    /// video, or `movi` comes before any. `ChunkTooLong` if its format is above 67108864 bytes.
    /// `Read` if a read failed, `OutOfMemory`.
    pub fn open<R: ByteIn>(alloc: A, input: &mut R) -> Result<AviReader<A>, FileFault>
        ensures answer { Answers opened_at (open_read FirstMovi)
            (passage R.remaining R.failures input.old input.new) result }
        ensures sound { IfOk result (λ r. r.fault ≡ None) }
        ensures most { IfOk result (λ r. most_bytes r.place.names ≡ most_in FirstMovi) }
        ensures least { IfOk result (λ r. least_bytes r.place.names ≡ least_in FirstMovi) }
        ensures own { IfErr result (λ f. is_opening_fault f ≡ true) }
        ensures room { IfOk result (λ r. RoomRead (R.remaining input.old)
            (R.remaining input.new) 0 r.room) }
        ensures none { IfOk result (λ r. r.after ≡ None) }
        ensures uncounted { IfOk result (λ r. r.repeated ≡ 0) }
        ensures shut { IfOk result (λ r. r.open_ended ≡ false) }
    {
        let mut offset = 0;
        AviReader::open_located(alloc, Extent::FirstMovi, None, input, &mut offset)
    }

    /// Reads a file up to its first `movi`, to read then the frames of every `movi` of every RIFF:
    /// of the first, `AVI `, and of the `AVIX` after it (OpenDML AVI File Format Extensions). It
    /// takes memory for the configuration record alone, with room for at most as many bytes as were
    /// read.
    ///
    /// A size of 0 or 4294967295 is not known: an RIFF that says it, or the first `movi`, goes on
    /// to the end of the input. A further RIFF may stand there, whose size is not looked at then.
    ///
    /// The first `strl` that is FFV1 video counts, of the first 100; letters of that name may be
    /// small. The record ends where the first number of its format says, if that lies inside it.
    /// `Truncated` if a chunk does not fit in its list or the input ends inside it. `NotAvi` if the
    /// file does not begin as an AVI, a list has no room for its own name, there is no `movi`, or
    /// one of rate and scale is zero and the other is not. `NoFfv1` if `movi` comes and no `strl`
    /// counts. `ChunkTooLong` if a format is above 67108864 bytes. `Read` if a read failed,
    /// `OutOfMemory`.
    pub fn open_all<R: ByteIn>(alloc: A, input: &mut R) -> Result<AviReader<A>, FileFault>
        ensures answer { Answers opened_at (open_read EveryRiff)
            (passage R.remaining R.failures input.old input.new) result }
        ensures sound { IfOk result (λ r. r.fault ≡ None) }
        ensures most { IfOk result (λ r. most_bytes r.place.names ≡ most_in EveryRiff) }
        ensures least { IfOk result (λ r. least_bytes r.place.names ≡ least_in EveryRiff) }
        ensures own { IfErr result (λ f. is_opening_fault f ≡ true) }
        ensures room { IfOk result (λ r. RoomRead (R.remaining input.old)
            (R.remaining input.new) 0 r.room) }
        ensures none { IfOk result (λ r. r.after ≡ None) }
        ensures uncounted { IfOk result (λ r. r.repeated ≡ 0) }
        ensures shut { IfOk result (λ r. r.open_ended ≡ false) }
    {
        let mut offset = 0;
        AviReader::open_located(alloc, Extent::EveryRiff, None, input, &mut offset)
    }

    /// Reads a file up to its first `movi`, to read it then as far as `open` and `open_all` do, of
    /// which the first byte may have been read before, and says where in the file a fault is:
    /// `offset` is then the number of bytes before the chunk at fault, counting the byte that was
    /// read before; no greater than 2^64 - 1. That chunk is the
    /// first twelve bytes of the file, or a chunk of its first RIFF: the list `hdrl` with all that
    /// it has, of `movi` the header and its own name. If RIFF ends before any `movi`, it is where
    /// the next chunk would begin.
    pub fn open_located<R: ByteIn>(
        alloc: A,
        extent: Extent,
        first: Option<u8>,
        input: &mut R,
        offset: &mut u64,
    ) -> Result<AviReader<A>, FileFault>
        ensures answer { Answers opened_at (open_read extent)
            (passage_with first R.remaining R.failures input.old input.new) result }
        ensures sound { IfOk result (λ r. r.fault ≡ None) }
        ensures most { IfOk result (λ r. most_bytes r.place.names ≡ most_in extent) }
        ensures least { IfOk result (λ r. least_bytes r.place.names ≡ least_in extent) }
        ensures own { IfErr result (λ f. is_opening_fault f ≡ true) }
        ensures room { IfOk result (λ r. RoomRead (bytes_with first (R.remaining input.old))
            (R.remaining input.new) 0 r.room) }
        ensures offset { OffsetOpened extent (passage_with first R.remaining R.failures input.old
            input.new) result offset.new }
        ensures none { IfOk result (λ r. r.after ≡ None) }
        ensures uncounted { IfOk result (λ r. r.repeated ≡ 0) }
        ensures others { IfOk result (λ r. CountsOthers extent
            (bytes_with first (R.remaining input.old)) (R.remaining input.new) r.others) }
        ensures shut { IfOk result (λ r. r.open_ended ≡ false) }
    {
        let mut config = Vec::new(alloc);
        let mut others = 0;
        let (sizes, place) = read_opening(first, input, extent, offset, &mut others, &mut config)?;
        Ok(AviReader {
            head: FileHead {
                width: sizes.width,
                height: sizes.height,
                rate: sizes.rate,
                scale: sizes.scale,
                colour: Colour::UNSAID,
                config_record: config,
            },
            place,
            fault: None,
            offset: *offset,
            after: None,
            repeated: 0,
            others: others_in(extent, others),
            open_ended: false,
        })
    }

    /// The number of bytes of the file before where the reader stands; after a fault, before the
    /// chunk at fault; after the end, before what comes after the last frame. No greater than
    /// 2^64 - 1.
    pub fn offset(&self) -> u64
        ensures { result ≡ self.now.offset }
    {
        self.offset
    }

    /// The number of bytes of the file before others that stand after its last RIFF, if any do:
    /// known once `next_frame` has answered false, of a reader that `open_all` made. No greater
    /// than 2^64 - 1.
    pub fn after(&self) -> Option<u64>
        ensures { result ≡ self.now.after }
    {
        self.after
    }

    /// How many of the frames that were read have no bytes: each repeats the one before it. None
    /// has, if `open` made the reader. A count of 64 bits stays at its greatest value.
    pub fn repeated(&self) -> u64
        ensures { result ≡ self.now.repeated }
    {
        self.repeated
    }

    /// How many streams after the one that is read begin as FFV1 video; 0 if the first `movi` alone
    /// is read. They are not read. A count of 64 bits stays at its greatest value.
    pub fn others(&self) -> u64
        ensures { result ≡ self.now.others }
    {
        self.others
    }

    /// Whether the frames ended in an RIFF, or in a `movi`, whose size is not known, since it is
    /// said to be 0 or 4294967295: nothing says then whether frames are missing at its end. It is
    /// known once `next_frame` has answered false, of a reader that `open_all` made.
    pub fn open_ended(&self) -> bool
        ensures { result ≡ self.now.open_ended }
    {
        self.open_ended
    }

    /// How far is read: up to the end of the first `movi`, or every RIFF; after the end the former.
    pub fn extent(&self) -> Extent
        ensures { result ≡ extent_of self.now.place }
    {
        if self.place.input == 0 {
            return Extent::FirstMovi;
        }
        Extent::EveryRiff
    }

    /// Where reading goes on from here in a file that may be damaged: `Course::next_item` gives its
    /// frames and its faults. The reader stays where it is.
    pub fn course(&self) -> Course
        ensures { result ≡ course_at self.now }
    {
        Course {
            place: self.place,
            pending: Pending::Nothing,
            lost: false,
            begun: self.offset,
            at: self.offset,
            open_ended: false,
            after: None,
        }
    }

    /// The head of the file.
    pub fn head(&self) -> &FileHead<A>
        ensures value { head_of result.now ≡ self.now.head }
        ensures room { vec_capacity result.now.config_record ≡ self.now.room }
    {
        &self.head
    }

    /// Reads the next frame in place of what the vector has, and answers true; or false at the end.
    /// The vector is then empty. Each further call answers false again, and reads nothing. Of a
    /// reader that `open` made the end is that of `movi`, and the bytes after it are left unread;
    /// of one that `open_all` made it is that of the last RIFF. After that at most twelve bytes
    /// are looked at, and `after` says where they stand: four, or as many as there are, and after
    /// RIFF eight more.
    ///
    /// If `open_all` made the reader, an empty chunk of the stream is a frame, too, which repeats
    /// the one before it: the answer is then true, and the vector is empty. `repeated` says how
    /// many there were so far; a fault leaves that as it was.
    ///
    /// In an RIFF or a `movi` whose size is not known, the frames end with the input, where the
    /// name of a chunk would begin; `idx1` ends such a `movi`, and its RIFF goes on with it.
    ///
    /// The input has to be the one that the reader was opened on. `Truncated` if a chunk does not
    /// fit in its list or the input ends inside it, or before as many frames as `dmlh` says: then
    /// also if other bytes stand after the last RIFF. `NotAvi` if a list stands in `movi`, a list
    /// has no room for its own name, or an RIFF `AVIX` has none for its form. If `open_all` made
    /// the reader, the chunks of a list `rec ` are those of `movi`, and any other list there is
    /// `NotAvi` after its own name; so is, in an RIFF whose size is not known, a list without size
    /// that is no `movi`; `Another` if another file begins after the last RIFF, with the
    /// ID of EBML or as an RIFF of another form; and `NotAvi` also, after its header, if a chunk
    /// stands in `movi` that is no frame `NNdc` or `NNdb` of the stream, its `NNpc`, a chunk of
    /// another of the streams, `ixNN` or `JUNK`, whatever its size; or a frame in RIFF after a
    /// `movi`.
    /// `ChunkTooLong` for a frame above 1073741824 bytes, or 67108864 of a reader that `open` made,
    /// of which no byte is read; `EmptyFrame` for a frame of no bytes, of a reader that `open`
    /// made; `Read` if a read failed, `OutOfMemory`. After a fault the vector holds a beginning of
    /// the frame, and each further call answers the fault again, empties the vector and reads
    /// nothing. The vector has room as `ffv1_reads::fill` says; it keeps its room in a call that
    /// reads nothing.
    pub fn next_frame<R: ByteIn>(
        &mut self,
        input: &mut R,
        frame: &mut Vec<u8, A>,
    ) -> Result<bool, FileFault>
        ensures answer { self.old.fault ≡ None → AnswersFrom self.old.place
            (λ (more : Bool). next_of more frame.new.items self.new.place)
            (frame_read self.old.place)
            (passage R.remaining R.failures input.old input.new) result }
        ensures stands { StandsAfter self.old result self.new }
        ensures sized { IfOk result (λ more. more ≡ true →
            (least_bytes self.old.place.names ≤ length frame.new.items)
            × (length frame.new.items ≤ most_bytes self.old.place.names)) }
        ensures end { IfOk result (λ more. more ≡ false → (frame.new.items ≡ [])
            × (self.new.place ≡ ended)) }
        ensures less { IfOk result
            (λ more. more ≡ true → amount self.new.place < amount self.old.place) }
        ensures same { IfOk result
            (λ more. more ≡ true → extent_of self.new.place ≡ extent_of self.old.place) }
        ensures most { most_bytes self.new.place.names ≤ most_bytes self.old.place.names }
        ensures least { least_bytes self.old.place.names ≤ least_bytes self.new.place.names }
        ensures own { self.old.fault ≡ None →
            IfErr result (λ f. is_frame_fault (extent_of self.old.place) f ≡ true) }
        ensures err { OnErr result (Leaves self.old.place (R.remaining input.old) frame.new.items) }
        ensures room { HasRoom (vec_capacity frame.old) (vec_capacity frame.new)
            (length frame.new.items) result }
        ensures over { self.old.fault ≡ None → self.old.place ≡ ended →
            (result ≡ Ok false) × (self.new ≡ self.old) × (frame.new.items ≡ [])
            × (input.new ≡ input.old) }
        ensures again { (f : FileFault) → self.old.fault ≡ Some f → (result ≡ Err f)
            × (self.new ≡ self.old) × (frame.new.items ≡ []) × (input.new ≡ input.old) }
        ensures capacity { (f : FileFault) → self.old.fault ≡ Some f →
            vec_capacity frame.new ≡ vec_capacity frame.old }
        ensures idle { self.old.fault ≡ None → self.old.place ≡ ended →
            vec_capacity frame.new ≡ vec_capacity frame.old }
        ensures kept { self.new.room ≡ self.old.room }
        ensures others { self.new.others ≡ self.old.others }
        ensures offset { self.old.fault ≡ None → OffsetAfter self.old
            (passage R.remaining R.failures input.old input.new) result self.new }
        ensures behind { self.old.fault ≡ None → BehindAfter self.old.place self.old.offset
            self.old.after (passage R.remaining R.failures input.old input.new) result
            self.new.after }
        ensures open_ended { self.old.fault ≡ None → OpenAfter self.old.place self.old.offset
            self.old.open_ended (passage R.remaining R.failures input.old input.new) result
            self.new.after self.new.open_ended }
        ensures repeats { self.new.repeated
            ≡ repeated_after result frame.new.items self.old.repeated }
    {
        frame.clear();
        if let Some(fault) = self.fault {
            return Err(fault);
        }
        if self.place.input == 0 && self.place.movi == 0 {
            self.place = ended();
            return Ok(false);
        }
        let mut offset = self.offset;
        let mut after = None;
        let mut open_ended = false;
        match read_frame(
            input,
            self.place,
            &mut offset,
            &mut after,
            &mut open_ended,
            frame,
        ) {
            Ok(Some(place)) => {
                self.offset = offset;
                self.place = place;
                self.repeated = with_repeated(self.repeated, frame);
                Ok(true)
            }
            Ok(None) => {
                self.place = ended();
                self.after = after;
                self.open_ended = open_ended;
                Ok(false)
            }
            Err(fault) => {
                self.offset = offset;
                self.fault = Some(fault);
                Err(fault)
            }
        }
    }
}
