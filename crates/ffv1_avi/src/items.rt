//! What a file that may be damaged gives, one by one.

ghost use Rattle.std.specs.Prelude.{◌≡◌, ◌≤◌, ◌+◌, ◌*◌, IfOk, OnOk, length, max};
ghost use Rattle.std.specs.Vec.{vec_capacity};
ghost use Rattle.ffv1_wire.specs.Passage.{passage};
ghost use Rattle.ffv1_reads.specs.Reads.{Answers, Kept};
ghost use Rattle.ffv1_avi.specs.Padding.{content};
ghost use Rattle.ffv1_reads.specs.Items.{ItemAnswers, SaidBy, StopsBy};
ghost use Rattle.ffv1_avi.specs.Items.{begun_by, end_item, ended_by, left_open, over_at, told_on};
ghost use Rattle.ffv1_avi.specs.Items.{ended_course, frame_given, framed, headed_by};
ghost use Rattle.ffv1_avi.specs.Items.{is_seeking};
ghost use Rattle.ffv1_avi.specs.Items.{item_read, moved, over, trusted};
ghost use Rattle.ffv1_avi.specs.Places.{ended};
ghost use Rattle.ffv1_reads.specs.declared.item.Item.TheVariants as item;

use crate::came::lost_at;
use crate::chunk::padded;
use crate::course::{Course, Pending, Turn};
use crate::place::{Place, ended, is_open};
use crate::turn::take_turn;
use ffv1_reads::{FileFault, Item, fill, is_end, pass};
use ffv1_wire::ByteIn;
use std::alloc::Allocator;

/// The number of bytes before the chunk that comes next, or that what comes next is of.
fn begun_by(course: Course) -> u64
    ensures { result ≡ begun_by course course.pending }
{
    match course.pending {
        Pending::Nothing => course.at,
        _ => course.begun,
    }
}

/// The number of bytes before a chunk of which the header was read, after so many bytes.
fn headed_by(course: Course, count: u64) -> u64
    ensures { result ≡ headed_by course count }
{
    course.at.saturating_add(count).saturating_sub(8)
}

/// Whether a chunk of frames is sought.
fn is_seeking(pending: Pending) -> bool
    ensures { result ≡ is_seeking pending }
{
    match pending {
        Pending::Seeking { window: _ } => true,
        _ => false,
    }
}

/// A place, in which the size of a movi may not be trusted.
fn trusted(is_lost: bool, place: Place) -> Place
    ensures { result ≡ trusted is_lost place }
{
    if is_lost && place.movi > 0 {
        return lost_at(place);
    }
    place
}

/// Where reading goes on, so many bytes further.
fn moved(course: Course, count: u64, pending: Pending, place: Place) -> Course
    ensures { result ≡ moved course count pending place }
{
    Course {
        place: trusted(course.lost, place),
        pending,
        lost: course.lost || is_seeking(pending),
        begun: begun_by(course),
        at: course.at.saturating_add(count),
        open_ended: course.open_ended,
        after: course.after,
    }
}

/// Whether the RIFF or the movi has no size, if sizes are still trusted; else whether it had none.
fn left_open(course: Course) -> bool
    ensures { result ≡ left_open course }
{
    course.open_ended || (!course.lost && is_open(course.place.open_in))
}

/// Where reading goes on after a fault that is told.
fn told_on(course: Course, count: u64, pending: Pending, place: Place) -> Course
    ensures { result ≡ told_on course count pending place }
{
    let mut next = moved(course, count, pending, place);
    next.open_ended = left_open(course);
    next
}

/// Where it goes on after the end.
fn over(course: Course) -> Course
    ensures { result ≡ over course }
{
    Course {
        place: ended(),
        pending: Pending::Nothing,
        lost: false,
        begun: begun_by(course),
        at: course.at,
        open_ended: left_open(course),
        after: course.after,
    }
}

/// The same, and where other bytes stand, if that is there.
fn over_at(course: Course, some: bool) -> Course
    ensures { result ≡ over_at course some }
{
    let mut end = over(course);
    if some {
        end.after = Some(course.at);
    }
    end
}

/// Where it goes on after a frame of so many bytes, of which the header was read after so many.
fn framed(course: Course, count: u64, size: u32, place: Place) -> Course
    ensures { result ≡ framed course count size place }
{
    let taken = count.saturating_add(padded(size));
    Course {
        place,
        pending: Pending::Nothing,
        lost: course.lost,
        begun: headed_by(course, count),
        at: course.at.saturating_add(taken),
        open_ended: course.open_ended,
        after: course.after,
    }
}

/// What is answered where the input has ended in a turn: while a chunk of frames is sought nothing
/// is told.
fn end_item(course: Course) -> Item
    ensures { result ≡ end_item course course.pending }
{
    let told = Item::Told {
        fault: FileFault::Truncated,
        offset: begun_by(course),
    };
    match course.pending {
        Pending::Nothing => told,
        Pending::Passing { count: _, seeks } => if seeks { Item::End } else { told },
        Pending::Seeking { window: _ } => Item::End,
    }
}

/// A call that was refused inside a chunk: if the input has ended, this is answered.
fn stop(course: &mut Course, fault: FileFault, end: Item) -> Result<Item, FileFault>
    ensures { StopsBy end (over course.old) course.old course.new fault result }
{
    if is_end(fault) {
        *course = over(*course);
        return Ok(end);
    }
    Err(fault)
}

/// Reads the bytes of a frame, and their padding.
fn fill_padded<R: ByteIn, A: Allocator>(
    input: &mut R,
    size: u32,
    frame: &mut Vec<u8, A>,
) -> Result<(), FileFault>
    ensures answer { Answers (λ (_ : Unit {0}). frame.new.items) (content Kept size)
        (passage R.remaining R.failures input.old input.new) result }
    ensures room { vec_capacity frame.new
        ≤ max (vec_capacity frame.old) (2 * length frame.new.items + 65536) }
    ensures held { OnOk result (vec_capacity frame.new
        ≤ max (vec_capacity frame.old) (length frame.new.items)) }
{
    fill(input, size as usize, frame)?;
    pass(input, u64::from(size % 2))?;
    Ok(())
}

/// Reads a frame of so many bytes, of which the header was read after so many.
fn take_frame<R: ByteIn, A: Allocator>(
    input: &mut R,
    course: &mut Course,
    count: u64,
    size: u32,
    place: Place,
    frame: &mut Vec<u8, A>,
) -> Result<Item, FileFault>
    ensures answer { ItemAnswers (frame_given course.old count size place)
        (passage R.remaining R.failures input.old input.new) result frame.new.items course.new }
    ensures end { IfOk result (λ i. i ≡ item.End → ⊥) }
    ensures room { vec_capacity frame.new
        ≤ max (vec_capacity frame.old) (2 * length frame.new.items + 65536) }
    ensures held { IfOk result (λ i. i ≡ item.Frame →
        vec_capacity frame.new ≤ max (vec_capacity frame.old) (length frame.new.items)) }
{
    match fill_padded(input, size, frame) {
        Ok(()) => {
            *course = framed(*course, count, size, place);
            Ok(Item::Frame)
        }
        Err(fault) => {
            let end = Item::Told {
                fault: FileFault::Truncated,
                offset: headed_by(*course, count),
            };
            stop(course, fault, end)
        }
    }
}

impl Course {
    /// Where nothing more comes.
    pub fn ended() -> Course
        ensures { result ≡ ended_course }
    {
        Course {
            place: ended(),
            pending: Pending::Nothing,
            lost: false,
            begun: 0,
            at: 0,
            open_ended: false,
            after: None,
        }
    }

    /// The number of bytes of the file before others that stand after its last RIFF, if any do. It
    /// is known once `next_item` has answered `End`.
    pub fn after(&self) -> Option<u64>
        ensures { result ≡ self.now.after }
    {
        self.after
    }

    /// Whether an RIFF or a `movi` had no size, where the frames ended, or where a fault was told:
    /// nothing says then whether frames are missing at its end. It is known once `next_item` has
    /// answered `End`.
    pub fn open_ended(&self) -> bool
        ensures { result ≡ self.now.open_ended }
    {
        self.open_ended
    }

    /// The next item of a file that may be damaged: a frame, in place of what the vector has, or a
    /// fault that is told; or the end. The input has to be the one that the reader of the course
    /// was opened on, and only `next_item` may have read it since.
    ///
    /// A fault of a chunk, as `AviReader::next_frame` has it, is told, with where the chunk begins.
    /// Then the next chunk of frames is sought that has bytes, and at most 1073741824, from the
    /// second byte of that chunk on; an index is passed there. From then on no size of an RIFF or a
    /// movi is trusted: each ends as if it had none, and no frame is owed. A frame in RIFF is
    /// told, and passed by its size. `Another` is told, and the frames end. `Truncated` is told
    /// where the input ends inside a chunk, unless one is sought, and the frames end. A frame of no
    /// bytes repeats the one before it.
    ///
    /// `Read` if a read failed, `OutOfMemory`: then the course is left as it was, and the bytes
    /// that were read are lost. No other fault is answered. The vector holds a frame only with
    /// `Frame`.
    pub fn next_item<R: ByteIn, A: Allocator>(
        &mut self,
        input: &mut R,
        frame: &mut Vec<u8, A>,
    ) -> Result<Item, FileFault>
        ensures answer { ItemAnswers (item_read self.old)
            (passage R.remaining R.failures input.old input.new) result frame.new.items self.new }
        ensures end { IfOk result (λ i. i ≡ item.End → self.new.place ≡ ended) }
        ensures ended { IfOk result (λ i. i ≡ item.End → SaidBy (ended_by self.old)
            (R.remaining input.old) (R.remaining input.new) self.new) }
        ensures room { vec_capacity frame.new
            ≤ max (vec_capacity frame.old) (2 * length frame.new.items + 65536) }
        ensures held { IfOk result (λ i. i ≡ item.Frame →
            vec_capacity frame.new ≤ max (vec_capacity frame.old) (length frame.new.items)) }
    {
        read_item(input, self, frame)
    }
}

/// The next item: a frame, in place of what the vector has, or a fault; or the end.
fn read_item<R: ByteIn, A: Allocator>(
    input: &mut R,
    course: &mut Course,
    frame: &mut Vec<u8, A>,
) -> Result<Item, FileFault>
    ensures answer { ItemAnswers (item_read course.old)
        (passage R.remaining R.failures input.old input.new) result frame.new.items course.new }
    ensures end { IfOk result (λ i. i ≡ item.End → course.new.place ≡ ended) }
    ensures ended { IfOk result (λ i. i ≡ item.End → SaidBy (ended_by course.old)
        (R.remaining input.old) (R.remaining input.new) course.new) }
    ensures room { vec_capacity frame.new
        ≤ max (vec_capacity frame.old) (2 * length frame.new.items + 65536) }
    ensures held { IfOk result (λ i. i ≡ item.Frame →
        vec_capacity frame.new ≤ max (vec_capacity frame.old) (length frame.new.items)) }
{
    frame.clear();
    for _turn in 0..u64::MAX {
        let mut some = false;
        let turn = match take_turn(input, course.pending, course.place, &mut some) {
            Ok(turn) => turn,
            Err(fault) => {
                let end = end_item(*course);
                return stop(course, fault, end);
            }
        };
        let Some(turn) = turn else {
            *course = over_at(*course, some);
            return Ok(Item::End);
        };
        match turn {
            Turn::Frame { count, size, place } => {
                return take_frame(input, course, count, size, place, frame);
            }
            Turn::On {
                count,
                pending,
                place,
            } => *course = moved(*course, count, pending, place),
            Turn::Told {
                fault,
                count,
                pending,
                place,
            } => {
                let offset = begun_by(*course);
                *course = told_on(*course, count, pending, place);
                return Ok(Item::Told { fault, offset });
            }
        }
    }
    *course = over(*course);
    Ok(Item::End)
}
