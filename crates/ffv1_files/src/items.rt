//! What a file that may be damaged gives, one by one, of either container.

ghost use Rattle.std.specs.Prelude.{◌≡◌, ◌≤◌, ◌+◌, ◌*◌, IfOk, None, length, max};
ghost use Rattle.std.specs.Vec.{vec_capacity};
ghost use Rattle.ffv1_wire.specs.Passage.{passage};
ghost use Rattle.ffv1_reads.specs.Items.{SaidBy};
ghost use Rattle.ffv1_reads.specs.declared.item.Item.TheVariants as item;
ghost use Rattle.ffv1_avi.specs.Places.{extent_of};
ghost use Rattle.ffv1_matroska.specs.CuedItems.{CuedBy};
ghost use Rattle.ffv1_files.specs.Items.{ItemAnswers, avi_course, course_ended, cued_item};
ghost use Rattle.ffv1_files.specs.Items.{plain_answer, repeated_in};
ghost use Rattle.ffv1_files.specs.Places.{InAvi, InMatroska};
ghost use Rattle.ffv1_files.specs.declared.course.Course.TheVariants.{Plain};

use crate::course::Course;
use ffv1_avi::{AviReader, Extent};
use ffv1_matroska::MatroskaReader;
use ffv1_reads::{FileFault, Item};
use ffv1_wire::ByteIn;
use std::alloc::Allocator;

/// Where reading goes on in an AVI from where its reader stands.
pub(crate) fn avi_course<A: Allocator>(reader: &AviReader<A>) -> Course
    ensures { result
        ≡ avi_course (extent_of reader.now.place) reader.now.place reader.now.offset }
{
    match reader.extent() {
        Extent::FirstMovi => Course::Plain,
        Extent::EveryRiff => Course::Avi {
            course: reader.course(),
            repeated: 0,
        },
    }
}

/// The item of a frame, or the end.
fn plain_answer(more: Result<bool, FileFault>) -> Result<Item, FileFault>
    ensures { result ≡ plain_answer more }
{
    match more {
        Ok(true) => Ok(Item::Frame),
        Ok(false) => Ok(Item::End),
        Err(fault) => Err(fault),
    }
}

/// How many frames had no bytes, after one more answer.
fn repeated_in(answer: Result<Item, FileFault>, frame: &[u8], repeated: u64) -> u64
    ensures { result ≡ repeated_in answer frame.now repeated }
{
    match answer {
        Ok(Item::Frame) => if frame.is_empty() {
            repeated.saturating_add(1)
        } else {
            repeated
        },
        _ => repeated,
    }
}

/// The next item of an AVI.
pub(crate) fn read_chunk_item<R: ByteIn, A: Allocator>(
    reader: &mut AviReader<A>,
    input: &mut R,
    course: &mut Course,
    frame: &mut Vec<u8, A>,
) -> Result<Item, FileFault>
    ensures answer { reader.old.fault ≡ None → ItemAnswers (InAvi reader.old.place) course.old
        (passage R.remaining R.failures input.old input.new) result frame.new.items
        (InAvi reader.new.place) course.new }
    ensures still { (course.old ≡ Plain → ⊥) → reader.new ≡ reader.old }
    ensures kind { (course.old ≡ Plain → ⊥) → course.new ≡ Plain → ⊥ }
    ensures plain { course.old ≡ Plain → course.new ≡ Plain }
    ensures kept { reader.new.room ≡ reader.old.room }
    ensures room { vec_capacity frame.new
        ≤ max (vec_capacity frame.old) (2 * length frame.new.items + 65536) }
    ensures held { IfOk result (λ i. i ≡ item.Frame →
        vec_capacity frame.new ≤ max (vec_capacity frame.old) (length frame.new.items)) }
    ensures ended { reader.old.fault ≡ None → IfOk result (λ i. i ≡ item.End →
        SaidBy (course_ended course.old)
        (R.remaining input.old) (R.remaining input.new) course.new) }
{
    match *course {
        Course::Plain => plain_answer(reader.next_frame(input, frame)),
        Course::Avi {
            course: at,
            repeated,
        } => {
            let mut next = at;
            let answer = next.next_item(input, frame);
            *course = Course::Avi {
                course: next,
                repeated: repeated_in(answer, frame, repeated),
            };
            answer
        }
        Course::Matroska(_other) => Ok(Item::End),
    }
}

/// The next item of a Segment, and whether Cues came after its last Cluster.
pub(crate) fn read_element_item<R: ByteIn, A: Allocator>(
    reader: &MatroskaReader<A>,
    input: &mut R,
    course: &mut Course,
    cued: &mut bool,
    frame: &mut Vec<u8, A>,
) -> Result<Item, FileFault>
    ensures answer { ItemAnswers
        (InMatroska reader.now.segment reader.now.track.numbers reader.now.place) course.old
        (passage R.remaining R.failures input.old input.new) result frame.new.items
        (InMatroska reader.now.segment reader.now.track.numbers reader.now.place) course.new }
    ensures kind { (course.old ≡ Plain → ⊥) → course.new ≡ Plain → ⊥ }
    ensures plain { course.old ≡ Plain → course.new ≡ Plain }
    ensures room { vec_capacity frame.new
        ≤ max (vec_capacity frame.old) (2 * length frame.new.items + 65536) }
    ensures held { IfOk result (λ i. i ≡ item.Frame →
        vec_capacity frame.new ≤ max (vec_capacity frame.old) (length frame.new.items)) }
    ensures cued { IfOk result (λ i. CuedBy (cued_item
        (InMatroska reader.now.segment reader.now.track.numbers reader.now.place) course.old
        cued.old) (R.remaining input.old) (R.remaining input.new) cued.new) }
{
    match *course {
        Course::Matroska(at) => {
            let mut next = at;
            let answer = reader.next_item(input, &mut next, cued, frame);
            *course = Course::Matroska(next);
            answer
        }
        Course::Plain => Ok(Item::End),
        Course::Avi {
            course: _other,
            repeated: _repeated,
        } => Ok(Item::End),
    }
}
