//! What a file that may be damaged gives, one by one.

ghost use Rattle.std.specs.Prelude.{◌≡◌, ◌<◌, ◌≤◌, ◌+◌, ◌*◌, ◌^◌, IfOk, length, max};
ghost use Rattle.std.specs.Vec.{vec_capacity};
ghost use Rattle.ffv1_wire.specs.Passage.{passage};
ghost use Rattle.ffv1_matroska.specs.CuedItems.{CuedBy, cued_item};
ghost use Rattle.ffv1_reads.specs.Items.{ItemAnswers, StopsBy};
ghost use Rattle.ffv1_matroska.specs.Items.{begun_by, frame_given, item_read, moved};
ghost use Rattle.ffv1_matroska.specs.Items.{end_item, left_by, over, weight};
ghost use Rattle.ffv1_matroska.specs.Places.{amount, ended};
ghost use Rattle.ffv1_reads.specs.declared.item.Item.TheVariants as item;

use crate::course::{Course, Pending, Turn};
use crate::outer_turn::{open_at, take_turn};
use crate::place::{Place, ended, is_sound, summed_at};
use crate::track::TrackNumbers;
use ffv1_ebml::fill_summed;
use ffv1_reads::{FileFault, Item, is_end};
use ffv1_wire::ByteIn;
use std::alloc::Allocator;

/// A number of bytes that no turn from a place passes.
fn weight(place: Place, pending: Pending) -> u128
    ensures { result ≡ weight place pending }
{
    match pending {
        Pending::Passing { count } => amount(place) + u128::from(count),
        Pending::Headed { ident: _, size: _ } => amount(open_at(0, place)),
        _ => amount(place),
    }
}

/// The number of bytes that are left where a turn has come.
fn left_by(place: Place, pending: Pending) -> u128
    ensures { result ≡ left_by place pending }
{
    match pending {
        Pending::Passing { count } => amount(place) + u128::from(count),
        _ => amount(place),
    }
}

/// The bytes that a place has left.
fn amount(place: Place) -> u128
    ensures value { result ≡ amount place }
    ensures fits { result < 2 ^ 66 }
{
    u128::from(place.segment) + u128::from(place.cluster) + u128::from(place.group)
}

/// The number of bytes before the element that comes next, or that what comes next is of.
fn begun_by(course: Course) -> u64
    ensures { result ≡ begun_by course course.place course.pending }
{
    match course.pending {
        Pending::Nothing => if is_sound(course.place) {
            course.at
        } else {
            course.begun
        },
        _ => course.begun,
    }
}

/// Where reading goes on, once it has come to a place.
fn moved(course: Course, pending: Pending, place: Place) -> Course
    ensures { result ≡ moved course pending place }
{
    let before = weight(course.place, course.pending);
    let passed = before.saturating_sub(left_by(place, pending));
    Course {
        place,
        pending,
        begun: begun_by(course),
        at: course
            .at
            .saturating_add(u64::try_from(passed).unwrap_or(u64::MAX)),
    }
}

/// Where it goes on after the end.
fn over(course: Course) -> Course
    ensures { result ≡ over course }
{
    Course {
        place: ended(),
        pending: Pending::Nothing,
        begun: begun_by(course),
        at: course.at,
    }
}

/// What is answered where the input has ended in a turn: of a Cluster that is sought nothing is
/// told.
fn end_item(course: Course) -> Item
    ensures { result ≡ end_item course.pending course }
{
    match course.pending {
        Pending::Seeking => Item::End,
        _ => Item::Told {
            fault: FileFault::Truncated,
            offset: begun_by(course),
        },
    }
}

/// A call that was refused inside an element: if the input has ended, this is answered.
fn stop(course: &mut Course, fault: FileFault, end: Item) -> Result<Item, FileFault>
    ensures { StopsBy end (over course.old) course.old course.new fault result }
{
    if is_end(fault) {
        *course = over(*course);
        return Ok(end);
    }
    Err(fault)
}

/// Reads a frame of so many bytes.
fn take_frame<R: ByteIn, A: Allocator>(
    input: &mut R,
    course: &mut Course,
    size: u64,
    place: Place,
    frame: &mut Vec<u8, A>,
) -> Result<Item, FileFault>
    ensures answer { ItemAnswers (frame_given course.old size place)
        (passage R.remaining R.failures input.old input.new) result frame.new.items course.new }
    ensures end { IfOk result (λ i. i ≡ item.End → ⊥) }
    ensures room { vec_capacity frame.new
        ≤ max (vec_capacity frame.old) (2 * length frame.new.items + 65536) }
    ensures held { IfOk result (λ i. i ≡ item.Frame →
        vec_capacity frame.new ≤ max (vec_capacity frame.old) (length frame.new.items)) }
{
    let mut sum = place.sum;
    match fill_summed(input, size as usize, frame, &mut sum) {
        Ok(()) => {
            *course = moved(*course, Pending::Nothing, summed_at(place, sum));
            Ok(Item::Frame)
        }
        Err(fault) => {
            let offset = begun_by(*course);
            let end = Item::Told {
                fault: FileFault::Truncated,
                offset,
            };
            stop(course, fault, end)
        }
    }
}

/// The next item: a frame, in place of what the vector has, or a fault; or the end. `cued` is then
/// whether Cues came after the last Cluster.
pub(crate) fn read_item<R: ByteIn, A: Allocator>(
    input: &mut R,
    track: TrackNumbers,
    course: &mut Course,
    cued: &mut bool,
    frame: &mut Vec<u8, A>,
) -> Result<Item, FileFault>
    ensures answer { ItemAnswers (item_read track course.old)
        (passage R.remaining R.failures input.old input.new) result frame.new.items course.new }
    ensures end { IfOk result (λ i. i ≡ item.End → course.new.place ≡ ended) }
    ensures cued { IfOk result (λ i. CuedBy (cued_item track course.old cued.old)
        (R.remaining input.old) (R.remaining input.new) cued.new) }
    ensures room { vec_capacity frame.new
        ≤ max (vec_capacity frame.old) (2 * length frame.new.items + 65536) }
    ensures held { IfOk result (λ i. i ≡ item.Frame →
        vec_capacity frame.new ≤ max (vec_capacity frame.old) (length frame.new.items)) }
{
    frame.clear();
    for _turn in 0..u64::MAX {
        let mut came = *cued;
        let turn = match take_turn(input, track, course.pending, course.place, &mut came) {
            Ok(turn) => turn,
            Err(fault) => {
                let end = end_item(*course);
                return stop(course, fault, end);
            }
        };
        *cued = came;
        let Some(turn) = turn else {
            *course = over(*course);
            return Ok(Item::End);
        };
        match turn {
            Turn::Frame { size, place } => return take_frame(input, course, size, place, frame),
            Turn::On { pending, place } => *course = moved(*course, pending, place),
            Turn::Told {
                fault,
                pending,
                place,
            } => {
                let offset = begun_by(*course);
                *course = moved(*course, pending, place);
                return Ok(Item::Told { fault, offset });
            }
        }
    }
    *course = over(*course);
    Ok(Item::End)
}
