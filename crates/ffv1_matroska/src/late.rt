//! Files whose first Tracks stand behind their first Cluster: they are read from the beginning
//! again up to these Tracks, and then once more, with the track that these say.

ghost use Rattle.std.specs.Prelude.{◌≡◌, ℕ, List, Option, Bool, IfErr, OnErr, OnOk};
ghost use Rattle.std.specs.Vec.{vec_capacity};
ghost use Rattle.ffv1_wire.specs.Failures.{one_more};
ghost use Rattle.ffv1_wire.specs.Passage.{between, passage};
ghost use Rattle.ffv1_reads.specs.Ends.{AnswersOrFaults};
ghost use Rattle.ffv1_reads.specs.Known.{Known};
ghost use Rattle.ffv1_reads.specs.Reads.{Answers};
ghost use Rattle.ffv1_reads.specs.Room.{RoomRead};
ghost use Rattle.ffv1_reads.specs.declared.fault.FileFault.TheVariants as fault;
ghost use Rattle.ffv1_ebml.specs.declared.element.Element.{Element};
ghost use Rattle.ffv1_matroska.specs.Again.{AnswersAgain, TrackFrom, ReopensFrom, RoomTwice};
ghost use Rattle.ffv1_matroska.specs.Again.{SeeksFrom, TwiceFrom};
ghost use Rattle.ffv1_matroska.specs.Internal.{opened_kept, track_kept};
ghost use Rattle.ffv1_matroska.specs.Late.{passed_over, reopened, track_read, track_sought};
ghost use Rattle.ffv1_matroska.specs.Readers.{HasEnded};
ghost use Rattle.ffv1_matroska.specs.Scales.{tick_in};
ghost use Rattle.ffv1_matroska.specs.Tracks.{Track};
ghost use Rattle.ffv1_matroska.specs.declared.place.Place.{Place};
ghost use Rattle.ffv1_matroska.specs.declared.track.Numbers.{Numbers};

use crate::beginning::{pass_element, read_beginning, read_tracks};
use crate::idents::{CLUSTER, TRACKS};
use crate::opening::{begin_segment, enter_segment, read_ebml};
use crate::place::{Place, passed, segment_at};
use crate::segment::{is_filler, is_loose, next_header};
use crate::track::Numbers;
use ffv1_ebml::Element;
use ffv1_reads::{FileFault, pass};
use ffv1_wire::{AgainIn, ByteIn};
use std::alloc::Allocator;

/// Passes an element of the Segment other than Tracks, after its header, and answers whether what
/// comes next is in a Cluster of unknown size. A Cluster of known size is passed whole; of one of
/// unknown size nothing, since its elements come next.
///
/// `BadElement` if its size is unknown and it is no Cluster, or if it may not stand there, and then
/// as `pass_content`.
#[tactic(auto, unfolding(crate::specs::Late::passed_over))]
fn pass_over<R: ByteIn>(
    input: &mut R,
    place: Place,
    ident: u32,
    size: Option<u64>,
) -> Result<bool, FileFault>
    ensures { Answers (λ (loose : Bool). loose) (passed_over place.loose ident size)
        (passage R.remaining R.failures input.old input.new) result }
{
    if ident == CLUSTER {
        let Some(size) = size else {
            return Ok(true);
        };
        pass(input, size)?;
        return Ok(false);
    }
    if is_loose(place, ident) {
        let Some(size) = size else {
            return Err(FileFault::BadElement);
        };
        pass(input, size)?;
        return Ok(true);
    }
    pass_element(input, ident, size)?;
    Ok(place.loose && is_filler(ident))
}

/// Reads the elements of a Segment from a position on, up to the first Tracks: what their track
/// says, with its record in place of what the vector `config` has.
///
/// `NoTracks` if the Segment ends before any; faults of the header of an element as of
/// `next_header`, then as `read_tracks` and `pass_over`. `here` is then the place before the
/// element that was refused.
fn seek_tracks<R: ByteIn, A: Allocator>(
    input: &mut R,
    place: Place,
    here: &mut Place,
    content: &mut Vec<u8, A>,
    config: &mut Vec<u8, A>,
) -> Result<Numbers, FileFault>
    ensures answer { AnswersOrFaults fault.NoTracks (λ (track : Track). ⊥)
        (λ (n : Numbers). track_kept n config.new.items) (track_sought place)
        (passage R.remaining R.failures input.old input.new) result }
    ensures grown { OnOk result (RoomRead (R.remaining input.old) (R.remaining input.new)
        (vec_capacity config.old) (vec_capacity config.new)) }
    ensures from { SeeksFrom place (passage R.remaining R.failures input.old input.new) result
        here.new }
{
    *here = place;
    while let Some(element) = next_header(input, *here)? {
        if element.ident == TRACKS {
            let numbers = read_tracks(input, element.size, content, config)?;
            return Ok(numbers);
        }
        let loose = pass_over(input, *here, element.ident, element.size)?;
        *here = segment_at(*here, loose, element.left);
    }
    Err(FileFault::NoTracks)
}

/// Reads a file from its beginning up to the end of its first Tracks, wherever these stand: what
/// their track says, with its record in place of what the vector `config` has. The room of that
/// grows by at most as many bytes as are read.
///
/// Faults of what comes before the Segment as of `read_ebml` and `enter_segment`, then as
/// `seek_tracks`. `offset` is then the number of bytes before the element that was refused.
#[tactic(auto, unfolding(crate::specs::Late::track_read))]
fn find_track<R: ByteIn, A: Allocator>(
    input: &mut R,
    content: &mut Vec<u8, A>,
    config: &mut Vec<u8, A>,
    offset: &mut u64,
) -> Result<Numbers, FileFault>
    ensures answer { AnswersOrFaults fault.NoTracks (λ (track : Track). ⊥)
        (λ (n : Numbers). track_kept n config.new.items) track_read
        (passage R.remaining R.failures input.old input.new) result }
    ensures grown { OnOk result (RoomRead (R.remaining input.old) (R.remaining input.new)
        (vec_capacity config.old) (vec_capacity config.new)) }
    ensures from { TrackFrom (passage R.remaining R.failures input.old input.new) result
        offset.new }
{
    let mut after = 0;
    *offset = 0;
    read_ebml(None, input, content, &mut after)?;
    *offset = after;
    let size = enter_segment(input, offset)?;
    let begin = begin_segment(size);
    let mut here = begin;
    let found = seek_tracks(input, begin, &mut here, content, config);
    *offset = offset.saturating_add(passed(begin, here));
    let numbers = found?;
    Ok(numbers)
}

/// Reads a file from its beginning up to where the frames of a track begin, whose record the vector
/// `config` has: the size of its Segment, what the track says, and the place.
///
/// Faults of what comes before the Segment as of `read_ebml` and `enter_segment`, then as
/// `read_beginning`. `offset` is the number of bytes before where the frames begin, or before the
/// element that was refused; `tick` is how many nanoseconds a tick has, or 0 if that is not known.
#[tactic(auto, unfolding(crate::specs::Late::reopened))]
fn reopen<R: ByteIn, A: Allocator>(
    input: &mut R,
    known: Numbers,
    content: &mut Vec<u8, A>,
    config: &mut Vec<u8, A>,
    offset: &mut u64,
    tick: &mut u64,
) -> Result<(Option<u64>, Numbers, Place), FileFault>
    ensures answer { AnswersOrFaults fault.NoTracks HasEnded
        (λ (p : Option ℕ × Numbers × Place). opened_kept p config.new.items)
        (reopened (track_kept known config.old.items))
        (passage R.remaining R.failures input.old input.new) result }
    ensures grown { OnOk result (RoomRead (R.remaining input.old) (R.remaining input.new)
        (vec_capacity config.old) (vec_capacity config.new)) }
    ensures from { ReopensFrom (passage R.remaining R.failures input.old input.new)
        config.new.items result offset.new }
    ensures tick { OnOk result (Known (R.remaining input.old) (R.remaining input.new)
        (λ text rest. tick.new ≡ tick_in text)) }
{
    let mut after = 0;
    *offset = 0;
    *tick = 0;
    read_ebml(None, input, content, &mut after)?;
    *offset = after;
    let size = enter_segment(input, offset)?;
    let begin = begin_segment(size);
    let mut here = begin;
    let read = read_beginning(input, Some(known), &mut here, tick, content, config);
    *offset = offset.saturating_add(passed(begin, here));
    let (numbers, place) = read?;
    Ok((size, numbers, place))
}

/// Begins an input again. `Read` if that failed.
pub(crate) fn begin_again<R: AgainIn>(input: &mut R, start: &R::Start) -> Result<(), FileFault>
    ensures done { OnOk result (R.remaining input.new ≡ R.whole start.now) }
    ensures counted { OnOk result (R.failures input.new ≡ R.failures input.old) }
    ensures fault { IfErr result (λ f. f ≡ fault.Read) }
    ensures kept { OnErr result (R.remaining input.new ≡ R.remaining input.old) }
    ensures failed { OnErr result (R.failures input.new ≡ one_more (R.failures input.old)) }
{
    match input.again(start) {
        Ok(()) => Ok(()),
        Err(_) => Err(FileFault::Read),
    }
}

/// Reads a file from its beginning up to the end of its first Tracks, and then once more from there
/// up to where the frames of their track begin, as `find_track` and `reopen` do: the size of its
/// Segment, what the track says, with the record in place of what the vector `config` has, and the
/// place; and `tick`, how many nanoseconds a tick has. `Read` too if it can't be begun again, and
/// then `offset` is 0.
pub(crate) fn read_twice<R: AgainIn, A: Allocator>(
    input: &mut R,
    start: &R::Start,
    content: &mut Vec<u8, A>,
    config: &mut Vec<u8, A>,
    offset: &mut u64,
    tick: &mut u64,
) -> Result<(Option<u64>, Numbers, Place), FileFault>
    ensures answer { AnswersAgain
        (λ (p : Option ℕ × Numbers × Place). opened_kept p config.new.items)
        (R.remaining input.old) (between (R.whole start.now) (R.remaining input.new)
        (R.failures input.old) (R.failures input.new)) result }
    ensures grown { OnOk result (RoomTwice (R.whole start.now) (R.remaining input.new)
        (vec_capacity config.old) (vec_capacity config.new)) }
    ensures from { TwiceFrom (between (R.whole start.now) (R.remaining input.new)
        (R.failures input.old) (R.failures input.new)) config.new.items result offset.new }
    ensures tick { OnOk result (Known (R.whole start.now) (R.remaining input.new)
        (λ text rest. tick.new ≡ tick_in text)) }
{
    *offset = 0;
    begin_again(input, start)?;
    let known = find_track(input, content, config, offset)?;
    *offset = 0;
    begin_again(input, start)?;
    let (segment, numbers, place) = reopen(input, known, content, config, offset, tick)?;
    Ok((segment, numbers, place))
}
