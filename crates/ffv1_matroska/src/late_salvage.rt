//! Files that may be damaged before their first frame, and whose first Tracks stand behind their
//! first Cluster: they are read from the beginning again up to these Tracks, and then once more,
//! with the track that these say.

ghost use Rattle.std.specs.Prelude.{◌≡◌, ◌≤◌, ℕ, Bool, IfErr, IfOk, None, OnOk, Option};
ghost use Rattle.std.specs.Prelude.{false, true};
ghost use Rattle.std.specs.Vec.{vec_capacity};
ghost use Rattle.ffv1_wire.specs.Passage.{between, passage};
ghost use Rattle.ffv1_reads.specs.Ends.{AnswersOrFaults};
ghost use Rattle.ffv1_reads.specs.Known.{Known};
ghost use Rattle.ffv1_reads.specs.Offsets.{offset_after};
ghost use Rattle.ffv1_reads.specs.Reads.{Answers};
ghost use Rattle.ffv1_reads.specs.Room.{RoomRead};
ghost use Rattle.ffv1_reads.specs.declared.fault.FileFault.TheVariants as fault;
ghost use Rattle.ffv1_matroska.specs.Again.{RoomTwice};
ghost use Rattle.ffv1_matroska.specs.Internal.{opened_kept, salvaged_kept, track_kept};
ghost use Rattle.ffv1_matroska.specs.Places.{amount, ended};
ghost use Rattle.ffv1_matroska.specs.Readers.{EndsThere, is_opening_fault, opened_at};
ghost use Rattle.ffv1_matroska.specs.SalvagedAgain.{AnswersSalvaged, KnownStops, KnownTo};
ghost use Rattle.ffv1_matroska.specs.SalvagedAgain.{SoughtFrom, SoughtTo, StopsLate, known_begun};
ghost use Rattle.ffv1_matroska.specs.SalvagedAgain.{TellsKnown, TellsLate, known_opened};
ghost use Rattle.ffv1_matroska.specs.SalvagedAgain.{known_told_from};
ghost use Rattle.ffv1_matroska.specs.SalvageTold.{ToldBy};
ghost use Rattle.ffv1_matroska.specs.SalvagedLate.{known_from, salvage_sought, salvage_track};
ghost use Rattle.ffv1_matroska.specs.SalvagedLate.{salvage_known, salvaged_over};
ghost use Rattle.ffv1_matroska.specs.Salvaged.{Begun, NeverBegins, data_at, most_told};
ghost use Rattle.ffv1_matroska.specs.Times.{times_begun};
ghost use Rattle.ffv1_matroska.specs.Tracks.{Track};
ghost use Rattle.ffv1_matroska.specs.declared.place.Place.{Place};
ghost use Rattle.ffv1_matroska.specs.declared.track.Numbers.{Numbers};

use crate::beginning::in_cluster;
use crate::idents::{CLUSTER, TRACKS};
use crate::late::begin_again;
use crate::opening::{begin_segment, enter_segment};
use crate::place::{Place, ended, passed, segment_at};
use crate::reader::MatroskaReader;
use crate::salvage::{Noted, salvage_ebml, salvage_element, salvage_tracks};
use crate::segment::{is_filler, is_loose, next_header};
use crate::times::times_begun;
use crate::told::{ToldFault, ToldFaults, tell, tell_pending};
use crate::track::Numbers;
use ffv1_reads::{FileFault, pass};
use ffv1_wire::{AgainIn, ByteIn};
use std::alloc::Allocator;

/// Passes an element of the Segment other than Tracks, after its header, whatever would be told of
/// it, and answers whether what comes next is in a Cluster of unknown size. A Cluster of known size
/// is passed whole; of one of unknown size nothing, since its elements come next.
///
/// `BadElement` if its size is unknown and it is no Cluster, and then as `salvage_element`.
#[tactic(auto, unfolding(crate::specs::SalvagedLate::salvaged_over))]
fn salvage_over<R: ByteIn>(
    input: &mut R,
    place: Place,
    ident: u32,
    size: Option<u64>,
    noted: &mut Noted,
) -> Result<bool, FileFault>
    ensures { Answers (λ (loose : Bool). loose) (salvaged_over place.loose ident size)
        (passage R.remaining R.failures input.old input.new) result }
{
    if ident == CLUSTER {
        let Some(size) = size else {
            return Ok(true);
        };
        pass(input, size)?;
        return Ok(false);
    }
    if is_loose(place, ident) {
        let Some(size) = size else {
            return Err(FileFault::BadElement);
        };
        pass(input, size)?;
        return Ok(true);
    }
    salvage_element(input, ident, size, noted)?;
    Ok(place.loose && is_filler(ident))
}

/// Reads the elements of a Segment from a position on, up to the first Tracks, whatever would be
/// told of them: what their track says, with its record in place of what the vector `config` has.
///
/// `NoTracks` if the Segment ends before any; faults of the header of an element as of
/// `next_header`, then as `salvage_tracks` and `salvage_over`. `here` is then the place before the
/// element that was refused.
fn seek_salvaged<R: ByteIn, A: Allocator>(
    input: &mut R,
    place: Place,
    here: &mut Place,
    content: &mut Vec<u8, A>,
    config: &mut Vec<u8, A>,
    noted: &mut Noted,
) -> Result<Numbers, FileFault>
    ensures answer { AnswersOrFaults fault.NoTracks (λ (track : Track). ⊥)
        (λ (n : Numbers). track_kept n config.new.items) (salvage_sought place)
        (passage R.remaining R.failures input.old input.new) result }
    ensures grown { OnOk result (RoomRead (R.remaining input.old) (R.remaining input.new)
        (vec_capacity config.old) (vec_capacity config.new)) }
    ensures from { SoughtFrom place (passage R.remaining R.failures input.old input.new) result
        here.new }
{
    *here = place;
    while let Some(element) = next_header(input, *here)? {
        if element.ident == TRACKS {
            let (numbers, _) = salvage_tracks(
                input,
                element.size,
                content,
                config,
                &mut noted.other,
            )?;
            return Ok(numbers);
        }
        let loose = salvage_over(input, *here, element.ident, element.size, noted)?;
        *here = segment_at(*here, loose, element.left);
    }
    Err(FileFault::NoTracks)
}

/// Reads a file from its beginning up to the end of its first Tracks, wherever these stand, and
/// whatever would be told on the way: what their track says, with its record in place of what the
/// vector `config` has. The room of that grows by at most as many bytes as are read.
///
/// Faults of what comes before the Segment as of `salvage_ebml` and `enter_segment`, then as
/// `seek_salvaged`. `offset` of `noted` is then the number of bytes before the element that was
/// refused.
#[tactic(auto, unfolding(crate::specs::SalvagedLate::salvage_track))]
fn find_salvaged<R: ByteIn, A: Allocator>(
    input: &mut R,
    content: &mut Vec<u8, A>,
    config: &mut Vec<u8, A>,
    noted: &mut Noted,
) -> Result<Numbers, FileFault>
    ensures answer { AnswersOrFaults fault.NoTracks (λ (track : Track). ⊥)
        (λ (n : Numbers). track_kept n config.new.items) salvage_track
        (passage R.remaining R.failures input.old input.new) result }
    ensures grown { OnOk result (RoomRead (R.remaining input.old) (R.remaining input.new)
        (vec_capacity config.old) (vec_capacity config.new)) }
    ensures from { SoughtTo (passage R.remaining R.failures input.old input.new) result
        noted.new.offset }
{
    let mut after = 0;
    noted.offset = 0;
    salvage_ebml(None, input, content, &mut after, &mut noted.other)?;
    noted.offset = after;
    let size = enter_segment(input, &mut noted.offset)?;
    let data = noted.offset;
    let begin = begin_segment(size);
    let mut here = begin;
    let found = seek_salvaged(input, begin, &mut here, content, config, noted);
    noted.offset = data.saturating_add(passed(begin, here));
    let numbers = found?;
    Ok(numbers)
}

/// Reads the elements of a Segment from its beginning, `here`, up to where the frames of a track
/// begin, whichever track is known: the place. `here` is then where it was read up to, or the place
/// before the element that ended it; and the faults are told behind those before.
///
/// Faults of the header of an element as of `next_header`, then as `salvage_element` and `tell`.
fn salvage_known<R: ByteIn, A: Allocator>(
    input: &mut R,
    here: &mut Place,
    noted: &mut Noted,
    faults: &mut Vec<ToldFault, A>,
) -> Result<Place, FileFault>
    requires told { most_told ≤ vec_capacity faults.old }
    ensures answer { (track : Track) → AnswersOrFaults fault.NoTracks
        (λ (b : Begun). b.place ≡ ended)
        (λ (place : Place). known_begun track place here.new faults.new.items)
        (known_from track here.old faults.old.items)
        (passage R.remaining R.failures input.old input.new) result }
    ensures within { amount here.new ≤ amount here.old }
    ensures told { IfErr result (λ f. (track : Track) → ToldBy (known_told_from track here.old
        faults.old.items) (R.remaining input.old) (R.remaining input.new) faults.new.items) }
    ensures stopped { IfErr result (λ f. (track : Track) → KnownStops track here.old
        (R.remaining input.old) (R.remaining input.new) f here.new) }
{
    let begin = *here;
    while let Some(element) = next_header(input, *here)? {
        let after = segment_at(*here, false, element.left);
        if element.ident == CLUSTER {
            *here = in_cluster(after, element.size);
            return Ok(*here);
        }
        let position = Some(passed(begin, *here));
        let fault = match salvage_element(input, element.ident, element.size, noted) {
            Ok(fault) => fault,
            Err(fault) => {
                tell_pending(faults, noted.other, position);
                return Err(fault);
            }
        };
        tell(faults, fault, position)?;
        *here = after;
    }
    Ok(ended())
}

/// Reads a file that may be damaged from its beginning up to where the frames of a track begin,
/// whichever track is known: the size of its Segment and the place. What is told is then told in
/// place of what was before, and what was told before a fault.
///
/// Faults of what comes before the Segment as of `salvage_ebml` and `enter_segment`, then as
/// `salvage_known`. `offset` of `noted` is the number of bytes before where the frames begin, or
/// before the element that ended it.
#[tactic(auto, unfolding(crate::specs::SalvagedLate::salvage_known))]
fn reopen_salvaged<R: ByteIn, A: Allocator>(
    input: &mut R,
    told: &mut ToldFaults<A>,
    content: &mut Vec<u8, A>,
    noted: &mut Noted,
) -> Result<(Option<u64>, Place), FileFault>
    requires room { most_told ≤ vec_capacity told.old.faults }
    ensures answer { (track : Track) → AnswersOrFaults fault.NoTracks NeverBegins
        (λ (p : Option ℕ × Place). salvaged_kept (known_opened track p.0 p.1) told.new.begun
        told.new.faults.items) (salvage_known track)
        (passage R.remaining R.failures input.old input.new) result }
    ensures data { OnOk result (Known (R.remaining input.old) (R.remaining input.new)
        (λ text rest. told.new.data ≡ offset_after 0 (data_at text))) }
    ensures offset { OnOk result (noted.new.offset ≡ offset_after told.new.data told.new.begun) }
    ensures told { IfErr result (λ f. (track : Track) → TellsKnown track (R.remaining input.old)
        (R.remaining input.new) told.new.data told.new.faults.items) }
    ensures stopped { IfErr result (λ f. (track : Track) → KnownTo track
        (passage R.remaining R.failures input.old input.new) f noted.new.offset) }
{
    told.faults.clear();
    told.data = 0;
    let mut data = 0;
    noted.offset = 0;
    let fault = match salvage_ebml(None, input, content, &mut data, &mut noted.other) {
        Ok(fault) => fault,
        Err(fault) => {
            tell_pending(&mut told.faults, noted.other, None);
            return Err(fault);
        }
    };
    tell(&mut told.faults, fault, None)?;
    noted.offset = data;
    let size = enter_segment(input, &mut noted.offset)?;
    told.data = noted.offset;
    let begin = begin_segment(size);
    let mut here = begin;
    let read = salvage_known(input, &mut here, noted, &mut told.faults);
    told.begun = passed(begin, here);
    noted.offset = told.data.saturating_add(told.begun);
    let place = read?;
    Ok((size, place))
}

/// Reads a file that may be damaged from its beginning up to the end of its first Tracks, and then
/// once more from there up to where the frames of their track begin, as `find_salvaged` and
/// `reopen_salvaged` do: the size of its Segment, what the track says, with the record in place of
/// what the vector `config` has, and the place. `Read` too if it can't be begun again, and then
/// `offset` of `noted` is 0.
pub(crate) fn salvage_twice<R: AgainIn, A: Allocator>(
    input: &mut R,
    start: &R::Start,
    told: &mut ToldFaults<A>,
    content: &mut Vec<u8, A>,
    config: &mut Vec<u8, A>,
    noted: &mut Noted,
) -> Result<(Option<u64>, Numbers, Place), FileFault>
    requires room { most_told ≤ vec_capacity told.old.faults }
    ensures answer { AnswersSalvaged (λ (p : Option ℕ × Numbers × Place). salvaged_kept
        (opened_kept p config.new.items) told.new.begun told.new.faults.items)
        (R.remaining input.old) (between (R.whole start.now) (R.remaining input.new)
        (R.failures input.old) (R.failures input.new)) result }
    ensures grown { OnOk result (RoomTwice (R.whole start.now) (R.remaining input.new)
        (vec_capacity config.old) (vec_capacity config.new)) }
    ensures data { OnOk result (Known (R.whole start.now) (R.remaining input.new)
        (λ text rest. told.new.data ≡ offset_after 0 (data_at text))) }
    ensures offset { OnOk result (noted.new.offset ≡ offset_after told.new.data told.new.begun) }
    ensures told { IfErr result (λ f. TellsLate (R.whole start.now) (R.remaining input.new)
        told.new.data told.new.faults.items) }
    ensures stopped { IfErr result (λ f. StopsLate (between (R.whole start.now)
        (R.remaining input.new) (R.failures input.old) (R.failures input.new)) f
        noted.new.offset) }
{
    told.faults.clear();
    told.data = 0;
    noted.offset = 0;
    begin_again(input, start)?;
    let numbers = find_salvaged(input, content, config, noted)?;
    noted.offset = 0;
    begin_again(input, start)?;
    let (segment, place) = reopen_salvaged(input, told, content, noted)?;
    Ok((segment, numbers, place))
}

impl<A: Allocator + Copy> MatroskaReader<A> {
    /// Reads a file that may be damaged twice from its beginning, since Tracks stand behind its
    /// first Cluster: up to the end of the first Tracks, wherever these stand, and whatever would
    /// be told on the way; and then up to where its frames begin, as `open_salvaged` does, with the
    /// track that they say. The frames are those of the first track of the first Tracks that is
    /// FFV1 video. What the second reading tells is told in place of what `told` had before, by the
    /// Segment position of its element, which is counted from `data`. Nothing is told of when
    /// frames come. Room for the record is made for at most as many bytes as were read.
    ///
    /// The input begins again where `start` says, so its bytes from there on are those of the file.
    /// Any fault that is not told is the answer, as of `open_salvaged`; of the first reading that
    /// is a fault of Tracks other than their CRC-32, or of an element that can't be passed by its
    /// size.
    /// `NoTracks` if there are none. `offset` is then the number of bytes before the element that
    /// it ends at; no greater than 2^64 - 1. `Read` too if the input could not begin again, and
    /// then the offset is 0. `told` has room for sixteen. After a fault it has all that is told of
    /// the bytes that the second reading has read; nothing, if that was not begun.
    pub fn open_salvaged_again<R: AgainIn>(
        alloc: A,
        start: &R::Start,
        input: &mut R,
        offset: &mut u64,
        told: &mut ToldFaults<A>,
    ) -> Result<MatroskaReader<A>, FileFault>
        requires room { most_told ≤ vec_capacity told.old.faults }
        ensures answer { AnswersSalvaged (λ r. salvaged_kept (opened_at r) told.new.begun
            told.new.faults.items) (R.remaining input.old) (between (R.whole start.now)
            (R.remaining input.new) (R.failures input.old) (R.failures input.new)) result }
        ensures sound { IfOk result (λ r. r.fault ≡ None) }
        ensures own { IfErr result (λ f. is_opening_fault f ≡ true) }
        ensures room { IfOk result (λ r. RoomTwice (R.whole start.now) (R.remaining input.new) 0
            r.room) }
        ensures data { IfOk result (λ r. Known (R.whole start.now) (R.remaining input.new)
            (λ text rest. told.new.data ≡ offset_after 0 (data_at text))) }
        ensures offset { IfOk result (λ r. r.offset ≡ offset_after told.new.data told.new.begun) }
        ensures end { IfOk result EndsThere }
        ensures uncued { IfOk result (λ r. r.cued ≡ false) }
        ensures untimed { IfOk result (λ r. r.times ≡ times_begun 0) }
        ensures told { IfErr result (λ f. TellsLate (R.whole start.now) (R.remaining input.new)
            told.new.data told.new.faults.items) }
        ensures stopped { IfErr result (λ f. StopsLate (between (R.whole start.now)
            (R.remaining input.new) (R.failures input.old) (R.failures input.new)) f offset.new) }
    {
        let mut content = Vec::new(alloc);
        let mut config_record = Vec::new(alloc);
        let mut noted = Noted {
            offset: 0,
            tick: 0,
            other: None,
        };
        let read = salvage_twice(
            input,
            start,
            told,
            &mut content,
            &mut config_record,
            &mut noted,
        );
        *offset = noted.offset;
        let (segment, numbers, place) = read?;
        Ok(MatroskaReader::before_frames(
            segment,
            numbers,
            place,
            config_record,
            *offset,
            times_begun(0),
        ))
    }
}
