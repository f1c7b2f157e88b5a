//! Elements before the frames of a file that may be damaged. A CRC-32 that is not the sum, and an
//! element that may not stand in a Segment, are told; the content is taken as it is, and the
//! element is passed.

ghost use Rattle.std.specs.Prelude.{◌≡◌, ◌≤◌, ℕ, List, [], Option, Some, None, IfErr, IfOk, IfSome};
ghost use Rattle.std.specs.Prelude.{OnOk, length, true};
ghost use Rattle.std.specs.Vec.{vec_capacity};
ghost use Rattle.ffv1_wire.specs.Passage.{passage};
ghost use Rattle.ffv1_ebml.specs.Contents.{content_told, first_part};
ghost use Rattle.ffv1_ebml.specs.Elements.{content_passed};
ghost use Rattle.ffv1_reads.specs.Ends.{AnswersOrFaults};
ghost use Rattle.ffv1_reads.specs.First.{bytes_with, passage_with};
ghost use Rattle.ffv1_reads.specs.Offsets.{ReadsOn, offset_after};
ghost use Rattle.ffv1_reads.specs.Known.{Known};
ghost use Rattle.ffv1_reads.specs.Reads.{Answers, Refused};
ghost use Rattle.ffv1_reads.specs.Room.{RoomRead};
ghost use Rattle.ffv1_reads.specs.declared.fault.FileFault.{FileFault};
ghost use Rattle.ffv1_reads.specs.declared.fault.FileFault.TheVariants as fault;
ghost use Rattle.ffv1_matroska.specs.Internal.{begun_kept, found_kept, opened_kept, salvaged_kept};
ghost use Rattle.ffv1_matroska.specs.Internal.{track_kept};
ghost use Rattle.ffv1_matroska.specs.Offsets.{BeginsFrom, OpensFrom};
ghost use Rattle.ffv1_matroska.specs.Opened.{begin_read, ebml_read, element_passed, open_read};
ghost use Rattle.ffv1_matroska.specs.Opened.{tracks_or_passed, tracks_read};
ghost use Rattle.ffv1_matroska.specs.Opening.{content_kept};
ghost use Rattle.ffv1_matroska.specs.Places.{amount, ended};
ghost use Rattle.ffv1_matroska.specs.Readers.{HasEnded};
ghost use Rattle.ffv1_matroska.specs.SalvageStops.{FileStops, SalvageStopsFrom};
ghost use Rattle.ffv1_matroska.specs.SalvageTold.{StopsWith, TellsRead, ToldBy, ebml_kept};
ghost use Rattle.ffv1_matroska.specs.SalvageTold.{element_fault, kept_fault, place_fault};
ghost use Rattle.ffv1_matroska.specs.SalvageTold.{told_from};
ghost use Rattle.ffv1_matroska.specs.Salvaged.{Begun, NeverBegins, behind_part, content_salvaged};
ghost use Rattle.ffv1_matroska.specs.Salvaged.{data_at, ebml_salvaged, element_salvaged};
ghost use Rattle.ffv1_matroska.specs.Salvaged.{may_be_told, most_told, salvage_from};
ghost use Rattle.ffv1_matroska.specs.Salvaged.{salvage_read, sound_part};
ghost use Rattle.ffv1_matroska.specs.Salvaged.{sum_fault, tracks_or_salvaged, tracks_salvaged};
ghost use Rattle.ffv1_matroska.specs.Scales.{scale_from, scale_with, tick_in};
ghost use Rattle.ffv1_matroska.specs.Segments.{is_section};
ghost use Rattle.ffv1_matroska.specs.Tracks.{Track};
ghost use Rattle.ffv1_matroska.specs.declared.place.Place.{Place};
ghost use Rattle.ffv1_matroska.specs.declared.track.Numbers.{Numbers};

use crate::beginning::{in_cluster, keep_tracks, push_bytes};
use crate::idents::{CLUSTER, EBML, TRACKS};
use crate::info::pass_scaled;
use crate::opening::{
    begin_segment, enter_segment, judge_header, keep_content, read_ident, read_top_size,
};
use crate::place::{Place, ended, passed, segment_at};
use crate::segment::{is_filler, is_section, next_header};
use crate::told::{ToldFault, ToldFaults, tell, tell_pending};
use crate::track::{Numbers, read_track};
use ffv1_ebml::{Element, first_child, judge};
use ffv1_reads::{FileFault, pass};
use ffv1_wire::ByteIn;
use std::alloc::Allocator;

/// What comes after the first element of some content; all of it if there is none that can be read.
fn behind_part(content: &[u8]) -> &[u8]
    ensures value { result.now ≡ behind_part content.now (first_part content.now) }
    ensures short { length result.now ≤ length content.now }
{
    match first_child(content) {
        Ok(Some(child)) => child.rest,
        Ok(None) => content,
        Err(_) => content,
    }
}

/// Whether the CRC-32 of some content is not the sum: then that is the fault.
#[tactic(auto, unfolding(crate::specs::Salvaged::sum_fault))]
fn sum_fault(content: &[u8]) -> Option<FileFault>
    ensures value { result ≡ sum_fault content.now }
    ensures told { IfSome result (λ f. may_be_told f ≡ true) }
{
    match judge(content) {
        Ok(()) => None,
        Err(fault) => match fault {
            FileFault::Checksum => Some(fault),
            _ => None,
        },
    }
}

/// Content without the CRC-32 that it begins with, if that is not the sum of what comes after it.
#[tactic(auto, unfolding(crate::specs::Salvaged::sound_part))]
fn sound_part(content: &[u8]) -> &[u8]
    ensures value { result.now ≡ sound_part content.now }
    ensures short { length result.now ≤ length content.now }
{
    match judge(content) {
        Ok(()) => content,
        Err(fault) => match fault {
            FileFault::Checksum => behind_part(content),
            _ => content,
        },
    }
}

/// What is known on the way up to where the frames begin.
#[derive(Drop)]
pub(crate) struct Noted {
    /// How many bytes of the file come before the frames, or before the element that is refused.
    pub(crate) offset: u64,
    /// How many nanoseconds a tick has, by the elements of which nothing was told; 0 if that is not
    /// known.
    pub(crate) tick: u64,
    /// The other fault of the element that was refused, if it has one that is told.
    pub(crate) other: Option<FileFault>,
}

/// Reads the header of EBML, of which the first byte may have been read, in place of what the
/// vector has, as `read_ebml` does, and answers `Checksum` if its CRC-32 is not the sum. Its bytes
/// are counted if there is no fault; if there is one, `other` is that of the CRC-32, if that is not
/// the sum. If that is none, plain reading is refused alike.
#[tactic(auto, unfolding(crate::specs::Salvaged::ebml_salvaged))]
pub(crate) fn salvage_ebml<R: ByteIn, A: Allocator>(
    first: Option<u8>,
    input: &mut R,
    content: &mut Vec<u8, A>,
    offset: &mut u64,
    other: &mut Option<FileFault>,
) -> Result<Option<FileFault>, FileFault>
    ensures answer { Answers (λ (f : Option FileFault). f) ebml_salvaged
        (passage_with first R.remaining R.failures input.old input.new) result }
    ensures counted { IfOk result (λ f. ReadsOn ebml_salvaged
        (bytes_with first (R.remaining input.old)) (R.remaining input.new) f offset.old
        offset.new) }
    ensures told { IfOk result (λ o. IfSome o (λ f. may_be_told f ≡ true)) }
    ensures other { IfErr result (λ f. StopsWith ebml_salvaged
        (λ text. kept_fault (ebml_kept text)) (bytes_with first (R.remaining input.old))
        (R.remaining input.new) other.new) }
    ensures plain { IfErr result (λ f. other.new ≡ None → Refused ebml_read
        (bytes_with first (R.remaining input.old)) (R.remaining input.new)
        (R.failures input.old) (R.failures input.new) f) }
{
    *other = None;
    read_ident(first, input, EBML)?;
    *offset = offset.saturating_add(4);
    let size = read_top_size(input, offset)?;
    keep_content(input, size, content)?;
    let sound = sound_part(content.as_slice());
    let fault = sum_fault(content.as_slice());
    *other = fault;
    judge_header(sound)?;
    *offset = offset.saturating_add(content.len() as u64);
    Ok(fault)
}

/// Reads Tracks as `read_tracks` does, and answers `Checksum` too if their CRC-32 is not the sum.
/// If there is a fault, `other` is that; if that is none, plain reading is refused alike.
#[tactic(auto, unfolding(crate::specs::Salvaged::tracks_salvaged))]
pub(crate) fn salvage_tracks<R: ByteIn, A: Allocator>(
    input: &mut R,
    size: Option<u64>,
    content: &mut Vec<u8, A>,
    config: &mut Vec<u8, A>,
    other: &mut Option<FileFault>,
) -> Result<(Numbers, Option<FileFault>), FileFault>
    ensures answer { Answers (λ (p : Numbers × Option FileFault).
        (track_kept p.0 config.new.items, p.1)) (tracks_salvaged size)
        (passage R.remaining R.failures input.old input.new) result }
    ensures grown { OnOk result (RoomRead (R.remaining input.old) (R.remaining input.new)
        (vec_capacity config.old) (vec_capacity config.new)) }
    ensures told { IfOk result (λ p. IfSome p.1 (λ f. may_be_told f ≡ true)) }
    ensures other { IfErr result (λ f. StopsWith (tracks_salvaged size)
        (λ text. kept_fault (content_kept size text)) (R.remaining input.old)
        (R.remaining input.new) other.new) }
    ensures plain { IfErr result (λ f. other.new ≡ None → Refused (tracks_read size)
        (R.remaining input.old) (R.remaining input.new) (R.failures input.old)
        (R.failures input.new) f) }
{
    *other = None;
    keep_tracks(input, size, content, config)?;
    let sound = sound_part(content.as_slice());
    let fault = sum_fault(content.as_slice());
    *other = fault;
    let track = read_track(sound)?;
    push_bytes(config, track.config_record);
    let numbers = Numbers {
        numbers: track.numbers,
        width: track.width,
        height: track.height,
        rate: track.rate,
        scale: track.scale,
        colour: track.colour,
    };
    Ok((numbers, fault))
}

/// Passes so many bytes of content of such an element, as `pass_scaled` does, and answers
/// `Checksum` if its CRC-32 is not the sum; else `tick` is as that says.
#[tactic(auto, unfolding(crate::specs::Salvaged::content_salvaged))]
fn salvage_content<R: ByteIn>(
    input: &mut R,
    ident: u32,
    size: u64,
    tick: &mut u64,
) -> Result<Option<FileFault>, FileFault>
    requires section { is_section ident ≡ true }
    ensures answer { Answers (λ (f : Option FileFault). f) (content_salvaged size)
        (passage R.remaining R.failures input.old input.new) result }
    ensures told { IfOk result (λ o. IfSome o (λ f. may_be_told f ≡ true)) }
    ensures plain { IfErr result (λ f. Refused (content_passed size) (R.remaining input.old)
        (R.remaining input.new) (R.failures input.old) (R.failures input.new) f) }
    ensures tick { IfOk result (λ o. o ≡ None → Known (R.remaining input.old)
        (R.remaining input.new) (λ text rest. tick.new ≡ scale_with ident (Some size) tick.old
        text)) }
{
    match pass_scaled(input, ident, Some(size), tick) {
        Ok(()) => Ok(None),
        Err(fault) => match fault {
            FileFault::Checksum => Ok(Some(fault)),
            _ => Err(fault),
        },
    }
}

/// Passes an element of the Segment, after its header, and answers its fault: `Checksum` if its
/// CRC-32 is not the sum, `BadElement` if it may not stand there. If it is refused, `other` is
/// that; if that is none, plain reading is refused alike. After Info of which nothing is told
/// `tick` is how many nanoseconds a tick has by it.
///
/// `BadElement` if its size is unknown, and then as `pass_content`.
#[tactic(auto, unfolding(crate::specs::Salvaged::element_salvaged))]
pub(crate) fn salvage_element<R: ByteIn>(
    input: &mut R,
    ident: u32,
    size: Option<u64>,
    noted: &mut Noted,
) -> Result<Option<FileFault>, FileFault>
    ensures answer { Answers (λ (f : Option FileFault). f) (element_salvaged ident size)
        (passage R.remaining R.failures input.old input.new) result }
    ensures told { IfOk result (λ o. IfSome o (λ f. may_be_told f ≡ true)) }
    ensures other { noted.new.other ≡ place_fault ident size }
    ensures plain { IfErr result (λ f. noted.new.other ≡ None → Refused (element_passed ident size)
        (R.remaining input.old) (R.remaining input.new) (R.failures input.old)
        (R.failures input.new) f) }
    ensures tick { IfOk result (λ o. o ≡ None → Known (R.remaining input.old)
        (R.remaining input.new) (λ text rest. noted.new.tick ≡ scale_with ident size noted.old.tick
        text)) }
{
    noted.other = None;
    let Some(size) = size else {
        return Err(FileFault::BadElement);
    };
    if is_section(ident) {
        return salvage_content(input, ident, size, &mut noted.tick);
    }
    if is_filler(ident) {
        pass(input, size)?;
        return Ok(None);
    }
    noted.other = Some(FileFault::BadElement);
    pass(input, size)?;
    Ok(Some(FileFault::BadElement))
}

/// Reads Tracks, if there were none yet, or passes an element, and answers its fault; if it is
/// refused with another one, `other` is its fault. What plain reading says is as `salvage_tracks`
/// and `salvage_element` say.
fn salvage_visit<R: ByteIn, A: Allocator>(
    input: &mut R,
    found: Option<Numbers>,
    element: Element,
    content: &mut Vec<u8, A>,
    config: &mut Vec<u8, A>,
    noted: &mut Noted,
) -> Result<(Option<Numbers>, Option<FileFault>), FileFault>
    ensures answer { Answers (λ (p : Option Numbers × Option FileFault).
        (found_kept p.0 config.new.items, p.1))
        (tracks_or_salvaged (found_kept found config.old.items) element.ident element.size)
        (passage R.remaining R.failures input.old input.new) result }
    ensures grown { OnOk result (RoomRead (R.remaining input.old) (R.remaining input.new)
        (vec_capacity config.old) (vec_capacity config.new)) }
    ensures told { IfOk result (λ p. IfSome p.1 (λ f. may_be_told f ≡ true)) }
    ensures other { IfErr result (λ f. StopsWith (tracks_or_salvaged
        (found_kept found config.old.items) element.ident element.size)
        (element_fault (found_kept found config.old.items) element.ident element.size)
        (R.remaining input.old) (R.remaining input.new) noted.new.other) }
    ensures plain { IfErr result (λ f. noted.new.other ≡ None → Refused (tracks_or_passed
        (found_kept found config.old.items) element.ident element.size) (R.remaining input.old)
        (R.remaining input.new) (R.failures input.old) (R.failures input.new) f) }
    ensures tick { IfOk result (λ p. p.1 ≡ None → Known (R.remaining input.old)
        (R.remaining input.new) (λ text rest. noted.new.tick
        ≡ scale_with element.ident element.size noted.old.tick text)) }
{
    if found.is_none() && element.ident == TRACKS {
        let (numbers, fault) = salvage_tracks(
            input,
            element.size,
            content,
            config,
            &mut noted.other,
        )?;
        return Ok((Some(numbers), fault));
    }
    let fault = salvage_element(input, element.ident, element.size, noted)?;
    Ok((found, fault))
}

/// Reads the elements of a Segment from its beginning, `here`, up to where its frames begin: what
/// its track says, with the record in place of what the vector `config` has, and the place. `here`
/// is then where it was read up to, or the place before the element that ended it; and the faults
/// are told behind those before. If an element is refused, its other fault is told, too. If nothing
/// is told, all is as `read_beginning` says.
///
/// `NoTracks` if no Tracks come before the first Cluster, or the end of the Segment; faults of the
/// header of an element as of `next_header`, then as `salvage_tracks`, `salvage_element`, `tell`.
fn salvage_segment<R: ByteIn, A: Allocator>(
    input: &mut R,
    here: &mut Place,
    noted: &mut Noted,
    faults: &mut Vec<ToldFault, A>,
    content: &mut Vec<u8, A>,
    config: &mut Vec<u8, A>,
) -> Result<(Numbers, Place), FileFault>
    requires told { most_told ≤ vec_capacity faults.old }
    ensures answer { AnswersOrFaults fault.NoTracks (λ (b : Begun). b.place ≡ ended)
        (λ (p : Numbers × Place). begun_kept p config.new.items here.new faults.new.items)
        (salvage_from here.old faults.old.items)
        (passage R.remaining R.failures input.old input.new) result }
    ensures grown { OnOk result (RoomRead (R.remaining input.old) (R.remaining input.new)
        (vec_capacity config.old) (vec_capacity config.new)) }
    ensures within { amount here.new ≤ amount here.old }
    ensures told { IfErr result (λ f. ToldBy (told_from here.old faults.old.items)
        (R.remaining input.old) (R.remaining input.new) faults.new.items) }
    ensures stopped { IfErr result (λ f. SalvageStopsFrom here.old (R.remaining input.old)
        (R.remaining input.new) f here.new) }
    ensures held { most_told ≤ vec_capacity faults.new }
    ensures sooner { faults.new.items ≡ [] → faults.old.items ≡ [] }
    ensures opens { faults.new.items ≡ [] → AnswersOrFaults fault.NoTracks
        (λ (p : Track × Place). p.1 ≡ ended)
        (λ (p : Numbers × Place). (track_kept p.0 config.new.items, p.1)) (begin_read here.old)
        (passage R.remaining R.failures input.old input.new) result }
    ensures from { faults.new.items ≡ [] → BeginsFrom None here.old
        (passage R.remaining R.failures input.old input.new) config.new.items result here.new }
    ensures tick { faults.new.items ≡ [] → OnOk result (Known (R.remaining input.old)
        (R.remaining input.new) (λ text rest. scale_from noted.old.tick here.old text
        ≡ noted.new.tick)) }
{
    let begin = *here;
    let mut found = None;
    while let Some(element) = next_header(input, *here)? {
        let after = segment_at(*here, false, element.left);
        if element.ident == CLUSTER {
            let Some(numbers) = found else {
                return Err(FileFault::NoTracks);
            };
            *here = in_cluster(after, element.size);
            return Ok((numbers, *here));
        }
        let position = Some(passed(begin, *here));
        let (now, fault) = match salvage_visit(input, found, element, content, config, noted) {
            Ok(visited) => visited,
            Err(fault) => {
                tell_pending(faults, noted.other, position);
                return Err(fault);
            }
        };
        tell(faults, fault, position)?;
        found = now;
        *here = after;
    }
    let Some(numbers) = found else {
        return Err(FileFault::NoTracks);
    };
    Ok((numbers, ended()))
}

/// Reads a file that may be damaged, of which the first byte may have been read, up to where its
/// frames begin: the size of its Segment, what its track says, with the record in place of what the
/// vector `config` has, and the place. What is told is then told in place of what was before, and
/// what was told before a fault. If nothing is told, all is as `read_opening` says.
#[tactic(auto, unfolding(crate::specs::Salvaged::salvage_read))]
pub(crate) fn salvage_opening<R: ByteIn, A: Allocator>(
    first: Option<u8>,
    input: &mut R,
    told: &mut ToldFaults<A>,
    content: &mut Vec<u8, A>,
    config: &mut Vec<u8, A>,
    noted: &mut Noted,
) -> Result<(Option<u64>, Numbers, Place), FileFault>
    requires room { most_told ≤ vec_capacity told.old.faults }
    ensures answer { AnswersOrFaults fault.NoTracks NeverBegins
        (λ (p : Option ℕ × Numbers × Place). salvaged_kept (opened_kept p config.new.items)
        told.new.begun told.new.faults.items) salvage_read
        (passage_with first R.remaining R.failures input.old input.new) result }
    ensures grown { OnOk result (RoomRead (bytes_with first (R.remaining input.old))
        (R.remaining input.new) (vec_capacity config.old) (vec_capacity config.new)) }
    ensures data { OnOk result (Known (bytes_with first (R.remaining input.old))
        (R.remaining input.new) (λ text rest. told.new.data ≡ offset_after 0 (data_at text))) }
    ensures offset { OnOk result (noted.new.offset ≡ offset_after told.new.data told.new.begun) }
    ensures held { most_told ≤ vec_capacity told.new.faults }
    ensures told { IfErr result (λ f. TellsRead (bytes_with first (R.remaining input.old))
        (R.remaining input.new) told.new.data told.new.faults.items) }
    ensures stopped { IfErr result (λ f. FileStops (bytes_with first (R.remaining input.old))
        (R.remaining input.new) f noted.new.offset) }
    ensures opens { told.new.faults.items ≡ [] → AnswersOrFaults fault.NoTracks HasEnded
        (λ (p : Option ℕ × Numbers × Place). opened_kept p config.new.items) open_read
        (passage_with first R.remaining R.failures input.old input.new) result }
    ensures from { told.new.faults.items ≡ [] → OpensFrom
        (passage_with first R.remaining R.failures input.old input.new) config.new.items result
        noted.new.offset }
    ensures tick { told.new.faults.items ≡ [] → OnOk result (Known
        (bytes_with first (R.remaining input.old)) (R.remaining input.new)
        (λ text rest. noted.new.tick ≡ tick_in text)) }
{
    told.faults.clear();
    told.data = 0;
    let mut data = 0;
    noted.offset = 0;
    noted.tick = 0;
    let fault = match salvage_ebml(first, input, content, &mut data, &mut noted.other) {
        Ok(fault) => fault,
        Err(fault) => {
            tell_pending(&mut told.faults, noted.other, None);
            return Err(fault);
        }
    };
    tell(&mut told.faults, fault, None)?;
    noted.offset = data;
    let size = enter_segment(input, &mut noted.offset)?;
    told.data = noted.offset;
    let begin = begin_segment(size);
    let mut here = begin;
    let read = salvage_segment(input, &mut here, noted, &mut told.faults, content, config);
    told.begun = passed(begin, here);
    noted.offset = told.data.saturating_add(told.begun);
    let (numbers, place) = read?;
    Ok((size, numbers, place))
}
