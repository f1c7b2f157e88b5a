//! A file up to where its frames begin.

ghost use Rattle.std.specs.Prelude.{◌≡◌, ◌≤◌, ◌<◌, ◌+◌, ◌++◌, [], ℕ, List, Option, OnOk, length};
ghost use Rattle.std.specs.Vec.{vec_capacity};
ghost use Rattle.ffv1_wire.specs.Passage.{passage};
ghost use Rattle.ffv1_reads.specs.Ends.{AnswersOrFaults};
ghost use Rattle.ffv1_reads.specs.First.{bytes_with, passage_with};
ghost use Rattle.ffv1_reads.specs.Known.{Known};
ghost use Rattle.ffv1_reads.specs.Reads.{Answers, Kept, wanted};
ghost use Rattle.ffv1_reads.specs.Room.{HasRoom, RoomRead};
ghost use Rattle.ffv1_reads.specs.declared.fault.FileFault.TheVariants as fault;
ghost use Rattle.ffv1_matroska.specs.Internal.{found_kept, opened_kept, track_kept};
ghost use Rattle.ffv1_matroska.specs.Offsets.{BeginsFrom, OpensFrom};
ghost use Rattle.ffv1_matroska.specs.Opened.{begin_from, element_passed, in_cluster, open_read};
ghost use Rattle.ffv1_matroska.specs.Opened.{tracks_or_passed, tracks_read};
ghost use Rattle.ffv1_matroska.specs.Opening.{content_kept};
ghost use Rattle.ffv1_matroska.specs.Places.{ended};
ghost use Rattle.ffv1_matroska.specs.Readers.{HasEnded};
ghost use Rattle.ffv1_matroska.specs.Scales.{scale_from, scale_with, tick_in};
ghost use Rattle.ffv1_matroska.specs.Tracks.{Track};
ghost use Rattle.ffv1_matroska.specs.declared.place.Place.{Place};
ghost use Rattle.ffv1_matroska.specs.declared.track.Numbers.{Numbers};

use crate::idents::{CLUSTER, TRACKS};
use crate::info::pass_scaled;
use crate::opening::{LIMIT, begin_segment, enter_segment, read_ebml};
use crate::place::{Place, cluster_entered, ended, passed, segment_at};
use crate::segment::{is_filler, is_section, next_header};
use crate::track::{Numbers, read_track};
use ffv1_ebml::{Element, pass_content};
use ffv1_reads::{FileFault, append, fill, pass};
use ffv1_wire::ByteIn;
use std::alloc::Allocator;

/// Reads so many bytes, at least one, in place of what the vector has, and makes room for as many
/// in another vector, which is emptied, before the last of them is read. Both have room as
/// `ffv1_reads::fill` says, for the bytes that were read.
fn fill_with_room<R: ByteIn, A: Allocator>(
    input: &mut R,
    size: usize,
    content: &mut Vec<u8, A>,
    room: &mut Vec<u8, A>,
) -> Result<(), FileFault>
    requires { 0 < size }
    ensures answer { Answers (λ (_ : Unit {0}). content.new.items) (wanted Kept size)
        (passage R.remaining R.failures input.old input.new) result }
    ensures long { OnOk result (length content.new.items ≡ size) }
    ensures room { OnOk result (size ≤ vec_capacity room.new) }
    ensures empty { OnOk result (room.new.items ≡ []) }
    ensures kept { HasRoom (vec_capacity content.old) (vec_capacity content.new)
        (length content.new.items) result }
    ensures grown { HasRoom (vec_capacity room.old) (vec_capacity room.new)
        (length content.new.items) result }
{
    fill(input, size - 1, content)?;
    room.clear();
    room.reserve_exact(size)?;
    append(input, 1, content)?;
    Ok(())
}

/// Reads the content of Tracks in place of what the vector has, and makes room for a record as
/// long as that in another vector, which is emptied. Both have room as `ffv1_reads::fill` says, for
/// the bytes that were read.
///
/// `BadElement` if the size is unknown. `ChunkTooLong` if it is above 67108864 bytes, of which no
/// byte is read. `Truncated` if the input ends before that, `Read`, `OutOfMemory`.
#[tactic(auto, unfolding(crate::specs::Opening::content_kept))]
pub(crate) fn keep_tracks<R: ByteIn, A: Allocator>(
    input: &mut R,
    size: Option<u64>,
    content: &mut Vec<u8, A>,
    room: &mut Vec<u8, A>,
) -> Result<(), FileFault>
    ensures answer { Answers (λ (_ : Unit {0}). content.new.items) (content_kept size)
        (passage R.remaining R.failures input.old input.new) result }
    ensures room { OnOk result (length content.new.items ≤ vec_capacity room.new) }
    ensures empty { OnOk result (room.new.items ≡ []) }
    ensures kept { HasRoom (vec_capacity content.old) (vec_capacity content.new)
        (length content.new.items) result }
    ensures grown { HasRoom (vec_capacity room.old) (vec_capacity room.new)
        (length content.new.items) result }
{
    let Some(size) = size else {
        return Err(FileFault::BadElement);
    };
    if size > LIMIT {
        return Err(FileFault::ChunkTooLong);
    }
    if size == 0 {
        content.clear();
        room.clear();
        return Ok(());
    }
    fill_with_room(input, size as usize, content, room)?;
    Ok(())
}

/// Appends bytes, for which there is room.
pub(crate) fn push_bytes<A: Allocator>(config: &mut Vec<u8, A>, bytes: &[u8])
    requires { length config.old.items + length bytes.now ≤ vec_capacity config.old }
    ensures items { config.new.items ≡ config.old.items ++ bytes.now }
    ensures capacity { vec_capacity config.new ≡ vec_capacity config.old }
{
    for byte in bytes {
        config.push_reserved(*byte);
    }
}

/// Reads Tracks: what their first track of FFV1 video says, with its record in place of what the
/// vector `config` has. Memory is taken before the last byte of Tracks is read: for the record room
/// as `ffv1_reads::fill` says, for the bytes of Tracks that were read.
///
/// Faults as of `keep_tracks` and `read_track`, of which the latter come after all of Tracks.
#[tactic(auto, unfolding(crate::specs::Opened::tracks_read))]
pub(crate) fn read_tracks<R: ByteIn, A: Allocator>(
    input: &mut R,
    size: Option<u64>,
    content: &mut Vec<u8, A>,
    config: &mut Vec<u8, A>,
) -> Result<Numbers, FileFault>
    ensures answer { Answers (λ (n : Numbers). track_kept n config.new.items) (tracks_read size)
        (passage R.remaining R.failures input.old input.new) result }
    ensures room { HasRoom (vec_capacity config.old) (vec_capacity config.new)
        (length content.new.items) result }
    ensures grown { OnOk result (RoomRead (R.remaining input.old) (R.remaining input.new)
        (vec_capacity config.old) (vec_capacity config.new)) }
    ensures kept { OnOk result (RoomRead (R.remaining input.old) (R.remaining input.new)
        (vec_capacity content.old) (vec_capacity content.new)) }
{
    keep_tracks(input, size, content, config)?;
    let track = read_track(content.as_slice())?;
    push_bytes(config, track.config_record);
    Ok(Numbers {
        numbers: track.numbers,
        width: track.width,
        height: track.height,
        rate: track.rate,
        scale: track.scale,
        colour: track.colour,
    })
}

/// Passes an element of the Segment that holds no frames, after its header.
///
/// `BadElement` if its size is unknown or it may not stand there, and then as `pass_content`.
#[tactic(auto, unfolding(crate::specs::Opened::element_passed))]
pub(crate) fn pass_element<R: ByteIn>(
    input: &mut R,
    ident: u32,
    size: Option<u64>,
) -> Result<(), FileFault>
    ensures { Answers (λ (_ : Unit {0}). tt) (element_passed ident size)
        (passage R.remaining R.failures input.old input.new) result }
{
    let Some(size) = size else {
        return Err(FileFault::BadElement);
    };
    if is_section(ident) {
        return pass_content(input, size);
    }
    if is_filler(ident) {
        return pass(input, size);
    }
    Err(FileFault::BadElement)
}

/// Reads Tracks, if there were none yet, or passes an element; of Info as `pass_scaled` does.
fn visit<R: ByteIn, A: Allocator>(
    input: &mut R,
    found: Option<Numbers>,
    element: Element,
    scale: &mut u64,
    content: &mut Vec<u8, A>,
    config: &mut Vec<u8, A>,
) -> Result<Option<Numbers>, FileFault>
    ensures answer { Answers (λ (n : Option Numbers). found_kept n config.new.items)
        (tracks_or_passed (found_kept found config.old.items) element.ident element.size)
        (passage R.remaining R.failures input.old input.new) result }
    ensures grown { OnOk result (RoomRead (R.remaining input.old) (R.remaining input.new)
        (vec_capacity config.old) (vec_capacity config.new)) }
    ensures kept { OnOk result (RoomRead (R.remaining input.old) (R.remaining input.new)
        (vec_capacity content.old) (vec_capacity content.new)) }
    ensures scale { OnOk result (Known (R.remaining input.old) (R.remaining input.new)
        (λ text rest. scale.new ≡ scale_with element.ident element.size scale.old text)) }
{
    if found.is_none() && element.ident == TRACKS {
        let numbers = read_tracks(input, element.size, content, config)?;
        return Ok(Some(numbers));
    }
    pass_scaled(input, element.ident, element.size, scale)?;
    Ok(found)
}

/// The place after the header of a Cluster, in that.
pub(crate) fn in_cluster(place: Place, size: Option<u64>) -> Place
    ensures { result ≡ in_cluster place size }
{
    match size {
        None => segment_at(place, true, place.segment),
        Some(size) => cluster_entered(place, size),
    }
}

/// Reads the elements of a Segment from a position on, `here`, up to where its frames begin: what
/// its track says, with the record in place of what the vector `config` has, and the place. If the
/// track is `known`, with that record, Tracks are passed. `scale` is how many nanoseconds a tick
/// has, and changes with each Info.
///
/// `NoTracks` if it is not known and no Tracks come before the first Cluster, or the end of the
/// Segment; faults of the header of an element as of `next_header`, then as `read_tracks` and
/// `pass_element`. `here` is then the place before the element that was refused, or where no more
/// elements were read.
pub(crate) fn read_beginning<R: ByteIn, A: Allocator>(
    input: &mut R,
    known: Option<Numbers>,
    here: &mut Place,
    scale: &mut u64,
    content: &mut Vec<u8, A>,
    config: &mut Vec<u8, A>,
) -> Result<(Numbers, Place), FileFault>
    ensures answer { AnswersOrFaults fault.NoTracks (λ (p : Track × Place). p.1 ≡ ended)
        (λ (p : Numbers × Place). (track_kept p.0 config.new.items, p.1))
        (begin_from (found_kept known config.old.items) here.old)
        (passage R.remaining R.failures input.old input.new) result }
    ensures grown { OnOk result (RoomRead (R.remaining input.old) (R.remaining input.new)
        (vec_capacity config.old) (vec_capacity config.new)) }
    ensures kept { OnOk result (RoomRead (R.remaining input.old) (R.remaining input.new)
        (vec_capacity content.old) (vec_capacity content.new)) }
    ensures from { BeginsFrom (found_kept known config.old.items) here.old
        (passage R.remaining R.failures input.old input.new) config.new.items result here.new }
    ensures scale { OnOk result (Known (R.remaining input.old) (R.remaining input.new)
        (λ text rest. scale_from scale.old here.old text ≡ scale.new)) }
{
    let mut found = known;
    while let Some(element) = next_header(input, *here)? {
        let after = segment_at(*here, false, element.left);
        if element.ident == CLUSTER {
            let Some(numbers) = found else {
                return Err(FileFault::NoTracks);
            };
            *here = in_cluster(after, element.size);
            return Ok((numbers, *here));
        }
        found = visit(input, found, element, scale, content, config)?;
        *here = after;
    }
    let Some(numbers) = found else {
        return Err(FileFault::NoTracks);
    };
    Ok((numbers, ended()))
}

/// Reads a file, whose first byte may have been read, up to where its frames begin: the size of its
/// Segment, what its track says, with the record in place of what the vector `config` has, and the
/// place; and `tick`, how many nanoseconds a tick has, or 0 if that is not known. The room of both
/// vectors grows by at most as many bytes as are read.
#[tactic(auto, unfolding(crate::specs::Opened::open_read))]
pub(crate) fn read_opening<R: ByteIn, A: Allocator>(
    first: Option<u8>,
    input: &mut R,
    content: &mut Vec<u8, A>,
    config: &mut Vec<u8, A>,
    offset: &mut u64,
    tick: &mut u64,
) -> Result<(Option<u64>, Numbers, Place), FileFault>
    ensures answer { AnswersOrFaults fault.NoTracks HasEnded
        (λ (p : Option ℕ × Numbers × Place). opened_kept p config.new.items) open_read
        (passage_with first R.remaining R.failures input.old input.new) result }
    ensures grown { OnOk result (RoomRead (bytes_with first (R.remaining input.old))
        (R.remaining input.new) (vec_capacity config.old) (vec_capacity config.new)) }
    ensures kept { OnOk result (RoomRead (bytes_with first (R.remaining input.old))
        (R.remaining input.new) (vec_capacity content.old) (vec_capacity content.new)) }
    ensures from { OpensFrom (passage_with first R.remaining R.failures input.old input.new)
        config.new.items result offset.new }
    ensures tick { OnOk result (Known (bytes_with first (R.remaining input.old))
        (R.remaining input.new) (λ text rest. tick.new ≡ tick_in text)) }
{
    let mut after = 0;
    *offset = 0;
    *tick = 0;
    read_ebml(first, input, content, &mut after)?;
    *offset = after;
    let size = enter_segment(input, offset)?;
    let begin = begin_segment(size);
    let mut here = begin;
    let read = read_beginning(input, None, &mut here, tick, content, config);
    *offset = offset.saturating_add(passed(begin, here));
    let (numbers, place) = read?;
    Ok((size, numbers, place))
}
