//! A file up to its first movi.

ghost use Rattle.std.specs.Prelude.{◌≡◌, ◌+◌, ◌<◌, ◌≤◌, ℕ, List, Option, None, Some, codes, true};
ghost use Rattle.std.specs.Prelude.{IfOk, OnOk};
ghost use Rattle.std.specs.Vec.{vec_capacity};
ghost use Rattle.ffv1_avi.specs.Files.{extended_read, extended_visited, header_list, header_read};
ghost use Rattle.ffv1_avi.specs.Files.{has_form, movi_reached, open_read, owed};
ghost use Rattle.ffv1_avi.specs.Files.{sizeless_visited};
ghost use Rattle.ffv1_avi.specs.Files.{stream_came, stream_known, stream_visited};
ghost use Rattle.ffv1_avi.specs.Files.{others_read, top_others, top_read, with_other};
ghost use Rattle.ffv1_avi.specs.Files.{total_read};
ghost use Rattle.ffv1_avi.specs.Files.{visit_extended, visit_header, visit_top};
ghost use Rattle.ffv1_reads.specs.First.{bytes_with, passage_with};
ghost use Rattle.ffv1_reads.specs.Head.{Head};
ghost use Rattle.ffv1_avi.specs.Internal.Offsets.{OpensFrom, TopFrom};
ghost use Rattle.ffv1_avi.specs.Places.{first_open, first_place};
ghost use Rattle.ffv1_wire.specs.Passage.{at_rest, passage};
ghost use Rattle.ffv1_reads.specs.Reads.{Answers, Read, taken};
ghost use Rattle.ffv1_reads.specs.Room.{RoomRead};
ghost use Rattle.ffv1_avi.specs.Walk.{is_name};
ghost use Rattle.ffv1_avi.specs.Internal.Views.{found_with, head_with, headers_next, headers_with};
ghost use Rattle.ffv1_avi.specs.Internal.Views.{top_with};
ghost use Rattle.ffv1_avi.specs.declared.place.Names.TheVariants.{Closed};
ghost use Rattle.ffv1_avi.specs.declared.place.Place.{Place};

use crate::chunk::{Entry, is_name, next_entry, next_in_riff, padded};
use crate::place::{Extent, Names, Open, Place, has_form, place_in, room_in};
use crate::stream::{Sizes, read_other, read_stream};
use byteorder::{ByteOrder, LittleEndian};
use ffv1_reads::{FileFault, pass, take, take_after};
use ffv1_wire::ByteIn;
use std::alloc::Allocator;

/// What is known before the first movi: how many streams came that do not count, what the one that
/// does says, how many frames the file has, how many streams came in all, up to 100, and how many
/// after the one that counts begin as FFV1 video.
#[derive(Clone, Copy)]
pub(crate) struct Found {
    pub(crate) passed: u8,
    pub(crate) sizes: Option<Sizes>,
    pub(crate) frames: Option<u32>,
    pub(crate) streams: u8,
    pub(crate) others: u64,
}

/// A list's own name.
pub(crate) fn own_name<R: ByteIn>(input: &mut R) -> Result<[u8; 4], FileFault>
    ensures { Answers (λ (name : List ℕ). name) (taken 4)
        (passage R.remaining R.failures input.old input.new) result }
{
    let mut name = [0u8; 4];
    take(input, &mut name)?;
    Ok(name)
}

/// What is known with a stream that was read.
fn stream_found(found: Found, sizes: Option<Sizes>) -> Found
    requires none { found.sizes ≡ None }
    requires few { found.passed < 100 }
    ensures { (bytes : List ℕ) →
        headers_with result bytes
        ≡ stream_known (headers_with found bytes) (found_with sizes bytes) }
{
    let mut found = found;
    if sizes.is_none() {
        found.passed += 1;
    }
    found.sizes = sizes;
    found
}

/// What is known when a stream came. The streams are counted if every RIFF is read.
fn stream_came(extent: Extent, found: Found) -> Found
    ensures { (bytes : List ℕ) →
        headers_with result bytes ≡ stream_came extent (headers_with found bytes) }
{
    let mut found = found;
    if extent == Extent::EveryRiff {
        found.streams = found.streams.saturating_add(1).min(100);
    }
    found
}

/// What is known with a further stream. A count of 64 bits stays at its greatest value.
fn with_other(found: Found, video: bool) -> Found
    ensures { (bytes : List ℕ) →
        headers_with result bytes ≡ with_other (headers_with found bytes) video }
{
    let mut found = found;
    if video {
        found.others = found.others.saturating_add(1);
    }
    found
}

/// A stream's list, of a given size, after its own name, with its padding.
fn visit_stream<R: ByteIn, A: Allocator>(
    input: &mut R,
    extent: Extent,
    found: Found,
    size: u32,
    config: &mut Vec<u8, A>,
) -> Result<Found, FileFault>
    requires { 4 ≤ size }
    ensures answer { Answers (λ (f : Found). headers_next f config.new.items)
        (stream_visited extent (headers_with found config.old.items) size
        (found_with found.sizes config.old.items))
        (passage R.remaining R.failures input.old input.new) result }
    ensures grown { OnOk result (RoomRead (R.remaining input.old) (R.remaining input.new)
        (vec_capacity config.old) (vec_capacity config.new)) }
{
    if found.sizes.is_some() {
        match extent {
            Extent::FirstMovi => {
                pass(input, padded(size) - 4)?;
                return Ok(found);
            }
            Extent::EveryRiff => {
                let video = read_other(input, size)?;
                return Ok(with_other(found, video));
            }
        }
    }
    if found.passed >= 100 {
        pass(input, padded(size) - 4)?;
        return Ok(found);
    }
    let sizes = read_stream(input, extent, size - 4, config)?;
    pass(input, u64::from(size % 2))?;
    Ok(stream_found(found, sizes))
}

/// A chunk dmlh: the first number of the first one that has it is how many frames the file has.
fn read_total<R: ByteIn>(
    input: &mut R,
    frames: Option<u32>,
    size: u32,
) -> Result<Option<u32>, FileFault>
    ensures { Answers (λ (f : Option ℕ). (f, None)) (total_read size frames)
        (passage R.remaining R.failures input.old input.new) result }
{
    if frames.is_some() {
        pass(input, padded(size))?;
        return Ok(frames);
    }
    if size < 4 {
        pass(input, padded(size))?;
        return Ok(None);
    }
    let mut bytes = [0u8; 4];
    take(input, &mut bytes)?;
    pass(input, padded(size) - 4)?;
    Ok(Some(LittleEndian::read_u32(&bytes)))
}

/// A chunk of the list odml.
#[tactic(auto, unfolding(crate::specs::Files::visit_extended))]
fn visit_extended<R: ByteIn>(
    input: &mut R,
    frames: Option<u32>,
    entry: Entry,
) -> Result<Option<u32>, FileFault>
    ensures { Answers (λ (f : Option ℕ). (f, None)) (visit_extended frames entry)
        (passage R.remaining R.failures input.old input.new) result }
{
    if is_name(&entry.name, b"dmlh") {
        return read_total(input, frames, entry.size);
    }
    pass(input, padded(entry.size))?;
    Ok(frames)
}

/// The list odml of a given size after its own name, with its padding.
#[tactic(auto, unfolding(crate::specs::Files::extended_read))]
fn read_extended<R: ByteIn>(
    input: &mut R,
    frames: Option<u32>,
    size: u32,
) -> Result<Option<u32>, FileFault>
    requires { 4 ≤ size }
    ensures { Answers (λ (f : Option ℕ). f) (extended_read frames size)
        (passage R.remaining R.failures input.old input.new) result }
{
    let mut frames = frames;
    let mut left = u64::from(size - 4);
    while let Some(entry) = next_entry(input, left)? {
        frames = visit_extended(input, frames, entry)?;
        left = entry.left;
    }
    pass(input, u64::from(size % 2))?;
    Ok(frames)
}

/// The list odml of a given size after its own name, which is looked at if every RIFF is read.
fn extend<R: ByteIn>(
    input: &mut R,
    extent: Extent,
    found: Found,
    size: u32,
) -> Result<Found, FileFault>
    requires { 4 ≤ size }
    ensures { (bytes : List ℕ) → Answers (λ (f : Found). headers_next f bytes)
        (extended_visited extent (headers_with found bytes) size)
        (passage R.remaining R.failures input.old input.new) result }
{
    let mut found = found;
    match extent {
        Extent::FirstMovi => pass(input, padded(size) - 4)?,
        Extent::EveryRiff => found.frames = read_extended(input, found.frames, size)?,
    }
    Ok(found)
}

/// A list of hdrl of a given size, by its own name.
fn visit_header_list<R: ByteIn, A: Allocator>(
    input: &mut R,
    extent: Extent,
    found: Found,
    size: u32,
    config: &mut Vec<u8, A>,
) -> Result<Found, FileFault>
    requires { 4 ≤ size }
    ensures answer { Answers (λ (f : Found). headers_next f config.new.items)
        (header_list extent (headers_with found config.old.items) size)
        (passage R.remaining R.failures input.old input.new) result }
    ensures grown { OnOk result (RoomRead (R.remaining input.old) (R.remaining input.new)
        (vec_capacity config.old) (vec_capacity config.new)) }
{
    let own = own_name(input)?;
    if is_name(&own, b"strl") {
        return visit_stream(input, extent, stream_came(extent, found), size, config);
    }
    if is_name(&own, b"odml") {
        return extend(input, extent, found, size);
    }
    pass(input, padded(size) - 4)?;
    Ok(found)
}

/// A chunk of the list hdrl.
#[tactic(auto, unfolding(crate::specs::Files::visit_header))]
fn visit_header<R: ByteIn, A: Allocator>(
    input: &mut R,
    extent: Extent,
    found: Found,
    entry: Entry,
    config: &mut Vec<u8, A>,
) -> Result<Found, FileFault>
    requires { is_name entry.name (codes "LIST") ≡ true → 4 ≤ entry.size }
    ensures answer { Answers (λ (f : Found). headers_next f config.new.items)
        (visit_header extent (headers_with found config.old.items) entry)
        (passage R.remaining R.failures input.old input.new) result }
    ensures grown { OnOk result (RoomRead (R.remaining input.old) (R.remaining input.new)
        (vec_capacity config.old) (vec_capacity config.new)) }
{
    if is_name(&entry.name, b"LIST") {
        return visit_header_list(input, extent, found, entry.size, config);
    }
    pass(input, padded(entry.size))?;
    Ok(found)
}

/// The list hdrl of a given size after its own name, with its padding.
#[tactic(auto, unfolding(crate::specs::Files::header_read))]
fn read_header<R: ByteIn, A: Allocator>(
    input: &mut R,
    extent: Extent,
    found: Found,
    size: u32,
    config: &mut Vec<u8, A>,
) -> Result<Found, FileFault>
    requires { 4 ≤ size }
    ensures answer { Answers (λ (f : Found). headers_with f config.new.items)
        (header_read extent (headers_with found config.old.items) size)
        (passage R.remaining R.failures input.old input.new) result }
    ensures grown { OnOk result (RoomRead (R.remaining input.old) (R.remaining input.new)
        (vec_capacity config.old) (vec_capacity config.new)) }
{
    let mut found = found;
    let mut left = u64::from(size - 4);
    while let Some(entry) = next_entry(input, left)? {
        found = visit_header(input, extent, found, entry, config)?;
        left = entry.left;
    }
    pass(input, u64::from(size % 2))?;
    Ok(found)
}

/// Where a chunk of RIFF leads: on, or to movi, with what the stream says that counts.
#[derive(Clone, Copy)]
pub(crate) enum Top {
    On(Found),
    Movi(Found, Sizes, Place),
}

/// The first movi, of so many bytes, if RIFF has so many after it.
fn first_place(extent: Extent, riff: u64, movi: u64, found: Found) -> Place
    ensures { result ≡ first_place extent riff movi (Closed found.passed found.streams)
        (owed found.frames) }
{
    match extent {
        Extent::FirstMovi => Place {
            input: 0,
            riff: 0,
            movi,
            names: Names::Any,
            owed: 0,
            open_in: Open::Sized,
        },
        Extent::EveryRiff => Place {
            input: u64::MAX,
            riff,
            movi,
            names: Names::Closed(found.passed, found.streams),
            owed: found.frames.unwrap_or(0),
            open_in: Open::Sized,
        },
    }
}

/// The first movi, if its size is not known.
fn first_open(found: Found) -> Place
    ensures { result ≡ first_open (Closed found.passed found.streams) (owed found.frames) }
{
    Place {
        input: u64::MAX,
        riff: 0,
        movi: 0,
        names: Names::Closed(found.passed, found.streams),
        owed: found.frames.unwrap_or(0),
        open_in: Open::OpenMovi,
    }
}

/// The first movi, which wants a head before it.
fn reach_movi(extent: Extent, found: Found, entry: Entry) -> Result<Top, FileFault>
    requires { 4 ≤ entry.size }
    ensures { (bytes : List ℕ) (text : Option (List ℕ)) (failures : ℕ) →
        Answers (λ (t : Top). top_with t bytes)
        (movi_reached extent (headers_with found bytes) entry.left entry.size
        (found_with found.sizes bytes)) (at_rest text failures) result }
{
    let Some(sizes) = found.sizes else {
        return Err(FileFault::NoFfv1);
    };
    let place = first_place(extent, entry.left, u64::from(entry.size - 4), found);
    Ok(Top::Movi(found, sizes, place))
}

/// A list of RIFF whose size is not known, by its own name: `NotAvi` if it is no movi; that wants a
/// head before it.
fn reach_open(found: Found, own: &[u8]) -> Result<Top, FileFault>
    ensures { (bytes : List ℕ) (text : Option (List ℕ)) (failures : ℕ) →
        Answers (λ (t : Top). top_with t bytes)
        (sizeless_visited (headers_with found bytes) own.now) (at_rest text failures) result }
{
    if !is_name(own, b"movi") {
        return Err(FileFault::NotAvi);
    }
    let Some(sizes) = found.sizes else {
        return Err(FileFault::NoFfv1);
    };
    Ok(Top::Movi(found, sizes, first_open(found)))
}

/// A chunk of RIFF, before its first movi.
#[tactic(auto, unfolding(crate::specs::Files::visit_top))]
fn visit_top<R: ByteIn, A: Allocator>(
    input: &mut R,
    extent: Extent,
    found: Found,
    entry: Entry,
    config: &mut Vec<u8, A>,
) -> Result<Top, FileFault>
    requires { is_name entry.name (codes "LIST") ≡ true → (entry.size ≡ 0 → ⊥) →
        4 ≤ entry.size }
    ensures answer { Answers (λ (t : Top). top_with t config.new.items)
        (visit_top extent (headers_with found config.old.items) entry)
        (passage R.remaining R.failures input.old input.new) result }
    ensures grown { OnOk result (RoomRead (R.remaining input.old) (R.remaining input.new)
        (vec_capacity config.old) (vec_capacity config.new)) }
{
    if !is_name(&entry.name, b"LIST") {
        pass(input, padded(entry.size))?;
        return Ok(Top::On(found));
    }
    let own = own_name(input)?;
    if entry.size == 0 {
        return reach_open(found, &own);
    }
    if is_name(&own, b"hdrl") {
        let found = read_header(input, extent, found, entry.size, config)?;
        return Ok(Top::On(found));
    }
    if is_name(&own, b"movi") {
        return reach_movi(extent, found, entry);
    }
    pass(input, padded(entry.size) - 4)?;
    Ok(Top::On(found))
}

/// The chunks of RIFF, of this size, up to the first movi. Those that were read whole are counted,
/// and of movi its header and its own name. `others` is then how many streams after the one that
/// counts begin as FFV1 video.
#[tactic(auto, unfolding(crate::specs::Files::top_read))]
fn read_top<R: ByteIn, A: Allocator>(
    input: &mut R,
    extent: Extent,
    size: u32,
    offset: &mut u64,
    others: &mut u64,
    config: &mut Vec<u8, A>,
) -> Result<(Sizes, Place), FileFault>
    requires { has_form extent size ≡ true }
    ensures answer { Answers (λ (p : Sizes × Place). (head_with p.0 config.new.items, p.1))
        (top_read extent size) (passage R.remaining R.failures input.old input.new) result }
    ensures grown { OnOk result (RoomRead (R.remaining input.old) (R.remaining input.new)
        (vec_capacity config.old) (vec_capacity config.new)) }
    ensures from { TopFrom extent size (passage R.remaining R.failures input.old input.new)
        config.new.items result offset.old offset.new }
    ensures others { IfOk result (λ p. Read (top_others extent size) (R.remaining input.old)
        (R.remaining input.new) others.new) }
{
    let mut found = Found {
        passed: 0,
        sizes: None,
        frames: None,
        streams: 0,
        others: 0,
    };
    let mut left = room_in(extent, size);
    while let Some(entry) = next_in_riff(input, extent, left)? {
        match visit_top(input, extent, found, entry, config)? {
            Top::On(more) => found = more,
            Top::Movi(known, sizes, place) => {
                *offset = offset.saturating_add(12);
                *others = known.others;
                return Ok((sizes, place_in(extent, size, place)));
            }
        }
        *offset = offset.saturating_add(8 + padded(entry.size));
        left = entry.left;
    }
    Err(FileFault::NotAvi)
}

/// A file, whose first byte may have been read, up to the first movi: its sizes, its record in
/// place of what the vector has, and where movi stands. The vector's room grows by at most as many
/// bytes as are read. `offset` is then the number of bytes before the frames, or before the chunk
/// at fault; `others` how many streams after the one that counts begin as FFV1 video.
#[tactic(auto, unfolding(crate::specs::Files::open_read))]
pub(crate) fn read_opening<R: ByteIn, A: Allocator>(
    first: Option<u8>,
    input: &mut R,
    extent: Extent,
    offset: &mut u64,
    others: &mut u64,
    config: &mut Vec<u8, A>,
) -> Result<(Sizes, Place), FileFault>
    ensures answer { Answers (λ (p : Sizes × Place). (head_with p.0 config.new.items, p.1))
        (open_read extent) (passage_with first R.remaining R.failures input.old input.new) result }
    ensures grown { OnOk result (RoomRead (bytes_with first (R.remaining input.old))
        (R.remaining input.new) (vec_capacity config.old) (vec_capacity config.new)) }
    ensures from { OpensFrom extent (passage_with first R.remaining R.failures input.old input.new)
        config.new.items result offset.new }
    ensures others { IfOk result (λ p. Read (others_read extent)
        (bytes_with first (R.remaining input.old)) (R.remaining input.new) others.new) }
{
    let mut head = [0u8; 12];
    *offset = 0;
    take_after(first, input, &mut head)?;
    let size = LittleEndian::read_u32(&head[4..]);
    if !is_name(&head[..4], b"RIFF") || !is_name(&head[8..], b"AVI ") || !has_form(extent, size) {
        return Err(FileFault::NotAvi);
    }
    *offset = 12;
    read_top(input, extent, size, offset, others, config)
}
