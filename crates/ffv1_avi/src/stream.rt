//! A stream, by the chunks of its list.

ghost use Rattle.std.specs.Prelude.{◌≡◌, ◌+◌, ◌*◌, ◌<◌, ◌≤◌, ℕ, List, Option, None, Some, length};
ghost use Rattle.std.specs.Prelude.{Bool, OnOk};
ghost use Rattle.std.specs.Vec.{vec_capacity};
ghost use Rattle.ffv1_avi.specs.Streams.{is_format, no_video, record_end};
ghost use Rattle.ffv1_wire.specs.Passage.{at_rest, passage};
ghost use Rattle.ffv1_reads.specs.Reads.{Answers};
ghost use Rattle.ffv1_reads.specs.Room.{HasRoom, RoomRead};
ghost use Rattle.ffv1_avi.specs.Streams.{format_in, format_read, rates_in, rates_read};
ghost use Rattle.ffv1_avi.specs.Files.{other_read};
ghost use Rattle.ffv1_avi.specs.Streams.{begins_video, stream_judged, stream_read, visit_field};
ghost use Rattle.ffv1_avi.specs.Internal.Views.{came_with, format_with, found_with, known_next};
ghost use Rattle.ffv1_avi.specs.Internal.Views.{known_with};

use crate::chunk::{Entry, is_name, next_entry, padded};
use crate::place::Extent;
use byteorder::{ByteOrder, LittleEndian};
use ffv1_reads::{FileFault, LIMIT, fill, is_ffv1, pass, take};
use ffv1_wire::ByteIn;
use std::alloc::Allocator;

/// What a head says beside its record.
#[derive(Clone, Copy)]
pub(crate) struct Sizes {
    pub(crate) width: u32,
    pub(crate) height: u32,
    pub(crate) rate: u32,
    pub(crate) scale: u32,
}

/// What is known of a stream so far: whether its header came, and what rate and scale it says;
/// whether its format came, and what width and height that says.
#[derive(Clone, Copy)]
pub(crate) struct Fields {
    rates: Option<Option<(u32, u32)>>,
    format: Option<Option<(u32, u32)>>,
}

/// The rate and the scale of a stream's header of a given size, if it is one of video.
fn read_rates<R: ByteIn>(input: &mut R, size: u32) -> Result<Option<(u32, u32)>, FileFault>
    ensures { Answers (λ (r : Option (ℕ × ℕ)). r) (rates_in size)
        (passage R.remaining R.failures input.old input.new) result }
{
    if size < 56 {
        pass(input, padded(size))?;
        return Ok(None);
    }
    let mut head = [0u8; 56];
    take(input, &mut head)?;
    pass(input, padded(size) - 56)?;
    if !is_name(&head[..4], b"vids") {
        return Ok(None);
    }
    let rate = LittleEndian::read_u32(&head[24..]);
    let scale = LittleEndian::read_u32(&head[20..]);
    Ok(Some((rate, scale)))
}

/// Where the record ends in a format of a given size, of which the first number is this one.
fn record_end(extent: Extent, says: u32, size: u32) -> u32
    requires { 40 ≤ size }
    ensures value { result ≡ record_end extent says size }
    ensures least { 40 ≤ result }
    ensures most { result ≤ size }
{
    match extent {
        Extent::FirstMovi => size,
        Extent::EveryRiff => if 40 < says && says < size { says } else { size },
    }
}

/// Whether this name of a format is FFV1; if every RIFF is read, each letter may be small.
fn is_format(extent: Extent, name: &[u8]) -> bool
    ensures { result ≡ is_format extent name.now }
{
    match extent {
        Extent::FirstMovi => is_name(name, b"FFV1"),
        Extent::EveryRiff => is_ffv1(name),
    }
}

/// The width and the height of a stream's format of a given size, and its record in place of what
/// the vector has, if it is FFV1. The vector has room as `ffv1_reads::fill` says.
fn read_format<R: ByteIn, A: Allocator>(
    input: &mut R,
    extent: Extent,
    size: u32,
    config: &mut Vec<u8, A>,
) -> Result<Option<(u32, u32)>, FileFault>
    ensures answer { Answers (λ (f : Option (ℕ × ℕ)). format_with f config.new.items)
        (format_in extent size) (passage R.remaining R.failures input.old input.new) result }
    ensures room { HasRoom (vec_capacity config.old) (vec_capacity config.new)
        (length config.new.items) result }
    ensures grown { OnOk result (RoomRead (R.remaining input.old) (R.remaining input.new)
        (vec_capacity config.old) (vec_capacity config.new)) }
{
    if size < 40 {
        pass(input, padded(size))?;
        return Ok(None);
    }
    let mut head = [0u8; 40];
    take(input, &mut head)?;
    if !is_format(extent, &head[16..20]) {
        pass(input, padded(size) - 40)?;
        return Ok(None);
    }
    let end = record_end(extent, LittleEndian::read_u32(&head), size);
    fill(input, end as usize - 40, config)?;
    pass(input, padded(size) - u64::from(end))?;
    let width = LittleEndian::read_u32(&head[4..]);
    let height = LittleEndian::read_u32(&head[8..]);
    Ok(Some((width, height)))
}

/// A header of a stream: the first one counts.
fn visit_rates<R: ByteIn>(input: &mut R, fields: Fields, size: u32) -> Result<Fields, FileFault>
    ensures { (bytes : List ℕ) →
        Answers (λ (k : Fields). known_next k bytes)
        (rates_read (known_with fields bytes) size fields.rates)
        (passage R.remaining R.failures input.old input.new) result }
{
    let mut fields = fields;
    if fields.rates.is_some() {
        pass(input, padded(size))?;
        return Ok(fields);
    }
    fields.rates = Some(read_rates(input, size)?);
    Ok(fields)
}

/// A format of a stream: the first one counts, and is not read if it is too long. The vector's
/// room grows by at most as many bytes as are read.
fn visit_format<R: ByteIn, A: Allocator>(
    input: &mut R,
    extent: Extent,
    fields: Fields,
    size: u32,
    config: &mut Vec<u8, A>,
) -> Result<Fields, FileFault>
    ensures answer { Answers (λ (k : Fields). known_next k config.new.items)
        (format_read extent (known_with fields config.old.items) size
        (came_with fields.format config.old.items))
        (passage R.remaining R.failures input.old input.new) result }
    ensures grown { OnOk result (RoomRead (R.remaining input.old) (R.remaining input.new)
        (vec_capacity config.old) (vec_capacity config.new)) }
{
    let mut fields = fields;
    if fields.format.is_some() {
        pass(input, padded(size))?;
        return Ok(fields);
    }
    if size > LIMIT {
        return Err(FileFault::ChunkTooLong);
    }
    fields.format = Some(read_format(input, extent, size, config)?);
    Ok(fields)
}

/// A chunk of a stream's list.
#[tactic(auto, unfolding(crate::specs::Streams::visit_field))]
fn visit_field<R: ByteIn, A: Allocator>(
    input: &mut R,
    extent: Extent,
    fields: Fields,
    entry: Entry,
    config: &mut Vec<u8, A>,
) -> Result<Fields, FileFault>
    ensures answer { Answers (λ (k : Fields). known_next k config.new.items)
        (visit_field extent (known_with fields config.old.items) entry)
        (passage R.remaining R.failures input.old input.new) result }
    ensures grown { OnOk result (RoomRead (R.remaining input.old) (R.remaining input.new)
        (vec_capacity config.old) (vec_capacity config.new)) }
{
    if is_name(&entry.name, b"strh") {
        return visit_rates(input, fields, entry.size);
    }
    if is_name(&entry.name, b"strf") {
        return visit_format(input, extent, fields, entry.size, config);
    }
    pass(input, padded(entry.size))?;
    Ok(fields)
}

/// What a stream says that is no FFV1 video.
fn no_video(extent: Extent) -> Result<Option<Sizes>, FileFault>
    ensures { (bytes : List ℕ) (text : Option (List ℕ)) (failures : ℕ) →
        Answers (λ (s : Option Sizes). found_with s bytes) (no_video extent)
        (at_rest text failures) result }
{
    match extent {
        Extent::FirstMovi => Err(FileFault::NoFfv1),
        Extent::EveryRiff => Ok(None),
    }
}

/// What a stream says, at its end: None if it is no FFV1 video.
fn judged(extent: Extent, fields: Fields) -> Result<Option<Sizes>, FileFault>
    ensures { (bytes : List ℕ) (text : Option (List ℕ)) (failures : ℕ) →
        Answers (λ (s : Option Sizes). found_with s bytes)
        (stream_judged extent fields.rates (came_with fields.format bytes))
        (at_rest text failures) result }
{
    let (Some(Some((rate, scale))), Some(Some((width, height)))) = (fields.rates, fields.format)
    else {
        return no_video(extent);
    };
    if (rate == 0) != (scale == 0) {
        return Err(FileFault::NotAvi);
    }
    Ok(Some(Sizes {
        width,
        height,
        rate,
        scale,
    }))
}

/// A stream's list with so many bytes left after its own name; its record in place of what the
/// vector has. None if it is no FFV1 video.
#[tactic(auto, unfolding(crate::specs::Streams::stream_read))]
pub(crate) fn read_stream<R: ByteIn, A: Allocator>(
    input: &mut R,
    extent: Extent,
    room: u32,
    config: &mut Vec<u8, A>,
) -> Result<Option<Sizes>, FileFault>
    ensures answer { Answers (λ (s : Option Sizes). found_with s config.new.items)
        (stream_read extent room) (passage R.remaining R.failures input.old input.new) result }
    ensures grown { OnOk result (RoomRead (R.remaining input.old) (R.remaining input.new)
        (vec_capacity config.old) (vec_capacity config.new)) }
{
    let mut fields = Fields {
        rates: None,
        format: None,
    };
    let mut left = u64::from(room);
    while let Some(entry) = next_entry(input, left)? {
        fields = visit_field(input, extent, fields, entry, config)?;
        left = entry.left;
    }
    judged(extent, fields)
}

/// Whether the first 100 bytes of a stream's list, after its own name, are those of FFV1 video: a
/// header of video, of 56 or 64 bytes, and then a format of FFV1, the letters of which may be
/// small.
#[tactic(auto, unfolding(crate::specs::Streams::begins_video))]
fn begins_video(bytes: &[u8]) -> bool
    requires { length bytes.now ≡ 100 }
    ensures { result ≡ begins_video bytes.now }
{
    if !(is_name(&bytes[..4], b"strh") && is_name(&bytes[8..12], b"vids")) {
        return false;
    }
    let size = LittleEndian::read_u32(&bytes[4..]);
    if size == 56 {
        return is_name(&bytes[64..68], b"strf") && is_ffv1(&bytes[88..92]);
    }
    if size == 64 {
        return is_name(&bytes[72..76], b"strf") && is_ffv1(&bytes[96..100]);
    }
    false
}

/// Passes the list of a further stream, of a given size, after its own name, with its padding.
/// Answers whether it begins as FFV1 video; one that is shorter than 104 bytes does not.
#[tactic(auto, unfolding(crate::specs::Files::other_read))]
pub(crate) fn read_other<R: ByteIn>(input: &mut R, size: u32) -> Result<bool, FileFault>
    requires { 4 ≤ size }
    ensures { Answers (λ (video : Bool). video) (other_read size)
        (passage R.remaining R.failures input.old input.new) result }
{
    if size < 104 {
        pass(input, padded(size) - 4)?;
        return Ok(false);
    }
    let mut bytes = [0u8; 100];
    take(input, &mut bytes)?;
    pass(input, padded(size) - 104)?;
    Ok(begins_video(&bytes))
}
