//! The beginning of a file: the header of EBML, and that of the Segment, before which Voids may
//! stand.

ghost use Rattle.std.specs.Prelude.{◌≡◌, ◌≤◌, ◌<◌, ◌^◌, ℕ, List, Option, IfOk, OnErr, OnOk};
ghost use Rattle.std.specs.Prelude.{length};
ghost use Rattle.std.specs.Vec.{vec_capacity};
ghost use Rattle.ffv1_wire.specs.Passage.{passage};
ghost use Rattle.ffv1_reads.specs.First.{bytes_with, passage_with};
ghost use Rattle.ffv1_reads.specs.Offsets.{ReadsCounted, ReadsOn};
ghost use Rattle.ffv1_reads.specs.Reads.{Answers};
ghost use Rattle.ffv1_reads.specs.Room.{HasRoom, RoomRead};
ghost use Rattle.ffv1_ebml.specs.Vints.{number_of};
ghost use Rattle.ffv1_matroska.specs.Opened.{ebml_read};
ghost use Rattle.ffv1_matroska.specs.Opening.{content_kept, header_in, ident_read};
ghost use Rattle.ffv1_matroska.specs.Offsets.{CountsOn, EntersFrom};
ghost use Rattle.ffv1_matroska.specs.Opening.{root_read, segment_after, segment_begun};
ghost use Rattle.ffv1_matroska.specs.Opening.{segment_entered, top_size, void_read};
ghost use Rattle.ffv1_matroska.specs.Sizes.{size_with};

use crate::idents::{DOC_TYPE, EBML, READ_VERSION, SEGMENT, TYPE_READ_VERSION};
use crate::place::Place;
use crate::track::content_at;
use ffv1_ebml::{Sum, judge, next_data, number, text};
use ffv1_reads::{FileFault, fill, pass, take, take_after};
use ffv1_wire::ByteIn;
use std::alloc::Allocator;

/// The most bytes of the header of EBML and of Tracks.
pub(crate) const LIMIT: u64 = ffv1_reads::LIMIT as u64;

/// The ID of a Void, which has one byte.
const VOID: u8 = crate::idents::VOID as u8;

/// The bytes that a Segment of unknown size counts as.
pub(crate) const OPEN: u64 = 72_057_594_037_927_935;

/// The number of at most four bytes, big end first.
fn number_of(bytes: &[u8]) -> u64
    requires { length bytes.now ≤ 4 }
    ensures value { result ≡ number_of bytes.now }
    ensures fits { result < 256 ^ length bytes.now }
{
    let mut number = 0u64;
    for byte in bytes {
        number = 256 * number + u64::from(*byte);
    }
    number
}

/// The size of so many bytes with this data, or None if all its bits are 1.
#[tactic(auto, unfolding(crate::specs::Sizes::size_with))]
fn size_with(len: u64, value: u64) -> Option<u64>
    ensures { result ≡ size_with len value }
{
    if len <= 8 {
        let all = 1u64 << (7 * len);
        if value < all && value + 1 == all {
            return None;
        }
    }
    Some(value)
}

/// Judges the header of EBML in memory.
///
/// `Checksum` if its CRC-32 differs. `NotMatroska` if its DocType is another one, or if a version
/// is above those that are read: 1 of EBML and 4 of Matroska. `Truncated` and `BadElement` if an
/// element that is looked at can't be read.
#[tactic(auto, unfolding(crate::specs::Opening::header_in))]
pub(crate) fn judge_header(content: &[u8]) -> Result<(), FileFault>
    ensures { result ≡ header_in content.now }
{
    judge(content)?;
    let kind = content_at(content, DOC_TYPE)?;
    if text(kind) != b"matroska".as_slice() {
        return Err(FileFault::NotMatroska);
    }
    let version = number(content_at(content, READ_VERSION)?, 1)?;
    if version > 1 {
        return Err(FileFault::NotMatroska);
    }
    let version = number(content_at(content, TYPE_READ_VERSION)?, 1)?;
    if version > 4 {
        return Err(FileFault::NotMatroska);
    }
    Ok(())
}

/// Four bytes that are this ID, of which the first may have been read. `NotMatroska` if they are
/// not.
#[tactic(auto, unfolding(crate::specs::Opening::ident_read))]
pub(crate) fn read_ident<R: ByteIn>(
    first: Option<u8>,
    input: &mut R,
    ident: u32,
) -> Result<(), FileFault>
    ensures { Answers (λ (_ : Unit {0}). tt) (ident_read ident)
        (passage_with first R.remaining R.failures input.old input.new) result }
{
    let mut bytes = [0u8; 4];
    take_after(first, input, &mut bytes)?;
    if number_of(&bytes) != u64::from(ident) {
        return Err(FileFault::NotMatroska);
    }
    Ok(())
}

/// A size, or None if it is unknown, whose bytes are counted. `BadElement` if it has more
/// than 8 bytes.
#[tactic(auto, unfolding(crate::specs::Opening::top_size))]
pub(crate) fn read_top_size<R: ByteIn>(
    input: &mut R,
    offset: &mut u64,
) -> Result<Option<u64>, FileFault>
    ensures answer { Answers (λ (s : Option ℕ). s) top_size
        (passage R.remaining R.failures input.old input.new) result }
    ensures counted { IfOk result (λ s. ReadsOn top_size (R.remaining input.old)
        (R.remaining input.new) s offset.old offset.new) }
{
    let mut none = Sum::Absent;
    let data = next_data(input, 8, &mut none)?;
    *offset = offset.saturating_add(8 - data.left);
    Ok(size_with(8 - data.left, data.value))
}

/// Reads content in place of what the vector has, which then has room as `ffv1_reads::fill` says.
///
/// `BadElement` if its size is unknown, `ChunkTooLong` if it is above 67108864 bytes, of
/// which no byte is read; then as `fill`.
#[tactic(auto, unfolding(crate::specs::Opening::content_kept))]
pub(crate) fn keep_content<R: ByteIn, A: Allocator>(
    input: &mut R,
    size: Option<u64>,
    content: &mut Vec<u8, A>,
) -> Result<(), FileFault>
    ensures answer { Answers (λ (_ : Unit {0}). content.new.items) (content_kept size)
        (passage R.remaining R.failures input.old input.new) result }
    ensures kept { HasRoom (vec_capacity content.old) (vec_capacity content.new)
        (length content.new.items) result }
{
    let Some(size) = size else {
        return Err(FileFault::BadElement);
    };
    if size > LIMIT {
        return Err(FileFault::ChunkTooLong);
    }
    fill(input, size as usize, content)
}

/// Reads the header of EBML, of which the first byte may have been read; it is kept in place of
/// what the vector has, whose room grows by at most as many bytes as are read.
///
/// `NotMatroska` if the file begins otherwise, then as `read_top_size`, `keep_content` and
/// `judge_header`. Its bytes are counted if there is no fault.
#[tactic(auto, unfolding(crate::specs::Opened::ebml_read))]
pub(crate) fn read_ebml<R: ByteIn, A: Allocator>(
    first: Option<u8>,
    input: &mut R,
    content: &mut Vec<u8, A>,
    offset: &mut u64,
) -> Result<(), FileFault>
    ensures answer { Answers (λ (_ : Unit {0}). tt) ebml_read
        (passage_with first R.remaining R.failures input.old input.new) result }
    ensures counted { IfOk result (λ u. ReadsOn ebml_read (bytes_with first (R.remaining input.old))
        (R.remaining input.new) u offset.old offset.new) }
    ensures kept { OnOk result (RoomRead (bytes_with first (R.remaining input.old))
        (R.remaining input.new) (vec_capacity content.old) (vec_capacity content.new)) }
{
    read_ident(first, input, EBML)?;
    *offset = offset.saturating_add(4);
    let size = read_top_size(input, offset)?;
    keep_content(input, size, content)?;
    judge_header(content.as_slice())?;
    *offset = offset.saturating_add(content.len() as u64);
    Ok(())
}

/// Passes a Void after its ID.
///
/// `BadElement` if its size is unknown or has more than 8 bytes, `Truncated` if the input ends
/// inside it, `Read` if a read failed. Its bytes are counted if there is no fault.
#[tactic(auto, unfolding(crate::specs::Opening::void_read))]
fn pass_void<R: ByteIn>(input: &mut R, offset: &mut u64) -> Result<(), FileFault>
    ensures answer { Answers (λ (_ : Unit {0}). tt) void_read
        (passage R.remaining R.failures input.old input.new) result }
    ensures counted { IfOk result (λ u. ReadsOn void_read (R.remaining input.old)
        (R.remaining input.new) u offset.old offset.new) }
{
    let Some(size) = read_top_size(input, offset)? else {
        return Err(FileFault::BadElement);
    };
    pass(input, size)?;
    *offset = offset.saturating_add(size);
    Ok(())
}

/// Reads the header of the Segment after the first byte of its ID: its size, or None if that is
/// unknown.
///
/// `NotMatroska` if that byte and the next three are another ID, then as `read_top_size`. The bytes
/// after the first are counted if there is no fault.
#[tactic(auto, unfolding(crate::specs::Opening::segment_after))]
fn read_segment<R: ByteIn>(
    first: u8,
    input: &mut R,
    offset: &mut u64,
) -> Result<Option<u64>, FileFault>
    ensures answer { Answers (λ (s : Option ℕ). s) (segment_after first)
        (passage R.remaining R.failures input.old input.new) result }
    ensures counted { IfOk result (λ s. ReadsOn (segment_after first) (R.remaining input.old)
        (R.remaining input.new) s offset.old offset.new) }
{
    let mut ident = [first, 0, 0, 0];
    take(input, &mut ident[1..])?;
    if number_of(&ident) != u64::from(SEGMENT) {
        return Err(FileFault::NotMatroska);
    }
    *offset = offset.saturating_add(3);
    read_top_size(input, offset)
}

/// Reads an element after the header of EBML: passes a Void, or reads the header of the Segment,
/// and answers its size. None after a Void.
///
/// `NotMatroska` if it is another element, then as `pass_void` and `read_segment`. Its bytes are
/// counted if there is no fault.
#[tactic(auto, unfolding(crate::specs::Opening::root_read))]
fn read_root<R: ByteIn>(input: &mut R, offset: &mut u64) -> Result<Option<Option<u64>>, FileFault>
    ensures answer { Answers (λ (s : Option (Option ℕ)). s) root_read
        (passage R.remaining R.failures input.old input.new) result }
    ensures counted { IfOk result (λ s. ReadsOn root_read (R.remaining input.old)
        (R.remaining input.new) s offset.old offset.new) }
    ensures kept { OnErr result (offset.new ≡ offset.old) }
{
    let mut first = [0u8; 1];
    take(input, &mut first)?;
    let mut after = offset.saturating_add(1);
    if first[0] == VOID {
        pass_void(input, &mut after)?;
        *offset = after;
        return Ok(None);
    }
    let size = read_segment(first[0], input, &mut after)?;
    *offset = after;
    Ok(Some(size))
}

/// The size of the Segment, or None if it is unknown. Its header comes next, or after Voids, which
/// are passed.
///
/// `NotMatroska` if another element comes before it, then as `read_root`. The bytes of the Voids
/// and of the header that were read whole are counted.
#[tactic(auto, unfolding(crate::specs::Opening::segment_entered))]
pub(crate) fn enter_segment<R: ByteIn>(
    input: &mut R,
    offset: &mut u64,
) -> Result<Option<u64>, FileFault>
    ensures answer { Answers (λ (s : Option ℕ). s) segment_entered
        (passage R.remaining R.failures input.old input.new) result }
    ensures from { EntersFrom (passage R.remaining R.failures input.old input.new) result
        offset.old offset.new }
    ensures counted { IfOk result (λ s. (count : ℕ) × ReadsCounted segment_entered
        (R.remaining input.old) (R.remaining input.new) s count
        × CountsOn offset.old offset.new count) }
{
    for _element in 0..u64::MAX {
        if let Some(size) = read_root(input, offset)? {
            return Ok(size);
        }
    }
    Err(FileFault::NotMatroska)
}

/// The place at the beginning of a Segment.
pub(crate) fn begin_segment(size: Option<u64>) -> Place
    ensures { result ≡ segment_begun size }
{
    match size {
        Some(size) => Place {
            segment: size,
            endless: false,
            loose: false,
            cluster: 0,
            group: 0,
            sum: Sum::Absent,
        },
        None => Place {
            segment: OPEN,
            endless: true,
            loose: false,
            cluster: 0,
            group: 0,
            sum: Sum::Absent,
        },
    }
}
