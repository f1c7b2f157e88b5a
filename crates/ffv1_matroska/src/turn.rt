//! Elements of a Segment in damaged bytes. A fault of theirs is a value, and the calls answer
//! `Truncated` if the input ends inside an element, and `Read` if a read failed.

ghost use Rattle.std.specs.Prelude.{◌≡◌, ◌+◌};
ghost use Rattle.ffv1_wire.specs.Passage.{passage};
ghost use Rattle.ffv1_reads.specs.Reads.{Answers};
ghost use Rattle.ffv1_matroska.specs.Turns.{block_turn, child_turn, cluster_headed, cluster_turn};
ghost use Rattle.ffv1_matroska.specs.Turns.{crc_turn, fields_turn, first_turn, frame_turn};
ghost use Rattle.ffv1_matroska.specs.Turns.{group_headed, group_turn, grouped_turn, lost};
ghost use Rattle.ffv1_matroska.specs.Turns.{numbered_turn, passed_turn, segment_left};
ghost use Rattle.ffv1_matroska.specs.Places.{cluster_at, segment_at};
ghost use Rattle.ffv1_ebml.specs.declared.sum.Sum.TheVariants.{Absent};
ghost use Rattle.std.specs.Prelude.{false};
ghost use Rattle.ffv1_matroska.specs.declared.course.Turn.{Turn};

use crate::course::{Pending, Turn};
use crate::idents::{BLOCK, BLOCK_GROUP, CRC_32, SIMPLE_BLOCK};
use crate::place::{Place, cluster_at, group_at, segment_at, summed_at};
use crate::segment::{OUTSIDE, is_beside};
use crate::track::{TrackNumbers, is_unknown};
use ffv1_ebml::{Header, Sum, data_of, pass_summed, take_summed, try_header, try_vint};
use ffv1_reads::{FRAME_LIMIT, FileFault, take};
use ffv1_wire::ByteIn;

/// The bytes that the Segment has left from a place on, with so many before that; no more than 2^64
/// - 1.
fn segment_left(more: u64, place: Place) -> u64
    ensures { result ≡ segment_left more place }
{
    place
        .segment
        .saturating_add(place.cluster)
        .saturating_add(place.group)
        .saturating_add(more)
}

/// A fault after which the next Cluster is sought, so many bytes before a place.
pub(crate) fn lost(fault: FileFault, more: u64, place: Place) -> Turn
    ensures { result ≡ lost fault more place }
{
    Turn::Told {
        fault,
        pending: Pending::Seeking,
        place: segment_at(place, false, segment_left(more, place)),
    }
}

/// Passes so many bytes.
#[tactic(auto, unfolding(crate::specs::Turns::passed_turn))]
pub(crate) fn pass_turn<R: ByteIn>(
    input: &mut R,
    size: u64,
    pending: Pending,
    place: Place,
) -> Result<Turn, FileFault>
    ensures { Answers (λ (t : Turn). t) (passed_turn size pending place)
        (passage R.remaining R.failures input.old input.new) result }
{
    let mut sum = place.sum;
    pass_summed(input, size, &mut sum)?;
    Ok(Turn::On {
        pending,
        place: summed_at(place, sum),
    })
}

/// A frame of so many bytes, after these flags of its block.
fn judge_frame(flags: u8, size: u64, place: Place) -> Turn
    ensures { result ≡ frame_turn flags size place }
{
    let fault = if flags / 2 % 4 != 0 {
        FileFault::Laced
    } else if size > FRAME_LIMIT as u64 {
        FileFault::ChunkTooLong
    } else if size == 0 {
        FileFault::EmptyFrame
    } else {
        return Turn::Frame { size, place };
    };
    Turn::Told {
        fault,
        pending: Pending::Passing { count: size },
        place,
    }
}

/// What comes after the track number of a block: two bytes of time, and flags.
#[tactic(auto, unfolding(crate::specs::Turns::fields_turn))]
fn read_fields<R: ByteIn>(input: &mut R, left: u64, place: Place) -> Result<Turn, FileFault>
    ensures { Answers (λ (t : Turn). t) (fields_turn left place)
        (passage R.remaining R.failures input.old input.new) result }
{
    if left < 3 {
        return Ok(lost(FileFault::Truncated, left, place));
    }
    let mut sum = place.sum;
    let mut fields = [0u8; 3];
    take_summed(input, &mut fields, &mut sum)?;
    Ok(judge_frame(fields[2], left - 3, summed_at(place, sum)))
}

/// A block after its track number, of so many bytes.
#[tactic(auto, unfolding(crate::specs::Turns::numbered_turn))]
fn read_numbered<R: ByteIn>(
    input: &mut R,
    track: TrackNumbers,
    number: u64,
    left: u64,
    place: Place,
) -> Result<Turn, FileFault>
    ensures { Answers (λ (t : Turn). t) (numbered_turn track number left place)
        (passage R.remaining R.failures input.old input.new) result }
{
    if number == track.number {
        return read_fields(input, left, place);
    }
    if is_unknown(track.known, number) {
        return Ok(Turn::Told {
            fault: FileFault::BadElement,
            pending: Pending::Passing { count: left },
            place,
        });
    }
    pass_turn(input, left, Pending::Nothing, place)
}

/// A block of so many bytes before a place, up to its frame.
#[tactic(auto, unfolding(crate::specs::Turns::block_turn))]
fn read_block<R: ByteIn>(
    input: &mut R,
    track: TrackNumbers,
    size: u64,
    place: Place,
) -> Result<Turn, FileFault>
    ensures { Answers (λ (t : Turn). t) (block_turn track size place)
        (passage R.remaining R.failures input.old input.new) result }
{
    let number = match try_vint(input, 8, size)? {
        Err(fault) => return Ok(lost(fault, size.saturating_sub(1), place)),
        Ok(number) => number,
    };
    let bytes = &number.bytes[..number.len];
    let after = summed_at(place, place.sum.after(bytes));
    read_numbered(
        input,
        track,
        data_of(bytes),
        size - number.len as u64,
        after,
    )
}

/// An element of a Cluster, of so many bytes, after its header, before a place.
#[tactic(auto, unfolding(crate::specs::Turns::child_turn))]
pub(crate) fn read_child<R: ByteIn>(
    input: &mut R,
    track: TrackNumbers,
    ident: u32,
    size: u64,
    place: Place,
) -> Result<Turn, FileFault>
    ensures { Answers (λ (t : Turn). t) (child_turn track ident size place)
        (passage R.remaining R.failures input.old input.new) result }
{
    if ident == SIMPLE_BLOCK {
        return read_block(input, track, size, place);
    }
    if ident == BLOCK_GROUP {
        return Ok(Turn::On {
            pending: Pending::Grouped,
            place: group_at(place, size, place.sum),
        });
    }
    if is_beside(ident, size) {
        return pass_turn(input, size, Pending::Nothing, place);
    }
    Ok(Turn::Told {
        fault: FileFault::BadElement,
        pending: Pending::Passing { count: size },
        place,
    })
}

/// The CRC-32 of a Cluster.
#[tactic(auto, unfolding(crate::specs::Turns::crc_turn))]
fn read_crc<R: ByteIn>(input: &mut R, place: Place) -> Result<Turn, FileFault>
    ensures { Answers (λ (t : Turn). t) (crc_turn place)
        (passage R.remaining R.failures input.old input.new) result }
{
    let mut stated = [0u8; 4];
    take(input, &mut stated)?;
    let sum = Sum::Awaits {
        stated: u32::from_le_bytes(stated),
        so_far: !0,
    };
    Ok(Turn::On {
        pending: Pending::Nothing,
        place: summed_at(place, sum),
    })
}

/// The first element of a Cluster, of so many bytes, after its header: its CRC-32, or there is
/// none.
#[tactic(auto, unfolding(crate::specs::Turns::first_turn))]
fn read_first<R: ByteIn>(
    input: &mut R,
    track: TrackNumbers,
    ident: u32,
    size: u64,
    place: Place,
) -> Result<Turn, FileFault>
    ensures { Answers (λ (t : Turn). t) (first_turn track ident size place)
        (passage R.remaining R.failures input.old input.new) result }
{
    if ident == CRC_32 && size == 4 {
        return read_crc(input, place);
    }
    read_child(input, track, ident, size, summed_at(place, Sum::Absent))
}

/// An element of a Cluster of known size, after its header.
fn read_headed<R: ByteIn>(
    input: &mut R,
    track: TrackNumbers,
    header: Header,
    place: Place,
) -> Result<Turn, FileFault>
    ensures { Answers (λ (t : Turn). t) (cluster_headed track place header)
        (passage R.remaining R.failures input.old input.new) result }
{
    match header {
        Header::Whole {
            ident,
            size,
            left,
            sum,
        } => {
            let after = cluster_at(place, left, sum);
            match sum {
                Sum::Begins => read_first(input, track, ident, size, after),
                _ => read_child(input, track, ident, size, after),
            }
        }
        Header::Outside { ident, left } => Ok(Turn::Told {
            fault: FileFault::BadElement,
            pending: Pending::Named { ident },
            place: outer_place(left, place),
        }),
        Header::Broken { fault, left } => Ok(lost(fault, left, cluster_at(place, 0, Sum::Absent))),
    }
}

/// The place in the Segment, so many bytes before the end of a Cluster.
fn outer_place(left: u64, place: Place) -> Place
    ensures { result ≡ segment_at place false (segment_left left (cluster_at place 0 Absent)) }
{
    segment_at(
        place,
        false,
        segment_left(left, cluster_at(place, 0, Sum::Absent)),
    )
}

/// The next element of a Cluster that has bytes left.
#[tactic(auto, unfolding(crate::specs::Turns::cluster_turn))]
pub(crate) fn read_cluster<R: ByteIn>(
    input: &mut R,
    track: TrackNumbers,
    place: Place,
) -> Result<Turn, FileFault>
    ensures { Answers (λ (t : Turn). t) (cluster_turn track place)
        (passage R.remaining R.failures input.old input.new) result }
{
    let header = try_header(input, &OUTSIDE, place.cluster, place.sum)?;
    read_headed(input, track, header, place)
}

/// An element of a BlockGroup, after its header.
fn read_member<R: ByteIn>(
    input: &mut R,
    track: TrackNumbers,
    pending: Pending,
    header: Header,
    place: Place,
) -> Result<Turn, FileFault>
    ensures { Answers (λ (t : Turn). t) (group_headed track pending place header)
        (passage R.remaining R.failures input.old input.new) result }
{
    match header {
        Header::Whole {
            ident,
            size,
            left,
            sum,
        } => {
            let after = group_at(place, left, sum);
            if ident == BLOCK {
                return read_block(input, track, size, after);
            }
            pass_turn(input, size, pending, after)
        }
        Header::Outside { ident: _, left } => Ok(lost(
            FileFault::BadElement,
            left,
            group_at(place, 0, Sum::Absent),
        )),
        Header::Broken { fault, left } => Ok(lost(fault, left, group_at(place, 0, Sum::Absent))),
    }
}

/// The next element of a BlockGroup that has bytes left; after one that is no Block this is
/// pending.
#[tactic(auto, unfolding(crate::specs::Turns::group_turn))]
pub(crate) fn read_group<R: ByteIn>(
    input: &mut R,
    track: TrackNumbers,
    pending: Pending,
    place: Place,
) -> Result<Turn, FileFault>
    ensures { Answers (λ (t : Turn). t) (group_turn track pending place)
        (passage R.remaining R.failures input.old input.new) result }
{
    let header = try_header(input, &[], place.group, place.sum)?;
    read_member(input, track, pending, header, place)
}

/// The next element of a BlockGroup that has had no Block. `BadElement` if it ends so.
#[tactic(auto, unfolding(crate::specs::Turns::grouped_turn))]
pub(crate) fn read_grouped<R: ByteIn>(
    input: &mut R,
    track: TrackNumbers,
    place: Place,
) -> Result<Turn, FileFault>
    ensures { Answers (λ (t : Turn). t) (grouped_turn track place)
        (passage R.remaining R.failures input.old input.new) result }
{
    if place.group == 0 {
        return Ok(lost(FileFault::BadElement, 0, place));
    }
    read_group(input, track, Pending::Grouped, place)
}
