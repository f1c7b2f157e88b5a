//! Elements of a Segment in damaged bytes, outside of Clusters.

ghost use Rattle.std.specs.Prelude.{◌≡◌, ◌≤◌, ◌∷◌, [], Option, Some, IfOk, length, take};
ghost use Rattle.ffv1_wire.specs.Passage.{passage};
ghost use Rattle.ffv1_reads.specs.Ends.{AnswersOrNone};
ghost use Rattle.ffv1_reads.specs.Reads.{Answers};
ghost use Rattle.ffv1_matroska.specs.CuedItems.{CuedBy, cued_element, cued_named, cued_open};
ghost use Rattle.ffv1_matroska.specs.CuedItems.{cued_outer, cued_read, cued_turn};
ghost use Rattle.ffv1_matroska.specs.Turns.{element_turn};
ghost use Rattle.ffv1_matroska.specs.Turns.{named_turn, open_turn, outer_turn, passes_segment};
ghost use Rattle.ffv1_matroska.specs.Turns.{section_headed, section_turn};
ghost use Rattle.ffv1_matroska.specs.Turns.{segment_named, segment_turn, sized_turn};
ghost use Rattle.ffv1_matroska.specs.Turns.{open_at, plain_section, summed_section, turn_after};
ghost use Rattle.ffv1_matroska.specs.Turns.{turn_of};
ghost use Rattle.ffv1_matroska.specs.Turns.{turn_or_end, turn_read};
ghost use Rattle.ffv1_matroska.specs.declared.course.Turn.{Turn};
ghost use Rattle.ffv1_ebml.specs.Tried.{tried, vint_bytes};
ghost use Rattle.ffv1_ebml.specs.Vints.{vint_rest};

use crate::course::{Pending, Turn};
use crate::idents::{CLUSTER, CRC_32};
use crate::opening::OPEN;
use crate::place::{Place, cluster_entered, is_sound, segment_at, summed_at};
use crate::seeking::seek_cluster;
use crate::segment::{cued_by, is_filler, is_loose, is_section};
use crate::track::TrackNumbers;
use crate::turn::{lost, pass_turn, read_child, read_cluster, read_group, read_grouped};
use ffv1_ebml::{
    Header, Sum, Vint, number_of, pass_summed, size_of, try_header, try_vint, try_vint_after,
};
use ffv1_reads::{FileFault, pass, take};
use ffv1_wire::{ByteIn, read_byte};

/// A turn, which is not the end.
pub(crate) fn turn_of(turn: Result<Turn, FileFault>) -> Result<Option<Turn>, FileFault>
    ensures { result ≡ turn_of turn }
{
    match turn {
        Ok(turn) => Ok(Some(turn)),
        Err(fault) => Err(fault),
    }
}

/// The content of an element whose CRC-32 is stated in its first element, after the header of that.
fn judge_section<R: ByteIn>(input: &mut R, left: u64, place: Place) -> Result<Turn, FileFault>
    ensures { Answers (λ (t : Turn). t) (summed_section left place)
        (passage R.remaining R.failures input.old input.new) result }
{
    let mut stated = [0u8; 4];
    take(input, &mut stated)?;
    let mut sum = Sum::Awaits {
        stated: u32::from_le_bytes(stated),
        so_far: !0,
    };
    pass_summed(input, left, &mut sum)?;
    if sum.is_met() {
        return Ok(Turn::On {
            pending: Pending::Nothing,
            place,
        });
    }
    Ok(Turn::Told {
        fault: FileFault::Checksum,
        pending: Pending::Nothing,
        place,
    })
}

/// Passes so many bytes twice.
fn pass_both<R: ByteIn>(
    input: &mut R,
    size: u64,
    left: u64,
    place: Place,
) -> Result<Turn, FileFault>
    ensures { Answers (λ (t : Turn). t) (plain_section size left place)
        (passage R.remaining R.failures input.old input.new) result }
{
    pass(input, size)?;
    pass(input, left)?;
    Ok(Turn::On {
        pending: Pending::Nothing,
        place,
    })
}

/// The content of an element, after the header of its first element.
fn pass_headed<R: ByteIn>(input: &mut R, header: Header, place: Place) -> Result<Turn, FileFault>
    ensures { Answers (λ (t : Turn). t) (section_headed place header)
        (passage R.remaining R.failures input.old input.new) result }
{
    match header {
        Header::Whole {
            ident,
            size,
            left,
            sum: _,
        } => {
            if ident == CRC_32 && size == 4 {
                return judge_section(input, left, place);
            }
            pass_both(input, size, left, place)
        }
        Header::Outside { ident: _, left } => Ok(lost(FileFault::BadElement, left, place)),
        Header::Broken { fault, left } => Ok(lost(fault, left, place)),
    }
}

/// The content of an element of the Segment, of so many bytes, before a place.
#[tactic(auto, unfolding(crate::specs::Turns::section_turn))]
fn pass_section<R: ByteIn>(input: &mut R, size: u64, place: Place) -> Result<Turn, FileFault>
    ensures { Answers (λ (t : Turn). t) (section_turn size place)
        (passage R.remaining R.failures input.old input.new) result }
{
    if size == 0 {
        return Ok(Turn::On {
            pending: Pending::Nothing,
            place,
        });
    }
    let header = try_header(input, &[], size, Sum::Absent)?;
    pass_headed(input, header, place)
}

/// An element of the Segment of known size, after its header, before a place.
#[tactic(auto, unfolding(crate::specs::Turns::outer_turn))]
fn read_sized<R: ByteIn>(
    input: &mut R,
    track: TrackNumbers,
    ident: u32,
    size: u64,
    place: Place,
) -> Result<Turn, FileFault>
    ensures { Answers (λ (t : Turn). t) (outer_turn track ident place (Some size))
        (passage R.remaining R.failures input.old input.new) result }
{
    if ident == CLUSTER {
        return Ok(Turn::On {
            pending: Pending::Nothing,
            place: cluster_entered(place, size),
        });
    }
    if is_loose(place, ident) {
        return read_child(input, track, ident, size, place);
    }
    if is_section(ident) {
        return pass_section(input, size, segment_at(place, false, place.segment));
    }
    if is_filler(ident) {
        return pass_turn(input, size, Pending::Nothing, place);
    }
    Ok(lost(FileFault::BadElement, size, place))
}

/// An element of the Segment, after its header, before a place.
#[tactic(auto, unfolding(crate::specs::Turns::outer_turn))]
fn read_outer<R: ByteIn>(
    input: &mut R,
    track: TrackNumbers,
    ident: u32,
    size: Option<u64>,
    place: Place,
) -> Result<Turn, FileFault>
    ensures { Answers (λ (t : Turn). t) (outer_turn track ident place size)
        (passage R.remaining R.failures input.old input.new) result }
{
    let Some(size) = size else {
        if ident == CLUSTER {
            return Ok(Turn::On {
                pending: Pending::Nothing,
                place: segment_at(place, true, place.segment),
            });
        }
        return Ok(lost(FileFault::BadElement, 0, place));
    };
    read_sized(input, track, ident, size, place)
}

/// Whether an element with a header of so many bytes passes a Segment that has so many left.
fn passes_segment(left: u64, header: u64, size: Option<u64>) -> bool
    ensures { result ≡ passes_segment left header size }
{
    left < header || left - header < size.unwrap_or(0)
}

/// An element of the Segment after its header of so many bytes.
fn judge_outer<R: ByteIn>(
    input: &mut R,
    track: TrackNumbers,
    ident: u32,
    header: u64,
    place: Place,
    size: Option<u64>,
) -> Result<Turn, FileFault>
    ensures { Answers (λ (t : Turn). t) (sized_turn track ident header place size)
        (passage R.remaining R.failures input.old input.new) result }
{
    let left = place.segment.saturating_sub(header);
    if passes_segment(place.segment, header, size) {
        return Ok(Turn::Told {
            fault: FileFault::Truncated,
            pending: Pending::Headed { ident, size },
            place: segment_at(place, place.loose, left),
        });
    }
    let after = left.saturating_sub(size.unwrap_or(0));
    read_outer(
        input,
        track,
        ident,
        size,
        segment_at(place, place.loose, after),
    )
}

/// An element of the Segment whose ID was read, so many bytes after a place.
#[tactic(auto, unfolding(crate::specs::Turns::named_turn))]
fn read_named<R: ByteIn>(
    input: &mut R,
    track: TrackNumbers,
    ident: u32,
    count: u64,
    place: Place,
) -> Result<Turn, FileFault>
    requires { count ≤ 4 }
    ensures { Answers (λ (t : Turn). t) (named_turn track ident count place)
        (passage R.remaining R.failures input.old input.new) result }
{
    match try_vint(input, 8, 8)? {
        Err(fault) => {
            let fault = if count < place.segment {
                fault
            } else {
                FileFault::Truncated
            };
            let left = place.segment.saturating_sub(count).saturating_sub(1);
            Ok(Turn::Told {
                fault,
                pending: Pending::Seeking,
                place: segment_at(place, false, left),
            })
        }
        Ok(size) => {
            let header = count + size.len as u64;
            let said = size_of(&size.bytes[..size.len]);
            judge_outer(input, track, ident, header, place, said)
        }
    }
}

/// An element of the Segment after its ID, or the fault of that. `cued` is then whether Cues came
/// after the last Cluster.
fn name_element<R: ByteIn>(
    input: &mut R,
    track: TrackNumbers,
    ident: Result<Vint, FileFault>,
    place: Place,
    cued: &mut bool,
) -> Result<Turn, FileFault>
    requires len { IfOk ident (λ v. length (take v.len v.bytes) ≡ v.len) }
    requires most { IfOk ident (λ v. v.len ≤ 4) }
    ensures answer { Answers (λ (t : Turn). t) (segment_named track place (vint_bytes ident))
        (passage R.remaining R.failures input.old input.new) result }
    ensures cued { cued.new ≡ cued_named cued.old (vint_bytes ident) }
{
    match ident {
        Err(fault) => Ok(Turn::Told {
            fault,
            pending: Pending::Seeking,
            place: segment_at(place, false, place.segment.saturating_sub(1)),
        }),
        Ok(ident) => {
            let number = number_of(&ident.bytes[..ident.len]) as u32;
            *cued = cued_by(number, *cued);
            read_named(input, track, number, ident.len as u64, place)
        }
    }
}

/// The next element of a Segment that has bytes left.
#[tactic(auto, unfolding(crate::specs::Turns::segment_turn))]
fn read_element<R: ByteIn>(
    input: &mut R,
    track: TrackNumbers,
    place: Place,
    cued: &mut bool,
) -> Result<Turn, FileFault>
    ensures answer { Answers (λ (t : Turn). t) (segment_turn track place)
        (passage R.remaining R.failures input.old input.new) result }
    ensures cued { IfOk result (λ t. CuedBy (cued_outer cued.old)
        (R.remaining input.old) (R.remaining input.new) cued.new) }
{
    let ident = try_vint(input, 4, 4)?;
    name_element(input, track, ident, place, cued)
}

/// The next element of a Segment of unknown size; None if the input has ended before it.
fn read_or_end<R: ByteIn>(
    input: &mut R,
    track: TrackNumbers,
    place: Place,
    cued: &mut bool,
) -> Result<Option<Turn>, FileFault>
    ensures answer { AnswersOrNone (λ (t : Option Turn). t) (turn_or_end track place)
        (passage R.remaining R.failures input.old input.new) result }
    ensures cued { IfOk result (λ t. CuedBy (cued_outer cued.old)
        (R.remaining input.old) (R.remaining input.new) cued.new) }
{
    let next = match read_byte(input) {
        Ok(next) => next,
        Err(_) => return Err(FileFault::Read),
    };
    let Some(first) = next else {
        return Ok(None);
    };
    turn_of(element_after(input, track, first, place, cued))
}

/// An element of a Segment whose first byte was read.
fn element_after<R: ByteIn>(
    input: &mut R,
    track: TrackNumbers,
    first: u8,
    place: Place,
    cued: &mut bool,
) -> Result<Turn, FileFault>
    ensures answer { Answers (λ (t : Turn). t) (turn_after track first place)
        (passage R.remaining R.failures input.old input.new) result }
    ensures cued { IfOk result (λ t. CuedBy
        (λ text. cued_read cued.old (tried (vint_rest 4 4 (first ∷ [])) text))
        (R.remaining input.old) (R.remaining input.new) cued.new) }
{
    let ident = try_vint_after(input, first, 4, 4)?;
    name_element(input, track, ident, place, cued)
}

/// The next element of a Segment; None at its end.
#[tactic(auto, unfolding(crate::specs::Turns::open_turn, crate::specs::CuedItems::cued_open))]
fn read_open<R: ByteIn>(
    input: &mut R,
    track: TrackNumbers,
    place: Place,
    cued: &mut bool,
) -> Result<Option<Turn>, FileFault>
    ensures answer { AnswersOrNone (λ (t : Option Turn). t) (open_turn track place)
        (passage R.remaining R.failures input.old input.new) result }
    ensures cued { IfOk result (λ t. CuedBy (cued_open place cued.old)
        (R.remaining input.old) (R.remaining input.new) cued.new) }
{
    if place.segment == 0 {
        return Ok(None);
    }
    if place.endless {
        return read_or_end(input, track, place, cued);
    }
    turn_of(read_element(input, track, place, cued))
}

/// The place in a Segment that counts as open, before content of so many bytes.
pub(crate) fn open_at(size: u64, place: Place) -> Place
    ensures { result ≡ open_at size place }
{
    Place {
        segment: OPEN.saturating_sub(size),
        endless: true,
        loose: place.loose,
        cluster: 0,
        group: 0,
        sum: Sum::Absent,
    }
}

/// The next element; a Cluster that was read to its end, and whose CRC-32 is not the sum, is told
/// first.
#[tactic(auto, unfolding(crate::specs::Turns::element_turn, crate::specs::CuedItems::cued_element))]
fn next_element<R: ByteIn>(
    input: &mut R,
    track: TrackNumbers,
    place: Place,
    cued: &mut bool,
) -> Result<Option<Turn>, FileFault>
    ensures answer { AnswersOrNone (λ (t : Option Turn). t) (element_turn track place)
        (passage R.remaining R.failures input.old input.new) result }
    ensures cued { IfOk result (λ t. CuedBy (cued_element place cued.old)
        (R.remaining input.old) (R.remaining input.new) cued.new) }
{
    if !is_sound(place) {
        return Ok(Some(Turn::Told {
            fault: FileFault::Checksum,
            pending: Pending::Nothing,
            place: summed_at(place, Sum::Absent),
        }));
    }
    if place.group > 0 {
        return turn_of(read_group(input, track, Pending::Nothing, place));
    }
    if place.cluster > 0 {
        return turn_of(read_cluster(input, track, place));
    }
    read_open(input, track, place, cued)
}

/// What comes next, by what is pending; None at the end. `cued` is then whether Cues came after the
/// last Cluster, by the IDs of elements of the Segment that were read.
#[tactic(auto, unfolding(crate::specs::Turns::turn_read, crate::specs::CuedItems::cued_turn))]
pub(crate) fn take_turn<R: ByteIn>(
    input: &mut R,
    track: TrackNumbers,
    pending: Pending,
    place: Place,
    cued: &mut bool,
) -> Result<Option<Turn>, FileFault>
    ensures answer { AnswersOrNone (λ (t : Option Turn). t) (turn_read track pending place)
        (passage R.remaining R.failures input.old input.new) result }
    ensures cued { IfOk result (λ t. CuedBy (cued_turn pending place cued.old)
        (R.remaining input.old) (R.remaining input.new) cued.new) }
{
    match pending {
        Pending::Nothing => next_element(input, track, place, cued),
        Pending::Seeking => seek_cluster(input, place, cued),
        Pending::Grouped => turn_of(read_grouped(input, track, place)),
        Pending::Passing { count } => turn_of(pass_turn(input, count, Pending::Nothing, place)),
        Pending::Named { ident } => {
            *cued = cued_by(ident, *cued);
            turn_of(read_named(input, track, ident, 0, place))
        }
        Pending::Headed { ident, size } => {
            let after = open_at(size.unwrap_or(0), place);
            turn_of(read_outer(input, track, ident, size, after))
        }
    }
}
