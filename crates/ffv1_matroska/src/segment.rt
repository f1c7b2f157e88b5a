//! Elements of a Segment, of a Cluster and of a BlockGroup, each a step.

ghost use Rattle.std.specs.Prelude.{◌≡◌, ◌<◌, ◌≤◌, ◌+◌, ◌-◌, ◌&&◌, ℕ, Option, None, Some, IfOk};
ghost use Rattle.std.specs.Prelude.{IfSome};
ghost use Rattle.ffv1_wire.specs.Passage.{passage};
ghost use Rattle.ffv1_ebml.specs.Elements.{IsWithin};
ghost use Rattle.ffv1_ebml.specs.declared.element.Element.{Element};
ghost use Rattle.ffv1_reads.specs.Reads.{Answers};
ghost use Rattle.ffv1_matroska.specs.Internal.{bytes_of};
ghost use Rattle.ffv1_reads.specs.Ends.{AnswersOrNone};
ghost use Rattle.ffv1_matroska.specs.Blocks.{HasFrameSize};
ghost use Rattle.ffv1_matroska.specs.Cues.{CuedStep, cued_by};
ghost use Rattle.ffv1_matroska.specs.Places.{amount};
ghost use Rattle.ffv1_matroska.specs.Segments.{block_sought};
ghost use Rattle.ffv1_matroska.specs.Segments.{child_by, cluster_child, cluster_read, crc_read};
ghost use Rattle.ffv1_matroska.specs.Segments.{first_child, group_child, group_read, header_read};
ghost use Rattle.ffv1_matroska.specs.Segments.{is_beside, is_filler, is_of_cluster, is_section};
ghost use Rattle.ffv1_matroska.specs.Segments.{known_child};
ghost use Rattle.ffv1_matroska.specs.Segments.{other_read, segment_child, segment_read, step_read};
ghost use Rattle.ffv1_matroska.specs.declared.place.Step.{Step};
ghost use Rattle.std.specs.Prelude.{Bool};

use crate::block::{pass_on, read_block};
use crate::idents::{
    ATTACHMENTS, BLOCK, BLOCK_GROUP, CHAPTERS, CLUSTER, CRC_32, CUES, EBML, ENCRYPTED_BLOCK, INFO,
    POSITION, PREV_SIZE, SEEK_HEAD, SEGMENT, SILENT_TRACKS, SIMPLE_BLOCK, TAGS, TIMESTAMP, TRACKS,
    VOID,
};
use crate::place::{
    Place, Step, closed, cluster_at, cluster_entered, group_at, segment_at, summed_at,
};
use crate::times::read_timestamp;
use crate::track::TrackNumbers;
use ffv1_ebml::{
    Element, Sum, first_element, next_element, next_element_in, pass_content, pass_summed,
};
use ffv1_reads::{FileFault, take};
use ffv1_wire::ByteIn;

/// The IDs of elements that stand only outside of Clusters: SeekHead, Info, Tracks, Cues,
/// Attachments, Chapters, Tags, Cluster, EBML and Segment.
pub(crate) const OUTSIDE: [u32; 10] = [
    SEEK_HEAD,
    INFO,
    TRACKS,
    CUES,
    ATTACHMENTS,
    CHAPTERS,
    TAGS,
    CLUSTER,
    EBML,
    SEGMENT,
];

/// Whether an element of a Segment is one whose CRC-32 is judged: SeekHead, Info, Tracks, Cues,
/// Attachments, Chapters or Tags.
#[tactic(auto, unfolding(crate::specs::Segments::is_section))]
pub(crate) fn is_section(ident: u32) -> bool
    ensures { result ≡ is_section ident }
{
    ident == SEEK_HEAD
        || ident == INFO
        || ident == TRACKS
        || ident == CUES
        || ident == ATTACHMENTS
        || ident == CHAPTERS
        || ident == TAGS
}

/// Whether it is Void or CRC-32.
#[tactic(auto, unfolding(crate::specs::Segments::is_filler))]
pub(crate) fn is_filler(ident: u32) -> bool
    ensures { result ≡ is_filler ident }
{
    ident == VOID || ident == CRC_32
}

/// Whether it is one of a Cluster: SimpleBlock, BlockGroup, Timestamp, Position, PrevSize,
/// SilentTracks or EncryptedBlock.
#[tactic(auto, unfolding(crate::specs::Segments::is_of_cluster))]
fn is_of_cluster(ident: u32) -> bool
    ensures { result ≡ is_of_cluster ident }
{
    ident == SIMPLE_BLOCK
        || ident == BLOCK_GROUP
        || ident == TIMESTAMP
        || ident == POSITION
        || ident == PREV_SIZE
        || ident == SILENT_TRACKS
        || ident == ENCRYPTED_BLOCK
}

/// Whether it is one that a Cluster has beside blocks, of so many bytes: Timestamp, Position or
/// PrevSize, of at most 8 bytes; SilentTracks, EncryptedBlock, Void or CRC-32.
#[tactic(auto, unfolding(crate::specs::Segments::is_beside))]
pub(crate) fn is_beside(ident: u32, size: u64) -> bool
    ensures { result ≡ is_beside ident size }
{
    if ident == TIMESTAMP || ident == POSITION || ident == PREV_SIZE {
        return size <= 8;
    }
    ident == SILENT_TRACKS || ident == ENCRYPTED_BLOCK || is_filler(ident)
}

/// Whether it is one of a Cluster of unknown size, in which the place is.
pub(crate) fn is_loose(place: Place, ident: u32) -> bool
    ensures { result ≡ (place.loose && is_of_cluster ident) }
{
    place.loose && is_of_cluster(ident)
}

/// An element of a BlockGroup, after its header. `BadElement` if its size is unknown.
#[tactic(auto, unfolding(crate::specs::Segments::group_child))]
fn group_child<R: ByteIn>(
    input: &mut R,
    track: TrackNumbers,
    element: Element,
    place: Place,
) -> Result<Option<Step>, FileFault>
    ensures answer { Answers (λ (s : Option Step). s)
        (group_child track element.ident place element.size)
        (passage R.remaining R.failures input.old input.new) result }
    ensures sized { IfOk result HasFrameSize }
    ensures same { IfOk result (λ o. IfSome o (λ s. amount s.place ≡ amount place)) }
{
    let Some(size) = element.size else {
        return Err(FileFault::BadElement);
    };
    if element.ident == BLOCK {
        return read_block(input, track, size, place);
    }
    pass_on(input, size, place)
}

/// The next element of a BlockGroup that has bytes left.
#[tactic(auto, unfolding(crate::specs::Segments::group_read))]
fn read_group<R: ByteIn>(
    input: &mut R,
    track: TrackNumbers,
    place: Place,
) -> Result<Option<Step>, FileFault>
    requires { 0 < place.group }
    ensures answer { Answers (λ (s : Option Step). s) (group_read track place)
        (passage R.remaining R.failures input.old input.new) result }
    ensures sized { IfOk result HasFrameSize }
    ensures less { IfOk result (λ o. IfSome o (λ s. amount s.place < amount place)) }
{
    let mut sum = place.sum;
    let element = next_element(input, place.group, &mut sum)?;
    group_child(input, track, element, group_at(place, element.left, sum))
}

/// The first Block of a BlockGroup, up to its frame; what comes before it is passed.
///
/// `BadElement` if the group ends before it has one, or if the size of an element is unknown.
#[tactic(auto, unfolding(crate::specs::Segments::block_sought))]
fn seek_block<R: ByteIn>(
    input: &mut R,
    track: TrackNumbers,
    start: Place,
) -> Result<Option<Step>, FileFault>
    ensures answer { Answers (λ (s : Option Step). s) (block_sought start.group track start)
        (passage R.remaining R.failures input.old input.new) result }
    ensures sized { IfOk result HasFrameSize }
    ensures most { IfOk result (λ o. IfSome o (λ s. amount s.place ≤ amount start)) }
{
    let mut place = start;
    while place.group > 0 {
        let mut sum = place.sum;
        let element = next_element(input, place.group, &mut sum)?;
        let Some(size) = element.size else {
            return Err(FileFault::BadElement);
        };
        if element.ident == BLOCK {
            return read_block(input, track, size, group_at(place, element.left, sum));
        }
        pass_summed(input, size, &mut sum)?;
        place = group_at(place, element.left, sum);
    }
    Err(FileFault::BadElement)
}

/// An element of a Cluster, of so many bytes, after its header; of a BlockGroup up to its first
/// Block. `BadElement` if it may not stand there, or if a BlockGroup has no Block.
#[tactic(auto, unfolding(crate::specs::Segments::cluster_child))]
fn cluster_child<R: ByteIn>(
    input: &mut R,
    track: TrackNumbers,
    element: (u32, u64),
    place: Place,
) -> Result<Option<Step>, FileFault>
    requires { place.group ≡ 0 }
    ensures answer { Answers (λ (s : Option Step). s)
        (cluster_child track element.0 element.1 place)
        (passage R.remaining R.failures input.old input.new) result }
    ensures sized { IfOk result HasFrameSize }
    ensures most { IfOk result (λ o. IfSome o
        (λ s. amount s.place ≤ amount place + element.1)) }
{
    let (ident, size) = element;
    if ident == SIMPLE_BLOCK {
        return read_block(input, track, size, place);
    }
    if ident == BLOCK_GROUP {
        return seek_block(input, track, group_at(place, size, place.sum));
    }
    if !is_beside(ident, size) {
        return Err(FileFault::BadElement);
    }
    if ident == TIMESTAMP {
        return read_timestamp(input, size, place);
    }
    pass_on(input, size, place)
}

/// The CRC-32 of a Cluster. `Checksum` if nothing comes after it and it is not the sum of that.
fn read_crc<R: ByteIn>(input: &mut R, place: Place) -> Result<Option<Step>, FileFault>
    ensures answer { Answers (λ (s : Option Step). s) (crc_read place)
        (passage R.remaining R.failures input.old input.new) result }
    ensures sized { IfOk result HasFrameSize }
    ensures same { IfOk result (λ o. IfSome o (λ s. amount s.place ≡ amount place)) }
{
    let mut stated = [0u8; 4];
    take(input, &mut stated)?;
    let sum = Sum::Awaits {
        stated: u32::from_le_bytes(stated),
        so_far: !0,
    };
    closed(summed_at(place, sum))
}

/// The first element of a Cluster, of so many bytes, after its header: its CRC-32, or there is
/// none.
#[tactic(auto, unfolding(crate::specs::Segments::first_child))]
fn first_child<R: ByteIn>(
    input: &mut R,
    track: TrackNumbers,
    element: (u32, u64),
    place: Place,
) -> Result<Option<Step>, FileFault>
    requires { place.group ≡ 0 }
    ensures answer { Answers (λ (s : Option Step). s)
        (first_child track element.0 element.1 place)
        (passage R.remaining R.failures input.old input.new) result }
    ensures sized { IfOk result HasFrameSize }
    ensures most { IfOk result (λ o. IfSome o
        (λ s. amount s.place ≤ amount place + element.1)) }
{
    if element.0 == CRC_32 && element.1 == 4 {
        return read_crc(input, place);
    }
    cluster_child(input, track, element, summed_at(place, Sum::Absent))
}

/// An element of a Cluster, after its header. `BadElement` if its size is unknown.
#[tactic(auto, unfolding(crate::specs::Segments::known_child))]
fn known_child<R: ByteIn>(
    input: &mut R,
    track: TrackNumbers,
    element: Element,
    place: Place,
) -> Result<Option<Step>, FileFault>
    requires { place.group ≡ 0 }
    ensures answer { Answers (λ (s : Option Step). s)
        (known_child track element.ident place element.size)
        (passage R.remaining R.failures input.old input.new) result }
    ensures sized { IfOk result HasFrameSize }
    ensures most { IfOk result (λ o. IfSome o
        (λ s. amount s.place ≤ amount place + bytes_of element.size)) }
{
    let Some(size) = element.size else {
        return Err(FileFault::BadElement);
    };
    match place.sum {
        Sum::Begins => first_child(input, track, (element.ident, size), place),
        _ => cluster_child(input, track, (element.ident, size), place),
    }
}

/// The next element of a Cluster that has bytes left.
#[tactic(auto, unfolding(crate::specs::Segments::cluster_read))]
fn read_cluster<R: ByteIn>(
    input: &mut R,
    track: TrackNumbers,
    place: Place,
) -> Result<Option<Step>, FileFault>
    requires some { 0 < place.cluster }
    requires alone { place.group ≡ 0 }
    ensures answer { Answers (λ (s : Option Step). s) (cluster_read track place)
        (passage R.remaining R.failures input.old input.new) result }
    ensures sized { IfOk result HasFrameSize }
    ensures less { IfOk result (λ o. IfSome o (λ s. amount s.place < amount place)) }
{
    let mut sum = place.sum;
    let element = next_element_in(input, &OUTSIDE, place.cluster, &mut sum)?;
    known_child(input, track, element, cluster_at(place, element.left, sum))
}

/// An element of a Segment that holds no frames, of so many bytes, after its header.
///
/// `BadElement` if it may not stand there, and then as `pass_content`.
#[tactic(auto, unfolding(crate::specs::Segments::other_read))]
pub(crate) fn pass_other<R: ByteIn>(
    input: &mut R,
    ident: u32,
    size: u64,
    place: Place,
) -> Result<Option<Step>, FileFault>
    requires cluster { place.cluster ≡ 0 }
    requires group { place.group ≡ 0 }
    ensures answer { Answers (λ (s : Option Step). s) (other_read ident size place)
        (passage R.remaining R.failures input.old input.new) result }
    ensures sized { IfOk result HasFrameSize }
    ensures same { IfOk result (λ o. IfSome o (λ s. amount s.place ≡ amount place)) }
{
    if is_section(ident) {
        pass_content(input, size)?;
        return Ok(Some(Step {
            frame: None,
            time: None,
            place: segment_at(place, false, place.segment),
        }));
    }
    if is_filler(ident) {
        return pass_on(input, size, place);
    }
    Err(FileFault::BadElement)
}

/// An element of a Segment, of so many bytes, after its header.
#[tactic(auto, unfolding(crate::specs::Segments::segment_child))]
fn sized_child<R: ByteIn>(
    input: &mut R,
    track: TrackNumbers,
    element: (u32, u64),
    place: Place,
) -> Result<Option<Step>, FileFault>
    requires cluster { place.cluster ≡ 0 }
    requires group { place.group ≡ 0 }
    ensures answer { Answers (λ (s : Option Step). s)
        (segment_child track element.0 place (Some element.1))
        (passage R.remaining R.failures input.old input.new) result }
    ensures sized { IfOk result HasFrameSize }
    ensures most { IfOk result (λ o. IfSome o
        (λ s. amount s.place ≤ amount place + element.1)) }
{
    let (ident, size) = element;
    if ident == CLUSTER {
        return Ok(Some(Step {
            frame: None,
            time: None,
            place: cluster_entered(place, size),
        }));
    }
    if is_loose(place, ident) {
        return cluster_child(input, track, element, place);
    }
    pass_other(input, ident, size, place)
}

/// An element of a Segment, after its header.
///
/// `BadElement` if its size is unknown and it is no Cluster, or if it may not stand there.
#[tactic(auto, unfolding(crate::specs::Segments::segment_child))]
fn segment_child<R: ByteIn>(
    input: &mut R,
    track: TrackNumbers,
    element: Element,
    place: Place,
) -> Result<Option<Step>, FileFault>
    requires cluster { place.cluster ≡ 0 }
    requires group { place.group ≡ 0 }
    ensures answer { Answers (λ (s : Option Step). s)
        (segment_child track element.ident place element.size)
        (passage R.remaining R.failures input.old input.new) result }
    ensures sized { IfOk result HasFrameSize }
    ensures most { IfOk result (λ o. IfSome o
        (λ s. amount s.place ≤ amount place + bytes_of element.size)) }
{
    match element.size {
        Some(size) => sized_child(input, track, (element.ident, size), place),
        None => {
            if element.ident != CLUSTER {
                return Err(FileFault::BadElement);
            }
            Ok(Some(Step {
                frame: None,
                time: None,
                place: segment_at(place, true, place.segment),
            }))
        }
    }
}

/// The header of the next element of a Segment; None at its end.
#[tactic(auto, unfolding(crate::specs::Segments::header_read))]
pub(crate) fn next_header<R: ByteIn>(
    input: &mut R,
    place: Place,
) -> Result<Option<Element>, FileFault>
    ensures answer { AnswersOrNone (λ (e : Option Element). e) (header_read place)
        (passage R.remaining R.failures input.old input.new) result }
    ensures within { IfOk result (λ o. IfSome o (λ e. IsWithin e (place.segment - 2))) }
    ensures some { IfOk result (λ o. IfSome o (λ e. 0 < place.segment)) }
{
    if place.segment == 0 {
        return Ok(None);
    }
    if place.endless {
        return first_element(input, place.segment);
    }
    let mut none = Sum::Absent;
    let element = next_element(input, place.segment, &mut none)?;
    Ok(Some(element))
}

/// Whether Cues came after the last Cluster, behind an element of the Segment.
#[tactic(auto, unfolding(crate::specs::Cues::cued_by))]
pub(crate) fn cued_by(ident: u32, cued: bool) -> bool
    ensures { result ≡ cued_by ident cued }
{
    if ident == CLUSTER {
        return false;
    }
    cued || ident == CUES
}

/// The next element of a Segment; None at its end. `cued` is then whether Cues came after the last
/// Cluster.
#[tactic(auto, unfolding(crate::specs::Segments::segment_read))]
fn read_segment<R: ByteIn>(
    input: &mut R,
    track: TrackNumbers,
    place: Place,
    cued: &mut bool,
) -> Result<Option<Step>, FileFault>
    ensures answer { AnswersOrNone (λ (s : Option Step). s) (segment_read track place)
        (passage R.remaining R.failures input.old input.new) result }
    ensures sized { IfOk result HasFrameSize }
    ensures less { IfOk result (λ o. IfSome o (λ s. amount s.place < amount place)) }
    ensures cued { place.group ≡ 0 → place.cluster ≡ 0 → IfOk result (λ o. IfSome o
        (λ s. CuedStep track (place, cued.old) (R.remaining input.old) (R.remaining input.new) s
        cued.new)) }
{
    let Some(element) = next_header(input, place)? else {
        return Ok(None);
    };
    *cued = cued_by(element.ident, *cued);
    let after = segment_at(place, place.loose, element.left);
    segment_child(input, track, element, after)
}

/// The next step, in the innermost that has bytes left; None at the end of the Segment. `cued` is
/// then whether Cues came after the last Cluster.
#[tactic(auto, unfolding(crate::specs::Segments::step_read))]
pub(crate) fn step<R: ByteIn>(
    input: &mut R,
    track: TrackNumbers,
    place: Place,
    cued: &mut bool,
) -> Result<Option<Step>, FileFault>
    ensures answer { AnswersOrNone (λ (s : Option Step). s) (step_read track place)
        (passage R.remaining R.failures input.old input.new) result }
    ensures sized { IfOk result HasFrameSize }
    ensures less { IfOk result (λ o. IfSome o (λ s. amount s.place < amount place)) }
    ensures cued { IfOk result (λ o. IfSome o (λ s. CuedStep track (place, cued.old)
        (R.remaining input.old) (R.remaining input.new) s cued.new)) }
{
    if place.group > 0 {
        return read_group(input, track, place);
    }
    if place.cluster > 0 {
        return read_cluster(input, track, place);
    }
    read_segment(input, track, place, cued)
}
