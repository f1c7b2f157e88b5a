//! Samples that two slices code.

ghost use Rattle.std.specs.Prelude.{◌≡◌, ◌≢◌, ◌⊎◌, ◌+◌, ◌*◌, ◌<◌, IsTrue, IsFalse, IfSome, None};
ghost use Rattle.std.specs.Prelude.{ℕ, length, slice_index};
ghost use Rattle.ffv1_slice.specs.Grid.{division_of, across, shared_of};
ghost use Rattle.ffv1_frame.specs.Decoding.{left_of, width_in};
ghost use Rattle.ffv1_frame.specs.Picture.{plane_width};
ghost use Rattle.ffv1_decode.specs.Internal.Tied.{IsFrame, HasPlane};
ghost use Rattle.ffv1_decode.specs.Internal.Shared.{StandsKept, IsFirstOther};

use crate::parts::{Frame, Segment};
use crate::places;
use crate::segment::extent;
use ffv1_frame::laws;
use ffv1_frame::line_word::LineWord;
use ffv1_record::laws as record_laws;
use ffv1_slice::Grid;
use std::alloc::Allocator;

/// Whether a column of slices has a column of chroma in common with the one before.
pub(crate) fn shares_columns(grid: &Grid) -> bool
    ensures { IsFalse result → (k : ℕ) → k < grid.now.columns →
        shared_of (across grid.now 1) k ≡ 0 }
{
    for k in 0..grid.columns() {
        let cell = grid.cell_across(1, k);
        if cell.0 < grid.left(1, k) {
            return true;
        }
    }
    false
}

/// Whether the slice to the left codes the first sample of a segment, too.
fn shares_left<A: Allocator>(frame: &Frame<'_, A>, segment: &Segment) -> bool
    requires frame { IsFrame frame.now }
    requires column { segment.now.column < frame.now.checked.now.configuration.columns }
    ensures yes { IsTrue result → 0 < shared_of
        (across (division_of frame.now.checked.now.configuration) segment.now.plane)
        segment.now.column }
    ensures no { IsFalse result → shared_of
        (across (division_of frame.now.checked.now.configuration) segment.now.plane)
        segment.now.column ≡ 0 }
{
    record_laws::accepted_configuration_is_in_range();
    laws::planes_are_divided_part_by_part();
    if !frame.shares {
        return false;
    }
    let plane = segment.plane as u32;
    let k = segment.column as u32;
    let cell = frame.grid.cell_across(plane, k);
    cell.0 < frame.grid.left(plane, k)
}

/// What stands in a line at the first sample of a segment, if the slice to the left codes it, too.
pub(crate) fn said_left<W: LineWord, A: Allocator>(
    frame: &Frame<'_, A>,
    segment: &Segment,
    cur: &[W],
) -> u32
    requires frame { IsFrame frame.now }
    requires column { segment.now.column < frame.now.checked.now.configuration.columns }
    requires few { segment.now.index < 4 }
    requires cur_long { HasPlane frame.now.checked.now.configuration segment.now.index
        (length cur.now) }
    ensures value { 0 < shared_of
        (across (division_of frame.now.checked.now.configuration) segment.now.plane)
        segment.now.column →
        result ≡ slice_index (W.samples cur.now)
        (segment.now.index * frame.now.checked.now.configuration.width
        + left_of frame.now.checked.now.configuration segment.now.plane segment.now.column) }
{
    if !shares_left(frame, segment) {
        return 0;
    }
    let (left, _) = extent(frame, segment);
    W::read(cur, left)
}

/// Whether the slice to the left codes the first sample of a segment, too, and there stands
/// another value than it said.
fn differs_left<W: LineWord, A: Allocator>(
    frame: &Frame<'_, A>,
    segment: &Segment,
    said: u32,
    cur: &[W],
) -> bool
    requires frame { IsFrame frame.now }
    requires column { segment.now.column < frame.now.checked.now.configuration.columns }
    requires few { segment.now.index < 4 }
    requires cur_long { HasPlane frame.now.checked.now.configuration segment.now.index
        (length cur.now) }
    ensures yes { IsTrue result → (0 < shared_of
        (across (division_of frame.now.checked.now.configuration) segment.now.plane)
        segment.now.column)
        × (slice_index (W.samples cur.now)
        (segment.now.index * frame.now.checked.now.configuration.width
        + left_of frame.now.checked.now.configuration segment.now.plane segment.now.column)
        ≢ said) }
    ensures no { IsFalse result → 0 < shared_of
        (across (division_of frame.now.checked.now.configuration) segment.now.plane)
        segment.now.column →
        slice_index (W.samples cur.now)
        (segment.now.index * frame.now.checked.now.configuration.width
        + left_of frame.now.checked.now.configuration segment.now.plane segment.now.column)
        ≡ said }
{
    if !shares_left(frame, segment) {
        return false;
    }
    let (left, _) = extent(frame, segment);
    W::read(cur, left) != said
}

/// The first sample of a segment that is not what is kept of its line, if that is.
fn differs_above<W: LineWord, A: Allocator>(
    frame: &Frame<'_, A>,
    segment: &Segment,
    kept: &[W],
    cur: &[W],
) -> Option<usize>
    requires frame { IsFrame frame.now }
    requires column { segment.now.column < frame.now.checked.now.configuration.columns }
    requires few { segment.now.index < 4 }
    requires cur_long { HasPlane frame.now.checked.now.configuration segment.now.index
        (length cur.now) }
    requires kept_long { 0 < length kept.now → length kept.now
        ≡ plane_width frame.now.checked.now.configuration segment.now.plane }
    ensures none { result ≡ None → 0 < length kept.now → (x : ℕ) →
        x < width_in frame.now.checked.now.configuration segment.now.plane segment.now.column →
        StandsKept frame.now.checked.now.configuration
        segment.now.plane segment.now.column
        (segment.now.index * frame.now.checked.now.configuration.width) (W.samples kept.now)
        (W.samples cur.now) x }
    ensures some { IfSome result (λ x. (0 < length kept.now)
        × IsFirstOther frame.now.checked.now.configuration segment.now.plane segment.now.column
        (segment.now.index * frame.now.checked.now.configuration.width) (W.samples kept.now)
        (W.samples cur.now) x) }
{
    record_laws::accepted_configuration_is_in_range();
    places::slices_lie_beside_one_another();
    if kept.len() == 0 {
        return None;
    }
    let (left, right) = extent(frame, segment);
    let offset = segment.index as usize * frame.checked.config().width as usize;
    let first = left - offset;
    for x in 0..right - left {
        if W::read(cur, left + x) != W::read(kept, first + x) {
            return Some(x);
        }
    }
    None
}

/// The first sample of a segment of which the slice to the left or the one above says another
/// value, if there is one. `said` is what stood at its first sample before it was read, and `kept`
/// its line as the row of slices above has it, or nothing.
pub(crate) fn first_difference<W: LineWord, A: Allocator>(
    frame: &Frame<'_, A>,
    segment: &Segment,
    said: u32,
    kept: &[W],
    cur: &[W],
) -> Option<usize>
    requires frame { IsFrame frame.now }
    requires column { segment.now.column < frame.now.checked.now.configuration.columns }
    requires few { segment.now.index < 4 }
    requires cur_long { HasPlane frame.now.checked.now.configuration segment.now.index
        (length cur.now) }
    requires kept_long { 0 < length kept.now → length kept.now
        ≡ plane_width frame.now.checked.now.configuration segment.now.plane }
    ensures none { result ≡ None →
        (0 < shared_of (across (division_of frame.now.checked.now.configuration) segment.now.plane)
        segment.now.column →
        slice_index (W.samples cur.now)
        (segment.now.index * frame.now.checked.now.configuration.width
        + left_of frame.now.checked.now.configuration segment.now.plane segment.now.column) ≡ said)
        × (0 < length kept.now → (x : ℕ) →
        x < width_in frame.now.checked.now.configuration segment.now.plane segment.now.column →
        StandsKept frame.now.checked.now.configuration
        segment.now.plane segment.now.column
        (segment.now.index * frame.now.checked.now.configuration.width) (W.samples kept.now)
        (W.samples cur.now) x) }
    ensures some { IfSome result (λ x. ((x ≡ 0)
        × (0 < shared_of (across (division_of frame.now.checked.now.configuration)
        segment.now.plane) segment.now.column)
        × (slice_index (W.samples cur.now)
        (segment.now.index * frame.now.checked.now.configuration.width
        + left_of frame.now.checked.now.configuration segment.now.plane segment.now.column) ≢ said))
        ⊎ ((0 < length kept.now)
        × IsFirstOther frame.now.checked.now.configuration segment.now.plane segment.now.column
        (segment.now.index * frame.now.checked.now.configuration.width) (W.samples kept.now)
        (W.samples cur.now) x
        × (0 < shared_of (across (division_of frame.now.checked.now.configuration)
        segment.now.plane) segment.now.column →
        slice_index (W.samples cur.now)
        (segment.now.index * frame.now.checked.now.configuration.width
        + left_of frame.now.checked.now.configuration segment.now.plane segment.now.column)
        ≡ said))) }
{
    if differs_left(frame, segment, said, cur) {
        return Some(0);
    }
    differs_above(frame, segment, kept, cur)
}
