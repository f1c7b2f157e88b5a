//! Makes of a line that was read the line that is handed over.

ghost use Rattle.std.specs.Prelude.{◌≡◌, ◌+◌, ◌*◌, ◌≤◌, ◌<◌, OnOk, IfErr};
ghost use Rattle.std.specs.Prelude.{length, true};
ghost use Rattle.ffv1_record.specs.Configuration.{is_rct};
ghost use Rattle.ffv1_slice.specs.Grid.{division_of, across, Lies, whole_of};
ghost use Rattle.ffv1_frame.specs.Order.{lines_down};
ghost use Rattle.ffv1_decode.specs.Internal.Tied.{IsFrame};
ghost use Rattle.ffv1_decode.specs.OwnFaults.{IsOwn};
ghost use Rattle.ffv1_decode.specs.Internal.Finished.{AreMade, IsFirstWithout, IsTogether};
ghost use Rattle.ffv1_decode.specs.Internal.Finished.{IsNoColour, FinishesLine, colouring_of};
ghost use Rattle.ffv1_frame.specs.Picture.{plane_count, width_bytes};
ghost use Rattle.ffv1_frame.specs.SliceList.{bits_of};
ghost use Rattle.ffv1_samples.specs.Samples.{samples_of};

use crate::colours::{Words, are_bytes, byte_colours, copy_to, word_colours};
use crate::parts::{CodedLine, Frame, Segment};
use crate::places;
use crate::wide_colours::wide_colours;
use ffv1_frame::fault::{CodecFault, FrameFault};
use ffv1_frame::line_word::LineWord;
use ffv1_frame::places_of_colours::swaps;
use ffv1_record::{Colour, laws as record_laws};
use std::alloc::Allocator;

/// The column of slices in which a sample of plane 0 lies.
fn column_of<A: Allocator>(frame: &Frame<'_, A>, x: usize) -> u32
    requires frame { IsFrame frame.now }
    requires x { x < whole_of (across (division_of frame.now.checked.now.configuration) 0) }
    ensures lies { Lies (across (division_of frame.now.checked.now.configuration) 0) x result }
    ensures inside { result < frame.now.checked.now.configuration.columns }
{
    places::slices_lie_beside_one_another();
    record_laws::accepted_configuration_is_in_range();
    let last = frame.grid.columns() - 1;
    for k in 0..last {
        if x < frame.grid.left(0, k + 1) as usize {
            return k;
        }
    }
    last
}

/// The fault of a sample that has no colour.
fn colourless<A: Allocator>(frame: &Frame<'_, A>, line: &CodedLine, x: usize) -> FrameFault
    requires frame { IsFrame frame.now }
    requires row { line.now.row < frame.now.checked.now.configuration.rows }
    requires y { line.now.y < lines_down frame.now.checked.now.configuration 0 line.now.row }
    requires x { x < whole_of (across (division_of frame.now.checked.now.configuration) 0) }
    ensures fault { IsNoColour frame.now.checked.now.configuration line.now.row line.now.y x
        result }
    ensures own { IsOwn result }
{
    places::slices_lie_beside_one_another();
    record_laws::accepted_configuration_is_in_range();
    let segment = Segment {
        row: line.row,
        column: column_of(frame, x) as usize,
        plane: 0,
        index: 0,
        y: line.y,
        height: line.height,
    };
    frame.fault_in(CodecFault::Colour, &segment, x)
}

/// The colours of a line for RCT.
fn finish_colours<A: Allocator>(
    frame: &Frame<'_, A>,
    samples: &[u16],
    out: &mut [u8],
) -> Result<(), usize>
    requires frame { IsFrame frame.now }
    requires rct { is_rct frame.now.checked.now.configuration.colour ≡ true }
    requires shallow { frame.now.checked.now.configuration.depth ≤ 15 }
    requires samples { length samples.now ≡ plane_count frame.now.checked.now.configuration
        * frame.now.checked.now.configuration.width }
    requires out { length out.old ≡ plane_count frame.now.checked.now.configuration
        * width_bytes frame.now.checked.now.configuration }
    ensures ok { OnOk result (AreMade (colouring_of frame.now.checked.now.configuration)
        samples.now (samples_of frame.now.checked.now.configuration.depth out.new)) }
    ensures err { IfErr result (IsFirstWithout
        (colouring_of frame.now.checked.now.configuration) samples.now) }
{
    record_laws::accepted_configuration_is_in_range();
    record_laws::accepted_configuration_has_sound_parts();
    let width = frame.checked.config().width as usize;
    let extra = frame.checked.config().extra_plane;
    let depth = frame.checked.depth();
    if depth == 8 {
        return byte_colours(extra, width, samples, out);
    }
    let words = Words {
        depth: depth as u8,
        width,
        swaps: swaps(frame.checked),
        extra,
    };
    word_colours(&words, samples, out)
}

/// Makes a line of what was read: the samples as they are, or for RCT the colours.
fn finish<A: Allocator>(
    frame: &Frame<'_, A>,
    line: &CodedLine,
    samples: &[u16],
    out: &mut [u8],
) -> Result<(), FrameFault>
    requires frame { IsFrame frame.now }
    requires bits { bits_of frame.now.checked.now.configuration ≤ 16 }
    requires row { line.now.row < frame.now.checked.now.configuration.rows }
    requires together { IsTogether frame.now.checked.now.configuration line.now.first
        line.now.count }
    requires y { line.now.y < lines_down frame.now.checked.now.configuration line.now.first
        line.now.row }
    requires samples { length samples.now ≡ line.now.count
        * frame.now.checked.now.configuration.width }
    requires out { length out.old ≡ line.now.count
        * width_bytes frame.now.checked.now.configuration }
    ensures exact { FinishesLine frame.now.checked.now line.now samples.now out.new result }
    ensures own { IfErr result IsOwn }
{
    places::slices_lie_beside_one_another();
    record_laws::accepted_configuration_has_sound_parts();
    match frame.checked.config().colour {
        Colour::YCbCr => {
            let wide = frame.grid.width(line.first as u32) as usize;
            let end = frame.grid.sample_bytes() * wide;
            copy_to(frame.checked.depth(), &samples[..wide], &mut out[..end]);
            Ok(())
        }
        Colour::Rct => {
            match finish_colours(frame, samples, out) {
                Ok(()) => {
                    are_bytes(out);
                    Ok(())
                }
                Err(x) => Err(colourless(frame, line, x)),
            }
        }
    }
}

/// The colours of a line for RCT of 16 bits a sample.
fn finish_wide_colours<A: Allocator>(
    frame: &Frame<'_, A>,
    samples: &[u32],
    out: &mut [u8],
) -> Result<(), usize>
    requires frame { IsFrame frame.now }
    requires rct { is_rct frame.now.checked.now.configuration.colour ≡ true }
    requires sixteen { frame.now.checked.now.configuration.depth ≡ 16 }
    requires samples { length samples.now ≡ plane_count frame.now.checked.now.configuration
        * frame.now.checked.now.configuration.width }
    requires out { length out.old ≡ plane_count frame.now.checked.now.configuration
        * width_bytes frame.now.checked.now.configuration }
    ensures ok { OnOk result (AreMade (colouring_of frame.now.checked.now.configuration)
        samples.now (samples_of frame.now.checked.now.configuration.depth out.new)) }
    ensures err { IfErr result (IsFirstWithout
        (colouring_of frame.now.checked.now.configuration) samples.now) }
{
    record_laws::accepted_configuration_is_in_range();
    record_laws::accepted_configuration_has_sound_parts();
    let config = frame.checked.config();
    wide_colours(config.extra_plane, config.width as usize, samples, out)
}

/// Makes the colours of a line of RCT of 16 bits a sample.
fn finish_wide<A: Allocator>(
    frame: &Frame<'_, A>,
    line: &CodedLine,
    samples: &[u32],
    out: &mut [u8],
) -> Result<(), FrameFault>
    requires frame { IsFrame frame.now }
    requires bits { bits_of frame.now.checked.now.configuration ≡ 17 }
    requires row { line.now.row < frame.now.checked.now.configuration.rows }
    requires together { IsTogether frame.now.checked.now.configuration line.now.first
        line.now.count }
    requires y { line.now.y < lines_down frame.now.checked.now.configuration line.now.first
        line.now.row }
    requires samples { length samples.now ≡ line.now.count
        * frame.now.checked.now.configuration.width }
    requires out { length out.old ≡ line.now.count
        * width_bytes frame.now.checked.now.configuration }
    ensures exact { FinishesLine frame.now.checked.now line.now samples.now out.new result }
    ensures own { IfErr result IsOwn }
{
    record_laws::accepted_configuration_is_in_range();
    record_laws::accepted_configuration_has_sound_parts();
    match finish_wide_colours(frame, samples, out) {
        Ok(()) => {
            are_bytes(out);
            Ok(())
        }
        Err(x) => Err(colourless(frame, line, x)),
    }
}

/// Words of whose lines is made what is handed over.
pub(crate) trait FinishedWord: LineWord {
    /// Makes a line of what was read: the samples as they are, or for RCT the colours.
    fn finish<A: Allocator>(
        frame: &Frame<'_, A>,
        line: &CodedLine,
        samples: &[Self],
        out: &mut [u8],
    ) -> Result<(), FrameFault>
        requires frame { IsFrame frame.now }
        requires bits { Self.holds (bits_of frame.now.checked.now.configuration) }
        requires row { line.now.row < frame.now.checked.now.configuration.rows }
        requires together { IsTogether frame.now.checked.now.configuration line.now.first
            line.now.count }
        requires y { line.now.y < lines_down frame.now.checked.now.configuration line.now.first
            line.now.row }
        requires samples { length samples.now ≡ line.now.count
            * frame.now.checked.now.configuration.width }
        requires out { length out.old ≡ line.now.count
            * width_bytes frame.now.checked.now.configuration }
        ensures exact { FinishesLine frame.now.checked.now line.now (Self.samples samples.now)
            out.new result }
        ensures own { IfErr result IsOwn };
}

impl FinishedWord for u16 {
    #[inline(always)]
    fn finish<A: Allocator>(
        frame: &Frame<'_, A>,
        line: &CodedLine,
        samples: &[u16],
        out: &mut [u8],
    ) -> Result<(), FrameFault> {
        finish(frame, line, samples, out)
    }
}

impl FinishedWord for u32 {
    #[inline(always)]
    fn finish<A: Allocator>(
        frame: &Frame<'_, A>,
        line: &CodedLine,
        samples: &[u32],
        out: &mut [u8],
    ) -> Result<(), FrameFault> {
        finish_wide(frame, line, samples, out)
    }
}
