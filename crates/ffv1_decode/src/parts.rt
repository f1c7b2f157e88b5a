//! What stays the same while a frame is decoded.

ghost use Rattle.std.specs.Prelude.{◌≡◌, ◌≤◌, ◌<◌, ◌^◌};
ghost use Rattle.ffv1_record.specs.Accepted.{is_rice};
ghost use Rattle.ffv1_frame.specs.Decoding.{fault_in};
ghost use Rattle.ffv1_frame.specs.Order.{lines_down};

use crate::places;
use crate::shared::shares_columns;
use ffv1_frame::fault::{CodecFault, FrameFault};
use ffv1_line::Word;
use ffv1_record::{Checked, Coder, laws as record_laws};
use ffv1_slice::Grid;
use std::alloc::Allocator;

/// A payload, and how it is read.
#[derive(Drop)]
pub struct Frame<'a, A: Allocator> {
    /// The configuration of its picture.
    pub checked: &'a Checked<A>,
    /// How the picture is divided.
    pub grid: Grid,
    /// The payload.
    pub payload: &'a [u8],
    /// How many contexts the largest set has.
    pub most: usize,
    /// How many states a slice has.
    pub slots: usize,
    /// Whether columns of slices may have a column of chroma in common.
    pub shares: bool,
}

impl<'a, A: Allocator> Frame<'a, A> {
    ghost use Rattle.ffv1_decode.specs.Internal.Tied.{IsFrame};

    /// A payload of a configuration.
    pub(crate) fn new(checked: &'a Checked<A>, payload: &'a [u8]) -> Frame<'a, A>
        ensures frame { IsFrame result }
        ensures checked { result.checked.now ≡ checked.now }
        ensures payload { result.payload.now ≡ payload.now }
    {
        let config = checked.config();
        let most = config.sets.most_contexts() as usize;
        let classes = config.classes();
        let grid = Grid::of(checked);
        let shares = shares_columns(&grid);
        Frame {
            checked,
            grid,
            payload,
            most,
            slots: classes * most * 32,
            shares,
        }
    }

    /// Whether samples are Golomb-Rice coded.
    #[inline(always)]
    pub(crate) fn is_rice(&self) -> bool
        ensures { result ≡ is_rice self.now.checked.now.configuration.coder }
    {
        match self.checked.config().coder {
            Coder::Rice => true,
            Coder::One => false,
            Coder::Two(_) => false,
        }
    }

    /// A fault of a segment's line, at this column of its plane.
    pub(crate) fn fault_in(&self, fault: CodecFault, segment: &Segment, x: usize) -> FrameFault
        requires frame { IsFrame self.now }
        requires row { segment.now.row < self.now.checked.now.configuration.rows }
        requires column { segment.now.column < self.now.checked.now.configuration.columns }
        requires y { segment.now.y < lines_down self.now.checked.now.configuration
            segment.now.plane segment.now.row }
        requires x { x < 2 ^ 16 }
        ensures { result ≡ fault_in self.now.checked.now.configuration fault segment.now.row
            segment.now.column segment.now.plane segment.now.y x }
    {
        places::slices_lie_beside_one_another();
        record_laws::accepted_configuration_is_in_range();
        let columns = self.grid.columns() as usize;
        let top = self.grid.first_top(segment.plane as u32, segment.row);
        FrameFault {
            fault,
            slice: (segment.row as usize * columns + segment.column) as u16,
            plane: segment.plane,
            line: (top + segment.y) as u16,
            x: x as u16,
        }
    }
}

/// Planes of a row of slices that are coded together.
#[derive(Drop)]
pub struct CodedPlanes<'a, A: Allocator> {
    /// The frame.
    pub frame: &'a Frame<'a, A>,
    /// The row of slices.
    pub row: u32,
    /// The first plane.
    pub first: u8,
    /// How many planes.
    pub count: u8,
}

/// A row of slices, and in it line `y` of `count` planes from `first` on, which are coded together.
#[derive(Clone, Copy)]
pub struct CodedLine {
    /// The row of slices.
    pub row: u32,
    /// The first plane.
    pub first: u8,
    /// How many planes.
    pub count: u8,
    /// How many lines of the first plane the row of slices above codes, too.
    pub shared: u32,
    /// The line, from the top of the row.
    pub y: u32,
    /// How many lines of each of these planes the row has.
    pub height: u32,
}

/// The two lines above one that is read, and that line as the row of slices above has it, if it
/// codes it, too; else nothing.
#[derive(Clone, Copy)]
pub struct LinesAbove<'a, W: Word> {
    /// The upper line.
    pub two: &'a [W],
    /// The lower line.
    pub one: &'a [W],
    /// The line itself.
    pub kept: &'a [W],
}

/// The segment of a line that lies in one slice.
#[derive(Clone, Copy)]
pub struct Segment {
    /// The row of slices.
    pub row: u32,
    /// The column of slices.
    pub column: usize,
    /// The plane.
    pub plane: u8,
    /// Which of the planes that are coded together this is.
    pub index: u8,
    /// The line, from the top of the row.
    pub y: u32,
    /// How many lines of the plane the row has.
    pub height: u32,
}
