//! A slice of a picture.

ghost use Rattle.std.specs.Prelude.{◌≡◌, ◌+◌, ◌-◌, ◌*◌, min, ◌<◌, ◌≤◌, ◌^◌, length, take, drop};
ghost use Rattle.ffv1_samples.specs.Samples.{AreBelow, samples_of};
ghost use Rattle.ffv1_slice.specs.Coding.{IsSlice};
ghost use Rattle.ffv1_slice.specs.Grid.{IsDivision, division_of};
ghost use Rattle.ffv1_frame.specs.Picture.{Fits, plane_count, cell_in, cell_height};
ghost use Rattle.ffv1_slice.specs.Head.{IsHead};
ghost use Rattle.ffv1_frame.specs.SliceList.{chosen_head};
ghost use Rattle.ffv1_encode.specs.Internal.CellRows.{IsLine};

use ffv1_frame::info::Info;
use ffv1_frame::laws;
use ffv1_frame::picture::Picture;
use ffv1_record::{Checked, Sets, laws as record_laws};
use ffv1_slice::{Cell, Grid, SliceHead, laws as slice_laws};
use std::alloc::Allocator;

/// The set of a class of planes: that of its number, or the last one.
pub(crate) fn index_of<A: Allocator>(sets: &Sets<A>, class: usize) -> usize
    requires { 0 < length sets.now }
    ensures value { result ≡ min class (length sets.now - 1) }
    ensures inside { result < length sets.now }
{
    class.min(sets.len() - 1)
}

/// A line of a rectangle of a plane whose lines have so many samples, of so many bytes each.
fn line_of(samples: &[u8], bytes: usize, width: u32, cell: Cell, y: u32) -> &[u8]
    requires some { 1 ≤ bytes }
    requires fits { bytes * ((cell.top + y) * width + cell.left + cell.width) ≤ length samples.now }
    ensures { result.now ≡ take (bytes * cell.width)
        (drop (bytes * ((cell.top + y) * width + cell.left)) samples.entry.now) }
{
    let line = cell.top as usize + y as usize;
    let start = bytes * (line * width as usize + cell.left as usize);
    &samples[start..start + bytes * cell.width as usize]
}

/// A slice that is to be coded: how pictures are divided, its picture, which fits the
/// configuration, what is said of it, and its number in raster order.
#[derive(Drop)]
pub(crate) struct Slice<'a, A: Allocator, B: Allocator> {
    pub(crate) checked: &'a Checked<A>,
    pub(crate) grid: &'a Grid,
    pub(crate) picture: &'a Picture<B>,
    pub(crate) info: Info,
    pub(crate) number: u32,
    ghost divided: { grid.now ≡ division_of checked.now.configuration },
    ghost division: { IsDivision grid.now },
    ghost inside: { IsSlice checked.now number },
    ghost fits: { Fits checked.now.configuration picture.now },
}

impl<'a, A: Allocator, B: Allocator> Slice<'a, A, B> {
    /// Its cell in a plane, of at least one sample.
    pub(crate) fn cell(&self, plane: u32) -> Cell
        ensures width { result.width ≡ (cell_in self.now.checked.now.configuration
            self.now.picture.now self.now.number plane).width }
        ensures height { result.height ≡
            cell_height self.now.checked.now.configuration self.now.number plane }
        ensures some { 0 < result.width }
    {
        slice_laws::cells_tile_their_plane();
        slice_laws::parts_follow_one_another();
        self.grid.cell(plane, self.number)
    }

    /// Its head: class k has set k, or the last one.
    pub(crate) fn head(&self) -> SliceHead
        ensures value { result ≡
            chosen_head self.now.checked.now.configuration self.now.info }
        ensures head { IsHead self.now.checked.now.profile
            self.now.checked.now.configuration result }
    {
        record_laws::accepted_configuration_is_in_range();
        laws::chosen_slices_suit_their_picture();
        let config = self.checked.config();
        let third = if config.extra_plane {
            index_of(&config.sets, 2)
        } else {
            0
        };
        SliceHead {
            indexes: [
                index_of(&config.sets, 0) as u8,
                index_of(&config.sets, 1) as u8,
                third as u8,
            ],
            structure: self.info.structure(),
            sar_num: self.info.sar_num(),
            sar_den: self.info.sar_den(),
        }
    }

    /// The bytes of a line of its cell in a plane.
    pub(crate) fn line(&self, plane: u32, y: u32) -> &'a [u8]
        requires plane { plane < plane_count self.now.checked.now.configuration }
        requires inside { y <
            cell_height self.now.checked.now.configuration self.now.number plane }
        ensures line { IsLine self.now.checked.now.configuration self.now.picture.now
            self.now.number plane y result.now }
        ensures small { AreBelow (2 ^ self.now.checked.now.configuration.depth)
            (samples_of self.now.checked.now.configuration.depth result.now) }
    {
        slice_laws::cells_tile_their_plane();
        slice_laws::parts_follow_one_another();
        let cell = self.grid.cell(plane, self.number);
        let samples = self.picture.planes()[plane as usize].as_slice();
        line_of(
            samples,
            self.grid.sample_bytes(),
            self.grid.width(plane),
            cell,
            y,
        )
    }
}
