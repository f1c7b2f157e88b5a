//! The sizes of planes.

ghost use Rattle.std.specs.Prelude.{◌≡◌, ◌*◌};
ghost use Rattle.ffv1_samples.specs.Samples.{sample_bytes};
ghost use Rattle.ffv1_slice.specs.Grid.{IsDivision, across, down, whole_of};

use ffv1_slice::Grid;

/// How many bytes a plane has.
pub fn plane_bytes(grid: &Grid, plane: u32) -> usize
    requires { IsDivision grid.now }
    ensures { result ≡ sample_bytes grid.now.depth
        * (whole_of (across grid.now plane) * whole_of (down grid.now plane)) }
{
    let size = grid.width(plane) as usize * grid.height(plane) as usize;
    grid.sample_bytes() * size
}
