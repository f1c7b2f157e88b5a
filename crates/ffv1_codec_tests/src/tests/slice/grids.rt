//! Grids of slices.

use super::made::mono;
use ffv1_doubles::made;
use ffv1_slice::{Cell, Grid};
use std::process::Abort;
use std::test::Fail;

#[test]
fn two_columns(rt: HostRuntime) -> Result<(), Fail> {
    let mut config = made::mono(rt.alloc(), 5, 1, 2, false)?;
    config.chroma_planes = true;
    config.log2_h = 1;
    let grid = Grid::of(&config.check()?);
    assert!(rt; grid.columns() == 2 && grid.rows() == 1);
    assert!(rt; grid.width(0) == 5 && grid.width(1) == 3 && grid.height(1) == 1);
    assert!(rt; grid.planes() == 3);
    let first = Cell {
        left: 0,
        top: 0,
        width: 1,
        height: 1,
    };
    assert!(rt; grid.cell(1, 0) == first);
    let second = Cell {
        left: 1,
        top: 0,
        width: 2,
        height: 1,
    };
    assert!(rt; grid.cell(2, 1) == second);
    let across = grid.cell_across(2, 1);
    let down = grid.cell_down(2, 0);
    assert!(rt; across.0 == 1 && across.1 == 2 && down.0 == 0 && down.1 == 1);
    assert!(rt; grid.first_top(2, 0) == 0 && grid.left(2, 1) == 1);
    Ok(())
}

#[test]
fn edges(rt: HostRuntime) -> Result<(), Fail> {
    let five = Grid::of(&mono(rt.alloc(), 5, 1, 2, false)?);
    assert!(rt; five.left(0, 0) == 0 && five.left(0, 1) == 2 && five.left(0, 2) == 5);
    let seven = Grid::of(&mono(rt.alloc(), 7, 1, 2, false)?);
    assert!(rt; seven.left(0, 1) == 3 && seven.left(0, 2) == 7 && seven.slices() == 2);
    assert!(rt; seven.top(0, 0) == 0 && seven.top(0, 1) == 1 && seven.planes() == 1);
    Ok(())
}
