//! How pictures are divided into slices.

ghost use Rattle.std.specs.Prelude.{◌≡◌, ◌-◌, ◌+◌, ◌*◌, ◌/◌, ◌%◌, ◌<◌, ◌≤◌};
ghost use Rattle.std.proofs.Common.{suc};
ghost use Rattle.ffv1_record.specs.Accepted.{edge};
ghost use Rattle.ffv1_slice.specs.Grid.{Division, IsDivision, division_of, factor_of, reduced};
ghost use Rattle.ffv1_slice.specs.Grid.{planes_in, slices_in, begin_of, first_of, coded_of};
ghost use Rattle.ffv1_slice.specs.Grid.{whole_of};
ghost use Rattle.ffv1_slice.specs.Grid.{across, down};
ghost use Rattle.ffv1_samples.specs.Samples.{sample_bytes};

use crate::laws;
use ffv1_record::{Checked, laws as record_laws, reduced};
use ffv1_samples::sample_bytes;
use std::alloc::Allocator;
use std::marker::Model;

/// How pictures of a configuration are divided, and the bits of a sample. It is seen as a
/// `Division`.
#[derive(Drop)]
pub struct Grid {
    width: u32,
    height: u32,
    depth: u32,
    columns: u32,
    rows: u32,
    log2_h: u32,
    log2_v: u32,
    planes: u32,
}

impl Model for Grid {
    ghost use Rattle.ffv1_slice.specs.Grid.{Division, IsDivision};

    ghost Value = { Division };

    ghost view = { λ g. record {
      width = g.width;
      height = g.height;
      depth = g.depth;
      columns = g.columns;
      rows = g.rows;
      log2_h = g.log2_h;
      log2_v = g.log2_v;
      planes = g.planes;
    } };

    ghost invariant = { λ g. IsDivision
        (record {
          width = g.width;
          height = g.height;
          depth = g.depth;
          columns = g.columns;
          rows = g.rows;
          log2_h = g.log2_h;
          log2_v = g.log2_v;
          planes = g.planes;
        }) };
}

/// The rectangle of a slice in a plane, in samples of the plane.
#[derive(Clone, Copy, Debug, PartialEq, Eq)]
pub struct Cell {
    /// The first column.
    pub left: u32,
    /// The first line.
    pub top: u32,
    /// How many columns there are.
    pub width: u32,
    /// How many lines there are.
    pub height: u32,
}

/// How many planes there are.
fn planes_in(chroma_planes: bool, extra_plane: bool) -> u32
    ensures value { result ≡ planes_in chroma_planes extra_plane }
    ensures few { result ≤ 4 }
{
    if extra_plane {
        return 4;
    }
    if chroma_planes {
        return 3;
    }
    1
}

/// The logarithm of a plane's factor.
fn factor_of(log2: u32, plane: u32) -> u32
    requires { log2 ≤ 2 }
    ensures value { result ≡ factor_of log2 plane }
    ensures small { result ≤ 2 }
{
    match plane {
        1 => log2,
        2 => log2,
        _ => 0,
    }
}

/// Where part k begins of a size that is divided into count parts.
fn edge(k: u32, size: u32, count: u32) -> u32
    requires size { size ≤ 8192 }
    requires count { count ≤ 32 }
    requires some { 0 < count }
    requires k { k ≤ count }
    ensures value { result ≡ edge k size count }
    ensures fits { result ≤ size }
{
    k * size / count
}

/// Where the cell of part k begins in a plane.
fn first_of(k: u32, size: u32, count: u32, log2: u32) -> u32
    requires size { size ≤ 8192 }
    requires count { count ≤ 32 }
    requires some { 0 < count }
    requires k { k ≤ count }
    requires log2 { log2 ≤ 2 }
    ensures value { result ≡ first_of (record { size = size; count = count; log2 = log2 }) k }
    ensures fits { result ≤ 8192 }
{
    edge(k, size, count) / (1 << log2)
}

/// How long the cell of part k is in a plane.
fn coded_of(k: u32, size: u32, count: u32, log2: u32) -> u32
    requires size { size ≤ 8192 }
    requires count { count ≤ 32 }
    requires some { 0 < count }
    requires k { k < count }
    requires log2 { log2 ≤ 2 }
    ensures value { result ≡ coded_of (record { size = size; count = count; log2 = log2 }) k }
    ensures fits { result ≤ 8192 }
{
    let first = edge(k, size, count);
    let last = edge(k + 1, size, count);
    reduced(log2, last - first)
}

/// Where the cell of part k begins in a plane, and how long it is.
fn cell_of(k: u32, size: u32, count: u32, log2: u32) -> (u32, u32)
    requires size { size ≤ 8192 }
    requires count { count ≤ 32 }
    requires k { k < count }
    requires log2 { log2 ≤ 2 }
    ensures first { result.0 ≡ first_of (record { size = size; count = count; log2 = log2 }) k }
    ensures coded { result.1 ≡ coded_of (record { size = size; count = count; log2 = log2 }) k }
    ensures fits { result.0 ≤ 8192 }
    ensures few { result.1 ≤ 8192 }
{
    let first = edge(k, size, count);
    let last = edge(k + 1, size, count);
    (first / (1 << log2), reduced(log2, last - first))
}

/// Where that of part k begins which the part before does not code.
fn begin_of(k: u32, size: u32, count: u32, log2: u32) -> u32
    requires size { size ≤ 8192 }
    requires count { count ≤ 32 }
    requires some { 0 < count }
    requires k { k ≤ count }
    requires log2 { log2 ≤ 2 }
    ensures value { result ≡ begin_of (record { size = size; count = count; log2 = log2 }) k }
    ensures fits { result ≤ 16384 }
{
    if k == 0 {
        return 0;
    }
    first_of(k - 1, size, count, log2) + coded_of(k - 1, size, count, log2)
}

impl Grid {
    /// The grid of a configuration. It takes no memory.
    pub fn of<A: Allocator>(checked: &Checked<A>) -> Grid
        ensures value { result ≡ division_of checked.now.configuration }
        ensures division { IsDivision result }
    {
        laws::accepted_pictures_are_divided();
        record_laws::accepted_configuration_is_in_range();
        let config = checked.config();
        Grid {
            width: config.width,
            height: config.height,
            depth: checked.depth(),
            columns: config.columns,
            rows: config.rows,
            log2_h: config.log2_h,
            log2_v: config.log2_v,
            planes: planes_in(config.chroma_planes, config.extra_plane),
        }
    }

    /// How many planes there are.
    pub fn planes(&self) -> u32
        ensures { result ≡ self.now.planes }
    {
        self.planes
    }

    /// The bits of a sample.
    pub fn depth(&self) -> u32
        ensures value { result ≡ self.now.depth }
        ensures least { 8 ≤ result }
        ensures most { result ≤ 16 }
    {
        self.depth
    }

    /// How many bytes a sample has when lines are handed over: 1 at a depth of 8, else 2.
    pub fn sample_bytes(&self) -> usize
        ensures value { result ≡ sample_bytes self.now.depth }
        ensures least { 1 ≤ result }
        ensures most { result ≤ 2 }
    {
        sample_bytes(self.depth)
    }

    /// How many columns of slices there are.
    pub fn columns(&self) -> u32
        ensures { result ≡ self.now.columns }
    {
        self.columns
    }

    /// How many rows of slices there are.
    pub fn rows(&self) -> u32
        ensures { result ≡ self.now.rows }
    {
        self.rows
    }

    /// How many slices there are.
    pub fn slices(&self) -> u32
        ensures value { result ≡ slices_in self.now }
        ensures few { result ≤ 1024 }
    {
        self.columns * self.rows
    }

    /// The width of a plane.
    pub fn width(&self, plane: u32) -> u32
        ensures { result ≡ whole_of (across self.now plane) }
    {
        reduced(factor_of(self.log2_h, plane), self.width)
    }

    /// The height of a plane.
    pub fn height(&self, plane: u32) -> u32
        ensures { result ≡ whole_of (down self.now plane) }
    {
        reduced(factor_of(self.log2_v, plane), self.height)
    }

    /// Where the cells of a column of slices begin in a plane, and how many columns they have.
    pub fn cell_across(&self, plane: u32, column: u32) -> (u32, u32)
        requires { column < self.now.columns }
        ensures first { result.0 ≡ first_of (across self.now plane) column }
        ensures coded { result.1 ≡ coded_of (across self.now plane) column }
    {
        let Grid {
            width,
            columns,
            log2_h,
            ..
        } = *self;
        cell_of(column, width, columns, factor_of(log2_h, plane))
    }

    /// Where the cells of a row of slices begin in a plane, and how many lines they have.
    pub fn cell_down(&self, plane: u32, row: u32) -> (u32, u32)
        requires { row < self.now.rows }
        ensures first { result.0 ≡ first_of (down self.now plane) row }
        ensures coded { result.1 ≡ coded_of (down self.now plane) row }
    {
        let Grid {
            height,
            rows,
            log2_v,
            ..
        } = *self;
        cell_of(row, height, rows, factor_of(log2_v, plane))
    }

    /// Where the cells of a row of slices begin in a plane.
    pub fn first_top(&self, plane: u32, row: u32) -> u32
        requires { row < self.now.rows }
        ensures { result ≡ first_of (down self.now plane) row }
    {
        let Grid {
            height,
            rows,
            log2_v,
            ..
        } = *self;
        first_of(row, height, rows, factor_of(log2_v, plane))
    }

    /// Where that of a column of slices begins in a plane which the column before does not code;
    /// after the last, where the last ends.
    pub fn left(&self, plane: u32, column: u32) -> u32
        requires { column ≤ self.now.columns }
        ensures { result ≡ begin_of (across self.now plane) column }
    {
        let Grid {
            width,
            columns,
            log2_h,
            ..
        } = *self;
        begin_of(column, width, columns, factor_of(log2_h, plane))
    }

    /// Where that of a row of slices begins in a plane which the row before does not code; after
    /// the last, where the last ends.
    pub fn top(&self, plane: u32, row: u32) -> u32
        requires { row ≤ self.now.rows }
        ensures { result ≡ begin_of (down self.now plane) row }
    {
        let Grid {
            height,
            rows,
            log2_v,
            ..
        } = *self;
        begin_of(row, height, rows, factor_of(log2_v, plane))
    }

    /// The rectangle of a slice in a plane.
    pub fn cell(&self, plane: u32, slice: u32) -> Cell
        requires { slice < slices_in self.now }
        ensures left { result.left ≡ first_of (across self.now plane) (slice % self.now.columns) }
        ensures top { result.top ≡ first_of (down self.now plane) (slice / self.now.columns) }
        ensures width { result.width ≡
            coded_of (across self.now plane) (slice % self.now.columns) }
        ensures height { result.height ≡
            coded_of (down self.now plane) (slice / self.now.columns) }
    {
        let Grid {
            width,
            height,
            columns,
            rows,
            log2_h,
            log2_v,
            ..
        } = *self;
        let column = slice % columns;
        let row = slice / columns;
        Cell {
            left: first_of(column, width, columns, factor_of(log2_h, plane)),
            top: first_of(row, height, rows, factor_of(log2_v, plane)),
            width: coded_of(column, width, columns, factor_of(log2_h, plane)),
            height: coded_of(row, height, rows, factor_of(log2_v, plane)),
        }
    }
}
