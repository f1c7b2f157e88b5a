//! Sinks of a configuration's lines: one that keeps them, and one that drops them.

ghost use Rattle.std.specs.Prelude.{◌≢◌, ◌⊎◌, ℕ, List};
ghost use Rattle.std.specs.Prelude.{◌≡◌, ◌*◌, ◌+◌, ◌≤◌, ◌<◌, IfOk, IfErr, IsTrue, IsFalse, length};
ghost use Rattle.ffv1_samples.specs.Samples.{sample_bytes};
ghost use Rattle.ffv1_slice.specs.Grid.{IsDivision, division_of, across, down, whole_of};
ghost use Rattle.ffv1_frame.specs.declared.fault.CodecFault.TheVariants as fault;
ghost use Rattle.std.specs.Vec.{vec_capacity};
ghost use Rattle.std.specs.Borrow.{sem};
ghost use Rattle.std.specs.Io.BufRead.{Rests};
ghost use Rattle.ffv1_decode.specs.contracts.sinks.KeepLines.{the_row};
ghost use Rattle.ffv1_decode.specs.Filled.{AreRooms, filled, filled_planes};
ghost use Rattle.ffv1_decode.specs.Internal.Begun.{AreBegun};
ghost use Rattle.ffv1_frame.specs.Picture.{AreOf, plane, planes_of};
ghost use Rattle.ffv1_frame.specs.Kept.{IsLine, with_samples, Keeps, KeepsNot, Drops, DropsNot};
ghost use Rattle.ffv1_frame.specs.Kept.{Kept, zeros_of};
ghost use Rattle.ffv1_frame.specs.Decoding.{row_in};

use ffv1_frame::fault::CodecFault;
use ffv1_frame::plane_sizes::plane_bytes;
use ffv1_record::Checked;
use ffv1_slice::Grid;
use ffv1_wire::{LineSink, SinkFault};
use std::alloc::{AllocError, Allocator, Global};
use std::marker::Model;

/// Whether this is a line of a grid.
fn is_line(grid: &Grid, plane: u8, y: u16, samples: &[u8]) -> bool
    ensures yes { IsTrue result → IsLine grid.now plane y samples.now }
    ensures no { IsFalse result → IsLine grid.now plane y samples.now → ⊥ }
{
    let of = u32::from(plane);
    if of >= grid.planes() {
        return false;
    }
    if u32::from(y) >= grid.height(of) {
        return false;
    }
    samples.len() == grid.sample_bytes() * grid.width(of) as usize
}

/// Puts zeros after the bytes of a plane, up to so many.
fn fill_up<A: Allocator>(plane: &mut Vec<u8, A>, size: usize)
    requires room { size ≤ vec_capacity plane.old }
    ensures items { plane.new.items ≡ filled size plane.old.items }
    ensures capacity { vec_capacity plane.new ≡ vec_capacity plane.old }
{
    let missing = size.saturating_sub(plane.len());
    for _ in 0..missing {
        plane.push_reserved(0);
    }
}

/// Puts a line in its place.
fn put(plane: &mut [u8], y: usize, line: &[u8])
    requires room { y * length line.now + length line.now ≤ length plane.old }
    ensures { plane.new ≡ with_samples plane.old y line.now }
{
    let at = y * line.len();
    plane[at..at + line.len()].copy_from_slice(line);
}

/// Puts a line in its place in a plane that has room for it, after zeros for the lines that are
/// missing before it.
fn keep<A: Allocator>(plane: &mut Vec<u8, A>, y: usize, line: &[u8])
    requires room { y * length line.now + length line.now ≤ vec_capacity plane.old }
    ensures items { plane.new.items ≡ with_samples
        (filled (y * length line.now + length line.now) plane.old.items) y line.now }
    ensures capacity { vec_capacity plane.new ≡ vec_capacity plane.old }
{
    fill_up(plane, y * line.len() + line.len());
    put(plane, y, line);
}

/// Keeps the lines of a picture, each in its place. It refuses exactly the lines that are not of
/// its configuration, and counts them modulo 2^64.
///
/// Room for all planes is set aside at once, for exactly their bytes, and first written as the
/// lines come: a picture that is refused early costs the lines that it had.
#[derive(Drop)]
pub struct KeepLines<A: Allocator = Global> {
    grid: Grid,
    planes: Vec<Vec<u8, A>, A>,
    failures: u64,
}

impl<A: Allocator> Model for KeepLines<A> {
    ghost use Rattle.ffv1_frame.specs.Picture.{planes_of};
    ghost use Rattle.ffv1_decode.specs.Filled.{filled_planes};
    ghost use Rattle.ffv1_decode.specs.Internal.Begun.{AreBegun};
    ghost use Rattle.ffv1_frame.specs.Kept.{Kept};

    ghost Value = { Kept };

    ghost view = { λ s. record {
      grid = s.grid;
      planes = filled_planes s.grid (planes_of s.planes.items);
      failures = s.failures;
    } };

    ghost invariant = { λ s. AreBegun s.grid s.planes.items };
}

/// Planes without lines, each with room for all of them.
fn rooms<A: Allocator + Copy>(alloc: A, grid: &Grid) -> Result<Vec<Vec<u8, A>, A>, AllocError>
    requires { IsDivision grid.now }
    ensures begun { IfOk result (λ v. AreBegun grid.now v.items) }
    ensures zeros { IfOk result (λ v.
        filled_planes grid.now (planes_of v.items) ≡ zeros_of grid.now) }
{
    let mut planes = Vec::new(alloc);
    for plane in 0..grid.planes() {
        planes.push(Vec::with_capacity(alloc, plane_bytes(grid, plane))?)?;
    }
    Ok(planes)
}

/// Puts zeros in place of all lines that are missing.
fn fill<A: Allocator>(grid: &Grid, planes: &mut [Vec<u8, A>])
    requires division { IsDivision grid.now }
    requires begun { AreBegun grid.now planes.old }
    ensures begun { AreBegun grid.now planes.new }
    ensures planes { planes_of planes.new ≡ filled_planes grid.now (planes_of planes.old) }
{
    for plane in 0..grid.planes() {
        fill_up(&mut planes[plane as usize], plane_bytes(grid, plane));
    }
}

impl<A: Allocator + Copy> KeepLines<A> {
    /// A sink of a configuration's lines. Refuses if memory is refused.
    pub fn new<B: Allocator>(alloc: A, checked: &Checked<B>) -> Result<KeepLines<A>, CodecFault>
        ensures ok { IfOk result (λ s. s ≡ record {
          grid = division_of checked.now.configuration;
          planes = zeros_of (division_of checked.now.configuration);
          failures = 0;
        }) }
        ensures err { IfErr result (λ f. f ≡ fault.OutOfMemory) }
    {
        let grid = Grid::of(checked);
        let planes = rooms(alloc, &grid)?;
        Ok(KeepLines {
            grid,
            planes,
            failures: 0,
        })
    }
}

impl<A: Allocator> KeepLines<A> {
    /// The planes: each accepted line in its place, and 0 where there was none. Each has memory for
    /// exactly its bytes, as it had from the beginning.
    pub fn planes(&mut self) -> &[Vec<u8, A>]
        ensures value { self.old.planes ≡ planes_of result.now }
        ensures sizes { AreOf self.old.grid self.old.planes }
        ensures rooms { AreRooms self.old.grid result.now }
        ensures* same { sem 𝓛 (Rests (the_row A.row A.Allocator) self.entry
            (λ new. new ≡ self.old)) }
    {
        fill(&self.grid, &mut self.planes);
        self.planes.as_slice()
    }

    /// How many lines were refused, modulo 2^64.
    pub fn failures(&self) -> u64
        ensures { result ≡ self.now.failures }
    {
        self.failures
    }
}

impl<A: Allocator> LineSink for KeepLines<A> {
    ghost takes = { λ s plane y samples t. Keeps s plane y samples t };

    ghost refuses = { λ s plane y samples t. KeepsNot s plane y samples t };

    ghost failures = { λ s. s.failures };

    fn line(&mut self, plane: u8, y: u16, samples: &[u8]) -> Result<(), SinkFault> {
        if !is_line(&self.grid, plane, y, samples) {
            self.failures = self.failures.wrapping_add(1);
            return Err(SinkFault);
        }
        keep(&mut self.planes[plane as usize], y as usize, samples);
        Ok(())
    }
}

/// A line that is kept stands in its place, every other line of every plane is as it was, and the
/// planes keep their sizes.
pub fn kept_line_stands_in_its_place()
    ensures here { (s t : Kept) (p y : ℕ) (samples : List ℕ) → AreOf s.grid s.planes →
        Keeps s p y samples t →
        row_in (sample_bytes s.grid.depth * whole_of (across s.grid p)) y (plane t.planes p)
        ≡ samples }
    ensures others { (s t : Kept) (p y q z : ℕ) (samples : List ℕ) → AreOf s.grid s.planes →
        Keeps s p y samples t → q < s.grid.planes → z < whole_of (down s.grid q) →
        (q ≢ p) ⊎ (z ≢ y) →
        row_in (sample_bytes s.grid.depth * whole_of (across s.grid q)) z (plane t.planes q)
        ≡ row_in (sample_bytes s.grid.depth * whole_of (across s.grid q)) z (plane s.planes q) }
    ensures sizes { (s t : Kept) (p y : ℕ) (samples : List ℕ) → AreOf s.grid s.planes →
        Keeps s p y samples t → AreOf t.grid t.planes }
{}

/// Drops the lines of a picture. It refuses exactly the lines that are not of its configuration,
/// and counts them modulo 2^64. It takes no memory.
#[derive(Drop)]
pub struct DropLines {
    grid: Grid,
    failures: u64,
}

impl Model for DropLines {
    ghost use Rattle.ffv1_frame.specs.Kept.{Dropped};

    ghost Value = { Dropped };

    ghost view = { λ s. record { grid = s.grid; failures = s.failures } };
}

impl DropLines {
    /// A sink of a configuration's lines.
    pub fn new<B: Allocator>(checked: &Checked<B>) -> DropLines
        ensures { result ≡ record {
          grid = division_of checked.now.configuration;
          failures = 0;
        } }
    {
        DropLines {
            grid: Grid::of(checked),
            failures: 0,
        }
    }

    /// How many lines were refused, modulo 2^64.
    pub fn failures(&self) -> u64
        ensures { result ≡ self.now.failures }
    {
        self.failures
    }
}

impl LineSink for DropLines {
    ghost takes = { λ s plane y samples t. Drops s plane y samples t };

    ghost refuses = { λ s plane y samples t. DropsNot s plane y samples t };

    ghost failures = { λ s. s.failures };

    fn line(&mut self, plane: u8, y: u16, samples: &[u8]) -> Result<(), SinkFault> {
        if is_line(&self.grid, plane, y, samples) {
            return Ok(());
        }
        self.failures = self.failures.wrapping_add(1);
        Err(SinkFault)
    }
}
