//! Pictures.

ghost use Rattle.std.specs.Prelude.{◌≡◌, ◌≢◌, ◌↔◌, ◌<◌, ◌≤◌, ◌^◌, ℕ, IfSome, IsNone, IsTrue};
ghost use Rattle.std.specs.Prelude.{IsFalse, length, slice_index};
ghost use Rattle.ffv1_samples.specs.Samples.{AreBelow, samples_of};
ghost use Rattle.ffv1_slice.specs.Grid.{IsDivision};
ghost use Rattle.ffv1_frame.specs.Picture.{Fits, FitsIn, planes_of};
ghost use Rattle.ffv1_frame.specs.Picture.{AreSamples};

use crate::plane_sizes::plane_bytes;
use ffv1_record::Checked;
use ffv1_samples::are_in_depth;
use ffv1_slice::Grid;
use std::alloc::{Allocator, Global};
use std::marker::Model;

/// A picture: for each plane its samples, row after row (RFC 9043, 3.2). In RCT the planes are red,
/// green, blue and, if there is one, transparency, else Y, Cb, Cr and transparency. A sample of
/// 8 bits is a byte, and one of more bits two, the low byte first. It is seen as the list of its
/// planes.
#[derive(Drop)]
pub struct Picture<A: Allocator = Global> {
    planes: Vec<Vec<u8, A>, A>,
}

impl<A: Allocator> Model for Picture<A> {
    ghost use Rattle.ffv1_frame.specs.Picture.{Planes, planes_of, AreSamples};

    ghost Value = { Planes };

    ghost view = { λ p. planes_of p.planes.items };

    ghost invariant = { λ p. AreSamples (planes_of p.planes.items) };
}

/// Whether a plane has so many bytes.
fn has(samples: &[u8], size: usize) -> bool
    ensures yes { IsTrue result → length samples.now ≡ size }
    ensures no { IsFalse result → length samples.now ≢ size }
    ensures bytes { (i : ℕ) → slice_index samples.now i < 256 }
{
    samples.len() == size
}

/// Whether no sample of a plane has more bits than its depth.
fn are_small(depth: u32, samples: &[u8]) -> bool
    requires least { 8 ≤ depth }
    requires most { depth ≤ 16 }
    ensures yes { IsTrue result → AreBelow (2 ^ depth) (samples_of depth samples.now) }
    ensures deep { IsFalse result → depth ≢ 8 }
    ensures no { IsFalse result → AreBelow (2 ^ depth) (samples_of depth samples.now) → ⊥ }
{
    are_in_depth(depth, samples)
}

/// Whether there are as many planes as a grid has, each of its size, and no sample has more bits
/// than the grid's depth.
fn fit<A: Allocator>(grid: &Grid, planes: &[Vec<u8, A>]) -> bool
    requires { IsDivision grid.now }
    ensures yes { IsTrue result → FitsIn grid.now (planes_of planes.now) }
    ensures samples { IsTrue result → AreSamples (planes_of planes.now) }
    ensures no { IsFalse result → FitsIn grid.now (planes_of planes.now) → ⊥ }
{
    if planes.len() != grid.planes() as usize {
        return false;
    }
    for plane in 0..grid.planes() {
        let samples = planes[plane as usize].as_slice();
        if !has(samples, plane_bytes(grid, plane)) {
            return false;
        }
        if !are_small(grid.depth(), samples) {
            return false;
        }
    }
    true
}

impl<A: Allocator> Picture<A> {
    /// A picture of a configuration. None exactly if the number of planes, or the length of one, is
    /// not the configuration's, or if a sample has more bits than its depth, which at 8 bits none
    /// has. The planes are then dropped. It takes no memory.
    pub fn new<B: Allocator>(checked: &Checked<B>, planes: Vec<Vec<u8, A>, A>) -> Option<Picture<A>>
        ensures some { IfSome result (λ p. p ≡ planes_of planes.items) }
        ensures fits { IfSome result (Fits checked.now.configuration) }
        ensures none { IsNone result → Fits checked.now.configuration (planes_of planes.items) → ⊥ }
    {
        if !fit(&Grid::of(checked), planes.as_slice()) {
            return None;
        }
        Some(Picture { planes })
    }

    /// Whether the number of planes and their lengths are a configuration's, and no sample has more
    /// bits than its depth.
    pub fn fits<B: Allocator>(&self, checked: &Checked<B>) -> bool
        ensures { IsTrue result ↔ Fits checked.now.configuration self.now }
    {
        fit(&Grid::of(checked), self.planes.as_slice())
    }

    /// Its planes, each of the bytes of its samples, row after row.
    pub fn planes(&self) -> &[Vec<u8, A>]
        ensures value { self.now ≡ planes_of result.now }
        ensures samples { AreSamples self.now }
    {
        self.planes.as_slice()
    }

    /// Hands its planes back.
    pub fn into_planes(self) -> Vec<Vec<u8, A>, A>
        ensures { planes_of result.items ≡ self }
    {
        self.planes
    }
}
