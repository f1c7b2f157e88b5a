//! One quantisation table of a set.

ghost use Rattle.std.specs.Prelude.{◌≡◌, ℕ, ◌+◌, ◌-◌, ◌*◌, ◌^◌, ◌<◌, ◌≤◌, ◌+ℤ◌, pos, length, sum};
ghost use Rattle.std.specs.Prelude.{IsTrue, IfOk, List, map, min, replicate, if◌then◌else◌, nat_lt};
ghost use Rattle.ffv1_plane.specs.Quantisation.{is_filled, entry_of};
ghost use Rattle.ffv1_plane.specs.Context.{low};
ghost use Rattle.ffv1_plane.specs.Raised.{RaisedTable, IsRaised, half_of, raised_entry};
ghost use Rattle.ffv1_plane.specs.Raised.{AreLastPlaces, AreSteps};
ghost use Rattle.ffv1_plane.specs.Raised.{AreTableLanes};

use std::alloc::{AllocError, Allocator};
use std::marker::Model;
use std::simd::prelude::*;

/// Of a table, in 16 lanes each: the last places of the first five levels of its lower half, 255
/// for those that it has not, and its greatest level.
// Lanes from the first on: a loop over places would else spread each number anew.
#[derive(Clone, Copy)]
pub struct Steps {
    pub(crate) first: u8x16,
    pub(crate) second: u8x16,
    pub(crate) third: u8x16,
    pub(crate) fourth: u8x16,
    pub(crate) fifth: u8x16,
    pub(crate) most: u8x16,
}

/// What the entries of 16 places take of a table, in 16 lanes each: where its levels end, and its
/// scale.
// A copy of its own: a loop that stores samples reads it from the table but once.
#[derive(Clone, Copy)]
pub struct TableLanes {
    pub(crate) steps: Steps,
    pub(crate) scale: u16x16,
}

/// The runs of a table, its 256 entries, each raised by the greatest so that none is negative, and
/// where its levels end.
#[derive(Drop)]
pub struct Table<A: Allocator> {
    runs: Vec<u8, A>,
    raised: [u16; 256],
    steps: Steps,
    scale: u16,
}

impl<A: Allocator> Model for Table<A> {
    ghost Value = { RaisedTable };

    ghost view = { λ t. record { runs = t.runs.items; scale = t.scale } };

    ghost invariant = { λ t. IsRaised t.runs.items t.scale t.raised ×
        AreSteps t.runs.items t.steps };
}

/// Whether runs fill the lower half of a table, none of them empty.
pub fn fills(runs: &[u8]) -> bool
    ensures { result ≡ is_filled runs.now }
{
    let mut filled = 0u32;
    for &run in runs {
        if run == 0 || run as u32 > 128 - filled {
            return false;
        }
        filled += run as u32;
    }
    filled == 128
}

/// The scale after a table of these runs (RFC 9043, 4.1).
pub fn scale_after(scale: u64, runs: &[u8]) -> u64
    requires filled { IsTrue (is_filled runs.now) }
    requires room { scale < 2 ^ 40 }
    ensures value { result ≡ scale * (2 * length runs.now - 1) }
    ensures least { scale ≤ result }
    ensures most { result ≤ 255 * scale }
{
    scale * (2 * runs.len() as u64 - 1)
}

/// The entries of a table, each raised by the greatest.
fn raise(runs: &[u8], scale: u16) -> [u16; 256]
    requires filled { IsTrue (is_filled runs.now) }
    requires room { scale * (2 * length runs.now - 1) < 65536 }
    ensures { IsRaised runs.now scale result }
{
    let half = scale * (runs.len() - 1) as u16;
    let mut raised = [0u16; 256];
    raised[0] = half;
    let mut run = 0;
    let mut end = runs[0] as usize;
    let mut level = 0u16;
    for k in 1..128usize {
        if k == end {
            run += 1;
            end += runs[run] as usize;
            level += scale;
        }
        raised[k] = half + level;
        raised[256 - k] = half - level;
    }
    raised[128] = half - level;
    raised
}

/// The last places of the first five levels of a table's lower half but of its last level; 255 for
/// those that it has not.
fn last_places_of(runs: &[u8]) -> [u8; 5]
    requires { IsTrue (is_filled runs.now) }
    ensures { AreLastPlaces runs.now result }
{
    let mut last_places = [255; 5];
    let mut end = 0u8;
    for k in 0..(runs.len() - 1).min(5) {
        end += runs[k];
        last_places[k] = end - 1;
    }
    last_places
}

/// Where the levels of a table end.
fn steps_of(runs: &[u8]) -> Steps
    requires { IsTrue (is_filled runs.now) }
    ensures { AreSteps runs.now result }
{
    let [first, second, third, fourth, fifth] = last_places_of(runs);
    Steps {
        first: u8x16::splat(first),
        second: u8x16::splat(second),
        third: u8x16::splat(third),
        fourth: u8x16::splat(fourth),
        fifth: u8x16::splat(fifth),
        most: u8x16::splat((runs.len() - 1) as u8),
    }
}

impl<A: Allocator> Table<A> {
    /// The table of these runs at a scale.
    pub fn new(alloc: A, runs: &[u8], scale: u16) -> Result<Table<A>, AllocError>
        requires filled { IsTrue (is_filled runs.now) }
        requires room { scale * (2 * length runs.now - 1) < 65536 }
        ensures { IfOk result (λ t. t ≡ record { runs = runs.now; scale = scale }) }
    {
        let raised = raise(runs, scale);
        let steps = steps_of(runs);
        let runs = Vec::from_slice(alloc, runs)?;
        Ok(Table {
            runs,
            raised,
            steps,
            scale,
        })
    }

    /// The runs.
    pub fn runs(&self) -> &[u8]
        ensures { result.now ≡ self.now.runs }
    {
        self.runs.as_slice()
    }

    /// What the entries of 16 places take.
    #[inline(always)]
    pub fn lanes(&self) -> TableLanes
        ensures { AreTableLanes self.now result }
    {
        TableLanes {
            steps: self.steps,
            scale: u16x16::splat(self.scale),
        }
    }

    /// The entry at the low eight bits of `a - b`, raised by the greatest.
    #[inline(always)]
    pub fn raised(&self, a: u16, b: u16) -> u32
        ensures value { pos result ≡ entry_of self.now.runs self.now.scale (low a b) +ℤ pos
            (half_of self.now) }
        ensures small { result ≤ 2 * half_of self.now }
        ensures half { 2 * half_of self.now < 65536 }
    {
        self.raised[(a.wrapping_sub(b) % 256) as usize] as u32
    }

    /// The same of 16 places, in a table of at most eleven levels, by its lanes.
    #[inline(always)]
    pub fn raised_lanes(&self, table: &TableLanes, a: u16x16, b: u16x16) -> u16x16
        requires few { length self.now.runs ≤ 6 }
        requires table { AreTableLanes self.now table.now }
        ensures lanes { (places : List ℕ) (f g : ℕ → ℕ) → length places ≡ 16 → a ≡ map f places →
            b ≡ map g places → ((x : ℕ) → g x < 2 ^ 16) →
            result ≡ map (λ x. raised_entry self.now (low (f x) (g x))) places }
        ensures entries { (k : ℕ) → k < 256 → pos (raised_entry self.now k) ≡
            entry_of self.now.runs self.now.scale k +ℤ pos (half_of self.now) }
        ensures most { (k : ℕ) → k < 256 → raised_entry self.now k ≤ 2 * half_of self.now }
    {
        let _scale = self.scale;
        let differences = low_lanes(a, b);
        let Steps {
            first,
            second,
            third,
            fourth,
            fifth,
            most,
        } = table.steps;
        let sizes = size_lanes(differences);
        let levels = over_lanes(sizes, first)
            + over_lanes(sizes, second)
            + over_lanes(sizes, third)
            + over_lanes(sizes, fourth)
            + over_lanes(sizes, fifth);
        lift_lanes(differences, levels, most).cast::<u16>() * table.scale
    }
}

/// The low eight bits of 16 differences.
#[inline(always)]
fn low_lanes(a: u16x16, b: u16x16) -> u8x16
    ensures { (places : List ℕ) (f g : ℕ → ℕ) → length places ≡ 16 → a ≡ map f places →
        b ≡ map g places → ((x : ℕ) → g x < 2 ^ 16) →
        result ≡ map (λ x. low (f x) (g x)) places }
{
    ((a - b) & u16x16::splat(255)).cast::<u8>()
}

/// How far 16 places of a table lie from its first one, from either side.
#[inline(always)]
fn size_lanes(places: u8x16) -> u8x16
    ensures { (xs : List ℕ) (f : ℕ → ℕ) → length xs ≡ 16 → places ≡ map f xs →
        ((x : ℕ) → f x < 256) → result ≡ map (λ x. min (f x) (256 - f x)) xs }
{
    places.simd_min(places.wrapping_neg())
}

/// 1 for each of 16 sizes above a sample, which all lanes of `places` have, and else 0.
#[inline(always)]
fn over_lanes(sizes: u8x16, places: u8x16) -> u8x16
    ensures { (xs : List ℕ) (f : ℕ → ℕ) (place : ℕ) → length xs ≡ 16 → sizes ≡ map f xs →
        places ≡ replicate 16 place → result ≡ map (λ x. min (f x - place) 1) xs }
{
    // By `simd_gt` LLVM takes the places twice, and so moves them to a register first.
    sizes
        .simd_le(places)
        .select(u8x16::splat(0), u8x16::splat(1))
}

/// The levels of 16 places of a table, raised by the greatest, which all lanes of `most` have:
/// added in the lower half, else taken away.
#[inline(always)]
fn lift_lanes(places: u8x16, levels: u8x16, most: u8x16) -> u8x16
    ensures { (xs : List ℕ) (f g : ℕ → ℕ) (top : ℕ) → length xs ≡ 16 → places ≡ map f xs →
        levels ≡ map g xs → most ≡ replicate 16 top → top ≤ 5 → ((x : ℕ) → g x ≤ top) →
        result ≡ map (λ x. if nat_lt (f x) 128 then top + g x else top - g x) xs }
{
    places
        .simd_lt(u8x16::splat(128))
        .select(most + levels, most - levels)
}
