//! Configurations that were checked.

ghost use Rattle.std.specs.Prelude.{◌≡◌, ℕ, ◌+◌, ◌*◌, ◌<◌, ◌≤◌};
ghost use Rattle.ffv1_record.specs.Configuration.{configuration_of, at_depth};
ghost use Rattle.ffv1_record.specs.Accepted.{IsAccepted, PassesAll, checks, deepest};
ghost use Rattle.ffv1_record.specs.Held.{held_of};
ghost use Rattle.ffv1_range.specs.Table.{IsTable};

use crate::config::{Colour, Config, Profile};
use ffv1_range::StateTable;
use ffv1_samples::sample_bytes;
use std::alloc::{Allocator, Global};
use std::marker::Model;

/// How many offsets of slices are held: those of 32 by 32, and the end of the last one.
pub const OFFSETS: usize = 1025;

/// How much a decoder of pictures holds: the lengths of its vectors. The height of the pictures
/// says only whether two lines of chroma are kept.
#[derive(Clone, Copy, Debug, PartialEq, Eq)]
pub struct Held {
    /// States: 32 for each column, class of planes, and context of the largest set.
    pub states: usize,
    /// Samples: three lines of each plane that is held at once, in words of 32 bits if a coded
    /// sample has 17, as RCT of 16 bits has, else of 16; and a line of Cb and one of Cr if two
    /// rows of slices share a line of chroma.
    pub samples: usize,
    /// Bytes of output: one line of each such plane, of one byte a sample at 8 bits, else two.
    pub output: usize,
    /// Column records.
    pub columns: usize,
    /// Offsets of slices: one more than the largest grid has slices.
    pub offsets: usize,
}

/// A configuration that was checked, its depth, its state transition table, and the profile that it
/// was checked in.
#[derive(Drop)]
pub struct Checked<A: Allocator = Global> {
    config: Config<A>,
    depth: u32,
    table: StateTable,
    profile: Profile,
}

impl<A: Allocator> Model for Checked<A> {
    ghost use Rattle.ffv1_record.specs.Configuration.{configuration_of, at_depth};
    ghost use Rattle.std.specs.Prelude.{◌≤◌};
    ghost use Rattle.ffv1_record.specs.Accepted.{Accepted, IsAccepted, PassesAll, checks, deepest};

    ghost Value = { Accepted };

    ghost view = { λ c. record {
      configuration = at_depth (configuration_of c.config) c.depth;
      table = c.table;
      profile = c.profile;
    } };

    ghost invariant = { λ c. IsAccepted (at_depth (configuration_of c.config) c.depth) c.table
        × (c.depth ≤ deepest c.profile 16)
        × PassesAll c.profile checks (at_depth (configuration_of c.config) c.depth) };
}

impl<A: Allocator> Checked<A> {
    /// A configuration, its depth, its table, and a profile.
    pub(crate) fn new(
        config: Config<A>,
        depth: u32,
        table: StateTable,
        profile: Profile,
    ) -> Checked<A>
        requires accepted { IsAccepted (at_depth (configuration_of config) depth) table }
        requires depth { depth ≤ deepest profile 16 }
        requires passes { PassesAll profile checks (at_depth (configuration_of config) depth) }
        ensures value { result ≡ record {
          configuration = at_depth (configuration_of config) depth;
          table = table;
          profile = profile;
        } }
        ensures accepted { IsAccepted result.configuration result.table }
    {
        Checked {
            config,
            depth,
            table,
            profile,
        }
    }

    /// The configuration, which does not say the depth.
    pub fn config(&self) -> &Config<A>
        ensures value { self.now.configuration
            ≡ at_depth (configuration_of result.now) self.now.configuration.depth }
        ensures accepted { IsAccepted self.now.configuration self.now.table }
    {
        &self.config
    }

    /// The bits of a sample: 8, or in the profile `Wide` also 9, 10, 12, 14 or 16.
    pub fn depth(&self) -> u32
        ensures value { result ≡ self.now.configuration.depth }
        ensures least { 8 ≤ result }
        ensures most { result ≤ 16 }
        ensures profile { result ≤ deepest self.now.profile 16 }
    {
        self.depth
    }

    /// Its state transition table.
    pub fn table(&self) -> &StateTable
        ensures value { result.now ≡ self.now.table }
        ensures accepted { IsAccepted self.now.configuration self.now.table }
    {
        &self.table
    }

    /// The profile that it was checked in, whose checks it passes.
    pub fn profile(&self) -> Profile
        ensures value { result ≡ self.now.profile }
        ensures passes { PassesAll result checks self.now.configuration }
    {
        self.profile
    }

    /// How much a decoder of its pictures holds.
    pub fn held(&self) -> Held
        ensures { result ≡ held_of self.now.configuration }
    {
        let config = &self.config;
        let planes = match config.colour {
            Colour::YCbCr => 1,
            Colour::Rct => { if config.extra_plane { 4 } else { 3 } }
        };
        let columns = config.columns as usize;
        let width = config.width as usize;
        let kept = config.kept();
        Held {
            states: 32 * columns * config.classes() * config.sets.most_contexts() as usize,
            samples: 3 * planes * width + kept,
            output: sample_bytes(self.depth) * (planes * width),
            columns,
            offsets: OFFSETS,
        }
    }
}
