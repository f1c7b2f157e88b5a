//! Compares configurations: they are equal exactly if all that they say is.

ghost use Rattle.std.specs.Prelude.{◌≡◌, ◌↔◌, IsTrue};
ghost use Rattle.ffv1_record.specs.Configuration.{configuration_of};
ghost use Rattle.ffv1_record.specs.Equal.{is_same_grid, are_same_planes, is_same_coding, is_same};
ghost use Rattle.ffv1_record.specs.Equal.{is_same_checked};

use crate::checked::Checked;
use crate::config::{Coder, Colour, Config, Profile};
use crate::sets::Sets;
use std::alloc::Allocator;

impl PartialEq for Coder {
    ghost use Rattle.std.specs.Prelude.{◌≡◌, ◌↔◌, IsTrue};
    ghost use Rattle.std.specs.Cmp.{partial_equiv_from_equiv};
    ghost use Rattle.ffv1_record.specs.Equal.{is_same_coder};
    ghost use Rattle.ffv1_record.specs.Equal.{coder_equivalence};

    ghost eq = { is_same_coder };

    ghost laws = { partial_equiv_from_equiv coder_equivalence };

    fn eq(&self, other: &Coder) -> bool
        ensures value { result ≡ is_same_coder self.now other.now }
        ensures same { IsTrue result ↔ (self.now ≡ other.now) }
    {
        match (self, other) {
            (Coder::Rice, Coder::Rice) => true,
            (Coder::One, Coder::One) => true,
            (Coder::Two(deltas), Coder::Two(others)) => deltas.as_slice() == others.as_slice(),
            _ => false,
        }
    }
}

impl Eq for Coder {
    ghost use Rattle.ffv1_record.specs.Equal.{coder_equivalence};

    ghost laws = { coder_equivalence };
}

impl PartialEq for Colour {
    ghost use Rattle.std.specs.Prelude.{◌≡◌, ◌↔◌, IsTrue};
    ghost use Rattle.std.specs.Cmp.{partial_equiv_from_equiv};
    ghost use Rattle.ffv1_record.specs.Equal.{is_same_colour};
    ghost use Rattle.ffv1_record.specs.Equal.{colour_equivalence};

    ghost eq = { is_same_colour };

    ghost laws = { partial_equiv_from_equiv colour_equivalence };

    fn eq(&self, other: &Colour) -> bool
        ensures value { result ≡ is_same_colour self.now other.now }
        ensures same { IsTrue result ↔ (self.now ≡ other.now) }
    {
        matches!(
            (self, other),
            (Colour::YCbCr, Colour::YCbCr) | (Colour::Rct, Colour::Rct)
        )
    }
}

impl Eq for Colour {
    ghost use Rattle.ffv1_record.specs.Equal.{colour_equivalence};

    ghost laws = { colour_equivalence };
}

impl PartialEq for Profile {
    ghost use Rattle.std.specs.Prelude.{◌≡◌, ◌↔◌, IsTrue};
    ghost use Rattle.std.specs.Cmp.{partial_equiv_from_equiv};
    ghost use Rattle.ffv1_record.specs.Equal.{is_same_profile};
    ghost use Rattle.ffv1_record.specs.Equal.{profile_equivalence};

    ghost eq = { is_same_profile };

    ghost laws = { partial_equiv_from_equiv profile_equivalence };

    fn eq(&self, other: &Profile) -> bool
        ensures value { result ≡ is_same_profile self.now other.now }
        ensures same { IsTrue result ↔ (self.now ≡ other.now) }
    {
        matches!(
            (self, other),
            (Profile::Strict, Profile::Strict) | (Profile::Wide, Profile::Wide)
        )
    }
}

impl Eq for Profile {
    ghost use Rattle.ffv1_record.specs.Equal.{profile_equivalence};

    ghost laws = { profile_equivalence };
}

/// Sets are equal if each is, one after the other.
impl<A: Allocator> PartialEq for Sets<A> {
    ghost use Rattle.std.specs.Prelude.{◌≡◌, ◌↔◌, IsTrue};
    ghost use Rattle.std.specs.Cmp.{partial_equiv_from_equiv};
    ghost use Rattle.ffv1_record.specs.Equal.{are_same_sets};
    ghost use Rattle.ffv1_record.specs.Equal.{sets_equivalence};

    ghost eq = { are_same_sets };

    ghost laws = { partial_equiv_from_equiv sets_equivalence };

    fn eq(&self, other: &Sets<A>) -> bool
        ensures value { result ≡ are_same_sets self.now other.now }
        ensures same { IsTrue result ↔ (self.now ≡ other.now) }
    {
        self.as_slice() == other.as_slice()
    }
}

impl<A: Allocator> Eq for Sets<A> {
    ghost use Rattle.ffv1_record.specs.Equal.{sets_equivalence};

    ghost laws = { sets_equivalence };
}

impl<A: Allocator> Config<A> {
    /// Whether the pictures have the same size and the same slices.
    fn is_same_grid(&self, other: &Config<A>) -> bool
        ensures { result ≡ is_same_grid (configuration_of self.now) (configuration_of other.now) }
    {
        self.width == other.width
            && (self.height == other.height
                && (self.columns == other.columns && self.rows == other.rows))
    }

    /// Whether colour and chroma are the same.
    fn are_same_planes(&self, other: &Config<A>) -> bool
        ensures { result ≡
            are_same_planes (configuration_of self.now) (configuration_of other.now) }
    {
        self.colour == other.colour
            && (self.chroma_planes == other.chroma_planes
                && (self.extra_plane == other.extra_plane
                    && (self.log2_h == other.log2_h && self.log2_v == other.log2_v)))
    }

    /// Whether the state transition table, the sets and the two flags are the same.
    fn is_same_coding(&self, other: &Config<A>) -> bool
        ensures { result ≡ is_same_coding (configuration_of self.now) (configuration_of other.now) }
    {
        self.coder == other.coder
            && (self.sets == other.sets && (self.ec == other.ec && self.intra == other.intra))
    }
}

/// Configurations are equal if all that they say is, wherever their sets lie in memory.
impl<A: Allocator> PartialEq for Config<A> {
    ghost use Rattle.std.specs.Prelude.{◌≡◌, ◌↔◌, IsTrue};
    ghost use Rattle.std.specs.Cmp.{partial_equiv_from_equiv, on_equiv};
    ghost use Rattle.ffv1_record.specs.Configuration.{configuration_of};
    ghost use Rattle.ffv1_record.specs.Equal.{is_same, configuration_equivalence};

    ghost eq = { λ a b. is_same (configuration_of a) (configuration_of b) };

    ghost laws = { partial_equiv_from_equiv (on_equiv configuration_of configuration_equivalence) };

    fn eq(&self, other: &Config<A>) -> bool
        ensures value { result ≡ is_same (configuration_of self.now) (configuration_of other.now) }
        ensures same { IsTrue result ↔ (configuration_of self.now ≡ configuration_of other.now) }
    {
        self.is_same_grid(other) && (self.are_same_planes(other) && self.is_same_coding(other))
    }
}

impl<A: Allocator> Eq for Config<A> {
    ghost use Rattle.std.specs.Cmp.{on_equiv};
    ghost use Rattle.ffv1_record.specs.Configuration.{configuration_of};
    ghost use Rattle.ffv1_record.specs.Equal.{configuration_equivalence};

    ghost laws = { on_equiv configuration_of configuration_equivalence };
}

/// Checked configurations are equal if the configurations, the depths and the profiles are: then
/// their tables are, too.
impl<A: Allocator> PartialEq for Checked<A> {
    ghost use Rattle.std.specs.Prelude.{◌≡◌, ◌↔◌, IsTrue};
    ghost use Rattle.std.specs.Cmp.{partial_equiv_from_equiv, on_equiv};
    ghost use Rattle.ffv1_record.specs.Equal.{is_same_checked, profiled_of, profiled_equivalence};

    ghost eq = { is_same_checked };

    ghost laws = { partial_equiv_from_equiv (on_equiv profiled_of profiled_equivalence) };

    fn eq(&self, other: &Checked<A>) -> bool
        ensures value { result ≡ is_same_checked self.now other.now }
        ensures same { IsTrue result ↔ (self.now ≡ other.now) }
    {
        self.profile() == other.profile()
            && (self.depth() == other.depth() && self.config() == other.config())
    }
}

impl<A: Allocator> Eq for Checked<A> {
    ghost use Rattle.std.specs.Cmp.{on_equiv};
    ghost use Rattle.ffv1_record.specs.Equal.{profiled_of, profiled_equivalence};

    ghost laws = { on_equiv profiled_of profiled_equivalence };
}
