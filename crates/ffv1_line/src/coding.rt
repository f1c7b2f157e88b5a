//! How the rows of a plane are coded.

ghost use Rattle.std.specs.Prelude.{◌≡◌, ◌⊎◌};

pub mod states;
pub(crate) mod way;

use ffv1_plane::QuantSet;
use ffv1_range::StateTable;
use std::alloc::Allocator;
use std::marker::Model;

/// How the rows of a cell of a plane are coded: by which table of states, by which quantisation
/// table set, and how many bits a sample of a line has, from 8 to 17: those of the pictures, and
/// one more if colours are coded as luma and differences (RFC 9043, 3.7.2). Samples of 16 bits
/// are predicted by signed numbers (RFC 9043, 3.3). Up to 16 bits the samples of a line lie in
/// words of 16 bits, and those of 17 bits in words of 32.
#[derive(Drop)]
pub struct Coding<'a, B: Allocator> {
    /// How states move.
    pub table: &'a StateTable,
    /// The quantisation table set of the plane.
    pub set: &'a QuantSet<B>,
    /// The bits of a sample, from 8 to 17.
    pub bits: u8,
}

impl<'a, B: Allocator> Model for Coding<'a, B> {
    ghost use Rattle.std.specs.Prelude.{◌≤◌};
    ghost use Rattle.ffv1_line.specs.Coding.{RowCoding};

    ghost Value = { RowCoding };

    ghost view = { λ c. record { table = c.table.now; set = c.set.now; bits = c.bits } };

    ghost invariant = { λ c. (8 ≤ c.bits) × (c.bits ≤ 17) };
}

/// The bits as a constant, which 0 is not.
#[inline(always)]
pub(crate) fn fixed_bits<const BITS: u8>(bits: u8) -> u8
    requires { (BITS ≡ 0) ⊎ (bits ≡ BITS) }
    ensures { result ≡ bits }
{
    if BITS == 0 { bits } else { BITS }
}
