//! How the samples of a line are coded one by one.

use ffv1_plane::QuantSet;
use ffv1_range::StateTable;
use std::alloc::Allocator;

/// By which table of states, by which quantisation table set, and how many bits a sample has.
#[derive(Drop)]
pub(crate) struct Way<'a, B: Allocator> {
    /// How states move.
    pub(crate) table: &'a StateTable,
    /// The quantisation table set of the plane.
    pub(crate) set: &'a QuantSet<B>,
    /// The bits of a sample.
    pub(crate) bits: u8,
}
