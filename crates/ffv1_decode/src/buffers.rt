//! What a decoder of frames holds, and what of it its parts are lent.

use crate::column::Column;
use std::alloc::Allocator;

/// The slices of a row, one in each column.
#[derive(Drop)]
pub struct Slices<A: Allocator> {
    /// The decoder of each, and what its head says.
    pub columns: Vec<Column, A>,
    /// The states of each, one slice's after the other's.
    pub states: Vec<u8, A>,
}

/// Lines of samples, in words of 16 bits or of 32.
#[derive(Drop)]
pub enum Lines<A: Allocator> {
    /// Of up to 16 bits a sample.
    Narrow(Vec<u16, A>),
    /// Of 17 bits a sample.
    Wide(Vec<u32, A>),
}

/// What a frame is decoded in, whatever its height.
#[derive(Drop)]
pub struct Buffers<A: Allocator> {
    /// The slices of a row.
    pub slices: Slices<A>,
    /// Three lines of the planes that are coded together: two that were read, and one that is.
    pub lines: Lines<A>,
    /// A line as it is handed over.
    pub out: Vec<u8, A>,
}
