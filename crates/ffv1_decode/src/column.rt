//! What is kept of the slice of a column.

use ffv1_range::Parked;
use ffv1_rice::ParkedBits;

/// The slice of a column, between two of its lines.
#[derive(Drop)]
pub struct Column {
    /// Its decoder, once it is open; of Golomb-Rice coded samples behind its head.
    pub parked: Option<Parked>,
    /// The bits of Golomb-Rice coded samples that are left, once a line is read.
    pub bits: Option<ParkedBits>,
    /// The index of their runs.
    pub index: u32,
    /// Where its coded bytes begin in the payload.
    pub first: usize,
    /// Where they end.
    pub last: usize,
    /// The numbers of its sets, by the class of planes.
    pub indexes: [u8; 3],
}
