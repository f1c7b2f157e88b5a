//! Why a line is refused.

use thiserror::Error;

/// The samples at a position of a line give a red, green, blue or transparency that is below 0 or
/// has more bits than a sample. Displays as the fault's number and name.
#[derive(Clone, Copy, Debug, PartialEq, Eq, Error)]
#[error("7 Colour")]
pub struct NoColour {
    /// The first such position, counted from 0.
    pub x: usize,
}
