//! Why a row is refused.

use thiserror::Error;

/// The symbol of a sample has an exponent that is too long: its 31st exponent decision is 1.
#[derive(Clone, Copy, Debug, PartialEq, Eq, Error)]
#[error("4 SymbolTooLong")]
pub struct TooLong {
    /// The place in the row, from 0.
    pub x: usize,
}
