//! Why bits are refused.

use thiserror::Error;

/// Why bits are refused. Displays as its number and name.
#[derive(Clone, Copy, Debug, PartialEq, Eq, Error)]
pub enum Fault {
    /// The bits end within what is read.
    #[error("27 BitsEnd")]
    BitsEnd,
    /// The bits are those of nothing that can stand there.
    #[error("28 BadCode")]
    BadCode,
}
