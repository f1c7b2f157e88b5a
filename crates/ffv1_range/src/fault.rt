//! Why a call of the range coder is refused.

ghost use Rattle.std.specs.Prelude.{◌≡◌};
ghost use Rattle.ffv1_range.specs.declared.fault.Fault.TheVariants as fault;

use std::alloc::AllocError;
use thiserror::Error;

/// Why a call of the range coder is refused. It displays as its number and its name.
#[derive(Clone, Copy, Debug, PartialEq, Eq, Error)]
pub enum Fault {
    /// The deltas make no table of states.
    #[error("1 StateTable")]
    StateTable,
    /// A growth of memory was refused.
    #[error("2 OutOfMemory")]
    OutOfMemory,
    /// The first two bytes, with zeros after the end, are 65280 or more.
    #[error("3 BadStart")]
    BadStart,
    /// The 31st decision of an exponent is 1.
    #[error("4 SymbolTooLong")]
    SymbolTooLong,
}

impl From<AllocError> for Fault {
    ghost from_gives = { λ _ f. f ≡ fault.OutOfMemory };

    fn from(_refused: AllocError) -> Fault {
        Fault::OutOfMemory
    }
}
