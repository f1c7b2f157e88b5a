//! Why a quantisation table set is refused.

ghost use Rattle.std.specs.Prelude.{◌≡◌};
ghost use Rattle.ffv1_plane.specs.declared.fault.Fault.TheVariants.{OutOfMemory};

use std::alloc::AllocError;
use thiserror::Error;

/// Why a quantisation table set is refused. Displays as its number and name.
#[derive(Clone, Copy, Debug, PartialEq, Eq, Error)]
pub enum Fault {
    /// A growth was refused.
    #[error("2 OutOfMemory")]
    OutOfMemory,
    /// A table has no run, a run of 0, or runs that do not fill its 128 entries exactly.
    #[error("5 Runs")]
    Runs,
    /// The set has more than 32768 contexts.
    #[error("6 Contexts")]
    Contexts,
}

impl From<AllocError> for Fault {
    ghost from_gives = { λ _ f. f ≡ OutOfMemory };

    fn from(_e: AllocError) -> Fault {
        Fault::OutOfMemory
    }
}
