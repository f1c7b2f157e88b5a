//! Why a slice or a payload is refused.

ghost use Rattle.std.specs.Prelude.{◌≡◌};
ghost use Rattle.ffv1_slice.specs.declared.fault.SliceFault.TheVariants as fault;

use std::alloc::AllocError;
use thiserror::Error;

/// Why a slice or a payload is refused. It displays as its number and its name.
#[derive(Clone, Copy, Debug, PartialEq, Eq, Error)]
pub enum SliceFault {
    /// A growth of memory was refused.
    #[error("2 OutOfMemory")]
    OutOfMemory,
    /// The 31st decision of an exponent is 1.
    #[error("4 SymbolTooLong")]
    SymbolTooLong,
    /// The keyframe is 0.
    #[error("30 NotKey")]
    NotKey,
    /// A head's place is not that of its slice, or is not one cell.
    #[error("31 Place")]
    Place,
    /// A set index is not below the number of sets.
    #[error("32 SetIndex")]
    SetIndex,
    /// The picture structure is above 3.
    #[error("33 Structure")]
    Structure,
    /// A number of the sample aspect is above 65535, or at `Strict` one of them is zero alone.
    #[error("34 Aspect")]
    Aspect,
    /// Going from the end, fewer bytes are left than a footer, or fewer before the footer than its
    /// slice_size.
    #[error("35 Footer")]
    Footer,
    /// Bytes are left before the first slice.
    #[error("36 Leftover")]
    Leftover,
    /// A slice's remainder is not 0.
    #[error("37 SliceParity")]
    SliceParity,
    /// A slice's error_status is not 0.
    #[error("38 SliceStatus")]
    SliceStatus,
    /// A slice's coded bytes pass 16777215.
    #[error("40 SliceTooLong")]
    SliceTooLong,
}

impl From<AllocError> for SliceFault {
    ghost from_gives = { λ _ f. f ≡ fault.OutOfMemory };

    fn from(_refused: AllocError) -> SliceFault {
        SliceFault::OutOfMemory
    }
}
