//! Why a configuration or its record is refused.

ghost use Rattle.std.specs.Prelude.{◌≡◌};
ghost use Rattle.ffv1_record.specs.declared.fault.RecordFault.TheVariants as fault;
ghost use Rattle.ffv1_record.specs.Faults.{of_range, of_plane};

use std::alloc::{AllocError, AllocFailed};
use thiserror::Error;

/// Why a configuration or its record is refused. It displays as its number and its name.
#[derive(Clone, Copy, Debug, PartialEq, Eq, Error)]
pub enum RecordFault {
    /// The deltas make no state transition table.
    #[error("1 StateTable")]
    StateTable,
    /// A growth of memory was refused.
    #[error("2 OutOfMemory")]
    OutOfMemory,
    /// The first two bytes of a record are 65280 or more.
    #[error("3 BadStart")]
    BadStart,
    /// The 31st decision of an exponent is 1.
    #[error("4 SymbolTooLong")]
    SymbolTooLong,
    /// The runs of a quantisation table pass 128.
    #[error("5 Runs")]
    Runs,
    /// A quantisation table set has more than 32768 contexts.
    #[error("6 Contexts")]
    Contexts,
    /// The width or the height is not from 1 to 8192.
    #[error("10 Size")]
    Size,
    /// There are not 1 to 32 columns or rows, or more columns than the width, or more rows than the
    /// height.
    #[error("11 Grid")]
    Grid,
    /// In `Strict`, an inner edge of the slices is no multiple of its chroma factor; in `Wide`, a
    /// column or a line of chroma lies in no slice.
    #[error("12 ChromaEdge")]
    ChromaEdge,
    /// A chroma factor is above 4; or RCT has no chroma planes; or a chroma factor is not 1 with
    /// RCT or without chroma planes.
    #[error("13 Subsampling")]
    Subsampling,
    /// There are not 1 to 8 quantisation table sets.
    #[error("14 Sets")]
    Sets,
    /// A record has fewer than 5 bytes.
    #[error("15 Short")]
    Short,
    /// A record's remainder is not 0.
    #[error("16 Parity")]
    Parity,
    /// The version is not 3.
    #[error("17 Version")]
    Version,
    /// The micro version is not 4.
    #[error("18 MicroVersion")]
    MicroVersion,
    /// The coder type is not 1 or 2; in `Wide` also not 0, or 0 of samples of more than 8 bits.
    #[error("19 Coder")]
    Coder,
    /// The colour space type is not 0 or 1.
    #[error("20 ColourSpace")]
    ColourSpace,
    /// The bits of a sample are none of the profile's: 8, and in `Wide` also 9, 10, 12, 14 and 16
    /// up to a greatest one; in a record also 0, which means 8.
    #[error("21 Depth")]
    Depth,
    /// The initial states of a set are coded.
    #[error("22 CodedStates")]
    CodedStates,
    /// Ec is above 1.
    #[error("23 Ec")]
    Ec,
    /// Intra is above 1.
    #[error("24 Intra")]
    Intra,
    /// There is an extra plane, but no chroma planes.
    #[error("25 ExtraPlane")]
    ExtraPlane,
}

impl From<AllocError> for RecordFault {
    ghost from_gives = { λ _ f. f ≡ fault.OutOfMemory };

    fn from(_refused: AllocError) -> RecordFault {
        RecordFault::OutOfMemory
    }
}

impl<T: Drop> From<AllocFailed<T>> for RecordFault {
    ghost from_gives = { λ _ f. f ≡ fault.OutOfMemory };

    fn from(_refused: AllocFailed<T>) -> RecordFault {
        RecordFault::OutOfMemory
    }
}

impl From<ffv1_range::Fault> for RecordFault {
    ghost from_gives = { λ e f. f ≡ of_range e };

    fn from(refused: ffv1_range::Fault) -> RecordFault {
        match refused {
            ffv1_range::Fault::StateTable => RecordFault::StateTable,
            ffv1_range::Fault::OutOfMemory => RecordFault::OutOfMemory,
            ffv1_range::Fault::BadStart => RecordFault::BadStart,
            ffv1_range::Fault::SymbolTooLong => RecordFault::SymbolTooLong,
        }
    }
}

impl From<ffv1_plane::Fault> for RecordFault {
    ghost from_gives = { λ e f. f ≡ of_plane e };

    fn from(refused: ffv1_plane::Fault) -> RecordFault {
        match refused {
            ffv1_plane::Fault::OutOfMemory => RecordFault::OutOfMemory,
            ffv1_plane::Fault::Runs => RecordFault::Runs,
            ffv1_plane::Fault::Contexts => RecordFault::Contexts,
        }
    }
}
