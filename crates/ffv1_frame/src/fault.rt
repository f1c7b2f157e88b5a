//! Why a frame is not encoded, or not decoded, and where.

ghost use Rattle.std.specs.Prelude.{◌≡◌};
ghost use Rattle.ffv1_frame.specs.declared.fault.CodecFault.TheVariants as fault;
ghost use Rattle.ffv1_frame.specs.Decoding.{in_slice};

use std::alloc::AllocError;
use thiserror::Error;

/// Why a frame is not encoded, or not decoded. It displays as its number and its name.
#[derive(Clone, Copy, Debug, PartialEq, Eq, Error)]
pub enum CodecFault {
    /// A growth of memory was refused.
    #[error("2 OutOfMemory")]
    OutOfMemory,
    /// The first two bytes of a slice, big end first and with zeros after the end, are 65280 or
    /// more.
    #[error("3 BadStart")]
    BadStart,
    /// The 31st decision of an exponent is 1.
    #[error("4 SymbolTooLong")]
    SymbolTooLong,
    /// The samples at a position give a red, green, blue or transparency that is below 0 or has
    /// more bits than a sample.
    #[error("7 Colour")]
    Colour,
    /// At `Wide` a slice is read more than two bytes past its end: its decoder renormalised more
    /// often than the slice has coded bytes.
    #[error("8 Overread")]
    Overread,
    /// At `Wide` a slice does not end after the last line of its cells: its next decision by state
    /// 129 would be 1, or its decoder would then not have renormalised exactly once less than the
    /// slice has coded bytes.
    #[error("9 Ending")]
    Ending,
    /// At `Wide` the bits of a slice end within a line of Golomb-Rice coded samples.
    #[error("27 BitsEnd")]
    BitsEnd,
    /// At `Wide` the bits of a slice are those of nothing that can stand at a sample.
    #[error("28 BadCode")]
    BadCode,
    /// At `Wide` something other than zeros to the end of a byte stands behind the last bit of a
    /// slice.
    #[error("29 Padding")]
    Padding,
    /// The keyframe is 0.
    #[error("30 NotKey")]
    NotKey,
    /// A head's place is not that of its slice, or is not one cell.
    #[error("31 Place")]
    Place,
    /// A set index is not below the number of sets.
    #[error("32 SetIndex")]
    SetIndex,
    /// The picture structure is above 3.
    #[error("33 Structure")]
    Structure,
    /// A number of the sample aspect is above 65535, or at `Strict` one of them is zero alone.
    #[error("34 Aspect")]
    Aspect,
    /// Going from the end, fewer bytes are left than a footer, or fewer before the footer than its
    /// slice_size.
    #[error("35 Footer")]
    Footer,
    /// Bytes are left before the first slice.
    #[error("36 Leftover")]
    Leftover,
    /// A slice's remainder is not 0.
    #[error("37 SliceParity")]
    SliceParity,
    /// A slice's error_status is not 0.
    #[error("38 SliceStatus")]
    SliceStatus,
    /// At `Wide` two slices say different values of one sample of chroma.
    #[error("39 Overlap")]
    Overlap,
    /// A slice's coded bytes pass 16777215.
    #[error("40 SliceTooLong")]
    SliceTooLong,
    /// A slice says another structure or aspect than the first slice.
    #[error("41 InfoDiffers")]
    InfoDiffers,
    /// The sink refused a line.
    #[error("42 Sink")]
    Sink,
}

impl From<AllocError> for CodecFault {
    ghost from_gives = { λ _ f. f ≡ fault.OutOfMemory };

    fn from(_refused: AllocError) -> CodecFault {
        CodecFault::OutOfMemory
    }
}

/// Why a payload is not decoded, and where. A number that a fault has none of is 0.
#[derive(Clone, Copy, Debug, PartialEq, Eq)]
pub struct FrameFault {
    /// Why.
    pub fault: CodecFault,
    /// The number of the slice, in raster order. It is 0 for bytes before the first slice, that of
    /// the slice which holds `x` for a colour, and that of the row's first slice for a sink.
    pub slice: u16,
    /// The plane of a sample's symbol, of a sample of which a slice before says another value, of a
    /// line that was read too far or that does not end its slice, or of the line that a sink
    /// refused.
    pub plane: u8,
    /// The line of the plane: of a sample's symbol, a sample of which a slice before says another
    /// value, a colour, the line that was read too far or that does not end its slice, or the line
    /// that a sink refused.
    pub line: u16,
    /// The column of the plane: of a sample's symbol, the first sample of which a slice before says
    /// another value, or a colour.
    pub x: u16,
}

impl FrameFault {
    /// A fault of which only the slice is known.
    pub fn in_slice(fault: CodecFault, slice: u16) -> FrameFault
        ensures { result ≡ in_slice fault slice }
    {
        FrameFault {
            fault,
            slice,
            plane: 0,
            line: 0,
            x: 0,
        }
    }
}
