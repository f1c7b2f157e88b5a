//! Why pictures could not be read or written.

ghost use Rattle.std.specs.Prelude.{◌≡◌};
ghost use Rattle.ffv1_y4m.specs.declared.fault.Fault.TheVariants as fault;

use ffv1_wire::Failed;
use std::alloc::{AllocError, AllocFailed};
use thiserror::Error;

/// Why pictures could not be read or written, by the number and name of the fault.
#[derive(Clone, Copy, Debug, PartialEq, Eq, Error)]
pub enum Fault {
    /// Memory was refused.
    #[error("2 OutOfMemory")]
    OutOfMemory,
    /// A read failed.
    #[error("56 Read")]
    Read,
    /// A write failed.
    #[error("57 Write")]
    Write,
    /// The first line is no header of YUV4MPEG2: it begins otherwise, is longer than 1024 bytes, or
    /// has no end; or the first lines are no header of PPM.
    #[error("60 Header")]
    Header,
    /// A tag of the header is empty, unknown, there for the second time or has no value of its
    /// kind, a range is said for the second time, or a size is missing.
    #[error("61 Tag")]
    Tag,
    /// A tag names a colour space or an interlacing that this codec leaves out.
    #[error("62 Unsupported")]
    Unsupported,
    /// The line that begins a picture is not `FRAME`.
    #[error("63 FrameLine")]
    FrameLine,
    /// The input ends inside the line that begins a picture, or inside samples.
    #[error("64 FrameTruncated")]
    FrameTruncated,
    /// A sample is 2 ^ depth or more.
    #[error("65 SampleTooLarge")]
    SampleTooLarge,
    /// A later image has another size or another depth than the first.
    #[error("71 FormatChanged")]
    FormatChanged,
}

impl From<Failed> for Fault {
    ghost from_gives = { λ _ f. f ≡ fault.Read };

    fn from(_failed: Failed) -> Fault {
        Fault::Read
    }
}

impl From<AllocError> for Fault {
    ghost from_gives = { λ _ f. f ≡ fault.OutOfMemory };

    fn from(_refused: AllocError) -> Fault {
        Fault::OutOfMemory
    }
}

impl<T: Drop> From<AllocFailed<T>> for Fault {
    ghost from_gives = { λ _ f. f ≡ fault.OutOfMemory };

    fn from(_refused: AllocFailed<T>) -> Fault {
        Fault::OutOfMemory
    }
}
