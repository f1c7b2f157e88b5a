//! Every fault of the product.

ghost use Rattle.std.specs.Prelude.{◌≡◌};
ghost use Rattle.ffv1_video.specs.declared.fault.Fault.TheVariants as fault;
ghost use Rattle.ffv1_video.specs.Faults.{of_range, of_plane, of_record, of_codec, of_avi};
ghost use Rattle.ffv1_video.specs.Faults.{is_file_fault, of_y4m};

use ffv1_frame::CodecFault;
use ffv1_reads::FileFault;
use ffv1_record::RecordFault;
use std::alloc::{AllocError, AllocFailed};
use thiserror::Error;

/// Why a command was refused. Displays as its number and name.
///
/// Refused memory, a failed read, a failed write and a change of format have variants of their own.
/// `from` answers these for those of the crates below, and no function answers one of them within
/// `Record`, `Codec`, `File` or `Text`.
#[derive(Clone, Copy, Debug, PartialEq, Eq, Error)]
pub enum Fault {
    /// Memory was refused.
    #[error("2 OutOfMemory")]
    OutOfMemory,
    /// A read failed.
    #[error("56 Read")]
    Read,
    /// A write failed.
    #[error("57 Write")]
    Write,
    /// The text has no picture, or the file no frame.
    #[error("70 NoFrames")]
    NoFrames,
    /// A later image has another size or depth than the first, or a later frame another structure
    /// or aspect if YUV4MPEG2 is written.
    #[error("71 FormatChanged")]
    FormatChanged,
    /// YUV4MPEG2 has no name for the chroma at its depth.
    #[error("72 NoY4mName")]
    NoY4mName,
    /// PPM has no plane of transparency.
    #[error("73 NoPpm")]
    NoPpm,
    /// A frame that was coded does not decode to its picture.
    #[error("87 NotSame")]
    NotSame,
    /// A configuration or its record is refused.
    #[error(transparent)]
    Record(RecordFault),
    /// A frame is not encoded, or not decoded.
    #[error(transparent)]
    Codec(CodecFault),
    /// A file could not be read or written.
    #[error(transparent)]
    File(FileFault),
    /// Pictures could not be read or written.
    #[error(transparent)]
    Text(ffv1_y4m::Fault),
}

impl Fault {
    /// Whether it is the file's own: of its chunks or elements, or of a read of them.
    pub fn is_of_file(self) -> bool
        ensures { result ≡ is_file_fault self }
    {
        match self {
            Fault::Read => true,
            Fault::File(refused) => match refused {
                FileFault::OutOfMemory
                | FileFault::TooLarge
                | FileFault::Read
                | FileFault::Write
                | FileFault::Rate => false,
                _ => true,
            },
            _ => false,
        }
    }
}

impl From<ffv1_range::Fault> for Fault {
    ghost from_gives = { λ e f. f ≡ of_range e };

    fn from(e: ffv1_range::Fault) -> Fault {
        Fault::from(RecordFault::from(e))
    }
}

impl From<ffv1_plane::Fault> for Fault {
    ghost from_gives = { λ e f. f ≡ of_plane e };

    fn from(e: ffv1_plane::Fault) -> Fault {
        Fault::from(RecordFault::from(e))
    }
}

impl From<RecordFault> for Fault {
    ghost from_gives = { λ e f. f ≡ of_record e };

    fn from(e: RecordFault) -> Fault {
        match e {
            RecordFault::OutOfMemory => Fault::OutOfMemory,
            other => Fault::Record(other),
        }
    }
}

impl From<CodecFault> for Fault {
    ghost from_gives = { λ e f. f ≡ of_codec e };

    fn from(e: CodecFault) -> Fault {
        match e {
            CodecFault::OutOfMemory => Fault::OutOfMemory,
            other => Fault::Codec(other),
        }
    }
}

impl From<FileFault> for Fault {
    ghost from_gives = { λ e f. f ≡ of_avi e };

    fn from(e: FileFault) -> Fault {
        match e {
            FileFault::OutOfMemory => Fault::OutOfMemory,
            FileFault::Read => Fault::Read,
            FileFault::Write => Fault::Write,
            other => Fault::File(other),
        }
    }
}

impl From<ffv1_y4m::Fault> for Fault {
    ghost from_gives = { λ e f. f ≡ of_y4m e };

    fn from(e: ffv1_y4m::Fault) -> Fault {
        match e {
            ffv1_y4m::Fault::OutOfMemory => Fault::OutOfMemory,
            ffv1_y4m::Fault::Read => Fault::Read,
            ffv1_y4m::Fault::Write => Fault::Write,
            ffv1_y4m::Fault::FormatChanged => Fault::FormatChanged,
            other => Fault::Text(other),
        }
    }
}

impl From<AllocError> for Fault {
    ghost from_gives = { λ _ f. f ≡ fault.OutOfMemory };

    fn from(_refused: AllocError) -> Fault {
        Fault::OutOfMemory
    }
}

impl<T: Drop> From<AllocFailed<T>> for Fault {
    ghost from_gives = { λ _ f. f ≡ fault.OutOfMemory };

    fn from(_refused: AllocFailed<T>) -> Fault {
        Fault::OutOfMemory
    }
}
