//! Why a file could not be read or written.

ghost use Rattle.std.specs.Prelude.{◌≡◌};
ghost use Rattle.ffv1_reads.specs.declared.fault.FileFault.TheVariants as fault;

use std::alloc::AllocError;
use thiserror::Error;

/// Why a file could not be read or written, by the number and name of the fault. A reader says of
/// each when it comes.
#[derive(Clone, Copy, Debug, PartialEq, Eq, Error)]
pub enum FileFault {
    /// Memory was refused, for a frame, for the configuration record or for what holds that.
    #[error("2 OutOfMemory")]
    OutOfMemory,
    /// The file is no AVI: it begins otherwise, a list is too short for its own name, scale or rate
    /// is zero alone, there is no `movi`, a list stands in it, or no RIFF `AVIX` after a RIFF.
    #[error("50 NotAvi")]
    NotAvi,
    /// No stream or track of FFV1 video that counts comes before the frames.
    #[error("51 NoFfv1")]
    NoFfv1,
    /// A chunk or an element does not fit in what it stands in, or the input ends inside it.
    #[error("52 Truncated")]
    Truncated,
    /// What holds the configuration record is longer than 67108864 bytes; or a frame is longer than
    /// 1073741824, or than 67108864 where no more than the first list `movi` of an AVI is read.
    #[error("53 ChunkTooLong")]
    ChunkTooLong,
    /// A frame has no bytes.
    #[error("54 EmptyFrame")]
    EmptyFrame,
    /// The file would become longer than its sizes can say.
    #[error("55 TooLarge")]
    TooLarge,
    /// A read failed.
    #[error("56 Read")]
    Read,
    /// A write failed.
    #[error("57 Write")]
    Write,
    /// The file is no Matroska of a version that is read.
    #[error("80 NotMatroska")]
    NotMatroska,
    /// An identifier or a number of an element is longer than it may be, its size is unknown if
    /// that is not allowed, or the element may not stand there.
    #[error("81 BadElement")]
    BadElement,
    /// A Cluster, or the end of the Segment, comes before any Tracks.
    #[error("82 NoTracks")]
    NoTracks,
    /// The track's blocks are compressed or encrypted.
    #[error("83 Encoded")]
    Encoded,
    /// A block has lacing.
    #[error("84 Laced")]
    Laced,
    /// A CRC-32 differs from that of the bytes.
    #[error("85 Checksum")]
    Checksum,
    /// The frame rate is none that whole nanoseconds a frame say.
    #[error("86 Rate")]
    Rate,
    /// Another file stands behind the end of this one.
    #[error("88 Another")]
    Another,
}

impl From<AllocError> for FileFault {
    ghost from_gives = { λ _ f. f ≡ fault.OutOfMemory };

    fn from(_refused: AllocError) -> FileFault {
        FileFault::OutOfMemory
    }
}
