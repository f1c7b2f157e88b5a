//! Where reading goes on in a file that may be damaged, and what came of a chunk there.

use crate::place::Place;
use ffv1_reads::FileFault;

/// What comes before the next chunk.
#[derive(Clone, Copy)]
pub(crate) enum Pending {
    /// Nothing.
    Nothing,
    /// Bytes that are passed: of a chunk that was told, or of an index.
    Passing {
        /// How many bytes that are.
        count: u64,
        /// Whether a chunk of frames is sought after them.
        seeks: bool,
    },
    /// A chunk of frames is sought.
    Seeking {
        /// Bytes that were read, and are looked at again: zeros, and after them at most 8.
        window: [u8; 8],
    },
}

/// Where reading goes on in a file that may be damaged.
#[derive(Clone, Copy)]
pub struct Course {
    /// The place in the file.
    pub(crate) place: Place,
    /// What comes before the next chunk there.
    pub(crate) pending: Pending,
    /// Whether a fault was told after which no size of an RIFF or a movi is trusted.
    pub(crate) lost: bool,
    /// The number of bytes of the file before the chunk that was read last.
    pub(crate) begun: u64,
    /// The number of bytes of the file before that place.
    pub(crate) at: u64,
    /// Whether the RIFF or the movi had no size at a fault that was told, or where the frames have
    /// ended.
    pub(crate) open_ended: bool,
    /// The number of bytes before others that stand after the last RIFF, if any do, once the frames
    /// have ended.
    pub(crate) after: Option<u64>,
}

/// What came of a chunk.
#[derive(Clone, Copy)]
pub(crate) enum Turn {
    /// A frame comes next.
    Frame {
        /// How many bytes were read up to the end of its header.
        count: u64,
        /// Its size.
        size: u32,
        /// The place after it.
        place: Place,
    },
    /// It was read, and has no frame.
    On {
        /// How many bytes it has.
        count: u64,
        /// What comes next.
        pending: Pending,
        /// The place.
        place: Place,
    },
    /// It has a fault.
    Told {
        /// The fault.
        fault: FileFault,
        /// How many of its bytes were read.
        count: u64,
        /// What comes next.
        pending: Pending,
        /// The place.
        place: Place,
    },
}
