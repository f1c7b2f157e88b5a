//! Where reading goes on in a file that may be damaged, of either container.

use ffv1_avi::Course as AviCourse;
use ffv1_matroska::Course as MatroskaCourse;

/// Where reading goes on in a file that may be damaged.
#[derive(Clone, Copy)]
pub enum Course {
    /// Where the reader stands: of an AVI of which the first `movi` alone is read.
    Plain,
    /// In an AVI of which every RIFF is read.
    Avi {
        /// Where it goes on there.
        course: AviCourse,
        /// How many frames that it gave had no bytes; no greater than 2^64 - 1.
        repeated: u64,
    },
    /// In a Segment.
    Matroska(MatroskaCourse),
}
