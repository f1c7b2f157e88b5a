//! Where reading goes on in damaged bytes, and what came of an element there.

ghost use Rattle.std.specs.Prelude.{◌≡◌};
ghost use Rattle.ffv1_matroska.specs.Items.{ended_course};

use crate::place::{Place, ended};
use ffv1_reads::FileFault;

/// What comes before the next element.
#[derive(Clone, Copy)]
pub(crate) enum Pending {
    /// Nothing.
    Nothing,
    /// Nothing, and it is one of a BlockGroup that has had no Block.
    Grouped,
    /// The rest of an element that was told, which is passed.
    Passing {
        /// How many bytes that are.
        count: u64,
    },
    /// A Cluster is sought.
    Seeking,
    /// The element is one of the Segment whose ID was read.
    Named {
        /// The ID.
        ident: u32,
    },
    /// The element is one that passes the Segment, and its header was read.
    Headed {
        /// The ID.
        ident: u32,
        /// How many bytes of content it has, or None if that is unknown.
        size: Option<u64>,
    },
}

/// Where reading goes on in a file that may be damaged.
#[derive(Clone, Copy)]
pub struct Course {
    /// The place in the Segment.
    pub(crate) place: Place,
    /// What comes before the next element there.
    pub(crate) pending: Pending,
    /// The number of bytes of the file before the element that was read last.
    pub(crate) begun: u64,
    /// The number of bytes of the file before that place.
    pub(crate) at: u64,
}

impl Course {
    /// Where nothing more comes.
    pub fn ended() -> Course
        ensures { result ≡ ended_course }
    {
        Course {
            place: ended(),
            pending: Pending::Nothing,
            begun: 0,
            at: 0,
        }
    }
}

/// What came of an element.
#[derive(Clone, Copy)]
pub(crate) enum Turn {
    /// A frame of so many bytes comes next.
    Frame {
        /// Its size.
        size: u64,
        /// The place after it, except its bytes that are still to be summed.
        place: Place,
    },
    /// It was read, and has no frame.
    On {
        /// What comes next.
        pending: Pending,
        /// The place.
        place: Place,
    },
    /// It has a fault.
    Told {
        /// The fault.
        fault: FileFault,
        /// What comes next.
        pending: Pending,
        /// The place.
        place: Place,
    },
}
