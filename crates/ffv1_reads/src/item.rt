//! What a file that may be damaged gives, one by one.

ghost use Rattle.std.specs.Prelude.{◌≡◌};
ghost use Rattle.ffv1_reads.specs.Items.{is_end};

use crate::fault::FileFault;

/// What a file that may be damaged gives.
#[derive(Clone, Copy)]
pub enum Item {
    /// A frame.
    Frame,
    /// A fault that is passed.
    Told {
        /// The fault.
        fault: FileFault,
        /// The number of bytes of the file before the element or chunk at fault; no greater than
        /// 2^64 - 1.
        offset: u64,
    },
    /// Nothing more.
    End,
}

/// Whether a fault of a call, in bytes of which no fault is one, says that the input has ended.
pub fn is_end(fault: FileFault) -> bool
    ensures { result ≡ is_end fault }
{
    match fault {
        FileFault::Truncated => true,
        _ => false,
    }
}
