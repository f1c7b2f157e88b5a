//! Of which pictures of a file the MD5 is printed.

ghost use Rattle.std.specs.Prelude.{◌≡◌};
ghost use Rattle.ffv1_orders.specs.Orders.{hashing};

use ffv1_words::FrameRange;

/// Of which pictures of a file the MD5 is printed.
#[derive(Clone, Copy)]
pub struct Hashing {
    /// The frames that are decoded.
    pub range: FrameRange,
    /// Whether a note of the file is a fault.
    pub notes_as_faults: bool,
}

impl Hashing {
    /// Puts together what an order says of it.
    pub fn new(range: FrameRange, notes_as_faults: bool) -> Hashing
        ensures { result ≡ hashing range notes_as_faults }
    {
        Hashing {
            range,
            notes_as_faults,
        }
    }
}
