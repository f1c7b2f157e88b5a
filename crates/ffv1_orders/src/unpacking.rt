//! How a file is unpacked.

ghost use Rattle.std.specs.Prelude.{◌≡◌};
ghost use Rattle.ffv1_orders.specs.Orders.{unpacking};

use ffv1_words::FrameRange;

/// How a file is unpacked.
#[derive(Clone, Copy)]
pub struct Unpacking {
    /// The frames that are decoded.
    pub range: FrameRange,
    /// Whether it goes on after a frame that is refused.
    pub all: bool,
    /// Whether a note of the file is a fault.
    pub notes_as_faults: bool,
}

impl Unpacking {
    /// Puts together what an order says of it.
    pub fn new(range: FrameRange, all: bool, notes_as_faults: bool) -> Unpacking
        ensures { result ≡ unpacking range all notes_as_faults }
    {
        Unpacking {
            range,
            all,
            notes_as_faults,
        }
    }
}
