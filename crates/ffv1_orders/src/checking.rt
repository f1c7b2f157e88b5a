//! How a file is checked.

ghost use Rattle.std.specs.Prelude.{◌≡◌};
ghost use Rattle.ffv1_orders.specs.Orders.{checking};

use crate::telling::Telling;
use ffv1_words::FrameRange;

/// How a file is checked.
#[derive(Clone, Copy)]
pub struct Checking {
    /// Whether it goes on after a frame that is refused.
    pub all: bool,
    /// Whether it says where a fault is.
    pub place: bool,
    /// What it prints of the file.
    pub told: Telling,
    /// Whether it says how much of the file is read.
    pub progress: bool,
    /// The frames that are checked.
    pub range: FrameRange,
    /// Whether a note of the file is a fault.
    pub notes_as_faults: bool,
}

impl Checking {
    /// Puts together what an order says of it.
    pub fn new(
        all: bool,
        place: bool,
        told: Telling,
        progress: bool,
        range: FrameRange,
        notes_as_faults: bool,
    ) -> Checking
        ensures { result ≡ checking all place told progress range notes_as_faults }
    {
        Checking {
            all,
            place,
            told,
            progress,
            range,
            notes_as_faults,
        }
    }
}
