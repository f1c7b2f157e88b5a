//! What a command that makes a file is given.

ghost use Rattle.std.specs.Prelude.{◌≡◌};
ghost use Rattle.ffv1_orders.specs.Orders.{making};

use crate::told::Paths;

/// What a command that makes a file is given.
#[derive(Clone, Copy)]
pub struct Making<'a> {
    /// The path of what is read.
    pub input: &'a str,
    /// The path of what is written.
    pub output: &'a str,
    /// Whether an output that exists is refused.
    pub no_clobber: bool,
    /// Whether to say how much is read.
    pub progress: bool,
}

impl<'a> Making<'a> {
    /// Its paths.
    pub fn paths(&self) -> Paths<'a>
        ensures input { result.input ≡ self.now.input }
        ensures output { result.output ≡ self.now.output }
    {
        Paths {
            input: self.input,
            output: self.output,
        }
    }

    /// Puts together what an order says of its files.
    pub fn new(input: &'a str, output: &'a str, no_clobber: bool, progress: bool) -> Making<'a>
        ensures { result ≡ making input.entry output.entry no_clobber progress }
    {
        Making {
            input,
            output,
            no_clobber,
            progress,
        }
    }
}
