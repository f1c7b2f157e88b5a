// SPDX-License-Identifier: MIT OR Apache-2.0
//! The words of a command line, read as an order: what the program `ffv1` is asked for.
//!
//! `words` reads a line as an `Order`, by `clap`'s meaning of it. An `Order` has the paths and
//! switches of one command, `Choice` how `pack` codes, `ContainerChoice` what it writes, and
//! `FrameRange` which frames of a file are decoded.
//! `help_topic` reads a line that asks for help on faults. The test `trials::example` of
//! `ffv1_tests` runs this:
//!
//! ```text
//! if let Order::Trial { input } = words(alloc, &["ffv1", "trial", "disc.y4m"])? { .. }
//! ```
#![tactic(auto)]

mod arguments;
mod command_line;
mod conflicts;
mod matched;
mod order;
mod topic;

pub use command_line::{VERSION, words};
pub use order::{
    Choice, CodecIdChoice, CoderChoice, ColourChoice, ContainerChoice, FrameRange, Order,
    RangeChoice, SitingChoice, is_hyphen,
};
pub use topic::{Topic, help_topic};
