// SPDX-License-Identifier: MIT OR Apache-2.0
//! What a file says of itself beside its video, as facts: lines for people, or members of an object
//! of JSON.
//!
//! `facts` writes facts, each a name and a value, and `durations` says how long frames last.
//! `Beginning` keeps the first bytes of an input while that is read, and `push_outline` writes what
//! they say: what holds the video, which application wrote it, how long it is, and its tracks.
//!
//! ```text
//! let mut kept = Vec::new(alloc);
//! let mut input = Beginning::new(&mut kept, input)?;
//! push_outline(&mut text, Form::Text, input.bytes())?;
//! ```
#![tactic(auto)]

mod avi_outline;
mod beginning;
pub mod durations;
pub mod facts;
mod matroska_outline;
mod outline;
mod parts;
mod strings;
mod tracks;

pub use beginning::{Beginning, BeginningStart};
pub use facts::Form;
pub use outline::push_outline;
