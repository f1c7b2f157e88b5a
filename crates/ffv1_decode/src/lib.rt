// SPDX-License-Identifier: MIT OR Apache-2.0
//! The decoder of frames of FFV1 (RFC 9043, 4.4).
//!
//! A [`FrameDecoder`] takes its memory once, and hands the lines of a payload to a sink as soon as
//! each is whole: to [`KeepLines`], which has the planes then, to [`DropLines`], or to any other.
//! It decodes a frame by its rows of slices, a row by lines, and a line by the segments of the
//! slices that it crosses.
//!
//! ```text
//! let mut sink = KeepLines::new(alloc, &checked)?;
//! let mut decoder = FrameDecoder::new(alloc, checked)?;
//! let info = decoder.decode(&frame, &mut sink)?;           // or the first fault, with its place
//! let planes = sink.planes();
//! ```
#![tactic(auto)]

mod buffers;
mod colours;
mod column;
mod columns;
mod ending;
mod finish;
pub mod frame;
mod hand;
mod kept;
mod left_bits;
mod opening;
mod overread;
mod parts;
mod places;
mod plane_lines;
mod row;
mod segment;
mod shared;
pub mod sinks;
mod states;
mod wide_colours;

pub use frame::FrameDecoder;
pub use sinks::{DropLines, KeepLines};
