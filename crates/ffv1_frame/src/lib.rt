// SPDX-License-Identifier: MIT OR Apache-2.0
//! What an encoder and a decoder of frames of FFV1 (RFC 9043, 4.4) both say: pictures, what a slice
//! says of them, faults, and the definitions of which payloads code a picture and which lines a
//! decoder hands over, with their laws.
//!
//! A [`Picture`] is made of planes that fit a checked configuration, and an [`Info`] of what each
//! of its slices says besides. A [`FrameFault`] says why a payload is not decoded, and where. What
//! both directions take of a sample's words stands in `line_word`.
#![tactic(auto)]

pub mod class;
pub mod fault;
pub mod frame_counts;
pub mod info;
pub mod laws;
pub mod line_word;
pub mod picture;
pub mod places_of_colours;
pub mod plane_sizes;

pub use fault::{CodecFault, FrameFault};
pub use frame_counts::FrameCounts;
pub use info::Info;
pub use picture::Picture;
