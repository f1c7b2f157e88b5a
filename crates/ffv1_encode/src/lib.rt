// SPDX-License-Identifier: MIT OR Apache-2.0
//! The encoder of frames of FFV1 (RFC 9043, 4.4).
//!
//! A [`FrameEncoder`] makes the frame of a picture: the payload that the definition gives, which
//! codes the picture. It codes a frame by its slices, and a slice by its lines.
//!
//! ```text
//! let mut encoder = FrameEncoder::new(alloc, checked);
//! let picture = Picture::new(encoder.config(), planes)?;   // planes of the configuration's sizes
//! let info = Info::new(3, 1, 1)?;                          // progressive, samples as wide as high
//! let frame = encoder.encode(&picture, info)?;
//! let counts = encoder.counts();                           // residuals' decisions, and more
//! ```
#![tactic(auto)]

mod cell_rows;
pub mod frame;
mod slice;
mod slice_body;
mod slice_bytes;

pub use frame::FrameEncoder;
