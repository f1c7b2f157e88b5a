// SPDX-License-Identifier: MIT OR Apache-2.0
//! Frames of FFV1 (RFC 9043, 4.4): which payloads code a picture, which one an encoder writes, the
//! pictures themselves, their encoder and their decoder.
//!
//! A [`Picture`] is made of planes that fit a checked configuration, and an [`Info`] of what each
//! of its slices says besides. A [`FrameEncoder`] makes the frame of a picture: the payload that
//! the definition gives, which codes the picture. The laws say so of the definition, how long a
//! frame is, and what it is for some small pictures.
//!
//! A [`FrameDecoder`] takes its memory once, and hands the lines of a payload to a sink as soon as
//! each is whole: to [`KeepLines`], which has the planes then, to [`DropLines`], or to any other.
//!
//! Samples have the bits of the configuration, from 8 to 16. Planes and lines are bytes: one a
//! sample at 8 bits, and two at more, the low byte first.
//!
//! ```text
//! let mut encoder = FrameEncoder::new(alloc, checked);
//! let picture = Picture::new(encoder.config(), planes)?;   // planes of the configuration's sizes
//! let info = Info::new(3, 1, 1)?;                          // progressive, samples as wide as high
//! let frame = encoder.encode(&picture, info)?;
//! let counts = encoder.counts();                           // residuals' decisions, and more
//!
//! let mut sink = KeepLines::new(alloc, &checked)?;
//! let mut decoder = FrameDecoder::new(alloc, checked)?;
//! let info = decoder.decode(&frame, &mut sink)?;           // or the first fault, with its place
//! let planes = sink.planes();
//! ```
#![tactic(auto)]

pub mod decode;
pub mod encode;

pub use ffv1_decode::{DropLines, FrameDecoder, KeepLines};
pub use ffv1_encode::FrameEncoder;
pub use ffv1_frame::{
    CodecFault, FrameCounts, FrameFault, Info, Picture, fault, info, laws, picture,
};
