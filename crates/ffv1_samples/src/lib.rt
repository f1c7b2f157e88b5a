// SPDX-License-Identifier: MIT OR Apache-2.0
//! Samples of 8 to 16 bits as bytes.
//!
//! At a depth of 8 a sample is one byte. At any other depth it is two bytes, the low byte first, as
//! in YUV4MPEG2. `sample_bytes` says how many bytes a sample has, `are_in_depth` whether each
//! sample of some bytes lies below 2 ^ depth; `laws` says how samples and bytes belong together.
#![tactic(auto)]

mod depth;
pub mod laws;

pub use depth::{are_in_depth, sample_bytes};
