// SPDX-License-Identifier: MIT OR Apache-2.0
//! The reversible colour transform of one line, forward and inverse (RFC 9043, 3.7.2), and the
//! narrowing of a transparency line to bytes.
//!
//! An encoder transforms lines of red, green and blue by [`forward_line`]. A decoder takes the
//! lines that it read back by [`inverse_line`], and those of transparency by [`narrow_line`]; a
//! place that is the transform of no colour is [`NoColour`]. Lines of more than 8 bits a sample
//! have [`forward_words`], [`inverse_words`] and [`narrow_words`]. No call takes memory.
//!
//! ```text
//! let (mut y, mut cb, mut cr) = ([0u16], [0u16], [0u16]);
//! forward_line(&[0], &[255], &[0], &mut y, &mut cb, &mut cr);     // Y 127, Cb 1, Cr 1
//! let (mut r, mut g, mut b) = ([7u8], [7u8], [7u8]);
//! inverse_line(&y, &cb, &cr, &mut r, &mut g, &mut b)?;            // 0, 255, 0 again
//! ```
#![tactic(auto)]

pub mod fault;
pub mod forward;
pub mod inverse;
pub mod laws;
pub mod narrow;
mod ranges;
pub mod wide;
pub mod words;

pub use fault::NoColour;
pub use forward::forward_line;
pub use inverse::inverse_line;
pub use narrow::narrow_line;
pub use wide::{CodedWide, forward_wide, inverse_wide, narrow_wide};
pub use words::{CodedWords, forward_words, inverse_words, narrow_words};
