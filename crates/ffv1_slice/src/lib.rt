// SPDX-License-Identifier: MIT OR Apache-2.0
//! Slices of a frame (RFC 9043, 4.4 to 4.9): the grid of their cells, what stands before their
//! samples, what stands after their coded bytes, and how a payload is cut into them.
//!
//! [`Grid::of`] a checked configuration tells each plane's size, and the [`Cell`] of each slice in
//! it. An encoder of a slice begins with [`put_key`] and [`put_head`], and puts [`footer`] after
//! its coded bytes. A decoder makes a [`Spans`] once; [`cut`] fills it for each payload, and of
//! each span's bytes [`get_key`] and [`get_head`] come first.
//!
//! ```text
//! let mut spans = Spans::new(alloc)?;
//! cut(&checked, &[0xfe, 0x7b, 0, 0, 2], &mut spans)?;    // one slice of two bytes and its footer
//! let (begin, end) = spans.span(0)?;                        // 0 and 2
//! ```
#![tactic(auto)]

pub mod cutting;
pub mod fault;
pub mod foot;
pub mod footer_bytes;
pub mod grid;
pub mod head;
pub mod laws;
pub mod spans;
mod values;

pub use cutting::{CutFault, cut};
pub use fault::SliceFault;
pub use foot::footer;
pub use footer_bytes::Footer;
pub use grid::{Cell, Grid};
pub use head::{SliceHead, get_head, get_key, put_head, put_key};
pub use spans::Spans;
