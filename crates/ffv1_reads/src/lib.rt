// SPDX-License-Identifier: MIT OR Apache-2.0
//! What the readers of files share, whatever the container: why a file cannot be read or written,
//! what its head says, bytes that are taken, passed and kept, and what a call on a reader of bytes
//! answers.
//!
//! A *reading* is a function on bytes: the value that they read as and what is left of them, or why
//! they read as none (`specs/Reads`). A call answers by a reading: if it gives a value, the bytes
//! that it read are that value, whatever comes after them. A fault is the first that they have. A
//! read fails, memory is refused and the input ends only when more bytes are wanted. A file that
//! may be damaged gives items (`Item`, `specs/Items`): frames, and faults that are told.
//!
//! ```text
//! let mut name = [0u8; 4];
//! take(input, &mut name)?;
//! pass(input, 8)?;
//! fill(input, 65536, &mut frame)?;
//! ```
#![tactic(auto)]

pub mod behind;
pub mod bitmap;
pub mod bytes;
pub mod colour;
pub mod fault;
pub mod head;
pub mod item;
pub mod laws;

pub use behind::{begins_file, look_behind};
pub use bitmap::is_ffv1;
pub use bytes::{append, fill, pass, take, take_after};
pub use colour::Colour;
pub use fault::FileFault;
pub use head::{FRAME_LIMIT, FileHead, LIMIT};
pub use item::{Item, is_end};
