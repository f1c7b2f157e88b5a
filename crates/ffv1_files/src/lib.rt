// SPDX-License-Identifier: MIT OR Apache-2.0
//! Files of FFV1 frames, whichever container holds them: AVI or Matroska (RFC 9043, 4.3.3).
//!
//! `FileReader::open` looks at the first byte of a file, and reads it up to where its frames begin;
//! then `FileReader::head` tells its head, `FileReader::container` what it is, and each
//! `FileReader::next_frame` gives the next frame, until it answers false. A reader holds no input,
//! each call is lent the same one. Then `FileReader::look_behind` says what stands after its end,
//! and what that leaves in doubt. `laws` says that what is read is a file by its chunks or its
//! elements, and that such a file is read. A file that may be damaged gives its frames and its
//! faults by `FileReader::course` and `FileReader::next_item`.
//!
//! ```text
//! let mut reader = FileReader::open(rt.alloc(), Scope::Whole, &mut input)?;
//! let mut frame = Vec::new(rt.alloc());
//! while reader.next_frame(&mut input, &mut frame)? { .. }
//! let notes = reader.look_behind(&mut input)?;
//! ```
#![tactic(auto)]

mod container;
mod course;
mod items;
pub mod laws;
mod notes;
mod opening;
mod reader;
pub mod salvage_laws;
mod salvaging;
mod way;
pub mod written_laws;

pub use container::{Container, Scope};
pub use course::Course;
pub use ffv1_matroska::{ToldFault, ToldFaults};
pub use ffv1_reads::Item;
pub use notes::Notes;
pub use reader::FileReader;
pub use way::Way;
