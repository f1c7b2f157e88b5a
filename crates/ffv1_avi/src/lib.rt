// SPDX-License-Identifier: MIT OR Apache-2.0
//! AVI, by Microsoft's AVI RIFF File Reference: files of FFV1 frames (RFC 9043, 4.3.3), written in
//! one call, and read chunk by chunk.
//!
//! `write_avi` writes a `FileHead` and frames. `AviReader::open` and `AviReader::open_all` read a
//! file up to its first list `movi`, the one to read the frames of that alone, the other those of
//! every `movi` of every RIFF. Then `AviReader::head` tells its head, and each
//! `AviReader::next_frame` gives the next frame, until it answers false. A reader holds no input:
//! each call is lent the same one. `FileFault` says why a file could not be read or written. The
//! test `read_back` of `ffv1_file_tests` runs this:
//!
//! ```text
//! let mut reader = AviReader::open(rt.alloc(), &mut input)?;
//! let mut frame = Vec::new(rt.alloc());
//! while reader.next_frame(&mut input, &mut frame)? { .. }
//! ```
//!
//! Of a file that may be damaged `AviReader::course` says where reading goes on, and each
//! `Course::next_item` gives the next frame, or a fault that is told, until nothing more comes.
//! `damage_laws` says that all bytes have items, that sound bytes give their frames, and that
//! behind damage the next frame is found.
#![tactic(auto)]

mod came;
mod chunk;
mod course;
pub mod damage_laws;
mod field;
mod header;
mod items;
pub mod laws;
mod movi;
mod names;
mod open;
mod opens;
mod place;
mod reader;
mod riff;
mod seeking;
mod stream;
mod turn;
mod write;

pub use course::Course;
pub use place::Extent;
pub use reader::AviReader;
pub use write::write_avi;
