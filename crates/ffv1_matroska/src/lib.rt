// SPDX-License-Identifier: MIT OR Apache-2.0
//! Matroska (RFC 9559), by elements of EBML: files of FFV1 frames (RFC 9043, 4.3.3), read element
//! by element, and written, a Cluster for each frame.
//!
//! `MatroskaReader::open` reads a file up to its first Cluster; then `MatroskaReader::head` tells
//! its head and `MatroskaReader::segment` the size of its Segment, and each
//! `MatroskaReader::next_frame` gives the next frame of its first track of FFV1 video, until it
//! answers false. A reader holds no input, each call is lent the same one. `ffv1_reads::FileFault`
//! says why a file could not be read or written. `MatroskaWriter::new` takes a head and what else
//! its `TrackEntry` says, each `MatroskaWriter::put` writes a frame, and `MatroskaWriter::finish`
//! the Cues; no frame is kept. `rate_of` and `duration_of` turn nanoseconds a frame into a frame
//! rate and back. The test `reading::smallest` of `ffv1_tests` runs this:
//!
//! ```text
//! let mut reader = MatroskaReader::open(rt.alloc(), &mut input)?;
//! let mut frame = Vec::new(rt.alloc());
//! while reader.next_frame(&mut input, &mut frame)? { .. }
//! ```
#![tactic(auto)]

pub mod again_laws;
mod beginning;
mod block;
mod colour;
mod course;
pub mod damage_laws;
mod frames;
mod idents;
mod info;
mod items;
mod late;
mod late_salvage;
pub mod late_salvage_laws;
pub mod laws;
mod opening;
mod outer_turn;
mod place;
mod rate;
mod reader;
mod salvage;
pub mod salvage_laws;
mod salvaging;
mod seeking;
mod segment;
mod times;
mod told;
mod track;
pub mod track_entry;
mod turn;
mod write;
pub mod written_laws;
pub mod written_times;

pub use course::Course;
pub use rate::{duration_of, rate_of};
pub use reader::MatroskaReader;
pub use told::{ToldFault, ToldFaults};
pub use track_entry::{CodecId, TrackEntry};
pub use write::MatroskaWriter;
