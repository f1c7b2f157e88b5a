// SPDX-License-Identifier: MIT OR Apache-2.0
//! Pictures as text: YUV4MPEG2 and binary PPM, read and written.
//!
//! `Y4mReader::open` and `PpmReader::open` read a header, which `head` then tells as a `VideoHead`;
//! each `next` reads one picture into planes, whose memory is taken once, and answers false at the
//! end of the text. A reader holds no input: each call is lent the same one. `Y4mWriter` writes
//! pictures as the canonical text; `PpmWriter` is a sink of lines, and owns its writer.
//! `Y4mReader::open_deep`, `PpmReader::open_deep`, `Y4mWriter::at_depth` and `PpmWriter::sized_at`
//! take samples of up to 16 bits, which are two bytes each above 8 bits, the low byte first in
//! planes, lines and YUV4MPEG2, the high byte first in PPM. `Fault` says why a text could not be
//! read or written; `specs/FirstFaults` and `specs/ImageFaults` say which fault a text has first,
//! and where; `fault_laws` says that readers answer it. The test `example` of `ffv1_file_tests`
//! runs these lines:
//!
//! ```text
//! let mut reader = Y4mReader::open(rt.alloc(), None, &mut input)?;
//! let mut writer = Y4mWriter::new(*reader.head());
//! let mut planes = Vec::new(rt.alloc());
//! while reader.next(&mut input, &mut planes)? {
//!     writer.picture(&mut output, &planes)?;
//! }
//! ```
#![tactic(auto)]

mod fault;
pub mod fault_laws;
mod head;
pub mod laws;
mod pairs;
mod planes;
mod ppm_reader;
mod ppm_reading;
mod ppm_spaces;
mod ppm_writer;
mod reading;
mod tags;
mod values;
mod writing;
mod y4m_reader;
mod y4m_writer;

pub use fault::Fault;
pub use head::{Range, Siting, VideoHead};
pub use planes::{has_chroma_name, has_chroma_name_at, plane_bytes, plane_count, plane_size};
pub use ppm_reader::PpmReader;
pub use ppm_writer::PpmWriter;
pub use y4m_reader::Y4mReader;
pub use y4m_writer::Y4mWriter;
