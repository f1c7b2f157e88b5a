// SPDX-License-Identifier: MIT OR Apache-2.0
//! What stands in tests for memory, readers and writers that refuse: an allocator, three readers
//! and two writers, each of which refuses when a test wants it. Only tests use them.
//!
//! ```text
//! let input = FailingReader::new(text, 3, 1, ErrorKind::Other);  // the fourth read fails
//! let output = ShortWriter::new(alloc, 9, 2, None);              // nine bytes, two at a time
//! let heap = Scarce::new(alloc, 5);                              // the sixth request is refused
//! ```
#![tactic(auto)]

pub mod made;
mod memory;
mod reader;
pub mod riffs;
mod writer;

pub use memory::Scarce;
pub use reader::{BrokenReader, FailingReader, SoughtReader};
pub use writer::{FailingWriter, ShortWriter};
