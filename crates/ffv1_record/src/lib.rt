// SPDX-License-Identifier: MIT OR Apache-2.0
//! The configuration of an FFV1 stream (RFC 9043, 4.2 and 4.3): which are accepted, how one is
//! written and read as a configuration record, and the parity that guards records and slices
//! (4.3.2, 4.9.3).
//!
//! A `Config` is what a stream is coded by, with its quantisation table `Sets`. `Config::check`
//! comes first: it refuses what is not accepted, and makes a `Checked`, which has the state
//! transition table, too, and says how much a decoder holds. `write_record` writes a `Checked`, and
//! `read_record` gives it back; `parity` is a function of bytes alone. `laws` has what holds of the
//! definitions. A `Checked` keeps its `Profile` and its depth, the bits of a sample, which are
//! `Strict` and 8 if none is named: `Config::check_in` and `read_record_in` take them.
//!
//! ```
//! let mut sets = Sets::new(heap);
//! sets.push(QuantSet::small(heap)?)?;
//! let (columns, rows) = (2, 2);
//! let config = Config { width: 352, height: 288, coder: Coder::One, colour: Colour::Rct,
//!     chroma_planes: true, extra_plane: false, log2_h: 0, log2_v: 0, columns, rows, sets,
//!     ec: true, intra: true };
//! let checked = config.check()?;
//! let record = write_record(heap, &checked)?;
//! assert!(read_record(heap, &record, 352, 288)? == checked);
//! ```
#![tactic(auto)]

pub mod checked;
pub mod config;
mod equal;
pub mod fault;
mod judge;
pub mod laws;
mod planes;
pub mod read;
mod reader;
pub mod remainder;
pub mod sets;
pub(crate) mod tables;
pub mod write;
mod writer;

pub use checked::{Checked, Held, OFFSETS};
pub use config::{Coder, Colour, Config, Profile, reduced};
pub use fault::RecordFault;
pub use read::{read_record, read_record_in};
pub use remainder::{parity, parity_behind};
pub use sets::Sets;
pub use write::write_record;
