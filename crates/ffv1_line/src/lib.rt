// SPDX-License-Identifier: MIT OR Apache-2.0
//! The rows of one cell of a plane, coded and decoded (RFC 9043, 3.1 to 3.8 and 4.7).
//!
//! A cell is the part of a plane that one slice holds. `encode_line` puts the residuals of a row's
//! samples to a range encoder, and `decode_line` reads them back and makes the samples. Both are
//! lent the rows two and one above, which are zeros at the top of a cell and roll from a row to the
//! next (`RollingRows`), and the states of the plane's class, 32 for each context of its
//! quantisation table set, which `reset` makes fresh at the begin of a slice.
//!
//! ```text
//! let coding = Coding { table: &table, set: &set, bits: 8 };
//! let above = Above { two: &rows.two, one: &rows.one };
//! encode_line(&mut encoder, &coding, &mut states, &above, &rows.cur)?;
//! rows.turn();
//! let bytes = encoder.finish_sentinel()?;
//! ```
//!
//! `encode_cell` and `decode_cell` go so over all rows of a cell, of which each is written into a
//! line by what has them (`CellRows`), or is handed to what takes them (`RowSink`).
//!
//! Samples of 17 bits lie in lines of 32 bits: `encode_wide` and `decode_wide` are the same calls
//! for these. Both kinds of lines have one plain body (`Word`).
//!
//! What each call says is by the coordinates of the standard, for every cell of which these are
//! rows; `laws` has what follows: bytes code one row at most, and what was written comes back.
#![tactic(auto)]

pub mod cell;
pub mod coding;
pub mod decode;
pub mod encode;
pub mod fault;
pub mod laws;

pub use cell::above::Above;
pub use cell::rows::RollingRows;
pub use cell::word::Word;
pub use coding::Coding;
pub use coding::states::reset;
pub use decode::{RowSink, decode_cell, decode_line, decode_wide};
pub use encode::{CellRows, encode_cell, encode_line, encode_wide};
pub use fault::TooLong;
