// SPDX-License-Identifier: MIT OR Apache-2.0
//! The range coder of FFV1 (RFC 9043, 3.8.1): decisions and numbers to bytes, and back.
//!
//! A `StateTable` comes first: `StateTable::standard()`, or `StateTable::with_deltas` for the table
//! of a configuration record. A state is a byte, 128 at first; a number is coded by 32 of them. A
//! `RangeEncoder` takes decisions (`put`) and numbers (`put_signed`, `put_unsigned`), and ends by
//! `finish_sentinel` or `finish_full`. A `RangeDecoder` gives them back in the same order, by the
//! same table and the same states at first. A `Parked` is a decoder that has let its bytes go, and
//! a `Tally` what a coder has counted. `laws` has what the definitions imply: bytes that are
//! written code what was put, bytes code one number next, and what a code costs.
//!
//! As the test `there_and_back` runs it:
//!
//! ```text
//! let table = StateTable::standard();
//! let (mut states, mut fresh) = ([128; 32], [128; 32]);
//! let mut encoder = RangeEncoder::new(alloc);
//! encoder.put_signed(&table, &mut states, -3)?;
//! let bytes = encoder.finish_sentinel()?;
//! let mut decoder = RangeDecoder::new(&bytes)?;
//! assert!(decoder.get_signed(&table, &mut fresh)? == -3);
//! ```
#![tactic(auto)]

pub mod decoder;
pub mod encoder;
pub mod fault;
pub mod laws;
mod symbol_slots;
pub mod table;
pub mod tally;

pub use decoder::RangeDecoder;
pub use decoder::fast_symbol::SignedNumber;
pub use decoder::parked::Parked;
pub use encoder::RangeEncoder;
pub use encoder::batch::list_signed;
pub use fault::Fault;
pub use table::StateTable;
pub use tally::{Nonzeros, Sums, Tally};
