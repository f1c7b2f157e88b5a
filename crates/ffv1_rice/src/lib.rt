// SPDX-License-Identifier: MIT OR Apache-2.0
//! Golomb-Rice coded samples (RFC 9043, 3.8.2).
//!
//! `Bits` reads the bits of bytes, the high one of each byte first. Of a context's differences a
//! `State` is known, which says by how many low bits the next one is written, and goes on with it;
//! `kept` keeps states in bytes, 32 for each context. `Bits::read_number` reads a number by that
//! parameter, `scalar::read_scalar` a difference by its context's state, `run::read_run` what comes
//! next of a run of differences that are 0, and `decode_row` a row. It takes no memory.
//!
//! ```text
//! reset(&mut states);
//! let mut bits = Bits::new(bytes);
//! let mut index = 0;
//! let below = Below { set: &set, depth: 8, two: &two, one: &one };
//! decode_row(&mut bits, &below, &mut states, &mut index, &mut cur)?;
//! ```
//!
//! Between two rows bits can be parked, so that no bytes are lent, and woken by the same bytes
//! (`ParkedBits`). Behind the last row `Bits::is_padding` says whether what is left are zeros to
//! the end of a byte.
//!
//! `laws` has what follows from the definitions: bits begin with one number at most, with one
//! difference and with one row; what is coded is read, what is read is what codes it, and all other
//! bits are refused at one place and for one reason; and how many bits a place takes.
#![tactic(auto)]

mod around;
pub mod bits;
pub mod fault;
pub mod kept;
pub mod laws;
pub mod number;
pub mod row;
pub mod run;
pub mod scalar;
pub mod state;

pub use bits::{Bits, ParkedBits};
pub use fault::Fault;
pub use row::{Below, Refused, decode_row};
pub use state::State;
