// SPDX-License-Identifier: MIT OR Apache-2.0
//! The CRC-32 of EBML (RFC 8794, 11.3.1), which is the one of ISO 3309 and ITU-T V.42.
//!
//! [`crc32`] is the sum of bytes. [`more`] goes on with a sum when bytes come piece by piece: it
//! begins with 4294967295, and its end is turned round. `laws` says what damage a sum tells.
//!
//! ```text
//! assert!(crc32(b"123456789") == 0xCBF43926);
//! assert!(more(more(!0, b"1234"), b"56789") ^ !0 == 0xCBF43926);
//! ```
#![tactic(auto)]

pub mod laws;
pub mod sum;
pub(crate) mod tables;

pub use sum::{crc32, more};
