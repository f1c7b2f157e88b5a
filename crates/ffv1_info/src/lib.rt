// SPDX-License-Identifier: MIT OR Apache-2.0
//! What a file is: its facts, one a line for people, or as members of an object of JSON.
//!
//! `info` writes what the first bytes of a file say, and then the facts of its stream, which
//! `stream_info` writes alone: those of its head, of its configuration record, of its first
//! picture, and of how many frames there are. A group of facts is written as soon as it is known,
//! so that what was read up to a fault is told.
#![tactic(auto)]

mod contexts;
mod informing;
pub mod laws;
mod names;
mod outlining;
mod stream_facts;

pub use informing::stream_info;
pub use outlining::info;
