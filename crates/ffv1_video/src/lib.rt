// SPDX-License-Identifier: MIT OR Apache-2.0
//! What packing a video and reading its file have in common: the faults of the product, how much
//! of what others write is read, what is said of a video and of its colours, and the lines that
//! framemd5 writes of a picture.
//!
//! A `Fault` displays as its number and name. A `Profile` says which files, configurations and
//! depths are read. `colour_of`, `range_named` and `siting_in` of `colours` go between what a text
//! says of colours and what a file does. `picture_md5` takes the MD5 of a picture's bytes,
//! `put_picture` of `md5_lines` makes the line of it, and `number_lines` has the words and numbers
//! of other lines.
#![tactic(auto)]

pub mod colours;
mod fault;
pub mod md5_lines;
pub mod number_lines;
pub mod picture_md5;
mod profile;

pub use fault::Fault;
pub use profile::Profile;
