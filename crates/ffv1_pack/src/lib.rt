// SPDX-License-Identifier: MIT OR Apache-2.0
//! The commands that read a text, of YUV4MPEG2 or PPM, as calls over any reader and writer of
//! bytes.
//!
//! `pack` codes a video into an AVI, and `pack_matroska` into Matroska, frame by frame;
//! `framemd5_text` writes the MD5 of each of its pictures; and `trial` codes the first picture of a
//! text and decodes it again; `code_plane` is its first half, over samples.
#![tactic(auto)]

mod comparison;
mod default_grid;
mod encoding;
mod judging;
pub mod laws;
mod matroska_packing;
mod mono_trial;
mod packing;
mod picture;
mod plane;
mod report;
mod text_md5;
mod verifying;
mod video;

pub use matroska_packing::{PackedMatroska, pack_matroska};
pub use mono_trial::trial;
pub use packing::{Packed, pack};
pub use plane::{Coded, code_plane};
pub use text_md5::framemd5_text;
