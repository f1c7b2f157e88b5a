// SPDX-License-Identifier: MIT OR Apache-2.0
//! The commands that read a file, an AVI or Matroska, as calls over any reader and writer of bytes.
//!
//! `unpack` decodes a file into a text, and `unpack_all` goes on after a frame that is refused;
//! `check` decodes all its frames up to the first that is refused, and `check_all` all of them;
//! `framemd5` writes the MD5 of each picture as FFmpeg does, and `check_against` compares them with
//! those of a list, which `read_list` reads; and `show` prints what a file says. `unpack_range`,
//! `check_range`, `check_all_range` and `framemd5_range` do the same with some of its frames;
//! `laws` says what they have in common. Each is a loop over a `Player`, which reads and decodes a
//! frame at a time.
#![tactic(auto)]

mod behind;
mod carrying;
mod checking;
mod comparing;
pub mod frame_line;
mod hashing;
mod images_out;
mod judging;
mod judging_all;
mod judging_items;
pub mod laws;
mod md5_line;
mod md5_list;
mod opening_all;
mod passing;
mod picture_out;
mod pictures_out;
mod plainly;
pub mod player;
mod salvaging;
mod showing;
mod stream_lines;
mod telling;
mod told_first;
mod unpacking;
mod unpacking_all;
mod unpacking_told;

pub use checking::{check, check_all, check_all_range, check_range};
pub use comparing::{Unlike, check_against};
pub use hashing::{framemd5, framemd5_range};
pub use judging::JudgedCounts;
pub use md5_list::{ListFault, read_list};
pub use showing::show;
pub use unpacking::{unpack, unpack_range};
pub use unpacking_all::unpack_all;
