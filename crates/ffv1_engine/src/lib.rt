// SPDX-License-Identifier: MIT OR Apache-2.0
//! The commands of the codec, as calls over any reader and writer of bytes: what the program `ffv1`
//! does besides opening files, printing and its exit status.
//!
//! `words` of `ffv1_words` reads a command line as an `Order`, of one of six commands; the call of
//! the order's name does it, over a reader and a writer of `ffv1_wire`, and answers a `Fault` that
//! displays as its number and name. `pack` codes a video into an AVI, and `pack_matroska` into
//! Matroska, frame by frame; `unpack` decodes a file into a text again; `check` decodes all its
//! frames up to the first that is refused, and `check_all` all of them; `framemd5` writes the MD5
//! of each picture as FFmpeg does, and `framemd5_text` of a text; `check_against` compares them
//! with those of a list, which `read_list` reads; `show` prints what a file says; and `trial` codes
//! the first picture of a text and decodes it again; `code_plane` is its first half, over samples.
//! The test `trials::example` of `ffv1_tests` runs these lines:
//!
//! ```text
//! if let Order::Trial { .. } = words(alloc, &["ffv1", "trial", "disc.y4m"])? {
//!     trial(alloc, &mut FromRead::new(input), &mut output)?;
//! }
//! ```
#![tactic(auto)]

pub mod round_trip;

pub use ffv1_files::Notes;
pub use ffv1_pack::{
    Coded, Packed, PackedMatroska, code_plane, framemd5_text, laws, pack, pack_matroska, trial,
};
pub use ffv1_unpack::{
    JudgedCounts, ListFault, Unlike, check, check_against, check_all, check_all_range, check_range,
    frame_line, framemd5, framemd5_range, player, read_list, show, unpack, unpack_all,
    unpack_range,
};
pub use ffv1_video::{Fault, Profile};
pub use ffv1_words::{
    Choice, CodecIdChoice, CoderChoice, ColourChoice, ContainerChoice, FrameRange, Order,
    RangeChoice, SitingChoice, words,
};
