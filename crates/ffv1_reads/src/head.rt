//! What the head of a file says, and how long what a file has may be.

use crate::colour::Colour;
use std::alloc::{Allocator, Global};

/// The most bytes of what a container says before its frames that are read, and of a frame where no
/// more than the first list `movi` of an AVI is: 64 MiB.
pub const LIMIT: u32 = 67_108_864;

/// The most bytes of a frame that are read where a file is read whole: 1 GiB.
pub const FRAME_LIMIT: u32 = 1_073_741_824;

/// The head of a file of FFV1 frames.
#[derive(Drop, Debug)]
pub struct FileHead<A: Allocator = Global> {
    /// In samples.
    pub width: u32,
    /// In samples.
    pub height: u32,
    /// With `scale`, frames a second as `rate / scale`; both 0 if they are unknown.
    pub rate: u32,
    /// See `rate`.
    pub scale: u32,
    /// What the samples of pictures stand for; unsaid if the file says nothing of it.
    pub colour: Colour,
    /// The configuration record of FFV1, as it stands in the file.
    pub config_record: Vec<u8, A>,
}
