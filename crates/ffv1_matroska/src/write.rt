//! Writes files, frame by frame.

mod bytes;
mod clusters;
mod cues;
mod opening;
mod places;
mod send;
mod tracks;
mod writer;

pub use writer::MatroskaWriter;
