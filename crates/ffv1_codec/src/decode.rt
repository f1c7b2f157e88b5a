//! Decodes frames: a frame by its rows of slices, a row by lines, and a line by the segments of the
//! slices that it crosses. Hands each line to a sink as soon as it is whole.

pub use ffv1_decode::{frame, sinks};
