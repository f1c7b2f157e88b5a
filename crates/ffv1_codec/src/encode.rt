//! Encodes pictures: a frame by its slices, and a slice by its lines.

pub use ffv1_encode::frame;
pub use ffv1_frame::frame_counts;
