//! What a record says of the planes.

use crate::config::Colour;

/// Colour, depth and chroma, as they stand in a record; the depth is 8 if that is 0.
#[derive(Clone, Copy)]
pub(crate) struct Planes {
    pub(crate) colour: Colour,
    pub(crate) depth: u32,
    pub(crate) chroma_planes: bool,
    pub(crate) extra_plane: bool,
    pub(crate) log2_h: u32,
    pub(crate) log2_v: u32,
}
