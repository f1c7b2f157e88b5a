//! Parts of AVI that tests put together.

/// A `RIFF` after the first, of one frame.
pub const MORE: [u8; 38] =
    *b"RIFF\x1E\0\0\0AVIXLIST\x12\0\0\0movi00dc\x05\0\0\0\xFE\x7B\x00\x00\x02\x00";
