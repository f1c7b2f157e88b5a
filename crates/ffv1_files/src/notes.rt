//! What the end of a file leaves to be said.

/// What is noted of a file whose frames came to an end: a doubt that no reader can settle.
#[derive(Clone, Copy, Debug, PartialEq, Eq)]
pub struct Notes {
    /// Nothing says that the file is whole: its Segment is of unknown size, and no Cues stand
    /// after its last Cluster; or an RIFF or a `movi` of an AVI has no size, and it was read to the
    /// end of the input.
    pub is_open: bool,
    /// How many further tracks of a Segment are FFV1 video, or further streams of an AVI begin as
    /// it; they are not read. A count of 64 bits stays at its greatest value.
    pub others: u64,
    /// The number of the first frame of a Segment that comes too early or too late, as
    /// `MatroskaReader::times` says; None if none does.
    pub times: Option<u64>,
    /// How many frames of an AVI have no bytes: each repeats the one before it. A count of 64 bits
    /// stays at its greatest value.
    pub repeated: u64,
    /// The number of bytes of the file before others that stand after its end, if any do.
    pub after: Option<u64>,
}

impl Notes {
    /// Nothing is noted.
    pub const NONE: Notes = Notes {
        is_open: false,
        others: 0,
        times: None,
        repeated: 0,
        after: None,
    };
}
