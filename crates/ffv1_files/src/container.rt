//! Containers, and how far a file is read.

/// What holds the frames of a file.
#[derive(Clone, Copy, Debug, PartialEq, Eq)]
pub enum Container {
    /// An AVI.
    Avi,
    /// Matroska, with the size of its Segment in bytes; None if it is unknown.
    Matroska(Option<u64>),
}

/// How far a file is read, and which files are.
#[derive(Clone, Copy, Debug, PartialEq, Eq)]
pub enum Scope {
    /// An AVI up to the end of its first `movi`.
    FirstMovi,
    /// All of a file: each RIFF of an AVI, or the Segment of a Matroska file.
    Whole,
}
