//! What is counted of a frame.

/// How many decisions the residuals of a frame took, and how many renormalisations all its
/// decisions made, the sentinels' among them.
#[derive(Clone, Copy, Debug, PartialEq, Eq)]
pub struct FrameCounts {
    /// The decisions of all residuals.
    pub decisions: u64,
    /// The renormalisations of all slices: of each one less than it has coded bytes.
    pub renormalisations: u64,
}
