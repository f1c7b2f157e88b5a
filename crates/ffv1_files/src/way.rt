//! In which way a file that may be damaged was opened.

ghost use Rattle.std.specs.Prelude.{◌≡◌};
ghost use Rattle.ffv1_files.specs.Ways.{tells};

/// In which way a file that may be damaged was opened, or was refused.
#[derive(Clone, Copy, Debug, PartialEq, Eq)]
pub enum Way {
    /// As `FileReader::open_located` opens it. Nothing is told of it.
    Plainly,
    /// In one reading, which told some fault.
    Telling,
    /// Read again up to its first Tracks, since none stand before its first Cluster, and then once
    /// more, which told its faults, or none.
    TellingLate,
}

impl Way {
    /// Whether faults before the first frame are told. If not, nothing is.
    pub fn tells(self) -> bool
        ensures { result ≡ tells self }
    {
        match self {
            Way::Plainly => false,
            Way::Telling | Way::TellingLate => true,
        }
    }
}
