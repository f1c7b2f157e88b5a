//! How much of what others write is read.

ghost use Rattle.std.specs.Prelude.{◌≡◌};
ghost use Rattle.ffv1_video.specs.Profiles.{byte_told};
ghost use Rattle.ffv1_video.specs.Profiles.{record_profile, scope_in};

use ffv1_files::Scope;

/// How much of what others write is read, and which configurations are packed. The bytes that are
/// written do not depend on it.
#[derive(Clone, Copy, PartialEq, Eq, Debug)]
pub enum Profile {
    /// An AVI up to the end of its first `movi`, whose first stream is FFV1, and whose record is
    /// the rest of its format. A slice's sample aspect has two numbers that are both 0 or neither.
    /// A sample has 8 bits. Each inner edge of the slices is a multiple of its chroma factor.
    Strict,
    /// All of an AVI, each `RIFF` of it: its frames are those of the first FFV1 video among its
    /// streams, whose record ends where `biSize` says. And Matroska: its frames are those of the
    /// first track that is FFV1 video. A sample aspect of which just one number is 0 is unknown, as
    /// 0:0 is. A sample has 8, 9, 10, 12, 14 or 16 bits. Slices may share a column or a line of
    /// chroma, if each column and each line of it lies in a slice.
    Wide,
}

impl Profile {
    /// How far a file is read.
    pub fn scope(self) -> Scope
        ensures { result ≡ scope_in self }
    {
        match self {
            Profile::Strict => Scope::FirstMovi,
            Profile::Wide => Scope::Whole,
        }
    }

    /// Whether the byte where a file is at fault is written with the places, if these are asked
    /// for.
    pub fn tells_byte(self, place: bool) -> bool
        ensures { result ≡ byte_told self place }
    {
        match self {
            Profile::Strict => false,
            Profile::Wide => place,
        }
    }

    /// The profile of the record and of the heads of slices.
    pub fn of_record(self) -> ffv1_record::Profile
        ensures { result ≡ record_profile self }
    {
        match self {
            Profile::Strict => ffv1_record::Profile::Strict,
            Profile::Wide => ffv1_record::Profile::Wide,
        }
    }
}
