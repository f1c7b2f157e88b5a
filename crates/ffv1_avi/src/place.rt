//! Where a reader stands in a file, and how far it reads.

ghost use Rattle.std.specs.Prelude.{◌≡◌, true};
ghost use Rattle.ffv1_avi.specs.Files.{has_form, place_in, room_in};
ghost use Rattle.ffv1_avi.specs.Places.{ended, is_open, open_at, open_frame_at};
ghost use Rattle.ffv1_avi.specs.Readers.{others_in};

use crate::chunk::is_known;

/// How far a file is read.
#[derive(Clone, Copy, Debug, PartialEq, Eq)]
pub enum Extent {
    /// The first list `movi` alone.
    FirstMovi,
    /// Every list `movi` of every RIFF: of the first, which is `AVI `, and of those after it, which
    /// are `AVIX` (OpenDML AVI File Format Extensions).
    EveryRiff,
}

/// Which chunks a movi has, by their names.
#[derive(Clone, Copy)]
pub(crate) enum Names {
    /// If the first movi is read alone: the frames are `00dc`, and all but lists may stand
    /// beside them.
    Any,
    /// If every RIFF is read: those of the stream of this number, of so many that two digits can
    /// name, and what may stand beside its frames.
    Closed(u8, u8),
}

/// Whether the sizes of RIFF and movi are known, where a reader stands.
#[derive(Clone, Copy, PartialEq, Eq)]
pub(crate) enum Open {
    /// Both are.
    Sized,
    /// In an RIFF whose size is not known: it ends with the input.
    OpenRiff,
    /// In a movi whose size is not known: it ends with the input, or at an index or an RIFF.
    OpenMovi,
}

/// Where a reader stands: in a movi.
#[derive(Clone, Copy)]
pub(crate) struct Place {
    /// Bytes that are read at most after this RIFF, or if its size is not known after this movi; 0
    /// if the first movi is read alone.
    pub(crate) input: u64,
    /// Bytes that this RIFF has after movi.
    pub(crate) riff: u64,
    /// Bytes that movi has left.
    pub(crate) movi: u64,
    /// Which chunks movi has.
    pub(crate) names: Names,
    /// Frames that `dmlh` says are still to come; 0 if there is none.
    pub(crate) owed: u32,
    /// Whether the sizes are known.
    pub(crate) open_in: Open,
}

/// Where a reader stands after the end.
pub(crate) fn ended() -> Place
    ensures { result ≡ ended }
{
    Place {
        input: 0,
        riff: 0,
        movi: 0,
        names: Names::Any,
        owed: 0,
        open_in: Open::Sized,
    }
}

/// Whether a size is not known here.
pub(crate) fn is_open(open_in: Open) -> bool
    ensures { result ≡ is_open open_in }
{
    match open_in {
        Open::Sized => false,
        Open::OpenRiff => true,
        Open::OpenMovi => true,
    }
}

/// In an RIFF, or a movi, whose size is not known: so many bytes of the input are read at most,
/// after those of a movi of so many.
pub(crate) fn open_at(place: Place, open_in: Open, input: u64, movi: u64) -> Place
    ensures { result ≡ open_at place open_in input movi }
{
    Place {
        input,
        riff: 0,
        movi,
        names: place.names,
        owed: place.owed,
        open_in,
    }
}

/// After a frame of such a movi.
pub(crate) fn open_frame_at(place: Place, input: u64) -> Place
    ensures { result ≡ open_frame_at place input }
{
    Place {
        input,
        riff: 0,
        movi: 0,
        names: place.names,
        owed: place.owed.saturating_sub(1),
        open_in: Open::OpenMovi,
    }
}

/// How many further streams are told: none if the first `movi` alone is read.
pub(crate) fn others_in(extent: Extent, others: u64) -> u64
    ensures { result ≡ others_in extent others }
{
    match extent {
        Extent::FirstMovi => 0,
        Extent::EveryRiff => others,
    }
}

/// Whether the first RIFF, of this size, has room for its form; if every RIFF is read, its size may
/// not be known.
pub(crate) fn has_form(extent: Extent, size: u32) -> bool
    ensures { result ≡ has_form extent size }
{
    size >= 4 || extent == Extent::EveryRiff && size == 0
}

/// How many bytes RIFF of this size has after its form: as many as can be, if its size is not
/// known.
pub(crate) fn room_in(extent: Extent, size: u32) -> u64
    requires { has_form extent size ≡ true }
    ensures { result ≡ room_in extent size }
{
    if extent == Extent::EveryRiff && size == 0 {
        return 4294967291;
    }
    u64::from(size - 4)
}

/// Where the first movi stands in RIFF of this size: one without size ends with the input.
pub(crate) fn place_in(extent: Extent, size: u32, place: Place) -> Place
    ensures { result ≡ place_in extent size place }
{
    if extent == Extent::FirstMovi || is_known(size) || place.open_in != Open::Sized {
        return place;
    }
    Place {
        input: place.input,
        riff: 0,
        movi: place.movi,
        names: place.names,
        owed: place.owed,
        open_in: Open::OpenRiff,
    }
}
