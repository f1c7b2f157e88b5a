//! The headers of chunks in a file that may be damaged.

ghost use Rattle.std.specs.Prelude.{◌≡◌, ◌<◌};
ghost use Rattle.ffv1_avi.specs.Internal.Came.{at_fault, frame_next, framed_header};
ghost use Rattle.ffv1_avi.specs.Internal.Came.{movi_enters, movi_entry, movi_header, movi_next};
ghost use Rattle.ffv1_avi.specs.Internal.Came.{movi_own, open_came, own_came};
ghost use Rattle.ffv1_avi.specs.Internal.Came.{is_unsized, riff_came, riff_entry, riff_header};
ghost use Rattle.ffv1_avi.specs.Internal.Came.{riff_next, riff_own, sized_came, sized_header};
ghost use Rattle.ffv1_avi.specs.Internal.Came.{sizeless_header};

use crate::came::{Came, Header};
use crate::chunk::{Entry, is_known, is_name, padded};
use crate::names::{bars, is_barred, is_frame, least_bytes, most_bytes, size_in};
use crate::place::{Open, Place, is_open, open_at, open_frame_at};
use byteorder::{ByteOrder, LittleEndian};
use ffv1_reads::FileFault;

/// A fault of a header.
fn at_fault(fault: FileFault) -> Header
    ensures { result ≡ at_fault fault }
{
    Header::Whole(Came::Fault(fault))
}

/// The place after a chunk of movi, which has so many bytes left then, if it has a size.
fn movi_next(place: Place, left: u64) -> Place
    requires { left < 18446744073709551615 }
    ensures { result ≡ movi_next place left }
{
    if place.movi > 0 {
        return Place {
            input: place.input,
            riff: place.riff,
            movi: left,
            names: place.names,
            owed: place.owed,
            open_in: place.open_in,
        };
    }
    open_at(place, Open::OpenMovi, left + 1, 0)
}

/// The same after a frame.
fn frame_next(place: Place, left: u64) -> Place
    requires { left < 18446744073709551615 }
    ensures { result ≡ frame_next place left }
{
    if place.movi > 0 {
        return Place {
            input: place.input,
            riff: place.riff,
            movi: left,
            names: place.names,
            owed: place.owed.saturating_sub(1),
            open_in: place.open_in,
        };
    }
    open_frame_at(place, left + 1)
}

/// A chunk of frames.
fn framed_header(place: Place, entry: Entry) -> Came
    requires { entry.left < 18446744073709551615 }
    ensures { result ≡ framed_header place entry }
{
    if entry.size > most_bytes(place.names) {
        return Came::Fault(FileFault::ChunkTooLong);
    }
    if entry.size < least_bytes(place.names) {
        return Came::Fault(FileFault::EmptyFrame);
    }
    Came::Frame(entry.size, frame_next(place, entry.left))
}

/// A chunk of movi that fits there.
fn movi_entry(place: Place, entry: Entry) -> Header
    requires { entry.left < 18446744073709551615 }
    ensures { result ≡ movi_entry place entry }
{
    if is_barred(place.names, entry.name) {
        return at_fault(FileFault::NotAvi);
    }
    if is_frame(place.names, entry.name) {
        return Header::Whole(framed_header(place, entry));
    }
    let next = movi_next(place, entry.left);
    if is_name(&entry.name, b"LIST") {
        return Header::Named {
            enters: next,
            next,
            size: entry.size,
        };
    }
    Header::Whole(Came::Pass(padded(entry.size), next))
}

/// The header of a chunk of movi, in which so many bytes are left.
pub(crate) fn movi_header(place: Place, left: u64, name: [u8; 4], size: u32) -> Header
    ensures { result ≡ movi_header place left name size }
{
    if bars(place.names, name) {
        return at_fault(FileFault::NotAvi);
    }
    if left < 8 + padded(size) {
        return at_fault(FileFault::Truncated);
    }
    if is_name(&name, b"LIST") && size < 4 {
        return at_fault(FileFault::NotAvi);
    }
    let size = size_in(place.names, name, size);
    let taken = 8 + padded(size);
    movi_entry(
        place,
        Entry {
            name,
            size,
            left: left.saturating_sub(taken),
        },
    )
}

/// A list of movi, by its own name.
fn movi_own(next: Place, own: [u8; 4]) -> Came
    ensures { result ≡ movi_own next own }
{
    if !is_name(&own, b"rec ") {
        return Came::Fault(FileFault::NotAvi);
    }
    Came::Pass(0, next)
}

/// The place after a chunk of RIFF, which has so many bytes left then, if it has a size.
fn riff_next(place: Place, left: u64) -> Place
    requires { left < 18446744073709551615 }
    ensures { result ≡ riff_next place left }
{
    if is_open(place.open_in) {
        return open_at(place, Open::OpenRiff, left + 1, 0);
    }
    Place {
        input: place.input,
        riff: left,
        movi: 0,
        names: place.names,
        owed: place.owed,
        open_in: place.open_in,
    }
}

/// The place in a list movi of RIFF.
fn movi_enters(place: Place, entry: Entry) -> Place
    requires { entry.left < 18446744073709551615 }
    ensures { result ≡ movi_enters place entry }
{
    let movi = u64::from(entry.size.saturating_sub(4));
    if is_open(place.open_in) {
        return open_at(place, Open::OpenRiff, entry.left + 1, movi);
    }
    Place {
        input: place.input,
        riff: entry.left,
        movi,
        names: place.names,
        owed: place.owed,
        open_in: place.open_in,
    }
}

/// A chunk of RIFF that fits there.
fn riff_entry(place: Place, entry: Entry) -> Header
    requires { entry.left < 18446744073709551615 }
    ensures { result ≡ riff_entry place entry }
{
    let next = riff_next(place, entry.left);
    if is_name(&entry.name, b"LIST") {
        return Header::Named {
            enters: movi_enters(place, entry),
            next,
            size: entry.size,
        };
    }
    if is_frame(place.names, entry.name) {
        return at_fault(FileFault::NotAvi);
    }
    Header::Whole(Came::Pass(padded(entry.size), next))
}

/// The header of a list without size, which is a movi.
fn sizeless_header(place: Place, left: u64) -> Header
    ensures { result ≡ sizeless_header place left }
{
    if left < 12 {
        return at_fault(FileFault::Truncated);
    }
    Header::Named {
        enters: open_at(place, Open::OpenMovi, left - 11, 0),
        next: place,
        size: 0,
    }
}

/// The header of a chunk with a size.
fn sized_header(place: Place, left: u64, name: [u8; 4], size: u32) -> Header
    ensures { result ≡ sized_header place left name size }
{
    let taken = 8 + padded(size);
    if left < taken {
        return at_fault(FileFault::Truncated);
    }
    if is_name(&name, b"LIST") && size < 4 {
        return at_fault(FileFault::NotAvi);
    }
    riff_entry(
        place,
        Entry {
            name,
            size,
            left: left - taken,
        },
    )
}

/// Whether a chunk is a list without size, in an RIFF without size.
fn is_unsized(place: Place, name: [u8; 4], size: u32) -> bool
    ensures { result ≡ is_unsized place name size }
{
    is_open(place.open_in) && is_name(&name, b"LIST") && !is_known(size)
}

/// The header of a chunk of RIFF, in which so many bytes are left.
pub(crate) fn riff_header(place: Place, left: u64, name: [u8; 4], size: u32) -> Header
    ensures { result ≡ riff_header place left name size }
{
    if is_unsized(place, name, size) {
        return sizeless_header(place, left);
    }
    sized_header(place, left, name, size)
}

/// A list of RIFF, by its own name.
fn riff_own(enters: Place, next: Place, size: u32, own: [u8; 4]) -> Came
    ensures { result ≡ riff_own enters next size own }
{
    if is_name(&own, b"movi") {
        return Came::Pass(0, enters);
    }
    if size == 0 {
        return Came::Fault(FileFault::NotAvi);
    }
    Came::Pass(padded(size).saturating_sub(4), next)
}

/// A list of movi or of RIFF, by its own name.
pub(crate) fn own_came(in_movi: bool, enters: Place, next: Place, size: u32, own: [u8; 4]) -> Came
    ensures { result ≡ own_came in_movi enters next size own }
{
    if in_movi {
        return movi_own(next, own);
    }
    riff_own(enters, next, size, own)
}

/// An RIFF without size after the first one, of which twelve bytes were read.
fn open_came(place: Place) -> Came
    ensures { result ≡ open_came place }
{
    if place.input <= 12 {
        return Came::Fault(FileFault::Truncated);
    }
    Came::Pass(0, open_at(place, Open::OpenRiff, place.input - 12, 0))
}

/// One with a size.
fn sized_came(place: Place, size: u32) -> Came
    ensures { result ≡ sized_came place size }
{
    if size < 4 {
        return Came::Fault(FileFault::NotAvi);
    }
    let whole = 8 + u64::from(size);
    if place.input <= whole {
        return Came::Fault(FileFault::Truncated);
    }
    let next = Place {
        input: place.input - whole,
        riff: u64::from(size - 4),
        movi: 0,
        names: place.names,
        owed: place.owed,
        open_in: Open::Sized,
    };
    Came::Pass(0, next)
}

/// The size and the form of an RIFF after the first one.
pub(crate) fn riff_came(place: Place, bytes: [u8; 8]) -> Came
    ensures { result ≡ riff_came place bytes }
{
    if !is_name(&bytes[4..], b"AVIX") {
        return Came::Fault(FileFault::Another);
    }
    let size = LittleEndian::read_u32(&bytes);
    if is_open(place.open_in) || !is_known(size) {
        return open_came(place);
    }
    sized_came(place, size)
}
