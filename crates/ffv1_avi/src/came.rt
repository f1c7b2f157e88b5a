//! What comes of the header of a chunk in a file that may be damaged, and of a fault there.

ghost use Rattle.std.specs.Prelude.{◌≡◌, ◌-◌, ◌≤◌, IfOk, None, Option, length, true};
ghost use Rattle.ffv1_avi.specs.Internal.Came.{came_turn};
ghost use Rattle.ffv1_avi.specs.Turns.{begins_frame, count_to, fault_turn, lost, lost_at};
ghost use Rattle.ffv1_avi.specs.Turns.{passed_at, passed_of, stray, window_of};
ghost use Rattle.ffv1_avi.specs.declared.course.Turn.{Turn};
ghost use Rattle.ffv1_reads.specs.Reads.{Answers};
ghost use Rattle.ffv1_wire.specs.Passage.{passage};

use crate::chunk::padded;
use crate::course::{Pending, Turn};
use crate::names::is_frame;
use crate::place::{Names, Open, Place, ended, is_open};
use byteorder::{ByteOrder, LittleEndian};
use ffv1_reads::{FileFault, pass};
use ffv1_wire::ByteIn;

/// What comes of a chunk.
#[derive(Clone, Copy)]
pub(crate) enum Came {
    /// A fault.
    Fault(FileFault),
    /// A frame of so many bytes, and the place after it.
    Frame(u32, Place),
    /// So many bytes that are passed, and the place after them.
    Pass(u64, Place),
}

/// What comes of its header.
#[derive(Clone, Copy)]
pub(crate) enum Header {
    /// All.
    Whole(Came),
    /// It is a list, whose own name comes next.
    Named {
        /// The place in it, if it is entered.
        enters: Place,
        /// The place after it.
        next: Place,
        /// Its size; 0 if that is not known.
        size: u32,
    },
}

/// Up to 8 bytes, with zeros before them.
fn window_of(bytes: &[u8]) -> [u8; 8]
    requires { length bytes.now ≤ 8 }
    ensures { result ≡ window_of bytes.now }
{
    let mut window = [0u8; 8];
    window[8 - bytes.len()..].copy_from_slice(bytes);
    window
}

/// Whether bytes begin with the header of a chunk of frames.
fn begins_frame(names: Names, bytes: &[u8]) -> bool
    ensures value { result ≡ begins_frame names bytes.now }
    ensures long { result ≡ true → 8 ≤ length bytes.now }
{
    if bytes.len() < 8 {
        return false;
    }
    let mut name = [0u8; 4];
    name.copy_from_slice(&bytes[..4]);
    is_frame(names, name)
}

/// How many of the bytes that were read of a chunk at fault are not looked at again.
fn passed_of(names: Names, bytes: &[u8]) -> usize
    ensures value { result ≡ passed_of names bytes.now }
    ensures few { length bytes.now - result ≤ 8 }
    ensures within { result ≤ length bytes.now }
{
    if begins_frame(names, bytes) {
        return 1 + bytes.len().saturating_sub(9);
    }
    bytes.len().saturating_sub(8)
}

/// The place after a fault: no size is trusted there, and no frame is owed.
pub(crate) fn lost_at(place: Place) -> Place
    ensures { result ≡ lost_at place }
{
    Place {
        input: u64::MAX,
        riff: 0,
        movi: 0,
        names: place.names,
        owed: 0,
        open_in: Open::OpenMovi,
    }
}

/// A fault after which a chunk of frames is sought, of a chunk of which these bytes were read.
fn lost(place: Place, fault: FileFault, bytes: &[u8]) -> Turn
    ensures { result ≡ lost place fault bytes.now }
{
    let passed = passed_of(place.names, bytes);
    let window = window_of(&bytes[passed..]);
    Turn::Told {
        fault,
        count: bytes.len() as u64,
        pending: Pending::Seeking { window },
        place: lost_at(place),
    }
}

/// The place after so many bytes of an RIFF, where no frame is owed.
fn passed_at(place: Place, count: u64) -> Place
    ensures { result ≡ passed_at place count }
{
    let beyond = if is_open(place.open_in) { count } else { 0 };
    Place {
        input: place.input.saturating_sub(beyond),
        riff: place.riff.saturating_sub(count),
        movi: 0,
        names: place.names,
        owed: 0,
        open_in: place.open_in,
    }
}

/// A frame in RIFF: it is passed by its size.
fn stray(place: Place, size: u32) -> Turn
    ensures { result ≡ stray place size }
{
    let count = padded(size);
    Turn::Told {
        fault: FileFault::NotAvi,
        count: 8,
        pending: Pending::Passing {
            count,
            seeks: false,
        },
        place: passed_at(place, 8 + count),
    }
}

/// A fault of a chunk of which these bytes were read: another file ends the frames.
pub(crate) fn fault_turn(place: Place, fault: FileFault, bytes: &[u8]) -> Turn
    ensures { result ≡ fault_turn place fault bytes.now }
{
    match fault {
        FileFault::Another => Turn::Told {
            fault,
            count: bytes.len() as u64,
            pending: Pending::Nothing,
            place: ended(),
        },
        FileFault::NotAvi => {
            if begins_frame(place.names, bytes) {
                return stray(place, LittleEndian::read_u32(&bytes[4..]));
            }
            lost(place, fault, bytes)
        }
        _ => lost(place, fault, bytes),
    }
}

/// How many bytes lead from a place to one without a frame.
fn count_to(from: Place, to: Place) -> u64
    ensures { result ≡ count_to from to }
{
    if from.movi == 0 && to.movi > 0 {
        return 12;
    }
    let before = u128::from(from.movi) + u128::from(from.riff) + u128::from(from.input);
    let after = u128::from(to.movi) + u128::from(to.riff) + u128::from(to.input);
    u64::try_from(before.saturating_sub(after)).unwrap_or(u64::MAX)
}

/// What comes of a chunk of which these bytes were read.
pub(crate) fn finish<R: ByteIn>(
    input: &mut R,
    place: Place,
    came: Came,
    bytes: &[u8],
) -> Result<Option<Turn>, FileFault>
    ensures answer { Answers (λ (t : Option Turn). t) (came_turn place came bytes.now)
        (passage R.remaining R.failures input.old input.new) result }
    ensures more { IfOk result (λ t. t ≡ None → ⊥) }
{
    match came {
        Came::Fault(fault) => Ok(Some(fault_turn(place, fault, bytes))),
        Came::Frame(size, next) => Ok(Some(Turn::Frame {
            count: 8,
            size,
            place: next,
        })),
        Came::Pass(count, next) => {
            pass(input, count)?;
            Ok(Some(Turn::On {
                count: count_to(place, next),
                pending: Pending::Nothing,
                place: next,
            }))
        }
    }
}
