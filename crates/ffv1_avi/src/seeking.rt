//! Seeks the next chunk of frames in damaged bytes.

ghost use Rattle.std.specs.Prelude.{◌≡◌, ◌++◌, ◌||◌, [], ◌∷◌, Option, drop, length, take, true};
ghost use Rattle.ffv1_avi.specs.Internal.Ending.{AnswersOrNone};
ghost use Rattle.ffv1_avi.specs.Turns.{Found, begins_index, begins_sized, found_in, found_turn};
ghost use Rattle.ffv1_avi.specs.Turns.{seek_turn};
ghost use Rattle.ffv1_avi.specs.Turns.{sought};
ghost use Rattle.ffv1_avi.specs.declared.course.Turn.{Turn};
ghost use Rattle.ffv1_avi.specs.declared.place.Extent.TheVariants.{EveryRiff};
ghost use Rattle.ffv1_wire.specs.Passage.{passage};

use crate::chunk::{is_name, padded};
use crate::course::{Pending, Turn};
use crate::names::{is_frame, is_index, most_bytes};
use crate::place::{Names, Place};
use byteorder::{ByteOrder, LittleEndian};
use ffv1_reads::FileFault;
use ffv1_wire::{ByteIn, read_byte};

/// The name of a header.
fn name_of(head: [u8; 8]) -> [u8; 4]
    ensures { result ≡ take 4 head }
{
    let mut name = [0u8; 4];
    name.copy_from_slice(&head[..4]);
    name
}

/// Whether a header is one of frames that have bytes, and not too many.
fn begins_sized(names: Names, head: [u8; 8]) -> bool
    ensures { result ≡ begins_sized names head }
{
    let size = LittleEndian::read_u32(&head[4..]);
    is_frame(names, name_of(head)) && size >= 1 && size <= most_bytes(names)
}

/// Whether it is one of an index.
fn begins_index(head: [u8; 8]) -> bool
    ensures { result ≡ begins_index head }
{
    let name = name_of(head);
    is_name(&name, b"idx1") || is_index(name)
}

/// Eight bytes of which the first is passed, and one more.
fn slid(head: [u8; 8], byte: u8) -> [u8; 8]
    ensures value { result ≡ drop 1 head ++ byte ∷ [] }
    ensures long { length result ≡ 8 }
{
    [
        head[1], head[2], head[3], head[4], head[5], head[6], head[7], byte,
    ]
}

/// A header has eight bytes.
fn is_whole(head: [u8; 8]) -> bool
    ensures value { result ≡ true }
    ensures long { length head ≡ 8 }
{
    head.len() == 8
}

/// Whether a header is one of frames that have bytes, and not too many, or one of an index.
fn is_sought(names: Names, head: [u8; 8]) -> bool
    ensures { result ≡ (begins_sized names head || begins_index head) }
{
    begins_sized(names, head) || begins_index(head)
}

/// A header that was found after so many bytes.
fn found_in(names: Names, count: u64, head: [u8; 8]) -> (u64, bool, u32)
    ensures { result ≡ found_in names count head }
{
    let frames = begins_sized(names, head);
    (count, frames, LittleEndian::read_u32(&head[4..]))
}

/// Passes bytes up to the next header of frames, or of an index, from these on, and answers how
/// many were read, whether it is one of frames, and the size that it says; None if the input ends
/// before.
fn scan<R: ByteIn>(
    input: &mut R,
    names: Names,
    window: [u8; 8],
) -> Result<Option<(u64, bool, u32)>, FileFault>
    ensures { AnswersOrNone EveryRiff (λ (found : Option Found). found)
        (λ text. sought names (window ++ text))
        (passage R.remaining R.failures input.old input.new) result }
{
    let mut head = window;
    let _whole = is_whole(head);
    for count in 0..u64::MAX {
        if is_sought(names, head) {
            return Ok(Some(found_in(names, count, head)));
        }
        let byte = match read_byte(input) {
            Ok(byte) => byte,
            Err(_) => return Err(FileFault::Read),
        };
        let Some(byte) = byte else {
            return Ok(None);
        };
        let next = slid(head, byte);
        head = next;
    }
    Ok(None)
}

/// What comes of a header that was found.
fn found_turn(place: Place, found: Option<(u64, bool, u32)>) -> Option<Turn>
    ensures { result ≡ found_turn place found }
{
    let Some((count, frames, size)) = found else {
        return None;
    };
    if frames {
        return Some(Turn::Frame { count, size, place });
    }
    Some(Turn::On {
        count,
        pending: Pending::Passing {
            count: padded(size),
            seeks: true,
        },
        place,
    })
}

/// Seeks the next chunk of frames, first in bytes that were read. An index is passed.
#[tactic(auto, unfolding(crate::specs::Turns::seek_turn))]
pub(crate) fn seek_turn<R: ByteIn>(
    input: &mut R,
    window: [u8; 8],
    place: Place,
) -> Result<Option<Turn>, FileFault>
    ensures { AnswersOrNone EveryRiff (λ (t : Option Turn). t) (seek_turn window place)
        (passage R.remaining R.failures input.old input.new) result }
{
    let found = scan(input, place.names, window)?;
    Ok(found_turn(place, found))
}
