//! Which chunks a movi has, by their names.

ghost use Rattle.std.specs.Prelude.{◌≡◌, ◌+◌, ◌/◌, ◌%◌, ◌∷◌, [], codes, false, true};
ghost use Rattle.ffv1_avi.specs.Names.{are_digits, bars, is_barred};
ghost use Rattle.ffv1_avi.specs.Names.{is_digit, least_bytes, most_bytes};
ghost use Rattle.ffv1_avi.specs.Names.{is_frame, is_index, is_of_other, is_stream_frame};
ghost use Rattle.ffv1_avi.specs.Names.{opens, rule_of, stands_beside};
ghost use Rattle.ffv1_avi.specs.Walk.{is_name, size_in};

use crate::chunk::is_name;
use crate::place::Names;
use ffv1_reads::{FRAME_LIMIT, LIMIT};

/// Whether a byte is a digit.
fn is_digit(byte: u8) -> bool
    ensures { result ≡ is_digit byte }
{
    byte >= 48 && byte < 58
}

/// Whether two bytes are digits.
fn are_digits(first: u8, second: u8) -> bool
    ensures { result ≡ are_digits first second }
{
    is_digit(first) && is_digit(second)
}

/// The name of what a stream has, by two letters.
fn stream_name(stream: u8, first: u8, second: u8) -> [u8; 4]
    ensures { result ≡ (48 + stream / 10) ∷ (48 + stream % 10) ∷ first ∷ second ∷ [] }
{
    [48 + stream / 10, 48 + stream % 10, first, second]
}

/// Whether a chunk is of another one of so many streams.
#[tactic(auto, unfolding(crate::specs::Names::is_of_other))]
fn is_of_other(stream: u8, streams: u8, name: [u8; 4]) -> bool
    ensures { result ≡ is_of_other stream streams name }
{
    if !are_digits(name[0], name[1]) {
        return false;
    }
    let number = 10 * (name[0] - 48) + (name[1] - 48);
    number != stream && number < streams
}

/// Whether a chunk is an index of a stream.
#[tactic(auto, unfolding(crate::specs::Names::is_index))]
pub(crate) fn is_index(name: [u8; 4]) -> bool
    ensures { result ≡ is_index name }
{
    is_name(&name[..2], b"ix") && are_digits(name[2], name[3])
}

/// Whether a chunk is a frame of a stream.
#[tactic(auto, unfolding(crate::specs::Names::is_stream_frame))]
fn is_stream_frame(stream: u8, name: [u8; 4]) -> bool
    ensures { result ≡ is_stream_frame stream name }
{
    is_name(&name, &stream_name(stream, b'd', b'c'))
        || is_name(&name, &stream_name(stream, b'd', b'b'))
}

/// Whether a chunk may stand beside the frames of a stream.
#[tactic(auto, unfolding(crate::specs::Names::stands_beside))]
fn stands_beside(stream: u8, streams: u8, name: [u8; 4]) -> bool
    ensures { result ≡ stands_beside stream streams name }
{
    is_name(&name, &stream_name(stream, b'p', b'c'))
        || is_of_other(stream, streams, name)
        || is_index(name)
        || is_name(&name, b"JUNK")
        || is_name(&name, b"LIST")
}

/// Whether a chunk of this name is a frame.
pub(crate) fn is_frame(names: Names, name: [u8; 4]) -> bool
    ensures { result ≡ is_frame names name }
{
    match names {
        Names::Any => is_name(&name, b"00dc"),
        Names::Closed(stream, _) => is_stream_frame(stream, name),
    }
}

/// The most bytes of a frame that are read.
pub(crate) fn most_bytes(names: Names) -> u32
    ensures { result ≡ most_bytes names }
{
    match names {
        Names::Any => LIMIT,
        Names::Closed(_, _) => FRAME_LIMIT,
    }
}

/// The fewest bytes of a frame that are read.
pub(crate) fn least_bytes(names: Names) -> u32
    ensures { result ≡ least_bytes names }
{
    match names {
        Names::Any => 1,
        Names::Closed(_, _) => 0,
    }
}

/// Whether a chunk of this name may not stand in movi.
pub(crate) fn is_barred(names: Names, name: [u8; 4]) -> bool
    ensures { result ≡ is_barred names name }
{
    match names {
        Names::Any => is_name(&name, b"LIST"),
        Names::Closed(stream, streams) => {
            !is_stream_frame(stream, name) && !stands_beside(stream, streams, name)
        }
    }
}

/// Whether a chunk of this name may not stand in movi, whatever size it says.
pub(crate) fn bars(names: Names, name: [u8; 4]) -> bool
    ensures { result ≡ bars names name }
{
    match names {
        Names::Any => false,
        Names::Closed(_, _) => is_barred(names, name),
    }
}

/// Whether movi opens the lists in it.
fn opens(names: Names) -> bool
    ensures { result ≡ opens names }
{
    match names {
        Names::Any => false,
        Names::Closed(_, _) => true,
    }
}

/// How many bytes of a chunk of this size are taken as one: of a list that movi opens four, which
/// are its own name.
pub(crate) fn size_in(names: Names, name: [u8; 4], size: u32) -> u32
    ensures value { result ≡ size_in (rule_of names) name size }
    ensures opened { is_barred names name ≡ false → is_name name (codes "LIST") ≡ true →
        result ≡ 4 }
{
    if opens(names) && is_name(&name, b"LIST") {
        return 4;
    }
    size
}
