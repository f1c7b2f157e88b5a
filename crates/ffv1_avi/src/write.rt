//! Writes a file.

ghost use Rattle.std.specs.Prelude.{◌≡◌, ◌+◌, ◌*◌, ◌<◌, ◌≤◌, ◌^◌, ◌++◌, ℕ, List, length, map, sum};
ghost use Rattle.std.specs.Prelude.{flat_map, Option, None, Some, if◌then◌else◌, nat_le, nat_lt};
ghost use Rattle.ffv1_wire.specs.Passage.{passage};
ghost use Rattle.ffv1_reads.specs.Head.{head_of};
ghost use Rattle.ffv1_avi.specs.Written.{avih, file_of, format_size, frame_chunk, frames_of, front};
ghost use Rattle.ffv1_avi.specs.Written.{head_text, microseconds, movi, movi_size, opening};
ghost use Rattle.ffv1_avi.specs.Written.{sizes_of, spelled, stream, strf};
ghost use Rattle.ffv1_reads.specs.Writes.{Writes};
ghost use Rattle.ffv1_avi.specs.Writes.{WritesFile};

use crate::chunk::padded;
use crate::field::{Field, put, put_fields, put_padding};
use ffv1_reads::{FileFault, FileHead};
use ffv1_wire::ByteOut;
use std::alloc::Allocator;

/// The greatest size of RIFF that is written: readers may take it as a signed number of 32 bits.
const MOST: u64 = 2_147_483_647;

/// The size of movi, if that of RIFF, which has so many bytes beside it, is not too great.
fn movi_size<A: Allocator>(frames: &[Vec<u8, A>], others: u64) -> Option<u32>
    requires { others < 2 ^ 33 }
    ensures { result
        ≡ (if nat_le (others + movi_size (frames_of frames.now)) 2147483647 then Some
        (movi_size (frames_of frames.now)) else None) }
{
    let mut size = 4u64;
    for frame in frames {
        if frame.len() as u64 > MOST {
            return None;
        }
        size += 8 + padded(frame.len() as u32);
        if others + size > MOST {
            return None;
        }
    }
    if others + size > MOST {
        None
    } else {
        Some(size as u32)
    }
}

/// Microseconds a frame, at most 4294967295; 0 if there is no rate.
fn microseconds(rate: u32, scale: u32) -> u32
    ensures { result ≡ microseconds rate scale }
{
    if rate == 0 {
        return 0;
    }
    (1_000_000 * u64::from(scale) / u64::from(rate)).min(u64::from(u32::MAX)) as u32
}

/// RIFF of a given size, and its list hdrl, for the given size of the format with its padding.
fn put_opening<W: ByteOut>(out: &mut W, size: u32, format: u32) -> Result<(), FileFault>
    requires { format ≤ 2 ^ 31 }
    ensures { Writes (passage W.contents W.failures out.old out.new)
        (spelled (opening size format)) result }
{
    let fields = [
        Field::Name(*b"RIFF"),
        Field::Number(size),
        Field::Name(*b"AVI "),
        Field::Name(*b"LIST"),
        Field::Number(152 + format),
        Field::Name(*b"hdrl"),
    ];
    put_fields(out, &fields)
}

/// The main header, AVIMAINHEADER of the AVI RIFF File Reference, for so many frames.
fn put_main_header<W: ByteOut, A: Allocator>(
    out: &mut W,
    head: &FileHead<A>,
    count: u32,
) -> Result<(), FileFault>
    ensures { Writes (passage W.contents W.failures out.old out.new)
        (spelled (avih (head_of head.now) count)) result }
{
    let fields = [
        Field::Name(*b"avih"),
        Field::Number(56), // cb
        Field::Number(microseconds(head.rate, head.scale)), // dwMicroSecPerFrame
        Field::Number(0), // dwMaxBytesPerSec: unknown
        Field::Number(0), // dwPaddingGranularity
        Field::Number(0), // dwFlags
        Field::Number(count), // dwTotalFrames
        Field::Number(0), // dwInitialFrames
        Field::Number(1), // dwStreams: the one of video
        Field::Number(0), // dwSuggestedBufferSize: unknown
        Field::Number(head.width), // dwWidth
        Field::Number(head.height), // dwHeight
        Field::Number(0), // dwReserved
        Field::Number(0),
        Field::Number(0),
        Field::Number(0),
    ];
    put_fields(out, &fields)
}

/// The list strl, for the given size of the format with its padding, and the stream's header,
/// AVISTREAMHEADER, for so many frames.
fn put_stream<W: ByteOut, A: Allocator>(
    out: &mut W,
    head: &FileHead<A>,
    format: u32,
    count: u32,
) -> Result<(), FileFault>
    requires width { head.now.width ≤ 8192 }
    requires height { head.now.height ≤ 8192 }
    requires format { format ≤ 2 ^ 31 }
    ensures { Writes (passage W.contents W.failures out.old out.new)
        (spelled (stream (head_of head.now) format count)) result }
{
    let fields = [
        Field::Name(*b"LIST"),
        Field::Number(76 + format),
        Field::Name(*b"strl"),
        Field::Name(*b"strh"),
        Field::Number(56), // cb
        Field::Name(*b"vids"), // fccType
        Field::Name(*b"FFV1"), // fccHandler
        Field::Number(0), // dwFlags
        Field::Pair(0, 0), // wPriority, wLanguage
        Field::Number(0), // dwInitialFrames
        Field::Number(head.scale), // dwScale
        Field::Number(head.rate), // dwRate
        Field::Number(0), // dwStart
        Field::Number(count), // dwLength
        Field::Number(0), // dwSuggestedBufferSize: unknown
        Field::Number(0), // dwQuality
        Field::Number(0), // dwSampleSize: frames differ in size
        Field::Pair(0, 0), // rcFrame: left, top
        Field::Pair(head.width as u16, head.height as u16), // rcFrame: right, bottom
    ];
    put_fields(out, &fields)
}

/// The format, BITMAPINFOHEADER, of a given size, up to the record that comes after it (RFC 9043,
/// 4.3.3).
fn put_format<W: ByteOut, A: Allocator>(
    out: &mut W,
    head: &FileHead<A>,
    size: u32,
) -> Result<(), FileFault>
    requires { size ≡ 40 + length head.now.config_record.items }
    ensures { Writes (passage W.contents W.failures out.old out.new)
        (spelled (strf (head_of head.now))) result }
{
    let fields = [
        Field::Name(*b"strf"),
        Field::Number(size), // cb
        Field::Number(40), // biSize: without the record
        Field::Number(head.width), // biWidth
        Field::Number(head.height), // biHeight
        Field::Pair(1, 24), // biPlanes, which is always 1; biBitCount, of three samples of 8
        Field::Name(*b"FFV1"), // biCompression
        Field::Number(0), // biSizeImage
        Field::Number(0), // biXPelsPerMeter
        Field::Number(0), // biYPelsPerMeter
        Field::Number(0), // biClrUsed
        Field::Number(0), // biClrImportant
    ];
    put_fields(out, &fields)
}

/// A frame's chunk.
fn put_frame<W: ByteOut>(out: &mut W, frame: &[u8]) -> Result<(), FileFault>
    requires { length frame.now < 2 ^ 32 }
    ensures { Writes (passage W.contents W.failures out.old out.new)
        (frame_chunk frame.now) result }
{
    let fields = [Field::Name(*b"00dc"), Field::Number(frame.len() as u32)];
    put_fields(out, &fields)?;
    put(out, frame)?;
    put_padding(out, frame.len())
}

/// The list movi of a given size, and the frames.
fn put_movi<W: ByteOut, A: Allocator>(
    out: &mut W,
    frames: &[Vec<u8, A>],
    size: u32,
) -> Result<(), FileFault>
    requires { movi_size (frames_of frames.now) ≤ 2147483647 }
    ensures { Writes (passage W.contents W.failures out.old out.new)
        (spelled (movi size) ++ flat_map frame_chunk (frames_of frames.now)) result }
{
    let fields = [
        Field::Name(*b"LIST"),
        Field::Number(size),
        Field::Name(*b"movi"),
    ];
    put_fields(out, &fields)?;
    for frame in frames {
        put_frame(out, frame)?;
    }
    Ok(())
}

/// The file's parts before movi, for the given sizes of the format and of RIFF.
fn put_head<W: ByteOut, A: Allocator>(
    out: &mut W,
    head: &FileHead<A>,
    size: u32,
    count: u32,
) -> Result<(), FileFault>
    requires width { head.now.width ≤ 8192 }
    requires height { head.now.height ≤ 8192 }
    requires short { 40 + length head.now.config_record.items ≤ 2147483647 }
    ensures { Writes (passage W.contents W.failures out.old out.new)
        (head_text (head_of head.now) count size) result }
{
    let len = 40 + head.config_record.len();
    let format = padded(len as u32) as u32;
    put_opening(out, size, format)?;
    put_main_header(out, head, count)?;
    put_stream(out, head, format, count)?;
    put_format(out, head, len as u32)?;
    put(out, &head.config_record)?;
    put_padding(out, len)
}

/// The sizes of movi and of RIFF, if that is at most 2147483647.
fn sizes<A: Allocator>(head: &FileHead<A>, frames: &[Vec<u8, A>]) -> Option<(u32, u32)>
    ensures { result ≡ sizes_of (head_of head.now) (frames_of frames.now) }
{
    if head.config_record.len() as u64 > MOST {
        return None;
    }
    let others = 172 + padded(40 + head.config_record.len() as u32);
    let movi = movi_size(frames, others)?;
    Some((movi, others as u32 + movi))
}

/// Writes a file of the head and the frames.
///
/// Sizes are at most 8192. `TooLarge`, before any byte, if the size of RIFF would pass 2147483647.
/// `Write` if a write failed: a beginning of the file has then been written. It takes no memory.
pub fn write_avi<W: ByteOut, A: Allocator>(
    out: &mut W,
    head: &FileHead<A>,
    frames: &[Vec<u8, A>],
) -> Result<(), FileFault>
    requires width { head.now.width ≤ 8192 }
    requires height { head.now.height ≤ 8192 }
    ensures { WritesFile (passage W.contents W.failures out.old out.new)
        (head_of head.now) (frames_of frames.now) result }
{
    let Some((movi, riff)) = sizes(head, frames) else {
        return Err(FileFault::TooLarge);
    };
    put_head(out, head, riff, frames.len() as u32)?;
    put_movi(out, frames, movi)
}
