//! Tracks, in memory.

ghost use Rattle.std.specs.Prelude.{◌≡◌, ◌≤◌, IfOk, IfSome, length, min};
ghost use Rattle.ffv1_ebml.specs.Children.{slices};
ghost use Rattle.ffv1_matroska.specs.Internal.{contents, track_found, tracks};
ghost use Rattle.ffv1_matroska.specs.Rates.{greatest};
ghost use Rattle.ffv1_reads.specs.Bitmap.{record_end};
ghost use Rattle.ffv1_matroska.specs.Tracks.{format_record};
ghost use Rattle.ffv1_matroska.specs.Tracks.{content_at, is_format, number_at, record_in};
ghost use Rattle.ffv1_matroska.specs.Tracks.{first_track, known_in, known_up_to, known_with};
ghost use Rattle.ffv1_matroska.specs.Tracks.{is_video, others_in, videos_up_to, videos_with};
ghost use Rattle.ffv1_matroska.specs.Tracks.{record_of, track_at, track_in, track_of, with_number};
ghost use Rattle.ffv1_matroska.specs.Blocks.{bit_of, is_unknown};

use crate::colour::colour_in;
use crate::idents::{
    CODEC_ID, CODEC_PRIVATE, CONTENT_ENCODINGS, DEFAULT_DURATION, PIXEL_HEIGHT, PIXEL_WIDTH,
    TRACK_ENTRY, TRACK_NUMBER, TRACK_TYPE, VIDEO,
};
use crate::rate::rate_of;
use byteorder::{ByteOrder, LittleEndian};
use ffv1_ebml::{Child, find, first_child, judge, number, text};
use ffv1_reads::{Colour, FileFault, is_ffv1};

/// The numbers of tracks, by which blocks are told apart, and what else reading goes by.
#[derive(Clone, Copy)]
pub(crate) struct TrackNumbers {
    /// The number of the track that is read.
    pub(crate) number: u64,
    /// The numbers of all tracks, of those up to 127: the sum of the powers of two that have them
    /// as exponents; and 1 where a number is above that.
    pub(crate) known: u128,
    /// How many other tracks are FFV1 video, which are not read.
    pub(crate) others: u64,
    /// How long a frame of the track lasts, in nanoseconds; 0 if that is not said.
    pub(crate) duration: u64,
}

/// A track of FFV1 video: the number of its blocks, and what its head says.
#[derive(Clone, Copy)]
pub(crate) struct Track<'a> {
    pub(crate) numbers: TrackNumbers,
    pub(crate) width: u32,
    pub(crate) height: u32,
    pub(crate) rate: u32,
    pub(crate) scale: u32,
    pub(crate) colour: Colour,
    pub(crate) config_record: &'a [u8],
}

/// What a track says beside its configuration record.
#[derive(Clone, Copy)]
pub(crate) struct Numbers {
    pub(crate) numbers: TrackNumbers,
    pub(crate) width: u32,
    pub(crate) height: u32,
    pub(crate) rate: u32,
    pub(crate) scale: u32,
    pub(crate) colour: Colour,
}

/// The number that the first element with this ID holds, and 0 if there is none.
fn number_at(content: &[u8], ident: u32) -> Result<u64, FileFault>
    ensures { result ≡ number_at ident content.now }
{
    match find(content, ident)? {
        Some(field) => number(field, 0),
        None => Ok(0),
    }
}

/// The content of the first element with this ID, and no bytes if there is none.
pub(crate) fn content_at(content: &[u8], ident: u32) -> Result<&[u8], FileFault>
    ensures value { contents result ≡ content_at ident content.now }
    ensures short { IfOk result (λ s. length s.now ≤ length content.now) }
{
    match find(content, ident)? {
        Some(field) => Ok(field),
        None => Ok(&content[..0]),
    }
}

/// Whether a format of Video for Windows is that of FFV1, in great or small letters.
fn is_format(format: &[u8]) -> bool
    ensures { result ≡ is_format format.now }
{
    format.len() >= 40 && is_ffv1(&format[16..20])
}

/// Where the record ends in a format of so many bytes, of which the first number is this one.
fn record_end(says: u32, len: usize) -> usize
    requires { 40 ≤ len }
    ensures value { result ≡ record_end says len }
    ensures least { 40 ≤ result }
    ensures most { result ≤ len }
{
    let says = says as usize;
    if 40 < says && says < len { says } else { len }
}

/// The configuration record of such a format.
fn format_record(format: &[u8]) -> &[u8]
    requires { 40 ≤ length format.now }
    ensures value { result.now ≡ format_record format.now }
    ensures short { length result.now ≤ length format.now }
{
    let end = record_end(LittleEndian::read_u32(format), format.len());
    &format[40..end]
}

/// The configuration record of an entry of this codec, if that is FFV1.
fn record_of<'a>(codec: &[u8], content: &'a [u8]) -> Result<Option<&'a [u8]>, FileFault>
    ensures value { slices result ≡ record_of codec.now content.now }
    ensures short { IfOk result (λ o. IfSome o (λ s. length s.now ≤ length content.now)) }
{
    if codec == b"V_FFV1".as_slice() {
        let record = content_at(content, CODEC_PRIVATE)?;
        return Ok(Some(record));
    }
    if codec != b"V_MS/VFW/FOURCC".as_slice() {
        return Ok(None);
    }
    let format = content_at(content, CODEC_PRIVATE)?;
    if is_format(format) {
        return Ok(Some(format_record(format)));
    }
    Ok(None)
}

/// The configuration record of an entry, if that is FFV1 video.
#[tactic(auto, unfolding(crate::specs::Tracks::record_in))]
fn record_in(content: &[u8]) -> Result<Option<&[u8]>, FileFault>
    ensures value { slices result ≡ record_in content.now }
    ensures short { IfOk result (λ o. IfSome o (λ s. length s.now ≤ length content.now)) }
{
    if number_at(content, TRACK_TYPE)? != 1 {
        return Ok(None);
    }
    let codec = content_at(content, CODEC_ID)?;
    record_of(text(codec), content)
}

/// A number of samples; what passes 32 bits is taken as the greatest.
fn samples(number: u64) -> u32
    ensures { result ≡ min number greatest }
{
    number.min(4_294_967_295) as u32
}

/// The track of an entry with this record.
#[tactic(auto, unfolding(crate::specs::Tracks::track_of))]
fn track_of<'a>(content: &[u8], config_record: &'a [u8]) -> Result<Track<'a>, FileFault>
    ensures value { tracks result ≡ track_of content.now config_record.now }
    ensures kept { IfOk result (λ t. t.config_record.now ≡ config_record.now) }
{
    if find(content, CONTENT_ENCODINGS)?.is_some() {
        return Err(FileFault::Encoded);
    }
    let number = number_at(content, TRACK_NUMBER)?;
    let duration = number_at(content, DEFAULT_DURATION)?;
    let (rate, scale) = rate_of(duration);
    let video = content_at(content, VIDEO)?;
    let width = samples(number_at(video, PIXEL_WIDTH)?);
    let height = samples(number_at(video, PIXEL_HEIGHT)?);
    Ok(Track {
        numbers: TrackNumbers {
            number,
            known: 0,
            others: 0,
            duration,
        },
        width,
        height,
        rate,
        scale,
        colour: colour_in(video),
        config_record,
    })
}

/// The track of an element of Tracks, if that is an entry of FFV1 video.
#[tactic(auto, unfolding(crate::specs::Tracks::track_at))]
fn track_at<'a>(child: &Child<'a>) -> Result<Option<Track<'a>>, FileFault>
    ensures value { track_found result ≡ track_at child.now.ident child.now.content.now }
    ensures short { IfOk result (λ o. IfSome o
        (λ t. length t.config_record.now ≤ length child.now.content.now)) }
{
    if child.ident != TRACK_ENTRY {
        return Ok(None);
    }
    let Some(config_record) = record_in(child.content)? else {
        return Ok(None);
    };
    let track = track_of(child.content, config_record)?;
    Ok(Some(track))
}

/// The first entry of FFV1 video of the content of Tracks.
///
/// `Checksum` if its CRC-32 differs. `NoFfv1` if no entry is FFV1 video. `Encoded` if the one that
/// counts has ContentEncodings. `Truncated` and `BadElement` if an element that is looked at can't
/// be read: those of the content up to the entry that counts, and of an entry those up to the last
/// of the fields that are looked for, in the order TrackType, CodecID, CodecPrivate,
/// ContentEncodings, TrackNumber, DefaultDuration, Video, and in that PixelWidth and PixelHeight. A
/// field is looked for only while the entry may be one of FFV1 video. What Video says of colours
/// has no fault.
#[tactic(auto, unfolding(crate::specs::Tracks::first_track))]
fn first_track(content: &[u8]) -> Result<Track<'_>, FileFault>
    ensures value { tracks result ≡ first_track content.now }
    ensures short { IfOk result (λ t. length t.config_record.now ≤ length content.now) }
{
    judge(content)?;
    let mut rest = content;
    while let Some(child) = first_child(rest)? {
        if let Some(track) = track_at(&child)? {
            return Ok(track);
        }
        rest = child.rest;
    }
    Err(FileFault::NoFfv1)
}

/// The bit that stands for a track's number: the one that it counts up to 127, and the first for
/// all greater numbers.
fn bit_of(number: u64) -> u64
    ensures value { result ≡ bit_of number }
    ensures most { result ≤ 127 }
{
    if number <= 127 { number } else { 0 }
}

/// Whether no track has this number; of one above 127, whether none has one above that.
#[tactic(auto, unfolding(crate::specs::Blocks::is_unknown))]
pub(crate) fn is_unknown(known: u128, number: u64) -> bool
    ensures { result ≡ is_unknown known number }
{
    (known >> bit_of(number)) % 2 == 0
}

/// The numbers of tracks, with one more.
#[tactic(auto, unfolding(crate::specs::Tracks::with_number))]
fn with_number(known: u128, number: u64) -> u128
    ensures { result ≡ with_number known number }
{
    if is_unknown(known, number) {
        known + (1u128 << bit_of(number))
    } else {
        known
    }
}

/// The same with the number of an element of Tracks, if it is an entry.
fn known_with(known: u128, child: &Child<'_>) -> Result<u128, FileFault>
    ensures { result ≡ known_with known child.now.ident child.now.content.now }
{
    if child.ident != TRACK_ENTRY {
        return Ok(known);
    }
    let number = number_at(child.content, TRACK_NUMBER)?;
    Ok(with_number(known, number))
}

/// Adds the numbers of the entries of Tracks, up to the first element that can't be read.
fn gather(content: &[u8], known: &mut u128) -> Result<(), FileFault>
    ensures { known.new ≡ known_up_to (length content.now) known.old content.now }
{
    let mut rest = content;
    while let Some(child) = first_child(rest)? {
        *known = known_with(*known, &child)?;
        rest = child.rest;
    }
    Ok(())
}

/// The numbers of the entries of Tracks.
fn known_in(content: &[u8]) -> u128
    ensures { result ≡ known_in content.now }
{
    let mut known = 0;
    let _ = gather(content, &mut known);
    known
}

/// Whether an element of Tracks is an entry of FFV1 video. One of which a field can't be read that
/// tells this is none.
fn is_video(child: &Child<'_>) -> bool
    ensures { result ≡ is_video child.now.ident child.now.content.now }
{
    if child.ident != TRACK_ENTRY {
        return false;
    }
    match record_in(child.content) {
        Ok(Some(_)) => true,
        Ok(None) => false,
        Err(_) => false,
    }
}

/// How many entries are FFV1 video, with one more element of Tracks. A count of 64 bits stays at
/// its greatest value.
fn videos_with(count: u64, child: &Child<'_>) -> u64
    ensures { result ≡ videos_with count child.now.ident child.now.content.now }
{
    if is_video(child) {
        return count.saturating_add(1);
    }
    count
}

/// Counts the entries of FFV1 video of Tracks, up to the first element that can't be read.
fn count_videos(content: &[u8], count: &mut u64) -> Result<(), FileFault>
    ensures { count.new ≡ videos_up_to (length content.now) count.old content.now }
{
    let mut rest = content;
    while let Some(child) = first_child(rest)? {
        *count = videos_with(*count, &child);
        rest = child.rest;
    }
    Ok(())
}

/// How many entries of FFV1 video Tracks have beside the first.
fn others_in(content: &[u8]) -> u64
    ensures { result ≡ others_in content.now }
{
    let mut count = 0;
    let _ = count_videos(content, &mut count);
    count.saturating_sub(1)
}

/// The track that the content of Tracks says, its first entry of FFV1 video, and the numbers of all
/// entries up to the first element that can't be read, and how many others of these are FFV1 video.
/// Faults as of `first_track`.
#[tactic(auto, unfolding(crate::specs::Tracks::track_in))]
pub(crate) fn read_track(content: &[u8]) -> Result<Track<'_>, FileFault>
    ensures value { tracks result ≡ track_in content.now }
    ensures short { IfOk result (λ t. length t.config_record.now ≤ length content.now) }
{
    let track = first_track(content)?;
    Ok(Track {
        numbers: TrackNumbers {
            number: track.numbers.number,
            known: known_in(content),
            others: others_in(content),
            duration: track.numbers.duration,
        },
        width: track.width,
        height: track.height,
        rate: track.rate,
        scale: track.scale,
        colour: track.colour,
        config_record: track.config_record,
    })
}
