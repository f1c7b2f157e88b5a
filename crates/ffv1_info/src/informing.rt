//! Writes the facts of the stream of a file, as far as it is read.

ghost use Rattle.std.specs.Prelude.{◌≡◌, ◌<◌, ◌≤◌, ℕ, IfErr, IfOk, List, [], None, OnOk, Option};
ghost use Rattle.std.specs.Prelude.{true};
ghost use Rattle.ffv1_wire.specs.Passage.{passage};
ghost use Rattle.ffv1_range.specs.Counts.{saturated};
ghost use Rattle.ffv1_reads.specs.Head.{head_of};
ghost use Rattle.ffv1_record.specs.Accepted.{IsAccepted};
ghost use Rattle.ffv1_files.specs.Places.{amount, container_of};
ghost use Rattle.ffv1_video.specs.Faults.{cause_of, of_avi};
ghost use Rattle.ffv1_unpack.specs.Internal.Located.{StaysReached};
ghost use Rattle.ffv1_unpack.specs.Internal.Opens.{stream_of};
ghost use Rattle.ffv1_unpack.specs.Internal.Told.{IsToldFault, WritesFrame};
ghost use Rattle.ffv1_unpack.specs.Opens.{IsReadAgain};
ghost use Rattle.ffv1_unpack.specs.Plays.{HasThen};
ghost use Rattle.ffv1_unpack.specs.Stream.{Frame};
ghost use Rattle.ffv1_info.specs.Internal.Frames.{NextAnswers, ReadsFirst, ReadsOthers};
ghost use Rattle.ffv1_info.specs.Internal.Frames.{is_frame, next_of, said_in, with_others};
ghost use Rattle.ffv1_info.specs.StreamFacts.{counted_facts, head_facts, picture_facts};
ghost use Rattle.ffv1_info.specs.StreamFacts.{record_facts};
ghost use Rattle.ffv1_info.specs.StreamInfo.{EndsBy, FirstStops, FramesDone, FramesStop};
ghost use Rattle.ffv1_info.specs.StreamInfo.{IsStreamInfoFault, StreamInfoDone, StreamInfoStops};

use crate::stream_facts::{Size, counted_text, head_text, picture_text, record_text};
use ffv1_codec::{DropLines, FrameDecoder, Info, laws as codec_laws};
use ffv1_files::FileReader;
use ffv1_outline::Form;
use ffv1_reads::{FileFault, FileHead};
use ffv1_record::{Checked, laws as record_laws};
use ffv1_unpack::player::{NextFrame, read_head};
use ffv1_video::{Fault, Profile};
use ffv1_wire::{AgainIn, ByteIn, ByteOut, write_all};
use std::alloc::Allocator;

/// What is asked for.
#[derive(Clone, Copy, Debug)]
struct Asked {
    /// How facts are written.
    form: Form,
    /// Whether frames are counted.
    count: bool,
}

/// Writes the facts of a file's head, in one piece.
fn write_head<W: ByteOut, A: Allocator>(
    alloc: A,
    output: &mut W,
    form: Form,
    head: &FileHead<A>,
) -> Result<(), Fault>
    ensures { WritesFrame (head_facts form (head_of head.now))
        (passage W.contents W.failures output.old output.new) result }
{
    let text = head_text(alloc, form, head)?;
    if write_all(output, &text).is_err() {
        return Err(Fault::Write);
    }
    Ok(())
}

/// Writes the facts of a record, in one piece.
fn write_record<W: ByteOut, A: Allocator>(
    alloc: A,
    output: &mut W,
    form: Form,
    checked: &Checked<A>,
) -> Result<(), Fault>
    ensures { WritesFrame (record_facts form checked.now.configuration)
        (passage W.contents W.failures output.old output.new) result }
{
    let text = record_text(alloc, form, checked)?;
    if write_all(output, &text).is_err() {
        return Err(Fault::Write);
    }
    Ok(())
}

/// Writes the facts of the first picture, in one piece.
fn write_picture<W: ByteOut, A: Allocator>(
    alloc: A,
    output: &mut W,
    form: Form,
    size: Size,
    said: Option<Info>,
) -> Result<(), Fault>
    requires wide { (0 < size.width) × (size.width ≤ 8192) }
    requires high { (0 < size.height) × (size.height ≤ 8192) }
    ensures { WritesFrame (picture_facts form size.width size.height said)
        (passage W.contents W.failures output.old output.new) result }
{
    let text = picture_text(alloc, form, size, said)?;
    if write_all(output, &text).is_err() {
        return Err(Fault::Write);
    }
    Ok(())
}

/// Writes how many frames there are, and how long they last, in one piece.
fn write_counted<W: ByteOut, A: Allocator>(
    alloc: A,
    output: &mut W,
    form: Form,
    head: &FileHead<A>,
    frames: u64,
) -> Result<(), Fault>
    ensures { WritesFrame (counted_facts form (head_of head.now) frames)
        (passage W.contents W.failures output.old output.new) result }
{
    let text = counted_text(alloc, form, head, frames)?;
    if write_all(output, &text).is_err() {
        return Err(Fault::Write);
    }
    Ok(())
}

/// Reads the next payload. Answers false if there is none; then what stands behind the end was
/// looked at.
fn read_next<R: ByteIn, A: Allocator>(
    reader: &mut FileReader<A>,
    input: &mut R,
    payload: &mut Vec<u8, A>,
) -> Result<bool, FileFault>
    requires sound { reader.old.fault ≡ None }
    ensures answer { NextAnswers reader.old.place reader.new.place payload.new.items
        (passage R.remaining R.failures input.old input.new) result }
    ensures sound { OnOk result (reader.new.fault ≡ None) }
    ensures less { IfOk result (λ more. more ≡ true →
        amount reader.new.place < amount reader.old.place) }
    ensures head { OnOk result (reader.new.head ≡ reader.old.head) }
    ensures container { container_of reader.new.place ≡ container_of reader.old.place }
    ensures stays { IfOk result (λ more. more ≡ true → StaysReached reader.old reader.new
        (passage R.remaining R.failures input.old input.new)) }
    ensures own { IfErr result (λ f. IsToldFault reader.old (R.remaining input.old) (of_avi f)) }
{
    match reader.next_frame(input, payload) {
        Ok(true) => Ok(true),
        Ok(false) => match reader.look_behind(input) {
            Ok(_) => Ok(false),
            Err(fault) => Err(fault),
        },
        Err(fault) => Err(fault),
    }
}

/// Reads the first frame and decodes it, and answers what it says of its picture, or that it has no
/// bytes, or that there is none.
fn read_first<R: ByteIn, A: Allocator>(
    reader: &mut FileReader<A>,
    decoder: &mut FrameDecoder<A>,
    payload: &mut Vec<u8, A>,
    input: &mut R,
) -> Result<NextFrame<Info>, Fault>
    requires sound { reader.old.fault ≡ None }
    requires accepted { IsAccepted decoder.old.accepted.configuration decoder.old.accepted.table }
    ensures ok { IfOk result (λ next. (first : Option Frame) × (next ≡ next_of first)
        × ReadsFirst decoder.old.accepted reader.old.place reader.new.place
        (passage R.remaining R.failures input.old input.new) first) }
    ensures err { IfErr result (FirstStops (HasThen reader.old.place)
        (passage R.remaining R.failures input.old input.new) decoder.old.accepted) }
    ensures sound { OnOk result (reader.new.fault ≡ None) }
    ensures head { OnOk result (reader.new.head ≡ reader.old.head) }
    ensures container { container_of reader.new.place ≡ container_of reader.old.place }
    ensures stays { IfOk result (λ next. is_frame next ≡ true → StaysReached reader.old reader.new
        (passage R.remaining R.failures input.old input.new)) }
    ensures own { IfErr result (IsToldFault reader.old (R.remaining input.old)) }
{
    codec_laws::answer::answer_is_ok_for_coded_pictures::<DropLines>();
    codec_laws::answer::answered_fault_is_of_decoding::<DropLines>();
    codec_laws::sink::sinks_of_own_lines_refuse_none();
    let mut sink = DropLines::new(decoder.config());
    match read_next(reader, input, payload) {
        Ok(false) => Ok(NextFrame::End),
        Ok(true) => {
            if payload.is_empty() {
                return Ok(NextFrame::Again);
            }
            match decoder.decode(payload, &mut sink) {
                Ok(info) => Ok(NextFrame::Coded(info)),
                Err(fault) => Err(Fault::from(fault.fault)),
            }
        }
        Err(fault) => Err(Fault::from(fault)),
    }
}

/// The same, by a decoder of its own.
fn read_picture<R: ByteIn, A: Allocator + Copy>(
    alloc: A,
    reader: &mut FileReader<A>,
    checked: Checked<A>,
    input: &mut R,
) -> Result<NextFrame<Info>, Fault>
    requires sound { reader.old.fault ≡ None }
    requires accepted { IsAccepted checked.configuration checked.table }
    ensures ok { IfOk result (λ next. (first : Option Frame) × (next ≡ next_of first)
        × ReadsFirst checked reader.old.place reader.new.place
        (passage R.remaining R.failures input.old input.new) first) }
    ensures err { IfErr result (FirstStops (HasThen reader.old.place)
        (passage R.remaining R.failures input.old input.new) checked) }
    ensures sound { OnOk result (reader.new.fault ≡ None) }
    ensures head { OnOk result (reader.new.head ≡ reader.old.head) }
    ensures container { container_of reader.new.place ≡ container_of reader.old.place }
    ensures stays { IfOk result (λ next. is_frame next ≡ true → StaysReached reader.old reader.new
        (passage R.remaining R.failures input.old input.new)) }
    ensures own { IfErr result (IsToldFault reader.old (R.remaining input.old)) }
{
    let mut decoder = FrameDecoder::new(alloc, checked)?;
    let mut payload = Vec::new(alloc);
    let next = read_first(reader, &mut decoder, &mut payload, input)?;
    Ok(next)
}

/// Reads the frames that are left, and decodes none. Answers how many frames there are with the
/// first, at most 2^64 - 1; nothing is read if there was no first one.
fn count_frames<R: ByteIn, A: Allocator>(
    alloc: A,
    reader: &mut FileReader<A>,
    input: &mut R,
    some: bool,
) -> Result<u64, Fault>
    requires sound { reader.old.fault ≡ None }
    ensures ok { IfOk result (λ n. (others : List (List ℕ))
        × (n ≡ saturated (with_others some others)) × ReadsOthers some reader.old.place
        (passage R.remaining R.failures input.old input.new) others) }
    ensures err { IfErr result (λ f. (some ≡ true) × ((others : List (List ℕ))
        × EndsBy (HasThen reader.old.place)
        (passage R.remaining R.failures input.old input.new) others f (cause_of f))) }
    ensures head { OnOk result (reader.new.head ≡ reader.old.head) }
    ensures own { IfErr result (IsToldFault reader.old (R.remaining input.old)) }
{
    if !some {
        return Ok(0);
    }
    let mut payload = Vec::new(alloc);
    let mut count = 1u64;
    'frames: while read_next(reader, input, &mut payload)? {
        count = count.saturating_add(1);
    }
    Ok(count)
}

/// Whether there is a first frame.
fn is_frame(next: &NextFrame<Info>) -> bool
    ensures { result ≡ is_frame next.now }
{
    match next {
        NextFrame::Coded(_) | NextFrame::Again => true,
        NextFrame::End => false,
    }
}

/// What is said of the picture of the first frame, if it has one.
fn said_in(next: &NextFrame<Info>) -> Option<Info>
    ensures { result ≡ said_in next.now }
{
    match next {
        NextFrame::Coded(info) => Some(*info),
        NextFrame::Again | NextFrame::End => None,
    }
}

/// How large pictures are.
fn size_of<A: Allocator>(checked: &Checked<A>) -> Size
    ensures width { result.width ≡ checked.now.configuration.width }
    ensures height { result.height ≡ checked.now.configuration.height }
    ensures wide { (0 < result.width) × (result.width ≤ 8192) }
    ensures high { (0 < result.height) × (result.height ≤ 8192) }
{
    record_laws::accepted_configuration_is_in_range();
    let config = checked.config();
    Size {
        width: config.width,
        height: config.height,
    }
}

/// Writes the facts of the frames of a file that was opened.
fn tell_frames<R: ByteIn, W: ByteOut, A: Allocator + Copy>(
    alloc: A,
    reader: FileReader<A>,
    checked: Checked<A>,
    input: &mut R,
    output: &mut W,
    asked: Asked,
) -> Result<(), Fault>
    requires sound { reader.fault ≡ None }
    requires accepted { IsAccepted checked.configuration checked.table }
    ensures ok { OnOk result (FramesDone (HasThen reader.place) asked.form
        (stream_of reader checked) [] (passage R.remaining R.failures input.old input.new)
        (passage W.contents W.failures output.old output.new) asked.count) }
    ensures err { IfErr result (FramesStop (HasThen reader.place) asked.form
        (stream_of reader checked) [] (passage R.remaining R.failures input.old input.new)
        (passage W.contents W.failures output.old output.new) asked.count) }
    ensures own { IfErr result (IsToldFault reader (R.remaining input.old)) }
{
    let mut reader = reader;
    let count = asked.count;
    let size = size_of(&checked);
    let next = read_picture(alloc, &mut reader, checked, input)?;
    let some = is_frame(&next);
    let said = said_in(&next);
    write_picture(alloc, output, asked.form, size, said)?;
    if !count {
        return Ok(());
    }
    let frames = count_frames(alloc, &mut reader, input, some)?;
    write_counted(alloc, output, asked.form, reader.head(), frames)?;
    Ok(())
}

/// Writes what a file is, fact by fact, each a line of text, or a member of an object of JSON after
/// a comma; a group of facts is written as soon as it is known:
///
/// ```text
/// size                {width}x{height}
/// rate                {rate}/{scale}
/// range               {limited or full}
/// siting              {left, centre or topleft}
/// primaries           {name by ITU-T H.273, in FFmpeg's words}
/// transfer            {the same}
/// matrix              {the same}
/// bits                {bits of a sample}
/// colours             {YCbCr or RGB}
/// chroma              {mono, 4:4:4, 4:2:2, 4:2:0, 4:1:1, 4:1:0, 4:4:0}
/// transparency        {yes or no}
/// slices              {columns}x{rows}
/// coder               {range coder, default table; or range coder, custom table}
/// contexts            {of each set, with its name in parentheses if it has one}
/// parity              {yes or no}
/// key_frames          {yes or no}
/// fields              {progressive, top field first or bottom field first}
/// sample_aspect       {width}:{height}
/// display_aspect      {width}:{height}
/// counted_frames      {n}
/// counted_duration    {seconds, with three decimals} s
/// ```
///
/// The first seven are of the file's head, the next nine of its configuration record, and three of
/// its first picture, which is decoded for that; the last two come with `count`, which reads the
/// payloads of all frames and decodes no further one. A value that the file does not say is
/// `unknown`, in JSON `null`; so are the three of the first picture if there is no frame, or the
/// first one, of an AVI, has no bytes. A number that has no name is itself; chroma of another size
/// is how many times it is narrower and lower. In JSON numbers and pairs are numbers and arrays,
/// and truths `true` and `false`; `contexts` are numbers, and their names an array `context_names`,
/// `null` if there is none. Which stream of the file counts, and where its record ends, is by the
/// profile. A count of 64 bits stays at its greatest value; the duration is to the nearest
/// millisecond, and unknown if the rate is, or if it has no room in 64 bits.
///
/// The faults are those of `show` with costs, but what was read up to there is told before: the
/// facts of the head if the record is refused, and those of the record if the first frame is. A
/// file without frames is no fault. Without `count` nothing after the first frame is read; behind
/// the last one it is looked whether another file stands there, which is `Another`. `NoTracks` is a
/// file's that begins again, if the input can, as `FileReader::open_located` says. `Read`,
/// `OutOfMemory` and `Write` come as they come; if a write failed, a beginning of a group is
/// written, else whole groups are.
pub fn stream_info<R: AgainIn, W: ByteOut, A: Allocator + Copy>(
    alloc: A,
    profile: Profile,
    input: &mut R,
    output: &mut W,
    form: Form,
    count: bool,
) -> Result<(), Fault>
    ensures ok { OnOk result (StreamInfoDone profile form count
        (passage R.remaining R.failures input.old input.new)
        (passage W.contents W.failures output.old output.new)) }
    ensures err { IfErr result (StreamInfoStops profile form count
        (passage R.remaining R.failures input.old input.new)
        (passage W.contents W.failures output.old output.new)) }
    ensures own { IfErr result (IsStreamInfoFault profile) }
    ensures again { IfErr result (IsReadAgain profile (R.begins input.old)
        (passage R.remaining R.failures input.old input.new)) }
{
    let mut offset = 0u64;
    let reader = FileReader::open_located(alloc, profile.scope(), input, &mut offset)?;
    write_head(alloc, output, form, reader.head())?;
    let checked = read_head(alloc, profile, reader.head())?;
    write_record(alloc, output, form, &checked)?;
    tell_frames(alloc, reader, checked, input, output, Asked { form, count })?;
    Ok(())
}
