//! Prints what a file says, and what its frames cost.

ghost use Rattle.std.specs.Prelude.{◌≡◌, ◌⊎◌, IfErr, IfOk, List, None, false, true};
ghost use Rattle.ffv1_wire.specs.Passage.{passage};
ghost use Rattle.ffv1_record.specs.Accepted.{IsAccepted};
ghost use Rattle.ffv1_unpack.specs.declared.frame_line.FrameLine.TheVariants as line;
ghost use Rattle.ffv1_unpack.specs.FrameLines.{frame_lines};
ghost use Rattle.ffv1_unpack.specs.Internal.Located.{LocatedAfter, EndsNoted};
ghost use Rattle.ffv1_unpack.specs.Opens.{IsReadAgain};
ghost use Rattle.ffv1_unpack.specs.Plays.{HasThen};
ghost use Rattle.ffv1_unpack.specs.Ranges.{all_frames};
ghost use Rattle.ffv1_unpack.specs.Internal.Plays.{PlaysAll};
ghost use Rattle.ffv1_unpack.specs.Show.{IsShowFault, ShowDone, ShowStops};
ghost use Rattle.ffv1_unpack.specs.Internal.Show.{NoDecoder, lines_of};
ghost use Rattle.ffv1_unpack.specs.Stream.{Frame, IsFrame, frame_payload};
ghost use Rattle.ffv1_unpack.specs.Internal.Told.{IsToldFault, TellingStops, WritesFrame};

use crate::frame_line::FrameLine;
use crate::player::{open_stream, player_of};
use crate::stream_lines::show_text;
use crate::telling::{Places, Telling, tell_frames};
use ffv1_files::{FileReader, Notes, laws as files_laws};
use ffv1_record::Checked;
use ffv1_video::{Fault, Profile};
use ffv1_wire::{AgainIn, ByteIn, ByteOut, write_all};
use ffv1_words::FrameRange;
use std::alloc::Allocator;

/// Writes the lines of a file's head and of the configuration of its frames, in one piece.
fn write_stream<W: ByteOut, A: Allocator + Copy>(
    alloc: A,
    output: &mut W,
    reader: &FileReader<A>,
    checked: &Checked<A>,
) -> Result<(), Fault>
    ensures { WritesFrame (lines_of reader.now checked.now)
        (passage W.contents W.failures output.old output.new) result }
{
    let text = show_text(
        alloc,
        reader.container(),
        reader.others(),
        reader.head(),
        checked,
    )?;
    if write_all(output, &text).is_err() {
        return Err(Fault::Write);
    }
    Ok(())
}

/// Decodes all frames of a file that was opened, and writes what each cost. Answers what is noted
/// of the end.
fn tell_costs<R: ByteIn, W: ByteOut, A: Allocator + Copy>(
    alloc: A,
    reader: FileReader<A>,
    checked: Checked<A>,
    input: &mut R,
    output: &mut W,
) -> Result<Notes, Fault>
    requires sound { reader.fault ≡ None }
    requires accepted { IsAccepted checked.configuration checked.table }
    ensures ok { IfOk result (λ notes. (frames : List Frame)
        × PlaysAll (IsFrame checked) frame_payload (HasThen reader.place)
        (frame_lines line.Cost checked.configuration)
        (passage R.remaining R.failures input.old input.new)
        (passage W.contents W.failures output.old output.new) notes frames) }
    ensures err { IfErr result (λ f.
        NoDecoder (passage R.remaining R.failures input.old input.new)
        (passage W.contents W.failures output.old output.new) f
        ⊎ TellingStops (HasThen reader.place) line.Cost all_frames false checked
        (passage R.remaining R.failures input.old input.new)
        (passage W.contents W.failures output.old output.new)
        (LocatedAfter reader (passage R.remaining R.failures input.old input.new)) false f) }
    ensures own { IfErr result (IsToldFault reader (R.remaining input.old)) }
    ensures noted { IfOk result
        (EndsNoted reader (passage R.remaining R.failures input.old input.new)) }
{
    let mut player = player_of(alloc, reader, checked)?;
    let telling = Telling {
        kind: FrameLine::Cost,
        places: Places {
            place: false,
            byte: false,
        },
    };
    tell_frames(alloc, &mut player, input, output, telling, FrameRange::ALL)?;
    Ok(player.notes)
}

/// Writes what a file's head and its record say, and how much a decoder of its frames holds:
///
/// ```text
/// size {width}x{height}
/// coder {1, or 2 with deltas}
/// colour {YCbCr or RCT}
/// chroma {mono, or the binary logarithms of its factors, joined by a comma}
/// extra 1
/// depth {bits of a sample}
/// slices {columns}x{rows}
/// contexts {of each set}
/// ec {0 or 1}
/// intra {0 or 1}
/// rate {rate}/{scale}
/// note 91 OtherVideo {n}
/// segment {size, or open}
/// held states {n} samples {n} output {n} columns {n} offsets {n}
/// ```
///
/// The line `extra 1` is there if there is a plane of transparency, the line `depth` if a
/// sample has more than 8 bits, the line `note 91` if n further tracks, or streams of an AVI, are
/// FFV1 video, which is not read (at `Strict` none is looked at), and the line `segment` of
/// Matroska: it has the bytes of the Segment, or says that their number is not known, so that the
/// file may be cut where a Cluster ends. The decoder holds what `Checked::held` says. Which stream
/// of the file counts, and where its record ends, is by the profile. A file without frames is no
/// fault. With `cost` all frames that the profile reads are then decoded, and a line of each is
/// written as soon as it is decoded:
///
/// ```text
/// cost frame {i}: ones {n} zeros {n} renormalisations {n}
/// ```
///
/// A frame of an AVI that has no bytes has `again` after the colon.
///
/// Frames are counted from 0; a count of 64 bits stays at its greatest value. Without `cost`
/// nothing after the header of the first `movi`, or of the first Cluster, is read, and no decoder
/// is made; with it, beside what the decoder holds, one payload and one line are held.
///
/// The faults are those of the file up to its first frame (`NotAvi`, `NoFfv1`, `Truncated`,
/// `ChunkTooLong`) and of its record, with nothing written; with `cost` then those of the chunks of
/// its frames (`EmptyFrame`, too) and of a payload, after the lines of the stream and of the frames
/// before. With `cost`, at `Wide`, `Truncated` is also a file that ends inside a `RIFF`, or that
/// has fewer frames than its `dmlh` says, and `NotAvi` one in which something that is no `RIFF`
/// comes after the last one. At `Wide` a file that begins with the byte 1A is Matroska, with the
/// faults that `MatroskaReader::open` and `MatroskaReader::next_frame` name in place of those of
/// AVI; `NoTracks` says that no Tracks stand anywhere in its Segment, if the input can begin again.
/// `Read`, `OutOfMemory` and `Write` come as they come; if a write failed, a beginning of what
/// was to be written is.
///
/// With `cost`, what comes after the file is looked at when all frames were read, as
/// `FileReader::look_behind` does: `Another` if another file begins there, after all lines; else
/// the answer is what it notes. Without `cost` nothing is noted.
pub fn show<R: AgainIn, W: ByteOut, A: Allocator + Copy>(
    alloc: A,
    profile: Profile,
    input: &mut R,
    output: &mut W,
    cost: bool,
) -> Result<Notes, Fault>
    ensures ok { IfOk result (ShowDone profile
        (passage R.remaining R.failures input.old input.new)
        (passage W.contents W.failures output.old output.new) cost) }
    ensures err { IfErr result (ShowStops profile
        (passage R.remaining R.failures input.old input.new)
        (passage W.contents W.failures output.old output.new) cost) }
    ensures own { IfErr result (IsShowFault profile cost) }
    ensures again { IfErr result (IsReadAgain profile (R.begins input.old)
        (passage R.remaining R.failures input.old input.new)) }
{
    files_laws::frames_come_in_turn();
    files_laws::what_is_read_is_a_file();
    let (reader, checked) = open_stream(alloc, profile, input)?;
    write_stream(alloc, output, &reader, &checked)?;
    if cost {
        let notes = tell_costs(alloc, reader, checked, input, output)?;
        return Ok(notes);
    }
    Ok(Notes::NONE)
}
