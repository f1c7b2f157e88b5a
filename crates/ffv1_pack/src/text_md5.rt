//! The MD5 of each picture of a text.

ghost use Rattle.std.specs.Prelude.{◌≡◌, IfErr, IfOk, None, OnOk, true};
ghost use Rattle.ffv1_wire.specs.Passage.{passage};
ghost use Rattle.ffv1_pack.specs.Pack.{is_pack_fault};
ghost use Rattle.ffv1_video.specs.Profiles.{greatest_depth};
ghost use Rattle.ffv1_pack.specs.TextMd5.{TextDone, TextStops};
ghost use Rattle.ffv1_pack.specs.Internal.TextMd5.{LinesStop, WritesLine};
ghost use Rattle.ffv1_pack.specs.Internal.TextMd5.{WritesLines};
ghost use Rattle.ffv1_pack.specs.Internal.VideoReads.{IsHeadOf, reading_of};

use crate::video::VideoReader;
use ffv1_reads::FileFault;
use ffv1_video::md5_lines::put_picture;
use ffv1_video::{Fault, Profile};
use ffv1_wire::{ByteIn, ByteOut, write_all};
use ffv1_y4m::laws as y4m_laws;
use std::alloc::Allocator;

/// Reads the next picture, and writes its line. Answers false if there is none.
fn write_next<R: ByteIn, W: ByteOut, A: Allocator + Copy>(
    reader: &mut VideoReader<A>,
    input: &mut R,
    output: &mut W,
    planes: &mut Vec<Vec<u8, A>, A>,
    text: &mut Vec<u8, A>,
    number: u64,
) -> Result<bool, Fault>
    requires working { (reading_of reader.old).failed ≡ None }
    ensures answer { WritesLine (reading_of reader.old) number
        (passage R.remaining R.failures input.old input.new)
        (passage W.contents W.failures output.old output.new) (reading_of reader.new) result }
    ensures own { IfErr result (λ f. is_pack_fault f ≡ true) }
{
    if !reader.next(input, planes)? {
        return Ok(false);
    }
    let head = reader.head();
    put_picture(text, number, head, reader.is_ppm(), reader.depth(), planes)?;
    if write_all(output, text).is_err() {
        return Err(Fault::Write);
    }
    Ok(true)
}

/// Reads all pictures, and writes the line of each as soon as it is read. Answers how many there
/// were.
fn write_lines<R: ByteIn, W: ByteOut, A: Allocator + Copy>(
    alloc: A,
    reader: &mut VideoReader<A>,
    input: &mut R,
    output: &mut W,
) -> Result<u64, Fault>
    requires working { (reading_of reader.old).failed ≡ None }
    requires begun { (reading_of reader.old).begun ≡ true }
    ensures ok { IfOk result (WritesLines (reading_of reader.old)
        (passage R.remaining R.failures input.old input.new)
        (passage W.contents W.failures output.old output.new)) }
    ensures err { IfErr result (LinesStop (reading_of reader.old)
        (passage R.remaining R.failures input.old input.new)
        (passage W.contents W.failures output.old output.new)) }
    ensures own { IfErr result (λ f. is_pack_fault f ≡ true) }
{
    let mut planes = Vec::new(alloc);
    let mut text = Vec::new(alloc);
    let mut count = 0u64;
    while write_next(reader, input, output, &mut planes, &mut text, count)? {
        if count == u64::MAX {
            return Err(Fault::File(FileFault::TooLarge));
        }
        count += 1;
    }
    Ok(count)
}

/// Reads all pictures of a text that the profile reads, YUV4MPEG2 or, if its first byte is `P`,
/// binary PPM, and writes of them the lines that `framemd5` writes of a file that they are packed
/// into, so that the two compare by `diff`; of PPM if that is packed at 25 frames a second.
///
/// The head says the rate, the sizes and the aspect of the text; PPM has no rate and no aspect. The
/// bytes of a picture are those of its planes, as `framemd5` has them: PPM is red, green and blue.
/// The profile says which depths are read; a picture of any size is, and also PPM of 16 bits.
///
/// One picture and one line are held.
///
/// The first fault ends it, after the lines of the pictures before: `Header`, `Tag` and
/// `Unsupported` if the text has no head of a depth that is read, and then nothing is written;
/// of a picture `FrameLine`, `FrameTruncated`, `SampleTooLarge`, and of a later image `Header` and
/// `FormatChanged`; `TooLarge` after 2^64 pictures, which have no further number; `NoFrames` at the
/// end if there was none; `Read`, `OutOfMemory` and `Write` as they come.
pub fn framemd5_text<R: ByteIn, W: ByteOut, A: Allocator + Copy>(
    alloc: A,
    profile: Profile,
    input: &mut R,
    output: &mut W,
) -> Result<(), Fault>
    ensures ok { OnOk result (TextDone (greatest_depth profile)
        (passage R.remaining R.failures input.old input.new)
        (passage W.contents W.failures output.old output.new)) }
    ensures err { IfErr result (TextStops (greatest_depth profile)
        (passage R.remaining R.failures input.old input.new)
        (passage W.contents W.failures output.old output.new)) }
    ensures own { IfErr result (λ f. is_pack_fault f ≡ true) }
{
    y4m_laws::text_is_read_as_its_pictures();
    y4m_laws::text_is_read_as_its_images();
    let mut reader = VideoReader::open(alloc, profile, input)?;
    let count = write_lines(alloc, &mut reader, input, output)?;
    if count == 0 {
        return Err(Fault::NoFrames);
    }
    Ok(())
}
