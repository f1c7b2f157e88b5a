//! The lines that are written of the frames of a file.

ghost use Rattle.std.specs.Prelude.{◌≡◌, ◌++◌, decimal, OnOk};
ghost use Rattle.ffv1_unpack.specs.Check.{count_line};
ghost use Rattle.ffv1_unpack.specs.FrameLines.{again_line, cost_line, part_of_frame, place_line};
ghost use Rattle.ffv1_unpack.specs.Internal.FrameLines.{WritesPart};
ghost use Rattle.ffv1_unpack.specs.FrameLines.{offset_line, sizes_line};
ghost use Rattle.ffv1_unpack.specs.Judged.{counts_line, fault_word, refused_line};
ghost use Rattle.ffv1_wire.specs.Passage.{passage};

use ffv1_codec::{CodecFault, FrameFault};
use ffv1_range::Tally;
use ffv1_video::number_lines::push_number;
use ffv1_wire::{ByteOut, Failed, write_all};
use itoa::Buffer;
use std::alloc::{AllocError, Allocator};

/// What is written of a frame.
#[derive(Clone, Copy, Debug, PartialEq, Eq)]
pub enum FrameLine {
    /// Its bytes, its slices and its decisions.
    Sizes,
    /// Its decisions by kind, and its renormalisations.
    Cost,
}

/// The line of a frame's sizes, in place of what the text has.
#[tactic(auto, unfolding(crate::specs::FrameLines::sizes_line))]
pub(crate) fn put_sizes<A: Allocator>(
    text: &mut Vec<u8, A>,
    number: u64,
    bytes: u64,
    slices: u64,
    decisions: u64,
) -> Result<(), AllocError>
    ensures { OnOk result (text.new.items ≡ sizes_line number bytes slices decisions) }
{
    text.clear();
    push_number(text, b"frame ", number)?;
    push_number(text, b": ", bytes)?;
    push_number(text, b" bytes, ", slices)?;
    push_number(text, b" slices, ", decisions)?;
    text.extend_from_slice(b" decisions\n")?;
    Ok(())
}

/// The line of a frame's cost, in place of what the text has.
#[tactic(auto, unfolding(crate::specs::FrameLines::cost_line))]
pub(crate) fn put_cost<A: Allocator>(
    text: &mut Vec<u8, A>,
    number: u64,
    tally: Tally,
) -> Result<(), AllocError>
    ensures { OnOk result (text.new.items ≡ cost_line number tally) }
{
    text.clear();
    push_number(text, b"cost frame ", number)?;
    push_number(text, b": ones ", tally.ones)?;
    push_number(text, b" zeros ", tally.zeros)?;
    push_number(text, b" renormalisations ", tally.renormalisations)?;
    text.extend_from_slice(b"\n")?;
    Ok(())
}

/// The line of a frame that repeats the one before it, in place of what the text has.
#[tactic(auto, unfolding(crate::specs::FrameLines::again_line))]
pub(crate) fn put_again<A: Allocator>(
    text: &mut Vec<u8, A>,
    kind: FrameLine,
    number: u64,
) -> Result<(), AllocError>
    ensures { OnOk result (text.new.items ≡ again_line kind number) }
{
    text.clear();
    match kind {
        FrameLine::Sizes => {
            push_number(text, b"frame ", number)?;
            text.extend_from_slice(b": again\n")?;
            Ok(())
        }
        FrameLine::Cost => {
            push_number(text, b"cost frame ", number)?;
            text.extend_from_slice(b": again\n")?;
            Ok(())
        }
    }
}

/// Writes a word and a number.
fn write_number<W: ByteOut>(output: &mut W, word: &[u8], number: u64) -> Result<(), Failed>
    ensures { WritesPart (word.now ++ decimal number)
        (passage W.contents W.failures output.old output.new) result }
{
    let mut buffer = Buffer::new();
    write_all(output, word)?;
    write_all(output, buffer.format(number).as_bytes())?;
    Ok(())
}

/// Writes which part of a frame was refused.
#[tactic(auto, unfolding(crate::specs::FrameLines::part_of_frame))]
fn write_part<W: ByteOut>(output: &mut W, fault: FrameFault) -> Result<(), Failed>
    ensures { WritesPart (part_of_frame fault)
        (passage W.contents W.failures output.old output.new) result }
{
    write_number(output, b" slice ", u64::from(fault.slice))?;
    write_number(output, b" plane ", u64::from(fault.plane))?;
    write_number(output, b" line ", u64::from(fault.line))?;
    write_number(output, b" x ", u64::from(fault.x))?;
    Ok(())
}

/// Writes the line of the place where a frame is refused, part by part: it takes no memory.
#[tactic(auto, unfolding(crate::specs::FrameLines::place_line))]
pub(crate) fn write_place<W: ByteOut>(
    output: &mut W,
    number: u64,
    fault: FrameFault,
    decisions: u64,
) -> Result<(), Failed>
    ensures { WritesPart (place_line number fault decisions)
        (passage W.contents W.failures output.old output.new) result }
{
    write_number(output, b"fault frame ", number)?;
    write_part(output, fault)?;
    write_number(output, b" decisions ", decisions)?;
    write_all(output, b"\n")?;
    Ok(())
}

/// Writes the line of how many bytes of the file come before what is at fault, part by part: it
/// takes no memory.
#[tactic(auto, unfolding(crate::specs::FrameLines::offset_line))]
pub(crate) fn write_offset<W: ByteOut>(
    output: &mut W,
    number: u64,
    offset: u64,
) -> Result<(), Failed>
    ensures { WritesPart (offset_line number offset)
        (passage W.contents W.failures output.old output.new) result }
{
    write_number(output, b"fault frame ", number)?;
    write_number(output, b" byte ", offset)?;
    write_all(output, b"\n")?;
    Ok(())
}

/// The number and the name of a fault of a payload, as it displays.
#[tactic(auto, unfolding(crate::specs::Judged::fault_word))]
fn fault_word(fault: CodecFault) -> &'static str
    ensures { result.now ≡ fault_word fault }
{
    match fault {
        CodecFault::OutOfMemory => "2 OutOfMemory",
        CodecFault::BadStart => "3 BadStart",
        CodecFault::SymbolTooLong => "4 SymbolTooLong",
        CodecFault::Colour => "7 Colour",
        CodecFault::Overread => "8 Overread",
        CodecFault::Ending => "9 Ending",
        CodecFault::BitsEnd => "27 BitsEnd",
        CodecFault::BadCode => "28 BadCode",
        CodecFault::Padding => "29 Padding",
        CodecFault::NotKey => "30 NotKey",
        CodecFault::Place => "31 Place",
        CodecFault::SetIndex => "32 SetIndex",
        CodecFault::Structure => "33 Structure",
        CodecFault::Aspect => "34 Aspect",
        CodecFault::Footer => "35 Footer",
        CodecFault::Leftover => "36 Leftover",
        CodecFault::SliceParity => "37 SliceParity",
        CodecFault::SliceStatus => "38 SliceStatus",
        CodecFault::Overlap => "39 Overlap",
        CodecFault::SliceTooLong => "40 SliceTooLong",
        CodecFault::InfoDiffers => "41 InfoDiffers",
        CodecFault::Sink => "42 Sink",
    }
}

/// The line of a frame that is refused, in place of what the text has.
#[tactic(auto, unfolding(crate::specs::Judged::refused_line))]
pub(crate) fn put_refused<A: Allocator>(
    text: &mut Vec<u8, A>,
    number: u64,
    fault: CodecFault,
) -> Result<(), AllocError>
    ensures { OnOk result (text.new.items ≡ refused_line number fault) }
{
    text.clear();
    push_number(text, b"frame ", number)?;
    text.extend_from_slice(b": fault ")?;
    text.extend_from_slice(fault_word(fault).as_bytes())?;
    text.extend_from_slice(b"\n")?;
    Ok(())
}

/// The line of how many frames there were, and how many of them are refused, in place of what the
/// text has.
#[tactic(auto, unfolding(crate::specs::Judged::counts_line))]
pub(crate) fn put_counts<A: Allocator>(
    text: &mut Vec<u8, A>,
    frames: u64,
    faults: u64,
) -> Result<(), AllocError>
    ensures { OnOk result (text.new.items ≡ counts_line frames faults) }
{
    text.clear();
    push_number(text, b"frames ", frames)?;
    push_number(text, b" faults ", faults)?;
    text.extend_from_slice(b"\n")?;
    Ok(())
}

/// The line of how many frames there were, in place of what the text has.
#[tactic(auto, unfolding(crate::specs::Check::count_line))]
pub(crate) fn put_count<A: Allocator>(text: &mut Vec<u8, A>, count: u64) -> Result<(), AllocError>
    ensures { OnOk result (text.new.items ≡ count_line count) }
{
    text.clear();
    push_number(text, b"frames ", count)?;
    text.extend_from_slice(b"\n")?;
    Ok(())
}
