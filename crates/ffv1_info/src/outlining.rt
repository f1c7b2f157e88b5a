//! Writes the facts of a file.

ghost use Rattle.std.specs.Prelude.{◌≡◌, IfErr, OnOk, true};
ghost use Rattle.ffv1_wire.specs.Passage.{passage};
ghost use Rattle.ffv1_outline.specs.Outline.{outline_facts};
ghost use Rattle.ffv1_unpack.specs.Internal.Told.{WritesFrame};
ghost use Rattle.ffv1_info.specs.Info.{InfoDone, InfoStops, IsInfoReadAgain};
ghost use Rattle.ffv1_info.specs.StreamInfo.{IsStreamInfoFault};

use crate::informing::stream_info;
use ffv1_outline::{Beginning, Form, push_outline};
use ffv1_video::{Fault, Profile};
use ffv1_wire::{AgainIn, ByteOut, write_all};
use std::alloc::Allocator;

/// Writes what the first bytes of a file say, in one piece.
fn write_outline<W: ByteOut, A: Allocator + Copy>(
    alloc: A,
    output: &mut W,
    form: Form,
    bytes: &[u8],
) -> Result<(), Fault>
    ensures { WritesFrame (outline_facts form bytes.now)
        (passage W.contents W.failures output.old output.new) result }
{
    let mut text = Vec::new(alloc);
    push_outline(&mut text, form, bytes)?;
    if write_all(output, &text).is_err() {
        return Err(Fault::Write);
    }
    Ok(())
}

/// Writes what a file is: what its first bytes say, as `push_outline` has it, whatever the file is,
/// and then the facts of its stream, as `stream_info` has them. These bytes are kept, at most
/// 2^20, so that the file is read once, from its beginning to where `stream_info` ends; or if its
/// Tracks stand behind Clusters, and it can begin again, as often as `stream_info` reads it.
///
/// The faults are those of `stream_info`, after what the first bytes say; `OutOfMemory`, if memory
/// for these is refused, with nothing written; and `Write`. A read that fails in the first bytes is
/// told when the stream is read up to there.
pub fn info<R: AgainIn + Drop, W: ByteOut, A: Allocator + Copy>(
    alloc: A,
    profile: Profile,
    input: R,
    output: &mut W,
    form: Form,
    count: bool,
) -> Result<(), Fault>
    ensures ok { OnOk result (InfoDone profile form count (R.remaining input)
        (passage W.contents W.failures output.old output.new)) }
    ensures err { IfErr result (InfoStops profile form count (R.remaining input)
        (passage W.contents W.failures output.old output.new)) }
    ensures own { IfErr result (IsStreamInfoFault profile) }
    ensures again { ((reader : R) → R.begins reader ≡ true) →
        IfErr result (IsInfoReadAgain profile (R.remaining input)) }
{
    let mut kept = Vec::new(alloc);
    let mut input = Beginning::new(&mut kept, input)?;
    write_outline(alloc, output, form, input.bytes())?;
    stream_info(alloc, profile, &mut input, output, form, count)?;
    Ok(())
}
