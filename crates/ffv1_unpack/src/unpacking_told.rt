//! Unpacks a Matroska file that may be damaged before its first frame: the faults there are told
//! first.

ghost use Rattle.std.specs.Prelude.{◌≡◌, ℕ, IfErr, IfOk, List, None, Option, false, true};
ghost use Rattle.ffv1_wire.specs.Passage.{between, passage};
ghost use Rattle.ffv1_record.specs.Accepted.{IsAccepted};
ghost use Rattle.ffv1_files.specs.Places.{container_of};
ghost use Rattle.ffv1_unpack.specs.Internal.Containers.{is_segment};
ghost use Rattle.ffv1_unpack.specs.Internal.Opens.{stream_of};
ghost use Rattle.ffv1_unpack.specs.Internal.OpensTold.{OpensTold};
ghost use Rattle.ffv1_unpack.specs.Internal.Unpack.{IsWritingFault};
ghost use Rattle.ffv1_unpack.specs.ToldItems.{ToldItemsEnd, ToldItemsThen, is_told};
ghost use Rattle.ffv1_unpack.specs.UnpackAll.{AgainRefused, SalvageDoneBy};
ghost use Rattle.ffv1_unpack.specs.Unpacked.{HasText};

use crate::judging::JudgedCounts;
use crate::player::Player;
use crate::told_first::{with_told, write_lines};
use crate::unpacking_all::{end_all, salvage_file};
use ffv1_files::{Notes, ToldFaults};
use ffv1_video::{Fault, Profile};
use ffv1_wire::{ByteIn, ByteOut};
use std::alloc::Allocator;

/// Writes the lines of the faults that are told, then unpacks all items that are left, and tells
/// what comes after them, as `unpack_all` does. `NoFrames` if there was neither frame nor fault.
pub(crate) fn salvage_told<R: ByteIn, L: ByteOut, W: ByteOut, A: Allocator + Copy>(
    alloc: A,
    player: &mut Player<A>,
    told: &ToldFaults<A>,
    input: &mut R,
    lines: &mut L,
    output: W,
) -> (W, Result<(JudgedCounts, Notes), Fault>)
    requires sound { player.old.reader.fault ≡ None }
    requires segment { is_segment (container_of player.old.reader.place) ≡ true }
    requires accepted { IsAccepted player.old.decoder.accepted.configuration
        player.old.decoder.accepted.table }
    requires text { HasText (stream_of player.old.reader player.old.decoder.accepted) }
    ensures ok { (profile : Profile) (i0 : Option (List ℕ)) (ib : ℕ) → OpensTold profile
        (between i0 (R.remaining input.old) ib (R.failures input.old)) told.now.data
        told.now.faults.items player.old.reader player.old.decoder.accepted →
        player.old.cued ≡ false → IfOk result.1 (λ r. SalvageDoneBy ToldItemsThen ToldItemsEnd
        profile (between i0 (R.remaining input.new) ib (R.failures input.new))
        (passage L.contents L.failures lines.old lines.new)
        (passage W.contents W.failures output result.0) r.0 r.1) }
    ensures err { (profile : Profile) (i0 : Option (List ℕ)) (ib : ℕ) → OpensTold profile
        (between i0 (R.remaining input.old) ib (R.failures input.old)) told.now.data
        told.now.faults.items player.old.reader player.old.decoder.accepted →
        player.old.cued ≡ false → IfErr result.1 (AgainRefused profile
        (between i0 (R.remaining input.new) ib (R.failures input.new))
        (passage L.contents L.failures lines.old lines.new)
        (passage W.contents W.failures output result.0)) }
    ensures own { IfErr result.1 (IsWritingFault player.old.reader (R.remaining input.old)) }
    ensures untold { IfErr result.1 (λ f. is_told f ≡ false) }
{
    match write_lines(alloc, lines, told) {
        Err(fault) => (output, Err(fault)),
        Ok(()) => {
            let (output, answer) = salvage_file(alloc, player, input, lines, output);
            match answer {
                Err(fault) => (output, Err(fault)),
                Ok(salvaged) => {
                    let counts = with_told(told, salvaged);
                    match end_all(alloc, player, input, lines, counts) {
                        Ok(all) => (output, Ok(all)),
                        Err(fault) => (output, Err(fault)),
                    }
                }
            }
        }
    }
}
