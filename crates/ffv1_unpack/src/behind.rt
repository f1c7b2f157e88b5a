//! What comes after the items of a file that may be damaged.

ghost use Rattle.std.specs.Prelude.{◌≡◌, ℕ, IfErr, IfOk, List, Option, false, true};
ghost use Rattle.ffv1_wire.specs.Passage.{passage};
ghost use Rattle.ffv1_reads.specs.declared.fault.FileFault.TheVariants as file_fault;
ghost use Rattle.ffv1_files.specs.Noted.{NotedOf, NotesEnd};
ghost use Rattle.ffv1_files.specs.Places.{container_of};
ghost use Rattle.ffv1_files.specs.declared.container.Container.TheVariants as container;
ghost use Rattle.ffv1_files.specs.declared.container.Scope.{Scope};
ghost use Rattle.ffv1_files.specs.declared.course.Course.TheVariants as course;
ghost use Rattle.ffv1_unpack.specs.Internal.ItemsEnd.{BehindAnswers};
ghost use Rattle.ffv1_unpack.specs.Told.{is_telling_fault};

use crate::judging::JudgedCounts;
use crate::judging_items::write_told;
use crate::player::Player;
use ffv1_files::Notes;
use ffv1_reads::FileFault;
use ffv1_video::Fault;
use ffv1_wire::{ByteIn, ByteOut};
use std::alloc::Allocator;

/// Whether a fault says that another file begins there.
fn is_another(fault: FileFault) -> bool
    ensures yes { result ≡ true → fault ≡ file_fault.Another }
    ensures no { result ≡ false → fault ≡ file_fault.Another → ⊥ }
{
    match fault {
        FileFault::Another => true,
        _ => false,
    }
}

/// Looks at what comes after the items of a file, once there are no more by the course of the
/// player, and answers what is noted of it. If another file begins there, its line is written, as
/// of an element at fault, with the number of bytes before it; it is one fault more, and nothing is
/// noted.
pub(crate) fn tell_behind<R: ByteIn, W: ByteOut, A: Allocator + Copy>(
    alloc: A,
    player: &Player<A>,
    input: &mut R,
    output: &mut W,
    counts: &mut JudgedCounts,
) -> Result<Notes, Fault>
    ensures answer { BehindAnswers player.now.reader player.now.course player.now.cued
        (passage R.remaining R.failures input.old input.new)
        (passage W.contents W.failures output.old output.new) counts.old counts.new result }
    ensures noted { container_of player.now.reader.place ≡ container.Avi →
        player.now.course ≡ course.Plain → (scope : Scope) (text : Option (List ℕ)) →
        NotesEnd scope text (R.remaining input.old) player.now.reader →
        IfOk result (NotedOf scope text (R.remaining input.new)) }
    ensures own { IfErr result (λ f. is_telling_fault f ≡ true) }
{
    match player
        .reader
        .look_behind_items(player.course, player.cued, input)
    {
        Ok(notes) => Ok(notes),
        Err(fault) => {
            if !is_another(fault) {
                return Err(Fault::from(fault));
            }
            let mut text = Vec::new(alloc);
            write_told(output, &mut text, player.reader.end(), FileFault::Another)?;
            counts.tell(Fault::File(FileFault::Another));
            Ok(Notes::NONE)
        }
    }
}
