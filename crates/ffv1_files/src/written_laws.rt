//! Laws of what is noted of Matroska files that are written.

ghost use Rattle.std.specs.Prelude.{◌≡◌, ◌<◌, ℕ, List, [], true, length};
ghost use Rattle.ffv1_reads.specs.Head.{Head};
ghost use Rattle.ffv1_matroska.specs.Written.{begun_of, finished_of, open_of};
ghost use Rattle.ffv1_matroska.specs.WrittenFiles.{IsWritable};
ghost use Rattle.ffv1_matroska.specs.declared.track_entry.TrackEntry.{TrackEntry};
ghost use Rattle.ffv1_files.specs.Noted.{IsNotedOf, no_notes};
ghost use Rattle.ffv1_files.specs.declared.container.Scope.TheVariants as scope;
ghost use Rattle.ffv1_files.specs.declared.notes.Notes.{Notes};

use ffv1_matroska::written_times;

/// Of a Matroska file that was written to be read back, with whatever rate or none, nothing is
/// noted: of the whole file, and of the open one, which could not be written over. Of the one that
/// is begun, as it is left where a writer was stopped, it is noted that nothing says where it ends,
/// and nothing else. No bytes are left.
pub fn what_is_noted_of_a_written_matroska_file()
    ensures finished { (head : Head) (details : TrackEntry) (frames : List (List ℕ))
        (rest : List ℕ) (notes : Notes) → 0 < length frames → IsWritable head details frames →
        IsNotedOf scope.Whole (finished_of head details frames) rest notes →
        (notes ≡ no_notes) × (rest ≡ []) }
    ensures open { (head : Head) (details : TrackEntry) (frames : List (List ℕ))
        (rest : List ℕ) (notes : Notes) → 0 < length frames → IsWritable head details frames →
        IsNotedOf scope.Whole (open_of head details frames) rest notes →
        (notes ≡ no_notes) × (rest ≡ []) }
    ensures begun { (head : Head) (details : TrackEntry) (frames : List (List ℕ))
        (rest : List ℕ) (notes : Notes) → 0 < length frames → IsWritable head details frames →
        IsNotedOf scope.Whole (begun_of head details frames) rest notes →
        (notes ≡ record no_notes { is_open = true }) × (rest ≡ []) }
{
    written_times::written_frames_come_in_time();
    written_times::written_segment_is_read_to_its_end();
}
