//! Laws of files: what is read is a file, by its chunks or its elements, such a file is read, and
//! so is an AVI that was written.

ghost use Rattle.std.specs.Prelude.{◌≡◌, ◌<◌, ℕ, Bool, true, false, not, List, [], length};
ghost use Rattle.std.specs.Prelude.{Option, Some, None, Ok};
ghost use Rattle.ffv1_avi.specs.Chunks.{AviFile, IsWritable};
ghost use Rattle.ffv1_avi.specs.Places.{extent_of, is_open};
ghost use Rattle.ffv1_avi.specs.declared.place.Extent.TheVariants.{EveryRiff};
ghost use Rattle.ffv1_avi.specs.declared.place.Place.{Place as AviPlace};
ghost use Rattle.ffv1_matroska.specs.declared.place.Place.{Place as MatroskaPlace};
ghost use Rattle.ffv1_matroska.specs.declared.track.TrackNumbers.{TrackNumbers};
ghost use Rattle.ffv1_avi.specs.Written.{file_of};
ghost use Rattle.ffv1_reads.specs.Head.{Head, without_colour};
ghost use Rattle.ffv1_reads.specs.Reads.{read_on};
ghost use Rattle.ffv1_files.specs.declared.container.Scope.TheVariants as scope;
ghost use Rattle.ffv1_files.specs.declared.container.Scope.{Scope};
ghost use Rattle.ffv1_files.specs.Behind.{behind_after, notes_read};
ghost use Rattle.ffv1_files.specs.declared.notes.Notes.{Notes};
ghost use Rattle.ffv1_files.specs.Files.{file_read, frame_read, frames_read, more_frames};
ghost use Rattle.ffv1_files.specs.Noted.{IsNotedOf, RiffsEnd, SegmentEnds, bytes_before, no_notes};
ghost use Rattle.ffv1_files.specs.Noted.{repeated_in};
ghost use Rattle.ffv1_files.specs.Whole.{IsWhole};
ghost use Rattle.ffv1_files.specs.Places.{InAvi, InMatroska, Place, extent_in};

use ffv1_avi::laws as avi_laws;
use ffv1_matroska::{again_laws, laws as matroska_laws};
use ffv1_reads::laws as read_laws;

/// The frames are the next one and those after it.
pub fn frames_come_in_turn()
    ensures { (place : Place) (text : List ℕ) →
        frames_read place text ≡ read_on (frame_read place text) (more_frames frames_read) }
{
    avi_laws::frames_come_in_turn();
    matroska_laws::frames_come_in_turn();
}

/// What is read is a file of that head and those frames: up to the end of the first `movi` an AVI
/// by its chunks, after which this is left; and all of it an AVI by the chunks of every RIFF,
/// after which no other file begins, and of what stands there this was not looked at, or a
/// Matroska file by its elements, after whose Segment this is left.
pub fn what_is_read_is_a_file()
    ensures first { (file : List ℕ) (head : Head) (frames : List (List ℕ)) (rest : List ℕ) →
        file_read scope.FirstMovi file ≡ Ok ((head, frames), rest) →
        (is : AviFile file head frames) × (rest ≡ is.rest) }
    ensures whole { (file : List ℕ) (head : Head) (frames : List (List ℕ)) (rest : List ℕ) →
        file_read scope.Whole file ≡ Ok ((head, frames), rest) → IsWhole file head frames rest }
{
    avi_laws::what_is_read_is_a_file();
    avi_laws::file_is_read_as_its_frames();
    avi_laws::every_riff_is_read_whole();
    again_laws::what_is_read_again_is_a_file();
}

/// Such a file is read so.
pub fn file_is_read_as_its_frames()
    ensures first { (file : List ℕ) (head : Head) (frames : List (List ℕ))
        (is : AviFile file head frames) →
        file_read scope.FirstMovi file ≡ Ok ((head, frames), is.rest) }
    ensures whole { (file : List ℕ) (head : Head) (frames : List (List ℕ)) (rest : List ℕ) →
        IsWhole file head frames rest → file_read scope.Whole file ≡ Ok ((head, frames), rest) }
{
    avi_laws::file_is_read_as_its_frames();
    avi_laws::file_without_sizes_is_read();
    again_laws::file_is_read_wherever_its_tracks_stand();
}

/// If no bytes are noted after a file, and no other file was met there, none stand there: the
/// input has ended where the frames of an AVI did, and after a Segment that has a size nothing
/// comes.
pub fn no_bytes_noted_are_none()
    ensures avi { (from : AviPlace) (text : List ℕ) (new : Option (List ℕ))
        (before failed : ℕ) (was : Option ℕ) → extent_of from ≡ EveryRiff →
        behind_after (InAvi from) before was (record {
          old = Some text;
          new = new;
          before = failed;
          after = failed;
        }) (Ok false) None → new ≡ Some [] }
    ensures matroska { (size end : ℕ) (track : TrackNumbers) (place : MatroskaPlace) (cued : Bool)
        (text rest : List ℕ) (notes : Notes) →
        notes_read (InMatroska (Some size) track place) end cued None 0 0 false text ≡
        Ok (notes, rest) →
        notes.after ≡ None → text ≡ [] }
{
    avi_laws::no_bytes_told_are_none();
    read_laws::what_stands_behind_is_known();
}

/// What is noted of a whole file says no more than its end does, and how many of its frames repeat
/// the one before them, how many further tracks of a Segment or streams of an AVI are FFV1 video,
/// and which frame of a Segment comes too early or too late. Of an AVI after which no bytes stand
/// it is the first two numbers, and whether an RIFF or a movi without size ended it, after which
/// none stand; and of a Segment of known size after which none stand the
/// last two. Of a Segment of unknown size it is also whether Cues came after its last
/// Cluster, and never bytes after it. If bytes stand after an AVI, it is noted how many come before
/// them. No frame of a Segment repeats another.
pub fn notes_say_what_the_end_leaves()
    ensures avi { (file rest : List ℕ) (notes : Notes) (is : RiffsEnd file rest notes) →
        is.behind ≡ [] →
        notes ≡ record no_notes {
          is_open = is_open is.to.open_in;
          others = is.others;
          repeated = repeated_in is.frames;
        } }
    ensures open_ended { (file rest : List ℕ) (notes : Notes) (is : RiffsEnd file rest notes) →
        is_open is.to.open_in ≡ true → (notes.is_open ≡ true) × (notes.after ≡ None)
        × (is.behind ≡ []) × (rest ≡ []) }
    ensures repeated { (file rest : List ℕ) (notes : Notes) (is : RiffsEnd file rest notes) →
        notes.repeated ≡ repeated_in is.frames }
    ensures none { (file rest : List ℕ) (notes : Notes) → SegmentEnds file rest notes →
        notes.repeated ≡ 0 }
    ensures streams { (file rest : List ℕ) (notes : Notes) (is : RiffsEnd file rest notes) →
        notes.others ≡ is.others }
    ensures tracks { (file rest : List ℕ) (notes : Notes) (is : SegmentEnds file rest notes) →
        notes.others ≡ is.opened.track.numbers.others }
    ensures others { (file rest : List ℕ) (notes : Notes) (is : RiffsEnd file rest notes) →
        0 < length is.behind → (notes.is_open ≡ false)
        × (notes.after ≡ Some (bytes_before file is.behind)) }
    ensures sized { (file rest : List ℕ) (notes : Notes) (is : SegmentEnds file rest notes)
        (size : ℕ) → is.opened.segment ≡ Some size → is.behind ≡ [] →
        notes ≡ record no_notes {
          others = is.opened.track.numbers.others;
          times = is.times.off;
        } }
    ensures times { (file rest : List ℕ) (notes : Notes) (is : SegmentEnds file rest notes) →
        notes.times ≡ is.times.off }
    ensures untimed { (file rest : List ℕ) (notes : Notes) → RiffsEnd file rest notes →
        notes.times ≡ None }
    ensures behind { (file rest : List ℕ) (notes : Notes) (is : SegmentEnds file rest notes)
        (size : ℕ) → is.opened.segment ≡ Some size → 0 < length is.behind →
        (notes.is_open ≡ false)
        × (notes.after ≡ Some (bytes_before file is.behind)) }
    ensures unknown { (file rest : List ℕ) (notes : Notes) (is : SegmentEnds file rest notes) →
        is.opened.segment ≡ None → (notes.is_open ≡ not is.cued) × (notes.after ≡ None)
        × (rest ≡ is.behind) }
{
    read_laws::what_stands_behind_is_known();
    avi_laws::no_bytes_told_are_none();
}

/// What is noted of a file is told by its bytes, and so is what is left after those that were
/// looked at.
pub fn a_file_is_noted_in_one_way()
    ensures avi { (file rest left : List ℕ) (notes others : Notes) → RiffsEnd file rest notes →
        RiffsEnd file left others → (notes ≡ others) × (rest ≡ left) }
    ensures matroska { (file rest left : List ℕ) (notes others : Notes) →
        SegmentEnds file rest notes → SegmentEnds file left others →
        (notes ≡ others) × (rest ≡ left) }
{}

/// An AVI that was written to be read so far is read back; it says no colours.
pub fn written_avi_is_read_back()
    ensures { (scope : Scope) (head : Head) (frames : List (List ℕ)) →
        IsWritable (extent_in scope) head frames →
        file_read scope (file_of head frames) ≡ Ok ((without_colour head, frames), []) }
{
    avi_laws::written_file_is_read_back();
}

/// After an AVI that was written no bytes are noted: it is read to its last one.
pub fn nothing_is_noted_after_a_written_avi()
    ensures { (scope : Scope) (head : Head) (frames : List (List ℕ)) (rest : List ℕ)
        (notes : Notes) → IsWritable (extent_in scope) head frames →
        IsNotedOf scope (file_of head frames) rest notes → notes.after ≡ None }
{
    avi_laws::nothing_stands_after_a_written_file();
    avi_laws::written_file_is_read_back();
}

/// No RIFF or movi without size ends an AVI that was written.
pub fn written_avi_is_not_left_open()
    ensures { (scope : Scope) (head : Head) (frames : List (List ℕ)) (rest : List ℕ)
        (notes : Notes) → IsWritable (extent_in scope) head frames →
        IsNotedOf scope (file_of head frames) rest notes → notes.is_open ≡ false }
{
    avi_laws::nothing_stands_after_a_written_file();
    avi_laws::written_file_is_read_back();
}
