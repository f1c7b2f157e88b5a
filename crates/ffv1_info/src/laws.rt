//! Laws of what is told of files.

ghost use Rattle.std.specs.Prelude.{◌≡◌, ℕ, ◌%◌, ◌<◌, ◌≤◌, List};
ghost use Rattle.ffv1_matroska.specs.Rates.{common_up_to};
ghost use Rattle.ffv1_reads.specs.Head.{Head};
ghost use Rattle.ffv1_video.specs.declared.profile.Profile.{Profile};
ghost use Rattle.ffv1_unpack.specs.Plays.{FileThen};
ghost use Rattle.ffv1_unpack.specs.Stream.{HoldsPayloads};
ghost use Rattle.ffv1_info.specs.StreamInfo.{FramesOver};

use ffv1_files::laws as files_laws;

/// Payloads that come after a head, and after which there is none, are those of the file: of an AVI
/// up to the end of its first `movi`, or where a file is read whole of every RIFF, or those of a
/// Matroska file; what stands behind its end was looked at. So many are counted.
pub fn counted_frames_are_those_of_the_file()
    ensures { (profile : Profile) (head : Head) (held : List (List ℕ)) (file rest : List ℕ) →
        FileThen profile head held FramesOver file rest →
        (behind : List ℕ) × HoldsPayloads profile file behind head held }
{
    files_laws::frames_come_in_turn();
    files_laws::what_is_read_is_a_file();
}

/// The aspect of a picture is in lowest terms: both numbers are multiples of what they are divided
/// by, and nothing greater divides both.
pub fn aspect_is_in_lowest_terms()
    ensures { (a b : ℕ) → 0 < b → (a % common_up_to a b b ≡ 0) × (b % common_up_to a b b ≡ 0)
        × ((m : ℕ) → 0 < m → a % m ≡ 0 → b % m ≡ 0 → m ≤ common_up_to a b b) }
{}
