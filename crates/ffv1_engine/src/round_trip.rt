//! What is packed is unpacked: the law that joins both.

ghost use Rattle.std.specs.Prelude.{◌≡◌, ◌<◌, ℕ, Bool, List, [], None, Ok, Some, length, false};
ghost use Rattle.std.specs.Prelude.{true};
ghost use Rattle.clap.specs.Words.{Row};
ghost use Rattle.ffv1_wire.specs.Passage.{Passage};
ghost use Rattle.ffv1_y4m.specs.VideoHead.{IsRatio};
ghost use Rattle.ffv1_video.specs.declared.fault.Fault.{Fault};
ghost use Rattle.ffv1_video.specs.declared.profile.Profile.{Profile};
ghost use Rattle.ffv1_words.specs.declared.order.Choice.{Choice};
ghost use Rattle.ffv1_unpack.specs.Check.{CheckStops};
ghost use Rattle.ffv1_words.specs.Order.{NamesChoice};
ghost use Rattle.ffv1_unpack.specs.Show.{ShowStops};
ghost use Rattle.ffv1_record.specs.Accepted.{Accepted, PassesEdges};
ghost use Rattle.ffv1_files.specs.Files.{file_read};
ghost use Rattle.ffv1_files.specs.Noted.{IsNotedOf};
ghost use Rattle.ffv1_files.specs.declared.notes.Notes.{Notes};
ghost use Rattle.ffv1_files.specs.declared.container.Scope.TheVariants.{Whole};
ghost use Rattle.ffv1_video.specs.declared.profile.Profile.TheVariants.{Strict, Wide};
ghost use Rattle.ffv1_engine.specs.MatroskaRoundTrip.{HoldsMatroska, WasPackedMatroska};
ghost use Rattle.ffv1_video.specs.Colours.{IsByteColour, shown};
ghost use Rattle.ffv1_engine.specs.MatroskaRoundTrip.{matroska_file, matroska_text, matroska_video};
ghost use Rattle.ffv1_pack.specs.PackMatroska.{HasClusters, begun_file};
ghost use Rattle.ffv1_pack.specs.Packing.{AreReadable, packed_frames, packed_head};
ghost use Rattle.ffv1_engine.specs.RoundTrip.{IsReadIn, text_video, video_in};
ghost use Rattle.ffv1_engine.specs.RoundTrip.{Holds, IsNoContent, IsUnpacked, WasPacked};
ghost use Rattle.ffv1_engine.specs.RoundTrip.{accepted_in, canonical_of, file_in, read_again};
ghost use Rattle.ffv1_unpack.specs.Unpack.{UnpackDone, UnpackStops};
ghost use Rattle.ffv1_video.specs.Profiles.{greatest_depth, record_profile, scope_in};
ghost use Rattle.ffv1_video.specs.Video.{IsReadVideo, IsVideo, Video};

use ffv1_avi::laws as avi_laws;
use ffv1_codec::laws as codec_laws;
use ffv1_files::laws as files_laws;
use ffv1_matroska::{again_laws, laws as matroska_laws, written_laws};
use ffv1_range::laws as range_laws;
use ffv1_record::laws as record_laws;
use ffv1_slice::laws as slice_laws;
use ffv1_y4m::laws as y4m_laws;

/// The rate and the scale that a command line names are such as a file has: `words` makes no choice
/// for which `packed_is_unpacked` would not speak of PPM.
pub fn named_rate_fits_a_file()
    ensures { (rows : List Row) (c : Choice) → NamesChoice rows c →
        IsRatio 4294967295 c.rate c.scale }
{}

/// The numbers of colours that a command line names are of 8 bits: `words` makes no choice for
/// which `packed_is_unpacked` would not speak of Matroska.
pub fn named_colour_fits_a_file()
    ensures { (rows : List Row) (c : Choice) → NamesChoice rows c → IsByteColour c.colour }
{}

/// A text that `pack` has packed is unpacked again, if it was packed in `Wide`, or has no frame
/// longer than 67108864 bytes. Its file holds a stream of frames that code its pictures. If
/// `unpack` is Ok on that file, at either profile that reads samples of its depth, it has read
/// all of it and written the canonical text of the video without its range and siting, of which
/// an AVI says nothing: a text of that video, and for PPM whose headers are three lines each, as
/// they are at `Strict`, the very text that was packed. It is the canonical text of all that was
/// packed if `pack` answers that no colour is lost. What it notes is what is noted of the bytes of
/// the file: at `Strict` nothing, and in neither container bytes after it.
///
/// If `unpack`, `check` or `show` is refused on it, at such a profile, that is for `OutOfMemory`
/// (2), `Read` (56) or `Write` (57), and for no fault of the file.
///
/// The profile that a text was packed in reads its depth, its grid and its frames. `Wide` reads
/// those of each text that was packed. `Strict` reads those of 8 bits whose slices share no chroma
/// sample, each inner edge being a multiple of the chroma factor, and whose frames have at most
/// 67108864 bytes.
///
/// The same holds, at `Wide`, of any text that `pack_matroska` has packed, whether its file is
/// finished or open: it writes no frame that is not read. The canonical text then has range and
/// siting, too; it is read as the same video, but that 4:2:0 of 8 bits without a siting lies in the
/// centre then, and has the same canonical text. A file that is begun, of some first pictures, is
/// read as their frames, and to its last byte.
pub fn packed_is_unpacked()
    ensures read { (packing profile : Profile) (choice : Choice) (text : List ℕ)
        (w : WasPacked packing choice text) →
        IsReadIn packing (video_in w) (accepted_in w)
        × IsReadIn Wide (video_in w) (accepted_in w)
        × ((video_in w).head.depth ≡ 8 →
        PassesEdges (record_profile profile) (accepted_in w).configuration →
        AreReadable (record_profile profile) (packed_frames (video_in w) (accepted_in w)) →
        IsReadIn profile (video_in w) (accepted_in w)) }
    ensures holds { (packing profile : Profile) (choice : Choice) (text : List ℕ)
        (w : WasPacked packing choice text) → IsReadIn profile (video_in w) (accepted_in w) →
        Holds profile (file_in w) (video_in w) }
    ensures written { (packing profile : Profile) (choice : Choice) (text : List ℕ)
        (w : WasPacked packing choice text) (input output : Passage) (count : ℕ)
        (notes : Notes) → IsReadIn profile (video_in w) (accepted_in w) →
        input.old ≡ Some (file_in w) → UnpackDone profile input output count notes →
        IsUnpacked (video_in w) input output count }
    ensures noted { (packing profile : Profile) (choice : Choice) (text : List ℕ)
        (w : WasPacked packing choice text) (input output : Passage) (count : ℕ)
        (notes : Notes) → IsReadIn profile (video_in w) (accepted_in w) →
        input.old ≡ Some (file_in w) → UnpackDone profile input output count notes →
        IsNotedOf (scope_in profile) (file_in w) [] notes × (notes.after ≡ None) }
    ensures refused { (packing profile : Profile) (choice : Choice) (text : List ℕ)
        (w : WasPacked packing choice text) (input output : Passage) (f : Fault) →
        IsReadIn profile (video_in w) (accepted_in w) →
        input.old ≡ Some (file_in w) → UnpackStops profile input output f → IsNoContent f }
    ensures checked { (packing profile : Profile) (choice : Choice) (text : List ℕ)
        (w : WasPacked packing choice text) (place : Bool) (input output : Passage) (f : Fault) →
        IsReadIn profile (video_in w) (accepted_in w) →
        input.old ≡ Some (file_in w) → CheckStops profile place input output f → IsNoContent f }
    ensures shown { (packing profile : Profile) (choice : Choice) (text : List ℕ)
        (w : WasPacked packing choice text) (cost : Bool) (input output : Passage) (f : Fault) →
        IsReadIn profile (video_in w) (accepted_in w) →
        input.old ≡ Some (file_in w) → ShowStops profile input output cost f → IsNoContent f }
    ensures same { (packing : Profile) (choice : Choice) (text : List ℕ)
        (w : WasPacked packing choice text) →
        IsVideo (canonical_of (video_in w)) (video_in w) }
    ensures kept { (packing : Profile) (choice : Choice) (text : List ℕ)
        (w : WasPacked packing choice text) → w.packed.loses_colour ≡ false →
        canonical_of (video_in w) ≡ canonical_of (shown choice (text_video w)) }
    ensures packed { (packing : Profile) (choice : Choice) (text : List ℕ)
        (w : WasPacked packing choice text) →
        IsReadVideo (greatest_depth packing) text (text_video w) }
    ensures strict { (choice : Choice) (text : List ℕ) (w : WasPacked Strict choice text) →
        IsVideo text (video_in w) }
    ensures ppm { (packing : Profile) (choice : Choice) (text : List ℕ)
        (w : WasPacked packing choice text) → IsVideo text (video_in w) →
        (video_in w).ppm ≡ true → canonical_of (video_in w) ≡ text }
    ensures matroska_holds { (packing : Profile) (choice : Choice) (text : List ℕ)
        (w : WasPackedMatroska packing choice text) →
        HoldsMatroska (matroska_file w) (matroska_video w) }
    ensures matroska_written { (packing : Profile) (choice : Choice) (text : List ℕ)
        (w : WasPackedMatroska packing choice text) (input output : Passage) (count : ℕ)
        (notes : Notes) → input.old ≡ Some (matroska_file w) →
        UnpackDone Wide input output count notes →
        IsUnpacked (matroska_video w) input output count }
    ensures matroska_noted { (packing : Profile) (choice : Choice) (text : List ℕ)
        (w : WasPackedMatroska packing choice text) (input output : Passage) (count : ℕ)
        (notes : Notes) → input.old ≡ Some (matroska_file w) →
        UnpackDone Wide input output count notes →
        IsNotedOf Whole (matroska_file w) [] notes × (notes.after ≡ None) }
    ensures matroska_refused { (packing : Profile) (choice : Choice) (text : List ℕ)
        (w : WasPackedMatroska packing choice text) (input output : Passage) (f : Fault) →
        input.old ≡ Some (matroska_file w) → UnpackStops Wide input output f → IsNoContent f }
    ensures matroska_checked { (packing : Profile) (choice : Choice) (text : List ℕ)
        (w : WasPackedMatroska packing choice text) (place : Bool) (input output : Passage)
        (f : Fault) →
        input.old ≡ Some (matroska_file w) → CheckStops Wide place input output f →
        IsNoContent f }
    ensures matroska_shown { (packing : Profile) (choice : Choice) (text : List ℕ)
        (w : WasPackedMatroska packing choice text) (cost : Bool) (input output : Passage)
        (f : Fault) →
        input.old ≡ Some (matroska_file w) → ShowStops Wide input output cost f →
        IsNoContent f }
    ensures matroska_same { (packing : Profile) (choice : Choice) (text : List ℕ)
        (w : WasPackedMatroska packing choice text) →
        IsReadVideo (greatest_depth Wide) (canonical_of (matroska_video w))
        (read_again (greatest_depth Wide) (matroska_video w)) }
    ensures matroska_again { (packing : Profile) (choice : Choice) (text : List ℕ)
        (w : WasPackedMatroska packing choice text) →
        canonical_of (read_again (greatest_depth Wide) (matroska_video w))
        ≡ canonical_of (matroska_video w) }
    ensures matroska_packed { (packing : Profile) (choice : Choice) (text : List ℕ)
        (w : WasPackedMatroska packing choice text) →
        IsReadVideo (greatest_depth packing) text (matroska_text w) }
    ensures matroska_strict { (choice : Choice) (text : List ℕ)
        (w : WasPackedMatroska Strict choice text) → IsVideo text (matroska_text w) }
    ensures matroska_ppm { (packing : Profile) (choice : Choice) (text : List ℕ)
        (w : WasPackedMatroska packing choice text) → IsVideo text (matroska_text w) →
        (matroska_text w).ppm ≡ true → canonical_of (matroska_video w) ≡ text }
    ensures begun { (profile : Profile) (choice : Choice) (v : Video) (a : Accepted) →
        HasClusters profile choice v a → 0 < length v.pictures →
        (v.ppm ≡ true → IsRatio 4294967295 choice.rate choice.scale) →
        IsByteColour choice.colour →
        file_read Whole (begun_file choice v a)
        ≡ Ok ((packed_head choice v a, packed_frames v a), []) }
{
    record_laws::accepted_configuration_is_in_range();
    range_laws::each_step_is_one_or_zero();
    slice_laws::payload_is_cut_in_one_way();
    codec_laws::encoded_frame_codes_its_picture();
    range_laws::exponent_is_the_highest_bit();
    files_laws::file_is_read_as_its_frames();
    codec_laws::frame_length_follows_from_residuals();
    files_laws::frames_come_in_turn();
    y4m_laws::text_is_read_as_its_images();
    codec_laws::decoding::coded_picture_is_decoded();
    range_laws::symbol_length_follows_from_exponent();
    record_laws::record_has_one_configuration();
    codec_laws::decoding::decoding_has_one_end();
    codec_laws::answer::payload_codes_one_picture();
    record_laws::bytes_are_refused_for_one_reason();
    y4m_laws::said_chroma_has_a_name();
    y4m_laws::said_head_can_be_read();
    y4m_laws::strict_head_says_neither();
    range_laws::sentinel_ending_codes_its_list();
    y4m_laws::text_is_read_as_its_pictures();
    files_laws::written_avi_is_read_back();
    files_laws::nothing_is_noted_after_a_written_avi();
    avi_laws::written_file_is_read_back();
    written_laws::written_file_is_read_back();
    matroska_laws::what_is_read_is_a_file();
    again_laws::file_is_read_wherever_its_tracks_stand();
    record_laws::written_bytes_are_a_record();
}
