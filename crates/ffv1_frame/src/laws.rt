//! Laws of the definitions, each the contract of a function that does nothing.

ghost use Rattle.std.specs.Prelude.{◌≡◌, ℕ, ◌+◌, ◌*◌, ◌^◌, ◌<◌, ◌≤◌, true, false, [], ◌∷◌, ◌++◌};
ghost use Rattle.std.specs.Prelude.{length};
ghost use Rattle.ffv1_line.specs.Length.{row_decisions};
ghost use Rattle.ffv1_record.specs.declared.config.Colour.TheVariants as colour;
ghost use Rattle.ffv1_record.specs.Accepted.{Accepted, IsAccepted};
ghost use Rattle.ffv1_slice.specs.Head.{IsHead, key_steps, head_steps};
ghost use Rattle.ffv1_frame.specs.Picture.{Planes, IsPicture, coded_at, cell_in};
ghost use Rattle.ffv1_frame.specs.SliceList.{Said, IsBody, bits_of, lines_in};
ghost use Rattle.ffv1_frame.specs.SliceList.{chosen_head, chosen_body};
ghost use Rattle.ffv1_frame.specs.Length.{slice_residuals, slice_most, slice_renormalisations};
ghost use Rattle.ffv1_frame.specs.Length.{frame_counts, frame_most};
ghost use Rattle.ffv1_slice.specs.Footer.{foot_length};
ghost use Rattle.ffv1_range.specs.Table.{Table};
ghost use Rattle.ffv1_record.specs.Configuration.{Configuration};
ghost use Rattle.ffv1_frame.specs.Sides.{Sides};
ghost use Rattle.ffv1_frame.specs.Worked.{small_pictures, unknown};
ghost use Rattle.ffv1_frame.specs.Frame.{IsSaid, CodesPicture, HasLongSlice, slice_bytes};
ghost use Rattle.ffv1_frame.specs.Frame.{frame_of};
ghost use Rattle.ffv1_record.specs.Accepted.{is_rice};

pub mod answer;
pub mod decoding;
pub mod rice;
pub mod sink;

use crate::laws;
use ffv1_line::laws as line_laws;
use ffv1_range::laws as range_laws;
use ffv1_rct::laws as rct_laws;
use ffv1_record::laws as record_laws;
use ffv1_slice::laws as slice_laws;

/// The coded samples of a picture have as many bits as its depth, and one more in RCT.
pub fn coded_samples_fit_their_bits()
    ensures { (a : Accepted) (planes : Planes) (p x y : ℕ) → IsPicture a.configuration planes →
        coded_at a.configuration planes p x y < 2 ^ bits_of a.configuration }
{
    rct_laws::line_transform_is_lists_at_depth();
    rct_laws::transform_stays_in_range_at_depth();
}

/// The planes of a checked configuration are divided part by part, in RCT all alike, and their
/// samples have 8 to 16 bits.
pub fn planes_are_divided_part_by_part()
    ensures { (c : Configuration) (t : Table) → IsAccepted c t → Sides c }
{
    record_laws::accepted_configuration_is_in_range();
    record_laws::accepted_configuration_has_sound_parts();
    slice_laws::accepted_pictures_are_divided();
    slice_laws::cells_tile_their_plane();
    slice_laws::parts_follow_one_another();
    slice_laws::sides_share_nothing_at_multiples();
}

/// What an encoder takes of a picture: a head of the profile that says what is to be said, and
/// residuals that suit the samples of its slice.
pub fn chosen_slices_suit_their_picture()
    ensures head { (a : Accepted) (info : Said) → IsAccepted a.configuration a.table →
        IsSaid info → IsHead a.profile a.configuration (chosen_head a.configuration info) }
    ensures body { (a : Accepted) (planes : Planes) (info : Said) (n : ℕ) →
        IsAccepted a.configuration a.table → IsPicture a.configuration planes →
        IsBody a.configuration (chosen_head a.configuration info)
        (cell_in a.configuration planes n) (lines_in a.configuration n)
        (chosen_body a.configuration (chosen_head a.configuration info)
        (cell_in a.configuration planes n) (lines_in a.configuration n)) }
{
    record_laws::accepted_configuration_is_in_range();
    laws::coded_samples_fit_their_bits();
    line_laws::chosen_residuals_suit_their_samples();
    slice_laws::accepted_pictures_are_divided();
    slice_laws::cells_tile_their_plane();
    slice_laws::parts_follow_one_another();
}

/// The payload that an encoder writes of a picture codes the picture, if no slice has more
/// coded bytes than its footer can say.
pub fn encoded_frame_codes_its_picture()
    ensures { (a : Accepted) (planes : Planes) (info : Said) →
        IsAccepted a.configuration a.table → is_rice a.configuration.coder ≡ false →
        IsPicture a.configuration planes → IsSaid info → (HasLongSlice a planes info → ⊥) →
        CodesPicture a (frame_of a planes info) planes info }
{
    laws::chosen_slices_suit_their_picture();
    slice_laws::slices_are_cut_where_joined();
    range_laws::each_decision_has_a_state();
    range_laws::sentinel_ending_codes_its_list();
    range_laws::ended_bytes_are_near_the_sentinel_ending();
}

/// Frames that are known from outside the program: what the definition of a frame gives for them.
pub fn worked_frames_have_known_bytes()
    ensures zero { frame_of (small_pictures colour.YCbCr false false 1 1 1 false)
        ((0 ∷ []) ∷ []) unknown ≡ 254 ∷ 123 ∷ 0 ∷ 0 ∷ 2 ∷ [] }
    ensures parity { frame_of (small_pictures colour.YCbCr false false 1 1 1 true)
        ((0 ∷ []) ∷ []) unknown ≡
        254 ∷ 123 ∷ 0 ∷ 0 ∷ 2 ∷ 0 ∷ 148 ∷ 140 ∷ 19 ∷ 60 ∷ [] }
    ensures greatest { frame_of (small_pictures colour.YCbCr false false 1 1 1 false)
        ((255 ∷ []) ∷ []) unknown ≡ 254 ∷ 24 ∷ 0 ∷ 0 ∷ 2 ∷ [] }
    ensures middle { frame_of (small_pictures colour.YCbCr false false 1 1 1 false)
        ((128 ∷ []) ∷ []) unknown ≡ 254 ∷ 121 ∷ 246 ∷ 133 ∷ 0 ∷ 0 ∷ 4 ∷ [] }
    ensures four { frame_of (small_pictures colour.YCbCr false false 2 2 1 false)
        ((10 ∷ 20 ∷ 30 ∷ 40 ∷ []) ∷ []) unknown ≡
        254 ∷ 108 ∷ 175 ∷ 89 ∷ 122 ∷ 136 ∷ 0 ∷ 0 ∷ 6 ∷ [] }
    ensures beside { frame_of (small_pictures colour.YCbCr false false 2 1 2 false)
        ((0 ∷ 0 ∷ []) ∷ []) unknown ≡
        254 ∷ 123 ∷ 0 ∷ 0 ∷ 2 ∷ 63 ∷ 118 ∷ 0 ∷ 0 ∷ 2 ∷ [] }
    ensures chroma { frame_of (small_pictures colour.YCbCr true false 1 1 1 false)
        ((0 ∷ []) ∷ (0 ∷ []) ∷ (0 ∷ []) ∷ []) unknown ≡ 254 ∷ 222 ∷ 0 ∷ 0 ∷ 2 ∷ [] }
    ensures transparency { frame_of (small_pictures colour.YCbCr true true 1 1 1 false)
        ((0 ∷ []) ∷ (0 ∷ []) ∷ (0 ∷ []) ∷ (0 ∷ []) ∷ []) unknown ≡
        254 ∷ 245 ∷ 0 ∷ 0 ∷ 2 ∷ [] }
    ensures red { frame_of (small_pictures colour.Rct true false 1 1 1 false)
        ((255 ∷ []) ∷ (0 ∷ []) ∷ (0 ∷ []) ∷ []) unknown ≡
        254 ∷ 120 ∷ 223 ∷ 131 ∷ 217 ∷ 44 ∷ 0 ∷ 0 ∷ 6 ∷ [] }
{}

/// How many decisions the residuals of a slice take: 2 n + 1 for each of n binary digits. And how
/// many bytes a slice has before its footer: one and its renormalisations, at most as many as its
/// decisions and 101 more, with 6 for a third set index and 2 for each place that may be above 15.
pub fn slice_length_follows_from_residuals()
    ensures body { (a : Accepted) (planes : Planes) (info : Said) (n : ℕ) →
        0 < a.configuration.depth → a.configuration.depth ≤ 16 →
        length (chosen_body a.configuration (chosen_head a.configuration info)
        (cell_in a.configuration planes n) (lines_in a.configuration n)) ≡
        row_decisions (slice_residuals a.configuration planes info n) }
    ensures few { (a : Accepted) (planes : Planes) (info : Said) (n : ℕ) →
        IsAccepted a.configuration a.table → n < a.configuration.columns * a.configuration.rows →
        row_decisions (slice_residuals a.configuration planes info n) < 2 ^ 40 }
    ensures beginning { (a : Accepted) (info : Said) (n : ℕ) →
        IsAccepted a.configuration a.table → IsSaid info →
        n < a.configuration.columns * a.configuration.rows →
        length (key_steps n ++ head_steps a.configuration n
        (chosen_head a.configuration info)) + 10 ≤ slice_most a.configuration }
    ensures coded { (a : Accepted) (planes : Planes) (info : Said) (n : ℕ) →
        length (slice_bytes a planes info n) ≡ slice_renormalisations a planes info n + 1 }
    ensures bytes { (a : Accepted) (planes : Planes) (info : Said) (n : ℕ) →
        IsAccepted a.configuration a.table → IsSaid info →
        n < a.configuration.columns * a.configuration.rows →
        slice_renormalisations a planes info n + 9 ≤
        row_decisions (slice_residuals a.configuration planes info n)
        + slice_most a.configuration }
{
    record_laws::accepted_configuration_is_in_range();
    line_laws::chosen_residuals_suit_their_samples();
    line_laws::residual_length_follows_from_digits();
    range_laws::symbol_length_follows_from_exponent();
    slice_laws::head_takes_few_decisions();
    laws::chosen_slices_suit_their_picture();
    slice_laws::accepted_pictures_are_divided();
    slice_laws::cells_tile_their_plane();
    slice_laws::parts_follow_one_another();
}

/// How many bytes a frame has: one and the footer's for each slice, and one for each
/// renormalisation. That is at most 2 n + 1 for each residual of n binary digits, and 109 for each
/// slice, with 6 for a third set index and 2 for each place that may be above 15.
pub fn frame_length_follows_from_residuals()
    ensures long { (a : Accepted) (planes : Planes) (info : Said) →
        length (frame_of a planes info) ≡ (frame_counts a planes info).renormalisations
        + a.configuration.columns * a.configuration.rows * (1 + foot_length a.configuration.ec) }
    ensures most { (a : Accepted) (planes : Planes) (info : Said) →
        IsAccepted a.configuration a.table → IsSaid info →
        length (frame_of a planes info) ≤ frame_most a.configuration planes info }
{
    laws::slice_length_follows_from_residuals();
    slice_laws::footer_has_its_length_and_parity();
}
