//! Where the parts of lines and of planes lie.

ghost use Rattle.std.specs.Prelude.{ℕ, ◌-◌, ◌*◌, ◌≤◌};
ghost use Rattle.ffv1_record.specs.Accepted.{IsAccepted};
ghost use Rattle.ffv1_record.specs.Configuration.{Configuration};
ghost use Rattle.ffv1_range.specs.Table.{Table};
ghost use Rattle.ffv1_record.specs.Held.{held_of};
ghost use Rattle.ffv1_slice.specs.Grid.{division_of, across, down};
ghost use Rattle.ffv1_decode.specs.Internal.Shared.{KeepsChroma};
ghost use Rattle.ffv1_decode.specs.Internal.Tied.{line_length};
ghost use Rattle.ffv1_decode.specs.Internal.Places.{AreParts};

use ffv1_record::laws as record_laws;
use ffv1_slice::laws as slice_laws;

/// The slices of a row lie beside one another in each plane, and rows below one another. A decoder
/// holds three lines of the planes that are coded together, and after them a line of Cb and one of
/// Cr, if two rows of slices share a line.
pub(crate) fn slices_lie_beside_one_another()
    ensures across { (c : Configuration) (t : Table) (p : ℕ) → IsAccepted c t →
        AreParts (across (division_of c) p) }
    ensures down { (c : Configuration) (t : Table) (p : ℕ) → IsAccepted c t →
        AreParts (down (division_of c) p) }
    ensures lines { (c : Configuration) → 3 * line_length c ≤ (held_of c).samples }
    ensures kept { (c : Configuration) (t : Table) → IsAccepted c t →
        KeepsChroma c ((held_of c).samples - 3 * line_length c) }
{
    record_laws::accepted_configuration_is_in_range();
    record_laws::accepted_configuration_has_sound_parts();
    record_laws::strict_checks_are_the_narrower();
    slice_laws::accepted_pictures_are_divided();
    slice_laws::cells_tile_their_plane();
    slice_laws::parts_follow_one_another();
    slice_laws::sides_share_nothing_at_multiples();
}
