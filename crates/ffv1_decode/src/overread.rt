//! Slices that are read too far.

ghost use Rattle.std.specs.Prelude.{◌≡◌, ◌≤◌, IsTrue, IsFalse, List, length};
ghost use Rattle.ffv1_range.specs.Symbols.{Step};
ghost use Rattle.ffv1_frame.specs.Overread.{IsWithin, IsOverread};
ghost use Rattle.ffv1_decode.specs.Internal.Stands.{told_by, tally_after};
ghost use Rattle.ffv1_decode.specs.Internal.Tied.{bytes_in};

use crate::column::Column;
use crate::parts::Frame;
use ffv1_record::Profile;
use std::alloc::Allocator;

/// How often the decoder of a column renormalised, at most 2^64 - 1.
fn renormalisations(column: &Column) -> u64
    ensures { result ≡ (told_by column.now.parked).renormalisations }
{
    match &column.parked {
        None => 0,
        Some(parked) => parked.tally().renormalisations,
    }
}

/// Whether the slice of a column was read more than two bytes past its end, if the profile asks
/// for that: its decoder renormalised more often than it has coded bytes.
pub(crate) fn is_overread<A: Allocator>(frame: &Frame<'_, A>, column: &Column) -> bool
    requires rises { column.now.first ≤ column.now.last }
    requires inside { column.now.last ≤ length frame.now.payload.now }
    ensures no { IsFalse result → (past : List Step) →
        let a = frame.now.checked.now in
        told_by column.now.parked ≡ tally_after a.table past →
        IsWithin a (bytes_in frame.now.payload.now column.now) past }
    ensures yes { IsTrue result → (past : List Step) →
        let a = frame.now.checked.now in
        told_by column.now.parked ≡ tally_after a.table past →
        IsOverread a (bytes_in frame.now.payload.now column.now) past }
{
    match frame.checked.profile() {
        Profile::Strict => false,
        Profile::Wide => renormalisations(column) > (column.last - column.first) as u64,
    }
}
