//! The columns of a row, all at once.

ghost use Rattle.std.specs.Prelude.{◌≡◌, ℕ, ◌<◌, None, length};
ghost use Rattle.ffv1_range.specs.Table.{Table};
ghost use Rattle.ffv1_frame.specs.Decoding.{State};
ghost use Rattle.ffv1_frame.specs.Answer.{HasDecided};
ghost use Rattle.ffv1_decode.specs.Internal.Stands.{told_by};
ghost use Rattle.ffv1_decode.specs.Internal.Tied.{AreTold, column_at};
ghost use Rattle.ffv1_decode.specs.Internal.Tallies.{tally_over, both};

use crate::column::Column;
use ffv1_range::{Tally, laws as range_laws};

/// Lets go of the decoders of all columns.
pub(crate) fn close(columns: &mut [Column])
    ensures { (k : ℕ) → k < length columns.new → (column_at columns.new k).parked ≡ None }
{
    for k in 0..columns.len() {
        columns[k].parked = None;
    }
}

/// What the slice of a column decided: nothing before it is open.
fn made(column: &Column) -> Tally
    ensures { result ≡ told_by column.now.parked }
{
    match &column.parked {
        None => Tally {
            ones: 0,
            zeros: 0,
            renormalisations: 0,
        },
        Some(parked) => parked.tally(),
    }
}

/// A tally, and what a column decided, at most 2^64 - 1 each.
fn with(before: Tally, more: Tally) -> Tally
    ensures { result ≡ both before more }
{
    Tally {
        ones: before.ones.saturating_add(more.ones),
        zeros: before.zeros.saturating_add(more.zeros),
        renormalisations: before
            .renormalisations
            .saturating_add(more.renormalisations),
    }
}

/// What was decided before, and in the slices of these columns.
pub(crate) fn add_up(columns: &[Column], before: Tally) -> Tally
    ensures { (t : Table) (s : State) → before ≡ tally_over t s.done →
        AreTold t columns.now s → HasDecided t s result }
{
    range_laws::each_step_is_one_or_zero();
    let mut tally = before;
    for k in 0..columns.len() {
        tally = with(tally, made(&columns[k]));
    }
    tally
}
