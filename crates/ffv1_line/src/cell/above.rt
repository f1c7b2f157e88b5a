//! The rows above a row.

use crate::cell::word::Word;
use std::marker::Model;

/// The rows two and one above a row of a cell, of one length; above the cell all samples are 0.
#[derive(Drop)]
pub struct Above<'a, W: Word = u16> {
    /// The row two above.
    pub two: &'a [W],
    /// The row one above.
    pub one: &'a [W],
}

impl<'a, W: Word> Model for Above<'a, W> {
    ghost use Rattle.std.specs.Prelude.{◌≡◌, length};
    ghost use Rattle.ffv1_line.specs.Above.{RowsAbove};

    ghost Value = { RowsAbove };

    ghost view = { λ a. record { two = W.samples a.two.now; one = W.samples a.one.now } };

    ghost invariant = { λ a. length a.two.now ≡ length a.one.now };
}
