//! A block of places of a row that is decoded.

ghost use Rattle.std.specs.Prelude.{◌≡◌, ◌⊎◌};

use crate::coding::fixed_bits;
use ffv1_plane::{BlockRows, Early, QuantSet};
use ffv1_range::StateTable;
use std::alloc::Allocator;

/// What stays the same along a block of places: how they are coded, the rows above them, what these
/// decide of each place, and where the block stands in its row.
#[derive(Drop)]
pub(crate) struct Places<'a, B: Allocator> {
    /// How states move.
    pub(crate) table: &'a StateTable,
    /// The quantisation table set.
    pub(crate) set: &'a QuantSet<B>,
    /// The bits of a sample, from 8 to 15.
    pub(crate) bits: u8,
    /// Said of no set but one whose fourth and fifth tables have one level.
    pub(crate) three_tables: bool,
    /// The row two above.
    pub(crate) two: &'a [u16],
    /// The row one above.
    pub(crate) one: &'a [u16],
    /// What the rows above decide of each place.
    pub(crate) early: &'a Early,
    /// The row's place that is the block's first.
    pub(crate) from: usize,
    /// How many places there are, at most 128.
    pub(crate) count: usize,
}

impl<'a, B: Allocator> Places<'a, B> {
    /// So many places of a block below these rows.
    #[inline(always)]
    pub(crate) fn below(
        rows: &BlockRows<'a, B>,
        table: &'a StateTable,
        bits: u8,
        early: &'a Early,
        count: usize,
    ) -> Places<'a, B>
        ensures { result ≡ record {
          table = table.entry;
          set = rows.now.set;
          bits = bits;
          three_tables = rows.now.three_tables;
          two = rows.now.two;
          one = rows.now.one;
          early = early.entry;
          from = rows.now.from;
          count = count;
        } }
    {
        let BlockRows {
            set,
            two,
            one,
            from,
            three_tables,
        } = *rows;
        Places {
            table,
            set,
            bits,
            three_tables,
            two,
            one,
            early,
            from,
            count,
        }
    }

    /// The same, with the bits and the kind of the set as constants; if `BITS` is 0, the bits
    /// are no constant.
    #[inline(always)]
    pub(crate) fn fixed<const BITS: u8, const THREE_TABLES: bool>(&self) -> Places<'a, B>
        requires bits { (BITS ≡ 0) ⊎ (self.now.bits ≡ BITS) }
        requires three_tables { self.now.three_tables ≡ THREE_TABLES }
        ensures { result ≡ self.now }
    {
        let Places {
            table,
            set,
            two,
            one,
            early,
            from,
            count,
            ..
        } = *self;
        Places {
            table,
            set,
            bits: fixed_bits::<BITS>(self.bits),
            three_tables: THREE_TABLES,
            two,
            one,
            early,
            from,
            count,
        }
    }
}

/// What is carried from place to place along a block: the samples two to the left and to the left.
#[derive(Clone, Copy)]
pub(crate) struct Behind {
    pub(crate) ll: u16,
    pub(crate) l: u16,
}
