//! Places of a row that are encoded at once.

ghost use Rattle.std.specs.Prelude.{◌≡◌};

use ffv1_plane::QuantSet;
use std::alloc::Allocator;

/// Places of a row that are coded at once: how they are coded, the rows above, the row itself, and
/// where they stand in it.
#[derive(Drop)]
pub(crate) struct Part<'a, A: Allocator> {
    /// The quantisation table set.
    pub(crate) set: &'a QuantSet<A>,
    /// The bits of a sample, 8 to 15.
    pub(crate) bits: u8,
    /// Said of no set but one whose fourth and fifth tables have one level.
    pub(crate) three_tables: bool,
    /// The row two above.
    pub(crate) two: &'a [u16],
    /// The row one above.
    pub(crate) one: &'a [u16],
    /// The row.
    pub(crate) cur: &'a [u16],
    /// The row's place that is the first.
    pub(crate) from: usize,
    /// How many places there are, at most 64.
    pub(crate) count: usize,
}

impl<'a, A: Allocator> Part<'a, A> {
    /// The same as a value of its own, so that this one need not lie in memory for a call.
    #[inline(always)]
    pub(crate) fn own(&self) -> Part<'a, A>
        ensures { result ≡ self.now }
    {
        let Part {
            set,
            bits,
            three_tables,
            two,
            one,
            cur,
            from,
            count,
        } = *self;
        Part {
            set,
            bits,
            three_tables,
            two,
            one,
            cur,
            from,
            count,
        }
    }
}
