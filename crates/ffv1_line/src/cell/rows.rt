//! The rows that a row is coded below.

ghost use Rattle.std.specs.Prelude.{◌≡◌, IfOk, replicate};

use std::alloc::{AllocError, Allocator};
use std::mem::swap;

/// The rows two and one above a row, and the row itself, each in a line of its own: a vector, or a
/// slice of one.
#[derive(Drop)]
pub struct RollingRows<L: Drop> {
    /// The row two above.
    pub two: L,
    /// The row one above.
    pub one: L,
    /// The row.
    pub cur: L,
}

impl<L: Drop> RollingRows<L> {
    /// Goes on to the next row: the row is now one above, that one above is two above, and the line
    /// of that two above is free for the next row. The lines change places, no sample is copied.
    #[inline(always)]
    pub fn turn(&mut self)
        ensures two { self.new.two ≡ self.old.one }
        ensures one { self.new.one ≡ self.old.cur }
        ensures cur { self.new.cur ≡ self.old.two }
    {
        swap(&mut self.two, &mut self.one);
        swap(&mut self.one, &mut self.cur);
    }
}

impl<A: Allocator + Copy> RollingRows<Vec<u16, A>> {
    /// Three rows of `width` zeros, as they stand at the top of a cell. Refuses if a growth is
    /// refused.
    pub fn new(alloc: A, width: usize) -> Result<RollingRows<Vec<u16, A>>, AllocError>
        ensures two { IfOk result (λ r. r.two.items ≡ replicate width 0) }
        ensures one { IfOk result (λ r. r.one.items ≡ replicate width 0) }
        ensures cur { IfOk result (λ r. r.cur.items ≡ replicate width 0) }
    {
        let two = vec![in alloc; 0u16; width]?;
        let one = vec![in alloc; 0u16; width]?;
        let cur = vec![in alloc; 0u16; width]?;
        Ok(RollingRows { two, one, cur })
    }
}
