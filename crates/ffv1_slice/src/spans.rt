//! Where the slices of a payload lie.

ghost use Rattle.std.specs.Prelude.{◌≡◌, IfOk, IfErr, [], length, vec_capacity};
ghost use Rattle.ffv1_slice.specs.Cutting.{span_of, IsCut};

use crate::fault::SliceFault;
use ffv1_record::OFFSETS;
use std::alloc::{AllocError, Allocator, Global};
use std::marker::Model;

/// Where the coded bytes of each slice of a payload begin and end, once `cut` found them. It has
/// room for 1025 offsets.
///
/// It is seen as a `Cut`: the offsets, one more than there are slices or none, how long a footer
/// is, the room, and the capacity of the vector that they stand in.
#[derive(Drop)]
pub struct Spans<A: Allocator = Global> {
    pub(crate) offsets: Vec<usize, A>,
    pub(crate) held: usize,
    pub(crate) foot: usize,
}

impl<A: Allocator> Model for Spans<A> {
    ghost use Rattle.std.specs.Prelude.{◌≤◌, length, take, vec_capacity};
    ghost use Rattle.ffv1_slice.specs.Cutting.{Cut, IsCut};

    ghost Value = { Cut };

    ghost view = { λ s. record {
      offsets = take s.held s.offsets.items;
      foot = s.foot;
      room = length s.offsets.items;
      capacity = vec_capacity s.offsets;
    } };

    ghost invariant = { λ s. (s.held ≤ length s.offsets.items)
        × IsCut (record {
          offsets = take s.held s.offsets.items;
          foot = s.foot;
          room = length s.offsets.items;
          capacity = vec_capacity s.offsets;
        }) };
}

/// So many offsets, all 0, in memory for exactly as many.
fn fresh_offsets<A: Allocator>(alloc: A, count: usize) -> Result<Vec<usize, A>, AllocError>
    ensures long { IfOk result (λ v. length v.items ≡ count) }
    ensures capacity { IfOk result (λ v. vec_capacity v ≡ count) }
{
    let mut offsets = Vec::with_capacity(alloc, count)?;
    for _ in 0..count {
        offsets.push_reserved(0);
    }
    Ok(offsets)
}

impl<A: Allocator> Spans<A> {
    /// No slices, and room for 1025 offsets, in memory for exactly as many. Answers `OutOfMemory`
    /// if that was refused.
    pub fn new(alloc: A) -> Result<Spans<A>, SliceFault>
        ensures ok { IfOk result (λ s. s ≡ record {
          offsets = [];
          foot = 0;
          room = 1025;
          capacity = s.capacity;
        }) }
        ensures capacity { IfOk result (λ s. s.capacity ≡ 1025) }
        ensures err { IfErr result (λ f. f ≡ SliceFault.OutOfMemory) }
    {
        let offsets = fresh_offsets(alloc, OFFSETS)?;
        Ok(Spans {
            offsets,
            held: 0,
            foot: 0,
        })
    }

    /// Where the coded bytes of a slice begin and end, or None if there is no such slice.
    pub fn span(&self, slice: usize) -> Option<(usize, usize)>
        ensures value { result ≡ span_of self.now slice }
        ensures room { IsCut self.now }
    {
        if slice < self.held.saturating_sub(1) {
            return Some((self.offsets[slice], self.offsets[slice + 1] - self.foot));
        }
        None
    }
}
