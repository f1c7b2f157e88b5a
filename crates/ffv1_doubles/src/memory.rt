//! An allocator that refuses one request.

use std::alloc::{AllocError, Allocator};
use std::cell::Cell;

/// An allocator that passes on so many requests, refuses the next one, and passes on all others.
pub struct Scarce<B: Allocator> {
    inner: B,
    before: Cell<u64>,
}

impl<B: Allocator> Scarce<B> {
    /// Refuses the request that comes after `before` others.
    pub fn new(inner: B, before: u64) -> Scarce<B> {
        Scarce {
            inner,
            before: Cell::new(before),
        }
    }
}

impl<B: Allocator> Drop for Scarce<B> {
    fn drop(self) {
        let Self {
            inner: _,
            before: _,
        } = self;
    }
}

/// Whether this request is the one to refuse.
fn refuses(before: &Cell<u64>) -> bool {
    let left = before.get();
    before.set(left.wrapping_sub(1));
    left == 0
}

/// What a release does beside releasing: nothing.
fn look(before: &Cell<u64>) {
    before.set(before.get());
}

unsafe impl<B: Allocator> Allocator for Scarce<B> {
    ghost dealloc_token = { λ heap ty ptr. B.dealloc_token heap.inner ty ptr };

    fn allocate(&self, size: usize, align: usize) -> Result<*mut u8, AllocError> {
        if refuses(&self.before) {
            return Err(AllocError);
        }
        self.inner.allocate(size, align)
    }

    unsafe fn deallocate(&self, ptr: *mut u8, size: usize, align: usize) {
        look(&self.before);
        self.inner.deallocate(ptr, size, align);
    }
}
