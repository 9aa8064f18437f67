//! Memory that refuses.
use std::alloc::{AllocError, Allocator};
use std::cell::Cell;

/// Serves `left` requests for a block of memory, and refuses each later one. The number left is in
/// a cell, which no contract sees.
#[derive(Drop)]
pub struct RefuseMemory<A> {
    inner: A,
    left: Cell<u32>,
}

impl<A: Allocator> RefuseMemory<A> {
    /// Returns memory that passes on `left` requests for a block.
    pub fn new(inner: A, left: u32) -> RefuseMemory<A> {
        RefuseMemory {
            inner,
            left: Cell::new(left),
        }
    }
}

/// Counts a request down, and returns true if it is served.
fn serves(left: &Cell<u32>) -> bool {
    match left.get().checked_sub(1) {
        Some(fewer) => {
            left.set(fewer);
            true
        }
        None => false,
    }
}

unsafe impl<A: Allocator> Allocator for RefuseMemory<A> {
    ghost dealloc_token = { λ memory ty ptr. A.dealloc_token memory.inner ty ptr };

    fn allocate(&self, size: usize, align: usize) -> Result<*mut u8, AllocError> {
        if serves(&self.left) {
            return self.inner.allocate(size, align);
        }
        Err(AllocError)
    }

    unsafe fn deallocate(&self, ptr: *mut u8, size: usize, align: usize) {
        self.inner.deallocate(ptr, size, align);
    }
}
