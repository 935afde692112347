//! An allocator of which one call fails, for tests.
//!
//! A heap of a fixed size refuses each allocation from some point on. Here a single one is refused,
//! and all later ones succeed: so a test sees what a call does after it was refused memory, and
//! whether the values that it was given can still be used.
#![tactic(auto)]

ghost use Rattle.std.specs.Prelude.{◌≡◌, IfSome};

use std::alloc::{AllocError, Allocator};
use std::cell::Cell;

/// Passes each call on to another allocator. One call of `allocate` is refused, if a test asks for
/// it.
#[derive(Debug, Drop)]
pub struct FailsOnce<A> {
    inner: A,
    // the number of calls of `allocate` since the last one of `fail_at`
    calls: Cell<u64>,
    // the number of the call that is refused, counted from 0
    fails: Cell<u64>,
    // whether that call has come
    failed: Cell<bool>,
}

impl<A> FailsOnce<A> {
    /// Makes an allocator that refuses no call by itself.
    pub fn new(inner: A) -> FailsOnce<A> {
        FailsOnce {
            inner,
            calls: Cell::new(0),
            fails: Cell::new(u64::MAX),
            failed: Cell::new(false),
        }
    }

    /// From now on, refuses one call of `allocate`: the next one if `call` is 0, the one after that
    /// if it is 1, and so on.
    pub fn fail_at(&self, call: u64) {
        self.calls.set(0);
        self.fails.set(call);
        self.failed.set(false);
    }

    /// From now on, refuses no call.
    pub fn stop_failing(&self) {
        self.fails.set(u64::MAX);
    }

    /// Whether a call was refused since the last call of `fail_at`. All later ones are passed on.
    pub fn has_failed(&self) -> bool {
        self.failed.get()
    }

    /// Counts a call, and returns the other allocator if this call is passed on.
    fn lent(&self) -> Option<&A>
        ensures { IfSome result (λ inner. inner.now ≡ self.now.inner) }
    {
        let call = self.calls.get();
        self.calls.set(call.wrapping_add(1));
        if call == self.fails.get() {
            self.failed.set(true);
            None
        } else {
            Some(&self.inner)
        }
    }
}

unsafe impl<A: Allocator> Allocator for FailsOnce<A> {
    ghost dealloc_token = { λ heap ty ptr. A.dealloc_token heap.inner ty ptr };

    fn allocate(&self, size: usize, align: usize) -> Result<*mut u8, AllocError> {
        match self.lent() {
            Some(inner) => inner.allocate(size, align),
            None => Err(AllocError),
        }
    }

    unsafe fn deallocate(&self, ptr: *mut u8, size: usize, align: usize) {
        self.inner.deallocate(ptr, size, align);
    }
}
