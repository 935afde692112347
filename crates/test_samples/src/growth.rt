//! Tries in which memory is refused.

use linked_list_allocator::LocalHeap;
use std::alloc::{AllocError, Global};
use std::test::Fail;
use test_heap::FailsOnce;

/// A heap of a fixed size. One of its allocations may fail although there is space.
pub type TestHeap = FailsOnce<LocalHeap>;

/// How memory is refused while a call is tried.
#[derive(Clone, Copy, Debug)]
pub enum Refusal {
    /// So many bytes of the heap are taken, until the filler is dropped.
    Taken(usize),
    /// The allocation with this number fails, counted from 0, and all others succeed.
    Once(u64),
}

impl Refusal {
    /// Begins to refuse memory in this way. Returns the filler that takes up the heap.
    pub fn begin<'a>(&self, heap: &'a TestHeap) -> Result<Vec<u8, &'a TestHeap>, AllocError> {
        match *self {
            Refusal::Taken(bytes) => Vec::with_capacity(heap, bytes),
            Refusal::Once(number) => {
                heap.fail_at(number);
                Ok(Vec::new(heap))
            }
        }
    }
}

/// A series of tries, each with another way to refuse memory.
#[derive(Drop)]
struct Tries {
    // the size of each heap, and how many more bytes each try of the first kind gets, in bytes
    size: usize,
    step: usize,
    // how many bytes the next try gets, until that is more than the size
    left: usize,
    // the number of the allocation that fails in the next try after those
    call: u64,
    // how many tries of each kind were made, and how many were refused memory
    small: usize,
    small_refused: usize,
    failed_refused: usize,
}

impl Tries {
    fn new(size: usize, step: usize) -> Tries {
        Tries {
            size,
            step,
            left: 0,
            call: 0,
            small: 0,
            small_refused: 0,
            failed_refused: 0,
        }
    }

    /// How the next try is refused memory.
    fn refusal(&self) -> Refusal {
        match self.size.checked_sub(self.left) {
            Some(taken) => Refusal::Taken(taken),
            None => Refusal::Once(self.call),
        }
    }

    /// Counts a try on this heap. Returns whether another one follows.
    fn count(&mut self, heap: &TestHeap, was_refused: bool) -> bool {
        if self.left <= self.size {
            self.small = self.small.saturating_add(1);
            self.small_refused = self.small_refused.saturating_add(was_refused as usize);
            self.left = self.left.saturating_add(self.step);
            return true;
        }
        self.failed_refused = self.failed_refused.saturating_add(was_refused as usize);
        // One after the other at first, and then further apart, so that many allocations need few
        // tries.
        self.call = self.call.saturating_add(1 + self.call / 32);
        heap.has_failed()
    }

    /// How many tries of the first kind were refused memory. It is a failure if no try of a kind
    /// was refused, or if all tries of the first kind were.
    fn refused(&self) -> Result<usize, Fail> {
        if self.small_refused == 0 || self.failed_refused == 0 {
            return Err("no try was refused memory".into());
        }
        if self.small_refused == self.small {
            return Err("each try was refused memory".into());
        }
        Ok(self.small_refused)
    }
}

/// A heap of `size` bytes.
fn heap_of(alloc: Global, size: usize) -> Result<TestHeap, AllocError> {
    Ok(TestHeap::new(LocalHeap::new(alloc, size)?))
}

/// Makes tries on heaps of `size` bytes, a multiple of 16. First 0, `step`, 2 * `step` and so on are
/// left for the try, up to the whole heap. Then the first allocation fails and all later ones
/// succeed, then the second fails, and so on, up to a try that makes no more allocations; after the
/// first 32 only some of them fail in turn. Returns how many tries of the first kind were refused
/// memory.
///
/// `refuses` makes one try on an empty heap. It begins the refusal itself, and says whether the call
/// was refused memory. It is a failure if no try of a kind was refused, or if all tries of the first
/// kind were.
pub fn refusals_amid<F: FnMut(&TestHeap, Refusal) -> Result<bool, Fail>>(
    alloc: Global,
    size: usize,
    step: usize,
    mut refuses: F,
) -> Result<usize, Fail>
    requires { F.IsAlwaysCallable refuses }
{
    let mut tries = Tries::new(size, step);
    for _ in 0..usize::MAX {
        let heap = heap_of(alloc, size)?;
        let was_refused = refuses(&heap, tries.refusal())?;
        if !tries.count(&heap, was_refused) {
            break;
        }
    }
    tries.refused()
}

/// Makes tries as [`refusals_amid`] does, on heaps of `step * heaps` bytes. Memory is refused from
/// the start of each try to its end.
pub fn refusals<F: FnMut(&TestHeap) -> Result<bool, Fail>>(
    alloc: Global,
    step: usize,
    heaps: usize,
    mut refuses: F,
) -> Result<usize, Fail>
    requires { F.IsAlwaysCallable refuses }
{
    let size = step.saturating_mul(heaps);
    let mut tries = Tries::new(size, step);
    for _ in 0..usize::MAX {
        let heap = heap_of(alloc, size)?;
        let filler = tries.refusal().begin(&heap)?;
        let was_refused = refuses(&heap)?;
        drop(filler);
        if !tries.count(&heap, was_refused) {
            break;
        }
    }
    tries.refused()
}
