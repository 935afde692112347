//! A sink with little room.

ghost use Rattle.std.specs.Prelude.{None};

use byte_io::Sink;
use std::alloc::Global;

/// Takes at most `step` bytes a call and `room` bytes in all. A call that takes nothing breaks it.
/// From then on it takes bytes again, so a test sees if anything is put into a broken sink.
///
/// A test sees the bytes that it took. Clauses do not.
#[derive(Debug, Drop)]
pub struct Narrow {
    pub taken: Vec<u8>,
    pub step: usize,
    pub room: usize,
    pub broken: bool,
}

impl Narrow {
    /// A sink that has taken nothing yet.
    pub fn new(alloc: Global, step: usize, room: usize) -> Narrow {
        Narrow {
            taken: Vec::new(alloc),
            step,
            room,
            broken: false,
        }
    }
}

impl Sink for Narrow {
    ghost taken = { λ _. None };

    ghost is_broken = { λ s. s.broken };

    fn put(&mut self, bytes: &[u8]) -> usize {
        let room = if self.broken { usize::MAX } else { self.room };
        let count = bytes.len().min(room).min(self.step);
        if self.taken.extend_from_slice(&bytes[..count]).is_err() || count == 0 {
            self.broken = true;
            return 0;
        }
        self.room = self.room.saturating_sub(count);
        count
    }
}
