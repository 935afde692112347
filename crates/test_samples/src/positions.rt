//! A file that is read by position.

ghost use Rattle.std.specs.Prelude.{length};
ghost use Rattle.byte_io.specs.At.{unknown};

use crate::file::put;
use byte_io::{Lend, ReadAt};

/// A file of which one read fails, and all others give its bytes. Clauses do not see them.
#[derive(Debug, Drop)]
pub struct Positions<'a> {
    pub bytes: &'a [u8],
    // the number of the read that fails, counted from 0, and how many reads there were
    pub fails_at: usize,
    pub reads: usize,
    pub broken: bool,
}

impl<'a> Positions<'a> {
    /// A file of which the read with this number fails.
    pub fn new(bytes: &'a [u8], fails_at: usize) -> Positions<'a> {
        Positions {
            bytes,
            fails_at,
            reads: 0,
            broken: false,
        }
    }

    /// The bytes from an offset on, if the file has so many.
    fn bytes_at(&self, offset: u64, count: usize) -> Option<&'a [u8]> {
        let start = usize::try_from(offset).ok()?;
        self.bytes.get(start..start.checked_add(count)?)
    }
}

impl ReadAt for Positions<'_> {
    ghost bytes = { λ s. unknown (length s.bytes.now) };

    ghost is_broken = { λ s. s.broken };

    fn len(&self) -> u64 {
        self.bytes.len() as u64
    }

    fn read_at(&mut self, offset: u64, into: &mut [u8]) -> Option<()> {
        let fails = self.reads == self.fails_at;
        self.reads = self.reads.saturating_add(1);
        match self.bytes_at(offset, into.len()) {
            Some(part) if !fails => {
                put(into, 0, part);
                Some(())
            }
            _ => {
                self.broken = true;
                None
            }
        }
    }
}

impl<'a> Lend<'a> for Positions<'_> {
    fn part(&self, _offset: u64, _len: u32) -> Option<&'a [u8]> {
        None
    }
}
