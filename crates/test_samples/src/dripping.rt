//! A source that gives little.

ghost use Rattle.std.specs.Prelude.{None};

use byte_io::Source;

/// Gives at most `step` bytes a call, and counts the calls. After its last byte it ends, or it fails
/// where `fails` is true.
///
/// Clauses do not see its bytes.
#[derive(Debug, Drop)]
pub struct Dripping<'a> {
    pub bytes: &'a [u8],
    pub step: usize,
    pub calls: usize,
    pub fails: bool,
}

impl Source for Dripping<'_> {
    ghost left = { λ _. None };

    ghost is_broken = { λ s. s.fails };

    fn fetch(&mut self, into: &mut [u8]) -> Option<usize> {
        self.calls = self.calls.saturating_add(1);
        if self.bytes.is_empty() && self.fails {
            return None;
        }
        let count = into.len().min(self.bytes.len()).min(self.step);
        let (given, left) = self.bytes.split_at(count);
        into[..count].copy_from_slice(given);
        self.bytes = left;
        Some(count)
    }
}
