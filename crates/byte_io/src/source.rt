//! A source, which gives bytes.

ghost use Rattle.std.specs.Prelude.{◌≡◌, ◌<◌, ◌≤◌, ℕ, List, Option, Bool, true, false, length, take, IfSome, IfNone};
ghost use Rattle.std.specs.Io.KnownBytes.{Consumes, IsAtEnd};

use std::io::Read;

/// Gives bytes. Each call gives some of the next bytes.
///
/// All reading goes through this trait. A source that fails stays broken. Where the remaining bytes
/// of a reader are not known, they are `None`, and contracts then claim nothing about them.
pub trait Source {
    /// The bytes that are still to come, where they are known.
    ghost left: { Self → Option (List ℕ) };

    /// Whether a read failed.
    ghost is_broken: { Self → Bool };

    /// Fills the front of a slice with the next bytes, and returns how many. For a nonempty slice,
    /// 0 means that there are no more bytes, and `None` means that the source is broken.
    fn fetch(&mut self, into: &mut [u8]) -> Option<usize>
        ensures bound { IfSome result (λ n. n ≤ length into.new) }
        ensures gives { IfSome result (λ n.
            Consumes (left self.old) (left self.new) (take n into.new)) }
        ensures end { IfSome result (λ n. 0 < length into.new → n ≡ 0 → IsAtEnd (left self.new)) }
        ensures whole { IfSome result (λ _. is_broken self.new ≡ is_broken self.old) }
        ensures refuses { IfNone result (0 < length into.new → is_broken self.new ≡ true) }
        ensures stays { is_broken self.old ≡ true → is_broken self.new ≡ true };
}

/// The source of a reader. Each `fetch` is one call of `read`, and an error of `read` gives `None`.
#[derive(Debug, Drop)]
pub struct In<R> {
    reader: R,
    broken: bool,
}

impl<R: Read> Source for In<R> {
    ghost left = { λ s. R.remaining s.reader };

    ghost is_broken = { λ s. s.broken };

    fn fetch(&mut self, into: &mut [u8]) -> Option<usize> {
        match self.reader.read(into) {
            Ok(count) => Some(count),
            Err(_) => {
                self.broken = true;
                None
            }
        }
    }
}

impl<R: Read> In<R> {
    /// Makes a source of a reader. The source is not broken, and its bytes are those that the
    /// reader still has.
    pub fn new(reader: R) -> In<R>
        ensures left { ⟦<In<R> as Source>⟧.left result ≡ R.remaining reader }
        ensures whole { ⟦<In<R> as Source>⟧.is_broken result ≡ false }
    {
        In {
            reader,
            broken: false,
        }
    }
}
