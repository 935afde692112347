//! How many of the inputs were read.

ghost use Rattle.std.specs.Prelude.{◌≡◌};

use std::cell::Cell;
use std::fmt;
use std::io::Eprint;
use std::time::{Clock, Duration, Instant};

/// How long nothing more is told, in milliseconds.
const PAUSE: u64 = 100;

/// Tells on standard error how many of the inputs were read, at most ten times a second.
#[derive(Drop)]
pub struct Progress<'a, R> {
    rt: &'a R,
    count: usize,
    told: Cell<Option<Instant>>,
}

impl<R> fmt::Debug for Progress<'_, R> {
    fn fmt<W: fmt::Write>(&self, f: &mut fmt::Formatter<W>) -> fmt::Result {
        f.debug_struct("Progress")
            .field("count", &self.count)
            .finish_non_exhaustive()
    }
}

impl<'a, R: Clock + Eprint> Progress<'a, R> {
    /// Nothing of this many inputs was told yet.
    pub fn new(rt: &'a R, count: usize) -> Progress<'a, R>
        ensures { result.count ≡ count }
    {
        Progress {
            rt,
            count,
            told: Cell::new(None),
        }
    }

    /// Tells that this many inputs were read, unless that was told less than a tenth of a second
    /// ago. Where there is no clock, or nothing can be told, the merge goes on.
    pub fn tell(&self, read: usize) {
        let Ok(now) = Instant::now(self.rt) else {
            return;
        };
        let pause = Duration::from_millis(PAUSE);
        if let Some(told) = self.told.get() {
            if now.duration_since(told) < pause {
                return;
            }
        }
        self.told.set(Some(now));
        let _ = eprintln!(self.rt; "read {read} of {}", self.count);
    }

    /// Tells that all inputs were read.
    pub fn end(&self) {
        let _ = eprintln!(self.rt; "read {} of {}", self.count, self.count);
    }
}
