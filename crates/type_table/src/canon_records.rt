//! The iterator over the records of a canonical list.

ghost use Rattle.std.specs.Prelude.{◌≡◌};
ghost use Rattle.std.specs.Iterator.{YieldsFirstRef, item_count};

use crate::canon::Canon;
use std::alloc::{Allocator, Global};
use std::marker::Model;

/// An iterator over the records of a canonical list, each whole.
///
/// [`Canon::records`] makes it. It borrows the list and does not allocate.
#[derive(Debug, Drop)]
pub struct CanonRecords<'a, A: Allocator = Global> {
    canon: &'a Canon<A>,
    position: usize,
}

impl<'a, A: Allocator> Model for CanonRecords<'a, A> {
    ghost use Rattle.std.specs.Prelude.{List, ℕ, drop};

    ghost Value = { List (List ℕ) };

    ghost view = { λ i. drop i.position i.canon.now };
}

impl<'a, A: Allocator> CanonRecords<'a, A> {
    /// All records, from position 0 on.
    pub(crate) fn new(canon: &'a Canon<A>) -> CanonRecords<'a, A>
        ensures { result ≡ canon.now }
    {
        CanonRecords { canon, position: 0 }
    }
}

impl<'a, A: Allocator> Iterator for CanonRecords<'a, A> {
    type Item = &'a [u8];

    ghost next_gives = { YieldsFirstRef (λ s. s) };

    ghost remaining = { item_count (λ s. s) };

    #[tactic(auto, using(crate::proofs::CanonTableLaws::drop_first, std::proofs::lemmas::List::drop_all))]
    fn next(&mut self) -> Option<&'a [u8]> {
        if self.canon.len() <= self.position {
            return None;
        }
        let record = self.canon.get(self.position)?;
        self.position += 1;
        Some(record)
    }
}
