//! Lists of places, one after the other in one vector.

ghost use Rattle.std.specs.Prelude.{◌≡◌, ◌↔◌, IsTrue, ◌+◌, ◌^◌, ◌<◌, ◌≤◌, ◌++◌, [], ◌∷◌, length, get_or, take, IfOk, IfErr};
ghost use Rattle.std.specs.List.{concat};

use packed_texts::{row_end, row_start};
use std::alloc::{AllocError, Allocator, Global};
use std::marker::Model;

/// Lists of places of records. All lists together have fewer than 2^32 places.
#[derive(Debug, Drop)]
pub struct PlaceLists<A: Allocator = Global> {
    // the places of each list, one list after the other
    places: Vec<u16, A>,
    // for each list, how many places there are up to its end
    ends: Vec<u32, A>,
}

impl<A: Allocator> Model for PlaceLists<A> {
    ghost use Rattle.std.specs.Prelude.{List, ℕ, ◌<◌, ◌^◌, length};
    ghost use Rattle.packed_texts.specs.PackedTexts.{texts_in, Rise};

    ghost Value = { List (List ℕ) };

    ghost view = { λ l. texts_in l.places.items 0 l.ends.items };

    ghost invariant = { λ l.
        Rise 0 l.ends.items (length l.places.items) × (length l.places.items < 2 ^ 32) };
}

impl<A: Allocator + Copy> PlaceLists<A> {
    /// No lists. This does not allocate.
    #[tactic(auto, using(packed_texts::proofs::RowLaws::no_rows))]
    pub fn new(alloc: A) -> PlaceLists<A>
        ensures { result ≡ [] }
    {
        PlaceLists {
            places: Vec::new(alloc),
            ends: Vec::new(alloc),
        }
    }
}

impl<A: Allocator> PlaceLists<A> {
    /// How many lists there are.
    #[tactic(auto, using(packed_texts::proofs::PackedLaws::length_of_texts))]
    pub fn len(&self) -> usize
        ensures { result ≡ length self.now }
    {
        self.ends.len()
    }

    /// Whether there are no lists.
    pub fn is_empty(&self) -> bool
        ensures { IsTrue result ↔ (length self.now ≡ 0) }
    {
        self.len() == 0
    }

    /// The list at a position, from 0.
    #[tactic(auto, using(packed_texts::proofs::PackedLaws::length_of_texts, packed_texts::proofs::RowLaws::row_at, packed_texts::proofs::RowLaws::row_inside, packed_texts::proofs::RowLaws::row_forward))]
    pub fn get(&self, position: usize) -> &[u16]
        requires inside { position < length self.now }
        ensures { result.now ≡ get_or self.now position [] }
    {
        let start = row_start(&self.ends, position);
        let end = row_end(&self.ends, position);
        &self.places[start..end]
    }

    /// Appends a list after the others.
    ///
    /// If this runs out of memory, the lists stay as they were.
    #[tactic(auto, using(packed_texts::proofs::PackedLaws::whole, packed_texts::proofs::PackedLaws::length_of_texts, packed_texts::proofs::RowLaws::row_pushed, packed_texts::proofs::RowLaws::rise_pushed))]
    pub fn push(&mut self, list: &[u16]) -> Result<(), AllocError>
        requires few { length (concat self.old) + length list.now < 2 ^ 32 }
        ensures ok { IfOk result (λ _. self.new ≡ self.old ++ list.now ∷ []) }
        ensures err { IfErr result (λ _. self.new ≡ self.old) }
    {
        // With the space reserved, the push after the places succeeds.
        self.ends.reserve(1)?;
        self.places.extend_from_slice(list)?;
        self.ends.push(self.places.len() as u32)?;
        Ok(())
    }

    /// Keeps the first `len` lists, and removes the others. This does not allocate.
    #[tactic(auto, using(packed_texts::proofs::PackedLaws::length_of_texts, packed_texts::proofs::RowLaws::rows_cut, packed_texts::proofs::RowLaws::rise_left))]
    pub fn truncate(&mut self, len: usize)
        requires inside { len ≤ length self.old }
        ensures { self.new ≡ take len self.old }
    {
        let start = row_start(&self.ends, len);
        self.places.truncate(start);
        self.ends.truncate(len);
    }
}
