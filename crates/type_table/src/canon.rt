//! Canonical lists of types.

ghost use Rattle.std.specs.Prelude.{◌≡◌, ◌⊎◌, ◌↔◌, ◌<◌, ◌≤◌, [], IsTrue, ℕ, List, length, option_map, slice_get, IfOk, IfErr, IfSome};
ghost use Rattle.std.specs.List.{concat};
ghost use Rattle.tpi_records.specs.Records.{IsRecord};
ghost use Rattle.cv_leaves.specs.Place.{IsChecked};
ghost use Rattle.type_trees.specs.Tree.{Tree, IsType};
ghost use Rattle.type_trees.specs.Canon.{weight};
ghost use Rattle.type_trees.specs.Table.{IsUnion};
ghost use Rattle.canonical_list.specs.Finish.{IsCanon, IsCanonOf};

use crate::canon_records::CanonRecords;
use crate::fault::JoinFault;
use crate::table::Table;
use checked_types::Types;
use packed_texts::OrderedTexts;
use std::alloc::{Allocator, Global};
use std::hash::{BuildHasherDefault, FoldHasher};
use std::marker::Model;

/// The canonical list of a set of types.
///
/// It has each type once. The types are in the order of their depths, and those of one depth are in
/// the order of the bytes of their records. The record at position i has the type index
/// `0x1000 + i`, and the records name each other by these type indices. So each record names only
/// earlier records, and equal sets have equal lists. The records lie in one vector, in any order,
/// and have fewer than 2^32 bytes together.
#[derive(Debug, Drop)]
pub struct Canon<A: Allocator = Global> {
    pub(crate) texts: OrderedTexts<A>,
}

impl<A: Allocator> Model for Canon<A> {
    ghost use Rattle.std.specs.Prelude.{List, ℕ};
    ghost use Rattle.canonical_list.specs.Finish.{IsCanon};

    ghost Value = { List (List ℕ) };

    ghost view = { λ c. c.texts };

    ghost invariant = { λ c. IsCanon c.texts };
}

impl<A: Allocator + Copy> Canon<A> {
    /// The canonical list of no types. This does not allocate.
    #[tactic(auto, using(crate::proofs::CanonTableLaws::no_canon))]
    pub fn empty(alloc: A) -> Canon<A>
        ensures { result ≡ [] }
    {
        Canon {
            texts: OrderedTexts::empty(alloc),
        }
    }

    /// Makes the canonical list of the types of this list and of `types`.
    ///
    /// The faults:
    ///
    /// - `TooLarge`: the records of the union have more than `limit` bytes together, with their
    ///   length fields. Each type counts once.
    /// - `Memory`: out of memory. This may come before or after `TooLarge` is checked.
    ///
    /// This list stays as it is in any case. The new list is allocated. While it is made, a table
    /// of the union is allocated too.
    pub fn join(&self, alloc: A, types: &Types<'_, A>, limit: u32) -> Result<Canon<A>, JoinFault>
        ensures value { IfOk result (λ canon.
            IsCanonOf canon (λ t. IsType self.now t ⊎ IsType types.now t)) }
        ensures within { IfOk result (λ canon. length (concat canon) ≤ limit) }
        // The union is larger than the limit, and has this many bytes.
        ensures large { IfErr result (λ fault.
            (bytes : ℕ) → fault ≡ JoinFault.TooLarge bytes →
            (limit < bytes)
            × ((l : List Tree) × IsUnion l self.now types.now × (weight l ≡ bytes))) }
    {
        let hasher: BuildHasherDefault<FoldHasher> = BuildHasherDefault::new();
        let mut table = Table::from_canon(alloc, hasher, self)?;
        table.add(alloc, types, limit)?;
        let canon = table.finish(alloc)?;
        Ok(canon)
    }
}

impl<A: Allocator> Canon<A> {
    /// How many types there are. This does not allocate.
    pub fn len(&self) -> usize
        ensures value { result ≡ length self.now }
        ensures canon { IsCanon self.now }
    {
        self.texts.len()
    }

    /// Whether there are no types.
    pub fn is_empty(&self) -> bool
        ensures { IsTrue result ↔ (length self.now ≡ 0) }
    {
        self.texts.len() == 0
    }

    /// The bytes of the record at a position, from 0. `None` where there is no such position.
    ///
    /// The record is whole: it begins with its length field, which says how long it is.
    /// [`cv_leaves::check`] accepts it.
    #[tactic(auto, using(crate::proofs::CanonTableLaws::there))]
    pub fn get(&self, position: usize) -> Option<&[u8]>
        ensures value { option_map (λ r. r.now) result ≡ slice_get self.now position }
        ensures framed { IfSome result (λ r. IsRecord r.now) }
        ensures checked { IfSome result (λ r. IsChecked r.now) }
    {
        if position < self.texts.len() {
            return Some(self.texts.get(position));
        }
        None
    }

    /// The records in order, each whole: it begins with its length field. This does not allocate.
    pub fn records(&self) -> CanonRecords<'_, A>
        ensures { result ≡ self.now }
    {
        CanonRecords::new(self)
    }

    /// The records in order, as texts.
    pub fn texts(&self) -> &OrderedTexts<A>
        ensures { result.now ≡ self.now }
    {
        &self.texts
    }

    /// How many bytes the records have together, with their length fields.
    #[tactic(auto, using(crate::proofs::CanonTableLaws::canon_short))]
    pub fn bytes_len(&self) -> u32
        ensures { result ≡ length (concat self.now) }
    {
        self.texts.bytes_len() as u32
    }
}

impl<'a, A: Allocator> IntoIterator for &'a Canon<A> {
    type Item = &'a [u8];

    type IntoIter = CanonRecords<'a, A>;

    ghost into_iter_gives = { λ canon iter. iter ≡ canon.now };

    fn into_iter(self) -> CanonRecords<'a, A> {
        self.records()
    }
}
