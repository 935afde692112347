//! The set of records.

ghost use Rattle.std.specs.Prelude.{◌≡◌, ◌+◌, ◌*◌, ◌%◌, ◌^◌, ◌<◌, ◌≤◌, ◌↔◌, [], List, ℕ, length, get_or, take, IsTrue, IfOk, IfErr, IfSome, IfNone};
ghost use Rattle.std.specs.List.{concat};
ghost use Rattle.text_set.specs.TextSet.{AreDistinct, Holds, IsInterned};
ghost use Rattle.cv_leaves.specs.Named.{named_places};
ghost use Rattle.record_set.specs.RecordSet.{HasNamedPlaces};

use crate::lists::PlaceLists;
use packed_texts::PackedTexts;
use std::alloc::{AllocError, Allocator, Global};
use std::hash::BuildHasher;
use std::marker::Model;
use text_set::{Change, TextSet, Unchanged};

/// Distinct records in the order in which they arrived, each with the places at which it names
/// other records.
///
/// The length of each record is a multiple of four bytes, and at least four. Positions count from 0.
#[derive(Debug, Drop)]
pub struct RecordSet<S: BuildHasher, A: Allocator = Global> {
    records: TextSet<S, A>,
    // for each record, the places at which it names others
    places: PlaceLists<A>,
}

impl<S: BuildHasher, A: Allocator> Model for RecordSet<S, A> {
    ghost use Rattle.std.specs.Prelude.{List, ℕ};
    ghost use Rattle.record_set.specs.RecordSet.{HasNamedPlaces};

    ghost Value = { List (List ℕ) };

    ghost view = { λ s. s.records };

    ghost invariant = { λ s. HasNamedPlaces s.records s.places };
}

impl<S: BuildHasher, A: Allocator + Copy> RecordSet<S, A> {
    /// An empty set. This does not allocate.
    #[tactic(auto, using(crate::proofs::PlaceLaws::no_places))]
    pub fn with_hasher(alloc: A, hasher: S) -> RecordSet<S, A>
        ensures { result ≡ [] }
    {
        RecordSet {
            records: TextSet::with_hasher(alloc, hasher),
            places: PlaceLists::new(alloc),
        }
    }
}

impl<S: BuildHasher, A: Allocator> RecordSet<S, A> {
    /// How many records there are.
    pub fn len(&self) -> usize
        ensures value { result ≡ length self.now }
        ensures distinct { AreDistinct self.now }
        ensures few { result < 2 ^ 31 }
    {
        self.records.len()
    }

    /// Whether there are no records.
    pub fn is_empty(&self) -> bool
        ensures { IsTrue result ↔ (length self.now ≡ 0) }
    {
        self.records.is_empty()
    }

    /// The records, and for each the places at which it names others.
    pub fn parts(&self) -> (&PackedTexts<A>, &PlaceLists<A>)
        ensures records { result.0.now ≡ self.now }
        ensures places { HasNamedPlaces self.now result.1.now }
    {
        (self.records.texts(), &self.places)
    }

    /// The records, and for each the places at which it names others. The memory that serves to
    /// find a record is given back.
    pub fn into_parts(self) -> (PackedTexts<A>, PlaceLists<A>)
    where
        S: Drop,
        ensures records { result.0 ≡ self }
        ensures places { HasNamedPlaces self result.1 }
    {
        let RecordSet { records, places } = self;
        (records.into_texts(), places)
    }

    /// The bytes of all records, one after the other.
    pub fn bytes(&self) -> &[u8]
        ensures value { result.now ≡ concat self.now }
        ensures short { length result.now < 2 ^ 34 }
    {
        self.records.bytes()
    }

    /// The bytes of the record at a position, from 0.
    pub fn get(&self, position: usize) -> &[u8]
        requires inside { position < length self.now }
        ensures { result.now ≡ get_or self.now position [] }
    {
        self.records.get(position)
    }

    /// The places at which the record at a position names other records.
    #[tactic(auto, using(crate::proofs::PlaceLaws::places_each, crate::proofs::PlaceLaws::places_at))]
    pub fn places(&self, position: usize) -> &[u16]
        requires inside { position < length self.now }
        ensures { result.now ≡ named_places (get_or self.now position []) }
    {
        self.places.get(position)
    }

    /// The position of this record. The record is appended if it isn't there.
    ///
    /// `places` has the places at which it names other records. If this runs out of memory, the
    /// records stay as they were.
    pub fn intern(&mut self, bytes: &[u8], places: &[u16]) -> Result<usize, AllocError>
        requires padded { length bytes.now % 4 ≡ 0 }
        requires long { 4 ≤ length bytes.now }
        requires few { length (concat self.old) + length bytes.now < 2 ^ 33 }
        requires listed { places.now ≡ named_places bytes.now }
        requires short { 4 * length places.now ≤ length bytes.now }
        ensures at { IfOk result (λ k. (k < length self.new) × (get_or self.new k [] ≡ bytes.now)) }
        ensures holds { IfOk result (λ _. Holds self.old self.new bytes.now) }
        ensures err { IfErr result (λ _. self.new ≡ self.old) }
        ensures small { length self.new < 2 ^ 31 }
    {
        let Some(position) = self.intern_changed(bytes, places, &Unchanged)? else {
            unreachable!();
        };
        Ok(position)
    }

    /// The position of what a change makes of this record, which is appended if it isn't there.
    /// `None` where the change makes nothing of the record.
    ///
    /// `places` has the places at which what is made names other records. The record is changed
    /// where it will stand. Unless a position is returned, the records stay as they were.
    #[inline(always)]
    pub fn intern_changed<C: Change>(
        &mut self,
        bytes: &[u8],
        places: &[u16],
        change: &C,
    ) -> Result<Option<usize>, AllocError>
        requires takes { C.takes change.now bytes.now }
        requires padded { length bytes.now % 4 ≡ 0 }
        requires long { 4 ≤ length bytes.now }
        requires few { length (concat self.old) + length bytes.now < 2 ^ 33 }
        requires listed { (text : List ℕ) → C.makes change.now bytes.now text →
            places.now ≡ named_places text }
        requires short { 4 * length places.now ≤ length bytes.now }
        ensures found { IfOk result (λ found.
            IfSome found (IsInterned (C.makes change.now bytes.now) self.old self.new)) }
        ensures none { IfOk result (λ found.
            IfNone found (C.refuses change.now bytes.now × (self.new ≡ self.old))) }
        ensures err { IfErr result (λ _. self.new ≡ self.old) }
        ensures small { length self.new < 2 ^ 31 }
    {
        let Some(position) = self.records.intern_changed(bytes, change)? else {
            return Ok(None);
        };
        // A new record is the last one, and has no list yet.
        if position == self.places.len() {
            if let Err(fault) = self.places.push(places) {
                self.records.truncate(position);
                return Err(fault);
            }
        }
        Ok(Some(position))
    }

    /// Keeps the first `len` records, and removes the others. This does not allocate.
    #[tactic(auto, using(crate::proofs::PlaceLaws::places_each, crate::proofs::PlaceLaws::places_first))]
    pub fn truncate(&mut self, len: usize)
        requires inside { len ≤ length self.old }
        ensures { self.new ≡ take len self.old }
    {
        self.records.truncate(len);
        self.places.truncate(len);
    }
}
