//! The set of texts.

ghost use Rattle.std.specs.Prelude.{◌≡◌, ◌+◌, ◌%◌, ◌^◌, ◌<◌, ◌≤◌, ◌↔◌, [], length, get_or, take, IsTrue, IfOk, IfErr, IfSome, IfNone};
ghost use Rattle.std.specs.List.{concat};
ghost use Rattle.text_set.specs.TextSet.{AreDistinct, Holds, IsInterned};

use crate::change::{Change, Unchanged};
use crate::find::Keys;
use crate::place::place_last;
use indexmap::IndexSet;
use packed_texts::PackedTexts;
use std::alloc::{AllocError, Allocator, Global};
use std::hash::BuildHasher;
use std::marker::Model;

/// Distinct texts, in the order in which they arrived.
///
/// The length of each text is a multiple of four bytes, and at least four. Positions count from 0.
#[derive(Debug, Drop)]
pub struct TextSet<S: BuildHasher, A: Allocator = Global> {
    texts: PackedTexts<A>,
    keys: Keys<A>,
    hasher: S,
}

impl<S: BuildHasher, A: Allocator> Model for TextSet<S, A> {
    ghost use Rattle.std.specs.Prelude.{List, ℕ, ◌/◌, ◌^◌};
    ghost use Rattle.text_set.specs.TextKeys.{HaveKeys};
    ghost use Rattle.text_set.specs.TextSet.{AreDistinct};

    ghost Value = { List (List ℕ) };

    ghost view = { λ t. t.texts };

    ghost invariant = { λ t.
        AreDistinct t.texts
        × HaveKeys (λ x. S.Hasher.finish (S.Hasher.write (S.build_hasher t.hasher) x) / 2 ^ 32)
        t.texts t.keys.keys };
}

impl<S: BuildHasher, A: Allocator + Copy> TextSet<S, A> {
    /// An empty set. This does not allocate.
    pub fn with_hasher(alloc: A, hasher: S) -> TextSet<S, A>
        ensures { result ≡ [] }
    {
        TextSet {
            texts: PackedTexts::new(alloc),
            keys: IndexSet::new(alloc),
            hasher,
        }
    }
}

impl<S: BuildHasher, A: Allocator> TextSet<S, A> {
    /// How many texts there are.
    pub fn len(&self) -> usize
        ensures value { result ≡ length self.now }
        ensures distinct { AreDistinct self.now }
        ensures few { result < 2 ^ 31 }
    {
        self.texts.len()
    }

    /// Whether there are no texts.
    pub fn is_empty(&self) -> bool
        ensures { IsTrue result ↔ (length self.now ≡ 0) }
    {
        self.texts.is_empty()
    }

    /// The texts.
    pub fn texts(&self) -> &PackedTexts<A>
        ensures { result.now ≡ self.now }
    {
        &self.texts
    }

    /// The texts alone. The memory that serves to find one is given back.
    pub fn into_texts(self) -> PackedTexts<A>
    where
        S: Drop,
        ensures { result ≡ self }
    {
        let TextSet {
            texts,
            keys: _,
            hasher: _,
        } = self;
        texts
    }

    /// The bytes of all texts, one after the other.
    pub fn bytes(&self) -> &[u8]
        ensures value { result.now ≡ concat self.now }
        ensures short { length result.now < 2 ^ 34 }
    {
        self.texts.bytes()
    }

    /// The bytes of the text at a position, from 0.
    pub fn get(&self, position: usize) -> &[u8]
        requires inside { position < length self.now }
        ensures { result.now ≡ get_or self.now position [] }
    {
        self.texts.get(position)
    }

    /// The position of this text. The text is appended if it isn't there.
    ///
    /// If this runs out of memory, the texts stay as they were.
    pub fn intern(&mut self, text: &[u8]) -> Result<usize, AllocError>
        requires padded { length text.now % 4 ≡ 0 }
        requires long { 4 ≤ length text.now }
        requires few { length (concat self.old) + length text.now < 2 ^ 33 }
        ensures at { IfOk result (λ k. (k < length self.new) × (get_or self.new k [] ≡ text.now)) }
        ensures holds { IfOk result (λ _. Holds self.old self.new text.now) }
        ensures err { IfErr result (λ _. self.new ≡ self.old) }
        ensures small { length self.new < 2 ^ 31 }
    {
        let Some(position) = self.intern_changed(text, &Unchanged)? else {
            unreachable!();
        };
        Ok(position)
    }

    /// The position of what a change makes of this text, which is appended if it isn't there.
    /// `None` where the change makes nothing of the text.
    ///
    /// The text is changed where it will stand. Unless a position is returned, the texts stay as
    /// they were.
    #[inline(always)]
    pub fn intern_changed<C: Change>(
        &mut self,
        text: &[u8],
        change: &C,
    ) -> Result<Option<usize>, AllocError>
        requires takes { C.takes change.now text.now }
        requires padded { length text.now % 4 ≡ 0 }
        requires long { 4 ≤ length text.now }
        requires few { length (concat self.old) + length text.now < 2 ^ 33 }
        ensures found { IfOk result (λ found.
            IfSome found (IsInterned (C.makes change.now text.now) self.old self.new)) }
        ensures same { IfOk result (λ found.
            IfSome found (λ k. length (get_or self.new k []) ≡ length text.now)) }
        ensures none { IfOk result (λ found.
            IfNone found (C.refuses change.now text.now × (self.new ≡ self.old))) }
        ensures err { IfErr result (λ _. self.new ≡ self.old) }
        ensures small { length self.new < 2 ^ 31 }
    {
        let last = self.texts.len();
        // If memory is refused here, nothing has changed.
        self.texts.push(text)?;
        // If it is refused here, the text gets no key.
        let found = place_last(&mut self.texts, &mut self.keys, &self.hasher, last, change);
        // A text that got no key is cut off again.
        self.texts.truncate(self.keys.len());
        found
    }

    /// Keeps the first `len` texts, and removes the others. This does not allocate.
    #[tactic(auto, using(crate::proofs::TextSetLaws::distinct_first, crate::proofs::TextKeyLaws::keys_first))]
    pub fn truncate(&mut self, len: usize)
        requires inside { len ≤ length self.old }
        ensures { self.new ≡ take len self.old }
    {
        self.texts.truncate(len);
        self.keys.truncate(len);
    }
}
