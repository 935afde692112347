//! Texts that lie one after the other in one vector.
//!
//! [`PackedTexts`] keeps the bytes of all its texts in one vector, and for each text the offset at
//! which it ends. The length of each text is a multiple of four bytes. So these offsets count
//! groups of four bytes, and 32 bits are enough for 16 GB of text.
//!
//! An [`OrderedTexts`] is such a list with an order of its own: the texts are not moved, and a list of
//! their positions says which comes where.
//!
//! [`row_start`] and [`row_end`] say where a row of such a vector begins and ends. The lists of
//! other crates, whose items are numbers, use them too.
//!
//! # Example
//!
//! `packed_texts` keeps texts one after the other. This is a test of the crate `test_examples`:
//!
//! ```
//! fn texts_in_one_vector(rt: HostRuntime) -> Result<(), Fail> {
//!     let mut texts = PackedTexts::new(rt.alloc());
//!     texts.push(b"four")?;
//!     texts.push(b"and more")?;
//!     assert_eq!(rt; texts.get(1), b"and more".as_slice());
//!     assert_eq!(rt; texts.bytes(), b"fourand more".as_slice());
//!     Ok(())
//! }
//! ```
#![tactic(auto)]

ghost use Rattle.std.specs.Prelude.{◌≡◌, ◌+◌, ◌-◌, ◌*◌, ◌%◌, ◌^◌, ◌<◌, ◌≤◌, ◌++◌, ◌↔◌, [], ◌∷◌, ℕ, length, get_or, take, IsTrue, IfOk, IfErr};
ghost use Rattle.std.specs.List.{concat};
ghost use Rattle.std.specs.Borrow.{Lends, Array, sem, u8};
ghost use Rattle.packed_texts.specs.PackedTexts.{part, HasSpan, written_at};
ghost use Rattle.packed_texts.specs.contracts.PackedTexts.{the_row};

mod ordered;
mod rows;

pub use ordered::OrderedTexts;
use ordered::Span;
pub use rows::{row_end, row_start};
use std::alloc::{AllocError, Allocator, Global};
use std::marker::Model;
use std_alloc::vec::run_mut;

/// Texts in one vector, with the offset at which each ends.
///
/// The length of each text is a multiple of four bytes. All texts together have less than 16 GB.
#[derive(Debug, Drop)]
pub struct PackedTexts<A: Allocator = Global> {
    // the texts, one after the other
    bytes: Vec<u8, A>,
    // for each text, the offset at which it ends, in groups of four bytes
    ends: Vec<u32, A>,
}

impl<A: Allocator> Model for PackedTexts<A> {
    ghost use Rattle.std.specs.Prelude.{List, ℕ};
    ghost use Rattle.packed_texts.specs.PackedTexts.{texts_in, in_bytes, ArePacked};

    ghost Value = { List (List ℕ) };

    ghost view = { λ p. texts_in p.bytes.items 0 (in_bytes p.ends.items) };

    ghost invariant = { λ p. ArePacked p.bytes.items p.ends.items };
}

impl<A: Allocator + Copy> PackedTexts<A> {
    /// An empty list of texts. This does not allocate.
    #[tactic(auto, using(crate::proofs::PackedLaws::no_texts, crate::proofs::PackedLaws::no_rise))]
    pub fn new(alloc: A) -> PackedTexts<A>
        ensures { result ≡ [] }
    {
        PackedTexts {
            bytes: Vec::new(alloc),
            ends: Vec::new(alloc),
        }
    }

    /// A copy of all texts.
    pub fn copy(&self, alloc: A) -> Result<PackedTexts<A>, AllocError>
        ensures { IfOk result (λ copy. copy ≡ self.now) }
    {
        let mut bytes = Vec::new(alloc);
        bytes.extend_from_slice(&self.bytes)?;
        let mut ends = Vec::new(alloc);
        ends.extend_from_slice(&self.ends)?;
        Ok(PackedTexts { bytes, ends })
    }
}

impl<A: Allocator> PackedTexts<A> {
    /// How many texts there are.
    #[tactic(auto, using(crate::proofs::PackedLaws::many_texts))]
    pub fn len(&self) -> usize
        ensures { result ≡ length self.now }
    {
        self.ends.len()
    }

    /// Whether there are no texts.
    pub fn is_empty(&self) -> bool
        ensures { IsTrue result ↔ (length self.now ≡ 0) }
    {
        self.len() == 0
    }

    /// The bytes of all texts, one after the other.
    #[tactic(auto, using(crate::proofs::PackedLaws::whole))]
    pub fn bytes(&self) -> &[u8]
        ensures value { result.now ≡ concat self.now }
        ensures short { length result.now < 2 ^ 34 }
        ensures padded { length result.now % 4 ≡ 0 }
    {
        self.bytes.as_slice()
    }

    /// The bytes of the text at a position, from 0.
    #[tactic(auto, using(crate::proofs::PackedLaws::many_texts, crate::proofs::PackedLaws::text_at, crate::proofs::PackedLaws::text_inside, crate::proofs::PackedLaws::text_forward))]
    pub fn get(&self, position: usize) -> &[u8]
        requires inside { position < length self.now }
        ensures { result.now ≡ get_or self.now position [] }
    {
        let start = 4 * row_start(&self.ends, position);
        let end = 4 * row_end(&self.ends, position);
        &self.bytes[start..end]
    }

    /// Where the text at a position lies.
    #[tactic(auto, using(crate::proofs::PackedLaws::many_texts, crate::proofs::PackedLaws::whole, crate::proofs::PackedLaws::text_at, crate::proofs::PackedLaws::text_inside, crate::proofs::PackedLaws::text_forward), unfolding(crate::specs::PackedTexts::part))]
    pub(crate) fn span(&self, position: usize) -> Span
        requires inside { position < length self.now }
        ensures has { HasSpan (concat self.now) result }
        ensures text { part (concat self.now) result ≡ get_or self.now position [] }
    {
        Span {
            start: row_start(&self.ends, position) as u32,
            end: row_end(&self.ends, position) as u32,
        }
    }

    /// The bytes of the text at a position, from 0, to be written over.
    #[tactic(auto, using(crate::proofs::PackedLaws::many_texts, crate::proofs::PackedLaws::text_at, crate::proofs::PackedLaws::text_inside, crate::proofs::PackedLaws::text_forward))]
    pub fn get_mut(&mut self, position: usize) -> &mut [u8]
        requires inside { position < length self.old }
        ensures* writes_back { sem 𝓛
            (Lends (the_row A.row A.Allocator) (Array u8 0) self.entry result
            (written_at self.old position)) }
        ensures value { result.now ≡ get_or self.old position [] }
    {
        let start = 4 * row_start(&self.ends, position);
        let end = 4 * row_end(&self.ends, position);
        run_mut(&mut self.bytes, start, end)
    }

    /// Appends a text after the others.
    ///
    /// If this runs out of memory, the texts stay as they were.
    #[tactic(auto, using(crate::proofs::PackedLaws::whole, crate::proofs::PackedLaws::texts_pushed, crate::proofs::PackedLaws::rise_pushed))]
    pub fn push(&mut self, text: &[u8]) -> Result<(), AllocError>
        requires padded { length text.now % 4 ≡ 0 }
        requires few { length (concat self.old) + length text.now < 2 ^ 34 }
        ensures ok { IfOk result (λ _. self.new ≡ self.old ++ text.now ∷ []) }
        ensures err { IfErr result (λ _. self.new ≡ self.old) }
    {
        // With the space reserved, the push after the bytes succeeds.
        self.ends.reserve(1)?;
        self.bytes.extend_from_slice(text)?;
        self.ends.push((self.bytes.len() / 4) as u32)?;
        Ok(())
    }

    /// Keeps the first `len` texts, and removes the others. This does not allocate.
    #[tactic(auto, using(crate::proofs::PackedLaws::many_texts, crate::proofs::PackedLaws::texts_cut, crate::proofs::PackedLaws::rise_cut))]
    pub fn truncate(&mut self, len: usize)
        requires inside { len ≤ length self.old }
        ensures { self.new ≡ take len self.old }
    {
        let start = 4 * row_start(&self.ends, len);
        self.bytes.truncate(start);
        self.ends.truncate(len);
    }
}
