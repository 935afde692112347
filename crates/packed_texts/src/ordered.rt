//! Texts in an order of their own.

ghost use Rattle.std.specs.Prelude.{◌≡◌, ◌^◌, ◌<◌, ◌↔◌, [], IsTrue, IfOk, length, get_or};
ghost use Rattle.std.specs.List.{concat};
ghost use Rattle.packed_texts.specs.PackedTexts.{texts_at, IsOrder};

use crate::PackedTexts;
use std::alloc::{AllocError, Allocator, Global};
use std::marker::Model;

/// Where a text lies, in groups of four bytes.
#[derive(Debug, Clone, Copy)]
pub(crate) struct Span {
    pub(crate) start: u32,
    pub(crate) end: u32,
}

/// Packed texts in an order of their own. They have as many bytes in this order as they have where
/// they lie.
#[derive(Debug, Drop)]
pub struct OrderedTexts<A: Allocator = Global> {
    texts: PackedTexts<A>,
    // where the text lies that comes first, then the next one, and so on
    spans: Vec<Span, A>,
}

impl<A: Allocator> Model for OrderedTexts<A> {
    ghost use Rattle.std.specs.Prelude.{List, ℕ};
    ghost use Rattle.std.specs.List.{concat};
    ghost use Rattle.packed_texts.specs.PackedTexts.{parts, AreSpans};

    ghost Value = { List (List ℕ) };

    ghost view = { λ t. parts (concat t.texts) t.spans.items };

    ghost invariant = { λ t. AreSpans (concat t.texts) t.spans.items };
}

impl<A: Allocator + Copy> OrderedTexts<A> {
    /// No texts. This does not allocate.
    pub fn empty(alloc: A) -> OrderedTexts<A>
        ensures { result ≡ [] }
    {
        OrderedTexts {
            texts: PackedTexts::new(alloc),
            spans: Vec::new(alloc),
        }
    }

    /// The texts at these positions, in this order.
    pub fn new(
        alloc: A,
        texts: PackedTexts<A>,
        order: &[u32],
    ) -> Result<OrderedTexts<A>, AllocError>
        requires { IsOrder texts order.now }
        ensures { IfOk result (λ ordered. ordered ≡ texts_at texts order.now) }
    {
        let mut spans = Vec::with_capacity(alloc, order.len())?;
        for position in order {
            spans.push(texts.span(*position as usize))?;
        }
        Ok(OrderedTexts { texts, spans })
    }
}

impl<A: Allocator> OrderedTexts<A> {
    /// How many texts there are.
    #[tactic(auto, using(crate::proofs::OrderedLaws::many_ordered))]
    pub fn len(&self) -> usize
        ensures { result ≡ length self.now }
    {
        self.spans.len()
    }

    /// Whether there are no texts.
    pub fn is_empty(&self) -> bool
        ensures { IsTrue result ↔ (length self.now ≡ 0) }
    {
        self.len() == 0
    }

    /// The bytes of the text that comes at a position, from 0.
    #[tactic(auto, using(crate::proofs::OrderedLaws::many_ordered, crate::proofs::OrderedLaws::ordered_forward, crate::proofs::OrderedLaws::ordered_inside, crate::proofs::OrderedLaws::ordered_at))]
    pub fn get(&self, position: usize) -> &[u8]
        requires inside { position < length self.now }
        ensures { result.now ≡ get_or self.now position [] }
    {
        let span = self.spans[position];
        &self.texts.bytes()[4 * span.start as usize..4 * span.end as usize]
    }

    /// How many bytes all texts have together.
    pub fn bytes_len(&self) -> usize
        ensures value { result ≡ length (concat self.now) }
        ensures short { result < 2 ^ 34 }
    {
        self.texts.bytes().len()
    }
}
