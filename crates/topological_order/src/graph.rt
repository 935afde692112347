//! Graphs.

ghost use Rattle.std.specs.Prelude.{◌≡◌, ◌↔◌, ◌+◌, ◌^◌, ◌<◌, ◌++◌, [], ◌∷◌, IsTrue, length, get_or, IfOk, IfErr};
ghost use Rattle.std.specs.List.{concat};

use packed_texts::{row_end, row_start};
use std::alloc::{AllocError, Allocator, Global};
use std::marker::Model;

/// A graph: for each node, the nodes that it names.
///
/// Nodes are numbered from 0, in the order in which they were pushed. There are fewer than 2^32
/// nodes, and together they name fewer than 2^32.
#[derive(Debug, Drop)]
pub struct Graph<A: Allocator = Global> {
    // what node 0 names, then what node 1 names, and so on
    named: Vec<u32, A>,
    // for each node, where its part of this list ends
    ends: Vec<u32, A>,
}

impl<A: Allocator> Model for Graph<A> {
    ghost use Rattle.std.specs.Prelude.{List, ℕ};
    ghost use Rattle.packed_texts.specs.PackedTexts.{texts_in};
    ghost use Rattle.topological_order.specs.Graph.{IsGraph};

    ghost Value = { List (List ℕ) };

    ghost view = { λ g. texts_in g.named.items 0 g.ends.items };

    ghost invariant = { λ g. IsGraph g.named.items g.ends.items };
}

impl<A: Allocator + Copy> Graph<A> {
    /// A graph without nodes, with space for `nodes` of them.
    #[tactic(auto, using(packed_texts::proofs::RowLaws::no_rows))]
    pub fn with_capacity(alloc: A, nodes: usize) -> Result<Graph<A>, AllocError>
        ensures { IfOk result (λ graph. graph ≡ []) }
    {
        Ok(Graph {
            named: Vec::new(alloc),
            ends: Vec::with_capacity(alloc, nodes)?,
        })
    }
}

impl<A: Allocator> Graph<A> {
    /// How many nodes there are.
    #[tactic(auto, using(packed_texts::proofs::PackedLaws::length_of_texts))]
    pub fn len(&self) -> usize
        ensures value { result ≡ length self.now }
        ensures few { result < 2 ^ 32 }
    {
        self.ends.len()
    }

    /// Whether there are no nodes.
    pub fn is_empty(&self) -> bool
        ensures { IsTrue result ↔ (length self.now ≡ 0) }
    {
        self.len() == 0
    }

    /// The nodes that a node names, in the order in which it names them.
    #[tactic(auto, using(packed_texts::proofs::PackedLaws::length_of_texts, packed_texts::proofs::RowLaws::row_at, packed_texts::proofs::RowLaws::row_inside, packed_texts::proofs::RowLaws::row_forward))]
    pub fn get(&self, node: usize) -> &[u32]
        requires inside { node < length self.now }
        ensures value { result.now ≡ get_or self.now node [] }
        ensures few { length result.now < 2 ^ 32 }
    {
        let start = row_start(&self.ends, node);
        let end = row_end(&self.ends, node);
        &self.named[start..end]
    }

    /// Appends a node that names these nodes.
    ///
    /// If this runs out of memory, the graph stays as it was.
    #[tactic(auto, using(packed_texts::proofs::PackedLaws::whole, packed_texts::proofs::PackedLaws::length_of_texts, packed_texts::proofs::RowLaws::row_pushed, packed_texts::proofs::RowLaws::rise_pushed))]
    pub fn push(&mut self, named: &[u32]) -> Result<(), AllocError>
        requires short { length (concat self.old) + length named.now < 2 ^ 32 }
        requires few { length self.old + 1 < 2 ^ 32 }
        ensures ok { IfOk result (λ _. self.new ≡ self.old ++ named.now ∷ []) }
        ensures err { IfErr result (λ _. self.new ≡ self.old) }
    {
        // With the space reserved, the push after the names succeeds.
        self.ends.reserve(1)?;
        self.named.extend_from_slice(named)?;
        self.ends.push(self.named.len() as u32)?;
        Ok(())
    }
}
