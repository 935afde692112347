//! A walk along a graph, which puts its nodes in order.

ghost use Rattle.std.specs.Prelude.{◌≡◌, ◌≢◌, ◌≤◌, ◌<◌, ◌+◌, ◌*◌, ◌^◌, ◌++◌, ◌∷◌, [], ℕ, set, length, get_or, IfOk, OnOk};
ghost use Rattle.std.specs.List.{Contains};
ghost use Rattle.topological_order.specs.Graph.{NamesNodes};
ghost use Rattle.topological_order.specs.Walk.{mark_at, IsPassed, IsWalk, StayMarked, new_count};
ghost use Rattle.topological_order.specs.declared.walk.Mark.TheVariants.{New, Met, Placed};

use crate::graph::Graph;
use std::alloc::{AllocError, Allocator, Global};

/// What is known of a node.
#[derive(Clone, Copy, PartialEq, Eq, Debug)]
pub enum Mark {
    /// Nothing yet.
    New,
    /// The walk has met it: it is on the path, or it leads into a cycle.
    Met,
    /// It is in the order.
    Placed,
}

/// A walk along a graph.
#[derive(Drop)]
pub struct Walk<A: Allocator = Global> {
    // for each node, how many of the nodes that it names the walk has passed: these are placed
    passed: Vec<u32, A>,
    pub(crate) marks: Vec<Mark, A>,
    // begins with the node at which the walk began; each node names the next one
    path: Vec<u32, A>,
    pub(crate) order: Vec<u32, A>,
}

/// The position of the first node of a row that isn't placed, or the length of the row. The nodes
/// before `from` are placed.
#[tactic(auto, using(crate::proofs::WalkLaws::passed_more))]
fn first_unplaced(row: &[u32], from: usize, marks: &[Mark]) -> usize
    requires inside { (n : ℕ) → Contains row.now n → n < length marks.now }
    requires passed { IsPassed marks.now row.now from }
    ensures passed { IsPassed marks.now row.now result }
    ensures unplaced { result < length row.now →
        mark_at marks.now (get_or row.now result 0) ≢ Placed }
{
    let mut at = from;
    while at < row.len() {
        match marks[row[at] as usize] {
            Mark::Placed => at += 1,
            _ => return at,
        }
    }
    at
}

impl<A: Allocator> Walk<A> {
    /// Puts a new node at the end of the path.
    fn meet(&mut self, to: u32) -> Result<(), AllocError>
        requires { to < length self.old.marks.items }
        ensures passed { OnOk result (self.new.passed.items ≡ self.old.passed.items) }
        ensures marks { OnOk result (self.new.marks.items ≡ set self.old.marks.items to Met) }
        ensures path { OnOk result (self.new.path.items ≡ self.old.path.items ++ to ∷ []) }
        ensures order { OnOk result (self.new.order.items ≡ self.old.order.items) }
    {
        self.marks[to as usize] = Mark::Met;
        self.path.push(to)?;
        Ok(())
    }

    /// Puts a node at the end of the order.
    fn place(&mut self, top: u32) -> Result<(), AllocError>
        requires { top < length self.old.marks.items }
        ensures passed { OnOk result (self.new.passed.items ≡ self.old.passed.items) }
        ensures marks { OnOk result (self.new.marks.items ≡ set self.old.marks.items top Placed) }
        ensures path { OnOk result (self.new.path.items ≡ self.old.path.items) }
        ensures order { OnOk result (self.new.order.items ≡ self.old.order.items ++ top ∷ []) }
    {
        self.marks[top as usize] = Mark::Placed;
        self.order.push(top)?;
        Ok(())
    }

    /// Takes one step from the node `top`, which was just taken off the end of the path: to a new
    /// node that it names, or back where all nodes that it names are placed. If it names a node
    /// that leads into a cycle, the path is cleared.
    fn step(&mut self, graph: &Graph<A>, top: u32) -> Result<(), AllocError>
        requires nodes { NamesNodes graph.now }
        requires walk { IsWalk graph.now self.old.passed.items self.old.marks.items
            (self.old.path.items ++ top ∷ []) self.old.order.items }
        ensures walk { OnOk result
            (IsWalk graph.now self.new.passed.items self.new.marks.items self.new.path.items
            self.new.order.items) }
        ensures marked { OnOk result (StayMarked self.old.marks.items self.new.marks.items) }
        ensures less { OnOk result
            (2 * new_count self.new.marks.items + length self.new.path.items
            ≤ 2 * new_count self.old.marks.items + length self.old.path.items) }
    {
        let named = graph.get(top as usize);
        let passed = self.passed[top as usize] as usize;
        let at = first_unplaced(named, passed, &self.marks);
        self.passed[top as usize] = at as u32;
        if at == named.len() {
            self.place(top)?;
            return Ok(());
        }
        let to = named[at];
        match self.marks[to as usize] {
            Mark::New => {
                self.path.push(top)?;
                self.meet(to)?;
            }
            // A node that was met and isn't placed: all nodes on the path lead into a cycle.
            _ => self.path.clear(),
        }
        Ok(())
    }

    /// Walks on until the path is empty.
    fn follow(&mut self, graph: &Graph<A>) -> Result<(), AllocError>
        requires nodes { NamesNodes graph.now }
        requires walk { IsWalk graph.now self.old.passed.items self.old.marks.items
            self.old.path.items self.old.order.items }
        ensures walk { OnOk result
            (IsWalk graph.now self.new.passed.items self.new.marks.items [] self.new.order.items) }
        ensures path { OnOk result (self.new.path.items ≡ []) }
        ensures marked { OnOk result (StayMarked self.old.marks.items self.new.marks.items) }
    {
        while let Some(top) = self.path.pop() {
            self.step(graph, top)?;
        }
        Ok(())
    }

    /// Walks from a node, if it is new.
    fn walk_from(&mut self, graph: &Graph<A>, root: u32) -> Result<(), AllocError>
        requires nodes { NamesNodes graph.now }
        requires inside { root < length self.old.marks.items }
        requires path { self.old.path.items ≡ [] }
        requires walk { IsWalk graph.now self.old.passed.items self.old.marks.items []
            self.old.order.items }
        ensures walk { OnOk result
            (IsWalk graph.now self.new.passed.items self.new.marks.items [] self.new.order.items) }
        ensures path { OnOk result (self.new.path.items ≡ []) }
        ensures marked { OnOk result (StayMarked self.old.marks.items self.new.marks.items) }
        ensures root { OnOk result (mark_at self.new.marks.items root ≢ New) }
    {
        if let Mark::New = self.marks[root as usize] {
            self.meet(root)?;
            self.follow(graph)?;
        }
        Ok(())
    }
}

/// Walks from each node.
pub fn walk_all<A: Allocator + Copy>(alloc: A, graph: &Graph<A>) -> Result<Walk<A>, AllocError>
    requires { NamesNodes graph.now }
    ensures walk { IfOk result (λ walk.
        IsWalk graph.now walk.passed.items walk.marks.items [] walk.order.items) }
    ensures few { IfOk result (λ walk. length walk.marks.items < 2 ^ 32) }
    ensures marked { IfOk result (λ walk.
        (i : ℕ) → i < length graph.now → mark_at walk.marks.items i ≢ New) }
{
    let len = graph.len();
    let mut walk = Walk {
        passed: vec![in alloc; 0u32; len]?,
        marks: vec![in alloc; Mark::New; len]?,
        path: Vec::new(alloc),
        order: Vec::with_capacity(alloc, len)?,
    };
    for root in 0..len {
        walk.walk_from(graph, root as u32)?;
    }
    Ok(walk)
}
