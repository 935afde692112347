//! The positions of the records of each level.

ghost use Rattle.std.specs.Prelude.{◌≡◌, ◌+◌, ◌<◌, ◌^◌, length, get_or, IfOk, IfSome, IfNone};
ghost use Rattle.canonical_list.specs.Links.{NoneFrom};
ghost use Rattle.type_trees.specs.Depth.{AreBelow};

use std::alloc::{AllocError, Allocator, Global};
use std::marker::Model;

/// The positions of the records of each level, the last first.
///
/// A record's depth is its level. A link is one more than a position, or 0 where it leads nowhere.
/// Positions count from 0 and are below 2^31.
#[derive(Drop)]
pub struct Levels<'a, A: Allocator = Global> {
    // the depth of each position
    depths: &'a [u32],
    // for each level, the link to its last position
    newest: Vec<u32, A>,
    // for each position, the link to the last one before it that has the same depth
    older: Vec<u32, A>,
}

impl<'a, A: Allocator> Model for Levels<'a, A> {
    ghost use Rattle.std.specs.Prelude.{List, ℕ, ◌≡◌, length};
    ghost use Rattle.canonical_list.specs.Links.{AreLinked};

    ghost Value = { List ℕ };

    ghost view = { λ l. l.depths.now };

    ghost invariant = { λ l.
        (length l.older.items ≡ length l.depths.now)
        × AreLinked l.depths.now l.newest.items l.older.items };
}

/// The position that a link leads to. `None` for the link 0.
fn position_of(link: u32) -> Option<usize>
    ensures some { IfSome result (λ k. link ≡ k + 1) }
    ensures none { IfNone result (link ≡ 0) }
{
    (link as usize).checked_sub(1)
}

/// The link of a level, or 0 where there is no such level.
fn link_of(newest: &[u32], level: u32) -> u32
    ensures { result ≡ get_or newest.now level 0 }
{
    newest.get(level as usize).copied().unwrap_or(0)
}

impl<'a, A: Allocator + Copy> Levels<'a, A> {
    /// Finds the positions of each level, in one pass over the depths.
    #[tactic(auto, using(crate::proofs::LinkLaws::linked_none))]
    pub fn of(alloc: A, depths: &'a [u32], levels: u32) -> Result<Levels<'a, A>, AllocError>
        requires few { length depths.now < 2 ^ 31 }
        requires low { AreBelow levels depths.now }
        ensures { IfOk result (λ l. l ≡ depths.now) }
    {
        let mut newest = vec![in alloc; 0u32; levels as usize]?;
        let mut older = Vec::with_capacity(alloc, depths.len())?;
        for position in 0..depths.len() {
            let level = depths[position] as usize;
            older.push(newest[level])?;
            newest[level] = position as u32 + 1;
        }
        Ok(Levels {
            depths,
            newest,
            older,
        })
    }
}

impl<'a, A: Allocator> Levels<'a, A> {
    /// The last position of a level. `None` where no position has this depth.
    pub fn newest(&self, level: u32) -> Option<usize>
        ensures found { IfSome result (λ k. (k < length self.now) × (get_or self.now k 0 ≡ level)) }
        ensures last { IfSome result (λ k. NoneFrom self.now level (k + 1) (length self.now)) }
        ensures none { IfNone result (NoneFrom self.now level 0 (length self.now)) }
    {
        position_of(link_of(&self.newest, level))
    }

    /// The last position before this one that has the same depth. `None` where there is none.
    pub fn older(&self, position: usize) -> Option<usize>
        requires inside { position < length self.now }
        ensures found { IfSome result (λ k.
            (k < position) × (get_or self.now k 0 ≡ get_or self.now position 0)) }
        ensures last { IfSome result (λ k.
            NoneFrom self.now (get_or self.now position 0) (k + 1) position) }
        ensures none { IfNone result (NoneFrom self.now (get_or self.now position 0) 0 position) }
    {
        position_of(self.older[position])
    }
}
