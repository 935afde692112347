//! A stream whose blocks are consecutive, lent as one part of its file.

ghost use Rattle.std.specs.Prelude.{IsTrue, ◌≡◌, ◌↔◌, length, get_or, slice_get, Some, IfSome, IfNone};
ghost use Rattle.msf_superblock.specs.Superblock.{HoldsBlocks};
ghost use Rattle.msf_streams.specs.Streams.{AreConsecutive, IsOnePart, IsRun, WasRead, blocks_in, stream_contents};

use byte_io::Lend;
use msf_blocks::{Layout, blocks_for};
use std::alloc::Allocator;

/// Whether the `count` blocks of the `s`-th stream are consecutive in the file. The first of them is
/// `first`, or 0 where there is none.
fn are_consecutive<A: Allocator>(layout: &Layout<A>, s: u32, first: u32, count: u32) -> bool
    requires first { get_or (blocks_in (slice_get layout.now.streams s)) 0 0 ≡ first }
    requires count { count ≡ length (blocks_in (slice_get layout.now.streams s)) }
    ensures { IsTrue result ↔ AreConsecutive (blocks_in (slice_get layout.now.streams s)) }
{
    for k in 1..count {
        if layout.block(s, k) != first.checked_add(k) {
            return false;
        }
    }
    true
}

/// The first block of the `s`-th stream, and how many bytes the stream has, where its blocks are
/// consecutive. Where it has none, the block is 0.
fn run_of<L: Allocator>(layout: &Layout<L>, s: u32) -> Option<(u32, u32)>
    ensures some { IfSome result (λ run. IsRun layout.now s run.0 run.1) }
    ensures none { IfNone result (IsOnePart layout.now s → ⊥) }
{
    let size = layout.size(s)?;
    let first = layout.block(s, 0).unwrap_or(0);
    let block_size = layout.superblock().block_size();
    if !are_consecutive(layout, s, first, blocks_for(block_size, size)) {
        return None;
    }
    Some((first, size))
}

/// All the bytes of the `s`-th stream, from 0, lent as one part of `file`.
///
/// `Some` exactly where `s` is a stream and its blocks are consecutive in the file, in the order of
/// the stream's list. A nil stream and an empty stream give an empty part. `layout` has to be the
/// layout of `file`. This does not allocate. ("The MSF File Format", "The Stream Directory".)
#[tactic(auto, using(crate::proofs::LentLaws::lent_contents))]
pub fn lent<'a, A: Allocator>(file: &'a [u8], layout: &Layout<A>, s: u32) -> Option<&'a [u8]>
    requires { HoldsBlocks file.now layout.now.superblock }
    ensures value { IfSome result (λ part. stream_contents file.now layout.now s ≡ Some part.now) }
    ensures some { IfSome result (λ _. IsOnePart layout.now s) }
    ensures none { IfNone result (IsOnePart layout.now s → ⊥) }
{
    let (first, len) = run_of(layout, s)?;
    let block_size = layout.superblock().block_size();
    let (_, from_first) = file.split_at(first as usize * block_size as usize);
    Some(&from_first[..len as usize])
}

/// All the bytes of the `s`-th stream, from 0, lent where its blocks are consecutive and in memory.
pub(crate) fn part_of<'a, R: Lend<'a>, L: Allocator>(
    input: &R,
    layout: &Layout<L>,
    s: u32,
) -> Option<&'a [u8]>
    ensures text { IfSome result (λ part. WasRead (R.bytes input.now) layout.now s part.now) }
    ensures some { IfSome result (λ _. IsOnePart layout.now s) }
{
    let (first, size) = run_of(layout, s)?;
    let block_size = layout.superblock().block_size();
    input.part(u64::from(first) * u64::from(block_size), size)
}
