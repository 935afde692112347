//! The bytes of one stream, read from a file.
//!
//! A stream's bytes are in blocks of the file. [`pieces`] lends the bytes in each of these blocks,
//! in order; a [`StreamPieces`] is the iterator over them. [`gather`] copies all of them into one
//! buffer.
//!
//! Both take the file and its checked `Layout`. Every block number in a `Layout` is the number of a
//! block of the file, so nothing here checks it again. Where `s` is not a stream, [`pieces`] returns
//! `None`, and [`gather`] `NoStream`.
//!
//! The crate exports `StreamPieces` as `Pieces`. The toolchain refuses two items of one module
//! whose names differ only in case, as `pieces` and `Pieces`.

ghost use Rattle.std.specs.Prelude.{◌≡◌, ◌↔◌, ◌⊎◌, ◌≤◌, ◌<◌, ◌*◌, ◌+◌, ◌-◌, ◌^◌, [], ◌∷◌, length, slice_get, Some, IfSome, IfNone, IsNone, IfOk, IfErr};
ghost use Rattle.std.specs.List.{concat};
ghost use Rattle.std.specs.Iterator.{YieldsFirstRef, item_count};
ghost use Rattle.msf_superblock.specs.BlockNumber.{blocks_for};
ghost use Rattle.msf_blocks.specs.Directory.{bytes_of};
ghost use Rattle.msf_blocks.specs.Layout.{IsLayout};
ghost use Rattle.msf_superblock.specs.Superblock.{HoldsBlocks};
ghost use Rattle.msf_streams.specs.Streams.{FirstIsLong, stream_pieces, stream_contents, pieces_from};

use crate::at::fill;
use crate::container::Container;
use crate::fault::StreamFault;
use byte_io::AtFault;
use msf_blocks::Layout;
use std::alloc::{Allocator, Global};
use std::marker::Model;

/// The bytes of the `s`-th stream, from 0, in one piece for each of its blocks.
///
/// The pieces come in the order in which the stream directory lists the blocks. They are lent from
/// `file`, and `layout` has to be the layout of that file. A nil stream and an empty stream have no
/// pieces. `None` where `s` is not a stream. This does not allocate. ("The MSF File Format", "The
/// Stream Directory".)
#[tactic(auto, using(crate::proofs::PieceLaws::pieces_bytes, crate::proofs::PieceLaws::pieces_first, crate::proofs::PieceLaws::pieces_none))]
pub fn pieces<'a, A: Allocator>(
    file: &'a [u8],
    layout: &'a Layout<A>,
    s: u32,
) -> Option<StreamPieces<'a, A>>
    requires { HoldsBlocks file.now layout.now.superblock }
    ensures value { result ≡ stream_pieces file.now layout.now s }
    ensures bytes { IfSome result (λ p. stream_contents file.now layout.now s ≡ Some (concat p)) }
    ensures count { IfSome result (λ p. IfSome (slice_get layout.now.streams s) (λ stream.
        length p ≡ blocks_for layout.now.superblock.block_size (bytes_of stream.size))) }
    // The first 512 bytes of a stream are in its first piece.
    ensures first { IfSome result FirstIsLong }
    ensures none { IsNone result ↔ (length layout.now.streams ≤ s) }
{
    StreamPieces::new(Container::new(file, layout), s)
}

/// All the bytes of the `s`-th stream, from 0, copied out of `file` into one buffer.
///
/// `layout` has to be the layout of `file`. A nil stream and an empty stream give an empty buffer.
/// The whole buffer is allocated before anything is copied. The faults, in the order in which they
/// are checked:
///
/// 1. `NoStream`: `s` is not a stream.
/// 2. `Memory`: out of memory for the buffer.
///
/// ("The MSF File Format", "The Stream Directory".)
pub fn gather<A: Allocator + Copy, L: Allocator>(
    alloc: A,
    file: &[u8],
    layout: &Layout<L>,
    s: u32,
) -> Result<Vec<u8, A>, StreamFault>
    requires { HoldsBlocks file.now layout.now.superblock }
    ensures value { IfOk result (λ v. stream_contents file.now layout.now s ≡ Some v.items) }
    ensures found { s < length layout.now.streams →
        IfErr result (λ fault. fault ≡ StreamFault.Memory) }
    ensures first { IfErr result (λ fault.
        ((fault ≡ StreamFault.NoStream s) × (length layout.now.streams ≤ s))
        ⊎ ((fault ≡ StreamFault.Memory) × (s < length layout.now.streams))) }
{
    let mut bytes = Vec::new(alloc);
    let mut input = file;
    match fill(&mut input, layout, s, &mut bytes) {
        Ok(_) => Ok(bytes),
        Err(AtFault::Of(fault)) => Err(fault),
        Err(AtFault::Read) => unreachable!(),
    }
}

/// The pieces of a stream that are still to come, in order. [`pieces`] makes it.
///
/// Each piece has as many bytes as a block, but the last one may be shorter. The pieces are lent
/// from the file, so they may outlive this iterator.
#[derive(Debug, Drop)]
pub struct StreamPieces<'a, A: Allocator = Global> {
    container: Container<'a, 'a, A>,
    stream: u32,
    /// The position of the next block in the stream's list.
    position: u32,
    /// How many bytes of the stream are still to come.
    left: u32,
}

impl<'a, A: Allocator> Model for StreamPieces<'a, A> {
    ghost use Rattle.std.specs.Prelude.{ℕ, List};
    ghost use Rattle.msf_streams.specs.Streams.{pieces_from};

    ghost Value = { List (List ℕ) };

    ghost view = { λ p.
        pieces_from p.container.file p.container.layout p.stream p.position p.left };
}

impl<'a, A: Allocator> StreamPieces<'a, A> {
    /// All the pieces of the `s`-th stream.
    fn new(container: Container<'a, 'a, A>, s: u32) -> Option<StreamPieces<'a, A>>
        ensures value { result ≡ stream_pieces container.entry.file container.entry.layout s }
        ensures fits { IsLayout container.entry.layout }
    {
        let left = container.layout().size(s)?;
        Some(StreamPieces {
            container,
            stream: s,
            position: 0,
            left,
        })
    }
}

impl<'a, A: Allocator> Iterator for StreamPieces<'a, A> {
    type Item = &'a [u8];

    ghost next_gives = { YieldsFirstRef (λ s. s) };

    ghost remaining = { item_count (λ s. s) };

    fn next(&mut self) -> Option<&'a [u8]> {
        let piece = piece(&self.container, self.stream, self.position, self.left)?;
        self.position += 1;
        self.left = self
            .left
            .saturating_sub(self.container.layout().superblock().block_size());
        Some(piece)
    }
}

/// The piece in the block at `position` of the stream's list, where `left` bytes of the stream are
/// still to come. `None` where the list has no such position.
#[tactic(auto, using(crate::proofs::PieceLaws::piece_none, crate::proofs::PieceLaws::listed_block, crate::proofs::PieceLaws::block_fits))]
fn piece<'a, A: Allocator>(
    container: &Container<'a, '_, A>,
    s: u32,
    position: u32,
    left: u32,
) -> Option<&'a [u8]>
    ensures some { IfSome result (λ p.
        pieces_from container.now.file container.now.layout s position left
        ≡ p.now ∷ pieces_from container.now.file container.now.layout s (position + 1)
        (left - container.now.layout.superblock.block_size)) }
    ensures few { IfSome result (λ _. position < 2 ^ 23) }
    ensures none { IfNone result
        (pieces_from container.now.file container.now.layout s position left ≡ []) }
{
    let layout = container.layout();
    let block = layout.block(s, position)?;
    let block_size = layout.superblock().block_size();
    let start = block as usize * block_size as usize;
    let len = block_size.min(left) as usize;
    Some(&container.file()[start..start + len])
}
