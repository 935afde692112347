//! The parts of an image before its streams: the superblock, the block map and the directory.

ghost use Rattle.std.specs.Prelude.{◌≡◌, IfOk};
ghost use Rattle.msf_streams.specs.Image.{Fits, image_blocks};
ghost use Rattle.msf_streams.specs.Put.{IsImageFront};

use crate::image::{directory_blocks, directory_len, stream_blocks};
use msf_blocks::{BlockSize, block_map_bytes, directory_bytes, superblock_bytes};
use std::alloc::{AllocError, Allocator};

/// The parts of an image before its streams.
#[derive(Drop)]
pub(crate) struct Front<A: Allocator> {
    pub(crate) superblock: [u8; 56],
    pub(crate) block_map: Vec<u8, A>,
    pub(crate) directory: Vec<u8, A>,
}

impl<A: Allocator + Copy> Front<A> {
    /// Makes the front of an image: the streams have these sizes, and the file has `num_blocks`
    /// blocks.
    pub(crate) fn new(
        alloc: A,
        block_size: BlockSize,
        num_blocks: u32,
        sizes: &[u32; 5],
    ) -> Result<Front<A>, AllocError>
        requires fits { Fits block_size sizes.now }
        requires count { num_blocks ≡ image_blocks block_size sizes.now }
        ensures { IfOk result (λ f.
            IsImageFront block_size num_blocks sizes.now f.superblock f.block_map.items
            f.directory.items) }
    {
        let blocks = stream_blocks(block_size, sizes);
        let directory_blocks = directory_blocks(block_size, blocks);
        let block_map_addr = block_size.nth_block(1);
        let block_size = block_size.bytes();
        let superblock = superblock_bytes(
            block_size,
            num_blocks,
            directory_len(blocks),
            block_map_addr,
        );
        Ok(Front {
            superblock,
            block_map: block_map_bytes(alloc, block_size, directory_blocks)?,
            directory: directory_bytes(alloc, block_size, sizes, directory_blocks, blocks)?,
        })
    }
}
