//! The length of an image.

ghost use Rattle.std.specs.Prelude.{◌≡◌, ◌+◌, ◌*◌, ◌/◌, ◌^◌, ◌<◌, ◌≤◌, IfSome, IfNone};
ghost use Rattle.msf_superblock.specs.BlockNumber.{IsBlockSize, blocks_for};
ghost use Rattle.msf_streams.specs.Image.{Fits, blocks_of_all, directory_count, image_blocks, image_length};

use msf_blocks::BlockSize;

/// How many blocks streams of these sizes take together.
pub(crate) fn stream_blocks(block_size: BlockSize, sizes: &[u32; 5]) -> u32
    ensures value { result ≡ blocks_of_all block_size sizes.now }
    ensures few { result ≤ 5 * 2 ^ 23 }
{
    let mut blocks = 0;
    for size in sizes {
        blocks += block_size.blocks_for(*size);
    }
    blocks
}

/// The length in bytes of a directory of five streams that have `blocks` blocks together. It has
/// the number of streams, their sizes, and the number of each block.
pub(crate) fn directory_len(blocks: u32) -> u32
    requires { blocks ≤ 5 * 2 ^ 23 }
    ensures { result ≡ 4 * (6 + blocks) }
{
    4 * (6 + blocks)
}

/// How many blocks the directory takes, for five streams that have `blocks` blocks together.
pub(crate) fn directory_blocks(block_size: BlockSize, blocks: u32) -> u32
    requires { blocks ≤ 5 * 2 ^ 23 }
    ensures { result ≡ blocks_for block_size (4 * (6 + blocks)) }
{
    block_size.blocks_for(directory_len(blocks))
}

/// How many blocks the image of streams of these sizes has. `None` where the block map is too short
/// to list the blocks of the directory.
pub(crate) fn image_blocks(block_size: BlockSize, sizes: &[u32; 5]) -> Option<u32>
    ensures some { IfSome result (λ n. (directory_count block_size sizes.now ≤ block_size / 4)
        × (n ≡ image_blocks block_size sizes.now) × (n < 2 ^ 28)) }
    ensures none { IfNone result (block_size / 4 < directory_count block_size sizes.now) }
{
    let blocks = stream_blocks(block_size, sizes);
    let directory = directory_blocks(block_size, blocks);
    if directory > block_size.bytes() / 4 {
        return None;
    }
    Some(block_size.nth_block(1 + directory + blocks) + 1)
}

/// The length in bytes of the image of streams of these sizes.
///
/// `sizes` and `block_size` are in bytes. `None` where the directory needs more than
/// `block_size / 4` blocks, since the block map is one block and cannot list more. `None` also
/// where the image would be longer than 4,294,967,295 bytes. This does not allocate. ("The MSF File
/// Format".)
pub fn image_len(sizes: &[u32; 5], block_size: u32) -> Option<u32>
    requires { IsBlockSize block_size }
    ensures some { IfSome result (λ n.
        Fits block_size sizes.now × (n ≡ image_length block_size sizes.now)) }
    ensures none { IfNone result (Fits block_size sizes.now → ⊥) }
{
    image_blocks(BlockSize::of(block_size), sizes)?.checked_mul(block_size)
}
