//! Numbers of blocks, and the blocks of the two free block maps.
//!
//! A container is cut into intervals. An interval has as many blocks as a block has bytes. The
//! second and the third block of each interval belong to the free block maps, and all other blocks
//! may hold data:
//!
//! ```text
//! block   0     1      2      3   ..  B-1    B    B+1    B+2   B+3  ..
//!       data  map 1  map 2  data  ..  data  data  map 1  map 2  data ..
//! nth     0                   1   ..  B-3   B-2                B-1   ..
//! ```

ghost use Rattle.std.specs.Prelude.{◌≡◌, ◌^◌, ◌<◌, ◌≤◌, length, map, false};
ghost use Rattle.std.specs.List.{range_with_len};
ghost use Rattle.msf_superblock.specs.BlockNumber.{IsBlockSize, blocks_for, is_ordinary, is_map_block, nth_block, data_blocks};

use crate::block_size::BlockSize;

/// How many blocks of `block_size` bytes hold `bytes` bytes. This does not allocate.
pub fn blocks_for(block_size: u32, bytes: u32) -> u32
    requires { IsBlockSize block_size }
    ensures value { result ≡ blocks_for block_size bytes }
    ensures few { result ≤ 2 ^ 23 }
{
    BlockSize::of(block_size).blocks_for(bytes)
}

/// Whether a block may hold the bytes of a stream, in a file of `num_blocks` blocks.
pub fn is_ordinary(num_blocks: u32, block: u32) -> bool
    ensures { result ≡ is_ordinary num_blocks block }
{
    0 < block && block < num_blocks
}

/// Whether block `n` belongs to one of the two free block maps.
///
/// `block_size` is in bytes, and `n` counts from 0. This does not allocate. ("The MSF File Format",
/// "The Free Block Map".)
pub fn is_map_block(block_size: u32, n: u32) -> bool
    requires { IsBlockSize block_size }
    ensures { result ≡ is_map_block block_size n }
{
    BlockSize::of(block_size).is_map_block(n)
}

/// The number of the `j`-th block that is not a map block, from 0.
///
/// Exactly `j` of the blocks before it are not map blocks. `block_size` is in bytes. This does not
/// allocate. ("The MSF File Format", "The Free Block Map".)
pub fn nth_block(block_size: u32, j: u32) -> u32
    requires size { IsBlockSize block_size }
    requires fits { nth_block block_size j < 2 ^ 32 }
    ensures value { result ≡ nth_block block_size j }
    ensures free { is_map_block block_size result ≡ false }
    ensures below { data_blocks block_size result
        ≡ map (nth_block block_size) (range_with_len 0 j) }
    ensures count { length (data_blocks block_size result) ≡ j }
{
    BlockSize::of(block_size).nth_block(j)
}
