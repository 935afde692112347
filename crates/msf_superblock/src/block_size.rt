//! The size of the blocks of a container.

ghost use Rattle.std.specs.Prelude.{◌≡◌, ◌^◌, ◌<◌, ◌≤◌, IfSome, is_some, length, map, false};
ghost use Rattle.std.specs.List.{range_with_len};
ghost use Rattle.msf_superblock.specs.BlockNumber.{IsBlockSize, blocks_for, is_block_size, is_map_block, nth_block, data_blocks};

use std::marker::Model;

/// Whether blocks may have this size, in bytes: 512, 1,024, 2,048, 4,096, 8,192, 16,384 or 32,768.
///
/// This does not allocate. ("The MSF File Format", "The Superblock".)
#[tactic(auto, unfolding(crate::specs::BlockNumber::is_block_size))]
pub fn is_block_size(size: u32) -> bool
    ensures { result ≡ is_block_size size }
{
    matches!(size, 512 | 1024 | 2048 | 4096 | 8192 | 16384 | 32768)
}

/// A size that blocks may have. Contracts see it as a number of bytes.
///
/// Made by [`BlockSize::new`] and [`BlockSize::of`]. ("The MSF File Format", "The Superblock".)
#[derive(Clone, Copy, Debug)]
pub struct BlockSize {
    bytes: u32,
}

impl Model for BlockSize {
    ghost use Rattle.std.specs.Prelude.{ℕ};
    ghost use Rattle.msf_superblock.specs.BlockNumber.{IsBlockSize};

    ghost Value = { ℕ };

    ghost view = { λ s. s.bytes };

    ghost invariant = { λ s. IsBlockSize s.bytes };

    ghost inverse = { λ bytes. record { bytes = bytes } };
}

impl BlockSize {
    /// The size of this many bytes. `None` where blocks may not have it ([`is_block_size`]).
    #[tactic(auto, using(crate::proofs::SizeLaws::size_decides))]
    pub fn new(bytes: u32) -> Option<BlockSize>
        ensures value { IfSome result (λ size. size ≡ bytes) }
        ensures fits { IfSome result IsBlockSize }
        ensures some { is_some result ≡ is_block_size bytes }
    {
        if !is_block_size(bytes) {
            return None;
        }
        Some(BlockSize { bytes })
    }

    /// The size of this many bytes, where it is known that blocks may have it.
    pub fn of(bytes: u32) -> BlockSize
        requires { IsBlockSize bytes }
        ensures { result ≡ bytes }
    {
        BlockSize { bytes }
    }

    /// The number of bytes.
    pub fn bytes(self) -> u32
        ensures value { result ≡ self }
        ensures fits { IsBlockSize result }
    {
        self.bytes
    }

    /// How many blocks of this size hold `bytes` bytes. This does not allocate.
    #[tactic(auto, using(crate::proofs::SizeLaws::size_facts, crate::proofs::SizeLaws::ceil_is, crate::proofs::SizeLaws::few_for))]
    pub fn blocks_for(self, bytes: u32) -> u32
        ensures value { result ≡ blocks_for self bytes }
        ensures few { result ≤ 2 ^ 23 }
    {
        bytes.div_ceil(self.bytes)
    }

    /// Whether block `n`, from 0, belongs to one of the two free block maps.
    ///
    /// This does not allocate. ("The MSF File Format", "The Free Block Map".)
    #[tactic(auto, using(crate::proofs::SizeLaws::size_facts))]
    pub fn is_map_block(self, n: u32) -> bool
        ensures { result ≡ is_map_block self n }
    {
        matches!(n % self.bytes, 1 | 2)
    }

    /// The number of the `j`-th block that is not a map block, by the formula.
    #[tactic(auto, using(crate::proofs::SizeLaws::size_facts), unfolding(crate::specs::BlockNumber::nth_block))]
    fn nth_by_formula(self, j: u32) -> u32
        requires { IsBlockSize self → nth_block self j < 2 ^ 32 }
        ensures value { result ≡ nth_block self j }
        ensures fits { IsBlockSize self }
    {
        // All but two blocks of each interval hold data.
        let data = self.bytes - 2;
        let first = j / data * self.bytes;
        match j % data {
            0 => first,
            others => first + others + 2,
        }
    }

    /// The number of the `j`-th block that is not a map block, from 0.
    ///
    /// Exactly `j` of the blocks before it are not map blocks. This does not allocate. ("The MSF
    /// File Format", "The Free Block Map".)
    pub fn nth_block(self, j: u32) -> u32
        // The caller may assume that blocks may have this size.
        requires { IsBlockSize self → nth_block self j < 2 ^ 32 }
        ensures value { result ≡ nth_block self j }
        ensures free { is_map_block self result ≡ false }
        ensures below { data_blocks self result ≡ map (nth_block self) (range_with_len 0 j) }
        ensures count { length (data_blocks self result) ≡ j }
    {
        self.nth_by_formula(j)
    }
}
