//! The superblock of a container.

ghost use Rattle.std.specs.Prelude.{◌≡◌, ◌*◌, ◌/◌, ◌%◌, ◌<◌, ◌≤◌, ◌⊎◌, ◌≢◌, [], ◌∷◌, ◌++◌, length, take, Some, None, IfOk, OnOk, IfErr, IsOk};
ghost use Rattle.byte_fields.specs.Bytes.{AreBytes};
ghost use Rattle.byte_fields.specs.Check.{Makes, first_failing};
ghost use Rattle.byte_io.specs.At.{IfKnown, IfOf, Reads};
ghost use Rattle.byte_fields.specs.Number.{u32s};
ghost use Rattle.msf_superblock.specs.BlockNumber.{IsBlockSize, IsOrdinary, blocks_for};
ghost use Rattle.msf_superblock.specs.Superblock.{Fields, IsFit, IsSuperblock, fields_of, magic, front_checks, superblock_checks, HasFront, FrontRefuses};

use crate::block_number::is_ordinary;
use crate::block_size::BlockSize;
use crate::fault::MsfFault;
use byte_fields::u32_at;
use byte_io::{AtFault, ReadAt};
use std::marker::Model;

/// The bytes with which every container begins. ("The MSF File Format", "The Superblock".)
pub const MAGIC: [u8; 32] = *b"Microsoft C/C++ MSF 7.00\x0d\x0a\x1aDS\0\0\0";

/// The length of a superblock, in bytes.
const LENGTH: usize = 56;

// The offsets of the fields, in bytes from the front of the file.
const BLOCK_SIZE: usize = 32;

const FREE_MAP_BLOCK: usize = 36;

const NUM_BLOCKS: usize = 40;

const DIRECTORY_BYTES: usize = 44;

const UNKNOWN: usize = 48;

const BLOCK_MAP_ADDR: usize = 52;

/// A superblock that passed its checks.
///
/// Made by [`Superblock::read`]. ("The MSF File Format", "The Superblock".)
#[derive(Clone, Copy, Debug)]
pub struct Superblock {
    block_size: BlockSize,
    free_map_block: u32,
    num_blocks: u32,
    directory_bytes: u32,
    unknown: u32,
    block_map_addr: u32,
}

impl Model for Superblock {
    ghost use Rattle.msf_superblock.specs.Superblock.{Fields, IsFit};

    ghost Value = { Fields };

    ghost view = { λ s. record {
      block_size = s.block_size;
      free_map_block = s.free_map_block;
      num_blocks = s.num_blocks;
      directory_bytes = s.directory_bytes;
      unknown = s.unknown;
      block_map_addr = s.block_map_addr;
    } };

    ghost invariant = { λ s. IsFit (record {
      block_size = s.block_size;
      free_map_block = s.free_map_block;
      num_blocks = s.num_blocks;
      directory_bytes = s.directory_bytes;
      unknown = s.unknown;
      block_map_addr = s.block_map_addr;
    }) };

    ghost inverse = { λ s. record {
      block_size = s.block_size;
      free_map_block = s.free_map_block;
      num_blocks = s.num_blocks;
      directory_bytes = s.directory_bytes;
      unknown = s.unknown;
      block_map_addr = s.block_map_addr;
    } };
}

impl Superblock {
    /// Reads the superblock in the first 56 bytes of a file that has `have` bytes.
    #[tactic(auto, using(crate::proofs::SizeLaws::size_decides), unfolding(crate::specs::Superblock::front_checks))]
    fn of(front: &[u8], have: u64) -> Result<Superblock, MsfFault>
        requires { length front.now ≡ 56 }
        ensures magical { OnOk result (take 32 front.now ≡ magic) }
        ensures fields { IfOk result (λ s. s ≡ fields_of front.now) }
        ensures whole { IfOk result (λ s. s.num_blocks * s.block_size ≤ have) }
        ensures fit { IfOk result IsFit }
        ensures first { Makes result (front_checks front.now have) }
        ensures checked { IfErr result (λ fault. fault ≢ MsfFault.Memory) }
    {
        if !front.starts_with(&MAGIC) {
            return Err(MsfFault::Magic);
        }
        let bytes = u32_at(front, BLOCK_SIZE);
        let Some(block_size) = BlockSize::new(bytes) else {
            return Err(MsfFault::BlockSize(bytes));
        };
        let free_map_block = u32_at(front, FREE_MAP_BLOCK);
        if free_map_block != 1 && free_map_block != 2 {
            return Err(MsfFault::FreeMapBlock(free_map_block));
        }
        let num_blocks = u32_at(front, NUM_BLOCKS);
        let need = u64::from(num_blocks) * u64::from(bytes);
        if have < need {
            return Err(MsfFault::FileSize { need, have });
        }
        let directory_bytes = u32_at(front, DIRECTORY_BYTES);
        // The block map is one block, and each of its numbers has four bytes.
        let most_blocks = bytes / 4;
        if directory_bytes % 4 != 0 || block_size.blocks_for(directory_bytes) > most_blocks {
            return Err(MsfFault::DirectorySize(directory_bytes));
        }
        let block_map_addr = u32_at(front, BLOCK_MAP_ADDR);
        if !is_ordinary(num_blocks, block_map_addr) {
            return Err(MsfFault::BlockMapAddr(block_map_addr));
        }
        Ok(Superblock {
            block_size,
            free_map_block,
            num_blocks,
            directory_bytes,
            unknown: u32_at(front, UNKNOWN),
            block_map_addr,
        })
    }

    /// Reads the superblock at the front of a file.
    ///
    /// The faults, in the order in which they are checked:
    ///
    /// 1. `Short`: the file has fewer than 56 bytes.
    /// 2. `Magic`: the file begins with another magic.
    /// 3. `BlockSize`: the block size is not one of the seven sizes.
    /// 4. `FreeMapBlock`: the free block map in force begins neither at block 1 nor at block 2.
    /// 5. `FileSize`: the blocks pass the end of the file.
    /// 6. `DirectorySize`: the length of the directory is not a multiple of four, or the directory
    ///    needs more blocks than one block can list.
    /// 7. `BlockMapAddr`: the block map is block 0, or past the last block.
    ///
    /// Bytes after the last block are ignored. This does not allocate. ("The MSF File Format", "The
    /// Superblock".)
    pub fn read(file: &[u8]) -> Result<Superblock, MsfFault>
        ensures value { IfOk result (IsSuperblock file.now) }
        ensures fields { IfOk result (λ s. s ≡ fields_of file.now) }
        ensures found { (fields : Fields) → IsSuperblock file.now fields → IsOk result }
        ensures first { Makes result (superblock_checks file.now) }
        ensures checked { IfErr result (λ fault. fault ≢ MsfFault.Memory) }
    {
        if file.len() < LENGTH {
            return Err(MsfFault::Short);
        }
        let superblock = Superblock::of(&file[..LENGTH], file.len() as u64)?;
        Ok(superblock)
    }

    /// Reads the superblock at the front of a file that is read by position. The faults are those
    /// of [`Superblock::read`], and `AtFault::Read` where a read failed. This does not allocate.
    pub fn read_at<R: ReadAt>(input: &mut R) -> Result<Superblock, AtFault<MsfFault>>
        ensures reads { Reads R.bytes R.is_broken input.old input.new result }
        ensures small { IfKnown (R.bytes input.old) AreBytes }
        ensures value { IfOk result (λ s.
            IfKnown (R.bytes input.old) (λ file. IsSuperblock file s)) }
        ensures fields { IfOk result (λ s.
            IfKnown (R.bytes input.old) (λ file. s ≡ fields_of file)) }
        ensures fit { IfOk result IsFit }
        // Even if the file's bytes are not known, the superblock and the fault are those of bytes
        // that reads gave.
        ensures front { IfOk result (HasFront (R.bytes input.old)) }
        ensures held { OnOk result
            (IfKnown (R.bytes input.old) (λ file. first_failing (superblock_checks file) ≡ None)) }
        ensures refused { IfErr result (IfOf (FrontRefuses (R.bytes input.old))) }
        ensures first { IfErr result (IfOf (λ fault. IfKnown (R.bytes input.old) (λ file.
            first_failing (superblock_checks file) ≡ Some fault))) }
    {
        let have = input.len();
        if have < LENGTH as u64 {
            return Err(AtFault::Of(MsfFault::Short));
        }
        let mut front = [0u8; LENGTH];
        let Some(()) = input.read_at(0, &mut front) else {
            return Err(AtFault::Read);
        };
        let superblock = Superblock::of(&front, have)?;
        Ok(superblock)
    }

    /// The size of a block, in bytes.
    pub fn block_size(&self) -> u32
        ensures value { result ≡ self.now.block_size }
        ensures fits { IsBlockSize result }
        // One block can list the blocks of the directory.
        ensures listed { blocks_for result self.now.directory_bytes ≤ result / 4 }
    {
        self.block_size.bytes()
    }

    /// The number of the first block of the free block map in force: 1 or 2.
    pub fn free_map_block(&self) -> u32
        ensures value { result ≡ self.now.free_map_block }
        ensures fits { (result ≡ 1) ⊎ (result ≡ 2) }
    {
        self.free_map_block
    }

    /// How many blocks the file has.
    pub fn num_blocks(&self) -> u32
        ensures { result ≡ self.now.num_blocks }
    {
        self.num_blocks
    }

    /// The length of the stream directory, in bytes.
    pub fn directory_bytes(&self) -> u32
        ensures value { result ≡ self.now.directory_bytes }
        ensures multiple { result % 4 ≡ 0 }
        ensures fits { blocks_for self.now.block_size result ≤ self.now.block_size / 4 }
        // A block other than block 0 lists its blocks, so there are two.
        ensures map { 1 < self.now.num_blocks }
    {
        self.directory_bytes
    }

    /// The field that the format does not explain.
    pub fn unknown(&self) -> u32
        ensures { result ≡ self.now.unknown }
    {
        self.unknown
    }

    /// The number of the block map, which lists the blocks of the stream directory.
    pub fn block_map_addr(&self) -> u32
        ensures value { result ≡ self.now.block_map_addr }
        ensures fits { IsOrdinary self.now.num_blocks result }
    {
        self.block_map_addr
    }
}

/// The superblock of a file of `num_blocks` blocks, whose free block map in force is map 1.
///
/// `block_size` and `directory_bytes` are in bytes, and `block_map_addr` is the number of the block
/// map. This does not allocate. ("The MSF File Format", "The Superblock".)
#[tactic(auto, unfolding(byte_fields::specs::Number::four_bytes))]
pub fn superblock_bytes(
    block_size: u32,
    num_blocks: u32,
    directory_bytes: u32,
    block_map_addr: u32,
) -> [u8; LENGTH]
    ensures { result
        ≡ magic ++ u32s (block_size ∷ 1 ∷ num_blocks ∷ directory_bytes ∷ 0 ∷ block_map_addr ∷ []) }
{
    let mut bytes = [0; LENGTH];
    bytes[..BLOCK_SIZE].copy_from_slice(&MAGIC);
    bytes[BLOCK_SIZE..FREE_MAP_BLOCK].copy_from_slice(&block_size.to_le_bytes());
    bytes[FREE_MAP_BLOCK..NUM_BLOCKS].copy_from_slice(&1u32.to_le_bytes());
    bytes[NUM_BLOCKS..DIRECTORY_BYTES].copy_from_slice(&num_blocks.to_le_bytes());
    bytes[DIRECTORY_BYTES..UNKNOWN].copy_from_slice(&directory_bytes.to_le_bytes());
    bytes[BLOCK_MAP_ADDR..].copy_from_slice(&block_map_addr.to_le_bytes());
    bytes
}
