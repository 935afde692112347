//! The free block maps: reads the one in force, and writes those of a file whose blocks are all in
//! use.

ghost use Rattle.std.specs.Prelude.{◌≡◌, ◌⊎◌, ◌<◌, ◌≤◌, ◌/◌, length, IfSome, IfNone};
ghost use Rattle.byte_io.specs.At.{IfKnown, ReadsOrNone};
ghost use Rattle.msf_superblock.specs.BlockNumber.{IsBlockSize};
ghost use Rattle.msf_blocks.specs.FreeMap.{IsFreeCount, IsMapGiven, IsMapHeld, IsMark, bit_of, free_blocks, is_free, is_free_by, map_block_of, map_byte, map_block as full_map_block};
ghost use Rattle.msf_superblock.specs.Superblock.{HoldsBlocks};

use byte_io::ReadAt;
use msf_superblock::Superblock;

/// The number of the map block with the bit of a block.
#[tactic(auto, using(msf_superblock::proofs::SizeLaws::size_facts))]
fn map_block_of(superblock: &Superblock, block: u32) -> u64
    ensures { result ≡ map_block_of superblock.now block }
{
    let block_size = superblock.block_size();
    let interval = u64::from(block / (8 * block_size));
    interval * u64::from(block_size) + u64::from(superblock.free_map_block())
}

/// Whether a bit of a map block is 1. Bit 0 is the lowest bit of the first byte.
fn is_set(map_block: &[u8], bit: u32) -> bool
    requires { bit / 8 < length map_block.now }
    ensures { result ≡ bit_of map_block.now bit }
{
    (map_block[(bit / 8) as usize] >> (bit % 8)) % 2 == 1
}

/// Whether block `n` is free, by the free block map in force, which the superblock names.
///
/// `None` where the file has no block `n`, or where the map block with its bit is past the end of
/// the file. This does not allocate. ("The MSF File Format", "The Free Block Map".)
#[tactic(auto, using(msf_superblock::proofs::SizeLaws::size_facts))]
pub fn free_bit(file: &[u8], superblock: &Superblock, n: u32) -> Option<bool>
    requires { HoldsBlocks file.now superblock.now }
    ensures value { IfSome result (λ free. free ≡ is_free file.now superblock.now n) }
    ensures inside { IfSome result (λ _. (n < superblock.now.num_blocks)
        × (map_block_of superblock.now n < superblock.now.num_blocks)) }
    ensures outside { IfNone result ((superblock.now.num_blocks ≤ n)
        ⊎ (superblock.now.num_blocks ≤ map_block_of superblock.now n)) }
{
    let number = map_block_of(superblock, n);
    if n >= superblock.num_blocks() || number >= u64::from(superblock.num_blocks()) {
        return None;
    }
    let block_size = superblock.block_size();
    let first = number as usize * block_size as usize;
    let map_block = &file[first..first + block_size as usize];
    Some(is_set(map_block, n % (8 * block_size)))
}

/// How many blocks of the file are free, by the free block map in force. A block whose bit is in
/// no map block of the file is not free.
///
/// This does not allocate, and takes time in proportion to the number of blocks. ("The MSF File
/// Format", "The Free Block Map".)
#[tactic(auto, using(crate::proofs::CountLaws::count_yes, crate::proofs::CountLaws::count_no), unfolding(crate::specs::FreeMap::free_blocks))]
pub fn free_blocks(file: &[u8], superblock: &Superblock) -> u32
    requires { HoldsBlocks file.now superblock.now }
    ensures { result ≡ free_blocks file.now superblock.now }
{
    let mut free = 0;
    for block in 0..superblock.num_blocks() {
        if free_bit(file, superblock, block).unwrap_or(false) {
            free += 1;
        }
    }
    free
}

/// Whether a block of the file is free, by the map block with its bit.
#[tactic(auto, using(msf_superblock::proofs::SizeLaws::size_facts))]
fn is_free_by(map_block: &[u8], superblock: &Superblock, block: u32) -> bool
    requires { length map_block.now ≡ superblock.now.block_size }
    ensures value { result ≡ is_free_by map_block.now superblock.now block }
    ensures listed { IsBlockSize superblock.now.block_size }
{
    let bit = block % (8 * superblock.block_size());
    map_block_of(superblock, block) < u64::from(superblock.num_blocks()) && is_set(map_block, bit)
}

/// Reads the map block with the bit of a block, if that map block is in the file.
fn read_map<R: ReadAt>(
    input: &mut R,
    superblock: &Superblock,
    block: u32,
    map_block: &mut [u8],
) -> Option<()>
    requires whole { IfKnown (R.bytes input.old) (λ file. HoldsBlocks file superblock.now) }
    requires room { length map_block.old ≡ superblock.now.block_size }
    ensures reads { ReadsOrNone R.bytes R.is_broken input.old input.new result }
    ensures room { length map_block.new ≡ superblock.now.block_size }
    ensures given { IfSome result (λ _.
        IsMapGiven (R.bytes input.old) superblock.now block map_block.new) }
{
    let number = map_block_of(superblock, block);
    if number < u64::from(superblock.num_blocks()) {
        return input.read_at(number * u64::from(superblock.block_size()), map_block);
    }
    Some(())
}

/// Makes `map_block` the map block with the bit of a block. A map block is read once, at the first
/// block whose bit it has.
#[tactic(auto, using(msf_superblock::proofs::SizeLaws::size_facts))]
fn turn_to<R: ReadAt>(
    input: &mut R,
    superblock: &Superblock,
    block: u32,
    map_block: &mut [u8],
) -> Option<()>
    requires whole { IfKnown (R.bytes input.old) (λ file. HoldsBlocks file superblock.now) }
    requires room { length map_block.old ≡ superblock.now.block_size }
    requires held { IsMapHeld (R.bytes input.old) superblock.now block map_block.old }
    ensures reads { ReadsOrNone R.bytes R.is_broken input.old input.new result }
    ensures room { length map_block.new ≡ superblock.now.block_size }
    ensures given { IfSome result (λ _.
        IsMapGiven (R.bytes input.old) superblock.now block map_block.new) }
{
    if block % (8 * superblock.block_size()) == 0 {
        read_map(input, superblock, block, map_block)?;
    }
    Some(())
}

/// Whether a block of the file is free, by the map block that `map_block` holds then.
fn is_free_at<R: ReadAt>(
    input: &mut R,
    superblock: &Superblock,
    block: u32,
    map_block: &mut [u8],
) -> Option<bool>
    requires whole { IfKnown (R.bytes input.old) (λ file. HoldsBlocks file superblock.now) }
    requires room { length map_block.old ≡ superblock.now.block_size }
    requires held { IsMapHeld (R.bytes input.old) superblock.now block map_block.old }
    ensures reads { ReadsOrNone R.bytes R.is_broken input.old input.new result }
    ensures room { length map_block.new ≡ superblock.now.block_size }
    ensures mark { IfSome result (IsMark (R.bytes input.old) superblock.now block) }
    ensures listed { IfSome result (λ _. IsBlockSize superblock.now.block_size) }
    ensures given { IfSome result (λ _.
        IsMapGiven (R.bytes input.old) superblock.now block map_block.new) }
{
    turn_to(input, superblock, block, map_block)?;
    Some(is_free_by(map_block, superblock, block))
}

/// How many blocks of a file that is read by position are free, as [`free_blocks`] says it of a
/// whole file. Of the file only the free block map in force is read, a map block at a time, and each
/// of them once.
///
/// `map_block` has as many bytes as a block, and each map block is read into it. `None` where a read
/// failed. This does not allocate. ("The MSF File Format", "The Free Block Map".)
pub fn free_blocks_at<R: ReadAt>(
    input: &mut R,
    superblock: &Superblock,
    map_block: &mut [u8],
) -> Option<u32>
    requires whole { IfKnown (R.bytes input.old) (λ file. HoldsBlocks file superblock.now) }
    requires room { length map_block.old ≡ superblock.now.block_size }
    ensures reads { ReadsOrNone R.bytes R.is_broken input.old input.new result }
    ensures value { IfSome result (λ free.
        IfKnown (R.bytes input.old) (λ file. free ≡ free_blocks file superblock.now)) }
    // Even if the file's bytes are not known, these are the marks of map blocks that reads gave.
    ensures marks { IfSome result
        (IsFreeCount (R.bytes input.old) superblock.now superblock.now.num_blocks) }
{
    let mut free = 0;
    for block in 0..superblock.num_blocks() {
        if is_free_at(input, superblock, block, map_block)? {
            free += 1;
        }
    }
    Some(free)
}

/// The byte of map 1 for the eight blocks that begin with block `first`. The bits of blocks of the
/// file are 0, and the others are 1.
fn map_byte(num_blocks: u64, first: u64) -> u8
    ensures { result ≡ map_byte num_blocks first }
{
    let in_file = num_blocks.saturating_sub(first).min(8) as u32;
    (256 - (1u32 << in_file)) as u8
}

/// Fills `map_block` with the map block that is block `k` of a file of `num_blocks` blocks, all of
/// which are in use.
///
/// `map_block` has as many bytes as a block. In map 1 the bits of blocks of the file are 0, and the
/// others are 1. In map 2 all bits are 1. This does not allocate. ("The MSF File Format", "The Free
/// Block Map".)
#[tactic(auto, using(msf_superblock::proofs::SizeLaws::some_bytes), unfolding(crate::specs::FreeMap::map_block))]
pub fn fill_map_block(block_size: u32, num_blocks: u32, k: u32, map_block: &mut [u8])
    requires size { IsBlockSize block_size }
    requires long { length map_block.old ≡ block_size }
    ensures { map_block.new ≡ full_map_block block_size num_blocks k }
{
    if k % block_size != 1 {
        map_block.fill(0xFF);
        return;
    }
    let first = u64::from(block_size) * u64::from(k / block_size);
    for i in 0..map_block.len() {
        map_block[i] = map_byte(u64::from(num_blocks), 8 * (first + i as u64));
    }
}
