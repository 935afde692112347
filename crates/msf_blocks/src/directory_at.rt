//! A stream directory that is read by position.

ghost use Rattle.std.specs.Prelude.{◌≡◌, ◌+◌, ◌*◌, ◌<◌, ◌≤◌, length, map, IfOk, IfErr};
ghost use Rattle.std.specs.List.{range_with_len};
ghost use Rattle.byte_fields.specs.Number.{nth_u32};
ghost use Rattle.byte_fields.specs.Check.{Makes};
ghost use Rattle.byte_io.specs.At.{IfKnown, IfOf, Reads, ReadsInto};
ghost use Rattle.msf_blocks.specs.Directory.{AreMapNumbers, HasContents, IsBlockMap, DirectoryRefuses, number_checks, directory_blocks};
ghost use Rattle.msf_superblock.specs.Superblock.{HoldsBlocks, IsFit};

use crate::blocks::read_blocks;
use crate::without_memory::fault_without_memory;
use byte_fields::u32_at;
use byte_io::{AtFault, ReadAt, ReadFault, read_more};
use msf_superblock::{MsfFault, Superblock, blocks_for, is_ordinary};
use std::alloc::{AllocError, Allocator};

/// The first `count` numbers in these bytes. Each number has four bytes.
#[tactic(auto, using(crate::proofs::DirectoryLaws::map_range_more), unfolding(byte_fields::specs::Number::nth_u32))]
fn numbers_in<A: Allocator>(alloc: A, bytes: &[u8], count: u32) -> Result<Vec<u32, A>, AllocError>
    requires { 4 * count ≤ length bytes.now }
    ensures { IfOk result (λ v. v.items ≡ map (nth_u32 bytes.now) (range_with_len 0 count)) }
{
    let mut numbers = Vec::with_capacity(alloc, count as usize)?;
    for k in 0..count {
        numbers.push(u32_at(bytes, 4 * k as usize))?;
    }
    Ok(numbers)
}

/// Reads the numbers in the block map, all at once.
#[tactic(auto, using(msf_superblock::proofs::SizeLaws::size_facts))]
fn read_map<R: ReadAt, A: Allocator + Copy>(
    alloc: A,
    input: &mut R,
    superblock: &Superblock,
) -> Result<Vec<u32, A>, ReadFault>
    requires { IfKnown (R.bytes input.old) (λ file. HoldsBlocks file superblock.now) }
    ensures reads { ReadsInto R.bytes R.is_broken input.old input.new result }
    ensures len { IfOk result (λ v. length v.items ≡ directory_blocks superblock.now) }
    ensures given { IfOk result (λ v. AreMapNumbers (R.bytes input.old) superblock.now v.items) }
{
    let block_size = superblock.block_size();
    let count = blocks_for(block_size, superblock.directory_bytes());
    let start = u64::from(superblock.block_map_addr()) * u64::from(block_size);
    let mut bytes = Vec::new(alloc);
    read_more(input, start, 4 * count, &mut bytes)?;
    Ok(numbers_in(alloc, &bytes, count)?)
}

/// Checks the numbers of a block map.
#[tactic(auto, unfolding(crate::specs::Directory::number_checks))]
fn check_numbers(numbers: &[u32], superblock: &Superblock) -> Result<(), MsfFault>
    requires { length numbers.now ≡ directory_blocks superblock.now }
    ensures { Makes result (number_checks numbers.now superblock.now) }
{
    for at in 0..blocks_for(superblock.block_size(), superblock.directory_bytes()) {
        let n = numbers[at as usize];
        if !is_ordinary(superblock.num_blocks(), n) {
            return Err(MsfFault::DirectoryBlock { at, n });
        }
    }
    Ok(())
}

/// Reads the numbers in the block map, and checks them.
fn read_numbers<R: ReadAt, A: Allocator + Copy>(
    alloc: A,
    input: &mut R,
    superblock: &Superblock,
) -> Result<Vec<u32, A>, AtFault<MsfFault>>
    requires fit { IsFit superblock.now }
    requires whole { IfKnown (R.bytes input.old) (λ file. HoldsBlocks file superblock.now) }
    ensures reads { Reads R.bytes R.is_broken input.old input.new result }
    ensures map { IfOk result (λ v. IsBlockMap (R.bytes input.old) superblock.now v.items) }
    ensures refused { IfErr result (IfOf (DirectoryRefuses (R.bytes input.old) superblock.now)) }
{
    let numbers = match read_map(alloc, input, superblock) {
        Ok(numbers) => numbers,
        Err(ReadFault::Memory) => return Err(fault_without_memory(input, superblock)),
        Err(_) => return Err(AtFault::Read),
    };
    match check_numbers(&numbers, superblock) {
        Ok(()) => Ok(numbers),
        Err(fault) => Err(AtFault::Of(fault)),
    }
}

/// Reads the contents of the directory of a file that begins with this superblock. The block map is
/// read at once, and so are directory blocks that are consecutive.
///
/// All checks of the directory come before out of memory: where memory is refused, they are made
/// through windows on the stack.
pub fn read_contents<R: ReadAt, A: Allocator + Copy>(
    alloc: A,
    input: &mut R,
    superblock: &Superblock,
) -> Result<Vec<u8, A>, AtFault<MsfFault>>
    requires fit { IsFit superblock.now }
    requires whole { IfKnown (R.bytes input.old) (λ file. HoldsBlocks file superblock.now) }
    ensures reads { Reads R.bytes R.is_broken input.old input.new result }
    ensures texts { IfOk result (λ contents.
        HasContents (R.bytes input.old) superblock.now contents.items) }
    ensures refused { IfErr result (IfOf (DirectoryRefuses (R.bytes input.old) superblock.now)) }
{
    let blocks = read_numbers(alloc, input, superblock)?;
    let size = superblock.directory_bytes();
    let mut contents = Vec::new(alloc);
    match read_blocks(input, superblock.block_size(), &blocks, size, &mut contents) {
        Ok(()) => Ok(contents),
        Err(ReadFault::Memory) => Err(fault_without_memory(input, superblock)),
        Err(_) => Err(AtFault::Read),
    }
}
