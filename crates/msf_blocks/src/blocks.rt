//! The bytes in a list of blocks, read by position.

ghost use Rattle.std.specs.Prelude.{ℕ, ◌≡◌, ◌<◌, ◌≤◌, ◌+◌, length, get_or, max, take, OnOk, IfSome};
ghost use Rattle.byte_io.specs.At.{IfKnown, ReadsInto, ReadsOrNone};
ghost use Rattle.msf_superblock.specs.BlockNumber.{IsBlockSize, blocks_for};
ghost use Rattle.msf_blocks.specs.Blocks.{AreGivenIn, AreInside, in_blocks};

use byte_io::{ReadAt, ReadFault, read_over};
use std::alloc::{AllocError, Allocator};

/// How many bytes one read asks for, at most.
const MOST: u32 = 1 << 30;

/// How many blocks are consecutive in the file, from a position of a list on, and at most `most`.
fn run_len(blocks: &[u32], position: u32, most: u32) -> u32
    requires inside { position < length blocks.now }
    requires some { 0 < most }
    ensures some { 0 < result }
    ensures most { result ≤ most }
    ensures inside { position + result ≤ length blocks.now }
    ensures side { (k : ℕ) → k < result →
        get_or blocks.now (position + k) 0 ≡ get_or blocks.now position 0 + k }
{
    let first = u64::from(blocks[position as usize]);
    for k in 1..most {
        let at = position as usize + k as usize;
        if at >= blocks.len() || u64::from(blocks[at]) != first + u64::from(k) {
            return k;
        }
    }
    most
}

/// Reads the bytes in blocks with these numbers over those of a buffer that has their length, run
/// by run.
fn read_runs<R: ReadAt>(
    input: &mut R,
    block_size: u32,
    blocks: &[u32],
    size: u32,
    buffer: &mut [u8],
) -> Option<()>
    requires size { IsBlockSize block_size }
    requires count { length blocks.now ≡ blocks_for block_size size }
    requires inside { IfKnown (R.bytes input.old) (λ file. AreInside file block_size blocks.now) }
    requires room { length buffer.old ≡ size }
    ensures reads { ReadsOrNone R.bytes R.is_broken input.old input.new result }
    ensures same { length buffer.new ≡ size }
    ensures given { IfSome result (λ _.
        AreGivenIn (R.bytes input.old) block_size blocks.now buffer.new) }
{
    let mut position = 0;
    while (position as usize) < blocks.len() {
        let run = run_len(blocks, position, MOST / block_size);
        let done = position * block_size;
        let count = (size - done).min(run * block_size);
        let start = u64::from(blocks[position as usize]) * u64::from(block_size);
        read_over(input, start, count, buffer, done as usize)?;
        position += run;
    }
    Some(())
}

/// Appends zeros to a buffer that is shorter than this. A longer one stays as it is.
fn make_room<A: Allocator>(buffer: &mut Vec<u8, A>, len: usize) -> Result<(), AllocError>
    ensures { OnOk result (length buffer.new.items ≡ max (length buffer.old.items) len) }
{
    let len = len.max(buffer.len());
    buffer.reserve_exact(len - buffer.len())?;
    buffer.resize(len, 0)
}

/// Reads the bytes in blocks with these numbers over the first bytes of a buffer. There are `size`
/// bytes, and `block_size` in each block but the last. Consecutive blocks are read at once, straight
/// into the buffer.
///
/// A buffer that is shorter than that grows. A longer one keeps its length, so that the bytes behind
/// are old ones: the next call for more bytes need not write zeros there again.
///
/// The faults are `Memory` when out of memory, before anything is read, and `Read` where a read
/// fails.
pub fn read_blocks<R: ReadAt, A: Allocator>(
    input: &mut R,
    block_size: u32,
    blocks: &[u32],
    size: u32,
    buffer: &mut Vec<u8, A>,
) -> Result<(), ReadFault>
    requires size { IsBlockSize block_size }
    requires count { length blocks.now ≡ blocks_for block_size size }
    requires inside { IfKnown (R.bytes input.old) (λ file. AreInside file block_size blocks.now) }
    ensures reads { ReadsInto R.bytes R.is_broken input.old input.new result }
    ensures len { OnOk result (length buffer.new.items ≡ max (length buffer.old.items) size) }
    ensures value { OnOk result (IfKnown (R.bytes input.old) (λ file.
        take size buffer.new.items ≡ in_blocks file block_size blocks.now size)) }
    ensures given { OnOk result
        (AreGivenIn (R.bytes input.old) block_size blocks.now (take size buffer.new.items)) }
{
    make_room(buffer, size as usize)?;
    let (front, _) = buffer.split_at_mut(size as usize);
    match read_runs(input, block_size, blocks, size, front) {
        Some(()) => Ok(()),
        None => Err(ReadFault::Read),
    }
}
