//! The stream directory and the block map: reads both, and writes those of an image.

ghost use Rattle.std.specs.Prelude.{IfOk, OnOk, map, ◌^◌, ◌≡◌, ◌+◌, ◌*◌, ◌<◌, ◌≤◌, ◌∷◌, ◌++◌, length};
ghost use Rattle.std.specs.List.{range_with_len};
ghost use Rattle.byte_fields.specs.Number.{nth_u32, u32s};
ghost use Rattle.byte_fields.specs.Bytes.{AreBytes};
ghost use Rattle.byte_fields.specs.Check.{Makes, checks_below};
ghost use Rattle.msf_superblock.specs.BlockNumber.{IsBlockSize, block_numbers};
ghost use Rattle.msf_blocks.specs.Directory.{directory_blocks, bytes_of, stream_blocks, list_start, length_checks, stream_checks};

use byte_fields::{push_u32, u32_at};
use msf_superblock::{BlockSize, MsfFault, Superblock, blocks_for, is_ordinary};
use std::alloc::{AllocError, Allocator};
use std::marker::Model;

/// The size that marks a nil stream.
const NIL: u32 = u32::MAX;

/// How many bytes a stream of this listed size has. A nil stream has 0 bytes.
pub fn bytes_of(size: u32) -> u32
    ensures { result ≡ bytes_of size }
{
    if size == NIL { 0 } else { size }
}

/// The contents of a stream directory, one number after the other, and the superblock that its file
/// begins with.
#[derive(Drop)]
pub struct Directory<'a> {
    superblock: Superblock,
    contents: &'a [u8],
}

impl<'a> Model for Directory<'a> {
    ghost use Rattle.std.specs.Prelude.{◌≡◌, length};
    ghost use Rattle.msf_blocks.specs.Directory.{DirectoryView};

    ghost Value = { DirectoryView };

    ghost view = { λ d. record { superblock = d.superblock; contents = d.contents.now } };

    ghost invariant = { λ d. length d.contents.now ≡ d.superblock.directory_bytes };
}

impl<'a> Directory<'a> {
    /// The directory with these contents, of a file that begins with this superblock.
    pub fn gathered(superblock: Superblock, contents: &'a [u8]) -> Directory<'a>
        requires { length contents.now ≡ superblock.directory_bytes }
        ensures superblock { result.superblock ≡ superblock }
        ensures contents { result.contents ≡ contents.now }
        ensures short { length result.contents < 2 ^ 32 }
        ensures small { AreBytes contents.now }
    {
        Directory {
            superblock,
            contents,
        }
    }

    /// The superblock of the file.
    pub fn superblock(&self) -> Superblock
        ensures value { result ≡ self.now.superblock }
        ensures len { length self.now.contents ≡ result.directory_bytes }
    {
        self.superblock
    }

    /// The number at a position of the directory. The directory is a list of four-byte numbers.
    #[tactic(auto, unfolding(byte_fields::specs::Number::nth_u32))]
    pub fn number(&self, position: u32) -> u32
        requires { 4 * position + 4 ≤ length self.now.contents }
        ensures { result ≡ nth_u32 self.now.contents position }
    {
        u32_at(self.contents, 4 * position as usize)
    }

    /// The listed size of a stream in bytes: 0xFFFFFFFF for a nil stream.
    pub fn size(&self, stream: u32) -> u32
        requires there { 4 * (1 + stream) + 4 ≤ length self.now.contents }
        requires short { length self.now.contents < 2 ^ 32 }
        ensures { result ≡ nth_u32 self.now.contents (1 + stream) }
    {
        self.number(1 + stream)
    }

    /// How many blocks a stream has.
    #[tactic(auto, unfolding(crate::specs::Directory::stream_blocks))]
    pub fn stream_blocks(&self, stream: u32) -> u32
        requires { 4 * (1 + stream) + 4 ≤ length self.now.contents }
        ensures value { result
            ≡ stream_blocks self.now.superblock.block_size self.now.contents stream }
        ensures few { result ≤ 2 ^ 23 }
    {
        blocks_for(self.superblock().block_size(), bytes_of(self.size(stream)))
    }

    /// The position after the last list of blocks, computed from the sizes of the streams.
    #[tactic(auto, unfolding(crate::specs::Directory::list_start))]
    fn lists_end(&self, streams: u32) -> u64
        requires streams { streams ≡ nth_u32 self.now.contents 0 }
        requires room { 4 * (1 + streams) ≤ length self.now.contents }
        ensures value { result
            ≡ list_start self.now.superblock.block_size self.now.contents streams }
        ensures few { result < 2 ^ 60 }
    {
        let mut end = 1 + u64::from(streams);
        for stream in 0..streams {
            end += u64::from(self.stream_blocks(stream));
        }
        end
    }

    /// Checks that the directory is long enough for everything that it lists, and returns how many
    /// streams it lists.
    #[tactic(auto, unfolding(crate::specs::Directory::length_checks))]
    pub fn check_length(&self) -> Result<u32, MsfFault>
        ensures streams { IfOk result (λ n. n ≡ nth_u32 self.now.contents 0) }
        ensures room { IfOk result (λ n.
            4 * list_start self.now.superblock.block_size self.now.contents n
            ≤ length self.now.contents) }
        ensures first { Makes result
            (length_checks self.now.superblock.block_size self.now.contents) }
    {
        let have = u64::from(self.superblock().directory_bytes());
        if have < 4 {
            return Err(MsfFault::DirectoryShort { need: 4, have });
        }
        let streams = self.number(0);
        let need = 4 + 4 * u64::from(streams);
        if have < need {
            return Err(MsfFault::DirectoryShort { need, have });
        }
        // The sum needs 64 bits: the sizes in a hostile file may add up to more than 2^32.
        let need = 4 * self.lists_end(streams);
        if have < need {
            return Err(MsfFault::DirectoryShort { need, have });
        }
        Ok(streams)
    }

    /// Checks the block numbers of a stream. Its list has `count` numbers and begins at position
    /// `start`.
    #[tactic(auto, unfolding(crate::specs::Directory::stream_checks))]
    fn check_stream(&self, stream: u32, start: u32, count: u32) -> Result<(), MsfFault>
        requires start { start
            ≡ list_start self.now.superblock.block_size self.now.contents stream }
        requires count { count
            ≡ stream_blocks self.now.superblock.block_size self.now.contents stream }
        requires room { 4 * (start + count) ≤ length self.now.contents }
        ensures { Makes result (stream_checks self.now.superblock self.now.contents stream) }
    {
        let num_blocks = self.superblock().num_blocks();
        for at in 0..count {
            let n = self.number(start + at);
            if !is_ordinary(num_blocks, n) {
                return Err(MsfFault::StreamBlock { stream, at, n });
            }
        }
        Ok(())
    }

    /// Checks the block numbers of all streams. `streams` says how many streams there are.
    #[tactic(auto, unfolding(crate::specs::Directory::list_start))]
    pub fn check_streams(&self, streams: u32) -> Result<(), MsfFault>
        requires streams { streams ≡ nth_u32 self.now.contents 0 }
        requires room { 4 * list_start self.now.superblock.block_size self.now.contents streams
            ≤ length self.now.contents }
        requires short { length self.now.contents < 2 ^ 32 }
        ensures { Makes result
            (checks_below streams (stream_checks self.now.superblock self.now.contents)) }
    {
        let mut start = 1 + streams;
        for stream in 0..streams {
            let count = self.stream_blocks(stream);
            self.check_stream(stream, start, count)?;
            start += count;
        }
        Ok(())
    }

    /// The `count` numbers of the directory from position `start` on. This allocates four bytes for
    /// each number, all at once.
    #[tactic(auto, using(crate::proofs::DirectoryLaws::map_range_more))]
    pub fn numbers<A: Allocator>(
        &self,
        alloc: A,
        start: u32,
        count: u32,
    ) -> Result<Vec<u32, A>, AllocError>
        requires room { 4 * (start + count) ≤ length self.now.contents }
        requires short { length self.now.contents < 2 ^ 32 }
        ensures { IfOk result (λ v.
            v.items ≡ map (λ k. nth_u32 self.now.contents (start + k)) (range_with_len 0 count)) }
    {
        let mut numbers = Vec::with_capacity(alloc, count as usize)?;
        for k in 0..count {
            numbers.push(self.number(start + k))?;
        }
        Ok(numbers)
    }
}

/// Appends numbers in four bytes each.
#[tactic(auto, using(crate::proofs::WrittenLaws::u32s_more))]
fn push_numbers<A: Allocator>(bytes: &mut Vec<u8, A>, numbers: &[u32]) -> Result<(), AllocError>
    ensures { OnOk result (bytes.new.items ≡ bytes.old.items ++ u32s numbers.now) }
{
    for number in numbers {
        push_u32(bytes, *number)?;
    }
    Ok(())
}

/// Appends the numbers of `count` data blocks, beginning with data block `first`.
#[tactic(auto, using(crate::proofs::WrittenLaws::small_number))]
fn push_blocks<A: Allocator>(
    bytes: &mut Vec<u8, A>,
    block_size: BlockSize,
    first: u32,
    count: u32,
) -> Result<(), AllocError>
    requires { first + count < 2 ^ 28 }
    ensures { OnOk result
        (bytes.new.items ≡ bytes.old.items ++ u32s (block_numbers block_size first count)) }
{
    for j in 0..count {
        push_u32(bytes, block_size.nth_block(first + j))?;
    }
    Ok(())
}

/// The block map of an image: the numbers of the `directory_blocks` blocks of its directory, which
/// begin with data block 2.
///
/// `block_size` is in bytes. This allocates four bytes for each number, all at once. ("The MSF File
/// Format", "The Stream Directory".)
pub fn block_map_bytes<A: Allocator>(
    alloc: A,
    block_size: u32,
    directory_blocks: u32,
) -> Result<Vec<u8, A>, AllocError>
    requires size { IsBlockSize block_size }
    requires few { directory_blocks < 2 ^ 27 }
    ensures { IfOk result (λ v. v.items ≡ u32s (block_numbers block_size 2 directory_blocks)) }
{
    let mut bytes = Vec::with_capacity(alloc, 4 * directory_blocks as usize)?;
    push_blocks(&mut bytes, BlockSize::of(block_size), 2, directory_blocks)?;
    Ok(bytes)
}

/// The directory of an image with five streams of these sizes, in bytes. The streams have `blocks`
/// blocks together, and these follow the `directory_blocks` blocks of the directory.
///
/// `block_size` is in bytes. This allocates room for the directory, all at once. ("The MSF File
/// Format", "The Stream Directory".)
pub fn directory_bytes<A: Allocator>(
    alloc: A,
    block_size: u32,
    sizes: &[u32; 5],
    directory_blocks: u32,
    blocks: u32,
) -> Result<Vec<u8, A>, AllocError>
    requires size { IsBlockSize block_size }
    requires few { directory_blocks < 2 ^ 26 }
    requires fits { blocks ≤ 5 * 2 ^ 23 }
    ensures { IfOk result (λ v.
        v.items ≡ u32s (5 ∷ sizes.now ++ block_numbers block_size (2 + directory_blocks) blocks)) }
{
    let mut bytes = Vec::with_capacity(alloc, 4 * (6 + blocks as usize))?;
    push_u32(&mut bytes, 5)?;
    push_numbers(&mut bytes, sizes)?;
    push_blocks(
        &mut bytes,
        BlockSize::of(block_size),
        2 + directory_blocks,
        blocks,
    )?;
    Ok(bytes)
}
