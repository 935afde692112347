//! Where the streams of a container are.

ghost use Rattle.std.specs.Prelude.{true, false, ◌≡◌, ◌≤◌, ◌<◌, ◌*◌, ◌^◌, length, map, IfOk, IfErr, slice_get, option_map};
ghost use Rattle.byte_fields.specs.Bytes.{AreBytes};
ghost use Rattle.byte_fields.specs.Number.{nth_u32};
ghost use Rattle.byte_fields.specs.Check.{Refuses, first_failing};
ghost use Rattle.byte_io.specs.At.{IfKnown, IfOf, Reads};
ghost use Rattle.msf_superblock.specs.Superblock.{HasFront, HoldsBlocks, IsFit};
ghost use Rattle.msf_blocks.specs.Directory.{list_start, listed_below, bytes_of};
ghost use Rattle.msf_blocks.specs.Layout.{LayoutView, HasLayout, HasTexts, HasWithinFault, ListsLongStream, TextsRefuse, TextsRefuseWithin, IsLayout, block_of, layout_checks};
ghost use Rattle.msf_blocks.specs.Stream.{listed_of};

use crate::directory::{Directory, bytes_of};
use crate::directory_at::read_contents;
use byte_io::{AtFault, Limited, ReadAt};
use msf_superblock::{MsfFault, Superblock};
use std::alloc::{Allocator, Global};
use std::marker::Model;

/// A stream: its listed size in bytes, and the numbers of its blocks.
#[derive(Debug, Drop)]
struct Stream<A: Allocator> {
    size: u32,
    blocks: Vec<u32, A>,
}

/// Where the streams of a container are: its superblock, and for each stream its size in bytes and
/// the numbers of its blocks, as the stream directory lists them.
///
/// Made by [`Layout::read`] and [`Layout::read_at`]. Each block number in it is above 0 and below
/// the number of blocks of the file. Each stream has as many blocks as its bytes need. ("The MSF
/// File Format", "The Stream Directory".)
#[derive(Debug, Drop)]
pub struct Layout<A: Allocator = Global> {
    superblock: Superblock,
    streams: Vec<Stream<A>, A>,
}

impl<A: Allocator> Model for Layout<A> {
    ghost use Rattle.std.specs.Prelude.{map};
    ghost use Rattle.msf_blocks.specs.Layout.{LayoutView, IsLayout};
    ghost use Rattle.msf_blocks.specs.Stream.{listed_of};

    ghost Value = { LayoutView };

    ghost view = { λ l.
        record { superblock = l.superblock; streams = map listed_of l.streams.items } };

    ghost invariant = { λ l.
        IsLayout (record { superblock = l.superblock; streams = map listed_of l.streams.items }) };
}

/// The streams that the directory lists.
#[tactic(auto, using(crate::proofs::DirectoryLaws::list_start_upto, crate::proofs::DirectoryLaws::list_start_first, crate::proofs::DirectoryLaws::list_start_zero, crate::proofs::DirectoryLaws::list_start_more))]
fn list_streams<A: Allocator + Copy>(
    alloc: A,
    directory: &Directory<'_>,
    streams: u32,
) -> Result<Vec<Stream<A>, A>, MsfFault>
    requires streams { streams ≡ nth_u32 directory.now.contents 0 }
    requires room { 4 * list_start directory.now.superblock.block_size directory.now.contents
        streams
        ≤ length directory.now.contents }
    requires short { length directory.now.contents < 2 ^ 32 }
    ensures value { IfOk result (λ v.
        map listed_of v.items
        ≡ listed_below directory.now.superblock.block_size directory.now.contents streams) }
    ensures memory { IfErr result (λ fault. fault ≡ MsfFault.Memory) }
{
    let mut listed = Vec::with_capacity(alloc, streams as usize)?;
    let mut start = 1 + streams;
    for stream in 0..streams {
        let size = directory.size(stream);
        let count = directory.stream_blocks(stream);
        let blocks = directory.numbers(alloc, start, count)?;
        listed.push(Stream { size, blocks })?;
        start += count;
    }
    Ok(listed)
}

impl<A: Allocator + Copy> Layout<A> {
    /// Reads the layout of a container from the bytes of its file.
    ///
    /// The faults, in the order in which they are checked:
    ///
    /// 1. The faults of [`Superblock::read`].
    /// 2. `DirectoryBlock`: a number in the block map is block 0, or past the last block.
    /// 3. `DirectoryShort`: the directory is too short for the number of streams, for their sizes,
    ///    or for their lists of blocks.
    /// 4. `StreamBlock`: a number in the list of a stream is block 0, or past the last block. The
    ///    lists are checked in the order of the directory.
    /// 5. `Memory`: out of memory, and no check fails. Where memory is refused for the directory, it
    ///    is checked without.
    ///
    /// Bytes of the directory after the last list are ignored. This allocates room for the
    /// directory, for the streams and for the block numbers that it lists, as [`Layout::read_at`]
    /// does. ("The MSF File Format", "The Stream Directory".)
    pub fn read(alloc: A, file: &[u8]) -> Result<Layout<A>, MsfFault>
        ensures value { IfOk result (HasLayout file.now) }
        ensures found { (layout : LayoutView) → HasLayout file.now layout →
            IfErr result (λ fault. fault ≡ MsfFault.Memory) }
        ensures first { IfErr result
            (Refuses MsfFault.Memory (first_failing (layout_checks file.now))) }
    {
        let mut bytes = file;
        match Layout::read_at(alloc, &mut bytes) {
            Ok(layout) => Ok(layout),
            Err(AtFault::Of(fault)) => Err(fault),
            Err(AtFault::Read) => unreachable!(),
        }
    }
}

/// Reads the layout of a container by position, whose superblock was read.
fn layout_behind<R: ReadAt, A: Allocator + Copy>(
    alloc: A,
    input: &mut R,
    superblock: Superblock,
) -> Result<Layout<A>, AtFault<MsfFault>>
    requires fit { IsFit superblock }
    requires whole { IfKnown (R.bytes input.old) (λ file. HoldsBlocks file superblock) }
    requires front { HasFront (R.bytes input.old) superblock }
    ensures reads { Reads R.bytes R.is_broken input.old input.new result }
    ensures superblock { IfOk result (λ layout. layout.superblock ≡ superblock) }
    ensures texts { IfOk result (HasTexts (R.bytes input.old)) }
    ensures refused { IfErr result (IfOf (TextsRefuse (R.bytes input.old))) }
{
    let contents = read_contents(alloc, input, &superblock)?;
    let directory = Directory::gathered(superblock, &contents);
    let streams = directory.check_length()?;
    directory.check_streams(streams)?;
    let streams = list_streams(alloc, &directory, streams)?;
    Ok(Layout {
        superblock,
        streams,
    })
}

/// Reads the layout of a container by position.
fn layout_at<R: ReadAt, A: Allocator + Copy>(
    alloc: A,
    input: &mut R,
) -> Result<Layout<A>, AtFault<MsfFault>>
    ensures reads { Reads R.bytes R.is_broken input.old input.new result }
    ensures small { IfKnown (R.bytes input.old) AreBytes }
    ensures texts { IfOk result (HasTexts (R.bytes input.old)) }
    ensures refused { IfErr result (IfOf (TextsRefuse (R.bytes input.old))) }
{
    let superblock = Superblock::read_at(input)?;
    layout_behind(alloc, input, superblock)
}

impl<A: Allocator + Copy> Layout<A> {
    /// Reads the layout of a container by position: its superblock, its block map and its stream
    /// directory. No other byte of the file is read.
    ///
    /// The faults are those of [`Layout::read`], in the same order, and `AtFault::Read` where a
    /// read fails. A file may change, so the directory is read once, and what was read is checked.
    /// ("The MSF File Format", "The Stream Directory".)
    pub fn read_at<R: ReadAt>(alloc: A, input: &mut R) -> Result<Layout<A>, AtFault<MsfFault>>
        ensures reads { Reads R.bytes R.is_broken input.old input.new result }
        ensures small { IfKnown (R.bytes input.old) AreBytes }
        ensures value { IfOk result (λ layout.
            IfKnown (R.bytes input.old) (λ file. HasLayout file layout)) }
        // Even if the file's bytes are not known, the layout is that of bytes that reads gave.
        ensures texts { IfOk result (HasTexts (R.bytes input.old)) }
        ensures found { IfErr result (IfOf (λ fault. IfKnown (R.bytes input.old) (λ file.
            (layout : LayoutView) → HasLayout file layout → fault ≡ MsfFault.Memory))) }
        ensures first { IfErr result (IfOf (λ fault. IfKnown (R.bytes input.old) (λ file.
            Refuses MsfFault.Memory (first_failing (layout_checks file)) fault))) }
        // Even if the file's bytes are not known, the fault is that of bytes that reads gave.
        ensures refused { IfErr result (IfOf (TextsRefuse (R.bytes input.old))) }
    {
        layout_at(alloc, input)
    }

    /// Reads the layout of a container by position, as [`Layout::read_at`] does, unless its
    /// directory has more than `limit` bytes. A directory may list a block many times, so it may be
    /// far longer than its file.
    ///
    /// `TooLong` comes after the faults of the superblock and before all others. Nothing is
    /// allocated then, and nothing but the superblock is read.
    pub fn read_within<R: ReadAt>(
        alloc: A,
        input: &mut R,
        limit: u32,
    ) -> Result<Layout<A>, AtFault<Limited<MsfFault>>>
        ensures reads { Reads R.bytes R.is_broken input.old input.new result }
        ensures small { IfKnown (R.bytes input.old) AreBytes }
        ensures value { IfOk result (λ layout.
            IfKnown (R.bytes input.old) (λ file. HasLayout file layout)) }
        ensures texts { IfOk result (HasTexts (R.bytes input.old)) }
        ensures short { IfOk result (λ layout. layout.superblock.directory_bytes ≤ limit) }
        ensures first { IfErr result (IfOf (λ fault.
            IfKnown (R.bytes input.old) (λ file. HasWithinFault limit file fault))) }
        ensures refused { IfErr result (IfOf (TextsRefuseWithin limit (R.bytes input.old))) }
    {
        let superblock = match Superblock::read_at(input) {
            Ok(superblock) => superblock,
            Err(fault) => return Err(fault.widen()),
        };
        if limit < superblock.directory_bytes() {
            return Err(AtFault::Of(Limited::TooLong));
        }
        match layout_behind(alloc, input, superblock) {
            Ok(layout) => Ok(layout),
            Err(fault) => Err(fault.widen()),
        }
    }
}

impl<A: Allocator> Layout<A> {
    /// The superblock.
    pub fn superblock(&self) -> &Superblock
        ensures { result.now ≡ self.now.superblock }
    {
        &self.superblock
    }

    /// How many streams there are.
    pub fn streams(&self) -> u32
        ensures value { result ≡ length self.now.streams }
        ensures fits { IsLayout self.now }
    {
        self.streams.len() as u32
    }

    /// The length of the `s`-th stream in bytes, from 0. A nil stream has length 0. `None` where
    /// `s` is not a stream.
    pub fn size(&self, s: u32) -> Option<u32>
        ensures value { result ≡ option_map (λ l. bytes_of l.size) (slice_get self.now.streams s) }
        ensures fits { IsLayout self.now }
    {
        let stream = self.streams.get(s as usize)?;
        Some(bytes_of(stream.size))
    }

    /// Whether the `s`-th stream, from 0, has more than `limit` bytes. A stream may list a block many
    /// times, so it may have more bytes than its file. One that is not there has none.
    pub fn is_longer(&self, s: u32, limit: u32) -> bool
        ensures yes { result ≡ true → ListsLongStream limit s self.now }
        ensures no { result ≡ false → ListsLongStream limit s self.now → ⊥ }
    {
        match self.size(s) {
            Some(size) => limit < size,
            None => false,
        }
    }

    /// The numbers of the blocks of the `s`-th stream, from 0. `None` where `s` is not a stream.
    pub fn blocks(&self, s: u32) -> Option<&[u32]>
        ensures value { option_map (λ blocks. blocks.now) result
            ≡ option_map (λ l. l.blocks) (slice_get self.now.streams s) }
        ensures fits { IsLayout self.now }
    {
        let stream = self.streams.get(s as usize)?;
        Some(&stream.blocks)
    }

    /// The number of the `k`-th block of the `s`-th stream. Both count from 0. `None` where `s` is
    /// not a stream, or where the stream has no such block.
    pub fn block(&self, s: u32, k: u32) -> Option<u32>
        ensures value { result ≡ block_of self.now.streams s k }
        ensures fits { IsLayout self.now }
    {
        let stream = self.streams.get(s as usize)?;
        stream.blocks.get(k as usize).copied()
    }
}
