//! The checks of a directory for which memory was refused. They are made all the same, through two
//! windows on the stack: one on the sizes of the streams, one on their lists of blocks.

ghost use Rattle.std.specs.Prelude.{Err, Some, ◌+◌, ◌*◌, ◌<◌, ◌≤◌, ◌^◌, map, OnOk, IfOk, IfErr, IfSome};
ghost use Rattle.byte_io.specs.At.{IfKnown, IfOf, Reads, ReadsOrNone};
ghost use Rattle.msf_blocks.specs.Directory.{IsDirectoryNumber, IsReadable, HasSize, HasSizes, HasRoom, LacksRoom, HasBlocks, HasLists, HasBlockMap, BlockMapRefuses, ListRefuses, ContentsRefuse, DirectoryRefuses};
ghost use Rattle.msf_superblock.specs.Superblock.{HoldsBlocks, IsFit};
ghost use Rattle.msf_blocks.specs.Window.{IsWindow};

use crate::directory::bytes_of;
use crate::window::{Window, read_directory_number, read_map_number};
use byte_io::{AtFault, ReadAt};
use msf_superblock::{MsfFault, Superblock, blocks_for, is_ordinary};

/// Checks the numbers in the block map.
fn check_map<R: ReadAt>(input: &mut R, superblock: &Superblock) -> Result<(), AtFault<MsfFault>>
    requires whole { IfKnown (R.bytes input.old) (λ file. HoldsBlocks file superblock.now) }
    ensures reads { Reads R.bytes R.is_broken input.old input.new result }
    ensures map { OnOk result (HasBlockMap (R.bytes input.old) superblock.now) }
    ensures refused { IfErr result (IfOf (BlockMapRefuses (R.bytes input.old) superblock.now)) }
{
    for at in 0..blocks_for(superblock.block_size(), superblock.directory_bytes()) {
        let Some(n) = read_map_number(input, superblock, at) else {
            return Err(AtFault::Read);
        };
        if !is_ordinary(superblock.num_blocks(), n) {
            return Err(AtFault::Of(MsfFault::DirectoryBlock { at, n }));
        }
    }
    Ok(())
}

/// How many blocks a stream has.
fn read_stream_blocks<R: ReadAt>(
    input: &mut R,
    superblock: &Superblock,
    sizes: &mut Window,
    stream: u32,
) -> Option<u32>
    requires readable { IfKnown (R.bytes input.old) (λ file. IsReadable file superblock.now) }
    requires there { 4 * (1 + stream) + 4 ≤ superblock.now.directory_bytes }
    requires window { IsWindow (R.bytes input.old) superblock.now sizes.old }
    ensures reads { ReadsOrNone R.bytes R.is_broken input.old input.new result }
    ensures window { IsWindow (R.bytes input.old) superblock.now sizes.new }
    ensures few { IfSome result (λ n. n ≤ 2 ^ 23) }
    ensures size { IfSome result (HasSize (R.bytes input.old) superblock.now stream) }
{
    let block_size = superblock.block_size();
    let size = read_directory_number(input, superblock, sizes, 1 + stream)?;
    Some(blocks_for(block_size, bytes_of(size)))
}

/// The position after the last list of blocks, computed from the sizes of the streams from this one
/// on. Its own list begins at position `start`.
fn read_lists_end<R: ReadAt>(
    input: &mut R,
    superblock: &Superblock,
    sizes: &mut Window,
    from: u32,
    start: u64,
    streams: u32,
) -> Option<u64>
    requires readable { IfKnown (R.bytes input.old) (λ file. IsReadable file superblock.now) }
    requires few { 4 * (1 + streams) ≤ superblock.now.directory_bytes }
    requires upto { from ≤ streams }
    requires short { start ≤ 2 ^ 33 }
    requires window { IsWindow (R.bytes input.old) superblock.now sizes.old }
    ensures reads { ReadsOrNone R.bytes R.is_broken input.old input.new result }
    ensures window { IsWindow (R.bytes input.old) superblock.now sizes.new }
    ensures few { IfSome result (λ n. n < 2 ^ 60) }
    ensures sizes { IfSome result (HasSizes (R.bytes input.old) superblock.now from streams start) }
{
    let mut end = start;
    for stream in from..streams {
        end += u64::from(read_stream_blocks(input, superblock, sizes, stream)?);
    }
    Some(end)
}

/// Checks that the directory is long enough for the lists of the streams from this one on. Its own
/// list begins at position `start`.
fn check_end<R: ReadAt>(
    input: &mut R,
    superblock: &Superblock,
    sizes: &mut Window,
    from: u32,
    start: u64,
    streams: u32,
) -> Result<(), AtFault<MsfFault>>
    requires readable { IfKnown (R.bytes input.old) (λ file. IsReadable file superblock.now) }
    requires few { 4 * (1 + streams) ≤ superblock.now.directory_bytes }
    requires upto { from ≤ streams }
    requires short { start ≤ 2 ^ 33 }
    requires window { IsWindow (R.bytes input.old) superblock.now sizes.old }
    ensures reads { Reads R.bytes R.is_broken input.old input.new result }
    ensures window { IsWindow (R.bytes input.old) superblock.now sizes.new }
    ensures room { OnOk result (HasRoom (R.bytes input.old) superblock.now from streams start) }
    ensures refused { IfErr result
        (IfOf (LacksRoom (R.bytes input.old) superblock.now from streams start)) }
{
    let Some(end) = read_lists_end(input, superblock, sizes, from, start, streams) else {
        return Err(AtFault::Read);
    };
    // The sum needs 64 bits: the sizes in a hostile file may add up to more than 2^32.
    let need = 4 * end;
    let have = u64::from(superblock.directory_bytes());
    if have < need {
        return Err(AtFault::Of(MsfFault::DirectoryShort { need, have }));
    }
    Ok(())
}

/// Checks that the directory is long enough for everything that it lists, and returns how many
/// streams it lists.
fn check_length<R: ReadAt>(
    input: &mut R,
    superblock: &Superblock,
    sizes: &mut Window,
) -> Result<u32, AtFault<MsfFault>>
    requires readable { IfKnown (R.bytes input.old) (λ file. IsReadable file superblock.now) }
    requires window { IsWindow (R.bytes input.old) superblock.now sizes.old }
    ensures reads { Reads R.bytes R.is_broken input.old input.new result }
    ensures window { IsWindow (R.bytes input.old) superblock.now sizes.new }
    ensures few { IfOk result (λ n. 4 * (1 + n) ≤ superblock.now.directory_bytes) }
    ensures short { IfOk result (λ n. 4 * (1 + n) < 2 ^ 32) }
    ensures given { IfOk result (IsDirectoryNumber (R.bytes input.old) superblock.now 0) }
    ensures refused { IfErr result (IfOf (ContentsRefuse (R.bytes input.old) superblock.now)) }
{
    let have = u64::from(superblock.directory_bytes());
    if have < 4 {
        return Err(AtFault::Of(MsfFault::DirectoryShort { need: 4, have }));
    }
    let Some(streams) = read_directory_number(input, superblock, sizes, 0) else {
        return Err(AtFault::Read);
    };
    let need = 4 + 4 * u64::from(streams);
    if have < need {
        return Err(AtFault::Of(MsfFault::DirectoryShort { need, have }));
    }
    check_end(input, superblock, sizes, 0, 1 + u64::from(streams), streams)?;
    Ok(streams)
}

/// Checks the list of blocks of a stream: the directory is long enough for it, and its numbers are
/// ordinary. It has `count` numbers and begins at position `start`.
fn check_stream<R: ReadAt>(
    input: &mut R,
    superblock: &Superblock,
    lists: &mut Window,
    stream: u32,
    start: u32,
    count: u32,
) -> Result<(), AtFault<MsfFault>>
    requires readable { IfKnown (R.bytes input.old) (λ file. IsReadable file superblock.now) }
    requires window { IsWindow (R.bytes input.old) superblock.now lists.old }
    ensures reads { Reads R.bytes R.is_broken input.old input.new result }
    ensures window { IsWindow (R.bytes input.old) superblock.now lists.new }
    ensures room { OnOk result (4 * (start + count) ≤ superblock.now.directory_bytes) }
    ensures short { OnOk result (4 * (start + count) < 2 ^ 32) }
    ensures listed { OnOk result
        (HasBlocks (R.bytes input.old) superblock.now start (start + count)) }
    ensures refused { IfErr result
        (IfOf (ListRefuses (R.bytes input.old) superblock.now stream start count)) }
{
    let have = u64::from(superblock.directory_bytes());
    // A file that changes may list more blocks now than when its length was checked.
    let need = 4 * (u64::from(start) + u64::from(count));
    if have < need {
        return Err(AtFault::Of(MsfFault::DirectoryShort { need, have }));
    }
    for at in 0..count {
        let Some(n) = read_directory_number(input, superblock, lists, start + at) else {
            return Err(AtFault::Read);
        };
        if !is_ordinary(superblock.num_blocks(), n) {
            return Err(AtFault::Of(MsfFault::StreamBlock { stream, at, n }));
        }
    }
    Ok(())
}

/// Checks the list of a stream, which begins at position `start`, and returns where it ends.
///
/// If the list has a fault, the sizes of the later streams are read again too: if the directory is
/// too short for all lists, that fault comes first.
fn check_list<R: ReadAt>(
    input: &mut R,
    superblock: &Superblock,
    sizes: &mut Window,
    lists: &mut Window,
    streams: u32,
    stream: u32,
    start: u32,
) -> Result<u32, AtFault<MsfFault>>
    requires readable { IfKnown (R.bytes input.old) (λ file. IsReadable file superblock.now) }
    requires few { 4 * (1 + streams) ≤ superblock.now.directory_bytes }
    requires below { stream < streams }
    requires lists { HasLists (R.bytes input.old) superblock.now streams stream start }
    requires on_sizes { IsWindow (R.bytes input.old) superblock.now sizes.old }
    requires on_lists { IsWindow (R.bytes input.old) superblock.now lists.old }
    ensures reads { Reads R.bytes R.is_broken input.old input.new result }
    ensures on_sizes { IsWindow (R.bytes input.old) superblock.now sizes.new }
    ensures on_lists { IsWindow (R.bytes input.old) superblock.now lists.new }
    ensures fits { IfOk result (λ end. 4 * end ≤ superblock.now.directory_bytes) }
    ensures lists { IfOk result (HasLists (R.bytes input.old) superblock.now streams (stream + 1)) }
    ensures refused { IfErr result (IfOf (ContentsRefuse (R.bytes input.old) superblock.now)) }
{
    let Some(count) = read_stream_blocks(input, superblock, sizes, stream) else {
        return Err(AtFault::Read);
    };
    match check_stream(input, superblock, lists, stream, start, count) {
        Ok(()) => Ok(start + count),
        Err(AtFault::Read) => Err(AtFault::Read),
        Err(AtFault::Of(fault)) => {
            let end = u64::from(start) + u64::from(count);
            check_end(input, superblock, sizes, stream + 1, end, streams)?;
            Err(AtFault::Of(fault))
        }
    }
}

/// Checks the lists of blocks of all streams. `streams` says how many streams there are.
fn check_streams<R: ReadAt>(
    input: &mut R,
    superblock: &Superblock,
    sizes: &mut Window,
    lists: &mut Window,
    streams: u32,
) -> Result<(), AtFault<MsfFault>>
    requires readable { IfKnown (R.bytes input.old) (λ file. IsReadable file superblock.now) }
    requires few { 4 * (1 + streams) ≤ superblock.now.directory_bytes }
    requires short { 4 * (1 + streams) < 2 ^ 32 }
    requires given { IsDirectoryNumber (R.bytes input.old) superblock.now 0 streams }
    requires on_sizes { IsWindow (R.bytes input.old) superblock.now sizes.old }
    requires on_lists { IsWindow (R.bytes input.old) superblock.now lists.old }
    ensures reads { Reads R.bytes R.is_broken input.old input.new result }
    ensures on_sizes { IsWindow (R.bytes input.old) superblock.now sizes.new }
    ensures on_lists { IsWindow (R.bytes input.old) superblock.now lists.new }
    ensures sound { OnOk result
        (ContentsRefuse (R.bytes input.old) superblock.now MsfFault.Memory) }
    ensures refused { IfErr result (IfOf (ContentsRefuse (R.bytes input.old) superblock.now)) }
{
    let mut start = 1 + streams;
    for stream in 0..streams {
        start = check_list(input, superblock, sizes, lists, streams, stream, start)?;
    }
    Ok(())
}

/// Checks what the directory lists: its length, and the block numbers of its streams.
fn check_directory<R: ReadAt>(
    input: &mut R,
    superblock: &Superblock,
) -> Result<(), AtFault<MsfFault>>
    requires readable { IfKnown (R.bytes input.old) (λ file. IsReadable file superblock.now) }
    ensures reads { Reads R.bytes R.is_broken input.old input.new result }
    ensures sound { OnOk result
        (ContentsRefuse (R.bytes input.old) superblock.now MsfFault.Memory) }
    ensures refused { IfErr result (IfOf (ContentsRefuse (R.bytes input.old) superblock.now)) }
{
    let mut sizes = Window::shut();
    let mut lists = Window::shut();
    let streams = check_length(input, superblock, &mut sizes)?;
    check_streams(input, superblock, &mut sizes, &mut lists, streams)?;
    Ok(())
}

/// The fault of a directory for which memory was refused. This does not allocate: it reads through
/// two windows on the stack. The fault is `Memory` if all checks hold.
// The windows are on its stack, so its callers do not take it in.
#[inline(never)]
pub fn fault_without_memory<R: ReadAt>(input: &mut R, superblock: &Superblock) -> AtFault<MsfFault>
    requires fit { IsFit superblock.now }
    requires whole { IfKnown (R.bytes input.old) (λ file. HoldsBlocks file superblock.now) }
    ensures reads { Reads {T = Unit {0}} R.bytes R.is_broken input.old input.new (Err result) }
    ensures refused { IfOf (DirectoryRefuses (R.bytes input.old) superblock.now) result }
{
    if let Err(fault) = check_map(input, superblock) {
        return fault;
    }
    match check_directory(input, superblock) {
        Ok(()) => AtFault::Of(MsfFault::Memory),
        Err(fault) => fault,
    }
}
