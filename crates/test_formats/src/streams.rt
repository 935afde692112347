//! What no clause says: that calls succeed, and out of memory.

ghost use Rattle.std.specs.Prelude.{◌+◌, ◌≤◌, length};
ghost use Rattle.msf_blocks.specs.Layout.{HasLayout};

use byte_io::AtFault;
use msf_blocks::Layout;
use msf_streams::{StreamFault, contents_at, gather, lent};
use std::alloc::Allocator;
use std::test::Fail;
use test_samples::{refusals, sample};

/// The size of a block, in bytes.
const BLOCK: usize = 4096;

/// Writes a four-byte number, the lowest byte first.
fn put(file: &mut [u8], offset: usize, number: u32)
    requires { offset + 4 ≤ length file.old }
{
    file[offset..offset + 4].copy_from_slice(&number.to_le_bytes());
}

/// A container of ten blocks. Block 3 is the block map and block 4 the directory, of five
/// streams:
///
/// | stream | bytes | blocks |
/// |---|---|---|
/// | 0 | 4,097 | 9, 5 |
/// | 1 | 0 | |
/// | 2 | nil | |
/// | 3 | 10 | 6 |
/// | 4 | 4,096 | 6 |
///
/// The bytes from block 5 on count from 0 to 250, again and again.
fn container() -> [u8; 40960] {
    let mut file = [0u8; 40960];
    file[..32].copy_from_slice(b"Microsoft C/C++ MSF 7.00\x0d\x0a\x1aDS\0\0\0");
    let superblock = [4096, 1, 10, 40, 0, 3];
    for (k, number) in superblock.iter().enumerate() {
        put(&mut file, 32 + 4 * k, *number);
    }
    put(&mut file, 3 * BLOCK, 4);
    let directory = [5, 4097, 0, u32::MAX, 10, 4096, 9, 5, 6, 6];
    for (k, number) in directory.iter().enumerate() {
        put(&mut file, 4 * BLOCK + 4 * k, *number);
    }
    for (i, byte) in file[5 * BLOCK..].iter_mut().enumerate() {
        *byte = (i % 251) as u8;
    }
    file
}

/// The bytes of a stream of a file in memory.
fn contents_of<'a, A: Allocator>(
    file: &'a [u8],
    layout: &Layout<A>,
    s: u32,
    buffer: &'a mut Vec<u8, A>,
) -> Result<&'a [u8], StreamFault>
    requires { HasLayout file.now layout.now }
{
    let mut input = file;
    match contents_at(&mut input, layout, s, buffer) {
        Ok(bytes) => Ok(bytes),
        Err(AtFault::Of(fault)) => Err(fault),
        Err(AtFault::Read) => unreachable!(),
    }
}

#[test]
fn consecutive_blocks_are_lent(rt: HostRuntime) -> Result<(), Fail> {
    let mut file = container();
    let layout = Layout::read(rt.alloc(), &file)?;
    assert_eq!(rt; lent(&file, &layout, 0), None);
    for (s, size) in [(1, 0), (2, 0), (3, 10), (4, 4096)] {
        let place = 24576..24576 + size;
        assert!(rt; lent(&file, &layout, s) == file.get(place), "stream {s}");
    }
    assert_eq!(rt; lent(&file, &layout, 5), None);
    // With the blocks 8 and 9 stream 0 is one part of the file, over the end of a block.
    put(&mut file, 4 * BLOCK + 24, 8);
    put(&mut file, 4 * BLOCK + 28, 9);
    let layout = Layout::read(rt.alloc(), &file)?;
    assert_eq!(rt; lent(&file, &layout, 0), file.get(32768..36865));
    let file = sample(rt.alloc())?;
    let layout = Layout::read(rt.alloc(), &file)?;
    assert_eq!(rt; lent(&file, &layout, 0), Some(&[][..]));
    assert_eq!(rt; lent(&file, &layout, 2), file.get(3072..3152));
    assert_eq!(rt; lent(&file, &layout, 5), None);
    Ok(())
}

#[test]
fn only_scattered_blocks_are_gathered(rt: HostRuntime) -> Result<(), Fail> {
    let file = container();
    let layout = Layout::read(rt.alloc(), &file)?;
    let mut buffer = Vec::new(rt.alloc());
    contents_of(&file, &layout, 3, &mut buffer)?;
    assert!(rt; buffer.is_empty());
    for s in [3, 0, 4, 0] {
        let want = gather(rt.alloc(), &file, &layout, s)?;
        let bytes = contents_of(&file, &layout, s, &mut buffer)?;
        assert!(rt; bytes == want.as_slice(), "stream {s}");
    }
    assert_eq!(rt; buffer.len(), 4097);
    let fault = contents_of(&file, &layout, 5, &mut buffer).err();
    assert_eq!(rt; fault, Some(StreamFault::NoStream(5)));
    Ok(())
}

#[test]
fn growth_is_refused(rt: HostRuntime) -> Result<(), Fail> {
    let file = container();
    let layout = Layout::read(rt.alloc(), &file)?;
    refusals(
        rt.alloc(),
        256,
        20,
        |heap| match gather(heap, &file, &layout, 0) {
            Ok(text) => {
                assert_eq!(rt; text.len(), 4097);
                Ok(false)
            }
            Err(fault) => {
                assert_eq!(rt; fault, StreamFault::Memory);
                Ok(true)
            }
        },
    )?;
    Ok(())
}
