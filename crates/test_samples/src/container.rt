//! A container that is written from the tables of the format, with nothing of the crates that are
//! tested: docs/WRITTEN.md has the order of its parts.

use std::alloc::{AllocError, Global};

/// How many bytes a block has.
const BLOCK: usize = 4096;

/// The block map, the directory and the first stream that has bytes, in this order, follow the
/// superblock and the two free block maps.
const BLOCK_MAP: u32 = 3;

/// Appends numbers of four bytes.
fn push_numbers(file: &mut Vec<u8>, numbers: &[u32]) -> Result<(), AllocError> {
    for number in numbers {
        file.extend_from_slice(&number.to_le_bytes())?;
    }
    Ok(())
}

/// Fills the last block up with this byte.
fn fill_block(file: &mut Vec<u8>, byte: u8) -> Result<(), AllocError> {
    let over = file.len() % BLOCK;
    if over != 0 {
        file.resize(file.len().saturating_add(BLOCK - over), byte)?;
    }
    Ok(())
}

/// How many bytes a stream has, as the directory lists it.
fn size_of(stream: &[u8]) -> u32 {
    u32::try_from(stream.len()).unwrap_or(u32::MAX)
}

/// How many blocks a stream has.
fn blocks_of(stream: &[u8]) -> u32 {
    size_of(stream).div_ceil(4096)
}

/// How many blocks the file has: the five before the streams, and those of the streams.
fn block_count(streams: &[&[u8]]) -> u32 {
    let mut count = BLOCK_MAP.saturating_add(2);
    for stream in streams {
        count = count.saturating_add(blocks_of(stream));
    }
    count
}

/// The directory: how many streams there are, their sizes, and the numbers of their blocks.
fn directory(alloc: Global, streams: &[&[u8]]) -> Result<Vec<u8>, AllocError> {
    let mut bytes = Vec::new(alloc);
    push_numbers(&mut bytes, &[u32::try_from(streams.len()).unwrap_or(0)])?;
    for stream in streams {
        push_numbers(&mut bytes, &[size_of(stream)])?;
    }
    for block in BLOCK_MAP.saturating_add(2)..block_count(streams) {
        push_numbers(&mut bytes, &[block])?;
    }
    Ok(bytes)
}

/// The byte of the first free block map about eight blocks from this one on: the lowest bits, of
/// blocks of the file, are 0.
fn map_byte(count: u32, first: u32) -> u8 {
    match count.saturating_sub(first) {
        0 => 0xFF,
        1 => 0xFE,
        2 => 0xFC,
        3 => 0xF8,
        4 => 0xF0,
        5 => 0xE0,
        6 => 0xC0,
        7 => 0x80,
        _ => 0,
    }
}

/// The two free block maps. The second says that every block is free.
fn push_maps(file: &mut Vec<u8>, count: u32) -> Result<(), AllocError> {
    for byte in 0..4096u32 {
        file.push(map_byte(count, byte.saturating_mul(8)))?;
    }
    file.push(0xFF)?;
    fill_block(file, 0xFF)
}

/// A file with these streams in blocks of 4,096 bytes. The streams have fewer than 4,000 blocks
/// together, so that there is one pair of map blocks and the directory has one block.
pub fn container(alloc: Global, streams: &[&[u8]]) -> Result<Vec<u8>, AllocError> {
    let directory = directory(alloc, streams)?;
    let count = block_count(streams);
    let mut file = Vec::new(alloc);
    file.extend_from_slice(b"Microsoft C/C++ MSF 7.00\x0d\x0a\x1aDS\0\0\0")?;
    push_numbers(
        &mut file,
        &[4096, 1, count, size_of(&directory), 0, BLOCK_MAP],
    )?;
    fill_block(&mut file, 0)?;
    push_maps(&mut file, count)?;
    push_numbers(&mut file, &[BLOCK_MAP.saturating_add(1)])?;
    fill_block(&mut file, 0)?;
    file.extend_from_slice(&directory)?;
    fill_block(&mut file, 0)?;
    for stream in streams {
        file.extend_from_slice(stream)?;
        fill_block(&mut file, 0)?;
    }
    Ok(file)
}
