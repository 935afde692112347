//! Files with streams that a test gives.

use crate::container::container;
use crate::records::{stream_of, stream_with};
use pdb_info::{Settings, guid_of};
use std::alloc::{AllocError, Global};
use std::test::Fail;

/// The GUID 00112233-4455-6677-8899-aabbccddeeff, as it is stored.
pub const GUID: [u8; 16] = [
    0x33, 0x22, 0x11, 0x00, 0x55, 0x44, 0x77, 0x66, 0x88, 0x99, 0xAA, 0xBB, 0xCC, 0xDD, 0xEE, 0xFF,
];

/// The highest limit of the bytes of the types in a file.
pub const LIMIT: u32 = 1_073_741_824;

/// Settings with that GUID and the age 1, for a file with at most `limit` bytes of types in blocks of
/// this size.
pub fn settings(limit: u32, block_size: u32) -> Result<Settings, Fail> {
    Ok(Settings::new(guid_of(GUID), 1, limit, block_size).ok_or("no settings")?)
}

/// The info stream with that GUID and the age 1: version, signature, age, GUID, and a map of no named
/// streams.
const INFO: [u8; 52] =
    *b"\x94\x2e\x31\x01\0\0\0\0\x01\0\0\0\x33\x22\x11\x00\x55\x44\x77\x66\x88\x99\xaa\xbb\xcc\xdd\xee\xff\0\0\0\0\0\0\0\0\x08\0\0\0\0\0\0\0\0\0\0\0\0\0\0\0";

/// A file with this stream 2 in blocks of 4,096 bytes.
fn with_types(alloc: Global, types: &[u8]) -> Result<Vec<u8>, AllocError> {
    container(alloc, &[&[], &INFO, types, &[], &[]])
}

/// A file with that GUID and the age 1. The header of its stream 2 gives `count` as the number of
/// records, and `records` are the bytes after it.
pub fn pdb(alloc: Global, count: u32, records: &[u8]) -> Result<Vec<u8>, AllocError> {
    let stream = stream_of(alloc, count, records)?;
    with_types(alloc, &stream)
}

/// A file with that GUID, the age 1 and these records.
pub fn pdb_with(alloc: Global, records: &[&[u8]]) -> Result<Vec<u8>, AllocError> {
    let stream = stream_with(alloc, records)?;
    with_types(alloc, &stream)
}
