//! Type records, and the TPI streams that have them.

use std::alloc::{AllocError, Global};

/// A const int.
pub const CONST: &[u8] = b"\x0a\0\x01\x10\x74\0\0\0\x01\0\xf2\xf1";

/// A volatile int.
pub const VOLATILE: &[u8] = b"\x0a\0\x01\x10\x74\0\0\0\x02\0\xf2\xf1";

/// A pointer to an int.
pub const TO_INT: &[u8] = b"\x0a\0\x02\x10\x74\0\0\0\x0c\0\x01\0";

/// A pointer to the first record.
pub const TO_FIRST: &[u8] = b"\x0a\0\x02\x10\0\x10\0\0\x0c\0\x01\0";

/// A pointer to the second record.
pub const TO_SECOND: &[u8] = b"\x0a\0\x02\x10\x01\x10\0\0\x0c\0\x01\0";

/// A pointer to the third record.
pub const TO_THIRD: &[u8] = b"\x0a\0\x02\x10\x02\x10\0\0\x0c\0\x01\0";

/// A field list.
pub const LIST: &[u8] = b"\x0a\0\x03\x12\x02\x15\x03\0\0\0\x41\0";

/// A pointer to the type with this index.
pub fn pointer(to: u32) -> [u8; 12] {
    let [a, b, c, d] = to.to_le_bytes();
    [10, 0, 0x02, 0x10, a, b, c, d, 0x0C, 0, 1, 0]
}

/// The bytes of these records, one after the other.
pub fn bytes_of(alloc: Global, records: &[&[u8]]) -> Result<Vec<u8>, AllocError> {
    let mut bytes = Vec::new(alloc);
    for record in records {
        bytes.extend_from_slice(record)?;
    }
    Ok(bytes)
}

/// The last 36 bytes of a header: the number of the hash stream and that of its auxiliary stream,
/// the size of a hash and the number of buckets, and the places of three empty tables.
const HASHES: &[u8; 36] = b"\xff\xff\xff\xff\x04\0\0\0\xff\xff\x03\0\
\0\0\0\0\0\0\0\0\0\0\0\0\0\0\0\0\0\0\0\0\0\0\0\0";

/// A TPI stream with the bytes of `count` records.
pub fn stream_of(alloc: Global, count: u32, records: &[u8]) -> Result<Vec<u8>, AllocError> {
    let mut stream = Vec::new(alloc);
    for number in [
        20040203,
        56,
        0x1000,
        0x1000u32.saturating_add(count),
        u32::try_from(records.len()).unwrap_or(u32::MAX),
    ] {
        stream.extend_from_slice(&number.to_le_bytes())?;
    }
    stream.extend_from_slice(HASHES)?;
    stream.extend_from_slice(records)?;
    Ok(stream)
}

/// A TPI stream with these records.
pub fn stream_with(alloc: Global, records: &[&[u8]]) -> Result<Vec<u8>, AllocError> {
    let count = u32::try_from(records.len()).unwrap_or(u32::MAX);
    stream_of(alloc, count, &bytes_of(alloc, records)?)
}
