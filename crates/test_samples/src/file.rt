//! The sample that is shipped, made from its table.

use std::alloc::{AllocError, Global};

/// The length of the sample in bytes: seven blocks of 512.
const LENGTH: usize = 3584;

/// The bytes of the sample that are not zero, each part with its offset.
const PARTS: [(usize, &[u8]); 11] = [
    // block 0: the superblock
    (0, b"Microsoft C/C++ MSF 7.00\x0d\x0a\x1aDS\0\0\0"),
    (
        32,
        b"\x00\x02\0\0\x01\0\0\0\x07\0\0\0\x20\0\0\0\0\0\0\0\x03\0\0\0",
    ),
    // block 3: the block map
    (1536, b"\x04\0\0\0"),
    // block 4: the stream directory: five streams, and two of them have bytes
    (
        2048,
        b"\x05\0\0\0\0\0\0\0\x34\0\0\0\x50\0\0\0\0\0\0\0\0\0\0\0\x05\0\0\0\x06\0\0\0",
    ),
    // block 5: the info stream
    (2560, b"\x94\x2e\x31\x01\0\0\0\0\x01\0\0\0"),
    (
        2572,
        b"\x33\x22\x11\x00\x55\x44\x77\x66\x88\x99\xaa\xbb\xcc\xdd\xee\xff",
    ),
    (2596, b"\x08\0\0\0"),
    // block 6: the header of the TPI stream, and its two records
    (
        3072,
        b"\x0b\xca\x31\x01\x38\0\0\0\x00\x10\0\0\x02\x10\0\0\x18\0\0\0",
    ),
    (3092, b"\xff\xff\xff\xff\x04\0\0\0\xff\xff\x03\x00"),
    (3128, b"\x0a\x00\x02\x10\x74\0\0\0\x0c\x00\x01\x00"),
    (3140, b"\x0a\x00\x01\x10\x74\0\0\0\x01\x00\xf2\xf1"),
];

/// Replaces the bytes of a file from the offset `at` on by others. The file keeps its length: bytes
/// that lie past its end are left out.
pub fn put(file: &mut [u8], at: usize, bytes: &[u8]) {
    for (place, byte) in file.iter_mut().skip(at).zip(bytes) {
        *place = *byte;
    }
}

/// The sample.
pub fn sample(alloc: Global) -> Result<Vec<u8>, AllocError> {
    let mut file = vec![in alloc; 0u8; LENGTH]?;
    for (at, bytes) in PARTS {
        put(&mut file, at, bytes);
    }
    Ok(file)
}
