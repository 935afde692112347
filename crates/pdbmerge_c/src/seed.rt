//! Hashes whose seed the caller gives.

use std::io;
use std::random::RandomSource;

/// Random bytes, for hashes alone. No answer depends on them.
#[repr(C)]
#[derive(Clone, Copy, Debug)]
pub struct Seed {
    pub bytes: [u8; 16],
}

impl RandomSource for Seed {
    fn fill_bytes(&self, buf: &mut [u8]) -> io::Result<()> {
        let count = buf.len().min(16);
        buf[..count].copy_from_slice(&self.bytes[..count]);
        Ok(())
    }
}
