//! Hashers: one that is good, and one for which all texts are alike.

use std::hash::{BuildHasher, BuildHasherDefault, FoldHasher, Hasher};

/// The hasher that a caller uses if it has no other.
pub fn folding() -> BuildHasherDefault<FoldHasher> {
    BuildHasherDefault::new()
}

/// A hasher that returns the same number for every text.
#[derive(Clone, Copy, Debug)]
pub struct Constant {
    pub number: u64,
}

impl Hasher for Constant {
    ghost write = { λ h _. h };

    ghost finish = { λ h. h.number };

    fn finish(&self) -> u64 {
        self.number
    }

    fn write(&mut self, _bytes: &[u8]) {}
}

impl BuildHasher for Constant {
    type Hasher = Constant;

    ghost build_hasher = { λ s. s };

    fn build_hasher(&self) -> Constant {
        *self
    }
}
