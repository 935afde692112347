//! The hashes by which records are found.

use std::hash::{BuildHasher, DefaultHasher, RandomState};
use std::rt::HostRuntime;

/// Makes hashers that are copies of one.
#[derive(Clone, Copy)]
pub struct Hashes {
    first: DefaultHasher,
}

impl Hashes {
    /// Hashes that nobody can predict, where the system gives random numbers. Where it gives none, the
    /// key is fixed, and records that share a hash have to be searched for.
    pub fn new(rt: &HostRuntime) -> Hashes {
        let first = match RandomState::new(rt) {
            Ok(keys) => keys.build_hasher(),
            Err(_) => DefaultHasher::new(),
        };
        Hashes { first }
    }
}

impl BuildHasher for Hashes {
    type Hasher = DefaultHasher;

    ghost build_hasher = { λ hashes. hashes.first };

    fn build_hasher(&self) -> DefaultHasher {
        self.first
    }
}
