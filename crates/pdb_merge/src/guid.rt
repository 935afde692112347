//! The GUID of types.

ghost use Rattle.std.specs.Prelude.{◌≡◌};
ghost use Rattle.std.specs.List.{concat};
ghost use Rattle.sha2.specs.Sha256.{sha256};
ghost use Rattle.pdb_merge.specs.Guid.{types_guid};

use sha2::{Digest, Sha256};
use std::alloc::Allocator;
use type_table::Canon;
use uuid::Uuid;

/// The SHA-256 of the records of a canonical list, one after the other with their length fields.
fn digest_of<A: Allocator>(canon: &Canon<A>) -> [u8; 32]
    ensures { result ≡ sha256 (concat canon.now) }
{
    let mut hasher = Sha256::new();
    let texts = canon.texts();
    for position in 0..texts.len() {
        hasher.update(texts.get(position));
    }
    hasher.finalize()
}

/// The GUID of the types of a canonical list: a UUID of version 8, whose other bits are the first of
/// the SHA-256 of the records, one after the other with their length fields.
///
/// So equal sets of types have the same GUID. This does not allocate. (RFC 9562, "UUID Version 8".)
pub fn guid_of_types<A: Allocator>(canon: &Canon<A>) -> Uuid
    ensures { result ≡ types_guid canon.now }
{
    let digest = digest_of(canon);
    let mut first = [0; 16];
    first.copy_from_slice(&digest[..16]);
    Uuid::new_v8(first)
}
