//! Finds a text by its key, or gives it one.

ghost use Rattle.std.specs.Prelude.{◌≡◌, ◌/◌, ◌^◌, ◌<◌, length, take, IfOk, IfErr};
ghost use Rattle.text_set.specs.TextKeys.{LeadTo};
ghost use Rattle.text_set.specs.TextSet.{IsKeyed};

use indexmap::IndexSet;
use packed_texts::PackedTexts;
use std::alloc::{AllocError, Allocator};
use std::hash::{BuildHasher, BuildHasherDefault, FoldHasher, Hasher};

/// The key of each text, at its position.
///
/// The key of a text is its hash or, if other texts have that hash, the next number that is free.
pub(crate) type Keys<A> = IndexSet<u32, BuildHasherDefault<FoldHasher>, A>;

/// The hash of a text: the high half of the number that the hasher returns.
#[inline]
pub(crate) fn hash_of<S: BuildHasher>(hasher: &S, text: &[u8]) -> u32
    ensures { result
        ≡ S.Hasher.finish (S.Hasher.write (S.build_hasher hasher.now) text.now) / 2 ^ 32 }
{
    let mut state = hasher.build_hasher();
    state.write(text);
    (state.finish() >> 32) as u32
}

/// The position of a text with the hash `hash` among the texts that have a key, which are the first
/// ones. If it isn't there, this is the position after them, and its key is put after the others.
///
/// If this runs out of memory, the keys stay as they were.
pub(crate) fn find_or_key<A: Allocator>(
    texts: &PackedTexts<A>,
    keys: &mut Keys<A>,
    text: &[u8],
    hash: u32,
) -> Result<usize, AllocError>
    requires few { length keys.old.keys < 2 ^ 31 }
    requires keyed { LeadTo (take (length keys.old.keys) texts.now) keys.old.keys text.now hash }
    ensures keyed { IfOk result (IsKeyed
        (take (length keys.old.keys) texts.now) text.now hash keys.old.keys keys.new.keys) }
    ensures err { IfErr result (λ _. keys.new.keys ≡ keys.old.keys) }
{
    let mut clashes = 0;
    loop {
        let (position, is_new) = keys.insert_full(hash.wrapping_add(clashes))?;
        // Different texts may have the same hash.
        if is_new || texts.get(position) == text {
            return Ok(position);
        }
        clashes += 1;
    }
}
