//! Changes the last text where it lies, and looks it up among those before it.

ghost use Rattle.std.specs.Prelude.{◌≡◌, ◌+◌, ◌/◌, ◌^◌, [], false, length, get_or, take, IsTrue, IfOk, IfErr, IfSome, IfNone};
ghost use Rattle.text_set.specs.TextKeys.{HaveKeys};
ghost use Rattle.text_set.specs.TextSet.{IsKeyed};

use crate::change::Change;
use crate::find::{Keys, find_or_key, hash_of};
use packed_texts::PackedTexts;
use std::alloc::{AllocError, Allocator};
use std::hash::BuildHasher;

/// Writes over the last text. Returns whether the change made something of it.
#[inline(always)]
fn change_last<C: Change, A: Allocator>(texts: &mut PackedTexts<A>, last: usize, change: &C) -> bool
    requires last { length texts.old ≡ last + 1 }
    requires takes { C.takes change.now (get_or texts.old last []) }
    ensures others { take last texts.new ≡ take last texts.old }
    ensures many { length texts.new ≡ last + 1 }
    ensures made { IsTrue result →
        C.makes change.now (get_or texts.old last []) (get_or texts.new last []) }
    ensures same { IsTrue result →
        length (get_or texts.new last []) ≡ length (get_or texts.old last []) }
    ensures none { result ≡ false → C.refuses change.now (get_or texts.old last []) }
{
    change.write_over(texts.get_mut(last))
}

/// The position of what a change makes of the last text. If no text before it is the same, this is
/// its own position, and it gets a key. `None` where the change makes nothing of it.
///
/// Where this runs out of memory, the last text may be changed, and has no key.
#[inline(always)]
pub(crate) fn place_last<S: BuildHasher, A: Allocator, C: Change>(
    texts: &mut PackedTexts<A>,
    keys: &mut Keys<A>,
    hasher: &S,
    last: usize,
    change: &C,
) -> Result<Option<usize>, AllocError>
    requires last { length texts.old ≡ last + 1 }
    requires takes { C.takes change.now (get_or texts.old last []) }
    requires keyed { HaveKeys
        (λ x. S.Hasher.finish (S.Hasher.write (S.build_hasher hasher.now) x) / 2 ^ 32)
        (take last texts.old) keys.old.keys }
    ensures others { take last texts.new ≡ take last texts.old }
    ensures many { length texts.new ≡ last + 1 }
    ensures made { IfOk result (λ found. IfSome found (λ _.
        C.makes change.now (get_or texts.old last []) (get_or texts.new last []))) }
    ensures same { IfOk result (λ found. IfSome found (λ _.
        length (get_or texts.new last []) ≡ length (get_or texts.old last []))) }
    ensures keyed { IfOk result (λ found. IfSome found (IsKeyed
        (take last texts.old) (get_or texts.new last [])
        (S.Hasher.finish
        (S.Hasher.write (S.build_hasher hasher.now) (get_or texts.new last [])) / 2 ^ 32)
        keys.old.keys keys.new.keys)) }
    ensures none { IfOk result (λ found.
        IfNone found (C.refuses change.now (get_or texts.old last []))) }
    ensures kept { IfOk result (λ found. IfNone found (keys.new.keys ≡ keys.old.keys)) }
    ensures err { IfErr result (λ _. keys.new.keys ≡ keys.old.keys) }
{
    if !change_last(texts, last, change) {
        return Ok(None);
    }
    let text = texts.get(last);
    let position = find_or_key(texts, keys, text, hash_of(hasher, text))?;
    Ok(Some(position))
}
