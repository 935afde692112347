//! Which definition is the only one with its key.

ghost use Rattle.std.specs.Prelude.{◌≡◌, List, map, option_map, IfOk};
ghost use Rattle.type_changes.specs.Definition.{Definition};
ghost use Rattle.type_changes.specs.Lone.{sole};
ghost use Rattle.type_changes.specs.Seen.{AreSoles, seen, seen_key};

use crate::key::Key;
use crate::told::Told;
use indexmap::IndexMap;
use std::alloc::{AllocError, Allocator};
use std::hash::BuildHasher;

/// Of each key the definition that has it, or nothing where several have it.
pub type Soles<'a, S, A> = IndexMap<Key<'a>, Option<Told<'a>>, S, A>;

/// Of each key of these definitions the one that has it, or nothing where several have it.
pub fn soles<'a, S: BuildHasher + Drop, A: Allocator + Copy>(
    alloc: A,
    hasher: S,
    all: &[Told<'a>],
) -> Result<Soles<'a, S, A>, AllocError>
    ensures { IfOk result (λ soles. AreSoles soles (map seen all.now)) }
{
    let mut soles = IndexMap::with_hasher(alloc, hasher);
    for told in all {
        let sole = if soles.contains_key(&told.key) {
            None
        } else {
            Some(*told)
        };
        soles.insert(told.key, sole)?;
    }
    Ok(soles)
}

/// The only definition with a key.
pub fn sole_of<'a, S: BuildHasher, A: Allocator>(
    soles: &Soles<'a, S, A>,
    key: &Key<'a>,
) -> Option<Told<'a>>
    ensures { (definitions : List Definition) → AreSoles soles.now definitions →
        option_map seen result ≡ sole definitions (seen_key key.now) }
{
    *soles.get(key)?
}
