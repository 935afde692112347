//! The definitions that only one of two lists of types has.

ghost use Rattle.std.specs.Prelude.{◌≡◌, map, filter, not, IfOk, length};
ghost use Rattle.std.specs.List.{AllByRecursion};
ghost use Rattle.type_changes.specs.Lone.{distinct, has};
ghost use Rattle.type_changes.specs.Seen.{IsInside, seen, seen_at};

use crate::place::Place;
use crate::told::Told;
use indexmap::IndexSet;
use std::alloc::{AllocError, Allocator};
use std::hash::BuildHasher;

/// The definitions at these places, each once.
pub fn distinct<'a, S: BuildHasher + Drop, A: Allocator + Copy>(
    alloc: A,
    hasher: S,
    text: &'a [u8],
    places: &[Place],
) -> Result<IndexSet<Told<'a>, S, A>, AllocError>
    requires { AllByRecursion (IsInside (length text.now)) places.now }
    ensures { IfOk result (λ all.
        map seen all.keys ≡ distinct (map (seen_at text.now) places.now)) }
{
    let mut all = IndexSet::with_hasher(alloc, hasher);
    for place in places {
        all.insert(place.told(text))?;
    }
    Ok(all)
}

/// Those of our definitions that are not among theirs.
pub fn lone<'a, S: BuildHasher, A: Allocator + Copy>(
    alloc: A,
    ours: &IndexSet<Told<'a>, S, A>,
    theirs: &IndexSet<Told<'a>, S, A>,
) -> Result<Vec<Told<'a>, A>, AllocError>
    ensures { IfOk result (λ lone. map seen lone.items
        ≡ filter (λ d. not (has (map seen theirs.now.keys) d)) (map seen ours.now.keys)) }
{
    let mut lone = Vec::new(alloc);
    for told in ours.as_slice() {
        if !theirs.contains(told) {
            lone.push(*told)?;
        }
    }
    Ok(lone)
}
