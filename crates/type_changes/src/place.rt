//! The texts of the definitions of a list of types.

ghost use Rattle.std.specs.Prelude.{◌≡◌, ◌++◌, ℕ, List, map, filter, IfOk, OnOk, length};
ghost use Rattle.std.specs.List.{AllByRecursion};
ghost use Rattle.type_trees.specs.Tree.{Tree, IsTreeAt};
ghost use Rattle.type_expressions.specs.Asked.{AreTrees};
ghost use Rattle.type_expressions.specs.Spans.{AreListed};
ghost use Rattle.type_changes.specs.Definition.{defined_by, definitions};
ghost use Rattle.type_changes.specs.Lone.{HaveLone};
ghost use Rattle.type_changes.specs.Seen.{IsInside, is_noted, seen, seen_at};

use crate::key::Key;
use crate::names::{Names, hash_of, lacked_names};
use crate::told::Told;
use checked_types::Types;
use std::alloc::{AllocError, Allocator};
use std::hash::BuildHasher;
use type_expressions::{Lists, Parts, only_declares, push_definition};

/// Where a definition stands in a text: the name by which it is known, and its text behind that.
#[derive(Clone, Copy, Debug)]
pub struct Place {
    kind: u16,
    name: usize,
    start: usize,
    parts: Parts,
    end: usize,
}

impl Place {
    /// The definition that stands here.
    pub fn told<'a>(&self, text: &'a [u8]) -> Told<'a>
        requires { IsInside (length text.now) self.now }
        ensures { seen result ≡ seen_at text.now self.now }
    {
        Told {
            key: Key {
                kind: self.kind,
                name: &text[self.name..self.start],
            },
            title: &text[self.start..self.parts.size],
            size: &text[self.parts.size..self.parts.head],
            lines: &text[self.parts.lines..self.end],
        }
    }
}

/// Appends what is known of the definition at a position, if its name was noted, and says where it
/// stands. A declaration, and a record that defines nothing, are left out.
fn push_text<S: BuildHasher, A: Allocator, T: Allocator>(
    text: &mut Vec<u8, A>,
    places: &mut Vec<Place, A>,
    types: &Types<'_, T>,
    lists: &mut Lists<A>,
    position: usize,
    hasher: &S,
    names: &Names<A>,
) -> Result<(), AllocError>
    requires lists { AreListed types.now text.old.items lists.old }
    requires inside { AllByRecursion (IsInside (length text.old.items)) places.old.items }
    requires there { (t : Tree) × IsTreeAt types.now position t }
    ensures value { (t : Tree) → IsTreeAt types.now position t → OnOk result
        (map (seen_at text.new.items) places.new.items
        ≡ map (seen_at text.old.items) places.old.items ++ filter
        (is_noted (λ name. S.Hasher.finish (S.Hasher.write (S.build_hasher hasher.now) name))
        names.now.keys) (defined_by t)) }
    ensures lists { OnOk result (AreListed types.now text.new.items lists.new) }
    ensures inside { OnOk result
        (AllByRecursion (IsInside (length text.new.items)) places.new.items) }
    ensures kept { OnOk result
        ((more : List ℕ) × (text.new.items ≡ text.old.items ++ more)) }
{
    let Some(record) = types.get(position) else {
        return Ok(());
    };
    if only_declares(record) {
        return Ok(());
    }
    let key = Key::of(record);
    if !names.contains(&hash_of(hasher, key.name)) {
        return Ok(());
    }
    let name = text.len();
    text.extend_from_slice(key.name)?;
    let start = text.len();
    let Some(parts) = push_definition(text, types, lists, position)? else {
        return Ok(());
    };
    places.push(Place {
        kind: key.kind,
        name,
        start,
        parts,
        end: text.len(),
    })?;
    Ok(())
}

/// Appends the texts of those definitions of a list of types whose names were noted, and says where
/// each stands.
pub fn push_texts<S: BuildHasher, A: Allocator + Copy, T: Allocator>(
    alloc: A,
    text: &mut Vec<u8, A>,
    types: &Types<'_, T>,
    hasher: &S,
    names: &Names<A>,
) -> Result<Vec<Place, A>, AllocError>
    ensures value { (trees : List Tree) → AreTrees types.now trees → IfOk result (λ places.
        map (seen_at text.new.items) places.items ≡ filter
        (is_noted (λ name. S.Hasher.finish (S.Hasher.write (S.build_hasher hasher.now) name))
        names.now.keys) (definitions trees)) }
    ensures inside { IfOk result (λ places.
        AllByRecursion (IsInside (length text.new.items)) places.items) }
    ensures kept { OnOk result
        ((more : List ℕ) × (text.new.items ≡ text.old.items ++ more)) }
{
    let mut lists = Lists::new(alloc, types.len())?;
    let mut places = Vec::new(alloc);
    for position in 0..types.len() {
        push_text(
            text,
            &mut places,
            types,
            &mut lists,
            position,
            hasher,
            names,
        )?;
    }
    Ok(places)
}

/// Where the definitions of two lists of types stand in a text, those of each list in their order.
#[derive(Drop)]
pub struct Places<A: Allocator> {
    pub first: Vec<Place, A>,
    pub second: Vec<Place, A>,
}

/// Appends the texts of those definitions of two lists of types that may be in one of them alone, and
/// says where each stands.
pub fn push_both<S: BuildHasher + Drop + Copy, A: Allocator + Copy>(
    alloc: A,
    hasher: S,
    text: &mut Vec<u8, A>,
    first: &Types<'_, A>,
    second: &Types<'_, A>,
) -> Result<Places<A>, AllocError>
    ensures lone { (trees others : List Tree) → AreTrees first.now trees
        → AreTrees second.now others → IfOk result (λ places. HaveLone
        (map (seen_at text.new.items) places.first.items)
        (map (seen_at text.new.items) places.second.items)
        (definitions trees) (definitions others)) }
    ensures first { IfOk result (λ places.
        AllByRecursion (IsInside (length text.new.items)) places.first.items) }
    ensures second { IfOk result (λ places.
        AllByRecursion (IsInside (length text.new.items)) places.second.items) }
{
    let names = lacked_names(alloc, hasher, first, second)?;
    let ours = push_texts(alloc, text, first, &hasher, &names)?;
    let theirs = push_texts(alloc, text, second, &hasher, &names)?;
    Ok(Places {
        first: ours,
        second: theirs,
    })
}
