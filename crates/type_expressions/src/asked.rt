//! What a reader asks for, and which definitions are shown for it.

ghost use Rattle.std.specs.Prelude.{◌≡◌, ◌<◌, ◌≤◌, ◌^◌, List, length};
ghost use Rattle.std.specs.List.{list_any};
ghost use Rattle.tpi_records.specs.Records.{IsRecord};
ghost use Rattle.type_trees.specs.Tree.{Tree};
ghost use Rattle.type_expressions.specs.Asked.{AreTrees, best, better, found_at, found_in, is_best, is_meant, is_shown};

use crate::definition::{is_definition, only_declares};
use checked_types::Types;
use cv_leaves::type_name;
use std::alloc::Allocator;
use tpi_records::FIRST_INDEX;

/// What a reader asks for.
#[derive(Clone, Copy, Debug)]
pub enum Query<'a> {
    /// The type with this type index.
    Index(u32),
    /// The types with this name.
    Name(&'a [u8]),
}

/// What is found of what a reader asks for.
#[derive(Clone, Copy, Debug, PartialEq, Eq)]
pub enum Found {
    /// No type.
    Nothing,
    /// A type that is only declared.
    Declared,
    /// A type with its members.
    Defined,
}

/// What a reader asks for, and what was found of it.
#[derive(Clone, Copy, Debug)]
pub struct Asked<'a> {
    /// What the reader asks for.
    pub query: Query<'a>,
    /// The best that was found of it.
    pub found: Found,
}

impl<'a> Asked<'a> {
    /// Something that is asked for. Nothing is found of it yet.
    pub fn new(query: Query<'a>) -> Asked<'a>
        ensures query { result.query ≡ query.entry }
        ensures found { result.found ≡ Found.Nothing }
    {
        Asked {
            query,
            found: Found::Nothing,
        }
    }
}

impl Found {
    /// What a record is: the definition of a type, a declaration of one, or neither.
    #[tactic(auto, unfolding(crate::specs::Asked::found_in))]
    fn of(record: &[u8]) -> Found
        requires { 4 ≤ length «record».now }
        ensures { result ≡ found_in «record».now }
    {
        if !is_definition(record) {
            Found::Nothing
        } else if only_declares(record) {
            Found::Declared
        } else {
            Found::Defined
        }
    }

    /// The better of two: a definition is better than a declaration.
    #[tactic(auto, unfolding(crate::specs::Asked::better))]
    fn or_better(self, other: Found) -> Found
        ensures { result ≡ better self other }
    {
        match (self, other) {
            (Found::Defined, _) | (_, Found::Defined) => Found::Defined,
            (Found::Declared, _) | (_, Found::Declared) => Found::Declared,
            _ => Found::Nothing,
        }
    }

    /// Whether something was found that is as good as the best.
    #[tactic(auto, unfolding(crate::specs::Asked::is_best))]
    fn is_best(self, best: Found) -> bool
        ensures { result ≡ is_best best self }
    {
        match (best, self) {
            (Found::Declared, Found::Declared) | (Found::Defined, Found::Defined) => true,
            _ => false,
        }
    }
}

/// Whether the record at a position has the type index, or the name, that is asked for.
#[tactic(auto, unfolding(crate::specs::Asked::is_meant))]
fn is_meant(query: &Query<'_>, position: usize, record: &[u8]) -> bool
    requires few { position < 2 ^ 30 }
    requires framed { IsRecord «record».now }
    ensures { result ≡ is_meant query.now position «record».now }
{
    match query {
        Query::Index(index) => *index as usize == FIRST_INDEX as usize + position,
        Query::Name(name) => match type_name(record) {
            Some(own) => own == *name,
            None => false,
        },
    }
}

/// What the record at a position is of what is asked for.
#[tactic(auto, unfolding(crate::specs::Asked::found_at))]
fn found_at(query: &Query<'_>, position: usize, record: &[u8]) -> Found
    requires few { position < 2 ^ 30 }
    requires framed { IsRecord «record».now }
    ensures { result ≡ found_at query.now position «record».now }
{
    match Found::of(record) {
        Found::Nothing => Found::Nothing,
        found if is_meant(query, position, record) => found,
        _ => Found::Nothing,
    }
}

/// The best that is found among types of what is asked for.
pub fn best_of<A: Allocator>(query: &Query<'_>, types: &Types<'_, A>) -> Found
    ensures { (trees : List Tree) → AreTrees types.now trees → result ≡ best query.now 0 trees }
{
    let mut best = Found::Nothing;
    let mut records = types.iter();
    for position in 0..types.len() {
        let Some(record) = records.next() else {
            unreachable!()
        };
        best = best.or_better(found_at(query, position, record));
    }
    best
}

/// Whether the record at a position is the best of something that is asked for.
fn is_best_of_any(asked: &[Asked<'_>], position: usize, record: &[u8]) -> bool
    requires few { position < 2 ^ 30 }
    requires framed { IsRecord «record».now }
    ensures { result
        ≡ list_any (λ a. is_best a.found (found_at a.query position «record».now)) asked.now }
{
    for one in asked {
        if found_at(&one.query, position, record).is_best(one.found) {
            return true;
        }
    }
    false
}

/// Whether the record at a position is shown.
#[tactic(auto, unfolding(crate::specs::Asked::is_shown))]
pub fn is_shown(asked: &[Asked<'_>], position: usize, record: &[u8]) -> bool
    requires few { position < 2 ^ 30 }
    requires framed { IsRecord «record».now }
    ensures { result ≡ is_shown asked.now position «record».now }
{
    if asked.is_empty() {
        Found::of(record).is_best(Found::Defined)
    } else {
        is_best_of_any(asked, position, record)
    }
}
