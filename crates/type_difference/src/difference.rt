//! The comparison of two lists of types.
//!
//! The types of both lists are put into one set. So each record has the position of its type there,
//! its *number*, and two records are of the same type exactly where their numbers are equal. After
//! that only numbers are compared.

ghost use Rattle.std.specs.Prelude.{ℕ, List, IfOk, length};
ghost use Rattle.type_trees.specs.Depth.{AreBelow};
ghost use Rattle.type_difference.specs.Difference.{HaveStandings};
ghost use Rattle.type_difference.specs.Marks.{TellApart, MarkTypesOf};

use crate::marks::{mark, standing_of};
use crate::standing::Standing;
use checked_types::Types;
use record_set::RecordSet;
use std::alloc::{AllocError, Allocator, Global};
use std::hash::BuildHasher;
use type_table::number_types;

/// How the records of two lists of types stand to each other.
#[derive(Debug, Drop)]
pub struct Difference<A: Allocator = Global> {
    /// How each record of the first list stands to the second list.
    pub first: Vec<Standing, A>,
    /// How each record of the second list stands to the first list.
    pub second: Vec<Standing, A>,
}

/// How each record stands to the other list, the numbers of whose types are marked.
fn standings<A: Allocator + Copy>(
    alloc: A,
    types: &Types<'_, A>,
    numbers: &[u32],
    marks: &[bool],
) -> Result<Vec<Standing, A>, AllocError>
    requires inside { AreBelow (length marks.now) numbers.now }
    requires apart { TellApart types.now numbers.now }
    ensures { (others : List (List ℕ)) → MarkTypesOf others types.now numbers.now marks.now →
        IfOk result (λ standings. HaveStandings types.now others standings.items) }
{
    let mut standings = Vec::with_capacity(alloc, types.len())?;
    let mut seen = vec![in alloc; false; marks.len()]?;
    let mut position = 0;
    for bytes in types.records().iter() {
        let number = numbers[position] as usize;
        standings.push(standing_of(bytes, number, numbers, marks, &seen))?;
        seen[number] = true;
        position += 1;
    }
    Ok(standings)
}

/// Compares two lists of types: says of each record of either list how it stands to the other.
///
/// The only fault is that memory is refused. This takes time in proportion to both lists. It
/// allocates a set of all types, with a copy of the record of each, four bytes for each record, and
/// two bytes for each type. All of this is given back. The answer has one byte for each record.
pub fn compare<S: BuildHasher + Drop, A: Allocator + Copy>(
    alloc: A,
    first: &Types<'_, A>,
    second: &Types<'_, A>,
    hasher: S,
) -> Result<Difference<A>, AllocError>
    ensures first { IfOk result (λ difference.
        HaveStandings first.now second.now difference.first.items) }
    ensures second { IfOk result (λ difference.
        HaveStandings second.now first.now difference.second.items) }
{
    let mut set = RecordSet::with_hasher(alloc, hasher);
    let ours = number_types(alloc, &mut set, first)?;
    let theirs = number_types(alloc, &mut set, second)?;
    let many = set.len();
    drop(set);
    let marks = mark(alloc, many, &theirs)?;
    let of_first = standings(alloc, first, &ours, &marks)?;
    let marks = mark(alloc, many, &ours)?;
    let of_second = standings(alloc, second, &theirs, &marks)?;
    Ok(Difference {
        first: of_first,
        second: of_second,
    })
}
