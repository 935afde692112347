//! Adds records to a table, each after those that it names.
//!
//! Types are added in their order. The records of a stream are added as they stand, and checked on
//! the way, since compilers write most records after those that they name. If one of these has a
//! fault or names a later one, the walk ends. [`Types::check`](checked_types::Types::check) then
//! finds the fault, or the order.

ghost use Rattle.std.specs.Prelude.{◌≡◌, ◌<◌, ◌+◌, ◌^◌, IsTrue, OnOk, IfOk, IfErr, IfSome, IfNone, length};
ghost use Rattle.std.specs.List.{concat};
ghost use Rattle.tpi_records.specs.Records.{IsRecord};
ghost use Rattle.cv_leaves.specs.Place.{IsChecked};
ghost use Rattle.cv_leaves.specs.References.{references};
ghost use Rattle.byte_fields.specs.Bytes.{AreBytes};
ghost use Rattle.type_trees.specs.Table.{IsTable, AreNumbered};
ghost use Rattle.type_trees.specs.Types.{AreTypes};
ghost use Rattle.type_table.specs.Merge.{StartsWith, IsPut, IsAdded, AreFramedAdded};
ghost use Rattle.canonical_list.specs.Numbers.{AreNumbers};

use crate::becomes::is_at;
use checked_types::{Types, record_at};
use cv_leaves::list_places;
use record_set::RecordSet;
use std::alloc::{AllocError, Allocator};
use std::hash::BuildHasher;
use text_set::Change;
use tpi_records::{FIRST_INDEX, first_record};
use type_trees::renumber_in_place;

/// Each number of a `&[u8]` is a byte. This function does nothing: its contract is the fact.
pub fn are_bytes(text: &[u8])
    ensures { AreBytes text.now }
{}

/// New type indices for a record, which are written over its references.
#[derive(Drop)]
struct Renumbering<'n> {
    // the places at which the record names other records
    places: &'n [u16],
    // for each record that may be named, its position in the set
    numbers: &'n [u32],
}

impl Change for Renumbering<'_> {
    ghost use Rattle.std.specs.Prelude.{◌≡◌};
    ghost use Rattle.tpi_records.specs.Records.{IsRecord};
    ghost use Rattle.cv_leaves.specs.Place.{IsChecked};
    ghost use Rattle.cv_leaves.specs.References.{references};
    ghost use Rattle.cv_leaves.specs.Named.{named_places};
    ghost use Rattle.type_trees.specs.Table.{AreNumbered};
    ghost use Rattle.type_table.specs.Merge.{IsRenumbered};

    ghost takes = { λ change r.
        IsRecord r × IsChecked r × (change.places.now ≡ named_places r) };

    ghost makes = { λ change r made. IsRenumbered change.numbers.now r made };

    ghost refuses = { λ change r. AreNumbered change.numbers.now (references r) → ⊥ };

    fn write_over(&self, text: &mut [u8]) -> bool {
        renumber_in_place(text, self.places, self.numbers)
    }
}

// The memory of an input with more records is given back after it.
const KEPT_NUMBERS: usize = 1 << 16;

/// The memory that adding records takes. It serves one input after the other.
#[derive(Debug, Drop)]
pub struct Workspace<A: Allocator> {
    // for each record of the input, its position in the set, or 0 where it has none yet
    numbers: Vec<u32, A>,
    // the places at which one record names others
    places: Vec<u16, A>,
}

impl<A: Allocator + Copy> Workspace<A> {
    /// No memory yet. This does not allocate.
    pub fn new(alloc: A) -> Workspace<A> {
        Workspace {
            numbers: Vec::new(alloc),
            places: Vec::new(alloc),
        }
    }

    /// The numbers of the last input.
    pub fn into_numbers(self) -> Vec<u32, A>
        ensures { result.items ≡ self.numbers.items }
    {
        let Workspace { numbers, places: _ } = self;
        numbers
    }

    /// Gives the memory of a large input back.
    pub fn clear(&mut self, alloc: A) {
        if self.numbers.len() > KEPT_NUMBERS {
            *self = Workspace::new(alloc);
        }
    }
}

impl<A: Allocator> Workspace<A> {
    /// The numbers of the last input.
    pub fn numbers(&self) -> &[u32]
        ensures { result.now ≡ self.now.numbers.items }
    {
        &self.numbers
    }
}

/// Puts a record into the set, if it isn't there yet, and returns its position there. `None` where
/// the record has a fault, or where it names a record without a number.
///
/// `numbers` has the positions in the set of the records that may be named. `guess` is the position
/// where the record is looked for first. Unless a position is returned, the set stays as it was.
// Two loops call this for each record, and one of them is seldom used.
#[inline(always)]
#[tactic(auto, using(type_trees::proofs::RenumberLaws::padded_record, type_trees::proofs::RenumberLaws::long_record, type_trees::proofs::RenumberLaws::renumbered_long, type_trees::proofs::NamedLaws::listed_short))]
fn put_record<S: BuildHasher, A: Allocator>(
    records: &mut RecordSet<S, A>,
    places: &mut Vec<u16, A>,
    bytes: &[u8],
    numbers: &[u32],
    guess: usize,
) -> Result<Option<usize>, AllocError>
    requires table { IsTable records.old }
    requires framed { IsRecord bytes.now }
    requires few { length (concat records.old) + length bytes.now < 2 ^ 33 }
    ensures put { IfOk result (λ found.
        IfSome found (λ k. IsPut records.old records.new numbers.now bytes.now k)) }
    ensures all { IsChecked bytes.now → AreNumbered numbers.now (references bytes.now) →
        IfOk result (λ found. IfNone found ⊥) }
    ensures none { IfOk result (λ found. IfNone found (records.new ≡ records.old)) }
    ensures err { IfErr result (λ _. records.new ≡ records.old) }
{
    if is_at(records, guess, bytes, numbers) {
        return Ok(Some(guess));
    }
    if !list_places(bytes, places)? {
        return Ok(None);
    }
    let change = Renumbering { places, numbers };
    let Some(position) = records.intern_changed(bytes, places, &change)? else {
        return Ok(None);
    };
    are_bytes(records.bytes());
    Ok(Some(position))
}

/// Puts the records in these bytes into the set, as they stand there. Returns whether that succeeded:
/// the bytes are `count` records, and each has places and names only earlier ones. If it did not, or
/// if memory runs out, some of them may be in the set.
pub fn add_framed<S: BuildHasher, A: Allocator>(
    records: &mut RecordSet<S, A>,
    work: &mut Workspace<A>,
    bytes: &[u8],
    count: u32,
) -> Result<bool, AllocError>
    requires table { IsTable records.old }
    requires short { length (concat records.old) < 2 ^ 32 }
    requires few { length bytes.now < 2 ^ 32 }
    ensures added { IfOk result (λ all.
        IsTrue all →
        AreFramedAdded count bytes.now records.old records.new work.new.numbers.items) }
    ensures front { StartsWith records.new records.old }
{
    let Workspace { numbers, places } = work;
    // A record has at least four bytes, so the count takes no more memory than the bytes.
    if bytes.len() / 4 < count as usize {
        return Ok(false);
    }
    numbers.clear();
    numbers.reserve(count as usize)?;
    let mut guess = 0;
    let mut left = bytes;
    while !left.is_empty() {
        let Ok(record) = first_record(left, FIRST_INDEX) else {
            return Ok(false);
        };
        let Some(found) = put_record(records, places, record, numbers, guess)? else {
            return Ok(false);
        };
        numbers.push(found as u32)?;
        guess = found + 1;
        let (_, rest) = left.split_at(record.len());
        left = rest;
    }
    Ok(numbers.len() == count as usize)
}

/// Puts all types of an input into the set, each after those that it names. If memory runs out, some
/// of them may be in the set.
pub fn add_in_order<S: BuildHasher, A: Allocator + Copy>(
    records: &mut RecordSet<S, A>,
    work: &mut Workspace<A>,
    types: &Types<'_, A>,
) -> Result<(), AllocError>
    requires table { IsTable records.old }
    requires short { length (concat records.old) < 2 ^ 32 }
    ensures types { AreTypes types.now }
    ensures few { length types.now < 2 ^ 30 }
    ensures added { OnOk result (IsAdded types.now records.old records.new) }
    ensures numbers { OnOk result (AreNumbers types.now records.new work.new.numbers.items) }
    ensures light { OnOk result
        (length (concat records.new) < length (concat records.old) + 2 ^ 32) }
    ensures front { StartsWith records.new records.old }
{
    let many = types.len();
    let order = types.in_order();
    let Workspace { numbers, places } = work;
    numbers.clear();
    numbers.resize(many, 0)?;
    let mut guess = 0;
    let mut cursor = types.records().cursor();
    for position in order {
        let record = record_at(&mut cursor, position);
        let Some(found) = put_record(records, places, record, numbers, guess)? else {
            unreachable!();
        };
        numbers[position] = found as u32;
        guess = found + 1;
    }
    Ok(())
}
