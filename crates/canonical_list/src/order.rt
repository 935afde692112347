//! The canonical order of a table, which is found level by level.
//!
//! A *level* is the records of one depth. The *number* of a record is its position in the canonical
//! list. The *row* of a record is the record with the type indices of the canonical list in place
//! of those of the table. The rows of a level are known as soon as the records of the lower levels
//! have their numbers. Each record becomes its row where it lies.

ghost use Rattle.std.specs.Prelude.{◌≡◌, ◌+◌, ◌^◌, ◌<◌, ◌++◌, [], ℕ, length, get_or, set, IfOk};
ghost use Rattle.std.specs.List.{All, concat};
ghost use Rattle.std.specs.List.Sorted.{IsPermutation};
ghost use Rattle.packed_texts.specs.PackedTexts.{texts_at, IsOrder};
ghost use Rattle.record_set.specs.RecordSet.{HasNamedPlaces};
ghost use Rattle.type_trees.specs.Depth.{HasDepths, AreBelow};
ghost use Rattle.type_trees.specs.Tree.{IsType};
ghost use Rattle.type_trees.specs.Table.{IsTable, renumbered};
ghost use Rattle.canonical_list.specs.Rows.{positions, row_bytes, AreInOrder, HaveHeads};
ghost use Rattle.canonical_list.specs.Numbers.{AreNumbers};
ghost use Rattle.canonical_list.specs.Finish.{AtLevel, Numbered, CanRenumber, RowsMade, IsCanonOf};

use crate::levels::Levels;
use crate::row::Row;
use crate::sort::{ROUNDS, sort_rows};
use packed_texts::PackedTexts;
use record_set::PlaceLists;
use std::alloc::{AllocError, Allocator, Global};
use type_trees::{levels_of, renumber_in_place};

/// Makes a record its row.
fn put_row<A: Allocator>(
    records: &mut PackedTexts<A>,
    position: usize,
    places: &PlaceLists<A>,
    numbers: &[u32],
)
    requires inside { position < length records.old }
    requires lists { length places.now ≡ length records.old }
    requires ready { CanRenumber records.old places.now numbers.now position }
    ensures { records.new ≡ set records.old position
        (renumbered (λ k. get_or numbers.now k 0) (get_or records.old position [])) }
{
    renumber_in_place(records.get_mut(position), places.get(position), numbers);
}

/// Makes the records of a level their rows, and lists these in any order.
fn collect<A: Allocator>(
    rows: &mut Vec<Row, A>,
    records: &mut PackedTexts<A>,
    places: &PlaceLists<A>,
    depths: &Levels<'_, A>,
    level: u32,
    numbers: &[u32],
) -> Result<(), AllocError>
    requires few { length records.old < 2 ^ 31 }
    requires many { length depths.now ≡ length records.old }
    requires lists { length places.now ≡ length records.old }
    requires ready { (k : ℕ) → k < length records.old → get_or depths.now k 0 ≡ level →
        CanRenumber records.old places.now numbers.now k }
    ensures level { IfOk result (λ _. AtLevel depths.now level (positions rows.new.items)) }
    ensures made { IfOk result (λ _. RowsMade records.old records.new
        (λ k. get_or numbers.now k 0) (positions rows.new.items)) }
    ensures heads { IfOk result (λ _. HaveHeads 0 records.new rows.new.items) }
{
    rows.clear();
    let mut candidate = depths.newest(level);
    while let Some(position) = candidate {
        put_row(records, position, places, numbers);
        let row = Row::new(records.get(position), 0, position);
        rows.push(row)?;
        candidate = depths.older(position);
    }
    Ok(())
}

/// Puts the rows of a level in the order of their bytes.
fn sort_level<A: Allocator>(rows: &mut Vec<Row, A>, records: &PackedTexts<A>)
    requires heads { HaveHeads 0 records.now rows.old.items }
    ensures moved { IsPermutation (positions rows.old.items) (positions rows.new.items) }
    ensures sorted { AreInOrder (row_bytes records.now rows.new.items) }
{
    sort_rows(records, rows, 0, ROUNDS);
}

/// Numbers the records of the rows, and appends their positions to the order.
fn number_rows<A: Allocator>(
    rows: &[Row],
    numbers: &mut [u32],
    order: &mut Vec<u32, A>,
) -> Result<(), AllocError>
    requires within { All (λ p. p.position < length numbers.old) rows.now }
    requires few { length order.old.items + length rows.now < 2 ^ 31 }
    requires small { length numbers.old < 2 ^ 31 }
    requires bounded { (k : ℕ) → get_or numbers.old k 0 < 2 ^ 31 }
    ensures order { IfOk result (λ _. order.new.items ≡ order.old.items ++ positions rows.now) }
    ensures numbered { IfOk result (λ _. Numbered (positions rows.now) (length order.old.items)
        (length rows.now) numbers.old numbers.new) }
    ensures same { length numbers.new ≡ length numbers.old }
    ensures bounded { (k : ℕ) → get_or numbers.new k 0 < 2 ^ 31 }
{
    for row in rows {
        numbers[row.position] = order.len() as u32;
        order.push(row.position as u32)?;
    }
    Ok(())
}

/// The canonical order of a table.
#[derive(Debug, Drop)]
pub struct CanonicalOrder<A: Allocator = Global> {
    /// The positions of the records in the table, in canonical order.
    pub order: Vec<u32, A>,
    /// For each record of the table, its position in the canonical list.
    pub numbers: Vec<u32, A>,
}

/// Puts the types of a table in canonical order. Each record gets the type indices of the canonical
/// list.
///
/// `places` has the places at which each record names others, and `depths` the depth of each type.
/// If this runs out of memory, some of the records have other type indices than before.
#[tactic(auto, using(crate::proofs::FinishLaws::table_small))]
pub fn canonical_order<A: Allocator + Copy>(
    alloc: A,
    records: &mut PackedTexts<A>,
    places: &PlaceLists<A>,
    depths: &[u32],
) -> Result<CanonicalOrder<A>, AllocError>
    requires table { IsTable records.old }
    requires short { length (concat records.old) < 2 ^ 32 }
    requires listed { HasNamedPlaces records.old places.now }
    requires known { HasDepths records.old depths.now }
    ensures order { IfOk result (λ found. IsOrder records.new found.order.items) }
    ensures canon { IfOk result (λ found.
        IsCanonOf (texts_at records.new found.order.items) (IsType records.old)) }
    // The type of each record is in the list at the number of the record.
    ensures numbers { IfOk result (λ found. AreNumbers
        records.old (texts_at records.new found.order.items) found.numbers.items) }
    ensures small { IfOk result (λ found. AreBelow (2 ^ 31) found.numbers.items) }
{
    let levels = levels_of(depths);
    let chained = Levels::of(alloc, depths, levels)?;
    let mut numbers = vec![in alloc; 0u32; depths.len()]?;
    let mut order = Vec::with_capacity(alloc, depths.len())?;
    // One vector serves all levels.
    let mut rows = Vec::new(alloc);
    for level in 0..levels {
        collect(&mut rows, records, places, &chained, level, &numbers)?;
        sort_level(&mut rows, records);
        number_rows(&rows, &mut numbers, &mut order)?;
    }
    Ok(CanonicalOrder { order, numbers })
}
