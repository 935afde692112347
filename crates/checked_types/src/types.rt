//! Records that were checked to be types.

ghost use Rattle.std.specs.Prelude.{◌≡◌, ◌↔◌, ◌≤◌, ◌<◌, ◌+◌, ◌^◌, [], ℕ, List, IsTrue, true, false, replicate, length, option_map, slice_get, Some, IfOk, IfErr, IfSome, IfNone};
ghost use Rattle.std.specs.List.{AllByRecursion, concat, range_with_len};
ghost use Rattle.byte_fields.specs.Check.{Makes};
ghost use Rattle.tpi_records.specs.Records.{IsRecord};
ghost use Rattle.cv_leaves.specs.Place.{IsChecked};
ghost use Rattle.topological_order.specs.Order.{IsOrder};
ghost use Rattle.type_trees.specs.Tree.{Tree, IsTreeAt, IsRanked};
ghost use Rattle.checked_types.specs.Graph.{graph_of};
ghost use Rattle.type_trees.specs.Depth.{depth, AreBelow, HasLevels};
ghost use Rattle.type_trees.specs.Types.{AreTypes};
ghost use Rattle.checked_types.specs.Check.{checks_of, IsTypeFault};
ghost use Rattle.checked_types.specs.Measured.{AreMeasured, StoresDepth};

use crate::check::check_record;
use crate::fault::{RecordFault, TypeFault};
use crate::measure::measure;
use crate::order::{InOrder, Order, arrange};
use std::alloc::{AllocError, Allocator, Global};
use std::marker::Model;
use tpi_records::{Iter, RecordIndex, Records};
use type_trees::levels_of;

/// The type records of a file. Each is whole and has places, and no record leads into a cycle of
/// references.
///
/// [`Types::check`] makes it. It keeps the records, and four bytes for each: its depth. Where a
/// record names a later one, it keeps four more bytes for each: their order. [`Types::index`] keeps
/// four more for each, so that one is found without a step.
#[derive(Debug, Drop)]
pub struct Types<'a, A: Allocator = Global> {
    records: Records<'a, A>,
    order: Order<A>,
    depths: Vec<u32, A>,
    index: Option<RecordIndex<'a, A>>,
}

impl<'a, A: Allocator> Model for Types<'a, A> {
    ghost use Rattle.std.specs.Prelude.{◌≡◌, List, ℕ, IfSome, length};
    ghost use Rattle.checked_types.specs.Order.{order_list};
    ghost use Rattle.checked_types.specs.Measured.{AreMeasured};

    ghost Value = { List (List ℕ) };

    ghost view = { λ t. t.records };

    ghost invariant = { λ t. record {
      measured : AreMeasured t.records (order_list (length t.records) t.order) t.depths.items;
      indexed : IfSome t.index (λ index. index ≡ t.records);
    } };
}

/// Stores the depth of the record at a position. Returns whether it is known and has room.
fn keep_depth(depths: &mut [u32], position: usize, depth: Option<u32>) -> bool
    ensures kept { result ≡ true →
        (d : ℕ) × (depth ≡ Some d) × StoresDepth depths.old depths.new position d }
    ensures same { result ≡ false → depths.new ≡ depths.old }
{
    let Some(depth) = depth else {
        return false;
    };
    if position >= depths.len() {
        return false;
    }
    depths[position] = depth;
    true
}

/// Checks all records, in order, and measures their depths in the same walk. Returns whether all
/// depths are known. They are not if a record names itself or a later one, or if there is no room
/// for them.
fn check_all<A: Allocator>(
    records: &Records<'_, A>,
    depths: &mut [u32],
) -> Result<bool, RecordFault>
    requires { AreBelow 1 depths.old }
    ensures framed { AllByRecursion IsRecord records.now }
    ensures first { Makes result (checks_of records.now) }
    ensures lower { IfOk result (λ all. all ≡ true → IsRanked records.now (λ i. i)) }
    ensures measured { IfOk result (λ all. all ≡ true →
        depths.old ≡ replicate (length records.now) 0 →
        AreMeasured records.now (range_with_len 0 (length records.now)) depths.new) }
{
    let many = records.len();
    let mut position = 0;
    let mut all = true;
    for bytes in records.iter() {
        let depth = check_record(many, position, bytes, depths)?;
        all &= keep_depth(depths, position, depth);
        position += 1;
    }
    Ok(all)
}

impl<'a, A: Allocator + Copy> Types<'a, A> {
    /// Checks that records are types.
    ///
    /// The records are checked in order. The leaf of each is checked first, then its references in
    /// the order of their places. The check for cycles comes after all records. The faults:
    ///
    /// - `Leaf`: a record has a fault in its leaf.
    /// - `Ref`: a reference of 0x1000 or more is not the type index of a record.
    /// - `Cycle`: there is no order in which each record comes after those that it names. The fault
    ///   has the type indices of the records that lead into a cycle.
    /// - `Memory`: out of memory. Each record passed its checks.
    ///
    /// A refusal drops the records, and the stream that they are lent from stays as it was. This
    /// first allocates four bytes for each record, all at once, and then goes through the records
    /// once. If there is no memory for these bytes, the records are checked all the same. Where a
    /// record names a later one, the search for an order allocates about 20 more bytes for each
    /// record and 4 for each reference, and it takes time in proportion to both.
    pub fn check(alloc: A, records: Records<'a, A>) -> Result<Types<'a, A>, TypeFault<A>>
        ensures value { IfOk result (λ types. (types ≡ records.entry) × AreTypes records.entry) }
        // Records that make types are refused only when out of memory.
        ensures found { AreTypes records.entry → IfErr result (λ fault. fault ≡ TypeFault.Memory) }
        // `Memory` is returned only where no check of a record fails.
        ensures first { IfErr result (IsTypeFault records.entry) }
    {
        let Ok(mut depths) = vec![in alloc; 0u32; records.len()] else {
            // Out of memory, but a fault of a record comes first.
            check_all(&records, &mut [])?;
            return Err(TypeFault::Memory);
        };
        if check_all(&records, &mut depths)? {
            return Ok(Types {
                records,
                order: Order::InFileOrder,
                depths,
                index: None,
            });
        }
        drop(depths);
        let order = arrange(alloc, &records)?;
        let depths = measure(alloc, &records, &order)?;
        Ok(Types {
            records,
            order,
            depths,
            index: None,
        })
    }

    /// Keeps where each record begins, so that [`Types::get`] finds it without a step: four bytes for
    /// each, allocated at once. Who asks for types out of their order calls this first.
    pub fn index(&mut self, alloc: A) -> Result<(), AllocError>
        ensures { self.new ≡ self.old }
    {
        self.index = Some(self.records.index(alloc)?);
        Ok(())
    }
}

impl<'a, A: Allocator> Types<'a, A> {
    /// How many types there are.
    pub fn len(&self) -> usize
        ensures value { result ≡ length self.now }
        ensures types { AreTypes self.now }
        // The type index of each fits in a u32.
        ensures few { result < 2 ^ 30 }
        ensures short { length (concat self.now) < 2 ^ 32 }
    {
        self.records.len()
    }

    /// Whether there are no types.
    pub fn is_empty(&self) -> bool
        ensures { IsTrue result ↔ (self.now ≡ []) }
    {
        self.records.is_empty()
    }

    /// The bytes of the record at the position `i`, from 0. `None` where there is no such position.
    ///
    /// The record is whole: it begins with its length field, which says how long it is.
    /// [`cv_leaves::check`] accepts it.
    pub fn get(&self, i: usize) -> Option<&'a [u8]>
        ensures value { option_map (λ r. r.now) result ≡ slice_get self.now i }
        ensures framed { IfSome result (λ r. IsRecord r.now) }
        ensures checked { IfSome result (λ r. IsChecked r.now) }
    {
        match &self.index {
            Some(index) => index.get(i),
            None => self.records.get(i),
        }
    }

    /// The records in the order of the file. Each one is lent whole, with its length field.
    ///
    /// This does not allocate.
    pub fn iter(&self) -> Iter<'a>
        ensures value { result ≡ self.now }
        ensures types { AreTypes result }
    {
        self.records.iter()
    }

    /// The positions of all types, each after those of the types that it names.
    ///
    /// This does not allocate.
    pub fn in_order(&self) -> InOrder<'_>
        ensures types { AreTypes self.now }
        ensures order { IsOrder (graph_of self.now) result }
    {
        self.order.positions(self.records.len())
    }

    /// The records.
    pub fn records(&self) -> &Records<'a, A>
        ensures { result.now ≡ self.now }
    {
        &self.records
    }

    /// The depth of the type at the position `i`, from 0: 0 where it names only simple types,
    /// otherwise one more than the depth of the deepest type that it names. `None` where there is
    /// no such position.
    pub fn depth(&self, i: usize) -> Option<u32>
        ensures value { IfSome result (λ d.
            (i < length self.now) × ((t : Tree) → IsTreeAt self.now i t → d ≡ depth t)) }
        ensures none { IfNone result (length self.now ≤ i) }
    {
        self.depths.get(i).copied()
    }

    /// How many levels the types have: one more than the greatest depth, or 0 where there are no
    /// types. This goes over all depths.
    pub fn levels(&self) -> u32
        ensures { HasLevels self.now result }
    {
        levels_of(&self.depths)
    }

    /// How many bytes the records have together, with their length fields.
    pub fn bytes_len(&self) -> u32
        ensures { result ≡ length (concat self.now) }
    {
        self.records.bytes_len()
    }
}

impl<'t, 'a, A: Allocator> IntoIterator for &'t Types<'a, A> {
    type Item = &'a [u8];

    type IntoIter = Iter<'a>;

    ghost into_iter_gives = { λ types iter. (iter ≡ types.now) × AreTypes iter };

    fn into_iter(self) -> Iter<'a> {
        self.iter()
    }
}
