//! Tables: types in the order in which they came, each once.

ghost use Rattle.std.specs.Prelude.{◌≡◌, ◌⊎◌, ◌↔◌, ◌+◌, ◌-◌, ◌^◌, ◌<◌, ◌≤◌, [], ℕ, List, IsTrue, length, take, OnOk, IfOk, IfErr};
ghost use Rattle.std.specs.List.{concat};
ghost use Rattle.type_trees.specs.Tree.{Tree, IsType};
ghost use Rattle.type_trees.specs.Canon.{weight};
ghost use Rattle.type_trees.specs.Depth.{HasDepths};
ghost use Rattle.record_set.specs.RecordSet.{HasNamedPlaces};
ghost use Rattle.type_trees.specs.Table.{IsTable, IsUnion};
ghost use Rattle.type_table.specs.MeasuredTable.{IsMeasuredTable};
ghost use Rattle.packed_texts.specs.PackedTexts.{texts_at, IsOrder};
ghost use Rattle.type_table.specs.Maps.{AreFollowed};
ghost use Rattle.type_table.specs.Merge.{StartsWith, IsAddedWithin, IsStreamAdded};
ghost use Rattle.canonical_list.specs.Finish.{IsCanonOf};

use crate::adding::{Workspace, add_framed, add_in_order, are_bytes};
use crate::canon::Canon;
use crate::fault::JoinFault;
use crate::maps::{KeepMaps, NoMaps};
use crate::table_depths::measure_new;
use canonical_list::{CanonicalOrder, canonical_order};
use checked_types::Types;
use cv_leaves::list_places;
use packed_texts::{OrderedTexts, PackedTexts};
use record_set::{PlaceLists, RecordSet};
use std::alloc::{AllocError, Allocator, Global};
use std::hash::BuildHasher;
use std::marker::Model;
use tpi_records::{TpiHeader, framed_bytes};

/// Puts types into the set, measures the new ones, and keeps the map. After a fault some of the types
/// may be in the set.
fn add_types<S: BuildHasher, A: Allocator + Copy, K: KeepMaps>(
    records: &mut RecordSet<S, A>,
    depths: &mut Vec<u32, A>,
    work: &mut Workspace<A>,
    types: &Types<'_, A>,
    limit: u32,
    maps: &mut K,
) -> Result<(), JoinFault>
    requires table { IsTable records.old }
    requires short { length (concat records.old) < 2 ^ 32 }
    requires depths { HasDepths records.old depths.old.items }
    ensures added { OnOk result (IsAddedWithin types.now limit records.old records.new
        (K.maps maps.old) (K.maps maps.new)) }
    ensures table { OnOk result (IsTable records.new) }
    ensures depths { OnOk result (HasDepths records.new depths.new.items) }
    ensures kept { IfErr result (λ _. maps.new ≡ maps.old) }
    ensures large { IfErr result (λ fault.
        (bytes : ℕ) → fault ≡ JoinFault.TooLarge bytes →
        (limit < bytes)
        × ((l : List Tree) × IsUnion l records.old types.now × (weight l ≡ bytes))) }
    ensures front { StartsWith records.new records.old }
    ensures measured { StartsWith depths.new.items depths.old.items }
{
    add_in_order(records, work, types)?;
    measure_new(records, depths)?;
    let bytes = records.bytes().len() as u64;
    if bytes > u64::from(limit) {
        return Err(JoinFault::TooLarge { bytes });
    }
    maps.keep(work.numbers())?;
    Ok(())
}

/// Puts the records of a stream into the set, as they stand there, measures the new ones, and keeps
/// the map. Returns whether that succeeded: the stream has records, each has places and names only
/// earlier ones, and the set is within the limit. If it did not, or if memory runs out, some of them
/// may be in the set.
fn add_records<S: BuildHasher, A: Allocator, K: KeepMaps>(
    records: &mut RecordSet<S, A>,
    depths: &mut Vec<u32, A>,
    work: &mut Workspace<A>,
    stream: &[u8],
    limit: u32,
    maps: &mut K,
) -> Result<bool, AllocError>
    requires table { IsTable records.old }
    requires short { length (concat records.old) < 2 ^ 32 }
    requires depths { HasDepths records.old depths.old.items }
    ensures added { IfOk result (λ all. IsTrue all → IsStreamAdded
        stream.now limit records.old records.new (K.maps maps.old) (K.maps maps.new)) }
    ensures table { IfOk result (λ all. IsTrue all → IsTable records.new) }
    ensures depths { IfOk result (λ all. IsTrue all → HasDepths records.new depths.new.items) }
    ensures kept { IfOk result (λ all. IsTrue all ⊎ (maps.new ≡ maps.old)) }
    ensures err { IfErr result (λ _. maps.new ≡ maps.old) }
    ensures front { StartsWith records.new records.old }
    ensures measured { StartsWith depths.new.items depths.old.items }
{
    let Ok(header) = TpiHeader::read(stream) else {
        return Ok(false);
    };
    let bytes = framed_bytes(stream, header);
    if !add_framed(records, work, bytes, header.count())? {
        return Ok(false);
    }
    measure_new(records, depths)?;
    if records.bytes().len() as u64 > u64::from(limit) {
        return Ok(false);
    }
    maps.keep(work.numbers())?;
    Ok(true)
}

/// Keeps the first `held` records and their depths, and removes the others.
fn undo<S: BuildHasher, A: Allocator>(
    records: &mut RecordSet<S, A>,
    depths: &mut Vec<u32, A>,
    held: usize,
)
    requires inside { held ≤ length records.old }
    ensures records { records.new ≡ take held records.old }
    ensures depths { depths.new.items ≡ take held depths.old.items }
{
    records.truncate(held);
    depths.truncate(held);
}

/// Puts the records of a table whose depths are known in canonical order, and makes the maps follow.
fn order_of<A: Allocator + Copy, K: KeepMaps>(
    alloc: A,
    records: &mut PackedTexts<A>,
    places: &PlaceLists<A>,
    depths: &[u32],
    maps: &mut K,
) -> Result<Vec<u32, A>, AllocError>
    requires table { IsMeasuredTable records.old depths.now }
    requires listed { HasNamedPlaces records.old places.now }
    ensures order { IfOk result (λ order. IsOrder records.new order.items) }
    ensures canon { IfOk result (λ order.
        IsCanonOf (texts_at records.new order.items) (IsType records.old)) }
    ensures maps { IfOk result (λ order. AreFollowed
        records.old (texts_at records.new order.items) (K.maps maps.old) (K.maps maps.new)) }
{
    let CanonicalOrder { order, numbers } = canonical_order(alloc, records, places, depths)?;
    maps.follow(&numbers);
    Ok(order)
}

/// The canonical list of the types of a table whose depths are known. The records are not moved, and
/// the maps follow.
fn list_of<A: Allocator + Copy, K: KeepMaps>(
    alloc: A,
    records: PackedTexts<A>,
    places: &PlaceLists<A>,
    depths: &[u32],
    maps: &mut K,
) -> Result<Canon<A>, JoinFault>
    requires table { IsMeasuredTable records depths.now }
    requires listed { HasNamedPlaces records places.now }
    ensures value { IfOk result (λ canon. IsCanonOf canon (IsType records)) }
    ensures maps { IfOk result (λ canon.
        AreFollowed records canon (K.maps maps.old) (K.maps maps.new)) }
    ensures bytes { IfOk result (λ canon. length (concat canon) ≡ length (concat records)) }
    ensures memory { IfErr result (λ fault. fault ≡ JoinFault.Memory) }
{
    let mut records = records;
    let order = order_of(alloc, &mut records, places, depths, maps)?;
    are_bytes(records.bytes());
    let texts = OrderedTexts::new(alloc, records, &order)?;
    Ok(Canon { texts })
}

/// A set of types, each once, in the order in which they came.
///
/// If the table holds a type, it holds each type that this one names. The records have fewer than
/// 2^32 bytes together.
#[derive(Debug, Drop)]
pub struct Table<S: BuildHasher, A: Allocator = Global> {
    records: RecordSet<S, A>,
    // the depth of each type
    depths: Vec<u32, A>,
    work: Workspace<A>,
}

impl<S: BuildHasher, A: Allocator> Model for Table<S, A> {
    ghost use Rattle.std.specs.Prelude.{List, ℕ};
    ghost use Rattle.type_table.specs.MeasuredTable.{IsMeasuredTable};

    ghost Value = { List (List ℕ) };

    ghost view = { λ t. t.records };

    ghost invariant = { λ t. IsMeasuredTable t.records t.depths.items };
}

impl<S: BuildHasher, A: Allocator + Copy> Table<S, A> {
    /// A table of no types. This does not allocate.
    #[tactic(auto, using(crate::proofs::PushLaws::no_table))]
    pub fn with_hasher(alloc: A, hasher: S) -> Table<S, A>
        ensures { result ≡ [] }
    {
        Table {
            records: RecordSet::with_hasher(alloc, hasher),
            depths: Vec::new(alloc),
            work: Workspace::new(alloc),
        }
    }

    /// Adds types to the table.
    ///
    /// The faults, in the order in which they are checked:
    ///
    /// 1. `Memory`: out of memory.
    /// 2. `TooLarge`: the records of the union have more than `limit` bytes together, with their
    ///    length fields. Each type counts once.
    ///
    /// After either fault the table holds the types that it held before. The table allocates space
    /// for the new records, and keeps it after a fault too.
    pub fn add(&mut self, alloc: A, types: &Types<'_, A>, limit: u32) -> Result<(), JoinFault>
        ensures value { IfOk result (λ _.
            (t : Tree) → IsType self.new t ↔ (IsType self.old t ⊎ IsType types.now t)) }
        ensures within { IfOk result (λ _.
            (l : List Tree) × IsUnion l self.old types.now × (weight l ≤ limit)) }
        ensures bytes { IfOk result (λ _. length (concat self.new) ≤ limit) }
        ensures kept { IfErr result (λ _. self.new ≡ self.old) }
        // The union is larger than the limit, and has this many bytes.
        ensures large { IfErr result (λ fault.
            (bytes : ℕ) → fault ≡ JoinFault.TooLarge bytes →
            (limit < bytes)
            × ((l : List Tree) × IsUnion l self.old types.now × (weight l ≡ bytes))) }
    {
        self.add_with_maps(alloc, types, limit, &mut NoMaps)?;
        Ok(())
    }

    /// Adds types to the table, and keeps the map of their records.
    ///
    /// Everything else is as in [`Table::add`], but memory for the map is taken last. After a fault the
    /// maps are as before too.
    pub fn add_with_maps<K: KeepMaps>(
        &mut self,
        alloc: A,
        types: &Types<'_, A>,
        limit: u32,
        maps: &mut K,
    ) -> Result<(), JoinFault>
        ensures added { OnOk result (IsAddedWithin types.now limit self.old self.new
            (K.maps maps.old) (K.maps maps.new)) }
        ensures kept { IfErr result (λ _. (self.new ≡ self.old) × (maps.new ≡ maps.old)) }
        ensures large { IfErr result (λ fault.
            (bytes : ℕ) → fault ≡ JoinFault.TooLarge bytes →
            (limit < bytes)
            × ((l : List Tree) × IsUnion l self.old types.now × (weight l ≡ bytes))) }
    {
        let held = self.records.len();
        let (records, depths, work) = (&mut self.records, &mut self.depths, &mut self.work);
        let added = add_types(records, depths, work, types, limit, maps);
        self.work.clear(alloc);
        if added.is_err() {
            undo(&mut self.records, &mut self.depths, held);
        }
        added
    }

    /// Adds the types of a TPI stream, if each of its records names only earlier ones, and keeps the
    /// map of its records. Returns whether they were added.
    ///
    /// The records are checked on the way, and one that is in the table already is only compared.
    /// Returns false, and leaves types and maps as they were, if a check fails, if a record names
    /// itself or a later one, if the records of the union have more than `limit` bytes together, or
    /// if memory runs out. [`Records::read`](tpi_records::Records::read), [`Types::check`] and
    /// [`Table::add_with_maps`] tell the fault. ("The PDB TPI and IPI Streams", "Type Records".)
    pub fn add_stream<K: KeepMaps>(
        &mut self,
        alloc: A,
        stream: &[u8],
        limit: u32,
        maps: &mut K,
    ) -> bool
        ensures added { IsTrue result → IsStreamAdded stream.now limit self.old self.new
            (K.maps maps.old) (K.maps maps.new) }
        ensures kept { IsTrue result ⊎ ((self.new ≡ self.old) × (maps.new ≡ maps.old)) }
    {
        let held = self.records.len();
        let (records, depths, work) = (&mut self.records, &mut self.depths, &mut self.work);
        let added = add_records(records, depths, work, stream, limit, maps);
        self.work.clear(alloc);
        if let Ok(true) = added {
            return true;
        }
        undo(&mut self.records, &mut self.depths, held);
        false
    }

    /// The table of the types of a canonical list, in the order of the list.
    #[tactic(auto, using(crate::proofs::CanonTableLaws::canon_short))]
    pub(crate) fn from_canon(
        alloc: A,
        hasher: S,
        canon: &Canon<A>,
    ) -> Result<Table<S, A>, AllocError>
    where
        S: Drop,
        ensures { IfOk result (λ table. table ≡ canon.now) }
    {
        let mut records = RecordSet::with_hasher(alloc, hasher);
        let mut places = Vec::new(alloc);
        for position in 0..canon.len() {
            let bytes = canon.texts.get(position);
            // types have places, so all of them are listed
            list_places(bytes, &mut places)?;
            records.intern(bytes, &places)?;
        }
        let mut depths = Vec::new(alloc);
        measure_new(&records, &mut depths)?;
        Ok(Table {
            records,
            depths,
            work: Workspace::new(alloc),
        })
    }

    /// Makes the canonical list of the types.
    ///
    /// The only fault is `Memory`. The table stays as it is in any case: the list is made of a copy
    /// of its records. While the list is made, twelve bytes for each type, and sixteen for each type
    /// of one depth, are allocated too. Nothing recurses along references.
    pub fn finish(&self, alloc: A) -> Result<Canon<A>, JoinFault>
        ensures value { IfOk result (λ canon. IsCanonOf canon (IsType self.now)) }
        ensures bytes { IfOk result (λ canon. length (concat canon) ≡ length (concat self.now)) }
        ensures memory { IfErr result (λ fault. fault ≡ JoinFault.Memory) }
    {
        let (records, places) = self.records.parts();
        list_of(
            alloc,
            records.copy(alloc)?,
            places,
            &self.depths,
            &mut NoMaps,
        )
    }

    /// Makes the canonical list of the types, and ends the table.
    ///
    /// The only fault is `Memory`. The memory that serves to look up a type is given back before
    /// the list is made. The list is made of the records where they lie, and all other memory of the
    /// table is given back after that. Everything else is as in [`Table::finish`].
    pub fn into_canon(self, alloc: A) -> Result<Canon<A>, JoinFault>
    where
        S: Drop,
        ensures value { IfOk result (λ canon. IsCanonOf canon (IsType self)) }
        ensures bytes { IfOk result (λ canon. length (concat canon) ≡ length (concat self)) }
        ensures memory { IfErr result (λ fault. fault ≡ JoinFault.Memory) }
    {
        self.into_canon_with_maps(alloc, &mut NoMaps)
    }

    /// Makes the canonical list of the types, and ends the table. The maps of the table are then maps
    /// into the list.
    ///
    /// Everything else is as in [`Table::into_canon`].
    pub fn into_canon_with_maps<K: KeepMaps>(
        self,
        alloc: A,
        maps: &mut K,
    ) -> Result<Canon<A>, JoinFault>
    where
        S: Drop,
        ensures value { IfOk result (λ canon. IsCanonOf canon (IsType self)) }
        ensures maps { IfOk result (λ canon.
            AreFollowed self canon (K.maps maps.old) (K.maps maps.new)) }
        ensures bytes { IfOk result (λ canon. length (concat canon) ≡ length (concat self)) }
        ensures memory { IfErr result (λ fault. fault ≡ JoinFault.Memory) }
    {
        let Table {
            records,
            depths,
            work: _,
        } = self;
        let (records, places) = records.into_parts();
        list_of(alloc, records, &places, &depths, maps)
    }
}
