//! The types of the files that a merge has taken so far.

ghost use Rattle.std.specs.Prelude.{◌≡◌, [], OnOk, IfOk, IfErr, IfSome};
ghost use Rattle.type_trees.specs.Tree.{IsType};
ghost use Rattle.canonical_list.specs.Finish.{IsCanonOf};
ghost use Rattle.pdb_merge.specs.Fault.{AddNamesFault};
ghost use Rattle.pdb_merge.specs.Union.{Within, IsAddFaultOfStream};
ghost use Rattle.type_table.specs.Maps.{AreFollowed, with_map};
ghost use Rattle.pdb_merge.specs.Merging.{AddsStream};

use crate::fault::AddFault;
use file_types::check_types;
use std::alloc::{AllocError, Allocator};
use std::hash::BuildHasher;
use std::marker::Model;
use type_table::{Canon, JoinFault, KeepMaps, Table};

/// The types of the files so far, and the limit: how many bytes they may have together. It can also
/// keep the map of each file: where the types of its records went.
///
/// The files are added one after the other, so no two of them need be in memory at once.
#[derive(Debug, Drop)]
pub(crate) struct TypesSoFar<S: BuildHasher, A: Allocator, K: KeepMaps> {
    table: Table<S, A>,
    limit: u32,
    maps: K,
}

impl<S: BuildHasher, A: Allocator, K: KeepMaps> Model for TypesSoFar<S, A, K> {
    ghost use Rattle.pdb_merge.specs.Merging.{MergeView};

    ghost Value = { MergeView };

    ghost view = { λ m. record { types = m.table; limit = m.limit; maps = K.maps m.maps } };
}

impl<S: BuildHasher, A: Allocator + Copy, K: KeepMaps> TypesSoFar<S, A, K> {
    /// A merge that has taken no files. Its types may have at most `limit` bytes together. Maps from
    /// before are forgotten. This does not allocate.
    pub(crate) fn new(alloc: A, limit: u32, hasher: S, maps: K) -> TypesSoFar<S, A, K>
        ensures types { result.types ≡ [] }
        ensures limit { result.limit ≡ limit }
        ensures maps { IfSome result.maps (λ none. none ≡ []) }
    {
        let mut maps = maps;
        maps.clear();
        TypesSoFar {
            table: Table::with_hasher(alloc, hasher),
            limit,
            maps,
        }
    }

    /// Adds the types of a stream 2 to the table. If its records can't be added as they stand, they are
    /// first checked for a fault and put in order.
    pub(crate) fn add_stream(&mut self, alloc: A, stream: &[u8]) -> Result<(), AddFault<A>>
        ensures value { IfOk result (λ _. AddsStream self.old self.new stream.now) }
        ensures within { IfOk result (λ _. Within (IsType self.new.types) self.new.limit) }
        ensures limit { self.new.limit ≡ self.old.limit }
        ensures kept { IfErr result (λ _. self.new ≡ self.old) }
        ensures refused { IfErr result
            (IsAddFaultOfStream self.old.types self.old.limit stream.now) }
        ensures named { IfErr result AddNamesFault }
    {
        if self
            .table
            .add_stream(alloc, stream, self.limit, &mut self.maps)
        {
            return Ok(());
        }
        let types = check_types(alloc, stream)?;
        self.table
            .add_with_maps(alloc, &types, self.limit, &mut self.maps)?;
        Ok(())
    }

    /// Keeps a map of no records, for a file that is left out.
    pub(crate) fn keep_no_records(&mut self) -> Result<(), AllocError>
        ensures types { self.new.types ≡ self.old.types }
        ensures limit { self.new.limit ≡ self.old.limit }
        ensures maps { OnOk result (self.new.maps ≡ with_map self.old.maps []) }
    {
        self.maps.keep(&[])
    }

    /// The canonical list of the types, with which the merge ends, and the maps of the files into the
    /// list. The only fault is `Memory`.
    ///
    /// The memory of the merge is given back in two steps. The memory that serves to look up a type
    /// is given back before the list is made, and all other memory after that.
    pub(crate) fn into_canon(self, alloc: A) -> Result<(Canon<A>, K), JoinFault>
    where
        S: Drop,
        K: Drop,
        ensures value { IfOk result (λ found. IsCanonOf found.0 (IsType self.types)) }
        ensures followed { IfOk result (λ found.
            AreFollowed self.types found.0 self.maps (K.maps found.1)) }
        ensures memory { IfErr result (λ fault. fault ≡ JoinFault.Memory) }
    {
        let TypesSoFar {
            table,
            limit: _,
            mut maps,
        } = self;
        let canon = table.into_canon_with_maps(alloc, &mut maps)?;
        Ok((canon, maps))
    }
}
