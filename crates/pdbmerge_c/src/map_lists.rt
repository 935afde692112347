//! The maps of files, as they are copied.

ghost use Rattle.std.specs.Prelude.{◌≡◌, ◌+◌, ◌^◌, ◌++◌, [], length, map, OnOk, IfOk};
ghost use Rattle.type_trees.specs.Depth.{AreBelow};
ghost use Rattle.pdbmerge_c.specs.MergeMap.{indices_of};

use pdb_merge::TypeMaps;
use std::alloc::{AllocError, Global};
use tpi_records::FIRST_INDEX;

/// Maps as they are copied.
#[derive(Drop)]
pub(crate) struct MapLists {
    /// The type indices of all maps, one map after the other.
    pub(crate) indices: Vec<u32>,
    /// How many each map has.
    pub(crate) counts: Vec<u32>,
}

impl MapLists {
    /// The lists of no maps.
    pub(crate) fn new(alloc: Global) -> MapLists
        ensures indices { result.indices.items ≡ [] }
        ensures counts { result.counts.items ≡ [] }
    {
        MapLists {
            indices: Vec::new(alloc),
            counts: Vec::new(alloc),
        }
    }
}

/// Appends the type indices of the records at these positions.
fn push_indices(indices: &mut Vec<u32>, positions: &[u32]) -> Result<(), AllocError>
    requires { AreBelow (2 ^ 31) positions.now }
    ensures { OnOk result
        (indices.new.items ≡ indices.old.items ++ map (λ p. FIRST_INDEX + p) positions.now) }
{
    for position in positions {
        indices.push(FIRST_INDEX + *position)?;
    }
    Ok(())
}

/// The maps as they are copied.
#[tactic(auto, using(crate::proofs::MapLaws::indices_more, crate::proofs::MapLaws::lengths_more))]
pub(crate) fn list_maps(alloc: Global, maps: &TypeMaps) -> Result<MapLists, AllocError>
    ensures indices { IfOk result (λ lists. lists.indices.items ≡ indices_of maps.now) }
    ensures counts { IfOk result (λ lists. lists.counts.items ≡ map length maps.now) }
{
    let mut indices = Vec::new(alloc);
    let mut counts = Vec::new(alloc);
    for file in 0..maps.len() {
        let positions = maps.get(file);
        push_indices(&mut indices, positions)?;
        counts.push(positions.len() as u32)?;
    }
    Ok(MapLists { indices, counts })
}
