//! The depths of the records of a table, which are kept as the records come.

ghost use Rattle.std.specs.Prelude.{◌≤◌, ◌<◌, ◌^◌, length, IfOk};
ghost use Rattle.type_trees.specs.Depth.{KnowsDepths, HasDepths};
ghost use Rattle.type_table.specs.Merge.{StartsWith};
ghost use Rattle.type_trees.specs.Table.{IsTable};

use record_set::RecordSet;
use std::alloc::{AllocError, Allocator};
use std::hash::BuildHasher;
use type_trees::depth_of;

/// Appends the depths of the records that came after the last one that was measured.
///
/// Each record names only earlier ones, so the depths of those are known. If this runs out of
/// memory, some of the new depths stay there.
pub fn measure_new<S: BuildHasher, A: Allocator>(
    table: &RecordSet<S, A>,
    depths: &mut Vec<u32, A>,
) -> Result<(), AllocError>
    requires table { IsTable table.now }
    requires few { length table.now < 2 ^ 31 }
    requires known { KnowsDepths table.now depths.old.items }
    requires within { length depths.old.items ≤ length table.now }
    ensures ok { IfOk result (λ _. HasDepths table.now depths.new.items) }
    ensures front { StartsWith depths.new.items depths.old.items }
{
    for position in depths.len()..table.len() {
        let depth = depth_of(table.get(position), table.places(position), depths);
        depths.push(depth)?;
    }
    Ok(())
}
