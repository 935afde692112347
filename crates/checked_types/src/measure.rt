//! The depths of all types, where records name later ones.

ghost use Rattle.std.specs.Prelude.{◌≡◌, ◌^◌, length, IfOk};
ghost use Rattle.topological_order.specs.Order.{IsOrder};
ghost use Rattle.type_trees.specs.Types.{AreTypes};
ghost use Rattle.type_trees.specs.Depth.{AreBelow, AreDepths};
ghost use Rattle.checked_types.specs.Graph.{graph_of};
ghost use Rattle.checked_types.specs.Order.{order_list};

use crate::order::{Order, record_at};
use cv_leaves::list_places;
use std::alloc::{AllocError, Allocator};
use tpi_records::Records;
use type_trees::depth_of;

/// The depth of each record. All depths are allocated at once.
///
/// The records are read in the order, so the depths of those that a record names are known.
pub fn measure<A: Allocator + Copy>(
    alloc: A,
    records: &Records<'_, A>,
    order: &Order<A>,
) -> Result<Vec<u32, A>, AllocError>
    requires types { AreTypes records.now }
    requires order { IsOrder (graph_of records.now) (order_list (length records.now) order.now) }
    ensures many { IfOk result (λ depths. length depths.items ≡ length records.now) }
    ensures depths { IfOk result (λ depths. AreDepths records.now depths.items) }
    ensures low { IfOk result (λ depths. AreBelow (2 ^ 31) depths.items) }
{
    let len = records.len();
    let mut depths = vec![in alloc; 0u32; len]?;
    let mut places = Vec::new(alloc);
    let mut cursor = records.cursor();
    for position in order.positions(len) {
        let bytes = record_at(&mut cursor, position);
        // types have places, so all of them are listed
        list_places(bytes, &mut places)?;
        depths[position] = depth_of(bytes, &places, &depths);
    }
    Ok(depths)
}
