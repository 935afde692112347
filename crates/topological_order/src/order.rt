//! Topological orders.

ghost use Rattle.std.specs.Prelude.{◌^◌, ◌<◌, length, IfOk, IfErr};
ghost use Rattle.topological_order.specs.Graph.{NamesNodes};
ghost use Rattle.topological_order.specs.Order.{IsOrder};
ghost use Rattle.topological_order.specs.Cycle.{IsOrderFault};
ghost use Rattle.topological_order.specs.Walk.{AreCaught};

use crate::fault::OrderFault;
use crate::graph::Graph;
use crate::walk::{Mark, walk_all};
use std::alloc::{AllocError, Allocator};

/// The nodes that the walk met and did not place, in rising order.
fn caught_nodes<A: Allocator>(alloc: A, marks: &[Mark]) -> Result<Vec<u32, A>, AllocError>
    requires { length marks.now < 2 ^ 32 }
    ensures { IfOk result (λ nodes. AreCaught marks.now nodes.items) }
{
    let mut nodes = Vec::new(alloc);
    let mut node = 0u32;
    for mark in marks {
        if let Mark::Met = *mark {
            nodes.push(node)?;
        }
        node += 1;
    }
    Ok(nodes)
}

/// Lists all nodes, each after those that it names.
///
/// The faults:
///
/// - `Cycle`: there is no such order.
/// - `Memory`: out of memory. This may come before it is known whether there is an order.
///
/// The time is linear in the number of nodes and of names. This allocates nine bytes for each node,
/// and a list of the nodes on the path.
pub fn topological_order<A: Allocator + Copy>(
    alloc: A,
    graph: &Graph<A>,
) -> Result<Vec<u32, A>, OrderFault<A>>
    requires { NamesNodes graph.now }
    ensures value { IfOk result (λ order. IsOrder graph.now order.items) }
    ensures fault { IfErr result (IsOrderFault graph.now) }
{
    let walk = walk_all(alloc, graph)?;
    let nodes = caught_nodes(alloc, &walk.marks)?;
    if !nodes.is_empty() {
        return Err(OrderFault::Cycle { nodes });
    }
    Ok(walk.order)
}
