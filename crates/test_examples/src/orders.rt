//! Graphs whose nodes name only nodes of the graph, and the texts of the faults of an order.

ghost use Rattle.std.specs.Prelude.{◌<◌, IsTrue};
ghost use Rattle.std.specs.List.{All};
ghost use Rattle.topological_order.specs.Graph.{NamesNodes};

use std::alloc::Allocator;
use std::test::Fail;
use topological_order::{Graph, OrderFault};

/// Whether these nodes are all below `end`.
fn all_below(named: &[u32], end: usize) -> bool
    ensures { IsTrue result → All (λ n. n < end) named.now }
{
    named.iter().all(|n| (*n as usize) < end)
}

/// Whether each node names only nodes of the graph.
pub(crate) fn names_nodes<A: Allocator>(graph: &Graph<A>) -> bool
    ensures { IsTrue result → NamesNodes graph.now }
{
    for node in 0..graph.len() {
        if !all_below(graph.get(node), graph.len()) {
            return false;
        }
    }
    true
}

#[test]
fn each_fault_has_its_text(rt: HostRuntime) -> Result<(), Fail> {
    let mut nodes = Vec::new(rt.alloc());
    nodes.push(0)?;
    for (fault, text) in [
        (OrderFault::Cycle { nodes }, "some nodes lead into a cycle"),
        (OrderFault::Memory, "out of memory"),
    ] {
        let shown = fault.to_string(rt.alloc())?;
        assert_eq!(rt; shown.as_str(), text);
    }
    Ok(())
}
