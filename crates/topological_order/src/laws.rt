//! Laws of topological orders and of cycles.
//!
//! Each function here does nothing: its contract is the law. A *rank* gives each node a number that
//! is higher than the numbers of the nodes that it names.

ghost use Rattle.topological_order.specs.Laws.{OrdersRank, OneCycleSet, CyclesHaveNoRank};

/// A graph that has a topological order has a rank.
pub fn orders_rank()
    ensures { OrdersRank }
{}

/// A graph has at most one set of nodes that lead into a cycle.
pub fn one_cycle_set()
    ensures { OneCycleSet }
{}

/// A graph with nodes that lead into a cycle has no rank.
pub fn cycles_have_no_rank()
    ensures { CyclesHaveNoRank }
{}
