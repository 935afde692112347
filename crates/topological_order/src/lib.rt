//! Topological orders.
//!
//! A [`Graph`] has nodes, numbered from 0. Each node names some nodes. [`topological_order`] lists
//! all nodes so that each comes after those that it names. There is such an order exactly where no
//! node leads into a cycle. Otherwise [`OrderFault::Cycle`] lists the nodes that lead into a cycle.
//! They are the largest set of nodes in which each node names one of the set.
//!
//! The walk keeps its path in a list. It doesn't recurse, and it reads each name at most twice.
//!
//! # Example
//!
//! `topological_order` puts each node of a graph after the nodes that it names. This is a test of
//! the crate `test_examples`:
//!
//! ```
//! fn nodes_after_what_they_name(rt: HostRuntime) -> Result<(), Fail> {
//!     let mut graph = Graph::with_capacity(rt.alloc(), 3)?;
//!     graph.push(&[1])?;
//!     graph.push(&[2])?;
//!     graph.push(&[])?;
//!     // A caller shows that no node names one that the graph does not have.
//!     assert!(rt; names_nodes(&graph));
//!     let order = topological_order(rt.alloc(), &graph)?;
//!     assert_eq!(rt; order.as_slice(), [2, 1, 0].as_slice());
//!     Ok(())
//! }
//! ```
#![tactic(auto)]

mod fault;
mod graph;
pub mod laws;
mod order;
mod walk;

pub use fault::OrderFault;
pub use graph::Graph;
pub use order::topological_order;
