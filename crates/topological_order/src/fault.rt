//! Why a graph has no topological order.

ghost use Rattle.std.specs.Prelude.{◌≡◌};
ghost use Rattle.topological_order.specs.declared.fault.OrderFault.TheVariants.{Memory};

use std::alloc::{AllocError, Allocator, Global};
use thiserror::Error;

/// Why there is no topological order.
#[derive(Debug, PartialEq, Eq, Drop, Error)]
pub enum OrderFault<A: Allocator = Global> {
    /// These are all nodes that lead into a cycle, in rising order. Each of them names one of
    /// them.
    #[error("some nodes lead into a cycle")]
    Cycle { nodes: Vec<u32, A> },
    /// Out of memory.
    #[error("out of memory")]
    Memory,
}

impl<A: Allocator> From<AllocError> for OrderFault<A> {
    ghost from_gives = { λ _ fault. fault ≡ Memory };

    fn from(_error: AllocError) -> OrderFault<A> {
        OrderFault::Memory
    }
}
