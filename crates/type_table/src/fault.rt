//! Why types are not joined.

ghost use Rattle.std.specs.Prelude.{◌≡◌};
ghost use Rattle.type_table.specs.declared.fault.JoinFault.TheVariants as join;
ghost use Rattle.type_table.specs.Fault.{join_number};

use std::alloc::AllocError;
use thiserror::Error;

/// Why types are not joined.
///
/// A refusal leaves the table or the list as it was.
#[derive(Clone, Copy, Debug, PartialEq, Eq, Error)]
pub enum JoinFault {
    /// The records of all types have this many bytes together, with their length fields. That is
    /// more than the limit.
    #[error("32 TooLarge bytes {bytes}")]
    TooLarge { bytes: u64 },
    /// Out of memory.
    #[error("33 Memory")]
    Memory,
}

impl JoinFault {
    /// The number of the fault, which stands in its text.
    pub fn number(&self) -> u32
        ensures { result ≡ join_number self.now }
    {
        match self {
            JoinFault::TooLarge { .. } => 32,
            JoinFault::Memory => 33,
        }
    }
}

impl From<AllocError> for JoinFault {
    ghost from_gives = { λ _ fault. fault ≡ join.Memory };

    fn from(_error: AllocError) -> JoinFault {
        JoinFault::Memory
    }
}
