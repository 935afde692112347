//! Why records are refused as types.

ghost use Rattle.std.specs.Prelude.{◌≡◌};
ghost use Rattle.checked_types.specs.declared.fault.TypeFault.TheVariants.{Memory};
ghost use Rattle.checked_types.specs.Check.{IsOfRecord};
ghost use Rattle.checked_types.specs.Fault.{type_number};

use cv_leaves::LeafFault;
use std::alloc::{AllocError, Allocator, Global};
use std::fmt;
use thiserror::Error;

/// The first check that a record fails: a check of its leaf, or of a reference.
#[derive(Clone, Copy, Debug, PartialEq, Eq)]
pub enum RecordFault {
    /// The record of this type index has this fault in its leaf.
    Leaf { index: u32, fault: LeafFault },
    /// The reference at this place of the record of this type index is neither simple nor the type
    /// index of a record.
    Ref { index: u32, place: u32, to: u32 },
}

/// The first check that records fail.
///
/// Records are checked in order. The leaf of each is checked first, then its references in the
/// order of their places. The check for cycles comes after all records.
#[derive(Debug, PartialEq, Eq, Drop, Error)]
pub enum TypeFault<A: Allocator = Global> {
    /// The record of this type index has this fault in its leaf.
    #[error("index {index:#x}: {fault}")]
    Leaf { index: u32, fault: LeafFault },
    /// The reference at this place of the record of this type index is neither simple nor the type
    /// index of a record.
    #[error("31 Ref index {index:#x} place {place} to {to:#x}")]
    Ref { index: u32, place: u32, to: u32 },
    /// The records of these type indices, in rising order, lead into a cycle: each of them names
    /// one of them, and no larger set of records has that property.
    #[error(fmt = show_cycle)]
    Cycle { records: Vec<u32, A> },
    /// Out of memory for the order, for the cycle or for the depths of the types. Each record
    /// passed its checks.
    #[error("33 Memory")]
    Memory,
}

impl<A: Allocator> TypeFault<A> {
    /// The number of the fault, which stands in its text.
    pub fn number(&self) -> u32
        ensures { result ≡ type_number self.now }
    {
        match self {
            TypeFault::Leaf { fault, .. } => fault.number(),
            TypeFault::Ref { .. } => 31,
            TypeFault::Cycle { .. } => 34,
            TypeFault::Memory => 33,
        }
    }
}

/// Writes the text of a cycle, with all its type indices.
fn show_cycle<W: fmt::Write, A: Allocator>(
    records: &Vec<u32, A>,
    f: &mut fmt::Formatter<W>,
) -> fmt::Result {
    write!(f, "34 Cycle")?;
    for index in records {
        write!(f, " {index:#x}")?;
    }
    Ok(())
}

impl<A: Allocator> From<RecordFault> for TypeFault<A> {
    ghost from_gives = { λ inner fault. IsOfRecord fault inner };

    fn from(inner: RecordFault) -> TypeFault<A> {
        match inner {
            RecordFault::Leaf { index, fault } => TypeFault::Leaf { index, fault },
            RecordFault::Ref { index, place, to } => TypeFault::Ref { index, place, to },
        }
    }
}

impl<A: Allocator> From<AllocError> for TypeFault<A> {
    ghost from_gives = { λ _ fault. fault ≡ Memory };

    fn from(_error: AllocError) -> TypeFault<A> {
        TypeFault::Memory
    }
}
