//! Why a record is refused.

ghost use Rattle.std.specs.Prelude.{◌≡◌};
ghost use Rattle.cv_leaves.specs.Fault.{leaf_number};

use thiserror::Error;

/// The first check that a record fails.
///
/// The kind is looked up first. The fields of its leaf are then checked in the order of their
/// offsets. The order in a member is: its kind, the fields at fixed offsets, the numeric leaves,
/// the name, the padding. All offsets are in bytes.
#[derive(Clone, Copy, Debug, PartialEq, Eq, Error)]
pub enum LeafFault {
    /// The record has this kind, which is not in the table of leaves.
    #[error("25 Leaf {0:#x}")]
    Leaf(u16),
    /// The field at this offset of the body goes past the body's end.
    #[error("26 Body {0}")]
    Body(u32),
    /// The member at this offset of the body has this kind, which is not in the table of members.
    #[error("27 Member at {at} kind {kind:#x}")]
    Member { at: u32, kind: u16 },
    /// There is no known numeric leaf at this offset of the body, or it goes past the body's end.
    #[error("28 Numeric {0}")]
    Numeric(u32),
    /// No NUL ends the name at this offset of the body.
    #[error("29 Name {0}")]
    Name(u32),
    /// The padding at this offset of the body doesn't count its first byte, or it goes past the
    /// body's end.
    #[error("30 Pad {0}")]
    Pad(u32),
}

impl LeafFault {
    /// The number of the fault, which stands in its text.
    pub fn number(&self) -> u32
        ensures { result ≡ leaf_number self.now }
    {
        match self {
            LeafFault::Leaf(_) => 25,
            LeafFault::Body(_) => 26,
            LeafFault::Member { .. } => 27,
            LeafFault::Numeric(_) => 28,
            LeafFault::Name(_) => 29,
            LeafFault::Pad(_) => 30,
        }
    }
}
