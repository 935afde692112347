//! Why an info stream is refused.

ghost use Rattle.std.specs.Prelude.{◌≡◌};
ghost use Rattle.pdb_info.specs.declared.fault.InfoFault.TheVariants.{Memory};
ghost use Rattle.pdb_info.specs.Fault.{info_number};

use std::alloc::AllocError;
use thiserror::Error;

/// The first check that an info stream fails. The checks are made in the order of the fields.
///
/// Offsets are in bytes from the front of the stream.
#[derive(Clone, Copy, Debug, PartialEq, Eq, Error)]
pub enum InfoFault {
    /// The stream has fewer than the 28 bytes of a header.
    #[error("12 InfoShort")]
    InfoShort,
    /// The field of the named stream map at this offset passes the end of the stream.
    #[error("13 NamesShort {0}")]
    NamesShort(u64),
    /// Size of the named stream map is `said`, but `present` buckets are present.
    #[error("14 NamesCount said {said} present {present}")]
    NamesCount { said: u32, present: u64 },
    /// The name of the pair of this bucket has no end in the string buffer.
    #[error("15 NameOffset {0}")]
    NameOffset(u64),
    /// Out of memory for the names or the feature codes. All checks passed.
    #[error("33 Memory")]
    Memory,
}

impl InfoFault {
    /// The number of the fault, which stands in its text.
    pub fn number(&self) -> u32
        ensures { result ≡ info_number self.now }
    {
        match self {
            InfoFault::InfoShort => 12,
            InfoFault::NamesShort(_) => 13,
            InfoFault::NamesCount { .. } => 14,
            InfoFault::NameOffset(_) => 15,
            InfoFault::Memory => 33,
        }
    }
}

impl From<AllocError> for InfoFault {
    ghost from_gives = { λ _ fault. fault ≡ Memory };

    fn from(_error: AllocError) -> InfoFault {
        InfoFault::Memory
    }
}
