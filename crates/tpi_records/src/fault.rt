//! Why a TPI stream is refused.

ghost use Rattle.std.specs.Prelude.{◌≡◌};
ghost use Rattle.tpi_records.specs.declared.fault.TpiFault.TheVariants.{Memory};
ghost use Rattle.tpi_records.specs.Fault.{tpi_number};

use std::alloc::AllocError;
use thiserror::Error;

/// The first check that a TPI stream fails.
///
/// The checks are made in the order of the variants. The checks of the records are made record by
/// record, and the number of records is compared after the last of them.
#[derive(Clone, Copy, Debug, PartialEq, Eq, Error)]
pub enum TpiFault {
    /// The stream has fewer than the 56 bytes of a header.
    #[error("16 TpiShort")]
    Short,
    /// The version is this number, and not 20040203.
    #[error("17 TpiVersion {0}")]
    Version(u32),
    /// The header says that its own length is this many bytes, and not 56.
    #[error("18 TpiHeaderSize {0}")]
    HeaderSize(u32),
    /// The first type index is this one, and not 0x1000.
    #[error("19 TpiBegin {0:#x}")]
    Begin(u32),
    /// The type index after the last record is this one, which is below 0x1000.
    #[error("20 TpiEnd {0:#x}")]
    End(u32),
    /// The header says that the records have `need` bytes, and only `have` bytes follow the header.
    #[error("21 TpiBytes need {need} have {have}")]
    Bytes { need: u64, have: u64 },
    /// The record with this type index is longer than what is left of the records.
    #[error("22 RecordShort index {index:#x}")]
    RecordShort { index: u32 },
    /// The record with this type index says that `len` bytes follow its length field. That is fewer
    /// than two, or the whole record is then not a multiple of four bytes long.
    #[error("23 RecordLen index {index:#x} len {len}")]
    RecordLen { index: u32, len: u32 },
    /// The header announces `said` records, and `found` records follow it.
    #[error("24 RecordCount said {said} found {found}")]
    RecordCount { said: u32, found: u32 },
    /// Out of memory for the table of records. All checks passed.
    #[error("33 Memory")]
    Memory,
}

impl TpiFault {
    /// The number of the fault, which stands in its text.
    pub fn number(&self) -> u32
        ensures { result ≡ tpi_number self.now }
    {
        match self {
            TpiFault::Short => 16,
            TpiFault::Version(_) => 17,
            TpiFault::HeaderSize(_) => 18,
            TpiFault::Begin(_) => 19,
            TpiFault::End(_) => 20,
            TpiFault::Bytes { .. } => 21,
            TpiFault::RecordShort { .. } => 22,
            TpiFault::RecordLen { .. } => 23,
            TpiFault::RecordCount { .. } => 24,
            TpiFault::Memory => 33,
        }
    }
}

impl From<AllocError> for TpiFault {
    ghost from_gives = { λ _ fault. fault ≡ Memory };

    fn from(_error: AllocError) -> TpiFault {
        TpiFault::Memory
    }
}
