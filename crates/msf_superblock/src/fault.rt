//! Why a container is refused.

ghost use Rattle.std.specs.Prelude.{◌≡◌};
ghost use Rattle.msf_superblock.specs.declared.fault.MsfFault.TheVariants.{Memory};
ghost use Rattle.msf_superblock.specs.Fault.{msf_number};

use std::alloc::{AllocError, AllocFailed};
use thiserror::Error;

/// The first fault of a container. The checks are made in the order of the variants.
#[derive(Clone, Copy, Debug, PartialEq, Eq, Error)]
pub enum MsfFault {
    /// The file has fewer than the 56 bytes of a superblock.
    #[error("1 Short")]
    Short,
    /// The file does not begin with the magic of an MSF 7.00 container.
    #[error("2 Magic")]
    Magic,
    /// The block size is this number of bytes, which is not one of the seven sizes.
    #[error("3 BlockSize {0}")]
    BlockSize(u32),
    /// The first block of the free block map in force is this one, and not block 1 or block 2.
    #[error("4 FreeMapBlock {0}")]
    FreeMapBlock(u32),
    /// The announced blocks have `need` bytes together, and the file has only `have` bytes.
    #[error("5 FileSize need {need} have {have}")]
    FileSize { need: u64, have: u64 },
    /// The length of the directory is this number of bytes, which is not a multiple of four or
    /// needs more blocks than one block can list.
    #[error("6 DirectorySize {0}")]
    DirectorySize(u32),
    /// The block map would be this block, which is block 0 or past the last block of the file.
    #[error("7 BlockMapAddr {0}")]
    BlockMapAddr(u32),
    /// The number at position `at` of the block map is `n`, which is block 0 or past the last
    /// block.
    #[error("8 DirectoryBlock at {at} n {n}")]
    DirectoryBlock { at: u32, n: u32 },
    /// The directory needs `need` bytes for what it lists, and has only `have` bytes.
    #[error("9 DirectoryShort need {need} have {have}")]
    DirectoryShort { need: u64, have: u64 },
    /// The number at position `at` of the list of stream `stream` is `n`, which is block 0 or past
    /// the last block.
    #[error("10 StreamBlock stream {stream} at {at} n {n}")]
    StreamBlock { stream: u32, at: u32, n: u32 },
    /// Out of memory for the lists of block numbers. All checks passed.
    #[error("33 Memory")]
    Memory,
}

impl MsfFault {
    /// The number of the fault, which stands in its text.
    pub fn number(&self) -> u32
        ensures { result ≡ msf_number self.now }
    {
        match self {
            MsfFault::Short => 1,
            MsfFault::Magic => 2,
            MsfFault::BlockSize(_) => 3,
            MsfFault::FreeMapBlock(_) => 4,
            MsfFault::FileSize { .. } => 5,
            MsfFault::DirectorySize(_) => 6,
            MsfFault::BlockMapAddr(_) => 7,
            MsfFault::DirectoryBlock { .. } => 8,
            MsfFault::DirectoryShort { .. } => 9,
            MsfFault::StreamBlock { .. } => 10,
            MsfFault::Memory => 33,
        }
    }
}

impl From<AllocError> for MsfFault {
    ghost from_gives = { λ _ fault. fault ≡ Memory };

    fn from(_error: AllocError) -> MsfFault {
        MsfFault::Memory
    }
}

impl<T: Drop> From<AllocFailed<T>> for MsfFault {
    ghost from_gives = { λ _ fault. fault ≡ Memory };

    fn from(_error: AllocFailed<T>) -> MsfFault {
        MsfFault::Memory
    }
}
