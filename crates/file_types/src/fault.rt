//! Why a file is not accepted.

ghost use Rattle.std.specs.Prelude.{◌≡◌};
ghost use Rattle.file_types.specs.Fault.{pdb_from_msf, pdb_from_stream, pdb_from_info, pdb_from_tpi, pdb_from_type, pdb_number};
ghost use Rattle.file_types.specs.declared.fault.PdbFault.TheVariants.{Memory};

use checked_types::TypeFault;
use msf_blocks::MsfFault;
use msf_streams::StreamFault;
use pdb_info::InfoFault;
use std::alloc::{AllocError, Allocator, Global};
use thiserror::Error;
use tpi_records::TpiFault;

/// The first fault of a file on the way to its types.
///
/// The container comes first, then stream 1, then stream 2 and its records. Out of memory is always
/// `Memory`: a fault inside another variant is never out of memory.
#[derive(Debug, PartialEq, Eq, Drop, Error)]
pub enum PdbFault<A: Allocator = Global> {
    /// The container is refused.
    #[error("{0}")]
    Msf(MsfFault),
    /// The container lacks a stream.
    #[error("{0}")]
    Stream(StreamFault),
    /// The info stream is refused.
    #[error("{0}")]
    Info(InfoFault),
    /// The stream of type records is refused.
    #[error("{0}")]
    Tpi(TpiFault),
    /// The type records are no types.
    #[error("{0}")]
    Type(TypeFault<A>),
    /// Out of memory.
    #[error("33 Memory")]
    Memory,
}

impl<A: Allocator> PdbFault<A> {
    /// The number of the fault, which stands in its text.
    pub fn number(&self) -> u32
        ensures { result ≡ pdb_number self.now }
    {
        match self {
            PdbFault::Msf(fault) => fault.number(),
            PdbFault::Stream(fault) => fault.number(),
            PdbFault::Info(fault) => fault.number(),
            PdbFault::Tpi(fault) => fault.number(),
            PdbFault::Type(fault) => fault.number(),
            PdbFault::Memory => 33,
        }
    }
}

impl<A: Allocator> From<AllocError> for PdbFault<A> {
    ghost from_gives = { λ _ fault. fault ≡ Memory };

    fn from(_error: AllocError) -> PdbFault<A> {
        PdbFault::Memory
    }
}

impl<A: Allocator> From<MsfFault> for PdbFault<A> {
    ghost from_gives = { λ inner fault. fault ≡ pdb_from_msf inner };

    fn from(fault: MsfFault) -> PdbFault<A> {
        match fault {
            MsfFault::Memory => PdbFault::Memory,
            fault => PdbFault::Msf(fault),
        }
    }
}

impl<A: Allocator> From<StreamFault> for PdbFault<A> {
    ghost from_gives = { λ inner fault. fault ≡ pdb_from_stream inner };

    fn from(fault: StreamFault) -> PdbFault<A> {
        match fault {
            StreamFault::Memory => PdbFault::Memory,
            fault => PdbFault::Stream(fault),
        }
    }
}

impl<A: Allocator> From<InfoFault> for PdbFault<A> {
    ghost from_gives = { λ inner fault. fault ≡ pdb_from_info inner };

    fn from(fault: InfoFault) -> PdbFault<A> {
        match fault {
            InfoFault::Memory => PdbFault::Memory,
            fault => PdbFault::Info(fault),
        }
    }
}

impl<A: Allocator> From<TpiFault> for PdbFault<A> {
    ghost from_gives = { λ inner fault. fault ≡ pdb_from_tpi inner };

    fn from(fault: TpiFault) -> PdbFault<A> {
        match fault {
            TpiFault::Memory => PdbFault::Memory,
            fault => PdbFault::Tpi(fault),
        }
    }
}

impl<A: Allocator> From<TypeFault<A>> for PdbFault<A> {
    ghost from_gives = { λ inner fault. fault ≡ pdb_from_type inner };

    fn from(fault: TypeFault<A>) -> PdbFault<A> {
        match fault {
            TypeFault::Memory => PdbFault::Memory,
            fault => PdbFault::Type(fault),
        }
    }
}
