//! Why the program did not do what its arguments ask for.

ghost use Rattle.std.specs.Prelude.{◌≡◌};
ghost use Rattle.host_files.specs.Fault.{map_number, program_number, faulty_input};
ghost use Rattle.host_files.specs.declared.fault.ProgramFault.TheVariants.{Run, Map};
ghost use Rattle.show_commands.specs.declared.fault.RunFault.TheVariants.{Memory, Write};

use byte_io::NotTaken;
use show_commands::RunFault;
use std::alloc::{AllocError, AllocFailed};
use thiserror::Error;

/// Why the maps of a merge were not written. The file of the merge is whole then.
#[derive(Clone, Copy, Debug, PartialEq, Eq, Error)]
pub enum MapFault {
    /// The file for them cannot be created, or is one that the merge reads or writes.
    #[error("41 Create")]
    Create,
    /// The file took the first bytes of them, but not all.
    #[error("36 Write")]
    Write,
}

impl MapFault {
    /// The number of the fault, which stands in its text.
    pub fn number(&self) -> u32
        ensures { result ≡ map_number self.now }
    {
        match self {
            MapFault::Create => 41,
            MapFault::Write => 36,
        }
    }
}

/// Why the program did not do what the arguments ask for.
#[derive(Debug, PartialEq, Eq, Drop, Error)]
pub enum ProgramFault {
    /// The command was refused.
    #[error("{0}")]
    Run(RunFault),
    /// The file to write cannot be created.
    #[error("41 Create")]
    Create,
    /// The maps of a merge were not written.
    #[error("map: {0}")]
    Map(MapFault),
}

impl ProgramFault {
    /// The number of the fault, which stands in its text.
    pub fn number(&self) -> u32
        ensures { result ≡ program_number self.now }
    {
        match self {
            ProgramFault::Run(fault) => fault.number(),
            ProgramFault::Create => 41,
            ProgramFault::Map(fault) => fault.number(),
        }
    }

    /// The position of the input that the fault names, from 0. `None` where it names none.
    pub fn file(&self) -> Option<usize>
        ensures { result ≡ faulty_input self.now }
    {
        match self {
            ProgramFault::Run(RunFault::Merge(fault)) => fault.file(),
            _ => None,
        }
    }
}

impl From<AllocError> for ProgramFault {
    ghost from_gives = { λ _ fault. fault ≡ Run Memory };

    fn from(_error: AllocError) -> ProgramFault {
        ProgramFault::Run(RunFault::Memory)
    }
}

impl<T: Drop> From<AllocFailed<T>> for ProgramFault {
    ghost from_gives = { λ _ fault. fault ≡ Run Memory };

    fn from(_error: AllocFailed<T>) -> ProgramFault {
        ProgramFault::Run(RunFault::Memory)
    }
}

impl From<NotTaken> for ProgramFault {
    ghost from_gives = { λ _ fault. fault ≡ Run Write };

    fn from(_error: NotTaken) -> ProgramFault {
        ProgramFault::Run(RunFault::Write)
    }
}

impl From<MapFault> for ProgramFault {
    ghost from_gives = { λ inner fault. fault ≡ Map inner };

    fn from(fault: MapFault) -> ProgramFault {
        ProgramFault::Map(fault)
    }
}

impl From<RunFault> for ProgramFault {
    ghost from_gives = { λ inner fault. fault ≡ Run inner };

    fn from(fault: RunFault) -> ProgramFault {
        ProgramFault::Run(fault)
    }
}
