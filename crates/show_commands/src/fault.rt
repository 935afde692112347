//! Why a command is refused.

ghost use Rattle.std.specs.Prelude.{◌≡◌};
ghost use Rattle.show_commands.specs.Fault.{run_from_input, run_from_one, run_from_read, run_from_info, run_from_pdb, run_from_merge, run_from_out, run_number};
ghost use Rattle.show_commands.specs.declared.fault.RunFault.TheVariants.{Memory, Write};

use byte_io::{InputFault, NotTaken, ReadFault};
use cv_leaves::LeafFault;
use file_types::PdbFault;
use pdb_info::InfoFault;
use pdb_merge::{MergeFault, OutFault};
use std::alloc::{AllocError, Allocator, Global};
use thiserror::Error;

/// Why a command is refused.
///
/// Out of memory is always `Memory`: a fault inside another variant is never out of memory.
#[derive(Debug, PartialEq, Eq, Drop, Error)]
pub enum RunFault<A: Allocator = Global> {
    /// The input cannot be opened.
    #[error("40 Open")]
    Open,
    /// The input was not read to its end.
    #[error("{0}")]
    Read(ReadFault),
    /// A stream of the file has more bytes than the limit allows.
    #[error("38 TooLong")]
    TooLong,
    /// The file is refused: its container, a stream that it lacks, or its type records.
    #[error("{0}")]
    Pdb(PdbFault<A>),
    /// The info stream is refused.
    #[error("{0}")]
    Info(InfoFault),
    /// The files cannot be merged.
    #[error("{0}")]
    Merge(MergeFault<A>),
    /// No type record has this type index.
    #[error("39 NoRecord {0:#x}")]
    NoRecord(u32),
    /// The record with this type index has a leaf that is refused.
    #[error("index {index:#x}: {fault}")]
    Leaf { index: u32, fault: LeafFault },
    /// Out of memory.
    #[error("33 Memory")]
    Memory,
    /// A sink did not take the whole text or the whole file.
    #[error("36 Write")]
    Write,
}

impl<A: Allocator> RunFault<A> {
    /// The fault of a command with one input, which is not counted.
    pub(crate) fn of_one(fault: MergeFault<A>) -> RunFault<A>
        ensures { result ≡ run_from_one fault }
    {
        match fault {
            MergeFault::Input { fault, .. } => RunFault::from(fault),
            MergeFault::Refused { fault, .. } => RunFault::from(fault),
            MergeFault::TooLarge { .. } | MergeFault::Memory => RunFault::from(fault),
        }
    }

    /// The number of the fault, which stands in its text.
    pub fn number(&self) -> u32
        ensures { result ≡ run_number self.now }
    {
        match self {
            RunFault::Open => 40,
            RunFault::Read(fault) => fault.number(),
            RunFault::TooLong => 38,
            RunFault::Pdb(fault) => fault.number(),
            RunFault::Info(fault) => fault.number(),
            RunFault::Merge(fault) => fault.number(),
            RunFault::NoRecord(_) => 39,
            RunFault::Leaf { fault, .. } => fault.number(),
            RunFault::Memory => 33,
            RunFault::Write => 36,
        }
    }
}

impl<A: Allocator> From<AllocError> for RunFault<A> {
    ghost from_gives = { λ _ fault. fault ≡ Memory };

    fn from(_error: AllocError) -> RunFault<A> {
        RunFault::Memory
    }
}

impl<A: Allocator> From<NotTaken> for RunFault<A> {
    ghost from_gives = { λ _ fault. fault ≡ Write };

    fn from(_error: NotTaken) -> RunFault<A> {
        RunFault::Write
    }
}

impl<A: Allocator> From<ReadFault> for RunFault<A> {
    ghost from_gives = { λ inner fault. fault ≡ run_from_read inner };

    fn from(fault: ReadFault) -> RunFault<A> {
        match fault {
            ReadFault::Memory => RunFault::Memory,
            fault => RunFault::Read(fault),
        }
    }
}

impl<A: Allocator> From<InputFault> for RunFault<A> {
    ghost from_gives = { λ inner fault. fault ≡ run_from_input inner };

    fn from(fault: InputFault) -> RunFault<A> {
        match fault {
            InputFault::Open => RunFault::Open,
            InputFault::Read(fault) => RunFault::from(fault),
        }
    }
}

impl<A: Allocator> From<InfoFault> for RunFault<A> {
    ghost from_gives = { λ inner fault. fault ≡ run_from_info inner };

    fn from(fault: InfoFault) -> RunFault<A> {
        match fault {
            InfoFault::Memory => RunFault::Memory,
            fault => RunFault::Info(fault),
        }
    }
}

impl<A: Allocator> From<PdbFault<A>> for RunFault<A> {
    ghost from_gives = { λ inner fault. fault ≡ run_from_pdb inner };

    fn from(fault: PdbFault<A>) -> RunFault<A> {
        match fault {
            PdbFault::Memory => RunFault::Memory,
            fault => RunFault::Pdb(fault),
        }
    }
}

impl<A: Allocator> From<MergeFault<A>> for RunFault<A> {
    ghost from_gives = { λ inner fault. fault ≡ run_from_merge inner };

    fn from(fault: MergeFault<A>) -> RunFault<A> {
        match fault {
            MergeFault::Memory => RunFault::Memory,
            fault => RunFault::Merge(fault),
        }
    }
}

impl<A: Allocator> From<OutFault<A>> for RunFault<A> {
    ghost from_gives = { λ inner fault. fault ≡ run_from_out inner };

    fn from(fault: OutFault<A>) -> RunFault<A> {
        match fault {
            OutFault::Merge(fault) => RunFault::from(fault),
            OutFault::Memory => RunFault::Memory,
            OutFault::Write => RunFault::Write,
        }
    }
}
