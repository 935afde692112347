//! Why files are not merged.

ghost use Rattle.std.specs.Prelude.{◌≡◌};
ghost use Rattle.pdb_merge.specs.Fault.{add_from_pdb, add_from_join, add_number, merge_number, out_number, faulty_file};
ghost use Rattle.pdb_merge.specs.declared.fault.OutFault.TheVariants as out;

use byte_io::InputFault;
use file_types::PdbFault;
use std::alloc::{Allocator, Global};
use thiserror::Error;
use type_table::JoinFault;

/// Why a file was not added to a merge.
#[derive(Debug, PartialEq, Eq, Drop, Error)]
pub enum AddFault<A: Allocator = Global> {
    /// The file is not accepted. The fault inside is never out of memory.
    #[error("{0}")]
    Refused(PdbFault<A>),
    /// The types so far and those of the file have `bytes` bytes together, more than the limit.
    #[error("32 TooLarge bytes {bytes}")]
    TooLarge { bytes: u64 },
    /// Out of memory.
    #[error("33 Memory")]
    Memory,
}

impl<A: Allocator> AddFault<A> {
    /// The number of the fault, which stands in its text.
    pub fn number(&self) -> u32
        ensures { result ≡ add_number self.now }
    {
        match self {
            AddFault::Refused(fault) => fault.number(),
            AddFault::TooLarge { .. } => 32,
            AddFault::Memory => 33,
        }
    }
}

impl<A: Allocator> From<PdbFault<A>> for AddFault<A> {
    ghost from_gives = { λ inner fault. fault ≡ add_from_pdb inner };

    fn from(fault: PdbFault<A>) -> AddFault<A> {
        match fault {
            PdbFault::Memory => AddFault::Memory,
            fault => AddFault::Refused(fault),
        }
    }
}

impl<A: Allocator> From<JoinFault> for AddFault<A> {
    ghost from_gives = { λ inner fault. fault ≡ add_from_join inner };

    fn from(fault: JoinFault) -> AddFault<A> {
        match fault {
            JoinFault::TooLarge { bytes } => AddFault::TooLarge { bytes },
            JoinFault::Memory => AddFault::Memory,
        }
    }
}

/// Why files were not merged. A file is named by its position, from 0.
#[derive(Debug, PartialEq, Eq, Drop, Error)]
pub enum MergeFault<A: Allocator = Global> {
    /// This file was not read. Those before it were. The fault inside is never out of memory.
    #[error("file {file}: {fault}")]
    Input { file: usize, fault: InputFault },
    /// This file is not accepted. Those before it are. The fault inside is never out of memory.
    #[error("file {file}: {fault}")]
    Refused { file: usize, fault: PdbFault<A> },
    /// The types of the files up to this one, with this one, have `bytes` bytes together, more than
    /// the limit. Those of the files before it are within the limit.
    #[error("file {file}: 32 TooLarge bytes {bytes}")]
    TooLarge { file: usize, bytes: u64 },
    /// Out of memory.
    #[error("33 Memory")]
    Memory,
}

impl<A: Allocator> MergeFault<A> {
    /// The number of the fault, which stands in its text.
    pub fn number(&self) -> u32
        ensures { result ≡ merge_number self.now }
    {
        match self {
            MergeFault::Input { fault, .. } => fault.number(),
            MergeFault::Refused { fault, .. } => fault.number(),
            MergeFault::TooLarge { .. } => 32,
            MergeFault::Memory => 33,
        }
    }

    /// The position of the file that the fault names, from 0. `None` where it names no file.
    pub fn file(&self) -> Option<usize>
        ensures { result ≡ faulty_file self.now }
    {
        match self {
            MergeFault::Input { file, .. }
            | MergeFault::Refused { file, .. }
            | MergeFault::TooLarge { file, .. } => Some(*file),
            MergeFault::Memory => None,
        }
    }
}

/// Why no file was written.
#[derive(Debug, PartialEq, Eq, Drop, Error)]
pub enum OutFault<A: Allocator = Global> {
    /// The files were not merged. Nothing was written.
    #[error("{0}")]
    Merge(MergeFault<A>),
    /// Out of memory for writing, after the files were merged. Nothing was written.
    #[error("33 Memory")]
    Memory,
    /// The sink took the first bytes of the file, but not all of them.
    #[error("36 Write")]
    Write,
}

impl<A: Allocator> OutFault<A> {
    /// The number of the fault, which stands in its text.
    pub fn number(&self) -> u32
        ensures { result ≡ out_number self.now }
    {
        match self {
            OutFault::Merge(fault) => fault.number(),
            OutFault::Memory => 33,
            OutFault::Write => 36,
        }
    }
}

impl<A: Allocator> From<MergeFault<A>> for OutFault<A> {
    ghost from_gives = { λ inner fault. fault ≡ out.Merge inner };

    fn from(fault: MergeFault<A>) -> OutFault<A> {
        OutFault::Merge(fault)
    }
}
