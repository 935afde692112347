//! The types of two files.

ghost use Rattle.std.specs.Prelude.{◌≡◌, ℕ, List, IfOk, IfErr};
ghost use Rattle.std.specs.declared.alloc.Global.{Global};
ghost use Rattle.file_types.specs.Read.{IsAccepted};
ghost use Rattle.pdb_merge.specs.declared.fault.MergeFault.{MergeFault};
ghost use Rattle.pdbmerge_c.specs.Pair.{IsFaultOfInput, IsFaultOfPair, input_fault};

use checked_types::Types;
use file_types::{Buffer, PdbFault, read_types};
use pdb_merge::MergeFault;
use std::alloc::Global;

/// Where the streams of two files are gathered.
#[derive(Drop)]
pub(crate) struct Buffers {
    first: Buffer,
    second: Buffer,
}

impl Buffers {
    /// Buffers without bytes.
    pub(crate) fn new(alloc: Global) -> Buffers {
        Buffers {
            first: Buffer::new(alloc),
            second: Buffer::new(alloc),
        }
    }
}

/// The types of two files.
#[derive(Drop)]
pub(crate) struct Pair<'a> {
    pub(crate) first: Types<'a>,
    pub(crate) second: Types<'a>,
}

/// The fault of the file at this position.
fn input_fault(input: usize, fault: PdbFault) -> MergeFault
    ensures { result ≡ input_fault input fault }
{
    match fault {
        PdbFault::Memory => MergeFault::Memory,
        fault => MergeFault::Refused { file: input, fault },
    }
}

/// The types of one of two files.
fn types_of<'a>(
    alloc: Global,
    input: usize,
    file: &'a [u8],
    buffer: &'a mut Buffer,
) -> Result<Types<'a>, MergeFault>
    ensures value { IfOk result (IsAccepted file.now) }
    ensures found { (records : List (List ℕ)) → IsAccepted file.now records →
        IfErr result (λ fault. fault ≡ MergeFault.Memory) }
    ensures first { IfErr result (IsFaultOfInput input file.now) }
{
    match read_types(alloc, file, buffer) {
        Ok(types) => Ok(types),
        Err(fault) => Err(input_fault(input, fault)),
    }
}

impl<'a> Pair<'a> {
    /// Reads the types of two files. The faults of the first file come first.
    pub(crate) fn read(
        alloc: Global,
        first: &'a [u8],
        second: &'a [u8],
        buffers: &'a mut Buffers,
    ) -> Result<Pair<'a>, MergeFault>
        ensures value { IfOk result (λ pair.
            IsAccepted first.now pair.first × IsAccepted second.now pair.second) }
        ensures found { (records others : List (List ℕ)) →
            IsAccepted first.now records → IsAccepted second.now others →
            IfErr result (λ fault. fault ≡ MergeFault.Memory) }
        ensures first { IfErr result (IsFaultOfPair first.now second.now) }
    {
        let ours = types_of(alloc, 0, first, &mut buffers.first)?;
        let theirs = types_of(alloc, 1, second, &mut buffers.second)?;
        Ok(Pair {
            first: ours,
            second: theirs,
        })
    }
}
