//! The types that only one of two files has.

ghost use Rattle.std.specs.Prelude.{◌≡◌, ◌⊎◌, ◌<◌, ◌+◌, ◌^◌, ◌++◌, ℕ, List, length, OnOk, IfOk, IfErr};
ghost use Rattle.file_types.specs.Read.{IsAccepted};
ghost use Rattle.pdb_merge.specs.declared.fault.MergeFault.{MergeFault};
ghost use Rattle.pdbmerge_c.specs.Given.{Copies};
ghost use Rattle.pdbmerge_c.specs.Diff.{AreDifferences, TellApart, row_of, rows_from};
ghost use Rattle.pdbmerge_c.specs.Pair.{IsFaultOfPair, RefusesPair};

use crate::fault::{Fault, refuse};
use crate::give::give;
use crate::pair::{Buffers, Pair};
use crate::seed::Seed;
use checked_types::Types;
use pdb_merge::MergeFault;
use std::alloc::{AllocError, Global};
use std::hash::RandomState;
use tpi_records::FIRST_INDEX;
use type_difference::{Standing, compare};

/// A type that only one of two files has.
#[repr(C)]
#[derive(Clone, Copy, Debug)]
pub struct OneSided {
    /// The file that has it: 0 or 1.
    pub input: u32,
    /// The type index of its first record there.
    pub index: u32,
    /// 1 if the difference begins at this type: the other file has each type that this one names.
    /// Otherwise 0.
    pub origin: u32,
}

/// Appends the row of a record with this standing, if it has one.
fn push_row(
    rows: &mut Vec<OneSided>,
    input: u32,
    position: usize,
    standing: Standing,
) -> Result<(), AllocError>
    requires { position < 2 ^ 30 }
    ensures { OnOk result (rows.new.items ≡ rows.old.items ++ row_of input position standing) }
{
    let origin = match standing {
        Standing::Shared | Standing::Again => return Ok(()),
        Standing::Follows => 0,
        Standing::Origin => 1,
    };
    rows.push(OneSided {
        input,
        index: FIRST_INDEX + position as u32,
        origin,
    })?;
    Ok(())
}

/// Appends the rows of all records of a file.
fn push_rows(rows: &mut Vec<OneSided>, input: u32, standings: &[Standing]) -> Result<(), AllocError>
    requires { length standings.now < 2 ^ 30 }
    ensures { OnOk result (rows.new.items ≡ rows.old.items ++ rows_from input 0 standings.now) }
{
    let mut position = 0;
    while position < standings.len() {
        push_row(rows, input, position, standings[position])?;
        position += 1;
    }
    Ok(())
}

/// The rows of two lists of types.
fn compare_types(
    alloc: Global,
    first: &Types<'_>,
    second: &Types<'_>,
    seed: &Seed,
) -> Result<Vec<OneSided>, AllocError>
    ensures { IfOk result (λ rows. TellApart first.now second.now rows.items) }
{
    let Ok(hasher) = RandomState::new(seed) else {
        return Err(AllocError);
    };
    let difference = compare(alloc, first, second, hasher)?;
    prove!(difference.first.len() == first.len());
    prove!(difference.second.len() == second.len());
    let mut rows = Vec::new(alloc);
    push_rows(&mut rows, 0, &difference.first)?;
    push_rows(&mut rows, 1, &difference.second)?;
    Ok(rows)
}

/// The types that only one of two files has.
fn list_differences(
    alloc: Global,
    first: &[u8],
    second: &[u8],
    seed: &Seed,
) -> Result<Vec<OneSided>, MergeFault>
    ensures value { IfOk result (λ rows. AreDifferences first.now second.now rows.items) }
    ensures found { (records others : List (List ℕ)) →
        IsAccepted first.now records → IsAccepted second.now others →
        IfErr result (λ fault. fault ≡ MergeFault.Memory) }
    ensures first { IfErr result (IsFaultOfPair first.now second.now) }
{
    let mut buffers = Buffers::new(alloc);
    let pair = Pair::read(alloc, first, second, &mut buffers)?;
    match compare_types(alloc, &pair.first, &pair.second, seed) {
        Ok(rows) => Ok(rows),
        Err(_) => Err(MergeFault::Memory),
    }
}

/// Lists the types that only one of two files has, each once: first those of the first file, then
/// those of the second, each in the order of their type indices. `count` is how many there are.
///
/// The faults, in order: those of `read_types` of the first file, then of the second; `MEMORY`;
/// `ROOM`, and then `count` is set too.
#[tactic(auto, using(crate::proofs::NumberLaws::merge_known))]
#[unsafe(no_mangle)]
pub extern "C" fn pdbmerge_diff(
    alloc: Global,
    first: &[u8],
    second: &[u8],
    seed: &Seed,
    rows: &mut [OneSided],
    count: &mut u64,
    fault: &mut Fault,
) -> u32
    ensures answer { Copies (AreDifferences first.now second.now) (RefusesPair first.now second.now)
        rows.old rows.new count.old count.new fault.new result }
    // Files that are accepted are refused only when out of memory or of room.
    ensures found { (records others : List (List ℕ)) →
        IsAccepted first.now records → IsAccepted second.now others →
        (result ≡ 0) ⊎ (result ≡ 33) ⊎ (result ≡ 100) }
{
    match list_differences(alloc, first, second, seed) {
        Ok(found) => give(found.as_slice(), rows, count, fault),
        Err(why) => refuse(fault, why.number(), why.file(), &why),
    }
}
