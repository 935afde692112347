//! Whether the types of a file can be trusted.

ghost use Rattle.std.specs.Prelude.{◌≡◌, ◌≢◌, ◌⊎◌, None, ℕ, List, IfOk, IfErr};
ghost use Rattle.file_types.specs.Read.{IsAccepted};
ghost use Rattle.pdbmerge_c.specs.Fault.{IsEnded, IsSaid};
ghost use Rattle.pdbmerge_c.specs.Check.{Checks, RefusesCheck, IsFaultOfFile};

use crate::fault::{Fault, clear, refuse};
use file_types::{Buffer, PdbFault, read_types};
use std::alloc::Global;

/// What an accepted file has.
#[repr(C)]
#[derive(Clone, Copy, Debug)]
pub struct Counts {
    /// How many type records it has.
    pub records: u32,
    /// How many bytes they have together, with their length fields.
    pub bytes: u32,
    /// How many types the longest chain of references has.
    pub levels: u32,
}

/// Counts the types of a file that is accepted.
fn count_types(alloc: Global, file: &[u8]) -> Result<Counts, PdbFault>
    ensures value { IfOk result (Checks file.now) }
    ensures found { (records : List (List ℕ)) → IsAccepted file.now records →
        IfErr result (λ fault. fault ≡ PdbFault.Memory) }
    ensures first { IfErr result (IsFaultOfFile file.now) }
{
    let mut buffer = Buffer::new(alloc);
    let types = read_types(alloc, file, &mut buffer)?;
    Ok(Counts {
        records: types.len() as u32,
        bytes: types.bytes_len(),
        levels: types.levels(),
    })
}

/// Checks whether the types of a file can be trusted, and counts them.
///
/// The faults, in order, are those of `read_types`: those of the container, of stream 1, of stream 2,
/// of its records, and last a cycle. Out of memory comes only where the container has no fault.
#[tactic(auto, using(crate::proofs::NumberLaws::pdb_known))]
#[unsafe(no_mangle)]
pub extern "C" fn pdbmerge_check(
    alloc: Global,
    file: &[u8],
    counts: &mut Counts,
    fault: &mut Fault,
) -> u32
    ensures told { IsSaid fault.new result }
    ensures ended { IsEnded fault.new }
    ensures value { result ≡ 0 → Checks file.now counts.new }
    // A file that is accepted is refused only when out of memory.
    ensures found { (records : List (List ℕ)) → IsAccepted file.now records →
        (result ≡ 0) ⊎ (result ≡ 33) }
    ensures refuses { result ≢ 0 → RefusesCheck file.now fault.new }
    ensures kept { result ≢ 0 → counts.new ≡ counts.old }
{
    match count_types(alloc, file) {
        Ok(found) => {
            *counts = found;
            clear(fault)
        }
        Err(why) => refuse(fault, why.number(), None, &why),
    }
}
