//! The types that a record names.

ghost use Rattle.std.specs.Prelude.{◌≡◌, ◌≤◌, ◌<◌, ◌+◌, ◌^◌, ◌++◌, ◌∷◌, [], ℕ, List, length, map, OnOk, IfOk, IfErr};
ghost use Rattle.cv_leaves.specs.Place.{HasPlaces, IsChecked};
ghost use Rattle.pdbmerge_c.specs.Given.{Copies};
ghost use Rattle.pdbmerge_c.specs.References.{AreReferences, IsFaultOfLeaf, IsFaultOfRecord, RefusesRecord, reference_in};

use crate::fault::{Fault, refuse};
use crate::give::give;
use checked_types::TypeFault;
use cv_leaves::{check, places, ref_at};
use file_types::PdbFault;
use std::alloc::{AllocError, Global};
use tpi_records::first_record;

/// A type that a record names.
#[repr(C)]
#[derive(Clone, Copy, Debug)]
pub struct Reference {
    /// The offset in the record's body at which its type index stands. The body is what follows the
    /// first four bytes of the record.
    pub place: u32,
    /// The type index.
    pub index: u32,
}

/// Appends what a record names at a place.
fn push_reference(found: &mut Vec<Reference>, bytes: &[u8], place: usize) -> Result<(), AllocError>
    requires fits { place + 8 ≤ length bytes.now }
    requires short { length bytes.now ≤ 2 ^ 16 }
    ensures { OnOk result
        (found.new.items ≡ found.old.items ++ reference_in bytes.now place ∷ []) }
{
    found.push(Reference {
        place: place as u32,
        index: ref_at(bytes, place),
    })?;
    Ok(())
}

/// Appends what a record names, at each of its places.
pub(crate) fn push_references(found: &mut Vec<Reference>, bytes: &[u8]) -> Result<(), AllocError>
    requires long { (4 ≤ length bytes.now) × (length bytes.now ≤ 2 ^ 16) }
    requires checked { IsChecked bytes.now }
    ensures { OnOk result
        ((at : List ℕ) × HasPlaces bytes.now at
        × (found.new.items ≡ found.old.items ++ map (reference_in bytes.now) at)) }
{
    for place in places(bytes) {
        push_reference(found, bytes, place)?;
    }
    Ok(())
}

/// Checks the leaf of a record. `index` is its type index, which a fault names.
pub(crate) fn check_leaf(bytes: &[u8], index: u32) -> Result<(), PdbFault>
    requires { (4 ≤ length bytes.now) × (length bytes.now ≤ 2 ^ 16) }
    ensures value { OnOk result (IsChecked bytes.now) }
    ensures first { IfErr result (IsFaultOfLeaf bytes.now index) }
{
    match check(bytes) {
        Ok(()) => Ok(()),
        Err(fault) => Err(PdbFault::Type(TypeFault::Leaf { index, fault })),
    }
}

/// What the record at the front of some bytes names.
fn list_references(alloc: Global, bytes: &[u8], index: u32) -> Result<Vec<Reference>, PdbFault>
    ensures value { IfOk result (λ found. AreReferences bytes.now found.items) }
    ensures first { IfErr result (IsFaultOfRecord bytes.now index) }
{
    let found = first_record(bytes, index)?;
    check_leaf(found, index)?;
    let mut references = Vec::new(alloc);
    push_references(&mut references, found)?;
    Ok(references)
}

/// Lists the types that a record names, in the order of their places. `bytes` starts at the front
/// of the record, and may go on after it. `index` is the type index of the record, which a fault
/// names. `count` is how many there are.
///
/// The faults, in order: those of `first_record`; those of `check` of `cv_leaves`; `MEMORY`;
/// `ROOM`, and then `count` is set too.
#[tactic(auto, using(crate::proofs::NumberLaws::pdb_known))]
#[unsafe(no_mangle)]
pub extern "C" fn pdbmerge_references(
    alloc: Global,
    bytes: &[u8],
    index: u32,
    references: &mut [Reference],
    count: &mut u64,
    fault: &mut Fault,
) -> u32
    ensures { Copies (AreReferences bytes.now) (RefusesRecord bytes.now index)
        references.old references.new count.old count.new fault.new result }
{
    match list_references(alloc, bytes, index) {
        Ok(found) => give(found.as_slice(), references, count, fault),
        Err(why) => refuse(fault, why.number(), None, &why),
    }
}
