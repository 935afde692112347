//! The types that all records of a stream name.

ghost use Rattle.std.specs.Prelude.{◌≡◌, ◌≢◌, ◌⊎◌, ◌≤◌, ◌<◌, ◌+◌, ◌^◌, ◌++◌, ◌∷◌, [], ℕ, List, length, map, OnOk, IfOk, IfErr};
ghost use Rattle.std.specs.List.{AllByRecursion};
ghost use Rattle.cv_leaves.specs.Place.{HasPlaces, IsChecked};
ghost use Rattle.tpi_records.specs.Records.{IsFramed, IsRecord, HasRecords, records_in};
ghost use Rattle.pdbmerge_c.specs.AllReferences.{AreAllReferences, GivesAllReferences, IsFaultOfAll, IsLeafFault, LacksRoomOfReferences, NameAtPlaces, RefusesAll};
ghost use Rattle.pdbmerge_c.specs.Fault.{IsEnded, IsSaid, IsTold, no_number};
ghost use Rattle.pdbmerge_c.specs.Given.{Fills};
ghost use Rattle.pdbmerge_c.specs.References.{reference_in};

use crate::fault::{Fault, ROOM, clear, refuse, tell};
use crate::give::fill;
use crate::references::{Reference, check_leaf, push_references};
use file_types::PdbFault;
use std::alloc::{AllocError, Global};
use tpi_records::{FIRST_INDEX, Records, TpiFault, TpiHeader, first_record, framed_bytes};

/// What all records name.
#[derive(Drop)]
struct Lists {
    /// What the first record names, then what the second one names, and so on.
    references: Vec<Reference>,
    /// How much each record names.
    counts: Vec<u32>,
}

/// Checks that a stream is a header and records. Out of memory is no fault yet: what would be kept of the
/// records is not needed here, and a fault of a leaf comes first.
fn check_framing(alloc: Global, stream: &[u8]) -> Result<(), PdbFault>
    ensures value { OnOk result ((records : List (List ℕ)) × HasRecords stream.now records) }
    ensures first { IfErr result (IsFaultOfAll stream.now) }
{
    let Err(fault) = Records::read(alloc, stream) else {
        return Ok(());
    };
    match fault {
        TpiFault::Memory => Ok(()),
        fault => Err(PdbFault::Tpi(fault)),
    }
}

/// The bytes of the records of a stream.
fn bytes_of_records(stream: &[u8]) -> &[u8]
    requires { (records : List (List ℕ)) × HasRecords stream.now records }
    ensures value { HasRecords stream.now (records_in result.now) }
    ensures framed { IsFramed result.now }
{
    let Ok(header) = TpiHeader::read(stream) else {
        unreachable!()
    };
    framed_bytes(stream, header)
}

/// The first of some records, and the bytes of those after it.
fn split_record(bytes: &[u8]) -> (&[u8], &[u8])
    requires framed { IsFramed bytes.now }
    requires some { 0 < length bytes.now }
    ensures records { records_in bytes.now ≡ result.0.now ∷ records_in result.1.now }
    ensures record { IsRecord result.0.now }
    ensures framed { IsFramed result.1.now }
    ensures shorter { length result.1.now + 4 ≤ length bytes.now }
{
    let Ok(record) = first_record(bytes, FIRST_INDEX) else {
        unreachable!()
    };
    bytes.split_at(record.len())
}

/// Checks the leaf of each record.
fn check_leaves(bytes: &[u8]) -> Result<(), PdbFault>
    requires { IsFramed bytes.now }
    ensures value { OnOk result (AllByRecursion IsChecked (records_in bytes.now)) }
    ensures first { IfErr result (IsLeafFault (records_in bytes.now)) }
{
    let mut index = FIRST_INDEX;
    let mut left = bytes;
    while !left.is_empty() {
        let (first, others) = split_record(left);
        check_leaf(first, index)?;
        index += 1;
        left = others;
    }
    Ok(())
}

/// Appends what a record names, and how much that is.
#[tactic(auto, using(crate::proofs::ReferenceLaws::few_places))]
fn push_record(lists: &mut Lists, bytes: &[u8]) -> Result<(), AllocError>
    requires long { (4 ≤ length bytes.now) × (length bytes.now ≤ 2 ^ 16) }
    requires checked { IsChecked bytes.now }
    ensures { OnOk result ((here : List ℕ) × HasPlaces bytes.now here
        × (lists.new.references.items
        ≡ lists.old.references.items ++ map (reference_in bytes.now) here)
        × (lists.new.counts.items ≡ lists.old.counts.items ++ length here ∷ [])) }
{
    let before = lists.references.len();
    push_references(&mut lists.references, bytes)?;
    let count = lists.references.len() - before;
    lists.counts.push(count as u32)?;
    Ok(())
}

/// What each record names.
fn list_records(alloc: Global, bytes: &[u8]) -> Result<Lists, AllocError>
    requires framed { IsFramed bytes.now }
    requires checked { AllByRecursion IsChecked (records_in bytes.now) }
    ensures { IfOk result (λ lists. (places : List (List ℕ))
        × NameAtPlaces (records_in bytes.now) places lists.references.items
        × (lists.counts.items ≡ map length places)) }
{
    let mut lists = Lists {
        references: Vec::new(alloc),
        counts: Vec::new(alloc),
    };
    let mut left = bytes;
    while !left.is_empty() {
        let (first, others) = split_record(left);
        push_record(&mut lists, first)?;
        left = others;
    }
    Ok(lists)
}

/// What all records of a stream name.
fn list_all_references(alloc: Global, stream: &[u8]) -> Result<Lists, PdbFault>
    ensures value { IfOk result (λ lists.
        AreAllReferences stream.now lists.references.items lists.counts.items) }
    ensures first { IfErr result (IsFaultOfAll stream.now) }
{
    check_framing(alloc, stream)?;
    let bytes = bytes_of_records(stream);
    // A fault of a leaf comes before out of memory.
    check_leaves(bytes)?;
    match list_records(alloc, bytes) {
        Ok(lists) => Ok(lists),
        Err(_) => Err(PdbFault::Memory),
    }
}

/// Copies both lists to the fronts of what is lent. `ROOM` where there is too little room for one of
/// them: then all of it is as it was.
fn give_lists(
    lists: &Lists,
    references: &mut [Reference],
    counts: &mut [u32],
    fault: &mut Fault,
) -> u32
    ensures status { (result ≡ 0) ⊎ ((result ≡ 100)
        × ((length references.old < length lists.now.references.items)
        ⊎ (length counts.old < length lists.now.counts.items))) }
    ensures done { result ≡ 0 →
        Fills lists.now.references.items references.old references.new
        × Fills lists.now.counts.items counts.old counts.new }
    ensures kept { result ≢ 0 → (references.new ≡ references.old) × (counts.new ≡ counts.old) }
    ensures told { IsTold fault.new result no_number }
    ensures ended { IsEnded fault.new }
{
    if references.len() < lists.references.len() || counts.len() < lists.counts.len() {
        return tell(fault, ROOM, None, &"100 Room");
    }
    fill(lists.references.as_slice(), references);
    fill(lists.counts.as_slice(), counts);
    clear(fault)
}

/// Lists the types that all records of a TPI stream name: those of the first record, then those of the
/// second, and so on, each record's in the order of their places. `counts` has how many each record
/// names. `total` is how many all records name, and `records` how many records there are.
///
/// The faults, in order: those of `Records::read`; those of `check` of `cv_leaves`, of the first record
/// that has one; `MEMORY`; `ROOM`, where `references` or `counts` has too little room, and then `total`
/// and `records` are set too.
#[tactic(auto, using(crate::proofs::NumberLaws::pdb_known))]
#[unsafe(no_mangle)]
pub extern "C" fn pdbmerge_all_references(
    alloc: Global,
    stream: &[u8],
    references: &mut [Reference],
    counts: &mut [u32],
    total: &mut u64,
    records: &mut u64,
    fault: &mut Fault,
) -> u32
    ensures told { IsSaid fault.new result }
    ensures ended { IsEnded fault.new }
    // What the records name and the counts are at the fronts of what was lent.
    ensures value { result ≡ 0 → GivesAllReferences stream.now total.new records.new
        references.old references.new counts.old counts.new }
    // There is more of them than room.
    ensures room { result ≡ 100 → LacksRoomOfReferences stream.now total.new records.new
        (length references.old) (length counts.old) }
    ensures refuses { result ≢ 0 → result ≢ 100 → RefusesAll stream.now fault.new }
    ensures untouched { result ≢ 0 →
        (references.new ≡ references.old) × (counts.new ≡ counts.old) }
    ensures kept { result ≢ 0 → result ≢ 100 →
        (total.new ≡ total.old) × (records.new ≡ records.old) }
{
    match list_all_references(alloc, stream) {
        Ok(lists) => {
            *total = lists.references.len() as u64;
            *records = lists.counts.len() as u64;
            give_lists(&lists, references, counts, fault)
        }
        Err(why) => refuse(fault, why.number(), None, &why),
    }
}
