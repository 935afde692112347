//! Maps of files while memory is refused.

use super::calls::merge_with_maps;
use pdb_info::Settings;
use pdb_merge::TypeMaps;
use std::alloc::{Allocator, Global};
use std::hash::BuildHasher;
use std::test::Fail;
use test_samples::{
    CONST, LIMIT, Refusal, TO_FIRST, TO_INT, TO_SECOND, TestHeap, VOLATILE, folding, pdb_with,
    refusals_amid, settings,
};

/// The records of each file, and where their types went.
type Row = (&'static [&'static [u8]], &'static [u32]);

/// A record may come before the one that it names, and more than once. The list has these types:
/// CONST, VOLATILE, TO_INT, and pointers to each of them, in this order.
const ROWS: [Row; 4] = [
    (&[VOLATILE, CONST, TO_FIRST, TO_SECOND], &[1, 0, 4, 3]),
    (&[TO_SECOND, TO_INT], &[5, 2]),
    (&[CONST, CONST, TO_INT], &[0, 0, 2]),
    (&[], &[]),
];

/// The files of the rows.
fn files_of(alloc: Global) -> Result<Vec<Vec<u8>>, Fail> {
    let mut files = Vec::new(alloc);
    for (records, _) in ROWS {
        files.push(pdb_with(alloc, records)?)?;
    }
    Ok(files)
}

/// These files as slices.
fn slices_of(alloc: Global, files: &[Vec<u8>]) -> Result<Vec<&[u8]>, Fail> {
    let mut slices = Vec::new(alloc);
    for file in files {
        slices.push(file.as_slice())?;
    }
    Ok(slices)
}

/// Whether these are the maps of the rows.
fn are_right<A: Allocator + Copy>(maps: &TypeMaps<A>) -> bool {
    if maps.len() != ROWS.len() {
        return false;
    }
    for (file, (_, map)) in ROWS.iter().enumerate() {
        if maps.get(file) != *map {
            return false;
        }
    }
    true
}

/// The number of the fault where memory is refused.
const MEMORY: u32 = 33;

/// Merges files. Returns whether memory was refused. It is a failure if the answer is neither that nor
/// the whole one.
fn lacks_memory<A: Allocator + Copy>(
    heap: A,
    alloc: Global,
    files: &[&[u8]],
    settings: &Settings,
    want: &[u8],
) -> Result<bool, Fail> {
    let (answer, file) = merge_with_maps(heap, alloc, files, settings, folding());
    match &answer {
        Ok(maps) if are_right(maps) && file.as_slice() == want => Ok(false),
        Err(fault) if fault.number() == MEMORY && file.is_empty() => Ok(true),
        _ => Err("another answer".into()),
    }
}

/// Merges files while memory is refused. Returns whether it was.
fn is_refused(
    heap: &TestHeap,
    refusal: Refusal,
    alloc: Global,
    files: &[&[u8]],
    want: &[u8],
) -> Result<bool, Fail> {
    let settings = settings(LIMIT, 4096)?;
    let filler = refusal.begin(heap);
    let refused = lacks_memory(heap, alloc, files, &settings, want);
    drop(filler);
    heap.stop_failing();
    refused
}

#[test]
fn a_merge_with_maps_is_refused_growth_in_turn(rt: HostRuntime) -> Result<(), Fail> {
    let files = files_of(rt.alloc())?;
    let files = slices_of(rt.alloc(), &files)?;
    let settings = settings(LIMIT, 4096)?;
    let (_, want) = merge_with_maps(rt.alloc(), rt.alloc(), &files, &settings, folding());
    let refused = refusals_amid(rt.alloc(), 16384, 64, |heap, refusal| {
        is_refused(heap, refusal, rt.alloc(), &files, &want)
    })?;
    assert!(rt; 2 < refused);
    Ok(())
}
