//! Growth refused in turn: after each refusal nothing was written, and the same call with ample memory
//! gives the whole answer.

use super::calls::{list_of, write_bytes};
use msf_streams::WriteFault;
use pdb_info::Settings;
use std::alloc::{Allocator, Global};
use std::test::Fail;
use test_samples::{
    CONST, Refusal, TO_FIRST, TO_INT, TO_SECOND, TestHeap, VOLATILE, folding, pdb_with,
    refusals_amid, sample, settings,
};
use type_table::Canon;

/// What writing a list gives: whether it has the memory that it needs, and the bytes of the file.
type Given = (bool, Vec<u8>);

/// What writing a list gives.
fn given_file<A: Allocator + Copy>(
    heap: A,
    alloc: Global,
    canon: &Canon<A>,
    settings: &Settings,
) -> Result<Given, Fail> {
    let (answer, file) = write_bytes(heap, alloc, canon, settings);
    match answer {
        Ok(()) => Ok((true, file)),
        Err(WriteFault::Memory) => Ok((false, file)),
        Err(_) => Err("not written".into()),
    }
}

/// Writes a list while memory is refused.
fn write_refused<'h>(
    heap: &'h TestHeap,
    refusal: Refusal,
    alloc: Global,
    canon: &Canon<&'h TestHeap>,
    settings: &Settings,
) -> Result<Given, Fail> {
    let filler = refusal.begin(heap);
    let given = given_file(heap, alloc, canon, settings);
    drop(filler);
    heap.stop_failing();
    given
}

/// Writes a list while memory is refused, and again.
fn canon_twice<'h>(
    heap: &'h TestHeap,
    refusal: Refusal,
    alloc: Global,
    canon: &Canon<&'h TestHeap>,
    settings: &Settings,
) -> Result<(Given, Given), Fail> {
    let given = write_refused(heap, refusal, alloc, canon, settings)?;
    let again = given_file(heap, alloc, canon, settings)?;
    Ok((given, again))
}

/// Writes the list of files while memory is refused, and again.
fn write_twice(
    heap: &TestHeap,
    refusal: Refusal,
    alloc: Global,
    files: &[&[u8]],
) -> Result<(Given, Given), Fail> {
    let settings = settings(1000, 4096)?;
    match list_of(heap, files, &settings, folding()) {
        Ok(canon) => canon_twice(heap, refusal, alloc, &canon, &settings),
        Err(_) => Err("no list".into()),
    }
}

/// Whether a call was accepted, if it gave all these bytes, or else none of them, and all of them
/// when it was made again. `None` if it gave anything else.
fn was_accepted(given: &Given, again: &Given, bytes: &[u8]) -> Option<bool> {
    if !again.0 || again.1.as_slice() != bytes {
        return None;
    }
    let whole: &[u8] = if given.0 { bytes } else { &[] };
    if given.1.as_slice() == whole {
        Some(given.0)
    } else {
        None
    }
}

/// Refuses the writer of the list of some files memory in turn. Returns how many tries in little
/// memory were refused.
fn refused_in_turn(alloc: Global, files: &[&[u8]], want: &[u8]) -> Result<usize, Fail> {
    refusals_amid(alloc, 16384, 64, |heap, refusal| {
        let (given, again) = write_twice(heap, refusal, alloc, files)?;
        match was_accepted(&given, &again, want) {
            Some(accepted) => Ok(!accepted),
            None => Err("another answer".into()),
        }
    })
}

#[test]
fn the_writer_of_the_sample_is_refused_growth_in_turn(rt: HostRuntime) -> Result<(), Fail> {
    let sample = sample(rt.alloc())?;
    let want = pdb_with(rt.alloc(), &[CONST, TO_INT])?;
    assert!(rt; 2 < refused_in_turn(rt.alloc(), &[&sample], &want)?);
    Ok(())
}

#[test]
fn the_writer_of_three_files_is_refused_growth_in_turn(rt: HostRuntime) -> Result<(), Fail> {
    let pointer = pdb_with(rt.alloc(), &[TO_INT])?;
    let modifier = pdb_with(rt.alloc(), &[CONST])?;
    let others = pdb_with(rt.alloc(), &[VOLATILE, CONST, TO_FIRST, TO_SECOND])?;
    let want = pdb_with(rt.alloc(), &[CONST, VOLATILE, TO_INT, TO_FIRST, TO_SECOND])?;
    let files: [&[u8]; 3] = [&pointer, &modifier, &others];
    assert!(rt; 2 < refused_in_turn(rt.alloc(), &files, &want)?);
    Ok(())
}
