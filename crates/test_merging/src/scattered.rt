//! A buffer that reads a file whose TPI stream is in consecutive blocks, and one in which they are in
//! falling order.

use super::calls::{merge_bytes, read};
use linked_list_allocator::LocalHeap;
use pdb_merge::{Buffer, PdbFault};
use std::alloc::Global;
use std::test::Fail;
use test_samples::{LIMIT, TestHeap, folding, pdb, pointer, refusals, settings};

/// The size of a block, in bytes.
const BLOCK: usize = 512;

/// Where the directory lists the four blocks of stream 2: after the sizes of five streams and the
/// block of stream 1. The directory is in block 4.
const LIST: usize = 4 * BLOCK + 28;

/// The records of 130 pointers to simple types.
fn pointers(alloc: Global) -> Result<Vec<u8>, Fail> {
    let mut records = Vec::new(alloc);
    for to in 0..130 {
        records.extend_from_slice(&pointer(to))?;
    }
    Ok(records)
}

/// The file that is written for 130 types of a file alone, in blocks of 512 bytes.
fn merged_alone(alloc: Global, file: &[u8]) -> Result<Vec<u8>, Fail> {
    let settings = settings(LIMIT, BLOCK as u32)?;
    let (answer, written) = merge_bytes(alloc, alloc, &[file], &settings, folding());
    match answer {
        Ok(summary) if summary.types == 130 => Ok(written),
        _ => Err("another answer".into()),
    }
}

/// A file of these pointers, in blocks of 512 bytes.
fn rising(alloc: Global) -> Result<Vec<u8>, Fail> {
    let input = pdb(alloc, 130, &pointers(alloc)?)?;
    merged_alone(alloc, &input)
}

/// The same file, with the blocks of stream 2 in falling order.
fn falling(alloc: Global, rising: &[u8]) -> Result<Vec<u8>, Fail> {
    let mut file = Vec::new(alloc);
    file.extend_from_slice(rising)?;
    for (k, block) in [6, 7, 8, 9].into_iter().enumerate() {
        let other = 15usize.saturating_sub(block);
        let bytes = rising
            .get(other * BLOCK..(other + 1) * BLOCK)
            .ok_or("no block")?;
        test_samples::put(&mut file, block * BLOCK, bytes);
        test_samples::put(&mut file, LIST + 4 * k, &[other as u8]);
    }
    Ok(file)
}

#[test]
fn a_buffer_grows_in_its_own_memory(rt: HostRuntime) -> Result<(), Fail> {
    let rising = rising(rt.alloc())?;
    let falling = falling(rt.alloc(), &rising)?;
    let none = LocalHeap::new(rt.alloc(), 0)?;
    let own = LocalHeap::new(rt.alloc(), 4096)?;
    let ample = LocalHeap::new(rt.alloc(), 65536)?;
    // What is lent from the file needs no memory of the buffer.
    let lent = read(&ample, &rising, &mut Buffer::new(&none));
    assert_eq!(rt; lent.ok(), Some((130, 1560, 1)));
    // What is not lent cannot be held by a buffer whose heap is empty, however much memory the call
    // has.
    let refused = read(&ample, &falling, &mut Buffer::new(&none));
    assert!(rt; matches!(refused, Err(PdbFault::Memory)));
    let gathered = read(&ample, &falling, &mut Buffer::new(&own));
    assert_eq!(rt; gathered.ok(), Some((130, 1560, 1)));
    Ok(())
}

/// Reads a file through a buffer, and returns whether that was refused memory. Unless the heap was
/// too small, the file is read again through the same buffer: its old bytes are dropped first, so
/// the heap has room for them. It is a failure if anything else than `want` is found.
fn read_twice(heap: &TestHeap, file: &[u8], want: (usize, u32, u32)) -> Result<bool, Fail> {
    let mut buffer = Buffer::new(heap);
    let found = read(heap, file, &mut buffer);
    let refused = matches!(found, Err(PdbFault::Memory));
    if refused && !heap.has_failed() {
        return Ok(true);
    }
    heap.stop_failing();
    let again = read(heap, file, &mut buffer);
    if (refused || found.ok() == Some(want)) && again.ok() == Some(want) {
        return Ok(refused);
    }
    Err("another answer".into())
}

/// Reads a file through a buffer while memory is refused in turn.
fn read_in_turn(alloc: Global, file: &[u8], want: (usize, u32, u32)) -> Result<usize, Fail> {
    refusals(alloc, 64, 64, |heap| read_twice(heap, file, want))
}

#[test]
fn growth_is_refused(rt: HostRuntime) -> Result<(), Fail> {
    let rising = rising(rt.alloc())?;
    read_in_turn(rt.alloc(), &falling(rt.alloc(), &rising)?, (130, 1560, 1))?;
    Ok(())
}
