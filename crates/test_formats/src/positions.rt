//! Files that are read by position: what is read, reads that fail, a file that changes, and refused
//! memory.

ghost use Rattle.std.specs.Prelude.{length};
ghost use Rattle.byte_io.specs.At.{unknown};

use byte_io::{AtFault, ReadAt};
use linked_list_allocator::LocalHeap;
use msf_blocks::{Layout, MsfFault};
use msf_streams::{StreamFault, gather_at};
use std::alloc::{Allocator, Global};
use std::test::Fail;
use test_samples::{Positions, put, refusals, sample};

/// The layout of a file, by position.
fn layout_of<R: ReadAt, A: Allocator + Copy>(
    alloc: A,
    input: &mut R,
) -> Result<Layout<A>, AtFault<MsfFault>> {
    Layout::read_at(alloc, input)
}

/// The fault of a file, by position, if it has one.
fn fault_of<A: Allocator + Copy>(alloc: A, file: &[u8]) -> Option<AtFault<MsfFault>> {
    layout_of(alloc, &mut Positions::new(file, usize::MAX)).err()
}

#[test]
fn each_read_fails_in_turn(rt: HostRuntime) -> Result<(), Fail> {
    let file = sample(rt.alloc())?;
    for number in 0..100usize {
        let mut input = Positions::new(&file, number);
        match layout_of(rt.alloc(), &mut input) {
            Ok(_) => {
                // no read has this number
                assert!(rt; input.reads == number && 0 < number);
                return Ok(());
            }
            Err(fault) => assert_eq!(rt; fault, AtFault::Read, "read {number}"),
        }
    }
    Err("too many reads".into())
}

#[test]
fn faults_of_the_directory_come_before_out_of_memory(rt: HostRuntime) -> Result<(), Fail> {
    // offsets in the sample, the bytes that replace its own from there on, and the fault
    const ROWS: [(usize, &[u8], MsfFault); 3] = [
        (1536, b"\0\0\0\0", MsfFault::DirectoryBlock { at: 0, n: 0 }),
        (
            2048,
            b"\xff\xff\xff\xff",
            MsfFault::DirectoryShort {
                need: 17_179_869_184,
                have: 32,
            },
        ),
        (
            2076,
            b"\x07\0\0\0",
            MsfFault::StreamBlock {
                stream: 2,
                at: 0,
                n: 7,
            },
        ),
    ];
    for (at, bytes, fault) in ROWS {
        let mut file = sample(rt.alloc())?;
        put(&mut file, at, bytes);
        let fault = AtFault::Of(fault);
        assert_eq!(rt; fault_of(rt.alloc(), &file).as_ref(), Some(&fault), "{at}");
        let none = LocalHeap::new(rt.alloc(), 0)?;
        assert_eq!(rt; fault_of(&none, &file).as_ref(), Some(&fault), "{at}");
    }
    Ok(())
}

#[test]
fn growth_is_refused(rt: HostRuntime) -> Result<(), Fail> {
    let file = sample(rt.alloc())?;
    refusals(rt.alloc(), 16, 64, |heap| {
        let fault = fault_of(heap, &file);
        assert!(rt; matches!(fault, None | Some(AtFault::Of(MsfFault::Memory))));
        Ok(fault.is_some())
    })?;
    Ok(())
}

/// The bytes of a stream, by position.
fn stream_of(
    alloc: Global,
    input: &mut Positions<'_>,
    s: u32,
) -> Result<Result<Vec<u8>, AtFault<StreamFault>>, Fail> {
    let Ok(layout) = layout_of(alloc, input) else {
        return Err("the file is refused".into());
    };
    let mut bytes = Vec::new(alloc);
    match gather_at(input, &layout, s, &mut bytes) {
        Ok(_) => {}
        Err(fault) => return Ok(Err(fault)),
    }
    Ok(Ok(bytes))
}

#[test]
fn the_streams_of_the_sample(rt: HostRuntime) -> Result<(), Fail> {
    let file = sample(rt.alloc())?;
    for (s, start, len) in [(0u32, 0usize, 0usize), (1, 2560, 52), (2, 3072, 80)] {
        let mut input = Positions::new(&file, usize::MAX);
        let found = stream_of(rt.alloc(), &mut input, s)?;
        assert_eq!(rt;
            found.ok().as_deref(),
            file.get(start..start + len),
            "stream {s}"
        );
    }
    let none = stream_of(rt.alloc(), &mut Positions::new(&file, usize::MAX), 5)?;
    assert_eq!(rt; none.err(), Some(AtFault::Of(StreamFault::NoStream(5))));
    Ok(())
}

/// A file that has another length after some reads. Clauses do not see its bytes.
#[derive(Drop)]
struct Changing<'a> {
    bytes: &'a [u8],
    /// how many reads see these bytes, and what the others see
    reads: usize,
    then: &'a [u8],
    broken: bool,
}

impl Changing<'_> {
    /// Fills a slice with the bytes that are there now. `None` where there are fewer.
    fn fill(&self, offset: u64, into: &mut [u8]) -> Option<()> {
        let now = if self.reads == 0 {
            self.then
        } else {
            self.bytes
        };
        let start = usize::try_from(offset).ok()?;
        let part = now.get(start..start.checked_add(into.len())?)?;
        put(into, 0, part);
        Some(())
    }
}

impl ReadAt for Changing<'_> {
    ghost bytes = { λ s. unknown (length s.bytes.now) };

    ghost is_broken = { λ s. s.broken };

    fn len(&self) -> u64 {
        self.bytes.len() as u64
    }

    fn read_at(&mut self, offset: u64, into: &mut [u8]) -> Option<()> {
        let filled = self.fill(offset, into);
        self.reads = self.reads.saturating_sub(1);
        if filled.is_none() {
            self.broken = true;
        }
        filled
    }
}

/// Stream 2 of a file that has another length after some reads. `None` where a read failed.
fn changed_stream(
    alloc: Global,
    bytes: &[u8],
    reads: usize,
    then: &[u8],
) -> Result<Option<Vec<u8>>, Fail> {
    let mut input = Changing {
        bytes,
        reads,
        then,
        broken: false,
    };
    let layout = match layout_of(alloc, &mut input) {
        Ok(layout) => layout,
        Err(AtFault::Read) => return Ok(None),
        Err(AtFault::Of(_)) => return Err("the file is refused".into()),
    };
    let mut stream = Vec::new(alloc);
    match gather_at(&mut input, &layout, 2, &mut stream) {
        Ok(_) => {}
        Err(AtFault::Read) => return Ok(None),
        Err(AtFault::Of(_)) => return Err("the stream is refused".into()),
    }
    Ok(Some(stream))
}

/// Whether stream 2 is read whole from a file that has just its first `end` bytes after some reads.
/// Otherwise a read fails.
fn is_whole(alloc: Global, file: &[u8], reads: usize, end: usize) -> Result<bool, Fail> {
    let front = file.get(..end).ok_or("the sample is short")?;
    let stream = changed_stream(alloc, file, reads, front)?;
    match stream {
        None => Ok(false),
        Some(bytes) => {
            if file.get(3072..3152) == Some(&bytes) {
                Ok(true)
            } else {
                Err("other bytes are read".into())
            }
        }
    }
}

#[test]
fn a_file_that_is_cut_while_it_is_read(rt: HostRuntime) -> Result<(), Fail> {
    // The reads are 0..56, 1536..1540, 2048..2080 and 3072..3152. How many of them come before the
    // cut, how many bytes are left, and whether these have all that is read after it.
    const ROWS: [(usize, usize, bool); 12] = [
        (0, 0, false),
        (0, 56, false),
        (1, 56, false),
        (1, 1540, false),
        (2, 1540, false),
        (2, 2080, false),
        (3, 2080, false),
        (3, 3151, false),
        (0, 3152, true),
        (3, 3152, true),
        (4, 0, true),
        (4, 3151, true),
    ];
    let file = sample(rt.alloc())?;
    for (reads, end, whole) in ROWS {
        let found = is_whole(rt.alloc(), &file, reads, end)?;
        assert_eq!(rt; found, whole, "after {reads} reads, cut at {end}");
    }
    Ok(())
}

#[test]
fn a_file_that_grows_while_it_is_read(rt: HostRuntime) -> Result<(), Fail> {
    let file = sample(rt.alloc())?;
    let mut longer = sample(rt.alloc())?;
    longer.resize(file.len().saturating_add(512), 0xFF)?;
    for reads in 0..5usize {
        let grown = changed_stream(rt.alloc(), &file, reads, &longer)?;
        assert_eq!(rt;
            grown.as_deref(),
            file.get(3072..3152),
            "after {reads} reads"
        );
    }
    Ok(())
}
