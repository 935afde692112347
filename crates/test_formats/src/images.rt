//! Images: a directory that is too long, and writers that are out of memory.

use msf_blocks::{Out, Sink};
use msf_streams::{WriteFault, write_image, write_parts};
use pdb_info::{Settings, info_bytes};
use std::alloc::{Allocator, Global};
use std::test::Fail;
use test_samples::{LIMIT, Narrow, refusals, settings};

// Each call under test is in a function of its own. It has no contract, since a test compares when
// it runs: so what calls it is quickly checked.

/// Writes the image with these streams 1 and 2 and three empty ones.
fn write_two<'a, W: Sink, A: Allocator + Copy>(
    alloc: A,
    settings: &Settings,
    info: &'a [u8],
    types: &'a [u8],
    out: &mut W,
) -> Result<(), WriteFault> {
    let block_size = settings.block_size();
    write_image(alloc, block_size, &[&[], info, types, &[], &[]], out)
}

#[test]
fn a_fault_that_no_run_meets_has_its_text(rt: HostRuntime) -> Result<(), Fail> {
    let shown = WriteFault::Image.to_string(rt.alloc())?;
    assert_eq!(rt; shown.as_str(), "35 Image");
    Ok(())
}

/// What writing the image with this stream 2 says, in blocks of this size, and what was written.
fn written_of(
    alloc: Global,
    block_size: u32,
    types: &[u8],
) -> Result<(Result<(), WriteFault>, Vec<u8>), Fail> {
    let settings = settings(LIMIT, block_size)?;
    let info = info_bytes(&settings);
    let mut file = Vec::new(alloc);
    let answer = write_two(alloc, &settings, &info, types, &mut Out::new(&mut file));
    Ok((answer, file))
}

/// The image with an info stream and this stream 2, in blocks of this size.
fn image_of(alloc: Global, block_size: u32, types: &[u8]) -> Result<Vec<u8>, Fail> {
    let (answer, file) = written_of(alloc, block_size, types)?;
    answer?;
    Ok(file)
}

#[test]
fn a_directory_that_one_block_cannot_list(rt: HostRuntime) -> Result<(), Fail> {
    let types = vec![in rt.alloc(); 0u8; 8_385_025]?;
    let (answer, file) = written_of(rt.alloc(), 512, &types)?;
    assert_eq!(rt; answer, Err(WriteFault::Image));
    assert!(rt; file.is_empty());
    Ok(())
}

/// `len` bytes. Any two that are next to each other differ.
fn numbered(alloc: Global, len: usize) -> Result<Vec<u8>, Fail> {
    let mut bytes = Vec::new(alloc);
    for number in (0..=250u8).cycle().take(len) {
        bytes.push(number)?;
    }
    Ok(bytes)
}

/// Writes the image with this info stream in two parts, and a stream 2 in three, into a sink that
/// has room for it.
fn write_cut<'a, A: Allocator + Copy>(
    alloc: A,
    global: Global,
    info: &'a [u8],
    first: &'a [u8],
    second: &'a [u8],
    third: &'a [u8],
) -> Result<(Narrow, Option<WriteFault>), Fail> {
    let settings = settings(LIMIT, 4096)?;
    let (head, tail) = info.split_at_checked(26).ok_or("no such cut")?;
    let mut out = Narrow::new(global, usize::MAX, usize::MAX);
    let streams: [&[&[u8]]; 5] = [&[], &[head, tail], &[first, second, third], &[], &[]];
    let fault = write_parts(alloc, settings.block_size(), &streams, &mut out).err();
    Ok((out, fault))
}

#[test]
fn growth_for_parts_is_refused_before_anything_is_written(rt: HostRuntime) -> Result<(), Fail> {
    let types = numbered(rt.alloc(), 8193)?;
    let whole = image_of(rt.alloc(), 4096, &types)?;
    let (head, tail) = types.split_at_checked(4000).ok_or("no such cut")?;
    let info = info_bytes(&settings(LIMIT, 4096)?);
    refusals(rt.alloc(), 128, 40, |heap| {
        let (out, fault) = write_cut(heap, rt.alloc(), &info, head, &[], tail)?;
        assert!(rt; matches!(fault, None | Some(WriteFault::Memory)));
        let want: &[u8] = if fault.is_none() { &whole } else { &[] };
        assert!(rt; out.taken.as_slice() == want);
        Ok(fault.is_some())
    })?;
    Ok(())
}
