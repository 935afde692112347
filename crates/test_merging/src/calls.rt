//! The calls under test, each by itself.
//!
//! Their contracts say much, and a test needs none of it, since it compares when it runs. So these
//! functions have no contract, and what calls them is quickly checked.

use checked_types::Types;
use msf_blocks::{Out, Sink};
use msf_streams::WriteFault;
use pdb_info::Settings;
use pdb_merge::{
    Buffer, MergeFault, OutFault, PdbFault, Plan, Summary, TypeMaps, merge, merge_files, merge_to,
    read_types, write_merged,
};
use std::alloc::{Allocator, Global};
use std::hash::BuildHasher;
use std::test::Fail;
use type_table::Canon;

/// The types of a file, through a buffer.
pub fn types_of<'a, A: Allocator + Copy>(
    alloc: A,
    file: &'a [u8],
    buffer: &'a mut Buffer<A>,
) -> Result<Types<'a, A>, PdbFault<A>> {
    read_types(alloc, file, buffer)
}

/// The canonical list of the types of files.
pub fn list_of<S: BuildHasher + Drop, A: Allocator + Copy>(
    alloc: A,
    files: &[&[u8]],
    settings: &Settings,
    hasher: S,
) -> Result<Canon<A>, MergeFault<A>> {
    merge_files(alloc, files, settings, hasher)
}

/// Merges files into a sink.
pub fn merge_into<W: Sink, S: BuildHasher + Drop, A: Allocator + Copy>(
    alloc: A,
    files: &[&[u8]],
    settings: &Settings,
    out: &mut W,
    hasher: S,
) -> Result<Summary, OutFault<A>> {
    merge_to(alloc, files, settings, out, hasher)
}

/// Merges files. Returns their maps, and in other memory the bytes that were written.
pub fn merge_with_maps<S: BuildHasher + Drop, A: Allocator + Copy>(
    alloc: A,
    memory: Global,
    files: &[&[u8]],
    settings: &Settings,
    hasher: S,
) -> (Result<TypeMaps<A>, OutFault<A>>, Vec<u8>) {
    let mut file = Vec::new(memory);
    let (plan, maps) = (Plan::new(*settings), TypeMaps::new(alloc));
    match merge(alloc, files, &plan, maps, hasher, &mut Out::new(&mut file)) {
        Ok(merged) => (Ok(merged.maps), file),
        Err(fault) => (Err(fault), file),
    }
}

/// Merges files. Returns the answer, and in other memory the bytes that were written.
pub fn merge_bytes<S: BuildHasher + Drop, A: Allocator + Copy>(
    alloc: A,
    memory: Global,
    files: &[&[u8]],
    settings: &Settings,
    hasher: S,
) -> (Result<Summary, OutFault<A>>, Vec<u8>) {
    let mut file = Vec::new(memory);
    let answer = merge_into(alloc, files, settings, &mut Out::new(&mut file), hasher);
    (answer, file)
}

/// Writes the file of a list into a sink.
fn write_into<W: Sink, A: Allocator + Copy>(
    alloc: A,
    canon: &Canon<A>,
    settings: &Settings,
    out: &mut W,
) -> Result<(), WriteFault> {
    write_merged(alloc, canon, settings, out)
}

/// Writes the file of a list. Returns the answer, and in other memory the bytes that were written.
pub fn write_bytes<A: Allocator + Copy>(
    alloc: A,
    memory: Global,
    canon: &Canon<A>,
    settings: &Settings,
) -> (Result<(), WriteFault>, Vec<u8>) {
    let mut file = Vec::new(memory);
    let answer = write_into(alloc, canon, settings, &mut Out::new(&mut file));
    (answer, file)
}

/// The bytes of a list, copied into other memory.
pub fn copied<A: Allocator>(alloc: Global, canon: &Canon<A>) -> Result<Vec<u8>, Fail> {
    let mut bytes = Vec::new(alloc);
    for record in canon.records() {
        bytes.extend_from_slice(record)?;
    }
    Ok(bytes)
}

/// How many types a file has, how many bytes and how many levels, or the fault.
pub type Answer<A = Global> = Result<(usize, u32, u32), PdbFault<A>>;

/// Reads the types of a file through a buffer.
pub fn read<A: Allocator + Copy>(alloc: A, file: &[u8], buffer: &mut Buffer<A>) -> Answer<A> {
    let types = types_of(alloc, file, buffer)?;
    Ok((types.len(), types.bytes_len(), types.levels()))
}
