//! The calls under test, each by itself.
//!
//! Their contracts say much, and a test needs none of it, since it compares when it runs. So these
//! functions have no contract, and what calls them is quickly checked.

use checked_types::Types;
use std::alloc::{Allocator, Global};
use std::hash::BuildHasher;
use std::test::Fail;
use tpi_records::Records;
use type_table::{Canon, JoinFault, NoMaps, Table};

/// The records of a TPI stream.
fn records_of<A: Allocator + Copy>(alloc: A, stream: &[u8]) -> Result<Records<'_, A>, Fail> {
    Ok(Records::read(alloc, stream)?)
}

/// Records as types. `None` where they are refused.
fn types_in<A: Allocator + Copy>(alloc: A, records: Records<'_, A>) -> Option<Types<'_, A>> {
    match Types::check(alloc, records) {
        Ok(types) => Some(types),
        Err(_) => None,
    }
}

/// The types of a TPI stream.
pub fn types_of<A: Allocator + Copy>(alloc: A, stream: &[u8]) -> Result<Types<'_, A>, Fail> {
    let records = records_of(alloc, stream)?;
    match types_in(alloc, records) {
        Some(types) => Ok(types),
        None => Err("the records are refused".into()),
    }
}

/// Adds types to a table, up to this limit.
pub fn add<S: BuildHasher, A: Allocator + Copy>(
    table: &mut Table<S, A>,
    alloc: A,
    types: &Types<'_, A>,
    limit: u32,
) -> Result<(), JoinFault> {
    table.add(alloc, types, limit)
}

/// Adds the types of a stream to a table, up to this limit.
pub fn add_stream<S: BuildHasher, A: Allocator + Copy>(
    table: &mut Table<S, A>,
    alloc: A,
    stream: &[u8],
    limit: u32,
) -> Result<(), Fail> {
    let types = types_of(alloc, stream)?;
    add(table, alloc, &types, limit)?;
    Ok(())
}

/// Adds the records of a stream to a table as they stand, up to this limit. Returns whether they were
/// added.
pub fn add_as_it_stands<S: BuildHasher, A: Allocator + Copy>(
    table: &mut Table<S, A>,
    alloc: A,
    stream: &[u8],
    limit: u32,
) -> bool {
    table.add_stream(alloc, stream, limit, &mut NoMaps)
}

/// A table of no types.
pub fn empty_table<S: BuildHasher, A: Allocator + Copy>(alloc: A, hasher: S) -> Table<S, A> {
    Table::with_hasher(alloc, hasher)
}

/// The canonical list of a table.
pub fn list_of<S: BuildHasher, A: Allocator + Copy>(
    alloc: A,
    table: &Table<S, A>,
) -> Result<Canon<A>, JoinFault> {
    table.finish(alloc)
}

/// Joins a list with types, up to this limit.
pub fn join<A: Allocator + Copy>(
    canon: &Canon<A>,
    alloc: A,
    types: &Types<'_, A>,
    limit: u32,
) -> Result<Canon<A>, JoinFault> {
    canon.join(alloc, types, limit)
}

/// The bytes of a list, copied into other memory.
pub fn copied<A: Allocator>(alloc: Global, canon: &Canon<A>) -> Result<Vec<u8>, Fail> {
    let mut bytes = Vec::new(alloc);
    for record in canon.records() {
        bytes.extend_from_slice(record)?;
    }
    Ok(bytes)
}
