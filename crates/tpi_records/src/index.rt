//! Records by their positions, in any order, without steps.

ghost use Rattle.std.specs.Prelude.{◌≡◌, option_map, slice_get, IfOk, IfSome};
ghost use Rattle.tpi_records.specs.Records.{IsRecord, IsFramed, AreIndexed, records_in};

use crate::iter::{Iter, split_first};
use std::alloc::{AllocError, Allocator, Global};
use std::marker::Model;

/// The type records of a TPI stream, with the start of each, in four bytes.
///
/// [`Records::index`](crate::Records::index) makes it. It finds any record without a step, where
/// [`Records::get`](crate::Records::get) steps over at most 63 others.
#[derive(Debug, Drop)]
pub struct RecordIndex<'a, A: Allocator = Global> {
    bytes: &'a [u8],
    starts: Vec<u32, A>,
}

impl<'a, A: Allocator> Model for RecordIndex<'a, A> {
    ghost use Rattle.std.specs.Prelude.{List, ℕ};
    ghost use Rattle.tpi_records.specs.Records.{AreIndexed, records_in};

    ghost Value = { List (List ℕ) };

    ghost view = { λ i. records_in i.bytes.now };

    ghost invariant = { λ i. AreIndexed i.bytes.now i.starts.items };
}

/// The start that is kept at this place of a list.
pub(crate) fn start_at(starts: &[u32], place: usize) -> Option<usize>
    ensures { result ≡ slice_get starts.now place }
{
    starts.get(place).map(|start| *start as usize)
}

/// The start of each of the records that these bytes are. Room is made for so many.
fn starts_of<A: Allocator>(alloc: A, bytes: &[u8], many: usize) -> Result<Vec<u32, A>, AllocError>
    requires { IsFramed bytes.now }
    ensures { IfOk result (λ starts. AreIndexed bytes.now starts.items) }
{
    let mut starts = Vec::with_capacity(alloc, many)?;
    let mut start = 0;
    for record in Iter::over(bytes) {
        starts.push(start)?;
        start += record.len() as u32;
    }
    Ok(starts)
}

impl<'a, A: Allocator> RecordIndex<'a, A> {
    /// The index of the records that these bytes are. Room is made for so many.
    pub(crate) fn over(
        alloc: A,
        bytes: &'a [u8],
        many: usize,
    ) -> Result<RecordIndex<'a, A>, AllocError>
        requires { IsFramed bytes.now }
        ensures { IfOk result (λ index. index ≡ records_in bytes.now) }
    {
        let starts = starts_of(alloc, bytes, many)?;
        Ok(RecordIndex { bytes, starts })
    }

    /// The record at this position, from 0: the whole record, with its length field.
    ///
    /// `None` where there is no such record. This does not allocate.
    pub fn get(&self, position: usize) -> Option<&'a [u8]>
        ensures value { option_map (λ r. r.now) result ≡ slice_get self.now position }
        ensures each { IfSome result (λ r. IsRecord r.now) }
    {
        let start = start_at(&self.starts, position)?;
        let (_, left) = self.bytes.split_at(start);
        let (record, _) = split_first(left)?;
        Some(record)
    }
}
