//! Records by their positions, quickly where the positions are in order.

ghost use Rattle.std.specs.Prelude.{◌≡◌, ◌<◌, option_map, slice_get, drop, IfSome};
ghost use Rattle.tpi_records.specs.Records.{IsRecord, IsFramed, records_in};

use crate::iter::split_first;
use crate::records::Records;
use std::alloc::{Allocator, Global};
use std::marker::Model;

/// Looks records up by their positions.
///
/// [`Records::cursor`] makes it. The record after the one that was looked up last is found in one
/// step, and any other as [`Records::get`] finds it.
#[derive(Debug, Drop)]
pub struct Cursor<'r, 'a, A: Allocator = Global> {
    records: &'r Records<'a, A>,
    /// The position of the first record of `left`.
    next: usize,
    left: &'a [u8],
}

impl<'r, 'a, A: Allocator> Model for Cursor<'r, 'a, A> {
    ghost use Rattle.std.specs.Prelude.{List, ℕ, ◌≡◌, drop};
    ghost use Rattle.tpi_records.specs.Records.{IsFramed, records_in};

    ghost Value = { List (List ℕ) };

    ghost view = { λ c. c.records.now };

    ghost invariant = { λ c.
        IsFramed c.left.now × (records_in c.left.now ≡ drop c.next c.records.now) };
}

/// The bytes of the records from `position` on. Those from `next` on are `left`.
fn bytes_at<'a, A: Allocator>(
    records: &Records<'a, A>,
    next: usize,
    left: &'a [u8],
    position: usize,
) -> &'a [u8]
    requires framed { IsFramed left.now }
    requires left { records_in left.now ≡ drop next records.now }
    ensures framed { IsFramed result.now }
    ensures records { records_in result.now ≡ drop position records.now }
{
    if position == next {
        left
    } else {
        records.bytes_from(position)
    }
}

impl<'r, 'a, A: Allocator> Cursor<'r, 'a, A> {
    /// A cursor that starts at the first record. The records are these bytes.
    pub(crate) fn over(records: &'r Records<'a, A>, bytes: &'a [u8]) -> Cursor<'r, 'a, A>
        requires framed { IsFramed bytes.now }
        requires all { records_in bytes.now ≡ records.now }
        ensures { result ≡ records.now }
    {
        Cursor {
            records,
            next: 0,
            left: bytes,
        }
    }

    /// The record at this position, from 0: the whole record, with its length field.
    ///
    /// `None` where there is no such record. This does not allocate.
    pub fn get(&mut self, position: usize) -> Option<&'a [u8]>
        ensures value { option_map (λ r. r.now) result ≡ slice_get self.old position }
        ensures each { IfSome result (λ r. IsRecord r.now) }
        ensures same { self.new ≡ self.old }
    {
        if position >= self.records.len() {
            return None;
        }
        let left = bytes_at(self.records, self.next, self.left, position);
        let (record, others) = split_first(left)?;
        self.next = position + 1;
        self.left = others;
        Some(record)
    }
}
