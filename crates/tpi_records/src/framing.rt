//! Checks that bytes are records, one after the other.

ghost use Rattle.std.specs.Prelude.{◌≡◌, ◌⊎◌, ◌+◌, ◌%◌, ◌==◌, ◌^◌, ◌<◌, ◌≤◌, ◌++◌, ◌∷◌, [], IsTrue, if◌then◌else◌, length, take, drop, List, ℕ, IsOk, IfOk, IfErr};
ghost use Rattle.byte_fields.specs.Number.{number_at};
ghost use Rattle.tpi_records.specs.Header.{HasTpiHeader};
ghost use Rattle.tpi_records.specs.Records.{IsRecord, BeginsWith, IsFlaw, IsFramed, HasFlaw, IsMiscounted, records_in, starts_below, starts_for, framed_bytes};

use crate::fault::TpiFault;
use crate::header::{FIRST_INDEX, LENGTH, TpiHeader};
use byte_fields::u16_at;
use std::alloc::Allocator;

/// The start is kept of each record whose position is a multiple of this number.
pub const STRIDE: usize = 64;

/// The length in bytes of the record that begins at `start`. Its type index is `index`, which a
/// fault names.
#[inline(always)]
fn record_len(bytes: &[u8], start: usize, index: u32) -> Result<usize, TpiFault>
    requires { start < length bytes.now }
    ensures field { IfOk result (λ whole. whole ≡ number_at 2 bytes.now start + 2) }
    ensures inside { IfOk result (λ whole. start + whole ≤ length bytes.now) }
    ensures value { IfOk result (λ whole. IsRecord (take whole (drop start bytes.now))) }
    ensures first { IfErr result (IsFlaw (drop start bytes.now) index) }
{
    let left = bytes.len() - start;
    if left < 2 {
        return Err(TpiFault::RecordShort { index });
    }
    let len = u16_at(bytes, start);
    let whole = usize::from(len) + 2;
    if len < 2 || whole % 4 != 0 {
        let len = u32::from(len);
        return Err(TpiFault::RecordLen { index, len });
    }
    if left < whole {
        return Err(TpiFault::RecordShort { index });
    }
    Ok(whole)
}

/// The record at the front of some bytes: the whole record, with its length field. Its type index is
/// `index`, which a fault names. What follows the record is not looked at.
///
/// The faults are those of a record in [`Records::read`](crate::Records::read), in the same order:
/// `RecordShort`, `RecordLen`, `RecordShort`. This does not allocate.
/// ("The PDB TPI and IPI Streams", "Type Records".)
#[inline(always)]
pub fn first_record(bytes: &[u8], index: u32) -> Result<&[u8], TpiFault>
    ensures value { IfOk result (λ r. BeginsWith bytes.now r.now) }
    // Bytes that begin with a record are never refused.
    ensures found { (r : List ℕ) → BeginsWith bytes.now r → IsOk result }
    ensures first { IfErr result (IsFlaw bytes.now index) }
{
    if bytes.is_empty() {
        return Err(TpiFault::RecordShort { index });
    }
    let len = record_len(bytes, 0, index)?;
    Ok(&bytes[..len])
}

/// The bytes of the records, which the header frames.
pub fn framed_bytes(stream: &[u8], header: TpiHeader) -> &[u8]
    requires { HasTpiHeader stream.now header }
    ensures value { result.now ≡ framed_bytes stream.now header }
    ensures short { length result.now < 2 ^ 32 }
{
    let end = LENGTH + header.record_bytes() as usize;
    &stream[LENGTH..end]
}

/// Appends the start of a record to the list where its position is a multiple of the stride.
/// Returns whether there was memory for it.
fn keep_start<A: Allocator>(starts: &mut Vec<u32, A>, position: u32, start: usize) -> bool
    requires { start < 2 ^ 32 }
    ensures { IsTrue result →
        starts.new.items
        ≡ (if position % 64 == 0 then starts.old.items ++ start ∷ [] else starts.old.items) }
{
    if position as usize % STRIDE == 0 {
        starts.push(start as u32).is_ok()
    } else {
        true
    }
}

/// Checks that `bytes` are `said` records, and keeps the starts of records 0, 64, 128 and so on in
/// an empty list. Returns whether there was memory for the list.
///
/// Where there is none, the rest of the records is checked all the same.
pub fn check_records<A: Allocator>(
    bytes: &[u8],
    said: u32,
    starts: &mut Vec<u32, A>,
) -> Result<bool, TpiFault>
    requires short { length bytes.now < 2 ^ 32 }
    requires empty { starts.old.items ≡ [] }
    ensures framed { IfOk result (λ _. IsFramed bytes.now) }
    ensures counted { IfOk result (λ _. said ≡ length (records_in bytes.now)) }
    ensures starts { IfOk result (λ kept.
        IsTrue kept → starts.new.items ≡ starts_below (records_in bytes.now) (starts_for said)) }
    ensures first { IfErr result (λ fault.
        HasFlaw bytes.now fault ⊎ IsMiscounted bytes.now said fault) }
{
    let mut start = 0;
    let mut found = 0;
    let mut kept = true;
    while start < bytes.len() {
        kept &= keep_start(starts, found, start);
        start += record_len(bytes, start, FIRST_INDEX + found)?;
        found += 1;
    }
    if found != said {
        return Err(TpiFault::RecordCount { said, found });
    }
    Ok(kept)
}
