//! Where type records begin.

ghost use Rattle.std.specs.Prelude.{◌≡◌, ◌≢◌, ◌⊎◌, ◌<◌, ◌≤◌, ◌+◌, [], ℕ, length, get_or, OnOk, IfOk, IfErr, IfSome, IfNone};
ghost use Rattle.tpi_records.specs.Records.{start_of};
ghost use Rattle.pdbmerge_c.specs.Fault.{IsEnded, IsSaid};
ghost use Rattle.pdbmerge_c.specs.Given.{Copies};
ghost use Rattle.pdbmerge_c.specs.Record.{BeginsAt, LacksRecord, RefusesIndex};
ghost use Rattle.pdbmerge_c.specs.Records.{AreOffsets, IsFaultOfRecords, RefusesRecords};

use crate::fault::{Fault, NO_RECORD, clear, refuse, tell};
use crate::give::give;
use std::alloc::{AllocError, Global};
use thiserror::Error;
use tpi_records::{FIRST_INDEX, Records, TpiFault};

/// How many bytes stand before the first record: the header of the stream.
const HEADER: u64 = 56;

/// No record has this type index.
#[derive(Clone, Copy, Debug, Error)]
#[error("39 NoRecord {index:#x}")]
struct NoRecord {
    index: u32,
}

/// Appends the offsets at which records begin.
fn push_offsets(offsets: &mut Vec<u64>, records: &Records<'_>) -> Result<(), AllocError>
    requires { offsets.old.items ≡ [] }
    ensures many { OnOk result (length offsets.new.items ≡ length records.now) }
    ensures each { OnOk result ((i : ℕ) → i < length records.now →
        get_or offsets.new.items i 0 ≡ 56 + start_of records.now i) }
{
    let mut at = HEADER;
    for bytes in records.iter() {
        offsets.push(at)?;
        at += bytes.len() as u64;
    }
    Ok(())
}

/// The offsets at which the records of a stream begin.
fn list_offsets(alloc: Global, stream: &[u8]) -> Result<Vec<u64>, TpiFault>
    ensures value { IfOk result (λ offsets. AreOffsets stream.now offsets.items) }
    ensures first { IfErr result (IsFaultOfRecords stream.now) }
{
    let records = Records::read(alloc, stream)?;
    let mut offsets = Vec::with_capacity(alloc, records.len())?;
    push_offsets(&mut offsets, &records)?;
    Ok(offsets)
}

/// The offset at which the record at a position begins, if there is one.
fn offset_of(records: &Records<'_>, position: u32) -> Option<u64>
    ensures some { IfSome result (λ at. (position < length records.now)
        × (at ≡ 56 + start_of records.now position)) }
    ensures none { IfNone result (length records.now ≤ position) }
{
    let mut at = HEADER;
    let mut before = position;
    for bytes in records.iter() {
        if before == 0 {
            return Some(at);
        }
        at += bytes.len() as u64;
        before -= 1;
    }
    None
}

/// The offset at which the record with a type index begins, if there is one.
fn find_offset(alloc: Global, stream: &[u8], index: u32) -> Result<Option<u64>, TpiFault>
    ensures value { IfOk result (λ found. IfSome found (BeginsAt stream.now index)) }
    ensures lacks { IfOk result (λ found. IfNone found (LacksRecord stream.now index)) }
    ensures first { IfErr result (IsFaultOfRecords stream.now) }
{
    let records = Records::read(alloc, stream)?;
    let Some(position) = index.checked_sub(FIRST_INDEX) else {
        return Ok(None);
    };
    Ok(offset_of(&records, position))
}

/// Lists where each type record of a TPI stream begins: offsets in the bytes of the stream. `count`
/// is how many there are.
///
/// The faults, in order: those of `Records::read`; `MEMORY`, if there is none of these; `ROOM`, and
/// then `count` is set too.
#[tactic(auto, using(crate::proofs::NumberLaws::tpi_known))]
#[unsafe(no_mangle)]
pub extern "C" fn pdbmerge_records(
    alloc: Global,
    stream: &[u8],
    offsets: &mut [u64],
    count: &mut u64,
    fault: &mut Fault,
) -> u32
    ensures { Copies (AreOffsets stream.now) (RefusesRecords stream.now)
        offsets.old offsets.new count.old count.new fault.new result }
{
    match list_offsets(alloc, stream) {
        Ok(found) => give(found.as_slice(), offsets, count, fault),
        Err(why) => refuse(fault, why.number(), None, &why),
    }
}

/// Finds where the record with a type index begins: its offset in the bytes of a TPI stream. This
/// frames all records, and lists none of them.
///
/// The faults, in order: those of `Records::read`; `MEMORY`, if there is none of these; `NO_RECORD`,
/// if no record has the index.
#[tactic(auto, using(crate::proofs::NumberLaws::tpi_known))]
#[unsafe(no_mangle)]
pub extern "C" fn pdbmerge_record(
    alloc: Global,
    stream: &[u8],
    index: u32,
    offset: &mut u64,
    fault: &mut Fault,
) -> u32
    ensures told { IsSaid fault.new result }
    ensures ended { IsEnded fault.new }
    ensures value { result ≡ 0 → BeginsAt stream.now index offset.new }
    ensures refuses { result ≢ 0 → RefusesRecords stream.now fault.new
        ⊎ RefusesIndex stream.now index fault.new }
    ensures kept { result ≢ 0 → offset.new ≡ offset.old }
{
    match find_offset(alloc, stream, index) {
        Ok(Some(found)) => {
            *offset = found;
            clear(fault)
        }
        Ok(None) => tell(fault, NO_RECORD, None, &NoRecord { index }),
        Err(why) => refuse(fault, why.number(), None, &why),
    }
}
