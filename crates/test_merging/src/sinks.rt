//! Sinks that break.

use super::calls::merge_into;
use pdb_merge::OutFault;
use std::alloc::Global;
use std::test::Fail;
use test_samples::{LIMIT, Narrow, folding, pdb_with, settings};

/// Merges a file into a sink that takes `room` bytes. Returns the sink and the fault, if there is
/// one.
fn merged_into(
    alloc: Global,
    file: &[u8],
    room: usize,
) -> Result<(Narrow, Option<OutFault>), Fail> {
    let settings = settings(LIMIT, 4096)?;
    let mut out = Narrow::new(alloc, usize::MAX, room);
    let answer = merge_into(alloc, &[file], &settings, &mut out, folding());
    Ok((out, answer.err()))
}

/// Whether a sink that takes `room` bytes of a file, and no more, has just these, and the merge
/// says that it broke.
fn breaks(alloc: Global, file: &[u8], room: usize) -> Result<bool, Fail> {
    let (out, fault) = merged_into(alloc, file, room)?;
    let taken = out.taken.as_slice();
    Ok(fault == Some(OutFault::Write) && taken.len() == room && file.starts_with(taken))
}

#[test]
fn sinks_that_break_after_each_byte(rt: HostRuntime) -> Result<(), Fail> {
    let want = pdb_with(rt.alloc(), &[])?;
    for room in 0..want.len() {
        assert!(rt; breaks(rt.alloc(), &want, room)?, "{room}");
    }
    Ok(())
}
