//! Merges of files all of which must be accepted.

ghost use Rattle.pdb_info.specs.Settings.{record_limit};
ghost use Rattle.pdb_merge.specs.Merged.{Wrote, WrotePart};
ghost use Rattle.merge_commands.specs.Merge.{MergesInto};

use crate::report::report_on;
use byte_io::Sink;
use pdb_info::Settings;
use pdb_merge::{BoundedInputs, merge_to};
use run_options::OnRefused;
use show_commands::RunFault;
use std::alloc::Allocator;
use std::hash::BuildHasher;

/// Writes one file with the types of all files into `out`, and then a report into `report`: as
/// [`run_plan`](crate::run_plan) does with the plan to stop, and without maps. The report has three
/// lines: the number of types, the number of bytes that their records have together, and the length
/// of the file in bytes.
///
/// The files are read one at a time. Files that cannot be merged are refused as
/// [`pdb_merge::merge_files`] refuses them, with the position of a file, from 0. A file that cannot
/// be read is refused first. Nothing is written then. After `Memory` nothing was written, or
/// `out` holds the whole file and nothing was written into `report`. After `Write` one of the sinks
/// is broken. If it is `out`, it took the first bytes of the file, and nothing was written into
/// `report`. If it is `report`, it took the first bytes of the report, and `out` holds the whole
/// file.
#[tactic(auto, unfolding(crate::specs::Merge::report_lines))]
pub fn run_merge<
    I: BoundedInputs + Drop,
    W: Sink,
    V: Sink,
    S: BuildHasher + Drop,
    A: Allocator + Copy,
>(
    alloc: A,
    files: I,
    settings: &Settings,
    out: &mut W,
    report: &mut V,
    hasher: S,
) -> Result<(), RunFault<A>>
    ensures { MergesInto (I.known files) (record_limit settings.now)
        (λ given. Wrote given settings.now) (λ given. WrotePart given settings.now)
        W.taken W.is_broken out.old out.new V.taken V.is_broken report.old report.new result }
{
    let summary = merge_to(alloc, files, settings, out, hasher)?;
    report_on(alloc, &summary, OnRefused::Stop, 0, report)
}
