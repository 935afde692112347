//! The command `merge`: writes one file with the types of its inputs, each once.

ghost use Rattle.merge_commands.specs.Plan.{RunsPlan, sunk};

use crate::maps::write_maps;
use crate::report::report_on;
use byte_io::Sink;
use pdb_merge::{BoundedInputs, KeepMaps, Merged, Plan, merge};
use show_commands::RunFault;
use std::alloc::Allocator;
use std::hash::BuildHasher;

/// Runs the command `merge`: merges the inputs as a plan says, and writes the file of their types into
/// `out`. Then it writes the maps into `map`, if they are kept, and at last a report into `report`.
///
/// The map of an input has a line for each of its records: the position of the input, from 0, the type
/// index of the record, and the type index of its type in the file. The report has three lines: the
/// number of types, the number of bytes that their records have together, and the length of the file
/// in bytes. Where inputs that are refused are left out, a fourth line counts those.
///
/// The inputs are read one at a time, and refused as [`pdb_merge::merge`] refuses them. Nothing is
/// written then. After `Memory` nothing was written, or `out` holds the whole file, `map` the first
/// lines, and nothing was written into `report`. After `Write` one of the sinks is broken, and took the
/// first bytes of what is for it. Those before it took all that is for them, and nothing was written
/// into those behind it.
#[tactic(auto, using(crate::proofs::PlanLaws::plan_done))]
pub fn run_plan<
    I: BoundedInputs + Drop,
    W: Sink,
    M: Sink,
    V: Sink,
    S: BuildHasher + Drop,
    A: Allocator + Copy,
    K: KeepMaps + Drop,
>(
    alloc: A,
    files: I,
    plan: &Plan,
    maps: K,
    hasher: S,
    out: &mut W,
    map: &mut M,
    report: &mut V,
) -> Result<Merged<A, K>, RunFault<A>>
    ensures { RunsPlan (I.known files) (I.needs files) plan.now K.maps
        (sunk W.taken W.is_broken out.old out.new)
        (sunk M.taken M.is_broken map.old map.new)
        (sunk V.taken V.is_broken report.old report.new) result }
{
    let merged = merge(alloc, files, plan, maps, hasher, out)?;
    write_maps(alloc, &merged.maps, map)?;
    let left_out = merged.left_out.len();
    report_on(alloc, &merged.summary, plan.refused, left_out, report)?;
    Ok(merged)
}
