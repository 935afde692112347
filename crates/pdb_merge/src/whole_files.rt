//! Merges of files all of which must be accepted.

ghost use Rattle.std.specs.Prelude.{◌≤◌, ℕ, List, length, OnOk, IfOk, IfErr};
ghost use Rattle.std.specs.List.{concat};
ghost use Rattle.byte_io.specs.Inputs.{Give};
ghost use Rattle.canonical_list.specs.Finish.{IsCanonOf};
ghost use Rattle.pdb_info.specs.Settings.{record_limit};
ghost use Rattle.pdb_merge.specs.Answer.{AcceptsFiles, MergesTo, RefusesFiles};
ghost use Rattle.pdb_merge.specs.Merged.{Wrote, WrotePart};
ghost use Rattle.pdb_merge.specs.Union.{HasType};

use crate::bounded::BoundedInputs;
use crate::fault::{MergeFault, OutFault};
use crate::merged::merge;
use crate::plan::Plan;
use crate::sift::sift_files;
use crate::summary::Summary;
use byte_io::Sink;
use pdb_info::Settings;
use std::alloc::Allocator;
use std::hash::BuildHasher;
use type_table::{Canon, NoMaps};

/// The canonical list of the types of these files.
///
/// The faults are those of [`merge`](crate::merge) with the plan to stop, in the same order.
pub fn merge_files<I: BoundedInputs + Drop, S: BuildHasher + Drop, A: Allocator + Copy>(
    alloc: A,
    files: I,
    settings: &Settings,
    hasher: S,
) -> Result<Canon<A>, MergeFault<A>>
    ensures value { (given : List (List ℕ)) → Give (I.known files) given →
        IfOk result (λ canon. IsCanonOf canon (HasType given)) }
    ensures within { IfOk result (λ canon. length (concat canon) ≤ record_limit settings.now) }
    ensures accepts { OnOk result (AcceptsFiles (I.known files) (record_limit settings.now)) }
    ensures refuses { IfErr result (RefusesFiles (I.known files) (record_limit settings.now)) }
{
    match sift_files(alloc, files, &Plan::new(*settings), NoMaps, hasher) {
        Ok(sifted) => Ok(sifted.canon),
        Err(fault) => Err(fault),
    }
}

/// Merges files, and writes the file of their types with these settings into a sink: as
/// [`merge`](crate::merge) does with the plan to stop.
///
/// Nothing is written unless all files are accepted and their types are within the limit.
pub fn merge_to<I: BoundedInputs + Drop, W: Sink, S: BuildHasher + Drop, A: Allocator + Copy>(
    alloc: A,
    files: I,
    settings: &Settings,
    out: &mut W,
    hasher: S,
) -> Result<Summary, OutFault<A>>
    ensures { MergesTo (I.known files) (record_limit settings.now)
        (λ given. Wrote given settings.now) (λ given. WrotePart given settings.now)
        W.taken W.is_broken out.old out.new result }
{
    match merge(alloc, files, &Plan::new(*settings), NoMaps, hasher, out) {
        Ok(merged) => Ok(merged.summary),
        Err(fault) => Err(fault),
    }
}
