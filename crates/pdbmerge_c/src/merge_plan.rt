//! One file with the types of several, as a plan says.

ghost use Rattle.std.specs.Prelude.{◌≡◌, ◌≢◌, ◌⊎◌, ◌↔◌, length, map, IfOk, IfErr, IfSome};
ghost use Rattle.pdb_info.specs.Settings.{record_limit};
ghost use Rattle.pdb_merge.specs.Sift.{CanSift};
ghost use Rattle.pdbmerge_c.specs.Fault.{IsEnded, IsSaid, IsTold, no_number};
ghost use Rattle.pdbmerge_c.specs.Given.{Fills};
ghost use Rattle.pdbmerge_c.specs.Merge.{IsWhy, bytes_of_files, settings_of};
ghost use Rattle.pdbmerge_c.specs.MergePlan.{AreLonger, CanFollow, HasMerged, IsRefusalBy, LacksRoomOfPlan, MergesByPlan, MustStayBy, RefusesPlan, entry_of, parts_of, plan_of, report_of};

use crate::fault::{Fault, ROOM, clear, tell};
use crate::give::fill;
use crate::map_lists::{MapLists, list_maps};
use crate::merge::{Choices, InMemory, Report, merge_in_memory, refuse_merge};
use crate::settings::{plan_from, refuse_plan};
use byte_io::{Out, Sink};
use pdb_merge::{KeepMaps, LeftOut, NoMaps, OutFault, Plan, Summary, TypeMaps};
use std::alloc::{AllocError, Global};

/// How files are merged into one.
#[repr(C)]
#[derive(Clone, Copy, Debug)]
pub struct PlanChoices {
    pub settings: Choices,
    /// The GUID of the file: 0 for that of the settings, 1 for one that is made of its types.
    pub guid: u32,
    /// What becomes of a file that is refused: 0 if it ends the merge, 1 if it is left out.
    pub refused: u32,
    /// 1 if the maps of the files are listed, 0 if not.
    pub maps: u32,
}

/// A file that was left out.
#[repr(C)]
#[derive(Clone, Copy, Debug)]
pub struct LeftOutFile {
    /// Its position, from 0.
    pub file: u64,
    /// The number of its first fault.
    pub number: u64,
}

/// How long the lists of a merge are.
#[repr(C)]
#[derive(Clone, Copy, Debug)]
pub struct Totals {
    /// How many type indices all maps have.
    pub indices: u64,
    /// How many files have a map.
    pub counts: u64,
    /// How many files were left out.
    pub left_out: u64,
}

/// A file that was merged, in memory, what is said of it, and what is listed of its merge.
#[derive(Drop)]
struct Listed {
    file: Out<Vec<u8>>,
    report: Report,
    maps: MapLists,
    left_out: Vec<LeftOutFile>,
}

impl Listed {
    /// How long the lists are.
    fn totals(&self) -> Totals
        ensures indices { result.indices ≡ length self.now.maps.indices.items }
        ensures counts { result.counts ≡ length self.now.maps.counts.items }
        ensures left_out { result.left_out ≡ length self.now.left_out.items }
    {
        Totals {
            indices: self.maps.indices.len() as u64,
            counts: self.maps.counts.len() as u64,
            left_out: self.left_out.len() as u64,
        }
    }
}

/// Lists the files that were left out.
fn list_left_out(alloc: Global, left_out: &[LeftOut]) -> Result<Vec<LeftOutFile>, AllocError>
    ensures { IfOk result (λ list. list.items ≡ map entry_of left_out.now) }
{
    let mut list = Vec::new(alloc);
    for one in left_out {
        list.push(LeftOutFile {
            file: one.file as u64,
            number: one.fault.number() as u64,
        })?;
    }
    Ok(list)
}

/// What is said of a merge, and what it left out, beside the lists of its maps.
fn list_merged<K: KeepMaps + Drop>(
    alloc: Global,
    done: InMemory<K>,
    maps: MapLists,
) -> Result<Listed, AllocError>
    ensures file { IfOk result (λ listed. listed.file ≡ done.file) }
    ensures report { IfOk result (λ listed. listed.report ≡ report_of done.merged.summary) }
    ensures maps { IfOk result (λ listed. listed.maps ≡ maps) }
    ensures left_out { IfOk result (λ listed.
        listed.left_out.items ≡ map entry_of done.merged.left_out.items) }
{
    let left_out = list_left_out(alloc, &done.merged.left_out)?;
    let Summary {
        types,
        bytes,
        length,
    } = done.merged.summary;
    let length = length as u64;
    Ok(Listed {
        file: done.file,
        report: Report {
            length,
            types,
            bytes,
        },
        maps,
        left_out,
    })
}

/// Merges files into a file in memory, and lists what they gave.
fn merge_listed(
    alloc: Global,
    files: &[&[u8]],
    choices: &PlanChoices,
    plan: &Plan,
) -> Result<Listed, OutFault>
    requires { plan.now ≡ plan_of choices.now }
    ensures value { IfOk result (λ listed.
        IfSome (⟦<Out<Vec<u8>> as Sink>⟧.taken listed.file) (λ file.
        HasMerged files.now choices.now listed.report (parts_of file
        listed.maps.indices.items listed.maps.counts.items listed.left_out.items))) }
    ensures refuses { IfErr result (IsWhy (IsRefusalBy files.now choices.now)) }
{
    let seed = &choices.settings.seed;
    let listed = if choices.maps == 0 {
        let done = merge_in_memory(alloc, files, plan, seed, NoMaps)?;
        list_merged(alloc, done, MapLists::new(alloc))
    } else {
        let done = merge_in_memory(alloc, files, plan, seed, TypeMaps::new(alloc))?;
        match list_maps(alloc, &done.merged.maps) {
            Ok(maps) => list_merged(alloc, done, maps),
            Err(_) => Err(AllocError),
        }
    };
    match listed {
        Ok(listed) => Ok(listed),
        Err(_) => Err(OutFault::Memory),
    }
}

/// Copies a file and what is listed of its merge to the fronts of what is lent. `ROOM` where there is
/// too little room for one of them: then all of it is as it was.
#[tactic(auto, unfolding(crate::specs::MergePlan::AreLonger))]
fn give_listed(
    listed: &Listed,
    out: &mut [u8],
    indices: &mut [u32],
    counts: &mut [u32],
    left_out: &mut [LeftOutFile],
    fault: &mut Fault,
) -> u32
    ensures status { (result ≡ 0) ⊎ (result ≡ 100) }
    ensures long { result ≡ 100 → IfSome (⟦<Out<Vec<u8>> as Sink>⟧.taken listed.now.file) (λ file.
        AreLonger (parts_of file listed.now.maps.indices.items listed.now.maps.counts.items
        listed.now.left_out.items)
        (parts_of out.old indices.old counts.old left_out.old)) }
    ensures file { result ≡ 0 → IfSome (⟦<Out<Vec<u8>> as Sink>⟧.taken listed.now.file) (λ file.
        Fills file out.old out.new) }
    ensures indices { result ≡ 0 → Fills listed.now.maps.indices.items indices.old indices.new }
    ensures counts { result ≡ 0 → Fills listed.now.maps.counts.items counts.old counts.new }
    ensures left_out { result ≡ 0 → Fills listed.now.left_out.items left_out.old left_out.new }
    ensures kept { result ≢ 0 → (out.new ≡ out.old) × (indices.new ≡ indices.old)
        × (counts.new ≡ counts.old) × (left_out.new ≡ left_out.old) }
    ensures told { IsTold fault.new result no_number }
    ensures ended { IsEnded fault.new }
{
    let file = listed.file.writer().as_slice();
    let maps = &listed.maps;
    if out.len() < file.len()
        || indices.len() < maps.indices.len()
        || counts.len() < maps.counts.len()
        || left_out.len() < listed.left_out.len()
    {
        return tell(fault, ROOM, None, &"100 Room");
    }
    fill(file, out);
    fill(maps.indices.as_slice(), indices);
    fill(maps.counts.as_slice(), counts);
    fill(listed.left_out.as_slice(), left_out);
    clear(fault)
}

/// Merges files as a plan says: all of them, or those that are accepted. It lists the files that were
/// left out, and the maps of the files, as
/// [`pdbmerge_merge_map`](crate::merge_map::pdbmerge_merge_map) does, if they are wanted. The map of a
/// file that was left out has no records. `totals` has how long each list is.
///
/// The faults, in order: `SETTINGS`; those of `merge`; `MEMORY`; `ROOM`, where `out` or one of the
/// lists has too little room, and then the report and the totals say how much it takes.
#[unsafe(no_mangle)]
pub extern "C" fn pdbmerge_merge_plan(
    alloc: Global,
    files: &[&[u8]],
    plan: &PlanChoices,
    out: &mut [u8],
    indices: &mut [u32],
    counts: &mut [u32],
    left_out: &mut [LeftOutFile],
    report: &mut Report,
    totals: &mut Totals,
    fault: &mut Fault,
) -> u32
    ensures told { IsSaid fault.new result }
    ensures ended { IsEnded fault.new }
    // The file and the lists are at the fronts of what was lent.
    ensures value { result ≡ 0 → MergesByPlan files.now plan.now report.new totals.new
        (parts_of out.old indices.old counts.old left_out.old)
        (parts_of out.new indices.new counts.new left_out.new) }
    // The file or one of the lists is longer than its room.
    ensures room { result ≡ 100 → LacksRoomOfPlan files.now plan.now report.new totals.new
        (parts_of out.old indices.old counts.old left_out.old) }
    ensures settings { (result ≡ 101) ↔ (CanFollow plan.now → ⊥) }
    ensures refuses { result ≢ 0 → result ≢ 100 → result ≢ 101 →
        RefusesPlan files.now plan.now fault.new }
    // Files that can be merged by the plan are refused only when out of memory or of room.
    ensures found { CanFollow plan.now →
        CanSift (MustStayBy plan.now) (bytes_of_files files.now)
        (length (bytes_of_files files.now)) (record_limit (settings_of plan.now.settings)) →
        (result ≡ 0) ⊎ (result ≡ 33) ⊎ (result ≡ 100) }
    ensures untouched { result ≢ 0 → (out.new ≡ out.old) × (indices.new ≡ indices.old)
        × (counts.new ≡ counts.old) × (left_out.new ≡ left_out.old) }
    ensures kept { result ≢ 0 → result ≢ 100 → (report.new ≡ report.old)
        × (totals.new ≡ totals.old) }
{
    let Some(its) = plan_from(plan) else {
        return refuse_plan(fault, plan);
    };
    match merge_listed(alloc, files, plan, &its) {
        Ok(listed) => {
            *report = listed.report;
            *totals = listed.totals();
            give_listed(&listed, out, indices, counts, left_out, fault)
        }
        Err(why) => refuse_merge(fault, &why),
    }
}
