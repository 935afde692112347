//! One file with the types of several, and where each of their types went.

ghost use Rattle.std.specs.Prelude.{◌≡◌, ◌≢◌, ◌⊎◌, ◌↔◌, length};
ghost use Rattle.pdb_info.specs.Settings.{record_limit};
ghost use Rattle.pdb_merge.specs.Union.{CanMerge};
ghost use Rattle.pdbmerge_c.specs.Fault.{IsEnded, IsSaid};
ghost use Rattle.pdbmerge_c.specs.Merge.{AreAllowed, RefusesMerge, bytes_of_files, settings_of};
ghost use Rattle.pdbmerge_c.specs.MergeMap.{LacksRoomOfMaps, MergesWithMaps};

use crate::fault::Fault;
use crate::merge::{Choices, Report};
use crate::merge_plan::{PlanChoices, Totals, pdbmerge_merge_plan};
use std::alloc::Global;

/// Merges files as [`pdbmerge_merge`](crate::merge::pdbmerge_merge) does, and lists the map of each
/// file: for each of its records, the type index of its type in the file that is written. The maps
/// stand one after the other in `indices`, in the order of the files. `counts` has how many records
/// each file has, and `total` how many all files have.
///
/// The faults, in order: `SETTINGS`; those of `merge_files`; `MEMORY`; `ROOM`, where `out`, `indices`
/// or `counts` has too little room, and then the report says how long the file is, and `total` how
/// many records there are.
#[tactic(auto, using(crate::proofs::PlanLaws::lacks_maps))]
#[unsafe(no_mangle)]
pub extern "C" fn pdbmerge_merge_map(
    alloc: Global,
    files: &[&[u8]],
    choices: &Choices,
    out: &mut [u8],
    indices: &mut [u32],
    counts: &mut [u32],
    report: &mut Report,
    total: &mut u64,
    fault: &mut Fault,
) -> u32
    ensures told { IsSaid fault.new result }
    ensures ended { IsEnded fault.new }
    // The file and the maps are at the fronts of what was lent.
    ensures value { result ≡ 0 → MergesWithMaps files.now choices.now report.new total.new
        out.old out.new indices.old indices.new counts.old counts.new }
    // The file or the maps are longer than their room.
    ensures room { result ≡ 100 → LacksRoomOfMaps files.now choices.now report.new total.new
        (length out.old) (length indices.old) (length counts.old) }
    ensures settings { (result ≡ 101) ↔ (AreAllowed choices.now → ⊥) }
    ensures refuses { result ≢ 0 → result ≢ 100 → result ≢ 101 →
        RefusesMerge files.now (settings_of choices.now) fault.new }
    // Files that can be merged are refused only when out of memory or of room.
    ensures found { AreAllowed choices.now →
        CanMerge (bytes_of_files files.now) (record_limit (settings_of choices.now)) →
        (result ≡ 0) ⊎ (result ≡ 33) ⊎ (result ≡ 100) }
    ensures untouched { result ≢ 0 → (out.new ≡ out.old)
        × (indices.new ≡ indices.old) × (counts.new ≡ counts.old) }
    ensures kept { result ≢ 0 → result ≢ 100 → (report.new ≡ report.old) × (total.new ≡ total.old) }
{
    let plan = PlanChoices {
        settings: *choices,
        guid: 0,
        refused: 0,
        maps: 1,
    };
    let mut totals = Totals {
        indices: *total,
        counts: 0,
        left_out: 0,
    };
    let number = pdbmerge_merge_plan(
        alloc,
        files,
        &plan,
        out,
        indices,
        counts,
        &mut [],
        report,
        &mut totals,
        fault,
    );
    *total = totals.indices;
    number
}
