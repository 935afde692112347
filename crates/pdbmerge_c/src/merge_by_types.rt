//! One file with the types of several, whose GUID is made of these types.

ghost use Rattle.std.specs.Prelude.{◌≡◌, ◌≢◌, ◌⊎◌, ◌↔◌, length};
ghost use Rattle.pdb_info.specs.Settings.{record_limit};
ghost use Rattle.pdb_merge.specs.OfTypes.{IsFileByTypes};
ghost use Rattle.pdb_merge.specs.Union.{CanMerge};
ghost use Rattle.pdbmerge_c.specs.Fault.{IsEnded, IsSaid};
ghost use Rattle.pdbmerge_c.specs.Merge.{AreAllowed, Merges, LacksRoom, RefusesMerge, bytes_of_files, settings_of};

use crate::fault::Fault;
use crate::merge::{Choices, Report, give_merged, merge_all, refuse_merge};
use crate::settings::{refuse_settings, settings_from};
use run_options::GuidChoice;
use std::alloc::Global;

/// Merges files as [`pdbmerge_merge`](crate::merge::pdbmerge_merge) does, but the GUID of the file is
/// made of its types, and that of the settings is not used.
///
/// The same types give the same GUID and the same bytes, whatever the order of the files. The faults are
/// those of `pdbmerge_merge`, in the same order.
#[unsafe(no_mangle)]
pub extern "C" fn pdbmerge_merge_by_types(
    alloc: Global,
    files: &[&[u8]],
    choices: &Choices,
    out: &mut [u8],
    report: &mut Report,
    fault: &mut Fault,
) -> u32
    ensures told { IsSaid fault.new result }
    ensures ended { IsEnded fault.new }
    // The file is at the front of `out`.
    ensures value { result ≡ 0 →
        Merges IsFileByTypes files.now choices.now report.new out.old out.new }
    // The file is longer than `out`.
    ensures room { result ≡ 100 →
        LacksRoom IsFileByTypes files.now choices.now report.new (length out.old) }
    ensures settings { (result ≡ 101) ↔ (AreAllowed choices.now → ⊥) }
    ensures refuses { result ≢ 0 → result ≢ 100 → result ≢ 101 →
        RefusesMerge files.now (settings_of choices.now) fault.new }
    // Files that can be merged are refused only when out of memory or of room.
    ensures found { AreAllowed choices.now →
        CanMerge (bytes_of_files files.now) (record_limit (settings_of choices.now)) →
        (result ≡ 0) ⊎ (result ≡ 33) ⊎ (result ≡ 100) }
    ensures untouched { result ≢ 0 → out.new ≡ out.old }
    ensures kept { result ≢ 0 → result ≢ 100 → report.new ≡ report.old }
{
    let Some(settings) = settings_from(choices) else {
        return refuse_settings(fault, choices);
    };
    match merge_all(alloc, files, &settings, GuidChoice::OfTypes, &choices.seed) {
        Ok(done) => give_merged(&done, out, report, fault),
        Err(why) => refuse_merge(fault, &why),
    }
}
