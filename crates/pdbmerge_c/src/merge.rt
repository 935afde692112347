//! One file with the types of several.

ghost use Rattle.std.specs.Prelude.{◌≡◌, ◌≢◌, ◌⊎◌, ◌<◌, ◌↔◌, [], Some, length, IfOk, IfErr, IfSome};
ghost use Rattle.pdb_info.specs.Settings.{record_limit};
ghost use Rattle.pdb_merge.specs.Fault.{faulty_file, merge_number};
ghost use Rattle.pdb_merge.specs.Merged.{IsFileOf, WroteAs};
ghost use Rattle.pdb_merge.specs.Plan.{IsFileFor};
ghost use Rattle.pdb_merge.specs.Sift.{AreSpared, MustStay, RefusesSift, WroteSifted};
ghost use Rattle.pdb_merge.specs.Union.{CanMerge};
ghost use Rattle.pdbmerge_c.specs.Fault.{IsEnded, IsSaid, IsTold, input_code, no_number};
ghost use Rattle.pdbmerge_c.specs.Given.{Fills};
ghost use Rattle.pdbmerge_c.specs.Merge.{AreAllowed, IsRefusal, IsWhy, Merges, LacksRoom, RefusesMerge, bytes_of_files, inputs_of, reason_of, settings_of};

use crate::fault::{Fault, MEMORY, refuse};
use crate::give::give;
use crate::seed::Seed;
use crate::settings::{refuse_settings, settings_from};
use byte_io::{Out, Sink};
use pdb_info::Settings;
use pdb_merge::{KeepMaps, Merged, NoMaps, OutFault, Plan, merge};
use run_options::{GuidChoice, OnRefused};
use std::alloc::Global;
use std::hash::RandomState;

/// What the caller chooses of a file that is written.
#[repr(C)]
#[derive(Clone, Copy, Debug)]
pub struct Choices {
    /// The GUID, in the order in which it is printed.
    pub guid: [u8; 16],
    pub age: u32,
    /// The most bytes that the records may have together.
    pub limit: u32,
    /// How many bytes a block has.
    pub block_size: u32,
    pub seed: Seed,
}

/// What was written.
#[repr(C)]
#[derive(Clone, Copy, Debug)]
pub struct Report {
    /// How many bytes the file has.
    pub length: u64,
    /// How many types it has.
    pub types: u32,
    /// How many bytes their records have together.
    pub bytes: u32,
}

/// A file that was merged, in memory, and what is said of it.
#[derive(Drop)]
pub(crate) struct InMemory<K: KeepMaps + Drop> {
    pub(crate) file: Out<Vec<u8>>,
    pub(crate) merged: Merged<Global, K>,
}

/// Merges files as a plan says into a file in memory. The sink is in memory, so `Write` means out of
/// memory too.
pub(crate) fn merge_in_memory<K: KeepMaps + Drop>(
    alloc: Global,
    files: &[&[u8]],
    plan: &Plan,
    seed: &Seed,
    maps: K,
) -> Result<InMemory<K>, OutFault>
    ensures value { IfOk result (λ done.
        WroteSifted (IsFileFor plan.now.guid (bytes_of_files files.now) plan.now.settings)
        (bytes_of_files files.now) (Some []) (⟦<Out<Vec<u8>> as Sink>⟧.taken done.file)
        done.merged.summary done.merged.left_out.items (K.maps done.merged.maps)) }
    ensures spared { IfOk result (λ done.
        AreSpared (MustStay plan.now.refused (λ _. ⊥)) done.merged.left_out.items) }
    ensures refuses { IfErr result (IsWhy (RefusesSift (inputs_of files.now)
        (MustStay plan.now.refused (λ _. ⊥)) (record_limit plan.now.settings))) }
{
    let Ok(hasher) = RandomState::new(seed) else {
        return Err(OutFault::Memory);
    };
    let mut file = Out::new(Vec::new(alloc));
    let merged = merge(alloc, files, plan, maps, hasher, &mut file)?;
    Ok(InMemory { file, merged })
}

/// Merges files all of which must be accepted into a file in memory, whose GUID is that of the settings
/// or made of its types.
pub(crate) fn merge_all(
    alloc: Global,
    files: &[&[u8]],
    settings: &Settings,
    guid: GuidChoice,
    seed: &Seed,
) -> Result<InMemory<NoMaps>, OutFault>
    ensures value { IfOk result (λ done.
        WroteAs (IsFileFor guid (bytes_of_files files.now) settings.now) (bytes_of_files files.now)
        (Some []) (⟦<Out<Vec<u8>> as Sink>⟧.taken done.file) done.merged.summary) }
    ensures refuses { IfErr result (IsRefusal files.now settings.now) }
{
    let plan = Plan {
        settings: *settings,
        guid,
        refused: OnRefused::Stop,
    };
    merge_in_memory(alloc, files, &plan, seed, NoMaps)
}

/// Copies a file that was merged to the front of `out`, and says what it has. `ROOM` where there is too
/// little room: then `out` is as it was.
pub(crate) fn give_merged<K: KeepMaps + Drop>(
    done: &InMemory<K>,
    out: &mut [u8],
    report: &mut Report,
    fault: &mut Fault,
) -> u32
    ensures types { report.new.types ≡ done.now.merged.summary.types }
    ensures bytes { report.new.bytes ≡ done.now.merged.summary.bytes }
    ensures long { IfSome (⟦<Out<Vec<u8>> as Sink>⟧.taken done.now.file) (λ file.
        report.new.length ≡ length file) }
    ensures status { IfSome (⟦<Out<Vec<u8>> as Sink>⟧.taken done.now.file) (λ file.
        (result ≡ 0) ⊎ ((result ≡ 100) × (length out.old < length file))) }
    ensures done { IfSome (⟦<Out<Vec<u8>> as Sink>⟧.taken done.now.file) (λ file.
        result ≡ 0 → Fills file out.old out.new) }
    ensures kept { result ≢ 0 → out.new ≡ out.old }
    ensures told { IsTold fault.new result no_number }
    ensures ended { IsEnded fault.new }
{
    report.types = done.merged.summary.types;
    report.bytes = done.merged.summary.bytes;
    let file = done.file.writer().as_slice();
    give(file, out, &mut report.length, fault)
}

/// Says why files were not merged.
#[tactic(auto, using(crate::proofs::NumberLaws::merge_known))]
pub(crate) fn refuse_merge(fault: &mut Fault, why: &OutFault) -> u32
    ensures told { fault.new.number ≡ result }
    ensures ended { IsEnded fault.new }
    ensures some { result ≢ 0 }
    ensures room { result ≢ 100 }
    ensures settings { result ≢ 101 }
    ensures reason { IsTold fault.new (merge_number (reason_of why.now))
        (input_code (faulty_file (reason_of why.now))) }
{
    match why {
        OutFault::Merge(why) => refuse(fault, why.number(), why.file(), why),
        OutFault::Memory | OutFault::Write => refuse(fault, MEMORY, None, &"33 Memory"),
    }
}

/// Merges files, and writes the file of their types to the front of `out`.
///
/// The same types give the same bytes, whatever the order of the files. The faults, in order:
/// `SETTINGS`; those of `merge_files`; `MEMORY`; `ROOM`, and then the report says how long the file
/// is.
#[unsafe(no_mangle)]
pub extern "C" fn pdbmerge_merge(
    alloc: Global,
    files: &[&[u8]],
    choices: &Choices,
    out: &mut [u8],
    report: &mut Report,
    fault: &mut Fault,
) -> u32
    ensures told { IsSaid fault.new result }
    ensures ended { IsEnded fault.new }
    // The file is at the front of `out`.
    ensures value { result ≡ 0 →
        Merges IsFileOf files.now choices.now report.new out.old out.new }
    // The file is longer than `out`.
    ensures room { result ≡ 100 →
        LacksRoom IsFileOf files.now choices.now report.new (length out.old) }
    ensures settings { (result ≡ 101) ↔ (AreAllowed choices.now → ⊥) }
    ensures refuses { result ≢ 0 → result ≢ 100 → result ≢ 101 →
        RefusesMerge files.now (settings_of choices.now) fault.new }
    // Files that can be merged are refused only when out of memory or of room.
    ensures found { AreAllowed choices.now →
        CanMerge (bytes_of_files files.now) (record_limit (settings_of choices.now)) →
        (result ≡ 0) ⊎ (result ≡ 33) ⊎ (result ≡ 100) }
    ensures untouched { result ≢ 0 → out.new ≡ out.old }
    ensures kept { result ≢ 0 → result ≢ 100 → report.new ≡ report.old }
{
    let Some(settings) = settings_from(choices) else {
        return refuse_settings(fault, choices);
    };
    match merge_all(alloc, files, &settings, GuidChoice::Given, &choices.seed) {
        Ok(done) => give_merged(&done, out, report, fault),
        Err(why) => refuse_merge(fault, &why),
    }
}
