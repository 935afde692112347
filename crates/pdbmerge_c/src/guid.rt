//! The GUID of the types of several files.

ghost use Rattle.std.specs.Prelude.{◌≡◌, ◌≢◌, ◌⊎◌, IfOk, IfErr};
ghost use Rattle.pdb_info.specs.Settings.{record_limit};
ghost use Rattle.pdb_merge.specs.Union.{CanMerge};
ghost use Rattle.pdbmerge_c.specs.Fault.{IsEnded, IsSaid};
ghost use Rattle.pdbmerge_c.specs.Guid.{IsGuidOfTypes, settings_for_guid};
ghost use Rattle.pdbmerge_c.specs.Merge.{IsRefusal, RefusesMerge, bytes_of_files};

use crate::fault::{Fault, clear};
use crate::merge::refuse_merge;
use crate::seed::Seed;
use crate::settings::MOST_BYTES;
use pdb_info::Settings;
use pdb_merge::{OutFault, guid_of_types, merge_files};
use std::alloc::Global;
use std::hash::RandomState;
use uuid::Uuid;

/// A GUID.
#[repr(C)]
#[derive(Clone, Copy, Debug)]
pub struct Guid {
    /// Its bytes, in the order in which they are printed.
    pub bytes: [u8; 16],
}

/// The settings of a merge of which only the types are wanted.
#[tactic(auto, using(msf_superblock::proofs::SizeLaws::size_4096))]
fn settings_for_guid() -> Settings
    ensures { result ≡ settings_for_guid }
{
    let Some(settings) = Settings::new(Uuid::nil(), 0, MOST_BYTES, 4096) else {
        unreachable!()
    };
    settings
}

/// The GUID of the types of files.
fn find_guid(alloc: Global, files: &[&[u8]], seed: &Seed) -> Result<Guid, OutFault>
    ensures value { IfOk result (IsGuidOfTypes files.now) }
    ensures refuses { IfErr result (IsRefusal files.now settings_for_guid) }
{
    let Ok(hasher) = RandomState::new(seed) else {
        return Err(OutFault::Memory);
    };
    let canon = merge_files(alloc, files, &settings_for_guid(), hasher)?;
    Ok(Guid {
        bytes: guid_of_types(&canon).into_bytes(),
    })
}

/// Makes the GUID of the types of files: that of the file that
/// [`pdbmerge_merge_by_types`](crate::merge_by_types::pdbmerge_merge_by_types) writes.
///
/// The same types give the same GUID, whatever the order of the files. The faults, in order: those of
/// `merge_files`; `MEMORY`.
#[unsafe(no_mangle)]
pub extern "C" fn pdbmerge_guid_of_types(
    alloc: Global,
    files: &[&[u8]],
    seed: &Seed,
    guid: &mut Guid,
    fault: &mut Fault,
) -> u32
    ensures told { IsSaid fault.new result }
    ensures ended { IsEnded fault.new }
    ensures value { result ≡ 0 → IsGuidOfTypes files.now guid.new }
    ensures refuses { result ≢ 0 → RefusesMerge files.now settings_for_guid fault.new }
    // Files that can be merged are refused only when out of memory.
    ensures found { CanMerge (bytes_of_files files.now) (record_limit settings_for_guid) →
        (result ≡ 0) ⊎ (result ≡ 33) }
    ensures kept { result ≢ 0 → guid.new ≡ guid.old }
{
    match find_guid(alloc, files, seed) {
        Ok(found) => {
            *guid = found;
            clear(fault)
        }
        Err(why) => refuse_merge(fault, &why),
    }
}
