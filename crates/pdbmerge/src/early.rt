//! What is refused of a merge before anything is read or written.

use command_line::Merging;
use host_files::{FileId, MapFault, Place, ProgramFault, Said, TakenStreams, is_one_of};
use run_options::Making;
use std::fs;
use std::io::{Error, ErrorKind};
use std::rt::HostRuntime;

/// The numbers of two errors of the system: "No such file or directory" and "File exists".
const MISSING: i32 = 2;

const EXISTS: i32 = 17;

/// Whether a path is that of the list of more inputs, by any name.
fn is_list(rt: &HostRuntime, file: &FileId<'_>, task: &Merging) -> bool {
    match &task.list {
        Some(list) => file.is(rt, list.path.as_str()),
        None => false,
    }
}

/// Whether there is something at a path that must not be written over.
fn is_there(rt: &HostRuntime, path: &str, making: Making) -> bool {
    match making {
        Making::New => fs::symlink_metadata(rt, path).is_ok(),
        Making::Overwrite | Making::Replace => false,
    }
}

/// Whether one of the standard streams is taken: nothing can take its place.
fn is_stream(taken: TakenStreams) -> bool {
    taken.output || taken.error
}

/// Why OUT can't be written, as far as that is known before.
#[inline(never)]
fn fault_of_out(rt: &HostRuntime, task: &Merging) -> Option<Error> {
    let out = task.out.as_str();
    if out.is_empty() {
        return Some(Error::from_raw_os_error(MISSING));
    }
    if is_there(rt, out, task.making) {
        return Some(Error::from_raw_os_error(EXISTS));
    }
    if task.making == Making::Replace && is_stream(TakenStreams::of(rt, out, None)) {
        return Some(Error::new(ErrorKind::Unsupported, "it is a standard stream"));
    }
    if is_list(rt, &FileId::of(rt, out), task) {
        return Some(Error::new(ErrorKind::Unsupported, "it is the list of inputs"));
    }
    None
}

/// Why the file for the maps can't be written, as far as that is known before. A file that the merge
/// reads or writes would be spoilt.
#[inline(never)]
fn fault_of_map(
    rt: &HostRuntime,
    task: &Merging,
    path: &str,
    taken: TakenStreams,
) -> Option<Error> {
    if is_there(rt, path, task.making) {
        return Some(Error::from_raw_os_error(EXISTS));
    }
    if task.making == Making::Replace && is_stream(taken) {
        return Some(Error::new(ErrorKind::Unsupported, "it is a standard stream"));
    }
    let map = FileId::of(rt, path);
    if map.is(rt, task.out.as_str())
        || is_one_of(rt, &map, &task.inputs)
        || is_list(rt, &map, task)
    {
        return Some(Error::new(ErrorKind::Unsupported, "the merge reads or writes it"));
    }
    None
}

/// Refuses an OUT and a file for the maps that can't be written, before anything is done.
#[inline(never)]
pub fn refuse_early(
    rt: &HostRuntime,
    task: &Merging,
    taken: TakenStreams,
    said: &Said,
) -> Result<(), ProgramFault> {
    if let Some(error) = fault_of_out(rt, task) {
        said.keep(Place::Out, &error);
        return Err(ProgramFault::Create);
    }
    let Some(map) = &task.map else {
        return Ok(());
    };
    match fault_of_map(rt, task, map.as_str(), taken) {
        Some(error) => {
            said.keep(Place::Map, &error);
            Err(MapFault::Create.into())
        }
        None => Ok(()),
    }
}
