//! The list of the paths of more inputs.

use crate::refusal::Refusal;
use byte_io::{In, read_all};
use command_line::{LineFault, ListFault, Merging, PathList, WrongWord, push_paths};
use host_files::{Place, ProgramFault, Said, Stream, Telling};
use show_commands::RunFault;
use std::fs;
use std::io::Read;
use std::rt::HostRuntime;

/// What stands for standard input where a path is wanted.
const STANDARD_INPUT: &str = "-";

/// All bytes of a file that is open.
fn read_from<F: Read + Drop>(
    rt: &HostRuntime,
    file: F,
    max_bytes: u32,
    said: &Said,
) -> Result<Vec<u8>, ProgramFault> {
    let mut input = In::new(Telling::new(file, Place::List, said));
    read_all(rt.alloc(), &mut input, max_bytes).map_err(|fault| RunFault::from(fault).into())
}

/// The bytes of a list.
fn bytes_of(
    rt: &HostRuntime,
    list: &PathList,
    max_bytes: u32,
    said: &Said,
) -> Result<Vec<u8>, ProgramFault> {
    let path = list.path.as_str();
    if path == STANDARD_INPUT || Stream::named(path) == Some(Stream::Input) {
        return read_from(rt, rt.stdin(), max_bytes, said);
    }
    match fs::open(rt, path) {
        Ok(file) => read_from(rt, file, max_bytes, said),
        Err(error) => {
            said.keep(Place::List, &error);
            Err(RunFault::Open.into())
        }
    }
}

/// What is said of a list whose path with this number, from 1, is not UTF-8.
fn not_utf8(number: usize, is_verbose: bool) -> LineFault {
    if is_verbose {
        LineFault::Word(Some(WrongWord::Path(number)))
    } else {
        LineFault::Word(None)
    }
}

/// Reads the list of more inputs, if there is one. Its paths come after those of the arguments.
#[inline(never)]
pub fn read_list(
    rt: &HostRuntime,
    task: &mut Merging,
    is_verbose: bool,
    said: &Said,
) -> Result<(), Refusal> {
    let Some(list) = &task.list else {
        return Ok(());
    };
    let bytes = bytes_of(rt, list, task.max_bytes, said).map_err(Refusal::List)?;
    let before = task.inputs.len();
    match push_paths(rt.alloc(), &bytes, list.end, &mut task.inputs) {
        Ok(()) => Ok(()),
        Err(ListFault::NotUtf8) => {
            // Those before it were appended.
            let number = task.inputs.len().saturating_sub(before).saturating_add(1);
            Err(Refusal::Line(not_utf8(number, is_verbose)))
        }
        Err(ListFault::Memory) => Err(Refusal::Program(RunFault::Memory.into())),
    }
}
