//! The command `merge`: its files, its report and its exit status.

use crate::early::refuse_early;
use crate::hashes::Hashes;
use crate::refusal::{quoted, taken_by};
use crate::report::{REPORT_LENGTH, print};
use byte_io::{Out, Sink};
use command_line::Merging;
use host_files::{
    FileId, InputFiles, NewFile, NewFiles, Placed, ProgramFault, Progress, Said, TakenStreams,
    are_file,
};
use merge_commands::run_plan;
use pdb_merge::{KeepMaps, LeftOut, NoMaps, Plan, TypeMaps};
use run_options::OnRefused;
use show_commands::RunFault;
use std::alloc::AllocError;
use std::process::ExitCode;
use std::rt::HostRuntime;

/// The exit status where inputs were left out.
const LEFT_OUT: u8 = 4;

/// What a merge is asked for, and what all of its steps need.
#[derive(Clone, Copy)]
struct Job<'a> {
    rt: &'a HostRuntime,
    task: &'a Merging,
    taken: TakenStreams,
    said: &'a Said,
    is_verbose: bool,
}

/// Files that were written, but have not taken their places yet, and what is said of them.
#[derive(Drop)]
struct Written<'a> {
    files: NewFiles<'a, HostRuntime>,
    report: Vec<u8>,
    left_out: Vec<LeftOut>,
}

/// The inputs of a merge, with what tells how many of them were read. It tells that on standard
/// error, so it tells nothing where that is OUT or MAP.
fn inputs_of<'a>(job: &Job<'a>) -> InputFiles<'a, HostRuntime> {
    let task = job.task;
    let progress = if task.shows_progress && !job.taken.error {
        Some(Progress::new(job.rt, task.inputs.len()))
    } else {
        None
    };
    InputFiles::new(job.rt, &task.inputs, task.max_bytes, progress, job.said)
}

/// How the inputs are merged.
fn plan_of(task: &Merging) -> Plan {
    Plan {
        settings: task.settings,
        guid: task.guid,
        refused: task.refused,
    }
}

/// Which inputs are OUT. One that is left out would be lost there.
#[inline(never)]
fn needed_by(job: &Job<'_>) -> Result<Vec<bool>, AllocError> {
    let (rt, task) = (job.rt, job.task);
    match task.refused {
        OnRefused::Stop => Ok(Vec::new(rt.alloc())),
        OnRefused::Skip => are_file(rt, &FileId::of(rt, task.out.as_str()), &task.inputs),
    }
}

/// Merges inputs into a new file, and writes their maps and the report. Gives the inputs that were left
/// out.
#[inline(never)]
fn merge_into<K: KeepMaps + Drop, M: Sink>(
    job: &Job<'_>,
    maps: K,
    hasher: Hashes,
    out: &mut NewFile<'_, HostRuntime>,
    map: &mut M,
    report: &mut Vec<u8>,
) -> Result<Vec<LeftOut>, RunFault> {
    let needed = needed_by(job)?;
    let inputs = inputs_of(job).needing(&needed);
    let (alloc, plan, mut report) = (job.rt.alloc(), plan_of(job.task), Out::new(report));
    let merged = run_plan(alloc, inputs, &plan, maps, hasher, out, map, &mut report)?;
    Ok(merged.left_out)
}

/// Merges inputs into new files, which are stored then. Gives the inputs that were left out.
fn write_files(
    job: &Job<'_>,
    hasher: Hashes,
    files: &mut NewFiles<'_, HostRuntime>,
    report: &mut Vec<u8>,
) -> Result<Vec<LeftOut>, ProgramFault> {
    let alloc = job.rt.alloc();
    let merged = match &mut files.map {
        Some(map) => {
            let maps = TypeMaps::new(alloc);
            merge_into(job, maps, hasher, &mut files.out, map, report)
        }
        None => {
            let mut nothing = Out::new(Vec::new(alloc));
            merge_into(job, NoMaps, hasher, &mut files.out, &mut nothing, report)
        }
    };
    files.finish(merged)
}

/// Merges as [`write_files`] does. After a refusal nothing is left of files that have not taken their
/// places.
fn write<'a>(job: &Job<'a>, hasher: Hashes) -> Result<Written<'a>, ProgramFault> {
    let (rt, task) = (job.rt, job.task);
    let map = task.map.as_ref().map(|map| map.as_str());
    let mut files = NewFiles::new(rt, task.out.as_str(), map, task.making, job.said);
    let mut report = Vec::with_capacity(rt.alloc(), REPORT_LENGTH)?;
    match write_files(job, hasher, &mut files, &mut report) {
        Ok(left_out) => Ok(Written {
            files,
            report,
            left_out,
        }),
        Err(fault) => {
            files.abandon();
            Err(fault)
        }
    }
}

/// Tells which inputs were left out, each with its fault, and where the arguments ask for more, also its
/// path. Where a line cannot be printed, only the report and the exit status are left.
#[inline(never)]
fn tell_left_out(job: &Job<'_>, left_out: &[LeftOut]) {
    if job.taken.error {
        return;
    }
    for one in left_out {
        let _ = eprintln!(job.rt; "{one}");
        if job.is_verbose {
            if let Some(path) = job.task.inputs.get(one.file) {
                if let Ok(path) = quoted(job.rt, path.as_str()) {
                    let _ = eprintln!(job.rt; "file {} is {path}", one.file);
                }
            }
        }
    }
}

/// Says that a loss of power may undo a merge, where the system could not store a folder.
fn tell_placed(job: &Job<'_>, placed: Placed) {
    if placed == Placed::Unstored && !job.taken.error {
        let _ = eprintln!(job.rt;
            "pdbmerge: the folder is not stored: a loss of power may undo this"
        );
    }
}

/// Prints what is said of a merge, and then puts its files in their places.
#[inline(never)]
fn finish(job: &Job<'_>, written: &mut Written<'_>) -> Result<(), ProgramFault> {
    if job.task.shows_progress && !job.taken.error {
        Progress::new(job.rt, job.task.inputs.len()).end();
    }
    tell_left_out(job, &written.left_out);
    print(job.rt, &written.report, job.taken, job.said)?;
    tell_placed(job, written.files.take_places()?);
    Ok(())
}

/// Merges, and prints what is said of it. Returns the exit status.
#[inline(never)]
fn merge_with(job: &Job<'_>, hasher: Hashes) -> Result<ExitCode, ProgramFault> {
    let mut written = write(job, hasher)?;
    match finish(job, &mut written) {
        Ok(()) if written.left_out.is_empty() => Ok(ExitCode::SUCCESS),
        Ok(()) => Ok(ExitCode::from(LEFT_OUT)),
        Err(fault) => {
            written.files.abandon();
            Err(fault)
        }
    }
}

/// Merges files into a new one, and prints the report on it. Returns the exit status.
#[inline(never)]
pub fn merge(
    rt: &HostRuntime,
    task: &Merging,
    said: &Said,
    is_verbose: bool,
) -> Result<ExitCode, ProgramFault> {
    let taken = taken_by(rt, task);
    refuse_early(rt, task, taken, said)?;
    let job = Job {
        rt,
        task,
        taken,
        said,
        is_verbose,
    };
    merge_with(&job, Hashes::new(rt))
}
