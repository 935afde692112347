//! The command `pdbmerge`: merges the types of Program Database (PDB) files, and shows what files
//! hold.
//!
//! `arguments` takes the arguments from the system. `merge` runs the command of that name: `lists` reads
//! the list of more inputs, `early` refuses files that can't be written, and `report` prints the report
//! on it. `hashes` makes the hashes of records. `hold` keeps files off the
//! numbers of the standard streams, and `refusal` prints why a command was refused.
//! The arguments are read by `command_line`, files are opened and created by `host_files`, and
//! the commands are those of `show_commands` and `merge_commands`. This module joins these to the system: arguments, the
//! standard streams and the exit status.
//!
//! Each step that keeps large values has a frame of its own (`inline(never)`), so that the stack has few
//! of them at a time.
#![tactic(auto)]

mod arguments;
mod early;
mod hashes;
mod hold;
mod lists;
mod merge;
mod refusal;
mod report;

use arguments::arguments;
use byte_io::put_all;
use command_line::{Compared, Line, LineFault, Task, USAGE, query_of, read_line};
use error_help::Page;
use hashes::Hashes;
use hold::hold;
use host_files::{InputFiles, ProgramFault, Said};
use lists::read_list;
use merge::merge;
use merge_commands::{run_diff, run_diff_members};
use refusal::{Refusal, quoted, refuse, refuse_line};
use report::standard_output;
use run_options::Shown;
use show_commands::{Asked, Found, run_members, run_shown};
use std::process::ExitCode;
use std::slice;

/// The exit status of `diff` where the files differ in their types.
const DIFFERENT: u8 = 3;

/// The exit status of `members` where no type has a name that it is asked for.
const MISSING: u8 = 3;

/// The files whose types are compared or shown.
fn inputs_in<'a>(
    rt: &'a HostRuntime,
    files: &'a [String],
    max_bytes: u32,
    said: &'a Said,
) -> InputFiles<'a, HostRuntime> {
    InputFiles::new(rt, files, max_bytes, None, said)
}

/// Prints in what two files differ. Returns the exit status.
#[inline(never)]
fn compare(
    rt: &HostRuntime,
    inputs: &InputFiles<'_, HostRuntime>,
    compared: Compared,
    said: &Said,
) -> Result<ExitCode, ProgramFault> {
    let (mut out, hasher) = (standard_output(rt, said), Hashes::new(rt));
    let same = match compared {
        Compared::Types(scope) => run_diff(rt.alloc(), inputs, scope, &mut out, hasher)?,
        Compared::Members => run_diff_members(rt.alloc(), inputs, &mut out, hasher)?,
    };
    if same {
        Ok(ExitCode::SUCCESS)
    } else {
        Ok(ExitCode::from(DIFFERENT))
    }
}

/// What each of these names asks for.
fn asked_of<'a>(rt: &HostRuntime, names: &'a [String]) -> Result<Vec<Asked<'a>>, ProgramFault> {
    let mut asked = Vec::with_capacity(rt.alloc(), names.len())?;
    for name in names {
        asked.push(Asked::new(query_of(name.as_str())))?;
    }
    Ok(asked)
}

/// These names in quotes.
fn all_quoted(rt: &HostRuntime, names: &[String]) -> Result<Vec<String>, ProgramFault> {
    let mut all = Vec::with_capacity(rt.alloc(), names.len())?;
    for name in names {
        all.push(quoted(rt, name.as_str())?)?;
    }
    Ok(all)
}

/// Prints which names no type has. Returns whether there are any.
fn tell_missing(rt: &HostRuntime, names: &[String], asked: &[Asked<'_>]) -> bool {
    let mut is_any = false;
    for (name, one) in names.iter().zip(asked) {
        if one.found == Found::Nothing {
            // Where the line cannot be printed, only the exit status is left.
            let _ = eprintln!(rt; "pdbmerge: no type {}", name.as_str());
            is_any = true;
        }
    }
    is_any
}

/// Prints the definitions of the types of a file, or those that are asked for. Returns the exit
/// status.
#[inline(never)]
fn tell(
    rt: &HostRuntime,
    file: &InputFiles<'_, HostRuntime>,
    names: &[String],
    said: &Said,
) -> Result<ExitCode, ProgramFault> {
    let mut asked = asked_of(rt, names)?;
    // Nothing may be refused any more after the text is written.
    let shown = all_quoted(rt, names)?;
    let mut out = standard_output(rt, said);
    run_members(rt.alloc(), file, &mut asked, &mut out)?;
    if tell_missing(rt, &shown, &asked) {
        Ok(ExitCode::from(MISSING))
    } else {
        Ok(ExitCode::SUCCESS)
    }
}

/// Runs a command that shows a file. What it prints goes to standard output. A regular file is read
/// only as far as the command needs it.
#[inline(never)]
fn show(
    rt: &HostRuntime,
    command: Shown,
    file: &InputFiles<'_, HostRuntime>,
    max_bytes: u32,
    said: &Said,
) -> Result<(), ProgramFault> {
    let mut out = standard_output(rt, said);
    run_shown(rt.alloc(), command, file, max_bytes, &mut out)?;
    Ok(())
}

/// Prints what is said of a fault.
#[inline(never)]
fn explain(rt: &HostRuntime, page: &Page, said: &Said) -> Result<(), ProgramFault> {
    let text = format!(in rt.alloc(); "{page}")?;
    put_all(&mut standard_output(rt, said), text.as_bytes())?;
    Ok(())
}

/// Runs a command. Returns the exit status.
fn run(rt: &HostRuntime, line: &Line, said: &Said) -> Result<ExitCode, ProgramFault> {
    match &line.task {
        Task::Usage => put_all(&mut standard_output(rt, said), USAGE.as_bytes())?,
        Task::Explain(page) => explain(rt, page, said)?,
        Task::Show {
            shown,
            file,
            max_bytes,
        } => {
            let file = inputs_in(rt, slice::from_ref(file), *max_bytes, said);
            show(rt, *shown, &file, *max_bytes, said)?;
        }
        Task::Diff {
            compared,
            files,
            max_bytes,
        } => return compare(rt, &inputs_in(rt, files, *max_bytes, said), *compared, said),
        Task::Members {
            file,
            names,
            max_bytes,
        } => return tell(rt, &inputs_in(rt, file, *max_bytes, said), names, said),
        Task::Merge(task) => return merge(rt, task, said, line.is_verbose),
    }
    Ok(ExitCode::SUCCESS)
}

/// Reads the arguments.
fn line_of(rt: &HostRuntime) -> Result<Line, LineFault> {
    let arguments = arguments(rt)?;
    read_line(rt.alloc(), &arguments)
}

/// Runs a command, whose list of inputs is read first. Returns the exit status.
#[inline(never)]
fn run_line(rt: &HostRuntime, line: &mut Line, said: &Said) -> Result<ExitCode, Refusal> {
    if let Task::Merge(task) = &mut line.task {
        read_list(rt, task, line.is_verbose, said)?;
    }
    Ok(run(rt, line, said)?)
}

fn main(rt: HostRuntime) -> ExitCode {
    let _held = hold(&rt);
    let mut line = match line_of(&rt) {
        Ok(line) => line,
        Err(fault) => return refuse_line(&rt, &fault),
    };
    let said = Said::new();
    match run_line(&rt, &mut line, &said) {
        Ok(status) => status,
        Err(refusal) => refuse(&rt, &refusal, &line, &said),
    }
}
