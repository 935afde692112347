//! The runs of a case.
//!
//! For each file: `records`, `record` (of 0x1000), `types`, `check`, `info`, `streams` and
//! `members`, and `alone`, the merge of the file alone. Then for all files: `list`, their merge; `reversed`, in
//! reverse order; `twice`, the list twice; `again`, what `list` wrote and then the list; `first`
//! and `second`, the two parts of the list; and `parts`, the merge of what these two wrote.
//!
//! Two lines follow `alone` and `list`, on the file that the merge wrote: the merge of that file
//! alone (`alone-itself`, `itself`), and the command `check` (`alone-written`, `written`). A run on
//! a file that was not written has no line.

use crate::case::Head;
use crate::files::Positioned;
use crate::line::{push_end, push_fault, push_words, push_written};
use byte_io::{In, Out};
use merge_commands::run_merge;
use pdb_info::Settings;
use pdb_merge::MergeFault;
use show_commands::{
    RunFault, run_check, run_info, run_members, run_record, run_records, run_streams, run_types,
};
use std::alloc::Global;
use std::hash::RandomState;
use std::random::RandomSource;

/// The type index that `record` is asked for.
const INDEX: u32 = 0x1000;

/// A command that shows something of a file.
#[derive(Clone, Copy, Debug, PartialEq, Eq)]
enum Command {
    Records,
    Record,
    Types,
    Check,
    Info,
    Streams,
    Members,
}

impl Command {
    /// Its name in a line.
    fn name(self) -> &'static str {
        match self {
            Command::Records => "records",
            Command::Record => "record",
            Command::Types => "types",
            Command::Check => "check",
            Command::Info => "info",
            Command::Streams => "streams",
            Command::Members => "members",
        }
    }
}

/// All commands that show something of a file.
const COMMANDS: [Command; 7] = [
    Command::Records,
    Command::Record,
    Command::Types,
    Command::Check,
    Command::Info,
    Command::Streams,
    Command::Members,
];

/// Shows all definitions of a file. The fault doesn't count the file, as that of the program.
fn show_members(alloc: Global, file: &[u8], out: &mut Out<&mut Vec<u8>>) -> Result<(), RunFault> {
    let one: [&[u8]; 1] = [file];
    match run_members(alloc, &Positioned::new(&one), &mut [], out) {
        Err(RunFault::Merge(MergeFault::Refused { fault, .. })) => Err(RunFault::from(fault)),
        answer => answer,
    }
}

/// Runs a command on a file.
fn run(
    alloc: Global,
    command: Command,
    file: &[u8],
    written: &mut Vec<u8>,
) -> Result<(), RunFault> {
    let mut input = In::new(file);
    let mut out = Out::new(written);
    match command {
        Command::Records => run_records(alloc, &mut input, u32::MAX, &mut out),
        Command::Record => run_record(alloc, &mut input, u32::MAX, INDEX, &mut out),
        Command::Types => run_types(alloc, &mut input, u32::MAX, &mut out),
        Command::Check => run_check(alloc, &mut input, u32::MAX, &mut out),
        Command::Info => run_info(alloc, &mut input, u32::MAX, &mut out),
        Command::Streams => run_streams(alloc, &mut input, u32::MAX, &mut out),
        Command::Members => show_members(alloc, file, &mut out),
    }
}

/// Appends the line of a command on a file.
fn push_run(
    alloc: Global,
    text: &mut String,
    name: &str,
    command: Command,
    file: &[u8],
) -> Option<()> {
    let mut written = Vec::new(alloc);
    match run(alloc, command, file, &mut written) {
        Ok(()) => {
            push_written(text, name, &written)?;
            if command == Command::Check {
                push_words(text, &written)?;
            }
            push_end(text)
        }
        Err(fault) => push_fault(text, name, &fault, written.is_empty()),
    }
}

/// Appends the lines of all commands on a file.
fn push_commands(alloc: Global, text: &mut String, file: &[u8]) -> Option<()> {
    for command in COMMANDS {
        push_run(alloc, text, command.name(), command, file)?;
    }
    Some(())
}

/// Appends the line of a merge: the file that was written, and the words of the report.
fn push_report(text: &mut String, name: &str, written: &[u8], report: &[u8]) -> Option<()> {
    push_written(text, name, written)?;
    push_words(text, report)?;
    push_end(text)
}

/// Merges files, and appends the line. Returns the file that was written; it has no bytes where the
/// merge was refused.
fn push_merge<R: AllocGlobal + RandomSource>(
    rt: &R,
    text: &mut String,
    name: &str,
    files: &[&[u8]],
    settings: &Settings,
) -> Option<Vec<u8>> {
    let hasher = RandomState::new(rt).ok()?;
    let mut written = Vec::new(rt.alloc());
    let mut report = Vec::new(rt.alloc());
    let merged = run_merge(
        rt.alloc(),
        Positioned::new(files),
        settings,
        &mut Out::new(&mut written),
        &mut Out::new(&mut report),
        hasher,
    );
    match merged {
        Ok(()) => push_report(text, name, &written, &report)?,
        Err(fault) => {
            let none_written = written.is_empty() && report.is_empty();
            push_fault(text, name, &fault, none_written)?;
        }
    }
    Some(written)
}

/// Appends the lines of what a merge wrote: its own merge, and `check`.
fn push_merged<R: AllocGlobal + RandomSource>(
    rt: &R,
    text: &mut String,
    names: [&str; 2],
    settings: &Settings,
    written: &[u8],
) -> Option<()> {
    if written.is_empty() {
        return Some(());
    }
    let one: [&[u8]; 1] = [written];
    push_merge(rt, text, names[0], &one, settings)?;
    push_run(rt.alloc(), text, names[1], Command::Check, written)
}

/// Appends the lines of each file.
fn push_files<R: AllocGlobal + RandomSource>(
    rt: &R,
    text: &mut String,
    files: &[&[u8]],
    settings: &Settings,
) -> Option<()> {
    for file in files {
        push_commands(rt.alloc(), text, *file)?;
        let one: [&[u8]; 1] = [*file];
        let written = push_merge(rt, text, "alone", &one, settings)?;
        push_merged(
            rt,
            text,
            ["alone-itself", "alone-written"],
            settings,
            &written,
        )?;
    }
    Some(())
}

/// The files in reverse order.
fn reversed<'a>(alloc: Global, files: &[&'a [u8]]) -> Option<Vec<&'a [u8]>> {
    let mut others = Vec::new(alloc);
    for file in files.iter().rev() {
        others.push(*file).ok()?;
    }
    Some(others)
}

/// Two lists of files as one.
fn joined<'a>(alloc: Global, first: &[&'a [u8]], second: &[&'a [u8]]) -> Option<Vec<&'a [u8]>> {
    let mut both = Vec::new(alloc);
    both.extend_from_slice(first).ok()?;
    both.extend_from_slice(second).ok()?;
    Some(both)
}

/// Merges two parts of the list apart, and then what was written.
fn push_parts<R: AllocGlobal + RandomSource>(
    rt: &R,
    text: &mut String,
    first: &[&[u8]],
    second: &[&[u8]],
    settings: &Settings,
) -> Option<()> {
    let one = push_merge(rt, text, "first", first, settings)?;
    let other = push_merge(rt, text, "second", second, settings)?;
    if one.is_empty() || other.is_empty() {
        return Some(());
    }
    let both: [&[u8]; 2] = [&one, &other];
    push_merge(rt, text, "parts", &both, settings)?;
    Some(())
}

/// Merges the list in other ways: in reverse order, each file twice, and what its merge wrote
/// before it.
fn push_others<R: AllocGlobal + RandomSource>(
    rt: &R,
    text: &mut String,
    files: &[&[u8]],
    settings: &Settings,
    written: &[u8],
) -> Option<()> {
    let turned = reversed(rt.alloc(), files)?;
    push_merge(rt, text, "reversed", &turned, settings)?;
    let doubled = joined(rt.alloc(), files, files)?;
    push_merge(rt, text, "twice", &doubled, settings)?;
    if written.is_empty() {
        return Some(());
    }
    let one: [&[u8]; 1] = [written];
    let grown = joined(rt.alloc(), &one, files)?;
    push_merge(rt, text, "again", &grown, settings)?;
    Some(())
}

/// Appends the lines of a case, and an empty line.
pub fn push_case<R: AllocGlobal + RandomSource>(
    rt: &R,
    text: &mut String,
    files: &[&[u8]],
    head: &Head,
) -> Option<()> {
    let settings = &head.settings;
    push_files(rt, text, files, settings)?;
    let written = push_merge(rt, text, "list", files, settings)?;
    push_merged(rt, text, ["itself", "written"], settings, &written)?;
    push_others(rt, text, files, settings, &written)?;
    // The head was read with a cut of at most the number of files.
    let cut = files.len().min(head.cut as usize);
    push_parts(rt, text, &files[..cut], &files[cut..], settings)?;
    push_end(text)
}
