//! For the test `tests/campaign`: runs the commands of the program on the files of many cases in
//! one process.
//!
//! Standard input has cases, one after the other. All numbers are u32, the lowest byte first. A
//! case is the number of its files (1 to 16), the limit and the block size of its merges, the
//! number of files in the first part of the list, and then each file: its length and its bytes.
//!
//! Standard output has a line for each run, and an empty line after each case. `runs` says which
//! runs a case has, and `line` what a line says. The status is 1 if standard input isn't a list of
//! cases. The cases before the fault still have their lines.
#![tactic(auto)]

mod case;
mod files;
mod line;
mod runs;

use byte_io::{In, Out, put_all, read_all};
use case::{Cursor, read_files, read_head};
use runs::push_case;
use std::io::writer;
use std::process::ExitCode;
use std::random::RandomSource;

/// Runs the next case, and prints its lines.
fn take_case<R: Print + AllocGlobal + RandomSource>(rt: &R, cursor: &mut Cursor<'_>) -> Option<()> {
    let head = read_head(cursor)?;
    let mut files = Vec::new(rt.alloc());
    read_files(cursor, head.count, &mut files)?;
    let mut text = String::new(rt.alloc());
    push_case(rt, &mut text, &files, &head)?;
    put_all(&mut Out::new(writer(rt)), text.as_bytes()).ok()
}

/// Runs all cases of standard input.
fn take_cases<R: Input + Print + AllocGlobal + RandomSource>(rt: &R) -> Option<()> {
    let batch = read_all(rt.alloc(), &mut In::new(rt.reader()), u32::MAX).ok()?;
    let mut cursor = Cursor::new(&batch);
    // A case has at least one byte.
    for _ in 0..batch.len() {
        if cursor.is_at_end() {
            break;
        }
        take_case(rt, &mut cursor)?;
    }
    Some(())
}

fn main(rt: HostRuntime) -> ExitCode {
    match take_cases(&rt) {
        Some(()) => ExitCode::SUCCESS,
        None => ExitCode::FAILURE,
    }
}
