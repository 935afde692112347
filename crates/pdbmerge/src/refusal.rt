//! What the program says of a refusal.

use command_line::{Line, LineFault, Merging, Task};
use host_files::{Place, ProgramFault, Said, TakenStreams};
use output_words::push_quoted;
use show_commands::RunFault;
use std::alloc::AllocError;
use std::io::{self, Eprint, Print};
use std::process::ExitCode;
use std::rt::Files;

/// Why the program ends without having done what it was asked for.
#[derive(Drop)]
pub enum Refusal {
    /// The arguments, or the paths of a list, can't be used.
    Line(LineFault),
    /// The list of more inputs can't be read.
    List(ProgramFault),
    /// The command was refused.
    Program(ProgramFault),
}

impl From<ProgramFault> for Refusal {
    fn from(fault: ProgramFault) -> Refusal {
        Refusal::Program(fault)
    }
}

/// Prints why the arguments are refused, or the help that they ask for.
fn print_line_fault<R: Print + Eprint>(rt: &R, fault: &LineFault) -> io::Result<()> {
    match fault {
        LineFault::Refused(error) => error.print(rt),
        LineFault::Word(wrong) => {
            eprintln!(rt; "pdbmerge: wrong word")?;
            match wrong {
                Some(wrong) => eprintln!(rt; "{wrong}"),
                None => Ok(()),
            }
        }
        LineFault::Memory => eprintln!(rt; "pdbmerge: 33 Memory"),
    }
}

/// Prints why the arguments are refused, or the help that they ask for. Returns the exit status.
#[inline(never)]
pub fn refuse_line<R: Print + Eprint>(rt: &R, fault: &LineFault) -> ExitCode {
    match print_line_fault(rt, fault) {
        // Help that was not written whole is refused as any other text is.
        Err(_) if fault.status() == 0 => print_fault(rt, &RunFault::Write.into()),
        _ => ExitCode::from(fault.status()),
    }
}

/// Prints a fault, and returns the exit status for it.
fn print_fault<R: Eprint>(rt: &R, fault: &ProgramFault) -> ExitCode {
    // Where even this cannot be printed, only the exit status is left.
    let _ = eprintln!(rt; "pdbmerge: {fault}");
    ExitCode::FAILURE
}

/// The inputs that a fault counts.
fn inputs_of(task: &Task) -> &[String] {
    match task {
        Task::Merge(task) => &task.inputs,
        Task::Diff { files, .. } => files,
        _ => &[],
    }
}

/// A path or a name in quotes, as names are printed: it may hold what a terminal would act upon.
pub fn quoted<R: AllocGlobal>(rt: &R, path: &str) -> Result<String, AllocError> {
    let mut text = String::new(rt.alloc());
    push_quoted(&mut text, path.as_bytes())?;
    Ok(text)
}

/// Prints which input a fault names.
fn name_input<R: Eprint + AllocGlobal>(
    rt: &R,
    fault: &ProgramFault,
    task: &Task,
) -> io::Result<()> {
    if let Some(file) = fault.file() {
        if let Some(path) = inputs_of(task).get(file) {
            eprintln!(rt; "file {file} is {}", quoted(rt, path.as_str())?)?;
        }
    }
    Ok(())
}

/// Prints which file the list of more inputs is.
fn name_list<R: Eprint + AllocGlobal>(rt: &R, task: &Task) -> io::Result<()> {
    if let Task::Merge(task) = task {
        if let Some(list) = &task.list {
            eprintln!(rt; "LIST is {}", quoted(rt, list.path.as_str())?)?;
        }
    }
    Ok(())
}

/// The path of the file that the system refused. `None` for standard output.
fn refused_path<'a>(place: Place, fault: &ProgramFault, task: &'a Task) -> Option<&'a str> {
    let path = match (place, task) {
        (Place::Out, Task::Merge(task)) => &task.out,
        (Place::Map, Task::Merge(task)) => task.map.as_ref()?,
        (Place::List, Task::Merge(task)) => &task.list.as_ref()?.path,
        (Place::Input, Task::Show { file, .. }) => file,
        (Place::Input, Task::Members { file, .. }) => file.first()?,
        (Place::Input, _) => inputs_of(task).get(fault.file()?)?,
        _ => return None,
    };
    Some(path.as_str())
}

/// Whether the system refused something, where a command was refused with this fault.
fn is_of_system(fault: &ProgramFault) -> bool {
    matches!(fault.number(), 36 | 37 | 40 | 41)
}

/// The system's words for an error, without the number that Rust adds to them.
fn words_of<R: AllocGlobal>(rt: &R, error: &io::Error) -> Result<String, AllocError> {
    let text = format!(in rt.alloc(); "{error}")?;
    match text.as_str().split_once(" (os error ") {
        Some((words, _)) => String::from_str(rt.alloc(), words),
        None => Ok(text),
    }
}

/// Prints what the system said of the file that it refused.
fn say_why<R: Eprint + AllocGlobal>(
    rt: &R,
    fault: &ProgramFault,
    task: &Task,
    said: &Said,
) -> io::Result<()> {
    match said.last() {
        Some((place, error)) if is_of_system(fault) => {
            let words = words_of(rt, &error)?;
            match refused_path(place, fault, task) {
                Some(path) => eprintln!(rt; "{}: {words}", quoted(rt, path)?),
                None => eprintln!(rt; "standard output: {words}"),
            }
        }
        _ => Ok(()),
    }
}

/// Prints where more is said of a fault.
fn name_page<R: Eprint>(rt: &R, fault: &ProgramFault) -> io::Result<()> {
    eprintln!(rt; "pdbmerge explain {} says more", fault.number())
}

/// Prints which file a refusal is about, why the system refused it, and where more is said of the fault.
#[inline(never)]
fn say_more<R: Eprint + AllocGlobal>(
    rt: &R,
    refusal: &Refusal,
    task: &Task,
    said: &Said,
) -> io::Result<()> {
    match refusal {
        Refusal::Line(_) => Ok(()),
        Refusal::List(fault) => {
            name_list(rt, task)?;
            say_why(rt, fault, task, said)?;
            name_page(rt, fault)
        }
        Refusal::Program(fault) => {
            name_input(rt, fault, task)?;
            say_why(rt, fault, task, said)?;
            name_page(rt, fault)
        }
    }
}

/// The standard streams that a merge writes its files into.
#[inline(never)]
pub fn taken_by<R: Files>(rt: &R, task: &Merging) -> TakenStreams {
    let map = match &task.map {
        Some(map) => Some(map.as_str()),
        None => None,
    };
    TakenStreams::of(rt, task.out.as_str(), map)
}

/// Whether standard error is a file that a command writes: then the lines of a refusal would spoil it.
fn is_error_taken<R: Files>(rt: &R, task: &Task) -> bool {
    match task {
        Task::Merge(task) => taken_by(rt, task).error,
        Task::Usage
        | Task::Show { .. }
        | Task::Diff { .. }
        | Task::Members { .. }
        | Task::Explain(_) => false,
    }
}

/// The exit status after a refusal.
fn status_of(refusal: &Refusal) -> ExitCode {
    match refusal {
        Refusal::Line(fault) => ExitCode::from(fault.status()),
        Refusal::List(_) | Refusal::Program(_) => ExitCode::FAILURE,
    }
}

/// Prints why a command was refused, and more where the arguments ask for it. Returns the exit
/// status. Nothing is printed where standard error is OUT or MAP.
#[inline(never)]
pub fn refuse<R: Print + Eprint + AllocGlobal + Files>(
    rt: &R,
    refusal: &Refusal,
    line: &Line,
    said: &Said,
) -> ExitCode {
    if is_error_taken(rt, &line.task) {
        return status_of(refusal);
    }
    let status = match refusal {
        Refusal::Line(fault) => refuse_line(rt, fault),
        Refusal::List(fault) | Refusal::Program(fault) => print_fault(rt, fault),
    };
    if line.is_verbose {
        let _ = say_more(rt, refusal, &line.task, said);
    }
    status
}
