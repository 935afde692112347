//! The arguments of the command line, as values.

ghost use Rattle.std.specs.Prelude.{◌≡◌, [], false};

use crate::fault::{LineFault, WrongWord};
use crate::index::read_index;
use crate::names;
use crate::words::{Kind, ShownCommand, What, command_named, program};
use clap::ArgMatches;
use error_help::{Page, last, page_of};
use output_words::push_quoted;
use pdb_info::Settings;
use run_options::{GuidChoice, Making, OnRefused, Scope, Shown};
use std::alloc::{AllocError, Global};
use uuid::Uuid;

/// What is printed where there are no arguments.
pub const USAGE: &str = "usage: pdbmerge COMMAND [WORDS]\n";

/// The limit of `merge` where its arguments give none, in bytes.
const LIMIT: u32 = 1_073_741_824;

/// The size of a block where the arguments of `merge` give none, in bytes.
const BLOCK_SIZE: u32 = 4096;

/// What `--guid` takes.
const GUID: &str = "a GUID, as 00112233-4455-6677-8899-aabbccddeeff, or the word types";

/// What `explain` takes.
const PAGE_NUMBER: &str = last!("the number of a fault, from 1 to ");

/// The greatest number of bytes of a file or a stream where the arguments give none: no limit.
const MAX_BYTES: u32 = u32::MAX;

/// The paths of more inputs: the file that has them, and the byte at the end of each.
#[derive(Debug, Drop)]
pub struct PathList {
    /// The path of the list; `-` stands for standard input.
    pub path: String,
    /// A line feed, or 0.
    pub end: u8,
}

/// `merge --guid G --age N [--limit L] [--block-size B] [--max-bytes N] [--files-from LIST] [-0]
/// [--map MAP] [--progress] [--no-clobber | --replace] [--skip-refused] OUT IN...`
#[derive(Debug, Drop)]
pub struct Merging {
    pub settings: Settings,
    /// Which GUID OUT has.
    pub guid: GuidChoice,
    pub out: String,
    pub inputs: Vec<String>,
    pub list: Option<PathList>,
    /// The file for the maps of the inputs.
    pub map: Option<String>,
    pub shows_progress: bool,
    /// How OUT and the file for the maps are made.
    pub making: Making,
    /// What becomes of an input that is refused.
    pub refused: OnRefused,
    pub max_bytes: u32,
}

/// What is compared of two files.
#[derive(Clone, Copy, Debug, PartialEq, Eq)]
pub enum Compared {
    /// All types, or those where the difference begins.
    Types(Scope),
    /// The definitions, with their members.
    Members,
}

/// A command with its arguments as values.
#[derive(Debug, Drop)]
pub enum Task {
    /// There are no arguments.
    Usage,
    /// A command that reads one file: its name, as `types [--max-bytes N] FILE`, and for `record`
    /// an INDEX after the file.
    Show {
        shown: Shown,
        file: String,
        max_bytes: u32,
    },
    /// `diff [--origins | --members] [--max-bytes N] A B`
    Diff {
        compared: Compared,
        files: Vec<String>,
        max_bytes: u32,
    },
    /// `members [--max-bytes N] FILE [NAME...]`: the file, and what is asked for.
    Members {
        file: Vec<String>,
        names: Vec<String>,
        max_bytes: u32,
    },
    /// `merge`, with its arguments.
    Merge(Merging),
    /// `explain N`
    Explain(Page),
}

/// What the arguments ask for.
#[derive(Debug, Drop)]
pub struct Line {
    /// The command.
    pub task: Task,
    /// Whether more is said after a refusal.
    pub is_verbose: bool,
}

/// What an argument takes that is any number of four bytes.
const NUMBER: &str = "a number up to 4294967295";

/// The age of a file.
const AGE: Number = Number {
    name: names::AGE,
    word: "--age",
    wanted: NUMBER,
};

/// How many bytes the types may have together.
const OF_LIMIT: Number = Number {
    name: names::LIMIT,
    word: "--limit",
    wanted: "a number up to 1073741824",
};

/// How many bytes a block has.
const OF_BLOCKS: Number = Number {
    name: names::BLOCK_SIZE,
    word: "--block-size",
    wanted: "512, 1024, 2048, 4096, 8192, 16384 or 32768",
};

/// The greatest number of bytes of a file or a stream.
const MAX: Number = Number {
    name: names::MAX_BYTES,
    word: "--max-bytes",
    wanted: NUMBER,
};

/// Whether more is to be said after a refusal.
fn is_verbose(arguments: &ArgMatches<'_>) -> bool {
    arguments.get_flag(names::VERBOSE)
}

/// The fault of an argument that has no value that its command can use. It says which argument
/// this is only where more is to be said.
fn wrong(arguments: &ArgMatches<'_>, argument: &'static str, wanted: &'static str) -> LineFault {
    if is_verbose(arguments) {
        LineFault::Word(Some(WrongWord::Value { argument, wanted }))
    } else {
        LineFault::Word(None)
    }
}

/// A copy of the argument that has a name.
fn argument_of(
    alloc: Global,
    arguments: &ArgMatches<'_>,
    name: &'static str,
) -> Result<String, LineFault> {
    match arguments.get_str(name) {
        Some(argument) => Ok(String::from_str(alloc, argument)?),
        None => Err(wrong(arguments, name, "a value")),
    }
}

/// What is wanted of the path of a file that is written. Elsewhere `-` stands for a stream.
const WRITTEN: &str = "a path; ./- is the file with the name -";

/// The path of a file that is written. `name` is that of its argument, and `word` how it stands in the
/// line.
fn written_path(
    alloc: Global,
    arguments: &ArgMatches<'_>,
    name: &'static str,
    word: &'static str,
) -> Result<String, LineFault> {
    let path = argument_of(alloc, arguments, name)?;
    if path.as_str() == "-" {
        return Err(wrong(arguments, word, WRITTEN));
    }
    Ok(path)
}

/// An argument that is a number.
#[derive(Clone, Copy)]
struct Number {
    /// Its name among the arguments.
    name: &'static str,
    /// How it stands in the line.
    word: &'static str,
    /// What is wanted there.
    wanted: &'static str,
}

/// The number in an argument.
fn number_of(arguments: &ArgMatches<'_>, number: &Number) -> Result<u32, LineFault> {
    let given = arguments.get_str(number.name);
    let value = given.and_then(|text| text.parse().ok());
    value.ok_or(wrong(arguments, number.word, number.wanted))
}

/// The number in an argument, or `default` where there is no such argument.
fn number_or(arguments: &ArgMatches<'_>, number: &Number, default: u32) -> Result<u32, LineFault> {
    if arguments.contains_id(number.name) {
        number_of(arguments, number)
    } else {
        Ok(default)
    }
}

/// The greatest number of bytes of a file or a stream that is read.
fn max_bytes_of(arguments: &ArgMatches<'_>) -> Result<u32, LineFault> {
    number_or(arguments, &MAX, MAX_BYTES)
}

/// Where the GUID of the file that is written comes from, and the GUID that is given.
fn guid_of(arguments: &ArgMatches<'_>) -> Result<(GuidChoice, Uuid), LineFault> {
    match arguments.get_str(names::GUID) {
        Some("types") => Ok((GuidChoice::OfTypes, Uuid::nil())),
        given => match given.map(Uuid::parse_str) {
            Some(Ok(guid)) => Ok((GuidChoice::Given, guid)),
            _ => Err(wrong(arguments, "--guid", GUID)),
        },
    }
}

/// The settings of the file that is written.
fn settings_of(arguments: &ArgMatches<'_>, guid: Uuid) -> Result<Settings, LineFault> {
    let age = number_of(arguments, &AGE)?;
    let limit = number_or(arguments, &OF_LIMIT, LIMIT)?;
    let block_size = number_or(arguments, &OF_BLOCKS, BLOCK_SIZE)?;
    if LIMIT < limit {
        return Err(wrong(arguments, OF_LIMIT.word, OF_LIMIT.wanted));
    }
    match Settings::new(guid, age, limit, block_size) {
        Some(settings) => Ok(settings),
        None => Err(wrong(arguments, OF_BLOCKS.word, OF_BLOCKS.wanted)),
    }
}

/// Copies of all arguments that have a name.
fn all_of(
    alloc: Global,
    arguments: &ArgMatches<'_>,
    name: &'static str,
) -> Result<Vec<String>, LineFault> {
    let mut all = Vec::new(alloc);
    if let Some(given) = arguments.get_strs(name) {
        for argument in given {
            all.push(String::from_str(alloc, argument)?)?;
        }
    }
    Ok(all)
}

/// The list of the paths of more files, where there is one. Only such a list has ends of lines.
fn list_of(alloc: Global, arguments: &ArgMatches<'_>) -> Result<Option<PathList>, LineFault> {
    let Some(path) = arguments.get_str(names::FILES_FROM) else {
        if arguments.get_flag(names::NULL) {
            return Err(wrong(arguments, "--null", "--files-from"));
        }
        return Ok(None);
    };
    let end = if arguments.get_flag(names::NULL) {
        0
    } else {
        b'\n'
    };
    let path = String::from_str(alloc, path)?;
    Ok(Some(PathList { path, end }))
}

/// The path of the file for the maps, where there is one.
fn map_of(alloc: Global, arguments: &ArgMatches<'_>) -> Result<Option<String>, LineFault> {
    if arguments.contains_id(names::MAP) {
        Ok(Some(written_path(alloc, arguments, names::MAP, "--map")?))
    } else {
        Ok(None)
    }
}

/// How the files of a merge are made.
fn making_of(arguments: &ArgMatches<'_>) -> Making {
    if arguments.get_flag(names::NO_CLOBBER) {
        Making::New
    } else if arguments.get_flag(names::REPLACE) {
        Making::Replace
    } else {
        Making::Overwrite
    }
}

/// What becomes of an input that is refused.
fn refused_of(arguments: &ArgMatches<'_>) -> OnRefused {
    if arguments.get_flag(names::SKIP_REFUSED) {
        OnRefused::Skip
    } else {
        OnRefused::Stop
    }
}

/// What `merge` is asked for.
fn merging_of(alloc: Global, arguments: &ArgMatches<'_>) -> Result<Merging, LineFault> {
    let (choice, guid) = guid_of(arguments)?;
    Ok(Merging {
        settings: settings_of(arguments, guid)?,
        guid: choice,
        out: written_path(alloc, arguments, names::OUT, names::OUT)?,
        inputs: all_of(alloc, arguments, names::IN)?,
        list: list_of(alloc, arguments)?,
        map: map_of(alloc, arguments)?,
        shows_progress: arguments.get_flag(names::PROGRESS),
        making: making_of(arguments),
        refused: refused_of(arguments),
        max_bytes: max_bytes_of(arguments)?,
    })
}

/// The files that these arguments name.
fn files_of(
    alloc: Global,
    arguments: &ArgMatches<'_>,
    names: &[&'static str],
) -> Result<Vec<String>, LineFault> {
    let mut files = Vec::new(alloc);
    for name in names {
        files.push(argument_of(alloc, arguments, name)?)?;
    }
    Ok(files)
}

/// What a command shows of a file.
fn shown_of(command: &ShownCommand, arguments: &ArgMatches<'_>) -> Result<Shown, LineFault> {
    match command.what {
        What::Whole(shown) => Ok(shown),
        What::Record => match arguments.get_str(names::INDEX).and_then(read_index) {
            Some(index) => Ok(Shown::Record(index)),
            None => Err(wrong(arguments, names::INDEX, "a type index, as 0x1000")),
        },
    }
}

/// The page of the fault whose number is the argument of `explain`.
fn page_in(arguments: &ArgMatches<'_>) -> Result<Page, LineFault> {
    let number = arguments
        .get_str(names::NUMBER)
        .and_then(|word| word.parse().ok());
    let page = number.and_then(page_of);
    page.ok_or(wrong(arguments, names::NUMBER, PAGE_NUMBER))
}

/// What `diff` compares.
fn compared_by(arguments: &ArgMatches<'_>) -> Compared {
    if arguments.get_flag(names::MEMBERS) {
        Compared::Members
    } else if arguments.get_flag(names::ORIGINS) {
        Compared::Types(Scope::Origins)
    } else {
        Compared::Types(Scope::All)
    }
}

/// What the command with this name is asked for.
fn task_of(alloc: Global, name: &str, arguments: &ArgMatches<'_>) -> Result<Task, LineFault> {
    match command_named(name) {
        Some(Kind::Merge) => Ok(Task::Merge(merging_of(alloc, arguments)?)),
        Some(Kind::Diff) => Ok(Task::Diff {
            compared: compared_by(arguments),
            files: files_of(alloc, arguments, &[names::FIRST, names::SECOND])?,
            max_bytes: max_bytes_of(arguments)?,
        }),
        Some(Kind::Members) => Ok(Task::Members {
            file: files_of(alloc, arguments, &[names::FILE])?,
            names: all_of(alloc, arguments, names::NAME)?,
            max_bytes: max_bytes_of(arguments)?,
        }),
        Some(Kind::Show(command)) => Ok(Task::Show {
            shown: shown_of(command, arguments)?,
            file: argument_of(alloc, arguments, names::FILE)?,
            max_bytes: max_bytes_of(arguments)?,
        }),
        Some(Kind::Explain) => Ok(Task::Explain(page_in(arguments)?)),
        // The parser takes the names of these commands alone.
        None => Err(LineFault::Word(None)),
    }
}

/// The words of a line that asks for help, without the option that every command has. It adds
/// nothing there, and the parser's own command `help` takes no options.
fn without_verbose(alloc: Global, arguments: &[String]) -> Result<Vec<&str>, AllocError> {
    let mut words = Vec::new(alloc);
    for argument in arguments {
        let word = argument.as_str();
        if word != "-v" && word != "--verbose" {
            words.push(word)?;
        }
    }
    Ok(words)
}

/// Refuses a line that asks for help: the error has the text to print.
#[inline(never)]
fn help(alloc: Global, arguments: &[String]) -> Result<Line, LineFault> {
    let words = without_verbose(alloc, arguments)?;
    program(alloc)?.try_get_matches_from(&words)?;
    Err(LineFault::Word(None))
}

/// Whether a text has more than printable ASCII: what a terminal may act upon.
fn is_odd(text: &str) -> bool {
    text.bytes().any(|byte| !matches!(byte, b' '..=b'~'))
}

/// An argument as it is printed: all that is not printable ASCII is written by its number.
fn printable(alloc: Global, argument: &str) -> Result<String, AllocError> {
    if !is_odd(argument) {
        return String::from_str(alloc, argument);
    }
    let mut quoted = String::new(alloc);
    push_quoted(&mut quoted, argument.as_bytes())?;
    // The text between the quotes.
    let text = quoted.as_str().strip_prefix("\"").unwrap_or("");
    String::from_str(alloc, text.strip_suffix("\"").unwrap_or(text))
}

/// The arguments as they are printed.
fn all_printable(alloc: Global, arguments: &[String]) -> Result<Vec<String>, AllocError> {
    let mut all = Vec::with_capacity(alloc, arguments.len())?;
    for argument in arguments {
        all.push(printable(alloc, argument.as_str())?)?;
    }
    Ok(all)
}

/// The fault of arguments that are refused with this error. Its text has them as they are printed: the
/// error is the one of their printable forms.
#[inline(never)]
fn refused(alloc: Global, arguments: &[String], error: clap::Error) -> LineFault {
    if !error.use_stderr() || !arguments.iter().any(|argument| is_odd(argument.as_str())) {
        return LineFault::from(error);
    }
    match refused_as_printed(alloc, arguments) {
        Ok(()) => LineFault::Word(None),
        Err(fault) => fault,
    }
}

/// Reads the printable forms of arguments, which are refused as the arguments are.
#[inline(never)]
fn refused_as_printed(alloc: Global, arguments: &[String]) -> Result<(), LineFault> {
    let printed = all_printable(alloc, arguments)?;
    program(alloc)?.try_get_matches_from(&printed)?;
    Ok(())
}

/// Reads the arguments of a command line, which come without the program's name.
pub fn read_line(alloc: Global, arguments: &[String]) -> Result<Line, LineFault>
    ensures usage { arguments.now ≡ [] →
        result ≡ Ok (record { task = Task.Usage; is_verbose = false }) }
{
    if arguments.is_empty() {
        return Ok(Line {
            task: Task::Usage,
            is_verbose: false,
        });
    }
    if arguments[0].as_str() == "help" {
        return help(alloc, arguments);
    }
    let matches = match program(alloc)?.try_get_matches_from(arguments) {
        Ok(matches) => matches,
        Err(error) => return Err(refused(alloc, arguments, error)),
    };
    match matches.subcommand() {
        Some((name, arguments)) => Ok(Line {
            task: task_of(alloc, name, arguments)?,
            is_verbose: is_verbose(arguments),
        }),
        None => Err(LineFault::Word(None)),
    }
}
