//! The words of the command line: commands, options and arguments, and their help.

use crate::names;
use clap::{Arg, ArgAction, Command};
use error_help::last;
use run_options::Shown;
use std::alloc::{AllocError, Global};

/// The head of the help text.
const ABOUT: &str = "pdbmerge 0.2.0: merges the types of PDB files, and shows what such files hold";

/// The version, as `--version` prints it after the name of the program.
const VERSION: &str = "0.2.0";

/// The name of the command that merges.
const MERGE_NAME: &str = "merge";

/// The name of the command that compares.
const DIFF_NAME: &str = "diff";

/// The name of the command that says what a fault means.
const EXPLAIN_NAME: &str = "explain";

/// What `merge` does.
const MERGE: &str = "Merges the types of files: the same types give the same bytes";

/// What `diff` does.
const DIFF: &str = "Shows types that only one file has: A's after '- ', B's after '+ '";

/// The name of the command that shows definitions.
const MEMBERS_NAME: &str = "members";

/// What `members` does.
const MEMBERS: &str = "Shows structures, unions and enumerations, with their members";

/// What `explain` does.
const EXPLAIN: &str = "Shows what a fault means, what makes it, and what to do";

/// What `explain` takes.
const PAGE_NUMBER: &str = last!("The number of the fault, from 1 to ");

/// What a command shows of a file.
pub enum What {
    /// This, which needs no argument but the file.
    Whole(Shown),
    /// The record whose type index is the argument after the file.
    Record,
}

/// A command that reads one file and shows something of it.
pub struct ShownCommand {
    name: &'static str,
    about: &'static str,
    /// What it shows.
    pub what: What,
}

/// A command of the program.
pub enum Kind {
    Merge,
    Diff,
    Members,
    Show(ShownCommand),
    Explain,
}

impl Kind {
    /// The word of the line that names the command.
    fn name(&self) -> &'static str {
        match self {
            Kind::Merge => MERGE_NAME,
            Kind::Diff => DIFF_NAME,
            Kind::Members => MEMBERS_NAME,
            Kind::Show(shown) => shown.name,
            Kind::Explain => EXPLAIN_NAME,
        }
    }
}

/// The commands, in the order of the help.
static SUBCOMMANDS: [Kind; 10] = [
    Kind::Merge,
    Kind::Diff,
    Kind::Members,
    Kind::Show(ShownCommand {
        name: "records",
        about: "Shows each type record: its type index, its kind, its size in bytes",
        what: What::Whole(Shown::Records),
    }),
    Kind::Show(ShownCommand {
        name: "record",
        about: "Shows one type record: its bytes, what it names, what it is called",
        what: What::Record,
    }),
    Kind::Show(ShownCommand {
        name: "types",
        about: "Shows each type record: leaf, size, the types that it names, name",
        what: What::Whole(Shown::Types),
    }),
    Kind::Show(ShownCommand {
        name: "check",
        about: "Shows whether the types can be trusted, and how many there are",
        what: What::Whole(Shown::Check),
    }),
    Kind::Show(ShownCommand {
        name: "streams",
        about: "Shows the container: its blocks, and each stream with size and blocks",
        what: What::Whole(Shown::Streams),
    }),
    Kind::Show(ShownCommand {
        name: "info",
        about: "Shows version, signature, age, GUID, named streams and feature codes",
        what: What::Whole(Shown::Info),
    }),
    Kind::Explain,
];

/// The command with this name, if there is one.
pub fn command_named(name: &str) -> Option<&'static Kind> {
    for which in &SUBCOMMANDS {
        if which.name() == name {
            return Some(which);
        }
    }
    None
}

/// An option: one that takes a value, or one that does not.
struct Choice {
    name: &'static str,
    short: Option<char>,
    value: Option<&'static str>,
    help: &'static str,
    is_required: bool,
}

/// The option of every command that reads: what limits its reading.
const MAX: Choice = Choice {
    name: names::MAX_BYTES,
    short: None,
    value: Some("N"),
    help: "The most bytes of a file, and of a stream that is{n}read; up to 4294967295",
    is_required: false,
};

/// The option of every command: what it says after a refusal.
const VERBOSE: Choice = Choice {
    name: names::VERBOSE,
    short: Some('v'),
    value: None,
    help: "After a refusal, also says which file or word it is{n}about, why the system refused, and where more is said",
    is_required: false,
};

/// The options of `merge`.
static OF_MERGE: [Choice; 12] = [
    Choice {
        name: names::GUID,
        short: None,
        value: Some("G"),
        help: "The GUID of the file that is written",
        is_required: true,
    },
    Choice {
        name: names::AGE,
        short: None,
        value: Some("N"),
        help: "Its age, a number up to 4294967295",
        is_required: true,
    },
    Choice {
        name: names::LIMIT,
        short: None,
        value: Some("L"),
        help: "The most bytes of all types together; the default,{n}and the greatest, is 1073741824",
        is_required: false,
    },
    Choice {
        name: names::BLOCK_SIZE,
        short: None,
        value: Some("B"),
        help: "The bytes of a block of the file: 512, 1024, 2048,{n}4096 (the default), 8192, 16384 or 32768",
        is_required: false,
    },
    MAX,
    Choice {
        name: names::FILES_FROM,
        short: None,
        value: Some("LIST"),
        help: "A file with the paths of more IN, one a line, or -{n}for standard input",
        is_required: false,
    },
    Choice {
        name: names::NULL,
        short: Some('0'),
        value: None,
        help: "The paths of LIST end with a NUL, as those of{n}find -print0 do",
        is_required: false,
    },
    Choice {
        name: names::MAP,
        short: None,
        value: Some("MAP"),
        help: "A file for a line for each record of the inputs: the{n}input, its type index, its new type index",
        is_required: false,
    },
    Choice {
        name: names::PROGRESS,
        short: None,
        value: None,
        help: "Writes to standard error how many inputs were read",
        is_required: false,
    },
    Choice {
        name: names::NO_CLOBBER,
        short: None,
        value: None,
        help: "Refuses an OUT or a MAP that is there: 41 Create",
        is_required: false,
    },
    Choice {
        name: names::SKIP_REFUSED,
        short: None,
        value: None,
        help: "Leaves out an IN with a fault of its own, and says so{n}on standard error; status 4 if any was left out",
        is_required: false,
    },
    VERBOSE,
];

/// How `merge` makes OUT where there is one.
static REPLACE: Choice = Choice {
    name: names::REPLACE,
    short: None,
    value: None,
    help: "Writes OUT and MAP under other names, which take{n}their places at the end: a refusal leaves the old",
    is_required: false,
};

/// What `diff` shows.
static ORIGINS: Choice = Choice {
    name: names::ORIGINS,
    short: None,
    value: None,
    help: "Only types whose own named types are all in the{n}other file: where the difference begins",
    is_required: false,
};

/// What `diff` shows in its place.
static CHANGED_MEMBERS: Choice = Choice {
    name: names::MEMBERS,
    short: None,
    value: None,
    help: "Which structures, unions and enumerations came, went{n}or changed, and in which members",
    is_required: false,
};

/// The options of a command that reads one file.
static OF_SHOWN: [Choice; 2] = [MAX, VERBOSE];

/// The options of `explain`.
static OF_EXPLAIN: [Choice; 1] = [VERBOSE];

/// The exit statuses, at the end of each help text.
const STATUSES: &str =
    "Exit status: 0 done; 1 refused, with one line on standard error that begins \
    with\n'pdbmerge: ' and the fault's number and name; 2 the arguments are wrong.";

/// More on the options of `merge`, and the exit statuses, at the end of its help text.
const MERGE_STATUSES: &str = "OUT comes first: an OUT that is there is written over.\n\
    With --guid types the GUID is made of the types.\n\n\
    Exit status: 0 done; 4 done, and an IN was left out; 1 refused, with one line on\n\
    standard error that begins with 'pdbmerge: ' and the fault's number and name; 2\n\
    the arguments are wrong.";

/// The exit statuses of `diff`, at the end of its help text.
const DIFF_STATUSES: &str =
    "With --members, files with the same structures, unions and enumerations have no\n\
    difference.\n\n\
    Exit status: 0 the files have the same types; 3 they differ; 1 refused, with\n\
    one line on standard error that begins with 'pdbmerge: ' and the fault's number\n\
    and name; 2 the arguments are wrong.";

/// More on the arguments of `members`, and the exit statuses, at the end of its help text.
const MEMBERS_STATUSES: &str =
    "A declaration is shown only where a NAME asks for it, and no definition has it.\n\n\
    Exit status: 0 done; 3 no type has a NAME, as standard error says; 1 refused,\n\
    with one line on standard error that begins with 'pdbmerge: ' and the fault's\n\
    number and name; 2 the arguments are wrong.";

// Commands and arguments are large values. Each is made by a function of its own, one at a time, so
// that the stack has few of them.

/// An option.
#[inline(never)]
fn option<'a>(alloc: Global, choice: &'a Choice) -> Arg<'a> {
    let arg = Arg::new(alloc, choice.name)
        .long(choice.name)
        .help(choice.help)
        .required(choice.is_required);
    let arg = match choice.short {
        Some(short) => arg.short(short),
        None => arg,
    };
    match choice.value {
        Some(value) => arg.value_name(value).action(ArgAction::Set),
        None => arg.action(ArgAction::SetTrue),
    }
}

/// The path of a file.
#[inline(never)]
fn path<'a>(alloc: Global, name: &'a str, help: &'a str) -> Arg<'a> {
    Arg::new(alloc, name)
        .help(help)
        .required(true)
        .action(ArgAction::Set)
}

/// The paths of the files that are merged. A list of paths stands for them too.
#[inline(never)]
fn inputs<'a>(alloc: Global) -> Result<Arg<'a>, AllocError> {
    Arg::new(alloc, names::IN)
        .help("The PDB files whose types are merged")
        .num_args(1..)
        .action(ArgAction::Append)
        .required_unless_present(names::FILES_FROM)
}

/// A command without its options and arguments. `end` stands at the end of its help.
#[inline(never)]
fn bare_command<'a>(alloc: Global, name: &'a str, about: &'a str, end: &'a str) -> Command<'a> {
    Command::new(alloc, name)
        .before_help(ABOUT)
        .about(about)
        .after_help(end)
}

/// A command with these options.
#[inline(never)]
fn with_options<'a>(
    alloc: Global,
    command: Command<'a>,
    options: &'a [Choice],
) -> Result<Command<'a>, AllocError> {
    let mut command = command;
    for choice in options {
        command = command.arg(option(alloc, choice))?;
    }
    Ok(command)
}

/// A command with its options. `end` stands at the end of its help.
#[inline(never)]
fn command<'a>(
    alloc: Global,
    name: &'a str,
    about: &'a str,
    options: &'a [Choice],
    end: &'a str,
) -> Result<Command<'a>, AllocError> {
    let command = bare_command(alloc, name, about, end);
    with_options(alloc, command, options)
}

/// A command that reads one file, with its arguments.
#[inline(never)]
fn with_file<'a>(
    alloc: Global,
    command: Command<'a>,
    what: &What,
) -> Result<Command<'a>, AllocError> {
    let command = command.arg(path(alloc, names::FILE, "The PDB file to read"))?;
    match what {
        What::Whole(_) => Ok(command),
        What::Record => command.arg(path(
            alloc,
            names::INDEX,
            "The type index of the record, as 0x1000",
        )),
    }
}

/// A command that reads one file and shows something of it.
#[inline(never)]
fn showing<'a>(alloc: Global, shown: &'a ShownCommand) -> Result<Command<'a>, AllocError> {
    let command = command(alloc, shown.name, shown.about, &OF_SHOWN, STATUSES)?;
    with_file(alloc, command, &shown.what)
}

/// The command that merges, with its arguments.
#[inline(never)]
fn with_inputs<'a>(alloc: Global, command: Command<'a>) -> Result<Command<'a>, AllocError> {
    let command = command.arg(path(alloc, names::OUT, "The PDB file to write"))?;
    command.arg(inputs(alloc)?)
}

/// The command that reads files and writes one file with their types.
#[inline(never)]
fn merging<'a>(alloc: Global) -> Result<Command<'a>, AllocError> {
    let command = command(alloc, MERGE_NAME, MERGE, &OF_MERGE, MERGE_STATUSES)?;
    let replace = option(alloc, &REPLACE).conflicts_with(names::NO_CLOBBER)?;
    with_inputs(alloc, command.arg(replace)?)
}

/// The command that compares, with its arguments.
#[inline(never)]
fn with_files<'a>(alloc: Global, command: Command<'a>) -> Result<Command<'a>, AllocError> {
    let command = command.arg(path(
        alloc,
        names::FIRST,
        "The PDB file whose own types are shown with '- '",
    ))?;
    command.arg(path(
        alloc,
        names::SECOND,
        "The PDB file whose own types are shown with '+ '",
    ))
}

/// The command that shows the types that only one of two files has.
#[inline(never)]
fn differing<'a>(alloc: Global) -> Result<Command<'a>, AllocError> {
    let command = bare_command(alloc, DIFF_NAME, DIFF, DIFF_STATUSES);
    let members = option(alloc, &CHANGED_MEMBERS).conflicts_with(ORIGINS.name)?;
    let command = command.arg(option(alloc, &ORIGINS))?.arg(members)?;
    with_files(alloc, with_options(alloc, command, &OF_SHOWN)?)
}

/// The names of the types that are shown.
#[inline(never)]
fn names<'a>(alloc: Global) -> Arg<'a> {
    Arg::new(alloc, names::NAME)
        .help("The name of a type that is shown, or its type index, as{n}0x1000; else all are")
        .num_args(1..)
        .action(ArgAction::Append)
}

/// The command that shows definitions.
#[inline(never)]
fn telling<'a>(alloc: Global) -> Result<Command<'a>, AllocError> {
    let command = command(alloc, MEMBERS_NAME, MEMBERS, &OF_SHOWN, MEMBERS_STATUSES)?;
    let command = command.arg(path(alloc, names::FILE, "The PDB file to read"))?;
    command.arg(names(alloc))
}

/// The command that says what a fault means.
#[inline(never)]
fn explaining<'a>(alloc: Global) -> Result<Command<'a>, AllocError> {
    let command = command(alloc, EXPLAIN_NAME, EXPLAIN, &OF_EXPLAIN, STATUSES)?;
    command.arg(path(alloc, names::NUMBER, PAGE_NUMBER))
}

/// A command of the program.
#[inline(never)]
fn subcommand<'a>(alloc: Global, which: &'a Kind) -> Result<Command<'a>, AllocError> {
    match which {
        Kind::Merge => merging(alloc),
        Kind::Diff => differing(alloc),
        Kind::Members => telling(alloc),
        Kind::Show(shown) => showing(alloc, shown),
        Kind::Explain => explaining(alloc),
    }
}

/// The program without its commands.
#[inline(never)]
fn bare<'a>(alloc: Global) -> Result<Command<'a>, AllocError> {
    let program = Command::new(alloc, "pdbmerge")
        .version(VERSION)
        .about(ABOUT)
        .after_help(STATUSES)
        .bin_name("pdbmerge")?;
    Ok(program.no_binary_name(true).subcommand_required(true))
}

/// The program with its commands.
#[inline(never)]
pub fn program<'a>(alloc: Global) -> Result<Command<'a>, AllocError> {
    let mut program = bare(alloc)?;
    for which in &SUBCOMMANDS {
        program = program.subcommand(subcommand(alloc, which)?)?;
    }
    Ok(program)
}
