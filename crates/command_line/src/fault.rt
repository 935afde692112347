//! Why arguments are no command.

ghost use Rattle.std.specs.Prelude.{◌≡◌};
ghost use Rattle.command_line.specs.Fault.{IsStatus, IsOfClap};
ghost use Rattle.command_line.specs.declared.fault.LineFault.TheVariants as line;

use clap::error::ErrorKind;
use std::alloc::{AllocError, AllocFailed};
use std::fmt;

/// What is wrong with an argument. It prints as a line for the user.
#[derive(Clone, Copy, Debug, PartialEq, Eq)]
pub enum WrongWord {
    /// It has no value that its command can use.
    Value {
        /// The argument as it stands in the line: `--age`.
        argument: &'static str,
        /// What is wanted there.
        wanted: &'static str,
    },
    /// The argument at this position, from 1, is not UTF-8.
    NotUtf8(usize),
    /// The path with this number, from 1, of a list of paths is not UTF-8.
    Path(usize),
}

impl fmt::Display for WrongWord {
    fn fmt<W: fmt::Write>(&self, f: &mut fmt::Formatter<W>) -> fmt::Result {
        match self {
            WrongWord::Value { argument, wanted } => write!(f, "{argument} wants {wanted}"),
            WrongWord::NotUtf8(position) => write!(f, "argument {position} wants UTF-8"),
            WrongWord::Path(number) => {
                write!(
                    f,
                    "--files-from wants a list of paths in UTF-8\nline {number} is none"
                )
            }
        }
    }
}

/// Why the arguments are no command.
#[derive(Debug, Drop)]
pub enum LineFault {
    /// The arguments are refused, or they ask for help. The error has the text to print.
    Refused(clap::Error),
    /// A word among the arguments has no value that the command can use. Which word this is stands
    /// here where the arguments ask for more to be said.
    Word(Option<WrongWord>),
    /// Out of memory.
    Memory,
}

impl From<AllocError> for LineFault {
    ghost from_gives = { λ _ fault. fault ≡ line.Memory };

    fn from(_error: AllocError) -> LineFault {
        LineFault::Memory
    }
}

impl<T: Drop> From<AllocFailed<T>> for LineFault {
    ghost from_gives = { λ _ fault. fault ≡ line.Memory };

    fn from(_error: AllocFailed<T>) -> LineFault {
        LineFault::Memory
    }
}

impl From<clap::Error> for LineFault {
    ghost from_gives = { IsOfClap };

    fn from(error: clap::Error) -> LineFault {
        if error.kind() == ErrorKind::OutOfMemory {
            LineFault::Memory
        } else {
            LineFault::Refused(error)
        }
    }
}

impl LineFault {
    /// The exit status: 0 for a request for help, 1 for out of memory, 2 for all others.
    pub fn status(&self) -> u8
        ensures { IsStatus self.now result }
    {
        match self {
            LineFault::Refused(error) => { if error.use_stderr() { 2 } else { 0 } }
            LineFault::Word(_) => 2,
            LineFault::Memory => 1,
        }
    }
}
