//! The arguments of the command line, as values.
//!
//! - [`read_line`] reads the arguments of a command line. A [`Line`] is a [`Task`] with its arguments
//!   as values. [`USAGE`] is printed where there are none.
//! - [`push_paths`] reads a list of paths, which stand for arguments.
//! - [`LineFault`] says why arguments are no command, and which exit status that has.
//!
//! `words` has the commands, their options and their help, for the crate `clap`, and `names` what the
//! options are called. `line` makes values of what was given, `index` a type index, and `list` paths
//! of a list.
//!
//! What is proved: an argument is a type index exactly where it is `0x` and 1 to 8 hexadecimal
//! digits (`IsIndexArgument`). A list gives the paths that it has, in their order (`AreLines`). Each
//! refusal of arguments has its exit status (`IsStatus`). What `clap` makes of arguments is tested.
//!
//! # Example
//!
//! `command_line` reads lists of paths, which stand for arguments. This is a test of the crate
//! `test_examples`:
//!
//! ```
//! fn the_paths_of_a_list(rt: HostRuntime) -> Result<(), Fail> {
//!     let mut paths = Vec::new(rt.alloc());
//!     let read = push_paths(rt.alloc(), b"one.pdb\nother.pdb\n", b'\n', &mut paths);
//!     assert!(rt; read.is_ok());
//!     assert_eq!(rt; paths.len(), 2);
//!     assert_eq!(rt; paths[1].as_str(), "other.pdb");
//!     Ok(())
//! }
//! ```
#![tactic(auto)]

mod fault;
mod index;
mod line;
mod list;
mod names;
mod words;

pub use fault::{LineFault, WrongWord};
pub use index::query_of;
pub use line::{Compared, Line, Merging, PathList, Task, USAGE, read_line};
pub use list::{ListFault, push_paths};
