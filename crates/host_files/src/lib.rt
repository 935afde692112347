//! The files that the program reads and writes.
//!
//! - [`InputFiles`] are the inputs of a command, one of which is open at a time: by position, or, where
//!   that can't be, read to its end. [`Progress`] tells how many of them were read.
//! - [`NewFile`] is a file that is created at its first write, in the way that `Making` of `run_options`
//!   says, and [`NewFiles`] are those of a merge.
//! - [`temporary_file`] says how the file is opened that takes the place of another, and [`Placed`] how
//!   it took it.
//! - [`FileId`] tells one file from another, and [`TakenStreams`] which standard streams are files that a
//!   merge writes. A path that names a [`Stream`] stands for that stream ([`StandardStreams`]).
//! - [`Said`] keeps what the system said when it refused a call, and [`Telling`] is a file that tells it.
//! - [`ProgramFault`] says why the program did not do what it was asked for, and [`MapFault`] why it
//!   did not write the maps of a merge.
//!
//! What is proved: the input at a position has the name at that position, and no more bytes than the
//! limit. A file that was never created took nothing, and a file that breaks stays broken. The number of a fault is the one of its kind (`program_number`). No
//! contract can say what a file of the system gives or takes; the tests of the program show it.
//!
//! # Example
//!
//! `host_files` opens the files that the program reads. This is a test of the crate
//! `test_examples`:
//!
//! ```
//! fn a_file_that_is_not_there(rt: HostRuntime) -> Result<(), Fail> {
//!     let said = Said::new();
//!     let names = [String::from_str(rt.alloc(), "no/such/file.pdb")?];
//!     let files = InputFiles::new(&rt, &names, u32::MAX, None, &said);
//!     assert_eq!(rt; files.check(0), Err(InputFault::Open));
//!     Ok(())
//! }
//! ```
#![tactic(auto)]

mod fault;
mod files;
mod inputs;
mod new_files;
mod output;
mod progress;
mod said;
mod same;
mod spare;
mod streams;
mod taken;

pub use fault::{MapFault, ProgramFault};
pub use inputs::InputFiles;
pub use new_files::NewFiles;
pub use output::NewFile;
pub use progress::Progress;
pub use said::{Place, Said, Telling};
pub use same::{FileId, are_file, is_one_of};
pub use spare::{Placed, temporary_file};
pub use streams::{StandardStreams, Stream};
pub use taken::TakenStreams;
