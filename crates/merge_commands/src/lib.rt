//! The commands on several files, each as a function from bytes to bytes.
//!
//! [`run_plan`] writes one file with the types of several files, the maps of these files into it if
//! they are kept, and a report on it. A plan says what becomes of a file that is refused; [`run_merge`]
//! stops there. [`write_maps`] writes the lines of maps. [`run_diff`] shows the types that only one of
//! two files has, and [`run_diff_members`] which definitions came, went or changed between them. Each
//! refusal is a [`RunFault`](show_commands::RunFault).
//!
//! What is proved: the file that is written is that of the types of the files that the plan takes; the
//! maps and the report are those of that merge (`RunsPlan` of `specs/`). The text of a comparison is
//! that of the two files, byte for byte, and is empty exactly where they do not differ. A refusal is
//! the first fault of the files, and what each sink took after it is proved too.
//!
//! # Example
//!
//! `merge_commands` compares two files. This is a test of the crate `test_examples`:
//!
//! ```
//! fn a_file_and_itself(rt: HostRuntime) -> Result<(), Fail> {
//!     let file = sample(rt.alloc())?;
//!     let (files, mut text) = ([file.as_slice(), &file], Vec::new(rt.alloc()));
//!     let out = &mut Out::new(&mut text);
//!     let same = run_diff(rt.alloc(), &files.as_slice(), Scope::All, out, folding())?;
//!     assert!(rt; same && text.is_empty());
//!     Ok(())
//! }
//! ```
#![tactic(auto)]

mod changes;
mod difference;
mod maps;
mod merge;
mod report;
mod whole_files;

pub use changes::run_diff_members;
pub use difference::run_diff;
pub use maps::write_maps;
pub use merge::run_plan;
pub use whole_files::run_merge;
