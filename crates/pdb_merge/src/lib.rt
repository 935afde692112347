//! One file for the types of many files.
//!
//! The crate `file_types` says when a file is accepted, and reads the types of one. What a merge
//! takes of it can be named here too: [`Buffer`], [`PdbFault`] and [`read_types`].
//!
//! - [`read_input_types`] reads the types of one of several inputs, as a merge reads it. They are
//!   lent from an [`InputBuffer`].
//! - [`merge`] writes one file with the types of several files, each once, into a sink. A [`Plan`] says
//!   with which settings and which GUID, and what becomes of a file that is refused. The answer
//!   ([`Merged`]) has the maps of the files, and those that were left out ([`LeftOut`]).
//! - [`sift_files`] gives the canonical list of the types of the same files ([`Sifted`]).
//! - [`merge_to`] and [`merge_files`] merge files all of which must be accepted, and [`write_merged`]
//!   writes the file of a canonical list.
//! - [`guid_of_types`] makes the GUID of a canonical list: a UUID of version 8, whose other bits are
//!   the first of the SHA-256 of the bytes of all records.
//! - [`BoundedInputs`] are several inputs, whose parts may be held against a limit.
//! - [`MergeFault`] names the first file that is at fault, by its position, from 0.
//!
//! What is proved: files are merged exactly if each that must stay is accepted and their types are
//! within the limit, unless memory runs out (`FollowsPlan`). The file that is written (`IsFileFor`)
//! has exactly the types of the files that are accepted, each once, in canonical order, and it is
//! accepted with these. Any files with the same types give this file, if age, block size and GUID are
//! equal; a GUID that is made of the types is. Each file that is left out is so for its first fault,
//! and no file that must stay is. A refusal is the first fault. The [`laws`] hold for every file that
//! is written in this way.
//!
//! # Example
//!
//! `pdb_merge` writes one file with the types of several. This is a test of the crate
//! `test_examples`:
//!
//! ```
//! fn a_merge_of_two_files(rt: HostRuntime) -> Result<(), Fail> {
//!     let file = sample(rt.alloc())?;
//!     let settings = Settings::new(guid_of([0x11; 16]), 1, 1000, 4096).ok_or("no settings")?;
//!     let mut bytes = Vec::new(rt.alloc());
//!     let (plan, out) = (Plan::new(settings), &mut Out::new(&mut bytes));
//!     let files: [&[u8]; 2] = [&file, &file];
//!     let merged = merge(rt.alloc(), files.as_slice(), &plan, NoMaps, folding(), out)?;
//!     assert_eq!(rt; merged.summary.types, 2);
//!     let mut buffer = Buffer::new(rt.alloc());
//!     assert_eq!(rt; read_types(rt.alloc(), &bytes, &mut buffer)?.len(), 2);
//!     Ok(())
//! }
//! ```
#![tactic(auto)]

mod bounded;
mod fault;
mod guid;
mod input;
pub mod laws;
mod merged;
mod plan;
mod sift;
mod summary;
mod types_so_far;
mod whole_files;
mod write;

pub use bounded::BoundedInputs;
pub use fault::{AddFault, MergeFault, OutFault};
pub use file_types::{Buffer, PdbFault, read_types};
pub use guid::guid_of_types;
pub use input::{InputBuffer, read_input_types};
pub use merged::{Merged, merge};
pub use plan::Plan;
pub use sift::{LeftOut, Sifted, sift_files};
pub use summary::Summary;
pub use type_table::{KeepMaps, NoMaps, TypeMaps};
pub use whole_files::{merge_files, merge_to};
pub use write::write_merged;
