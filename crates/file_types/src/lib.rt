//! The records and the types of one file.
//!
//! A Program Database file is *accepted* where everything on the way to its types is sound. It is a
//! container. Its stream 1, which identifies the file, has at least the 28 bytes of a header. Its
//! stream 2 holds type records, and the records are types: each names only simple types and records
//! of the file, and no record leads into a cycle.
//!
//! - [`read_types`] reads the types of a file in memory: of the file only its directory and the
//!   blocks of its TPI stream. They are lent from the file if these blocks are consecutive.
//!   Otherwise they are lent from a [`Buffer`], which the caller passes. The caller may pass the
//!   same buffer for the next file.
//! - [`read_records_of`] and [`read_types_of`] read the type records and the types where the layout
//!   of the file was read before.
//! - [`read_stream_within`] reads stream 2 on the way to the types, and holds the directory and the
//!   stream against a limit. [`check_types`] makes types of it.
//! - [`PdbFault`] is the first fault on the way.
//!
//! What is proved: a file is read exactly if it is accepted (`IsAccepted` of `specs/Read`), unless
//! memory runs out. Its records are the only ones with which it is accepted. A refusal is the first
//! fault. Even of a file whose bytes are not known, the types are those of bytes that reads gave,
//! and a fault is one of them. Of a file that is known both are the same ([`laws`]).
//!
//! # Example
//!
//! `file_types` reads the types of a file. This is a test of the crate `test_examples`:
//!
//! ```
//! fn the_types_of_a_file(rt: HostRuntime) -> Result<(), Fail> {
//!     let file = sample(rt.alloc())?;
//!     let mut buffer = Buffer::new(rt.alloc());
//!     let types = read_types(rt.alloc(), &file, &mut buffer)?;
//!     assert_eq!(rt; types.len(), 2);
//!     Ok(())
//! }
//! ```
#![tactic(auto)]

mod bounded;
mod buffer;
mod fault;
pub mod laws;
mod read;

pub use bounded::read_stream_within;
pub use buffer::Buffer;
pub use fault::PdbFault;
pub use read::{check_types, read_records_of, read_types, read_types_of};
