//! What tests use: files, records, heaps, a sink, a source and hashers.
//!
//! - [`sample()`] is the file that is shipped, byte by byte; [`put`] changes bytes of a file.
//! - [`CONST`], [`pointer`] and the like are type records. [`stream_with`] and [`stream_of`] give a
//!   stream of records, and [`pdb_with`] and [`pdb`] write a file with it.
//! - [`refusals`] makes a try on heaps of increasing size, and on heaps of which one allocation
//!   fails.
//! - [`Narrow`] is a sink with little room. [`Dripping`] is a source that gives one byte a call.
//!   [`Positions`] is a file of which one read by position fails.
//! - [`folding`] is a good hasher. For a [`Constant`] all texts have one hash.
//!
//! Shipped crates use this one only in their tests.
#![tactic(auto)]

mod container;
mod dripping;
mod file;
mod growth;
mod hashers;
mod images;
mod narrow;
mod positions;
mod records;

pub use dripping::Dripping;
pub use file::{put, sample};
pub use growth::{Refusal, TestHeap, refusals, refusals_amid};
pub use hashers::{Constant, folding};
pub use images::{GUID, LIMIT, pdb, pdb_with, settings};
pub use narrow::Narrow;
pub use positions::Positions;
pub use records::{
    CONST, LIST, TO_FIRST, TO_INT, TO_SECOND, TO_THIRD, VOLATILE, bytes_of, pointer, stream_of,
    stream_with,
};
