//! Records that are checked to be types.
//!
//! - [`Types::check`] makes sure that each record has places, that each reference is simple or
//!   names a record, and that no record leads into a cycle of references. [`TypeFault`] is the
//!   first check that fails.
//! - [`Types`] lends the records and has the depth of each type. A type that names no record has
//!   the depth 0. Any other type is one deeper than the deepest type that it names.
//!   [`Types::in_order`] lists them so that each comes after those that it names.
//!
//! What is proved: records are accepted exactly where they make types (`AreTypes` of
//! `type_trees`: each record is whole and has places, and some rank makes each record higher
//! than those that it names), unless this runs out of memory. A refusal names the first check that
//! fails, and for a cycle exactly the records that lead into one (`IsCycle`). Each record that is
//! lent is whole and has places. Each depth is that of the tree at that position.
//!
//! The [`laws`] say that records have at most one list of those that lead into a cycle, and that
//! records with a cycle have no rank. Nothing recurses along references: a record is read after
//! those that it names.
//!
//! # Example
//!
//! `checked_types` checks records, and a table of `type_table` lists the types of several files in
//! canonical order (`canonical_list`). This is a test of the crate `test_examples`:
//!
//! ```
//! fn types_in_canonical_order(rt: HostRuntime) -> Result<(), Fail> {
//!     let file = sample(rt.alloc())?;
//!     let mut buffer = Buffer::new(rt.alloc());
//!     let types = read_types(rt.alloc(), &file, &mut buffer)?;
//!     assert_eq!(rt; types.levels(), 1);
//!     let mut table = Table::with_hasher(rt.alloc(), folding());
//!     table.add(rt.alloc(), &types, 1000)?;
//!     drop(types);
//!     let mut input = file.as_slice();
//!     let Ok(stream) = read_stream_within(rt.alloc(), &mut input, u32::MAX, &mut buffer) else {
//!         return Err("no stream".into());
//!     };
//!     // each record names only earlier ones, so the records can be added as they stand
//!     assert!(rt; table.add_stream(rt.alloc(), stream, 1000, &mut NoMaps));
//!     let canon = table.finish(rt.alloc())?;
//!     assert_eq!(rt; canon.len(), 2);
//!     assert_eq!(rt; canon.get(1), Some(TO_INT));
//!     Ok(())
//! }
//! ```
#![tactic(auto)]

mod check;
mod fault;
mod graph;
pub mod laws;
mod measure;
mod order;
mod types;

pub use fault::TypeFault;
pub use order::{InOrder, record_at};
pub use types::Types;
