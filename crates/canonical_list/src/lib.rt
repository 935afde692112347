//! The canonical order of the types of a table, which is found level by level.
//!
//! A *table* is distinct records, each of which names only earlier ones. [`canonical_order`] puts
//! its types in the order of their depths, and at one depth in the order of the bytes of the
//! records. The records stay where they lie, and name each other by their positions in that order.
//!
//! What is proved: in this order the records are the canonical list of exactly the types of the
//! table (`IsCanonOf`), unless this runs out of memory. Nothing recurses along references: the
//! records of one depth are renumbered once all types below them have their numbers.
//!
//! # Example
//!
//! `checked_types` checks records, and a table of `type_table` lists the types of several files in
//! canonical order (`canonical_list`). This is a test of the crate `test_examples`:
//!
//! ```
//! fn types_in_canonical_order(rt: HostRuntime) -> Result<(), Fail> {
//!     let file = sample(rt.alloc())?;
//!     let mut buffer = Buffer::new(rt.alloc());
//!     let types = read_types(rt.alloc(), &file, &mut buffer)?;
//!     assert_eq!(rt; types.levels(), 1);
//!     let mut table = Table::with_hasher(rt.alloc(), folding());
//!     table.add(rt.alloc(), &types, 1000)?;
//!     drop(types);
//!     let mut input = file.as_slice();
//!     let Ok(stream) = read_stream_within(rt.alloc(), &mut input, u32::MAX, &mut buffer) else {
//!         return Err("no stream".into());
//!     };
//!     // each record names only earlier ones, so the records can be added as they stand
//!     assert!(rt; table.add_stream(rt.alloc(), stream, 1000, &mut NoMaps));
//!     let canon = table.finish(rt.alloc())?;
//!     assert_eq!(rt; canon.len(), 2);
//!     assert_eq!(rt; canon.get(1), Some(TO_INT));
//!     Ok(())
//! }
//! ```
#![tactic(auto)]

mod levels;
mod order;
mod row;
mod sort;

pub use order::{CanonicalOrder, canonical_order};
