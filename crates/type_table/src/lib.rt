//! Tables of types, and canonical lists of types.
//!
//! - [`Table`] holds a set of types, each once, in the order in which they came. Types are added
//!   up to a limit of bytes, and a refusal leaves the table as it was.
//!   [`Table::add_stream`] adds records that name only earlier ones while it checks them, and
//!   [`Table::add`] adds types in any order.
//! - [`Canon`] holds a set of types as its *canonical list*: each type once, in the order of the
//!   depths, and at one depth in the order of the bytes of the records. The records name each other
//!   by their positions in the list. Equal sets have equal canonical lists.
//! - [`number_types`] puts types into a set of records, and tells at which position each is.
//!
//! What is proved: a table and a canonical list hold exactly the types that were put into them. A
//! union that is refused as too large has more bytes than the limit, and the fault has their
//! number. [`Table::add_stream`] adds only records that make types (`AreTypes` of
//! `type_trees`).
//!
//! # Example
//!
//! `checked_types` checks records, and a table of `type_table` lists the types of several files in
//! canonical order (`canonical_list`). This is a test of the crate `test_examples`:
//!
//! ```
//! fn types_in_canonical_order(rt: HostRuntime) -> Result<(), Fail> {
//!     let file = sample(rt.alloc())?;
//!     let mut buffer = Buffer::new(rt.alloc());
//!     let types = read_types(rt.alloc(), &file, &mut buffer)?;
//!     assert_eq!(rt; types.levels(), 1);
//!     let mut table = Table::with_hasher(rt.alloc(), folding());
//!     table.add(rt.alloc(), &types, 1000)?;
//!     drop(types);
//!     let mut input = file.as_slice();
//!     let Ok(stream) = read_stream_within(rt.alloc(), &mut input, u32::MAX, &mut buffer) else {
//!         return Err("no stream".into());
//!     };
//!     // each record names only earlier ones, so the records can be added as they stand
//!     assert!(rt; table.add_stream(rt.alloc(), stream, 1000, &mut NoMaps));
//!     let canon = table.finish(rt.alloc())?;
//!     assert_eq!(rt; canon.len(), 2);
//!     assert_eq!(rt; canon.get(1), Some(TO_INT));
//!     Ok(())
//! }
//! ```
#![tactic(auto)]

mod adding;
mod becomes;
mod canon;
mod canon_records;
mod fault;
mod maps;
mod numbers;
mod table;
mod table_depths;

pub use canon::Canon;
pub use canon_records::CanonRecords;
pub use fault::JoinFault;
pub use maps::{KeepMaps, NoMaps, TypeMaps};
pub use numbers::number_types;
pub use table::Table;
