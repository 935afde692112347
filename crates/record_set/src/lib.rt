//! Distinct type records, each with the places at which it names other records.
//!
//! [`RecordSet`] finds a record by its bytes, as a [`TextSet`](text_set::TextSet) does. Beside each
//! record it keeps the places of its references, without those of simple types. So code that
//! follows the references of a record need not look at its leaf.
//!
//! # Example
//!
//! `record_set` keeps each record once, with the places at which it names other records. This is a
//! test of the crate `test_examples`:
//!
//! ```
//! fn each_record_once(rt: HostRuntime) -> Result<(), Fail> {
//!     let file = sample(rt.alloc())?;
//!     let mut buffer = Buffer::new(rt.alloc());
//!     let types = read_types(rt.alloc(), &file, &mut buffer)?;
//!     let record = types.get(0).ok_or("no such type")?;
//!     let mut places = Vec::new(rt.alloc());
//!     assert!(rt; list_places(record, &mut places)?);
//!     let mut set = RecordSet::with_hasher(rt.alloc(), folding());
//!     let first = put_record(&mut set, record, &places)?;
//!     assert_eq!(rt; put_record(&mut set, record, &places)?, first);
//!     assert_eq!(rt; set.len(), 1);
//!     Ok(())
//! }
//! ```
#![tactic(auto)]

mod lists;
mod set;

pub use lists::PlaceLists;
pub use set::RecordSet;
