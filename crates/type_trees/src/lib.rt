//! What types are: closed trees, canonical lists of trees, and records that are renumbered.
//!
//! A type record names other types by type indices. Those below 0x1000 are *simple* types, and
//! `0x1000 + i` is the record at position i. What a record means is a *closed tree*. The tree has
//! the record with zeros at its places (its *blank*), and a branch for each place: the simple
//! number that is there, or the tree of the record that it names. Two records mean the same type
//! exactly where their trees are equal. The program builds no trees: only the contracts speak of
//! them.
//!
//! The *depth* of a tree is 0 if it names no record, otherwise one more than that of the deepest
//! type that it names. The trees of a *canonical list* are in the order of their depths, and at one
//! depth in the order of the bytes of their records. The records name each other by their positions
//! in the list. The *weight* of a list is the number of bytes of its records.
//!
//! [`depth_of`] computes the depth of a record from the depths of the records that it names.
//! [`renumber_in_place`] writes the new type indices of the types that a record names into it. Both
//! take the list of the places at which the record names other records (`list_places` of
//! `cv_leaves`).
//! [`levels_of`] counts the levels.
//!
//! What is proved: a renumbered record is the record with the new type index at each place. A record
//! is renumbered only if each reference is simple or has a number, and always if these numbers are
//! below 2^31. The [`laws`] say that there is exactly one tree at each
//! position of records that make types, and that it is closed; that each tree branch of a type is a
//! type; and that a set of types has one canonical list, which reads back as that set.
//!
//! # Example
//!
//! `type_trees` makes a record name the same types by other type indices. This is a test of the
//! crate `test_examples`:
//!
//! ```
//! fn a_record_that_is_renumbered(rt: HostRuntime) -> Result<(), Fail> {
//!     let file = sample(rt.alloc())?;
//!     let mut buffer = Buffer::new(rt.alloc());
//!     let types = read_types(rt.alloc(), &file, &mut buffer)?;
//!     let record = types.get(0).ok_or("no such type")?;
//!     let mut places = Vec::new(rt.alloc());
//!     assert!(rt; list_places(record, &mut places)?);
//!     // it names only simple types, and these stay
//!     assert!(rt; places.is_empty());
//!     let mut copy = Vec::new(rt.alloc());
//!     copy.extend_from_slice(record)?;
//!     assert!(rt; renumber_in_place(&mut copy, &places, &[]));
//!     assert_eq!(rt; copy.as_slice(), record);
//!     Ok(())
//! }
//! ```
#![tactic(auto)]

mod depth;
pub mod laws;
mod renumber;

pub use depth::{depth_of, height, levels_of};
pub use renumber::{number_for, renumber_in_place};
