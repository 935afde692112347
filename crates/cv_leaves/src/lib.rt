//! The leaves of type records: where a record names other types, and the name of its type.
//!
//! A type record has its length, its kind, and a *body*: the bytes after these four. The kind,
//! which is also called the record's *leaf*, says what is in the body. This crate reads three
//! things there: the type indices, by which a record names other types, the name of the type that
//! it describes, and where the members of a field list begin and end.
//!
//! - [`check`] makes sure that the leaf of a record is in the table and that each field that is
//!   read fits the body. [`LeafFault`] is the first check that fails.
//! - [`places`] returns the *places* of a checked record: the offsets in its body, in bytes, at
//!   which there are type indices. They rise. [`ref_at`] reads the index at a place, and
//!   [`set_ref`] writes another one there.
//! - [`list_places`] checks a record and lists those of its places at which it names another
//!   record, and not a simple type, in one walk.
//! - [`type_name`] returns the name of the type, where it has one that can be read. A name that
//!   can't be read is not a fault. [`from_name`] lends the bytes from where it begins, and looks at
//!   none of them.
//! - [`members`] returns the members of a field list, each with its padding.
//! - [`kind_of`] returns the kind, [`body_of`] the body, and [`leaf_text`] the name of its leaf.
//! - [`after_numeric`] returns where a numeric leaf ends. [`introduces`] and [`points_to_member`]
//!   say what the attributes of a method and of a pointer say.
//!
//! A leaf is one row of the table in `leaf`. The row has the places at fixed offsets, and it says
//! what follows them: the indices of an argument list, for example, the entries of a method list
//! or the members of a field list. What follows is cut into *parts*, one after the other. One step,
//! `part_at` of `part`, finds the places in a part, where it ends, and whether it fits. The check
//! and the places are loops over that step. The list is what a merge makes of each record. So it
//! asks once what follows, and has a loop of its own for each answer. These loops call the functions
//! that the step is made of. A kind of member is one row of the table in `member`.
//!
//! What is proved: a record is accepted exactly where it has places (`HasPlaces` of
//! `specs/Place`: the record is made of these parts, and these are the places in them). A refusal
//! names the first check that fails. [`places`] returns the places. [`list_places`] accepts the same
//! records as [`check`], and lists just the places at which there is an index from 0x1000 on. A
//! record keeps its places when an index is written at one of them.
//!
//! [`laws`] says what holds of every record. A record has one list of places: those that the walk
//! meets. They are at least four bytes apart and lie within the body. Numbers that are written at
//! all of them are then the record's references. The record's places, its framing and its *blank*
//! (the record with zeros at its places) stay as they are, and bytes stay bytes. The blank, filled
//! with the record's own references, is the record again. The entries of a method list fill its
//! body, and so do the members of a field list.
//!
//! Only [`list_places`] allocates: its list. ("CodeView Type Records".)
//!
//! # Example
//!
//! `cv_leaves` finds the type indices in a record. This is a test of the crate `test_examples`:
//!
//! ```
//! fn the_references_of_a_record(rt: HostRuntime) -> Result<(), Fail> {
//!     cv_leaves::check(TO_INT)?;
//!     let place = places(TO_INT).next().ok_or("it names no type")?;
//!     assert_eq!(rt; place, 0);
//!     assert_eq!(rt; ref_at(TO_INT, place), 0x74);
//!     assert_eq!(rt; type_name(TO_INT), None);
//!     Ok(())
//! }
//! ```
#![tactic(auto)]

mod checks;
mod fault;
mod field_list;
pub mod laws;
mod leaf;
mod member;
mod name;
mod named;
mod numeric;
mod padding;
mod part;
mod place;
mod reference;

pub use checks::{body_of, check, kind_of};
pub use fault::LeafFault;
pub use field_list::{FieldMembers, members};
pub use leaf::leaf_text;
pub use name::{from_name, type_name};
pub use named::list_places;
pub use numeric::after_numeric;
pub use part::{introduces, points_to_member};
pub use place::{RecordPlaces as Places, places};
pub use reference::{ref_at, set_ref};
