//! The difference of two lists of types: the types that one list has and the other lacks.
//!
//! [`compare`] says of each record of either list how it stands to the other list, its
//! [`Standing`]. A type that names a type which the other list lacks is lacked too. So one new
//! member of a structure may make thousands of types differ. The difference *begins* at the types
//! that the other list lacks, though it has each type that they name ([`Standing::Origin`]).
//!
//! What is proved: each record has the standing that its type has (`HasStanding`), by the meaning
//! of the records and not by their indices. Where one list has a type that the other lacks, the
//! difference begins at some record ([`laws::difference_begins`]).
//!
//! Both lists are put into one set, and then only the positions of their types in it are compared:
//! this takes time in proportion to both lists, and nothing recurses along references.
//!
//! # Example
//!
//! `type_difference` tells which types one list has and the other lacks, and where that begins.
//! This is a test of the crate `test_examples`:
//!
//! ```
//! fn where_two_lists_differ(rt: HostRuntime) -> Result<(), Fail> {
//!     // a const int and a pointer to it, and a volatile int and a pointer to it
//!     let one = stream_with(rt.alloc(), &[CONST, TO_FIRST])?;
//!     let other = stream_with(rt.alloc(), &[VOLATILE, TO_FIRST])?;
//!     let found = standings_in(rt.alloc(), &one, &other)?;
//!     let want = [Standing::Origin, Standing::Follows];
//!     assert_eq!(rt; found.as_slice(), want.as_slice());
//!     Ok(())
//! }
//! ```
#![tactic(auto)]

mod difference;
pub mod laws;
mod marks;
mod standing;

pub use difference::{Difference, compare};
pub use standing::Standing;
