//! What changed between the definitions of two lists of types, in words.
//!
//! [`push_changes`] appends which classes, structures, unions, interfaces and enumerations came,
//! went or changed, and in which members, such as
//! `~ structure "Address" size 8 -> 16` and `  -   0 member "ip" unsigned int`. A definition is
//! known by its [`Key`]: what it defines, and its unique name, or its name where it has none. What
//! is compared is the key and the text, which `type_expressions` makes. So nothing is shown of two builds
//! of one source that differ in what no text tells.
//!
//! What is proved: nothing is shown exactly where both lists have the same definitions
//! ([`laws::nothing_changed`]). Each definition that only one list has is shown
//! ([`laws::lone_is_shown`], [`laws::came_is_shown`]); a line of a member is shown exactly where the
//! other side lacks it.
//! Lists with the same types have the same definitions ([`laws::types_have_definitions`]). The text
//! is a function of the trees alone (`changes_text`), so it depends on no index and on no hash.
//!
//! The types of both lists are compared first. No text is made of a definition whose type both
//! lists have, unless a definition of the same name differs. Each text is made once, and looked up
//! among those of the other list, and each line of one that changed among the lines of the other.
//! So this takes time and memory in proportion to the records and the texts of what differs.
//!
//! # Example
//!
//! `type_changes` tells what changed between two lists of types. This is a test of the crate
//! `test_examples`:
//!
//! ```
//! fn what_changed_between_two_lists(rt: HostRuntime) -> Result<(), Fail> {
//!     // the enumeration Kind, whose values were of type int, and are unsigned characters now
//!     let one = stream_with(rt.alloc(), &[KIND_OF_INT])?;
//!     let other = stream_with(rt.alloc(), &[KIND_OF_BYTE])?;
//!     let text = changes_in(rt.alloc(), &one, &other)?;
//!     let want = b"~ enumeration \"Kind\" of int -> unsigned char\n".as_slice();
//!     assert_eq!(rt; text.as_slice(), want);
//!     Ok(())
//! }
//! ```
#![tactic(auto)]

mod changes;
mod key;
pub mod laws;
mod lines;
mod lone;
mod names;
mod place;
mod sole;
mod told;

pub use changes::push_changes;
pub use key::Key;
