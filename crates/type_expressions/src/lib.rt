//! The words of a type in one line of text, and the text of a definition.
//!
//! [`push_type`] appends the expression of what a reference names: a simple type by its name, such as
//! `unsigned int`; a class, a structure, a union, an interface or an enumeration by its name in
//! quotes; every other type in words, around the words of the types that it names, such as
//! `pointer to const char`, `array of 768 bytes of int` and `unsigned int, bits 4 to 15`. It is told
//! to a depth of 8, and cut at 400 bytes. What is left out is two points, so no file makes it
//! longer. In a list of arguments no type is three points: more arguments may follow. The words are
//! our own. They are no declaration of any language.
//!
//! [`push_definitions`] appends the texts of classes, structures, unions, interfaces and
//! enumerations: of each its head, and a line for each of its members, such as `8 member "next" int`.
//! All definitions are shown, or those that are [`Asked`] for, of which [`find_asked`] says what is
//! found. [`push_definition`] appends the text of one of them, and [`Lists`] says which field lists
//! were told in a text, so that their lines are copied. [`only_declares`] says whether a record declares a type without its members.
//!
//! What is proved: the words depend on nothing but the type. They are those of its tree, so no type
//! index, no position and no file can be seen in them, and the same type has the same words in
//! every file. Each reference of checked types has words. [`laws`] has both. The text of a
//! definition is a function of its tree too. Types that differ may have the same words: no calling
//! convention is told, and nothing that lies deeper.
//!
//! # Example
//!
//! `type_expressions` tells what a type is. This is a test of the crate `test_examples`:
//!
//! ```
//! fn the_words_of_a_type(rt: HostRuntime) -> Result<(), Fail> {
//!     let file = sample(rt.alloc())?;
//!     let mut buffer = Buffer::new(rt.alloc());
//!     let types = read_types(rt.alloc(), &file, &mut buffer)?;
//!     let mut text = Vec::new(rt.alloc());
//!     push_type(&mut text, &types, 0x1000)?;
//!     assert_eq!(rt; text.as_slice(), b"pointer to int".as_slice());
//!     Ok(())
//! }
//! ```
#![tactic(auto)]

mod asked;
mod definition;
mod definitions;
mod expression;
mod field;
pub mod laws;
mod lines;
mod lists;
mod member;
mod simple;
mod told;

pub use asked::{Asked, Found, Query};
pub use definition::{Parts, only_declares, push_definition};
pub use definitions::{find_asked, push_definitions};
pub use expression::push_type;
pub use lists::Lists;
