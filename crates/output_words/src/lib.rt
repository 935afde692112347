//! Numbers and names as `pdbmerge` prints them.
//!
//! [`push_index`], [`push_kind`], [`push_decimal`], [`push_number`] and [`push_named`] append a number, or a line with
//! a name and a number, and [`push_quoted`] appends bytes in quotes. [`bounded`] appends the same to a text of bytes,
//! as far as it stays within an end.
//!
//! What is proved: if a call returns Ok, the text is the old text followed by the bytes that `specs/` defines for the
//! values, cut at the end where there is one. The only fault is out of memory, and nothing is said of the text after
//! it.
//!
//! `text` prints numbers and names, with `hexadecimal` for digits in base 16. `plain` finds bytes that are printed as
//! themselves within quotes.
//!
//! # Example
//!
//! `output_words` appends numbers and names. This is a test of the crate `test_examples`:
//!
//! ```
//! fn lines_of_a_text(rt: HostRuntime) -> Result<(), Fail> {
//!     let mut text = String::new(rt.alloc());
//!     push_named(&mut text, "records", 2)?;
//!     push_quoted(&mut text, b"a \"name\"")?;
//!     assert_eq!(rt; text.as_str(), "records 2\n\"a \\x22name\\x22\"");
//!     Ok(())
//! }
//! ```
#![tactic(auto)]

pub mod bounded;
mod hexadecimal;
mod plain;
mod text;

pub use plain::is_plain;
pub use text::{push_decimal, push_index, push_kind, push_named, push_number, push_quoted};
