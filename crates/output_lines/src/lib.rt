//! The texts that the commands of `pdbmerge` print.
//!
//! Each call makes what one command prints, or a part of it: [`record_text`], [`record_lines`],
//! [`push_type_line`], [`layout_text`], [`push_checked`], [`push_difference`], [`push_map`], and for
//! `info` [`push_info_header`], [`push_names`] and [`push_features`].
//!
//! What is proved: if a call returns Ok, the text is the old text followed by the bytes that
//! `specs/` defines for the values. The only fault is out of memory, and nothing is said of the
//! text after it.
//!
//! Here nothing is read and nothing is refused. The crates `show_commands` and `merge_commands` do both. The crate
//! `output_words` prints the numbers and the names.
//!
//! Each module is named for the command whose lines it makes.
//!
//! # Example
//!
//! `output_lines` makes the lines that commands print. This is a test of the crate `test_examples`:
//!
//! ```
//! fn lines_of_a_check(rt: HostRuntime) -> Result<(), Fail> {
//!     let mut text = String::new(rt.alloc());
//!     push_checked(&mut text, 2, 24, 1)?;
//!     assert_eq!(rt; text.as_str(), "accepted\nrecords 2\nbytes 24\nlevels 1\n");
//!     Ok(())
//! }
//! ```
#![tactic(auto)]

mod check;
mod difference;
mod info;
mod maps;
mod record;
mod records;
mod streams;
mod types;

pub use check::push_checked;
pub use difference::push_difference;
pub use info::{push_features, push_info_header, push_names};
pub use maps::push_map;
pub use record::record_text;
pub use records::record_lines;
pub use streams::layout_text;
pub use types::push_type_line;
