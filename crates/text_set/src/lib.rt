//! Distinct texts in the order in which they arrived.
//!
//! [`TextSet`] finds a text by its bytes. The text is hashed, by one `write` of all its bytes. Each
//! text has a 32-bit key: its hash, or the next number that was free when it came. The bytes are
//! compared before two texts count as equal, so the result never depends on the hash.
//!
//! # Example
//!
//! `text_set` gives equal texts one position. This is a test of the crate `test_examples`:
//!
//! ```
//! fn each_text_once(rt: HostRuntime) -> Result<(), Fail> {
//!     let mut set = TextSet::with_hasher(rt.alloc(), folding());
//!     let first = set.intern(b"four")?;
//!     set.intern(b"more")?;
//!     assert_eq!(rt; set.intern(b"four")?, first);
//!     assert_eq!(rt; set.len(), 2);
//!     Ok(())
//! }
//! ```
#![tactic(auto)]

mod change;
mod find;
mod place;
mod set;

pub use change::{Change, Unchanged};
pub use set::TextSet;
