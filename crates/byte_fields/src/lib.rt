//! Little-endian fields, and the meaning of "the first check that fails", for every format crate.
//!
//! - [`u16_at`] and [`u32_at`] read a little-endian number at an offset in bytes. The value is
//!   `number_at` of `specs/Number`, which also says how numbers are written as bytes.
//!   [`push_u32`] appends a number in four bytes.
//! - [`fits`] tells whether a field lies within the bytes.
//! - [`name_at`] reads a name that a NUL ends. The value is `name_at` of `specs/Name`.
//!   [`rest_from`] lends the bytes from an offset on.
//! - `specs/Check` says what "the first check that fails" means. The contract of a reader lists its
//!   checks in the order in which they are made, and the reader returns the fault of the first
//!   check that fails. It returns out of memory only where no check fails.
//! - `specs/Bytes` says when a list of numbers is made of bytes.
//!
//! The lemmas about numbers, names, checks and bytes are in `proofs/`, for the crates above.
//!
//! # Example
//!
//! `byte_fields` reads little-endian numbers. This is a test of the crate `test_examples`:
//!
//! ```
//! fn numbers_at_offsets(rt: HostRuntime) {
//!     let bytes = b"\x10\0\x34\x12\0\0";
//!     assert_eq!(rt; u16_at(bytes, 0), 16);
//!     assert_eq!(rt; u32_at(bytes, 2), 0x1234);
//! }
//! ```
#![tactic(auto)]

mod field;
mod name;
mod number;

pub use field::fits;
pub use name::{name_at, rest_from};
pub use number::{push_u32, u16_at, u32_at};
