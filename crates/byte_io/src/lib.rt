//! What takes bytes, and what gives them.
//!
//! All reading and writing of the project goes through four traits. A fault of the system is a
//! value, and the contracts of the traits say what it means.
//!
//! - [`Sink`] takes bytes. [`Out`] makes a sink of any `Write`, and [`put_all`] writes a whole
//!   slice into a sink.
//! - [`Source`] gives bytes. [`In`] makes a source of any `Read`, and [`read_all`] reads a whole
//!   source.
//! - [`ReadAt`] gives bytes from any position. [`Seeking`] makes a `ReadAt` of any file that can
//!   seek. A slice is a `ReadAt` by itself, and so is an input that was [`Opened`]. Each of them may
//!   [`Lend`] its bytes, where they are in memory.
//! - [`Inputs`] are several inputs that are read one after the other. An input is [`Opened`] to be
//!   read by position, or read to its end.
//! - [`Limited`] is why a part is not read, where its length is limited.
//!
//! What is proved: a sink took just the bytes that its calls say, in order. After [`NotTaken`] it
//! took a proper prefix of the bytes. A sink or a source that broke stays broken. None of this says
//! anything of a writer or a reader whose bytes are not known, such as a file.
//!
//! # Example
//!
//! `byte_io` writes into whatever takes bytes. This is a test of the crate `test_examples`:
//!
//! ```
//! fn bytes_into_a_sink(rt: HostRuntime) -> Result<(), Fail> {
//!     let mut file = Vec::new(rt.alloc());
//!     put_all(&mut Out::new(&mut file), b"two parts")?;
//!     assert_eq!(rt; file.as_slice(), b"two parts".as_slice());
//!     Ok(())
//! }
//! ```
#![tactic(auto)]

mod at;
mod fault;
mod input;
mod inputs;
mod limited;
mod sink;
mod source;

pub use at::{AtFault, Lend, ReadAt, Seeking, read_more, read_over};
pub use fault::NotTaken;
pub use input::{ReadFault, read_all, read_into, skip_all};
pub use inputs::{InputFault, Inputs, Opened};
pub use limited::Limited;
pub use sink::{Out, Sink, put_all};
pub use source::{In, Source};
