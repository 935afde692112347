//! The commands that show a file, each as a function from bytes to bytes.
//!
//! [`run_shown`] runs each of them but `members`. It opens the one input, and reads by position only
//! what the command needs; where a read by position fails, it reads the whole input. It makes the
//! whole text, and then writes it into a [`Sink`](byte_io::Sink). [`run_records`], [`run_record`],
//! [`run_types`], [`run_check`], [`run_info`] and [`run_streams`] read a
//! [`Source`](byte_io::Source) to its end. [`run_members`] shows the definitions of the types of an
//! input, with their members. Each refusal is a [`RunFault`], which the commands on several files have
//! as well.
//!
//! They have this in common. The input may have at most `limit` bytes, and so may its directory, the
//! stream that is read, and the names of streams. The whole text is made before any of it is written.
//! The faults of reading come first, then the command's own faults, and last `36 Write`: the sink did
//! not take the whole text. After `36 Write` the sink is broken and took the first bytes of the text.
//! After any other refusal nothing was written.
//!
//! What is proved: the text that is written is the text of the file (`Shows..` of
//! `specs/`), byte for byte. A refusal is the first fault of reading or of the file. What the sink
//! took after a refusal is proved too. This is proved of files whose bytes are known, such as slices.
//! Of every input it is proved that the text or the fault is that of what opening it gave; or, where
//! a read of that failed, of what reading it to its end gave (`ShowsInput`, `RefusesInput`).
//!
//! The module `command` makes the texts, and each command has a module of its own. The lines are those
//! of the crate `output_lines`.
//!
//! # Example
//!
//! `show_commands` runs a command on bytes. This is a test of the crate `test_examples`:
//!
//! ```
//! fn a_check_of_a_file(rt: HostRuntime) -> Result<(), Fail> {
//!     let file = sample(rt.alloc())?;
//!     let mut text = Vec::new(rt.alloc());
//!     run_check(
//!         rt.alloc(),
//!         &mut In::new(file.as_slice()),
//!         u32::MAX,
//!         &mut Out::new(&mut text),
//!     )?;
//!     assert_eq!(rt;
//!         text.as_slice(),
//!         b"accepted\nrecords 2\nbytes 24\nlevels 1\n".as_slice()
//!     );
//!     Ok(())
//! }
//! ```
#![tactic(auto)]

mod check;
mod command;
mod fault;
mod info;
mod members;
mod record;
mod records;
mod shown;
mod streams;
mod types;

pub use check::run_check;
pub use fault::RunFault;
pub use info::run_info;
pub use members::run_members;
pub use record::run_record;
pub use records::run_records;
pub use shown::run_shown;
pub use streams::run_streams;
pub use type_expressions::{Asked, Found, Query};
pub use types::run_types;
