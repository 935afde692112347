//! What a run of `pdbmerge` can be asked for, as values.
//!
//! [`Shown`] is a command that shows a file, [`Scope`] which types `diff` shows, [`Making`] how `merge` makes its
//! file, [`GuidChoice`] which GUID that file has, and [`OnRefused`] what becomes of an input that is refused.
//!
//! `command_line` reads these values, and the commands run by them. They stand in a crate of their own so that
//! neither waits for the proofs of the other.
//!
//! # Example
//!
//! `run_options` says what is asked for. This is a test of the crate `test_examples`:
//!
//! ```
//! fn types_that_are_asked_for(rt: HostRuntime) -> Result<(), Fail> {
//!     let file = sample(rt.alloc())?;
//!     let (files, mut text) = ([file.as_slice()], Vec::new(rt.alloc()));
//!     let out = &mut Out::new(&mut text);
//!     run_shown(rt.alloc(), Shown::Types, &files.as_slice(), u32::MAX, out)?;
//!     assert!(rt; text.starts_with(b"0x1000 "));
//!     Ok(())
//! }
//! ```
#![tactic(auto)]

mod guid_choice;
mod making;
mod on_refused;
mod scope;
mod shown;

pub use guid_choice::GuidChoice;
pub use making::Making;
pub use on_refused::OnRefused;
pub use scope::Scope;
pub use shown::Shown;
