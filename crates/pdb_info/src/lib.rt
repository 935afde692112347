//! Reads and writes the info stream of a PDB: its header, the streams that have a name, and the
//! feature codes.
//!
//! An info stream is a header of 28 bytes, the named stream map, and feature codes up to the end of
//! the stream. The map has a buffer of names and a hash table. A NUL ends each name in the buffer.
//! The hash table has Size and Capacity, a bit for each bucket that says whether it is present, a
//! bit for each bucket that says whether it was deleted, and a pair for each present bucket: the
//! offset of the name in the buffer, and the number of the stream. A word of 0, the closing word,
//! follows the pairs; older files do not have it.
//!
//! - [`info_stream`] says which stream of a container is its info stream, if it has one.
//! - [`InfoHeader::read`] reads the header alone: version, signature, age and GUID.
//! - [`Info::read`] checks and reads the whole stream. The names are lent from the stream, and
//!   [`names_length`] says how many bytes they have together.
//! - [`info_bytes`] makes the info stream of a file that is written: a header with the age and the
//!   GUID of its [`Settings`], no named stream and no feature code.
//! - [`guid_bytes`] and [`guid_of`] convert between a GUID and the bytes that store it.
//! - [`InfoFault`] says which check a stream fails first.
//!
//! An *offset* is in bytes from the front of the stream. The offset of a name is in bytes from the
//! front of the buffer. A *bucket* is a position in the hash table, from 0. Bucket 32 * w + b is
//! bit b of word w, and bit 0 is the lowest.
//!
//! Every check is made before anything is allocated, and a length in the stream is used only after
//! a check that it fits. So a stream that announces more than it has is refused before anything is
//! allocated.
//!
//! Each bit and each number is read a fixed number of times, and an info stream is read in linear
//! time. Names may share bytes of the buffer, so the end of a name is not searched from its offset on:
//! the next NUL is found once for each 64th byte of the buffer.
//!
//! What is proved: the bytes of a stream that is read are just what the format says for the values
//! that were read (`HasInfo` of `specs/Info`). A stream of this form is refused only when out of
//! memory. A fault names the first check that fails, or `Memory` where no check fails. A written
//! info stream has this form, for the age and the GUID of its settings. ("The PDB Info Stream".)
//!
//! # Example
//!
//! `pdb_info` reads what identifies a file. This is a test of the crate `test_examples`:
//!
//! ```
//! fn the_guid_of_a_file(rt: HostRuntime) -> Result<(), Fail> {
//!     let file = sample(rt.alloc())?;
//!     let layout = Layout::read(rt.alloc(), &file)?;
//!     let stream = gather(rt.alloc(), &file, &layout, 1)?;
//!     let info = Info::read(rt.alloc(), &stream)?;
//!     let guid = info.header().guid().to_string(rt.alloc())?;
//!     assert_eq!(rt; info.header().age(), 1);
//!     assert_eq!(rt; guid.as_str(), "00112233-4455-6677-8899-aabbccddeeff");
//!     Ok(())
//! }
//! ```
#![tactic(auto)]

mod fault;
mod guid;
mod header;
mod info;
mod map;
mod name_ends;
mod names;
mod pairs;
mod settings;
mod stream;
mod written;

pub use fault::InfoFault;
pub use guid::{guid_bytes, guid_of};
pub use header::InfoHeader;
pub use info::Info;
pub use names::{Name, names_length};
pub use settings::Settings;
pub use stream::{INFO_STREAM, info_stream};
pub use written::info_bytes;
