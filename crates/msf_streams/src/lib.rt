//! The bytes of streams, read from a container and written into a new one.
//!
//! The bytes of a stream are in blocks of the file. The stream directory lists these blocks in
//! order, and they need not be next to each other. Each block is full of the stream's bytes, but
//! the stream may end within the last one. All the bytes of a stream, in order, are its *contents*.
//!
//! - [`pieces`] lends the contents from the file, in one piece for each block. It does not
//!   allocate, so it reads streams of any size.
//! - [`lent`] lends the contents as one part of the file, exactly where the blocks are consecutive. It
//!   does not allocate.
//! - [`gather`] copies the contents into one buffer, for a reader of fields that cross from one
//!   block into the next. It allocates the whole buffer before it copies anything.
//! - [`gather_at`] gathers the contents by position, and reads no other byte of the file.
//! - [`contents_at`] lends the contents where they are in memory and the blocks are consecutive.
//!   Most files keep their long streams so. Otherwise it gathers them.
//! - A [`Container`] is a file with its layout, as one value.
//! - [`write_image`] writes the *image* of five streams: the container that holds just these
//!   streams. [`write_parts`] does the same for streams that are lent in several parts, and
//!   [`write_streams`] goes on with texts in an order of their own, and returns the length of the
//!   image.
//! - [`image_len`] computes the length of an image, or says that there is none.
//! - [`laws`] says what holds of every image and of every stream. For example, an image reads back
//!   as the streams that it was made of.
//!
//! Streams are numbered from 0, in the order of the directory. A nil stream and a stream of length
//! 0 have empty contents and no pieces. Only a number that is not the number of a stream is
//! refused. Streams may share blocks: each stream is read as it is listed.
//!
//! The functions that read take the file and its checked `Layout`. Every block number in a
//! `Layout` is the number of a block of the file, so nothing here checks it again.
//!
//! There is one image for given streams and a given block size. It has the superblock, the block
//! map, the directory and the contents of the streams, each padded with zeros to whole blocks. They
//! fill the blocks that are not map blocks, one after the other.
//!
//! What is proved: there is one piece for each listed block, in order, and the joined pieces are
//! the contents. Byte `i` of the contents is in block `i / block size` of the stream's list
//! (`in_blocks` of `specs/Blocks` of `msf_blocks`). A stream of the layout is refused only when out of memory. The
//! bytes that are written are the image (`image` of `specs/Image`), or its first bytes where the
//! sink breaks. Streams are refused exactly where they have no image.
//! ("The MSF File Format", "The Stream Directory".)
//!
//! # Example
//!
//! `msf_streams` gathers the bytes of a stream, or lends them. This is a test of the crate
//! `test_examples`:
//!
//! ```
//! fn the_bytes_of_a_stream(rt: HostRuntime) -> Result<(), Fail> {
//!     let file = sample(rt.alloc())?;
//!     let layout = Layout::read(rt.alloc(), &file)?;
//!     let stream = gather(rt.alloc(), &file, &layout, 2)?;
//!     assert_eq!(rt; stream.len(), 80);
//!     for piece in pieces(&file, &layout, 2).ok_or("no stream 2")? {
//!         assert_eq!(rt; piece, stream.as_slice());
//!     }
//!     Ok(())
//! }
//! ```
#![tactic(auto)]

mod at;
mod container;
mod fault;
mod front;
mod image;
mod image_writer;
pub mod laws;
mod part;
mod streams;
mod write;

pub use at::{contents_at, gather_at};
pub use container::Container;
pub use fault::{StreamFault, WriteFault};
pub use image::image_len;
pub use part::lent;
pub use streams::{StreamPieces as Pieces, gather, pieces};
pub use write::{write_image, write_parts, write_streams};
