//! The streams of an MSF container: its stream directory and its free block maps.
//!
//! A container is a file that is cut into blocks. The superblock at its front gives the block map,
//! the block map lists the blocks of the stream directory, and the directory lists each stream: its
//! size in bytes and the numbers of its blocks ("The MSF File Format").
//!
//! - [`Layout::read`] checks and reads the superblock and the stream directory. Each block number in
//!   a [`Layout`] is the number of a block of the file, so the crates above need no check of their
//!   own.
//! - [`Layout::read_at`] does the same by position, and [`read_blocks`] reads the bytes in a list of
//!   blocks. Of a file they read no more than they need. [`Layout::read_within`] refuses a directory
//!   that is too long before it reads it.
//! - [`block_map_bytes`], [`directory_bytes`] and [`fill_map_block`] write the parts of an image that
//!   are neither streams nor the superblock.
//! - [`free_bit`] reads the free block map in force, and [`free_blocks`] counts the blocks that it
//!   says are free, as [`free_blocks_at`] does by position.
//! - [`Superblock`], [`BlockSize`] and what belongs to them are those of the crate `msf_superblock`.
//! - [`Sink`], [`Source`] and what belongs to them are those of the crate `byte_io`.
//! - [`laws`] says what holds of every container: a file has at most one layout, and what reads gave
//!   of a file that is known is what the file has.
//!
//! A reader refuses a container with the fault of the first check that fails. The checks are made
//! in the order of the variants of [`MsfFault`].
//!
//! # Example
//!
//! `msf_blocks` reads where the streams of a file are. This is a test of the crate `test_examples`:
//!
//! ```
//! fn the_streams_of_a_file(rt: HostRuntime) -> Result<(), Fail> {
//!     let file = sample(rt.alloc())?;
//!     let layout = Layout::read(rt.alloc(), &file)?;
//!     assert_eq!(rt; layout.superblock().block_size(), 512);
//!     assert_eq!(rt; layout.streams(), 5);
//!     assert_eq!(rt; layout.size(2), Some(80));
//!     assert_eq!(rt; layout.block(2, 0), Some(6));
//!     Ok(())
//! }
//! ```
#![tactic(auto)]

mod blocks;
mod directory;
mod directory_at;
mod free_map;
pub mod laws;
mod layout;
mod window;
mod without_memory;

pub use blocks::read_blocks;
pub use byte_io::{In, NotTaken, Out, Sink, Source, put_all};
pub use directory::{block_map_bytes, directory_bytes};
pub use free_map::{fill_map_block, free_bit, free_blocks, free_blocks_at};
pub use layout::Layout;
pub use msf_superblock::{
    BlockSize, MAGIC, MsfFault, Superblock, blocks_for, is_block_size, is_map_block, nth_block,
    superblock_bytes,
};
