//! The superblock of an MSF container, and the sizes and numbers of its blocks.
//!
//! A container is a file that is cut into blocks of one size. The superblock at its front says which
//! size that is, how many blocks there are, and where the block map is that lists the blocks of the
//! stream directory ("The MSF File Format").
//!
//! - [`Superblock::read`] checks and reads the superblock, and [`Superblock::read_at`] does so by
//!   position. [`superblock_bytes`] writes one.
//! - [`BlockSize`] is a size that a block may have. [`is_block_size`] says which sizes these are,
//!   and [`blocks_for`] how many blocks hold a number of bytes.
//! - [`nth_block`] and [`is_map_block`] tell map blocks from other blocks. [`is_ordinary`] says
//!   which blocks may hold the bytes of a stream.
//!
//! A reader refuses a container with the fault of the first check that fails. The checks are made
//! in the order of the variants of [`MsfFault`], which are those of the whole container: the crate
//! `msf_blocks` makes the checks of the stream directory.
//!
//! # Example
//!
//! `msf_superblock` reads what the front of a file says. This is a test of the crate
//! `test_examples`:
//!
//! ```
//! fn the_front_of_a_file(rt: HostRuntime) -> Result<(), Fail> {
//!     let superblock = Superblock::read(&sample(rt.alloc())?)?;
//!     assert_eq!(rt; superblock.block_size(), 512);
//!     assert_eq!(rt; superblock.num_blocks(), 7);
//!     assert_eq!(rt; blocks_for(512, superblock.directory_bytes()), 1);
//!     Ok(())
//! }
//! ```
#![tactic(auto)]

mod block_number;
mod block_size;
mod fault;
mod superblock;

pub use block_number::{blocks_for, is_map_block, is_ordinary, nth_block};
pub use block_size::{BlockSize, is_block_size};
pub use fault::MsfFault;
pub use superblock::{MAGIC, Superblock, superblock_bytes};
