//! The sample with one byte changed to each other value.

use super::calls::read;
use msf_blocks::MsfFault;
use pdb_merge::{Buffer, PdbFault};
use std::alloc::Global;
use std::test::Fail;
use test_samples::sample;

/// Whether the sample is accepted whatever the byte at this offset is: an unknown field of the
/// superblock, a free block map, an unused part of a block, the info stream, or a part of the type
/// stream that no rule is about.
fn is_free(at: usize) -> bool {
    matches!(
        at,
        48..=51 | 56..=1535 | 1540..=2047 | 2080..=3071 | 3092..=3127 | 3148..=3583
    )
}

/// Whether a file whose byte at this offset is not that of the sample is refused or accepted as it
/// has to be. Some bytes are in neither group.
fn is_right(alloc: Global, file: &[u8], at: usize, buffer: &mut Buffer) -> bool {
    let found = read(alloc, file, buffer);
    if at < 32 {
        return found == Err(PdbFault::Msf(MsfFault::Magic));
    }
    !is_free(at) || found == Ok((2, 24, 1))
}

#[test]
fn each_changed_byte(rt: HostRuntime) -> Result<(), Fail> {
    let mut file = sample(rt.alloc())?;
    let mut buffer = Buffer::new(rt.alloc());
    for at in 0..file.len() {
        let old = file[at];
        for change in 1..=255u8 {
            file[at] = old ^ change;
            assert!(rt; is_right(rt.alloc(), &file, at, &mut buffer), "{at}");
        }
        file[at] = old;
    }
    Ok(())
}
