//! What the container of a file has.

ghost use Rattle.std.specs.Prelude.{◌≡◌, ◌≢◌, ◌<◌, [], ℕ, List, length, map, OnOk, IfOk, IfErr};
ghost use Rattle.std.specs.List.{flat_map};
ghost use Rattle.msf_blocks.specs.Directory.{bytes_of};
ghost use Rattle.pdbmerge_c.specs.Container.{AreStreamBlocks, HasContainer, IsFaultOfContainer, RefusesContainer};
ghost use Rattle.pdbmerge_c.specs.Fault.{IsEnded, IsSaid};
ghost use Rattle.pdbmerge_c.specs.Given.{Copies, Fills};

use crate::fault::{Fault, refuse};
use crate::give::give;
use msf_blocks::{Layout, MsfFault, free_blocks};
use std::alloc::{AllocError, Global};

/// What the container of a file has.
#[repr(C)]
#[derive(Clone, Copy, Debug)]
pub struct ContainerCounts {
    /// How many bytes a block has.
    pub block_size: u32,
    /// How many blocks the superblock counts.
    pub blocks: u32,
    /// How many of them are free, by the free block map in force.
    pub free_blocks: u32,
    /// How many bytes the stream directory has.
    pub directory_bytes: u32,
    /// How many streams it lists.
    pub streams: u32,
}

/// Appends the sizes of all streams.
#[tactic(auto, using(crate::proofs::LayoutLaws::value_more))]
fn push_sizes(sizes: &mut Vec<u32>, layout: &Layout) -> Result<(), AllocError>
    requires { sizes.old.items ≡ [] }
    ensures { OnOk result
        (sizes.new.items ≡ map (λ stream. bytes_of stream.size) layout.now.streams) }
{
    for s in 0..layout.streams() {
        sizes.push(layout.size(s).unwrap_or(0))?;
    }
    Ok(())
}

/// Appends the blocks of all streams.
#[tactic(auto, using(crate::proofs::LayoutLaws::list_more))]
fn push_blocks(blocks: &mut Vec<u32>, layout: &Layout) -> Result<(), AllocError>
    requires { blocks.old.items ≡ [] }
    ensures { OnOk result
        (blocks.new.items ≡ flat_map (λ stream. stream.blocks) layout.now.streams) }
{
    for s in 0..layout.streams() {
        blocks.extend_from_slice(layout.blocks(s).unwrap_or(&[]))?;
    }
    Ok(())
}

/// What the container of a file has, and the sizes of its streams.
#[tactic(auto, using(msf_blocks::proofs::FoundLaws::layout_holds))]
fn list_sizes(alloc: Global, file: &[u8]) -> Result<(ContainerCounts, Vec<u32>), MsfFault>
    ensures value { IfOk result (λ found. HasContainer file.now found.0 found.1.items) }
    ensures first { IfErr result (IsFaultOfContainer file.now) }
{
    let layout = Layout::read(alloc, file)?;
    let superblock = layout.superblock();
    let container = ContainerCounts {
        block_size: superblock.block_size(),
        blocks: superblock.num_blocks(),
        free_blocks: free_blocks(file, superblock),
        directory_bytes: superblock.directory_bytes(),
        streams: layout.streams(),
    };
    let mut sizes = Vec::new(alloc);
    push_sizes(&mut sizes, &layout)?;
    Ok((container, sizes))
}

/// The blocks of all streams of a file.
#[tactic(auto, using(msf_blocks::proofs::FoundLaws::layout_holds))]
fn list_blocks(alloc: Global, file: &[u8]) -> Result<Vec<u32>, MsfFault>
    ensures value { IfOk result (λ blocks. AreStreamBlocks file.now blocks.items) }
    ensures first { IfErr result (IsFaultOfContainer file.now) }
{
    let layout = Layout::read(alloc, file)?;
    let mut blocks = Vec::new(alloc);
    push_blocks(&mut blocks, &layout)?;
    Ok(blocks)
}

/// Reads the container of a file, and lists the sizes of its streams in bytes, in the order of
/// their numbers. A nil stream has size 0.
///
/// The faults, in order: those of `Layout::read`; `ROOM`, and then `container` is set too.
#[tactic(auto, using(crate::proofs::NumberLaws::msf_known))]
#[unsafe(no_mangle)]
pub extern "C" fn pdbmerge_layout(
    alloc: Global,
    file: &[u8],
    container: &mut ContainerCounts,
    sizes: &mut [u32],
    fault: &mut Fault,
) -> u32
    ensures told { IsSaid fault.new result }
    ensures ended { IsEnded fault.new }
    ensures value { result ≡ 0 → (found : List ℕ) × HasContainer file.now container.new found
        × Fills found sizes.old sizes.new }
    ensures room { result ≡ 100 → (found : List ℕ) × HasContainer file.now container.new found
        × (length sizes.old < length found) }
    ensures refuses { result ≢ 0 → result ≢ 100 → RefusesContainer file.now fault.new }
    ensures untouched { result ≢ 0 → sizes.new ≡ sizes.old }
    ensures kept { result ≢ 0 → result ≢ 100 → container.new ≡ container.old }
{
    match list_sizes(alloc, file) {
        Ok((found, each)) => {
            let mut count = 0;
            *container = found;
            give(each.as_slice(), sizes, &mut count, fault)
        }
        Err(why) => refuse(fault, why.number(), None, &why),
    }
}

/// Lists the numbers of the blocks of all streams of a file, one stream after the other. `count` is
/// how many there are.
///
/// The faults, in order: those of `Layout::read`; `ROOM`, and then `count` is set too.
#[tactic(auto, using(crate::proofs::NumberLaws::msf_known))]
#[unsafe(no_mangle)]
pub extern "C" fn pdbmerge_blocks(
    alloc: Global,
    file: &[u8],
    blocks: &mut [u32],
    count: &mut u64,
    fault: &mut Fault,
) -> u32
    ensures { Copies (AreStreamBlocks file.now) (RefusesContainer file.now)
        blocks.old blocks.new count.old count.new fault.new result }
{
    match list_blocks(alloc, file) {
        Ok(found) => give(found.as_slice(), blocks, count, fault),
        Err(why) => refuse(fault, why.number(), None, &why),
    }
}
