//! The bytes of one stream, read by position.

ghost use Rattle.std.specs.Prelude.{◌≡◌, ◌⊎◌, ◌≤◌, ◌<◌, length, max, take, Some, IfOk, IfErr};
ghost use Rattle.byte_io.specs.At.{IfKnown, IfOf, Reads};
ghost use Rattle.msf_blocks.specs.Layout.{HasLayout};
ghost use Rattle.msf_superblock.specs.Superblock.{HoldsBlocks};
ghost use Rattle.msf_streams.specs.Streams.{WasRead, stream_contents};

use crate::fault::StreamFault;
use crate::part::part_of;
use byte_io::{AtFault, Lend, ReadAt, ReadFault};
use msf_blocks::{Layout, read_blocks};
use std::alloc::Allocator;

/// Reads all the bytes of the `s`-th stream, from 0, over the first bytes of a buffer, which grows
/// where it is shorter. Returns how many there are.
pub(crate) fn fill<R: ReadAt, A: Allocator, L: Allocator>(
    input: &mut R,
    layout: &Layout<L>,
    s: u32,
    buffer: &mut Vec<u8, A>,
) -> Result<usize, AtFault<StreamFault>>
    requires { IfKnown (R.bytes input.old) (λ file. HoldsBlocks file layout.now.superblock) }
    ensures reads { Reads R.bytes R.is_broken input.old input.new result }
    ensures len { IfOk result (λ len.
        length buffer.new.items ≡ max (length buffer.old.items) len) }
    ensures value { IfOk result (λ len. IfKnown (R.bytes input.old) (λ file.
        stream_contents file layout.now s ≡ Some (take len buffer.new.items))) }
    ensures text { IfOk result (λ len.
        WasRead (R.bytes input.old) layout.now s (take len buffer.new.items)) }
    ensures found { s < length layout.now.streams →
        IfErr result (IfOf (λ fault. fault ≡ StreamFault.Memory)) }
    ensures first { IfErr result (IfOf (λ fault.
        ((fault ≡ StreamFault.NoStream s) × (length layout.now.streams ≤ s))
        ⊎ ((fault ≡ StreamFault.Memory) × (s < length layout.now.streams)))) }
{
    let Some(size) = layout.size(s) else {
        return Err(AtFault::Of(StreamFault::NoStream(s)));
    };
    let Some(blocks) = layout.blocks(s) else {
        return Err(AtFault::Of(StreamFault::NoStream(s)));
    };
    match read_blocks(
        input,
        layout.superblock().block_size(),
        blocks,
        size,
        buffer,
    ) {
        Ok(()) => Ok(size as usize),
        Err(ReadFault::Memory) => Err(AtFault::Of(StreamFault::Memory)),
        Err(_) => Err(AtFault::Read),
    }
}

/// All the bytes of the `s`-th stream, from 0, read by position over the first bytes of a buffer,
/// and lent from there.
///
/// `layout` has to be the layout of what is read. Consecutive blocks are read at once, and no other
/// byte of the file is read. The buffer grows where it is shorter than the stream, before anything
/// is read. The faults are those of [`gather`](crate::gather), and `AtFault::Read` where a read
/// failed. ("The MSF File Format", "The Stream Directory".)
pub fn gather_at<'a, R: ReadAt, A: Allocator, L: Allocator>(
    input: &mut R,
    layout: &Layout<L>,
    s: u32,
    buffer: &'a mut Vec<u8, A>,
) -> Result<&'a [u8], AtFault<StreamFault>>
    requires { IfKnown (R.bytes input.old) (λ file. HoldsBlocks file layout.now.superblock) }
    ensures reads { Reads R.bytes R.is_broken input.old input.new result }
    ensures value { IfOk result (λ bytes. IfKnown (R.bytes input.old) (λ file.
        stream_contents file layout.now s ≡ Some bytes.now)) }
    // Even if the file's bytes are not known, these are bytes that reads gave.
    ensures text { IfOk result (λ bytes.
        WasRead (R.bytes input.old) layout.now s bytes.now) }
    ensures found { s < length layout.now.streams →
        IfErr result (IfOf (λ fault. fault ≡ StreamFault.Memory)) }
    ensures first { IfErr result (IfOf (λ fault.
        ((fault ≡ StreamFault.NoStream s) × (length layout.now.streams ≤ s))
        ⊎ ((fault ≡ StreamFault.Memory) × (s < length layout.now.streams)))) }
{
    let len = fill(input, layout, s, buffer)?;
    Ok(&buffer[..len])
}

/// All the bytes of the `s`-th stream, from 0: lent where its blocks are consecutive and in memory,
/// and otherwise gathered over the first bytes of a buffer.
///
/// `layout` has to be the layout of what is read. The faults are those of [`gather_at`]. ("The MSF
/// File Format", "The Stream Directory".)
pub fn contents_at<'a, 'b: 'a, R: Lend<'b>, A: Allocator, L: Allocator>(
    input: &mut R,
    layout: &Layout<L>,
    s: u32,
    buffer: &'a mut Vec<u8, A>,
) -> Result<&'a [u8], AtFault<StreamFault>>
    requires { IfKnown (R.bytes input.old) (λ file. HasLayout file layout.now) }
    ensures reads { Reads R.bytes R.is_broken input.old input.new result }
    ensures value { IfOk result (λ bytes. IfKnown (R.bytes input.old) (λ file.
        stream_contents file layout.now s ≡ Some bytes.now)) }
    // Even if the file's bytes are not known, these are bytes that reads gave.
    ensures text { IfOk result (λ bytes.
        WasRead (R.bytes input.old) layout.now s bytes.now) }
    ensures found { s < length layout.now.streams →
        IfErr result (IfOf (λ fault. fault ≡ StreamFault.Memory)) }
    ensures first { IfErr result (IfOf (λ fault.
        ((fault ≡ StreamFault.NoStream s) × (length layout.now.streams ≤ s))
        ⊎ ((fault ≡ StreamFault.Memory) × (s < length layout.now.streams)))) }
{
    if let Some(part) = part_of(input, layout, s) {
        return Ok(part);
    }
    gather_at(input, layout, s, buffer)
}
