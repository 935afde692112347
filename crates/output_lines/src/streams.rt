//! The lines of a container and of its streams.

ghost use Rattle.std.specs.Prelude.{◌≡◌, ◌++◌, ◌<◌, length, take, OnOk, IfOk, IfSome, string_bytes, slice_get};
ghost use Rattle.std.specs.List.{flat_map};
ghost use Rattle.msf_streams.specs.Streams.{blocks_in};
ghost use Rattle.output_lines.specs.Streams.{blank_number, container_with, stream_line, stream_lines};

use msf_blocks::{Layout, blocks_for};
use output_words::{push_decimal, push_named, push_number};
use std::alloc::{AllocError, Allocator};

/// Appends the lines on the container, of which this many blocks are free.
#[tactic(auto, unfolding(crate::specs::Streams::container_with))]
fn push_container<A: Allocator, L: Allocator>(
    text: &mut String<A>,
    free: u32,
    layout: &Layout<L>,
) -> Result<(), AllocError>
    ensures { OnOk result
        (string_bytes text.new ≡ string_bytes text.old ++ container_with free layout.now) }
{
    let superblock = layout.superblock();
    push_named(text, "block-size", superblock.block_size())?;
    push_named(text, "blocks", superblock.num_blocks())?;
    push_named(text, "free", free)?;
    push_named(text, "directory", superblock.directory_bytes())?;
    push_named(text, "streams", layout.streams())?;
    Ok(())
}

/// Appends the numbers of the first `count` blocks of a stream, each after a space.
fn push_blocks<A: Allocator, L: Allocator>(
    text: &mut String<A>,
    layout: &Layout<L>,
    s: u32,
    count: u32,
) -> Result<(), AllocError>
    ensures { OnOk result (string_bytes text.new ≡ string_bytes text.old
        ++ flat_map blank_number (take count (blocks_in (slice_get layout.now.streams s)))) }
{
    for k in 0..count {
        let Some(block) = layout.block(s, k) else {
            return Ok(());
        };
        push_number(text, u64::from(block))?;
    }
    Ok(())
}

/// Appends the line of the `s`-th stream: its number, its size in bytes and its blocks.
#[tactic(auto, unfolding(crate::specs::Streams::stream_line))]
fn push_stream<A: Allocator, L: Allocator>(
    text: &mut String<A>,
    layout: &Layout<L>,
    s: u32,
) -> Result<(), AllocError>
    requires { s < length layout.now.streams }
    ensures { OnOk result (IfSome (slice_get layout.now.streams s) (λ stream.
        string_bytes text.new ≡ string_bytes text.old ++ stream_line s stream)) }
{
    let block_size = layout.superblock().block_size();
    let size = layout.size(s).unwrap_or(0);
    push_decimal(text, u64::from(s))?;
    push_number(text, u64::from(size))?;
    push_blocks(text, layout, s, blocks_for(block_size, size))?;
    text.push_str("\n")?;
    Ok(())
}

/// Appends the lines of all streams.
#[tactic(auto, unfolding(crate::specs::Streams::stream_lines))]
fn push_streams<A: Allocator, L: Allocator>(
    text: &mut String<A>,
    layout: &Layout<L>,
) -> Result<(), AllocError>
    ensures { OnOk result
        (string_bytes text.new ≡ string_bytes text.old ++ stream_lines 0 layout.now.streams) }
{
    for s in 0..layout.streams() {
        push_stream(text, layout, s)?;
    }
    Ok(())
}

/// The text of a container, of which this many blocks are free.
pub fn layout_text<A: Allocator + Copy>(
    alloc: A,
    free: u32,
    layout: &Layout<A>,
) -> Result<String<A>, AllocError>
    ensures { IfOk result (λ text.
        string_bytes text ≡ container_with free layout.now ++ stream_lines 0 layout.now.streams) }
{
    let mut text = String::new(alloc);
    push_container(&mut text, free, layout)?;
    push_streams(&mut text, layout)?;
    Ok(text)
}
