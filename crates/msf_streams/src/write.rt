//! Writes an image into a sink.

ghost use Rattle.std.specs.Prelude.{◌≡◌, ◌<◌, ◌≤◌, ◌^◌, ◌++◌, [], true, All, length, map, IfSome, IfNone, IfOk, OnOk, OnErr};
ghost use Rattle.std.specs.List.{concat};
ghost use Rattle.std.specs.Io.KnownBytes.{Appends};
ghost use Rattle.msf_superblock.specs.BlockNumber.{IsBlockSize};
ghost use Rattle.msf_streams.specs.Image.{image, contents_of, joined, joined_of};
ghost use Rattle.msf_streams.specs.Put.{AppendsPart, IsImageFront};
ghost use Rattle.msf_streams.specs.Write.{WritesImage, with_texts};

use crate::fault::WriteFault;
use crate::front::Front;
use crate::image::image_len;
use crate::image_writer::{ImageWriter, texts_after};
use byte_io::{NotTaken, Sink};
use msf_blocks::BlockSize;
use packed_texts::OrderedTexts;
use std::alloc::Allocator;

// So many bytes of texts are put at once.
const CHUNK: usize = 1 << 18;

/// A length as a `u32`. `None` where it does not fit.
fn size_of(len: usize) -> Option<u32>
    ensures some { IfSome result (λ size. size ≡ len) }
    ensures none { IfNone result (2 ^ 32 ≤ len) }
{
    u32::try_from(len).ok()
}

/// The length of a stream that is lent in parts. `None` where it does not fit in a `u32`.
fn joined_len(parts: &[&[u8]]) -> Option<u32>
    ensures some { IfSome result (λ size.
        (size ≡ length (joined parts.now)) × (length (joined parts.now) < 2 ^ 32)) }
    ensures none { IfNone result (2 ^ 32 ≤ length (joined parts.now)) }
{
    let mut len: u32 = 0;
    for part in parts {
        len = len.checked_add(size_of(part.len())?)?;
    }
    Some(len)
}

/// The length of a stream of parts and then texts. `None` where it does not fit in a `u32`.
fn stream_len<A: Allocator>(parts: &[&[u8]], texts: &OrderedTexts<A>) -> Option<u32>
    ensures some { IfSome result (λ size. (size ≡ length (joined parts.now ++ concat texts.now))
        × (length (joined parts.now ++ concat texts.now) < 2 ^ 32)) }
    ensures none { IfNone result (2 ^ 32 ≤ length (joined parts.now ++ concat texts.now)) }
{
    let texts = size_of(texts.bytes_len())?;
    joined_len(parts)?.checked_add(texts)
}

/// The sizes of streams in bytes, with texts after the parts of stream 2. `None` where one does not
/// fit in a `u32`. `none` has no texts.
fn sizes_of<A: Allocator>(
    streams: &[&[&[u8]]; 5],
    texts: &OrderedTexts<A>,
    none: &OrderedTexts<A>,
) -> Option<[u32; 5]>
    requires { none.now ≡ [] }
    ensures some { IfSome result (λ sizes. sizes ≡ map length (with_texts streams.now texts.now)) }
    ensures short { IfSome result (λ _.
        All (λ bytes. length bytes < 2 ^ 32) (with_texts streams.now texts.now)) }
    ensures none { IfNone result
        (All (λ bytes. length bytes < 2 ^ 32) (with_texts streams.now texts.now) → ⊥) }
{
    let mut sizes = [0; 5];
    for s in 0..5 {
        sizes[s] = stream_len(streams[s], texts_after(texts, none, s))?;
    }
    Some(sizes)
}

/// Puts the image of these streams into a sink. `front` is the front of this image, and `writer` is
/// at its first byte. The texts come after the parts of stream 2, and are collected in `chunk`.
/// `none` has no texts.
fn put_image<W: Sink, A: Allocator>(
    writer: &mut ImageWriter<A>,
    front: &Front<A>,
    streams: &[&[&[u8]]; 5],
    texts: &OrderedTexts<A>,
    none: &OrderedTexts<A>,
    chunk: &mut Vec<u8, A>,
    out: &mut W,
) -> Result<(), NotTaken>
    requires none { none.now ≡ [] }
    requires start { writer.old.position ≡ 0 }
    requires front { IsImageFront writer.old.block_size writer.old.num_blocks
        (map length (with_texts streams.now texts.now))
        front.now.superblock front.now.block_map.items front.now.directory.items }
    ensures ok { OnOk result (Appends (W.taken out.old) (W.taken out.new)
        (image writer.old.block_size (with_texts streams.now texts.now))) }
    ensures broken { OnErr result (W.is_broken out.new ≡ true) }
    ensures prefix { OnErr result (AppendsPart (W.taken out.old) (W.taken out.new)
        (image writer.old.block_size (with_texts streams.now texts.now))) }
{
    writer.put_part(&front.superblock, none, chunk, out)?;
    writer.put_part(&front.block_map, none, chunk, out)?;
    writer.put_part(&front.directory, none, chunk, out)?;
    writer.put_streams(streams, texts, none, chunk, out)
}

/// Writes the image of five streams into a sink: the container that holds just these streams.
/// Returns the length of the image in bytes.
///
/// Each stream is the concatenation of its parts. Stream 2, where a PDB has its type records, goes
/// on with the texts, in their order. A block has `block_size` bytes: 512, 1,024, 2,048, 4,096,
/// 8,192, 16,384 or 32,768. After the superblock come the block map, the directory and the streams
/// in turn. Each of them begins at the front of a block. The free block maps say that every block of
/// the file is in use.
///
/// The faults, in the order in which they are checked:
///
/// 1. `Image`: a stream has more than 4,294,967,295 bytes, or [`image_len`] of the sizes is `None`.
/// 2. `Memory`: out of memory for the block map, the directory or one block, or for at most 256 KB
///    in which texts are collected. Nothing else is allocated, and all of it is allocated before the
///    first byte is written.
/// 3. `Write`: the sink broke. It took only the first bytes of the image, or none.
///
/// The sink is unchanged after `Image` and `Memory`. ("The MSF File Format".)
#[tactic(auto, using(msf_superblock::proofs::SizeLaws::some_bytes, crate::proofs::ImageLaws::count_back))]
pub fn write_streams<W: Sink, A: Allocator + Copy>(
    alloc: A,
    block_size: u32,
    streams: &[&[&[u8]]; 5],
    texts: &OrderedTexts<A>,
    out: &mut W,
) -> Result<u32, WriteFault>
    requires { IsBlockSize block_size }
    ensures image { WritesImage block_size (with_texts streams.now texts.now) W.taken W.is_broken
        out.old out.new result }
    ensures len { IfOk result (λ len.
        len ≡ length (image block_size (with_texts streams.now texts.now))) }
{
    let none = OrderedTexts::empty(alloc);
    let Some(sizes) = sizes_of(streams, texts, &none) else {
        return Err(WriteFault::Image);
    };
    let Some(len) = image_len(&sizes, block_size) else {
        return Err(WriteFault::Image);
    };
    let num_blocks = len / block_size;
    let block_size = BlockSize::of(block_size);
    let front = Front::new(alloc, block_size, num_blocks, &sizes)?;
    let mut writer = ImageWriter::new(alloc, block_size, num_blocks)?;
    let mut chunk = Vec::with_capacity(alloc, texts.bytes_len().min(CHUNK))?;
    put_image(&mut writer, &front, streams, texts, &none, &mut chunk, out)?;
    Ok(len)
}

/// Writes the image of five streams into a sink. Each stream is the concatenation of its parts.
///
/// Everything else is as in [`write_streams`], which this calls. ("The MSF File Format".)
#[tactic(auto, using(crate::proofs::PutLaws::without_texts))]
pub fn write_parts<W: Sink, A: Allocator + Copy>(
    alloc: A,
    block_size: u32,
    streams: &[&[&[u8]]; 5],
    out: &mut W,
) -> Result<(), WriteFault>
    requires { IsBlockSize block_size }
    ensures { WritesImage block_size (joined_of streams.now) W.taken W.is_broken out.old
        out.new result }
{
    let none = OrderedTexts::empty(alloc);
    write_streams(alloc, block_size, streams, &none, out)?;
    Ok(())
}

/// Writes the image of five streams into a sink, each of which is lent in one part.
///
/// Everything else is as in [`write_parts`], which this calls. ("The MSF File Format".)
#[tactic(auto, using(crate::proofs::PutLaws::joined_one))]
pub fn write_image<W: Sink, A: Allocator + Copy>(
    alloc: A,
    block_size: u32,
    streams: &[&[u8]; 5],
    out: &mut W,
) -> Result<(), WriteFault>
    requires { IsBlockSize block_size }
    ensures { WritesImage block_size (contents_of streams.now) W.taken W.is_broken out.old
        out.new result }
{
    let [first, second, third, fourth, fifth] = *streams;
    write_parts(
        alloc,
        block_size,
        &[&[first], &[second], &[third], &[fourth], &[fifth]],
        out,
    )
}
