//! Puts the parts of an image into a sink, with the map blocks between their bytes.
//!
//! Each part is padded with zeros to whole blocks. The parts one after the other are the *data* of
//! the image, and a *position* is an offset in the data, in bytes. The data is cut into stretches,
//! and two map blocks come before the first byte of each stretch. They are put right before that
//! byte, so no map blocks come after the last byte of the data.

ghost use Rattle.std.specs.Prelude.{◌≡◌, ◌≢◌, ◌⊎◌, ◌<◌, ◌≤◌, ◌^◌, ◌+◌, ◌*◌, ◌-◌, ◌++◌, [], true, length, take, IsTrue, IfOk, OnOk, OnErr};
ghost use Rattle.std.specs.List.{concat, flat_map};
ghost use lib.ListN.{replicate};
ghost use Rattle.std.specs.Io.KnownBytes.{Appends};
ghost use Rattle.msf_superblock.specs.BlockNumber.{blocks_for};
ghost use Rattle.msf_blocks.specs.FreeMap.{map_block};
ghost use Rattle.msf_streams.specs.Image.{padded, joined};
ghost use Rattle.msf_streams.specs.Write.{with_texts};
ghost use Rattle.msf_streams.specs.Put.{WriterView, IsSameImage, stretch, maps_of, maps_before, woven_from, room, AppendsPart};

use byte_io::{NotTaken, Sink, put_all};
use msf_blocks::{BlockSize, fill_map_block};
use packed_texts::OrderedTexts;
use std::alloc::{AllocError, Allocator};
use std::marker::Model;

/// The length of a stretch: how many bytes of data are between the map blocks of one interval and
/// the map blocks of the next.
#[tactic(auto, using(msf_superblock::proofs::SizeLaws::big_enough, crate::proofs::WovenLaws::stretch_long), unfolding(crate::specs::Put::stretch))]
fn stretch(block_size: BlockSize) -> usize
    ensures value { result ≡ stretch block_size }
    ensures long { 4 * block_size ≤ result }
{
    let size = block_size.bytes() as usize;
    size * (size - 2)
}

/// How many bytes of data follow a position in the file before the next map blocks.
#[tactic(auto, using(msf_superblock::proofs::SizeLaws::big_enough), unfolding(crate::specs::Put::room))]
fn room(block_size: BlockSize, position: usize) -> usize
    ensures value { result ≡ room block_size position }
    ensures big { 3 < block_size }
{
    let first = block_size.bytes() as usize;
    if position < first {
        return first - position;
    }
    let stretch = stretch(block_size);
    stretch - (position - first) % stretch
}

/// As many zeros as the largest block has bytes.
const ZEROS: [u8; 32768] = [0; 32768];

// So many texts ahead, a text is loaded: far enough that it is there in time.
const AHEAD: usize = 12;

/// `count` zeros.
fn zeros(count: usize) -> &'static [u8]
    requires { count ≤ 32768 }
    ensures { result.now ≡ replicate count 0 }
{
    &ZEROS[..count]
}

/// How many zeros pad `len` bytes to whole blocks.
#[tactic(auto, using(crate::proofs::PutLaws::fill_count, msf_superblock::proofs::SizeLaws::some_bytes))]
fn fill_len(block_size: BlockSize, len: usize) -> usize
    requires { len < 2 ^ 33 }
    ensures value { result ≡ blocks_for block_size len * block_size - len }
    ensures few { result ≤ 32768 }
{
    let size = block_size.bytes() as usize;
    (size - len % size) % size
}

/// Appends a text to a chunk if there is room for it. Returns whether there was.
fn collect<A: Allocator>(chunk: &mut Vec<u8, A>, text: &[u8]) -> bool
    ensures fits { IsTrue result → chunk.new.items ≡ chunk.old.items ++ text.now }
    ensures full { IsTrue result ⊎ (chunk.new.items ≡ chunk.old.items) }
{
    text.len() <= chunk.capacity() - chunk.len() && chunk.extend_from_slice(text).is_ok()
}

/// Loads the front of a text that will be collected soon, so that no one waits for it then.
///
/// The chunk stays as it is. The byte is put there and taken away again, since a byte that is never
/// stored need not be loaded.
fn load<A: Allocator>(texts: &OrderedTexts<A>, position: usize, chunk: &mut Vec<u8, A>)
    ensures { chunk.new.items ≡ chunk.old.items }
{
    if position < texts.len() && chunk.len() < chunk.capacity() {
        if let Some(first) = texts.get(position).first() {
            if chunk.push(*first).is_ok() {
                chunk.pop();
            }
        }
    }
}

/// The texts that follow the parts of the `s`-th stream: these after stream 2, and none elsewhere.
pub(crate) fn texts_after<'t, A: Allocator>(
    texts: &'t OrderedTexts<A>,
    none: &'t OrderedTexts<A>,
    s: usize,
) -> &'t OrderedTexts<A>
    ensures here { s ≡ 2 → result.now ≡ texts.now }
    ensures elsewhere { s ≢ 2 → result.now ≡ none.now }
{
    if s == 2 { texts } else { none }
}

/// Puts the parts of an image into a sink, one after the other. Made by [`ImageWriter::new`].
///
/// It knows how many bytes a block of the image has, how many blocks the image has, and at which
/// position the next byte goes. It owns the memory for one map block. Each method that puts bytes
/// takes the same sink. If it returns `NotTaken`, the sink is broken and the image can't be
/// completed. The position then says nothing.
#[derive(Drop)]
pub(crate) struct ImageWriter<A: Allocator> {
    block_size: BlockSize,
    num_blocks: u32,
    position: usize,
    map_block: Vec<u8, A>,
}

impl<A: Allocator> Model for ImageWriter<A> {
    ghost use Rattle.std.specs.Prelude.{◌≡◌, length};
    ghost use Rattle.msf_streams.specs.Put.{WriterView};

    ghost Value = { WriterView };

    ghost view = { λ w.
        record { block_size = w.block_size; num_blocks = w.num_blocks; position = w.position } };

    // The map block has the bytes of one block.
    ghost invariant = { λ w. length w.map_block.items ≡ w.block_size };
}

impl<A: Allocator> ImageWriter<A> {
    /// Makes a writer of an image whose file has `num_blocks` blocks. The next byte is its first.
    pub(crate) fn new(
        alloc: A,
        block_size: BlockSize,
        num_blocks: u32,
    ) -> Result<ImageWriter<A>, AllocError>
        ensures { IfOk result (λ w.
            w ≡ record { block_size = block_size; num_blocks = num_blocks; position = 0 }) }
    {
        Ok(ImageWriter {
            block_size,
            num_blocks,
            position: 0,
            map_block: vec![in alloc; 0; block_size.bytes() as usize]?,
        })
    }

    /// Puts map block `k`.
    fn put_map<W: Sink>(&mut self, k: u32, out: &mut W) -> Result<(), NotTaken>
        ensures same { self.new ≡ self.old }
        ensures ok { OnOk result (Appends (W.taken out.old) (W.taken out.new)
            (map_block self.old.block_size self.old.num_blocks k)) }
        ensures broken { OnErr result (W.is_broken out.new ≡ true) }
        ensures prefix { OnErr result (AppendsPart (W.taken out.old) (W.taken out.new)
            (map_block self.old.block_size self.old.num_blocks k)) }
    {
        fill_map_block(
            self.block_size.bytes(),
            self.num_blocks,
            k,
            &mut self.map_block,
        );
        put_all(out, &self.map_block)
    }

    /// Puts the two map blocks of an interval.
    fn put_maps<W: Sink>(&mut self, interval: u32, out: &mut W) -> Result<(), NotTaken>
        requires few { interval * self.old.block_size + 2 < 2 ^ 32 }
        ensures same { self.new ≡ self.old }
        ensures ok { OnOk result (Appends (W.taken out.old) (W.taken out.new)
            (maps_of self.old.block_size self.old.num_blocks interval)) }
        ensures broken { OnErr result (W.is_broken out.new ≡ true) }
        ensures prefix { OnErr result (AppendsPart (W.taken out.old) (W.taken out.new)
            (maps_of self.old.block_size self.old.num_blocks interval)) }
    {
        let start = interval * self.block_size.bytes();
        self.put_map(start + 1, out)?;
        self.put_map(start + 2, out)
    }

    /// Puts the map blocks that come right before the position, if there are any.
    #[tactic(auto, using(msf_superblock::proofs::SizeLaws::some_bytes), unfolding(crate::specs::Put::maps_before))]
    fn put_maps_before<W: Sink>(&mut self, out: &mut W) -> Result<(), NotTaken>
        requires few { self.old.position < 2 ^ 33 }
        ensures same { self.new ≡ self.old }
        ensures ok { OnOk result (Appends (W.taken out.old) (W.taken out.new)
            (maps_before self.old.block_size self.old.num_blocks self.old.position)) }
        ensures broken { OnErr result (W.is_broken out.new ≡ true) }
        ensures prefix { OnErr result (AppendsPart (W.taken out.old) (W.taken out.new)
            (maps_before self.old.block_size self.old.num_blocks self.old.position)) }
    {
        let first = self.block_size.bytes() as usize;
        let position = self.position;
        let stretch = stretch(self.block_size);
        if position < first || (position - first) % stretch != 0 {
            return Ok(());
        }
        let interval = (position - first) / stretch;
        self.put_maps(interval as u32, out)
    }

    /// Puts the map blocks before the position, if there are any, then the first of `bytes`, up to
    /// the next map blocks. Returns how many of `bytes` were put.
    fn put_run<W: Sink>(&mut self, bytes: &[u8], out: &mut W) -> Result<usize, NotTaken>
        requires some { 0 < length bytes.now }
        requires few { self.old.position < 2 ^ 33 }
        ensures same { IsSameImage self.old self.new }
        ensures count { IfOk result (λ count. (0 < count) × (count ≤ length bytes.now)) }
        ensures end { IfOk result (λ count. self.new.position ≡ self.old.position + count) }
        ensures ok { IfOk result (λ count. Appends (W.taken out.old) (W.taken out.new)
            (woven_from self.old (take count bytes.now))) }
        ensures broken { OnErr result (W.is_broken out.new ≡ true) }
        ensures prefix { OnErr result
            (AppendsPart (W.taken out.old) (W.taken out.new) (woven_from self.old bytes.now)) }
    {
        self.put_maps_before(out)?;
        let count = room(self.block_size, self.position).min(bytes.len());
        put_all(out, &bytes[..count])?;
        self.position += count;
        Ok(count)
    }

    /// Puts bytes, with the map blocks before and between them.
    fn put_bytes<W: Sink>(&mut self, bytes: &[u8], out: &mut W) -> Result<(), NotTaken>
        requires few { self.old.position + length bytes.now < 2 ^ 33 }
        ensures same { IsSameImage self.old self.new }
        ensures end { OnOk result (self.new.position ≡ self.old.position + length bytes.now) }
        ensures ok { OnOk result
            (Appends (W.taken out.old) (W.taken out.new) (woven_from self.old bytes.now)) }
        ensures broken { OnErr result (W.is_broken out.new ≡ true) }
        ensures prefix { OnErr result
            (AppendsPart (W.taken out.old) (W.taken out.new) (woven_from self.old bytes.now)) }
    {
        let mut rest = bytes;
        while !rest.is_empty() {
            let count = self.put_run(rest, out)?;
            rest = &rest[count..];
        }
        Ok(())
    }

    /// Puts the bytes of several parts, with the map blocks before and between them.
    fn put_joined<W: Sink>(&mut self, parts: &[&[u8]], out: &mut W) -> Result<(), NotTaken>
        requires few { self.old.position + length (joined parts.now) < 2 ^ 33 }
        ensures same { IsSameImage self.old self.new }
        ensures end { OnOk result
            (self.new.position ≡ self.old.position + length (joined parts.now)) }
        ensures ok { OnOk result
            (Appends (W.taken out.old) (W.taken out.new) (woven_from self.old (joined parts.now))) }
        ensures broken { OnErr result (W.is_broken out.new ≡ true) }
        ensures prefix { OnErr result (AppendsPart (W.taken out.old) (W.taken out.new)
            (woven_from self.old (joined parts.now))) }
    {
        for part in parts {
            self.put_bytes(part, out)?;
        }
        Ok(())
    }

    /// Puts texts in their order, with the map blocks before and between their bytes.
    ///
    /// The texts are collected in a chunk, so that the sink takes many of them at once. One that
    /// has no room there is put by itself.
    fn put_texts<W: Sink>(
        &mut self,
        texts: &OrderedTexts<A>,
        chunk: &mut Vec<u8, A>,
        out: &mut W,
    ) -> Result<(), NotTaken>
        requires few { self.old.position + length (concat texts.now) < 2 ^ 33 }
        ensures same { IsSameImage self.old self.new }
        ensures end { OnOk result
            (self.new.position ≡ self.old.position + length (concat texts.now)) }
        ensures ok { OnOk result (Appends (W.taken out.old) (W.taken out.new)
            (woven_from self.old (concat texts.now))) }
        ensures broken { OnErr result (W.is_broken out.new ≡ true) }
        ensures prefix { OnErr result (AppendsPart (W.taken out.old) (W.taken out.new)
            (woven_from self.old (concat texts.now))) }
    {
        chunk.clear();
        for position in 0..texts.len() {
            load(texts, position.saturating_add(AHEAD), chunk);
            let text = texts.get(position);
            if !collect(chunk, text) {
                self.put_bytes(chunk, out)?;
                chunk.clear();
                self.put_bytes(text, out)?;
            }
        }
        self.put_bytes(chunk, out)
    }

    /// Puts the bytes of parts and then those of texts, with the map blocks before and between
    /// them.
    fn put_contents<W: Sink>(
        &mut self,
        parts: &[&[u8]],
        texts: &OrderedTexts<A>,
        chunk: &mut Vec<u8, A>,
        out: &mut W,
    ) -> Result<(), NotTaken>
        requires few { self.old.position + length (joined parts.now ++ concat texts.now) < 2 ^ 33 }
        ensures same { IsSameImage self.old self.new }
        ensures end { OnOk result (self.new.position
            ≡ self.old.position + length (joined parts.now ++ concat texts.now)) }
        ensures ok { OnOk result (Appends (W.taken out.old) (W.taken out.new)
            (woven_from self.old (joined parts.now ++ concat texts.now))) }
        ensures broken { OnErr result (W.is_broken out.new ≡ true) }
        ensures prefix { OnErr result (AppendsPart (W.taken out.old) (W.taken out.new)
            (woven_from self.old (joined parts.now ++ concat texts.now))) }
    {
        self.put_joined(parts, out)?;
        self.put_texts(texts, chunk, out)
    }

    /// Puts a stream of parts and then texts, padded with zeros to whole blocks.
    fn put_stream<W: Sink>(
        &mut self,
        parts: &[&[u8]],
        texts: &OrderedTexts<A>,
        chunk: &mut Vec<u8, A>,
        out: &mut W,
    ) -> Result<(), NotTaken>
        requires few { self.old.position
            + length (padded self.old.block_size (joined parts.now ++ concat texts.now)) < 2 ^ 33 }
        ensures same { IsSameImage self.old self.new }
        ensures end { OnOk result (self.new.position ≡ self.old.position
            + length (padded self.old.block_size (joined parts.now ++ concat texts.now))) }
        ensures ok { OnOk result (Appends (W.taken out.old) (W.taken out.new) (woven_from self.old
            (padded self.old.block_size (joined parts.now ++ concat texts.now)))) }
        ensures broken { OnErr result (W.is_broken out.new ≡ true) }
        ensures prefix { OnErr result (AppendsPart (W.taken out.old) (W.taken out.new)
            (woven_from self.old
            (padded self.old.block_size (joined parts.now ++ concat texts.now)))) }
    {
        let start = self.position;
        self.put_contents(parts, texts, chunk, out)?;
        let fill = zeros(fill_len(self.block_size, self.position - start));
        self.put_bytes(fill, out)
    }

    /// Puts a part of the image, padded with zeros to whole blocks. `none` has no texts.
    #[tactic(auto, using(crate::proofs::PutLaws::part_alone))]
    pub(crate) fn put_part<W: Sink>(
        &mut self,
        part: &[u8],
        none: &OrderedTexts<A>,
        chunk: &mut Vec<u8, A>,
        out: &mut W,
    ) -> Result<(), NotTaken>
        requires none { none.now ≡ [] }
        requires few { self.old.position + length (padded self.old.block_size part.now) < 2 ^ 33 }
        ensures same { IsSameImage self.old self.new }
        ensures end { OnOk result
            (self.new.position ≡ self.old.position + length (padded self.old.block_size part.now)) }
        ensures ok { OnOk result (Appends (W.taken out.old) (W.taken out.new)
            (woven_from self.old (padded self.old.block_size part.now))) }
        ensures broken { OnErr result (W.is_broken out.new ≡ true) }
        ensures prefix { OnErr result (AppendsPart (W.taken out.old) (W.taken out.new)
            (woven_from self.old (padded self.old.block_size part.now))) }
    {
        self.put_stream(&[part], none, chunk, out)
    }

    /// Puts streams one after the other, each padded with zeros to whole blocks. The texts come
    /// after the parts of stream 2, and `none` has no texts.
    pub(crate) fn put_streams<W: Sink>(
        &mut self,
        streams: &[&[&[u8]]],
        texts: &OrderedTexts<A>,
        none: &OrderedTexts<A>,
        chunk: &mut Vec<u8, A>,
        out: &mut W,
    ) -> Result<(), NotTaken>
        requires none { none.now ≡ [] }
        requires few { self.old.position
            + length (flat_map (padded self.old.block_size) (with_texts streams.now texts.now))
            < 2 ^ 33 }
        ensures same { IsSameImage self.old self.new }
        ensures ok { OnOk result (Appends (W.taken out.old) (W.taken out.new) (woven_from self.old
            (flat_map (padded self.old.block_size) (with_texts streams.now texts.now)))) }
        ensures broken { OnErr result (W.is_broken out.new ≡ true) }
        ensures prefix { OnErr result (AppendsPart (W.taken out.old) (W.taken out.new)
            (woven_from self.old
            (flat_map (padded self.old.block_size) (with_texts streams.now texts.now)))) }
    {
        for s in 0..streams.len() {
            self.put_stream(streams[s], texts_after(texts, none, s), chunk, out)?;
        }
        Ok(())
    }
}
