//! Bytes that are read by position.

ghost use Rattle.std.specs.Prelude.{◌≡◌, ◌+◌, ◌<◌, ◌≤◌, ◌++◌, ◌↔◌, ℕ, Option, Some, None, Bool, true, false, IsTrue, length, take, drop, get_or, OnOk, IfSome};
ghost use Rattle.byte_io.specs.At.{AreGiven, Bytes, GivesBehind, IfKnown, ReadsInto, ReadsOrNone, StandsAt, WidensTo, stable, unknown};
ghost use Rattle.byte_io.specs.declared.at.AtFault.TheVariants as at;

use crate::input::ReadFault;
use std::alloc::Allocator;
use std::io::{Read, Seek, SeekFrom};

/// Why a call that reads by position gave nothing.
#[derive(Debug, PartialEq, Eq, Drop)]
pub enum AtFault<F> {
    /// A read failed. The reader is broken.
    Read,
    /// What was read has this fault.
    Of(F),
}

impl<F> AtFault<F> {
    /// The same with a fault of what was read that is made of this one.
    pub fn widen<G: From<F>>(self) -> AtFault<G>
        ensures { WidensTo G.from_gives self result }
    {
        match self {
            AtFault::Read => AtFault::Read,
            AtFault::Of(fault) => AtFault::Of(G::from(fault)),
        }
    }
}

impl<F> From<F> for AtFault<F> {
    ghost from_gives = { λ inner fault. fault ≡ at.Of inner };

    fn from(fault: F) -> AtFault<F> {
        AtFault::Of(fault)
    }
}

/// Gives bytes from any position.
///
/// A slice has its bytes in memory, and its reads never fail. The contracts don't know the bytes of
/// a file of the system: they only say which bytes reads gave. A reader may fail whether its bytes
/// are known or not. It is broken from then on.
pub trait ReadAt {
    /// What is known of its bytes.
    ghost bytes: { Self → Bytes };

    /// Whether a read failed.
    ghost is_broken: { Self → Bool };

    /// How many bytes there are. If the bytes are not known, this is how many there are said to be.
    fn len(&self) -> u64
        ensures told { result ≡ (bytes self.now).told }
        ensures value { IfKnown (bytes self.now) (λ file. result ≡ length file) }
        ensures small { IfKnown (bytes self.now) (λ file. (i : ℕ) → get_or file i 0 < 256) };

    /// Whether there are no bytes. If the bytes are not known, this is whether there are said to be
    /// none.
    fn is_empty(&self) -> bool
        ensures { IsTrue result ↔ ((bytes self.now).told ≡ 0) }
    {
        self.len() == 0
    }

    /// Fills a slice with the bytes from this offset on. `None` means that the reader is broken.
    fn read_at(&mut self, offset: u64, into: &mut [u8]) -> Option<()>
        requires inside { IfKnown (bytes self.old) (λ file.
            offset + length into.old ≤ length file) }
        ensures reads { ReadsOrNone bytes is_broken self.old self.new result }
        ensures same { length into.new ≡ length into.old }
        ensures value { IfSome result (λ _.
            IfKnown (bytes self.old) (λ file. StandsAt file offset into.new)) }
        ensures given { IfSome result (λ _. AreGiven (bytes self.old) offset into.new) }
        ensures whole { IfSome result (λ _. is_broken self.new ≡ is_broken self.old) }
        ensures stays { is_broken self.old ≡ true → is_broken self.new ≡ true };
}

/// Gives bytes from any position, and lends them where they are in memory.
///
/// What is lent lasts as long as `'a`, and not only as long as the reader. So the caller may read on
/// while it has the part.
pub trait Lend<'a>: ReadAt {
    /// Lends `len` bytes from this offset on. `None` where they are not in memory.
    fn part(&self, offset: u64, len: u32) -> Option<&'a [u8]>
        ensures count { IfSome result (λ part. length part.now ≡ len) }
        ensures given { IfSome result (λ part. AreGiven (Self.bytes self.now) offset part.now) }
        ensures inside { IfSome result (λ part. offset + len ≤ (Self.bytes self.now).told) };
}

/// Reads `count` bytes from an offset on, and puts them in place of those that a buffer has from
/// `at` on.
///
/// `None` where the read fails.
pub fn read_over<R: ReadAt>(
    input: &mut R,
    offset: u64,
    count: u32,
    buffer: &mut [u8],
    at: usize,
) -> Option<()>
    requires inside { IfKnown (R.bytes input.old) (λ file. offset + count ≤ length file) }
    requires room { at + count ≤ length buffer.old }
    ensures reads { ReadsOrNone R.bytes R.is_broken input.old input.new result }
    ensures same { length buffer.new ≡ length buffer.old }
    ensures value { IfSome result (λ _. IfKnown (R.bytes input.old) (λ file.
        take (at + count) buffer.new ≡ take at buffer.old ++ take count (drop offset file))) }
    ensures given { IfSome result (λ _.
        GivesBehind (R.bytes input.old) offset
        (take at buffer.old) (take (at + count) buffer.new)) }
{
    input.read_at(offset, &mut buffer[at..at + count as usize])?;
    Some(())
}

/// Reads `count` bytes from an offset on, and appends them to a buffer, straight into its room.
///
/// The faults: `Memory` where the buffer can't grow, and then nothing is read; `Read` where the
/// read fails.
pub fn read_more<R: ReadAt, A: Allocator>(
    input: &mut R,
    offset: u64,
    count: u32,
    buffer: &mut Vec<u8, A>,
) -> Result<(), ReadFault>
    requires inside { IfKnown (R.bytes input.old) (λ file. offset + count ≤ length file) }
    ensures reads { ReadsInto R.bytes R.is_broken input.old input.new result }
    ensures value { OnOk result (IfKnown (R.bytes input.old) (λ file.
        buffer.new.items ≡ buffer.old.items ++ take count (drop offset file))) }
    ensures len { OnOk result (length buffer.new.items ≡ length buffer.old.items + count) }
    ensures given { OnOk result
        (GivesBehind (R.bytes input.old) offset buffer.old.items buffer.new.items) }
{
    let length = buffer.len();
    buffer.resize(length + count as usize, 0)?;
    match input.read_at(offset, &mut buffer[length..]) {
        Some(()) => Ok(()),
        None => Err(ReadFault::Read),
    }
}

/// How many bytes a slice has.
fn slice_len(bytes: &[u8]) -> u64
    ensures value { result ≡ length bytes.now }
    ensures small { (i : ℕ) → get_or bytes.now i 0 < 256 }
{
    bytes.len() as u64
}

impl<'a> ReadAt for &'a [u8] {
    ghost bytes = { λ s. stable s.now };

    ghost is_broken = { λ _. false };

    fn len(&self) -> u64 {
        slice_len(self)
    }

    fn read_at(&mut self, offset: u64, into: &mut [u8]) -> Option<()> {
        let start = offset as usize;
        let end = start + into.len();
        into.copy_from_slice(&self[start..end]);
        Some(())
    }
}

impl<'a> Lend<'a> for &'a [u8] {
    fn part(&self, offset: u64, len: u32) -> Option<&'a [u8]> {
        let first = offset as usize;
        self.get(first..first.checked_add(len as usize)?)
    }
}

/// A file that is read by position. Each read is a seek, and then as many calls of `read` as it
/// takes. An error breaks it, and so does an end of the file before the last byte that is wanted.
#[derive(Debug, Drop)]
pub struct Seeking<F> {
    file: F,
    len: u64,
    broken: bool,
}

impl<F: Read + Seek> Seeking<F> {
    /// A file that is said to have this many bytes. It is not broken.
    pub fn new(file: F, len: u64) -> Seeking<F>
        ensures told { (⟦<Seeking<F> as ReadAt>⟧.bytes result).told ≡ len }
        ensures whole { ⟦<Seeking<F> as ReadAt>⟧.is_broken result ≡ false }
    {
        Seeking {
            file,
            len,
            broken: false,
        }
    }
}

impl<F: Read + Seek> ReadAt for Seeking<F> {
    // No contract can say what a file gives.
    ghost bytes = { λ s. unknown s.len };

    ghost is_broken = { λ s. s.broken };

    fn len(&self) -> u64 {
        self.len
    }

    fn read_at(&mut self, offset: u64, into: &mut [u8]) -> Option<()> {
        let sought = self.file.seek(SeekFrom::Start(offset));
        if sought.is_err() || self.file.read_exact(into).is_err() {
            self.broken = true;
            return None;
        }
        Some(())
    }
}

impl<'a, F: Read + Seek> Lend<'a> for Seeking<F> {
    fn part(&self, _offset: u64, _len: u32) -> Option<&'a [u8]> {
        None
    }
}
