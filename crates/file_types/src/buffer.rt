//! The buffer for the bytes of types while they are read, and the stream that is read into it.

ghost use Rattle.std.specs.Prelude.{◌≡◌, ◌⊎◌, None, OnOk, IfOk, IfErr};
ghost use Rattle.byte_fields.specs.Bytes.{AreBytes};
ghost use Rattle.byte_fields.specs.Check.{first_failing};
ghost use Rattle.byte_io.specs.At.{IfKnown, IfOf, Reads};
ghost use Rattle.msf_blocks.specs.Layout.{HasLayout, HasTexts, layout_checks};
ghost use Rattle.file_types.specs.Read.{ListsLongInfo, HasInfoFaultRead, HasStreamFaultRead, IsLayoutFaultRead};
ghost use Rattle.msf_streams.specs.Streams.{WasRead};

use crate::fault::PdbFault;
use byte_io::{AtFault, Lend, ReadAt};
use msf_blocks::Layout;
use msf_streams::{contents_at, gather_at};
use pdb_info::{InfoFault, info_stream};
use std::alloc::{Allocator, Global};
use std::marker::Model;
use tpi_records::TPI_STREAM;

/// How many bytes the header of stream 1 has.
const HEADER: u32 = 28;

/// Holds the bytes of the TPI stream of one file, if they can't be lent. The file's records or types
/// are then lent from it.
///
/// Its bytes can be read only through what is lent from it. It may be used again after any answer:
/// the bytes that it held are read over then, and have no effect. It grows with the allocator that it
/// was made with.
#[derive(Debug, Drop)]
pub struct Buffer<A: Allocator = Global> {
    alloc: A,
    bytes: Vec<u8, A>,
}

impl<A: Allocator> Model for Buffer<A> {
    ghost Value = { Unit {0} };

    ghost view = { λ _. tt };
}

impl<A: Allocator + Copy> Buffer<A> {
    /// An empty buffer, which grows with this allocator. This does not allocate.
    pub fn new(alloc: A) -> Buffer<A> {
        Buffer {
            alloc,
            bytes: Vec::new(alloc),
        }
    }

    /// Drops the bytes of the buffer, and gives their memory back.
    pub fn clear(&mut self) {
        self.bytes = Vec::new(self.alloc);
    }

    /// Lends stream 2 of a file with this layout. The buffer takes its bytes where the file can't lend
    /// them.
    pub(crate) fn lent_stream_of<'a, 'b: 'a, R: Lend<'b>>(
        &'a mut self,
        input: &mut R,
        layout: &Layout<A>,
    ) -> Result<&'a [u8], AtFault<PdbFault<A>>>
        requires { IfKnown (R.bytes input.old) (λ file. HasLayout file layout.now) }
        ensures reads { Reads R.bytes R.is_broken input.old input.new result }
        ensures texts { IfOk result (λ stream.
            WasRead (R.bytes input.old) layout.now 2 stream.now) }
        ensures refused { IfErr result (IfOf (λ fault.
            HasStreamFaultRead (R.bytes input.old) layout.now fault ⊎ (fault ≡ PdbFault.Memory))) }
    {
        match contents_at(input, layout, TPI_STREAM, &mut self.bytes) {
            Ok(stream) => Ok(stream),
            Err(fault) => Err(fault.widen()),
        }
    }

    /// Reads stream 2 of a file with this layout into the buffer, and lends it.
    pub(crate) fn stream_of<'a, R: ReadAt>(
        &'a mut self,
        input: &mut R,
        layout: &Layout<A>,
    ) -> Result<&'a [u8], AtFault<PdbFault<A>>>
        requires { IfKnown (R.bytes input.old) (λ file. HasLayout file layout.now) }
        ensures reads { Reads R.bytes R.is_broken input.old input.new result }
        ensures texts { IfOk result (λ stream.
            WasRead (R.bytes input.old) layout.now 2 stream.now) }
        ensures refused { IfErr result (IfOf (λ fault.
            HasStreamFaultRead (R.bytes input.old) layout.now fault ⊎ (fault ≡ PdbFault.Memory))) }
    {
        match gather_at(input, layout, TPI_STREAM, &mut self.bytes) {
            Ok(stream) => Ok(stream),
            Err(fault) => Err(fault.widen()),
        }
    }
}

/// Checks that a container has a stream 1 that is long enough for a header. No byte of it is read.
pub(crate) fn check_info<L: Allocator, A: Allocator>(layout: &Layout<L>) -> Result<(), PdbFault<A>>
    ensures info { OnOk result (ListsLongInfo layout.now) }
    ensures refused { IfErr result (HasInfoFaultRead layout.now) }
{
    let stream = info_stream(layout)?;
    let Some(size) = layout.size(stream) else {
        unreachable!()
    };
    if size < HEADER {
        return Err(PdbFault::Info(InfoFault::InfoShort));
    }
    Ok(())
}

/// Reads the layout of a file.
pub(crate) fn layout_at<R: ReadAt, A: Allocator + Copy>(
    alloc: A,
    input: &mut R,
) -> Result<Layout<A>, AtFault<PdbFault<A>>>
    ensures reads { Reads R.bytes R.is_broken input.old input.new result }
    ensures small { IfKnown (R.bytes input.old) AreBytes }
    ensures texts { IfOk result (HasTexts (R.bytes input.old)) }
    ensures refused { IfErr result
        (IfOf (λ fault. IsLayoutFaultRead (R.bytes input.old) fault ⊎ (fault ≡ PdbFault.Memory))) }
    ensures memory { IfErr result (IfOf (λ fault.
        fault ≡ PdbFault.Memory →
        IfKnown (R.bytes input.old) (λ file. first_failing (layout_checks file) ≡ None))) }
{
    match Layout::read_at(alloc, input) {
        Ok(layout) => Ok(layout),
        Err(AtFault::Of(fault)) => Err(AtFault::Of(PdbFault::from(fault))),
        Err(AtFault::Read) => Err(AtFault::Read),
    }
}
