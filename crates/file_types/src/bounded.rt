//! The stream of types of a file whose parts are limited.

ghost use Rattle.std.specs.Prelude.{◌≡◌, ◌⊎◌, None, IfOk, IfErr};
ghost use Rattle.byte_fields.specs.Bytes.{AreBytes};
ghost use Rattle.byte_fields.specs.Check.{first_failing};
ghost use Rattle.byte_io.specs.At.{IfKnown, IfOf, Reads};
ghost use Rattle.msf_blocks.specs.Layout.{LayoutView, HasTexts, layout_checks};
ghost use Rattle.file_types.specs.Bounded.{HasShortParts, IsBoundedFault};
ghost use Rattle.file_types.specs.Read.{StreamWasRead, HasPdbFaultRead, HasFaultOfTexts, IsLayoutFaultRead};

use crate::buffer::Buffer;
use crate::fault::PdbFault;
use crate::read::lent_stream_of;
use byte_io::{AtFault, Lend, Limited, ReadAt};
use msf_blocks::Layout;
use std::alloc::Allocator;
use tpi_records::TPI_STREAM;

/// Reads the layout of a file whose directory and stream 2 may have at most `limit` bytes each.
fn layout_within<R: ReadAt, A: Allocator + Copy>(
    alloc: A,
    input: &mut R,
    limit: u32,
) -> Result<Layout<A>, AtFault<Limited<PdbFault<A>>>>
    ensures reads { Reads R.bytes R.is_broken input.old input.new result }
    ensures small { IfKnown (R.bytes input.old) AreBytes }
    ensures texts { IfOk result (HasTexts (R.bytes input.old)) }
    ensures short { IfOk result (HasShortParts limit) }
    ensures refused { IfErr result (IfOf (IsBoundedFault limit (R.bytes input.old) (λ fault.
        IsLayoutFaultRead (R.bytes input.old) fault ⊎ (fault ≡ PdbFault.Memory)))) }
    ensures memory { IfErr result (IfOf (λ fault.
        fault ≡ Limited.Of PdbFault.Memory →
        IfKnown (R.bytes input.old) (λ file. first_failing (layout_checks file) ≡ None))) }
{
    match Layout::read_within(alloc, input, limit) {
        Ok(layout) if layout.is_longer(TPI_STREAM, limit) => Err(AtFault::Of(Limited::TooLong)),
        Ok(layout) => Ok(layout),
        Err(AtFault::Of(Limited::TooLong)) => Err(AtFault::Of(Limited::TooLong)),
        Err(AtFault::Of(Limited::Of(fault))) => {
            Err(AtFault::Of(Limited::Of(PdbFault::from(fault))))
        }
        Err(AtFault::Read) => Err(AtFault::Read),
    }
}

/// Reads stream 2 of a file on the way to its types, unless its directory or its stream 2 has more
/// than `limit` bytes. Either may list a block many times, so it may be far longer than its file.
/// `u32::MAX` is no limit. [`check_types`](crate::check_types) makes types of the stream: its bytes
/// are not checked yet, but a file without the header of stream 1 is refused.
///
/// `TooLong` comes for the directory after the faults of the superblock and before all others, and
/// for stream 2 where the container is sound, before any fault of its streams. Nothing is reserved
/// for the part then. The other faults are those of [`read_types`](crate::read_types) that come before
/// those of the bytes of stream 2, in the same order, and `AtFault::Read` where a read failed.
/// `Memory` comes only where the container has no fault. The old bytes of the buffer have no effect.
/// After a fault the buffer may be used again.
pub fn read_stream_within<'a, 'b: 'a, R: Lend<'b>, A: Allocator + Copy>(
    alloc: A,
    input: &mut R,
    limit: u32,
    buffer: &'a mut Buffer<A>,
) -> Result<&'a [u8], AtFault<Limited<PdbFault<A>>>>
    ensures reads { Reads R.bytes R.is_broken input.old input.new result }
    ensures small { IfKnown (R.bytes input.old) AreBytes }
    ensures texts { IfOk result (λ stream.
        (layout : LayoutView) × HasTexts (R.bytes input.old) layout × HasShortParts limit layout
        × StreamWasRead (R.bytes input.old) layout stream.now) }
    ensures refused { IfErr result (IfOf (IsBoundedFault limit (R.bytes input.old) (λ fault.
        HasFaultOfTexts HasPdbFaultRead (R.bytes input.old) fault
        ⊎ (fault ≡ PdbFault.Memory)))) }
    // Out of memory comes only where the container has no fault.
    ensures memory { IfErr result (IfOf (λ fault.
        fault ≡ Limited.Of PdbFault.Memory →
        IfKnown (R.bytes input.old) (λ file. first_failing (layout_checks file) ≡ None))) }
{
    let layout = layout_within(alloc, input, limit)?;
    match lent_stream_of(input, &layout, buffer) {
        Ok(stream) => Ok(stream),
        Err(AtFault::Of(fault)) => Err(AtFault::Of(Limited::Of(fault))),
        Err(AtFault::Read) => Err(AtFault::Read),
    }
}
