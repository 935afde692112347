//! The type records of a file, and its types.

ghost use Rattle.std.specs.Prelude.{◌≡◌, ◌⊎◌, ℕ, List, None, IfOk, IfErr};
ghost use Rattle.byte_fields.specs.Bytes.{AreBytes};
ghost use Rattle.byte_fields.specs.Check.{first_failing};
ghost use Rattle.byte_io.specs.At.{IfKnown, IfOf, Reads};
ghost use Rattle.msf_blocks.specs.Layout.{LayoutView, HasLayout, HasTexts, layout_checks};
ghost use Rattle.file_types.specs.Read.{IsAccepted, HasPdbFault, HasTypeRecords, HasRecordsFault, HasTypes, HasFaultOfTypes, RecordsWereRead, StreamWasRead, TypesWereRead, HasStreamFaultRead, HasPdbFaultRead, HasFaultOfTexts};

use crate::buffer::{Buffer, check_info, layout_at};
use crate::fault::PdbFault;
use byte_io::{AtFault, Lend, ReadAt};
use checked_types::Types;
use msf_blocks::Layout;
use std::alloc::Allocator;
use tpi_records::Records;

/// Reads the types of a stream 2: its type records, which are checked.
///
/// The faults come in this order: those of the stream; those of the records, in order, for each
/// record its leaf and then its references; and last a cycle of references. `Memory` is out of
/// memory.
pub fn check_types<A: Allocator + Copy>(
    alloc: A,
    stream: &[u8],
) -> Result<Types<'_, A>, PdbFault<A>>
    ensures types { IfOk result (HasTypes stream.now) }
    ensures refused { IfErr result (λ fault.
        HasFaultOfTypes stream.now fault ⊎ (fault ≡ PdbFault.Memory)) }
{
    let records = Records::read(alloc, stream)?;
    Ok(Types::check(alloc, records)?)
}

/// Reads the type records of a file with this layout: those of its stream 2. Of the file only the
/// blocks of stream 2 are read.
///
/// The faults come in this order: a container without a stream 2; those of that stream.
/// `AtFault::Read` is a read that failed, and `Memory` out of memory. The old bytes of the buffer
/// have no effect. After a fault the buffer may be used again. The buffer's own allocator allocates the
/// bytes of the stream, and `alloc` allocates everything else.
pub fn read_records_of<'a, R: ReadAt, A: Allocator + Copy>(
    alloc: A,
    input: &mut R,
    layout: &Layout<A>,
    buffer: &'a mut Buffer<A>,
) -> Result<Records<'a, A>, AtFault<PdbFault<A>>>
    requires { IfKnown (R.bytes input.old) (λ file. HasLayout file layout.now) }
    ensures reads { Reads R.bytes R.is_broken input.old input.new result }
    ensures value { IfOk result (λ records.
        IfKnown (R.bytes input.old) (λ file. HasTypeRecords file records)) }
    // Even if the file's bytes are not known, these are the records of bytes that reads gave.
    ensures texts { IfOk result (RecordsWereRead (R.bytes input.old) layout.now) }
    ensures first { IfErr result (IfOf (λ fault. IfKnown (R.bytes input.old) (λ file.
        HasRecordsFault file fault ⊎ (fault ≡ PdbFault.Memory)))) }
    // Even if the file's bytes are not known, the fault is that of bytes that reads gave.
    ensures refused { IfErr result (IfOf (λ fault.
        HasStreamFaultRead (R.bytes input.old) layout.now fault ⊎ (fault ≡ PdbFault.Memory))) }
{
    let stream = buffer.stream_of(input, layout)?;
    match Records::read(alloc, stream) {
        Ok(records) => Ok(records),
        Err(fault) => Err(AtFault::Of(PdbFault::from(fault))),
    }
}

/// Lends stream 2 of a file with this layout, on the way to its types.
pub(crate) fn lent_stream_of<'a, 'b: 'a, R: Lend<'b>, A: Allocator + Copy>(
    input: &mut R,
    layout: &Layout<A>,
    buffer: &'a mut Buffer<A>,
) -> Result<&'a [u8], AtFault<PdbFault<A>>>
    requires { IfKnown (R.bytes input.old) (λ file. HasLayout file layout.now) }
    ensures reads { Reads R.bytes R.is_broken input.old input.new result }
    ensures texts { IfOk result (λ stream.
        StreamWasRead (R.bytes input.old) layout.now stream.now) }
    ensures refused { IfErr result (IfOf (λ fault.
        HasPdbFaultRead (R.bytes input.old) layout.now fault ⊎ (fault ≡ PdbFault.Memory))) }
{
    check_info(layout)?;
    buffer.lent_stream_of(input, layout)
}

/// The same of a file whose stream 2 is read into the buffer.
fn stream_of<'a, R: ReadAt, A: Allocator + Copy>(
    input: &mut R,
    layout: &Layout<A>,
    buffer: &'a mut Buffer<A>,
) -> Result<&'a [u8], AtFault<PdbFault<A>>>
    requires { IfKnown (R.bytes input.old) (λ file. HasLayout file layout.now) }
    ensures reads { Reads R.bytes R.is_broken input.old input.new result }
    ensures texts { IfOk result (λ stream.
        StreamWasRead (R.bytes input.old) layout.now stream.now) }
    ensures refused { IfErr result (IfOf (λ fault.
        HasPdbFaultRead (R.bytes input.old) layout.now fault ⊎ (fault ≡ PdbFault.Memory))) }
{
    check_info(layout)?;
    buffer.stream_of(input, layout)
}

/// Reads stream 2 of a file on the way to its types. [`check_types`] makes types of it: its bytes are
/// not checked yet, but a file without the header of stream 1 is refused.
///
/// The faults are those of [`read_types`] that come before those of the bytes of stream 2, in the
/// same order, and `AtFault::Read` where a read failed. `Memory` comes only where the container has
/// no fault. The old bytes of the buffer have no effect. After a fault the buffer may be used again.
fn read_stream<'a, 'b: 'a, R: Lend<'b>, A: Allocator + Copy>(
    alloc: A,
    input: &mut R,
    buffer: &'a mut Buffer<A>,
) -> Result<&'a [u8], AtFault<PdbFault<A>>>
    ensures reads { Reads R.bytes R.is_broken input.old input.new result }
    ensures small { IfKnown (R.bytes input.old) AreBytes }
    ensures texts { IfOk result (λ stream.
        (layout : LayoutView) × HasTexts (R.bytes input.old) layout
        × StreamWasRead (R.bytes input.old) layout stream.now) }
    ensures refused { IfErr result (IfOf (λ fault.
        HasFaultOfTexts HasPdbFaultRead (R.bytes input.old) fault ⊎ (fault ≡ PdbFault.Memory))) }
    // Out of memory comes only where the container has no fault.
    ensures memory { IfErr result (IfOf (λ fault.
        fault ≡ PdbFault.Memory →
        IfKnown (R.bytes input.old) (λ file. first_failing (layout_checks file) ≡ None))) }
{
    let layout = layout_at(alloc, input)?;
    lent_stream_of(input, &layout, buffer)
}

/// Reads the types of a file with this layout: its type records, which are checked. Of the file only
/// the blocks of stream 2 are read.
///
/// The faults are those of [`read_types`] that come after the container's, in the same order, and
/// `AtFault::Read` where a read failed. The old bytes of the buffer have no effect. After a fault the
/// buffer may be used again.
pub fn read_types_of<'a, R: ReadAt, A: Allocator + Copy>(
    alloc: A,
    input: &mut R,
    layout: &Layout<A>,
    buffer: &'a mut Buffer<A>,
) -> Result<Types<'a, A>, AtFault<PdbFault<A>>>
    requires bytes { IfKnown (R.bytes input.old) AreBytes }
    requires layout { IfKnown (R.bytes input.old) (λ file. HasLayout file layout.now) }
    ensures reads { Reads R.bytes R.is_broken input.old input.new result }
    ensures value { IfOk result (λ types.
        IfKnown (R.bytes input.old) (λ file. IsAccepted file types)) }
    // Even if the file's bytes are not known, these are the types of bytes that reads gave.
    ensures texts { IfOk result (TypesWereRead (R.bytes input.old) layout.now) }
    ensures first { IfErr result (IfOf (λ fault.
        IfKnown (R.bytes input.old) (λ file. HasPdbFault file fault ⊎ (fault ≡ PdbFault.Memory)))) }
    // Even if the file's bytes are not known, the fault is that of bytes that reads gave.
    ensures refused { IfErr result (IfOf (λ fault.
        HasPdbFaultRead (R.bytes input.old) layout.now fault ⊎ (fault ≡ PdbFault.Memory))) }
{
    let stream = stream_of(input, layout, buffer)?;
    match check_types(alloc, stream) {
        Ok(types) => Ok(types),
        Err(fault) => Err(AtFault::Of(fault)),
    }
}

/// The types of a file, which are those of what reads gave.
fn types_at<'a, 'b: 'a, R: Lend<'b>, A: Allocator + Copy>(
    alloc: A,
    input: &mut R,
    buffer: &'a mut Buffer<A>,
) -> Result<Types<'a, A>, AtFault<PdbFault<A>>>
    ensures reads { Reads R.bytes R.is_broken input.old input.new result }
    ensures small { IfKnown (R.bytes input.old) AreBytes }
    ensures texts { IfOk result (λ types.
        (layout : LayoutView) × HasTexts (R.bytes input.old) layout
        × TypesWereRead (R.bytes input.old) layout types) }
    ensures refused { IfErr result (IfOf (λ fault.
        HasFaultOfTexts HasPdbFaultRead (R.bytes input.old) fault ⊎ (fault ≡ PdbFault.Memory))) }
    ensures memory { IfErr result (IfOf (λ fault.
        fault ≡ PdbFault.Memory →
        IfKnown (R.bytes input.old) (λ file. first_failing (layout_checks file) ≡ None))) }
{
    let stream = read_stream(alloc, input, buffer)?;
    match check_types(alloc, stream) {
        Ok(types) => Ok(types),
        Err(fault) => Err(AtFault::Of(fault)),
    }
}

/// Reads the types of a file by position: its type records, which are checked. Of the file only
/// the superblock, the block map, the directory and the blocks of stream 2 are read. They are lent
/// from the file where its bytes are in memory and the blocks of stream 2 are consecutive, and
/// otherwise from the buffer.
///
/// The faults are those of [`read_types`], in the same order, and `AtFault::Read` where a read
/// failed. `Memory` comes only where the container has no fault. The old bytes of the buffer have no
/// effect, and its space is used again. After a fault the buffer may be used again.
fn read_types_at<'a, 'b: 'a, R: Lend<'b>, A: Allocator + Copy>(
    alloc: A,
    input: &mut R,
    buffer: &'a mut Buffer<A>,
) -> Result<Types<'a, A>, AtFault<PdbFault<A>>>
    ensures reads { Reads R.bytes R.is_broken input.old input.new result }
    ensures value { IfOk result (λ types.
        IfKnown (R.bytes input.old) (λ file. IsAccepted file types)) }
    // Even if the file's bytes are not known, these are the types of bytes that reads gave.
    ensures texts { IfOk result (λ types.
        (layout : LayoutView) × HasTexts (R.bytes input.old) layout
        × TypesWereRead (R.bytes input.old) layout types) }
    // A file that is accepted is refused only when out of memory.
    ensures found { IfErr result (IfOf (λ fault. IfKnown (R.bytes input.old) (λ file.
        (records : List (List ℕ)) → IsAccepted file records → fault ≡ PdbFault.Memory))) }
    ensures first { IfErr result (IfOf (λ fault.
        IfKnown (R.bytes input.old) (λ file. HasPdbFault file fault ⊎ (fault ≡ PdbFault.Memory)))) }
    // Even if the file's bytes are not known, the fault is that of bytes that reads gave.
    ensures refused { IfErr result (IfOf (λ fault.
        HasFaultOfTexts HasPdbFaultRead (R.bytes input.old) fault ⊎ (fault ≡ PdbFault.Memory))) }
    // Out of memory comes only where the container has no fault.
    ensures memory { IfErr result (IfOf (λ fault.
        fault ≡ PdbFault.Memory →
        IfKnown (R.bytes input.old) (λ file. first_failing (layout_checks file) ≡ None))) }
{
    types_at(alloc, input, buffer)
}

/// Reads the types of a file in memory: its type records, which are checked. They are lent from the
/// file where the blocks of stream 2 are consecutive. Otherwise the stream is gathered into the
/// buffer, and they are lent from there.
///
/// The faults come in this order: those of the container; a container without a stream 1; a
/// stream 1 with fewer bytes than a header; a container without a stream 2; those of that stream;
/// those of its records, in order, for each record its leaf and then its references; and last a
/// cycle of references. Of stream 1 only the length is looked at. Out of memory, `Memory`, comes
/// only where the container has no fault.
///
/// The old bytes of the buffer are dropped first, so the streams of two files are never in memory
/// at once. After a fault the buffer may be used again. The buffer's own allocator allocates the
/// bytes of the stream, and `alloc` allocates everything else.
pub fn read_types<'a, A: Allocator + Copy>(
    alloc: A,
    file: &'a [u8],
    buffer: &'a mut Buffer<A>,
) -> Result<Types<'a, A>, PdbFault<A>>
    ensures value { IfOk result (IsAccepted file.now) }
    // A file that is accepted is refused only when out of memory.
    ensures found { (records : List (List ℕ)) → IsAccepted file.now records →
        IfErr result (λ fault. fault ≡ PdbFault.Memory) }
    ensures first { IfErr result (λ fault. HasPdbFault file.now fault ⊎ (fault ≡ PdbFault.Memory)) }
    // Out of memory comes only where the container has no fault.
    ensures memory { IfErr result (λ fault.
        fault ≡ PdbFault.Memory → first_failing (layout_checks file.now) ≡ None) }
{
    buffer.clear();
    let mut input = file;
    match read_types_at(alloc, &mut input, buffer) {
        Ok(types) => Ok(types),
        Err(AtFault::Of(fault)) => Err(fault),
        Err(AtFault::Read) => unreachable!(),
    }
}
