//! The bytes of a stream.

ghost use Rattle.std.specs.Prelude.{◌<◌, IfOk, IfErr};
ghost use Rattle.pdbmerge_c.specs.Given.{Copies};
ghost use Rattle.pdbmerge_c.specs.Stream.{IsStreamOf, IsFaultOfStream, RefusesStream};

use crate::fault::{Fault, refuse};
use crate::give::give;
use byte_io::AtFault;
use file_types::PdbFault;
use msf_blocks::Layout;
use msf_streams::contents_at;
use std::alloc::Global;

/// The bytes of a stream of a file. They are lent from the file where its blocks are consecutive,
/// and gathered into the buffer otherwise.
fn read_stream<'a>(
    alloc: Global,
    file: &'a [u8],
    stream: u32,
    buffer: &'a mut Vec<u8>,
) -> Result<&'a [u8], PdbFault>
    ensures value { IfOk result (λ bytes. IsStreamOf file.now stream bytes.now) }
    ensures first { IfErr result (IsFaultOfStream file.now stream) }
{
    let layout = Layout::read(alloc, file)?;
    let mut input = file;
    match contents_at(&mut input, &layout, stream, buffer) {
        Ok(bytes) => Ok(bytes),
        Err(AtFault::Of(fault)) => Err(PdbFault::from(fault)),
        Err(AtFault::Read) => unreachable!(),
    }
}

/// Copies the bytes of a stream, by its number from 0, to the front of `out`. `size` is how many
/// there are.
///
/// The faults, in order: those of the container; a container without this stream; `MEMORY`, if
/// there is none of these; `ROOM`, and then `size` is set too.
#[tactic(auto, using(crate::proofs::NumberLaws::pdb_known))]
#[unsafe(no_mangle)]
pub extern "C" fn pdbmerge_stream(
    alloc: Global,
    file: &[u8],
    stream: u32,
    out: &mut [u8],
    size: &mut u64,
    fault: &mut Fault,
) -> u32
    ensures { Copies (IsStreamOf file.now stream) (RefusesStream file.now stream)
        out.old out.new size.old size.new fault.new result }
{
    let mut buffer = Vec::new(alloc);
    match read_stream(alloc, file, stream, &mut buffer) {
        Ok(bytes) => give(bytes, out, size, fault),
        Err(why) => refuse(fault, why.number(), None, &why),
    }
}
