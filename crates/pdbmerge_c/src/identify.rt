//! What identifies a file.

ghost use Rattle.std.specs.Prelude.{◌≡◌, ◌≢◌, Some, None, ℕ, List, IfOk, IfErr};
ghost use Rattle.msf_blocks.specs.Layout.{HasLayout};
ghost use Rattle.msf_streams.specs.Streams.{stream_contents};
ghost use Rattle.pdb_info.specs.Header.{HasInfoHeader};
ghost use Rattle.file_types.specs.Read.{HasInfoFault};
ghost use Rattle.pdbmerge_c.specs.Fault.{IsEnded, IsSaid};
ghost use Rattle.pdbmerge_c.specs.Identify.{Identifies, IsFaultOfIdentity, RefusesIdentity};

use crate::fault::{Fault, clear, refuse};
use file_types::PdbFault;
use msf_blocks::Layout;
use msf_streams::pieces;
use pdb_info::{InfoFault, InfoHeader, info_stream};
use std::alloc::Global;

/// What identifies a file.
#[repr(C)]
#[derive(Clone, Copy, Debug)]
pub struct Identity {
    /// The GUID, in the order in which it is printed.
    pub guid: [u8; 16],
    pub age: u32,
    /// How many bytes a block has.
    pub block_size: u32,
}

/// The header of the info stream. It is in the first piece of the stream, since each block has at
/// least 512 bytes.
fn header_of(file: &[u8], layout: &Layout) -> Result<InfoHeader, PdbFault>
    requires { HasLayout file.now layout.now }
    ensures value { IfOk result (λ header.
        (stream : List ℕ) × (stream_contents file.now layout.now 1 ≡ Some stream)
        × HasInfoHeader stream header) }
    ensures first { IfErr result (HasInfoFault file.now layout.now) }
{
    let stream = info_stream(layout)?;
    let Some(mut found) = pieces(file, layout, stream) else {
        unreachable!()
    };
    let Some(first) = found.next() else {
        return Err(PdbFault::Info(InfoFault::InfoShort));
    };
    Ok(InfoHeader::read(first)?)
}

/// Reads what identifies a file.
fn read_identity(alloc: Global, file: &[u8]) -> Result<Identity, PdbFault>
    ensures value { IfOk result (Identifies file.now) }
    ensures first { IfErr result (IsFaultOfIdentity file.now) }
{
    let layout = Layout::read(alloc, file)?;
    let header = header_of(file, &layout)?;
    Ok(Identity {
        guid: header.guid().into_bytes(),
        age: header.age(),
        block_size: layout.superblock().block_size(),
    })
}

/// Reads what identifies a file: its GUID, its age and the size of its blocks.
///
/// The faults, in order: those of the container; a container without a stream 1; a stream 1 with
/// fewer bytes than a header. Out of memory comes only where the container has no fault.
#[tactic(auto, using(crate::proofs::NumberLaws::pdb_known))]
#[unsafe(no_mangle)]
pub extern "C" fn pdbmerge_identify(
    alloc: Global,
    file: &[u8],
    identity: &mut Identity,
    fault: &mut Fault,
) -> u32
    ensures told { IsSaid fault.new result }
    ensures ended { IsEnded fault.new }
    ensures value { result ≡ 0 → Identifies file.now identity.new }
    ensures refuses { result ≢ 0 → RefusesIdentity file.now fault.new }
    ensures kept { result ≢ 0 → identity.new ≡ identity.old }
{
    match read_identity(alloc, file) {
        Ok(found) => {
            *identity = found;
            clear(fault)
        }
        Err(why) => refuse(fault, why.number(), None, &why),
    }
}
