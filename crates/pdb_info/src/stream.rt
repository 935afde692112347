//! Which stream of a container is the info stream.

ghost use Rattle.std.specs.Prelude.{◌≡◌, ◌<◌, ◌≤◌, length, OnOk, IfOk, IfErr};

use msf_blocks::Layout;
use msf_streams::StreamFault;
use std::alloc::Allocator;

/// The number of the info stream, in every container that has one.
pub const INFO_STREAM: u32 = 1;

/// The number of the info stream of a container. `NoStream` where the container has too few streams
/// for one. No byte of the stream is read.
pub fn info_stream<L: Allocator>(layout: &Layout<L>) -> Result<u32, StreamFault>
    ensures value { IfOk result (λ stream. stream ≡ 1) }
    ensures there { OnOk result (1 < length layout.now.streams) }
    ensures first { IfErr result (λ fault.
        (fault ≡ StreamFault.NoStream 1) × (length layout.now.streams ≤ 1)) }
{
    if layout.streams() <= INFO_STREAM {
        return Err(StreamFault::NoStream(INFO_STREAM));
    }
    Ok(INFO_STREAM)
}
