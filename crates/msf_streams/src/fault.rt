//! Why a stream is not gathered, and why an image is not written.

ghost use Rattle.std.specs.Prelude.{◌≡◌};
ghost use Rattle.msf_streams.specs.declared.fault.StreamFault.TheVariants.{Memory};
ghost use Rattle.msf_streams.specs.declared.fault.WriteFault.{WriteFault};
ghost use Rattle.msf_streams.specs.Fault.{stream_number};
ghost use Rattle.msf_streams.specs.Fault.{write_number};

use byte_io::NotTaken;
use std::alloc::AllocError;
use thiserror::Error;

/// Why a stream is not gathered. The faults are checked in the order of the variants.
#[derive(Clone, Copy, Debug, PartialEq, Eq, Error)]
pub enum StreamFault {
    /// The container has no stream with this number, from 0.
    #[error("11 NoStream {0}")]
    NoStream(u32),
    /// Out of memory for the contents of the stream. The stream exists.
    #[error("33 Memory")]
    Memory,
}

impl StreamFault {
    /// The number of the fault, which stands in its text.
    pub fn number(&self) -> u32
        ensures { result ≡ stream_number self.now }
    {
        match self {
            StreamFault::NoStream(_) => 11,
            StreamFault::Memory => 33,
        }
    }
}

impl From<AllocError> for StreamFault {
    ghost from_gives = { λ _ fault. fault ≡ Memory };

    fn from(_error: AllocError) -> StreamFault {
        StreamFault::Memory
    }
}

/// Why an image is not written. The faults are checked in the order of the variants.
#[derive(Clone, Copy, Debug, PartialEq, Eq, Error)]
pub enum WriteFault {
    /// A stream, the directory or the file would be longer than the format allows. Nothing was
    /// written.
    #[error("35 Image")]
    Image,
    /// Out of memory for the block map, the directory or one block. Nothing was written.
    #[error("33 Memory")]
    Memory,
    /// The sink took only the first bytes of the image, or none.
    #[error("36 Write")]
    Write,
}

impl WriteFault {
    /// The number of the fault, which stands in its text.
    pub fn number(&self) -> u32
        ensures { result ≡ write_number self.now }
    {
        match self {
            WriteFault::Image => 35,
            WriteFault::Memory => 33,
            WriteFault::Write => 36,
        }
    }
}

impl From<AllocError> for WriteFault {
    ghost from_gives = { λ _ fault. fault ≡ WriteFault.Memory };

    fn from(_error: AllocError) -> WriteFault {
        WriteFault::Memory
    }
}

impl From<NotTaken> for WriteFault {
    ghost from_gives = { λ _ fault. fault ≡ WriteFault.Write };

    fn from(_error: NotTaken) -> WriteFault {
        WriteFault::Write
    }
}
