//! The faults of the container.

use crate::page::Page;

pub const SHORT: Page = Page {
    number: 1,
    text: "Short",
    meaning: "the file has fewer than 56 bytes, so it has no whole superblock",
    cause: "an empty file, or one that is still being written or copied, or that was cut",
    advice: "wait until the writer has ended, or copy the file again",
};

pub const MAGIC: Page = Page {
    number: 2,
    text: "Magic",
    meaning: "the file does not begin with the 32 bytes with which each PDB file of MSF 7.00 begins",
    cause: "another kind of file: a portable PDB of .NET, a PDB of Visual C++ 6.0 or earlier, an \
        executable, an object file, a compressed PDB, or a file whose bytes have not come yet",
    advice: "give the PDB that the linker wrote, and unpack it first if it is compressed; leave a \
        portable PDB out, since it has no such types",
};

pub const BLOCK_SIZE: Page = Page {
    number: 3,
    text: "BlockSize d",
    meaning: "the superblock says that a block has d bytes, which is not 512, 1024, 2048, 4096, 8192, \
        16384 or 32768",
    cause: "bytes that were damaged after the file was written",
    advice: "copy the file again, or have the linker write it again",
};

pub const FREE_MAP_BLOCK: Page = Page {
    number: 4,
    text: "FreeMapBlock d",
    meaning: "the superblock says that the free block map in use is block d, which is not 1 or 2",
    cause: "bytes that were damaged after the file was written",
    advice: "copy the file again, or have the linker write it again",
};

pub const FILE_SIZE: Page = Page {
    number: 5,
    text: "FileSize need d have d",
    meaning: "the superblock announces more bytes (need) than the file has (have)",
    cause: "a file that was cut, or that is still being written or copied",
    advice: "wait until the writer has ended, or copy the file again; a writer of symbol files should \
        write to another name and rename",
};

pub const DIRECTORY_SIZE: Page = Page {
    number: 6,
    text: "DirectorySize d",
    meaning: "the superblock says that the stream directory has d bytes, which is not a multiple of \
        four, or more than one block can list",
    cause: "bytes that were damaged after the file was written",
    advice: "copy the file again, or have the linker write it again",
};

pub const BLOCK_MAP_ADDR: Page = Page {
    number: 7,
    text: "BlockMapAddr d",
    meaning: "the superblock says that block d lists the blocks of the stream directory, but the file \
        has no such block, or it is the superblock",
    cause: "bytes that were damaged after the file was written",
    advice: "copy the file again, or have the linker write it again",
};

pub const DIRECTORY_BLOCK: Page = Page {
    number: 8,
    text: "DirectoryBlock at d n d",
    meaning: "the block map lists block n of the stream directory at this position, but the file has \
        no such block, or it is the superblock",
    cause: "bytes that were damaged after the file was written, or a file of which only some blocks \
        were written",
    advice: "copy the file again, or have the linker write it again",
};

pub const DIRECTORY_SHORT: Page = Page {
    number: 9,
    text: "DirectoryShort need d have d",
    meaning: "the stream directory has fewer bytes (have) than its own numbers say that it needs \
        (need)",
    cause: "bytes that were damaged after the file was written, or a file of which only some blocks \
        were written",
    advice: "copy the file again, or have the linker write it again",
};

pub const STREAM_BLOCK: Page = Page {
    number: 10,
    text: "StreamBlock stream d at d n d",
    meaning: "the stream directory lists block n of this stream at this position, but the file has no \
        such block, or it is the superblock",
    cause: "bytes that were damaged after the file was written, or a file of which only some blocks \
        were written",
    advice: "copy the file again, or have the linker write it again",
};
