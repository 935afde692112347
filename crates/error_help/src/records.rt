//! The faults of the stream of types, and of its records.

use crate::page::Page;

pub const TPI_SHORT: Page = Page {
    number: 16,
    text: "TpiShort",
    meaning: "stream 2 has fewer than 56 bytes, so it has no whole header",
    cause: "a file that was written in part, or by a program that left the stream empty",
    advice: "give the PDB that the linker wrote",
};

pub const TPI_VERSION: Page = Page {
    number: 17,
    text: "TpiVersion d",
    meaning: "stream 2 has the version d, and only 20040203 is read",
    cause: "a file of another or an older format",
    advice: "link the program again with a newer linker",
};

pub const TPI_HEADER_SIZE: Page = Page {
    number: 18,
    text: "TpiHeaderSize d",
    meaning: "stream 2 says that its header has d bytes, and only 56 is read",
    cause: "bytes that were damaged after the file was written",
    advice: "copy the file again, or have the linker write it again",
};

pub const TPI_BEGIN: Page = Page {
    number: 19,
    text: "TpiBegin x",
    meaning: "the first type record has the type index x, and only 0x1000 is read",
    cause: "bytes that were damaged after the file was written",
    advice: "copy the file again, or have the linker write it again",
};

pub const TPI_END: Page = Page {
    number: 20,
    text: "TpiEnd x",
    meaning: "the type index after the last record is x, which is below 0x1000",
    cause: "bytes that were damaged after the file was written",
    advice: "copy the file again, or have the linker write it again",
};

pub const TPI_BYTES: Page = Page {
    number: 21,
    text: "TpiBytes need d have d",
    meaning: "the header of stream 2 announces more bytes of records (need) than the stream has (have)",
    cause: "a file that was written in part, or bytes that were damaged",
    advice: "copy the file again, or have the linker write it again",
};

pub const RECORD_SHORT: Page = Page {
    number: 22,
    text: "RecordShort index x",
    meaning: "the records end within the one that has this type index",
    cause: "a file that was written in part, or bytes that were damaged",
    advice: "copy the file again, or have the linker write it again",
};

pub const RECORD_LEN: Page = Page {
    number: 23,
    text: "RecordLen index x len d",
    meaning: "the record of this type index gives d as its length, which is below 2, or with which the \
        record does not end at a multiple of four bytes",
    cause: "bytes that were damaged, or a compiler that does not pad its records",
    advice: "copy the file again, or link it with another linker",
};

pub const RECORD_COUNT: Page = Page {
    number: 24,
    text: "RecordCount said d found d",
    meaning: "the header of stream 2 announces another number of records (said) than there are (found)",
    cause: "bytes that were damaged after the file was written",
    advice: "copy the file again, or have the linker write it again",
};
