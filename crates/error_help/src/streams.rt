//! The faults of the info stream, and of a stream that is not there.

use crate::page::Page;

pub const NO_STREAM: Page = Page {
    number: 11,
    text: "NoStream d",
    meaning: "the file has no stream d; stream 1 has what identifies the file, and stream 2 has its \
        types",
    cause: "a container that another program wrote for its own purpose",
    advice: "give the PDB that the linker wrote",
};

pub const INFO_SHORT: Page = Page {
    number: 12,
    text: "InfoShort",
    meaning: "stream 1 has fewer than 28 bytes, so it has no version, signature, age and GUID",
    cause: "a file that was written in part, or by a program that left the stream empty",
    advice: "give the PDB that the linker wrote",
};

pub const NAMES_SHORT: Page = Page {
    number: 13,
    text: "NamesShort d",
    meaning: "the map of named streams does not fit in stream 1: the field at offset d goes past the \
        end of the stream",
    cause: "bytes that were damaged after the file was written",
    advice: "have the linker write the file again; merge, types and check read the file all the same",
};

pub const NAMES_COUNT: Page = Page {
    number: 14,
    text: "NamesCount said d present d",
    meaning: "the map of named streams announces another number of names (said) than it has (present)",
    cause: "bytes that were damaged after the file was written",
    advice: "have the linker write the file again; merge, types and check read the file all the same",
};

pub const NAME_OFFSET: Page = Page {
    number: 15,
    text: "NameOffset d",
    meaning: "the name in bucket d of the map of named streams does not end inside the map",
    cause: "bytes that were damaged after the file was written",
    advice: "have the linker write the file again; merge, types and check read the file all the same",
};
