//! The faults of limits, of memory, of reading and of writing.

use crate::page::Page;

pub const TOO_LARGE: Page = Page {
    number: 32,
    text: "TooLarge bytes d",
    meaning: "the types of the files up to this one, each taken once, have d bytes of records, which \
        is more than the limit",
    cause: "more types than one file is to hold",
    advice: "give a higher --limit, up to 1073741824, or merge fewer files",
};

pub const MEMORY: Page = Page {
    number: 33,
    text: "Memory",
    meaning: "the system gave no more memory",
    cause: "files that are too large for the memory that is left, or a limit on memory such as \
        ulimit -v",
    advice: "free memory, raise the limit, or merge fewer files at a time: merges can be merged \
        again, with the same bytes in the end",
};

pub const CYCLE: Page = Page {
    number: 34,
    text: "Cycle x x ..",
    meaning: "the records of these type indices name each other in a circle, or one of them names \
        itself, so there is no order in which each comes after those that it names",
    cause: "bytes that were damaged: no compiler writes such types, since it writes a declaration \
        between them",
    advice: "copy the file again, or have the linker write it again",
};

pub const IMAGE: Page = Page {
    number: 35,
    text: "Image",
    meaning: "the streams do not fit into one file with blocks of this size",
    cause: "streams that are too long for the directory of a file with small blocks, or for any file",
    advice: "take larger blocks; no command meets this fault, since --limit keeps below it",
};

pub const WRITE: Page = Page {
    number: 36,
    text: "Write",
    meaning: "not all bytes of the file or of the text could be written, or the system could not store \
        them",
    cause: "a full disk, a quota, a pipe whose reader has ended, or an output that is closed",
    advice: "make room, and run the command again: OUT may have only its first bytes, unless only the \
        report could not be written",
};

pub const READ: Page = Page {
    number: 37,
    text: "Read",
    meaning: "a read failed",
    cause: "a folder in the place of a file, a disk with an error, or a network drive that is gone",
    advice: "give a file, and look at the messages of the system",
};

pub const TOO_LONG: Page = Page {
    number: 38,
    text: "TooLong",
    meaning: "the file, its directory, the stream that the command reads, or the names that info \
        shows have more bytes than --max-bytes allows, or the file more than 4294967295",
    cause: "a file that is larger than the limit, or a damaged or hostile one that announces a very \
        long directory or stream, or names that share their bytes",
    advice: "raise --max-bytes if the file is known to be good",
};

pub const NO_RECORD: Page = Page {
    number: 39,
    text: "NoRecord x",
    meaning: "no type record of the file has the type index x",
    cause: "an index that is too high, one below 0x1000, which stands for a simple type, or the \
        index of another file",
    advice: "list the indices of the file with pdbmerge records",
};

pub const OPEN: Page = Page {
    number: 40,
    text: "Open",
    meaning: "the file cannot be opened",
    cause: "a name that is misspelt, or a file that may not be read",
    advice: "look at the name, and at the rights to read the file and to pass its folders",
};

pub const CREATE: Page = Page {
    number: 41,
    text: "Create",
    meaning: "the file OUT cannot be created",
    cause: "a folder that is not there, or into which nothing may be written",
    advice: "look at the name, and at the rights to write into its folder",
};
