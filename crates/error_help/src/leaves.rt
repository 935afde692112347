//! The faults of what a record holds.

use crate::page::Page;

pub const LEAF: Page = Page {
    number: 25,
    text: "Leaf x",
    meaning: "the record is of the kind x, which is not in the table of leaves of docs/FORMAT.md",
    cause: "a compiler or a language whose records are not known here, for example an object file of \
        MSVC 19.28 linked by lld",
    advice: "leave the file out of the merge, since nobody can tell which types such a record names; \
        records, streams and info still show the file",
};

pub const BODY: Page = Page {
    number: 26,
    text: "Body d",
    meaning: "the field at offset d of the body of the record goes past the end of the record",
    cause: "bytes that were damaged, or a compiler that writes this leaf in another form",
    advice: "look at the bytes of the record with pdbmerge record",
};

pub const MEMBER: Page = Page {
    number: 27,
    text: "Member at d kind x",
    meaning: "the field list has a member of the kind x at offset d of its body, which is not in the \
        table of members of docs/FORMAT.md",
    cause: "a compiler or a language whose members are not known here, or bytes that were damaged",
    advice: "leave the file out of the merge, since nobody can tell which types such a member names",
};

pub const NUMERIC: Page = Page {
    number: 28,
    text: "Numeric d",
    meaning: "a member has no known number at offset d of the body, or the number goes past the end of \
        the record",
    cause: "bytes that were damaged, or a compiler that writes this number in another form",
    advice: "look at the bytes of the record with pdbmerge record",
};

pub const NAME: Page = Page {
    number: 29,
    text: "Name d",
    meaning: "the name of a member begins at offset d of the body, and does not end inside the record",
    cause: "bytes that were damaged, or a record that was cut at its greatest length",
    advice: "look at the bytes of the record with pdbmerge record",
};

pub const PAD: Page = Page {
    number: 30,
    text: "Pad d",
    meaning: "the padding at offset d of the body begins with 0xF0, or goes past the end of the record",
    cause: "bytes that were damaged, or a compiler that pads members in another way",
    advice: "look at the bytes of the record with pdbmerge record",
};

pub const REF: Page = Page {
    number: 31,
    text: "Ref index x place d to x",
    meaning: "the record of this type index names at this place the type index after to, and no record \
        has it",
    cause: "a file in whose types others are missing: written in part, damaged, or made by a program \
        that took some records out",
    advice: "give the PDB that the linker wrote",
};
