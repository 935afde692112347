//! How the records of one list of types stand to another list.

/// How a record of one list of types stands to another list.
#[derive(Clone, Copy, Debug, PartialEq, Eq)]
pub enum Standing {
    /// The other list has the type of this record.
    Shared,
    /// The other list lacks the type of this record, and an earlier record is of the same type.
    Again,
    /// The other list lacks the type of this record, and a type that it names. No earlier record is
    /// of the same type.
    Follows,
    /// The other list lacks the type of this record, but has each type that it names. No earlier
    /// record is of the same type.
    Origin,
}
