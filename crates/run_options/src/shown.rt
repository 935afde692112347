//! Which command shows a file.

/// A command that shows a file.
#[derive(Clone, Copy, Debug, PartialEq, Eq)]
pub enum Shown {
    /// All type records.
    Records,
    /// The record with this type index.
    Record(u32),
    /// The lines of the types.
    Types,
    /// Whether the file is accepted.
    Check,
    /// The info stream.
    Info,
    /// The streams and their blocks.
    Streams,
}
