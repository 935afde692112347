//! How a command makes its file.

/// How a file is made that may be there already.
#[derive(Clone, Copy, Debug, PartialEq, Eq)]
pub enum Making {
    /// What is there is written over.
    Overwrite,
    /// Nothing may be there.
    New,
    /// It is written under a name of its own in the same folder, and takes its place at the end.
    Replace,
}
