//! The summary of a file that was written.

/// How many types a written file has, how many bytes their records have together, and how many
/// bytes the file has.
#[derive(Clone, Copy, Debug, PartialEq, Eq)]
pub struct Summary {
    pub types: u32,
    pub bytes: u32,
    pub length: u32,
}
