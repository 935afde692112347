//! What becomes of an input that is refused.

/// What a merge does where one of its inputs is refused for a fault of its own.
#[derive(Clone, Copy, Debug, PartialEq, Eq)]
pub enum OnRefused {
    /// It merges nothing.
    Stop,
    /// It leaves the input out, and tells so.
    Skip,
}
