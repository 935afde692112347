//! Which types a comparison shows.

/// Which of the types that only one of two lists has are shown.
#[derive(Clone, Copy, Debug, PartialEq, Eq)]
pub enum Scope {
    /// All of them.
    All,
    /// Those that name no other of them: the types where the difference begins.
    Origins,
}
