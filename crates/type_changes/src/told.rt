//! A definition as it is compared.

use crate::key::Key;
use std::hash::{Hash, Hasher};

/// A definition as it is compared: what it is known by, and its text.
#[derive(Clone, Copy, Debug, PartialEq, Eq)]
pub struct Told<'a> {
    /// What it is known by.
    pub key: Key<'a>,
    /// What its text says before its size: what it defines, and its name.
    pub title: &'a [u8],
    /// Its size, or the type of its values.
    pub size: &'a [u8],
    /// The lines of its members.
    pub lines: &'a [u8],
}

/// A slice writes each of its bytes by itself. This writes the longest part, whole.
impl<'a> Hash for Told<'a> {
    ghost use Rattle.std.specs.Prelude.{[], ◌∷◌};
    ghost use Rattle.std.proofs.Common.{rules};
    ghost use Rattle.std.specs.Cmp.Rules.{hashing};
    ghost use Rattle.std.specs.Cmp.Lexicographic.{same_text};

    ghost hash_input = { λ told. told.lines.now ∷ [] };

    ghost respects_eq = { Prim.search (hashing, same_text, rules) };

    fn hash<H: Hasher>(&self, state: &mut H) {
        state.write(self.lines);
    }
}
