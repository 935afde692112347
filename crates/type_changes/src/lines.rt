//! Lines with a sign before them.

ghost use Rattle.std.specs.Prelude.{◌≡◌, ◌++◌, map, OnOk, IfOk};
ghost use Rattle.bstr.specs.Text.{lines_of};
ghost use Rattle.type_changes.specs.Changes.{lone_lines, signed};
ghost use Rattle.std.specs.List.{list_any};
ghost use Rattle.std.specs.Str.{bytes_eq};
ghost use Rattle.std.specs.Prelude.{List, ℕ};

use bstr::ByteSlice;
use indexmap::IndexSet;
use std::alloc::{AllocError, Allocator};
use std::hash::{BuildHasher, Hash, Hasher};

/// Appends each line after a sign.
pub fn push_lines<A: Allocator>(
    text: &mut Vec<u8, A>,
    sign: &[u8],
    lines: &[u8],
) -> Result<(), AllocError>
    ensures { OnOk result
        (text.new.items ≡ text.old.items ++ signed sign.now (lines_of lines.now)) }
{
    for line in lines.lines_with_terminator() {
        text.extend_from_slice(sign)?;
        text.extend_from_slice(line)?;
    }
    Ok(())
}

/// A line that is looked up.
#[derive(Clone, Copy, Debug, PartialEq, Eq)]
struct Line<'a> {
    bytes: &'a [u8],
}

/// A slice writes each of its bytes by itself. This writes the line whole.
impl<'a> Hash for Line<'a> {
    ghost use Rattle.std.specs.Prelude.{[], ◌∷◌};
    ghost use Rattle.std.proofs.Common.{rules};
    ghost use Rattle.std.specs.Cmp.Lexicographic.{same_text};

    ghost hash_input = { λ line. line.bytes.now ∷ [] };

    ghost respects_eq = { Prim.search (same_text, rules) };

    fn hash<H: Hasher>(&self, state: &mut H) {
        state.write(self.bytes);
    }
}

/// The lines of a text, each once.
fn lines_in<'a, S: BuildHasher + Drop, A: Allocator + Copy>(
    alloc: A,
    hasher: S,
    text: &'a [u8],
) -> Result<IndexSet<Line<'a>, S, A>, AllocError>
    ensures { IfOk result (λ lines. (line : List ℕ) →
        list_any (bytes_eq line) (map (λ l. l.bytes.now) lines.keys)
        ≡ list_any (bytes_eq line) (lines_of text.now)) }
{
    let mut lines = IndexSet::with_hasher(alloc, hasher);
    for line in text.lines_with_terminator() {
        lines.insert(Line { bytes: line })?;
    }
    Ok(lines)
}

/// Appends each line that is not among others, after a sign.
pub fn push_lone_lines<S: BuildHasher + Drop, A: Allocator + Copy>(
    alloc: A,
    hasher: S,
    text: &mut Vec<u8, A>,
    sign: &[u8],
    lines: &[u8],
    others: &[u8],
) -> Result<(), AllocError>
    ensures { OnOk result (text.new.items ≡ text.old.items
        ++ signed sign.now (lone_lines (lines_of lines.now) (lines_of others.now))) }
{
    let known = lines_in(alloc, hasher, others)?;
    for line in lines.lines_with_terminator() {
        if !known.contains(&Line { bytes: line }) {
            text.extend_from_slice(sign)?;
            text.extend_from_slice(line)?;
        }
    }
    Ok(())
}
