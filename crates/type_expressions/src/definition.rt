//! The text of a definition.

ghost use Rattle.std.specs.Prelude.{◌≡◌, ◌≤◌, ◌++◌, ℕ, List, OnOk, IfOk, is_some, option_map, length};
ghost use Rattle.tpi_records.specs.Records.{IsRecord};
ghost use Rattle.cv_leaves.specs.Checks.{body_of, kind_of};
ghost use Rattle.type_trees.specs.Tree.{Tree, IsTreeAt};
ghost use Rattle.type_expressions.specs.Definition.{defined_words, only_declares, title, size_text, end_of_head, list_place, definition_text, parts_of};
ghost use Rattle.type_expressions.specs.Expression.{IsTold};
ghost use Rattle.type_expressions.specs.Field.{number_in};
ghost use Rattle.type_expressions.specs.Spans.{AreListed};
ghost use Rattle.output_words.specs.Bounded.{cut};

use crate::expression::push_type;
use crate::field::{add_numeric, add_own_name, u16_in, u32_in};
use crate::lists::{Lists, push_members};
use checked_types::Types;
use cv_leaves::{body_of, kind_of};
use output_words::bounded::add;
use std::alloc::{AllocError, Allocator};

/// The leaf of an enumeration.
const LF_ENUM: u16 = 0x1507;

/// What a record defines, by its kind.
#[tactic(auto, unfolding(crate::specs::Definition::defined_words))]
fn defined_words(kind: u16) -> Option<&'static str>
    ensures { option_map (λ words. words.now) result ≡ defined_words kind }
{
    Some(match kind {
        0x1504 => "class",
        0x1505 => "structure",
        0x1506 => "union",
        0x1507 => "enumeration",
        0x1519 => "interface",
        _ => return None,
    })
}

/// Whether a record defines or declares a class, a structure, a union, an interface or an
/// enumeration.
pub fn is_definition(record: &[u8]) -> bool
    requires { 4 ≤ length «record».now }
    ensures { result ≡ is_some (defined_words (kind_of «record».now)) }
{
    defined_words(kind_of(record)).is_some()
}

/// Whether a record only declares a type, and has no members.
#[tactic(auto, unfolding(crate::specs::Definition::only_declares))]
pub fn only_declares(record: &[u8]) -> bool
    requires { 4 ≤ length «record».now }
    ensures { result ≡ only_declares «record».now }
{
    u16_in(body_of(record), 2) / 128 % 2 == 1
}

/// Appends what stands before the size of a definition: what it defines, and its name.
#[tactic(auto, unfolding(crate::specs::Definition::title))]
fn push_title<A: Allocator>(
    text: &mut Vec<u8, A>,
    record: &[u8],
    words: &str,
) -> Result<(), AllocError>
    requires { IsRecord «record».now }
    ensures { OnOk result (text.new.items ≡ text.old.items ++ title words.now «record».now) }
{
    add(text, words.as_bytes())?;
    add(text, b" ")?;
    add_own_name(text, record)?;
    if kind_of(record) == LF_ENUM {
        add(text, b" of ")
    } else {
        add(text, b" size ")
    }
}

/// Appends the size of a type, or the type of its values where it is an enumeration.
#[tactic(auto, unfolding(crate::specs::Definition::size_text))]
fn push_size<A: Allocator, T: Allocator>(
    text: &mut Vec<u8, A>,
    types: &Types<'_, T>,
    record: &[u8],
) -> Result<(), AllocError>
    requires { IsRecord «record».now }
    ensures value { (words : List ℕ)
        → IsTold types.now 8 (number_in 4 (body_of «record».now) 4) words
        → OnOk result (text.new.items
        ≡ text.old.items ++ size_text «record».now (λ place. cut 400 words)) }
{
    let body = body_of(record);
    match kind_of(record) {
        LF_ENUM => push_type(text, types, u32_in(body, 4)),
        0x1506 => add_numeric(text, body, 8),
        _ => add_numeric(text, body, 16),
    }
}

/// What stands behind the size of a definition or a declaration.
#[tactic(auto, unfolding(crate::specs::Definition::end_of_head))]
fn end_of_head(record: &[u8]) -> &'static [u8]
    requires { 4 ≤ length «record».now }
    ensures { result.now ≡ end_of_head «record».now }
{
    if only_declares(record) {
        b" declared only\n"
    } else {
        b"\n"
    }
}

/// Where the field list of a definition is named.
fn list_place(kind: u16) -> usize
    ensures { result ≡ list_place kind }
{
    if kind == LF_ENUM { 8 } else { 4 }
}

/// Where the parts of the text of a definition stand.
#[derive(Clone, Copy, Debug)]
pub struct Parts {
    /// Where its size begins, or the type of its values. Before it stand what it defines, and its
    /// name.
    pub size: usize,
    /// Where its size ends.
    pub head: usize,
    /// Where the lines of its members begin.
    pub lines: usize,
}

/// Appends the text of the definition at a position: its head, and a line for each member. Returns
/// where its parts stand. Nothing where the record there defines no type.
///
/// The head is what it defines, its name in quotes, and its size; the type of its values where it
/// is an enumeration. A declaration has the words `declared only`, and no members. The line of a
/// member is its offset or its value, what it is, its name, and its type. `lists` are those whose
/// lines stand in the text already: they are copied. The only fault is out of memory. ("CodeView
/// Type Records", `LF_CLASS` to `LF_ENUM`.)
pub fn push_definition<A: Allocator, T: Allocator>(
    text: &mut Vec<u8, A>,
    types: &Types<'_, T>,
    lists: &mut Lists<A>,
    position: usize,
) -> Result<Option<Parts>, AllocError>
    requires lists { AreListed types.now text.old.items lists.old }
    requires there { (t : Tree) × IsTreeAt types.now position t }
    ensures value { (t : Tree) → IsTreeAt types.now position t →
        OnOk result (text.new.items ≡ text.old.items ++ definition_text t) }
    ensures lists { OnOk result (AreListed types.now text.new.items lists.new) }
    ensures parts { (t : Tree) → IsTreeAt types.now position t →
        IfOk result (λ parts. parts ≡ parts_of (length text.old.items) t) }
{
    let Some(record) = types.get(position) else {
        return Ok(None);
    };
    let Some(words) = defined_words(kind_of(record)) else {
        return Ok(None);
    };
    push_title(text, record, words)?;
    let size = text.len();
    push_size(text, types, record)?;
    let head = text.len();
    add(text, end_of_head(record))?;
    let lines = text.len();
    let list = u32_in(body_of(record), list_place(kind_of(record)));
    push_members(text, types, lists, list)?;
    Ok(Some(Parts { size, head, lines }))
}
