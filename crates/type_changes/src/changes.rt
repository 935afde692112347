//! The text of what came, went and changed.

ghost use Rattle.std.specs.Prelude.{◌≡◌, ◌++◌, List, map, option_map, OnOk};
ghost use Rattle.std.specs.List.{flat_map};
ghost use Rattle.type_trees.specs.Tree.{Tree};
ghost use Rattle.type_expressions.specs.Asked.{AreTrees};
ghost use Rattle.type_changes.specs.Changes.{changed, changed_size, changes_between, changes_text, come_text, gone_text, successor, whole};
ghost use Rattle.type_changes.specs.Definition.{Definition, definitions};
ghost use Rattle.type_changes.specs.Seen.{AreSoles, seen, seen_key};

use crate::key::Key;
use crate::lines::{push_lines, push_lone_lines};
use crate::lone::{distinct, lone};
use crate::place::push_both;
use crate::sole::{Soles, sole_of, soles};
use crate::told::Told;
use checked_types::Types;
use std::alloc::{AllocError, Allocator};
use std::hash::BuildHasher;

/// Appends a whole definition after a sign, and each of its lines.
#[tactic(auto, unfolding(crate::specs::Changes::whole))]
fn push_whole<A: Allocator>(
    text: &mut Vec<u8, A>,
    sign: &[u8],
    told: &Told<'_>,
) -> Result<(), AllocError>
    ensures { OnOk result (text.new.items ≡ text.old.items ++ whole sign.now (seen told.now)) }
{
    text.extend_from_slice(sign)?;
    text.extend_from_slice(told.title)?;
    text.extend_from_slice(told.size)?;
    text.extend_from_slice(b"\n")?;
    push_lines(text, sign, told.lines)
}

/// Appends the size of a definition that changed: both where they differ.
#[tactic(auto, unfolding(crate::specs::Changes::changed_size))]
fn push_changed_size<A: Allocator>(
    text: &mut Vec<u8, A>,
    old: &[u8],
    new: &[u8],
) -> Result<(), AllocError>
    ensures { OnOk result (text.new.items ≡ text.old.items ++ changed_size old.now new.now) }
{
    text.extend_from_slice(old)?;
    if old != new {
        text.extend_from_slice(b" -> ")?;
        text.extend_from_slice(new)?;
    }
    Ok(())
}

/// Appends a definition that changed: its head, and the lines that only one side has.
#[tactic(auto, unfolding(crate::specs::Changes::changed))]
fn push_changed<S: BuildHasher + Drop + Copy, A: Allocator + Copy>(
    alloc: A,
    hasher: S,
    text: &mut Vec<u8, A>,
    old: &Told<'_>,
    new: &Told<'_>,
) -> Result<(), AllocError>
    ensures { OnOk result
        (text.new.items ≡ text.old.items ++ changed (seen old.now) (seen new.now)) }
{
    text.extend_from_slice(b"~ ")?;
    text.extend_from_slice(old.title)?;
    push_changed_size(text, old.size, new.size)?;
    text.extend_from_slice(b"\n")?;
    push_lone_lines(alloc, hasher, text, b"  - ", old.lines, new.lines)?;
    push_lone_lines(alloc, hasher, text, b"  + ", new.lines, old.lines)
}

/// What a key is of now, if it changed: one definition alone went with it, and one alone came.
#[tactic(auto, unfolding(crate::specs::Changes::successor))]
fn successor<'a, S: BuildHasher, A: Allocator>(
    gone: &Soles<'a, S, A>,
    come: &Soles<'a, S, A>,
    key: &Key<'a>,
) -> Option<Told<'a>>
    ensures { (ours theirs : List Definition) → AreSoles gone.now ours → AreSoles come.now theirs →
        option_map seen result ≡ successor ours theirs (seen_key key.now) }
{
    if sole_of(gone, key).is_some() {
        sole_of(come, key)
    } else {
        None
    }
}

/// Appends what went and changed.
fn push_gone<'a, S: BuildHasher + Drop + Copy, A: Allocator + Copy>(
    alloc: A,
    hasher: S,
    text: &mut Vec<u8, A>,
    gone: &[Told<'a>],
    gone_soles: &Soles<'a, S, A>,
    come_soles: &Soles<'a, S, A>,
) -> Result<(), AllocError>
    ensures { (theirs : List Definition) → AreSoles gone_soles.now (map seen gone.now)
        → AreSoles come_soles.now theirs → OnOk result (text.new.items ≡ text.old.items
        ++ flat_map (gone_text (map seen gone.now) theirs) (map seen gone.now)) }
{
    for told in gone {
        match successor(gone_soles, come_soles, &told.key) {
            Some(new) => push_changed(alloc, hasher, text, told, &new)?,
            None => push_whole(text, b"- ", told)?,
        }
    }
    Ok(())
}

/// Appends what came.
fn push_come<'a, S: BuildHasher, A: Allocator + Copy>(
    text: &mut Vec<u8, A>,
    come: &[Told<'a>],
    gone_soles: &Soles<'a, S, A>,
    come_soles: &Soles<'a, S, A>,
) -> Result<(), AllocError>
    ensures { (ours : List Definition) → AreSoles gone_soles.now ours
        → AreSoles come_soles.now (map seen come.now) → OnOk result (text.new.items
        ≡ text.old.items ++ flat_map (come_text ours (map seen come.now)) (map seen come.now)) }
{
    for told in come {
        if successor(gone_soles, come_soles, &told.key).is_none() {
            push_whole(text, b"+ ", told)?;
        }
    }
    Ok(())
}

/// Appends what went and changed, and then what came.
fn push_between<'a, S: BuildHasher + Drop + Copy, A: Allocator + Copy>(
    alloc: A,
    hasher: S,
    text: &mut Vec<u8, A>,
    gone: &[Told<'a>],
    come: &[Told<'a>],
) -> Result<(), AllocError>
    ensures { OnOk result (text.new.items
        ≡ text.old.items ++ changes_between (map seen gone.now) (map seen come.now)) }
{
    let gone_soles = soles(alloc, hasher, gone)?;
    let come_soles = soles(alloc, hasher, come)?;
    push_gone(alloc, hasher, text, gone, &gone_soles, &come_soles)?;
    push_come(text, come, &gone_soles, &come_soles)
}

/// Appends which definitions came, went or changed between two lists of types.
///
/// First come the definitions of the first list that the second one lacks, each once, in the order
/// of their records: what became of it, if it is the only one with its [`Key`] that the second list
/// lacks, and the second list has just one such definition; or else the whole of it, after `- `.
/// Then come the other definitions that only the second list has, after `+ `. A definition that
/// changed has `~ ` and its head, with both sizes where they differ, and then the lines of members
/// that only one side has, after `  - ` and `  + `.
///
/// The only fault is that memory is refused. (Definitions: "CodeView Type Records", `LF_CLASS` to
/// `LF_ENUM`.)
pub fn push_changes<S: BuildHasher + Drop + Copy, A: Allocator + Copy>(
    alloc: A,
    hasher: S,
    text: &mut Vec<u8, A>,
    first: &Types<'_, A>,
    second: &Types<'_, A>,
) -> Result<(), AllocError>
    ensures { (trees others : List Tree) → AreTrees first.now trees → AreTrees second.now others →
        OnOk result (text.new.items
        ≡ text.old.items ++ changes_text (definitions trees) (definitions others)) }
{
    let mut texts = Vec::new(alloc);
    let places = push_both(alloc, hasher, &mut texts, first, second)?;
    let olds = distinct(alloc, hasher, &texts, &places.first)?;
    let news = distinct(alloc, hasher, &texts, &places.second)?;
    let gone = lone(alloc, &olds, &news)?;
    let come = lone(alloc, &news, &olds)?;
    push_between(alloc, hasher, text, &gone, &come)
}
