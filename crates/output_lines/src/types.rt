//! The line of a record, with the types that it names.

ghost use Rattle.std.specs.Prelude.{◌≡◌, ◌≤◌, ◌+◌, ◌^◌, ◌∷◌, ◌++◌, List, ℕ, OnOk, string_bytes, length};
ghost use Rattle.std.specs.List.{flat_map};
ghost use Rattle.std.specs.Fmt.{decimal};
ghost use Rattle.cv_leaves.specs.Place.{HasPlaces, IsChecked};
ghost use Rattle.cv_leaves.specs.Name.{name_of};
ghost use Rattle.output_words.specs.Text.{index_text, quoted_name};
ghost use Rattle.output_lines.specs.Types.{type_line, reference, leaf_name};

use cv_leaves::{kind_of, leaf_text, places, ref_at, type_name};
use output_words::{push_index, push_number, push_quoted};
use std::alloc::{AllocError, Allocator};

/// Appends the name of the leaf of a record.
#[tactic(auto, unfolding(crate::specs::Types::leaf_name))]
fn push_leaf<A: Allocator>(text: &mut String<A>, bytes: &[u8]) -> Result<(), AllocError>
    requires { 4 ≤ length bytes.now }
    ensures { OnOk result (string_bytes text.new ≡ string_bytes text.old ++ leaf_name bytes.now) }
{
    if let Some(leaf) = leaf_text(kind_of(bytes)) {
        text.push_str(leaf)?;
    }
    Ok(())
}

/// Appends the type index of a record, the name of its leaf and its size in bytes.
fn push_head<A: Allocator>(text: &mut String<A>, index: u32, bytes: &[u8]) -> Result<(), AllocError>
    requires { 4 ≤ length bytes.now }
    ensures { OnOk result
        (string_bytes text.new
        ≡ string_bytes text.old
        ++ (index_text index ++ 32 ∷ leaf_name bytes.now ++ 32 ∷ decimal (length bytes.now))) }
{
    push_index(text, index)?;
    text.push_str(" ")?;
    push_leaf(text, bytes)?;
    push_number(text, bytes.len() as u64)?;
    Ok(())
}

/// Appends a space and the type index at a place.
fn push_reference<A: Allocator>(
    text: &mut String<A>,
    bytes: &[u8],
    place: usize,
) -> Result<(), AllocError>
    requires { place + 8 ≤ length bytes.now }
    ensures { OnOk result
        (string_bytes text.new ≡ string_bytes text.old ++ reference bytes.now place) }
{
    text.push_str(" ")?;
    push_index(text, ref_at(bytes, place))
}

/// Appends the type indices at all places, each after a space.
fn push_references<A: Allocator>(text: &mut String<A>, bytes: &[u8]) -> Result<(), AllocError>
    requires long { (4 ≤ length bytes.now) × (length bytes.now ≤ 2 ^ 16) }
    requires checked { IsChecked bytes.now }
    ensures { OnOk result
        ((at : List ℕ) × HasPlaces bytes.now at
        × (string_bytes text.new ≡ string_bytes text.old ++ flat_map (reference bytes.now) at)) }
{
    for place in places(bytes) {
        push_reference(text, bytes, place)?;
    }
    Ok(())
}

/// Appends a space and the name of a type in quotes, where it has one.
#[tactic(auto, unfolding(output_words::specs::Text::quoted_name))]
fn push_name<A: Allocator>(text: &mut String<A>, bytes: &[u8]) -> Result<(), AllocError>
    requires { (4 ≤ length bytes.now) × (length bytes.now ≤ 2 ^ 16) }
    ensures { OnOk result
        (string_bytes text.new ≡ string_bytes text.old ++ quoted_name (name_of bytes.now)) }
{
    if let Some(name) = type_name(bytes) {
        text.push_str(" ")?;
        push_quoted(text, name)?;
    }
    Ok(())
}

/// Appends the line of a record whose leaf was checked.
#[tactic(auto, unfolding(crate::specs::Types::type_line))]
pub fn push_type_line<A: Allocator>(
    text: &mut String<A>,
    index: u32,
    bytes: &[u8],
) -> Result<(), AllocError>
    requires long { (4 ≤ length bytes.now) × (length bytes.now ≤ 2 ^ 16) }
    requires checked { IsChecked bytes.now }
    ensures { OnOk result
        ((at : List ℕ) × HasPlaces bytes.now at
        × (string_bytes text.new ≡ string_bytes text.old ++ type_line index bytes.now at)) }
{
    push_head(text, index, bytes)?;
    push_references(text, bytes)?;
    push_name(text, bytes)?;
    text.push_str("\n")?;
    Ok(())
}
