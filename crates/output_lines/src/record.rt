//! The text of one record, with the types that it names.

ghost use Rattle.std.specs.Prelude.{◌≡◌, ◌≤◌, ◌+◌, ◌^◌, ◌++◌, List, ℕ, OnOk, IfOk, string_bytes, length};
ghost use Rattle.std.specs.List.{flat_map};
ghost use Rattle.cv_leaves.specs.Place.{HasPlaces, IsChecked};
ghost use Rattle.cv_leaves.specs.Name.{name_of};
ghost use Rattle.output_lines.specs.Record.{bytes_line, place_line, name_lines};

use cv_leaves::{places, ref_at, type_name};
use output_words::{push_decimal, push_index, push_quoted};
use std::alloc::{AllocError, Allocator};

/// Appends the line with the bytes in hexadecimal.
#[tactic(auto, unfolding(crate::specs::Record::bytes_line))]
fn push_bytes<A: Allocator + Copy>(
    alloc: A,
    text: &mut String<A>,
    bytes: &[u8],
) -> Result<(), AllocError>
    ensures { OnOk result (string_bytes text.new ≡ string_bytes text.old ++ bytes_line bytes.now) }
{
    text.push_str(&hex::encode(alloc, bytes)?)?;
    text.push_str("\n")?;
    Ok(())
}

/// Appends the line of a place: the place and the type index there.
#[tactic(auto, unfolding(crate::specs::Record::place_line))]
fn push_place<A: Allocator>(
    text: &mut String<A>,
    bytes: &[u8],
    place: usize,
) -> Result<(), AllocError>
    requires { place + 8 ≤ length bytes.now }
    ensures { OnOk result
        (string_bytes text.new ≡ string_bytes text.old ++ place_line bytes.now place) }
{
    push_decimal(text, place as u64)?;
    text.push_str(" ")?;
    push_index(text, ref_at(bytes, place))?;
    text.push_str("\n")?;
    Ok(())
}

/// Appends the lines of all places.
fn push_places<A: Allocator>(text: &mut String<A>, bytes: &[u8]) -> Result<(), AllocError>
    requires long { (4 ≤ length bytes.now) × (length bytes.now ≤ 2 ^ 16) }
    requires checked { IsChecked bytes.now }
    ensures { OnOk result
        ((at : List ℕ) × HasPlaces bytes.now at
        × (string_bytes text.new ≡ string_bytes text.old ++ flat_map (place_line bytes.now) at)) }
{
    for place in places(bytes) {
        push_place(text, bytes, place)?;
    }
    Ok(())
}

/// Appends the line of the name, where there is one.
#[tactic(auto, unfolding(crate::specs::Record::name_lines))]
fn push_name<A: Allocator>(text: &mut String<A>, bytes: &[u8]) -> Result<(), AllocError>
    requires long { (4 ≤ length bytes.now) × (length bytes.now ≤ 2 ^ 16) }
    ensures { OnOk result
        (string_bytes text.new ≡ string_bytes text.old ++ name_lines (name_of bytes.now)) }
{
    if let Some(name) = type_name(bytes) {
        text.push_str("name ")?;
        push_quoted(text, name)?;
        text.push_str("\n")?;
    }
    Ok(())
}

/// The text of a record whose leaf was checked: its bytes, its places and its name.
pub fn record_text<A: Allocator + Copy>(alloc: A, bytes: &[u8]) -> Result<String<A>, AllocError>
    requires long { (4 ≤ length bytes.now) × (length bytes.now ≤ 2 ^ 16) }
    requires checked { IsChecked bytes.now }
    ensures { IfOk result (λ text.
        (at : List ℕ) × HasPlaces bytes.now at
        × (string_bytes text
        ≡ bytes_line bytes.now ++ flat_map (place_line bytes.now) at
        ++ name_lines (name_of bytes.now))) }
{
    let mut text = String::new(alloc);
    push_bytes(alloc, &mut text, bytes)?;
    push_places(&mut text, bytes)?;
    push_name(&mut text, bytes)?;
    Ok(text)
}
