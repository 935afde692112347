//! The expression of a type, in one line.

ghost use Rattle.std.specs.Prelude.{◌≡◌, ◌≤◌, ◌++◌, [], ℕ, List, OnOk, length, map, take};
ghost use Rattle.tpi_records.specs.Records.{IsRecord};
ghost use Rattle.cv_leaves.specs.Checks.{body_of, places_of};
ghost use Rattle.cv_leaves.specs.Place.{IsChecked};
ghost use Rattle.type_expressions.specs.Field.{number_in};
ghost use Rattle.output_words.specs.Bounded.{cut};
ghost use Rattle.type_expressions.specs.Told.{nothing_words, strung, told};
ghost use Rattle.type_expressions.specs.Expression.{AreToldAt, IsNamed, IsTold};

use crate::field::{push_numeric, u32_in};
use crate::simple::push_simple;
use crate::told::{push_bits, push_modifier, push_plain, push_pointer};
use checked_types::Types;
use cv_leaves::{body_of, kind_of, places, points_to_member};
use output_words::bounded::push;
use std::alloc::{AllocError, Allocator};
use tpi_records::FIRST_INDEX;

/// How deep an expression goes.
const DEPTH: u8 = 8;

/// What stands for no type, but in a list of arguments.
const NO_TYPE: &[u8] = b"no type";

/// The leaf of a list of arguments.
const LF_ARGLIST: u16 = 0x1201;

/// What stands for no type where this record names it.
#[tactic(auto, unfolding(crate::specs::Told::nothing_words))]
fn nothing_words(record: &[u8]) -> &'static [u8]
    requires { 4 ≤ length «record».now }
    ensures { result.now ≡ nothing_words «record».now }
{
    if kind_of(record) == LF_ARGLIST {
        b"..."
    } else {
        NO_TYPE
    }
}

/// Appends the words of what a record names at a place.
#[cycle(words)]
fn push_at<A: Allocator, T: Allocator>(
    text: &mut Vec<u8, A>,
    end: usize,
    types: &Types<'_, T>,
    record: &[u8],
    place: usize,
    deep: u8,
) -> Result<(), AllocError>
    requires room { length text.old.items ≤ end }
    requires framed { IsRecord «record».now }
    ensures value { (words : List ℕ)
        → IsNamed (nothing_words «record».now) types.now deep
        (number_in 4 (body_of «record».now) place) words
        → OnOk result (text.new.items ≡ take end (text.old.items ++ words)) }
    ensures short { OnOk result (length text.new.items ≤ end) }
{
    let to = u32_in(body_of(record), place);
    push_words(text, end, types, to, deep, nothing_words(record))
}

/// Appends the words of all that a record names, with a separator between them. It stops as soon as
/// there is no more room.
#[cycle(words)]
fn push_each<A: Allocator, T: Allocator>(
    text: &mut Vec<u8, A>,
    end: usize,
    types: &Types<'_, T>,
    record: &[u8],
    deep: u8,
    separator: &'static [u8],
) -> Result<(), AllocError>
    requires room { length text.old.items ≤ end }
    requires framed { IsRecord «record».now }
    requires checked { IsChecked «record».now }
    ensures value { (at : ℕ → List ℕ) → AreToldAt types.now deep «record».now at →
        OnOk result (text.new.items ≡ take end
        (text.old.items ++ strung [] separator.now (map at (places_of «record».now)))) }
    ensures short { OnOk result (length text.new.items ≤ end) }
{
    let mut before: &'static [u8] = b"";
    for place in places(record) {
        if text.len() >= end {
            return Ok(());
        }
        push(text, end, before)?;
        push_at(text, end, types, record, place, deep)?;
        before = separator;
    }
    Ok(())
}

/// Appends the words of a record, around those of what it names, which are told to the depth `deep`.
#[cycle(words)]
fn push_record<A: Allocator, T: Allocator>(
    text: &mut Vec<u8, A>,
    end: usize,
    types: &Types<'_, T>,
    record: &[u8],
    deep: u8,
) -> Result<(), AllocError>
    requires room { length text.old.items ≤ end }
    requires framed { IsRecord «record».now }
    requires checked { IsChecked «record».now }
    ensures value { (at : ℕ → List ℕ) → AreToldAt types.now deep «record».now at →
        OnOk result (text.new.items ≡ take end (text.old.items ++ told «record».now at)) }
    ensures short { OnOk result (length text.new.items ≤ end) }
{
    let body = body_of(record);
    match kind_of(record) {
        0x1001 => {
            push_modifier(text, end, body)?;
            push_at(text, end, types, record, 0, deep)
        }
        0x1002 if points_to_member(u32_in(body, 4)) => {
            push_pointer(text, end, body)?;
            push_at(text, end, types, record, 8, deep)?;
            push(text, end, b", ")?;
            push_at(text, end, types, record, 0, deep)
        }
        0x1002 => {
            push_pointer(text, end, body)?;
            push_at(text, end, types, record, 0, deep)
        }
        0x1008 => {
            push(text, end, b"function ")?;
            push_at(text, end, types, record, 8, deep)?;
            push(text, end, b" giving ")?;
            push_at(text, end, types, record, 0, deep)
        }
        0x1009 => {
            push(text, end, b"method ")?;
            push_at(text, end, types, record, 16, deep)?;
            push(text, end, b" of ")?;
            push_at(text, end, types, record, 4, deep)?;
            push(text, end, b" giving ")?;
            push_at(text, end, types, record, 0, deep)
        }
        LF_ARGLIST => {
            push(text, end, b"(")?;
            push_each(text, end, types, record, deep, b", ")?;
            push(text, end, b")")
        }
        0x1206 => push_each(text, end, types, record, deep, b" or "),
        0x1205 => {
            push_at(text, end, types, record, 0, deep)?;
            push_bits(text, end, body)
        }
        0x1503 => {
            push(text, end, b"array of ")?;
            push_numeric(text, end, body, 8)?;
            push(text, end, b" bytes of ")?;
            push_at(text, end, types, record, 0, deep)
        }
        _ => push_plain(text, end, record),
    }
}

/// Appends the words of what a reference names, to the depth `deep`. `nothing` stands for no type.
#[cycle(words)]
pub fn push_words<A: Allocator, T: Allocator>(
    text: &mut Vec<u8, A>,
    end: usize,
    types: &Types<'_, T>,
    to: u32,
    deep: u8,
    nothing: &[u8],
) -> Result<(), AllocError>
    requires { length text.old.items ≤ end }
    ensures value { (words : List ℕ) → IsNamed nothing.now types.now deep to words →
        OnOk result (text.new.items ≡ take end (text.old.items ++ words)) }
    ensures short { OnOk result (length text.new.items ≤ end) }
{
    let Some(position) = to.checked_sub(FIRST_INDEX) else {
        return push_simple(text, end, to, nothing);
    };
    let Some(record) = types.get(position as usize) else {
        return Ok(());
    };
    if deep == 0 {
        return push(text, end, b"..");
    }
    push_record(text, end, types, record, deep - 1)
}

/// How many bytes of an expression are shown.
const LONG: usize = 400;

/// Appends the expression of what a reference names: told to a depth of 8, and cut at 400 bytes.
pub fn push_type<A: Allocator, T: Allocator>(
    text: &mut Vec<u8, A>,
    types: &Types<'_, T>,
    to: u32,
) -> Result<(), AllocError>
    ensures { (words : List ℕ) → IsTold types.now 8 to words →
        OnOk result (text.new.items ≡ text.old.items ++ cut 400 words) }
{
    let end = text.len() + LONG;
    push_words(text, end + 1, types, to, DEPTH, NO_TYPE)?;
    if end < text.len() {
        text.truncate(end);
        text.extend_from_slice(b"..")?;
    }
    Ok(())
}
