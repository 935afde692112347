//! The line of a member of a field list.

ghost use Rattle.std.specs.Prelude.{◌≡◌, ◌≤◌, ◌<◌, ◌++◌, ◌^◌, ℕ, List, true, OnOk, option_map, length};
ghost use Rattle.output_words.specs.Text.{quoted_name};
ghost use Rattle.type_expressions.specs.Expression.{IsTold};
ghost use Rattle.type_expressions.specs.Field.{number_in};
ghost use Rattle.type_expressions.specs.Member.{access_words, method_words, second_numeric, place_words, what_words, member_name, names_type, member_line};
ghost use Rattle.output_words.specs.Bounded.{cut};

use crate::expression::push_type;
use crate::field::{add_numeric, u16_in, u32_in};
use byte_fields::name_at;
use checked_types::Types;
use cv_leaves::{after_numeric, introduces};
use output_words::bounded::{add, add_number, add_quoted};
use std::alloc::{AllocError, Allocator};

/// The words of the attributes of a member: who may use it.
#[tactic(auto, unfolding(crate::specs::Member::access_words))]
fn access_words(attributes: u16) -> &'static str
    ensures { result.now ≡ access_words attributes }
{
    match attributes % 4 {
        1 => "private ",
        2 => "protected ",
        _ => "",
    }
}

/// The words of the attributes of a method: what kind of method it is.
#[tactic(auto, unfolding(crate::specs::Member::method_words))]
fn method_words(attributes: u16) -> &'static str
    ensures { result.now ≡ method_words attributes }
{
    match attributes / 4 % 8 {
        1 => "virtual method",
        2 => "static method",
        3 => "friend method",
        4 => "new virtual method",
        5 => "pure virtual method",
        6 => "new pure virtual method",
        _ => "method",
    }
}

/// Appends the offset or the value of a member, or a dash where it has none.
#[tactic(auto, unfolding(crate::specs::Member::place_words))]
fn push_place<A: Allocator>(text: &mut Vec<u8, A>, member: &[u8]) -> Result<(), AllocError>
    requires { length member.now ≤ 2 ^ 16 }
    ensures { OnOk result
        (text.new.items ≡ text.old.items ++ place_words member.now) }
{
    match u16_in(member, 0) {
        0x1400 | 0x150D | 0x151A => add_numeric(text, member, 8),
        0x1401 | 0x1402 => add_numeric(text, member, 12),
        0x1502 => add_numeric(text, member, 4),
        0x1511 if introduces(u16_in(member, 2)) => {
            add_number(text, u64::from(u32_in(member, 8)))
        }
        _ => add(text, b"-"),
    }
}

/// Appends the second of two numeric leaves of a member.
#[tactic(auto, unfolding(crate::specs::Member::second_numeric))]
fn push_second<A: Allocator>(text: &mut Vec<u8, A>, member: &[u8]) -> Result<(), AllocError>
    requires { length member.now ≤ 2 ^ 16 }
    ensures { OnOk result
        (text.new.items ≡ text.old.items ++ second_numeric member.now) }
{
    match after_numeric(member, 12) {
        Some(next) => add_numeric(text, member, next),
        None => add(text, b"?"),
    }
}

/// Appends what a member is.
#[tactic(auto, unfolding(crate::specs::Member::what_words))]
fn push_what<A: Allocator>(text: &mut Vec<u8, A>, member: &[u8]) -> Result<(), AllocError>
    requires { length member.now ≤ 2 ^ 16 }
    ensures { OnOk result
        (text.new.items ≡ text.old.items ++ what_words member.now) }
{
    let attributes = u16_in(member, 2);
    let who = access_words(attributes).as_bytes();
    match u16_in(member, 0) {
        0x1400 | 0x151A => {
            add(text, who)?;
            add(text, b"base")
        }
        0x1401 => {
            add(text, who)?;
            add(text, b"virtual base ")?;
            push_second(text, member)
        }
        0x1402 => {
            add(text, who)?;
            add(text, b"indirect virtual base ")?;
            push_second(text, member)
        }
        0x1409 => add(text, b"virtual functions"),
        0x1502 => add(text, b"value"),
        0x150D => {
            add(text, who)?;
            add(text, b"member")
        }
        0x150E => {
            add(text, who)?;
            add(text, b"static")
        }
        0x150F => {
            add_number(text, u64::from(attributes))?;
            add(text, b" methods")
        }
        0x1510 => add(text, b"nested"),
        _ => {
            add(text, who)?;
            add(text, method_words(attributes).as_bytes())
        }
    }
}

/// The name of a member, lent from it.
#[tactic(auto, unfolding(crate::specs::Member::member_name, cv_leaves::specs::Name::name_in))]
fn member_name(member: &[u8]) -> Option<&[u8]>
    requires { length member.now ≤ 2 ^ 16 }
    ensures { option_map (λ name. name.now) result ≡ member_name member.now }
{
    match u16_in(member, 0) {
        0x1502 => name_at(member, after_numeric(member, 4)?),
        0x150D => name_at(member, after_numeric(member, 8)?),
        0x1511 if introduces(u16_in(member, 2)) => name_at(member, 12),
        0x150E | 0x150F | 0x1510 | 0x1511 => name_at(member, 8),
        _ => None,
    }
}

/// Appends a space and the name of a member in quotes, where it has one.
#[tactic(auto, unfolding(output_words::specs::Text::quoted_name))]
fn push_name<A: Allocator>(text: &mut Vec<u8, A>, member: &[u8]) -> Result<(), AllocError>
    requires { length member.now ≤ 2 ^ 16 }
    ensures { OnOk result
        (text.new.items ≡ text.old.items ++ quoted_name (member_name member.now)) }
{
    if let Some(name) = member_name(member) {
        add(text, b" ")?;
        add_quoted(text, name)?;
    }
    Ok(())
}

/// The kind of an enumerator.
const LF_ENUMERATE: u16 = 0x1502;

/// Appends the line of a member: its offset or value, what it is, its name, and its type.
#[tactic(auto, unfolding(crate::specs::Member::member_line))]
pub fn push_member<A: Allocator, T: Allocator>(
    text: &mut Vec<u8, A>,
    types: &Types<'_, T>,
    member: &[u8],
) -> Result<(), AllocError>
    requires few { length member.now ≤ 2 ^ 16 }
    ensures value { (words : List ℕ)
        → (names_type member.now ≡ true → IsTold types.now 8 (number_in 4 member.now 4) words)
        → OnOk result (text.new.items ≡ text.old.items ++ member_line member.now (cut 400 words)) }
{
    push_place(text, member)?;
    add(text, b" ")?;
    push_what(text, member)?;
    push_name(text, member)?;
    if u16_in(member, 0) == LF_ENUMERATE {
        return Ok(());
    }
    add(text, b" ")?;
    push_type(text, types, u32_in(member, 4))
}
