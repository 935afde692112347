//! The fields of a body that a text shows.

ghost use Rattle.std.specs.Prelude.{◌≡◌, ◌≤◌, ◌<◌, ◌+◌, ◌^◌, ◌++◌, OnOk, length, take, option_map};
ghost use Rattle.tpi_records.specs.Records.{IsRecord};
ghost use Rattle.type_expressions.specs.Field.{number_in, numeric_text, name_text, shown_name, told_name, own_name, signed};

use byte_fields::{fits, name_at, u16_at, u32_at};
use byteorder::{ByteOrder, LittleEndian};
use cv_leaves::{from_name, type_name};
use output_words::bounded::{FREE, push, push_number, push_quoted};
use std::alloc::{AllocError, Allocator};

/// The byte at an offset, or 0 where it does not fit.
#[tactic(auto, unfolding(crate::specs::Field::number_in, byte_fields::specs::Number::number_at))]
pub fn byte_in(body: &[u8], at: usize) -> u8
    ensures { result ≡ number_in 1 body.now at }
{
    if fits(body, at, 1) {
        return body[at];
    }
    0
}

/// The number of two bytes at an offset, or 0 where it does not fit.
#[tactic(auto, unfolding(crate::specs::Field::number_in))]
pub fn u16_in(body: &[u8], at: usize) -> u16
    ensures { result ≡ number_in 2 body.now at }
{
    if fits(body, at, 2) {
        return u16_at(body, at);
    }
    0
}

/// The number of four bytes at an offset, or 0 where it does not fit.
#[tactic(auto, unfolding(crate::specs::Field::number_in))]
pub fn u32_in(body: &[u8], at: usize) -> u32
    ensures { result ≡ number_in 4 body.now at }
{
    if fits(body, at, 4) {
        return u32_at(body, at);
    }
    0
}

/// The number of eight bytes at an offset, or 0 where it does not fit.
#[tactic(auto, unfolding(crate::specs::Field::number_in, byte_fields::specs::Number::number_at))]
pub fn u64_in(body: &[u8], at: usize) -> u64
    ensures { result ≡ number_in 8 body.now at }
{
    if fits(body, at, 8) {
        return LittleEndian::read_u64(&body[at..]);
    }
    0
}

/// Appends a number in two's complement. `half` is the lowest number that stands for a negative
/// one.
#[tactic(auto, using(output_words::proofs::TakeLaws::take_more), unfolding(crate::specs::Field::signed))]
fn push_signed<A: Allocator>(
    text: &mut Vec<u8, A>,
    end: usize,
    half: u64,
    number: u64,
) -> Result<(), AllocError>
    requires room { length text.old.items ≤ end }
    requires small { number < half + half }
    ensures value { OnOk result (text.new.items ≡ take end (text.old.items ++ signed half number)) }
    ensures short { OnOk result (length text.new.items ≤ end) }
{
    if number < half {
        return push_number(text, end, number);
    }
    push(text, end, b"-")?;
    push_number(text, end, half - (number - half))
}

/// Appends the value of the numeric leaf at an offset of a body, or a question mark.
#[tactic(auto, unfolding(crate::specs::Field::numeric_text, crate::specs::Field::numeric_value, crate::specs::Field::number_in, cv_leaves::specs::Numeric::has_numeric, cv_leaves::specs::Numeric::numeric_end))]
pub fn push_numeric<A: Allocator>(
    text: &mut Vec<u8, A>,
    end: usize,
    body: &[u8],
    at: usize,
) -> Result<(), AllocError>
    requires room { length text.old.items ≤ end }
    requires near { (at < 2 ^ 17) × (length body.now < 2 ^ 17) }
    ensures value { OnOk result
        (text.new.items ≡ take end (text.old.items ++ numeric_text body.now at)) }
    ensures short { OnOk result (length text.new.items ≤ end) }
{
    if !fits(body, at, 2) {
        return push(text, end, b"?");
    }
    let kind = u16_at(body, at);
    if kind < 0x8000 {
        return push_number(text, end, u64::from(kind));
    }
    let from = at + 2;
    match kind {
        0x8000 if fits(body, from, 1) => {
            push_signed(text, end, 0x80, u64::from(byte_in(body, from)))
        }
        0x8001 if fits(body, from, 2) => {
            push_signed(text, end, 0x8000, u64::from(u16_in(body, from)))
        }
        0x8002 if fits(body, from, 2) => push_number(text, end, u64::from(u16_in(body, from))),
        0x8003 if fits(body, from, 4) => {
            push_signed(text, end, 0x8000_0000, u64::from(u32_in(body, from)))
        }
        0x8004 if fits(body, from, 4) => push_number(text, end, u64::from(u32_in(body, from))),
        0x8009 if fits(body, from, 8) => {
            push_signed(text, end, 0x8000_0000_0000_0000, u64_in(body, from))
        }
        0x800A if fits(body, from, 8) => push_number(text, end, u64_in(body, from)),
        _ => push(text, end, b"?"),
    }
}

/// Appends a name in quotes, or a question mark.
#[tactic(auto, unfolding(crate::specs::Field::name_text))]
fn push_name<A: Allocator>(
    text: &mut Vec<u8, A>,
    end: usize,
    name: Option<&[u8]>,
) -> Result<(), AllocError>
    requires { length text.old.items ≤ end }
    ensures value { OnOk result
        (text.new.items
        ≡ take end (text.old.items ++ name_text (option_map (λ bytes. bytes.now) name.entry))) }
    ensures short { OnOk result (length text.new.items ≤ end) }
{
    match name {
        Some(name) => push_quoted(text, end, name),
        None => push(text, end, b"?"),
    }
}

/// How many bytes of a name are shown.
const SHOWN: usize = 400;

/// The bytes that are looked at for a name.
fn first_bytes(bytes: &[u8]) -> &[u8]
    ensures { result.now ≡ take 400 bytes.now }
{
    match bytes.first_chunk::<SHOWN>() {
        Some(first) => first,
        None => bytes,
    }
}

/// The name at the head of these bytes, as far as it is shown.
#[tactic(auto, unfolding(crate::specs::Field::shown_name))]
fn shown_name(bytes: &[u8]) -> Option<&[u8]>
    ensures { option_map (λ name. name.now) result ≡ shown_name bytes.now }
{
    let first = first_bytes(bytes);
    match name_at(first, 0) {
        Some(name) => Some(name),
        None if SHOWN < bytes.len() => Some(first),
        None => None,
    }
}

/// Appends the name of the type that a record describes, as far as it is shown, in quotes, or a
/// question mark. It looks at no byte of a name behind those.
#[tactic(auto, unfolding(crate::specs::Field::told_name))]
pub fn push_told_name<A: Allocator>(
    text: &mut Vec<u8, A>,
    end: usize,
    record: &[u8],
) -> Result<(), AllocError>
    requires room { length text.old.items ≤ end }
    requires framed { IsRecord «record».now }
    ensures value { OnOk result
        (text.new.items ≡ take end (text.old.items ++ told_name «record».now)) }
    ensures short { OnOk result (length text.new.items ≤ end) }
{
    let name = match from_name(record) {
        Some(bytes) => shown_name(bytes),
        None => None,
    };
    push_name(text, end, name)
}

/// Appends the whole value of the numeric leaf at an offset of a body, or a question mark.
pub fn add_numeric<A: Allocator>(
    text: &mut Vec<u8, A>,
    body: &[u8],
    at: usize,
) -> Result<(), AllocError>
    requires { (at < 2 ^ 17) × (length body.now < 2 ^ 17) }
    ensures { OnOk result (text.new.items ≡ text.old.items ++ numeric_text body.now at) }
{
    push_numeric(text, FREE, body, at)?;
    Ok(())
}

/// Appends the whole name of the type that a record describes, in quotes, or a question mark.
#[tactic(auto, unfolding(crate::specs::Field::own_name))]
pub fn add_own_name<A: Allocator>(text: &mut Vec<u8, A>, record: &[u8]) -> Result<(), AllocError>
    requires { IsRecord «record».now }
    ensures { OnOk result (text.new.items ≡ text.old.items ++ own_name «record».now) }
{
    push_name(text, FREE, type_name(record))?;
    Ok(())
}
