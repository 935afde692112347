//! The words of a record that name no other.

ghost use Rattle.std.specs.Prelude.{◌≡◌, ◌≤◌, ◌<◌, ◌++◌, OnOk, length, take};
ghost use Rattle.tpi_records.specs.Records.{IsRecord};
ghost use Rattle.type_expressions.specs.Told.{plain_words, if_bit, pointer_mode_words, modifier_words, pointer_words, bit_words};

use crate::field::{byte_in, push_told_name, u16_in, u32_in};
use cv_leaves::{body_of, kind_of};
use output_words::bounded::{push, push_number};
use std::alloc::{AllocError, Allocator};

/// Appends words if the lowest bit is set.
#[tactic(auto, using(output_words::proofs::TakeLaws::take_none))]
fn push_if<A: Allocator>(
    text: &mut Vec<u8, A>,
    end: usize,
    bits: u32,
    words: &[u8],
) -> Result<(), AllocError>
    requires { length text.old.items ≤ end }
    ensures value { OnOk result
        (text.new.items ≡ take end (text.old.items ++ if_bit bits words.now)) }
    ensures short { OnOk result (length text.new.items ≤ end) }
{
    if bits % 2 == 1 {
        push(text, end, words)?;
    }
    Ok(())
}

/// Appends the words of a modifier.
#[tactic(auto, using(output_words::proofs::TakeLaws::take_more), unfolding(crate::specs::Told::modifier_words))]
pub fn push_modifier<A: Allocator>(
    text: &mut Vec<u8, A>,
    end: usize,
    body: &[u8],
) -> Result<(), AllocError>
    requires { length text.old.items ≤ end }
    ensures value { OnOk result
        (text.new.items ≡ take end (text.old.items ++ modifier_words body.now)) }
    ensures short { OnOk result (length text.new.items ≤ end) }
{
    let flags = u32::from(u16_in(body, 4));
    push_if(text, end, flags, b"const ")?;
    push_if(text, end, flags / 2, b"volatile ")?;
    push_if(text, end, flags / 4, b"unaligned ")
}

/// The words of a mode of pointers.
#[tactic(auto, unfolding(crate::specs::Told::pointer_mode_words))]
fn pointer_mode_words(mode: u32) -> &'static str
    ensures { result.now ≡ pointer_mode_words mode }
{
    match mode {
        0 => "pointer to ",
        1 => "reference to ",
        2 => "pointer to member of ",
        3 => "pointer to method of ",
        4 => "rvalue reference to ",
        5 => "pointer of mode 5 to ",
        6 => "pointer of mode 6 to ",
        // A mode has three bits.
        _ => "pointer of mode 7 to ",
    }
}

/// Appends the words of a pointer.
#[tactic(auto, using(output_words::proofs::TakeLaws::take_more), unfolding(crate::specs::Told::pointer_words))]
pub fn push_pointer<A: Allocator>(
    text: &mut Vec<u8, A>,
    end: usize,
    body: &[u8],
) -> Result<(), AllocError>
    requires { length text.old.items ≤ end }
    ensures value { OnOk result
        (text.new.items ≡ take end (text.old.items ++ pointer_words body.now)) }
    ensures short { OnOk result (length text.new.items ≤ end) }
{
    let flags = u32_in(body, 4);
    push_if(text, end, flags / 1024, b"const ")?;
    push_if(text, end, flags / 512, b"volatile ")?;
    push_if(text, end, flags / 2048, b"unaligned ")?;
    push_if(text, end, flags / 4096, b"restrict ")?;
    push(text, end, pointer_mode_words(flags / 32 % 8).as_bytes())
}

/// Appends the words of a bit field.
#[tactic(auto, using(output_words::proofs::TakeLaws::take_more), unfolding(crate::specs::Told::bit_words))]
pub fn push_bits<A: Allocator>(
    text: &mut Vec<u8, A>,
    end: usize,
    body: &[u8],
) -> Result<(), AllocError>
    requires { length text.old.items ≤ end }
    ensures value { OnOk result
        (text.new.items ≡ take end (text.old.items ++ bit_words body.now)) }
    ensures short { OnOk result (length text.new.items ≤ end) }
{
    let first = u64::from(byte_in(body, 5));
    let many = u64::from(byte_in(body, 4));
    push(text, end, b", bits ")?;
    push_number(text, end, first)?;
    push(text, end, b" to ")?;
    push_number(text, end, (first + many).saturating_sub(1))?;
    Ok(())
}

/// Appends the words of a record that names no other, or that is told by its name.
#[tactic(auto, unfolding(crate::specs::Told::plain_words))]
pub fn push_plain<A: Allocator>(
    text: &mut Vec<u8, A>,
    end: usize,
    record: &[u8],
) -> Result<(), AllocError>
    requires room { length text.old.items ≤ end }
    requires framed { IsRecord «record».now }
    ensures value { OnOk result
        (text.new.items ≡ take end (text.old.items ++ plain_words «record».now)) }
    ensures short { OnOk result (length text.new.items ≤ end) }
{
    match kind_of(record) {
        0x000A => {
            push(text, end, b"virtual table of ")?;
            push_number(text, end, u64::from(u16_in(body_of(record), 0)))
        }
        0x000E => push(text, end, b"label"),
        0x1203 => push(text, end, b"fields"),
        0x151D => push(text, end, b"virtual table"),
        _ => push_told_name(text, end, record),
    }
}
