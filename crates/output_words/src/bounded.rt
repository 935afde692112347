//! Texts of bounded length.

ghost use Rattle.std.specs.Prelude.{◌≡◌, ◌≤◌, ◌<◌, ◌++◌, OnOk, IfOk, length, take};
ghost use Rattle.std.specs.List.{flat_map};
ghost use Rattle.std.specs.Fmt.{decimal};
ghost use Rattle.output_words.specs.Text.{digit, quoted_byte, quoted};

use crate::plain::{is_plain, plain_run};
use itoa::Buffer;
use std::alloc::{AllocError, Allocator};

/// Appends bytes, as far as the text stays within `end` bytes.
pub fn push<A: Allocator>(text: &mut Vec<u8, A>, end: usize, bytes: &[u8]) -> Result<(), AllocError>
    requires { length text.old.items ≤ end }
    ensures value { OnOk result (text.new.items ≡ take end (text.old.items ++ bytes.now)) }
    ensures short { OnOk result (length text.new.items ≤ end) }
{
    let room = (end - text.len()).min(bytes.len());
    text.extend_from_slice(&bytes[..room])
}

/// Appends a number.
pub fn push_number<A: Allocator>(
    text: &mut Vec<u8, A>,
    end: usize,
    number: u64,
) -> Result<(), AllocError>
    requires { length text.old.items ≤ end }
    ensures value { OnOk result (text.new.items ≡ take end (text.old.items ++ decimal number)) }
    ensures short { OnOk result (length text.new.items ≤ end) }
{
    let mut buffer = Buffer::new();
    push(text, end, buffer.format(number).as_bytes())
}

/// The lower case hexadecimal digit of a number below 16.
pub fn digit(number: u8) -> u8
    requires { number < 16 }
    ensures { result ≡ digit number }
{
    if number < 10 {
        b'0' + number
    } else {
        b'a' + (number - 10)
    }
}

/// Appends a byte as it is printed within quotes.
fn push_quoted_byte<A: Allocator>(
    text: &mut Vec<u8, A>,
    end: usize,
    byte: u8,
) -> Result<(), AllocError>
    requires { length text.old.items ≤ end }
    ensures value { OnOk result
        (text.new.items ≡ take end (text.old.items ++ quoted_byte byte)) }
    ensures short { OnOk result (length text.new.items ≤ end) }
{
    if is_plain(byte) {
        push(text, end, &[byte])
    } else {
        push(
            text,
            end,
            &[b'\\', b'x', digit(byte / 16), digit(byte % 16)],
        )
    }
}

/// Appends the plain bytes at the head of a text as they are printed within quotes, and the byte
/// behind them. The answer is what is left of the text.
fn push_run<'a, A: Allocator>(
    text: &mut Vec<u8, A>,
    end: usize,
    bytes: &'a [u8],
) -> Result<&'a [u8], AllocError>
    requires room { length text.old.items ≤ end }
    requires some { 0 < length bytes.now }
    ensures value { IfOk result (λ rest.
        take end (text.new.items ++ flat_map quoted_byte rest.now)
        ≡ take end (text.old.items ++ flat_map quoted_byte bytes.now)) }
    ensures less { IfOk result (λ rest. length rest.now < length bytes.now) }
    ensures short { OnOk result (length text.new.items ≤ end) }
{
    let (plain, rest) = bytes.split_at(plain_run(bytes));
    push(text, end, plain)?;
    let Some((byte, rest)) = rest.split_first() else {
        return Ok(rest);
    };
    push_quoted_byte(text, end, *byte)?;
    Ok(rest)
}

/// Appends a text in quotes.
pub fn push_quoted<A: Allocator>(
    text: &mut Vec<u8, A>,
    end: usize,
    name: &[u8],
) -> Result<(), AllocError>
    requires { length text.old.items ≤ end }
    ensures value { OnOk result (text.new.items ≡ take end (text.old.items ++ quoted name.now)) }
    ensures short { OnOk result (length text.new.items ≤ end) }
{
    push(text, end, b"\"")?;
    let mut rest = name;
    'runs: while !rest.is_empty() {
        rest = push_run(text, end, rest)?;
    }
    push(text, end, b"\"")?;
    Ok(())
}

/// Appends bytes.
pub fn add<A: Allocator>(text: &mut Vec<u8, A>, bytes: &[u8]) -> Result<(), AllocError>
    ensures { OnOk result (text.new.items ≡ text.old.items ++ bytes.now) }
{
    text.extend_from_slice(bytes)
}

/// No end: no text is as long.
pub const FREE: usize = usize::MAX;

/// Appends a whole number.
pub fn add_number<A: Allocator>(text: &mut Vec<u8, A>, number: u64) -> Result<(), AllocError>
    ensures { OnOk result (text.new.items ≡ text.old.items ++ decimal number) }
{
    push_number(text, FREE, number)?;
    Ok(())
}

/// Appends a whole text in quotes.
pub fn add_quoted<A: Allocator>(text: &mut Vec<u8, A>, name: &[u8]) -> Result<(), AllocError>
    ensures { OnOk result (text.new.items ≡ text.old.items ++ quoted name.now) }
{
    push_quoted(text, FREE, name)?;
    Ok(())
}
