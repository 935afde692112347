//! How numbers and texts are printed.

ghost use Rattle.std.specs.Prelude.{◌≡◌, ◌<◌, ◌∷◌, ◌++◌, OnOk, IfOk, IsAscii, string_bytes, length};
ghost use Rattle.std.specs.List.{flat_map};
ghost use Rattle.std.specs.Fmt.{decimal};
ghost use Rattle.output_words.specs.Text.{index_text, kind_text, quoted, quoted_byte, named_line};

use crate::hexadecimal::{pair, push_four, push_u32};
use crate::plain::{is_plain, plain_run};
use itoa::Buffer;
use std::alloc::{AllocError, Allocator};

/// Appends a type index: `0x` and lower case hexadecimal digits without leading zeros.
pub fn push_index<A: Allocator>(text: &mut String<A>, index: u32) -> Result<(), AllocError>
    ensures { OnOk result (string_bytes text.new ≡ string_bytes text.old ++ index_text index) }
{
    text.push_str("0x")?;
    push_u32(text, index)?;
    Ok(())
}

/// Appends the kind of a record: `0x` and four lower case hexadecimal digits.
pub fn push_kind<A: Allocator>(text: &mut String<A>, kind: u16) -> Result<(), AllocError>
    ensures { OnOk result (string_bytes text.new ≡ string_bytes text.old ++ kind_text kind) }
{
    text.push_str("0x")?;
    push_four(text, kind)?;
    Ok(())
}

/// Appends a number in decimal.
pub fn push_decimal<A: Allocator>(text: &mut String<A>, number: u64) -> Result<(), AllocError>
    ensures { OnOk result (string_bytes text.new ≡ string_bytes text.old ++ decimal number) }
{
    let mut buffer = Buffer::new();
    text.push_str(buffer.format(number))
}

/// Appends a space and a number in decimal.
pub fn push_number<A: Allocator>(text: &mut String<A>, number: u64) -> Result<(), AllocError>
    ensures { OnOk result (string_bytes text.new ≡ string_bytes text.old ++ 32 ∷ decimal number) }
{
    text.push_str(" ")?;
    push_decimal(text, number)?;
    Ok(())
}

/// Appends a line with a name and a number.
#[tactic(auto, unfolding(crate::specs::Text::named_line))]
pub fn push_named<A: Allocator>(
    text: &mut String<A>,
    name: &str,
    number: u32,
) -> Result<(), AllocError>
    ensures { OnOk result
        (string_bytes text.new ≡ string_bytes text.old ++ named_line name.now number) }
{
    text.push_str(name)?;
    push_number(text, u64::from(number))?;
    text.push_str("\n")?;
    Ok(())
}

/// Appends bytes that are ASCII. So they are UTF-8, which a text has to be.
fn push_ascii<A: Allocator>(text: &mut String<A>, bytes: &[u8]) -> Result<(), AllocError>
    requires { IsAscii bytes.now }
    ensures { OnOk result (string_bytes text.new ≡ string_bytes text.old ++ bytes.now) }
{
    let Ok(ascii) = str::from_utf8(bytes) else {
        unreachable!();
    };
    text.push_str(ascii)
}

/// Appends a byte as it is printed within quotes.
fn push_quoted_byte<A: Allocator>(text: &mut String<A>, byte: u8) -> Result<(), AllocError>
    ensures { OnOk result (string_bytes text.new ≡ string_bytes text.old ++ quoted_byte byte) }
{
    if is_plain(byte) {
        text.push(char::from(byte))?;
    } else {
        text.push_str("\\x")?;
        text.push_str(pair(byte))?;
    }
    Ok(())
}

/// Appends the plain bytes at the head of a text as they are printed within quotes, and the byte
/// behind them. The answer is what is left of the text.
fn push_run<'a, A: Allocator>(text: &mut String<A>, bytes: &'a [u8]) -> Result<&'a [u8], AllocError>
    requires { 0 < length bytes.now }
    ensures value { IfOk result (λ rest.
        string_bytes text.new ++ flat_map quoted_byte rest.now
        ≡ string_bytes text.old ++ flat_map quoted_byte bytes.now) }
    ensures less { IfOk result (λ rest. length rest.now < length bytes.now) }
{
    let (plain, rest) = bytes.split_at(plain_run(bytes));
    push_ascii(text, plain)?;
    let Some((byte, rest)) = rest.split_first() else {
        return Ok(rest);
    };
    push_quoted_byte(text, *byte)?;
    Ok(rest)
}

/// Appends a text in quotes. It may have any bytes. The quote, the backslash and all bytes that are
/// not printable ASCII are written by their numbers.
#[tactic(auto, unfolding(crate::specs::Text::quoted))]
pub fn push_quoted<A: Allocator>(text: &mut String<A>, bytes: &[u8]) -> Result<(), AllocError>
    ensures { OnOk result (string_bytes text.new ≡ string_bytes text.old ++ quoted bytes.now) }
{
    text.push_str("\"")?;
    let mut rest = bytes;
    'runs: while !rest.is_empty() {
        rest = push_run(text, rest)?;
    }
    text.push_str("\"")?;
    Ok(())
}
