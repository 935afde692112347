//! The names of simple types.

ghost use Rattle.std.specs.Prelude.{◌≡◌, ◌≤◌, ◌<◌, ◌++◌, OnOk, option_map, length, take};
ghost use Rattle.type_expressions.specs.Simple.{simple_name, simple_mode_words, simple_parts, simple_words};

use output_words::bounded::{digit, push};
use std::alloc::{AllocError, Allocator};

/// The type of `nullptr`.
const NULLPTR: u32 = 0x103;

/// The name of a kind of simple type.
#[tactic(auto, unfolding(crate::specs::Simple::simple_name))]
fn simple_name(kind: u8) -> Option<&'static str>
    ensures { option_map (λ name. name.now) result ≡ simple_name kind }
{
    Some(match kind {
        0x00 => "no type",
        0x01 => "absolute symbol",
        0x02 => "segment",
        0x03 => "void",
        0x04 => "currency",
        0x05 => "near BASIC string",
        0x06 => "far BASIC string",
        0x07 => "type not translated",
        0x08 => "HRESULT",
        0x10 => "signed char",
        0x11 => "short",
        0x12 => "long",
        0x13 => "__int64",
        0x14 => "__int128",
        0x20 => "unsigned char",
        0x21 => "unsigned short",
        0x22 => "unsigned long",
        0x23 => "unsigned __int64",
        0x24 => "unsigned __int128",
        0x30 => "bool",
        0x31 => "__bool16",
        0x32 => "__bool32",
        0x33 => "__bool64",
        0x34 => "__bool128",
        0x40 => "float",
        0x41 => "double",
        0x42 => "long double",
        0x43 => "__float128",
        0x44 => "__float48",
        0x45 => "float of less precision",
        0x46 => "__half",
        0x50 => "complex float",
        0x51 => "complex double",
        0x52 => "complex long double",
        0x53 => "complex __float128",
        0x54 => "complex __float48",
        0x55 => "complex float of less precision",
        0x56 => "complex __half",
        0x60 => "bit",
        0x61 => "Pascal char",
        0x62 => "__bool32ff",
        0x68 => "__int8",
        0x69 => "unsigned __int8",
        0x70 => "char",
        0x71 => "wchar_t",
        0x72 => "__int16",
        0x73 => "unsigned __int16",
        0x74 => "int",
        0x75 => "unsigned int",
        0x76 => "int64_t",
        0x77 => "uint64_t",
        0x78 => "int128_t",
        0x79 => "uint128_t",
        0x7A => "char16_t",
        0x7B => "char32_t",
        0x7C => "char8_t",
        _ => return None,
    })
}

/// The words before the name of a simple type, by its mode.
#[tactic(auto, unfolding(crate::specs::Simple::simple_mode_words))]
fn simple_mode_words(mode: u32) -> Option<&'static str>
    ensures { option_map (λ words. words.now) result ≡ simple_mode_words mode }
{
    Some(match mode {
        0 => "",
        1 => "near pointer to ",
        2 => "far pointer to ",
        3 => "huge pointer to ",
        5 => "far pointer of 48 bits to ",
        7 => "pointer of 128 bits to ",
        4 | 6 => "pointer to ",
        _ => return None,
    })
}

/// The words of a simple type, but for its number where the tables lack it: those before its name,
/// and its name.
#[tactic(auto, unfolding(crate::specs::Simple::simple_parts))]
fn simple_parts(index: u32) -> Option<(&'static str, &'static str)>
    ensures { option_map (λ parts. (parts.0.now, parts.1.now)) result ≡ simple_parts index }
{
    if index == NULLPTR {
        return Some(("", "nullptr_t"));
    }
    Some((
        simple_mode_words(index / 256)?,
        simple_name((index % 256) as u8)?,
    ))
}

/// Appends the words of a simple type: its name, or its number where the tables lack its kind or its
/// mode. `nothing` stands for no type.
#[tactic(auto, using(output_words::proofs::TakeLaws::take_more), unfolding(crate::specs::Simple::simple_words, crate::specs::Simple::simple_text))]
pub fn push_simple<A: Allocator>(
    text: &mut Vec<u8, A>,
    end: usize,
    index: u32,
    nothing: &[u8],
) -> Result<(), AllocError>
    requires room { length text.old.items ≤ end }
    requires simple { index < 0x1000 }
    ensures value { OnOk result
        (text.new.items ≡ take end (text.old.items ++ simple_words nothing.now index)) }
    ensures short { OnOk result (length text.new.items ≤ end) }
{
    if index == 0 {
        return push(text, end, nothing);
    }
    match simple_parts(index) {
        Some((mode, name)) => {
            push(text, end, mode.as_bytes())?;
            push(text, end, name.as_bytes())
        }
        None => push(
            text,
            end,
            &[
                b'0',
                b'x',
                digit((index / 256) as u8),
                digit((index / 16 % 16) as u8),
                digit((index % 16) as u8),
            ],
        ),
    }
}
