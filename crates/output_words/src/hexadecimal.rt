//! Numbers in lower case hexadecimal digits.

ghost use Rattle.std.specs.Prelude.{◌≡◌, ◌/◌, ◌%◌, ◌∷◌, [], ◌++◌, false, OnOk, string_bytes};
ghost use Rattle.std.specs.Fmt.{digits};
ghost use Rattle.output_words.specs.Text.{digit};

use std::alloc::{AllocError, Allocator};

/// The two digits of each byte, in order. To look them up is cheaper than to compute them.
const PAIRS: &str = "\
000102030405060708090a0b0c0d0e0f101112131415161718191a1b1c1d1e1f\
202122232425262728292a2b2c2d2e2f303132333435363738393a3b3c3d3e3f\
404142434445464748494a4b4c4d4e4f505152535455565758595a5b5c5d5e5f\
606162636465666768696a6b6c6d6e6f707172737475767778797a7b7c7d7e7f\
808182838485868788898a8b8c8d8e8f909192939495969798999a9b9c9d9e9f\
a0a1a2a3a4a5a6a7a8a9aaabacadaeafb0b1b2b3b4b5b6b7b8b9babbbcbdbebf\
c0c1c2c3c4c5c6c7c8c9cacbcccdcecfd0d1d2d3d4d5d6d7d8d9dadbdcdddedf\
e0e1e2e3e4e5e6e7e8e9eaebecedeeeff0f1f2f3f4f5f6f7f8f9fafbfcfdfeff";

/// The two digits of a byte.
pub fn pair(byte: u8) -> &'static str
    ensures { result.now ≡ digit (byte / 16) ∷ digit (byte % 16) ∷ [] }
{
    let at = 2 * usize::from(byte);
    &PAIRS[at..at + 2]
}

/// Appends the four digits of a number, with leading zeros.
pub fn push_four<A: Allocator>(text: &mut String<A>, number: u16) -> Result<(), AllocError>
    ensures { OnOk result (string_bytes text.new ≡ string_bytes text.old
        ++ digit (number / 256 / 16) ∷ digit (number / 256 % 16)
        ∷ digit (number % 256 / 16) ∷ digit (number % 256 % 16) ∷ []) }
{
    text.push_str(pair((number / 256) as u8))?;
    text.push_str(pair((number % 256) as u8))?;
    Ok(())
}

/// Appends a number, without a leading zero.
fn push_u8<A: Allocator>(text: &mut String<A>, number: u8) -> Result<(), AllocError>
    ensures { OnOk result
        (string_bytes text.new ≡ string_bytes text.old ++ digits 16 false number) }
{
    if number < 16 {
        return text.push_str(&pair(number)[1..]);
    }
    text.push_str(pair(number))
}

/// Appends a number, without leading zeros.
fn push_u16<A: Allocator>(text: &mut String<A>, number: u16) -> Result<(), AllocError>
    ensures { OnOk result
        (string_bytes text.new ≡ string_bytes text.old ++ digits 16 false number) }
{
    if number < 256 {
        return push_u8(text, number as u8);
    }
    push_u8(text, (number / 256) as u8)?;
    text.push_str(pair((number % 256) as u8))?;
    Ok(())
}

/// Appends a number, without leading zeros.
pub fn push_u32<A: Allocator>(text: &mut String<A>, number: u32) -> Result<(), AllocError>
    ensures { OnOk result
        (string_bytes text.new ≡ string_bytes text.old ++ digits 16 false number) }
{
    if number < 65536 {
        return push_u16(text, number as u16);
    }
    push_u16(text, (number / 65536) as u16)?;
    push_four(text, (number % 65536) as u16)?;
    Ok(())
}
