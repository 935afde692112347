//! Little-endian numbers.

ghost use Rattle.std.specs.Prelude.{◌≡◌, ◌≤◌, ◌+◌, ◌++◌, length, OnOk};
ghost use Rattle.byte_fields.specs.Number.{number_at, four_bytes};

use byteorder::{ByteOrder, LittleEndian};
use std::alloc::{AllocError, Allocator};

/// The number in the two bytes at `offset`, with the lowest byte first.
#[tactic(auto, unfolding(crate::specs::Number::number_at))]
pub fn u16_at(bytes: &[u8], offset: usize) -> u16
    requires { offset + 2 ≤ length bytes.now }
    ensures { result ≡ number_at 2 bytes.now offset }
{
    LittleEndian::read_u16(&bytes[offset..])
}

/// The number in the four bytes at `offset`, with the lowest byte first.
#[tactic(auto, unfolding(crate::specs::Number::number_at))]
pub fn u32_at(bytes: &[u8], offset: usize) -> u32
    requires { offset + 4 ≤ length bytes.now }
    ensures { result ≡ number_at 4 bytes.now offset }
{
    LittleEndian::read_u32(&bytes[offset..])
}

/// Appends a number in four bytes, with the lowest byte first.
#[tactic(auto, unfolding(crate::specs::Number::four_bytes))]
pub fn push_u32<A: Allocator>(bytes: &mut Vec<u8, A>, number: u32) -> Result<(), AllocError>
    ensures { OnOk result (bytes.new.items ≡ bytes.old.items ++ four_bytes number) }
{
    bytes.extend_from_slice(&number.to_le_bytes())
}
