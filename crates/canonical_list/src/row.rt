//! The rows of a level, each with the bytes by which it is sorted next.

ghost use Rattle.std.specs.Prelude.{◌≡◌, ◌<◌, ℕ, get_or};
ghost use Rattle.canonical_list.specs.Rows.{HasHead, head};

use byte_fields::rest_from;

/// How many bytes the head of a row is made of.
pub const HEAD_BYTES: usize = 8;

/// A row of a level, and 8 of its bytes from some offset on, as one number.
///
/// Rows that are the same before this offset are ordered by these bytes. To compare them no other
/// memory is read.
#[derive(Clone, Copy)]
pub struct Row {
    // the bytes as one number, of which the first is the highest
    pub head: u64,
    // the position of its record
    pub position: usize,
}

impl Row {
    /// The row of these bytes, with its head at an offset.
    pub fn new(bytes: &[u8], from: usize, position: usize) -> Row
        ensures head { HasHead from result.head bytes.now }
        ensures position { result.position ≡ position }
    {
        Row {
            head: head_of(&opening(rest_from(bytes, from))),
            position,
        }
    }
}

/// The first 8 bytes of a text. Zeros stand for the bytes that it lacks.
fn opening(bytes: &[u8]) -> [u8; HEAD_BYTES]
    ensures { (i : ℕ) → i < 8 → get_or result i 0 ≡ get_or bytes.now i 0 }
{
    match bytes.first_chunk::<HEAD_BYTES>() {
        Some(first) => *first,
        None => {
            let mut padded = [0u8; HEAD_BYTES];
            padded[..bytes.len()].copy_from_slice(bytes);
            padded
        }
    }
}

/// These bytes as one number.
fn head_of(first: &[u8; HEAD_BYTES]) -> u64
    ensures { result ≡ head 0 first.now }
{
    u64::from_be_bytes([
        first[0], first[1], first[2], first[3], first[4], first[5], first[6], first[7],
    ])
}
