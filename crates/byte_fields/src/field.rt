//! Fields of a slice.

ghost use Rattle.std.specs.Prelude.{◌≡◌};
ghost use Rattle.byte_fields.specs.Field.{fits};

/// Whether the field of `len` bytes at `offset` lies within the bytes.
pub fn fits(bytes: &[u8], offset: usize, len: usize) -> bool
    ensures { result ≡ fits bytes.now offset len }
{
    bytes
        .len()
        .checked_sub(offset)
        .is_some_and(|left| len <= left)
}
