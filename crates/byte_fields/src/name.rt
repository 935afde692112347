//! Names that a NUL ends.

ghost use Rattle.std.specs.Prelude.{◌≡◌, ◌==◌, drop, option_map, is_some, IfSome};
ghost use Rattle.std.specs.List.{before_first, list_any};
ghost use Rattle.byte_fields.specs.Name.{name_at};

use bstr::ByteSlice;

/// The bytes from `offset` on. There are none past the end.
pub fn rest_from(bytes: &[u8], offset: usize) -> &[u8]
    ensures { result.now ≡ drop offset bytes.now }
{
    &bytes[offset.min(bytes.len())..]
}

/// The name at `offset`: the bytes from there up to the next NUL, without it. `None` where no NUL
/// follows.
#[tactic(auto, using(crate::proofs::NameLaws::name_here, crate::proofs::NameLaws::no_name_here, crate::proofs::NameLaws::name_is_before, crate::proofs::NameLaws::name_has_nul, crate::proofs::NameLaws::no_name_no_nul))]
pub fn name_at(bytes: &[u8], offset: usize) -> Option<&[u8]>
    ensures value { option_map (λ name. name.now) result ≡ name_at bytes.now offset }
    ensures before { IfSome result (λ name.
        name.now ≡ before_first (λ byte. byte == 0) (drop offset bytes.now)) }
    ensures found { is_some result ≡ list_any (λ byte. byte == 0) (drop offset bytes.now) }
{
    let rest = rest_from(bytes, offset);
    let len = rest.find_byte(0)?;
    Some(&rest[..len])
}
