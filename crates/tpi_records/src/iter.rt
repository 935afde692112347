//! The iterator over the records of a TPI stream.

ghost use Rattle.std.specs.Prelude.{◌≡◌, ◌<◌, [], ◌∷◌, length, drop, IfSome, IfNone};
ghost use Rattle.std.specs.Iterator.{YieldsFirstRef, item_count};
ghost use Rattle.tpi_records.specs.Records.{IsRecord, IsFramed, records_in};

use byte_fields::u16_at;
use std::marker::Model;

/// The records of a TPI stream that are still to come, in order.
///
/// Made by [`Records::iter`](crate::Records::iter). Each record is lent from the stream.
#[derive(Debug, Drop)]
pub struct Iter<'a> {
    left: &'a [u8],
}

impl<'a> Model for Iter<'a> {
    ghost use Rattle.std.specs.Prelude.{List, ℕ};
    ghost use Rattle.tpi_records.specs.Records.{IsFramed, records_in};

    ghost Value = { List (List ℕ) };

    ghost view = { λ i. records_in i.left.now };

    ghost invariant = { λ i. IsFramed i.left.now };
}

impl<'a> Iter<'a> {
    /// All the records of these bytes.
    pub(crate) fn over(bytes: &'a [u8]) -> Iter<'a>
        requires { IsFramed bytes.now }
        ensures { result ≡ records_in bytes.now }
    {
        Iter { left: bytes }
    }
}

/// The first record of `bytes`, and the bytes after it.
fn split_record(bytes: &[u8]) -> (&[u8], &[u8])
    requires framed { IsFramed bytes.now }
    requires some { 0 < length bytes.now }
    ensures records { records_in bytes.now ≡ result.0.now ∷ records_in result.1.now }
    ensures record { IsRecord result.0.now }
    ensures framed { IsFramed result.1.now }
{
    let len = usize::from(u16_at(bytes, 0)) + 2;
    bytes.split_at(len)
}

/// The first record of `bytes`, and the bytes after it. `None` where there are no bytes.
#[tactic(auto, using(crate::proofs::CutLaws::none_in))]
pub fn split_first(bytes: &[u8]) -> Option<(&[u8], &[u8])>
    requires { IsFramed bytes.now }
    ensures some { IfSome result (λ r. records_in bytes.now ≡ r.0.now ∷ records_in r.1.now) }
    ensures record { IfSome result (λ r. IsRecord r.0.now) }
    ensures framed { IfSome result (λ r. IsFramed r.1.now) }
    ensures none { IfNone result (records_in bytes.now ≡ []) }
{
    if bytes.is_empty() {
        return None;
    }
    Some(split_record(bytes))
}

/// The bytes without their first `count` records.
pub fn skip(bytes: &[u8], count: usize) -> &[u8]
    requires { IsFramed bytes.now }
    ensures records { records_in result.now ≡ drop count (records_in bytes.now) }
    ensures framed { IsFramed result.now }
{
    let mut left = bytes;
    for _ in 0..count {
        let Some((_, others)) = split_first(left) else {
            return left;
        };
        left = others;
    }
    left
}

impl<'a> Iterator for Iter<'a> {
    type Item = &'a [u8];

    ghost next_gives = { YieldsFirstRef (λ s. s) };

    ghost remaining = { item_count (λ s. s) };

    fn next(&mut self) -> Option<&'a [u8]> {
        let (record, others) = split_first(self.left)?;
        self.left = others;
        Some(record)
    }
}
