//! Reading and writing the type indices of a record.

ghost use Rattle.std.specs.Prelude.{◌≡◌, ◌≤◌, ◌+◌, List, ℕ, length};
ghost use Rattle.byte_fields.specs.Number.{number_at};
ghost use Rattle.cv_leaves.specs.Checks.{body_of};
ghost use Rattle.cv_leaves.specs.Blank.{put_four};
ghost use Rattle.cv_leaves.specs.Place.{HasPlaces, IsPlace};

use byte_fields::u32_at;
use byteorder::{ByteOrder, LittleEndian};

/// The type index at a place of a record. This does not allocate.
#[tactic(auto, using(crate::proofs::PutLaws::number_in_body), unfolding(crate::specs::Checks::body_of))]
pub fn ref_at(record: &[u8], place: usize) -> u32
    requires { place + 8 ≤ length «record».now }
    ensures { result ≡ number_at 4 (body_of «record».now) place }
{
    u32_at(record, 4 + place)
}

/// Writes a number of four bytes at the offset `at`.
#[tactic(auto, unfolding(crate::specs::Blank::put_four, byte_fields::specs::Number::four_bytes))]
fn put_u32(bytes: &mut [u8], at: usize, number: u32)
    requires { at + 4 ≤ length bytes.old }
    ensures { bytes.new ≡ put_four bytes.old at number }
{
    LittleEndian::write_u32(&mut bytes[at..at + 4], number);
}

/// Writes a type index at a place of a record.
///
/// This changes only these four bytes, and the record keeps its places. It does not allocate.
#[tactic(auto, using(crate::proofs::KeepLaws::place_fits, crate::proofs::KeepLaws::places_kept))]
pub fn set_ref(record: &mut [u8], place: usize, to: u32)
    requires { IsPlace «record».old place }
    ensures changes { «record».new ≡ put_four «record».old (4 + place) to }
    ensures keeps { (places : List ℕ) → HasPlaces «record».old places →
        HasPlaces «record».new places }
{
    put_u32(record, 4 + place, to);
}
