//! The guess: the record of a table that a record is expected to become.
//!
//! Most records of an input are in the table already, in the same sequence. So before a record is
//! copied and hashed, it is compared with one record of the table: the one after the record that
//! the last record became.

ghost use Rattle.std.specs.Prelude.{◌≡◌, ◌≤◌, ◌<◌, ◌+◌, ◌-◌, ◌^◌, [], IsTrue, length, get_or, take, drop};
ghost use Rattle.tpi_records.specs.Header.{first_index};
ghost use Rattle.tpi_records.specs.Records.{IsRecord};
ghost use Rattle.cv_leaves.specs.Place.{IsChecked};
ghost use Rattle.cv_leaves.specs.References.{reference_at, references};
ghost use Rattle.byte_fields.specs.Bytes.{AreBytes};
ghost use Rattle.type_trees.specs.Types.{NamesThere};
ghost use Rattle.cv_leaves.specs.Named.{named_places};
ghost use Rattle.type_trees.specs.Table.{IsTable, renumber_one, renumbered};

use cv_leaves::ref_at;
use record_set::RecordSet;
use std::alloc::Allocator;
use std::hash::BuildHasher;
use type_trees::number_for;

/// Whether two slices have the same bytes from one offset to another.
fn same_part(one: &[u8], other: &[u8], from: usize, to: usize) -> bool
    requires order { from ≤ to }
    requires inside { to ≤ length one.now }
    requires both { length one.now ≡ length other.now }
    ensures { IsTrue result →
        take (to - from) (drop from one.now) ≡ take (to - from) (drop from other.now) }
{
    one[from..to] == other[from..to]
}

/// Whether the reference at a place of a record becomes that of the entry.
fn becomes_at(bytes: &[u8], numbers: &[u32], entry: &[u8], place: usize) -> bool
    requires inside { place + 8 ≤ length bytes.now }
    requires both { length bytes.now ≡ length entry.now }
    ensures there { IsTrue result →
        reference_at bytes.now place < first_index + length numbers.now }
    ensures value { IsTrue result →
        reference_at entry.now place
        ≡ renumber_one (λ k. get_or numbers.now k 0) (reference_at bytes.now place) }
{
    match number_for(ref_at(bytes, place), numbers) {
        Some(to) => to == ref_at(entry, place),
        None => false,
    }
}

/// Whether a record becomes this entry of a table, once its references have their new type indices.
///
/// `places` has the places at which the entry names other records. The bytes before, between and
/// after them are compared with those of the record. At each place the new type index of the
/// record's reference is compared with that of the entry. A record that becomes the entry has the
/// same places, so it needs no check of its own.
pub fn becomes(bytes: &[u8], numbers: &[u32], entry: &[u8], places: &[u16]) -> bool
    requires framed { IsRecord entry.now }
    requires checked { IsChecked entry.now }
    requires listed { places.now ≡ named_places entry.now }
    ensures same { IsTrue result → entry.now ≡ renumbered (λ k. get_or numbers.now k 0) bytes.now }
    ensures checked { IsTrue result → IsChecked bytes.now }
    ensures there { IsTrue result → NamesThere (length numbers.now) (references bytes.now) }
{
    if bytes.len() != entry.len() {
        return false;
    }
    let mut from = 0;
    for place in places {
        let place = usize::from(*place);
        let at = 4 + place;
        if !same_part(bytes, entry, from, at) {
            return false;
        }
        if !becomes_at(bytes, numbers, entry, place) {
            return false;
        }
        from = at + 4;
    }
    same_part(bytes, entry, from, entry.len())
}

/// Whether a record becomes the record at this position of a table.
#[inline(always)]
#[tactic(auto, using(crate::proofs::GuessLaws::entry_framed, crate::proofs::GuessLaws::entry_checked, crate::proofs::GuessLaws::entry_bytes))]
pub fn is_at<S: BuildHasher, A: Allocator>(
    records: &RecordSet<S, A>,
    position: usize,
    bytes: &[u8],
    numbers: &[u32],
) -> bool
    requires table { IsTable records.now }
    ensures at { IsTrue result →
        (position < length records.now)
        × (get_or records.now position [] ≡ renumbered (λ k. get_or numbers.now k 0) bytes.now) }
    ensures small { IsTrue result → position < 2 ^ 31 }
    ensures bytes { IsTrue result → AreBytes (renumbered (λ k. get_or numbers.now k 0) bytes.now) }
    ensures checked { IsTrue result → IsChecked bytes.now }
    ensures there { IsTrue result → NamesThere (length numbers.now) (references bytes.now) }
{
    position < records.len()
        && becomes(
            bytes,
            numbers,
            records.get(position),
            records.places(position),
        )
}
