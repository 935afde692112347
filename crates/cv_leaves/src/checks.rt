//! The check of a record.

ghost use Rattle.std.specs.Prelude.{◌≡◌, ◌≤◌, ◌^◌, ◌<◌, List, ℕ, IsOk, IfOk, length};
ghost use Rattle.byte_fields.specs.Check.{Makes};
ghost use Rattle.cv_leaves.specs.Leaf.{leaf_seen};
ghost use Rattle.cv_leaves.specs.Checks.{leaf_checks, kind_of, body_of, checks_from, fixed_checks, record_checks};
ghost use Rattle.cv_leaves.specs.Place.{HasPlaces};

use crate::fault::LeafFault;
use crate::leaf::{Leaf, Rest, leaf_of};
use crate::part::{check_field, extent, part_at};
use byte_fields::u16_at;

/// The kind of a record, which is its leaf. This does not allocate.
#[tactic(auto, unfolding(crate::specs::Checks::kind_of))]
pub fn kind_of(record: &[u8]) -> u16
    requires { 4 ≤ length «record».now }
    ensures { result ≡ kind_of «record».now }
{
    u16_at(record, 2)
}

/// The body of a record: the bytes after its length and its kind.
#[tactic(auto, unfolding(crate::specs::Checks::body_of))]
pub fn body_of(record: &[u8]) -> &[u8]
    requires { 4 ≤ length «record».now }
    ensures bytes { result.now ≡ body_of «record».now }
    ensures few { length result.now ≤ length «record».now }
{
    &record[4..]
}

/// Checks that the type indices at fixed places fit.
#[tactic(auto, unfolding(crate::specs::Checks::fixed_checks))]
fn check_fixed(body: &[u8], places: &[u8]) -> Result<(), LeafFault>
    ensures { Makes result (fixed_checks body.now places.now) }
{
    for &place in places {
        check_field(body, usize::from(place), 4)?;
    }
    Ok(())
}

/// Checks the parts from the offset `start` on, up to `stop`.
#[tactic(auto, using(crate::proofs::PartLaws::no_checks, crate::proofs::PartLaws::fault_here, crate::proofs::PartLaws::held_here, crate::proofs::PartLaws::part_forward))]
fn check_parts(rest: Rest, body: &[u8], start: usize, stop: usize) -> Result<(), LeafFault>
    requires { (start < 2 ^ 17) × (length body.now < 2 ^ 17) }
    ensures { Makes result (checks_from rest body.now stop start) }
{
    let mut at = start;
    while at < stop {
        at = part_at(rest, body, at)?.end;
    }
    Ok(())
}

/// Checks the fields of a leaf.
#[tactic(auto, using(crate::proofs::PartLaws::append_held, crate::proofs::PartLaws::append_fails), unfolding(crate::specs::Checks::rest_checks))]
fn check_leaf(leaf: Leaf, body: &[u8]) -> Result<(), LeafFault>
    requires { length body.now < 2 ^ 17 }
    ensures { Makes result (leaf_checks (leaf_seen leaf) body.now) }
{
    check_fixed(body, leaf.places)?;
    let (start, stop) = extent(leaf.rest, body)?;
    check_parts(leaf.rest, body, start, stop)
}

/// Makes all checks of a record, in order.
#[tactic(auto, using(crate::proofs::RecordLaws::checks_of_leaf, crate::proofs::RecordLaws::checks_of_no_leaf))]
fn check_record(record: &[u8]) -> Result<(), LeafFault>
    requires { (4 ≤ length «record».now) × (length «record».now ≤ 2 ^ 16) }
    ensures { Makes result (record_checks «record».now) }
{
    let kind = kind_of(record);
    match leaf_of(kind) {
        None => Err(LeafFault::Leaf(kind)),
        Some(leaf) => check_leaf(leaf, body_of(record)),
    }
}

/// Checks that the leaf of a record is known, and that each field that is read fits the body.
///
/// The kind is checked first, and then the fields in the order of their offsets. These are the
/// type indices, and the fields that say where type indices are: the attributes of a pointer and
/// of a method, the count of an argument list, and all fields of the members of a field list. The
/// name of the type is not checked. This does not allocate. ("CodeView Type Records".)
pub fn check(record: &[u8]) -> Result<(), LeafFault>
    requires { (4 ≤ length «record».now) × (length «record».now ≤ 2 ^ 16) }
    ensures value { IfOk result (λ _. (places : List ℕ) × HasPlaces «record».now places) }
    // A record that has places is not refused.
    ensures found { (places : List ℕ) → HasPlaces «record».now places → IsOk result }
    ensures first { Makes result (record_checks «record».now) }
{
    check_record(record)
}
