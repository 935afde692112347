//! The places at which a record names other records.

ghost use Rattle.std.specs.Prelude.{◌≡◌, ◌≤◌, ◌<◌, ◌+◌, ◌↔◌, ◌^◌, ◌++◌, ◌∷◌, [], nat_le, IsTrue, IfOk, None, length, map, take};
ghost use Rattle.std.specs.List.{AllByRecursion};
ghost use Rattle.byte_fields.specs.Check.{first_failing};
ghost use Rattle.cv_leaves.specs.Leaf.{leaf_seen};
ghost use Rattle.cv_leaves.specs.Checks.{body_of, fixed_checks, rest_checks, leaf_checks, rest_places, leaf_places};
ghost use Rattle.cv_leaves.specs.Place.{IsChecked};
ghost use Rattle.cv_leaves.specs.References.{reference_at};
ghost use Rattle.cv_leaves.specs.Named.{named_at, named_among, named_places};
ghost use Rattle.cv_leaves.specs.declared.leaf.Rest.TheVariants.{Containing, Indices, Methods, Members};

use crate::checks::{body_of, kind_of};
use crate::leaf::{Leaf, Rest, leaf_of};
use crate::member::member_at;
use crate::part::{after_entry, extent, field_fits, has_containing};
use crate::reference::ref_at;
use std::alloc::{AllocError, Allocator};
use tpi_records::FIRST_INDEX;

/// Appends a place to the list, where the record names a record there.
#[tactic(auto, using(crate::proofs::ListLaws::simple_at, crate::proofs::ListLaws::other_at))]
fn push_named<A: Allocator>(
    record: &[u8],
    place: usize,
    list: &mut Vec<u16, A>,
) -> Result<(), AllocError>
    requires inside { place + 8 ≤ length «record».now }
    requires short { length «record».now ≤ 2 ^ 16 }
    ensures { IfOk result (λ _.
        list.new.items ≡ list.old.items ++ named_at place (reference_at «record».now place)) }
{
    if ref_at(record, place) >= FIRST_INDEX {
        list.push(place as u16)?;
    }
    Ok(())
}

/// Appends a place to the list, where the record names a record there. Returns whether the index
/// fits the body.
#[tactic(auto, using(crate::proofs::ListLaws::fits_record))]
fn list_place<A: Allocator>(
    record: &[u8],
    place: usize,
    list: &mut Vec<u16, A>,
) -> Result<bool, AllocError>
    requires long { (4 ≤ length «record».now) × (length «record».now ≤ 2 ^ 16) }
    requires near { place < 2 ^ 17 }
    ensures held { IfOk result (λ held.
        held ≡ nat_le (place + 4) (length (body_of «record».now))) }
    ensures listed { IfOk result (λ held. IsTrue held →
        list.new.items ≡ list.old.items ++ named_at place (reference_at «record».now place)) }
{
    if !field_fits(body_of(record), place, 4) {
        return Ok(false);
    }
    push_named(record, place, list)?;
    Ok(true)
}

/// Appends those of the fixed places at which a record names a record. Returns whether all of them
/// fit the body.
#[tactic(auto, unfolding(crate::specs::Checks::fixed_checks))]
fn list_fixed<A: Allocator>(
    record: &[u8],
    places: &[u8],
    list: &mut Vec<u16, A>,
) -> Result<bool, AllocError>
    requires { (4 ≤ length «record».now) × (length «record».now ≤ 2 ^ 16) }
    ensures held { IfOk result (λ held.
        IsTrue held ↔ (first_failing (fixed_checks (body_of «record».now) places.now) ≡ None)) }
    ensures listed { IfOk result (λ held. IsTrue held →
        list.new.items ≡ list.old.items ++ named_among «record».now places.now) }
{
    for &place in places {
        if !list_place(record, usize::from(place), list)? {
            return Ok(false);
        }
    }
    Ok(true)
}

/// Appends the place of the containing class of a pointer that points to a member, if the class is
/// a record. Returns whether the pointer passes its checks.
#[tactic(auto, using(crate::proofs::PartLaws::checks_containing))]
fn list_containing<A: Allocator>(record: &[u8], list: &mut Vec<u16, A>) -> Result<bool, AllocError>
    requires { (4 ≤ length «record».now) × (length «record».now ≤ 2 ^ 16) }
    ensures held { IfOk result (λ held.
        IsTrue held ↔ (first_failing (rest_checks Containing (body_of «record».now)) ≡ None)) }
    ensures listed { IfOk result (λ held. IsTrue held →
        list.new.items
        ≡ list.old.items
        ++ named_among «record».now (rest_places Containing (body_of «record».now))) }
{
    match has_containing(body_of(record), 4) {
        Err(_) => Ok(false),
        Ok(false) => Ok(true),
        Ok(true) => {
            push_named(record, 8, list)?;
            Ok(true)
        }
    }
}

/// Appends the places of an argument list at which it names a record. Returns whether all of its
/// indices fit the body.
#[tactic(auto, using(crate::proofs::ListLaws::index_fits, crate::proofs::ListLaws::index_misses, crate::proofs::PartLaws::no_checks, crate::proofs::PartLaws::append_held, crate::proofs::PartLaws::append_fails), unfolding(crate::specs::Checks::rest_checks, crate::specs::Part::extent_checks))]
fn list_indices<A: Allocator>(record: &[u8], list: &mut Vec<u16, A>) -> Result<bool, AllocError>
    requires { (4 ≤ length «record».now) × (length «record».now ≤ 2 ^ 16) }
    ensures held { IfOk result (λ held.
        IsTrue held ↔ (first_failing (rest_checks Indices (body_of «record».now)) ≡ None)) }
    ensures listed { IfOk result (λ held. IsTrue held →
        list.new.items
        ≡ list.old.items ++ named_among «record».now (rest_places Indices (body_of «record».now))) }
{
    let Ok((start, stop)) = extent(Rest::Indices, body_of(record)) else {
        return Ok(false);
    };
    let mut at = start;
    while at < stop {
        if !list_place(record, at, list)? {
            return Ok(false);
        }
        at += 4;
    }
    Ok(true)
}

/// Appends the places of a method list at which it names a record. Returns whether its entries pass
/// their checks.
#[tactic(auto, using(crate::proofs::PartLaws::no_checks, crate::proofs::PartLaws::fault_here, crate::proofs::PartLaws::held_here, crate::proofs::PartLaws::part_forward), unfolding(crate::specs::Checks::rest_checks, crate::specs::Part::extent_checks))]
fn list_methods<A: Allocator>(record: &[u8], list: &mut Vec<u16, A>) -> Result<bool, AllocError>
    requires { (4 ≤ length «record».now) × (length «record».now ≤ 2 ^ 16) }
    ensures held { IfOk result (λ held.
        IsTrue held ↔ (first_failing (rest_checks Methods (body_of «record».now)) ≡ None)) }
    ensures listed { IfOk result (λ held. IsTrue held →
        list.new.items
        ≡ list.old.items ++ named_among «record».now (rest_places Methods (body_of «record».now))) }
{
    let body = body_of(record);
    let mut at = 0;
    while at < body.len() {
        let Ok(end) = after_entry(body, at) else {
            return Ok(false);
        };
        push_named(record, at + 4, list)?;
        at = end;
    }
    Ok(true)
}

/// Appends those places of the member at `at` at which a record names a record. The member has this
/// number of type indices.
fn list_member<A: Allocator>(
    record: &[u8],
    at: usize,
    indices: u8,
    list: &mut Vec<u16, A>,
) -> Result<(), AllocError>
    requires short { length «record».now ≤ 2 ^ 16 }
    requires few { indices ≤ 2 }
    requires inside { AllByRecursion (λ k. at + k + 8 ≤ length «record».now)
        (take indices (4 ∷ 8 ∷ [])) }
    ensures { IfOk result (λ _.
        list.new.items
        ≡ list.old.items
        ++ named_among «record».now (map (λ k. at + k) (take indices (4 ∷ 8 ∷ [])))) }
{
    match indices {
        0 => Ok(()),
        1 => push_named(record, at + 4, list),
        _ => {
            push_named(record, at + 4, list)?;
            push_named(record, at + 8, list)
        }
    }
}

/// Appends the places of a field list at which it names a record. Returns whether its members pass
/// their checks.
#[tactic(auto, using(crate::proofs::PartLaws::no_checks, crate::proofs::PartLaws::member_fault, crate::proofs::PartLaws::member_held, crate::proofs::MemberLaws::member_forward), unfolding(crate::specs::Checks::rest_checks, crate::specs::Part::extent_checks))]
fn list_members<A: Allocator>(record: &[u8], list: &mut Vec<u16, A>) -> Result<bool, AllocError>
    requires { (4 ≤ length «record».now) × (length «record».now ≤ 2 ^ 16) }
    ensures held { IfOk result (λ held.
        IsTrue held ↔ (first_failing (rest_checks Members (body_of «record».now)) ≡ None)) }
    ensures listed { IfOk result (λ held. IsTrue held →
        list.new.items
        ≡ list.old.items ++ named_among «record».now (rest_places Members (body_of «record».now))) }
{
    let body = body_of(record);
    let mut at = 0;
    while at < body.len() {
        let Ok((indices, end)) = member_at(body, at) else {
            return Ok(false);
        };
        list_member(record, at, indices, list)?;
        at = end;
    }
    Ok(true)
}

/// Appends those places after the fixed ones at which a record names a record. Returns whether what
/// follows the fixed places passes its checks.
#[tactic(auto, using(crate::proofs::PartLaws::checks_nothing, crate::proofs::PartLaws::places_nothing, crate::proofs::ListLaws::listed_none))]
fn list_rest<A: Allocator>(
    record: &[u8],
    rest: Rest,
    list: &mut Vec<u16, A>,
) -> Result<bool, AllocError>
    requires { (4 ≤ length «record».now) × (length «record».now ≤ 2 ^ 16) }
    ensures held { IfOk result (λ held.
        IsTrue held ↔ (first_failing (rest_checks rest (body_of «record».now)) ≡ None)) }
    ensures listed { IfOk result (λ held. IsTrue held →
        list.new.items
        ≡ list.old.items ++ named_among «record».now (rest_places rest (body_of «record».now))) }
{
    match rest {
        Rest::Nothing => Ok(true),
        Rest::Containing => list_containing(record, list),
        Rest::Indices => list_indices(record, list),
        Rest::Methods => list_methods(record, list),
        Rest::Members => list_members(record, list),
    }
}

/// Appends those places of a leaf at which a record names a record. Returns whether the leaf passes
/// its checks.
#[tactic(auto, using(crate::proofs::PartLaws::append_held, crate::proofs::PartLaws::append_fails))]
fn list_leaf<A: Allocator>(
    record: &[u8],
    leaf: Leaf,
    list: &mut Vec<u16, A>,
) -> Result<bool, AllocError>
    requires { (4 ≤ length «record».now) × (length «record».now ≤ 2 ^ 16) }
    ensures held { IfOk result (λ held.
        IsTrue held
        ↔ (first_failing (leaf_checks (leaf_seen leaf) (body_of «record».now)) ≡ None)) }
    ensures listed { IfOk result (λ held. IsTrue held →
        list.new.items
        ≡ list.old.items
        ++ named_among «record».now (leaf_places (leaf_seen leaf) (body_of «record».now))) }
{
    if !list_fixed(record, leaf.places, list)? {
        return Ok(false);
    }
    list_rest(record, leaf.rest, list)
}

/// Makes `list` the places at which a record names other records, if the record passes its checks.
///
/// Returns whether it does, as [`check`](crate::check) tells. References to simple types are left
/// out. The places are offsets in the body, in bytes, and rise. If a check fails or memory runs
/// out, the list has some of them. This allocates only the list.
pub fn list_places<A: Allocator>(record: &[u8], list: &mut Vec<u16, A>) -> Result<bool, AllocError>
    requires { (4 ≤ length «record».now) × (length «record».now ≤ 2 ^ 16) }
    // It answers true only for a record that has places, and lists them.
    ensures checked { IfOk result (λ held. IsTrue held → IsChecked «record».now) }
    ensures listed { IfOk result (λ held.
        IsTrue held → list.new.items ≡ named_places «record».now) }
    // A record that has places is not refused.
    ensures found { IsChecked «record».now → IfOk result (λ held. IsTrue held) }
{
    list.clear();
    match leaf_of(kind_of(record)) {
        None => Ok(false),
        Some(leaf) => list_leaf(record, leaf, list),
    }
}
