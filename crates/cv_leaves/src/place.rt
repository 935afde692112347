//! The places of a record.
//!
//! The crate exports `RecordPlaces` as `Places`. The toolchain refuses two items of one module
//! whose names differ only in case, as `places` and `Places`.

ghost use Rattle.std.specs.Prelude.{IfNone, IfSome, [], ◌++◌, map, ◌≡◌, ◌≤◌, ◌+◌, ◌^◌, ◌<◌, None, length};
ghost use Rattle.std.specs.Iterator.{YieldsFirst, item_count};
ghost use Rattle.byte_fields.specs.Check.{first_failing};
ghost use Rattle.cv_leaves.specs.Checks.{record_checks, places_of, checks_from, places_from};
ghost use Rattle.cv_leaves.specs.Place.{HasPlaces, IsChecked};

use crate::checks::{body_of, kind_of};
use crate::leaf::{Rest, leaf_of};
use crate::part::{Part, extent, part_at};
use std::marker::Model;

/// The places of a record: the offsets in its body, in bytes, at which there are type indices.
///
/// They rise. The record has to be one that [`check`](crate::check) accepts, of at most 65,536
/// bytes. This does not allocate.
#[tactic(auto, using(crate::proofs::FoundLaws::places_found, crate::proofs::HoldLaws::checks_hold, crate::proofs::HoldLaws::checked_long))]
pub fn places(record: &[u8]) -> RecordPlaces<'_>
    requires short { length «record».now ≤ 2 ^ 16 }
    requires checked { IsChecked «record».now }
    ensures { HasPlaces «record».now result }
{
    RecordPlaces::of(record)
}

/// The places of a record that are still to come, in rising order.
///
/// [`places`] makes it.
#[derive(Debug, Drop)]
pub struct RecordPlaces<'a> {
    body: &'a [u8],
    rest: Rest,
    // where the current part begins, and those of its places that are still to come
    base: usize,
    pending: &'static [u8],
    // where the next part begins, and where the parts stop
    next: usize,
    stop: usize,
}

impl<'a> Model for RecordPlaces<'a> {
    ghost use Rattle.std.specs.Prelude.{◌+◌, ◌++◌, List, ℕ, map};
    ghost use Rattle.cv_leaves.specs.Checks.{places_from, ArePlacesLeft};

    ghost Value = { List ℕ };

    ghost view = { λ p.
        map (λ k. p.base + k) p.pending.now ++ places_from p.rest p.body.now p.stop p.next };

    ghost invariant = { λ p. ArePlacesLeft p.rest p.body.now p.base p.next p.stop };
}

impl<'a> Iterator for RecordPlaces<'a> {
    type Item = usize;

    ghost next_gives = { YieldsFirst (λ s. s) };

    ghost remaining = { item_count (λ s. s) };

    fn next(&mut self) -> Option<usize> {
        if self.pending.is_empty() {
            let (base, part) = next_placed(self.rest, self.body, self.next, self.stop)?;
            self.base = base;
            self.pending = part.places;
            self.next = part.end;
        }
        let (&place, others) = self.pending.split_first()?;
        self.pending = others;
        Some(place_in(self.base, place))
    }
}

/// A place in the body, of the part that begins at `base`.
fn place_in(base: usize, place: u8) -> usize
    requires { base < 2 ^ 17 }
    ensures { result ≡ base + place }
{
    base + usize::from(place)
}

/// The first part from the offset `start` on that has places, and where it begins. `None` where no
/// part before `stop` has any.
#[tactic(auto, using(crate::proofs::PartLaws::no_places, crate::proofs::PartLaws::places_here, crate::proofs::PartLaws::held_here, crate::proofs::PartLaws::holds_here, crate::proofs::PartLaws::part_forward))]
fn next_placed(rest: Rest, body: &[u8], start: usize, stop: usize) -> Option<(usize, Part)>
    requires few { (start < 2 ^ 17) × (length body.now < 2 ^ 17) }
    requires checked { first_failing (checks_from rest body.now stop start) ≡ None }
    ensures none { IfNone result (places_from rest body.now stop start ≡ []) }
    ensures some { IfSome result (λ p.
        places_from rest body.now stop start
        ≡ map (λ k. p.0 + k) p.1.places.now ++ places_from rest body.now stop p.1.end) }
    ensures placed { IfSome result (λ p. 0 < length p.1.places.now) }
    ensures held { IfSome result (λ p.
        first_failing (checks_from rest body.now stop p.1.end) ≡ None) }
    ensures near { IfSome result (λ p. (p.0 < 2 ^ 17) × (p.1.end < 2 ^ 17)) }
{
    let mut at = start;
    while at < stop {
        let Ok(part) = part_at(rest, body, at) else {
            unreachable!()
        };
        if !part.places.is_empty() {
            return Some((at, part));
        }
        at = part.end;
    }
    None
}

impl<'a> RecordPlaces<'a> {
    /// The places of a record that passes its checks.
    #[tactic(auto, using(crate::proofs::RecordLaws::extent_held, crate::proofs::RecordLaws::parts_held, crate::proofs::RecordLaws::has_leaf, crate::proofs::RecordLaws::places_are))]
    fn of(record: &'a [u8]) -> RecordPlaces<'a>
        requires long { (4 ≤ length «record».now) × (length «record».now ≤ 2 ^ 16) }
        requires checked { first_failing (record_checks «record».now) ≡ None }
        ensures { result ≡ places_of «record».now }
    {
        let body = body_of(record);
        let Some(leaf) = leaf_of(kind_of(record)) else {
            unreachable!()
        };
        let Ok((start, stop)) = extent(leaf.rest, body) else {
            unreachable!()
        };
        RecordPlaces {
            body,
            rest: leaf.rest,
            base: 0,
            pending: leaf.places,
            next: start,
            stop,
        }
    }
}
