//! The members of a field list.

ghost use Rattle.std.specs.Prelude.{◌≡◌, ◌≤◌, ◌<◌, ◌^◌, [], ◌∷◌, None, length, IfSome, IfNone};
ghost use Rattle.std.specs.Iterator.{YieldsFirstRef, item_count};
ghost use Rattle.std.specs.List.{AllByRecursion};
ghost use Rattle.byte_fields.specs.Check.{first_failing};
ghost use Rattle.cv_leaves.specs.Checks.{checks_from};
ghost use Rattle.cv_leaves.specs.FieldList.{members_from, members_of, IsWholeMember};
ghost use Rattle.cv_leaves.specs.Place.{IsChecked};
ghost use Rattle.cv_leaves.specs.declared.leaf.Rest.TheVariants.{Members};

use crate::checks::{body_of, kind_of};
use crate::leaf::Rest;
use crate::part::part_at;
use std::marker::Model;

/// The leaf of a field list.
const LF_FIELDLIST: u16 = 0x1203;

/// The members of a field list, in order. Each is lent from the record, with its padding. A record
/// of another leaf has none.
///
/// The record has to be one that [`check`](crate::check) accepts, of at most 65,536 bytes. This does
/// not allocate. ("CodeView Type Records", `LF_FIELDLIST`.)
#[tactic(auto, using(crate::proofs::FieldListLaws::members_held, crate::proofs::FieldListLaws::members_past, crate::proofs::FieldListLaws::no_members, crate::proofs::FieldListLaws::some_members, crate::proofs::HoldLaws::checked_long, crate::proofs::PartLaws::no_checks))]
pub fn members(record: &[u8]) -> FieldMembers<'_>
    requires short { length «record».now ≤ 2 ^ 16 }
    requires checked { IsChecked «record».now }
    ensures value { result ≡ members_of «record».now }
    ensures whole { AllByRecursion IsWholeMember result }
{
    if kind_of(record) != LF_FIELDLIST {
        return FieldMembers { body: &[], next: 0 };
    }
    FieldMembers {
        body: body_of(record),
        next: 0,
    }
}

/// The members of a field list that are still to come, in order.
///
/// [`members`] makes it.
#[derive(Debug, Drop)]
pub struct FieldMembers<'a> {
    body: &'a [u8],
    next: usize,
}

impl<'a> Model for FieldMembers<'a> {
    ghost use Rattle.std.specs.Prelude.{List, ℕ};
    ghost use Rattle.cv_leaves.specs.FieldList.{members_from, AreMembersLeft};

    ghost Value = { List (List ℕ) };

    ghost view = { λ m. members_from m.body.now m.next };

    ghost invariant = { λ m. AreMembersLeft m.body.now m.next };
}

/// The member at the offset `at`, and the offset at which it ends. `None` at the end of the body.
#[tactic(auto, using(crate::proofs::PartLaws::held_here, crate::proofs::PartLaws::holds_here, crate::proofs::PartLaws::part_forward, crate::proofs::FieldListLaws::members_past, crate::proofs::FieldListLaws::members_here))]
fn member_from(body: &[u8], at: usize) -> Option<(&[u8], usize)>
    requires few { (at < 2 ^ 17) × (length body.now < 2 ^ 17) }
    requires checked { first_failing (checks_from Members body.now (length body.now) at) ≡ None }
    ensures none { IfNone result (members_from body.now at ≡ []) }
    ensures some { IfSome result (λ m.
        members_from body.now at ≡ m.0.now ∷ members_from body.now m.1) }
    ensures held { IfSome result (λ m.
        first_failing (checks_from Members body.now (length body.now) m.1) ≡ None) }
    ensures near { IfSome result (λ m. m.1 < 2 ^ 17) }
{
    if at >= body.len() {
        return None;
    }
    let Ok(part) = part_at(Rest::Members, body, at) else {
        unreachable!()
    };
    let end = part.end;
    Some((&body[at..end], end))
}

impl<'a> Iterator for FieldMembers<'a> {
    type Item = &'a [u8];

    ghost next_gives = { YieldsFirstRef (λ s. s) };

    ghost remaining = { item_count (λ s. s) };

    fn next(&mut self) -> Option<&'a [u8]> {
        let (member, end) = member_from(self.body, self.next)?;
        self.next = end;
        Some(member)
    }
}
