//! The parts of a body that follow the fields at fixed places.

ghost use Rattle.std.specs.Prelude.{◌≡◌, ◌≤◌, ◌+◌, ◌^◌, ◌<◌, nat_le, length, map, IfOk, if◌then◌else◌};
ghost use Rattle.byte_fields.specs.Check.{Makes};
ghost use Rattle.byte_fields.specs.Number.{number_at};
ghost use Rattle.cv_leaves.specs.declared.leaf.Rest.TheVariants.{Containing, Methods};
ghost use Rattle.cv_leaves.specs.Field.{field_checks};
ghost use Rattle.cv_leaves.specs.Attributes.{points_to_member, introduces};
ghost use Rattle.cv_leaves.specs.Part.{rest_start, stop_of, extent_checks, part_end, part_places, part_checks};

use crate::fault::LeafFault;
use crate::leaf::Rest;
use crate::member::{index_places, member_at};
use byte_fields::{u16_at, u32_at};

/// A part: its places, as offsets from its beginning, and the offset in the body at which it ends.
#[derive(Clone, Copy)]
pub struct Part {
    pub places: &'static [u8],
    pub end: usize,
}

/// Whether the field of `len` bytes at the offset `at` fits the body.
pub fn field_fits(body: &[u8], at: usize, len: usize) -> bool
    requires { at + len < 2 ^ 32 }
    ensures { result ≡ nat_le (at + len) (length body.now) }
{
    at + len <= body.len()
}

/// Checks that the field of `len` bytes at the offset `at` fits the body.
pub fn check_field(body: &[u8], at: usize, len: usize) -> Result<(), LeafFault>
    requires { at + len < 2 ^ 32 }
    ensures { Makes result (field_checks body.now at len) }
{
    if !field_fits(body, at, len) {
        return Err(LeafFault::Body(at as u32));
    }
    Ok(())
}

/// Whether the attributes of a method introduce a virtual. If they do, its offset follows.
pub fn introduces(attributes: u16) -> bool
    ensures { result ≡ introduces attributes }
{
    matches!(attributes >> 2 & 7, 4 | 6)
}

/// Whether the attributes of a pointer say that it points to a member of a class.
pub fn points_to_member(attributes: u32) -> bool
    ensures { result ≡ points_to_member attributes }
{
    matches!(attributes >> 5 & 7, 2 | 3)
}

/// The offsets in the body at which the parts begin and stop.
#[tactic(auto, unfolding(crate::specs::Part::extent_checks))]
pub fn extent(rest: Rest, body: &[u8]) -> Result<(usize, usize), LeafFault>
    ensures value { IfOk result (λ e.
        (e.0 ≤ 4) × (e.0 ≡ rest_start rest) × (e.1 ≡ stop_of rest body.now)) }
    ensures first { Makes result (extent_checks rest body.now) }
{
    match rest {
        Rest::Nothing => Ok((0, 0)),
        Rest::Containing => Ok((4, 8)),
        Rest::Indices => {
            check_field(body, 0, 4)?;
            Ok((4, 4 + 4 * u32_at(body, 0) as usize))
        }
        Rest::Methods | Rest::Members => Ok((0, body.len())),
    }
}

/// Whether a containing class follows the attributes of a pointer, which are at the offset `at`.
#[tactic(auto, unfolding(crate::specs::Part::part_checks))]
pub fn has_containing(body: &[u8], at: usize) -> Result<bool, LeafFault>
    requires { (at < 2 ^ 17) × (length body.now < 2 ^ 17) }
    ensures inside { IfOk result (λ follows.
        (if follows then at + 8 else at + 4) ≤ length body.now) }
    ensures value { IfOk result (λ follows. follows ≡ points_to_member (number_at 4 body.now at)) }
    ensures first { Makes result (part_checks Containing body.now at) }
{
    check_field(body, at, 4)?;
    let follows = points_to_member(u32_at(body, at));
    if follows {
        check_field(body, at + 4, 4)?;
    }
    Ok(follows)
}

/// Where the entry of a method list ends that begins at the offset `at`.
#[tactic(auto, unfolding(crate::specs::Part::part_end, crate::specs::Part::part_checks))]
pub fn after_entry(body: &[u8], at: usize) -> Result<usize, LeafFault>
    requires { (at < 2 ^ 17) × (length body.now < 2 ^ 17) }
    ensures inside { IfOk result (λ e. e ≤ length body.now) }
    ensures end { IfOk result (λ e. e ≡ part_end Methods body.now at) }
    ensures first { Makes result (part_checks Methods body.now at) }
{
    check_field(body, at, 2)?;
    let introduced = introduces(u16_at(body, at));
    check_field(body, at + 4, 4)?;
    if introduced {
        check_field(body, at + 8, 4)?;
        return Ok(at + 12);
    }
    Ok(at + 8)
}

/// The part that begins at the offset `at`.
#[tactic(auto, unfolding(crate::specs::Part::part_end, crate::specs::Part::part_places, crate::specs::Part::part_checks))]
pub fn part_at(rest: Rest, body: &[u8], at: usize) -> Result<Part, LeafFault>
    requires { (at < 2 ^ 17) × (length body.now < 2 ^ 17) }
    ensures inside { IfOk result (λ p. p.end ≤ length body.now) }
    ensures end { IfOk result (λ p. p.end ≡ part_end rest body.now at) }
    ensures places { IfOk result (λ p.
        map (λ k. at + k) p.places.now ≡ part_places rest body.now at) }
    ensures first { Makes result (part_checks rest body.now at) }
{
    match rest {
        // Where nothing follows, parts stop where they begin, so no call gets here.
        Rest::Nothing => Err(LeafFault::Body(at as u32)),
        Rest::Containing => Ok(if has_containing(body, at)? {
            Part {
                places: &[4],
                end: at + 8,
            }
        } else {
            Part {
                places: &[],
                end: at + 4,
            }
        }),
        Rest::Indices => {
            check_field(body, at, 4)?;
            Ok(Part {
                places: &[0],
                end: at + 4,
            })
        }
        Rest::Methods => Ok(Part {
            places: &[4],
            end: after_entry(body, at)?,
        }),
        Rest::Members => {
            let (indices, end) = member_at(body, at)?;
            Ok(Part {
                places: index_places(indices),
                end,
            })
        }
    }
}
