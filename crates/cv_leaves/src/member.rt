//! The table of members of a field list.

ghost use Rattle.std.specs.Prelude.{◌≡◌, ◌≤◌, ◌+◌, ◌^◌, ◌<◌, option_map, take, [], ◌∷◌, length, map, IfOk, IfSome};
ghost use Rattle.byte_fields.specs.Check.{Makes};
ghost use Rattle.cv_leaves.specs.Member.{member_of, member_seen, head_end, head_checks, padded_end, fields_checks, member_end, member_checks, member_places};

use crate::fault::LeafFault;
use crate::name::after_name;
use crate::numeric::after_numerics;
use crate::padding::after_padding;
use crate::part::{check_field, introduces};
use byte_fields::u16_at;

/// A row of the table: what follows the kind of a member and two more bytes, in this order.
/// Padding comes after it.
#[derive(Clone, Copy)]
pub struct Member {
    /// How many type indices there are.
    pub indices: u8,
    /// Whether the two bytes are attributes. If they introduce a virtual, four bytes follow.
    pub introducing: bool,
    /// How many numeric leaves there are.
    pub numerics: u8,
    /// Whether there is a name.
    pub named: bool,
}

/// The row of a kind. `None` where the table does not have it.
#[tactic(auto, unfolding(crate::specs::Member::member_of))]
pub fn member_of(kind: u16) -> Option<Member>
    ensures row { option_map member_seen result ≡ member_of kind }
    ensures few { IfSome result (λ m. m.indices ≤ 2) }
{
    let (indices, introducing, numerics, named) = match kind {
        // LF_BCLASS
        0x1400 => (1, false, 1, false),
        // LF_VBCLASS
        0x1401 => (2, false, 2, false),
        // LF_IVBCLASS
        0x1402 => (2, false, 2, false),
        // LF_INDEX
        0x1404 => (1, false, 0, false),
        // LF_VFUNCTAB
        0x1409 => (1, false, 0, false),
        // LF_ENUMERATE
        0x1502 => (0, false, 1, true),
        // LF_MEMBER
        0x150D => (1, false, 1, true),
        // LF_STMEMBER
        0x150E => (1, false, 0, true),
        // LF_METHOD
        0x150F => (1, false, 0, true),
        // LF_NESTTYPE
        0x1510 => (1, false, 0, true),
        // LF_ONEMETHOD
        0x1511 => (1, true, 0, true),
        // LF_BINTERFACE
        0x151A => (1, false, 1, false),
        _ => return None,
    };
    Some(Member {
        indices,
        introducing,
        numerics,
        named,
    })
}

/// The places of the first `indices` type indices, from the member's beginning.
pub fn index_places(indices: u8) -> &'static [u8]
    requires { indices ≤ 2 }
    ensures { result.now ≡ take indices (4 ∷ 8 ∷ []) }
{
    match indices {
        0 => &[],
        1 => &[4],
        _ => &[4, 8],
    }
}

/// Where the indices of a member end, and the four bytes of a virtual if it introduces one.
#[tactic(auto, unfolding(crate::specs::Member::head_end, crate::specs::Member::head_checks))]
fn after_head(member: Member, body: &[u8], at: usize) -> Result<usize, LeafFault>
    requires { (at < 2 ^ 17) × (length body.now < 2 ^ 17) × (member.indices ≤ 2) }
    ensures inside { IfOk result (λ e. e ≤ length body.now) }
    ensures end { IfOk result (λ e. e ≡ head_end (member_seen member) body.now at) }
    ensures first { Makes result (head_checks (member_seen member) body.now at) }
{
    check_field(body, at + 2, 2)?;
    if 1 <= member.indices {
        check_field(body, at + 4, 4)?;
    }
    if 2 <= member.indices {
        check_field(body, at + 8, 4)?;
    }
    let end = at + 4 + 4 * usize::from(member.indices);
    if member.introducing && introduces(u16_at(body, at + 2)) {
        check_field(body, end, 4)?;
        return Ok(end + 4);
    }
    Ok(end)
}

// The walks of a field list call these two for each member, so both stand in their loops.

/// Where a member ends, with its padding.
#[inline(always)]
#[tactic(auto, using(crate::proofs::PartLaws::append_held, crate::proofs::PartLaws::append_fails), unfolding(crate::specs::Member::fields_checks))]
fn after_fields(member: Member, body: &[u8], at: usize) -> Result<usize, LeafFault>
    requires { (at < 2 ^ 17) × (length body.now < 2 ^ 17) × (member.indices ≤ 2) }
    ensures inside { IfOk result (λ e. e ≤ length body.now) }
    ensures end { IfOk result (λ e. e ≡ padded_end (member_seen member) body.now at) }
    ensures first { Makes result (fields_checks (member_seen member) body.now at) }
{
    let mut end = after_head(member, body, at)?;
    end = after_numerics(member.numerics, body, end)?;
    if member.named {
        end = after_name(body, end)?;
    }
    after_padding(body, end)
}

/// How many type indices the member has that begins at the offset `at`, and where it ends.
#[inline(always)]
#[tactic(auto, unfolding(crate::specs::Member::member_end, crate::specs::Member::member_places, crate::specs::Member::member_checks))]
pub fn member_at(body: &[u8], at: usize) -> Result<(u8, usize), LeafFault>
    requires { (at < 2 ^ 17) × (length body.now < 2 ^ 17) }
    ensures inside { IfOk result (λ m. m.1 ≤ length body.now) }
    ensures few { IfOk result (λ m. m.0 ≤ 2) }
    ensures end { IfOk result (λ m. m.1 ≡ member_end body.now at) }
    ensures places { IfOk result (λ m.
        map (λ k. at + k) (take m.0 (4 ∷ 8 ∷ [])) ≡ member_places body.now at) }
    ensures first { Makes result (member_checks body.now at) }
{
    check_field(body, at, 2)?;
    let kind = u16_at(body, at);
    let Some(member) = member_of(kind) else {
        return Err(LeafFault::Member {
            at: at as u32,
            kind,
        });
    };
    let end = after_fields(member, body, at)?;
    Ok((member.indices, end))
}
