//! The name of the type that a record describes.

ghost use Rattle.std.specs.Prelude.{◌≡◌, ◌≤◌, ◌<◌, ◌^◌, option_map, length, IfOk};
ghost use Rattle.byte_fields.specs.Check.{Makes};
ghost use Rattle.cv_leaves.specs.Terminated.{name_end, name_checks};
ghost use Rattle.cv_leaves.specs.Name.{rest_in, from_name, name_of};

use crate::checks::{body_of, kind_of};
use crate::fault::LeafFault;
use crate::leaf::{NamePlace, leaf_of};
use crate::numeric::after_numeric;
use byte_fields::{name_at, rest_from};

/// Where the name at the offset `at` ends, with its NUL.
#[tactic(auto, using(crate::proofs::NameLaws::name_ends, crate::proofs::NameLaws::name_holds, crate::proofs::NameLaws::name_fails))]
pub fn after_name(body: &[u8], at: usize) -> Result<usize, LeafFault>
    requires { (at ≤ length body.now) × (length body.now < 2 ^ 17) }
    ensures inside { IfOk result (λ e. e ≤ length body.now) }
    ensures end { IfOk result (λ e. e ≡ name_end body.now at) }
    ensures first { Makes result (name_checks body.now at) }
{
    match name_at(body, at) {
        Some(name) => Ok(at + name.len() + 1),
        None => Err(LeafFault::Name(at as u32)),
    }
}

/// The bytes of a body from where its name begins. `naming` says where that is.
#[tactic(auto, unfolding(crate::specs::Name::rest_in))]
fn rest_in(naming: NamePlace, body: &[u8]) -> Option<&[u8]>
    requires { length body.now < 2 ^ 17 }
    ensures { option_map (λ n. n.now) result ≡ rest_in naming body.now }
{
    match naming {
        NamePlace::Unnamed => None,
        NamePlace::At(at) => Some(rest_from(body, usize::from(at))),
        NamePlace::AfterNumeric(at) => {
            Some(rest_from(body, after_numeric(body, usize::from(at))?))
        }
    }
}

/// The bytes of a record from where the name of its type begins, lent from the record: the name,
/// its NUL if one follows, and what stands behind it.
///
/// `None` where its leaf has no name, or where the numeric leaf before the name is unknown or
/// doesn't fit. This does not allocate, and looks at no byte of the name.
#[tactic(auto, unfolding(crate::specs::Name::from_name))]
pub fn from_name(record: &[u8]) -> Option<&[u8]>
    requires { (4 ≤ length «record».now) × (length «record».now ≤ 2 ^ 16) }
    ensures { option_map (λ n. n.now) result ≡ from_name «record».now }
{
    match leaf_of(kind_of(record)) {
        Some(leaf) => rest_in(leaf.naming, body_of(record)),
        None => None,
    }
}

/// The name of the type that a record describes, lent from the record.
///
/// `None` where its leaf has no name, where the numeric leaf before the name is unknown or doesn't
/// fit, or where no NUL follows. A name may be empty. This does not allocate.
#[tactic(auto, using(crate::proofs::NameLaws::name_of_is))]
pub fn type_name(record: &[u8]) -> Option<&[u8]>
    requires { (4 ≤ length «record».now) × (length «record».now ≤ 2 ^ 16) }
    ensures { option_map (λ n. n.now) result ≡ name_of «record».now }
{
    name_at(from_name(record)?, 0)
}
