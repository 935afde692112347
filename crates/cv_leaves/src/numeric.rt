//! Numeric leaves: numbers whose first two bytes say how many bytes they have.

ghost use Rattle.std.specs.Prelude.{◌≡◌, ◌≤◌, ◌^◌, ◌<◌, length, Some, None, IfOk, if◌then◌else◌};
ghost use Rattle.byte_fields.specs.Check.{Makes};
ghost use Rattle.cv_leaves.specs.Numeric.{numeric_len, numeric_end, numeric_checks, has_numeric, numerics_end, numerics_checks};

use crate::fault::LeafFault;
use byte_fields::u16_at;

/// How many bytes a numeric leaf has if it begins with the number `first`. 0 where no numeric leaf
/// begins with it.
fn numeric_len(first: u16) -> usize
    ensures value { result ≡ numeric_len first }
    ensures few { result ≤ 10 }
{
    match first {
        // The number itself.
        0..=0x7FFF => 2,
        // A kind, and the number after it.
        0x8000 => 3,
        0x8001 | 0x8002 => 4,
        0x8003 | 0x8004 => 6,
        0x8009 | 0x800A => 10,
        _ => 0,
    }
}

/// Where the numeric leaf at the offset `at` ends. `None` where it is unknown or doesn't fit.
#[tactic(auto, unfolding(crate::specs::Numeric::numeric_end, crate::specs::Numeric::has_numeric))]
pub fn after_numeric(body: &[u8], at: usize) -> Option<usize>
    requires { (at < 2 ^ 17) × (length body.now < 2 ^ 17) }
    ensures { result ≡ (if has_numeric body.now at then Some (numeric_end body.now at) else None) }
{
    if at + 2 <= body.len() {
        let len = numeric_len(u16_at(body, at));
        if 0 < len && at + len <= body.len() {
            return Some(at + len);
        }
    }
    None
}

/// Where the numeric leaf at the offset `at` ends. `Numeric` where it is unknown or doesn't fit.
fn end_of_numeric(body: &[u8], at: usize) -> Result<usize, LeafFault>
    requires { (at ≤ length body.now) × (length body.now < 2 ^ 17) }
    ensures inside { IfOk result (λ e. e ≤ length body.now) }
    ensures end { IfOk result (λ e. e ≡ numeric_end body.now at) }
    ensures first { Makes result (numeric_checks body.now at) }
{
    match after_numeric(body, at) {
        Some(end) => Ok(end),
        None => Err(LeafFault::Numeric(at as u32)),
    }
}

/// Where the last of `count` numeric leaves ends. The first of them is at the offset `at`.
#[tactic(auto, using(crate::proofs::NumericLaws::numerics_more, crate::proofs::NumericLaws::numerics_held, crate::proofs::NumericLaws::numerics_fail, crate::proofs::NumericLaws::numerics_end_none, crate::proofs::NumericLaws::numerics_checks_none))]
pub fn after_numerics(count: u8, body: &[u8], at: usize) -> Result<usize, LeafFault>
    requires { (at ≤ length body.now) × (length body.now < 2 ^ 17) }
    ensures inside { IfOk result (λ e. e ≤ length body.now) }
    ensures end { IfOk result (λ e. e ≡ numerics_end count body.now at) }
    ensures first { Makes result (numerics_checks count body.now at) }
{
    let mut end = at;
    let mut left = count;
    'leaves: while 0 < left {
        end = end_of_numeric(body, end)?;
        left -= 1;
    }
    Ok(end)
}
