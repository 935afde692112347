//! The padding after a member of a field list.

ghost use Rattle.std.specs.Prelude.{◌≡◌, ◌≤◌, ◌+◌, ◌^◌, ◌<◌, length, IfOk};
ghost use Rattle.byte_fields.specs.Check.{Makes};
ghost use Rattle.cv_leaves.specs.Padding.{padding_len, padding_checks};

use crate::fault::LeafFault;

/// The first byte of padding is this number plus the number of bytes of the padding.
const PADDING: u8 = 0xF0;

/// Where the padding at the offset `at` ends. This is `at` where there is no padding.
#[tactic(auto, unfolding(crate::specs::Padding::padding_len, crate::specs::Padding::padding_holds))]
pub fn after_padding(body: &[u8], at: usize) -> Result<usize, LeafFault>
    requires { (at ≤ length body.now) × (length body.now < 2 ^ 17) }
    ensures inside { IfOk result (λ e. e ≤ length body.now) }
    ensures end { IfOk result (λ e. e ≡ at + padding_len body.now at) }
    ensures first { Makes result (padding_checks body.now at) }
{
    if at == body.len() || body[at] < PADDING {
        return Ok(at);
    }
    let len = usize::from(body[at] - PADDING);
    if len == 0 || body.len() < at + len {
        return Err(LeafFault::Pad(at as u32));
    }
    Ok(at + len)
}
