//! The lines on types that can be trusted.

ghost use Rattle.std.specs.Prelude.{◌≡◌, ◌++◌, OnOk, string_bytes};
ghost use Rattle.output_lines.specs.Check.{checked_lines};

use output_words::push_named;
use std::alloc::{AllocError, Allocator};

/// Appends `accepted`, then the number of records, of bytes and of levels, one per line.
#[tactic(auto, unfolding(crate::specs::Check::checked_lines))]
pub fn push_checked<A: Allocator>(
    text: &mut String<A>,
    records: u32,
    bytes: u32,
    levels: u32,
) -> Result<(), AllocError>
    ensures { OnOk result
        (string_bytes text.new ≡ string_bytes text.old ++ checked_lines records bytes levels) }
{
    text.push_str("accepted\n")?;
    push_named(text, "records", records)?;
    push_named(text, "bytes", bytes)?;
    push_named(text, "levels", levels)?;
    Ok(())
}
