//! A line for each record.

ghost use Rattle.std.specs.Prelude.{◌≡◌, ◌++◌, OnOk, IfOk, string_bytes};
ghost use Rattle.tpi_records.specs.Records.{IsRecord};
ghost use Rattle.output_lines.specs.Records.{record_line, record_lines};

use cv_leaves::kind_of;
use output_words::{push_index, push_kind, push_number};
use std::alloc::{AllocError, Allocator};
use tpi_records::FIRST_INDEX;

/// Appends the line of a record. `bytes` is the whole record, with its length field.
#[tactic(auto, unfolding(crate::specs::Records::record_line, cv_leaves::specs::Checks::kind_of))]
fn push_record<A: Allocator>(
    text: &mut String<A>,
    index: u32,
    bytes: &[u8],
) -> Result<(), AllocError>
    requires { IsRecord bytes.now }
    ensures { OnOk result
        (string_bytes text.new ≡ string_bytes text.old ++ record_line index bytes.now) }
{
    let kind = kind_of(bytes);
    push_index(text, index)?;
    text.push_str(" ")?;
    push_kind(text, kind)?;
    push_number(text, bytes.len() as u64)?;
    text.push_str("\n")?;
    Ok(())
}

/// The lines of all records.
pub fn record_lines<A: Allocator + Copy>(
    alloc: A,
    records: &tpi_records::Records<'_, A>,
) -> Result<String<A>, AllocError>
    ensures { IfOk result (λ text. string_bytes text ≡ record_lines FIRST_INDEX records.now) }
{
    let mut text = String::new(alloc);
    let mut index = FIRST_INDEX;
    for bytes in records.iter() {
        push_record(&mut text, index, bytes)?;
        index += 1;
    }
    Ok(text)
}
