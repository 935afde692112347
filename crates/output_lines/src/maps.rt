//! A line for each record of a file that was merged: where its type went.

ghost use Rattle.std.specs.Prelude.{◌≡◌, ◌^◌, ◌<◌, ◌++◌, length, OnOk, string_bytes};
ghost use Rattle.type_trees.specs.Depth.{AreBelow};
ghost use Rattle.tpi_records.specs.Header.{first_index};
ghost use Rattle.output_lines.specs.Maps.{map_line, map_lines};

use output_words::{push_decimal, push_index};
use std::alloc::{AllocError, Allocator};
use tpi_records::FIRST_INDEX;

/// Appends the line of a record: the position of its file, its type index, and the type index of its
/// type in the file that was written.
#[tactic(auto, unfolding(crate::specs::Maps::map_line))]
fn push_map_line<A: Allocator>(
    text: &mut String<A>,
    file: usize,
    old: u32,
    new: u32,
) -> Result<(), AllocError>
    ensures { OnOk result
        (string_bytes text.new ≡ string_bytes text.old ++ map_line file old new) }
{
    push_decimal(text, file as u64)?;
    text.push_str(" ")?;
    push_index(text, old)?;
    text.push_str(" ")?;
    push_index(text, new)?;
    text.push_str("\n")?;
    Ok(())
}

/// Appends a line for each record of a file. `numbers` has the position of its type in the file that
/// was written.
pub fn push_map<A: Allocator>(
    text: &mut String<A>,
    file: usize,
    numbers: &[u32],
) -> Result<(), AllocError>
    requires few { length numbers.now < 2 ^ 31 }
    requires small { AreBelow (2 ^ 31) numbers.now }
    ensures { OnOk result (string_bytes text.new
        ≡ string_bytes text.old ++ map_lines file first_index numbers.now) }
{
    let mut index = FIRST_INDEX;
    for number in numbers {
        push_map_line(text, file, index, FIRST_INDEX + *number)?;
        index += 1;
    }
    Ok(())
}
