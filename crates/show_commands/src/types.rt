//! The command `types`: a line for each type record of a file, with the types that it names.

ghost use Rattle.std.specs.Prelude.{◌≡◌, ◌⊎◌, ◌++◌, List, ℕ, Some, OnOk, IfOk, IfErr, string_bytes};
ghost use Rattle.byte_fields.specs.Check.{first_failing};
ghost use Rattle.tpi_records.specs.Records.{IsRecord};
ghost use Rattle.cv_leaves.specs.Checks.{record_checks};
ghost use Rattle.cv_leaves.specs.Place.{HasPlaces};
ghost use Rattle.cv_leaves.specs.declared.fault.LeafFault.{LeafFault};
ghost use Rattle.show_commands.specs.Known.{types_shown, types_refused};
ghost use Rattle.show_commands.specs.Show.{Answers};
ghost use Rattle.show_commands.specs.Types.{ShowsTypes, ShowsTypesRead, RefusesTypes, RefusesTypesRead, AreTypeLines, HasLeafFault};
ghost use Rattle.output_lines.specs.Types.{type_line};

use crate::command::{Show, Text, run};
use crate::fault::RunFault;
use byte_io::{AtFault, ReadAt, Sink, Source};
use cv_leaves::check;
use file_types::{Buffer, read_records_of};
use msf_blocks::Layout;
use output_lines::push_type_line;
use std::alloc::Allocator;
use tpi_records::{FIRST_INDEX, Records};

/// Checks the leaf of a record, and appends its line.
fn push_type<A: Allocator>(
    text: &mut String<A>,
    index: u32,
    bytes: &[u8],
) -> Result<(), RunFault<A>>
    requires { IsRecord bytes.now }
    ensures value { OnOk result
        ((at : List ℕ) × HasPlaces bytes.now at
        × (string_bytes text.new ≡ string_bytes text.old ++ type_line index bytes.now at)) }
    ensures first { IfErr result (λ fault.
        ((inner : LeafFault) × (fault ≡ RunFault.Leaf index inner)
        × (first_failing (record_checks bytes.now) ≡ Some inner))
        ⊎ (fault ≡ RunFault.Memory)) }
{
    if let Err(fault) = check(bytes) {
        return Err(RunFault::Leaf { index, fault });
    }
    push_type_line(text, index, bytes)?;
    Ok(())
}

/// The lines of all records.
fn type_lines<A: Allocator + Copy>(
    alloc: A,
    records: &Records<'_, A>,
) -> Result<String<A>, RunFault<A>>
    ensures value { IfOk result (λ text. AreTypeLines FIRST_INDEX records.now (string_bytes text)) }
    ensures first { IfErr result (λ fault.
        ((index : ℕ) × (inner : LeafFault) × (fault ≡ RunFault.Leaf index inner)
        × HasLeafFault records.now index inner)
        ⊎ (fault ≡ RunFault.Memory)) }
{
    let mut text = String::new(alloc);
    let mut index = FIRST_INDEX;
    for bytes in records.iter() {
        push_type(&mut text, index, bytes)?;
        index += 1;
    }
    Ok(text)
}

/// The command `types`.
#[derive(Clone, Copy, Debug)]
pub(crate) struct ShowTypes;

impl<A: Allocator + Copy> Show<A> for ShowTypes {
    ghost shows = { λ _. ShowsTypes };

    ghost refuses = { λ _. RefusesTypes };

    ghost shows_read = { λ _. ShowsTypesRead };

    ghost refuses_read = { λ _. RefusesTypesRead };

    fn text_of<R: ReadAt>(&self, alloc: A, input: &mut R, layout: &Layout<A>) -> Text<A> {
        let mut buffer = Buffer::new(alloc);
        let records = read_records_of(alloc, input, layout, &mut buffer).map_err(AtFault::widen)?;
        Ok(type_lines(alloc, &records)?)
    }

    ghost shows_known = { λ _. types_shown };

    ghost refuses_known = { λ _. types_refused };

    ghost refuses_layout = { λ _ _ _ _ first. first };
}

/// Runs the command `types`: writes a line for each type record. The line has the record's type
/// index, the name of its leaf, its size in bytes, the type indices that it names, in the order of
/// their places, and its name in quotes, where it has one.
///
/// Its own faults come in this order: those of the container; a container without a stream 2; those
/// of that stream; and the fault of the first record whose leaf is at fault. The [page](crate) of
/// the crate says what all commands that show a file have in common.
pub fn run_types<R: Source, W: Sink, A: Allocator + Copy>(
    alloc: A,
    input: &mut R,
    limit: u32,
    out: &mut W,
) -> Result<(), RunFault<A>>
    ensures { Answers ShowsTypes RefusesTypes limit (R.left input.old) (R.left input.new)
        (R.is_broken input.new) W.taken W.is_broken out.old out.new result }
{
    run(alloc, &ShowTypes, input, limit, out)
}
