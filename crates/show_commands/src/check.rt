//! The command `check`: whether the types of a file can be trusted.

ghost use Rattle.std.specs.Prelude.{◌≡◌, IfOk, IfErr, string_bytes};
ghost use Rattle.byte_io.specs.At.{Bytes};
ghost use Rattle.msf_blocks.specs.Layout.{LayoutView};
ghost use Rattle.show_commands.specs.Known.{checked_shown, check_refused};
ghost use Rattle.show_commands.specs.Check.{ShowsChecked, ShowsCheckedRead, RefusesCheck, RefusesCheckRead};
ghost use Rattle.show_commands.specs.Show.{Answers};
ghost use Rattle.file_types.specs.Read.{TypesWereRead};

use crate::command::{Show, Text, run};
use crate::fault::RunFault;
use byte_io::{AtFault, ReadAt, Sink, Source};
use checked_types::Types;
use file_types::{Buffer, read_types_of};
use msf_blocks::Layout;
use output_lines::push_checked;
use std::alloc::Allocator;

/// The text of types.
fn types_text<A: Allocator + Copy>(alloc: A, types: &Types<'_, A>) -> Result<String<A>, RunFault<A>>
    ensures texts { IfOk result (λ text.
        (bytes : Bytes) (layout : LayoutView) → TypesWereRead bytes layout types.now →
        ShowsCheckedRead bytes layout (string_bytes text)) }
    ensures memory { IfErr result (λ fault. fault ≡ RunFault.Memory) }
{
    let mut text = String::new(alloc);
    push_checked(
        &mut text,
        types.len() as u32,
        types.bytes_len(),
        types.levels(),
    )?;
    Ok(text)
}

/// The command `check`.
#[derive(Clone, Copy, Debug)]
pub(crate) struct ShowCheck;

impl<A: Allocator + Copy> Show<A> for ShowCheck {
    ghost shows = { λ _. ShowsChecked };

    ghost refuses = { λ _. RefusesCheck };

    ghost shows_read = { λ _. ShowsCheckedRead };

    ghost refuses_read = { λ _. RefusesCheckRead };

    fn text_of<R: ReadAt>(&self, alloc: A, input: &mut R, layout: &Layout<A>) -> Text<A> {
        let mut buffer = Buffer::new(alloc);
        let types = read_types_of(alloc, input, layout, &mut buffer).map_err(AtFault::widen)?;
        Ok(types_text(alloc, &types)?)
    }

    ghost shows_known = { λ _. checked_shown };

    ghost refuses_known = { λ _. check_refused };

    ghost refuses_layout = { λ _ _ _ _ first. first };
}

/// Runs the command `check`: writes that the file is accepted, how many type records it has, how
/// many bytes they have together, with their length fields, and how many levels of types there are.
///
/// Its own faults come in this order: those of the container; a container without a stream 1; a
/// stream 1 with fewer bytes than a header; a container without a stream 2; those of that stream;
/// those of its records, in order, for each record its leaf and then its references; and last a
/// cycle of references. The [page](crate) of the crate says what all commands that show a file have
/// in common.
pub fn run_check<R: Source, W: Sink, A: Allocator + Copy>(
    alloc: A,
    input: &mut R,
    limit: u32,
    out: &mut W,
) -> Result<(), RunFault<A>>
    ensures { Answers ShowsChecked RefusesCheck limit (R.left input.old) (R.left input.new)
        (R.is_broken input.new) W.taken W.is_broken out.old out.new result }
{
    run(alloc, &ShowCheck, input, limit, out)
}
