//! The command `records`: a line for each type record of a file.

ghost use Rattle.show_commands.specs.Known.{records_shown, records_refused};
ghost use Rattle.show_commands.specs.Records.{ShowsRecords, ShowsRecordsRead, RefusesRecords, RefusesRecordsRead};
ghost use Rattle.show_commands.specs.Show.{Answers};

use crate::command::{Show, Text, run};
use crate::fault::RunFault;
use byte_io::{AtFault, ReadAt, Sink, Source};
use file_types::{Buffer, read_records_of};
use msf_blocks::Layout;
use output_lines::record_lines;
use std::alloc::Allocator;

/// The command `records`.
#[derive(Clone, Copy, Debug)]
pub(crate) struct ShowRecords;

impl<A: Allocator + Copy> Show<A> for ShowRecords {
    ghost shows = { λ _. ShowsRecords };

    ghost refuses = { λ _. RefusesRecords };

    ghost shows_read = { λ _. ShowsRecordsRead };

    ghost refuses_read = { λ _. RefusesRecordsRead };

    fn text_of<R: ReadAt>(&self, alloc: A, input: &mut R, layout: &Layout<A>) -> Text<A> {
        let mut buffer = Buffer::new(alloc);
        let records = read_records_of(alloc, input, layout, &mut buffer).map_err(AtFault::widen)?;
        match record_lines(alloc, &records) {
            Ok(text) => Ok(text),
            Err(_) => Err(AtFault::Of(RunFault::Memory)),
        }
    }

    ghost shows_known = { λ _. records_shown };

    ghost refuses_known = { λ _. records_refused };

    ghost refuses_layout = { λ _ _ _ _ first. first };
}

/// Runs the command `records`: writes a line for each type record, with its type index, its kind
/// and its size in bytes. The size includes the length field.
///
/// Its own faults come in this order: those of the container; a container without a stream 2; and
/// those of that stream. The [page](crate) of the crate says what all commands that show a file
/// have in common.
pub fn run_records<R: Source, W: Sink, A: Allocator + Copy>(
    alloc: A,
    input: &mut R,
    limit: u32,
    out: &mut W,
) -> Result<(), RunFault<A>>
    ensures { Answers ShowsRecords RefusesRecords limit (R.left input.old) (R.left input.new)
        (R.is_broken input.new) W.taken W.is_broken out.old out.new result }
{
    run(alloc, &ShowRecords, input, limit, out)
}
