//! The command `record`: one type record of a file, with the types that it names.

ghost use Rattle.std.specs.Prelude.{◌≡◌, ◌≤◌, ◌^◌, ◌⊎◌, IfOk, IfErr, IfSome, option_map, string_bytes, length};
ghost use Rattle.byte_io.specs.At.{Bytes};
ghost use Rattle.msf_blocks.specs.Layout.{LayoutView};
ghost use Rattle.show_commands.specs.Known.{record_shown, record_refused};
ghost use Rattle.show_commands.specs.Record.{ShowsRecord, ShowsRecordRead, RefusesRecord, RefusesRecordRead, record_of};
ghost use Rattle.show_commands.specs.Show.{Answers, IsOfText};
ghost use Rattle.file_types.specs.Read.{RecordsWereRead};

use crate::command::{Show, Text, run};
use crate::fault::RunFault;
use byte_io::{AtFault, ReadAt, Sink, Source};
use cv_leaves::check;
use file_types::{Buffer, read_records_of};
use msf_blocks::Layout;
use output_lines::record_text;
use std::alloc::Allocator;
use tpi_records::{FIRST_INDEX, Records};

/// The record that has a type index. `None` where no record has it.
#[tactic(auto, unfolding(crate::specs::Record::record_of))]
fn record_of<'a, A: Allocator>(records: &Records<'a, A>, index: u32) -> Option<&'a [u8]>
    ensures value { option_map (λ r. r.now) result ≡ record_of records.now index }
    ensures long { IfSome result (λ r. (4 ≤ length r.now) × (length r.now ≤ 2 ^ 16)) }
{
    let bytes = records.get(index.checked_sub(FIRST_INDEX)? as usize)?;
    Some(bytes)
}

/// The text of the record that has a type index.
fn indexed_text<A: Allocator + Copy>(
    alloc: A,
    records: &Records<'_, A>,
    index: u32,
) -> Result<String<A>, RunFault<A>>
    ensures texts { IfOk result (λ text.
        (bytes : Bytes) (layout : LayoutView) → RecordsWereRead bytes layout records.now →
        ShowsRecordRead index bytes layout (string_bytes text)) }
    ensures refused { IfErr result (λ fault.
        (bytes : Bytes) (layout : LayoutView) → RecordsWereRead bytes layout records.now →
        RefusesRecordRead index bytes layout fault ⊎ (fault ≡ RunFault.Memory)) }
    ensures pure { IfErr result IsOfText }
{
    let Some(bytes) = record_of(records, index) else {
        return Err(RunFault::NoRecord(index));
    };
    if let Err(fault) = check(bytes) {
        return Err(RunFault::Leaf { index, fault });
    }
    Ok(record_text(alloc, bytes)?)
}

/// The command `record`.
#[derive(Clone, Copy, Debug)]
pub(crate) struct ShowRecord {
    pub(crate) index: u32,
}

impl<A: Allocator + Copy> Show<A> for ShowRecord {
    ghost shows = { λ c. ShowsRecord c.index };

    ghost refuses = { λ c. RefusesRecord c.index };

    ghost shows_read = { λ c. ShowsRecordRead c.index };

    ghost refuses_read = { λ c. RefusesRecordRead c.index };

    fn text_of<R: ReadAt>(&self, alloc: A, input: &mut R, layout: &Layout<A>) -> Text<A> {
        let mut buffer = Buffer::new(alloc);
        let records = match read_records_of(alloc, input, layout, &mut buffer) {
            Ok(records) => records,
            Err(fault) => return Err(fault.widen()),
        };
        match indexed_text(alloc, &records, self.index) {
            Ok(text) => Ok(text),
            Err(fault) => Err(AtFault::Of(fault)),
        }
    }

    ghost shows_known = { λ c. record_shown c.index };

    ghost refuses_known = { λ c. record_refused c.index };

    ghost refuses_layout = { λ _ _ _ _ first. first };
}

/// Runs the command `record`: writes the record that has the type index `index`. The first line has
/// its bytes in hexadecimal. Then there is a line for each place, with the type index there, and a
/// line with the name, where the record has one.
///
/// Its own faults come in this order: those of the container; a container without a stream 2; those
/// of that stream; `NoRecord`, where no record has the index; and those of the record's leaf. The
/// [page](crate) of the crate says what all commands that show a file have in common.
pub fn run_record<R: Source, W: Sink, A: Allocator + Copy>(
    alloc: A,
    input: &mut R,
    limit: u32,
    index: u32,
    out: &mut W,
) -> Result<(), RunFault<A>>
    ensures { Answers (ShowsRecord index) (RefusesRecord index) limit (R.left input.old)
        (R.left input.new) (R.is_broken input.new) W.taken W.is_broken out.old out.new result }
{
    run(alloc, &ShowRecord { index }, input, limit, out)
}
