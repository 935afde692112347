//! The command `info`: what identifies a file.

ghost use Rattle.std.specs.Prelude.{◌≡◌, ◌⊎◌, OnOk, IfOk, IfErr, string_bytes};
ghost use Rattle.byte_io.specs.At.{IfKnown, IfOf, Reads};
ghost use Rattle.msf_blocks.specs.Layout.{HasLayout};
ghost use Rattle.msf_streams.specs.Streams.{WasRead};
ghost use Rattle.show_commands.specs.Known.{info_shown, info_refused};
ghost use Rattle.show_commands.specs.Show.{Answers};
ghost use Rattle.show_commands.specs.Info.{ShowsInfo, ShowsInfoRead, ShowsInfoWithin, RefusesInfo, RefusesInfoRead, RefusesInfoWithin, HasLongNames, HasNoInfoStreamRead, HasShortNames, IsInfoFault, IsInfoText};

use crate::command::{Show, Text, run};
use crate::fault::RunFault;
use byte_io::{AtFault, ReadAt, Sink, Source};
use file_types::PdbFault;
use msf_blocks::Layout;
use msf_streams::gather_at;
use output_lines::{push_features, push_info_header, push_names};
use pdb_info::{info_stream, names_length};
use std::alloc::Allocator;

/// Reads stream 1 of a file with this layout by position into the buffer, and lends its bytes.
fn stream_bytes_of<'a, R: ReadAt, L: Allocator, A: Allocator>(
    input: &mut R,
    layout: &Layout<L>,
    buffer: &'a mut Vec<u8, A>,
) -> Result<&'a [u8], AtFault<PdbFault<A>>>
    requires { IfKnown (R.bytes input.old) (λ file. HasLayout file layout.now) }
    ensures reads { Reads R.bytes R.is_broken input.old input.new result }
    ensures texts { IfOk result (λ bytes.
        WasRead (R.bytes input.old) layout.now 1 bytes.now) }
    ensures refused { IfErr result
        (IfOf (λ fault. HasNoInfoStreamRead layout.now fault ⊎ (fault ≡ PdbFault.Memory))) }
{
    let stream = match info_stream(layout) {
        Ok(stream) => stream,
        Err(fault) => return Err(AtFault::Of(PdbFault::from(fault))),
    };
    match gather_at(input, layout, stream, buffer) {
        Ok(bytes) => Ok(bytes),
        Err(fault) => Err(fault.widen()),
    }
}

/// Checks that the names of an info stream have at most `limit` bytes together, and returns how many
/// they have. `u32::MAX` is no limit.
fn check_names<A: Allocator, F: Allocator>(
    info: &pdb_info::Info<'_, A>,
    limit: u32,
) -> Result<usize, RunFault<F>>
    ensures short { OnOk result (HasShortNames limit info.now) }
    ensures long { IfErr result (λ _. HasLongNames limit info.now) }
    ensures own { IfErr result (λ fault. fault ≡ RunFault.TooLong) }
{
    let length = names_length(info.names());
    if limit != u32::MAX && length > limit as usize {
        return Err(RunFault::TooLong);
    }
    Ok(length)
}

/// The text of the bytes of an info stream, whose names may have at most `limit` bytes together.
fn stream_text<A: Allocator + Copy>(
    alloc: A,
    stream: &[u8],
    limit: u32,
) -> Result<String<A>, RunFault<A>>
    ensures value { IfOk result (λ text. IsInfoText limit stream.now (string_bytes text)) }
    ensures first { IfErr result (λ fault.
        IsInfoFault limit stream.now fault ⊎ (fault ≡ RunFault.Memory)) }
{
    let info = pdb_info::Info::read(alloc, stream)?;
    // Names may share their bytes, and have far more together than the file. So they are held
    // against the limit, and the space for them is asked for, before any of them is copied.
    let length = check_names(&info, limit)?;
    let mut text = String::new(alloc);
    text.reserve(length)?;
    push_info_header(&mut text, info.header())?;
    push_names(&mut text, info.names())?;
    push_features(&mut text, info.features())?;
    Ok(text)
}

/// The command `info`, and how many bytes the names may have together.
#[derive(Clone, Copy, Debug)]
pub(crate) struct ShowInfo {
    pub(crate) limit: u32,
}

impl<A: Allocator + Copy> Show<A> for ShowInfo {
    ghost shows = { λ c. ShowsInfoWithin c.limit };

    ghost refuses = { λ c. RefusesInfoWithin c.limit };

    ghost shows_read = { λ c. ShowsInfoRead c.limit };

    ghost refuses_read = { λ c. RefusesInfoRead c.limit };

    fn text_of<R: ReadAt>(&self, alloc: A, input: &mut R, layout: &Layout<A>) -> Text<A> {
        let mut buffer = Vec::new(alloc);
        let bytes = stream_bytes_of(input, layout, &mut buffer).map_err(AtFault::widen)?;
        Ok(stream_text(alloc, bytes, self.limit)?)
    }

    ghost shows_known = { λ c. info_shown c.limit };

    ghost refuses_known = { λ c. info_refused c.limit };

    ghost refuses_layout = { λ _ _ _ _ first. first };
}

/// Runs the command `info`: writes the version, the signature, the age and the GUID, each on a
/// line. Then there is a line for each named stream, in the order of the buckets, and a line for
/// each feature code.
///
/// Its own faults come in this order: those of the container; a container without a stream 1; and
/// those of that stream. The [page](crate) of the crate says what all commands that show a file
/// have in common.
pub fn run_info<R: Source, W: Sink, A: Allocator + Copy>(
    alloc: A,
    input: &mut R,
    limit: u32,
    out: &mut W,
) -> Result<(), RunFault<A>>
    ensures { Answers ShowsInfo RefusesInfo limit (R.left input.old) (R.left input.new)
        (R.is_broken input.new) W.taken W.is_broken out.old out.new result }
{
    run(alloc, &ShowInfo { limit: u32::MAX }, input, limit, out)
}
