//! The command `streams`: the container of a file, and a line for each stream.

ghost use Rattle.show_commands.specs.Known.{streams_refused, streams_shown};
ghost use Rattle.show_commands.specs.Show.{Answers};
ghost use Rattle.show_commands.specs.Streams.{RefusesStreams, RefusesStreamsRead, ShowsStreams, ShowsStreamsRead};

use crate::command::{Show, Text, run};
use crate::fault::RunFault;
use byte_io::{AtFault, ReadAt, Sink, Source};
use msf_blocks::{Layout, free_blocks_at};
use output_lines::layout_text;
use std::alloc::Allocator;

/// The command `streams`.
#[derive(Clone, Copy, Debug)]
pub(crate) struct ShowStreams;

impl<A: Allocator + Copy> Show<A> for ShowStreams {
    ghost shows = { λ _. ShowsStreams };

    ghost refuses = { λ _. RefusesStreams };

    ghost shows_read = { λ _. ShowsStreamsRead };

    ghost refuses_read = { λ _. RefusesStreamsRead };

    fn text_of<R: ReadAt>(&self, alloc: A, input: &mut R, layout: &Layout<A>) -> Text<A> {
        let superblock = layout.superblock();
        let mut map_block = Vec::new(alloc);
        if map_block
            .resize(superblock.block_size() as usize, 0)
            .is_err()
        {
            return Err(AtFault::Of(RunFault::Memory));
        }
        let Some(free) = free_blocks_at(input, superblock, &mut map_block) else {
            return Err(AtFault::Read);
        };
        match layout_text(alloc, free, layout) {
            Ok(text) => Ok(text),
            Err(_) => Err(AtFault::Of(RunFault::Memory)),
        }
    }

    ghost shows_known = { λ _. streams_shown };

    ghost refuses_known = { λ _. streams_refused };

    ghost refuses_layout = { λ _ _ _ _ first. first };
}

/// Runs the command `streams`: writes the block size in bytes, the number of blocks, how many of
/// them are free, the directory's length in bytes and the number of streams, each on a line. Then
/// there is a line for each stream, with its number, its size in bytes and the numbers of its
/// blocks.
///
/// Its own faults are those of the container. The [page](crate) of the crate says what all commands
/// that show a file have in common.
pub fn run_streams<R: Source, W: Sink, A: Allocator + Copy>(
    alloc: A,
    input: &mut R,
    limit: u32,
    out: &mut W,
) -> Result<(), RunFault<A>>
    ensures { Answers ShowsStreams RefusesStreams limit (R.left input.old) (R.left input.new)
        (R.is_broken input.new) W.taken W.is_broken out.old out.new result }
{
    run(alloc, &ShowStreams, input, limit, out)
}
