//! Files that are opened to be read.

ghost use Rattle.std.specs.Prelude.{◌≤◌, IfSome, IfOk};

use crate::said::{Place, Said, Telling};
use crate::streams::{Giver, StandardStreams, Stream};
use byte_io::{InputFault, ReadFault};
use std::fs;
use std::fs::OpenFile;
use std::rt::Files;

/// How many bytes the system says that a regular file has. `None` for all others.
fn regular_length<F: OpenFile>(file: &F) -> Option<u64> {
    match file.metadata() {
        Ok(metadata) if metadata.is_file() => Some(metadata.len()),
        _ => None,
    }
}

/// Opens a file to read it. A path that names standard input, and that the system can't open, as
/// where it is a socket, is read from standard input itself. What the system says of it goes to
/// `said`.
fn open_giver<'a, R: Files + StandardStreams>(
    rt: &R,
    path: &str,
    said: &'a Said,
) -> Result<(Giver<'a, R::File>, Option<u64>), InputFault> {
    match fs::open(rt, path) {
        Ok(file) => {
            let length = regular_length(&file);
            let file = Telling::new(file, Place::Input, said);
            Ok((Giver::File(file), length))
        }
        Err(_) if Stream::named(path) == Some(Stream::Input) => {
            let input = Telling::new(rt.input(), Place::Input, said);
            Ok((Giver::Stream(input), None))
        }
        Err(error) => {
            said.keep(Place::Input, &error);
            Err(InputFault::Open)
        }
    }
}

/// Opens a file to read it, and tells the length of a regular file. `Open` where it cannot be
/// opened, and `TooLong` where the system says that it has more than `limit` bytes; nothing is read
/// or reserved then.
pub fn open_within<'a, R: Files + StandardStreams>(
    rt: &R,
    path: &str,
    limit: u32,
    said: &'a Said,
) -> Result<(Giver<'a, R::File>, Option<u64>), InputFault>
    ensures { IfOk result (λ opened. IfSome opened.1 (λ told. told ≤ limit)) }
{
    let (file, length) = open_giver(rt, path, said)?;
    if u64::from(limit) < length.unwrap_or(0) {
        return Err(InputFault::Read(ReadFault::TooLong));
    }
    Ok((file, length))
}
