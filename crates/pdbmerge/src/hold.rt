//! The numbers of the standard streams.

use std::fs;
use std::fs::File;
use std::os::fd::AsRawFd;
use std::rt::HostRuntime;

/// The greatest number of a standard stream: 0 is input, 1 is output and 2 is for errors.
const LAST_STANDARD: i32 = 2;

/// Opens what can be neither read nor written, and keeps it if it stands at the number of a standard
/// stream.
fn hold_one(rt: &HostRuntime) -> Option<File> {
    // Where the root folder can't be opened, the null device keeps the number at least. It reads as
    // a file of no bytes.
    let file = fs::open(rt, "/")
        .or_else(|_| fs::open(rt, "/dev/null"))
        .ok()?;
    if file.as_raw_fd() <= LAST_STANDARD {
        Some(file)
    } else {
        None
    }
}

/// Files at the numbers of the standard streams that were closed.
///
/// The system gives a file the lowest number that is free. If a standard stream is closed, the next
/// file that is opened would get its number: the report would go into OUT. So these numbers are
/// held while the program runs, by the root folder. A read of it fails, so a closed standard input
/// is no empty list. A write fails too, and so does creating OUT under a name of the stream.
#[derive(Drop)]
pub struct HeldStreams {
    _files: [Option<File>; 3],
}

/// Holds the numbers of the standard streams that are closed.
pub fn hold(rt: &HostRuntime) -> HeldStreams {
    let first = hold_one(rt);
    let second = first.as_ref().and_then(|_| hold_one(rt));
    let third = second.as_ref().and_then(|_| hold_one(rt));
    HeldStreams {
        _files: [first, second, third],
    }
}
