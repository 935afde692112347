//! Which standard streams are files that a merge writes.

ghost use Rattle.std.specs.Prelude.{◌≡◌};
ghost use Rattle.host_files.specs.Streams.{free_stream};

use crate::same::FileId;
use crate::streams::Stream;
use std::rt::Files;

/// A standard stream, and the file that it is open on.
#[derive(Drop)]
struct OpenStream<'a> {
    stream: Stream,
    file: FileId<'a>,
}

impl<'a> OpenStream<'a> {
    /// The stream that has this name under `/proc`.
    fn of<R: Files>(rt: &R, stream: Stream, name: &'a str) -> OpenStream<'a> {
        OpenStream {
            stream,
            file: FileId::of(rt, name),
        }
    }

    /// Whether a path leads to the stream.
    fn is<R: Files>(&self, rt: &R, path: &str) -> bool {
        Stream::named(path) == Some(self.stream) || self.file.is(rt, path)
    }
}

/// Which of the two streams that are written are OUT or MAP. Nothing but the new file goes into those.
#[derive(Clone, Copy, Debug)]
pub struct TakenStreams {
    /// Standard output is OUT or MAP.
    pub output: bool,
    /// Standard error is OUT or MAP.
    pub error: bool,
}

impl TakenStreams {
    /// The standard streams that are OUT or MAP: by a name of the stream, or by device and number.
    /// The kit tells these of a stream by the name that `/proc` has for it alone.
    #[inline(never)]
    pub fn of<R: Files>(rt: &R, out: &str, map: Option<&str>) -> TakenStreams {
        let output = OpenStream::of(rt, Stream::Output, "/proc/self/fd/1");
        let error = OpenStream::of(rt, Stream::Error, "/proc/self/fd/2");
        TakenStreams {
            output: output.is(rt, out) || map.map_or(false, |map| output.is(rt, map)),
            error: error.is(rt, out) || map.map_or(false, |map| error.is(rt, map)),
        }
    }

    /// The first of standard output and standard error that is neither OUT nor MAP.
    pub fn free(self) -> Option<Stream>
        ensures { result ≡ free_stream self }
    {
        match (self.output, self.error) {
            (false, _) => Some(Stream::Output),
            (true, false) => Some(Stream::Error),
            (true, true) => None,
        }
    }
}
