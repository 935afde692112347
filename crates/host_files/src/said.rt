//! What the system says of a file that it refuses.

ghost use Rattle.std.specs.Prelude.{◌≡◌};

use std::cell::Cell;
use std::fmt;
use std::fs::{FileTimes, Metadata, OpenFile, Permissions};
use std::io::{self, Error, Read, Seek, SeekFrom, Write};

/// Which file a call to the system was about.
#[derive(Clone, Copy, Debug, PartialEq, Eq)]
pub enum Place {
    /// A file that is read.
    Input,
    /// The list of more inputs.
    List,
    /// The file that a merge writes.
    Out,
    /// The file for the maps of a merge.
    Map,
    /// Standard output.
    StandardOutput,
}

/// Keeps what the system said when it last refused a call.
#[derive(Drop)]
pub struct Said {
    last: Cell<Option<(Place, Error)>>,
}

impl fmt::Debug for Said {
    fn fmt<W: fmt::Write>(&self, f: &mut fmt::Formatter<W>) -> fmt::Result {
        f.debug_struct("Said").finish_non_exhaustive()
    }
}

impl Said {
    /// The system has refused nothing yet.
    pub fn new() -> Said {
        Said {
            last: Cell::new(None),
        }
    }

    /// Keeps what the system said of a file.
    pub fn keep(&self, place: Place, error: &Error) {
        self.last.set(Some((place, *error)));
    }

    /// The file that the last refused call was about, and what the system said of it. `None` where no
    /// call was refused.
    pub fn last(&self) -> Option<(Place, Error)> {
        self.last.get()
    }
}

/// A file that keeps what the system says of it. Everything else is as with the file.
#[derive(Drop)]
pub struct Telling<'a, F> {
    file: F,
    place: Place,
    said: &'a Said,
}

impl<F> fmt::Debug for Telling<'_, F> {
    fn fmt<W: fmt::Write>(&self, f: &mut fmt::Formatter<W>) -> fmt::Result {
        f.debug_struct("Telling")
            .field("place", &self.place)
            .finish_non_exhaustive()
    }
}

impl<'a, F> Telling<'a, F> {
    /// This file. What the system says of it goes to `said`.
    pub fn new(file: F, place: Place, said: &'a Said) -> Telling<'a, F>
        ensures { result.file ≡ file }
    {
        Telling { file, place, said }
    }

    /// The file itself, which keeps nothing.
    pub(crate) fn file(&self) -> &F
        ensures { result.now ≡ self.now.file }
    {
        &self.file
    }

    /// The answer of a call, which is kept if it is a refusal.
    fn told<T>(&self, answer: io::Result<T>) -> io::Result<T>
        ensures { result ≡ answer }
    {
        if let Err(error) = &answer {
            self.said.keep(self.place, error);
        }
        answer
    }
}

impl<F: Read> Read for Telling<'_, F> {
    ghost remaining = { λ t. F.remaining t.file };

    fn read(&mut self, buffer: &mut [u8]) -> io::Result<usize> {
        let answer = self.file.read(buffer);
        self.told(answer)
    }
}

impl<F: Write> Write for Telling<'_, F> {
    ghost contents = { λ t. F.contents t.file };

    fn write(&mut self, bytes: &[u8]) -> io::Result<usize> {
        let answer = self.file.write(bytes);
        self.told(answer)
    }

    fn flush(&mut self) -> io::Result<()> {
        let answer = self.file.flush();
        self.told(answer)
    }
}

impl<F: Seek> Seek for Telling<'_, F> {
    ghost stream_position = { λ t. F.stream_position t.file };

    ghost stream_bytes = { λ t. F.stream_bytes t.file };

    fn seek(&mut self, to: SeekFrom) -> io::Result<u64> {
        let answer = self.file.seek(to);
        self.told(answer)
    }
}

impl<F: OpenFile> OpenFile for Telling<'_, F> {
    fn metadata(&self) -> io::Result<Metadata> {
        self.file.metadata()
    }

    fn set_len(&self, size: u64) -> io::Result<()> {
        self.told(self.file.set_len(size))
    }

    fn sync_all(&self) -> io::Result<()> {
        self.told(self.file.sync_all())
    }

    fn sync_data(&self) -> io::Result<()> {
        self.told(self.file.sync_data())
    }

    fn set_permissions(&self, permissions: Permissions) -> io::Result<()> {
        self.told(self.file.set_permissions(permissions))
    }

    fn set_times(&self, times: FileTimes) -> io::Result<()> {
        self.told(self.file.set_times(times))
    }
}
