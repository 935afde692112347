//! The files that a merge reads.

ghost use Rattle.std.specs.Prelude.{◌≡◌, ◌↔◌, ◌≤◌, None, Some, length, map, slice_get, string_bytes, true, IsTrue, IfSome, IfNone, IfOk};
ghost use Rattle.host_files.specs.Files.{up_to};

use crate::files::open_within;
use crate::progress::Progress;
use crate::said::{Said, Telling};
use crate::streams::{Giver, StandardStreams};
use byte_io::{In, InputFault, Inputs, Opened, ReadFault, Seeking, read_into, skip_all};
use pdb_merge::BoundedInputs;
use std::alloc::Allocator;
use std::fmt;
use std::io::Eprint;
use std::rt::Files;
use std::time::Clock;

/// The files with these names. One of them is open at a time.
#[derive(Drop)]
pub struct InputFiles<'a, R: Files> {
    rt: &'a R,
    names: &'a [String],
    max_bytes: u32,
    progress: Option<Progress<'a, R>>,
    /// Whether the file at each position is needed. None is where nothing is said of it.
    needed: &'a [bool],
    said: &'a Said,
}

impl<R: Files> fmt::Debug for InputFiles<'_, R> {
    fn fmt<W: fmt::Write>(&self, f: &mut fmt::Formatter<W>) -> fmt::Result {
        f.debug_struct("InputFiles")
            .field("names", &self.names)
            .field("max_bytes", &self.max_bytes)
            .finish_non_exhaustive()
    }
}

impl<'a, R: Files + AllocGlobal> InputFiles<'a, R> {
    /// The files with these names. None of them is opened yet. A file with more than `max_bytes`
    /// bytes is too long, and so is one whose directory or stream of types has more. `progress` tells
    /// how many of them were read, and what the system says of them goes to `said`.
    pub fn new(
        rt: &'a R,
        names: &'a [String],
        max_bytes: u32,
        progress: Option<Progress<'a, R>>,
        said: &'a Said,
    ) -> InputFiles<'a, R>
        ensures names { result.names.now ≡ names.now }
        ensures limit { result.max_bytes ≡ max_bytes }
    {
        InputFiles {
            rt,
            names,
            max_bytes,
            progress,
            needed: &[],
            said,
        }
    }

    /// The same files. Those at whose positions this is true are never left out of a merge.
    pub fn needing(self, needed: &'a [bool]) -> InputFiles<'a, R>
        ensures names { result.names.now ≡ self.entry.names.now }
        ensures limit { result.max_bytes ≡ self.entry.max_bytes }
        ensures needed { result.needed.now ≡ needed.now }
    {
        InputFiles { needed, ..self }
    }

    /// The name of the file at a position, from 0.
    fn name(&self, input: usize) -> Option<&'a String>
        ensures value { IfSome result (λ name. slice_get self.now.names.now input ≡ Some name.now) }
        ensures none { IfNone result (slice_get self.now.names.now input ≡ None) }
    {
        self.names.get(input)
    }

    /// The path of the file at a position, from 0. `Open` where there is none.
    fn path(&self, input: usize) -> Result<&'a str, InputFault>
        ensures value { IfOk result (λ path.
            slice_get (map string_bytes self.now.names.now) input ≡ Some path.now) }
    {
        let name = self.name(input).ok_or(InputFault::Open)?;
        Ok(name.as_str())
    }

    /// Opens the file at a position, and tells the length of a regular file.
    fn open_file(&self, input: usize) -> Result<(Giver<'a, R::File>, Option<u64>), InputFault>
    where
        R: StandardStreams,
        ensures { IfOk result (λ opened. IfSome opened.1 (λ told. told ≤ self.now.max_bytes)) }
    {
        open_within(self.rt, self.path(input)?, self.max_bytes, self.said)
    }

    /// Reads a file that is open to its end. `told` is how many bytes the system says that it has.
    fn read_whole<'b, A: Allocator>(
        &self,
        file: Giver<'a, R::File>,
        told: Option<u64>,
        buffer: &'b mut Vec<u8, A>,
    ) -> Result<&'b [u8], InputFault>
        ensures { IfOk result (λ bytes. length bytes.now ≤ self.now.max_bytes) }
    {
        let length = u32::try_from(told.unwrap_or(0)).unwrap_or(0) as usize;
        buffer.clear();
        // One allocation serves a whole file, and later files of at most its length. The last byte
        // is room in which the end of the file is seen.
        buffer
            .reserve_exact(length.saturating_add(1))
            .map_err(|_| InputFault::Read(ReadFault::Memory))?;
        read_into(&mut In::new(file), self.max_bytes, buffer).map_err(InputFault::Read)?;
        Ok(buffer)
    }
}

impl<'f, R: Files + AllocGlobal + Clock + Eprint + StandardStreams> Inputs for InputFiles<'f, R> {
    // No contract can say what a file of the system gives.
    ghost known = { λ _. None };

    ghost outcomes = { λ files _. up_to files.max_bytes };

    type File = Seeking<Telling<'f, R::File>>;

    fn count(&self) -> usize
        ensures { result ≡ length self.now.names.now }
    {
        self.names.len()
    }

    fn read<'b, A: Allocator>(
        &'b self,
        input: usize,
        buffer: &'b mut Vec<u8, A>,
    ) -> Result<&'b [u8], InputFault> {
        let (file, length) = self.open_file(input)?;
        self.read_whole(file, length, buffer)
    }

    fn open<'b, A: Allocator>(
        &'b self,
        input: usize,
        buffer: &'b mut Vec<u8, A>,
    ) -> Result<Opened<'b, Seeking<Telling<'f, R::File>>>, InputFault> {
        if let Some(progress) = &self.progress {
            progress.tell(input);
        }
        match self.open_file(input)? {
            (Giver::File(file), Some(length)) if 0 < length => {
                Ok(Opened::At(Seeking::new(file, length)))
            }
            // Files that the system makes up as they are read have no length.
            (file, _) => Ok(Opened::Whole(self.read_whole(file, None, buffer)?)),
        }
    }

    fn check(&self, input: usize) -> Result<(), InputFault> {
        match self.open_file(input)? {
            // Its types are not needed, so nothing of it is read.
            (Giver::File(_), Some(length)) if 0 < length => Ok(()),
            (file, _) => skip_all(&mut In::new(file), self.max_bytes).map_err(InputFault::Read),
        }
    }
}

impl<'f, R: Files + AllocGlobal + Clock + Eprint + StandardStreams> BoundedInputs
    for InputFiles<'f, R> {
    ghost needs = { λ files input. slice_get files.needed.now input ≡ Some true };

    fn limit(&self) -> u32
        ensures { result ≡ self.now.max_bytes }
    {
        self.max_bytes
    }

    fn is_needed(&self, input: usize) -> bool
        ensures { IsTrue result ↔ (slice_get self.now.needed.now input ≡ Some true) }
    {
        match self.needed.get(input) {
            Some(is_needed) => *is_needed,
            None => false,
        }
    }
}
