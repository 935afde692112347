//! The file that the program writes.

ghost use Rattle.std.specs.Prelude.{◌≡◌, ◌↔◌, ◌<◌, ◌≤◌, ◌⊎◌, IsTrue, OnOk, IfErr, length, take, true, false};
ghost use Rattle.std.specs.Io.KnownBytes.{Appends, Keeps};
ghost use Rattle.show_commands.specs.declared.fault.RunFault.TheVariants.{Memory};
ghost use Rattle.host_files.specs.declared.output.State.TheVariants.{Absent};
ghost use Rattle.host_files.specs.declared.fault.ProgramFault.TheVariants.{Run};
ghost use Rattle.host_files.specs.Output.{IsCreated, IsUncreated, IsWhole, TakesIfCreated, create_fault, taken_of, write_fault};

use crate::fault::{MapFault, ProgramFault};
use crate::said::{Place, Said, Telling};
use crate::same::FileId;
use crate::spare::{Placed, Spare};
use crate::streams::{StandardStreams, Stream, Taker};
use byte_io::{NotTaken, Out, Sink};
use run_options::Making;
use show_commands::RunFault;
use std::fs::{File, OpenFile, OpenOptions};
use std::io::{self, Error, ErrorKind, Write};
use std::os::fd::{AsFd, AsRawFd};
use std::os::unix::fs::FileExt;
use std::random::RandomSource;
use std::rt::Files;
use std::{fmt, fs};

// Each name that the system is told has 4 KB of the stack, so each way to open a file has a frame of its own.

/// Opens a file whose old bytes go.
#[inline(never)]
fn open_over<R: Files>(rt: &R, path: &str) -> io::Result<R::File> {
    fs::create(rt, path)
}

/// Opens a file that is not there yet.
#[inline(never)]
fn open_new<R: Files>(rt: &R, path: &str) -> io::Result<R::File> {
    File::create_new(rt, path)
}

/// The fault of a file that could not be created.
fn create_fault(place: Place) -> ProgramFault
    ensures { result ≡ create_fault place }
{
    match place {
        Place::Map => ProgramFault::Map(MapFault::Create),
        Place::Input | Place::List | Place::Out | Place::StandardOutput => ProgramFault::Create,
    }
}

/// The fault of a file that is not written whole.
fn write_fault(place: Place) -> ProgramFault
    ensures { result ≡ write_fault place }
{
    match place {
        Place::Map => ProgramFault::Map(MapFault::Write),
        Place::Input | Place::List | Place::Out | Place::StandardOutput => {
            ProgramFault::Run(RunFault::Write)
        }
    }
}

/// Why a file is not created at a path that leads to another one that is written.
fn is_other_error() -> Error {
    Error::new(ErrorKind::Unsupported, "the merge writes it")
}

/// Why a standard stream is not written as it is asked for.
fn no_such_stream() -> Error {
    Error::new(ErrorKind::Unsupported, "it is a standard stream")
}

/// Waits until the system has stored a regular file. Pipes and devices have nothing to store.
fn store<F: OpenFile>(file: &F) -> Result<(), NotTaken> {
    let can_be_stored = file.metadata().map_or(true, |metadata| metadata.is_file());
    if can_be_stored {
        file.sync_all().map_err(|_| NotTaken)
    } else {
        Ok(())
    }
}

/// Waits until the system has stored the regular file that a standard stream writes into. The system
/// stores it by its name. Where that can't be opened, nothing is stored.
#[inline(never)]
fn store_named<R: Files>(rt: &R, path: &str) -> Result<(), NotTaken> {
    // A pipe without a reader must not be opened: that would wait for one.
    if !fs::metadata(rt, path).map_or(false, |metadata| metadata.is_file()) {
        return Ok(());
    }
    match OpenOptions::new().append(true).open(rt, path) {
        Ok(file) => store(&file),
        Err(_) => Ok(()),
    }
}

/// The state of a file that is created at its first write.
#[derive(Drop)]
enum State<F> {
    Absent,
    Created(Out<F>),
    Refused,
}

/// A file that is created at its first write. So an older file at its path is untouched until there
/// is something to write. Once it is created, it took what the sink of the file took. A path that
/// names standard output or standard error is that stream as it is: nothing that it has is lost.
#[derive(Drop)]
pub struct NewFile<'a, R: Files> {
    rt: &'a R,
    path: &'a str,
    making: Making,
    place: Place,
    /// The path of a file that this one must not be.
    other: Option<&'a str>,
    said: &'a Said,
    state: State<Taker<'a, R::File>>,
    /// The name that the file has until it takes its place.
    spare: Option<Spare>,
    lacks_memory: bool,
    broken: bool,
}

impl<R: Files> fmt::Debug for NewFile<'_, R> {
    fn fmt<W: fmt::Write>(&self, f: &mut fmt::Formatter<W>) -> fmt::Result {
        f.debug_struct("NewFile")
            .field("path", &self.path)
            .field("making", &self.making)
            .finish_non_exhaustive()
    }
}

impl<'a, R: Files + AllocGlobal + RandomSource + StandardStreams> NewFile<'a, R>
where
    R::File: AsFd + AsRawFd + FileExt,
{
    /// The file at this path. Nothing is done at the path yet. The sink is not broken. What the system
    /// says of the file goes to `said`.
    pub fn new(
        rt: &'a R,
        path: &'a str,
        making: Making,
        place: Place,
        said: &'a Said,
    ) -> NewFile<'a, R>
        ensures whole { ⟦<NewFile<'a, R> as Sink>⟧.is_broken result ≡ false }
        ensures absent { result.state ≡ Absent }
        ensures place { result.place ≡ place }
    {
        NewFile {
            rt,
            path,
            making,
            place,
            other: None,
            said,
            state: State::Absent,
            spare: None,
            lacks_memory: false,
            broken: false,
        }
    }

    /// The same file. It is refused where its path leads to that of another file when it is created.
    pub fn apart_from(self, other: &'a str) -> NewFile<'a, R>
        ensures whole { ⟦<NewFile<'a, R> as Sink>⟧.is_broken result
            ≡ ⟦<NewFile<'a, R> as Sink>⟧.is_broken self.entry }
        ensures state { result.state ≡ self.entry.state }
        ensures place { result.place ≡ self.entry.place }
    {
        NewFile {
            other: Some(other),
            ..self
        }
    }

    /// Whether the file could not be created.
    fn is_refused(&self) -> bool
        ensures { IsTrue result ↔ IsUncreated self.now.state }
    {
        matches!(&self.state, State::Refused)
    }

    /// Why the file could not be created.
    fn refusal(&self) -> ProgramFault
        ensures { (result ≡ Run Memory) ⊎ (result ≡ create_fault self.now.place) }
    {
        if self.lacks_memory {
            ProgramFault::Run(RunFault::Memory)
        } else {
            create_fault(self.place)
        }
    }

    /// Waits until the system has stored the file, unless it broke.
    ///
    /// The fault says why the file could not be created, or that it is not written whole: it broke, or
    /// the system could not store it. No write shows the latter where a disk is across a network. A
    /// file to which nothing was written has no fault.
    pub fn finish(&self) -> Result<(), ProgramFault>
        ensures refused { IsUncreated self.now.state → IfErr result (λ fault.
            (fault ≡ Run Memory) ⊎ (fault ≡ create_fault self.now.place)) }
        ensures written { (IsUncreated self.now.state → ⊥) →
            IfErr result (λ fault. fault ≡ write_fault self.now.place) }
        ensures whole { OnOk result (IsWhole self.now.state self.now.broken) }
        ensures absent { self.now.state ≡ Absent → self.now.broken ≡ false →
            IfErr result (λ _. ⊥) }
    {
        if self.is_refused() {
            return Err(self.refusal());
        }
        if self.broken || self.store().is_err() {
            return Err(write_fault(self.place));
        }
        Ok(())
    }

    /// Waits until the system has stored the file. `NotTaken` where the system could not store it.
    fn store(&self) -> Result<(), NotTaken>
        ensures { IfErr result (λ _. IsCreated self.now.state) }
    {
        match &self.state {
            State::Created(out) => match out.writer() {
                Taker::File(file) => store(file),
                Taker::Output(_) | Taker::Error(_) => store_named(self.rt, self.path),
            },
            State::Absent | State::Refused => Ok(()),
        }
    }

    /// Gives the file its path, if it has another name so far, and says whether that is stored. Where the
    /// system refuses that, nothing is left of the file, and what was at the path is as it was.
    pub fn take_place(&mut self) -> Result<Placed, ProgramFault>
        ensures { IfErr result (λ fault. fault ≡ create_fault self.old.place) }
    {
        let Some(spare) = self.spare.take() else {
            return Ok(Placed::Stored);
        };
        let placed = if self.is_other() {
            Err(is_other_error())
        } else {
            self.put_in_place(&spare)
        };
        match placed {
            Ok(placed) => Ok(placed),
            Err(error) => {
                self.said.keep(self.place, &error);
                spare.remove(self.rt);
                Err(create_fault(self.place))
            }
        }
    }

    /// Puts the file in the place of what is there, unless that has the same bytes.
    fn put_in_place(&self, spare: &Spare) -> io::Result<Placed> {
        match &self.state {
            State::Created(out) => match out.writer() {
                Taker::File(file) => spare.take_place(self.rt, file.file()),
                Taker::Output(_) | Taker::Error(_) => Ok(Placed::Stored),
            },
            State::Absent | State::Refused => Ok(Placed::Stored),
        }
    }

    /// Removes the file, if it has another name so far.
    pub fn abandon(&mut self) {
        if let Some(spare) = self.spare.take() {
            spare.remove(self.rt);
        }
    }

    /// Whether the path leads to the file that this one must not be.
    fn is_other(&self) -> bool {
        match self.other {
            Some(other) => FileId::of(self.rt, self.path).is(self.rt, other),
            None => false,
        }
    }

    /// Opens the file to be written, as it is to be made.
    fn open(&mut self) -> io::Result<Taker<'a, R::File>>
        ensures broken { self.new.broken ≡ self.old.broken }
        ensures state { self.new.state ≡ self.old.state }
    {
        if self.is_other() {
            return Err(is_other_error());
        }
        let file = match (self.making, Stream::named(self.path)) {
            (Making::Overwrite, Some(stream)) => return self.open_stream(stream),
            (Making::Replace, Some(_)) => return Err(no_such_stream()),
            (Making::Overwrite, None) => open_over(self.rt, self.path)?,
            (Making::New, _) => open_new(self.rt, self.path)?,
            (Making::Replace, None) => {
                let (spare, file) = Spare::create(self.rt, self.path)?;
                self.spare = Some(spare);
                file
            }
        };
        Ok(Taker::File(Telling::new(file, self.place, self.said)))
    }

    /// A standard stream, to be written from where it stands.
    fn open_stream(&self, stream: Stream) -> io::Result<Taker<'a, R::File>> {
        let mut taker = match stream {
            Stream::Input => return Err(no_such_stream()),
            Stream::Output => Taker::Output(Telling::new(self.rt.output(), self.place, self.said)),
            Stream::Error => Taker::Error(Telling::new(self.rt.error(), self.place, self.said)),
        };
        // A stream that was closed, or is open for reading alone, refuses this, too.
        taker.write(&[])?;
        Ok(taker)
    }

    /// Creates the file, unless that was tried before. What a created file took stays.
    pub fn create(&mut self)
        ensures tried { IsCreated self.new.state ⊎ IsUncreated self.new.state }
        ensures same { ⟦<NewFile<'a, R> as Sink>⟧.is_broken self.new
            ≡ ⟦<NewFile<'a, R> as Sink>⟧.is_broken self.old }
        ensures keeps { Keeps (⟦<NewFile<'a, R> as Sink>⟧.taken self.old)
            (⟦<NewFile<'a, R> as Sink>⟧.taken self.new) }
    {
        if let State::Absent = &self.state {
            self.state = match self.open() {
                Ok(taker) => State::Created(Out::new(taker)),
                Err(error) => {
                    self.said.keep(self.place, &error);
                    self.lacks_memory = error.kind() == ErrorKind::OutOfMemory;
                    State::Refused
                }
            };
        }
    }
}

impl<'a, R: Files + AllocGlobal + RandomSource + StandardStreams> Sink for NewFile<'a, R>
where
    R::File: AsFd + AsRawFd + FileExt,
{
    ghost taken = { λ s. taken_of ⟦<Out<Taker<'a, R::File>> as Sink>⟧.taken s.state };

    ghost is_broken = { λ s. s.broken };

    fn put(&mut self, bytes: &[u8]) -> usize
        ensures bound { result ≤ length bytes.now }
        ensures takes { Appends
            (taken_of ⟦<Out<Taker<'a, R::File>> as Sink>⟧.taken self.old.state)
            (taken_of ⟦<Out<Taker<'a, R::File>> as Sink>⟧.taken self.new.state)
            (take result bytes.now) }
        ensures refuses { 0 < length bytes.now → result ≡ 0 → self.new.broken ≡ true }
        ensures whole { 0 < result → self.new.broken ≡ self.old.broken }
        ensures stays { self.old.broken ≡ true → self.new.broken ≡ true }
        // Nothing is taken unless the file was created.
        ensures created { TakesIfCreated self.new.state result }
    {
        self.create();
        let count = match &mut self.state {
            State::Created(out) => out.put(bytes),
            State::Absent | State::Refused => 0,
        };
        if count == 0 && !bytes.is_empty() {
            self.broken = true;
        }
        count
    }
}
