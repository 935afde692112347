//! The files that a merge writes.

ghost use Rattle.std.specs.Prelude.{◌≡◌, Ok, Err, OnOk, IfOk, IfSome};
ghost use Rattle.host_files.specs.Output.{IsCreated, IsWhole};
ghost use Rattle.host_files.specs.declared.output.State.TheVariants.{Absent};
ghost use Rattle.host_files.specs.declared.fault.ProgramFault.TheVariants.{Create};

use crate::fault::{MapFault, ProgramFault};
use crate::output::NewFile;
use crate::said::{Place, Said};
use crate::spare::Placed;
use crate::streams::StandardStreams;
use run_options::Making;
use show_commands::RunFault;
use std::fmt;
use std::os::fd::{AsFd, AsRawFd};
use std::os::unix::fs::FileExt;
use std::random::RandomSource;
use std::rt::Files;

/// The files that a merge writes: OUT, and the one for the maps, if they are asked for.
#[derive(Drop)]
pub struct NewFiles<'a, R: Files> {
    rt: &'a R,
    pub out: NewFile<'a, R>,
    pub map: Option<NewFile<'a, R>>,
}

impl<R: Files> fmt::Debug for NewFiles<'_, R> {
    fn fmt<W: fmt::Write>(&self, f: &mut fmt::Formatter<W>) -> fmt::Result {
        f.debug_struct("NewFiles")
            .field("out", &self.out)
            .field("map", &self.map)
            .finish_non_exhaustive()
    }
}

impl<'a, R: Files + AllocGlobal + RandomSource + StandardStreams> NewFiles<'a, R>
where
    R::File: AsFd + AsRawFd + FileExt,
{
    /// The files at these paths. Nothing is done at the paths yet. What the system says of them goes to
    /// `said`.
    pub fn new(
        rt: &'a R,
        out: &'a str,
        map: Option<&'a str>,
        making: Making,
        said: &'a Said,
    ) -> NewFiles<'a, R>
        ensures out { (result.out.state ≡ Absent) × (result.out.place ≡ Place.Out) }
        ensures map { IfSome result.map (λ map. (map.state ≡ Absent) × (map.place ≡ Place.Map)) }
    {
        // The path for the maps may lead to OUT once that is there.
        let map = match map {
            Some(path) => { Some(NewFile::new(rt, path, making, Place::Map, said).apart_from(out)) }
            None => None,
        };
        NewFiles {
            rt,
            out: NewFile::new(rt, out, making, Place::Out, said),
            map,
        }
    }

    /// Waits until the system has stored the files, after a merge that gave this answer. If there are no
    /// maps to write, the file for them is created, and has no bytes.
    ///
    /// The fault is that of OUT, then that of the file for the maps, and then that of the merge.
    pub fn finish<T: Drop>(&mut self, merged: Result<T, RunFault>) -> Result<T, ProgramFault>
        ensures out { OnOk result (IsWhole self.new.out.state self.new.out.broken) }
        ensures map { OnOk result (IfSome self.new.map (λ map.
            IsCreated map.state × IsWhole map.state map.broken)) }
        ensures merged { IfOk result (λ done. merged ≡ Ok done) }
    {
        self.out.finish()?;
        if let Some(map) = &mut self.map {
            if merged.is_ok() {
                map.create();
            }
            map.finish()?;
        }
        Ok(merged?)
    }

    /// Puts OUT in its place, and then the file for the maps. Where OUT is refused, `Create`, nothing is
    /// done with the other. If the path of that leads to OUT now, or the system refuses it, `Map` says
    /// so, and nothing is left of it.
    pub fn take_places(&mut self) -> Result<Placed, ProgramFault>
        ensures first { result ≡ Err Create → self.new.map ≡ self.old.map }
    {
        let placed = self.out.take_place()?;
        let Some(map) = &mut self.map else {
            return Ok(placed);
        };
        match map.take_place() {
            Ok(other) => Ok(placed.with(other)),
            Err(_) => Err(ProgramFault::Map(MapFault::Create)),
        }
    }

    /// Removes the files that have not taken their places.
    pub fn abandon(&mut self) {
        self.out.abandon();
        if let Some(map) = &mut self.map {
            map.abandon();
        }
    }
}
